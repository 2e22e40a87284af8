//! What an answer is, by its number.
ghost use Rattle.std.specs.Prelude.{◌≡◌};
ghost use Rattle.pb_api.specs.Kinds.{asks_kind, kind_number};

use pb_base::NoMemory;
use std::marker::Model;

/// What an answer is. A function that has more to report goes on from 5.
#[derive(Drop)]
pub enum AnswerKind {
    /// It is done: accepted, assembled, listed or replayed.
    Done,
    /// What was given is at fault: the other members have the place and the code.
    Refused,
    /// A growth was refused. The same call may be made again.
    NoMemory(NoMemory),
    /// A number isn't one of those that it may be.
    BadArgument,
    /// What is to be a text isn't UTF-8.
    NotText,
}

/// The number of an answer's kind, as C gets it. It is private, so that it is made of an `AnswerKind` alone, whose case of want
/// of memory holds a receipt, or of an ask.
#[repr(C)]
#[derive(Clone, Copy)]
pub struct KindNumber {
    number: u32,
}

impl Model for KindNumber {
    ghost use Rattle.std.specs.Prelude.{ℕ};

    ghost Value = { ℕ };

    ghost view = { λ k. k.number };

    ghost inverse = { λ n. record { number = n } };
}

impl AnswerKind {
    /// The number that C gets.
    pub fn number(&self) -> KindNumber
        ensures { result ≡ kind_number self.now }
    {
        match self {
            AnswerKind::Done => KindNumber { number: 0 },
            AnswerKind::Refused => KindNumber { number: 1 },
            AnswerKind::NoMemory(_) => KindNumber { number: 2 },
            AnswerKind::BadArgument => KindNumber { number: 3 },
            AnswerKind::NotText => KindNumber { number: 4 },
        }
    }
}

impl KindNumber {
    /// The number where a program asks for a cell, after those of `AnswerKind`.
    pub(crate) fn asks() -> KindNumber
        ensures { result ≡ asks_kind }
    {
        KindNumber { number: 5 }
    }
}
