//! Refusals: a reason inside, and a number at the public edge.
ghost use Rattle.std.specs.Prelude.{◌≡◌};
ghost use Rattle.pb_base.specs.Reasons.{reason_code, refusal_by, memory_refusal};
ghost use Rattle.pb_base.specs.Growths.{refused_growth};

use std::alloc::{AllocError, AllocFailed};
use std::fmt;
use thiserror::Error;

/// A growth was refused: refusal 1. Its field is private, and it is made of the standard library's errors alone, so that
/// code without a refused growth can't answer that memory is wanted. It is neither copied nor cloned: one refused growth is
/// reported once.
#[derive(Debug, PartialEq, Eq, Drop, Error)]
#[error("no memory")]
pub struct NoMemory {
    refused: (),
}

// A refused growth carries nothing else, so that `?` makes it this refusal. There are two, since a
// call that was given a value, such as `push`, hands it back with its error.
impl From<AllocError> for NoMemory {
    ghost from_gives = { λ _ e. e ≡ refused_growth };

    fn from(_e: AllocError) -> NoMemory {
        NoMemory { refused: () }
    }
}

impl<T: Drop> From<AllocFailed<T>> for NoMemory {
    ghost from_gives = { λ _ e. e ≡ refused_growth };

    fn from(_e: AllocFailed<T>) -> NoMemory {
        NoMemory { refused: () }
    }
}

impl NoMemory {
    /// The value that a call was given and handed back with its error, and the refused growth.
    pub fn with_value<T>(failed: AllocFailed<T>) -> (T, NoMemory)
        ensures { result ≡ (failed.value, refused_growth) }
    {
        let AllocFailed { value } = failed;
        (value, NoMemory { refused: () })
    }
}

/// Why a call of the table, or of its tablets, is refused, but for want of memory, which has no reason beside the refused
/// growth. Definitions name the reason, since a number says nothing to those who read them; callers get the number.
#[derive(Clone, Copy, Drop)]
pub enum Reason {
    /// There is no tablet.
    NoTablet,
    /// The first rows of the tablets don't rise from 0.
    RowsDontRise,
    /// A table or a tablet isn't empty.
    NotEmpty,
    /// The table has no such place.
    NoSuchPlace,
    /// The clock is at its greatest.
    OutOfTimestamps,
    /// The table has no such seat, or the seat no such transaction.
    NotOfSeat,
    /// The transaction isn't in the phase of this step, or a cell comes before its primary.
    WrongPhase,
    /// What is declared isn't of this transaction.
    NotItsDeclaration,
    /// The journal is at its limit.
    JournalFull,
    /// The transaction didn't declare the cell.
    NotDeclared,
    /// The transaction has prewritten the cell.
    AlreadyPrewritten,
    /// The table has no such observer.
    NoSuchObserver,
    /// The snapshot that is asked for is later than the transaction's start.
    LaterThanStart,
}

impl Reason {
    /// The number by which it is reported. 48 is no reason's, since it is reported for a whole run,
    /// whose seats differ from its journal.
    pub fn code(self) -> u8
        ensures { result ≡ reason_code self }
    {
        match self {
            Reason::NoTablet => 2,
            Reason::RowsDontRise => 3,
            Reason::NotEmpty => 4,
            Reason::NoSuchPlace => 5,
            Reason::OutOfTimestamps => 40,
            Reason::NotOfSeat => 41,
            Reason::WrongPhase => 42,
            Reason::NotItsDeclaration => 43,
            Reason::JournalFull => 44,
            Reason::NotDeclared => 45,
            Reason::AlreadyPrewritten => 46,
            Reason::NoSuchObserver => 47,
            Reason::LaterThanStart => 49,
        }
    }

    /// The refusal with its number.
    pub fn refusal(self) -> Refusal
        ensures { result ≡ refusal_by self }
    {
        Refusal(self.code())
    }
}

/// The number of a refusal. It is private, so that 1 is made of a refused growth alone.
#[derive(Debug, Drop, Error)]
#[error("refused with {0}")]
pub struct Refusal(u8);

impl From<NoMemory> for Refusal {
    ghost from_gives = { λ _ r. r ≡ memory_refusal };

    fn from(_e: NoMemory) -> Refusal {
        Refusal(1)
    }
}

impl Refusal {
    ghost use Rattle.std.specs.Prelude.{◌==◌, if◌then◌else◌, Ok, Err};

    /// The number.
    pub fn code(&self) -> u8
        ensures { result ≡ self.now.0 }
    {
        self.0
    }

    /// The refused growth that it was made of, or the number of another refusal.
    pub fn memory(self) -> Result<NoMemory, u8>
        ensures { result ≡ (if self.0 == 1 then Ok refused_growth else Err self.0) }
    {
        if self.0 == 1 {
            Ok(NoMemory { refused: () })
        } else {
            Err(self.0)
        }
    }
}

/// The slot at which a program is refused, and the code.
#[derive(Clone, Copy, Debug, PartialEq, Eq, Drop)]
pub struct Refused {
    pub slot: u16,
    pub code: u8,
}

impl fmt::Display for Refused {
    ghost use Rattle.std.specs.Prelude.{Some};
    ghost use Rattle.pb_base.specs.Refusals.{slot_and_code};

    ghost output = { λ r. Some (slot_and_code r.slot r.code) };

    fn fmt<W: fmt::Write>(&self, f: &mut fmt::Formatter<W>) -> fmt::Result {
        let Refused { slot, code } = *self;
        write!(f, "refused slot {slot} code {code}")
    }
}

impl std::error::Error for Refused {}
