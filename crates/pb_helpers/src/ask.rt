//! What a program asks, and what it is answered: both are kept in order with a run, and compared
//! where it is declared.
ghost use Rattle.std.specs.Prelude.{◌≡◌, ◌↔◌, IsTrue};
ghost use Rattle.pb_isa.specs.Machine.{IsReply};
ghost use Rattle.pb_helpers.specs.Replies.{ask_of, reply_of};

use pb_base::{Column, Row, Value};

/// A cell that a program reads: helper 1 with a column of 0 to 15. A column over 15 makes no ask, since there is no
/// such cell.
#[derive(Clone, Copy, Debug, PartialEq, Eq)]
pub struct Ask {
    pub row: Row,
    pub column: Column,
}

/// What the program is answered about the cell.
#[derive(Clone, Copy)]
pub enum Reply {
    /// Its value.
    Found(Value),
    /// It is absent, or deleted: a program doesn't learn which.
    Absent,
}

impl Ask {
    /// Whether it is of the same cell.
    pub fn is_same(self, other: Ask) -> bool
        ensures { IsTrue result ↔ (ask_of self ≡ ask_of other) }
    {
        self.row == other.row && self.column == other.column
    }
}

impl Reply {
    /// The value, where there is one.
    pub fn value(self) -> Option<Value>
        ensures value { result ≡ reply_of self }
        ensures reply { IsReply (reply_of self) }
    {
        match self {
            Reply::Found(value) => Some(value),
            Reply::Absent => None,
        }
    }
    /// Whether both are the same answer.
    pub fn is_same(self, other: Reply) -> bool
        ensures { IsTrue result ↔ (reply_of self ≡ reply_of other) }
    {
        match (self, other) {
            (Reply::Found(a), Reply::Found(b)) => a == b,
            (Reply::Absent, Reply::Absent) => true,
            _ => false,
        }
    }
}
