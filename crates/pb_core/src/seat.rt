//! Seats, and the books of their places in the journal.
ghost use Rattle.std.specs.Prelude.{◌≡◌};

use pb_base::NoMemory;
use pb_history::{CallRoom, KeptCall};
use std::alloc::Global;
use std::marker::Model;

/// The places of one seat's entries in the journal, in 4 bytes each, since a journal has at most 1,000,000 entries.
#[derive(Drop)]
pub(crate) struct Book {
    pub(crate) places: Vec<u32>,
}

impl Model for Book {
    ghost use Rattle.std.specs.Prelude.{ℕ, List};

    ghost Value = { List ℕ };

    ghost view = { λ b. b.places.items };
}

/// A seat at a shared table: its number, and the list of its steps and answers. Only the table adds to that list, so
/// that it is what the table answered, whoever has it.
#[derive(Drop)]
pub struct Seat {
    pub(crate) number: u32,
    pub(crate) received: Vec<KeptCall>,
    // Room for its next call, in its list and in the journal, made before the step so that no answer is lost.
    // It stands here, since a seat can be given room where nobody waits for the table.
    pub(crate) room: CallRoom,
    pub(crate) journal_room: CallRoom,
}

impl Model for Seat {
    ghost use Rattle.pb_core.specs.Calls.{SeatOf};

    ghost Value = { SeatOf };

    ghost view = { λ s. record { number = s.number; received = s.received.items } };
}

impl Seat {
    ghost use Rattle.std.specs.Prelude.{◌≡◌, []};

    // One with an empty list.
    pub(crate) fn new(alloc: Global, number: u32) -> Seat
        ensures { result ≡ record { number = number; received = [] } }
    {
        Seat {
            number,
            received: Vec::new(alloc),
            room: CallRoom::new(alloc),
            journal_room: CallRoom::new(alloc),
        }
    }

    /// Makes room for the next step and its answer, where there is none, for a caller that shares a table under a lock: before
    /// it takes the lock, so that nobody waits for that. [`Shared::call`](crate::Shared::call) itself makes what is missing.
    /// The seat's list stays as it is, also where memory is refused.
    pub fn make_room(&mut self) -> Result<(), NoMemory>
        ensures { self.new ≡ self.old }
    {
        self.received.reserve(1)?;
        self.room.make()?;
        self.journal_room.make()?;
        Ok(())
    }

    /// Its number at its table, from 0.
    pub fn number(&self) -> u32
        ensures { result ≡ self.now.number }
    {
        self.number
    }

    /// Its steps and answers, in order.
    pub fn received(&self) -> &[KeptCall]
        ensures { result.now ≡ self.now.received }
    {
        &self.received
    }
}
