//! Entries of the journal, and of what a seat received.
use crate::kept_call::{CallRoom, KeptCall};
use pb_steps::{Answer, Step};
use std::marker::Model;

/// An entry of the journal: who took which step, and what it was answered.
#[derive(Drop)]
pub struct Entry {
    pub seat: u32,
    pub step: Step,
    pub answer: Answer,
}

/// A step that a seat took, and what it was answered. The seat's owner has the list, so that it can be compared with
/// the journal in the end.
#[derive(Drop)]
pub struct Received {
    pub step: Step,
    pub answer: Answer,
}

impl Received {
    ghost use Rattle.std.specs.Prelude.{◌≡◌, ◌↔◌, IsTrue};

    /// Whether it is the same step, and was answered the same.
    pub fn is_same(&self, other: &Received) -> bool
        ensures { IsTrue result ↔ (self.now ≡ other.now) }
    {
        self.answer == other.answer && self.step.is_same(&other.step)
    }
}

/// An entry as the journal keeps it, in little room: contracts see an [`Entry`].
#[derive(Drop)]
pub struct KeptEntry {
    seat: u32,
    call: KeptCall,
}

impl Model for KeptEntry {
    ghost use Rattle.pb_history.specs.declared.entry.Entry.{Entry};

    ghost Value = { Entry };

    ghost view = { λ e. record { seat = e.seat; step = e.call.step; answer = e.call.answer } };
}

impl KeptEntry {
    ghost use Rattle.std.specs.Prelude.{◌≡◌, true};

    /// Keeps the entry of this seat's step. It takes the room only where it needs it, as [`KeptCall::new`] does.
    pub fn new(seat: u32, step: Step, answer: Answer, room: &mut CallRoom) -> KeptEntry
        requires { room.old ≡ true }
        ensures { result ≡ record { seat = seat; step = step; answer = answer } }
    {
        let call = KeptCall::new(step, answer, room);
        KeptEntry { seat, call }
    }

    /// The number of the seat that took the step.
    pub fn seat(&self) -> u32
        ensures { result ≡ self.now.seat }
    {
        self.seat
    }

    /// The step and its answer.
    pub fn call(&self) -> &KeptCall
        ensures { result.now ≡ record { step = self.now.step; answer = self.now.answer } }
    {
        &self.call
    }
}
