//! The shared table with its journal, its books and its seats.
//!
//! A shared table is a state with the journal that led to it; each answered call adds an entry there, its place to the
//! seat's book, and step and answer to the seat in the caller's hands. It stands apart from `pb_state`, since a state
//! has no past, and only what was asked by whom can be compared in the end. Workers call it under a lock, worlds event
//! by event, and programs with a loop of their own. The promise: a call adds its one entry to journal and seat, or is
//! refused and changes nothing; the journal is legal; a swap changes neither state nor journal. On a table just opened
//! with the clock 0, `Begin(Script)` of seat 1 is answered `At(1)`, and journal and seat 1 have one entry.
#![tactic(auto)]

mod laws;
mod seat;
mod shared;

pub use laws::legal_tables_tell;
pub use pb_accepted::{Accepted, Observer};
pub use pb_finished::Finished;
pub use pb_helpers::Record;
pub use pb_history::{Entry, KeptCall, KeptEntry, Received};
pub use pb_steps::{
    Answer, Declaration, Declared, EndedRun, Phase, RecordedRead, Seen, Step, Work,
    acknowledged_in, version_in,
};
pub use pb_vm::{Moved, Vm};
pub use seat::Seat;
pub use shared::{OpenRefused, Shared};
