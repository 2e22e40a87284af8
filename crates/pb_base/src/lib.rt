//! What tables, programs and texts all speak of: names of cells and what cells hold, the batch of a
//! script, the reasons of refusals with their numbers, the limits, and sinks of bytes. It stands
//! below all else, so that each of these is defined once: a reader of `put 7 0 2a` makes the same
//! `Cell::Data(Row(7), ..)` that a tablet sorts by and a journal keeps. Its types ensure what they
//! promise where a value is made, since a value that can't be wrong is tested nowhere else. A
//! `Column` is below 16, an `ObserverNo` below 32, and a `Batch` has 1 to 16 distinct data cells.
#![tactic(auto)]

mod batch;
mod cell;
mod content;
mod limits;
mod names;
mod refusal;
mod sink;
mod writes;

pub use batch::Batch;
pub use cell::Cell;
pub use content::{Content, Revision, Value};
pub use limits::{
    COLUMNS, MAX_CELLS, MAX_CHANGES, MAX_ENTRIES, MAX_EVENTS, MAX_OBSERVERS, MAX_SEATS,
    limits_are_these,
};
pub use names::{Column, ObserverNo, Row, Ts};
pub use refusal::{NoMemory, Reason, Refusal, Refused};
pub use sink::{Out, Sink, SinkFault};
pub use writes::are_same_writes;
