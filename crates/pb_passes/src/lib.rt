//! Passes over the marked cells (OSDI 2010, section 2.4): what they are, for whoever makes them.
//!
//! A pass goes from mark to mark, and runs on each marked cell the observers of its column, in file order. A drain is
//! passes up to one that finds no mark. `pb_threads` makes them by calls under a lock, `pb_keeper` by the only seat of a
//! state. Both cite these definitions, so that a law on drains is one on both.
//!
//! A drain that was cut off, which `pb_threads` alone states, is whole passes and a beginning of the next. With the
//! observers `a` of column 0 and `b` of column 1, a pass that finds row 7, column 0, runs `a` there, and no other.
#![tactic(auto)]

mod observers;
mod passes;

pub use observers::{is_observer_of, job_on};
pub use passes::{MAX_PASSES, passes_limit_is_this};
