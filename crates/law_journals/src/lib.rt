//! How reads at a timestamp are answered, and what a run sees of its snapshots: laws of legal journals, on which nothing
//! is built, so that they make no crate wait for them.
//!
//! `pb_history` states which snapshot each read returns, and what each run's program means on what
//! it read. For this it names definitions that the table's code follows too: which locks hide a
//! cell, what a deleted cell shows, and at which timestamp a run reads its cell once more. Here
//! these are stated in other words. If a cell was written at 2, deleted at 4 and locked by a
//! transaction of start 5, a read at 4 by one of start 6 returns the deletion, which is no value to
//! its program. The promise is that both state the same, of every legal journal.
#![tactic(auto)]

mod reads;
mod runs;

pub use reads::{
    acknowledged_versions_are_found, later_locks_hide_nothing, reads_up_to_the_start_are_taken,
};
pub use runs::{runs_look_back_to_their_acknowledgment, values_are_shown};
