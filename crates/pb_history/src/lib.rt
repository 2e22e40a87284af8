//! Journals of the shared table, and what holds of legal ones.
//!
//! A journal is legal where it is a run of steps from the table as opened. The laws stand apart
//! from the code that takes steps, since they follow from the definition of a step alone, and a new
//! body needn't check them anew. Those who call them (`pb_state`, `pb_core`, jobs, worlds, reports)
//! have them as contracts. The promise, of every legal journal, of however many seats: its history
//! is one of snapshots, no two writers of a cell overlap, the table holds that history, and each
//! change is handled by at most one committed run of an observer, by one where neither mark nor
//! lock is left. Two runs of an observer for one change, for example, both write its
//! acknowledgment, so that one was committed before the other began, and the later one reads it.
//! The crate also has how a call is kept in the journal.
#![tactic(auto)]

mod entry;
mod kept_call;
mod laws;

pub use entry::{Entry, KeptEntry, Received};
pub use kept_call::{CallRoom, KeptCall};
pub use laws::{
    acknowledged_is_earlier, behind_is_marked, clock_is_last_given, commits_are_ordered,
    first_marks_are_found, handled_at_most_once, handled_when_quiet, histories_are_told,
    journals_are_sound, journals_tell, quiet_is_counted, reads_are_told, reads_tell_snapshots,
    reasons_rise, records_are_told, runs_are_counted, runs_are_told, scripts_write_batches,
    sound_has_data, steps_can_answer, steps_have_one_outcome, steps_keep_sound, sweeps_unmark,
    timestamps_rise, transactions_are_told, writers_are_apart,
};
