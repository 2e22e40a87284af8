//! What the program does with its texts: a run of workers, or a replay of a schedule's events, and the report of what
//! they left.
//!
//! It is the whole way from texts to a report, without words, files and status, and stands in a
//! library, since the crate of a program can't be called by another. `pb_command` calls it for
//! `run` and `replay`, and the story program has it open the world of a replay. What it writes is
//! the report of the journal that its seats or its events name, from the table opened with the
//! manifest's observers. A fault before that leaves the sink as it was. The table is ended on every
//! path. So `run_texts` of the script `put 7 0 2a` with no observers and one worker writes
//! `cell 7 0 commit 2 value 2a` and `quiet`, and leaves nothing undone.
#![tactic(auto)]

mod fault;
mod replay;
mod run;
mod texts;

pub use fault::RunFault;
pub use replay::{open_replay, replay_texts};
pub use run::{Ran, run_texts};
