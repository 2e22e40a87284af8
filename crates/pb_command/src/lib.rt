//! What a command line asks for, done over paths and sinks.
//!
//! It joins a run and a replay, which `pb_driver` does with texts, to files and programs, which
//! `pb_files` reads and judges, and reports each fault and the status. `percobpf` calls it with the
//! system's files, and the story program takes its faults and its status. Where a command answers
//! 0, it did so for what its files hold, and `run` left nothing undone; only `asm` writes a path,
//! OUT. So `check` of an empty file writes `refused slot 0 code 10` and answers 1, and a file that
//! isn't there is reported as the fault `cannot read PATH`.
#![tactic(auto)]

mod carry;
mod fault;
mod words;

pub use carry::{command, of_files, sequential_command, status_of};
pub use fault::Fault;
pub use words::{exit_status, lent, refuse, words_given};
