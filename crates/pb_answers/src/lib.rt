//! The texts that answer questions of a table: what a cell holds, what was written since a commit, the report, whether it is
//! quiet, and what its observers have done.
//!
//! A table that is kept on a log answers from a `State`, which has entries and marks and no journal. So each answer is
//! defined by what the entries have, with the words of the report, and the report's lines are those of `pb_script`. Where no
//! lock stands, that is what the history has (`answers_show_history`). What the observers did is kept beside the state. The
//! crate stands above the state, so that no step knows of texts, and below the program, which reads the questions and
//! prints. The promise: an answer is exactly what its definition gives for the state, whole before the caller has it;
//! refused for memory, there is none, and the state, which is lent, is as it was. A body that refuses at once meets every
//! contract here but that of `newest_of`, so that tests at the top have to pin that answers come. After `put 7 0 2a` alone,
//! `get 7 0` is answered `value 2a commit 2`, and `quiet?` by `quiet`.
#![tactic(auto)]

mod get;
mod laws;
mod lines;
mod list;
mod newest;
mod quiet;
mod records;
mod stats;
mod tallies;
mod writes;

pub use get::answer_get;
pub use laws::answers_show_history;
pub use list::answer_list;
pub use newest::newest_of;
pub use pb_script::Newest;
pub use quiet::answer_quiet;
pub use stats::{answer_stats, entries_of};
pub use writes::answer_since;
