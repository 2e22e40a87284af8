//! A table that lasts: its changes are on a disk before they are made, and are made again when it is opened.
//!
//! `percobpf_keep` reads lines and answers each; this crate says what it does for one. A change is put into the log with
//! those that wait with it, made, and the observers run until nothing is left for them; then it is answered. So an answer
//! says that the change is on the disk, and a change without one is made whole or not at all when the log is opened again.
//! The log has the lines themselves, so that replay reads what was kept by the same reader. The crates below know one
//! thing each: `pb_log` records on a disk, `pb_keeper` changes of a table, `pb_requests` and `pb_answers` lines. Where
//! `put 7 0 2a` and `put 8 0 2b` wait together, both are in one record, and are answered `made 2 runs 1` and
//! `made 6 runs 1` with the observer of examples/copy.json.
#![tactic(auto)]

mod anew;
mod compact;
mod copies;
mod fault;
mod first;
mod folder;
mod head;
mod keeper;
mod laws;
mod lines;
mod made;
mod memory_folder;
mod observers;
mod opened;
mod questions;
mod replace;
mod service;
mod source;
mod take;
mod waiting;

pub use anew::make_records_anew;
pub use compact::SnapshotFault;
pub use copies::{copy_log, count_log};
pub use fault::KeepFault;
pub use folder::{Folder, NamedLog};
pub use head::split_head;
pub use keeper::Keeper;
pub use laws::{files_have_one_list, good_logs_open, opened_logs_go_on};
pub use lines::{Line, Piece, read_line};
pub use memory_folder::{FolderFault, MemoryFolder};
pub use opened::Opened;
pub use questions::answer_questions;
pub use replace::{ReplaceFault, replace_log};
pub use service::{Paused, serve};
pub use source::{In, InputFault, LineSource};
pub use take::Took;
pub use waiting::{MAX_RECORD, Waiting, Waits};
