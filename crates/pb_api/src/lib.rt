//! What other languages call in their own process, of what needs no table: functions from bytes to bytes. `percobpf_c` exports
//! them under names of C.
//!
//! Nothing here has a state of its own, keeps anything between two calls, takes a lock, or starts a thread, so that any thread may call
//! it at any time. It takes memory from the allocator that it is given, and gives all of it back before it returns.
//!
//! **Answers.** Each call returns a struct of numbers, by value. Its first member is the kind ([`AnswerKind`]), which means the
//! same in all of them. What a kind says nothing of is 0.
//!
//! **Texts, and bytes, into a caller's buffer** follow C's `snprintf`. `out` is the last argument, in C a pointer and then
//! `room`, how many bytes there are. What fits is written from its start on, and the bytes after that stay as they are. The
//! member `needed` is how many bytes the whole has, whether it fits or not, and the kind doesn't say which: so a call with no
//! room measures. There is no byte 0 at the end, since what is written may be bytes. An answer without a text leaves
//! `out` as it is, and its `needed` is 0. A clause says this with `filled` (specs/Buffers.antt), and `buffer::fill` does it.
#![tactic(auto)]

mod answer;
mod buffer;
mod judging;
mod kind;
mod manifests;
mod numbers;
mod page;
mod programs;
mod replaying;
mod running;
mod versions;

pub use answer::TextAnswer;
pub use judging::{ProgramVerdict, judge_by_numbers};
pub use kind::{AnswerKind, KindNumber};
pub use manifests::{ManifestVerdict, judge_manifest};
pub use programs::{assemble_numbered, list_numbered};
pub use replaying::replay;
pub use running::{ChangeGiven, Reached, ReplyGiven, WriteMade, run_by_numbers};
pub use versions::{Versions, known_versions};
