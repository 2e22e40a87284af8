//! The lines by which a table that lasts is changed and asked, as they are read.
//!
//! `percobpf_keep` reads a line at a time and answers it. A change is a line of a script, so that the log, which has
//! those lines, is a script too; all other lines are questions, stand around changes, or ask that the log begins anew. It is
//! a crate of its own, since neither the log nor the table knows of lines. The promise: a line is read exactly as its format
//! says, or is refused by the code of its first word at fault. The operations of a change are read by `pb_parse`, as those of
//! a script. So `get 7 1` asks for the newest write of a cell, `if 7 0 4; put 7 0 2a` is a change that is made only if cell
//! 7 0 was last written by commit 4, and `get 7` is refused with 70.
#![tactic(auto)]

mod parse;
mod request;

pub use parse::{MAX_LINE, parse_request};
pub use request::{Condition, Request};
