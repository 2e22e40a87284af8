//! The end of a run: each seat's list is compared with the table's journal.
//!
//! `finish` accepts a table with its seats where each list is the journal's entries of its seat, and hands both back
//! where one isn't. It stands beside `pb_threads`, since it asks nothing of how the seats came to their lists, so that
//! the two are proved side by side. `pb_driver` reports of a table that has ended so. Of a journal with one entry, of
//! seat 1, it accepts seats whose lists are empty but for that of seat 1, which has this entry's step and answer.
#![tactic(auto)]

mod ending;
mod same;

pub use ending::{Ended, finish};
