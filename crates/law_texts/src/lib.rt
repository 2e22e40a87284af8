//! What scripts are read as, in the words of their format, what numbers of manifests and options name, and which timestamp
//! a report is of: laws, on which nothing is built, so that they make no crate wait for them.
//!
//! `pb_parse` defines how a script is read, from left to right with its first fault;
//! docs/FORMATS.md says how one is written. Here both are one: a text is read as these transactions
//! exactly where it is written as theirs. So the line `put 7 0 2a` is read as a write of 2a and 31
//! zeros to cell 7 0, and but for zeros after the 2a no other is. Of reports the promise is that
//! they are of the last timestamp that the journal gave out. Profiles and versions are named by 1
//! and 2, which the laws write as figures.
#![tactic(auto)]

mod numbers;
mod reports;
mod scripts;
mod words;

pub use numbers::{manifests_name_profiles_and_records, options_name_profiles_and_versions};
pub use reports::reports_are_of_the_last_given;
pub use scripts::{
    lines_are_read_as_written, operations_are_read_as_written, scripts_are_read_as_written,
};
pub use words::plain_words_are_taken;
