//! The record of a snapshot: what a log begins with in place of the changes that led to the table.
//!
//! A record has the byte `0xff`, the word `snapshot`, the version 1 and a line feed; the clock; the number of the observers,
//! and of each its runs, those with a result other than 0, its conflicts, asks and instructions; and then, up to its end, the
//! cells with their versions. A version has its kind in one byte, its row, its column in one byte, its start and its commit.
//! After these a value has its 32 bytes (kind 0), a deletion nothing (1), and an acknowledgment its observer in one byte (2).
//! All other numbers have eight bytes, the low ones first. So a snapshot of an empty table without observers whose clock is
//! 3 has the bytes `ff 73 6e 61 70 73 68 6f 74 20 31 0a  03 00 00 00 00 00 00 00  00 00 00 00 00 00 00 00`.
//!
//! The contracts promise that the reader accepts exactly the records of the snapshots whose contents are of their cells, and
//! that a record is of one snapshot. None is a text, so none is taken for a script.
//!
//! A snapshot that is taken of a quiet table begins its next generation: a state that took it over goes on as that table would.
//! No state refuses the versions of a snapshot that was taken of a kept table.
//!
//! Where a table goes on with some of its observers, in any order, what is chosen of its snapshot serves: their acknowledgments
//! and stats under their new numbers, and all data. The acknowledgments of others aren't kept.
#![tactic(auto)]

mod beginning_law;
mod choosing;
mod order_law;
mod reading;
mod record_laws;
mod snapshot;
mod taking;
mod writing;

pub use beginning_law::{chosen_begin, snapshots_begin};
pub use choosing::choose_observers;
pub use order_law::{chosen_are_accepted, taken_are_in_order};
pub use reading::read_snapshot;
pub use record_laws::{records_are_of_one_snapshot, snapshots_are_no_texts};
pub use snapshot::Snapshot;
pub use taking::take_snapshot;
pub use writing::snapshot_record;
