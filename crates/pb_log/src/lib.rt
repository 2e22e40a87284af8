//! A log: records on one disk, each kept whole or not at all whenever the machine stops, and kept once it is acknowledged.
//!
//! After the last record a gate of one byte stands closed on the disk. The next record is written after that gate, with the
//! next closed gate after it, and synced; then the gate is opened by a write of its own, and synced. So what a crash tears
//! stands after a closed gate, and no sum is trusted to find a torn record. The sum of a record, which also covers the place
//! where it begins, shows damage. The contracts promise that a file stands for one list of records. They promise that a crash
//! at any moment of a call leaves the records of before, with the new one or without it. They also promise that a file that
//! is damaged is reported, with the place, and that each fault has a cause: a failed call of the disk, a refused growth, or
//! what the file holds. A copy of a log has its records, and no part of them until it has all. The first record is the header, with the version of the log and the manifest, byte by byte. So a log
//! of the manifest `{}` begins with the byte `0xa5`, and its first record is `percobpf log 1`, a line feed and `{}`.
#![tactic(auto)]

mod copying;
mod fault;
mod header;
mod laws;
mod log;
mod manifest;
mod opening;
mod reading;
mod recovery;

pub use fault::LogFault;
pub use laws::{files_have_one_reading, shut_logs_open, turned_gates_show};
pub use log::Log;
pub use reading::read_records;
