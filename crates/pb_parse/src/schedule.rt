//! A schedule's text, read exactly: its lines, the words of these, and the laws of both.
mod code;
mod laws;
mod lines;
mod words;

pub use laws::{
    event_lines_are_read_as_written, schedule_fault_is_first,
    schedule_faults_are_told_where_they_are, schedules_are_their_lines,
};
pub use lines::parse_schedule;
