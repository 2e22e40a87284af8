//! Scripts and schedules, as their texts are read.
//!
//! A script is the changes of a run, and a schedule the events of a replay. One crate reads both, since a fault of either
//! is a line and a code, and worlds take its `Event` without anything of reports. `pb_driver` reads its texts
//! by the names that `pb_script` hands on. A text is read line by line, exactly as its format
//! defines; or its first line at fault is returned, with that line's first fault, unless memory
//! ran out. So `put 7 0 2a; del 7 1` is one batch of two cells, and a second line `put 7 16 2a` is
//! line 2 code 71, since there is no column above 15.
#![tactic(auto)]

mod event;
mod schedule;
mod script;

pub use event::{Event, Job};
pub use pb_reading::TextFault as ScriptFault;
pub use schedule::{
    event_lines_are_read_as_written, parse_schedule, schedule_fault_is_first,
    schedule_faults_are_told_where_they_are, schedules_are_their_lines,
};
pub use script::{
    ScriptCode, batch_of, cell_of, fault_is_first, first_operation, operation_fault_is_first,
    parse_script, reads_batches, reads_operations, value_of_word,
};
