//! The report of a table, and what reads scripts and schedules, which stand in `pb_parse`.
//!
//! A report shows what a table was brought to: the newest committed write of each data cell, the
//! runs of each observer, and what is left to do. It stands above the table, so that neither
//! journal nor state knows of texts. `pb_driver` and `pb_story` end with it, and they take what
//! reads scripts and schedules by its name too. A report has its lines and no others; a cell's is
//! of what a snapshot at the table's clock has there, since no commit is above that clock. After
//! `put 7 0 2a` alone it is `cell 7 0 commit 2 value 2a` and `quiet`.
#![tactic(auto)]

mod fault;
mod output;
mod reports;
mod tallies;

pub use fault::ReportFault;
pub use output::report;
pub use pb_parse::{
    Event, Job, ScriptFault, event_lines_are_read_as_written, fault_is_first,
    operation_fault_is_first, parse_schedule, parse_script, reads_batches, reads_operations,
    schedule_fault_is_first, schedule_faults_are_told_where_they_are, schedules_are_their_lines,
};
pub use reports::{
    Newest, Put, Tally, add_cell_line, digits_of, last_line, note, one_report, report_of,
};
