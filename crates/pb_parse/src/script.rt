//! A script's text, read exactly: its lines, their operations and the words of these.
mod code;
mod lines;
mod words;

pub use code::ScriptCode;
pub use lines::{
    batch_of, fault_is_first, first_operation, operation_fault_is_first, parse_script,
    reads_batches, reads_operations,
};
pub use words::{cell_of, value_of_word};
