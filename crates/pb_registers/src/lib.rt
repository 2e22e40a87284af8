//! Registers and stack at run time, and what each kind of operation does to them. They stand below `act`, which has a case for
//! each operation, so that an edit here or of a wrong body doesn't have that proved twice.
#![tactic(auto)]

mod cells;
mod memory;
mod next;
pub mod operations;

pub use cells::Core;
pub use next::{Next, Registers};
