//! The machine that runs accepted programs. It tests no range, no kind and no budget, since acceptance says that none
//! is passed. The laws that say so stand below, in `pb_sound`, so that an edit here doesn't have them checked again. A
//! job of `pb_notify` holds a machine and answers its asks from a snapshot; a program of your own may do so with
//! anything.
//!
//! Each step is one instruction of the machine of the definitions, at every placement; fewer are
//! done than there are slots until it ends, and its end is what the program means. So a program
//! that reads one cell is started, followed to its ask, given the reply, followed to its end, and
//! finished.
#![tactic(auto)]

mod instructions;
mod interpreter;
mod local;
mod moved;
mod vm;
mod writes;

pub use moved::{MachinePhase, Moved};
pub use pb_accepted::Accepted;
pub use pb_finished::Finished;
pub use pb_helpers::{Ask, Record, Reply};
pub use vm::Vm;
