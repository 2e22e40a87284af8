//! Programs as bytes, by the instruction encoding of RFC 9669, and back. It stands apart from the
//! instructions, since only what takes or shows bytes needs it: the registry, for a manifest's
//! digits, the commands `check`, `dis` and `asm`, and the verifier, which keeps a program's bytes
//! packed, to compare it with others. The bytes `b7 00 00 00 01 00 00 00` and `95`
//! with seven zeros are `mov64 r0, 1` and `exit`; with the opcode `ff` in place of `95` they are
//! refused at slot 1 with 12. Its contracts promise that in a profile a list of bytes is one
//! program's, which comes back, or has one fault, which is reported as the first slot with its
//! lowest code, and never both.
#![tactic(auto)]

mod fault;
mod fields;
mod forms;
mod packed;
mod reading;
mod writing;

pub use fault::DecodeFault;
pub use packed::PackedProgram;
pub use reading::{decode, decode_in, either_program_or_fault, profiles_read_alike};
pub use writing::encode;
