//! The instructions of BPF (RFC 9669), in the project's profiles, programs of them, and, in specs/, the machine that
//! runs a program and what it means. It stands apart since decoder, assembler, verifier, machine and table all speak of
//! what a program does, and none of them defines anything of it again. `mov64 r0, 1` is `Insn::Alu` with `AluOp::Mov`
//! here, whether it came as bytes or as text. Its code promises that `alu`, `holds` and `mov_sx` give what those
//! definitions say, and that a `Program` has instructions of its profile alone, in at least one slot and no more than
//! the profile has.
#![tactic(auto)]

mod arithmetic;
mod extending;
mod insn;
mod limits;
mod profile;
mod program;

pub use arithmetic::{alu, holds};
pub use extending::{mov_sx, sign_extended};
pub use insn::{AluOp, Cmp, Extension, Insn, Operand, Reg, Size, Width};
pub use limits::{
    MAX_RECORD_BYTES, MAX_SLOTS, PROFILE_1_SLOTS, RECORD_BYTES, STACK_BYTES,
    program_limits_are_these,
};
pub use profile::Profile;
pub use program::{NoProgram, Program, next_slots_are_first};
