//! What one instruction does to registers and stack. Nothing else stands here, since its many cases take the prover longer than
//! any other function.
#![tactic(auto)]

mod acting;

pub use acting::act;
