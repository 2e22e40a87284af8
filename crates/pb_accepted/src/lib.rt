//! Accepted programs: the rules of the verifier, what an accepted program keeps, and its instructions resolved.
//!
//! `Accepted` is what `pb_verify` makes, a registry keeps and a machine runs. Whoever makes one shows that the rules hold at
//! every slot. The crates of the machine and of the table stand on this one, and not on the verifier, so that they are
//! proved beside it.
//!
//! What is known before a slot is the meet of what the ways to it leave. After `mov64 r7, r1` register 7 points into the
//! record as register 1 does, and a load of eight bytes from it is `LoadRecordDw` with its index: no run computes an address.
#![tactic(auto)]

mod accepted;
mod access;
mod laws;
mod needs;
mod observer;
mod op;

pub use accepted::Accepted;
pub use access::Access;
pub use laws::{codes_rise, frames_are_meets, jumps_lead_on};
pub use needs::needs_fall;
pub use observer::Observer;
pub use op::Op;
