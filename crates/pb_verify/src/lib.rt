//! The verifier: which programs are accepted, and where and why another is refused.
//!
//! RFC 9669 leaves verification to the platform: the rules are the project's own profile. They are
//! there so that no run of an accepted program is ever stuck, which `pb_sound` proves of them,
//! apart from here, so that a verdict needs no word of the machine. They stand in `pb_accepted`, with the
//! type of an accepted program: it comes with its instructions resolved, which `pb_vm` runs without a test. `pb_registry` calls `verify_for`,
//! and `pb_story` shows by `frames` what is known before a slot.
//!
//! A program is accepted exactly where the rules hold at every slot, else refused at the first at fault; each has one
//! verdict. So `mov64 r0, 0` and `exit` are accepted, and `exit` alone is refused at slot 0 with 21, since nothing has
//! set register 0.
#![tactic(auto)]

mod accesses;
mod arriving;
mod following;
mod known;
mod resolving;
mod rules;
mod verifier;

pub use known::frames;
pub use pb_accepted::{Accepted, Access, Observer, Op};
pub use verifier::{VerifyFault, either_accepted_or_refused, verify, verify_for};
