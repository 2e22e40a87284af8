//! What is known of registers and stack bytes before a program runs: kinds, frames, and their join. It stands apart
//! from the verifier, since the rules of helpers' arguments, below it, read frames too, and the story prints them.
//! Where one way to a slot has R1 as a pointer to the record and another as a number, their join knows nothing of R1,
//! and a load through it is refused. The one promise is that the join of two frames is their meet: it says what both
//! say, and nothing else.
//!
//! The kinds and their join are the project's own profile: RFC 9669 leaves verification to the platform.
#![tactic(auto)]

mod frame;
mod ranges;

pub use frame::{Frame, Kind, entry, join, joins_are_meets};
pub use ranges::{from_low, in_record, in_stack};
