//! What a machine leaves at its end.
#![tactic(auto)]

mod finished;

pub use finished::Finished;
