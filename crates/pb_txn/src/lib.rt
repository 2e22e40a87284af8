//! The order of a transaction's steps (OSDI 2010, section 2.2), from its declaration to its end.
//!
//! A `Plan` asks for the steps of a declared transaction, and a `ChangeJob` for those of a script's change, from its
//! begin on. They know steps and answers and no table, so that one order serves workers under a lock, actors of a
//! world, and a program with a loop of its own: `pb_notify` follows plans for its runs, `pb_world` and `pb_threads`
//! follow changes. A change of two cells asks `Begin`, `Declare`, `Prewrite` twice, `Stamp`, `CommitPrimary` and
//! `CommitSecondary`.
//!
//! What plans and changes ask begins a transaction's conversation, and is a whole one at their end.
#![tactic(auto)]

mod change;
mod laws;
mod place;
mod plan;

pub use change::ChangeJob;
pub use laws::{changes_converse, plans_are_allowed, plans_converse};
pub use place::Outcome;
pub use plan::Plan;
