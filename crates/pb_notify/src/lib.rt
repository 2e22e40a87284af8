//! One run of an observer on a cell (OSDI 2010, section 2.4): what it asks of the table, what it runs, and how it ends.
//!
//! An `ObserverJob` joins the parts of a run: looks at cells, which clear locks that others left; the machine of
//! `pb_vm` on the record of the change; and the plan of `pb_txn` for what the program wrote. It knows no table, so
//! that an actor of `pb_world` follows it instruction by instruction, and a worker of `pb_threads` up to each ask at
//! once. A run that copies its cell asks `Begin`, `Read` of the cell, `Read` of the acknowledgment, its plan's steps,
//! and `Sweep`.
//!
//! What a job asks begins a run's conversation, and is a whole one at its end; what it declares is what its program
//! means.
#![tactic(auto)]

mod job;
mod laws;
mod look;
mod machine;
mod need;
mod place;

pub use job::ObserverJob;
pub use laws::{jobs_are_allowed, jobs_converse, machines_are_led};
pub use look::{MAX_LOCKED, locked_limit_is_this};
pub use need::{JobEnd, Need};
