//! Workers in threads of their own, over one table under a lock.
//!
//! `run_workers` is what a run does with its changes: each worker tries its own and then makes
//! passes over the marked cells, and the calling thread swaps spare tablets in meanwhile. Each step
//! of a job is one call under the lock, so that between two of them those of others come, as they
//! do in a world of `pb_world`. `finish` of `pb_ending` then compares what each seat received with
//! the table's journal, and `pb_driver` reports what stands there. Of five changes and two workers
//! seat 1 has those of number 0, 2 and 4.
//!
//! Of a table under a lock nothing is known at a call but what its type keeps; so every promise is
//! about what each seat gained.
#![tactic(auto)]

mod desk;
mod gate;
mod job;
mod named;
mod passes;
mod run;
mod spares;
mod tries;
mod waits;
mod worker;

pub use desk::{Callee, Desk};
pub use gate::{Gate, Open};
pub use named::{Held, Opening};
pub use pb_passes::MAX_PASSES;
pub use run::{NotRun, Worked, run_workers};
pub use spares::end_spares;
pub use tries::{MAX_TRIES, tries_limit_is_this};
