//! Calls that grow, made with memory refused: on programs, machines, tablets, tables and states. Where memory is refused, nothing
//! has changed, and the same call again answers as if it had never been refused. The program `test_refusals` makes them, and
//! with them those on texts, jobs, worlds and workers; they stand apart so that they can be proved before there are workers.
#![tactic(auto)]

pub mod calls;
pub mod copies;
pub mod machines;
pub mod observers;
pub mod programs;
pub mod refusals;
pub mod same;
pub mod steps;
pub mod swaps;
pub mod tablets;
pub mod twins;
