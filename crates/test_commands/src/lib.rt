//! The tests of commands over paths and sinks in memory, where an output fails at some call, or memory is refused, and over
//! each choice of two sorts of tablet; and of whole texts written to sinks. What the built program shows by itself is run by checks/rows.
//!
//! They stand in a crate of their own, since a crate that has tests is proved twice.
#![tactic(auto)]

#[cfg(test)]
mod carried;
#[cfg(test)]
mod checks;
#[cfg(test)]
mod choices;
#[cfg(test)]
mod faults;
#[cfg(test)]
mod programs;
#[cfg(test)]
mod replays;
#[cfg(test)]
mod runs;
#[cfg(test)]
mod sinks;
#[cfg(test)]
mod unfinished;
