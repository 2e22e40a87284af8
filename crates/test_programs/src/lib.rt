//! The tests of programs over values that no command shows: arithmetic, lists of instructions, helpers, frames, and the texts of faults.
//!
//! They stand in a crate of their own, since a crate that has tests is proved twice.
#![tactic(auto)]

#[cfg(test)]
mod faults;
#[cfg(test)]
mod frames;
#[cfg(test)]
mod helpers;
#[cfg(test)]
mod isa;
#[cfg(test)]
mod kinds;
