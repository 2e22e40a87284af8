//! The tests of tablets and of their sorted lists: each public call with ample memory, tablets of 700,000 entries, and lists of
//! many lengths compared with plain ones.
//!
//! They stand in a crate of their own, since a crate that has tests is proved twice.
#![tactic(auto)]

#[cfg(test)]
mod large;
#[cfg(test)]
mod memtablet;
#[cfg(test)]
mod sorted_list;
