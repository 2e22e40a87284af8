//! Tablets, which keep entries and marks, and the table over tablets side by side.
//!
//! A tablet is any set of entries and marked cells: the trait `Tablet`, whose contracts speak of
//! its contents alone. A `Table` has tablets for ranges of rows, and answers as one with all of
//! their contents would. `pb_steps` defines what entries mean to transactions; it stands apart so
//! that no sort of tablet has to prove anything about steps. `pb_memtablet` has the sorts,
//! `pb_state` makes steps of look-ups and edits here, and only programs choose a sort. The promise:
//! a call does to the contents, or returns of them, exactly what its contract says, or is refused
//! for memory and does nothing; and no tablet ends with anything in it. Where tablets begin at row
//! 0 and at row 1,000, a lock of row 1,200 is looked for in the second alone, and a walk over all
//! entries goes through the first and then the second.
#![tactic(auto)]

mod copy;
mod slot;
mod table;
mod tablet;

pub use slot::{Edit, Item, Slot, Sort};
pub use table::Table;
pub use tablet::Tablet;
