//! Tablets in memory, and the sorted lists that they are kept in.
//!
//! A list tablet keeps entries and marks in two sorted lists; a slab tablet keeps its items in a slab, and a sorted
//! list of their keys. They stand apart from `pb_store` since only programs choose a sort: all libraries above are
//! generic over `Tablet`. The promise: they contain what that trait's contracts say, are made empty without memory, and
//! no change fails once there is room for it. A sorted list is parted into chunks, so that an edit moves the entries of
//! one, and notes where the last key stood, since the next one mostly stands beside it. A prewrite of one cell, for
//! one, searches for its slots once, and then finds each beside the last.
#![tactic(auto)]

mod chunks;
mod counts;
mod either;
mod list;
mod slab_tablet;
mod sorted;
mod sorted_list;

pub use either::EitherTablet;
pub use list::ListTablet;
pub use slab_tablet::SlabTablet;
pub use sorted_list::SortedList;
