//! Names of entries, what stands there, and the changes that a tablet takes.
ghost use Rattle.std.specs.Prelude.{◌≡◌};

use pb_base::{Cell, Content, Row, Ts};
use std::cmp::Ordering;

/// The column of a cell that an entry is of: data, lock, or write record (OSDI 2010, figure 5).
#[derive(Clone, Copy, Debug, PartialEq, Eq)]
pub enum Sort {
    Data,
    Lock,
    Write,
}

/// The name of an entry. Data and locks stand at their transaction's start, write records at its commit.
///
/// Slots are ordered by cell, then sort, then timestamp.
#[derive(Clone, Copy, Debug)]
pub struct Slot {
    pub cell: Cell,
    pub sort: Sort,
    pub ts: Ts,
}

/// What stands in a slot: a content; the primary of a lock; the start of the transaction that committed.
#[derive(Clone, Copy, Debug, PartialEq, Eq)]
pub enum Item {
    Data(Content),
    Lock(Cell),
    Write(Ts),
}

/// A change of what a tablet contains. To erase or unmark what isn't there changes nothing.
#[derive(Clone, Copy)]
pub enum Edit {
    Put(Slot, Item),
    Erase(Slot),
    Mark(Cell),
    Unmark(Cell),
}

impl Sort {
    ghost use Rattle.pb_store.specs.Slot.{sort_rank};

    // Where the entries of the sort stand among those of one cell.
    fn place(self) -> u8
        ensures { result ≡ sort_rank self }
    {
        match self {
            Sort::Data => 0,
            Sort::Lock => 1,
            Sort::Write => 2,
        }
    }
}

impl Slot {
    ghost use Rattle.pb_store.specs.Slot.{in_cell_cmp, slot_cmp};

    // By sort and then by timestamp, since the cells are one.
    fn compare_in_cell(&self, other: &Slot) -> Ordering
        ensures { result ≡ in_cell_cmp self.now other.now }
    {
        match self.sort.place().cmp(&other.sort.place()) {
            Ordering::Equal => self.ts.0.cmp(&other.ts.0),
            unequal => unequal,
        }
    }

    // No further than the first part that differs, since a search does little else than compare slots.
    fn compare(&self, other: &Slot) -> Ordering
        ensures { result ≡ slot_cmp self.now other.now }
    {
        match self.cell.cmp(&other.cell) {
            Ordering::Equal => self.compare_in_cell(other),
            unequal => unequal,
        }
    }
}

impl PartialEq for Slot {
    ghost use Rattle.std.specs.Cmp.{partial_equiv_from_equiv, eq_by_cmp_equiv};
    ghost use Rattle.std.specs.Ordering.{eq_by_cmp};
    ghost use Rattle.pb_store.specs.Slot.{slot_cmp, slot_cmp_total};

    ghost eq = { eq_by_cmp slot_cmp };

    ghost laws = { partial_equiv_from_equiv (eq_by_cmp_equiv slot_cmp_total) };

    fn eq(&self, other: &Slot) -> bool {
        self.compare(other).is_eq()
    }
}

impl Eq for Slot {
    ghost use Rattle.std.specs.Cmp.{eq_by_cmp_equiv};
    ghost use Rattle.pb_store.specs.Slot.{slot_cmp_total};

    ghost laws = { eq_by_cmp_equiv slot_cmp_total };
}

impl PartialOrd for Slot {
    ghost use Rattle.std.specs.Cmp.{partial_order_from_total};
    ghost use Rattle.std.specs.Ordering.{as_partial_cmp};
    ghost use Rattle.pb_store.specs.Slot.{slot_cmp, slot_cmp_total};

    ghost partial_cmp = { as_partial_cmp slot_cmp };

    ghost laws = { partial_order_from_total slot_cmp_total };

    fn partial_cmp(&self, other: &Slot) -> Option<Ordering> {
        Some(self.compare(other))
    }
}

impl Ord for Slot {
    ghost use Rattle.std.specs.Prelude.{refl};
    ghost use Rattle.pb_store.specs.Slot.{slot_cmp, slot_cmp_total};

    ghost cmp = { slot_cmp };

    ghost total = { slot_cmp_total };

    ghost matches_partial_cmp = { λ x y. refl };

    ghost matches_eq = { λ x y. refl };

    fn cmp(&self, other: &Slot) -> Ordering {
        self.compare(other)
    }
}

impl Edit {
    ghost use Rattle.pb_store.specs.Contents.{edit_row};

    /// The row that it changes, by which a table finds the tablet that does it.
    pub fn row(&self) -> Row
        ensures { result.0 ≡ edit_row self.now }
    {
        match *self {
            Edit::Put(slot, _) => slot.cell.row(),
            Edit::Erase(slot) => slot.cell.row(),
            Edit::Mark(cell) => cell.row(),
            Edit::Unmark(cell) => cell.row(),
        }
    }
}
