//! What keeps entries and marks: a trait, whose contracts say nothing of how they are kept.
ghost use Rattle.std.specs.Prelude.{◌≡◌, OnOk, OnErr, IfSome, slice_get};
ghost use Rattle.std.specs.FinMap as map;
ghost use Rattle.pb_store.specs.Contents.{Contents, nothing, is_nothing, after_edits, entries_after, IsOfSort, IsNewest, IsNextMark, AreEdits};

use crate::slot::{Edit, Item, Slot, Sort};
use pb_base::{Cell, NoMemory, Ts};

/// A set of entries and of marked cells, however it is kept. An entry's item always has its slot's sort.
///
/// A tablet ends by `end` alone, which asks that nothing is in it: to let one go in any other way doesn't compile.
pub trait Tablet {
    ghost contents: { Self → Contents };

    /// What stands in the slot.
    fn get(&self, slot: Slot) -> Option<Item>
        ensures item { result ≡ map.get (contents self.now).entries slot }
        ensures sort { IfSome result (IsOfSort slot.sort) };

    /// The entry of this sort with the greatest timestamp at most `high`.
    fn newest(&self, cell: Cell, sort: Sort, high: Ts) -> Option<(Ts, Item)>
        ensures { IsNewest (contents self.now).entries cell sort high result };

    /// The first marked cell after the given one, or of all.
    fn next_mark(&self, after: Option<Cell>) -> Option<Cell>
        ensures { IsNextMark (contents self.now).marks after result };

    /// How many entries it has, marks not counted.
    fn len(&self) -> usize
        ensures { result ≡ map.len (contents self.now).entries };

    /// The entry at a place, counted by rising slot.
    fn at(&self, place: usize) -> Option<(Slot, Item)>
        ensures entry { result ≡ slice_get (map.entries (contents self.now).entries) place }
        ensures sort { IfSome result (λ e. IsOfSort e.0.sort e.1) };

    /// The first entry after the given slot, or of all.
    fn next_entry(&self, after: Option<Slot>) -> Option<(Slot, Item)>
        ensures entry { result ≡ slice_get (entries_after after
            (map.entries (contents self.now).entries)) 0 }
        ensures sort { IfSome result (λ e. IsOfSort e.0.sort e.1) };

    /// Whether it has no entry and no mark.
    fn is_empty(&self) -> bool
        ensures { result ≡ is_nothing (contents self.now) };

    /// Does all edits in order or, refused for memory, none. They are of one row.
    fn apply(&mut self, edits: &[Edit]) -> Result<(), NoMemory>
        requires { AreEdits edits.now }
        ensures ok { OnOk result (contents self.new ≡ after_edits edits.now (contents self.old)) }
        ensures err { OnErr result (contents self.new ≡ contents self.old) };

    /// Takes all entries and marks out.
    fn clear(&mut self)
        ensures { contents self.new ≡ nothing };

    /// Ends an empty tablet.
    fn end(self)
    where
        Self: Sized,
        requires { contents self ≡ nothing };
}

// For those who have sorts of their own; each body passes the call on. The programs here have a
// type of either sort in its place, since no contract states the sort in a box.
impl Tablet for Box<dyn Tablet + Send + Drop> {
    ghost contents = { λ b. (Tablet-box b).contents b.value };

    fn get(&self, slot: Slot) -> Option<Item> {
        (**self).get(slot)
    }

    fn newest(&self, cell: Cell, sort: Sort, high: Ts) -> Option<(Ts, Item)> {
        (**self).newest(cell, sort, high)
    }

    fn next_mark(&self, after: Option<Cell>) -> Option<Cell> {
        (**self).next_mark(after)
    }

    fn len(&self) -> usize {
        (**self).len()
    }

    fn at(&self, place: usize) -> Option<(Slot, Item)> {
        (**self).at(place)
    }

    fn next_entry(&self, after: Option<Slot>) -> Option<(Slot, Item)> {
        (**self).next_entry(after)
    }

    fn is_empty(&self) -> bool {
        (**self).is_empty()
    }

    fn apply(&mut self, edits: &[Edit]) -> Result<(), NoMemory> {
        (**self).apply(edits)
    }

    fn clear(&mut self) {
        (**self).clear();
    }

    // By its drop, since `end` of what is inside takes a tablet of known size.
    fn end(self) {
        drop(self);
    }
}
