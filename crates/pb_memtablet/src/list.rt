//! A tablet of two sorted lists, and what it has in common with a slab tablet, which keeps its marks in the same way.
ghost use Rattle.std.specs.Prelude.{◌≡◌, ◌+◌, ◌≤◌, ◌↔◌, IsTrue, count_by, cond, drop, length, slice_get};
ghost use Rattle.std.specs.Option.{option_map};
ghost use Rattle.std.specs.FinMap as map;
ghost use Rattle.pb_store.specs.Contents.{nothing, after_edit, after_edits, entries_after, IsNewest, IsNextMark, PutsOfSort, AllPutOfSort};
ghost use Rattle.pb_memtablet.specs.Listed.{contents_of, AreLists, AllOfSort, is_put, is_mark};
ghost use Rattle.pb_base.specs.Cell.{cell_cmp};
ghost use Rattle.pb_store.specs.Slot.{slot_cmp};

use crate::sorted_list::SortedList;
use pb_base::{Cell, NoMemory, Ts};
use pb_store::{Edit, Item, Slot, Sort, Tablet};
use std::alloc::Global;
use std::marker::Model;

/// A tablet that keeps its entries in one sorted list and its marks in another.
#[derive(Drop)]
pub struct ListTablet {
    entries: SortedList<Slot, Item>,
    marks: SortedList<Cell, ()>,
}

impl Model for ListTablet {
    ghost use Rattle.pb_store.specs.Contents.{Contents, coded_contents};
    ghost use Rattle.pb_memtablet.specs.Listed.{contents_of, AreLists};

    ghost Value = { Contents };

    ghost coded = { coded_contents };

    ghost view = { λ t. contents_of t.entries.entries t.marks.entries };

    ghost invariant = { λ t. AreLists t.entries.entries t.marks.entries };
}

impl ListTablet {
    /// The tablet with nothing in it. It takes no memory until the first entry or mark.
    pub fn new(alloc: Global) -> ListTablet
        ensures { result ≡ nothing }
    {
        ListTablet {
            entries: SortedList::new(alloc),
            marks: SortedList::new(alloc),
        }
    }
}

// Whether two slots are of one cell and one sort.
pub(crate) fn is_beside(slot: &Slot, other: &Slot) -> bool
    ensures { IsTrue result ↔ ((slot.now.cell ≡ other.now.cell)
        × (slot.now.sort ≡ other.now.sort)) }
{
    slot.cell == other.cell && slot.sort == other.sort
}

// The entry with the greatest timestamp at most `high`: the last one up to that slot, since slots of a cell and a sort
// go by timestamp. Where that is of another cell or sort, there is none.
fn newest_in(
    entries: &SortedList<Slot, Item>,
    cell: Cell,
    sort: Sort,
    high: Ts,
) -> Option<(Ts, Item)>
    requires sorted { IsTrue (map.is_sorted slot_cmp entries.now.entries) }
    requires of_sort { AllOfSort entries.now.entries }
    ensures { IsNewest (map.from_sorted entries.now.entries) cell sort high result }
{
    let highest = Slot {
        cell,
        sort,
        ts: high,
    };
    let (slot, item) = entries.last_up_to(&highest)?;
    if is_beside(&slot, &highest) {
        Some((slot.ts, item))
    } else {
        None
    }
}

// The cell of a mark.
fn marked_cell(mark: Option<(Cell, ())>) -> Option<Cell>
    ensures { result ≡ option_map (λ m. m.0) mark }
{
    let (cell, ()) = mark?;
    Some(cell)
}

// The first mark after the cell, or of all.
pub(crate) fn next_in(marks: &SortedList<Cell, ()>, after: Option<Cell>) -> Option<Cell>
    requires { IsTrue (map.is_sorted cell_cmp marks.now.entries) }
    ensures { IsNextMark (map.from_sorted marks.now.entries) after result }
{
    match after {
        Some(cell) => marked_cell(marks.first_above(&cell)),
        None => marked_cell(marks.at(0)),
    }
}

// The first entry after the slot, or of all.
pub(crate) fn entry_after<V: Copy>(
    entries: &SortedList<Slot, V>,
    after: Option<Slot>,
) -> Option<(Slot, V)>
    ensures { result ≡ slice_get (entries_after after entries.now.entries) 0 }
{
    match after {
        Some(slot) => entries.first_above(&slot),
        None => entries.at(0),
    }
}

// How many entries the edits put, which is the room that they need, since erasing takes none.
pub(crate) fn puts_in(edits: &[Edit]) -> usize
    ensures { result ≡ count_by is_put edits.now }
{
    edits
        .iter()
        .filter(|edit| matches!(edit, Edit::Put(..)))
        .count()
}

// How many marks the edits make, for which there has to be room.
pub(crate) fn marks_in(edits: &[Edit]) -> usize
    ensures { result ≡ count_by is_mark edits.now }
{
    edits
        .iter()
        .filter(|edit| matches!(edit, Edit::Mark(_)))
        .count()
}

// Does an edit for which there is room.
fn change(entries: &mut SortedList<Slot, Item>, marks: &mut SortedList<Cell, ()>, edit: &Edit)
    requires lists { AreLists entries.old.entries marks.old.entries }
    requires of_sort { PutsOfSort edit.now }
    requires room { cond (is_put edit.now) 1 0 ≤ entries.old.room }
    requires mark_room { cond (is_mark edit.now) 1 0 ≤ marks.old.room }
    ensures lists { AreLists entries.new.entries marks.new.entries }
    ensures contents { contents_of entries.new.entries marks.new.entries ≡ after_edit edit.now
        (contents_of entries.old.entries marks.old.entries) }
    ensures room { entries.old.room ≤ entries.new.room + cond (is_put edit.now) 1 0 }
    ensures mark_room { marks.old.room ≤ marks.new.room + cond (is_mark edit.now) 1 0 }
{
    match *edit {
        Edit::Put(slot, item) => entries.put(slot, item),
        Edit::Erase(slot) => entries.take_out(&slot),
        Edit::Mark(cell) => marks.put(cell, ()),
        Edit::Unmark(cell) => marks.take_out(&cell),
    }
}

// Does the first two edits at once where both are of entries that may stand side by side, and answers how many are
// done: a prewrite begins with two puts, and a commit puts a write record for a lock, so that each needs one search.
fn change_pair(
    entries: &mut SortedList<Slot, Item>,
    marks: &SortedList<Cell, ()>,
    edits: &[Edit],
) -> usize
    requires lists { AreLists entries.old.entries marks.now.entries }
    requires of_sort { AllPutOfSort edits.now }
    requires room { count_by is_put edits.now ≤ entries.old.room }
    ensures some { result ≤ length edits.now }
    ensures lists { AreLists entries.new.entries marks.now.entries }
    ensures of_sort { AllPutOfSort (drop result edits.now) }
    ensures contents { after_edits (drop result edits.now)
        (contents_of entries.new.entries marks.now.entries)
        ≡ after_edits edits.now (contents_of entries.old.entries marks.now.entries) }
    ensures room { count_by is_put (drop result edits.now) ≤ entries.new.room }
    ensures marked { count_by is_mark (drop result edits.now) ≡ count_by is_mark edits.now }
{
    let [first, second, ..] = edits else {
        return 0;
    };
    match (*first, *second) {
        (Edit::Put(slot, item), Edit::Put(next, next_item)) => {
            entries.put_both(slot, item, next, next_item);
            2
        }
        (Edit::Erase(gone), Edit::Put(slot, item)) => {
            entries.replace(&gone, slot, item);
            2
        }
        _ => 0,
    }
}

// Does the edits one after the other. There is room for them.
fn change_each(
    entries: &mut SortedList<Slot, Item>,
    marks: &mut SortedList<Cell, ()>,
    edits: &[Edit],
)
    requires lists { AreLists entries.old.entries marks.old.entries }
    requires of_sort { AllPutOfSort edits.now }
    requires room { count_by is_put edits.now ≤ entries.old.room }
    requires mark_room { count_by is_mark edits.now ≤ marks.old.room }
    ensures lists { AreLists entries.new.entries marks.new.entries }
    ensures contents { contents_of entries.new.entries marks.new.entries ≡ after_edits edits.now
        (contents_of entries.old.entries marks.old.entries) }
{
    for edit in edits {
        change(entries, marks, edit);
    }
}

// Does all edits, for which there is room: a pair in front at once, and the rest one by one.
fn change_all(
    entries: &mut SortedList<Slot, Item>,
    marks: &mut SortedList<Cell, ()>,
    edits: &[Edit],
)
    requires lists { AreLists entries.old.entries marks.old.entries }
    requires of_sort { AllPutOfSort edits.now }
    requires room { count_by is_put edits.now ≤ entries.old.room }
    requires mark_room { count_by is_mark edits.now ≤ marks.old.room }
    ensures lists { AreLists entries.new.entries marks.new.entries }
    ensures contents { contents_of entries.new.entries marks.new.entries ≡ after_edits edits.now
        (contents_of entries.old.entries marks.old.entries) }
{
    let done = change_pair(entries, marks, edits);
    change_each(entries, marks, &edits[done..]);
}

impl Tablet for ListTablet {
    ghost contents = { λ t. t };

    fn get(&self, slot: Slot) -> Option<Item> {
        self.entries.get(&slot)
    }

    fn newest(&self, cell: Cell, sort: Sort, high: Ts) -> Option<(Ts, Item)> {
        newest_in(&self.entries, cell, sort, high)
    }

    fn next_mark(&self, after: Option<Cell>) -> Option<Cell> {
        next_in(&self.marks, after)
    }

    fn len(&self) -> usize {
        self.entries.len()
    }

    fn at(&self, place: usize) -> Option<(Slot, Item)> {
        self.entries.at(place)
    }

    fn next_entry(&self, after: Option<Slot>) -> Option<(Slot, Item)> {
        entry_after(&self.entries, after)
    }

    fn is_empty(&self) -> bool {
        self.entries.is_empty() && self.marks.is_empty()
    }

    fn apply(&mut self, edits: &[Edit]) -> Result<(), NoMemory> {
        // All room comes before the first change, so that a refused call leaves everything as it was.
        self.entries.reserve(puts_in(edits))?;
        self.marks.reserve(marks_in(edits))?;
        change_all(&mut self.entries, &mut self.marks, edits);
        Ok(())
    }

    fn clear(&mut self) {
        self.entries.clear();
        self.marks.clear();
    }

    fn end(self) {
        drop(self);
    }
}
