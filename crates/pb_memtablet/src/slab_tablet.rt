//! A tablet that keeps its items in a slab, and a sorted list of slots with their keys, so that no item moves for
//! another.
ghost use Rattle.std.specs.Prelude.{◌≡◌, ◌+◌, ◌≤◌, ◌==◌, IsTrue, IfSome, Some, None, [], OnOk, count_by, cond, drop, length, slice_get};
ghost use Rattle.std.specs.List.{last_or};
ghost use Rattle.std.specs.FinMap as map;
ghost use Rattle.std.specs.FinMap.{find, put, is_sorted};
ghost use Rattle.std.specs.FinMap.Entries.{where_key};
ghost use Rattle.std.specs.Ordering.{eq_by_cmp};
ghost use Rattle.slab.specs.Slab.{get, slab_len, HasRoomFor, Updates};
ghost use Rattle.pb_base.specs.Cell.{cell_cmp};
ghost use Rattle.pb_store.specs.Slot.{slot_cmp};
ghost use Rattle.pb_store.specs.Contents.{nothing, after_edit, after_edits, IsOfSort, IsNewest, IsNextMark, PutsOfSort, AllPutOfSort};
ghost use Rattle.pb_memtablet.specs.Chunks.{entries_up_to};
ghost use Rattle.pb_memtablet.specs.Listed.{contents_of, AllOfSort, is_put, is_mark};
ghost use Rattle.pb_memtablet.specs.Stored.{seen, item_at, AreStored, AreKept};
ghost use Rattle.slab.specs.Slab.{ContainsKey};
ghost use Rattle.std.specs.Option.{option_map};
ghost use Rattle.std.specs.Prelude.{ℕ, ◌<◌, not, false};

use crate::list::{entry_after, is_beside, marks_in, next_in, puts_in};
use crate::sorted_list::SortedList;
use pb_base::{Cell, NoMemory, Ts};
use pb_store::{Edit, Item, Slot, Sort, Tablet};
use slab::Slab;
use std::alloc::Global;
use std::marker::Model;

/// A tablet that keeps its entries in a slab, with a sorted list of the keys that the slab gave out, and its marks in another
/// sorted list.
#[derive(Drop)]
pub struct SlabTablet {
    keys: SortedList<Slot, usize>,
    items: Slab<Item>,
    marks: SortedList<Cell, ()>,
}

impl Model for SlabTablet {
    ghost use Rattle.pb_store.specs.Contents.{Contents, coded_contents};
    ghost use Rattle.pb_memtablet.specs.Listed.{contents_of};
    ghost use Rattle.pb_memtablet.specs.Stored.{seen, AreKept};

    ghost Value = { Contents };

    ghost coded = { coded_contents };

    ghost view = { λ t. contents_of (seen t.items.slots t.keys.entries) t.marks.entries };

    ghost invariant = { λ t. AreKept t.items.slots t.keys.entries t.marks.entries };
}

impl SlabTablet {
    /// The tablet with nothing in it. It takes no memory until the first entry or mark.
    pub fn new(alloc: Global) -> SlabTablet
        ensures { result ≡ nothing }
    {
        SlabTablet {
            keys: SortedList::new(alloc),
            items: Slab::new(alloc),
            marks: SortedList::new(alloc),
        }
    }
}

// The entry whose item has this key. Where a key was found there is one, since each key of
// the list has an item.
fn entry_at(items: &Slab<Item>, found: Option<(Slot, usize)>) -> Option<(Slot, Item)>
    requires { IfSome found (λ k. ContainsKey items.now k.1) }
    ensures { result ≡ option_map (λ k. (k.0, item_at items.now.slots k.1)) found }
{
    let (slot, key) = found?;
    match items.get(key) {
        Some(item) => Some((slot, *item)),
        None => None,
    }
}

// Takes the entry of a slot out, of list and slab, since the slab has no item without a key in the list.
fn take_entry(keys: &mut SortedList<Slot, usize>, items: &mut Slab<Item>, slot: &Slot)
    requires stored { AreStored items.old.slots keys.old.entries }
    requires sorted { IsTrue (is_sorted slot_cmp keys.old.entries) }
    ensures stored { AreStored items.new.slots keys.new.entries }
    ensures seen { seen items.new.slots keys.new.entries ≡ where_key slot_cmp
        (λ k. not (eq_by_cmp slot_cmp slot.now k)) (seen items.old.slots keys.old.entries) }
    ensures sorted { IsTrue (is_sorted slot_cmp keys.new.entries) }
    ensures free { find slot_cmp slot.now keys.new.entries ≡ None }
    ensures room { keys.old.room ≤ keys.new.room }
    ensures len { slab_len items.new ≤ slab_len items.old }
    ensures capacity { items.new.capacity ≡ items.old.capacity }
{
    if let Some(key) = keys.get(slot) {
        keys.take_out(slot);
        items.remove(key);
    }
}

// Puts an entry in a slot that has none.
fn put_entry(keys: &mut SortedList<Slot, usize>, items: &mut Slab<Item>, slot: &Slot, item: &Item)
    requires stored { AreStored items.old.slots keys.old.entries }
    requires sorted { IsTrue (is_sorted slot_cmp keys.old.entries) }
    requires free { find slot_cmp slot.now keys.old.entries ≡ None }
    requires room { 0 < keys.old.room }
    requires slots { HasRoomFor items.old 1 }
    ensures stored { AreStored items.new.slots keys.new.entries }
    ensures seen { seen items.new.slots keys.new.entries ≡ put slot_cmp slot.now item.now
        (seen items.old.slots keys.old.entries) }
    ensures room { keys.old.room ≤ keys.new.room + 1 }
    ensures len { slab_len items.new ≡ slab_len items.old + 1 }
    ensures capacity { items.new.capacity ≡ items.old.capacity }
{
    let key = items.insert_reserved(*item);
    // A copy by its parts: of the whole, the toolchain doesn't find the type of the cell.
    let Slot { cell, sort, ts } = *slot;
    keys.put(Slot { cell, sort, ts }, key);
}

// Puts an entry, in the place of the one that the slot has. That goes first, since the new one gets a key of its own.
fn replace_entry(
    keys: &mut SortedList<Slot, usize>,
    items: &mut Slab<Item>,
    slot: &Slot,
    item: &Item,
)
    requires stored { AreStored items.old.slots keys.old.entries }
    requires sorted { IsTrue (is_sorted slot_cmp keys.old.entries) }
    requires room { 0 < keys.old.room }
    requires slots { HasRoomFor items.old 1 }
    ensures stored { AreStored items.new.slots keys.new.entries }
    ensures seen { seen items.new.slots keys.new.entries ≡ put slot_cmp slot.now item.now
        (seen items.old.slots keys.old.entries) }
    ensures room { keys.old.room ≤ keys.new.room + 1 }
    ensures len { slab_len items.new ≤ slab_len items.old + 1 }
    ensures capacity { items.new.capacity ≡ items.old.capacity }
{
    take_entry(keys, items, slot);
    put_entry(keys, items, slot, item);
}

// Puts an entry where another one stood, with no other between the two. It answers whether it could: the first slot had an entry,
// and the second none.
fn renew_entry(
    keys: &mut SortedList<Slot, usize>,
    items: &mut Slab<Item>,
    gone: &Slot,
    slot: &Slot,
    item: &Item,
) -> bool
    requires stored { AreStored items.old.slots keys.old.entries }
    requires sorted { IsTrue (is_sorted slot_cmp keys.old.entries) }
    requires room { 0 < keys.old.room }
    ensures stored { AreStored items.new.slots keys.new.entries }
    ensures renewed { IsTrue result
        → seen items.new.slots keys.new.entries ≡ put slot_cmp slot.now item.now
        (where_key slot_cmp (λ k. not (eq_by_cmp slot_cmp gone.now k))
        (seen items.old.slots keys.old.entries)) }
    ensures same { result ≡ false → seen items.new.slots keys.new.entries
        ≡ seen items.old.slots keys.old.entries }
    ensures same_room { result ≡ false → keys.old.room ≤ keys.new.room }
    ensures room { keys.old.room ≤ keys.new.room + 1 }
    ensures len { slab_len items.new ≡ slab_len items.old }
    ensures capacity { items.new.capacity ≡ items.old.capacity }
{
    if keys.get(slot).is_some() {
        return false;
    }
    let Some(key) = keys.get(gone) else {
        return false;
    };
    // The slab needs no room for it, since the item that goes leaves its own.
    items.remove(key);
    let again = items.insert_reserved(*item);
    let Slot { cell, sort, ts } = *slot;
    keys.replace(gone, Slot { cell, sort, ts }, again);
    true
}

// Whether the first slot is below the second, and no entry stands at one of them or between: only then can two puts be
// done at once, since an item that is replaced has to leave the slab. One look answers it, for the last entry up to the
// second.
fn are_free(keys: &SortedList<Slot, usize>, first: &Slot, second: &Slot) -> bool
    requires { IsTrue (is_sorted slot_cmp keys.now.entries) }
    ensures apart { IsTrue result → eq_by_cmp slot_cmp second.now first.now ≡ false }
    ensures first { IsTrue result → find slot_cmp first.now keys.now.entries ≡ None }
    ensures second { IsTrue result → find slot_cmp second.now keys.now.entries ≡ None }
{
    if !first.cmp(second).is_lt() {
        return false;
    }
    match keys.last_up_to(second) {
        Some((last, _)) => last.cmp(first).is_lt(),
        None => true,
    }
}

// Puts two entries in slots that have none, and differ.
fn put_both(
    keys: &mut SortedList<Slot, usize>,
    items: &mut Slab<Item>,
    first: &Slot,
    item: &Item,
    second: &Slot,
    other: &Item,
)
    requires stored { AreStored items.old.slots keys.old.entries }
    requires sorted { IsTrue (is_sorted slot_cmp keys.old.entries) }
    requires apart { eq_by_cmp slot_cmp second.now first.now ≡ false }
    requires first { find slot_cmp first.now keys.old.entries ≡ None }
    requires second { find slot_cmp second.now keys.old.entries ≡ None }
    requires room { 2 ≤ keys.old.room }
    requires slots { HasRoomFor items.old 2 }
    ensures stored { AreStored items.new.slots keys.new.entries }
    ensures seen { seen items.new.slots keys.new.entries ≡ put slot_cmp second.now other.now
        (put slot_cmp first.now item.now (seen items.old.slots keys.old.entries)) }
    ensures room { keys.old.room ≤ keys.new.room + 2 }
    ensures len { slab_len items.new ≡ slab_len items.old + 2 }
    ensures capacity { items.new.capacity ≡ items.old.capacity }
{
    let key = items.insert_reserved(*item);
    let next = items.insert_reserved(*other);
    let Slot { cell, sort, ts } = *first;
    let low = Slot { cell, sort, ts };
    let Slot { cell, sort, ts } = *second;
    let high = Slot { cell, sort, ts };
    keys.put_both(low, key, high, next);
}

// Does an edit for which there is room.
fn change(
    keys: &mut SortedList<Slot, usize>,
    items: &mut Slab<Item>,
    marks: &mut SortedList<Cell, ()>,
    edit: &Edit,
)
    requires kept { AreKept items.old.slots keys.old.entries marks.old.entries }
    requires of_sort { PutsOfSort edit.now }
    requires room { cond (is_put edit.now) 1 0 ≤ keys.old.room }
    requires slots { HasRoomFor items.old (cond (is_put edit.now) 1 0) }
    requires mark_room { cond (is_mark edit.now) 1 0 ≤ marks.old.room }
    ensures kept { AreKept items.new.slots keys.new.entries marks.new.entries }
    ensures contents { contents_of (seen items.new.slots keys.new.entries) marks.new.entries
        ≡ after_edit edit.now
        (contents_of (seen items.old.slots keys.old.entries) marks.old.entries) }
    ensures room { keys.old.room ≤ keys.new.room + cond (is_put edit.now) 1 0 }
    ensures mark_room { marks.old.room ≤ marks.new.room + cond (is_mark edit.now) 1 0 }
    ensures len { slab_len items.new ≤ slab_len items.old + cond (is_put edit.now) 1 0 }
    ensures capacity { items.new.capacity ≡ items.old.capacity }
{
    match edit {
        Edit::Put(slot, item) => replace_entry(keys, items, slot, item),
        Edit::Erase(slot) => take_entry(keys, items, slot),
        Edit::Mark(cell) => marks.put(*cell, ()),
        Edit::Unmark(cell) => marks.take_out(cell),
    }
}

// Does the first two edits at once where they put two entries, or one in the place of another, and answers how many are done.
fn change_pair(
    keys: &mut SortedList<Slot, usize>,
    items: &mut Slab<Item>,
    marks: &SortedList<Cell, ()>,
    edits: &[Edit],
) -> usize
    requires kept { AreKept items.old.slots keys.old.entries marks.now.entries }
    requires of_sort { AllPutOfSort edits.now }
    requires room { count_by is_put edits.now ≤ keys.old.room }
    requires slots { HasRoomFor items.old (count_by is_put edits.now) }
    ensures some { result ≤ length edits.now }
    ensures kept { AreKept items.new.slots keys.new.entries marks.now.entries }
    ensures of_sort { AllPutOfSort (drop result edits.now) }
    ensures contents { after_edits (drop result edits.now)
        (contents_of (seen items.new.slots keys.new.entries) marks.now.entries)
        ≡ after_edits edits.now
        (contents_of (seen items.old.slots keys.old.entries) marks.now.entries) }
    ensures room { count_by is_put (drop result edits.now) ≤ keys.new.room }
    ensures slots { HasRoomFor items.new (count_by is_put (drop result edits.now)) }
    ensures marked { count_by is_mark (drop result edits.now) ≡ count_by is_mark edits.now }
{
    let [first, second, ..] = edits else {
        return 0;
    };
    match (*first, *second) {
        (Edit::Put(slot, item), Edit::Put(next, next_item)) => {
            if are_free(keys, &slot, &next) {
                put_both(keys, items, &slot, &item, &next, &next_item);
                2
            } else {
                0
            }
        }
        (Edit::Erase(gone), Edit::Put(slot, item)) => {
            if renew_entry(keys, items, &gone, &slot, &item) {
                2
            } else {
                0
            }
        }
        _ => 0,
    }
}

// Does the edits one after the other. There is room for them.
fn change_each(
    keys: &mut SortedList<Slot, usize>,
    items: &mut Slab<Item>,
    marks: &mut SortedList<Cell, ()>,
    edits: &[Edit],
)
    requires kept { AreKept items.old.slots keys.old.entries marks.old.entries }
    requires of_sort { AllPutOfSort edits.now }
    requires room { count_by is_put edits.now ≤ keys.old.room }
    requires slots { HasRoomFor items.old (count_by is_put edits.now) }
    requires mark_room { count_by is_mark edits.now ≤ marks.old.room }
    ensures kept { AreKept items.new.slots keys.new.entries marks.new.entries }
    ensures contents { contents_of (seen items.new.slots keys.new.entries) marks.new.entries
        ≡ after_edits edits.now
        (contents_of (seen items.old.slots keys.old.entries) marks.old.entries) }
{
    for edit in edits {
        change(keys, items, marks, edit);
    }
}

// Does all edits, for which there is room: a pair in front at once, and the rest one by one.
fn change_all(
    keys: &mut SortedList<Slot, usize>,
    items: &mut Slab<Item>,
    marks: &mut SortedList<Cell, ()>,
    edits: &[Edit],
)
    requires kept { AreKept items.old.slots keys.old.entries marks.old.entries }
    requires of_sort { AllPutOfSort edits.now }
    requires room { count_by is_put edits.now ≤ keys.old.room }
    requires slots { HasRoomFor items.old (count_by is_put edits.now) }
    requires mark_room { count_by is_mark edits.now ≤ marks.old.room }
    ensures kept { AreKept items.new.slots keys.new.entries marks.new.entries }
    ensures contents { contents_of (seen items.new.slots keys.new.entries) marks.new.entries
        ≡ after_edits edits.now
        (contents_of (seen items.old.slots keys.old.entries) marks.old.entries) }
{
    let done = change_pair(keys, items, marks, edits);
    change_each(keys, items, marks, &edits[done..]);
}

// The item under a key that was found. It is there, since the slab has one for each key of the list.
fn item_of(items: &Slab<Item>, found: Option<usize>) -> Option<Item>
    requires { IfSome found (ContainsKey items.now) }
    ensures { result ≡ option_map (item_at items.now.slots) found }
{
    match items.get(found?) {
        Some(item) => Some(*item),
        None => None,
    }
}

// The last entry whose slot is at most the given one, by which the newest is found.
fn last_entry(
    keys: &SortedList<Slot, usize>,
    items: &Slab<Item>,
    slot: &Slot,
) -> Option<(Slot, Item)>
    requires { AreStored items.now.slots keys.now.entries }
    ensures { result ≡ last_or None (entries_up_to slot_cmp slot.now
        (seen items.now.slots keys.now.entries)) }
{
    entry_at(items, keys.last_up_to(slot))
}

// The entry with the greatest timestamp at most `high`, found as a list tablet finds it.
fn newest_in(
    keys: &SortedList<Slot, usize>,
    items: &Slab<Item>,
    cell: Cell,
    sort: Sort,
    high: Ts,
) -> Option<(Ts, Item)>
    requires stored { AreStored items.now.slots keys.now.entries }
    requires sorted { IsTrue (is_sorted slot_cmp (seen items.now.slots keys.now.entries)) }
    requires of_sort { AllOfSort (seen items.now.slots keys.now.entries) }
    ensures { IsNewest
        (map.from_sorted (seen items.now.slots keys.now.entries)) cell sort high result }
{
    let highest = Slot {
        cell,
        sort,
        ts: high,
    };
    let (slot, item) = last_entry(keys, items, &highest)?;
    if is_beside(&slot, &highest) {
        Some((slot.ts, item))
    } else {
        None
    }
}

impl Tablet for SlabTablet {
    ghost contents = { λ t. t };

    fn get(&self, slot: Slot) -> Option<Item> {
        item_of(&self.items, self.keys.get(&slot))
    }

    fn newest(&self, cell: Cell, sort: Sort, high: Ts) -> Option<(Ts, Item)> {
        newest_in(&self.keys, &self.items, cell, sort, high)
    }

    fn next_mark(&self, after: Option<Cell>) -> Option<Cell> {
        next_in(&self.marks, after)
    }

    fn len(&self) -> usize {
        self.keys.len()
    }

    fn at(&self, place: usize) -> Option<(Slot, Item)> {
        entry_at(&self.items, self.keys.at(place))
    }

    fn next_entry(&self, after: Option<Slot>) -> Option<(Slot, Item)> {
        entry_at(&self.items, entry_after(&self.keys, after))
    }

    fn is_empty(&self) -> bool {
        // Without keys the slab is empty too, since it has no item without one.
        self.keys.is_empty() && self.marks.is_empty()
    }

    fn apply(&mut self, edits: &[Edit]) -> Result<(), NoMemory> {
        // Keys, slab and marks get their room before anything changes, so that a refused call leaves all as it was.
        let puts = puts_in(edits);
        self.keys.reserve(puts)?;
        self.items.reserve(puts)?;
        self.marks.reserve(marks_in(edits))?;
        change_all(&mut self.keys, &mut self.items, &mut self.marks, edits);
        Ok(())
    }

    fn clear(&mut self) {
        self.keys.clear();
        self.items.clear();
        self.marks.clear();
    }

    fn end(self) {
        drop(self);
    }
}
