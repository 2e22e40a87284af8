//! What stands in a table, as transactions see it: locks, versions and write records, found by `newest`.
ghost use Rattle.std.specs.Prelude.{◌≡◌, ◌<◌, ◌^◌, ◌⊎◌, is_some, Some, IfNone, IfSome, MatchBool, MatchOption};
ghost use Rattle.std.specs.FinMap as map;
ghost use Rattle.pb_store.specs.Contents.{slot_at};
ghost use Rattle.pb_store.specs.declared.slot.Sort.TheVariants.{Write};
ghost use Rattle.pb_steps.specs.Readings.{SomeLock, SomeWriteFrom, NoLock, NoWriteFrom, IsLockUpTo, IsLockOn, IsVersion, NoVersion, lock_at, write_at, lock_count, is_lock, data_of};
ghost use Rattle.pb_steps.specs.Clear.{NoWriteOf};
ghost use Rattle.pb_history.specs.Sound.{HasData};

use pb_base::{Cell, Content, Revision, Ts};
use pb_store::{Item, Slot, Sort, Table, Tablet};

/// The last timestamp there is, so that the newest entry up to it is the newest of all.
pub(crate) const LAST: Ts = Ts(u64::MAX);

pub(crate) fn slot_of(cell: &Cell, sort: Sort, ts: Ts) -> Slot
    ensures { result ≡ slot_at cell.now sort ts.0 }
{
    Slot {
        cell: *cell,
        sort,
        ts,
    }
}

// The lock of a start at most this one that stands on the cell, with its primary.
pub(crate) fn lock_on<T: Tablet>(table: &Table<T>, cell: &Cell, high: Ts) -> Option<(Ts, Cell)>
    ensures { IsLockUpTo table.now.contents.entries cell.now high.0 result }
{
    match table.newest(*cell, Sort::Lock, high) {
        Some((start, Item::Lock(primary))) => Some((start, primary)),
        _ => None,
    }
}

fn data_of(item: Option<Item>) -> Option<Content>
    ensures { result ≡ data_of item }
{
    match item {
        Some(Item::Data(content)) => Some(content),
        _ => None,
    }
}

// The newest version of the cell with a commit at most this one. A write record's data are there.
pub(crate) fn version_of<T: Tablet>(table: &Table<T>, cell: &Cell, high: Ts) -> Option<Revision>
    requires { HasData table.now.contents.entries }
    ensures { MatchOption result (NoVersion table.now.contents.entries cell.now high.0)
        (IsVersion table.now.contents.entries cell.now high.0) }
{
    let Some((commit, Item::Write(start))) = table.newest(*cell, Sort::Write, high) else {
        return None;
    };
    // Data stand wherever a write record does, since the table is sound.
    let Some(content) = data_of(table.get(slot_of(cell, Sort::Data, start))) else {
        unreachable!()
    };
    Some(Revision {
        start,
        commit,
        content,
    })
}

// The newest lock that stands on the cell, with its primary.
pub(crate) fn any_lock_on<T: Tablet>(table: &Table<T>, cell: &Cell) -> Option<(Ts, Cell)>
    ensures { MatchOption result (NoLock table.now.contents.entries cell.now)
        (λ l. IsLockOn table.now.contents.entries cell.now l.0.0 l.1) }
{
    match table.newest(*cell, Sort::Lock, LAST) {
        Some((start, Item::Lock(primary))) => Some((start, primary)),
        _ => None,
    }
}

// The commit of the write record of this start on the cell. It is looked for from the newest down,
// since those who clear a lock know its start and no commit. That there is none is returned only
// after all. The loop ends, since `high` falls.
pub(crate) fn commit_of<T: Tablet>(table: &Table<T>, cell: &Cell, start: Ts) -> Option<Ts>
    ensures { MatchOption result (NoWriteOf table.now.contents.entries cell.now start.0)
        (λ c. write_at table.now.contents.entries cell.now c.0 ≡ Some start.0) }
{
    let mut high = LAST;
    while let Some((commit, Item::Write(named))) = table.newest(*cell, Sort::Write, high) {
        if named == start {
            return Some(commit);
        }
        if commit.0 == 0 {
            return None;
        }
        high = Ts(commit.0 - 1);
    }
    None
}

// The sort of the first entry of the cell after its data, if there is one. Locks stand before write records.
fn first_after_data<T: Tablet>(table: &Table<T>, cell: &Cell) -> Option<Sort>
    ensures none { IfNone result (NoLock table.now.contents.entries cell.now
        × NoWriteFrom table.now.contents.entries cell.now 0) }
    ensures write { IfSome result (λ s. s ≡ Write
        → NoLock table.now.contents.entries cell.now) }
{
    let data = slot_of(cell, Sort::Data, LAST);
    let Some((slot, _)) = table.next_entry(Some(data)) else {
        return None;
    };
    if slot.cell != *cell {
        return None;
    }
    Some(slot.sort)
}

// Whether a write record of this timestamp or later stands on the cell.
pub(crate) fn is_written<T: Tablet>(table: &Table<T>, cell: &Cell, from: Ts) -> bool
    ensures { MatchBool result (SomeWriteFrom table.now.contents.entries cell.now from.0)
        (NoWriteFrom table.now.contents.entries cell.now from.0) }
{
    // The newest is enough, since all others are earlier.
    let Some((commit, _)) = table.newest(*cell, Sort::Write, LAST) else {
        return false;
    };
    if commit.0 < from.0 {
        return false;
    }
    true
}

// Whether a lock stands on the cell, or a write record of this timestamp or later. One look answers both where neither
// stands, as on a cell that nobody wrote before, and shows where no lock does.
pub(crate) fn is_taken<T: Tablet>(table: &Table<T>, cell: &Cell, from: Ts) -> bool
    ensures { MatchBool result
        (SomeLock table.now.contents.entries cell.now
        ⊎ SomeWriteFrom table.now.contents.entries cell.now from.0)
        (NoLock table.now.contents.entries cell.now
        × NoWriteFrom table.now.contents.entries cell.now from.0) }
{
    let Some(first) = first_after_data(table, cell) else {
        return false;
    };
    match first {
        Sort::Write => is_written(table, cell, from),
        _ => {
            if table.newest(*cell, Sort::Lock, LAST).is_some() {
                return true;
            }
            is_written(table, cell, from)
        }
    }
}

// Whether the lock of this start stands on the cell.
pub(crate) fn has_lock<T: Tablet>(table: &Table<T>, cell: &Cell, start: Ts) -> bool
    ensures { result ≡ is_some (lock_at table.now.contents.entries cell.now start.0) }
{
    table.get(slot_of(cell, Sort::Lock, start)).is_some()
}

fn is_lock(sort: Sort) -> bool
    ensures { result ≡ is_lock sort }
{
    match sort {
        Sort::Lock => true,
        Sort::Data => false,
        Sort::Write => false,
    }
}

// How many locks stand. It walks from entry to entry, since to find each by its place would take longer.
pub(crate) fn count_locks<T: Tablet>(table: &Table<T>) -> usize
    requires { map.len table.now.contents.entries < 2 ^ 64 }
    ensures { result ≡ lock_count table.now.contents.entries }
{
    let mut count = 0;
    let mut after = None;
    while let Some((slot, _)) = table.next_entry(after) {
        if is_lock(slot.sort) {
            count += 1;
        }
        after = Some(slot);
    }
    count
}

// How many cells are marked. Neither count is kept, since it would need the same bound.
pub(crate) fn count_marks<T: Tablet>(table: &Table<T>) -> usize
    requires { map.len table.now.contents.marks < 2 ^ 64 }
    ensures { result ≡ map.len table.now.contents.marks }
{
    let mut count = 0;
    let mut last = None;
    while let Some(cell) = table.next_mark(last) {
        count += 1;
        last = Some(cell);
    }
    count
}
