//! A lock is replaced by its write record, which marks an observed cell: by one `apply`, so that each commit has its
//! mark.
ghost use Rattle.std.specs.Prelude.{◌≡◌, ◌==◌, OnOk, OnErr};
ghost use Rattle.std.specs.List.{list_any};
ghost use Rattle.std.specs.FinMap as map;
ghost use Rattle.pb_store.specs.Contents.{Contents, AreEdits, after_edits};
ghost use Rattle.pb_steps.specs.Commits.{commit_lock};
ghost use Rattle.pb_steps.specs.Marks.{is_observed, with_mark};

use crate::readings::slot_of;
use pb_accepted::Observer;
use pb_base::{Cell, Column, NoMemory, Ts};
use pb_store::{Edit, Item, Sort, Table, Tablet};

// Whether the column has an observer.
fn has_observer(observers: &[Observer], column: Column) -> bool
    ensures { result ≡ list_any (λ o. o.column == column) observers.now }
{
    for observer in observers {
        if observer.column == column {
            return true;
        }
    }
    false
}

/// Whether a change of the cell is for an observer. Of an acknowledgment it is for none.
pub(crate) fn is_observed(observers: &[Observer], cell: &Cell) -> bool
    ensures { result ≡ is_observed observers.now cell.now }
{
    match cell {
        Cell::Data(_, column) => has_observer(observers, *column),
        Cell::Ack(_, _, _) => false,
    }
}

// Replaces the lock of a start on a cell by its write record. Erased first, so that a tablet writes one over the other.
fn commit_edits(cell: &Cell, start: Ts, commit: Ts) -> [Edit; 2]
    ensures edits { AreEdits result }
    ensures committed { (c : Contents)
        → after_edits result c
        ≡ record c { entries = commit_lock c.entries cell.now start.0 commit.0 } }
{
    let lock = slot_of(cell, Sort::Lock, start);
    let record = slot_of(cell, Sort::Write, commit);
    [Edit::Erase(lock), Edit::Put(record, Item::Write(start))]
}

// Replaces the lock, and marks the cell.
fn marking_edits(cell: &Cell, start: Ts, commit: Ts) -> [Edit; 3]
    ensures edits { AreEdits result }
    ensures committed { (c : Contents)
        → after_edits result c ≡ record c {
          entries = commit_lock c.entries cell.now start.0 commit.0;
          marks = map.insert c.marks cell.now tt;
        } }
{
    let lock = slot_of(cell, Sort::Lock, start);
    let record = slot_of(cell, Sort::Write, commit);
    [
        Edit::Erase(lock),
        Edit::Put(record, Item::Write(start)),
        Edit::Mark(*cell),
    ]
}

/// Replaces the lock of a start on a cell by its write record, and marks the cell where it has observers; or neither.
pub(crate) fn commit_cell<T: Tablet>(
    table: &mut Table<T>,
    observers: &[Observer],
    cell: &Cell,
    start: Ts,
    commit: Ts,
) -> Result<(), NoMemory>
    ensures ok { OnOk result (table.new.contents ≡ record table.old.contents {
      entries = commit_lock
          table.old.contents.entries cell.now start.0 commit.0;
      marks = with_mark observers.now
          table.old.contents.marks cell.now;
    }) }
    ensures err { OnErr result (table.new.contents ≡ table.old.contents) }
{
    if is_observed(observers, cell) {
        table.apply(&marking_edits(cell, start, commit))
    } else {
        table.apply(&commit_edits(cell, start, commit))
    }
}
