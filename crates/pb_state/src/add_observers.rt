//! Observers come after those that a table has. What was written before is marked for them, since no step marks it again.
ghost use Rattle.std.specs.Prelude.{◌≡◌, ◌≤◌, ◌+◌, [], true, length, OnOk, OnErr};
ghost use Rattle.std.specs.FinMap as map;
ghost use Rattle.pb_base.specs.declared.limits.TheConstants.{MAX_OBSERVERS};
ghost use Rattle.pb_store.specs.Contents.{Contents, AreEdits, after_edits};
ghost use Rattle.pb_steps.specs.Marks.{is_observed};
ghost use Rattle.pb_state.specs.MoreMarks.{is_write_record, AddsMarks, AreMarkedBefore, IsMarkedBy};
ghost use Rattle.pb_state.specs.MoreObservers.{HasMoreMarks, HasMoreObservers};

use crate::commit::is_observed;
use crate::parts::Parts;
use pb_accepted::Observer;
use pb_base::{Cell, NoMemory};
use pb_store::{Edit, Item, Slot, Sort, Table, Tablet};

// Whether an entry is a write record. That a slot has an item of its sort is nothing that callers of a table know.
pub(crate) fn is_write_record(sort: Sort, item: &Item) -> bool
    ensures { result ≡ is_write_record sort item.now }
{
    match item {
        Item::Write(_) => match sort {
            Sort::Write => true,
            _ => false,
        },
        _ => false,
    }
}

// Marks a cell.
pub(crate) fn mark_edits(cell: &Cell) -> [Edit; 1]
    ensures edits { AreEdits result }
    ensures marked { (c : Contents) → after_edits result c
        ≡ record c { marks = map.insert c.marks cell.now tt } }
{
    [Edit::Mark(*cell)]
}

// Marks the cell of an entry, if that is a write record of an observed cell.
fn mark_record<T: Tablet>(
    table: &mut Table<T>,
    observers: &[Observer],
    slot: &Slot,
    item: &Item,
) -> Result<(), NoMemory>
    ensures entries { table.new.contents.entries ≡ table.old.contents.entries }
    ensures ok { OnOk result (IsMarkedBy (λ x. is_observed observers.now x ≡ true) slot.now
        item.now table.old.contents.marks table.new.contents.marks) }
    ensures err { OnErr result (table.new.contents ≡ table.old.contents) }
{
    if is_write_record(slot.sort, item) && is_observed(observers, &slot.cell) {
        table.apply(&mark_edits(&slot.cell))
    } else {
        Ok(())
    }
}

// Marks each observed cell that has a write record, in one walk over the entries.
fn mark_records<T: Tablet>(table: &mut Table<T>, observers: &[Observer]) -> Result<(), NoMemory>
    ensures entries { table.new.contents.entries ≡ table.old.contents.entries }
    ensures ok { OnOk result (AreMarkedBefore (λ x. is_observed observers.now x ≡ true)
        table.old.contents.entries [] table.old.contents.marks table.new.contents.marks) }
    ensures err { OnErr result (AddsMarks (λ x. is_observed observers.now x ≡ true)
        table.old.contents.entries table.old.contents.marks table.new.contents.marks) }
{
    let mut after = None;
    while let Some((slot, item)) = table.next_entry(after) {
        mark_record(table, observers, &slot, &item)?;
        after = Some(slot);
    }
    Ok(())
}

impl<T: Tablet> Parts<T> {
    // The observers come last, so that there are none more where a mark is refused.
    pub(crate) fn add_observers(&mut self, more: Vec<Observer>) -> Result<(), NoMemory>
        requires { length self.old.observers + length more.items ≤ MAX_OBSERVERS }
        ensures ok { OnOk result (HasMoreObservers more.items self.old self.new) }
        ensures err { OnErr result (HasMoreMarks more.items self.old self.new) }
    {
        let mut more = more;
        mark_records(&mut self.table, &more)?;
        self.observers.append(&mut more)?;
        Ok(())
    }
}
