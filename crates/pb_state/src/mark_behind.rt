//! A table that begins without the marks that it had gets one on each cell that an observer isn't up to date on.
ghost use Rattle.std.specs.Prelude.{◌≡◌, ◌≤◌, [], length, OnOk, OnErr, MatchBool};
ghost use Rattle.pb_base.specs.declared.limits.TheConstants.{MAX_OBSERVERS};
ghost use Rattle.pb_history.specs.Sound.{IsSoundTable, HasData};
ghost use Rattle.pb_steps.specs.Marks.{AllUpToDate, SomeBehind};
ghost use Rattle.pb_state.specs.MoreMarks.{AddsMarks, AreMarkedBefore, IsMarkedBy};
ghost use Rattle.pb_state.specs.MarkedBehind.{HasSomeMarked, IsMarkedBehind};

use crate::add_observers::{is_write_record, mark_edits};
use crate::parts::Parts;
use crate::sweep::is_behind;
use pb_accepted::Observer;
use pb_base::{Cell, NoMemory};
use pb_store::{Item, Slot, Table, Tablet};

// Marks the cell of an entry, if that is a write record and an observer isn't up to date on the cell.
fn mark_if_behind<T: Tablet>(
    table: &mut Table<T>,
    observers: &[Observer],
    slot: &Slot,
    item: &Item,
) -> Result<(), NoMemory>
    requires data_stands { HasData table.old.contents.entries }
    requires numbered { length observers.now ≤ MAX_OBSERVERS }
    ensures entries { table.new.contents.entries ≡ table.old.contents.entries }
    ensures ok { OnOk result (IsMarkedBy (SomeBehind observers.now table.old.contents.entries)
        slot.now item.now table.old.contents.marks table.new.contents.marks) }
    ensures err { OnErr result (table.new.contents ≡ table.old.contents) }
{
    if is_write_record(slot.sort, item) && is_behind(table, observers, &slot.cell) {
        table.apply(&mark_edits(&slot.cell))
    } else {
        Ok(())
    }
}

// Marks each cell that an observer isn't up to date on, in one walk over the entries.
fn mark_all_behind<T: Tablet>(table: &mut Table<T>, observers: &[Observer]) -> Result<(), NoMemory>
    requires data_stands { HasData table.old.contents.entries }
    requires numbered { length observers.now ≤ MAX_OBSERVERS }
    ensures entries { table.new.contents.entries ≡ table.old.contents.entries }
    ensures ok { OnOk result (AreMarkedBefore
        (SomeBehind observers.now table.old.contents.entries) table.old.contents.entries []
        table.old.contents.marks table.new.contents.marks) }
    ensures err { OnErr result (AddsMarks
        (SomeBehind observers.now table.old.contents.entries) table.old.contents.entries
        table.old.contents.marks table.new.contents.marks) }
{
    let mut after = None;
    while let Some((slot, item)) = table.next_entry(after) {
        mark_if_behind(table, observers, &slot, &item)?;
        after = Some(slot);
    }
    Ok(())
}

impl<T: Tablet> Parts<T> {
    #[tactic(auto, using(pb_history::proofs::SoundHasData::keeps_data))]
    pub(crate) fn is_behind(&self, cell: &Cell) -> bool
        requires sound { IsSoundTable self.now }
        ensures { MatchBool result (SomeBehind self.now.observers self.now.entries cell.now)
            (AllUpToDate self.now.observers self.now.entries cell.now) }
    {
        is_behind(&self.table, &self.observers, cell)
    }

    #[tactic(auto, using(pb_history::proofs::SoundHasData::keeps_data))]
    pub(crate) fn mark_behind(&mut self) -> Result<(), NoMemory>
        requires sound { IsSoundTable self.old }
        ensures ok { OnOk result (IsMarkedBehind self.old self.new) }
        ensures err { OnErr result (HasSomeMarked self.old self.new) }
    {
        mark_all_behind(&mut self.table, &self.observers)
    }
}
