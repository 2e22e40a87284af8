//! Copying what a tablet contains into another, for a swap.
ghost use Rattle.std.specs.Prelude.{◌≡◌, OnOk};
ghost use Rattle.std.specs.FinMap as map;
ghost use Rattle.pb_store.specs.Contents.{nothing, after_edit, IsOfSort};
ghost use Rattle.pb_store.specs.declared.slot.Edit.TheVariants.{Put, Mark};

use crate::slot::{Edit, Item, Slot};
use crate::tablet::Tablet;
use pb_base::{Cell, NoMemory};

// Puts the item into the slot, alone, since `apply` takes edits of one row and a tablet has entries of many.
fn put_in<T: Tablet>(tablet: &mut T, slot: &Slot, item: &Item) -> Result<(), NoMemory>
    requires { IsOfSort slot.now.sort item.now }
    ensures { OnOk result (T.contents tablet.new
        ≡ after_edit (Put slot.now item.now) (T.contents tablet.old)) }
{
    tablet.apply(&[Edit::Put(*slot, *item)])
}

// Marks the cell, alone as well.
fn mark_in<T: Tablet>(tablet: &mut T, cell: &Cell) -> Result<(), NoMemory>
    ensures { OnOk result (T.contents tablet.new
        ≡ after_edit (Mark cell.now) (T.contents tablet.old)) }
{
    tablet.apply(&[Edit::Mark(*cell)])
}

// Puts all entries of a tablet into an empty one. It goes from entry to entry and not by places, since `at` would find
// each place anew.
fn copy_entries<T: Tablet>(from: &T, to: &mut T) -> Result<(), NoMemory>
    requires { T.contents to.old ≡ nothing }
    ensures { OnOk result (T.contents to.new
        ≡ record { entries = (T.contents from.now).entries; marks = map.empty }) }
{
    let mut after: Option<Slot> = None;
    while let Some((slot, item)) = from.next_entry(after) {
        put_in(to, &slot, &item)?;
        after = Some(slot);
    }
    Ok(())
}

// Marks all cells that are marked in another tablet, in one that has its entries and no mark yet.
fn copy_marks<T: Tablet>(from: &T, to: &mut T) -> Result<(), NoMemory>
    requires { T.contents to.old ≡ record {
      entries =
          (T.contents from.now).entries;
      marks = map.empty;
    } }
    ensures { OnOk result (T.contents to.new ≡ T.contents from.now) }
{
    let mut after: Option<Cell> = None;
    while let Some(cell) = from.next_mark(after) {
        mark_in(to, &cell)?;
        after = Some(cell);
    }
    Ok(())
}

/// Puts all that a tablet contains into an empty one. Refused for memory, that one has a part of it, which the caller
/// clears, since a tablet is handed back empty.
pub(crate) fn copy_all<T: Tablet>(from: &T, to: &mut T) -> Result<(), NoMemory>
    requires { T.contents to.old ≡ nothing }
    ensures { OnOk result (T.contents to.new ≡ T.contents from.now) }
{
    copy_entries(from, to)?;
    copy_marks(from, to)
}
