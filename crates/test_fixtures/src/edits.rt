//! Edits of one row, and tables that they fill.
ghost use Rattle.std.specs.Prelude.{◌≡◌, ◌<◌};
ghost use Rattle.pb_base.specs.Cell.{row_of};
ghost use Rattle.pb_store.specs.Contents.{edit_row, PutsOfSort};

use pb_base::{Cell, Column, NoMemory, Row, Ts};
use pb_store::{Edit, Item, Slot, Sort, Table, Tablet};

/// The data cell of a row in a column.
pub fn cell_in(row: u64, column: u8) -> Cell
    requires { column < 16 }
    ensures { (row_of result).0 ≡ row }
{
    Cell::Data(Row(row), Column::new(column).unwrap())
}

/// The slot of a lock on the cell in column 0.
pub fn slot_in(row: u64, ts: u64) -> Slot {
    Slot {
        cell: cell_in(row, 0),
        sort: Sort::Lock,
        ts: Ts(ts),
    }
}

/// Puts a lock there, whose primary is the cell itself.
pub fn put_edit(row: u64, ts: u64) -> Edit
    ensures row { edit_row result ≡ row }
    ensures sort { PutsOfSort result }
{
    let slot = Slot {
        cell: cell_in(row, 0),
        sort: Sort::Lock,
        ts: Ts(ts),
    };
    Edit::Put(slot, Item::Lock(slot.cell))
}

/// Marks the cell in a column.
pub fn mark_edit(row: u64, column: u8) -> Edit
    requires { column < 16 }
    ensures row { edit_row result ≡ row }
    ensures sort { PutsOfSort result }
{
    Edit::Mark(cell_in(row, column))
}

/// Puts a lock at 6 into each of these rows, and marks its cell.
pub fn fill<T: Tablet>(table: &mut Table<T>, rows: &[u64]) -> Result<(), NoMemory> {
    for row in rows {
        table.apply(&[put_edit(*row, 6)])?;
        table.apply(&[mark_edit(*row, 0)])?;
    }
    Ok(())
}
