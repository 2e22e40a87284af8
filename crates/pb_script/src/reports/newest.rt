//! What is newest at each data cell, of writes that come in any order of their commits.
ghost use Rattle.std.specs.BTreeMap as tree;
ghost use Rattle.std.specs.Prelude.{◌≡◌, true, false, cond, Some, IfOk, OnOk, List, [], ◌∷◌, ◌++◌, string_bytes};
ghost use Rattle.pb_base.specs.Cell.{cell_cmp, is_data};
ghost use Rattle.pb_script.specs.ReportLines.{cell_lines};
ghost use Rattle.pb_script.specs.Reports.{AreNewest, is_later, newest_in};
ghost use Rattle.pb_script.specs.declared.reports.newest.Put.{Put};

use crate::reports::lines::{Newest, add_cell_line};
use pb_base::{Cell, Content, Ts};
use std::alloc::{AllocError, Global};
use std::collections::BTreeMap;

/// A committed write of a history.
#[derive(Clone, Copy, Debug)]
pub struct Put {
    pub cell: Cell,
    pub commit: Ts,
    pub content: Content,
}

fn is_data(cell: &Cell) -> bool
    ensures { result ≡ is_data cell.now }
{
    match cell {
        Cell::Data(..) => true,
        Cell::Ack(..) => false,
    }
}

// Puts a write at its cell, unless the table has a newer one there.
fn put_newest(table: &mut BTreeMap<Cell, Newest>, put: &Put) -> Result<(), AllocError>
    ensures newer { OnOk result (is_later (tree.get cell_cmp table.old put.now.cell) put.now.commit
        ≡ true
        → (x : Cell)
        → tree.get cell_cmp table.new x ≡ cond (tree.is_at (cell_cmp put.now.cell) x)
        (Some (newest_in put.now))
        (tree.get cell_cmp table.old x)) }
    ensures older { OnOk result (is_later (tree.get cell_cmp table.old put.now.cell) put.now.commit
        ≡ false
        → (x : Cell) → tree.get cell_cmp table.new x ≡ tree.get cell_cmp table.old x) }
    ensures rising { tree.IsOrdered cell_cmp table.new }
{
    let newest = Newest {
        commit: put.commit,
        content: put.content,
    };
    // Mostly it is the first or a newer one, so it is put at once, and a newer one that it took the place of is put back.
    let Some(old) = table.insert(put.cell, newest)? else {
        return Ok(());
    };
    if put.commit.0 <= old.commit.0 {
        table.insert(put.cell, old)?;
    }
    Ok(())
}

/// Notes one more committed write. One of an acknowledgment is passed over, since a report shows
/// data cells alone.
pub fn note(table: &mut BTreeMap<Cell, Newest>, put: &Put) -> Result<(), AllocError>
    ensures { OnOk result ((puts : List Put) → AreNewest puts table.old
        → AreNewest (puts ++ put.now ∷ []) table.new) }
{
    if is_data(&put.cell) {
        put_newest(table, put)?;
    }
    Ok(())
}

/// The lines of the cells.
pub fn cell_lines(alloc: Global, table: &BTreeMap<Cell, Newest>) -> Result<String, AllocError>
    ensures { IfOk result (λ s. string_bytes s ≡ cell_lines table.now.entries) }
{
    let mut text = String::new(alloc);
    for (cell, newest) in table {
        add_cell_line(&mut text, cell, newest)?;
    }
    Ok(text)
}
