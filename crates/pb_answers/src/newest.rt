//! What a snapshot has of a cell.
ghost use Rattle.std.specs.Prelude.{◌≡◌};
ghost use Rattle.pb_base.specs.declared.cell.Cell.TheVariants.{Data};
ghost use Rattle.pb_answers.specs.Seen.{IsSeenIn};

use crate::records::content_at;
use pb_base::{Cell, Column, Row, Ts};
use pb_script::Newest;
use pb_state::State;
use pb_store::{Item, Sort, Table, Tablet};

// The newest write of the cell with a commit at most this one. In every state a write record has its data, but callers of
// `State` don't know that: a record without them is passed over, since it leaves no content.
fn newest_up_to<T: Tablet>(table: &Table<T>, cell: &Cell, last: Ts) -> Option<Newest>
    ensures { IsSeenIn table.now.contents.entries last.0 cell.now result }
{
    let mut high = last;
    while let Some((commit, Item::Write(start))) = table.newest(*cell, Sort::Write, high) {
        if let Some(content) = content_at(table, cell, start) {
            return Some(Newest { commit, content });
        }
        if commit.0 == 0 {
            return None;
        }
        high = Ts(commit.0 - 1);
    }
    None
}

/// The newest committed write of a data cell, in the snapshot at the table's clock.
pub fn newest_of<T: Tablet>(state: &State<T>, row: Row, column: Column) -> Option<Newest>
    ensures { IsSeenIn state.now.entries state.now.clock (Data row column) result }
{
    let cell = Cell::Data(row, column);
    newest_up_to(state.table(), &cell, state.clock())
}
