//! Scripts, and tables that are opened.
ghost use Rattle.std.specs.Prelude.{◌≤◌, length};

use pb_accepted::Observer;
use pb_base::{Batch, Cell, Content, Row, Ts};
use pb_core::{OpenRefused, Seat, Shared};
use pb_memtablet::EitherTablet;
use pb_parse::parse_script;
use std::alloc::Global;
use test_fixtures::{Unready, table_of};
use test_growths::observers::watchers;
use test_growths::refusals::Refusals;
use test_growths::same::are_alike;
use test_growths::steps::{NoSuchNumber, column_of};
use test_growths::twins::SORTS;

/// Two changes, of three cells.
pub const SCRIPT: &str = "put 7 0 2a\ndel 7 1; put 8 0 0b\n";

// The value that begins with this byte, and goes on with zeros.
fn value(first: u8) -> Content {
    let mut bytes = [0; 32];
    bytes[0] = first;
    Content::Value(bytes)
}

fn cell_at(row: u64, column: u8) -> Result<Cell, NoSuchNumber> {
    Ok(Cell::Data(Row(row), column_of(column)?))
}

// Whether these are the changes of that script.
fn are_its_changes(batches: &[Batch]) -> Result<bool, Unready> {
    let [first, second] = batches else {
        return Ok(false);
    };
    let is_first = first.len() == 1 && first.content(cell_at(7, 0)?) == Some(value(0x2a));
    let is_second = second.len() == 2
        && second.primary() == cell_at(7, 1)?
        && second.content(cell_at(7, 1)?) == Some(Content::Deleted)
        && second.content(cell_at(8, 0)?) == Some(value(0x0b));
    Ok(is_first && is_second)
}

/// `parse_script`.
pub fn scripts_are_read(alloc: Global, refusals: &mut Refusals) -> Result<bool, Unready> {
    match parse_script(alloc, SCRIPT) {
        Ok(batches) => are_its_changes(&batches),
        Err(fault) => {
            refusals.note("parse_script");
            match parse_script(alloc, SCRIPT) {
                Ok(batches) => {
                    Ok(fault.line() == 0 && fault.code() == 1 && are_its_changes(&batches)?)
                }
                Err(_) => Ok(false),
            }
        }
    }
}

// Whether this is the empty table of these observers, with three seats.
fn is_opened(shared: &Shared<EitherTablet>, seats: &[Seat], observers: &[Observer]) -> bool {
    let are_seats = match seats {
        [a, b, c] => {
            let are_numbered = a.number() == 0 && b.number() == 1 && c.number() == 2;
            let is_told = seats.iter().any(|seat| !seat.received().is_empty());
            are_numbered && !is_told
        }
        _ => false,
    };
    are_seats
        && shared.seats() == 3
        && shared.clock() == Ts(5)
        && shared.opened() == Ts(5)
        && shared.limit() == 100
        && shared.journal().is_empty()
        && shared.table().is_empty()
        && are_alike(shared.observers(), observers)
}

// Whether the table opens once more with all that was handed back.
fn is_opened_again(alloc: Global, refused: OpenRefused<EitherTablet>, same: &[Observer]) -> bool
    requires few { length refused.observers.items ≤ 32 }
{
    let OpenRefused {
        table,
        observers,
        refusal,
    } = refused;
    let is_handed_back = refusal.code() == 1
        && table.is_empty()
        && table.places() == 2
        && are_alike(&observers, same);
    if !is_handed_back {
        table.close();
        return false;
    }
    match Shared::open(alloc, table, observers, 3, Ts(5), 100) {
        Ok((shared, seats)) => {
            let held = is_opened(&shared, &seats, same);
            shared.close();
            held
        }
        Err(
            OpenRefused {
                table,
                observers: _,
                refusal: _,
            },
        ) => {
            table.close();
            false
        }
    }
}

/// `Shared::open`, which hands table and observers back.
pub fn tables_open(alloc: Global, refusals: &mut Refusals) -> Result<bool, Unready> {
    let observers = watchers(alloc)?;
    let same = watchers(alloc)?;
    match Shared::open(alloc, table_of(alloc, &SORTS)?, observers, 3, Ts(5), 100) {
        Ok((shared, seats)) => {
            let held = is_opened(&shared, &seats, &same);
            shared.close();
            Ok(held)
        }
        Err(refused) => {
            refusals.note("Shared::open");
            Ok(is_opened_again(alloc, refused, &same))
        }
    }
}
