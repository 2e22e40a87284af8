//! Tables of one tablet, of either sort, with 700,000 entries and 350,000 marks, and what is answered of some of them.
//! As built they take a second; `rt try`, which checks each step, gives them up.
ghost use Rattle.std.specs.Prelude.{◌≡◌};
ghost use Rattle.pb_base.specs.Cell.{row_of};
ghost use Rattle.pb_store.specs.Contents.{edit_row, PutsOfSort};

use crate::memtablet::end_all;
use pb_base::{Cell, Column, NoMemory, Row, Ts};
use pb_memtablet::EitherTablet;
use pb_store::{Edit, Item, Slot, Sort, Table, Tablet};
use std::alloc::Global;
use std::test::Fail;

// How many cells there are, each with two entries and a mark.
const CELLS: u64 = 350_000;

// The row of the n-th cell: every third one.
fn row_at(n: u64) -> u64 {
    n.wrapping_mul(3)
}

fn cell_in(row: u64) -> Cell
    ensures { (row_of result).0 ≡ row }
{
    Cell::Data(Row(row), Column::new(5).unwrap())
}

fn slot_in(row: u64, ts: u64) -> Slot {
    Slot {
        cell: cell_in(row),
        sort: Sort::Write,
        ts: Ts(ts),
    }
}

// The write record of this commit, whose transaction began one before.
fn put_edit(row: u64, ts: u64) -> Edit
    ensures row { edit_row result ≡ row }
    ensures sort { PutsOfSort result }
{
    let slot = Slot {
        cell: cell_in(row),
        sort: Sort::Write,
        ts: Ts(ts),
    };
    Edit::Put(slot, Item::Write(Ts(ts.wrapping_sub(1))))
}

fn mark_edit(row: u64) -> Edit
    ensures row { edit_row result ≡ row }
    ensures sort { PutsOfSort result }
{
    Edit::Mark(cell_in(row))
}

// Fills a table in rising order, by which chunks of entries are filled by half: so there are the most of them.
fn fill<T: Tablet>(table: &mut Table<T>) -> Result<(), NoMemory> {
    for n in 0..CELLS {
        let row = row_at(n);
        table.apply(&[put_edit(row, 2)])?;
        table.apply(&[put_edit(row, 5)])?;
        table.apply(&[mark_edit(row)])?;
    }
    Ok(())
}

fn wrote(ts: u64) -> Option<Item> {
    Some(Item::Write(Ts(ts.wrapping_sub(1))))
}

fn newest(ts: u64) -> Option<(Ts, Item)> {
    Some((Ts(ts), Item::Write(Ts(ts.wrapping_sub(1)))))
}

// The entries of the n-th cell: two, one after the other in the table, and no other.
fn are_entries<T: Tablet>(table: &Table<T>, n: u64) -> bool {
    let row = row_at(n);
    let place = (n as usize).wrapping_mul(2);
    table.at(place) == Some((slot_in(row, 2), Item::Write(Ts(1))))
        && table.at(place.wrapping_add(1)) == Some((slot_in(row, 5), Item::Write(Ts(4))))
        && table.next_entry(Some(slot_in(row, 2))) == table.at(place.wrapping_add(1))
        && table.next_entry(Some(slot_in(row, 5))) == table.at(place.wrapping_add(2))
        && table.get(slot_in(row, 2)) == wrote(2)
        && table.get(slot_in(row, 5)) == wrote(5)
        && table.get(slot_in(row, 3)).is_none()
        && table.get(slot_in(row.wrapping_add(1), 2)).is_none()
}

fn newest_in<T: Tablet>(table: &Table<T>, row: u64, sort: Sort, high: u64) -> Option<(Ts, Item)> {
    table.newest(cell_in(row), sort, Ts(high))
}

// What is newest at the n-th cell up to some timestamps, and at the row after it.
fn is_newest<T: Tablet>(table: &Table<T>, n: u64) -> bool {
    let row = row_at(n);
    newest_in(table, row, Sort::Write, 1).is_none()
        && newest_in(table, row, Sort::Write, 4) == newest(2)
        && newest_in(table, row, Sort::Write, u64::MAX) == newest(5)
        && newest_in(table, row, Sort::Lock, u64::MAX).is_none()
        && newest_in(table, row.wrapping_add(1), Sort::Write, u64::MAX).is_none()
}

// The mark after the n-th cell, and after the row that follows it: that of the next cell.
fn is_marked<T: Tablet>(table: &Table<T>, n: u64) -> bool {
    let next = n.wrapping_add(1);
    let mark = if next < CELLS {
        Some(cell_in(row_at(next)))
    } else {
        None
    };
    let row = row_at(n);
    table.next_mark(Some(cell_in(row))) == mark
        && table.next_mark(Some(cell_in(row.wrapping_add(1)))) == mark
}

// Whether all answers for cells here and there are so, and nothing is after the last entry.
fn is_filled<T: Tablet>(table: &Table<T>) -> bool {
    for n in [
        0, 1, 15, 16, 31, 32, 9_999, 159_999, 174_999, 175_000, 319_999, 320_000, 349_998, 349_999,
    ] {
        if !are_entries(table, n) || !is_newest(table, n) || !is_marked(table, n) {
            return false;
        }
    }
    table.next_mark(None) == Some(cell_in(0))
        && table.next_entry(None) == table.at(0)
        && table.at(700_000).is_none()
}

// Whether a spare takes all of it, and an empty tablet comes back.
fn is_swapped<T: Tablet>(table: &mut Table<T>, spare: T) -> bool {
    match table.swap(0, spare) {
        Ok(old) => {
            let is_empty = old.is_empty() && old.len() == 0;
            old.end();
            is_empty
        }
        Err((spare, _)) => {
            spare.end();
            false
        }
    }
}

// Whether a tablet of this sort is filled so, and one of the other sort that takes its place.
fn are_filled(alloc: Global, is_slab: bool) -> Result<bool, NoMemory> {
    let mut parts = Vec::new(alloc);
    parts.push((Row(0), EitherTablet::new(alloc, is_slab)))?;
    match Table::new(parts) {
        Ok(table) => {
            let mut table = table;
            let filled = fill(&mut table).is_ok() && is_filled(&table);
            let spare = EitherTablet::new(alloc, !is_slab);
            let held = is_swapped(&mut table, spare) && is_filled(&table);
            table.close();
            Ok(filled && held)
        }
        Err((parts, _)) => {
            end_all(parts);
            Ok(false)
        }
    }
}

#[test]
fn lists_hold_700_000_entries(rt: HostRuntime) -> Result<(), Fail> {
    assert!(rt; are_filled(rt.alloc(), false)?);
    Ok(())
}

#[test]
fn slabs_hold_700_000_entries(rt: HostRuntime) -> Result<(), Fail> {
    assert!(rt; are_filled(rt.alloc(), true)?);
    Ok(())
}
