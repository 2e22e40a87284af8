//! What the tablet answers after a few edits, alone and boxed under a table.
ghost use Rattle.std.specs.Prelude.{◌≡◌};
ghost use Rattle.pb_base.specs.Cell.{row_of};

use pb_base::{Cell, Column, Content, Row, Ts};
use pb_memtablet::{ListTablet, SlabTablet};
use pb_store::{Edit, Item, Slot, Sort, Table, Tablet};
use std::test::Fail;

fn cell_in(row: u64) -> Cell
    ensures { (row_of result).0 ≡ row }
{
    Cell::Data(Row(row), Column::new(3).unwrap())
}

fn cell() -> Cell
    ensures { (row_of result).0 ≡ 4 }
{
    cell_in(4)
}

fn slot(sort: Sort, ts: u64) -> Slot
    ensures row { (row_of result.cell).0 ≡ 4 }
    ensures sort { result.sort ≡ sort }
{
    Slot {
        cell: cell(),
        sort,
        ts: Ts(ts),
    }
}

// Whether the tablet has three entries, and finds them by slot and by place.
fn has_entries(tablet: &ListTablet) -> bool {
    tablet.len() == 3
        && tablet.get(slot(Sort::Data, 5)) == Some(Item::Data(Content::Deleted))
        && tablet.get(slot(Sort::Data, 7)).is_none()
        && tablet.at(0) == Some((slot(Sort::Data, 5), Item::Data(Content::Deleted)))
        && tablet.at(2) == Some((slot(Sort::Write, 9), Item::Write(Ts(8))))
        && tablet.at(3).is_none()
}

// Whether it finds the newest write record up to a timestamp.
fn has_newest(tablet: &ListTablet) -> bool {
    tablet.newest(cell(), Sort::Write, Ts(6)).is_none()
        && tablet.newest(cell(), Sort::Write, Ts(8)) == Some((Ts(7), Item::Write(Ts(5))))
        && tablet.newest(cell(), Sort::Write, Ts(u64::MAX)) == Some((Ts(9), Item::Write(Ts(8))))
}

// Whether the cell is marked, and no other.
fn has_mark_alone(tablet: &ListTablet) -> bool {
    tablet.next_mark(None) == Some(cell()) && tablet.next_mark(Some(cell())).is_none()
}

// Whether three entries and a mark are there once they are put, and one entry less and no mark once these are taken away.
fn takes_edits(tablet: &mut ListTablet) -> bool {
    let put = [
        Edit::Put(slot(Sort::Write, 9), Item::Write(Ts(8))),
        Edit::Put(slot(Sort::Data, 5), Item::Data(Content::Deleted)),
        Edit::Put(slot(Sort::Write, 7), Item::Write(Ts(5))),
        Edit::Mark(cell()),
    ];
    let taken = [Edit::Erase(slot(Sort::Write, 7)), Edit::Unmark(cell())];
    tablet.apply(&put).is_ok()
        && has_entries(tablet)
        && has_newest(tablet)
        && has_mark_alone(tablet)
        && tablet.apply(&taken).is_ok()
        && tablet.len() == 2
        && tablet.next_mark(None).is_none()
        && !tablet.is_empty()
}

#[test]
fn edits_are_read_back(rt: HostRuntime) -> Result<(), Fail> {
    let mut tablet = ListTablet::new(rt.alloc());
    assert!(rt; takes_edits(&mut tablet));
    tablet.clear();
    assert!(rt; tablet.is_empty());
    tablet.end();
    Ok(())
}

// Whether the tablet takes a mark in each of many rows, and goes on from each to the next.
fn goes_on(tablet: &mut ListTablet) -> bool {
    for row in 0..1000_u64 {
        if tablet.apply(&[Edit::Mark(cell_in(row))]).is_err() {
            return false;
        }
    }
    let mut last = None;
    for row in 0..1000_u64 {
        last = tablet.next_mark(last);
        if last != Some(cell_in(row)) {
            return false;
        }
    }
    tablet.next_mark(last).is_none()
}

#[test]
fn marks_go_on_from_chunk_to_chunk(rt: HostRuntime) -> Result<(), Fail> {
    let mut tablet = ListTablet::new(rt.alloc());
    assert!(rt; goes_on(&mut tablet));
    tablet.clear();
    tablet.end();
    Ok(())
}

/// Ends tablets that make no table.
pub fn end_all<T: Tablet>(mut parts: Vec<(Row, T)>) {
    while let Some((_, mut tablet)) = parts.pop() {
        tablet.clear();
        tablet.end();
    }
    parts.destroy_empty();
}

// Whether a table takes the spare at its second place, and an empty tablet comes back.
fn is_swapped<T: Tablet>(table: &mut Table<T>, spare: T) -> bool {
    match table.swap(1, spare) {
        Ok(old) => {
            let is_empty = old.is_empty() && old.len() == 0;
            old.end();
            is_empty
        }
        Err((spare, _)) => {
            spare.end();
            false
        }
    }
}

// Whether a table has two places, and one entry, a lock, on a marked cell.
fn is_of_one_lock<T: Tablet>(table: &Table<T>) -> bool {
    table.get(slot(Sort::Lock, 1)) == Some(Item::Lock(cell()))
        && table.newest(cell(), Sort::Lock, Ts(u64::MAX)) == Some((Ts(1), Item::Lock(cell())))
        && table.next_mark(None) == Some(cell())
        && table.at(0) == Some((slot(Sort::Lock, 1), Item::Lock(cell())))
        && table.at(1).is_none()
        && !table.is_empty()
        && table.places() == 2
}

// Whether the tablets make a table that takes a lock and a mark, and keeps them once the spare is swapped in.
fn make_a_table<T: Tablet>(parts: Vec<(Row, T)>, spare: T) -> bool {
    match Table::new(parts) {
        Ok(mut table) => {
            let lock = Edit::Put(slot(Sort::Lock, 1), Item::Lock(cell()));
            let is_applied = table.apply(&[lock, Edit::Mark(cell())]).is_ok();
            let held = is_swapped(&mut table, spare) && is_of_one_lock(&table);
            table.close();
            is_applied && held
        }
        Err((parts, _)) => {
            end_all(parts);
            let mut spare = spare;
            spare.clear();
            spare.end();
            false
        }
    }
}

#[test]
fn boxes_make_a_table(rt: HostRuntime) -> Result<(), Fail> {
    let mut parts: Vec<(Row, Box<dyn Tablet + Send + Drop>)> = Vec::new(rt.alloc());
    for row in [0, 3] {
        parts.push((Row(row), Box::new(rt.alloc(), ListTablet::new(rt.alloc()))?))?;
    }
    let spare: Box<dyn Tablet + Send + Drop> = Box::new(rt.alloc(), SlabTablet::new(rt.alloc()))?;
    assert!(rt; make_a_table(parts, spare));
    Ok(())
}
