//! Tables and tablets, also of tablets whose chunks are full when the next edits are done.
use crate::refusals::Refusals;
use crate::twins::SORTS;
use pb_base::{Cell, NoMemory};
use pb_memtablet::{EitherTablet, ListTablet, SlabTablet};
use pb_store::{Item, Table, Tablet};
use std::alloc::Global;
use test_fixtures::{Unready, cell_in, mark_edit, put_edit, slot_in, table_of};

// How many entries, and how many marks, fill a chunk.
const FULL: u64 = 64;

// The n-th mark: one in each row.
fn mark_at(n: u64) -> Cell {
    cell_in(n, 0)
}

// Puts a chunk of entries, and makes a chunk of marks.
fn fill_chunks<T: Tablet>(tablet: &mut T) -> Result<(), NoMemory> {
    for n in 0..FULL {
        tablet.apply(&[put_edit(7, n)])?;
        tablet.apply(&[mark_edit(n, 0)])?;
    }
    Ok(())
}

// Whether the entries and marks are those that fill the chunks, and no more.
fn is_full<T: Tablet>(tablet: &T) -> bool {
    let mut held = tablet.len() == 64;
    let mut last = None;
    for n in 0..FULL {
        last = tablet.next_mark(last);
        held = held && last == Some(mark_at(n));
        if let Some((slot, _)) = tablet.at(n as usize) {
            held = held && slot.cell == cell_in(7, 0) && slot.ts.0 == n;
        } else {
            held = false;
        }
    }
    held && tablet.next_mark(last).is_none()
}

// Puts five entries and makes five marks, more than there is room for in the lists of chunks and of spares.
fn part_chunks<T: Tablet>(tablet: &mut T) -> Result<(), NoMemory> {
    tablet.apply(&[
        put_edit(7, 64),
        put_edit(7, 65),
        put_edit(7, 66),
        put_edit(7, 67),
        put_edit(7, 68),
        mark_edit(7, 1),
        mark_edit(7, 2),
        mark_edit(7, 3),
        mark_edit(7, 4),
        mark_edit(7, 5),
    ])
}

fn are_parted<T: Tablet>(tablet: &mut T, call: &'static str, refusals: &mut Refusals) -> bool {
    if !is_full(tablet) {
        return false;
    }
    if part_chunks(tablet).is_err() {
        refusals.note(call);
        if !is_full(tablet) || part_chunks(tablet).is_err() {
            return false;
        }
    }
    tablet.len() == 69 && tablet.next_mark(Some(cell_in(7, 4))) == Some(cell_in(7, 5))
}

fn are_parted_in<T: Tablet>(
    tablet: T,
    call: &'static str,
    refusals: &mut Refusals,
) -> Result<bool, NoMemory> {
    let mut tablet = tablet;
    let filled = fill_chunks(&mut tablet);
    let held = filled.is_ok() && are_parted(&mut tablet, call, refusals);
    tablet.clear();
    tablet.end();
    filled?;
    Ok(held)
}

/// `Tablet::apply` of both sorts where chunks are parted.
pub fn chunks_are_parted(alloc: Global, refusals: &mut Refusals) -> Result<bool, NoMemory> {
    Ok(
        are_parted_in(ListTablet::new(alloc), "ListTablet::apply", refusals)?
            && are_parted_in(SlabTablet::new(alloc), "SlabTablet::apply", refusals)?,
    )
}

// Whether both edits are done, or none where that is refused once, and then both.
fn applies(table: &mut Table<EitherTablet>, row: u64, refusals: &mut Refusals) -> bool {
    let edits = [put_edit(row, 3), mark_edit(row, 0)];
    if table.apply(&edits).is_err() {
        refusals.note("Table::apply");
        if !table.is_empty() || table.apply(&edits).is_err() {
            return false;
        }
    }
    table.at(0) == Some((slot_in(row, 3), Item::Lock(cell_in(row, 0))))
        && table.at(1).is_none()
        && table.next_mark(None) == Some(cell_in(row, 0))
}

/// `Table::apply`, to the first tablet and to the second.
pub fn tables_apply(alloc: Global, refusals: &mut Refusals) -> Result<bool, Unready> {
    for row in [7u64, 1007] {
        let mut table = table_of(alloc, &SORTS)?;
        let held = applies(&mut table, row, refusals);
        table.close();
        if !held {
            return Ok(false);
        }
    }
    Ok(true)
}
