//! Times tablets of both sorts, SORT being `list` or `slab`: `SORT build COUNT` puts so many entries, one at a time and
//! in mixed order, and `SORT walk COUNT` then goes over all of them, from each entry to the next, 20 times. `SORT
//! change COUNT` does what so many changes of random cells do: each looks at its cell, puts data and lock, and then
//! replaces the lock by a write record. `SORT copy COUNT TIMES` builds a tablet of so many entries, a quarter of whose
//! cells are marked, in a table, and swaps so many spares in, each of the other sort than the one before it. It prints
//! how many entries there are, a walk met, or how many spares were taken.
#![tactic(auto)]

ghost use Rattle.std.specs.Prelude.{◌≡◌};
ghost use Rattle.pb_base.specs.Cell.{row_of};

use pb_base::{Cell, Column, Content, NoMemory, Row, Ts};
use pb_memtablet::{EitherTablet, ListTablet, SlabTablet};
use pb_store::{Edit, Item, Slot, Sort, Table, Tablet};
use std::alloc::Global;

// The n-th row: no two are the same below this prime.
fn row_at(n: u32) -> Row {
    Row(u64::from(n) * 48_271 % 2_147_483_647)
}

fn slot_in(row: Row, sort: Sort, ts: u64) -> Slot
    ensures row { row_of result.cell ≡ row }
    ensures sort { result.sort ≡ sort }
{
    Slot {
        cell: Cell::Data(row, Column::new(0).unwrap()),
        sort,
        ts: Ts(ts),
    }
}

fn build<T: Tablet>(tablet: &mut T, count: u32) -> Result<(), NoMemory> {
    for n in 0..count {
        let slot = slot_in(row_at(n), Sort::Write, 1);
        tablet.apply(&[Edit::Put(slot, Item::Write(Ts(0)))])?;
    }
    Ok(())
}

fn mark_row<T: Tablet>(table: &mut Table<T>, row: Row) -> Result<(), NoMemory> {
    table.apply(&[Edit::Mark(Cell::Data(row, Column::new(0).unwrap()))])
}

fn put_row<T: Tablet>(table: &mut Table<T>, row: Row) -> Result<(), NoMemory> {
    let slot = slot_in(row, Sort::Write, 1);
    table.apply(&[Edit::Put(slot, Item::Write(Ts(0)))])
}

fn fill<T: Tablet>(table: &mut Table<T>, count: u32) -> Result<(), NoMemory> {
    for n in 0..count {
        put_row(table, row_at(n))?;
    }
    for n in 0..count / 4 {
        mark_row(table, row_at(n))?;
    }
    Ok(())
}

// A row that no other change has.
fn changed_row(n: u32) -> Row {
    Row(u64::from(n.wrapping_mul(2_654_435_761)))
}

// Puts data and lock.
fn prewrite<T: Tablet>(tablet: &mut T, row: Row) -> Result<(), NoMemory> {
    let data = slot_in(row, Sort::Data, 1);
    let lock = slot_in(row, Sort::Lock, 1);
    tablet.apply(&[
        Edit::Put(data, Item::Data(Content::Value([7; 32]))),
        Edit::Put(lock, Item::Lock(lock.cell)),
    ])
}

// Replaces the lock by a write record.
fn commit<T: Tablet>(tablet: &mut T, row: Row) -> Result<(), NoMemory> {
    let lock = slot_in(row, Sort::Lock, 1);
    let record = slot_in(row, Sort::Write, 2);
    tablet.apply(&[Edit::Erase(lock), Edit::Put(record, Item::Write(Ts(1)))])
}

// Whether no entry of the sort stands on the cell.
fn is_free<T: Tablet>(tablet: &T, row: Row, sort: Sort) -> bool {
    let slot = slot_in(row, sort, 1);
    tablet.newest(slot.cell, sort, Ts(u64::MAX)).is_none()
}

fn change<T: Tablet>(tablet: &mut T, count: u32) -> Result<(), NoMemory> {
    for n in 0..count {
        let row = changed_row(n);
        if is_free(tablet, row, Sort::Lock) && is_free(tablet, row, Sort::Write) {
            prewrite(tablet, row)?;
            commit(tablet, row)?;
        }
    }
    Ok(())
}

// Whether it is the write record of a transaction that began before. Slot and item are both read
// for that: a list can answer whether an entry is there without a look at it.
fn is_record(slot: &Slot, item: &Item) -> bool {
    match *item {
        Item::Write(start) => slot.ts > start,
        _ => false,
    }
}

// How many write records a walk meets.
fn walk<T: Tablet>(tablet: &T) -> usize {
    let mut met = 0_usize;
    let mut after: Option<Slot> = None;
    for _ in 0..tablet.len() {
        let Some((slot, item)) = tablet.next_entry(after) else {
            return met;
        };
        if is_record(&slot, &item) {
            met = met.wrapping_add(1);
        }
        after = Some(slot);
    }
    met
}

fn walk_often<T: Tablet>(tablet: &T) -> usize {
    let mut met = 0;
    for _ in 0..20 {
        met = walk(tablet);
    }
    met
}

fn time_tablet<T: Tablet>(tablet: T, word: &str, count: u32) -> Option<usize> {
    let mut tablet = tablet;
    let done = if word == "change" {
        change(&mut tablet, count)
    } else {
        build(&mut tablet, count)
    };
    let told = if word == "walk" {
        walk_often(&tablet)
    } else {
        tablet.len()
    };
    tablet.clear();
    tablet.end();
    match done {
        Ok(()) => Some(told),
        Err(_) => None,
    }
}

// Swaps the spares in, the last first, and ends what they take the place of. It answers how many were taken.
fn swap_all<T: Tablet>(table: &mut Table<T>, spares: Vec<T>) -> usize {
    let mut spares = spares;
    let mut taken = 0_usize;
    while let Some(spare) = spares.pop() {
        match table.swap(0, spare) {
            Ok(old) => {
                old.end();
                taken = taken.wrapping_add(1);
            }
            Err((new, _)) => new.end(),
        }
    }
    spares.destroy_empty();
    taken
}

fn fill_and_swap(
    parts: Vec<(Row, EitherTablet)>,
    spares: Vec<EitherTablet>,
    count: u32,
) -> Option<usize> {
    match Table::new(parts) {
        Ok(mut table) => {
            let done = fill(&mut table, count).is_ok();
            let taken = swap_all(&mut table, spares);
            table.close();
            if done { Some(taken) } else { None }
        }
        Err(_) => None,
    }
}

fn copy(alloc: Global, is_list: bool, count: u32, times: u32) -> Option<usize> {
    let mut parts = Vec::new(alloc);
    parts
        .push((Row(0), EitherTablet::new(alloc, !is_list)))
        .ok()?;
    let mut spares = Vec::new(alloc);
    for n in 0..times {
        spares
            .push(EitherTablet::new(alloc, (n % 2 == 0) == is_list))
            .ok()?;
    }
    fill_and_swap(parts, spares, count)
}

fn number_in(words: &[String], place: usize) -> Option<u32> {
    words.get(place)?.as_str().parse::<u32>().ok()
}

// How many entries, met entries or taken spares there are, once what these words ask for is done.
fn count_by(alloc: Global, words: &[String]) -> Option<usize> {
    let is_list = words.get(1)?.as_str() == "list";
    let word = words.get(2)?.as_str();
    let count = number_in(words, 3)?;
    if word == "copy" {
        copy(alloc, is_list, count, number_in(words, 4)?)
    } else if is_list {
        time_tablet(ListTablet::new(alloc), word, count)
    } else {
        time_tablet(SlabTablet::new(alloc), word, count)
    }
}

/// Whether what these words ask for, the crate's own first, was done and printed; none where they ask for nothing, or there is
/// no memory.
pub fn is_done(rt: &HostRuntime, words: &[String]) -> Option<bool> {
    let count = count_by(rt.alloc(), words)?;
    Some(println!(rt; "{count}").is_ok())
}
