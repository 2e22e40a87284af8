//! Tables that tests begin with.
ghost use Rattle.std.specs.Prelude.{◌≡◌, ◌≤◌, [], length, IfOk};
ghost use Rattle.pb_base.specs.declared.limits.TheConstants.{MAX_ENTRIES, MAX_OBSERVERS, MAX_SEATS};
ghost use Rattle.pb_core.specs.Calls.{AreSeats};
ghost use Rattle.pb_store.specs.Contents.{nothing};

use crate::counted::CountedTablet;
use crate::unready::Unready;
use pb_accepted::Observer;
use pb_base::{NoMemory, Row, Ts};
use pb_core::{OpenRefused, Seat, Shared};
use pb_memtablet::{EitherTablet, ListTablet};
use pb_store::{Table, Tablet};
use std::alloc::Global;
use std::sync::Arc;
use std::sync::atomic::AtomicUsize;

/// An empty table of one tablet.
pub fn table(alloc: Global) -> Result<Table<ListTablet>, Unready>
    ensures { IfOk result (λ t. t.contents ≡ nothing) }
{
    let mut parts = Vec::new(alloc);
    parts.push((Row(0), ListTablet::new(alloc)))?;
    match Table::new(parts) {
        Ok(table) => Ok(table),
        Err((_, refusal)) => Err(Unready::from(refusal)),
    }
}

/// An empty table of tablets a thousand rows apart, each a slab where `slabs` is true, and else
/// a list.
pub fn table_of(alloc: Global, slabs: &[bool]) -> Result<Table<EitherTablet>, Unready>
    ensures { IfOk result (λ t. t.contents ≡ nothing) }
{
    let mut parts = Vec::new(alloc);
    let mut first: u64 = 0;
    for is_slab in slabs {
        parts.push((Row(first), EitherTablet::new(alloc, *is_slab)))?;
        first = first.saturating_add(1000);
    }
    match Table::new(parts) {
        Ok(table) => Ok(table),
        Err((_, refusal)) => Err(Unready::from(refusal)),
    }
}

/// An empty table of a list that refuses the change of this number, counted from 0, for want of memory.
pub fn refusing_table(alloc: Global, refused: usize) -> Result<Table<CountedTablet>, Unready>
    ensures { IfOk result (λ t. t.contents ≡ nothing) }
{
    let calls = Arc::new(alloc, AtomicUsize::new(0))?;
    let tablet = CountedTablet {
        inner: EitherTablet::new(alloc, false),
        calls,
        refused: Some(refused),
        alloc,
        until: None,
    };
    let mut parts = Vec::new(alloc);
    parts.push((Row(0), tablet))?;
    match Table::new(parts) {
        Ok(table) => Ok(table),
        Err((_, refusal)) => Err(Unready::from(refusal)),
    }
}

/// So many spares for the two tablets of a table, the first for the first place, the next for the second, and so on in turn,
/// each of the other sort than the one that it replaces there.
pub fn spares_of(
    alloc: Global,
    slabs: [bool; 2],
    count: usize,
) -> Result<Vec<(usize, EitherTablet)>, NoMemory> {
    let mut are_slabs = slabs;
    let mut spares = Vec::new(alloc);
    for number in 0..count {
        let place = number % 2;
        are_slabs[place] = !are_slabs[place];
        spares.push((place, EitherTablet::new(alloc, are_slabs[place])))?;
    }
    Ok(spares)
}

/// The table of one tablet, opened for these observers and as many seats, with `last` the last timestamp given out and room for
/// `limit` entries.
pub fn open_table(
    alloc: Global,
    observers: Vec<Observer>,
    seats: u32,
    last: Ts,
    limit: usize,
) -> Result<(Shared<ListTablet>, Vec<Seat>), Unready>
    requires few { length observers.items ≤ MAX_OBSERVERS }
    requires some { 1 ≤ seats }
    requires seats { seats ≤ MAX_SEATS }
    requires bounded { limit ≤ MAX_ENTRIES }
    ensures fresh { IfOk result (λ s. s.0.journal ≡ []) }
    ensures seated { IfOk result (λ s. AreSeats s.0 s.1.items) }
{
    open_table_over(alloc, table(alloc)?, observers, seats, last, limit)
}

/// The same over this table.
pub fn open_table_over<T: Tablet>(
    alloc: Global,
    table: Table<T>,
    observers: Vec<Observer>,
    seats: u32,
    last: Ts,
    limit: usize,
) -> Result<(Shared<T>, Vec<Seat>), Unready>
    requires empty { table.contents ≡ nothing }
    requires few { length observers.items ≤ MAX_OBSERVERS }
    requires some { 1 ≤ seats }
    requires seats { seats ≤ MAX_SEATS }
    requires bounded { limit ≤ MAX_ENTRIES }
    ensures fresh { IfOk result (λ s. s.0.journal ≡ []) }
    ensures seated { IfOk result (λ s. AreSeats s.0 s.1.items) }
{
    match Shared::open(alloc, table, observers, seats, last, limit) {
        Ok(opened) => Ok(opened),
        Err(
            OpenRefused {
                table,
                observers: _,
                refusal,
            },
        ) => {
            table.close();
            Err(Unready::from(refusal))
        }
    }
}
