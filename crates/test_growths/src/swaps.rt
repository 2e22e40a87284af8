//! Swaps of a table's tablets for tablets of either sort.
ghost use Rattle.std.specs.Prelude.{◌≡◌};
ghost use Rattle.pb_store.specs.Contents.{nothing};

use crate::refusals::Refusals;
use crate::same::{are_shared_same, are_states_same, are_tables_same};
use pb_base::Refusal;
use pb_core::Shared;
use pb_memtablet::EitherTablet;
use pb_state::State;
use pb_store::{Table, Tablet};
use std::alloc::Global;
use test_fixtures::{Unready, fill, table_of};

/// A table, by itself or within what keeps more of it, whose tablets can be swapped.
pub trait Swaps<T: Tablet> {
    ghost use Rattle.std.specs.Prelude.{◌≡◌, IfOk, IfErr};
    ghost use Rattle.pb_store.specs.Contents.{nothing};

    /// Swaps a tablet in at a place.
    fn take_in(&mut self, place: usize, spare: T) -> Result<T, (T, Refusal)>
        ensures answered { IfOk result (λ old. T.contents old ≡ nothing) }
        ensures handed_back { IfErr result (λ e. T.contents e.0 ≡ nothing) };

    /// Whether both contain the same, and are the same in all that their calls return.
    fn is_as(&self, other: &Self) -> bool;
}

impl<T: Tablet> Swaps<T> for Table<T> {
    fn take_in(&mut self, place: usize, spare: T) -> Result<T, (T, Refusal)> {
        self.swap(place, spare)
    }

    fn is_as(&self, other: &Self) -> bool {
        are_tables_same(self, other)
    }
}

impl<T: Tablet> Swaps<T> for State<T> {
    fn take_in(&mut self, place: usize, spare: T) -> Result<T, (T, Refusal)> {
        self.swap(place, spare)
    }

    fn is_as(&self, other: &Self) -> bool {
        are_states_same(self, other)
    }
}

impl<T: Tablet> Swaps<T> for Shared<T> {
    fn take_in(&mut self, place: usize, spare: T) -> Result<T, (T, Refusal)> {
        self.swap(place, spare)
    }

    fn is_as(&self, other: &Self) -> bool {
        are_shared_same(self, other)
    }
}

// The rows that are filled, some in each of the two tablets.
const ROWS: [u64; 4] = [3, 7, 1000, 1001];

// A table of two tablets with an entry and a mark in each row.
fn filled_table(alloc: Global, slabs: [bool; 2]) -> Result<Table<EitherTablet>, Unready> {
    let mut table = table_of(alloc, &slabs)?;
    match fill(&mut table, &ROWS) {
        Ok(()) => Ok(table),
        Err(fault) => {
            table.close();
            Err(Unready::NoMemory(fault))
        }
    }
}

// Whether nothing is in a tablet, neither an entry nor a mark.
fn has_nothing<T: Tablet>(tablet: &T) -> bool {
    tablet.is_empty() && tablet.len() == 0 && tablet.next_mark(None).is_none()
}

// Whether nothing was in a tablet that came out of a table. It is ended.
fn was_empty<T: Tablet>(tablet: T) -> bool
    requires { T.contents tablet ≡ nothing }
{
    let is_empty = has_nothing(&tablet);
    tablet.end();
    is_empty
}

// Whether a spare is swapped in, also where that is refused once: with 1, the spare is empty then and all as it was. It stays as
// the other one is.
fn is_swapped<T: Tablet, S: Swaps<T>>(
    table: &mut S,
    other: &S,
    place: usize,
    spare: T,
    call: &'static str,
    refusals: &mut Refusals,
) -> bool {
    let (spare, refusal) = match table.take_in(place, spare) {
        Ok(old) => return was_empty(old) && table.is_as(other),
        Err(refused) => refused,
    };
    refusals.note(call);
    if refusal.code() != 1 || !has_nothing(&spare) || !table.is_as(other) {
        spare.end();
        return false;
    }
    match table.take_in(place, spare) {
        Ok(old) => was_empty(old) && table.is_as(other),
        Err((spare, _)) => {
            spare.end();
            false
        }
    }
}

/// Whether each of two places takes a spare of each sort, by the call of this name.
pub fn are_swapped<S: Swaps<EitherTablet>>(
    alloc: Global,
    table: &mut S,
    other: &S,
    call: &'static str,
    refusals: &mut Refusals,
) -> bool {
    for (place, is_slab) in [(0usize, true), (1, false), (1, true), (0, false)] {
        let spare = EitherTablet::new(alloc, is_slab);
        if !is_swapped(table, other, place, spare, call, refusals) {
            return false;
        }
    }
    true
}

// The same of two tables of these sorts.
fn tables_take(alloc: Global, slabs: [bool; 2], refusals: &mut Refusals) -> Result<bool, Unready> {
    let mut table = filled_table(alloc, slabs)?;
    let other = match filled_table(alloc, slabs) {
        Ok(other) => other,
        Err(fault) => {
            table.close();
            return Err(fault);
        }
    };
    let held = are_swapped(alloc, &mut table, &other, "Table::swap", refusals);
    table.close();
    other.close();
    Ok(held)
}

/// `Table::swap`: refused, the table is as before and the spare comes back empty; made again, it is put in place.
pub fn tablets_are_swapped(alloc: Global, refusals: &mut Refusals) -> Result<bool, Unready> {
    for slabs in [[false, false], [false, true], [true, false], [true, true]] {
        if !tables_take(alloc, slabs, refusals)? {
            return Ok(false);
        }
    }
    Ok(true)
}
