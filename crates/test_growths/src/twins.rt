//! Two shared tables that take the same calls.
ghost use Rattle.std.specs.Prelude.{◌≡◌, ◌≤◌, length, IfOk, IfSome};
ghost use Rattle.pb_steps.specs.Answers.{CanAnswer};
ghost use Rattle.pb_store.specs.Contents.{nothing};

use crate::refusals::Refusals;
use crate::same::{Alike, are_shared_same};
use pb_accepted::Observer;
use pb_base::Ts;
use pb_core::{Seat, Shared};
use pb_memtablet::EitherTablet;
use pb_steps::{Answer, Step};
use pb_store::Table;
use std::alloc::Global;
use test_fixtures::{Unready, open_table_over, table_of};

/// Of the two tablets of a table, the first is a list, and the second a slab.
pub const SORTS: [bool; 2] = [false, true];

/// Two tables that take the same calls, each with its seats.
pub struct Twins {
    pub shared: Shared<EitherTablet>,
    pub seats: Vec<Seat>,
    pub other: Shared<EitherTablet>,
    pub others: Vec<Seat>,
}

/// Two empty tables of two tablets each.
pub fn two_tables(alloc: Global) -> Result<(Table<EitherTablet>, Table<EitherTablet>), Unready>
    ensures { IfOk result (λ p. (p.0.contents ≡ nothing) × (p.1.contents ≡ nothing)) }
{
    let first = table_of(alloc, &SORTS)?;
    match table_of(alloc, &SORTS) {
        Ok(second) => Ok((first, second)),
        Err(fault) => {
            first.close();
            Err(fault)
        }
    }
}

// The second of two, with the first.
fn with_other(
    alloc: Global,
    shared: Shared<EitherTablet>,
    seats: Vec<Seat>,
    table: Table<EitherTablet>,
    observers: Vec<Observer>,
) -> Result<Twins, Unready>
    requires empty { table.contents ≡ nothing }
    requires few { length observers.items ≤ 32 }
{
    match open_table_over(alloc, table, observers, 1, Ts(0), 100) {
        Ok((other, others)) => Ok(Twins {
            shared,
            seats,
            other,
            others,
        }),
        Err(fault) => {
            shared.close();
            Err(fault)
        }
    }
}

/// Two tables with one seat and these observers each.
pub fn open_twice(
    alloc: Global,
    first: Vec<Observer>,
    second: Vec<Observer>,
) -> Result<Twins, Unready>
    requires few { length first.items ≤ 32 }
    requires as_few { length second.items ≤ 32 }
{
    let (table, other) = two_tables(alloc)?;
    match open_table_over(alloc, table, first, 1, Ts(0), 100) {
        Ok((shared, seats)) => with_other(alloc, shared, seats, other, second),
        Err(fault) => {
            other.close();
            Err(fault)
        }
    }
}

/// Ends both.
pub fn close(twins: Twins) {
    let Twins {
        shared,
        seats: _,
        other,
        others: _,
    } = twins;
    shared.close();
    other.close();
}

// The answer of a call, also where it is refused once: with 1, and its table is as the other one then.
fn first_called(twins: &mut Twins, step: &Step, refusals: &mut Refusals) -> Option<Answer>
    ensures can { IfSome result (CanAnswer step.now) }
{
    let seat = twins.seats.first_mut()?;
    let other = twins.others.first()?;
    match twins.shared.call(seat, step) {
        Ok(answer) => Some(answer),
        Err(refusal) => {
            refusals.note_step("Shared::call", step);
            let is_same = are_shared_same(&twins.shared, &twins.other) && seat.is_alike(other);
            if refusal.code() != 1 || !is_same {
                return None;
            }
            match twins.shared.call(seat, step) {
                Ok(answer) => Some(answer),
                Err(_) => None,
            }
        }
    }
}

// The same of the other table, which is called after the first.
fn other_called(twins: &mut Twins, step: &Step, refusals: &mut Refusals) -> Option<Answer> {
    let seat = twins.others.first_mut()?;
    match twins.other.call(seat, step) {
        Ok(answer) => Some(answer),
        Err(_) => {
            refusals.note_step("Shared::call", step);
            twins.other.call(seat, step).ok()
        }
    }
}

/// The answer of both tables to the first seat's call. Where one is refused for memory, nothing of it has changed, and the
/// same call again makes it what the other is.
pub fn call_both(twins: &mut Twins, step: &Step, refusals: &mut Refusals) -> Option<Answer>
    ensures can { IfSome result (CanAnswer step.now) }
{
    let answer = first_called(twins, step, refusals)?;
    let told = other_called(twins, step, refusals)?;
    let seat = twins.seats.first()?;
    let other = twins.others.first()?;
    if told == answer && are_shared_same(&twins.shared, &twins.other) && seat.is_alike(other) {
        Some(answer)
    } else {
        None
    }
}

/// Whether the first seat's room for its next step is made. Where memory is refused for it, the seat is as it was, and the same call
/// again makes the room.
pub fn is_room_made(twins: &mut Twins, refusals: &mut Refusals) -> bool {
    let Some(seat) = twins.seats.first_mut() else {
        return false;
    };
    let Some(other) = twins.others.first() else {
        return false;
    };
    if seat.make_room().is_err() {
        refusals.note("Seat::make_room");
        if !seat.is_alike(other) || seat.make_room().is_err() {
            return false;
        }
    }
    seat.is_alike(other)
}

/// Whether each of these calls is answered.
pub fn call_all(twins: &mut Twins, steps: &[Step], refusals: &mut Refusals) -> bool {
    for step in steps {
        if call_both(twins, step, refusals).is_none() {
            return false;
        }
    }
    true
}
