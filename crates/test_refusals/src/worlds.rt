//! Worlds, and the events that happen in them.
ghost use Rattle.std.specs.Prelude.{◌≤◌, IfOk};
ghost use Rattle.pb_base.specs.declared.limits.TheConstants.{MAX_ENTRIES, MAX_SEATS};
ghost use Rattle.pb_core.specs.Calls.{AreSeats};
ghost use Rattle.pb_world.specs.Sound.{IsSoundWorld};

use crate::jobs::program;
use law_worlds::opened_worlds_are_sound;
use pb_base::{Batch, Ts};
use pb_core::{Seat, Shared};
use pb_memtablet::EitherTablet;
use pb_parse::{Event, parse_schedule};
use pb_world::{EventFault, World, WorldFault, worlds_stay_sound};
use std::alloc::Global;
use test_fixtures::{Unready, open_table_over, table_of};
use test_growths::observers::observers;
use test_growths::refusals::Refusals;
use test_growths::same::{are_alike, are_shared_same};
use test_growths::steps::{batch, three_cells};
use test_growths::twins::SORTS;

// What happens before: a change, another that crashes with its lock there, and a sweep by the main seat.
const BEFORE: &str =
    "launch 1 change 2\nstep 1 5\nlaunch 2 change 2\nstep 2 3\ncrash 2\nsweep 7 0\n";

// A change, a run that crashes while others' locks may stand, a second run of its cell, and what the main seat clears.
const SCHEDULE: &str =
    "settle 7 0\nlaunch 1 change 1\nstep 1 4\nlaunch 2 change 1\nstep 1 100\nstep 2 4\ncrash 2\nlaunch 2 run watch 7\nstep 2 30\ncrash 2\nlaunch 3 run watch 7\nstep 3 100\nsettle ack watch 7\nclear 1007 1\nsweep 7 0\n";

// How many events it has.
const EVENTS: usize = 248;

fn events(alloc: Global, schedule: &str) -> Result<Vec<Event>, Unready> {
    let observers = observers(alloc, &program(alloc)?)?;
    Ok(parse_schedule(alloc, schedule, &observers)?)
}

// A change of three cells, and one of one.
fn batches(alloc: Global) -> Result<Vec<Batch>, Unready> {
    let mut batches = Vec::new(alloc);
    batches.push(three_cells(alloc)?)?;
    batches.push(batch(alloc)?)?;
    Ok(batches)
}

// Why the events that happen before didn't.
fn unready_of(fault: WorldFault) -> Unready {
    match fault.fault {
        EventFault::NoMemory(refused) => Unready::NoMemory(refused),
        _ => Unready::Other("an event can't happen"),
    }
}

// What a world leaves once these events happened there.
fn left_after(
    alloc: Global,
    world: World<EitherTablet>,
    events: &[Event],
) -> Result<(Shared<EitherTablet>, Vec<Seat>), Unready>
    requires { IsSoundWorld world }
    ensures { IfOk result (λ s. AreSeats s.0 s.1.items) }
{
    // For the proof: the seats of a world are those of its table after any events.
    worlds_stay_sound();
    let mut world = world;
    let happened = world.run(alloc, events);
    let (shared, seats) = world.close();
    match happened {
        Ok(_) => Ok((shared, seats)),
        Err(fault) => {
            shared.close();
            Err(unready_of(fault))
        }
    }
}

// A table with an observer, and its seats.
fn open_observed(
    alloc: Global,
    seats: u32,
    limit: usize,
) -> Result<(Shared<EitherTablet>, Vec<Seat>), Unready>
    requires some { 1 ≤ seats }
    requires few { seats ≤ MAX_SEATS }
    requires bounded { limit ≤ MAX_ENTRIES }
    ensures { IfOk result (λ s. AreSeats s.0 s.1.items) }
{
    let observers = observers(alloc, &program(alloc)?)?;
    let table = table_of(alloc, &SORTS)?;
    open_table_over(alloc, table, observers, seats, Ts(0), limit)
}

/// A table with an observer, and its seats, once the events of a schedule happened there.
pub fn used(
    alloc: Global,
    schedule: &str,
    seats: u32,
    limit: usize,
) -> Result<(Shared<EitherTablet>, Vec<Seat>), Unready>
    requires some { 1 ≤ seats }
    requires few { seats ≤ MAX_SEATS }
    requires bounded { limit ≤ MAX_ENTRIES }
    ensures { IfOk result (λ s. AreSeats s.0 s.1.items) }
{
    // For the proof: an opened world is sound.
    opened_worlds_are_sound();
    let events = events(alloc, schedule)?;
    let batches = batches(alloc)?;
    let (shared, seats) = open_observed(alloc, seats, limit)?;
    match World::open(alloc, shared, seats, batches) {
        Ok(world) => left_after(alloc, world, &events),
        Err((shared, _seats, _batches, refused)) => {
            shared.close();
            Err(Unready::NoMemory(refused))
        }
    }
}

// Whether these are the table, the seats and the batches that a world was to be opened with.
fn are_handed_back(
    alloc: Global,
    shared: &Shared<EitherTablet>,
    seats: &[Seat],
    changes: &[Batch],
) -> Result<bool, Unready> {
    let batches = batches(alloc)?;
    let (other, others) = used(alloc, BEFORE, 4, 100)?;
    let held = are_shared_same(shared, &other)
        && are_alike(seats, &others)
        && are_alike(changes, &batches);
    other.close();
    Ok(held)
}

fn reopened(
    alloc: Global,
    shared: Shared<EitherTablet>,
    seats: Vec<Seat>,
    batches: Vec<Batch>,
) -> Option<World<EitherTablet>>
    requires { AreSeats shared seats.items }
{
    match World::open(alloc, shared, seats, batches) {
        Ok(world) => Some(world),
        Err((shared, _seats, _batches, _)) => {
            shared.close();
            None
        }
    }
}

// A world over a used table, also where it is refused once and all is handed back.
fn open_world(
    alloc: Global,
    refusals: &mut Refusals,
) -> Result<Option<World<EitherTablet>>, Unready> {
    let batches = batches(alloc)?;
    let (shared, seats) = used(alloc, BEFORE, 4, 100)?;
    match World::open(alloc, shared, seats, batches) {
        Ok(world) => Ok(Some(world)),
        Err((shared, seats, batches, _)) => {
            refusals.note("World::open");
            let held = are_handed_back(alloc, &shared, &seats, &batches);
            if held != Ok(true) {
                shared.close();
                return Ok(None);
            }
            Ok(reopened(alloc, shared, seats, batches))
        }
    }
}

fn end(world: World<EitherTablet>) {
    let (shared, _seats) = world.close();
    shared.close();
}

// Whether a world is as one in which these events happened, and no others.
fn is_after(
    alloc: Global,
    world: &World<EitherTablet>,
    events: &[Event],
    refusals: &mut Refusals,
) -> Result<bool, Unready> {
    let Some(other) = open_world(alloc, refusals)? else {
        return Ok(false);
    };
    let mut other = other;
    let held = match other.run(alloc, events) {
        Ok(notes) => {
            notes.len() == events.len() && are_shared_same(world.shared(), other.shared())
        }
        Err(_) => false,
    };
    end(other);
    Ok(held)
}

// Whether the events happen; refused for memory, those before happened, and then the rest does.
fn happen(
    alloc: Global,
    world: &mut World<EitherTablet>,
    events: &[Event],
    refusals: &mut Refusals,
) -> Result<bool, Unready> {
    let fault = match world.run(alloc, events) {
        Ok(notes) => return Ok(notes.len() == events.len()),
        Err(fault) => fault,
    };
    refusals.note("World::run");
    if fault.code() != 1 || fault.event >= events.len() {
        return Ok(false);
    }
    let rest = &events[fault.event..];
    if !is_after(alloc, world, &events[..fault.event], refusals)? {
        return Ok(false);
    }
    match world.run(alloc, rest) {
        Ok(notes) => Ok(notes.len() == rest.len()),
        Err(_) => Ok(false),
    }
}

// Whether two worlds leave the same tables and seats.
fn leave_the_same(first: World<EitherTablet>, second: World<EitherTablet>) -> bool {
    let (shared, seats) = first.close();
    let (other, others) = second.close();
    let is_same = are_shared_same(&shared, &other) && are_alike(&seats, &others);
    shared.close();
    other.close();
    is_same
}

// Whether the events happen in both worlds, and leave the same.
fn happen_in_both(
    alloc: Global,
    first: World<EitherTablet>,
    second: World<EitherTablet>,
    events: &[Event],
    refusals: &mut Refusals,
) -> Result<bool, Unready> {
    let mut first = first;
    let mut second = second;
    let in_first = happen(alloc, &mut first, events, refusals);
    let in_second = happen(alloc, &mut second, events, refusals);
    let is_same = leave_the_same(first, second);
    Ok(in_first? && in_second? && is_same)
}

/// `World::open` and `World::run`: refused, they go on to what is left where nothing is refused.
pub fn worlds_run(alloc: Global, refusals: &mut Refusals) -> Result<bool, Unready> {
    let events = events(alloc, SCHEDULE)?;
    let Some(first) = open_world(alloc, refusals)? else {
        return Ok(false);
    };
    match open_world(alloc, refusals) {
        Ok(Some(second)) => {
            let held = happen_in_both(alloc, first, second, &events, refusals)?;
            Ok(events.len() == EVENTS && held)
        }
        Ok(None) => {
            end(first);
            Ok(false)
        }
        Err(fault) => {
            end(first);
            Err(fault)
        }
    }
}
