//! A run of workers, each in a thread of its own where one can be started.
ghost use Rattle.std.specs.Prelude.{◌≡◌, ◌<◌, ◌≤◌, ◌-◌, [], length, map, vec_len, vec_capacity, IfOk, IfErr};
ghost use Rattle.pb_base.specs.declared.limits.TheConstants.{MAX_SEATS, MAX_OBSERVERS};
ghost use Rattle.pb_core.specs.Calls.{AreSeats};
ghost use Rattle.pb_threads.specs.Gains.{opening_of};
ghost use Rattle.pb_threads.specs.Swaps.{spares_of};
ghost use Rattle.pb_threads.specs.Work.{Works, EachWorks, RestWork, AllWork, HasRooms, WorkedOn, AreFilled, KeepsOpening, seats_in, refusals_in, flags_in, is_done, undone_below};

use crate::desk::{Callee, Caller};
use crate::gate::Gate;
use crate::named::{Held, Opening, hold, into_shared};
use crate::spares::work_beside_swaps;
use crate::worker::{Worker, drain_last, work};
use pb_accepted::Observer;
use pb_base::{Batch, NoMemory, Refusal};
use pb_core::{Seat, Shared};
use pb_store::Tablet;
use std::alloc::Global;
use std::marker::Brand;
use std::sync::{Arc, Mutex, Wait};
use std::thread;
use std::thread::Threads;

/// What workers leave.
pub struct Worked<T: Tablet> {
    pub shared: Shared<T>,
    /// All seats, in order.
    pub seats: Vec<Seat>,
    /// The first refusal of each seat, in their order.
    pub refusals: Vec<Option<Refusal>>,
    /// The changes of which no try committed, by their numbers from 0, in order.
    pub unfinished: Vec<usize>,
}

/// What is handed back where memory was refused before the first call.
pub struct NotRun<T: Tablet> {
    pub shared: Shared<T>,
    pub seats: Vec<Seat>,
    pub batches: Vec<Batch>,
    pub spares: Vec<(usize, T)>,
    pub refused: NoMemory,
}

/// Room for all that workers leave, and their own list of the observers. It is made before the first call, so that a
/// refusal hands everything back as it was.
pub(crate) struct Rooms {
    observers: Vec<Observer>,
    workers: Vec<Worker>,
    seats: Vec<Seat>,
    refusals: Vec<Option<Refusal>>,
    unfinished: Vec<usize>,
}

// An observer, whose program isn't copied but shared.
fn copy_of(observer: &Observer) -> Result<Observer, NoMemory>
    ensures { IfOk result (λ o. o ≡ observer.now) }
{
    let name = observer.name.clone()?;
    let program = Arc::try_clone(&observer.program)?;
    Ok(Observer {
        name,
        column: observer.column,
        program,
    })
}

// The workers' own list of the observers, so that they look into it without the lock.
fn copies_of(alloc: Global, observers: &[Observer]) -> Result<Vec<Observer>, NoMemory>
    ensures { IfOk result (λ v. v.items ≡ observers.now) }
{
    let mut copies = Vec::new(alloc);
    for observer in observers {
        copies.push(copy_of(observer)?)?;
    }
    Ok(copies)
}

// All that a run of workers needs by itself.
fn make_rooms(
    alloc: Global,
    observers: &[Observer],
    seats: usize,
    changes: usize,
) -> Result<Rooms, NoMemory>
    ensures { IfOk result (HasRooms observers.now seats changes) }
{
    let observers = copies_of(alloc, observers)?;
    let workers = Vec::with_capacity(alloc, seats)?;
    let back = Vec::with_capacity(alloc, seats)?;
    let refusals = Vec::with_capacity(alloc, seats)?;
    let unfinished = Vec::with_capacity(alloc, changes)?;
    Ok(Rooms {
        observers,
        workers,
        seats: back,
        refusals,
        unfinished,
    })
}

// For the proof: each batch has some cells.
fn look_through(batches: &[Batch])
    ensures { AreFilled batches.now }
{
    for batch in batches {
        batch.known();
    }
}

// A worker for each seat, in their order. Room is there, so that no seat is lost on the way.
fn seat_all(alloc: Global, seats: Vec<Seat>, workers: &mut Vec<Worker>)
    requires none { workers.old.items ≡ [] }
    requires room { vec_len seats ≤ vec_capacity workers.old }
    ensures { seats_in workers.new.items ≡ seats.items }
{
    for seat in seats {
        let worker = Worker {
            seat,
            refusal: None,
            done: Vec::new(alloc),
        };
        workers.push(worker).unwrap();
    }
}

// The seats of the workers, with the refusal of each.
fn part(workers: Vec<Worker>, seats: &mut Vec<Seat>, refusals: &mut Vec<Option<Refusal>>)
    requires no_seats { seats.old.items ≡ [] }
    requires no_refusals { refusals.old.items ≡ [] }
    requires seats_room { vec_len workers ≤ vec_capacity seats.old }
    requires refusals_room { vec_len workers ≤ vec_capacity refusals.old }
    ensures seats { seats.new.items ≡ seats_in workers.items }
    ensures refusals { refusals.new.items ≡ refusals_in workers.items }
{
    for worker in workers {
        let Worker {
            seat,
            refusal,
            done: _,
        } = worker;
        seats.push(seat).unwrap();
        refusals.push(refusal).unwrap();
    }
}

// Whether a try of the change of this number committed. Its worker stands one place further, since the main seat is
// the first.
fn is_done(workers: &[Worker], number: usize) -> bool
    requires { 1 < length workers.now }
    ensures { result ≡ is_done (flags_in workers.now) (length workers.now - 1) number }
{
    let count = workers.len() - 1;
    let worker = &workers[number % count + 1];
    match worker.done.get(number / count) {
        Some(done) => *done,
        None => false,
    }
}

// The numbers of the changes of which no try committed, from the lowest.
fn note_unfinished(workers: &[Worker], changes: usize, unfinished: &mut Vec<usize>)
    requires some { 1 < length workers.now }
    requires none { unfinished.old.items ≡ [] }
    requires room { changes ≤ vec_capacity unfinished.old }
    ensures { unfinished.new.items ≡ undone_below
        (is_done (flags_in workers.now) (length workers.now - 1)) changes }
{
    for number in 0..changes {
        if !is_done(workers, number) {
            unfinished.push(number).unwrap();
        }
    }
}

// Each worker in a thread of its own, or on a thread that there is.
pub(crate) fn in_threads<R: Threads + Wait + Sync, C: Callee + Send, G: Gate>(
    caller: &Caller<R, C, G>,
    workers: &mut [Worker],
    observers: &[Observer],
    batches: &[Batch],
)
    requires few { length workers.old ≤ MAX_SEATS }
    requires numbered { length observers.now ≤ MAX_OBSERVERS }
    ensures { EachWorks C.opening observers.now batches.now workers.old workers.new }
{
    let count = workers.len();
    if count == 0 {
        return;
    }
    thread::for_each_mut(
        caller.rt,
        workers,
        count,
        &|place: usize, worker: &mut Worker|
            requires { (0 < count) × (count ≤ MAX_SEATS) × (length observers.now ≤ MAX_OBSERVERS) }
            ensures { Works C.opening observers.entry.now batches.entry.now
                count place worker.entry.now worker.exit.now }
        { work(caller, worker, observers, batches, count, place) },
    );
}

// The workers of all seats but the first.
pub(crate) fn work_rest<R: Threads + Wait + Sync, C: Callee + Send, G: Gate>(
    caller: &Caller<R, C, G>,
    workers: &mut [Worker],
    observers: &[Observer],
    batches: &[Batch],
)
    requires some { 1 < length workers.old }
    requires few { length workers.old ≤ MAX_SEATS }
    requires numbered { length observers.now ≤ MAX_OBSERVERS }
    ensures { RestWork C.opening observers.now batches.now workers.old workers.new }
{
    let (_, rest) = workers.split_at_mut(1);
    in_threads(caller, rest, observers, batches);
}

// The workers beside the swaps, and after them the last passes of the main seat, since a worker that was refused may
// leave marks.
fn run_all<R: Threads + Wait + Sync, T: Tablet + Send, J: Opening + Send + Sync, G: Gate>(
    caller: &Caller<R, Held<T, J>, G>,
    workers: Vec<Worker>,
    observers: &[Observer],
    batches: &[Batch],
    spares: Vec<(usize, T)>,
) -> Vec<Worker>
    requires some { 1 < length workers.items }
    requires few { length workers.items ≤ MAX_SEATS }
    requires numbered { length observers.now ≤ MAX_OBSERVERS }
    ensures { AllWork J.opening observers.now batches.now
        (spares_of T.contents spares.items) workers.items result.items }
{
    let (mut workers, swapped) = work_beside_swaps(caller, workers, observers, batches, spares);
    drain_last(caller, &mut workers[0], swapped, observers);
    workers
}

// A run of workers where a type says how the table was opened, so that it is known of the table that comes out.
fn run_held<R: Threads + Wait + Sync, T: Tablet + Send, J: Opening + Send + Sync, G: Gate>(
    rt: &R,
    alloc: Global,
    shared: Shared<T>,
    seats: Vec<Seat>,
    batches: Vec<Batch>,
    spares: Vec<(usize, T)>,
    gate: &G,
) -> Result<Worked<T>, NotRun<T>>
    requires seated { AreSeats shared seats.items }
    requires some { 1 < vec_len seats }
    requires opened { opening_of shared ≡ J.opening }
    ensures worked { IfOk result (λ w. WorkedOn (opening_of shared)
        shared.state.observers batches.items (spares_of T.contents spares.items)
        seats.items w.seats.items w.refusals.items w.unfinished.items) }
    ensures table { IfOk result (λ w. KeepsOpening shared w.shared) }
    ensures handed_back { IfErr result (λ n. n.shared ≡ shared) }
    ensures seats { IfErr result (λ n. n.seats ≡ seats) }
    ensures batches { IfErr result (λ n. n.batches ≡ batches) }
    ensures spares { IfErr result (λ n. n.spares ≡ spares) }
{
    prove!(shared.seats() <= 64);
    let rooms = match make_rooms(alloc, shared.observers(), seats.len(), batches.len()) {
        Ok(rooms) => rooms,
        Err(refused) => {
            return Err(NotRun {
                shared,
                seats,
                batches,
                spares,
                refused,
            });
        }
    };
    let Rooms {
        observers,
        mut workers,
        seats: mut back,
        mut refusals,
        mut unfinished,
    } = rooms;
    look_through(&batches);
    seat_all(alloc, seats, &mut workers);
    let desk: Mutex<Held<T, J>> = hold(shared);
    let caller = Caller {
        rt,
        alloc,
        shared: &desk,
        gate,
    };
    let workers = run_all(&caller, workers, &observers, &batches, spares);
    let shared = into_shared(desk);
    note_unfinished(&workers, batches.len(), &mut unfinished);
    part(workers, &mut back, &mut refusals);
    Ok(Worked {
        shared,
        seats: back,
        refusals,
        unfinished,
    })
}

/// Runs the changes by workers, each in a thread of its own where one can be started, and after them passes of the
/// first seat alone. Worker k has seat k; the change of number i, from 0, is tried by the worker of seat 1 + i mod n,
/// of n workers.
///
/// While they run, the caller's thread swaps the spares in, each at its place, in the order of their list, and ends
/// the emptied tablets that come back. A spare that [`Shared::swap`] refuses is ended too, and the other swaps and the
/// passes go on, which no clause states, and rows try. The first such refusal is that of the first seat, before any of
/// its passes. Swaps don't pass the gate.
///
/// Its own growths come first: refused there, it hands everything back and has made no call. What a
/// worker's seat gained is, in order, whole tries of its changes by number, each change until one
/// commits or 100 are made. Then come passes, each from `NextMark` to `NoMark` with a whole
/// conversation of every observer of a marked cell's column, in file order, up to a pass without a
/// mark or the 1,000th. The first seat gained such passes alone. Where a refusal of a seat is
/// named, its part may be a beginning of that. A change is named as unfinished exactly where no try
/// of it committed; a try that was cut off after its commit has committed. The table that comes out
/// has the observers, seats, opening clock, limit and number of tablets of the one that went in,
/// and a seat is refused only what a table opened so refuses.
pub fn run_workers<R: Threads + Wait + Sync, T: Tablet + Send, G: Gate>(
    rt: &R,
    alloc: Global,
    shared: Shared<T>,
    seats: Vec<Seat>,
    batches: Vec<Batch>,
    spares: Vec<(usize, T)>,
    gate: &G,
) -> Result<Worked<T>, NotRun<T>>
    requires seated { AreSeats shared seats.items }
    requires some { 1 < vec_len seats }
    ensures worked { IfOk result (λ w. WorkedOn (opening_of shared)
        shared.state.observers batches.items (spares_of T.contents spares.items)
        seats.items w.seats.items w.refusals.items w.unfinished.items) }
    ensures table { IfOk result (λ w. KeepsOpening shared w.shared) }
    ensures handed_back { IfErr result (λ n. n.shared ≡ shared) }
    ensures seats { IfErr result (λ n. n.seats ≡ seats) }
    ensures batches { IfErr result (λ n. n.batches ≡ batches) }
    ensures spares { IfErr result (λ n. n.spares ≡ spares) }
{
    run_held::<R, T, Brand, G>(rt, alloc, shared, seats, batches, spares, gate)
}
