//! Spare tablets, put in while workers run. The list stays with the calling thread, since a closure may hold only
//! what can be dropped, and a tablet can't.
ghost use Rattle.std.specs.Prelude.{◌≡◌, ◌<◌, ◌≤◌, Some, length};
ghost use Rattle.pb_base.specs.declared.limits.TheConstants.{MAX_SEATS, MAX_OBSERVERS};
ghost use Rattle.pb_threads.specs.Swaps.{IsSwapped, AreSwapped, spares_of};
ghost use Rattle.pb_threads.specs.Work.{RestWork};

use crate::desk::Caller;
use crate::gate::Gate;
use crate::named::{Held, Opening};
use crate::run::work_rest;
use crate::worker::Worker;
use pb_accepted::Observer;
use pb_base::{Batch, Refusal};
use pb_store::Tablet;
use std::sync::{Mutex, Wait};
use std::thread;
use std::thread::Threads;

// Swaps a spare in under the lock, and then ends the emptied tablet that comes back: why it was refused, if it was.
// The lock is given back before that; what was in the tablet is let go under it, since `Shared::swap` returns it emptied.
fn swap_in<R: Wait, T: Tablet, J: Opening>(
    rt: &R,
    shared: &Mutex<Held<T, J>>,
    place: usize,
    spare: T,
) -> Option<Refusal>
    ensures { IsSwapped J.opening.places (place, T.contents spare) result }
{
    let swapped = {
        let mut held = shared.lock(rt);
        held.swap(place, spare)
    };
    match swapped {
        Ok(old) => {
            old.end();
            None
        }
        Err((new, refusal)) => {
            new.end();
            Some(refusal)
        }
    }
}

// Swaps them all in, the first one first. The first refusal among them.
fn swap_all<R: Wait, T: Tablet, J: Opening>(
    rt: &R,
    shared: &Mutex<Held<T, J>>,
    spares: &mut Vec<(usize, T)>,
) -> Option<Refusal>
    ensures { AreSwapped J.opening.places (spares_of T.contents spares.old.items) result }
{
    let mut refusal = None;
    // Turned round, since the last of a list is the one that can be taken off.
    spares.reverse();
    while let Some((place, spare)) = spares.pop() {
        let refused = swap_in(rt, shared, place, spare);
        refusal = refusal.or(refused);
    }
    refusal
}

/// Ends tablets that are not swapped in, with all that is in them, and their list.
pub fn end_spares<T: Tablet>(spares: Vec<(usize, T)>) {
    let mut spares = spares;
    while let Some((_, mut spare)) = spares.pop() {
        // A tablet has to be empty to end.
        spare.clear();
        spare.end();
    }
    spares.destroy_empty();
}

/// The workers of all seats but the first in threads, and beside them the swaps of the spares, where there are any, in
/// this one.
pub(crate) fn work_beside_swaps<
    R: Threads + Wait + Sync,
    T: Tablet + Send,
    J: Opening + Send + Sync,
    G: Gate,
>(
    caller: &Caller<R, Held<T, J>, G>,
    workers: Vec<Worker>,
    observers: &[Observer],
    batches: &[Batch],
    spares: Vec<(usize, T)>,
) -> (Vec<Worker>, Option<Refusal>)
    requires some { 1 < length workers.items }
    requires few { length workers.items ≤ MAX_SEATS }
    requires numbered { length observers.now ≤ MAX_OBSERVERS }
    ensures workers { RestWork (Some J.opening) observers.now batches.now
        workers.items result.0.items }
    ensures swaps { AreSwapped J.opening.places (spares_of T.contents spares.items) result.1 }
{
    let mut spares = spares;
    // Without swaps there is no thread for them, since a worker that is alone in its process takes less time.
    if spares.is_empty() {
        let mut workers = workers;
        work_rest(caller, &mut workers, observers, batches);
        spares.destroy_empty();
        return (workers, None);
    }
    let waiting = &mut spares;
    // For the proof: `join` passes on no clause of a closure that captures the whole `Caller`.
    let (rt, alloc, shared, gate) = (caller.rt, caller.alloc, caller.shared, caller.gate);
    let worked = thread::join(
        rt,
        move || -> Vec<Worker>
            requires { (1 < length workers.items) × (length workers.items ≤ MAX_SEATS)
                × (length observers.now ≤ MAX_OBSERVERS) }
            ensures { RestWork (Some J.opening) observers.entry.now batches.entry.now
                workers.items result.items }
        {
            let mut workers = workers;
            let caller = Caller {
                rt,
                alloc,
                shared,
                gate,
            };
            work_rest(&caller, &mut workers, observers, batches);
            workers
        },
        move || -> Option<Refusal>
            ensures { AreSwapped J.opening.places
                (spares_of T.contents waiting.entry.now.items) result }
        { swap_all(rt, shared, waiting) },
    );
    // None is left, but the list has to be ended too.
    end_spares(spares);
    worked
}
