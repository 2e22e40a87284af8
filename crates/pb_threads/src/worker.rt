//! Workers: what one does with its seat, from its first change to its last pass.
ghost use Rattle.std.specs.Prelude.{◌≡◌, ◌<◌, ◌≤◌, ℕ, [], List, length, IfOk, IfErr, OnOk};
ghost use Rattle.pb_base.specs.declared.limits.TheConstants.{MAX_SEATS, MAX_OBSERVERS};
ghost use Rattle.pb_threads.specs.Gains.{Gains};
ghost use Rattle.pb_threads.specs.Stops.{Stops};
ghost use Rattle.pb_threads.specs.Swaps.{Spare, AreSwapped};
ghost use Rattle.pb_threads.specs.Work.{share_of, IsWorkDone, IsWorkBegun, Works, Drains};

use crate::desk::{Callee, Caller};
use crate::gate::Gate;
use crate::passes::drain;
use crate::tries::change_all;
use pb_accepted::Observer;
use pb_base::{Batch, Refusal};
use pb_core::Seat;
use std::sync::Wait;

/// A worker with its seat: why it stopped, and of each of its changes whether it committed.
#[derive(Drop)]
pub(crate) struct Worker {
    pub(crate) seat: Seat,
    pub(crate) refusal: Option<Refusal>,
    pub(crate) done: Vec<bool>,
}

// Its changes, and then passes.
fn work_on<R: Wait, C: Callee, G: Gate>(
    caller: &Caller<R, C, G>,
    seat: &mut Seat,
    observers: &[Observer],
    batches: &[Batch],
    count: usize,
    first: usize,
    done: &mut Vec<bool>,
) -> Result<(), Refusal>
    requires some { 0 < count }
    requires few { count ≤ MAX_SEATS }
    requires numbered { length observers.now ≤ MAX_OBSERVERS }
    requires none { done.old.items ≡ [] }
    ensures ok { OnOk result
        (Gains (IsWorkDone observers.now (share_of batches.now count first) done.new.items)
        seat.old seat.new) }
    ensures err { IfErr result (λ r. Gains
        (Stops C.opening seat.old.number (IsWorkBegun observers.now
        (share_of batches.now count first) done.new.items) r)
        seat.old seat.new) }
{
    change_all(caller, seat, batches, count, first, done)?;
    drain(caller, seat, observers)?;
    Ok(())
}

/// All that one of so many workers does, its first change at this number.
pub(crate) fn work<R: Wait, C: Callee, G: Gate>(
    caller: &Caller<R, C, G>,
    worker: &mut Worker,
    observers: &[Observer],
    batches: &[Batch],
    count: usize,
    first: usize,
)
    requires some { 0 < count }
    requires few { count ≤ MAX_SEATS }
    requires numbered { length observers.now ≤ MAX_OBSERVERS }
    ensures { Works C.opening observers.now batches.now count first worker.old worker.new }
{
    worker.done.clear();
    let ended = work_on(
        caller,
        &mut worker.seat,
        observers,
        batches,
        count,
        first,
        &mut worker.done,
    );
    worker.refusal = ended.err();
}

/// The last passes, of the main seat. Where swaps were refused, the first such refusal is that of the seat too.
pub(crate) fn drain_last<R: Wait, C: Callee, G: Gate>(
    caller: &Caller<R, C, G>,
    main: &mut Worker,
    swapped: Option<Refusal>,
    observers: &[Observer],
)
    requires numbered { length observers.now ≤ MAX_OBSERVERS }
    ensures { (places : ℕ) (spares : List Spare) → AreSwapped places spares swapped
        → Drains C.opening places spares observers.now main.old main.new }
{
    let ended = drain(caller, &mut main.seat, observers);
    // The swaps come first, since they were made before these passes.
    main.refusal = swapped.or(ended.err());
}
