//! Runs of observers, each followed to its end.
ghost use Rattle.std.specs.Prelude.{◌≡◌, ◌≢◌, ◌<◌, ℕ, length, IfOk, IfErr, OnOk, List};
ghost use Rattle.pb_base.specs.declared.cell.Cell.{Cell};
ghost use Rattle.pb_accepted.specs.Observers.{ObserverOf};
ghost use Rattle.pb_core.specs.Calls.{SeatOf};
ghost use Rattle.pb_notify.specs.Runs.{need_of};
ghost use Rattle.pb_notify.specs.declared.need.Need.TheVariants.{Local};
ghost use Rattle.pb_threads.specs.Gains.{Gains, IsWant};
ghost use Rattle.pb_notify.specs.Conversations.{ComputesOn};
ghost use Rattle.pb_passes.specs.Passes.{HasColumn, IsRun};
ghost use Rattle.pb_passes.specs.Begun.{IsRunBegun};
ghost use Rattle.pb_threads.specs.Runs.{IsComputed, HasRunTo};
ghost use Rattle.pb_threads.specs.Stops.{Stops};

use crate::desk::{Callee, Caller};
use crate::gate::Gate;
use crate::waits::{turns_after, yield_for};
use pb_accepted::Observer;
use pb_base::{Cell, NoMemory, ObserverNo, Refusal};
use pb_core::Seat;
use pb_notify::{Need, ObserverJob, jobs_converse};
use pb_passes::job_on;
use std::alloc::Global;
use std::sync::{Arc, Wait};

// The instructions of its machine up to the next ask or the exit, if it is at one. They need no lock, so that others
// call the table meanwhile. Refused for memory, it stands where one is next.
fn compute(alloc: Global, job: &mut ObserverJob) -> Result<(), NoMemory>
    ensures ok { OnOk result (IsComputed job.old job.new) }
    ensures on { ComputesOn job.old job.new }
{
    if job.needs() == Need::Local {
        job.follow(alloc)?;
    }
    Ok(())
}

// These instructions. Want of memory is the refusal of this seat alone, since the others go on.
fn compute_on(alloc: Global, job: &mut ObserverJob) -> Result<(), Refusal>
    ensures ok { OnOk result (IsComputed job.old job.new) }
    ensures on { ComputesOn job.old job.new }
    ensures want { IfErr result IsWant }
{
    Ok(compute(alloc, job)?)
}

// Follows a run to its end. It is lent, so that no refusal drops it here.
fn run_to_end<R: Wait, C: Callee, G: Gate>(
    caller: &Caller<R, C, G>,
    seat: &mut Seat,
    job: &mut ObserverJob,
) -> Result<(), Refusal>
    requires calls { need_of job.old ≢ Local }
    ensures ok { (observers : List ObserverOf) (n : ℕ) (x : Cell) (a : SeatOf)
        → HasRunTo observers n x a seat.old job.old
        → OnOk result (Gains (IsRun observers n x) a seat.new) }
    ensures err { (observers : List ObserverOf) (n : ℕ) (x : Cell) (a : SeatOf)
        → HasRunTo observers n x a seat.old job.old
        → IfErr result
        (λ r. Gains (Stops C.opening a.number (IsRunBegun observers n x) r) a seat.new) }
{
    // For the proof: what a job has asked is a beginning of a run's conversation, and at its end a whole one.
    jobs_converse();
    // As many steps as the job asks: it has an end of its own, since it gives up at its last lock.
    for _turn in caller.rt.forever() {
        let Some(step) = job.next() else {
            yield_for(turns_after(job));
            return Ok(());
        };
        let answer = caller.ask(seat, step)?;
        job.took(answer);
        compute_on(caller.alloc, job)?;
    }
    unreachable!()
}

/// Runs an observer on a cell of its column, from its first step to its end.
#[tactic(auto, using(crate::proofs::RunAlong::first_calls))]
pub(crate) fn run_one<R: Wait, C: Callee, G: Gate>(
    caller: &Caller<R, C, G>,
    seat: &mut Seat,
    observers: &[Observer],
    number: ObserverNo,
    cell: Cell,
) -> Result<(), Refusal>
    requires known { HasColumn observers.now number cell }
    ensures ok { OnOk result (Gains (IsRun observers.now number cell) seat.old seat.new) }
    ensures err { IfErr result
        (λ r. Gains (Stops C.opening seat.old.number (IsRunBegun observers.now number cell) r)
        seat.old seat.new) }
{
    // For the proof: a run that asked nothing yet is a beginning of a run's conversation.
    jobs_converse();
    let mut job = job_on(observers, number, cell)?;
    run_to_end(caller, seat, &mut job)
}
