//! Changes, each tried until it commits.
ghost use Rattle.std.specs.Prelude.{◌≡◌, ◌||◌, ◌<◌, ◌≤◌, ◌≢◌, ◌++◌, ◌∷◌, [], false, length, vec_len, vec_capacity, IfOk, IfErr, OnOk};
ghost use Rattle.pb_base.specs.Batch.{Writes};
ghost use Rattle.pb_base.specs.declared.limits.TheConstants.{MAX_SEATS};
ghost use Rattle.pb_core.specs.Calls.{SeatOf};
ghost use Rattle.pb_txn.specs.Changes.{new_change, outcome_of};
ghost use Rattle.pb_threads.specs.Gains.{Gains, IsWant};
ghost use Rattle.pb_threads.specs.Tries.{HasTriedTo, IsTry, AreTries, AreAllTried, committed_in, is_commit};
ghost use Rattle.pb_threads.specs.Stops.{Stops, IsTryBegun, AreTriesBegun, AreChangesBegun};

use crate::desk::{Callee, Caller};
use crate::gate::Gate;
use crate::waits::{turns_of, yield_for};
use pb_base::{Batch, NoMemory, Refusal};
use pb_core::Seat;
use pb_steps::Answer;
use pb_txn::{ChangeJob, Outcome, changes_converse, plans_converse};
use std::alloc::Global;
use std::sync::Wait;

/// How often a change is tried at most, so that a worker ends whatever others commit before it.
pub const MAX_TRIES: u32 = 100;

/// The limit of tries has this value.
pub fn tries_limit_is_this()
    ensures { MAX_TRIES ≡ 100 }
{}

/// Why a change was left, and whether a try of it had committed by then, since one that is cut off
/// after its commit has.
#[derive(Drop)]
pub(crate) struct Cut {
    refusal: Refusal,
    committed: bool,
}

// A change of a copy of this batch, before its first step: a copy, since another try may follow.
fn job_of(alloc: Global, batch: &Batch) -> Result<ChangeJob, NoMemory>
    ensures { IfOk result (λ j. j ≡ new_change batch.now) }
{
    let copy = batch.copy()?;
    match ChangeJob::new(alloc, copy) {
        Ok(job) => Ok(job),
        Err((_, refused)) => Err(refused),
    }
}

// Whether an answer says that the transaction is committed.
fn is_commit(answer: &Answer) -> bool
    ensures { result ≡ is_commit answer.now }
{
    matches!(answer, Answer::Committed)
}

// What is committed stays so, whatever the later answers are.
fn or_commits(committed: bool, answer: &Answer) -> bool
    ensures { result ≡ (committed || is_commit answer.now) }
{
    committed || is_commit(answer)
}

// Whether it is over, and committed.
fn has_committed(job: &ChangeJob) -> bool
    ensures { result ≡ committed_in (outcome_of job.now) }
{
    matches!(job.outcome(), Some(Outcome::Committed(_)))
}

// Follows a change to its end, and returns whether it committed. It is lent, so that no refusal drops it here.
fn try_to_end<R: Wait, C: Callee, G: Gate>(
    caller: &Caller<R, C, G>,
    seat: &mut Seat,
    job: &mut ChangeJob,
) -> Result<bool, Cut>
    ensures ok { (batch : Writes) (a : SeatOf) → batch ≢ []
        → HasTriedTo batch a seat.old job.old false
        → IfOk result (λ committed. Gains (IsTry batch committed) a seat.new) }
    ensures err { (batch : Writes) (a : SeatOf) → batch ≢ []
        → HasTriedTo batch a seat.old job.old false
        → IfErr result
        (λ cut. Gains (Stops C.opening a.number (IsTryBegun batch cut.committed) cut.refusal)
        a seat.new) }
{
    // For the proof: what a change has asked is a beginning of its conversation, and at its end a whole one.
    plans_converse();
    changes_converse();
    let mut committed = false;
    for _turn in caller.rt.forever() {
        let Some(step) = job.next() else {
            return Ok(has_committed(job));
        };
        match caller.ask(seat, step) {
            Ok(answer) => {
                // Noted at once, since a step after the commit may be refused.
                committed = or_commits(committed, &answer);
                job.took(answer);
            }
            Err(refusal) => return Err(Cut { refusal, committed }),
        }
    }
    unreachable!()
}

// One try of a change, and whether it committed. It may be left with its transaction committed, and some of its cells
// still locked.
fn try_once<R: Wait, C: Callee, G: Gate>(
    caller: &Caller<R, C, G>,
    seat: &mut Seat,
    batch: &Batch,
) -> Result<bool, Cut>
    ensures ok { IfOk result (λ committed. Gains (IsTry batch.now committed) seat.old seat.new) }
    ensures err { IfErr result
        (λ cut. Gains
        (Stops C.opening seat.old.number (IsTryBegun batch.now cut.committed) cut.refusal)
        seat.old seat.new) }
{
    // For the proof: a batch has some cells, and a change that asked nothing yet is a beginning of its conversation.
    batch.known();
    changes_converse();
    match job_of(caller.alloc, batch) {
        Ok(mut job) => try_to_end(caller, seat, &mut job),
        Err(refused) => {
            let refusal = Refusal::from(refused);
            Err(Cut {
                refusal,
                committed: false,
            })
        }
    }
}

// Tries a change until it commits, or so often as may be, and returns whether it committed.
fn try_all<R: Wait, C: Callee, G: Gate>(
    caller: &Caller<R, C, G>,
    seat: &mut Seat,
    batch: &Batch,
) -> Result<bool, Cut>
    ensures ok { IfOk result (λ committed. Gains (AreTries batch.now committed) seat.old seat.new) }
    ensures err { IfErr result
        (λ cut. Gains
        (Stops C.opening seat.old.number (AreTriesBegun batch.now cut.committed) cut.refusal)
        seat.old seat.new) }
{
    for count in 0..MAX_TRIES {
        let committed = try_once(caller, seat, batch)?;
        if committed {
            return Ok(true);
        }
        // So that those whose locks it met come to their ends.
        yield_for(turns_of(count + 1));
    }
    Ok(false)
}

// Room for one flag more, made before the change is tried, so that what became of it is never lost.
fn make_room(done: &mut Vec<bool>) -> Result<(), Refusal>
    ensures items { done.new.items ≡ done.old.items }
    ensures room { OnOk result (vec_len done.new < vec_capacity done.new) }
    ensures want { IfErr result IsWant }
{
    match done.reserve(1) {
        Ok(()) => Ok(()),
        Err(refused) => Err(Refusal::from(NoMemory::from(refused))),
    }
}

// Notes whether a change committed, where there is room for it.
fn note(done: &mut Vec<bool>, committed: bool)
    requires { vec_len done.old < vec_capacity done.old }
    ensures { done.new.items ≡ done.old.items ++ committed ∷ [] }
{
    done.push(committed).unwrap();
}

/// Tries the changes of one of so many workers, its first at this number and each later one so many further. It notes
/// of each whether it committed.
pub(crate) fn change_all<R: Wait, C: Callee, G: Gate>(
    caller: &Caller<R, C, G>,
    seat: &mut Seat,
    batches: &[Batch],
    count: usize,
    first: usize,
    done: &mut Vec<bool>,
) -> Result<(), Refusal>
    requires some { 0 < count }
    requires few { count ≤ MAX_SEATS }
    requires none { done.old.items ≡ [] }
    ensures ok { OnOk result
        (Gains (AreAllTried batches.now count first done.new.items) seat.old seat.new) }
    ensures err { IfErr result
        (λ r. Gains
        (Stops C.opening seat.old.number
        (AreChangesBegun batches.now count first done.new.items) r)
        seat.old seat.new) }
{
    // For the proof: what a change has asked is a beginning of its conversation.
    changes_converse();
    let mut next = first;
    while next < batches.len() {
        // For the proof: a batch has some cells.
        batches[next].known();
        make_room(done)?;
        match try_all(caller, seat, &batches[next]) {
            Ok(committed) => {
                note(done, committed);
                next += count;
            }
            Err(cut) => {
                note(done, cut.committed);
                return Err(cut.refusal);
            }
        }
    }
    Ok(())
}
