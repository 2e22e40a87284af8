//! Changes of a script, and runs of an observer.
ghost use Rattle.std.specs.Prelude.{◌≡◌};
ghost use Rattle.pb_notify.specs.declared.need.Need.TheVariants.{Local};
ghost use Rattle.pb_notify.specs.Runs.{need_of};

use pb_accepted::Accepted;
use pb_base::{Batch, Cell, ObserverNo, Row, Ts};
use pb_helpers::HelperTable;
use pb_history::KeptEntry;
use pb_notify::{JobEnd, Need, ObserverJob};
use pb_registry::accept;
use pb_steps::{Step, Work};
use pb_txn::{ChangeJob, Outcome};
use std::alloc::Global;
use std::sync::Arc;
use test_fixtures::Unready;
use test_growths::observers::{declares_run, observer_number, open_twins};
use test_growths::refusals::Refusals;
use test_growths::steps::{batch, column, column_of, declares, three_cells};
use test_growths::twins::{Twins, call_all, call_both, close, open_twice};

// It asks for cell 7 1 with its fifth instruction, deletes cell 5 15 with its eighth, and exits.
const ASK_AND_DELETE: &[u8] =
    b"\xb7\x01\0\0\x07\0\0\0\xb7\x02\0\0\x01\0\0\0\xbf\xa3\0\0\0\0\0\0\x07\x03\0\0\xe0\xff\xff\xff\x85\0\0\0\x01\0\0\0\xb7\x01\0\0\x05\0\0\0\xb7\x02\0\0\x0f\0\0\0\x85\0\0\0\x03\0\0\0\x95\0\0\0\0\0\0\0";

// Whether the entries are of these steps, and no others.
fn are_entries(journal: &[KeptEntry], steps: &[Step]) -> bool {
    if journal.len() != steps.len() {
        return false;
    }
    for (entry, step) in journal.iter().zip(steps) {
        let Ok(call) = entry.call().get() else {
            return false;
        };
        if !call.step.is_same(step) {
            return false;
        }
    }
    true
}

// A job of the batch, also where it is refused once and hands the same batch back.
fn job_of(alloc: Global, batch: Batch, same: &Batch, refusals: &mut Refusals) -> Option<ChangeJob> {
    match ChangeJob::new(alloc, batch) {
        Ok(job) => Some(job),
        Err((batch, _)) => {
            refusals.note("ChangeJob::new");
            if !batch.is_same(same) {
                return None;
            }
            ChangeJob::new(alloc, batch).ok()
        }
    }
}

// Follows a change to its end, and returns whether each of its steps is answered.
fn changes(twins: &mut Twins, job: &mut ChangeJob, refusals: &mut Refusals) -> bool {
    for _ in 0..16u32 {
        let Some(step) = job.next() else {
            return true;
        };
        match call_both(twins, step, refusals) {
            Some(answer) => job.took(answer),
            None => return false,
        }
    }
    false
}

// Whether the job of a batch commits it at 2.
fn commits(
    alloc: Global,
    twins: &mut Twins,
    batch: Batch,
    same: &Batch,
    refusals: &mut Refusals,
) -> bool {
    match job_of(alloc, batch, same, refusals) {
        Some(job) => {
            let mut job = job;
            changes(twins, &mut job, refusals) && job.outcome() == Some(Outcome::Committed(Ts(2)))
        }
        None => false,
    }
}

// Whether the journal has the nine entries of a change, which begins with this declaration.
fn is_made(journal: &[KeptEntry], declaration: Step) -> bool {
    journal.len() == 9 && are_entries(&journal[..2], &[Step::Begin(Work::Script), declaration])
}

/// `ChangeJob::new`, and all that the job asks.
pub fn changes_are_made(alloc: Global, refusals: &mut Refusals) -> Result<bool, Unready> {
    let batch = three_cells(alloc)?;
    let same = batch.copy()?;
    let declaration = declares(alloc, Ts(1), batch.copy()?)?;
    let mut twins = open_twice(alloc, Vec::new(alloc), Vec::new(alloc))?;
    let held = commits(alloc, &mut twins, batch, &same, refusals);
    let is_made = is_made(twins.shared.journal(), declaration);
    close(twins);
    Ok(held && is_made)
}

// Whether a job's next step is answered.
fn answers(twins: &mut Twins, job: &mut ObserverJob, refusals: &mut Refusals) -> bool {
    let Some(step) = job.next() else {
        return false;
    };
    match call_both(twins, step, refusals) {
        Some(answer) => {
            job.took(answer);
            true
        }
        None => false,
    }
}

// How a machine's instructions are done.
#[derive(Clone, Copy)]
enum Pace {
    /// One by a call.
    Steps,
    /// All up to the next ask or the exit by a call.
    Leaps,
}

// Whether a job does an instruction, or is refused with nothing changed and then does it.
fn computes(alloc: Global, job: &mut ObserverJob, refusals: &mut Refusals) -> bool
    requires { need_of job.old ≡ Local }
{
    if job.local(alloc).is_ok() {
        return true;
    }
    refusals.note("ObserverJob::local");
    let is_same = job.needs() == Need::Local && job.next().is_none();
    is_same && job.local(alloc).is_ok()
}

// Whether a job does all instructions up to the next ask or the exit, or is refused before one and then does the others.
fn follows(alloc: Global, job: &mut ObserverJob, refusals: &mut Refusals) -> bool
    requires { need_of job.old ≡ Local }
{
    if job.follow(alloc).is_ok() {
        return true;
    }
    refusals.note("ObserverJob::follow");
    let goes_on = job.needs() == Need::Local && job.next().is_none();
    goes_on && job.follow(alloc).is_ok()
}

// Follows a job to its end, with each instruction done once, and returns after how many calls for
// instructions it came there.
fn follow_to_end(
    alloc: Global,
    twins: &mut Twins,
    job: &mut ObserverJob,
    pace: Pace,
    refusals: &mut Refusals,
) -> Option<u32> {
    let mut taken = 0u32;
    for _ in 0..64u32 {
        let held = match job.needs() {
            Need::Local => {
                taken = taken.saturating_add(1);
                match pace {
                    Pace::Steps => computes(alloc, job, refusals),
                    Pace::Leaps => follows(alloc, job, refusals),
                }
            }
            Need::Call => answers(twins, job, refusals),
            Need::Over(_) => true,
        };
        if !held {
            return None;
        }
    }
    Some(taken)
}

/// A program that asks for a cell of its row, and deletes one.
pub fn program(alloc: Global) -> Result<Arc<Accepted>, Unready> {
    let program = accept(alloc, ASK_AND_DELETE, HelperTable::all())?;
    Ok(Arc::new(alloc, program)?)
}

// The steps of a change of cell 7 0, and of the run on it: what that declares is made by a machine beside.
fn steps_of(
    alloc: Global,
    watch: ObserverNo,
    program: &Arc<Accepted>,
    cell: Cell,
    refusals: &mut Refusals,
) -> Result<Vec<Step>, Unready> {
    let ack = Cell::Ack(watch, Row(7), column()?);
    let asked = Cell::Data(Row(7), column_of(1)?);
    let deleted = Cell::Data(Row(5), column_of(15)?);
    let change = declares(alloc, Ts(1), batch(alloc)?)?;
    let run = declares_run(alloc, watch, program, &cell, refusals)?;
    Ok(vec![in alloc;
        Step::Begin(Work::Script),
        change,
        Step::Prewrite(Ts(1), cell),
        Step::Stamp(Ts(1)),
        Step::CommitPrimary(Ts(1)),
        Step::Begin(Work::Run(watch, Row(7))),
        Step::Read(Ts(3), cell),
        Step::Read(Ts(3), ack),
        Step::Read(Ts(3), asked),
        run,
        Step::Prewrite(Ts(3), ack),
        Step::Prewrite(Ts(3), deleted),
        Step::Stamp(Ts(3)),
        Step::CommitPrimary(Ts(3)),
        Step::CommitSecondary(Ts(3), deleted),
        Step::Sweep(cell),
    ]?)
}

// Whether a job comes to its end at this pace after so many calls, and asks those of the steps that come after the change.
fn asks_the_rest(
    alloc: Global,
    twins: &mut Twins,
    job: &mut ObserverJob,
    steps: &[Step],
    pace: Pace,
    count: u32,
    refusals: &mut Refusals,
) -> bool {
    steps.len() > 5
        && call_all(twins, &steps[..5], refusals)
        && follow_to_end(alloc, twins, job, pace, refusals) == Some(count)
        && job.needs() == Need::Over(JobEnd::Ran(0))
        && are_entries(twins.shared.journal(), steps)
}

// Whether a job comes to its end at this pace after so many calls, and asks all that it is to.
fn observer_runs(
    alloc: Global,
    pace: Pace,
    count: u32,
    refusals: &mut Refusals,
) -> Result<bool, Unready> {
    let (watch, column) = (observer_number()?, column()?);
    let program = program(alloc)?;
    let steps = steps_of(alloc, watch, &program, Cell::Data(Row(7), column), refusals)?;
    let mut twins = open_twins(alloc, &program)?;
    let mut job = ObserverJob::new(watch, program, Row(7), column);
    let held = asks_the_rest(alloc, &mut twins, &mut job, &steps, pace, count, refusals);
    close(twins);
    Ok(held)
}

/// `ObserverJob::local` and `ObserverJob::follow`, from the start of the machine to the declaration at its exit, by nine calls and
/// by two, and all that the job asks.
pub fn observers_run(alloc: Global, refusals: &mut Refusals) -> Result<bool, Unready> {
    Ok(
        observer_runs(alloc, Pace::Steps, 9, refusals)?
            && observer_runs(alloc, Pace::Leaps, 2, refusals)?,
    )
}
