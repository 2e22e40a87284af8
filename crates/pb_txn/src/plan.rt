//! Plans. The next step is kept and lent, so that whoever makes it gets the declaration without a
//! copy.
ghost use Rattle.std.specs.Prelude.{◌≡◌, ◌<◌, length, slice_get, Some};
ghost use Rattle.pb_steps.specs.Declarations.{IsKnown};
ghost use Rattle.pb_txn.specs.Places.{declared_cells, later_step, LiesWithin};
ghost use Rattle.pb_txn.specs.Plans.{what_in, IsDeclaration};

use crate::place::{Outcome, PlanPlace, place_after};
use pb_base::{Cell, Ts};
use pb_conversations::AsksSteps;
use pb_steps::{Answer, Declaration, Declared, Step};
use std::marker::Model;

/// The steps of a transaction of this start, from its declaration to its end, one after another
/// (OSDI 2010, section 2.2). It declares, prewrites each cell in declared order, the primary first,
/// takes its commit timestamp, commits the primary and then the other cells. A conflict on the
/// primary ends it; after one on a later cell it settles its primary, and clears what else it
/// prewrote. Where its primary was lost, it clears its other cells.
///
/// It takes no memory.
#[derive(Drop)]
pub struct Plan {
    start: Ts,
    declare: Step,
    later: Option<Step>,
    place: PlanPlace,
}

impl Model for Plan {
    ghost use Rattle.pb_txn.specs.Plans.{PlanOf, what_in, IsPlan};

    ghost Value = { PlanOf };

    ghost view = { λ p. record { start = p.start.0; what = what_in p.declare; place = p.place } };

    ghost invariant = { λ p. IsPlan p.start.0 p.declare p.later p.place };
}

impl AsksSteps for Plan {
    ghost use Rattle.pb_txn.specs.Conversations.{plan_job};

    ghost job = { plan_job };
}

// How many cells are written: of a run one more than its writes, since it also writes its
// acknowledgment.
fn cell_count(what: &Declared) -> usize
    ensures { result ≡ length (declared_cells what.now) }
{
    match what {
        Declared::Script(batch) => batch.len(),
        Declared::Run(_, run) => run.get().writes().len() + 1,
    }
}

// The cell at a place, the primary at the first. A run's primary is its acknowledgment, so that of two runs for one
// change one meets the lock or the write record of the other there.
fn cell_at(what: &Declared, place: usize) -> Cell
    requires { place < length (declared_cells what.now) }
    ensures { slice_get (declared_cells what.now) place ≡ Some result }
{
    match what {
        Declared::Script(batch) => {
            let (cell, _) = batch.at(place);
            cell
        }
        Declared::Run(observer, ended) => {
            let finished = ended.get();
            if place == 0 {
                let record = finished.record();
                return Cell::Ack(*observer, record.row(), record.column());
            }
            finished.writes()[place - 1].0
        }
    }
}

// What a step declares. A plan keeps its declaration as the step that declares it, so that `next` can lend it.
fn declared_by(step: &Step) -> &Declared
    requires { IsDeclaration step.now }
    ensures { result.now ≡ what_in step.now }
{
    match step {
        Step::Declare(_, what) => what.get(),
        _ => unreachable!(),
    }
}

// The step at a place. For the declaration there is none, since a plan keeps that step from the start.
fn step_at(start: Ts, what: &Declared, place: PlanPlace) -> Option<Step>
    requires { LiesWithin (length (declared_cells what.now)) place }
    ensures { result ≡ later_step start.0 (declared_cells what.now) place }
{
    match place {
        PlanPlace::Declaring => None,
        PlanPlace::Prewriting(k) => Some(Step::Prewrite(start, cell_at(what, k))),
        PlanPlace::Stamping => Some(Step::Stamp(start)),
        PlanPlace::CommittingPrimary(_) => Some(Step::CommitPrimary(start)),
        PlanPlace::CommittingSecondary(_, k) => Some(Step::CommitSecondary(
            start,
            cell_at(what, k),
        )),
        // The primary goes first, since `Clear` of another cell waits as long as the primary's lock stands.
        PlanPlace::Settling(_) => Some(Step::Settle(cell_at(what, 0))),
        PlanPlace::Clearing(k, _, _) => Some(Step::Clear(cell_at(what, k))),
        PlanPlace::Over(_) => None,
    }
}

impl Plan {
    ghost use Rattle.std.specs.Prelude.{◌≡◌, None, Some, MatchOption};
    ghost use Rattle.pb_txn.specs.Plans.{fresh, next_of, answered, outcome_of, CanTake};

    /// The plan of the transaction of this start, which declares this.
    pub fn new(start: Ts, what: Declaration) -> Plan
        ensures { result ≡ fresh start.0 what }
    {
        Plan {
            start,
            declare: Step::Declare(start, what),
            later: None,
            place: PlanPlace::Declaring,
        }
    }

    /// The next step, if it isn't over.
    pub fn next(&self) -> Option<&Step>
        ensures { MatchOption result (next_of self.now ≡ None)
            (λ s. next_of self.now ≡ Some s.now) }
    {
        match self.place {
            PlanPlace::Declaring => Some(&self.declare),
            _ => self.later.as_ref(),
        }
    }

    /// Takes the answer of the next step, which is one that such a step can have.
    pub fn took(&mut self, answer: Answer)
        requires { CanTake (next_of self.old) answer }
        ensures { self.new ≡ answered self.old answer }
    {
        let what = declared_by(&self.declare);
        let place = place_after(cell_count(what), self.place, answer);
        let later = step_at(self.start, what, place);
        // Each later step is kept as it comes, so that `next` lends it.
        self.later = later;
        self.place = place;
    }

    /// How the transaction ended, if it is over.
    pub fn outcome(&self) -> Option<Outcome>
        ensures { result ≡ outcome_of self.now }
    {
        match self.place {
            PlanPlace::Over(outcome) => Some(outcome),
            _ => None,
        }
    }
}
