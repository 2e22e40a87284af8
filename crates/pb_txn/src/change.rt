//! Changes of a script: a begin, and then a plan, since only the begin's answer gives the start
//! that a plan names.
use crate::place::Outcome;
use crate::plan::Plan;
use pb_base::{Batch, NoMemory};
use pb_conversations::AsksSteps;
use pb_steps::{Answer, Declaration, Declared, Step, Work};
use std::alloc::Global;
use std::marker::Model;

/// A change of a script: it begins a transaction and then follows its plan.
#[derive(Drop)]
pub struct ChangeJob {
    begin: Step,
    // There until the begin is answered, since the plan takes it then.
    what: Option<Declaration>,
    plan: Option<Plan>,
}

impl Model for ChangeJob {
    ghost use Rattle.std.specs.Prelude.{◌≡◌};
    ghost use Rattle.pb_steps.specs.declared.step.Step.TheVariants as steps;
    ghost use Rattle.pb_steps.specs.declared.step.Work.TheVariants as works;
    ghost use Rattle.pb_txn.specs.Changes.{ChangeOf, batch_by, IsChange};

    ghost Value = { ChangeOf };

    ghost view = { λ j. record { batch = batch_by j.what j.plan; plan = j.plan } };

    ghost invariant = { λ j. (j.begin ≡ steps.Begin works.Script) × IsChange j.what j.plan };
}

impl AsksSteps for ChangeJob {
    ghost use Rattle.pb_txn.specs.Changes.{change_job};

    ghost job = { change_job };
}

impl ChangeJob {
    ghost use Rattle.std.specs.Prelude.{◌≡◌, None, Some, MatchOption, IfOk, IfErr};
    ghost use Rattle.pb_txn.specs.Plans.{CanTake};
    ghost use Rattle.pb_txn.specs.Changes.{new_change, next_of, answered, outcome_of};

    /// The change of this batch. All its growths are here: refused for memory, it hands the batch back.
    pub fn new(alloc: Global, batch: Batch) -> Result<ChangeJob, (Batch, NoMemory)>
        ensures ok { IfOk result (λ j. j ≡ new_change batch) }
        ensures handed_back { IfErr result (λ e. e.0 ≡ batch) }
    {
        match Declaration::new(alloc, Declared::Script(batch)) {
            Ok(what) => Ok(ChangeJob {
                begin: Step::Begin(Work::Script),
                what: Some(what),
                plan: None,
            }),
            // What was to be declared comes back, so that the batch is handed back without a copy.
            Err(failed) => {
                let (what, refused) = NoMemory::with_value(failed);
                match what {
                    Declared::Script(batch) => Err((batch, refused)),
                    Declared::Run(_, _) => unreachable!(),
                }
            }
        }
    }

    /// The next step, if it isn't over.
    pub fn next(&self) -> Option<&Step>
        ensures { MatchOption result (next_of self.now ≡ None)
            (λ s. next_of self.now ≡ Some s.now) }
    {
        match &self.plan {
            None => Some(&self.begin),
            Some(plan) => plan.next(),
        }
    }

    /// Takes the answer of the next step, which is one that such a step can have.
    pub fn took(&mut self, answer: Answer)
        requires { CanTake (next_of self.old) answer }
        ensures { self.new ≡ answered self.old answer }
    {
        if let Some(plan) = &mut self.plan {
            plan.took(answer);
            return;
        }
        // A begin has no other answer.
        let Answer::At(start) = answer else {
            unreachable!()
        };
        let Some(what) = self.what.take() else {
            unreachable!()
        };
        self.plan = Some(Plan::new(start, what));
    }

    /// How the transaction ended, if it is over.
    pub fn outcome(&self) -> Option<Outcome>
        ensures { result ≡ outcome_of self.now }
    {
        match &self.plan {
            None => None,
            Some(plan) => plan.outcome(),
        }
    }
}
