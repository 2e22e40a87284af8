//! The job of an actor: a change or a run of an observer, by what both have in common, so that events step them
//! alike.
use pb_base::NoMemory;
use pb_notify::{Need, ObserverJob};
use pb_steps::{Answer, Step};
use pb_txn::ChangeJob;
use std::alloc::Global;

/// What an actor follows: a change, or a run of an observer.
#[derive(Drop)]
pub enum ActorJob {
    Change(ChangeJob),
    Run(ObserverJob),
}

impl ActorJob {
    ghost use Rattle.std.specs.Prelude.{◌≡◌, None, Some, MatchOption, true, false, OnOk, OnErr};
    ghost use Rattle.pb_world.specs.Jobs.{next_of, is_over, is_local, IsSlotOf, CanTake, Takes, Computes, GrowsNext};

    /// The next step, if it asks one.
    pub fn next(&self) -> Option<&Step>
        ensures { MatchOption result (next_of self.now ≡ None)
            (λ s. next_of self.now ≡ Some s.now) }
    {
        match self {
            ActorJob::Change(job) => job.next(),
            ActorJob::Run(job) => job.next(),
        }
    }

    /// The slot of its machine's next instruction, where that is next: 0 before the machine is started.
    pub fn slot(&self) -> Option<usize>
        ensures { IsSlotOf self.now result }
    {
        match self {
            ActorJob::Change(_) => None,
            ActorJob::Run(job) => job.slot(),
        }
    }

    /// Takes the answer of the next step, which is one that such a step can have.
    pub(crate) fn took(&mut self, answer: Answer)
        requires { CanTake self.old answer }
        ensures { Takes self.old answer self.new }
    {
        match self {
            ActorJob::Change(job) => job.took(answer),
            ActorJob::Run(job) => job.took(answer),
        }
    }

    /// Whether its machine's next instruction is next.
    pub fn is_local(&self) -> bool
        ensures { result ≡ is_local self.now }
    {
        match self {
            ActorJob::Change(_) => false,
            ActorJob::Run(job) => matches!(job.needs(), Need::Local),
        }
    }

    /// Does one instruction of its machine. Refused for memory, which the first and the exit alone can be, it is as
    /// before.
    pub(crate) fn local(&mut self, alloc: Global) -> Result<(), NoMemory>
        requires { is_local self.old ≡ true }
        ensures ok { OnOk result (Computes self.old self.new) }
        ensures same { OnErr result (self.new ≡ self.old) }
        ensures grows { OnErr result (GrowsNext self.old) }
    {
        match self {
            ActorJob::Change(_) => Ok(()),
            ActorJob::Run(job) => job.local(alloc),
        }
    }

    /// Whether it has come to its end.
    pub fn is_over(&self) -> bool
        ensures { result ≡ is_over self.now }
    {
        match self {
            ActorJob::Change(job) => job.outcome().is_some(),
            ActorJob::Run(job) => matches!(job.needs(), Need::Over(_)),
        }
    }
}
