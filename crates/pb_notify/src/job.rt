//! Jobs of observers: where a run stands, the step that is next, and how many locks its reads have met.
use crate::need::Need;
use crate::place::{RunPlace, begin, keep_step, leave_turn, locked_at, take_answer, tells_old};
use pb_accepted::Accepted;
use pb_base::{Cell, Column, NoMemory, ObserverNo, Row};
use pb_conversations::AsksSteps;
use pb_steps::{Answer, Step, Work};
use pb_vm::Moved;
use std::alloc::Global;
use std::marker::Model;
use std::sync::Arc;

/// One run of an observer on a cell of its column (OSDI 2010, section 2.4), step after step: it
/// begins a transaction, reads the cell and then its acknowledgment. Where the cell was committed
/// after the acknowledged change, its machine runs on the record of the change, with a read for
/// each cell that it asks for. If that record gives what the cell held when it was acknowledged, a
/// read as of then comes before. What it leaves is declared and committed by a
/// [`Plan`](pb_txn::Plan), and the cell is swept if it committed. Where there is nothing newer, it
/// only sweeps the cell.
///
/// A read that meets a lock clears it, after its primary was settled where the lock waits for that, and reads again,
/// until [`MAX_LOCKED`](crate::MAX_LOCKED) reads of the job met one.
#[derive(Drop)]
pub struct ObserverJob {
    observer: ObserverNo,
    accepted: Arc<Accepted>,
    row: Row,
    column: Column,
    locked: u8,
    place: RunPlace,
    // The step at the place, kept so that it can be lent. At a plan's place there is none, since the plan lends its
    // own.
    next: Option<Step>,
}

impl Model for ObserverJob {
    ghost use Rattle.pb_notify.specs.Runs.{RunOf, IsJob};

    ghost Value = { RunOf };

    ghost view = { λ j. record { watch = record { observer = j.observer; judged = j.accepted.value; row = j.row; column = j.column }; locked = j.locked; place = j.place } };

    ghost invariant = { λ j. IsJob j.observer j.row j.column j.locked j.place j.next };
}

impl AsksSteps for ObserverJob {
    ghost use Rattle.pb_notify.specs.Conversations.{run_job};

    ghost job = { run_job };
}

impl ObserverJob {
    ghost use Rattle.std.specs.Prelude.{◌≡◌, ◌≢◌, None, Some, MatchOption, OnOk, OnErr};
    ghost use Rattle.pb_notify.specs.declared.need.Need.TheVariants.{Local, Call};
    ghost use Rattle.pb_notify.specs.Runs.{fresh, next_of, HasNext, need_of, IsSlotOf, answered, HearsLook, CanTake, Computes, GrowsNext};
    ghost use Rattle.pb_notify.specs.Conversations.{ComputesOn};

    /// The run of this observer, whose program this is, on the cell of this row and column. It takes no memory.
    pub fn new(
        observer: ObserverNo,
        accepted: Arc<Accepted>,
        row: Row,
        column: Column,
    ) -> ObserverJob
        ensures { result ≡ fresh (record {
          observer = observer;
          judged = accepted.value;
          row = row;
          column = column;
        }) }
    {
        ObserverJob {
            observer,
            accepted,
            row,
            column,
            locked: 0,
            place: RunPlace::Beginning,
            next: Some(Step::Begin(Work::Run(observer, row))),
        }
    }

    /// What it needs next.
    pub fn needs(&self) -> Need
        ensures { result ≡ need_of self.now }
    {
        match &self.place {
            RunPlace::Starting(..) | RunPlace::Computing(..) => Need::Local,
            RunPlace::Over(end) => Need::Over(*end),
            _ => Need::Call,
        }
    }

    /// The slot of its machine's next instruction, where that is next: 0 before the machine is started.
    pub fn slot(&self) -> Option<usize>
        ensures { IsSlotOf self.now result }
    {
        match &self.place {
            RunPlace::Starting(..) => Some(0),
            RunPlace::Computing(_, machine) => Some(machine.slot()),
            _ => None,
        }
    }

    /// The next step, where it needs an answer.
    pub fn next(&self) -> Option<&Step>
        ensures next { MatchOption result (next_of self.now ≡ None)
            (λ s. next_of self.now ≡ Some s.now) }
        ensures some { need_of self.now ≡ Call → HasNext self.now }
    {
        match &self.place {
            RunPlace::Planning(_, plan) => plan.next(),
            _ => self.next.as_ref(),
        }
    }

    /// Takes the answer of the next step, which is one that such a step can have. It takes no
    /// memory. Where a read meets a lock, it goes on by clearing it, and settling its primary where
    /// that waits. It runs only where the version that it found is newer than its acknowledgment.
    /// It ends at the 64th lock. It sweeps where it is clean or committed, and only there. What a
    /// look for the machine found is its reply, at every placement.
    pub fn took(&mut self, answer: Answer)
        requires { CanTake self.old answer }
        ensures answered { self.new ≡ answered self.old answer }
        ensures told { HearsLook self.old answer self.new }
    {
        // Counted before the answer is taken, since that changes the place.
        let locked = locked_at(self.locked, &self.place, &answer);
        let second = tells_old(&self.accepted);
        if take_answer(second, self.locked, &mut self.place, answer) {
            // Step and count stay, since a plan lends its own step and reads nothing.
            return;
        }
        keep_step(
            &mut self.next,
            self.observer,
            self.row,
            self.column,
            &self.place,
        );
        self.locked = locked;
    }

    /// Does one instruction of its machine, which it starts before the first. The exit also makes
    /// what it declares and its plan. Refused for memory, which these two alone can be, it is as
    /// before, and goes on when it is called again. It is one instruction at every placement, of
    /// the run on the record of what was seen and from its start. What is declared at the exit is
    /// what the program means by what it was given and by its replies.
    #[inline(always)]
    pub fn local(&mut self, alloc: Global) -> Result<(), NoMemory>
        requires { need_of self.old ≡ Local }
        ensures ok { OnOk result (Computes self.old self.new) }
        ensures same { OnErr result (self.new ≡ self.old) }
        ensures grows { OnErr result (GrowsNext self.old) }
    {
        // It is inlined, though `follow` calls it too, since it is little more than the call of the machine.
        match &mut self.place {
            RunPlace::Computing(_, machine) => match machine.local() {
                // It stands where it stood, and so does the job.
                Moved::Went => return Ok(()),
                moved => leave_turn(alloc, self.observer, &mut self.place, moved)?,
            },
            _ => {
                let cell = Cell::Data(self.row, self.column);
                begin(alloc, self.observer, &self.accepted, cell, &mut self.place)?;
            }
        }
        keep_step(
            &mut self.next,
            self.observer,
            self.row,
            self.column,
            &self.place,
        );
        Ok(())
    }

    /// Does all instructions of its machine up to the next ask, or up to the exit and that too, as so many calls of
    /// [`local`](ObserverJob::local) would. Refused for memory, it stands before its first instruction or before its
    /// exit, with all that it did, and goes on from there when it is called again.
    pub fn follow(&mut self, alloc: Global) -> Result<(), NoMemory>
        requires { need_of self.old ≡ Local }
        ensures on { ComputesOn self.old self.new }
        ensures ok { OnOk result (need_of self.new ≢ Local) }
        ensures err { OnErr result (GrowsNext self.new) }
    {
        // A machine that isn't started does its first instruction alone.
        if let RunPlace::Starting(..) = &self.place {
            self.local(alloc)?;
        }
        if let RunPlace::Computing(_, machine) = &mut self.place {
            let moved = machine.follow();
            leave_turn(alloc, self.observer, &mut self.place, moved)?;
            keep_step(
                &mut self.next,
                self.observer,
                self.row,
                self.column,
                &self.place,
            );
        }
        Ok(())
    }
}
