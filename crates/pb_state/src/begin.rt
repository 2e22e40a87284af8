//! A transaction begins, with a fresh timestamp as its start.
ghost use Rattle.std.specs.Prelude.{◌≡◌, IfOk, OnErr, None};
ghost use Rattle.pb_history.specs.Sound.{IsSoundTable};
ghost use Rattle.pb_steps.specs.Begin.{is_unknown};
ghost use Rattle.pb_steps.specs.Steps.{step_reason, TableStep};
ghost use Rattle.pb_state.specs.Admitted.{TellsAdmission};

use crate::admitted::Admitted;
use crate::parts::Parts;
use crate::transaction::Transaction;
use pb_accepted::Observer;
use pb_base::{NoMemory, Reason, Ts};
use pb_steps::{Answer, Step, Work};
use pb_store::Tablet;

// Whether a run is of an observer that there isn't.
fn is_unknown(observers: &[Observer], work: Work) -> bool
    ensures { result ≡ is_unknown observers.now work }
{
    match work {
        Work::Script => false,
        Work::Run(observer, _) => observer.number() as usize >= observers.len(),
    }
}

impl<T: Tablet> Parts<T> {
    pub(crate) fn admit_begin(&self, seat: u32, work: &Work) -> Result<Admitted<'static>, Reason>
        ensures { TellsAdmission self.now seat (Step.Begin work.now) result }
    {
        // By rising numbers, since the lowest that applies is returned.
        if self.clock == u64::MAX {
            return Err(Reason::OutOfTimestamps);
        }
        self.admit_seat(seat)?;
        if is_unknown(&self.observers, *work) {
            return Err(Reason::NoSuchObserver);
        }
        Ok(Admitted::Begin(*work))
    }

    pub(crate) fn begin(&mut self, seat: u32, work: Work) -> Result<Answer, NoMemory>
        requires sound { IsSoundTable self.old }
        requires allowed { step_reason self.old seat (Step.Begin work) ≡ None }
        ensures taken { IfOk result (λ a. TableStep self.old seat (Step.Begin work) a self.new) }
        ensures same { OnErr result (self.new ≡ self.old) }
    {
        let start = self.clock + 1;
        let transaction = Transaction::new(self.alloc, seat, work);
        self.transactions.add(Ts(start), transaction)?;
        // The clock goes on only now, since the list may have been refused memory.
        self.clock = start;
        Ok(Answer::At(Ts(start)))
    }
}
