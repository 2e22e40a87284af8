//! A transaction declares what it writes.
ghost use Rattle.std.specs.Prelude.{◌≡◌, IfOk, OnErr};
ghost use Rattle.pb_steps.specs.Steps.{TableStep};
ghost use Rattle.pb_state.specs.Admitted.{Admits, TellsAdmission};

use crate::admitted::{Admitted, TransactionAt};
use crate::cells::Cells;
use crate::observed::acknowledgment_if_its;
use crate::parts::Parts;
use pb_base::{Cell, NoMemory, Reason, Ts};
use pb_steps::{Answer, Declaration, Step};
use pb_store::Tablet;

impl<T: Tablet> Parts<T> {
    pub(crate) fn admit_declare<'s>(
        &self,
        seat: u32,
        start: Ts,
        what: &'s Declaration,
    ) -> Result<Admitted<'s>, Reason>
        ensures { TellsAdmission self.now seat (Step.Declare start what.now) result }
    {
        let (by, transaction) = self.own(seat, start)?;
        if !transaction.phase().is_reading() {
            return Err(Reason::WrongPhase);
        }
        let acknowledgment = acknowledgment_if_its(
            &self.observers,
            transaction.work(),
            start,
            transaction.reads(),
            what.get(),
        )?;
        Ok(Admitted::Declare {
            by,
            what,
            acknowledgment,
        })
    }

    pub(crate) fn declare(
        &mut self,
        seat: u32,
        by: TransactionAt,
        what: &Declaration,
        acknowledgment: Option<Cell>,
    ) -> Result<Answer, NoMemory>
        requires { Admits self.old seat (Admitted.Declare by what acknowledgment) }
        ensures taken { IfOk result (λ a. TableStep self.old seat
            (Step.Declare by.start what.now) a self.new) }
        ensures same { OnErr result (self.new ≡ self.old) }
    {
        // For the proof: what is declared has its meaning, and a batch a first cell.
        let _ = what.get();
        // Only one more owner of the declaration takes memory.
        let what = what.share()?;
        let cells = match acknowledgment {
            None => Cells::Batch(what),
            Some(acknowledgment) => Cells::Run {
                acknowledgment,
                stamp: by.start,
                what,
            },
        };
        self.transactions.at_mut(by).declare(cells);
        Ok(Answer::Done)
    }
}
