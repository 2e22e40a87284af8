//! A transaction takes its commit timestamp, once all that it declared is locked.
ghost use Rattle.std.specs.Prelude.{◌≡◌, IfOk};
ghost use Rattle.pb_steps.specs.Steps.{TableStep};
ghost use Rattle.pb_state.specs.Admitted.{Admits, TellsAdmission};

use crate::admitted::{Admitted, TransactionAt};
use crate::parts::Parts;
use pb_base::{Reason, Ts};
use pb_steps::{Answer, Phase, Step};
use pb_store::Tablet;

impl<T: Tablet> Parts<T> {
    pub(crate) fn admit_stamp(&self, seat: u32, start: Ts) -> Result<Admitted<'static>, Reason>
        ensures { TellsAdmission self.now seat (Step.Stamp start) result }
    {
        if self.clock == u64::MAX {
            return Err(Reason::OutOfTimestamps);
        }
        let (by, transaction) = self.own(seat, start)?;
        if !transaction.phase().is_declared() || !transaction.is_whole() {
            return Err(Reason::WrongPhase);
        }
        Ok(Admitted::Stamp(by))
    }

    // It answers no `Result`, since nothing in it grows.
    pub(crate) fn stamp(&mut self, seat: u32, by: TransactionAt) -> Answer
        requires { Admits self.old seat (Admitted.Stamp by) }
        ensures { TableStep self.old seat (Step.Stamp by.start) result self.new }
    {
        let commit = Ts(self.clock + 1);
        self.transactions
            .at_mut(by)
            .set_phase(Phase::Stamped(commit));
        self.clock = commit.0;
        Answer::At(commit)
    }
}
