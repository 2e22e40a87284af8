//! The primary's lock is replaced by its write record: from then on the transaction is committed.
ghost use Rattle.std.specs.Prelude.{◌≡◌, IfOk, OnErr};
ghost use Rattle.pb_steps.specs.Steps.{TableStep};
ghost use Rattle.pb_state.specs.Admitted.{Admits, TellsAdmission};

use crate::admitted::{Admitted, TransactionAt};
use crate::commit::commit_cell;
use crate::parts::Parts;
use crate::readings::has_lock;
use pb_base::{Cell, NoMemory, Reason, Ts};
use pb_steps::{Answer, Phase, Step};
use pb_store::Tablet;

impl<T: Tablet> Parts<T> {
    pub(crate) fn admit_primary(&self, seat: u32, start: Ts) -> Result<Admitted<'static>, Reason>
        ensures { TellsAdmission self.now seat (Step.CommitPrimary start) result }
    {
        let (by, transaction) = self.own(seat, start)?;
        let Some((commit, primary)) = transaction.stamp_and_primary() else {
            return Err(Reason::WrongPhase);
        };
        Ok(Admitted::CommitPrimary {
            by,
            commit,
            primary,
        })
    }

    pub(crate) fn commit_primary(
        &mut self,
        seat: u32,
        by: TransactionAt,
        commit: Ts,
        primary: &Cell,
    ) -> Result<Answer, NoMemory>
        requires { Admits self.old seat (Admitted.CommitPrimary by commit primary.now) }
        ensures taken { IfOk result (λ a. TableStep self.old seat
            (Step.CommitPrimary by.start) a self.new) }
        ensures same { OnErr result (self.new ≡ self.old) }
    {
        if !has_lock(&self.table, primary, by.start) {
            self.transactions.at_mut(by).set_phase(Phase::Failed);
            return Ok(Answer::Lost);
        }
        commit_cell(&mut self.table, &self.observers, primary, by.start, commit)?;
        self.transactions
            .at_mut(by)
            .set_phase(Phase::Committed(commit));
        Ok(Answer::Committed)
    }
}
