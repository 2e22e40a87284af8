//! Another lock of a committed transaction is replaced by its write record.
ghost use Rattle.std.specs.Prelude.{◌≡◌, IfOk, OnErr};
ghost use Rattle.pb_steps.specs.Steps.{TableStep};
ghost use Rattle.pb_state.specs.Admitted.{Admits, TellsAdmission};

use crate::admitted::Admitted;
use crate::commit::commit_cell;
use crate::parts::Parts;
use crate::readings::has_lock;
use pb_base::{Cell, NoMemory, Reason, Ts};
use pb_steps::{Answer, Phase, Step};
use pb_store::Tablet;

impl<T: Tablet> Parts<T> {
    pub(crate) fn admit_secondary(
        &self,
        seat: u32,
        start: Ts,
        cell: &Cell,
    ) -> Result<Admitted<'static>, Reason>
        ensures { TellsAdmission self.now seat (Step.CommitSecondary start cell.now) result }
    {
        let (_, transaction) = self.own(seat, start)?;
        let Phase::Committed(commit) = transaction.phase() else {
            return Err(Reason::WrongPhase);
        };
        if transaction.content(*cell).is_none() {
            return Err(Reason::NotDeclared);
        }
        Ok(Admitted::CommitSecondary {
            start,
            cell: *cell,
            commit,
        })
    }

    pub(crate) fn commit_secondary(
        &mut self,
        seat: u32,
        start: Ts,
        cell: &Cell,
        commit: Ts,
    ) -> Result<Answer, NoMemory>
        requires { Admits self.old seat (Admitted.CommitSecondary start cell.now commit) }
        ensures taken { IfOk result (λ a. TableStep self.old seat
            (Step.CommitSecondary start cell.now) a self.new) }
        ensures same { OnErr result (self.new ≡ self.old) }
    {
        // Who cleared the lock put the same commit there, so that nothing is left to do.
        if !has_lock(&self.table, cell, start) {
            return Ok(Answer::Done);
        }
        commit_cell(&mut self.table, &self.observers, cell, start, commit)?;
        Ok(Answer::Done)
    }
}
