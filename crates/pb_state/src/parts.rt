//! The parts of a state, which the steps change, each in a file of its own.
ghost use Rattle.std.specs.Prelude.{◌≡◌};

use crate::admitted::{Admitted, TransactionAt};
use crate::transaction::Transaction;
use crate::transactions::Transactions;
use pb_accepted::Observer;
use pb_base::{NoMemory, Reason, Ts};
use pb_steps::{Answer, Step};
use pb_store::{Table, Tablet};
use std::alloc::Global;
use std::marker::Model;

/// What the table holds, its observers, the last timestamp given out, the number of seats, and the transactions. It is
/// a state without the fact that it is sound, so that no step shows that for itself: `State` does once for all.
pub(crate) struct Parts<T: Tablet> {
    pub(crate) alloc: Global,
    pub(crate) table: Table<T>,
    pub(crate) observers: Vec<Observer>,
    pub(crate) clock: u64,
    pub(crate) seats: u32,
    pub(crate) transactions: Transactions,
}

impl<T: Tablet> Model for Parts<T> {
    ghost use Rattle.pb_steps.specs.State.{StateOf, state_code};

    ghost Value = { StateOf };

    ghost coded = { state_code };

    ghost use Rattle.pb_state.specs.Keeping.{parts_as_state, IsOfSize};

    ghost view = { λ p. parts_as_state p.table p.observers.items p.clock p.seats p.transactions };

    ghost invariant = { λ p. IsOfSize p.observers.items p.seats };
}

impl<T: Tablet> Parts<T> {
    ghost use Rattle.std.specs.Prelude.{OnErr, IfOk, IfErr, Some, None};
    ghost use Rattle.std.specs.Result.{result_err};
    ghost use Rattle.pb_base.specs.declared.refusal.Reason.TheVariants.{NotOfSeat};
    ghost use Rattle.pb_history.specs.Sound.{IsSoundTable};
    ghost use Rattle.pb_steps.specs.Reasons.{own_transaction, first_reason, seat_reasons};
    ghost use Rattle.pb_steps.specs.Steps.{TableStep};
    ghost use Rattle.pb_state.specs.Admitted.{IsOwnAt, Admits, TellsAdmission, step_admitted};

    // Whether the table has this seat.
    pub(crate) fn admit_seat(&self, seat: u32) -> Result<(), Reason>
        ensures { result_err result ≡ first_reason (seat_reasons self.now seat) }
    {
        if seat >= self.seats {
            return Err(Reason::NotOfSeat);
        }
        Ok(())
    }

    // The transaction of this start, if the table has this seat and it is one of it.
    pub(crate) fn own(&self, seat: u32, start: Ts) -> Result<(TransactionAt, &Transaction), Reason>
        ensures found { IfOk result (λ f. (f.0.start ≡ start)
            × IsOwnAt self.now seat f.0 f.1.now) }
        ensures own { IfOk result (λ f. own_transaction self.now seat start.0 ≡ Some f.1.now) }
        ensures refused { IfErr result (λ r. (r ≡ NotOfSeat)
            × (own_transaction self.now seat start.0 ≡ None)) }
    {
        self.admit_seat(seat)?;
        match self.transactions.find(start) {
            Some((at, transaction)) => {
                if transaction.seat() == seat {
                    Ok((at, transaction))
                } else {
                    Err(Reason::NotOfSeat)
                }
            }
            None => Err(Reason::NotOfSeat),
        }
    }

    /// A step with what it needs, or why it is refused: of the reasons that apply, the one with the lowest number.
    pub(crate) fn admit<'s>(&self, seat: u32, step: &'s Step) -> Result<Admitted<'s>, Reason>
        ensures { TellsAdmission self.now seat step.now result }
    {
        match step {
            Step::Begin(work) => self.admit_begin(seat, work),
            Step::Read(start, cell) => self.admit_read(seat, *start, cell, None),
            Step::ReadAt(start, cell, at) => self.admit_read(seat, *start, cell, Some(*at)),
            Step::Declare(start, what) => self.admit_declare(seat, *start, what),
            Step::Prewrite(start, cell) => self.admit_prewrite(seat, *start, cell),
            Step::Stamp(start) => self.admit_stamp(seat, *start),
            Step::CommitPrimary(start) => self.admit_primary(seat, *start),
            Step::CommitSecondary(start, cell) => self.admit_secondary(seat, *start, cell),
            // Any seat may take those that name no transaction, since who left a lock may never come back.
            Step::Settle(cell) => {
                self.admit_seat(seat)?;
                Ok(Admitted::Settle(*cell))
            }
            Step::Clear(cell) => {
                self.admit_seat(seat)?;
                Ok(Admitted::Clear(*cell))
            }
            Step::NextMark(after) => {
                self.admit_seat(seat)?;
                Ok(Admitted::NextMark(*after))
            }
            Step::Sweep(cell) => {
                self.admit_seat(seat)?;
                Ok(Admitted::Sweep(*cell))
            }
        }
    }

    /// Takes a step that is admitted.
    pub(crate) fn take(&mut self, seat: u32, admitted: &Admitted<'_>) -> Result<Answer, NoMemory>
        requires sound { IsSoundTable self.old }
        requires admitted { Admits self.old seat admitted.now }
        ensures taken { IfOk result (λ a. TableStep self.old seat
            (step_admitted admitted.now) a self.new) }
        ensures same { OnErr result (self.new ≡ self.old) }
    {
        match admitted {
            Admitted::Begin(work) => self.begin(seat, *work),
            Admitted::Read { by, cell, at } => self.read(seat, *by, cell, *at),
            Admitted::Declare {
                by,
                what,
                acknowledgment,
            } => self.declare(seat, *by, what, *acknowledgment),
            Admitted::Prewrite {
                by,
                cell,
                content,
                primary,
            } => self.prewrite(seat, *by, cell, *content, *primary),
            Admitted::Stamp(by) => Ok(self.stamp(seat, *by)),
            Admitted::CommitPrimary {
                by,
                commit,
                primary,
            } => self.commit_primary(seat, *by, *commit, primary),
            Admitted::CommitSecondary {
                start,
                cell,
                commit,
            } => self.commit_secondary(seat, *start, cell, *commit),
            Admitted::Settle(cell) => self.settle(seat, cell),
            Admitted::Clear(cell) => self.clear(seat, cell),
            Admitted::NextMark(after) => Ok(self.next_mark(seat, *after)),
            Admitted::Sweep(cell) => self.sweep(seat, cell),
        }
    }
}
