//! The state of the shared table, and the steps that it takes.
ghost use Rattle.std.specs.Prelude.{◌≡◌};

use crate::admitted::Admitted;
use crate::carry_fault::CarryFault;
use crate::parts::Parts;
use crate::readings::{count_locks, count_marks};
use crate::transactions::Transactions;
use pb_accepted::Observer;
use pb_base::{Cell, MAX_OBSERVERS, MAX_SEATS, NoMemory, Reason, Refusal, Revision, Ts};
use pb_steps::{Answer, Phase, Step};
use pb_store::{Table, Tablet};
use std::alloc::Global;
use std::marker::Model;

/// The state of the shared table, without journal and books: what the table holds, the last timestamp given out, the
/// number of seats, and the transactions.
///
/// A state ends by `close` alone.
pub struct State<T: Tablet> {
    parts: Parts<T>,
}

impl<T: Tablet> Model for State<T> {
    ghost use Rattle.pb_steps.specs.State.{StateOf, state_code};

    ghost Value = { StateOf };

    ghost coded = { state_code };

    ghost use Rattle.pb_history.specs.Sound.{IsSoundTable};

    ghost view = { λ s. s.parts };

    ghost invariant = { λ s. IsSoundTable s.parts };
}

impl<T: Tablet> State<T> {
    ghost use Rattle.std.specs.Prelude.{◌≤◌, ◌<◌, ◌+◌, ◌^◌, OnOk, OnErr, IfOk, IfErr, MatchBool, None, true, Some, option_map, length, take, ℕ, if◌then◌else◌};
    ghost use Rattle.std.specs.FinMap as map;
    ghost use Rattle.pb_steps.specs.Marks.{AllUpToDate, SomeBehind};
    ghost use Rattle.pb_base.specs.Reasons.{refusal_by, memory_refusal};
    ghost use Rattle.pb_base.specs.declared.refusal.Reason.TheVariants as reasons;
    ghost use Rattle.pb_store.specs.Contents.{nothing, is_nothing};
    ghost use Rattle.pb_store.specs.Tiles.{TellsSwapReason};
    ghost use Rattle.pb_steps.specs.State.{opening, phase_in};
    ghost use Rattle.pb_steps.specs.Readings.{lock_count};
    ghost use Rattle.pb_steps.specs.Steps.{step_reason, TableStep};
    ghost use Rattle.pb_state.specs.Admitted.{Admits, TellsAdmission, step_admitted};
    ghost use Rattle.pb_state.specs.CarriedOver.{AreInOrder, IsCarriedOver, WhyNotCarried};
    ghost use Rattle.pb_state.specs.MarkedBehind.{HasSomeMarked, IsMarkedBehind};
    ghost use Rattle.pb_state.specs.MoreObservers.{HasMoreMarks, HasMoreObservers};

    /// A state over an empty table, with seats numbered from 0 and the last timestamp given out. It has no entry, no mark
    /// and no transaction.
    pub fn new(
        alloc: Global,
        table: Table<T>,
        observers: Vec<Observer>,
        seats: u32,
        last: Ts,
    ) -> State<T>
        requires empty { table.contents ≡ nothing }
        requires some { 1 ≤ seats }
        requires few { seats ≤ MAX_SEATS }
        requires numbered { length observers.items ≤ MAX_OBSERVERS }
        ensures { result ≡ opening observers.items seats last.0 }
    {
        State {
            parts: Parts {
                alloc,
                table,
                observers,
                clock: last.0,
                seats,
                transactions: Transactions::new(alloc),
            },
        }
    }

    /// Begins with these versions, of which the last timestamp was given out by then. They stand by rising starts, and
    /// by rising cells within one start; the transactions that wrote them followed one another. What is left of these is
    /// committed, and of no seat. No step may have been taken.
    ///
    /// Refused, it has begun with those before the first that can't come next, or for which memory was refused.
    pub fn carry_over(&mut self, last: Ts, cells: &[(Cell, Revision)]) -> Result<(), CarryFault>
        requires opened { self.old ≡ opening self.old.observers self.old.seats 0 }
        ensures ok { OnOk result
            (IsCarriedOver self.old.observers self.old.seats last.0 cells.now self.new) }
        ensures ordered { OnOk result (AreInOrder self.old.observers last.0 cells.now) }
        ensures err { IfErr result (λ e. (n : ℕ)
            × IsCarriedOver self.old.observers self.old.seats last.0 (take n cells.now) self.new
            × WhyNotCarried self.old.observers last.0 cells.now n e) }
    {
        self.parts.carry_over(last, cells)
    }

    /// Adds observers after those that there are, and marks for them every cell of their columns that was ever written. It is
    /// no step.
    ///
    /// Refused for memory, some of these cells may be marked, and there is no observer more.
    pub fn add_observers(&mut self, more: Vec<Observer>) -> Result<(), NoMemory>
        requires few { length self.old.observers + length more.items ≤ MAX_OBSERVERS }
        ensures ok { OnOk result (HasMoreObservers more.items self.old self.new) }
        ensures err { OnErr result (HasMoreMarks more.items self.old self.new) }
    {
        self.parts.add_observers(more)
    }

    /// Marks each cell that an observer isn't up to date on: its newest commit is above what that has acknowledged. So a table that
    /// begins without the marks that it had goes on with what is left to do. It is no step.
    ///
    /// Refused for memory, some of these cells may be marked.
    pub fn mark_behind(&mut self) -> Result<(), NoMemory>
        ensures ok { OnOk result (IsMarkedBehind self.old self.new) }
        ensures err { OnErr result (HasSomeMarked self.old self.new) }
    {
        self.parts.mark_behind()
    }

    /// Whether an observer isn't up to date on a cell: the newest commit is above what that has acknowledged.
    pub fn is_behind(&self, cell: &Cell) -> bool
        ensures { MatchBool result (SomeBehind self.now.observers self.now.entries cell.now)
            (AllUpToDate self.now.observers self.now.entries cell.now) }
    {
        self.parts.is_behind(cell)
    }

    /// The last timestamp given out.
    pub fn clock(&self) -> Ts
        ensures { result.0 ≡ self.now.clock }
    {
        Ts(self.parts.clock)
    }

    /// The observers, by their numbers.
    pub fn observers(&self) -> &[Observer]
        ensures observers { result.now ≡ self.now.observers }
        ensures few { length result.now ≤ MAX_OBSERVERS }
    {
        &self.parts.observers
    }

    /// How many seats there are.
    pub fn seats(&self) -> u32
        ensures seats { result ≡ self.now.seats }
        ensures some { 1 ≤ result }
        ensures few { result ≤ MAX_SEATS }
    {
        self.parts.seats
    }

    /// How far the transaction of this start has come.
    pub fn phase(&self, start: Ts) -> Option<Phase>
        ensures { result ≡ phase_in self.now start.0 }
    {
        let (_, transaction) = self.parts.transactions.find(start)?;
        Some(transaction.phase())
    }

    /// The table, to read it.
    pub fn table(&self) -> &Table<T>
        ensures entries { result.now.contents.entries ≡ self.now.entries }
        ensures marks { result.now.contents.marks ≡ self.now.marks }
    {
        &self.parts.table
    }

    /// How many locks stand in the table. It asks for a table whose entries can be counted.
    pub fn locks(&self) -> usize
        requires { map.len self.now.entries < 2 ^ 64 }
        ensures { result ≡ lock_count self.now.entries }
    {
        count_locks(&self.parts.table)
    }

    /// How many cells are marked. It asks for a table whose marks can be counted.
    pub fn marks(&self) -> usize
        requires { map.len self.now.marks < 2 ^ 64 }
        ensures { result ≡ map.len self.now.marks }
    {
        count_marks(&self.parts.table)
    }

    /// A step with what it needs of the state, so that nothing is looked up twice, or why it is refused: of the reasons
    /// that apply, the one with the lowest number.
    pub fn admit<'s>(&self, seat: u32, step: &'s Step) -> Result<Admitted<'s>, Reason>
        ensures { TellsAdmission self.now seat step.now result }
    {
        self.parts.admit(seat, step)
    }

    /// The lowest of the numbers 40 to 43, 45 to 47 and 49 that a step is refused with, if one applies.
    pub fn refused(&self, seat: u32, step: &Step) -> Option<Refusal>
        ensures { result ≡ option_map refusal_by (step_reason self.now seat step.now) }
    {
        self.reason(seat, step).map(Reason::refusal)
    }

    /// Why a step is refused, if it is: of the reasons that apply, the one with the lowest number.
    pub fn reason(&self, seat: u32, step: &Step) -> Option<Reason>
        ensures { result ≡ step_reason self.now seat step.now }
    {
        match self.admit(seat, step) {
            Ok(_) => None,
            Err(reason) => Some(reason),
        }
    }

    /// Takes a step that isn't refused. A commit of a primary answers `Lost` where its lock is gone. The step and its
    /// answer are those of `TableStep`. Refused for memory, the state is as before.
    pub fn take(&mut self, seat: u32, step: &Step) -> Result<Answer, NoMemory>
        requires { step_reason self.old seat step.now ≡ None }
        ensures taken { IfOk result (λ a. TableStep self.old seat step.now a self.new) }
        ensures same { OnErr result (self.new ≡ self.old) }
    {
        // It is admitted, since it isn't refused.
        let Ok(admitted) = self.admit(seat, step) else {
            unreachable!()
        };
        self.take_admitted(seat, &admitted)
    }

    /// Takes a step that the state admits, as `take` does, and looks nothing up that was found.
    #[tactic(auto, using(pb_history::proofs::StepsKeepSound::steps_keep))]
    pub fn take_admitted(&mut self, seat: u32, admitted: &Admitted<'_>) -> Result<Answer, NoMemory>
        requires { Admits self.old seat admitted.now }
        ensures taken { IfOk result (λ a. TableStep self.old seat
            (step_admitted admitted.now) a self.new) }
        ensures same { OnErr result (self.new ≡ self.old) }
    {
        self.parts.take(seat, admitted)
    }

    /// Copies all that a tablet of the table contains into another, puts that in its place, and answers the old one, emptied.
    /// It is no step.
    ///
    /// Refused it answers the new one, emptied: with 4 where that isn't empty, else 5 where there is no such place, or 1 where
    /// memory is refused.
    pub fn swap(&mut self, place: usize, tablet: T) -> Result<T, (T, Refusal)>
        ensures same { self.new ≡ self.old }
        ensures answered { IfOk result (λ old. T.contents old ≡ nothing) }
        ensures accepted { OnOk result (is_nothing (T.contents tablet) ≡ true) }
        ensures handed_back { IfErr result (λ e. T.contents e.0 ≡ nothing) }
        ensures refused { IfErr result (λ e. TellsSwapReason (T.contents tablet) place e.1) }
    {
        self.parts.table.swap(place, tablet)
    }

    /// As `swap`, but that a place beyond the last stands for the first one: so a caller that knows how many places there
    /// are learns that an empty tablet was refused for memory alone, which the state's value doesn't say.
    pub fn swap_within(&mut self, place: usize, tablet: T) -> Result<T, (T, Refusal)>
        ensures same { self.new ≡ self.old }
        ensures answered { IfOk result (λ old. T.contents old ≡ nothing) }
        ensures accepted { OnOk result (is_nothing (T.contents tablet) ≡ true) }
        ensures handed_back { IfErr result (λ e. T.contents e.0 ≡ nothing) }
        ensures refused { IfErr result (λ e. e.1
            ≡ (if is_nothing (T.contents tablet) then memory_refusal
            else refusal_by reasons.NotEmpty)) }
    {
        let within = if place < self.parts.table.places() {
            place
        } else {
            0
        };
        self.parts.table.swap(within, tablet)
    }

    /// Ends the table, with all that is in it.
    pub fn close(self) {
        let State { parts } = self;
        let Parts {
            alloc: _,
            table,
            observers: _,
            clock: _,
            seats: _,
            transactions: _,
        } = parts;
        table.close();
    }
}
