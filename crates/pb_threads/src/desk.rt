//! Calls of a table under its lock: one each time that it is taken, so that steps of others may come between any two.
ghost use Rattle.std.specs.Prelude.{◌≡◌, Err, Option, Some, None, IfOk, IfErr, OnErr};
ghost use Rattle.pb_base.specs.Reasons.{refusal_by, memory_refusal};
ghost use Rattle.pb_steps.specs.Answers.{CanAnswer};
ghost use Rattle.pb_core.specs.Calls.{SharedOf, Calls, call_reason};
ghost use Rattle.pb_core.specs.Histories.{IsLegalTable};
ghost use Rattle.pb_threads.specs.Gains.{OpeningOf, IsOpenedAs, Told, MayRefuse, IsWant};

use crate::gate::Gate;
use crate::waits::take_lock;
use pb_base::Refusal;
use pb_core::{Seat, Shared};
use pb_steps::{Answer, Step};
use pb_store::Tablet;
use std::alloc::Global;
use std::sync::{Mutex, Wait};

/// A shared table, by itself or within what keeps more of it, that takes calls. Its `opening` says how it was opened, where
/// its type keeps that.
pub trait Callee {
    ghost table: { Self → SharedOf };

    ghost opening: { Option OpeningOf };

    /// Takes one step for a seat, as [`Shared::call`] does: its journal was legal, and refused, it leaves table and
    /// seat as they were.
    fn take(&mut self, seat: &mut Seat, step: &Step) -> Result<Answer, Refusal>
        ensures opened { IsOpenedAs opening (table self.old) }
        ensures legal { IsLegalTable (table self.old) }
        ensures refused { (r : _) → call_reason (table self.old) seat.old.number step.now ≡ Some r
            → result ≡ Err (refusal_by r) }
        ensures allowed { call_reason (table self.old) seat.old.number step.now ≡ None
            → IfErr result (λ r. r ≡ memory_refusal) }
        ensures taken { IfOk result (λ a. Calls (table self.old) seat.old step.now a
            (table self.new) seat.new) }
        ensures can { IfOk result (λ a. CanAnswer step.now a) }
        ensures table { OnErr result (table self.new ≡ table self.old) }
        ensures seat { OnErr result (seat.new ≡ seat.old) };
}

impl<T: Tablet> Callee for Shared<T> {
    ghost table = { λ s. s };

    ghost opening = { None };

    fn take(&mut self, seat: &mut Seat, step: &Step) -> Result<Answer, Refusal> {
        self.call(seat, step)
    }
}

/// Where seats take their turns at a table.
pub struct Desk;

// One call, and why it is refused: as some table would that was opened so and has a legal journal, since of the one under
// the lock no more is known.
fn call<C: Callee>(shared: &mut C, seat: &mut Seat, step: &Step) -> Result<Answer, Refusal>
    ensures told { IfOk result (λ a. Told seat.old step.now a seat.new) }
    ensures can { IfOk result (λ a. CanAnswer step.now a) }
    ensures refused { IfErr result (λ r. MayRefuse C.opening seat.old.number step.now r) }
    ensures seat { OnErr result (seat.new ≡ seat.old) }
{
    shared.take(seat, step)
}

// What the seat alone takes for one call. Want of memory is its refusal, and leaves it as it was.
fn make_room(seat: &mut Seat) -> Result<(), Refusal>
    ensures same { seat.new ≡ seat.old }
    ensures want { IfErr result IsWant }
{
    Ok(seat.make_room()?)
}

impl Desk {
    ghost use Rattle.std.specs.Prelude.{◌≡◌, IfOk, IfErr, OnErr};
    ghost use Rattle.pb_steps.specs.Answers.{CanAnswer};
    ghost use Rattle.pb_threads.specs.Gains.{Told, MayRefuse};

    /// Takes the lock, makes one call and gives the lock back. Refused, it leaves the seat as it was. The seat's room for the
    /// answer is made before the lock is taken; where memory is refused for that, the table isn't called.
    ///
    /// Under the lock stands a [`Shared`] itself, as with `Mutex::new(shared)`, or what keeps more
    /// of one, as under the lock of [`crate::run_workers`]: workers make this very call. It adds to
    /// the seat's list exactly the step and the answer that it returns, one that the step can have.
    pub fn call<R: Wait, C: Callee>(
        rt: &R,
        shared: &Mutex<C>,
        seat: &mut Seat,
        step: &Step,
    ) -> Result<Answer, Refusal>
        ensures told { IfOk result (λ a. Told seat.old step.now a seat.new) }
        ensures can { IfOk result (λ a. CanAnswer step.now a) }
        ensures refused { IfErr result (λ r. MayRefuse C.opening seat.old.number step.now r) }
        ensures seat { OnErr result (seat.new ≡ seat.old) }
    {
        // Before the lock is taken, so that nobody waits for it.
        make_room(seat)?;
        call(&mut *take_lock(rt, shared), seat, step)
    }
}

/// How a worker calls the table: under its lock, each time after the gate. What its jobs grow by comes from `alloc`.
#[derive(Drop)]
pub(crate) struct Caller<'a, R, C, G> {
    pub(crate) rt: &'a R,
    pub(crate) alloc: Global,
    pub(crate) shared: &'a Mutex<C>,
    pub(crate) gate: &'a G,
}

impl<'a, R: Wait, C: Callee, G: Gate> Caller<'a, R, C, G> {
    /// The gate, and then the call. The gate comes first, so that a worker held there holds no lock.
    pub(crate) fn ask(&self, seat: &mut Seat, step: &Step) -> Result<Answer, Refusal>
        ensures told { IfOk result (λ a. Told seat.old step.now a seat.new) }
        ensures can { IfOk result (λ a. CanAnswer step.now a) }
        ensures refused { IfErr result (λ r. MayRefuse C.opening seat.old.number step.now r) }
        ensures seat { OnErr result (seat.new ≡ seat.old) }
    {
        self.gate.pass(seat.number(), step);
        Desk::call(self.rt, self.shared, seat, step)
    }
}
