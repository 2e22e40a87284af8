//! Passes over the marked cells (OSDI 2010, section 2.4).
ghost use Rattle.std.specs.Prelude.{◌≤◌, length, IfOk, IfErr, OnOk};
ghost use Rattle.pb_base.specs.declared.limits.TheConstants.{MAX_OBSERVERS};
ghost use Rattle.pb_threads.specs.Gains.{Gains};
ghost use Rattle.pb_passes.specs.Passes.{AreAllRuns, IsPassThat, IsDrain};
ghost use Rattle.pb_passes.specs.Begun.{AreRunsBegun, IsPassBegun, IsDrainBegun};
ghost use Rattle.pb_threads.specs.Stops.{Stops};

use crate::desk::{Callee, Caller};
use crate::gate::Gate;
use crate::job::run_one;
use pb_accepted::Observer;
use pb_base::{Cell, ObserverNo, Refusal};
use pb_core::Seat;
use pb_passes::{MAX_PASSES, is_observer_of};
use pb_steps::{Answer, Step};
use std::sync::Wait;

// Runs each observer of the cell's column, in file order.
fn run_all<R: Wait, C: Callee, G: Gate>(
    caller: &Caller<R, C, G>,
    seat: &mut Seat,
    observers: &[Observer],
    cell: &Cell,
) -> Result<(), Refusal>
    requires few { length observers.now ≤ MAX_OBSERVERS }
    ensures ok { OnOk result (Gains (AreAllRuns observers.now cell.now) seat.old seat.new) }
    ensures err { IfErr result
        (λ r. Gains (Stops C.opening seat.old.number (AreRunsBegun observers.now cell.now) r)
        seat.old seat.new) }
{
    for place in 0..observers.len() {
        if is_observer_of(observers, place, cell) {
            // A table has no more observers than there are numbers.
            let Some(number) = ObserverNo::new(place as u8) else {
                unreachable!()
            };
            run_one(caller, seat, observers, number, *cell)?;
        }
    }
    Ok(())
}

// One pass, from mark to mark up to where there is none, and whether it found one. Then another is due, since its
// runs may have marked cells that it had gone by.
fn pass<R: Wait, C: Callee, G: Gate>(
    caller: &Caller<R, C, G>,
    seat: &mut Seat,
    observers: &[Observer],
) -> Result<bool, Refusal>
    requires few { length observers.now ≤ MAX_OBSERVERS }
    ensures ok { IfOk result (λ marked. Gains (IsPassThat observers.now marked) seat.old seat.new) }
    ensures err { IfErr result
        (λ r. Gains (Stops C.opening seat.old.number (IsPassBegun observers.now) r)
        seat.old seat.new) }
{
    let mut last = None;
    for _turn in caller.rt.forever() {
        let next = caller.ask(seat, &Step::NextMark(last))?;
        let Answer::Marked(cell) = &next else {
            return Ok(last.is_some());
        };
        run_all(caller, seat, observers, cell)?;
        last = Some(*cell);
    }
    unreachable!()
}

/// Makes passes until one finds no mark, or so many as may be made.
pub(crate) fn drain<R: Wait, C: Callee, G: Gate>(
    caller: &Caller<R, C, G>,
    seat: &mut Seat,
    observers: &[Observer],
) -> Result<(), Refusal>
    requires few { length observers.now ≤ MAX_OBSERVERS }
    ensures ok { OnOk result (Gains (IsDrain observers.now) seat.old seat.new) }
    ensures err { IfErr result
        (λ r. Gains (Stops C.opening seat.old.number (IsDrainBegun observers.now) r)
        seat.old seat.new) }
{
    for _count in 0..MAX_PASSES {
        let marked = pass(caller, seat, observers)?;
        if !marked {
            return Ok(());
        }
    }
    Ok(())
}
