//! Where a job stands, and where an answer or an instruction leads. `Beginning` holds nothing, so that it stands in
//! for a place that is taken out to be moved.
ghost use Rattle.std.specs.Prelude.{◌≡◌, ◌≢◌, ◌<◌, Some, length, IfOk, IfErr, OnOk, OnErr, IsTrue};
ghost use Rattle.pb_helpers.specs.OldRecord as versions;
ghost use Rattle.pb_txn.specs.Plans.{PlanOf};
ghost use Rattle.pb_txn.specs.Plans as plans;
ghost use Rattle.pb_notify.specs.declared.place.RunPlace.TheVariants as places;
ghost use Rattle.pb_notify.specs.Places.{stored_step, place_after, locked_at, CanTakeAt, AtPlace, IsToldBy, IsToldAt, ComesTo, GoesOnFrom, MovesAlong, IsStarting, by_outcome, IsPlanning};
ghost use Rattle.pb_notify.specs.Runs.{need_at};
ghost use Rattle.pb_notify.specs.Steps.{MovesOn, IsAtExit};
ghost use Rattle.pb_notify.specs.declared.need.Need.TheVariants.{Local};
ghost use Rattle.pb_vm.specs.Moves.{IsAskOrEnd};
ghost use Rattle.pb_vm.specs.Position.{Position};
ghost use Rattle.pb_vm.specs.declared.moved.MachinePhase.TheVariants.{Asking};

use crate::look::{Look, Looked, locked_after, look_after, look_step};
use crate::machine::Machine;
use crate::need::JobEnd;
use pb_accepted::Accepted;
use pb_base::{Cell, Column, NoMemory, ObserverNo, Revision, Row, Ts};
use pb_helpers::{Ask, Record};
use pb_steps::{Answer, Seen, Step, Work, acknowledged_in, old_at, reply_in, version_in};
use pb_txn::{Outcome, Plan};
use pb_vm::Moved;
use std::alloc::Global;
use std::mem;
use std::sync::Arc;

/// What of a job is next, with the start of its transaction.
#[derive(Drop)]
pub enum RunPlace {
    Beginning,
    /// Its look at the cell.
    Observing(Ts, Look),
    /// Its look at the acknowledgment, with what the cell holds.
    Acknowledging(Ts, Revision, Look),
    /// Its look at the cell as of the acknowledged timestamp, with what it saw so far.
    Recalling(Ts, Seen, Look),
    /// The first instruction of its machine, which isn't started. What was seen is kept here, since a refused start
    /// lets the record go, and it is made anew.
    Starting(Ts, Seen),
    Computing(Ts, Machine),
    /// Its look at a cell that its machine asks for.
    Asking(Ts, Machine, Ask, Look),
    /// Its plan, with register 0.
    Planning(u64, Plan),
    /// The sweep of the cell; then it ends so.
    Sweeping(JobEnd),
    Over(JobEnd),
}

/// The step at a place, but for those of a plan.
pub fn step_at(observer: ObserverNo, row: Row, column: Column, place: &RunPlace) -> Option<Step>
    ensures { result ≡ stored_step observer row column place.now }
{
    match place {
        RunPlace::Beginning => Some(Step::Begin(Work::Run(observer, row))),
        RunPlace::Observing(start, look) => Some(look_step(
            *start,
            Cell::Data(row, column),
            None,
            *look,
        )),
        RunPlace::Acknowledging(start, _, look) => {
            Some(look_step(*start, Cell::Ack(observer, row, column), None, *look))
        }
        RunPlace::Recalling(start, seen, look) => Some(look_step(
            *start,
            Cell::Data(row, column),
            Some(seen.acknowledged),
            *look,
        )),
        RunPlace::Asking(start, _, ask, look) => {
            Some(look_step(*start, Cell::Data(ask.row, ask.column), None, *look))
        }
        RunPlace::Sweeping(_) => Some(Step::Sweep(Cell::Data(row, column))),
        RunPlace::Starting(..)
        | RunPlace::Computing(..)
        | RunPlace::Planning(..)
        | RunPlace::Over(_) => None,
    }
}

/// Keeps the step at a place, but for those of a plan. It isn't inlined, since room for a step would be cleared at
/// each entry of its caller, also where none is made.
#[inline(never)]
pub fn keep_step(
    next: &mut Option<Step>,
    observer: ObserverNo,
    row: Row,
    column: Column,
    place: &RunPlace,
)
    ensures { next.new ≡ stored_step observer row column place.now }
{
    *next = step_at(observer, row, column, place);
}

/// How many reads met a lock after this answer.
pub fn locked_at(locked: u8, place: &RunPlace, answer: &Answer) -> u8
    requires { AtPlace locked place.now }
    ensures { result ≡ locked_at locked place.now answer.now }
{
    match place {
        RunPlace::Observing(_, look) => locked_after(locked, *look, answer),
        RunPlace::Acknowledging(_, _, look) => locked_after(locked, *look, answer),
        RunPlace::Recalling(_, _, look) => locked_after(locked, *look, answer),
        RunPlace::Asking(_, _, _, look) => locked_after(locked, *look, answer),
        _ => locked,
    }
}

// What was found of the cell. Without a version there is no change to run on.
fn after_cell(start: Ts, looked: Looked) -> RunPlace
    ensures { result ≡ Rattle.pb_notify.specs.Places.after_cell start looked }
{
    match looked {
        Looked::On(look) => RunPlace::Observing(start, look),
        Looked::Tells(answer) => match version_in(answer) {
            Some(version) => RunPlace::Acknowledging(start, version, Look::Reading),
            None => RunPlace::Sweeping(JobEnd::Clean),
        },
        Looked::Blocks => RunPlace::Over(JobEnd::Blocked),
    }
}

// The machine's turn, if the cell is dirty: changed since the acknowledged change.
fn if_dirty(second: bool, start: Ts, version: Revision, acknowledged: Ts) -> RunPlace
    ensures { result ≡ Rattle.pb_notify.specs.Places.if_dirty second start version acknowledged }
{
    if acknowledged < version.commit {
        let seen = Seen {
            version,
            acknowledged,
            old: None,
        };
        // It is read only where the record gives it, since `Declare` refuses a run with a read too
        // many.
        match old_at(second, acknowledged) {
            None => RunPlace::Starting(start, seen),
            Some(_) => RunPlace::Recalling(start, seen, Look::Reading),
        }
    } else {
        RunPlace::Sweeping(JobEnd::Clean)
    }
}

// What was found of the acknowledgment.
fn after_acknowledgment(second: bool, start: Ts, version: Revision, looked: Looked) -> RunPlace
    ensures { result
        ≡ Rattle.pb_notify.specs.Places.after_acknowledgment second start version looked }
{
    match looked {
        Looked::On(look) => RunPlace::Acknowledging(start, version, look),
        Looked::Tells(answer) => if_dirty(second, start, version, acknowledged_in(answer)),
        Looked::Blocks => RunPlace::Over(JobEnd::Blocked),
    }
}

// What was found of the cell as of the acknowledged timestamp.
fn after_recall(start: Ts, seen: Seen, looked: Looked) -> RunPlace
    ensures { result ≡ Rattle.pb_notify.specs.Places.after_recall start seen looked }
{
    match looked {
        Looked::On(look) => RunPlace::Recalling(start, seen, look),
        Looked::Tells(answer) => {
            let old = reply_in(answer).value();
            RunPlace::Starting(start, Seen { old, ..seen })
        }
        Looked::Blocks => RunPlace::Over(JobEnd::Blocked),
    }
}

// What was found of a cell that the machine asked for, which goes on with it. A lock too many ends the run, and the
// machine with it.
fn after_ask(start: Ts, machine: Machine, ask: Ask, looked: Looked) -> RunPlace
    requires { machine.phase ≡ Asking ask }
    ensures place { result ≡ Rattle.pb_notify.specs.Places.after_ask start machine ask looked }
    ensures told { IsToldBy machine ask looked result }
{
    match looked {
        Looked::On(look) => RunPlace::Asking(start, machine, ask, look),
        Looked::Tells(answer) => RunPlace::Computing(start, machine.reply(ask, answer)),
        Looked::Blocks => RunPlace::Over(JobEnd::Blocked),
    }
}

// An answer to a plan where it stands, and how it ended, if it is over.
fn plan_outcome_after(plan: &mut Plan, answer: Answer) -> Option<Outcome>
    requires { plans.CanTake (plans.next_of plan.old) answer }
    ensures took { plan.new ≡ plans.answered plan.old answer }
    ensures outcome { result ≡ plans.outcome_of (plans.answered plan.old answer) }
{
    plan.took(answer);
    plan.outcome()
}

// Where a plan leads that is over so.
fn after_outcome(end: u64, outcome: Outcome) -> RunPlace
    ensures { (p : PlanOf) → result ≡ by_outcome end p (Some outcome) }
{
    match outcome {
        Outcome::Committed(_) => RunPlace::Sweeping(JobEnd::Ran(end)),
        Outcome::Conflicted => RunPlace::Over(JobEnd::Conflicted),
        Outcome::Lost => RunPlace::Over(JobEnd::Lost),
    }
}

// Where the answer of the next step leads, but for those of a plan.
fn place_after(second: bool, locked: u8, place: RunPlace, answer: Answer) -> RunPlace
    requires at { AtPlace locked place }
    requires other { IsPlanning place → ⊥ }
    ensures place { result ≡ place_after second locked place answer }
    ensures told { IsToldAt locked place answer result }
{
    match place {
        RunPlace::Beginning => match answer {
            Answer::At(start) => RunPlace::Observing(start, Look::Reading),
            _ => RunPlace::Beginning,
        },
        RunPlace::Observing(start, look) => after_cell(start, look_after(locked, look, answer)),
        RunPlace::Acknowledging(start, version, look) => {
            after_acknowledgment(second, start, version, look_after(locked, look, answer))
        }
        RunPlace::Recalling(start, seen, look) => {
            after_recall(start, seen, look_after(locked, look, answer))
        }
        RunPlace::Starting(start, seen) => RunPlace::Starting(start, seen),
        RunPlace::Computing(start, machine) => RunPlace::Computing(start, machine),
        RunPlace::Asking(start, machine, ask, look) => {
            after_ask(start, machine, ask, look_after(locked, look, answer))
        }
        // It isn't here, since a plan takes its answers where it stands.
        RunPlace::Planning(..) => unreachable!(),
        RunPlace::Sweeping(end) => RunPlace::Over(end),
        RunPlace::Over(end) => RunPlace::Over(end),
    }
}

// Takes the answer where the place is moved for it: of the begin, and of a look as of an earlier timestamp or for the
// machine. It isn't inlined, since the room for a second place is cleared at each entry.
#[inline(never)]
fn look_at(second: bool, locked: u8, place: &mut RunPlace, answer: Answer)
    requires at { AtPlace locked place.old }
    requires other { IsPlanning place.old → ⊥ }
    ensures place { place.new ≡ place_after second locked place.old answer }
    ensures told { IsToldAt locked place.old answer place.new }
{
    let before = mem::replace(place, RunPlace::Beginning);
    *place = place_after(second, locked, before, answer);
}

// Leaves a place for the next. The one before is dropped here alone, since each drop of a place is many cases to prove.
#[inline(always)]
fn set_place(place: &mut RunPlace, next: RunPlace)
    ensures { place.new ≡ next }
{
    *place = next;
}

/// Takes the answer of the next step where the place stands, and returns whether it is a plan,
/// which goes on.
pub fn take_answer(second: bool, locked: u8, place: &mut RunPlace, answer: Answer) -> bool
    requires at { AtPlace locked place.old }
    requires can { CanTakeAt place.old answer }
    ensures place { place.new ≡ place_after second locked place.old answer }
    ensures told { IsToldAt locked place.old answer place.new }
    ensures plans { IsTrue result → IsPlanning place.old × IsPlanning place.new }
{
    match place {
        RunPlace::Planning(end, plan) => {
            match plan_outcome_after(plan, answer) {
                None => true,
                Some(outcome) => {
                    let end = *end;
                    set_place(place, after_outcome(end, outcome));
                    false
                }
            }
        }
        // These looks and the sweep are taken where they stand, since every run has them.
        RunPlace::Observing(start, look) => {
            let (start, look) = (*start, *look);
            set_place(place, after_cell(start, look_after(locked, look, answer)));
            false
        }
        RunPlace::Acknowledging(start, version, look) => {
            let (start, version, look) = (*start, *version, *look);
            let looked = look_after(locked, look, answer);
            set_place(place, after_acknowledgment(second, start, version, looked));
            false
        }
        RunPlace::Sweeping(end) => {
            let end = *end;
            set_place(place, RunPlace::Over(end));
            false
        }
        _ => {
            look_at(second, locked, place, answer);
            false
        }
    }
}

/// Whether a program is given what its cell held at the acknowledged timestamp.
pub fn tells_old(accepted: &Arc<Accepted>) -> bool
    ensures { result ≡ versions.tells_old accepted.now.value }
{
    accepted.version().tells_old()
}

// The record of what was seen of a cell, of the version that the program is accepted for: no other has the size for
// which the verifier judged it.
fn record_by(accepted: &Arc<Accepted>, cell: Cell, seen: &Seen) -> Record
    ensures record { result ≡ versions.record_by
        (versions.tells_old accepted.now.value) cell seen.now.version
        seen.now.acknowledged.0 seen.now.old }
    ensures size { length result ≡ accepted.now.value.record_size }
{
    let version = accepted.version();
    Record::of_version(version, cell, &seen.version, seen.acknowledged, seen.old)
}

// Where an instruction leads that a machine did. Refused, as the exit alone can be, the machine is before it again.
fn place_after_insn(
    alloc: Global,
    observer: ObserverNo,
    start: Ts,
    machine: Machine,
    moved: Moved,
) -> Result<RunPlace, (Machine, NoMemory)>
    requires { (v : Position) × MovesOn v moved machine }
    ensures ok { (v : Position) → MovesOn v moved machine → IfOk result (ComesTo observer start v) }
    ensures left { IsAskOrEnd moved → IfOk result (λ p. need_at p ≢ Local) }
    ensures same { (v : Position) → MovesOn v moved machine
        → IfErr result (λ e. (e.0 ≡ v) × IsAtExit v) }
{
    match moved {
        Moved::Went => Ok(RunPlace::Computing(start, machine)),
        Moved::Asks(ask) => Ok(RunPlace::Asking(start, machine, ask, Look::Reading)),
        Moved::Ended(_) => {
            let (end, what) = machine.exit(alloc, observer)?;
            Ok(RunPlace::Planning(end, Plan::new(start, what)))
        }
    }
}

/// Starts the machine of a run of this observer, whose program this is, on the record of what was seen of this cell, and
/// does its first instruction. Refused for memory, the place is as before. It isn't inlined, since the room for a
/// second place is cleared at each entry.
#[inline(never)]
pub fn begin(
    alloc: Global,
    observer: ObserverNo,
    accepted: &Arc<Accepted>,
    cell: Cell,
    place: &mut RunPlace,
) -> Result<(), NoMemory>
    requires { IsStarting place.old }
    ensures ok { OnOk result (GoesOnFrom observer accepted.now.value cell place.old place.new) }
    ensures same { OnErr result (place.new ≡ place.old) }
{
    let RunPlace::Starting(start, seen) = place else {
        unreachable!()
    };
    let (start, seen) = (*start, *seen);
    let record = record_by(accepted, cell, &seen);
    let mut machine = Machine::start(alloc, accepted, record, start)?;
    let moved = machine.local();
    match place_after_insn(alloc, observer, start, machine, moved) {
        Ok(next) => {
            set_place(place, next);
            Ok(())
        }
        // The first instruction is the exit, and its declaration was refused: the machine goes, since a start leads
        // there again.
        Err((_, refused)) => Err(refused),
    }
}

// Takes the machine out of the place where its turn is.
#[inline(always)]
fn take_machine(place: &mut RunPlace) -> (Ts, Machine)
    requires { (s : Ts) × (v : Position) × (place.old ≡ places.Computing s v) }
    ensures { place.old ≡ places.Computing result.0 result.1 }
{
    let RunPlace::Computing(start, machine) = mem::replace(place, RunPlace::Beginning) else {
        unreachable!()
    };
    (start, machine)
}

/// Leaves the machine's turn after an ask or an exit, which was done where the machine stands. Refused for memory, as
/// an exit alone can be, the machine is before it again. It isn't inlined, as above.
#[inline(never)]
pub fn leave_turn(
    alloc: Global,
    observer: ObserverNo,
    place: &mut RunPlace,
    moved: Moved,
) -> Result<(), NoMemory>
    requires { (s : Ts) × (v : Position) × MovesAlong s v moved place.old }
    ensures ok { (s : Ts) (v : Position) → MovesAlong s v moved place.old
        → OnOk result (ComesTo observer s v place.new) }
    ensures left { IsAskOrEnd moved → OnOk result (need_at place.new ≢ Local) }
    ensures same { (s : Ts) (v : Position) → MovesAlong s v moved place.old
        → OnErr result ((place.new ≡ places.Computing s v) × IsAtExit v) }
{
    let (start, machine) = take_machine(place);
    match place_after_insn(alloc, observer, start, machine, moved) {
        Ok(next) => {
            set_place(place, next);
            Ok(())
        }
        Err((machine, refused)) => {
            set_place(place, RunPlace::Computing(start, machine));
            Err(refused)
        }
    }
}
