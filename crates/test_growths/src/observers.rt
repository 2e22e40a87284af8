//! Programs, machines, manifests and schedules, and a run up to its commit.
ghost use Rattle.std.specs.Prelude.{◌≤◌, length, IfOk};

use crate::copies::is_declared;
use crate::machines;
use crate::refusals::Refusals;
use crate::steps::{NoSuchNumber, batch, column, column_of, declares};
use crate::twins::{Twins, call_all, close, open_twice};
use pb_accepted::{Accepted, Observer};
use pb_base::{Cell, Column, NoMemory, ObserverNo, Row, Ts};
use pb_finished::Finished;
use pb_helpers::HelperTable;
use pb_parse::{Event, Job, parse_schedule};
use pb_registry::{Registry, RegistryFault, accept};
use pb_steps::{Declaration, Declared, EndedRun, Step, Work};
use pb_verify::VerifyFault;
use std::alloc::Global;
use std::sync::Arc;
use test_fixtures::Unready;

// mov64 r0, 0 and exit.
const PROGRAM: &[u8] = b"\xb7\0\0\0\0\0\0\0\x95\0\0\0\0\0\0\0";

// Two observers, of which the second may call helper 4.
const MANIFEST: &str =
    "{\"profile\":1,\"observers\":[{\"name\":\"watch\",\"column\":0,\"helpers\":[],\"code\":\"b7000000000000009500000000000000\"},{\"name\":\"start\",\"column\":1,\"helpers\":[4],\"code\":\"85000000040000009500000000000000\"}]}";

fn program(alloc: Global) -> Result<Accepted, Unready> {
    Ok(accept(alloc, PROGRAM, HelperTable::none())?)
}

/// `accept`.
pub fn programs_are_accepted(alloc: Global, refusals: &mut Refusals) -> Result<bool, Unready> {
    match accept(alloc, PROGRAM, HelperTable::none()) {
        Ok(program) => Ok(program.slots() == 2),
        Err(VerifyFault::Refused(_)) => Ok(false),
        Err(VerifyFault::NoMemory(_)) => {
            refusals.note("accept");
            match program(alloc) {
                Ok(program) => Ok(program.slots() == 2),
                Err(_) => Ok(false),
            }
        }
    }
}

// Whether it is an observer of this name and column, whose program of two slots may call helper 4 or none.
fn is_observer(observer: &Observer, name: &str, column: u8, may_call: bool) -> bool {
    let program = &observer.program;
    observer.name.as_str() == name
        && observer.column.number() == column
        && program.slots() == 2
        && program.helpers().declares(4) == may_call
}

fn are_the_manifests(observers: &[Observer]) -> bool {
    match observers {
        [watch, start] => {
            is_observer(watch, "watch", 0, false) && is_observer(start, "start", 1, true)
        }
        _ => false,
    }
}

// Whether a registry gives its observers, also where that is refused once.
fn gives_its_observers(alloc: Global, registry: Registry, refusals: &mut Refusals) -> bool {
    match registry.into_observers(alloc) {
        Ok(observers) => are_the_manifests(&observers),
        Err((registry, _)) => {
            refusals.note("Registry::into_observers");
            match registry.into_observers(alloc) {
                Ok(observers) => are_the_manifests(&observers),
                Err(_) => false,
            }
        }
    }
}

// Whether it is want of memory, and names no place.
fn is_memory(fault: &RegistryFault) -> bool {
    fault.code() == 1 && fault.observer().is_none() && fault.program().is_none()
}

/// `Registry::from_json` and `Registry::into_observers`.
pub fn manifests_are_read(alloc: Global, refusals: &mut Refusals) -> Result<bool, NoMemory> {
    match Registry::from_json(alloc, MANIFEST) {
        Ok(registry) => Ok(gives_its_observers(alloc, registry, refusals)),
        Err(fault) => {
            refusals.note("Registry::from_json");
            match Registry::from_json(alloc, MANIFEST) {
                Ok(registry) => {
                    Ok(is_memory(&fault) && gives_its_observers(alloc, registry, refusals))
                }
                Err(_) => Ok(false),
            }
        }
    }
}

/// The run of a program to its end, also where its start is refused once.
pub fn finished_run(
    alloc: Global,
    program: &Arc<Accepted>,
    cell: &Cell,
    refusals: &mut Refusals,
) -> Option<Finished> {
    let vm = machines::start_machine(alloc, program, cell, refusals)?;
    let (finished, _) = machines::run_to_end(vm)?;
    Some(finished)
}

/// `Vm::start`.
pub fn machines_start(alloc: Global, refusals: &mut Refusals) -> Result<bool, Unready> {
    let program = Arc::new(alloc, program(alloc)?)?;
    let cell = Cell::Data(Row(7), column()?);
    match finished_run(alloc, &program, &cell, refusals) {
        Some(finished) => Ok(
            finished.is_of(&program) && finished.start() == Ts(3) && finished.result() == 0,
        ),
        None => Ok(false),
    }
}

/// The one observer of a table.
pub fn observers(alloc: Global, program: &Arc<Accepted>) -> Result<Vec<Observer>, Unready>
    ensures { IfOk result (λ v. length v.items ≤ 32) }
{
    let mut observers = Vec::new(alloc);
    observers.push(observer(alloc, "watch", 0, program)?)?;
    Ok(observers)
}

fn observer(
    alloc: Global,
    name: &str,
    column: u8,
    program: &Arc<Accepted>,
) -> Result<Observer, Unready> {
    Ok(Observer {
        name: String::from_str(alloc, name)?,
        column: column_of(column)?,
        program: Arc::try_clone(program)?,
    })
}

/// Two tables with that observer each.
pub fn open_twins(alloc: Global, program: &Arc<Accepted>) -> Result<Twins, Unready> {
    let first = observers(alloc, program)?;
    let second = observers(alloc, program)?;
    open_twice(alloc, first, second)
}

/// Observers of the columns 0 to 2, which do nothing.
pub fn watchers(alloc: Global) -> Result<Vec<Observer>, Unready>
    ensures { IfOk result (λ v. length v.items ≤ 32) }
{
    let program = Arc::new(alloc, program(alloc)?)?;
    let mut observers = Vec::new(alloc);
    observers.push(observer(alloc, "first", 0, &program)?)?;
    observers.push(observer(alloc, "second", 1, &program)?)?;
    observers.push(observer(alloc, "third", 2, &program)?)?;
    Ok(observers)
}

/// Two tables with such observers each.
pub fn open_watched(alloc: Global) -> Result<Twins, Unready> {
    let first = watchers(alloc)?;
    let second = watchers(alloc)?;
    open_twice(alloc, first, second)
}

const SCHEDULE: &str = "launch 1 run watch 7\nstep 1 100\nsettle ack watch 7\n";

fn are_the_schedules(events: &[Event]) -> bool {
    events.len() == 102
        && matches!(&events[0], Event::Launch(1, Job::Run(_, Row(7))))
        && matches!(&events[1], Event::Step(1))
        && matches!(&events[100], Event::Step(1))
        && matches!(&events[101], Event::Settle(Cell::Ack(_, Row(7), _)))
}

/// `parse_schedule`.
pub fn schedules_are_read(alloc: Global, refusals: &mut Refusals) -> Result<bool, Unready> {
    let program = Arc::new(alloc, program(alloc)?)?;
    let observers = observers(alloc, &program)?;
    match parse_schedule(alloc, SCHEDULE, &observers) {
        Ok(events) => Ok(are_the_schedules(&events)),
        Err(fault) => {
            refusals.note("parse_schedule");
            match parse_schedule(alloc, SCHEDULE, &observers) {
                Ok(events) => {
                    Ok(fault.line() == 0 && fault.code() == 1 && are_the_schedules(&events))
                }
                Err(_) => Ok(false),
            }
        }
    }
}

// A run as it is kept, also where that is refused once and hands the same back.
fn keep_run(
    alloc: Global,
    finished: Finished,
    same: &Finished,
    refusals: &mut Refusals,
) -> Option<EndedRun> {
    let finished = match EndedRun::new(alloc, finished) {
        Ok(ended) => return Some(ended),
        Err(failed) => failed.value,
    };
    refusals.note("EndedRun::new");
    if !finished.is_same(same) {
        return None;
    }
    EndedRun::new(alloc, finished).ok()
}

fn finished(
    alloc: Global,
    program: &Arc<Accepted>,
    cell: &Cell,
    refusals: &mut Refusals,
) -> Result<Finished, Unready> {
    match finished_run(alloc, program, cell, refusals) {
        Some(finished) => Ok(finished),
        None => Err(Unready::Other("no machine comes to its end")),
    }
}

// Whether a run is declared, which is the same as the other.
fn is_run_declared(
    alloc: Global,
    watch: ObserverNo,
    run: EndedRun,
    other: EndedRun,
    refusals: &mut Refusals,
) -> bool {
    let wanted = Declared::Run(watch, other);
    is_declared(alloc, Declared::Run(watch, run), &wanted, refusals)
}

/// The number of a table's one observer.
pub fn observer_number() -> Result<ObserverNo, NoSuchNumber> {
    match ObserverNo::new(0) {
        Some(number) => Ok(number),
        None => Err(NoSuchNumber),
    }
}

/// The declaration of a run of the first observer, whose machine is made beside.
pub fn declares_run(
    alloc: Global,
    watch: ObserverNo,
    program: &Arc<Accepted>,
    cell: &Cell,
    refusals: &mut Refusals,
) -> Result<Step, Unready> {
    let run = EndedRun::new(alloc, finished(alloc, program, cell, refusals)?)?;
    let what = Declaration::new(alloc, Declared::Run(watch, run))?;
    Ok(Step::Declare(Ts(3), what))
}

/// `EndedRun::new`, and `Declaration::new` of a run.
pub fn runs_are_ended(alloc: Global, refusals: &mut Refusals) -> Result<bool, Unready> {
    let watch = observer_number()?;
    let cell = Cell::Data(Row(7), column()?);
    let program = Arc::new(alloc, program(alloc)?)?;
    let first = finished(alloc, &program, &cell, refusals)?;
    let second = finished(alloc, &program, &cell, refusals)?;
    let same = finished(alloc, &program, &cell, refusals)?;
    let other = EndedRun::new(alloc, second)?;
    match keep_run(alloc, first, &same, refusals) {
        Some(run) => {
            let is_it = run.get().is_same(&same);
            let is_declared = is_run_declared(alloc, watch, run, other, refusals);
            Ok(is_it && is_declared)
        }
        None => Ok(false),
    }
}

// The steps of a change of a cell, and of an observer's run on it, by what these declare, with what is marked before the run
// commits and after.
fn run_steps(
    alloc: Global,
    watch: ObserverNo,
    column: Column,
    change: Step,
    run: Step,
) -> Result<Vec<Step>, Unready> {
    let cell = Cell::Data(Row(7), column);
    let ack = Cell::Ack(watch, Row(7), column);
    Ok(vec![in alloc;
        Step::Begin(Work::Script),
        change,
        Step::Prewrite(Ts(1), cell),
        Step::Stamp(Ts(1)),
        Step::CommitPrimary(Ts(1)),
        Step::NextMark(None),
        Step::Begin(Work::Run(watch, Row(7))),
        Step::Read(Ts(3), cell),
        Step::Read(Ts(3), ack),
        run,
        Step::Sweep(cell),
        Step::Prewrite(Ts(3), ack),
        Step::Stamp(Ts(3)),
        Step::CommitPrimary(Ts(3)),
        Step::Sweep(cell),
        Step::NextMark(None),
    ]?)
}

// The steps of a change, and of a run of this program on it.
fn steps_of(
    alloc: Global,
    program: &Arc<Accepted>,
    refusals: &mut Refusals,
) -> Result<Vec<Step>, Unready> {
    let watch = observer_number()?;
    let column = column()?;
    let cell = Cell::Data(Row(7), column);
    let change = declares(alloc, Ts(1), batch(alloc)?)?;
    let run = declares_run(alloc, watch, program, &cell, refusals)?;
    run_steps(alloc, watch, column, change, run)
}

/// `Shared::call` with the steps of an observer's run, and what is marked before it commits and after.
pub fn runs_are_declared(alloc: Global, refusals: &mut Refusals) -> Result<bool, Unready> {
    let program = Arc::new(alloc, program(alloc)?)?;
    let steps = steps_of(alloc, &program, refusals)?;
    let mut twins = open_twins(alloc, &program)?;
    let held = call_all(&mut twins, &steps, refusals)
        && twins.shared.marks() == 0
        && twins.shared.locks() == 0;
    close(twins);
    Ok(held)
}
