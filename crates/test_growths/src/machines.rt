//! Machines, also of the program in a file.
use crate::refusals::Refusals;
use pb_accepted::Accepted;
use pb_base::{Cell, Column, Content, Revision, Row, Ts};
use pb_finished::Finished;
use pb_helpers::{HelperTable, Record, Reply};
use pb_registry::accept;
use pb_vm::{MachinePhase, Vm};
use std::alloc::Global;
use std::fs;
use std::io::Read;
use std::sync::Arc;
use test_fixtures::Unready;

/// The record of a cell that was deleted at 2.
pub fn change(cell: Cell) -> Record {
    let version = Revision {
        start: Ts(1),
        commit: Ts(2),
        content: Content::Deleted,
    };
    Record::new(cell, &version, Ts(0))
}

// A machine of a program on that record, which is of its version, for a run at 3.
fn start_once(alloc: Global, program: &Arc<Accepted>, cell: &Cell) -> Result<Vm, Unready> {
    let version = program.version();
    let record = change(*cell);
    if record.version() != version {
        return Err(Unready::Other("there is no record of its version"));
    }
    Ok(Vm::start(alloc, program, record, Ts(3))?)
}

/// A machine of a program on that record, for a run at 3. Where it is refused once, the same call again starts it.
pub fn start_machine(
    alloc: Global,
    program: &Arc<Accepted>,
    cell: &Cell,
    refusals: &mut Refusals,
) -> Option<Vm> {
    match start_once(alloc, program, cell) {
        Ok(vm) => Some(vm),
        Err(_) => {
            refusals.note("Vm::start");
            start_once(alloc, program, cell).ok()
        }
    }
}

/// What a machine leaves at its end, and after how many instructions, where each cell that it asks for is absent. It takes no
/// memory.
pub fn run_to_end(vm: Vm) -> Option<(Finished, u16)> {
    let mut vm = vm;
    for _ in 0..1_024u32 {
        match vm.phase() {
            MachinePhase::Going => {
                vm.step();
            }
            MachinePhase::Asking(_) => vm.reply(Reply::Absent),
            MachinePhase::Over(_) => {}
        }
    }
    let taken = vm.taken();
    match vm.phase() {
        MachinePhase::Over(_) => Some((vm.finish(), taken)),
        _ => None,
    }
}

// The program of a file, with all helpers.
fn program_in(rt: &HostRuntime, path: &str) -> Result<Arc<Accepted>, Unready> {
    let mut bytes = Vec::new(rt.alloc());
    let Ok(mut file) = fs::open(rt, path) else {
        return Err(Unready::Other("the file can't be opened"));
    };
    if file.read_to_end(&mut bytes).is_err() {
        return Err(Unready::Other("the file can't be read"));
    }
    let program = accept(rt.alloc(), &bytes, HelperTable::all())?;
    Ok(Arc::new(rt.alloc(), program)?)
}

fn started_in(
    rt: &HostRuntime,
    path: &str,
    refusals: &mut Refusals,
) -> Result<Option<Vm>, Unready> {
    let Some(column) = Column::new(0) else {
        return Ok(None);
    };
    let program = program_in(rt, path)?;
    let cell = Cell::Data(Row(7), column);
    Ok(start_machine(rt.alloc(), &program, &cell, refusals))
}

/// Whether a machine of the program in a file stands on entry.
pub fn file_starts(rt: &HostRuntime, path: &str, refusals: &mut Refusals) -> Result<bool, Unready> {
    match started_in(rt, path, refusals)? {
        Some(vm) => Ok(vm.phase() == MachinePhase::Going && vm.taken() == 0),
        None => Ok(false),
    }
}

/// Whether a machine of the program in a file comes to its end after so many instructions.
pub fn file_runs(
    rt: &HostRuntime,
    path: &str,
    count: u16,
    refusals: &mut Refusals,
) -> Result<bool, Unready> {
    let Some(vm) = started_in(rt, path, refusals)? else {
        return Ok(false);
    };
    match run_to_end(vm) {
        Some((finished, taken)) => Ok(finished.start() == Ts(3) && taken == count),
        None => Ok(false),
    }
}
