//! Runs the program of a file many times.
use pb_accepted::Accepted;
use pb_base::{Cell, Column, Content, NoMemory, Refused, Revision, Row, Ts};
use pb_finished::Finished;
use pb_helpers::{HelperTable, Record, Reply};
use pb_registry::accept;
use pb_verify::VerifyFault;
use pb_vm::{MachinePhase, Vm};
use std::alloc::Global;
use std::fs;
use std::io::Read;
use std::sync::Arc;

// More than a step and a reply for each instruction of the longest program.
const CALLS: u16 = 8_400;

/// How many instructions a run did, and what it left.
#[derive(Drop)]
pub struct Ran {
    pub taken: u16,
    pub finished: Finished,
}

/// Why there is no run to report.
#[derive(Drop)]
pub enum NoRun {
    /// The program is refused.
    Refused(Refused),
    /// There is no such file, no memory, or the runs are none.
    Failed,
}

fn bytes_of(rt: &HostRuntime, path: &str) -> Option<Vec<u8>> {
    let mut bytes = Vec::new(rt.alloc());
    let mut file = fs::open(rt, path).ok()?;
    file.read_to_end(&mut bytes).ok()?;
    Some(bytes)
}

// The record of cell 7 0, which the transaction from 1 to 2 deleted.
fn change() -> Option<Record> {
    let version = Revision {
        start: Ts(1),
        commit: Ts(2),
        content: Content::Deleted,
    };
    Some(Record::new(Cell::Data(Row(7), Column::new(0)?), &version, Ts(0)))
}

// A run at 3 to its end, an instruction a call or up to the next ask, where each cell that it asks for is absent.
fn run(alloc: Global, program: &Arc<Accepted>, is_by_steps: bool) -> Option<Ran> {
    let record = change()?;
    let version = program.version();
    if record.version() != version {
        return None;
    }
    let mut vm = Vm::start(alloc, program, record, Ts(3)).ok()?;
    for _ in 0..CALLS {
        match vm.phase() {
            MachinePhase::Going => {
                if is_by_steps {
                    vm.step();
                } else {
                    vm.follow();
                }
            }
            MachinePhase::Asking(_) => vm.reply(Reply::Absent),
            MachinePhase::Over(_) => break,
        }
    }
    let taken = vm.taken();
    match vm.phase() {
        MachinePhase::Over(_) => Some(Ran {
            taken,
            finished: vm.finish(),
        }),
        _ => None,
    }
}

/// The last of so many runs of the program in a file, with all helpers: step by step, or up to each ask.
pub fn last_of(rt: &HostRuntime, path: &str, runs: u32, is_by_steps: bool) -> Result<Ran, NoRun> {
    let Some(bytes) = bytes_of(rt, path) else {
        return Err(NoRun::Failed);
    };
    let accepted = match accept(rt.alloc(), &bytes, HelperTable::all()) {
        Ok(accepted) => accepted,
        Err(VerifyFault::Refused(refused)) => return Err(NoRun::Refused(refused)),
        Err(VerifyFault::NoMemory(_)) => return Err(NoRun::Failed),
    };
    let Ok(program) = Arc::new(rt.alloc(), accepted) else {
        return Err(NoRun::Failed);
    };
    let mut last = None;
    for _ in 0..runs {
        last = run(rt.alloc(), &program, is_by_steps);
    }
    match last {
        Some(ran) => Ok(ran),
        None => Err(NoRun::Failed),
    }
}
