//! One program: it is refused at one of its slots, or accepted and run to its end.
use pb_accepted::Accepted;
use pb_base::{Cell, Column, Content, NoMemory, Refused, Revision, Row, Ts, Value};
use pb_helpers::{HelperTable, Record, Reply, Version};
use pb_isa::Profile;
use pb_registry::accept_in;
use pb_verify::VerifyFault;
use pb_vm::{MachinePhase, Vm};
use std::alloc::{AllocError, AllocFailed, Global};
use std::sync::Arc;
use thiserror::Error;

// The value that the change put, and the one of each cell that is found.
const PUT: Value = [42; 32];

const FOUND: Value = [17; 32];

/// What of a program isn't as it has to be, or that memory was refused.
#[derive(Debug, Drop, Error)]
pub enum Fault {
    #[error("{0}")]
    NoMemory(NoMemory),
    #[error("there is no change record for it")]
    NoRecord,
    #[error("{0}, as no program of its length is")]
    Verdict(Refused),
    #[error("no end after as many instructions as it has slots")]
    NoEnd,
    #[error("{0} instructions were done, and {1} are told")]
    Count(u64, u16),
}

impl From<NoMemory> for Fault {
    fn from(e: NoMemory) -> Fault {
        Fault::NoMemory(e)
    }
}

impl From<AllocError> for Fault {
    fn from(e: AllocError) -> Fault {
        Fault::NoMemory(NoMemory::from(e))
    }
}

impl<T: Drop> From<AllocFailed<T>> for Fault {
    fn from(e: AllocFailed<T>) -> Fault {
        Fault::NoMemory(NoMemory::from(e))
    }
}

/// How a program was judged, and how many runs of an accepted one came to their end.
#[derive(Clone, Copy)]
pub enum Verdict {
    Refused,
    Accepted(u64),
}

// Whether a program of so many bytes may be refused so: at one of its slots, for its bytes or by the rules.
fn is_verdict(refused: &Refused, len: usize) -> bool {
    (refused.slot as usize) < len / 8 && matches!(refused.code, 12..=16 | 21..=38)
}

// The record, of a version, of a change that put a value to cell 7 0, with nothing acknowledged.
fn change(version: Version) -> Option<Record> {
    let found = Revision {
        start: Ts(1),
        commit: Ts(2),
        content: Content::Value(PUT),
    };
    let cell = Cell::Data(Row(7), Column::new(0)?);
    Some(Record::of_version(version, cell, &found, Ts(0), None))
}

// A machine of a program on that record, for a run at 3.
fn start(alloc: Global, program: &Arc<Accepted>) -> Result<Vm, Fault> {
    let version = program.version();
    let Some(change) = change(version) else {
        return Err(Fault::NoRecord);
    };
    if change.version() != version {
        return Err(Fault::NoRecord);
    }
    Ok(Vm::start(alloc, program, change, Ts(3))?)
}

// Does one instruction, with this reply where it asks for a cell.
fn do_one(vm: &mut Vm, reply: Reply) {
    if let MachinePhase::Going = vm.phase() {
        vm.step();
    }
    if let MachinePhase::Asking(_) = vm.phase() {
        vm.reply(reply);
    }
}

// After how many instructions a machine is at its end, of at most so many.
fn end_of(vm: &mut Vm, most: usize, reply: Reply) -> Option<usize> {
    for done in 0..most {
        if let MachinePhase::Over(_) = vm.phase() {
            return Some(done);
        }
        do_one(vm, reply);
    }
    match vm.phase() {
        MachinePhase::Over(_) => Some(most),
        _ => None,
    }
}

// Runs a program, with this reply to all that it asks for.
fn run(alloc: Global, program: &Arc<Accepted>, reply: Reply) -> Result<(), Fault> {
    let mut vm = start(alloc, program)?;
    let Some(done) = end_of(&mut vm, program.slots(), reply) else {
        return Err(Fault::NoEnd);
    };
    if vm.taken() as usize != done {
        return Err(Fault::Count(done as u64, vm.taken()));
    }
    Ok(())
}

// Runs a program with each reply, and returns how many runs these are.
fn runs_of(alloc: Global, program: Accepted) -> Result<u64, Fault> {
    let program = Arc::new(alloc, program)?;
    let mut runs: u64 = 0;
    for reply in [Reply::Absent, Reply::Found(FOUND)] {
        run(alloc, &program, reply)?;
        runs = runs.saturating_add(1);
    }
    Ok(runs)
}

// Judges the program of this code in a profile, for a version of the change record, with all helpers, and runs it where it is
// accepted.
fn judge_in(
    alloc: Global,
    profile: Profile,
    version: Version,
    code: &[u8],
) -> Result<Verdict, Fault> {
    match accept_in(alloc, profile, version, code, HelperTable::all()) {
        Ok(program) => Ok(Verdict::Accepted(runs_of(alloc, program)?)),
        Err(VerifyFault::Refused(refused)) if is_verdict(&refused, code.len()) => {
            Ok(Verdict::Refused)
        }
        Err(VerifyFault::Refused(refused)) => Err(Fault::Verdict(refused)),
        Err(VerifyFault::NoMemory(refused)) => Err(Fault::NoMemory(refused)),
    }
}

/// Judges the program of this code in profile 1 for the first version of the change record, and, where it is refused, in
/// profile 2 for the second.
pub fn judge(alloc: Global, code: &[u8]) -> Result<Verdict, Fault> {
    match judge_in(alloc, Profile::One, Version::First, code)? {
        Verdict::Refused => judge_in(alloc, Profile::Two, Version::Second, code),
        accepted => Ok(accepted),
    }
}
