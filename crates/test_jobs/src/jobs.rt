//! Jobs: changes and runs.
ghost use Rattle.std.specs.Prelude.{◌≤◌, length, IfOk};

use pb_accepted::{Accepted, Observer};
use pb_base::{Batch, Column, Content, NoMemory, ObserverNo, Row};
use pb_core::{Seat, Shared};
use pb_helpers::{HelperTable, Version};
use pb_isa::Profile;
use pb_notify::ObserverJob;
use pb_registry::accept_in;
use pb_store::Tablet;
use pb_txn::ChangeJob;
use std::alloc::Global;
use std::sync::Arc;

/// The byte 2a and 31 zeros.
const VALUE: [u8; 32] = [
    42, 0, 0, 0, 0, 0, 0, 0, 0, 0, 0, 0, 0, 0, 0, 0, 0, 0, 0, 0, 0, 0, 0, 0, 0, 0, 0, 0, 0, 0, 0, 0,
];

/// A change by seat 0, or a run by the seat of this place.
#[derive(Drop)]
pub enum Job {
    Change(ChangeJob),
    Run(usize, ObserverJob),
}

/// The number that a digit stands for.
pub fn number_of(digit: u8) -> u8 {
    digit.wrapping_sub(b'0')
}

// The change that writes the value to the columns of these digits in row 7.
fn change_of(alloc: Global, digits: &[u8]) -> Option<ChangeJob> {
    let mut writes = Vec::new(alloc);
    for digit in digits {
        let column = Column::new(number_of(*digit))?;
        writes.push((Row(7), column, Content::Value(VALUE))).ok()?;
    }
    let batch = Batch::new(writes).ok()?;
    ChangeJob::new(alloc, batch).ok()
}

fn run_of(program: &Arc<Accepted>) -> Option<ObserverJob> {
    let (first, column) = (ObserverNo::new(0)?, Column::new(0)?);
    let program = Arc::try_clone(program).ok()?;
    Some(ObserverJob::new(first, program, Row(7), column))
}

// The job of a task.
fn job_of(alloc: Global, task: &[u8], program: &Arc<Accepted>) -> Option<Job> {
    match task {
        [b'c', columns @ ..] => Some(Job::Change(change_of(alloc, columns)?)),
        [b'r', seat] => Some(Job::Run(usize::from(number_of(*seat)), run_of(program)?)),
        _ => None,
    }
}

/// The jobs of tasks.
pub fn jobs_of(alloc: Global, tasks: &str, program: &Arc<Accepted>) -> Option<Vec<Job>> {
    let mut jobs = Vec::new(alloc);
    for task in tasks.split_whitespace() {
        jobs.push(job_of(alloc, task.as_bytes(), program)?).ok()?;
    }
    Some(jobs)
}

// The program of these digits, which may call all helpers.
fn program_of(alloc: Global, digits: &str) -> Option<Arc<Accepted>> {
    let (digits, profile, version) = match digits.split_once(":") {
        Some(("2", rest)) => (rest, Profile::Two, Version::Second),
        _ => (digits, Profile::One, Version::First),
    };
    let bytes = hex::decode(alloc, digits).ok()?;
    let program = accept_in(alloc, profile, version, &bytes, HelperTable::all()).ok()?;
    Arc::new(alloc, program).ok()
}

/// The one observer of column 0, with the program of these digits.
pub fn observer_of(alloc: Global, digits: &str) -> Option<Observer> {
    Some(Observer {
        column: Column::new(0)?,
        program: program_of(alloc, digits)?,
        name: String::from_str(alloc, "watch").ok()?,
    })
}

/// A list of that observer alone.
pub fn observers_of(alloc: Global, observer: Observer) -> Result<Vec<Observer>, NoMemory>
    ensures { IfOk result (λ v. length v.items ≤ 32) }
{
    let mut observers = Vec::new(alloc);
    observers.push(observer)?;
    Ok(observers)
}

// Whether the next step of a change is answered.
fn change_calls<T: Tablet>(shared: &mut Shared<T>, seat: &mut Seat, job: &mut ChangeJob) -> bool {
    let Some(step) = job.next() else {
        return false;
    };
    match shared.call(seat, step) {
        Ok(answer) => {
            job.took(answer);
            true
        }
        Err(_) => false,
    }
}

// Whether the next step of a run is answered.
fn run_calls<T: Tablet>(shared: &mut Shared<T>, seat: &mut Seat, job: &mut ObserverJob) -> bool {
    let Some(step) = job.next() else {
        return false;
    };
    match shared.call(seat, step) {
        Ok(answer) => {
            job.took(answer);
            true
        }
        Err(_) => false,
    }
}

// Whether the next step of a job is answered.
fn calls<T: Tablet>(shared: &mut Shared<T>, seats: &mut Vec<Seat>, job: &mut Job) -> bool {
    match job {
        Job::Change(job) => match seats.first_mut() {
            Some(seat) => change_calls(shared, seat, job),
            None => false,
        },
        Job::Run(number, job) => match seats.get_mut(*number) {
            Some(seat) => run_calls(shared, seat, job),
            None => false,
        },
    }
}

/// Whether so many steps of a job are answered.
pub fn all_calls<T: Tablet>(
    shared: &mut Shared<T>,
    seats: &mut Vec<Seat>,
    job: &mut Job,
    count: u32,
) -> bool {
    for _ in 0..count {
        if !calls(shared, seats, job) {
            return false;
        }
    }
    true
}
