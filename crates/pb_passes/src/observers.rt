//! The observers of a marked cell, and the job of one.
ghost use Rattle.std.specs.Prelude.{◌≡◌, ◌<◌, true, false, length, IfOk};
ghost use Rattle.pb_passes.specs.Passes.{HasColumn, IsJobOn, IsOfOther};

use pb_accepted::Observer;
use pb_base::{Cell, NoMemory, ObserverNo};
use pb_notify::ObserverJob;
use std::sync::Arc;

/// Whether the observer of this number is one of the cell's column.
pub fn is_observer_of(observers: &[Observer], place: usize, cell: &Cell) -> bool
    requires { place < length observers.now }
    ensures is { result ≡ true → HasColumn observers.now place cell.now }
    ensures isnt { result ≡ false → IsOfOther observers.now place cell.now }
{
    let observer = &observers[place];
    observer.column == cell.column()
}

/// The run of an observer on a cell of its column, before its first step.
pub fn job_on(
    observers: &[Observer],
    number: ObserverNo,
    cell: Cell,
) -> Result<ObserverJob, NoMemory>
    requires { number < length observers.now }
    ensures { IfOk result (IsJobOn observers.now number cell) }
{
    let observer = &observers[number.number() as usize];
    let program = Arc::try_clone(&observer.program)?;
    Ok(ObserverJob::new(number, program, cell.row(), observer.column))
}
