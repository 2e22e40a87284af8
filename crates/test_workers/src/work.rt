//! Workers that do a task.
ghost use Rattle.std.specs.Prelude.{◌≡◌, IfOk};
ghost use Rattle.pb_core.specs.Calls.{AreSeats};
ghost use Rattle.pb_store.specs.Contents.{nothing};

use crate::task::Task;
use pb_base::{MAX_ENTRIES, Row, Ts};
use pb_core::{Seat, Shared};
use pb_store::Table;
use pb_threads::{Gate, Worked};
use std::alloc::Global;
use std::sync::Wait;
use std::thread::Threads;
use test_crew::worked_on;
use test_fixtures::{CountedTablet, Unready, batches_of, observers_of, open_table_over};

fn table(parts: Vec<(Row, CountedTablet)>) -> Result<Table<CountedTablet>, Unready>
    ensures { IfOk result (λ t. t.contents ≡ nothing) }
{
    match Table::new(parts) {
        Ok(table) => Ok(table),
        Err((_, refusal)) => Err(Unready::from(refusal)),
    }
}

// A table of these tablets that is opened for a task, and its seats.
fn open_for(
    alloc: Global,
    task: &Task,
    parts: Vec<(Row, CountedTablet)>,
) -> Result<(Shared<CountedTablet>, Vec<Seat>), Unready>
    ensures { IfOk result (λ s. AreSeats s.0 s.1.items) }
{
    if task.workers < 1 || task.workers > 63 || task.limit > MAX_ENTRIES {
        return Err(Unready::Other("the task isn't in range"));
    }
    let observers = observers_of(alloc, task.manifest)?;
    let table = table(parts)?;
    open_table_over(
        alloc,
        table,
        observers,
        task.workers + 1,
        Ts(task.last),
        task.limit,
    )
}

/// What workers leave who do a task on a table of these tablets, beside swaps of these spares.
pub fn do_work<R: Threads + Wait + Sync, G: Gate>(
    rt: &R,
    alloc: Global,
    task: &Task,
    parts: Vec<(Row, CountedTablet)>,
    spares: Vec<(usize, CountedTablet)>,
    gate: &G,
) -> Result<Worked<CountedTablet>, Unready> {
    let batches = batches_of(alloc, task.script)?;
    let (shared, seats) = open_for(alloc, task, parts)?;
    worked_on(rt, alloc, shared, seats, batches, spares, gate)
}
