//! Workers that tests begin with. It stands apart from what other tests begin with, so that those needn't wait for workers.
#![tactic(auto)]

ghost use Rattle.pb_core.specs.Calls.{AreSeats};

use pb_base::Batch;
use pb_core::{Seat, Shared};
use pb_store::Tablet;
use pb_threads::{Gate, NotRun, Worked, run_workers};
use std::alloc::Global;
use std::sync::Wait;
use std::thread::Threads;
use test_fixtures::Unready;

/// What workers leave who make these changes beside swaps of these spares. Where they can't begin, the table is closed.
pub fn worked_on<R: Threads + Wait + Sync, T: Tablet + Send + Drop, G: Gate>(
    rt: &R,
    alloc: Global,
    shared: Shared<T>,
    seats: Vec<Seat>,
    batches: Vec<Batch>,
    spares: Vec<(usize, T)>,
    gate: &G,
) -> Result<Worked<T>, Unready>
    requires { AreSeats shared seats.items }
{
    if seats.len() < 2 {
        shared.close();
        return Err(Unready::Other("a run has two seats at least"));
    }
    match run_workers(rt, alloc, shared, seats, batches, spares, gate) {
        Ok(worked) => Ok(worked),
        Err(
            NotRun {
                shared,
                seats: _,
                batches: _,
                spares: _,
                refused,
            },
        ) => {
            shared.close();
            Err(Unready::NoMemory(refused))
        }
    }
}
