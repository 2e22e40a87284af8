//! A run of workers, from its texts to its report.
ghost use Rattle.std.specs.Prelude.{◌≡◌, ◌<◌, ◌≤◌, false, length, vec_len};
ghost use Rattle.pb_base.specs.declared.limits.TheConstants.{MAX_SEATS};
ghost use Rattle.pb_store.specs.Contents.{nothing};
ghost use Rattle.pb_core.specs.Calls.{AreSeats};
ghost use Rattle.pb_threads.specs.Swaps.{spares_of};
ghost use Rattle.pb_base.specs.Taking.{taking};
ghost use Rattle.pb_driver.specs.Runs.{Concludes, RunsOnTable, RunsTexts};

use crate::fault::RunFault;
use crate::replay::unopened;
use crate::texts::read_run;
use pb_base::{Batch, MAX_ENTRIES, Refusal, Sink, Ts};
use pb_core::{Seat, Shared};
use pb_ending::finish;
use pb_script::report;
use pb_store::{Table, Tablet};
use pb_threads::{NotRun, Open, Worked, end_spares, run_workers};
use pb_worker::changes_are_made;
use std::alloc::Global;
use std::sync::Wait;
use std::thread::Threads;

/// What a run left undone, where its report was written.
#[derive(Drop)]
pub struct Ran {
    /// The first refusal of each seat, the main one first.
    pub refusals: Vec<Option<Refusal>>,
    /// The changes of which no try committed, by their numbers from 0, in order.
    pub unfinished: Vec<usize>,
}

// Writes the report of a table whose seats agree with its journal, and ends the table. They are compared first, so that
// nothing is reported of a journal that a seat doesn't know.
fn conclude<T: Tablet, S: Sink>(
    alloc: Global,
    worked: Worked<T>,
    sink: &mut S,
) -> Result<Ran, RunFault>
    requires unfailed { S.failed sink.old ≡ false }
    ensures { Concludes (record {
      table = worked.shared;
      seats = worked.seats.items;
      refusals = worked.refusals.items;
      unfinished = worked.unfinished.items;
    })
        (taking S.taken S.failed sink.old sink.new) result }
{
    let Worked {
        shared,
        seats,
        refusals,
        unfinished,
    } = worked;
    match finish(shared, seats) {
        Ok(ended) => {
            // The seats end before the report is made, so that it takes the room that their lists had.
            let shared = ended.into_shared();
            // For the proof: the journal is legal.
            shared.known();
            let outcome = report(alloc, sink, &shared);
            shared.close();
            match outcome {
                Ok(()) => Ok(Ran {
                    refusals,
                    unfinished,
                }),
                Err(fault) => Err(fault.into()),
            }
        }
        Err((shared, _seats)) => {
            shared.close();
            Err(RunFault::SeatsDiffer)
        }
    }
}

// Has workers make the changes on a table as opened, and writes the report of what they left.
fn run_on<R: Threads + Wait + Sync, T: Tablet + Send, S: Sink>(
    rt: &R,
    alloc: Global,
    shared: Shared<T>,
    seats: Vec<Seat>,
    batches: Vec<Batch>,
    spares: Vec<(usize, T)>,
    sink: &mut S,
) -> Result<Ran, RunFault>
    requires seated { AreSeats shared seats.items }
    requires some { 1 < vec_len seats }
    requires unfailed { S.failed sink.old ≡ false }
    ensures { RunsOnTable shared seats.items batches.items (spares_of T.contents spares.items)
        (taking S.taken S.failed sink.old sink.new) result }
{
    // For the proof: where the seats agree, the journal's committed changes are those that aren't named as unfinished.
    changes_are_made();
    match run_workers(rt, alloc, shared, seats, batches, spares, &Open) {
        Ok(worked) => conclude(alloc, worked, sink),
        Err(
            NotRun {
                shared,
                seats: _,
                batches: _,
                spares,
                refused,
            },
        ) => {
            // Nothing was started, so that table and spares are ended here.
            shared.close();
            end_spares(spares);
            Err(RunFault::NoMemory(refused))
        }
    }
}

/// Has so many workers make a script's changes and run a manifest's observers on them, over an empty table with a seat for
/// each worker and the main one and `last` the last timestamp given out, and writes the report of what they left. While they
/// run, the spares are swapped in, each at its place.
///
/// Returns the first fault: the manifest's, the script's, seats that differ from the journal, a
/// failed write, or want of memory. A worker that was refused, and a change that no try committed,
/// are no fault of the run: they are returned in [`Ran`], and the report is written all the same.
/// It ends the table and the spares on every path. The journal is legal, its entries of each seat
/// are that seat's list, and its committed script transactions are exactly the changes that aren't
/// named as unfinished, each once. But for a report or its beginning nothing is written.
pub fn run_texts<R: Threads + Wait + Sync, T: Tablet + Send, S: Sink>(
    rt: &R,
    alloc: Global,
    manifest: &str,
    script: &str,
    workers: u32,
    table: Table<T>,
    spares: Vec<(usize, T)>,
    last: Ts,
    sink: &mut S,
) -> Result<Ran, RunFault>
    requires some { 1 ≤ workers }
    requires few { workers < MAX_SEATS }
    requires empty { table.contents ≡ nothing }
    requires unfailed { S.failed sink.old ≡ false }
    ensures { RunsTexts (length table.firsts) manifest.now script.now workers last.0
        (spares_of T.contents spares.items)
        (taking S.taken S.failed sink.old sink.new) result }
{
    let (observers, batches) = match read_run(alloc, manifest, script) {
        Ok(texts) => texts,
        Err(fault) => {
            table.close();
            end_spares(spares);
            return Err(fault);
        }
    };
    // A seat for each worker, and the main one, which makes passes once they have ended.
    match Shared::open(alloc, table, observers, workers + 1, last, MAX_ENTRIES) {
        Ok((shared, seats)) => run_on(rt, alloc, shared, seats, batches, spares, sink),
        Err(refused) => {
            end_spares(spares);
            Err(unopened(refused))
        }
    }
}
