//! Times workers: with the words `WORKERS COUNT ROWS SWAPS` so many workers, 1 to 63, make so many changes, each of one
//! cell: with `spread` of a row of its own, with `one` all of one row. Meanwhile so many tablets are replaced, up to 1,000. With
//! `busy` as a fifth word the manifest has an observer that copies each change, with `long` one whose run does 4,096 slots. It
//! prints how many calls were answered by a conflict, and how many changes are unfinished, where no seat was refused a step, the
//! report is written, and no mark and no lock is left.
#![tactic(auto)]

ghost use Rattle.std.specs.Prelude.{◌≤◌, ◌<◌, IfOk};
ghost use Rattle.pb_core.specs.Calls.{AreSeats};

use pb_base::{Batch, MAX_ENTRIES, NoMemory, Out, Ts};
use pb_core::{Seat, Shared};
use pb_memtablet::EitherTablet;
use pb_script::report;
use pb_steps::Answer;
use pb_threads::{Open, Worked};
use std::alloc::Global;
use std::sync::Wait;
use std::thread::Threads;
use test_crew::worked_on;
use test_fixtures::{
    COPY, Unready, batches_of, observers_of, open_table_over, spares_of, table_of,
};

const NONE: &str = "{\"profile\":1,\"observers\":[]}";

// How often the long program adds 1 to register 0: with the move before and the exit after it has 4,096 slots.
const SUMS: u32 = 4_094;

// What the observer does, if there is one.
#[derive(Clone, Copy)]
enum Load {
    Nothing,
    Copies,
    Long,
}

// What is to be done, and by how many.
#[derive(Drop)]
struct Task {
    workers: u32,
    count: u32,
    is_spread: bool,
    swaps: u32,
    load: Load,
    ghost some: { 1 ≤ workers },
    ghost few: { workers < 64 },
}

// What was met.
#[derive(Clone, Copy, Drop)]
struct Met {
    conflicts: usize,
    unfinished: usize,
}

fn script(alloc: Global, count: u32, is_spread: bool) -> Result<String, NoMemory> {
    let mut text = String::new(alloc);
    for n in 0..count {
        let row = if is_spread {
            u64::from(n) * 48_271 % 2_147_483_647
        } else {
            0
        };
        writeln!(text, "put {row} 0 2a")?;
    }
    Ok(text)
}

// The manifest of one observer of column 0, whose straight program does each of its slots: `mov64 r0, 0`, the sums, `exit`.
fn long_manifest(alloc: Global) -> Result<String, NoMemory> {
    let mut text = String::from_str(
        alloc,
        "{\"profile\":2,\"observers\":[{\"name\":\"long\",\"column\":0,\"helpers\":[],\"code\":\"b700000000000000",
    )?;
    for _sum in 0..SUMS {
        text.push_str("0700000001000000")?;
    }
    text.push_str("9500000000000000\"}]}")?;
    Ok(text)
}

fn manifest_of(alloc: Global, load: Load) -> Result<String, NoMemory> {
    match load {
        Load::Nothing => Ok(String::from_str(alloc, NONE)?),
        Load::Copies => Ok(String::from_str(alloc, COPY)?),
        Load::Long => long_manifest(alloc),
    }
}

// How many calls of these seats were answered by a conflict.
fn conflicts_in(seats: &[Seat]) -> usize {
    let mut count: usize = 0;
    for seat in seats {
        for received in seat.received() {
            if received.answer() == Answer::Conflict {
                count = count.saturating_add(1);
            }
        }
    }
    count
}

// What the workers met, where nothing was refused and nothing is left to do.
fn met_by(alloc: Global, worked: Worked<EitherTablet>) -> Option<Met> {
    let Worked {
        shared,
        seats,
        refusals,
        unfinished,
    } = worked;
    let mut sink = Out::new(Vec::new(alloc));
    let is_written = report(alloc, &mut sink, &shared).is_ok();
    let is_left = shared.marks() > 0 || shared.locks() > 0;
    shared.close();
    if !is_written || is_left || refusals.iter().any(|refusal| refusal.is_some()) {
        return None;
    }
    Some(Met {
        conflicts: conflicts_in(&seats),
        unfinished: unfinished.len(),
    })
}

fn batches_for(alloc: Global, task: &Task) -> Result<Vec<Batch>, Unready> {
    let text = script(alloc, task.count, task.is_spread)?;
    batches_of(alloc, &text)
}

// The table and the seats of a task.
fn open_for(alloc: Global, task: &Task) -> Result<(Shared<EitherTablet>, Vec<Seat>), Unready>
    ensures { IfOk result (λ s. AreSeats s.0 s.1.items) }
{
    let manifest = manifest_of(alloc, task.load)?;
    let observers = observers_of(alloc, &manifest)?;
    let table = table_of(alloc, &[false, true])?;
    open_table_over(
        alloc,
        table,
        observers,
        task.workers + 1,
        Ts(0),
        MAX_ENTRIES,
    )
}

// The workers make the changes.
fn do_task<R: Threads + Wait + Sync>(
    rt: &R,
    alloc: Global,
    task: &Task,
) -> Result<Option<Met>, Unready> {
    let batches = batches_for(alloc, task)?;
    let spares = spares_of(alloc, [false, true], task.swaps as usize)?;
    let (shared, seats) = open_for(alloc, task)?;
    let worked = worked_on(rt, alloc, shared, seats, batches, spares, &Open)?;
    Ok(met_by(alloc, worked))
}

fn is_spread(word: &str) -> Option<bool> {
    match word {
        "spread" => Some(true),
        "one" => Some(false),
        _ => None,
    }
}

fn load_in(words: &[String]) -> Option<Load> {
    let Some(word) = words.first() else {
        return Some(Load::Nothing);
    };
    match word.as_str() {
        "busy" => Some(Load::Copies),
        "long" => Some(Load::Long),
        _ => None,
    }
}

// What the words after the crate's own ask for.
fn task_in(words: &[String]) -> Option<Task> {
    let [_, workers, count, rows, swaps, more @ ..] = words else {
        return None;
    };
    let workers = workers.as_str().parse::<u32>().ok()?;
    let count = count.as_str().parse::<u32>().ok()?;
    let is_spread = is_spread(rows.as_str())?;
    let swaps = swaps.as_str().parse::<u32>().ok()?;
    let load = load_in(more)?;
    if workers < 1 || workers > 63 {
        return None;
    }
    Some(Task {
        workers,
        count,
        is_spread,
        swaps,
        load,
    })
}

/// Whether what these words ask for, the crate's own first, was done and printed; none where they ask for nothing, or there is
/// no memory.
pub fn is_done<R: Threads + Wait + Sync>(
    threads: &R,
    rt: &HostRuntime,
    words: &[String],
) -> Option<bool> {
    let task = task_in(words)?;
    let Met {
        conflicts,
        unfinished,
    } = do_task(threads, rt.alloc(), &task).ok()??;
    Some(println!(rt; "{conflicts} {unfinished}").is_ok())
}
