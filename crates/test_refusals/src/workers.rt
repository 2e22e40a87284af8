//! Runs of workers.
ghost use Rattle.std.specs.Prelude.{IfOk};
ghost use Rattle.pb_core.specs.Calls.{AreSeats};

use crate::page::Page;
use crate::reports::is_reported;
use crate::runs::SCRIPT;
use crate::worlds::used;
use pb_base::{Batch, MAX_ENTRIES, Refusal};
use pb_core::{Seat, Shared};
use pb_ending::finish;
use pb_memtablet::EitherTablet;
use pb_parse::parse_script;
use pb_steps::{Answer, Phase, Work};
use pb_store::Tablet;
use pb_threads::{NotRun, Open, Worked, run_workers};
use std::alloc::Global;
use std::sync::Wait;
use std::thread::Threads;
use test_fixtures::{Unready, spares_of};
use test_growths::refusals::Refusals;
use test_growths::same::{are_alike, are_shared_same};
use test_growths::twins::SORTS;

// What happens before: a run that only begins, with timestamp 1, and a sweep by the main seat, so
// that both seats have received something.
const BEFORE: &str = "launch 1 run watch 7\nstep 1\ncrash 1\nsweep 7 0\n";

// What the script leaves. Its changes take 2 to 5; the runs on the two cells of column 0, which each delete cell 5 15, take
// 6 to 9.
const REPORT: &[u8] =
    b"cell 5 15 commit 9 deleted\ncell 7 0 commit 3 value 2a\ncell 7 1 commit 5 deleted\ncell 8 0 commit 5 value 0b\nruns watch 2\nquiet\n";

// Its journal: there are two entries before; the changes have five and seven; a pass asks three times for a mark, and makes two
// runs of eleven, each of which asks for a cell and deletes one; and the worker and the main seat each ask for a mark once more.
const ENTRIES: usize = 41;

// What is left: all that the script makes; or what one seat left that was refused a growth; or something else.
#[derive(Clone, Copy, PartialEq, Eq, Drop)]
enum Remains {
    Whole,
    Short,
    Wrong,
}

fn batches(alloc: Global) -> Result<Vec<Batch>, Unready> {
    Ok(parse_script(alloc, SCRIPT)?)
}

// A used table with an observer, and two seats. Its journal has room for all passes: the lock that a refused run leaves on cell
// 5 15 is in the way of each later run, since nobody reads that cell.
fn open_used_table(alloc: Global) -> Result<(Shared<EitherTablet>, Vec<Seat>), Unready>
    ensures { IfOk result (λ s. AreSeats s.0 s.1.items) }
{
    used(alloc, BEFORE, 2, MAX_ENTRIES)
}

// Whether both have the same places, each with an empty tablet of the same sort.
fn are_spares_same(a: &[(usize, EitherTablet)], b: &[(usize, EitherTablet)]) -> bool {
    if a.len() != b.len() {
        return false;
    }
    for (spare, other) in a.iter().zip(b) {
        let is_slab = matches!(&spare.1, EitherTablet::Slab(_));
        let is_empty = spare.1.is_empty() && spare.1.len() == 0;
        if spare.0 != other.0 || is_slab != matches!(&other.1, EitherTablet::Slab(_)) || !is_empty {
            return false;
        }
    }
    true
}

// Whether all that was handed in comes back, as it was, with so many spares.
fn are_handed_back(
    alloc: Global,
    handed: &NotRun<EitherTablet>,
    count: usize,
) -> Result<bool, Unready> {
    let batches = batches(alloc)?;
    let spares = spares_of(alloc, SORTS, count)?;
    let (shared, seats) = open_used_table(alloc)?;
    let held = are_shared_same(&handed.shared, &shared)
        && are_alike(&handed.seats, &seats)
        && are_alike(&handed.batches, &batches)
        && are_spares_same(&handed.spares, &spares);
    shared.close();
    Ok(held)
}

// How many changes are committed.
fn committed_changes(shared: &Shared<EitherTablet>) -> usize {
    let mut count: usize = 0;
    for entry in shared.journal() {
        if let Answer::At(start) = entry.call().answer()
            && matches!(entry.call().begins(), Some(Work::Script))
            && matches!(shared.phase(start), Some(Phase::Committed(_)))
        {
            count = count.saturating_add(1);
        }
    }
    count
}

// What an accepted table shows.
fn remains_of(
    alloc: Global,
    shared: &Shared<EitherTablet>,
    seats: &[Option<Refusal>],
    unfinished: &[usize],
    refusals: &mut Refusals,
) -> Remains {
    let mut page = Page::new();
    if !is_reported(alloc, shared, &mut page, refusals) {
        return Remains::Wrong;
    }
    match seats {
        [None, None] => {
            let is_whole = unfinished.is_empty() && shared.journal().len() == ENTRIES;
            if is_whole && page.holds(REPORT) {
                Remains::Whole
            } else {
                Remains::Wrong
            }
        }
        [None, Some(refusal)] | [Some(refusal), None] if refusal.code() == 1 => {
            refusals.note("run_workers, a seat");
            let unmade = 2usize.saturating_sub(committed_changes(shared));
            if unfinished.len() == unmade {
                Remains::Short
            } else {
                Remains::Wrong
            }
        }
        _ => Remains::Wrong,
    }
}

// What workers left.
fn left_by(alloc: Global, worked: Worked<EitherTablet>, refusals: &mut Refusals) -> Remains {
    let Worked {
        shared,
        seats,
        refusals: told,
        unfinished,
    } = worked;
    match finish(shared, seats) {
        Ok(ended) => {
            let left = remains_of(alloc, ended.shared(), &told, &unfinished, refusals);
            ended.close();
            left
        }
        Err((shared, _seats)) => {
            shared.close();
            Remains::Wrong
        }
    }
}

// What is left where a run is made again with what was handed back.
fn left_again<R: Threads + Wait + Sync>(
    rt: &R,
    alloc: Global,
    handed: NotRun<EitherTablet>,
    count: usize,
    refusals: &mut Refusals,
) -> Remains
    requires { AreSeats handed.shared handed.seats.items }
{
    let held = are_handed_back(alloc, &handed, count);
    let NotRun {
        shared,
        seats,
        batches,
        spares,
        refused: _,
    } = handed;
    if held != Ok(true) || seats.len() < 2 {
        shared.close();
        return Remains::Wrong;
    }
    match run_workers(rt, alloc, shared, seats, batches, spares, &Open) {
        Ok(worked) => left_by(alloc, worked, refusals),
        Err(
            NotRun {
                shared,
                seats: _,
                batches: _,
                spares: _,
                refused: _,
            },
        ) => {
            shared.close();
            Remains::Wrong
        }
    }
}

// What is left of the script, by one worker, beside so many swaps.
fn remains_of_script<R: Threads + Wait + Sync>(
    rt: &R,
    alloc: Global,
    count: usize,
    refusals: &mut Refusals,
) -> Result<Remains, Unready> {
    let batches = batches(alloc)?;
    let spares = spares_of(alloc, SORTS, count)?;
    let (shared, seats) = open_used_table(alloc)?;
    if seats.len() < 2 {
        shared.close();
        return Ok(Remains::Wrong);
    }
    match run_workers(rt, alloc, shared, seats, batches, spares, &Open) {
        Ok(worked) => Ok(left_by(alloc, worked, refusals)),
        Err(handed) => {
            refusals.note("run_workers");
            Ok(left_again(rt, alloc, handed, count, refusals))
        }
    }
}

/// `run_workers`, beside so many swaps. Refused before the first call, all comes back, and the same call again is whole; refused
/// later, it names the seat, and `finish` accepts what is left. On a table of its own it is whole then.
pub fn workers_run<R: Threads + Wait + Sync>(
    rt: &R,
    alloc: Global,
    count: usize,
    refusals: &mut Refusals,
) -> Result<bool, Unready> {
    match remains_of_script(rt, alloc, count, refusals)? {
        Remains::Whole => Ok(true),
        Remains::Short => Ok(remains_of_script(rt, alloc, count, refusals)? == Remains::Whole),
        Remains::Wrong => Ok(false),
    }
}
