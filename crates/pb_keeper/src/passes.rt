//! Passes over the marked cells (OSDI 2010, section 2.4), and a change with what follows from it. A drain makes so many runs at
//! most, so that it ends whatever its observers do.
ghost use Rattle.std.specs.Prelude.{◌≡◌, ◌<◌, ◌≤◌, ◌+◌, ◌*◌, ◌-◌, ◌^◌, min, ℕ, ◌∷◌, ◌++◌, [], List, None, true, false, length, IfOk, IfErr, OnErr, OnOk};
ghost use Rattle.std.specs.FinMap as map;
ghost use Rattle.pb_base.specs.Batch.{Writes};
ghost use Rattle.pb_base.specs.Cell.{column_of, rank_of, row_of};
ghost use Rattle.pb_steps.specs.Readings.{last_timestamp};
ghost use Rattle.pb_store.specs.Contents.{IsNextMark};
ghost use Rattle.pb_keeper.specs.Counts.{CountsCommits, commit_count};
ghost use Rattle.pb_keeper.specs.Keeps.{Keeps};
ghost use Rattle.pb_keeper.specs.Stats.{Counted, KeptTable, RanAndDid, kept_table};
ghost use Rattle.pb_notify.specs.Runs.{RunOf};
ghost use Rattle.pb_passes.specs.Passes.{HasColumn, IsJobOn};
ghost use Rattle.pb_keeper.specs.Drains.{end_after, AreRunsThat, HasRuns, IsDrainWithin, IsPassWithEnd, IsTurnThat};
ghost use Rattle.pb_keeper.specs.BrokenOff.{IsOfChange, IsOfRuns};
ghost use Rattle.pb_keeper.specs.Leads.{SaidLeads};
ghost use Rattle.pb_keeper.specs.Made.{IsDrainThat, IsMade, comes_to_rest, runs_within};
ghost use Rattle.pb_keeper.specs.Stops.{WasKept, IsStop, WantsMemory};
ghost use Rattle.pb_keeper.specs.declared.passes.PassEnd.TheVariants as ends;

use crate::change::{Stopped, ask, commit};
use crate::run::{RunDone, run_one};
use crate::stats::{ObserverStats, add_run};
use pb_base::{Batch, Cell, ObserverNo, Ts};
use pb_generations::{jobs_are_in_time, jobs_keep_tables, snapshots_serve};
use pb_history::steps_keep_sound;
use pb_notify::JobEnd;
use pb_passes::{MAX_PASSES, is_observer_of, job_on};
use pb_state::State;
use pb_steps::{Answer, Step};
use pb_store::Tablet;
use pb_txn::Outcome;
use std::alloc::Global;

/// A change that is committed, and what followed from it.
#[derive(Drop)]
pub struct Made {
    pub commit: Ts,
    pub drained: Drained,
}

/// What passes did: how many runs of observers were committed, and whether the last pass found no mark.
#[derive(Clone, Copy)]
pub struct Drained {
    pub runs: u64,
    pub rests: bool,
}

/// How many runs of observers a drain makes at most after a change. There is a limit, since an observer that changes a cell
/// after the one on which it runs is due again in the same pass.
pub const MAX_RUNS: u64 = 100_000;

/// How many entries a run leaves in a table at most: of each of 16 cells that it writes, and of its acknowledgment, the data and
/// the write record.
pub const MAX_RUN_ENTRIES: u64 = 34;

// What the turn of an observer did, or those of all on a cell: how many runs were made, how many of them were committed, and
// whether another was due when no more might be made.
#[derive(Clone, Copy)]
struct RunsMade {
    runs: u64,
    commits: u64,
    is_due: bool,
}

// How a pass ended: it found no mark at all, or some, so that another pass is due, since its runs may have marked cells that it
// had gone by; or a run was due when no more might be made.
#[derive(Clone, Copy)]
enum PassEnd {
    Markless,
    Marked,
    Due,
}

// What a pass did: how many runs were made, how many of them were committed, and how it ended.
#[derive(Clone, Copy)]
struct Passed {
    runs: u64,
    commits: u64,
    end: PassEnd,
}

// Row, column and rank of a cell have 64 bits.
fn fits(cell: &Cell)
    ensures row { (row_of cell.now).0 < 2 ^ 64 }
    ensures column { column_of cell.now < 2 ^ 64 }
    ensures rank { rank_of cell.now < 2 ^ 64 }
{
    let _row = cell.row();
    let _column = cell.column();
    if let Cell::Ack(observer, _, _) = cell {
        let _number = observer.number();
    }
}

// The clock has 64 bits.
fn clock_fits<T: Tablet>(state: &State<T>)
    ensures { state.now.clock < 2 ^ 64 }
{
    let _last = state.clock();
}

// Runs the observer of this number on the cell.
fn run_number<T: Tablet>(
    alloc: Global,
    state: &mut State<T>,
    number: ObserverNo,
    cell: &Cell,
) -> Result<RunDone, Stopped>
    requires within { number < length state.old.observers }
    requires column { HasColumn state.old.observers number cell.now }
    ensures ok { IfOk result (λ ran. (job : RunOf)
        × IsJobOn state.old.observers number cell.now job
        × SaidLeads (RanAndDid job ran.end ran.stats) state.old state.new) }
    ensures err { OnErr result (SaidLeads (IsOfRuns 1) state.old state.new) }
    ensures stops { WasKept state.old → IfErr result (λ e. IsStop e state.new) }
{
    let mut job = match job_on(state.observers(), number, *cell) {
        Ok(job) => job,
        Err(refused) => return Err(Stopped::NoMemory(refused)),
    };
    // For the proof: its row and its column are numbers that a record has room for.
    fits(cell);
    run_one(alloc, state, &mut job)
}

// Runs the observer at this place on the cell, and returns how many runs were committed.
fn run_place<T: Tablet>(
    alloc: Global,
    state: &mut State<T>,
    stats: &mut [ObserverStats],
    place: usize,
    cell: &Cell,
) -> Result<u64, Stopped>
    requires within { place < length state.old.observers }
    requires column { HasColumn state.old.observers place cell.now }
    ensures ok { IfOk result (λ commits. SaidLeads (Counted state.old.observers stats.old stats.new
        (CountsCommits (HasRuns (IsTurnThat state.old.observers cell.now place false) 1) commits))
        state.old state.new) }
    ensures err { OnErr result (SaidLeads (IsOfRuns 1) state.old state.new) }
    ensures stops { WasKept state.old → IfErr result (λ e. IsStop e state.new) }
{
    // For the proof: a table has no more observers than there are numbers.
    let _observers = state.observers();
    let Some(number) = ObserverNo::new(place as u8) else {
        unreachable!()
    };
    let ran = run_number(alloc, state, number, cell)?;
    add_run(stats, place, &ran.stats);
    match ran.end {
        JobEnd::Ran(_) => Ok(1),
        _ => Ok(0),
    }
}

// The turn of the observer of this number on the cell: its run, if it is of that column and a run may be made.
fn turn<T: Tablet>(
    alloc: Global,
    state: &mut State<T>,
    stats: &mut [ObserverStats],
    place: usize,
    cell: &Cell,
    left: u64,
) -> Result<RunsMade, Stopped>
    requires { place < length state.old.observers }
    ensures ok { IfOk result (λ r. SaidLeads (Counted state.old.observers stats.old stats.new
        (CountsCommits (HasRuns (IsTurnThat state.old.observers cell.now place r.is_due) r.runs)
        r.commits)) state.old state.new) }
    ensures few { IfOk result (λ r. r.runs ≤ left) }
    ensures due { IfOk result (λ r. r.is_due ≡ true → r.runs ≡ left) }
    ensures err { OnErr result (SaidLeads (IsOfRuns left) state.old state.new) }
    ensures stops { WasKept state.old → IfErr result (λ e. IsStop e state.new) }
{
    if !is_observer_of(state.observers(), place, cell) {
        return Ok(RunsMade {
            runs: 0,
            commits: 0,
            is_due: false,
        });
    }
    if left == 0 {
        return Ok(RunsMade {
            runs: 0,
            commits: 0,
            is_due: true,
        });
    }
    let commits = run_place(alloc, state, stats, place, cell)?;
    Ok(RunsMade {
        runs: 1,
        commits,
        is_due: false,
    })
}

// Runs each observer of the cell's column, in file order, up to where no more runs may be made.
fn run_all<T: Tablet>(
    alloc: Global,
    state: &mut State<T>,
    stats: &mut [ObserverStats],
    cell: &Cell,
    left: u64,
) -> Result<RunsMade, Stopped>
    ensures ok { IfOk result (λ r. SaidLeads (Counted state.old.observers stats.old stats.new
        (CountsCommits (HasRuns (AreRunsThat state.old.observers cell.now r.is_due) r.runs)
        r.commits)) state.old state.new) }
    ensures few { IfOk result (λ r. r.runs ≤ left) }
    ensures due { IfOk result (λ r. r.is_due ≡ true → r.runs ≡ left) }
    ensures err { OnErr result (SaidLeads (IsOfRuns left) state.old state.new) }
    ensures stops { WasKept state.old → IfErr result (λ e. IsStop e state.new) }
{
    // For the proof: a table that is kept over generations is so after each run.
    jobs_keep_tables();
    let mut runs = 0u64;
    let mut commits = 0u64;
    let many = state.observers().len();
    for place in 0..many {
        let turned = turn(alloc, state, stats, place, cell, left - runs)?;
        runs += turned.runs;
        commits = commits.saturating_add(turned.commits);
        if turned.is_due {
            return Ok(RunsMade {
                runs,
                commits,
                is_due: true,
            });
        }
    }
    Ok(RunsMade {
        runs,
        commits,
        is_due: false,
    })
}

// How a pass ends that finds no mark after this one, or none at all.
fn end_after(last: &Option<Cell>) -> PassEnd
    ensures { result ≡ end_after last.now }
{
    match last {
        None => PassEnd::Markless,
        Some(_) => PassEnd::Marked,
    }
}

// One pass, from mark to mark up to where there is none, or to where no more runs may be made.
fn pass<T: Tablet>(
    alloc: Global,
    state: &mut State<T>,
    stats: &mut [ObserverStats],
    left: u64,
) -> Result<Passed, Stopped>
    ensures ok { IfOk result (λ p. SaidLeads (Counted state.old.observers stats.old stats.new
        (CountsCommits (HasRuns (IsPassWithEnd state.old.observers p.end) p.runs) p.commits))
        state.old state.new) }
    ensures few { IfOk result (λ p. p.runs ≤ left) }
    ensures due { IfOk result (λ p. p.end ≡ ends.Due → p.runs ≡ left) }
    ensures quiet { IfOk result
        (λ p. p.end ≡ ends.Markless → IsNextMark state.new.marks None None) }
    ensures err { OnErr result (SaidLeads (IsOfRuns left) state.old state.new) }
    ensures stops { WasKept state.old → IfErr result (λ e. IsStop e state.new) }
{
    // For the proof: a table that is kept over generations is so after each run and each look for a mark, and allows that look.
    jobs_keep_tables();
    jobs_are_in_time();
    let mut runs = 0u64;
    let mut commits = 0u64;
    let mut last = None;
    // It ends, since fewer runs may be made after each mark, or fewer cells come after it.
    loop {
        let next = ask(state, &Step::NextMark(last))?;
        let Answer::Marked(cell) = &next else {
            return Ok(Passed {
                runs,
                commits,
                end: end_after(&last),
            });
        };
        let ran = run_all(alloc, state, stats, cell, left - runs)?;
        runs += ran.runs;
        commits = commits.saturating_add(ran.commits);
        if ran.is_due {
            return Ok(Passed {
                runs,
                commits,
                end: PassEnd::Due,
            });
        }
        // For the proof: cells can be counted.
        fits(cell);
        last = Some(*cell);
    }
}

// Makes passes, as `drain` does. The number of commits is known up to 64 bits.
fn make_passes<T: Tablet>(
    alloc: Global,
    state: &mut State<T>,
    stats: &mut [ObserverStats],
    bound: u64,
) -> Result<Drained, Stopped>
    ensures ok { IfOk result (λ d. SaidLeads (Counted state.old.observers stats.old stats.new
        (CountsCommits (IsDrainThat state.old.observers bound d.rests) d.runs))
        state.old state.new) }
    ensures quiet { IfOk result (λ d. d.rests ≡ true → IsNextMark state.new.marks None None) }
    ensures err { OnErr result (SaidLeads (IsOfRuns bound) state.old state.new) }
    ensures stops { WasKept state.old → IfErr result (λ e. IsStop e state.new) }
{
    // For the proof: a table that is kept over generations is so after each pass.
    jobs_keep_tables();
    let mut made = 0u64;
    let mut runs = 0u64;
    for _count in 0..MAX_PASSES {
        let passed = pass(alloc, state, stats, bound - made)?;
        made += passed.runs;
        runs = runs.saturating_add(passed.commits);
        match passed.end {
            PassEnd::Markless => return Ok(Drained { runs, rests: true }),
            PassEnd::Due => return Ok(Drained { runs, rests: false }),
            PassEnd::Marked => (),
        }
    }
    Ok(Drained { runs, rests: false })
}

/// Makes passes until one finds no mark, or so many as may be made, or so many runs, where another is due.
pub fn drain<T: Tablet>(
    alloc: Global,
    state: &mut State<T>,
    stats: &mut [ObserverStats],
    bound: u64,
) -> Result<Drained, Stopped>
    // The runs are those of the drain that were committed, and what they did is added to the stats. It rests if its last
    // pass found no mark, and does not if as many passes as may be made each found one, or if a run was due after as many runs as
    // may be made.
    ensures ok { IfOk result (λ d.
        (leads : SaidLeads (Counted state.old.observers stats.old stats.new
        (IsDrainWithin state.old.observers bound)) state.old state.new)
        × (d.runs ≡ commit_count leads.said)
        × (d.rests ≡ comes_to_rest leads.form.form)) }
    // Where it rests no cell is marked.
    ensures quiet { IfOk result (λ d. d.rests ≡ true → IsNextMark state.new.marks None None) }
    ensures err { OnErr result (SaidLeads (IsOfRuns bound) state.old state.new) }
    ensures stops { WasKept state.old → IfErr result (λ e. IsStop e state.new) }
{
    let drained = make_passes(alloc, state, stats, bound)?;
    // For the proof: each run took a timestamp, so that there are no more of them than 64 bits can say.
    clock_fits(state);
    Ok(drained)
}

// How many runs may follow a change at most where the table has so many entries, as far as they can be counted, so that these stay
// within the limit.
fn runs_within(limit: u64, entries: usize) -> u64
    ensures exact { (n : ℕ) → entries ≡ min n (2 ^ 64 - 1) → result ≡ runs_within limit n }
    ensures few { result ≤ MAX_RUNS }
{
    MAX_RUNS.min(limit.saturating_sub(entries as u64) / MAX_RUN_ENTRIES)
}

/// Makes a change, and then passes over what it left marked, with [`MAX_RUNS`] runs at most, and with no more than the limit of
/// entries has room for, of which each run may leave [`MAX_RUN_ENTRIES`].
pub fn make<T: Tablet>(
    alloc: Global,
    state: &mut State<T>,
    stats: &mut [ObserverStats],
    batch: Batch,
    limit: u64,
) -> Result<Made, Stopped>
    // What the runs did is added to the stats, and those that were committed after the change are its runs. It rests if
    // its drain does.
    ensures ok { IfOk result (λ m.
        (leads : SaidLeads (Counted state.old.observers stats.old stats.new
        (IsMade state.old.observers (runs_within limit (map.len state.old.entries)) batch
        m.commit)) state.old state.new)
        × (m.drained.runs ≡ commit_count leads.form.form.drain)
        × (m.drained.rests ≡ comes_to_rest leads.form.form.drained)) }
    ensures quiet { IfOk result
        (λ m. m.drained.rests ≡ true → IsNextMark state.new.marks None None) }
    // After the changes that are kept it is one more.
    ensures keeps { (first : KeptTable) (changes : List Writes)
        → Keeps limit first changes (kept_table state.old stats.old)
        → OnOk result (Keeps limit first (changes ++ batch ∷ [])
        (kept_table state.new stats.new)) }
    // Left, it has begun no other change, and no more runs than may be made.
    ensures err { OnErr result (SaidLeads (IsOfChange MAX_RUNS) state.old state.new) }
    ensures clock { state.new.clock ≤ state.old.clock + (2 + 2 * MAX_RUNS) }
    // With timestamps for all of that, nothing but memory is wanting.
    ensures in_time { (first : KeptTable) (changes : List Writes)
        → Keeps limit first changes (kept_table state.old stats.old)
        → state.old.clock + (2 + 2 * MAX_RUNS) < last_timestamp
        → IfErr result WantsMemory }
    // The table has the same observers.
    ensures observers { OnOk result (state.new.observers ≡ state.old.observers) }
    // On a table that keeps changes it conflicts with nothing.
    ensures stops { (first : KeptTable) (changes : List Writes)
        → Keeps limit first changes (kept_table state.old stats.old)
        → IfErr result (λ e. IsStop e state.new) }
{
    // For the proof: on a table without locks a change commits, and one that is kept over generations is so after it.
    steps_keep_sound();
    snapshots_serve();
    jobs_keep_tables();
    let bound = runs_within(limit, state.table().len());
    let outcome = commit(alloc, state, batch)?;
    let Outcome::Committed(commit) = outcome else {
        return Err(Stopped::Conflict);
    };
    let drained = drain(alloc, state, stats, bound)?;
    Ok(Made { commit, drained })
}
