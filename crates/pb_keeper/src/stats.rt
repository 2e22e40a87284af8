//! What the runs of observers did, counted.
ghost use Rattle.std.specs.Prelude.{◌≡◌, ◌==◌, ◌<◌, ℕ, IfOk, length, replicate, slice_index_or, if◌then◌else◌};
ghost use Rattle.pb_keeper.specs.Stats.{no_runs, added, instruction_stats, end_stats};

use pb_notify::{JobEnd, ObserverJob};
use pb_steps::Step;
use std::alloc::{AllocError, Global};

/// What the runs of an observer did. A number that comes to 2^64 - 1 stays there.
#[derive(Clone, Copy)]
pub struct ObserverStats {
    /// Runs that were committed.
    pub runs: u64,
    /// Those of them whose result was other than 0, so that nothing was written.
    pub nonzero: u64,
    /// Runs that met another transaction, and were undone.
    pub conflicts: u64,
    /// Instructions that asked for a cell.
    pub asks: u64,
    /// Instructions that were done, those that asked and the exits included.
    pub instructions: u64,
}

/// Before the first run.
pub const NO_RUNS: ObserverStats = ObserverStats {
    runs: 0,
    nonzero: 0,
    conflicts: 0,
    asks: 0,
    instructions: 0,
};

/// The stats of so many observers before their first run.
pub fn no_stats(alloc: Global, observers: usize) -> Result<Vec<ObserverStats>, AllocError>
    ensures { IfOk result (λ v. v.items ≡ replicate observers no_runs) }
{
    vec![in alloc; NO_RUNS; observers]
}

impl ObserverStats {
    // Adds what more runs did.
    pub(crate) fn add(&mut self, more: &ObserverStats)
        ensures { self.new ≡ added self.old more.now }
    {
        self.runs = self.runs.saturating_add(more.runs);
        self.nonzero = self.nonzero.saturating_add(more.nonzero);
        self.conflicts = self.conflicts.saturating_add(more.conflicts);
        self.asks = self.asks.saturating_add(more.asks);
        self.instructions = self.instructions.saturating_add(more.instructions);
    }
}

/// What one instruction did, after which the job stands so.
pub(crate) fn of_instruction(job: &ObserverJob) -> ObserverStats
    ensures { result ≡ instruction_stats job.now }
{
    let asks = match job.next() {
        Some(Step::Read(..)) => 1,
        _ => 0,
    };
    ObserverStats {
        asks,
        instructions: 1,
        ..NO_RUNS
    }
}

/// What a run did by ending so.
pub(crate) fn of_end(end: JobEnd) -> ObserverStats
    ensures { result ≡ end_stats end }
{
    match end {
        JobEnd::Ran(0) => ObserverStats { runs: 1, ..NO_RUNS },
        JobEnd::Ran(_) => ObserverStats {
            runs: 1,
            nonzero: 1,
            ..NO_RUNS
        },
        JobEnd::Conflicted => ObserverStats {
            conflicts: 1,
            ..NO_RUNS
        },
        _ => NO_RUNS,
    }
}

/// Adds what a run did to the stats of the observer of this number, if it is one of those that are counted.
pub(crate) fn add_run(stats: &mut [ObserverStats], number: usize, run: &ObserverStats)
    ensures length { length stats.new ≡ length stats.old }
    ensures counted { (o : ℕ) → o < length stats.old
        → slice_index_or stats.new o no_runs ≡ (if number == o
        then added (slice_index_or stats.old o no_runs) run.now
        else slice_index_or stats.old o no_runs) }
{
    if number < stats.len() {
        stats[number].add(run);
    }
}
