//! One run of workers, and what has to hold of what they leave.
use crate::cells::{Cells, cells_of};
use crate::fault::Fault;
use crate::fed::are_fed;
use crate::history::{Commits, commits_of, conflicts_in, declared_at, runs_of};
use crate::page::page_of;
use crate::script::{CHANGES, MANIFEST, WORKERS, script};
use pb_base::{Batch, MAX_ENTRIES, Out, Refusal, Ts};
use pb_core::Shared;
use pb_ending::finish;
use pb_history::KeptEntry;
use pb_memtablet::ListTablet;
use pb_script::report;
use pb_steps::Declared;
use pb_threads::{Open, Worked};
use std::alloc::Global;
use std::collections::BTreeMap;
use std::fmt;
use std::fmt::{Display, Formatter, Write};
use std::sync::Wait;
use std::thread::Threads;
use test_crew::worked_on;
use test_fixtures::{batches_of, observers_of, open_table};

/// What was met in some runs.
#[derive(Drop)]
pub struct Met {
    runs: usize,
    committed: usize,
    unfinished: usize,
    conflicts: usize,
    observed: usize,
}

impl Met {
    pub fn nothing() -> Met {
        Met {
            runs: 0,
            committed: 0,
            unfinished: 0,
            conflicts: 0,
            observed: 0,
        }
    }

    /// Adds what was met in others.
    pub fn add(&mut self, more: &Met) {
        self.runs = self.runs.saturating_add(more.runs);
        self.committed = self.committed.saturating_add(more.committed);
        self.unfinished = self.unfinished.saturating_add(more.unfinished);
        self.conflicts = self.conflicts.saturating_add(more.conflicts);
        self.observed = self.observed.saturating_add(more.observed);
    }
}

impl Display for Met {
    fn fmt<W: Write>(&self, f: &mut Formatter<W>) -> fmt::Result {
        write!(
            f,
            "runs {} changes {} unfinished {} conflicts {} observed {}",
            self.runs, self.committed, self.unfinished, self.conflicts, self.observed
        )
    }
}

// By their numbers, the places of the committed changes in the journal: none is committed twice, each is the script's, and by
// its worker's seat.
fn changes_of(
    alloc: Global,
    journal: &[KeptEntry],
    commits: &Commits,
    batches: &[Batch],
) -> Result<BTreeMap<usize, usize>, Fault> {
    let mut changes = BTreeMap::new(alloc);
    for place in commits.values() {
        let Some(Declared::Script(batch)) = declared_at(journal, *place) else {
            continue;
        };
        let Some(number) = batches.iter().position(|b| b.is_same(batch)) else {
            return Err(Fault::Changes);
        };
        let seat = journal.get(*place).map_or(0, |entry| entry.seat());
        let is_its = seat as usize == number % WORKERS as usize + 1;
        if changes.insert(number, *place)?.is_some() || !is_its {
            return Err(Fault::Changes);
        }
    }
    Ok(changes)
}

// Whether the changes that aren't committed are those that are named, by number.
fn are_named(changes: &BTreeMap<usize, usize>, unfinished: &[usize]) -> bool {
    let mut next = 0;
    for number in 0..CHANGES {
        if changes.contains_key(&number) {
            continue;
        }
        if next >= unfinished.len() || unfinished[next] != number {
            return false;
        }
        next += 1;
    }
    next == unfinished.len()
}

// Whether the report is that of these cells and of the committed runs.
fn is_reported(
    alloc: Global,
    shared: &Shared<ListTablet>,
    cells: &Cells,
    commits: &Commits,
) -> Result<bool, Fault> {
    let mut bytes = Vec::new(alloc);
    let mut out = Out::new(&mut bytes);
    report(alloc, &mut out, shared)?;
    let page = page_of(alloc, cells, shared.observers(), shared.journal(), commits)?;
    Ok(bytes.as_slice() == page.as_bytes())
}

// What has to hold of the cells that the committed transactions leave.
fn judge_cells(alloc: Global, shared: &Shared<ListTablet>, commits: &Commits) -> Result<(), Fault> {
    let cells = cells_of(alloc, shared.journal(), commits)?;
    if !is_reported(alloc, shared, &cells, commits)? {
        return Err(Fault::Report);
    }
    if are_fed(&cells, shared.journal(), commits) {
        Ok(())
    } else {
        Err(Fault::Fed)
    }
}

// How many changes are committed, where those are named that aren't.
fn changes_in(
    alloc: Global,
    journal: &[KeptEntry],
    commits: &Commits,
    batches: &[Batch],
    unfinished: &[usize],
) -> Result<usize, Fault> {
    let changes = changes_of(alloc, journal, commits, batches)?;
    if are_named(&changes, unfinished) {
        Ok(changes.len())
    } else {
        Err(Fault::Changes)
    }
}

// How many runs of all observers are committed.
fn observed_in(shared: &Shared<ListTablet>, commits: &Commits) -> usize {
    let mut observed: usize = 0;
    for number in 0..shared.observers().len() {
        observed = observed.saturating_add(runs_of(shared.journal(), commits, number));
    }
    observed
}

// What has to hold of a table that `finish` accepted.
fn judge(
    alloc: Global,
    shared: &Shared<ListTablet>,
    refusals: &[Option<Refusal>],
    unfinished: &[usize],
    batches: &[Batch],
) -> Result<Met, Fault> {
    if refusals.iter().any(|refusal| refusal.is_some()) {
        return Err(Fault::Refused);
    }
    if shared.marks() != 0 || shared.locks() != 0 {
        return Err(Fault::Left);
    }
    let journal = shared.journal();
    let commits = commits_of(alloc, journal)?;
    let committed = changes_in(alloc, journal, &commits, batches, unfinished)?;
    judge_cells(alloc, shared, &commits)?;
    Ok(Met {
        runs: 1,
        committed,
        unfinished: unfinished.len(),
        conflicts: conflicts_in(journal),
        observed: observed_in(shared, &commits),
    })
}

// The same, where `finish` accepts.
fn judge_accepted(
    alloc: Global,
    worked: Worked<ListTablet>,
    batches: &[Batch],
) -> Result<Met, Fault> {
    let Worked {
        shared,
        seats,
        refusals,
        unfinished,
    } = worked;
    match finish(shared, seats) {
        Ok(ended) => {
            let met = judge(alloc, ended.shared(), &refusals, &unfinished, batches);
            ended.close();
            met
        }
        Err((shared, _seats)) => {
            shared.close();
            Err(Fault::Seats)
        }
    }
}

/// Lets the workers make the changes, and judges what they leave.
pub fn soak<R: Threads + Wait + Sync>(rt: &R, alloc: Global) -> Result<Met, Fault> {
    let text = script(alloc)?;
    let same = batches_of(alloc, text.as_str())?;
    let observers = observers_of(alloc, MANIFEST)?;
    let all = batches_of(alloc, text.as_str())?;
    let (shared, seats) = open_table(alloc, observers, WORKERS + 1, Ts(0), MAX_ENTRIES)?;
    let worked = worked_on(rt, alloc, shared, seats, all, Vec::new(alloc), &Open)?;
    judge_accepted(alloc, worked, &same)
}
