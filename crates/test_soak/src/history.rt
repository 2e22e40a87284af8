//! The committed transactions of a journal.
use crate::fault::Fault;
use pb_history::KeptEntry;
use pb_steps::{Answer, Declared, Step};
use std::alloc::Global;
use std::collections::BTreeMap;

/// The commits of a journal, each with the place at which its transaction is declared.
pub type Commits = BTreeMap<u64, usize>;

// By their starts, the places at which transactions are declared, and their stamps; and the commits.
#[derive(Drop)]
struct Past {
    declared: BTreeMap<u64, usize>,
    stamped: BTreeMap<u64, u64>,
    commits: Commits,
}

// Adds a commit, whose transaction was declared and stamped, and which no other has.
fn add_commit(past: &mut Past, start: u64) -> Result<(), Fault> {
    let Some(at) = past.declared.get(&start) else {
        return Err(Fault::History);
    };
    let Some(commit) = past.stamped.get(&start) else {
        return Err(Fault::History);
    };
    if past.commits.insert(*commit, *at)?.is_some() {
        return Err(Fault::History);
    }
    Ok(())
}

// Adds the call at this place.
fn add_call(past: &mut Past, place: usize, step: &Step, answer: Answer) -> Result<(), Fault> {
    match (step, answer) {
        (Step::Declare(start, _), Answer::Done) => {
            past.declared.insert(start.0, place)?;
        }
        (Step::Stamp(start), Answer::At(commit)) => {
            past.stamped.insert(start.0, commit.0)?;
        }
        (Step::CommitPrimary(start), Answer::Committed) => add_commit(past, start.0)?,
        _ => {}
    }
    Ok(())
}

/// The committed transactions: each was declared and stamped before, and no two have one commit.
pub fn commits_of(alloc: Global, journal: &[KeptEntry]) -> Result<Commits, Fault> {
    let mut past = Past {
        declared: BTreeMap::new(alloc),
        stamped: BTreeMap::new(alloc),
        commits: BTreeMap::new(alloc),
    };
    for place in 0..journal.len() {
        let call = journal[place].call().get()?;
        add_call(&mut past, place, &call.step, call.answer)?;
    }
    let Past {
        commits,
        declared: _,
        stamped: _,
    } = past;
    Ok(commits)
}

/// What is declared at this place of the journal.
pub fn declared_at(journal: &[KeptEntry], place: usize) -> Option<&Declared> {
    let (_, what) = journal.get(place)?.call().declares()?;
    Some(what.get())
}

/// How many committed runs there are of this observer.
pub fn runs_of(journal: &[KeptEntry], commits: &Commits, observer: usize) -> usize {
    commits
        .values()
        .filter(|place| match declared_at(journal, **place) {
            Some(Declared::Run(number, _)) => number.number() as usize == observer,
            _ => false,
        })
        .count()
}

/// How many calls were answered by a conflict.
pub fn conflicts_in(journal: &[KeptEntry]) -> usize {
    journal
        .iter()
        .filter(|entry| entry.call().answer() == Answer::Conflict)
        .count()
}
