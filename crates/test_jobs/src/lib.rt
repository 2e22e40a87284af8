//! Jobs of several seats, which take turns over one shared table, for the rows of checks/tables/jobs.py.
//!
//! With `DIGITS FROM TASKS TURNS` the table has an observer of column 0, `watch`, whose program has these digits; after `2:` it is
//! of profile 2 and takes the second version of the record. A task makes a job: `cPQ` a change by seat 0, which writes 2a to
//! these columns of row 7, the first of them its primary; `rS` a run of the observer on cell 7 0 by seat S. A turn takes a job by
//! its place among the tasks: `P:N` has so many of its steps answered, `P/N` has a run do so many instructions, `P>` all up to its
//! next ask or its exit, and by `P=END` a run is over, with this end: the result of one that committed, or `clean`, `conflicted`,
//! `lost` or `blocked`. By `sC` seat 0 settles the cell of this column in row 7, and by `sa` the acknowledgment of cell 7 0.
//!
//! It prints what the journal has of the seats from `FROM` on, how many marks and locks are left,
//! and the first turn that doesn't go as it states. With `--help` it names its words. It has no
//! answer where there are no such words or no memory.
#![tactic(auto)]

mod jobs;
mod turns;

use jobs::{Job, jobs_of, observer_of, observers_of};
use pb_accepted::Observer;
use pb_base::{NoMemory, Ts};
use pb_core::Shared;
use pb_steps::{Answer, Step};
use pb_store::Tablet;
use pb_story::{add_answer, add_step};
use std::alloc::{AllocError, Global};
use test_fixtures::open_table;
use turns::stopped_at;

const WORDS: &str = "DIGITS FROM TASKS TURNS";

// Adds an entry of a seat, in a line.
fn add_entry(
    text: &mut String,
    observers: &[Observer],
    seat: u32,
    step: &Step,
    answer: &Answer,
) -> Result<(), AllocError> {
    write!(text, "{seat} ")?;
    add_step(text, observers, step)?;
    text.push_str(" -> ")?;
    add_answer(text, observers, answer)?;
    text.push_str("\n")
}

// The entries of the seats from this one on, each in a line, and a line of the marks and locks that stand.
fn table_text<T: Tablet>(alloc: Global, shared: &Shared<T>, from: u32) -> Result<String, NoMemory> {
    let mut text = String::new(alloc);
    for entry in shared.journal() {
        let seat = entry.seat();
        if seat >= from {
            let call = entry.call().get()?;
            add_entry(
                &mut text,
                shared.observers(),
                seat,
                &call.step,
                &call.answer,
            )?;
        }
    }
    writeln!(text, "marks {} locks {}", shared.marks(), shared.locks())?;
    Ok(text)
}

// What the turns leave, and the first that doesn't go as it states.
fn told_of(
    alloc: Global,
    observer: Observer,
    jobs: Vec<Job>,
    turns: &str,
    from: u32,
) -> Option<String> {
    let mut jobs = jobs;
    let observers = observers_of(alloc, observer).ok()?;
    let (mut shared, mut seats) = open_table(alloc, observers, 3, Ts(0), 1000).ok()?;
    let stopped = stopped_at(alloc, &mut shared, &mut seats, &mut jobs, turns);
    let told = table_text(alloc, &shared, from);
    shared.close();
    let mut text = told.ok()?;
    if let Some(turn) = stopped {
        writeln!(text, "not so: {turn}").ok()?;
    }
    Some(text)
}

// What the words ask for.
fn told_by(alloc: Global, words: &[String]) -> Option<String> {
    let [_, digits, from, tasks, turns, ..] = words else {
        return None;
    };
    let from = from.as_str().parse::<u32>().ok()?;
    let observer = observer_of(alloc, digits.as_str())?;
    let jobs = jobs_of(alloc, tasks.as_str(), &observer.program)?;
    told_of(alloc, observer, jobs, turns.as_str(), from)
}

/// Whether what these words ask for, the crate's own first, was done and printed.
pub fn are_words_done(rt: &HostRuntime, words: &[String]) -> Option<bool> {
    if words.get(1)?.as_str() == "--help" {
        return Some(println!(rt; "{WORDS}").is_ok());
    }
    let text = told_by(rt.alloc(), words)?;
    Some(print!(rt; "{text}").is_ok())
}
