//! Steps by their words.
use crate::run::run_in;
use crate::words::Words;
use pb_accepted::Observer;
use pb_base::{Batch, MAX_CELLS, Ts};
use pb_steps::{Declaration, Declared, Step, Work};
use std::alloc::Global;

fn work_in(observers: &[Observer], words: &mut Words) -> Option<Work> {
    match words.next() {
        "script" => Some(Work::Script),
        _ => Some(Work::Run(words.observer(observers)?, words.row()?)),
    }
}

fn batch_in(alloc: Global, words: &mut Words) -> Option<Batch> {
    let mut writes = Vec::new(alloc);
    for _ in 0..MAX_CELLS {
        if !words.is_empty() {
            writes
                .push((words.row()?, words.column()?, words.content()?))
                .ok()?;
        }
    }
    Batch::new(writes).ok()
}

fn declared_in(alloc: Global, observers: &[Observer], words: &mut Words) -> Option<Declaration> {
    let declared = match words.next() {
        "script" => Declared::Script(batch_in(alloc, words)?),
        _ => {
            let observer = words.observer(observers)?;
            Declared::Run(observer, run_in(alloc, observers, words)?)
        }
    };
    Declaration::new(alloc, declared).ok()
}

// A read, which names a timestamp of its own after its cell, or none.
fn read_in(start: Ts, observers: &[Observer], words: &mut Words) -> Option<Step> {
    let cell = words.cell(observers)?;
    match words.next() {
        "at" => Some(Step::ReadAt(start, cell, words.ts()?)),
        _ => Some(Step::Read(start, cell)),
    }
}

fn commit_in(start: Ts, observers: &[Observer], words: &mut Words) -> Option<Step> {
    if words.is_empty() {
        return Some(Step::CommitPrimary(start));
    }
    Some(Step::CommitSecondary(start, words.cell(observers)?))
}

// `next mark`, from the beginning or after a cell.
fn next_mark_in(observers: &[Observer], words: &mut Words) -> Option<Step> {
    match (words.next(), words.next()) {
        ("mark", "after") => Some(Step::NextMark(Some(words.cell(observers)?))),
        _ => Some(Step::NextMark(None)),
    }
}

// A step that names a cell alone.
fn cell_step_in(word: &str, observers: &[Observer], words: &mut Words) -> Option<Step> {
    let cell = words.cell(observers)?;
    match word {
        "settle" => Some(Step::Settle(cell)),
        "clear" => Some(Step::Clear(cell)),
        _ => Some(Step::Sweep(cell)),
    }
}

// A step of a transaction, which names its start first.
fn started_step_in(
    alloc: Global,
    word: &str,
    observers: &[Observer],
    words: &mut Words,
) -> Option<Step> {
    let start = words.ts()?;
    match word {
        "read" => read_in(start, observers, words),
        "declare" => Some(Step::Declare(start, declared_in(alloc, observers, words)?)),
        "prewrite" => Some(Step::Prewrite(start, words.cell(observers)?)),
        "stamp" => Some(Step::Stamp(start)),
        "commit" => commit_in(start, observers, words),
        _ => None,
    }
}

/// The step that the words name.
pub fn step_of(alloc: Global, observers: &[Observer], words: &mut Words) -> Option<Step> {
    match words.next() {
        "begin" => Some(Step::Begin(work_in(observers, words)?)),
        "next" => next_mark_in(observers, words),
        "settle" => cell_step_in("settle", observers, words),
        "clear" => cell_step_in("clear", observers, words),
        "sweep" => cell_step_in("sweep", observers, words),
        word => started_step_in(alloc, word, observers, words),
    }
}
