//! Steps of the shared table in words, each with the start of its transaction or the cell that it is about.
ghost use Rattle.std.specs.Prelude.{◌≡◌, ◌++◌, OnOk, string_bytes};
ghost use Rattle.pb_story.specs.Steps.{work_text, declared_text, start_text, on_cell_text, at_cell_text, next_mark_text, step_text};

use crate::cells::{add_batch, add_cell, add_name, add_writes};
use pb_accepted::Observer;
use pb_base::{Cell, Ts};
use pb_steps::{Declared, Step, Work};
use std::alloc::AllocError;

// Adds what a transaction is for.
fn add_work(text: &mut String, observers: &[Observer], work: &Work) -> Result<(), AllocError>
    ensures { OnOk result (string_bytes text.new
        ≡ string_bytes text.old ++ work_text observers.now work.now) }
{
    match work {
        Work::Script => text.push_str("script"),
        Work::Run(observer, row) => {
            let row = row.0;
            text.push_str("run ")?;
            add_name(text, observers, *observer)?;
            write!(text, " {row}")
        }
    }
}

// Adds what is declared: a batch's writes, or the result of a run and then its writes.
fn add_declared(
    text: &mut String,
    observers: &[Observer],
    declared: &Declared,
) -> Result<(), AllocError>
    ensures { OnOk result (string_bytes text.new
        ≡ string_bytes text.old ++ declared_text observers.now declared.now) }
{
    match declared {
        Declared::Script(batch) => {
            text.push_str("script")?;
            add_batch(text, observers, batch)
        }
        Declared::Run(observer, run) => {
            let finished = run.get();
            let result = finished.result();
            text.push_str("run ")?;
            add_name(text, observers, *observer)?;
            write!(text, " result {result}")?;
            add_writes(text, observers, finished.writes())
        }
    }
}

/// Adds a word and the start of a transaction.
pub fn add_of_start(text: &mut String, word: &str, start: Ts) -> Result<(), AllocError>
    ensures { OnOk result (string_bytes text.new
        ≡ string_bytes text.old ++ start_text word.now start) }
{
    let start = start.0;
    write!(text, "{word} {start}")
}

/// Adds a word and a cell.
pub fn add_on_cell(
    text: &mut String,
    observers: &[Observer],
    word: &str,
    cell: &Cell,
) -> Result<(), AllocError>
    ensures { OnOk result
        (string_bytes text.new
        ≡ string_bytes text.old ++ on_cell_text observers.now word.now cell.now) }
{
    write!(text, "{word} ")?;
    add_cell(text, observers, cell)
}

/// Adds a word, the start of a transaction and a cell.
pub fn add_at_cell(
    text: &mut String,
    observers: &[Observer],
    word: &str,
    start: Ts,
    cell: &Cell,
) -> Result<(), AllocError>
    ensures { OnOk result
        (string_bytes text.new
        ≡ string_bytes text.old ++ at_cell_text observers.now word.now start cell.now) }
{
    let start = start.0;
    write!(text, "{word} {start} ")?;
    add_cell(text, observers, cell)
}

// Adds a search for a marked cell.
fn add_next_mark(
    text: &mut String,
    observers: &[Observer],
    after: &Option<Cell>,
) -> Result<(), AllocError>
    ensures { OnOk result (string_bytes text.new
        ≡ string_bytes text.old ++ next_mark_text observers.now after.now) }
{
    match after {
        None => text.push_str("next mark"),
        Some(cell) => add_on_cell(text, observers, "next mark after", cell),
    }
}

/// Adds a step.
pub fn add_step(text: &mut String, observers: &[Observer], step: &Step) -> Result<(), AllocError>
    ensures { OnOk result (string_bytes text.new
        ≡ string_bytes text.old ++ step_text observers.now step.now) }
{
    match step {
        Step::Begin(work) => {
            text.push_str("begin ")?;
            add_work(text, observers, work)
        }
        Step::Read(start, cell) => add_at_cell(text, observers, "read", *start, cell),
        Step::ReadAt(start, cell, at) => {
            let at = at.0;
            add_at_cell(text, observers, "read", *start, cell)?;
            write!(text, " at {at}")
        }
        Step::Declare(start, what) => {
            add_of_start(text, "declare", *start)?;
            text.push_str(" ")?;
            add_declared(text, observers, what.get())
        }
        Step::Prewrite(start, cell) => add_at_cell(text, observers, "prewrite", *start, cell),
        Step::Stamp(start) => add_of_start(text, "stamp", *start),
        Step::CommitPrimary(start) => add_of_start(text, "commit", *start),
        Step::CommitSecondary(start, cell) => add_at_cell(text, observers, "commit", *start, cell),
        Step::Settle(cell) => add_on_cell(text, observers, "settle", cell),
        Step::Clear(cell) => add_on_cell(text, observers, "clear", cell),
        Step::NextMark(after) => add_next_mark(text, observers, after),
        Step::Sweep(cell) => add_on_cell(text, observers, "sweep", cell),
    }
}
