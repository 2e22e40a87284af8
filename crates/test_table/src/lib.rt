//! Takes steps of a shared table, for the rows of checks/tables/steps.py.
//!
//! With `TABLETS LAST LIMIT MANIFEST STEP..` the table has these tablets, each named by its first
//! row and its sort (`l`, a list, or `s`, a slab), the observers of a manifest, and three seats;
//! `LAST` is the last timestamp given out before, and the journal has room for `LIMIT` entries. A
//! step is the number of the seat that asks and what it asks, as `pb_story` writes it. Only what a
//! run declares is made here: after the name of its observer stand that of the observer whose
//! program runs, the run's start, the cell, the version's start, commit and content, the
//! acknowledged timestamp, what the cell held there, and what the program receives for each cell
//! that it asks for.
//!
//! It prints each step with its answer, or with the number that it is refused with, and then how many marks and locks are left; or
//! the number that the tablets are refused with, and the first rows of those that are handed back. With `--help` it names its
//! words. It has no answer where there are no such words or no memory.
#![tactic(auto)]

mod run;
mod step;
mod tablets;
mod words;

ghost use Rattle.std.specs.Prelude.{◌≡◌, ◌≤◌, length};
ghost use Rattle.pb_base.specs.declared.limits.TheConstants.{MAX_ENTRIES, MAX_OBSERVERS};
ghost use Rattle.pb_store.specs.Contents.{nothing};

use pb_accepted::Observer;
use pb_base::{MAX_ENTRIES, Ts};
use pb_core::{Seat, Shared};
use pb_memtablet::EitherTablet;
use pb_steps::Step;
use pb_store::{Table, Tablet};
use pb_story::{add_answer, add_step};
use std::alloc::{AllocError, Global};
use step::step_of;
use tablets::{add_entries, add_refused, add_swap, parts_in};
use test_fixtures::{observers_of, open_table_over};
use words::Words;

const WORDS: &str = "TABLETS LAST LIMIT MANIFEST STEP..";

// Adds the answer of a step, or the number that it is refused with; and if journal or seat has more
// then, that too.
fn add_end<T: Tablet>(
    text: &mut String,
    shared: &mut Shared<T>,
    seat: &mut Seat,
    step: &Step,
) -> Result<(), AllocError> {
    let entries = shared.journal().len();
    let received = seat.received().len();
    match shared.call(seat, step) {
        Ok(answer) => add_answer(text, shared.observers(), &answer),
        Err(refusal) => {
            write!(text, "refused {}", refusal.code())?;
            if shared.journal().len() == entries && seat.received().len() == received {
                return Ok(());
            }
            text.push_str(" and kept")
        }
    }
}

// Adds a step, and how it ends.
fn add_call<T: Tablet>(
    text: &mut String,
    shared: &mut Shared<T>,
    seat: &mut Seat,
    step: &Step,
) -> Result<(), AllocError> {
    add_step(text, shared.observers(), step)?;
    text.push_str(" -> ")?;
    add_end(text, shared, seat, step)
}

// Adds the number of a seat, its step, and how that ends.
fn add_step_of<T: Tablet>(
    alloc: Global,
    text: &mut String,
    shared: &mut Shared<T>,
    seats: &mut Vec<Seat>,
    asked: &str,
) -> Option<()> {
    let mut words = Words::of(asked);
    let number = words.next().parse::<usize>().ok()?;
    let seat = seats.get_mut(number)?;
    write!(text, "{number} ").ok()?;
    let step = step_of(alloc, shared.observers(), &mut words)?;
    add_call(text, shared, seat, &step).ok()
}

// Adds the line of a step, of a swap or of the entries.
fn add_line(
    alloc: Global,
    text: &mut String,
    shared: &mut Shared<EitherTablet>,
    seats: &mut Vec<Seat>,
    asked: &str,
) -> Option<()> {
    if asked == "entries" {
        add_entries(text, shared.table()).ok()?;
    } else if let Some(words) = asked.strip_prefix("swap ") {
        write!(text, "{asked} -> ").ok()?;
        add_swap(alloc, text, shared, &mut Words::of(words))?;
    } else {
        add_step_of(alloc, text, shared, seats, asked)?;
    }
    text.push_str("\n").ok()
}

// Adds a line of each step, and one of the marks and locks that stand.
fn add_lines(
    alloc: Global,
    text: &mut String,
    shared: &mut Shared<EitherTablet>,
    seats: &mut Vec<Seat>,
    steps: &[String],
) -> Option<()> {
    for asked in steps {
        add_line(alloc, text, shared, seats, asked.as_str())?;
    }
    writeln!(text, "marks {} locks {}", shared.marks(), shared.locks()).ok()
}

// Adds the lines of steps that a table of these observers takes.
fn add_taken(
    alloc: Global,
    text: &mut String,
    table: Table<EitherTablet>,
    observers: Vec<Observer>,
    last: Ts,
    limit: usize,
    steps: &[String],
) -> Option<()>
    requires empty { table.contents ≡ nothing }
    requires few { length observers.items ≤ MAX_OBSERVERS }
    requires bounded { limit ≤ MAX_ENTRIES }
{
    let (mut shared, mut seats) = open_table_over(alloc, table, observers, 3, last, limit).ok()?;
    let told = add_lines(alloc, text, &mut shared, &mut seats, steps);
    shared.close();
    told
}

// What the words ask for.
fn told_by(alloc: Global, words: &[String]) -> Option<String> {
    let [_, tablets, last, limit, manifest, steps @ ..] = words else {
        return None;
    };
    let last = Ts(last.as_str().parse::<u64>().ok()?);
    let limit = limit.as_str().parse::<usize>().ok()?;
    if limit > MAX_ENTRIES {
        return None;
    }
    let observers = observers_of(alloc, manifest.as_str()).ok()?;
    let parts = parts_in(alloc, tablets.as_str())?;
    let mut text = String::new(alloc);
    let told = match Table::new(parts) {
        Ok(table) => add_taken(alloc, &mut text, table, observers, last, limit, steps),
        Err((parts, refusal)) => add_refused(&mut text, &parts, refusal).ok(),
    };
    told?;
    Some(text)
}

/// Whether what these words ask for, the crate's own first, was done and printed.
pub fn are_words_done(rt: &HostRuntime, words: &[String]) -> Option<bool> {
    if words.get(1)?.as_str() == "--help" {
        return Some(println!(rt; "{WORDS}").is_ok());
    }
    let text = told_by(rt.alloc(), words)?;
    Some(print!(rt; "{text}").is_ok())
}
