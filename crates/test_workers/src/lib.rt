//! Lets workers work as its words state, and prints what they leave, for the rows of
//! checks/tables/workers.py.
//!
//! With `HOW TURNS WORKERS LAST LIMIT SORTS REFUSED MANIFEST SCRIPT SPARE..` so many workers make the changes of a script and
//! run the observers of a manifest, in such turns (turns.rt), over a table with a tablet of
//! each of these sorts (`l`, a list, or `s`, a slab), with `LAST` the last timestamp given out and room for `LIMIT` entries.
//! Of the tablets' changes the one of the number `REFUSED`, from 0, is refused for want of memory; `-` names none. A spare is
//! the place at which it is swapped in and its sort, and `m` where there is a mark in it, or `r` where it refuses its first
//! change. `HOW` is `told`; or `listed`, which lists the journal; or `cleared`, where the main seat settles and clears what is
//! left before the seats are compared.
//!
//! With `finish MANIFEST SCRIPT OTHER OPERATION..` the seats of two runs are moved about before they are compared (finishes.rt).
//! With `--help` it names its words. It has no answer where there are no such words or no memory.
#![tactic(auto)]

mod account;
mod clearing;
mod finishes;
mod tablets;
mod task;
mod turns;
mod work;

use account::{How, is_told};
use std::sync::Wait;
use std::sync::atomic::{AtomicU64, Ordering};
use std::thread::Threads;
use std::time::Clock;
use tablets::{Count, Spares, parts_of, spares_in};
use task::Task;
use test_fixtures::CountedTablet;
use turns::{Marks, Turns};
use work::do_work;

const WORDS: &str =
    "told|listed|cleared TURNS WORKERS LAST LIMIT SORTS REFUSED MANIFEST SCRIPT SPARE..
finish MANIFEST SCRIPT OTHER OPERATION..";

// How often each spare was changed.
fn are_counts_told(rt: &HostRuntime, spares: &[Count]) -> bool {
    if print!(rt; "changed").is_err() {
        return false;
    }
    for count in spares {
        if print!(rt; " {}", count.load(Ordering::SeqCst)).is_err() {
            return false;
        }
    }
    println!(rt; "").is_ok()
}

// How often each seat passed the gate.
fn are_passes_told(rt: &HostRuntime, passed: &[AtomicU64]) -> bool {
    if print!(rt; "passed").is_err() {
        return false;
    }
    for count in passed {
        if print!(rt; " {}", count.load(Ordering::SeqCst)).is_err() {
            return false;
        }
    }
    println!(rt; "").is_ok()
}

// Whether all holds were in time, and how often each seat passed the gate.
fn are_turns_told(rt: &HostRuntime, marks: &Marks) -> bool {
    let word = if marks.are_in_time() { "kept" } else { "late" };
    println!(rt; "turns {word}").is_ok() && are_passes_told(rt, marks.passed())
}

// Whether workers did a task in these turns beside these spares, and what they left was printed.
fn is_left_told<R: Threads + Wait + Clock + Sync>(
    rt: &HostRuntime,
    how: How,
    task: &Task,
    turns: &Turns<R>,
    spares: Vec<(usize, CountedTablet)>,
) -> Option<bool> {
    let parts = parts_of(rt.alloc(), task, turns.marks.until()).ok()?;
    let worked = do_work(turns.rt, rt.alloc(), task, parts, spares, turns).ok()?;
    Some(is_told(rt, worked, how))
}

// Whether workers worked as the words state, and that was printed.
fn work_is_told<R: Threads + Wait + Clock + Sync>(
    threads: &R,
    rt: &HostRuntime,
    how: How,
    words: &[String],
) -> Option<bool> {
    let task = Task::of(words)?;
    let Spares { parts, counts } = spares_in(rt.alloc(), words.get(8..)?)?;
    let marks = Marks::new(rt.alloc(), &task, &counts).ok()?;
    let turns = Turns { rt: threads, marks };
    let is_told = is_left_told(rt, how, &task, &turns, parts)?;
    let are_turns_told = are_turns_told(rt, &turns.marks);
    Some(is_told && are_turns_told && are_counts_told(rt, &counts))
}

/// Whether what these words ask for, the crate's own first, was done and printed.
pub fn are_words_done<R: Threads + Wait + Clock + Sync>(
    threads: &R,
    rt: &HostRuntime,
    words: &[String],
) -> Option<bool> {
    let rest = words.get(2..)?;
    match words.get(1)?.as_str() {
        "--help" => Some(println!(rt; "{WORDS}").is_ok()),
        "finish" => finishes::are_told(threads, rt, rest),
        how => work_is_told(threads, rt, How::of(how)?, rest),
    }
}
