//! What `checks/rows` calls for tables of rows that no program of the product has words for.
//!
//! The first word names a crate: `machine`, `table`, `jobs`, `worlds` or `workers`, which is
//! `test_machine` and so on; the words after it are that crate's. They are one program, since a
//! program over so many crates takes long to prove and to link. With `--help` after the first word
//! it prints that crate's words. It ends with status 1 where it has no such words or no memory.
#![tactic(auto)]

use std::env;
use std::process::ExitCode;
use std::sync::Wait;
use std::thread::Threads;
use std::time::Clock;

// Whether what the words ask for was done and printed.
fn are_words_done<R: Threads + Wait + Clock + Sync>(threads: &R, rt: &HostRuntime) -> Option<bool> {
    let args = env::args(rt).ok()?;
    let all: Vec<String> = args.collect(rt.alloc()).ok()?;
    let words = all.get(1..)?;
    match words.first()?.as_str() {
        "machine" => test_machine::are_words_done(rt, words),
        "table" => test_table::are_words_done(rt, words),
        "jobs" => test_jobs::are_words_done(rt, words),
        "worlds" => test_worlds::are_words_done(rt, words),
        "workers" => test_workers::are_words_done(threads, rt, words),
        _ => None,
    }
}

// The handle goes down twice, as the host and as what may wait, since a `HostRuntime` may wait in `main` alone.
fn main(rt: HostRuntime) -> ExitCode {
    if are_words_done(&rt, &rt) == Some(true) {
        ExitCode::SUCCESS
    } else {
        ExitCode::FAILURE
    }
}
