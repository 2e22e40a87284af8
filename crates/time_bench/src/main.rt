//! What the scripts of bench/ time.
//!
//! The first word names a crate: `programs`, `tablets` or `workers`, which is `time_programs` and
//! so on; the words after it are that crate's. They are one program, since a program over so many
//! crates takes long to prove and to link. It ends with status 1 where it has no such words or no
//! memory.
#![tactic(auto)]

use std::env;
use std::process::ExitCode;
use std::sync::Wait;
use std::thread::Threads;

// Whether what the words ask for was done and printed.
fn is_done<R: Threads + Wait + Sync>(threads: &R, rt: &HostRuntime) -> Option<bool> {
    let args = env::args(rt).ok()?;
    let all: Vec<String> = args.collect(rt.alloc()).ok()?;
    let words = all.get(1..)?;
    match words.first()?.as_str() {
        "programs" => time_programs::is_done(rt, words),
        "tablets" => time_tablets::is_done(rt, words),
        "workers" => time_workers::is_done(threads, rt, words),
        _ => None,
    }
}

// The handle goes down twice, as the host and as what may wait, since a `HostRuntime` may wait in `main` alone.
fn main(rt: HostRuntime) -> ExitCode {
    if is_done(&rt, &rt) == Some(true) {
        ExitCode::SUCCESS
    } else {
        ExitCode::FAILURE
    }
}
