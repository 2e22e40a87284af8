//! Lets four workers make 1,000 changes of eight rows, with three observers that feed one another,
//! and judges what is left by the journal's committed transactions in a plain map. With a number
//! after its name it does so as many times, and prints what it met in all; without one it does so
//! once, and prints nothing. It ends with status 0 where all held.
#![tactic(auto)]

mod cells;
mod fault;
mod fed;
mod history;
mod judge;
mod page;
mod script;

use fault::Fault;
use judge::{Met, soak};
use std::alloc::Global;
use std::env;
use std::process::ExitCode;
use std::sync::Wait;
use std::thread::Threads;

// So many times, up to the first that fails.
fn soak_all<R: Threads + Wait + Sync>(rt: &R, alloc: Global, count: u32) -> Result<Met, Fault> {
    let mut met = Met::nothing();
    for _ in 0..count {
        let more = soak(rt, alloc)?;
        met.add(&more);
    }
    Ok(met)
}

// How often, and whether what it met is printed.
fn count_in(words: &[String]) -> Option<(u32, bool)> {
    match words.get(1) {
        Some(word) => {
            let count = word.as_str().parse::<u32>().ok()?;
            Some((count, true))
        }
        None => Some((1, false)),
    }
}

fn main(rt: HostRuntime) -> ExitCode {
    let Ok(args) = env::args(&rt) else {
        return ExitCode::FAILURE;
    };
    let words: Result<Vec<String>, _> = args.collect(rt.alloc());
    let Ok(words) = words else {
        return ExitCode::FAILURE;
    };
    let Some((count, is_told)) = count_in(&words) else {
        return ExitCode::FAILURE;
    };
    match soak_all(&rt, rt.alloc(), count) {
        Ok(met) => {
            if is_told {
                let _ = println!(rt; "{met}");
            }
            ExitCode::SUCCESS
        }
        Err(fault) => {
            let _ = eprintln!(rt; "test_soak: {fault}");
            ExitCode::FAILURE
        }
    }
}
