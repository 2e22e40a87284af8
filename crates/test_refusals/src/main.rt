//! Makes each call that grows, on a small state. Where memory is refused, nothing has changed, and the same call again
//! answers as if it had never been refused. It ends with status 0 where all of that held, and prints the call that was refused,
//! if one was, with the kind of its step; a second one is at fault.
//!
//! It is run once for each of its requests for memory, with that request refused (checks/refused-growths). With `start FILE COUNT`
//! it starts a machine of the program in a file, with `run FILE COUNT` it runs one to its end, which has to come after just so
//! many instructions, and with `swap` it runs workers beside swaps.
#![tactic(auto)]

mod jobs;
mod page;
mod reports;
mod runs;
mod workers;
mod worlds;

use std::alloc::Global;
use std::env;
use std::process::ExitCode;
use std::sync::Wait;
use std::thread::Threads;
use test_fixtures::Unready;
use test_growths::refusals::Refusals;
use test_growths::{calls, copies, machines, observers, programs, swaps, tablets};

// How many tablets are swapped beside workers.
const SWAPS: usize = 3;

// Calls on programs.
fn programs_hold(alloc: Global, refusals: &mut Refusals) -> Result<bool, Unready> {
    Ok(
        programs::programs_are_made(alloc, refusals)?
            && programs::bytes_are_decoded(alloc, refusals)
            && programs::programs_are_encoded(alloc, refusals)?
            && programs::texts_are_assembled(alloc, refusals)
            && programs::programs_are_listed(alloc, refusals)?,
    )
}

// Calls that judge programs, and machines.
fn verdicts_hold(alloc: Global, refusals: &mut Refusals) -> Result<bool, Unready> {
    Ok(
        programs::programs_are_verified(alloc, refusals)?
            && programs::jumps_are_verified(alloc, refusals)?
            && programs::frames_are_told(alloc, refusals)?
            && observers::programs_are_accepted(alloc, refusals)?
            && observers::machines_start(alloc, refusals)?,
    )
}

// Calls on batches and steps.
fn steps_hold(alloc: Global, refusals: &mut Refusals) -> Result<bool, Unready> {
    Ok(
        copies::batch_copies(alloc, refusals)?
            && copies::step_copies(alloc, refusals)?
            && copies::batches_are_declared(alloc, refusals)?
            && observers::runs_are_ended(alloc, refusals)?,
    )
}

// Calls on tablets, tables and states.
fn tables_hold(alloc: Global, refusals: &mut Refusals) -> Result<bool, Unready> {
    Ok(
        tablets::chunks_are_parted(alloc, refusals)?
            && tablets::tables_apply(alloc, refusals)?
            && swaps::tablets_are_swapped(alloc, refusals)?
            && calls::states_take(alloc, refusals)?
            && runs::tables_open(alloc, refusals)?,
    )
}

// Calls on tables with their journals.
fn calls_hold(alloc: Global, refusals: &mut Refusals) -> Result<bool, Unready> {
    Ok(
        calls::shared_calls(alloc, refusals)?
            && calls::shared_grows(alloc, refusals)?
            && calls::seats_make_room(alloc, refusals)?
            && observers::runs_are_declared(alloc, refusals)?
            && reports::tables_are_reported(alloc, refusals)?,
    )
}

// Calls on texts.
fn texts_hold(alloc: Global, refusals: &mut Refusals) -> Result<bool, Unready> {
    Ok(
        runs::scripts_are_read(alloc, refusals)?
            && observers::manifests_are_read(alloc, refusals)?
            && observers::schedules_are_read(alloc, refusals)?,
    )
}

// Calls on jobs, worlds and workers.
fn runs_hold<R: Threads + Wait + Sync>(
    rt: &R,
    alloc: Global,
    refusals: &mut Refusals,
) -> Result<bool, Unready> {
    Ok(
        jobs::changes_are_made(alloc, refusals)?
            && jobs::observers_run(alloc, refusals)?
            && worlds::worlds_run(alloc, refusals)?
            && workers::workers_run(rt, alloc, 0, refusals)?,
    )
}

// Every check. It has an error only where a check's own preparation was refused.
fn all<R: Threads + Wait + Sync>(
    rt: &R,
    alloc: Global,
    refusals: &mut Refusals,
) -> Result<bool, Unready> {
    Ok(
        programs_hold(alloc, refusals)?
            && verdicts_hold(alloc, refusals)?
            && steps_hold(alloc, refusals)?
            && tables_hold(alloc, refusals)?
            && calls_hold(alloc, refusals)?
            && texts_hold(alloc, refusals)?
            && runs_hold(rt, alloc, refusals)?,
    )
}

// Whether what a word with a file and a count after it asks for held. A start has a count too, so
// that both words make the same requests up to the first instruction.
fn held_in(
    rt: &HostRuntime,
    word: &str,
    path: &str,
    count: &str,
    refusals: &mut Refusals,
) -> Result<bool, Unready> {
    let Ok(count) = count.parse::<u16>() else {
        return Ok(false);
    };
    match word {
        "start" => machines::file_starts(rt, path, refusals),
        "run" => machines::file_runs(rt, path, count, refusals),
        _ => Ok(false),
    }
}

// Whether what the words after the program's own ask for held; every check, if there are no such
// words.
fn checks_hold<R: Threads + Wait + Sync>(
    threads: &R,
    rt: &HostRuntime,
    refusals: &mut Refusals,
) -> Result<bool, Unready> {
    let Ok(args) = env::args(rt) else {
        return Err(Unready::Other("the words can't be read"));
    };
    let words: Vec<String> = args.collect(rt.alloc())?;
    match words.as_slice() {
        [] | [_] => all(threads, rt.alloc(), refusals),
        [_, word] if word.as_str() == "swap" => {
            workers::workers_run(threads, rt.alloc(), SWAPS, refusals)
        }
        [_, word, path, count, ..] => {
            held_in(rt, word.as_str(), path.as_str(), count.as_str(), refusals)
        }
        _ => Ok(false),
    }
}

// Whether the call that was refused was printed, if one was.
fn is_told(rt: &HostRuntime, refusals: &Refusals) -> bool {
    match refusals.first() {
        None => true,
        Some((call, "")) => println!(rt; "{call}").is_ok(),
        Some((call, kind)) => println!(rt; "{call} {kind}").is_ok(),
    }
}

fn main(rt: HostRuntime) -> ExitCode {
    let mut refusals = Refusals::none();
    let held = match checks_hold(&rt, &rt, &mut refusals) {
        Ok(held) => held,
        // Only one request is refused: the second time neither a preparation is, nor a call; but what isn't as it has to be
        // isn't so then either.
        Err(_) => {
            refusals.note("a preparation");
            checks_hold(&rt, &rt, &mut refusals) == Ok(true)
        }
    };
    if held && refusals.are_few() && is_told(&rt, &refusals) {
        ExitCode::SUCCESS
    } else {
        ExitCode::FAILURE
    }
}
