//! The story program: `frames FILE` prints what is known before each slot of a program,
//! `replay MANIFEST SCRIPT SCHEDULE` does a schedule's events, prints what each did, as far as `--events` and `--idle` select it,
//! and then the report, and `trial FILE` runs a program once on the record of a change, and prints what it asks, writes and
//! returns.
//!
//! It stands beside `percobpf`, which prints neither, so that no contract of the command has a case for lines and
//! frames. It reads files, reports faults and returns its status as `percobpf` does, by the calls of `pb_files` and
//! `pb_command`. `frames` of the bytes of examples/watch.s begins with `0 r1=record+0 r10=stack+0`.
#![tactic(auto)]

mod carry;
mod frames;
mod replay;
mod trial;

use crate::carry::story_command;
use pb_base::{NoMemory, Out, Row};
use pb_command::{exit_status, lent, refuse, words_given};
use pb_files::Files;
use pb_memtablet::ListTablet;
use pb_store::Table;
use pb_texts::{StoryOptions, story_options};
use std::process::ExitCode;

// Carries out a command over the real files, on a table of one tablet, since a story swaps none.
fn carry_out(rt: &HostRuntime, options: &StoryOptions) -> Result<u8, NoMemory> {
    let alloc = rt.alloc();
    let mut parts = Vec::new(alloc);
    parts.push((Row(0), ListTablet::new(alloc)))?;
    match Table::new(parts) {
        Ok(table) => {
            let mut files = Files::new(rt);
            let mut out = Out::new(rt.stdout());
            let mut err = Out::new(rt.stderr());
            Ok(story_command(alloc, options, &mut files, table, &mut out, &mut err))
        }
        Err((_parts, refusal)) => {
            let _ = eprintln!(rt; "tablets refused code {}", refusal.code());
            Ok(1)
        }
    }
}

// The status of the program. All words are handed on, the program's own first.
fn status(rt: &HostRuntime) -> Result<u8, NoMemory> {
    let owned = match words_given(rt)? {
        Ok(owned) => owned,
        Err(status) => return Ok(status),
    };
    let words = lent(rt.alloc(), &owned)?;
    match story_options(rt.alloc(), &words) {
        Ok(options) => carry_out(rt, &options),
        Err(error) => refuse(rt, &error),
    }
}

fn main(rt: HostRuntime) -> ExitCode {
    ExitCode::from(exit_status(&rt, status(&rt)))
}
