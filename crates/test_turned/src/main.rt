//! Replaces each byte of a program by each other value, one at a time. What this makes is judged with all helpers, in profile
//! 1 for the first version of the change record, and, where it is refused, in profile 2 for the second. A program that is
//! accepted is run with each cell that it asks for absent, and once more with each found; it must come
//! to its end in at most as many instructions as it has slots.
//!
//! With `FILE SEED TENTHS` after its name it does so with so many tenths, 1 to 10, of the replaced
//! bytes of the program in a file, at random by the seed, and prints what it met. With no words it
//! does so with all of `copy`, and prints nothing. It ends with status 0 where all held; else it
//! names the first byte, its value and what was wrong.
#![tactic(auto)]

mod choice;
mod turns;
mod verdict;

use choice::Choice;
use std::alloc::{AllocError, Global};
use std::io::Read;
use std::process::ExitCode;
use std::{env, fs};
use turns::turn_all;

// The code of `copy` (examples/copy.s), slot by slot.
const COPY: [u64; 16] = [
    0xbf160000_00000000,
    0x79623000_00000000,
    0x7b2ae0ff_00000000,
    0x79623800_00000000,
    0x7b2ae8ff_00000000,
    0x79624000_00000000,
    0x7b2af0ff_00000000,
    0x79624800_00000000,
    0x7b2af8ff_00000000,
    0x79610000_00000000,
    0xb7020000_01000000,
    0xbfa30000_00000000,
    0x07030000_e0ffffff,
    0x85000000_02000000,
    0xb7000000_00000000,
    0x95000000_00000000,
];

// What is asked for: of which code, which replaced bytes, and whether what was met is printed.
#[derive(Drop)]
struct Task {
    code: Vec<u8>,
    choice: Choice,
    is_told: bool,
}

// The bytes of these slots, the first byte of each written first.
fn bytes_of(alloc: Global, slots: &[u64]) -> Result<Vec<u8>, AllocError> {
    let mut bytes = Vec::new(alloc);
    for slot in slots {
        bytes.extend_from_slice(&slot.to_be_bytes())?;
    }
    Ok(bytes)
}

fn bytes_in(rt: &HostRuntime, path: &str) -> Option<Vec<u8>> {
    let mut bytes = Vec::new(rt.alloc());
    let mut file = fs::open(rt, path).ok()?;
    file.read_to_end(&mut bytes).ok()?;
    Some(bytes)
}

fn choice_in(seed: &str, tenths: &str) -> Option<Choice> {
    Choice::new(seed.parse::<u64>().ok()?, tenths.parse::<u32>().ok()?)
}

fn task_of_file(rt: &HostRuntime, path: &str, choice: Choice) -> Option<Task> {
    Some(Task {
        code: bytes_in(rt, path)?,
        choice,
        is_told: true,
    })
}

fn task_of_copy(alloc: Global, choice: Choice) -> Option<Task> {
    Some(Task {
        code: bytes_of(alloc, &COPY).ok()?,
        choice,
        is_told: false,
    })
}

// What these words ask for, the program's own first; none where they ask for nothing that there is.
fn task_in(rt: &HostRuntime, words: &[String]) -> Option<Task> {
    match words {
        [_, path, seed, tenths] => {
            let choice = choice_in(seed.as_str(), tenths.as_str())?;
            task_of_file(rt, path.as_str(), choice)
        }
        [_] => task_of_copy(rt.alloc(), Choice::new(0, 10)?),
        _ => None,
    }
}

fn task_of(rt: &HostRuntime) -> Option<Task> {
    let args = env::args(rt).ok()?;
    let words: Vec<String> = args.collect(rt.alloc()).ok()?;
    task_in(rt, &words)
}

fn main(rt: HostRuntime) -> ExitCode {
    let Some(task) = task_of(&rt) else {
        let _ = eprintln!(rt; "test_turned: no FILE SEED TENTHS, or no such file");
        return ExitCode::FAILURE;
    };
    let Task {
        code,
        mut choice,
        is_told,
    } = task;
    match turn_all(rt.alloc(), &code, &mut choice) {
        Ok(met) => {
            if is_told {
                let _ = println!(rt; "{met}");
            }
            ExitCode::SUCCESS
        }
        Err(wrong) => {
            let _ = eprintln!(rt; "test_turned: {wrong}");
            ExitCode::FAILURE
        }
    }
}
