//! Moves the machine of a program, for the rows of checks/tables/machines.py.
//!
//! With `PROFILE DIGITS COLUMN CONTENT MOVE..` the program with these digits and all helpers, accepted in this profile, runs at 3 on
//! a change of this column in row 7: the transaction from 258 to 772 wrote the value whose first bytes have these digits, or
//! deleted it with `-`, and 5 is acknowledged. A move is one step by `.`, at most so many by a number, and by `>` all up to the next
//! ask or the end; and a reply to an ask, as a content is written.
//!
//! It prints for each move what it did, where the machine stands then, and how many instructions it has done; and of one that has
//! ended what it left, and in which profiles its digits are its program's. With `--help` it names its words. It has no answer
//! where it has no such words or no memory, and where a move can't be made.
#![tactic(auto)]

mod left;
mod moves;

use left::add_left;
use moves::add_move;
use pb_accepted::Accepted;
use pb_base::{Cell, Column, Content, Revision, Row, Ts, Value};
use pb_finished::Finished;
use pb_helpers::{HelperTable, Record, Version};
use pb_isa::Profile;
use pb_registry::accept_in;
use pb_vm::{MachinePhase, Vm};
use std::alloc::Global;
use std::sync::Arc;

const WORDS: &str = "PROFILE DIGITS COLUMN CONTENT MOVE..";

/// The value whose first bytes have these digits, with zeros after them; none by `-`.
pub fn value_in(word: &str) -> Option<Option<Value>> {
    if word == "-" {
        return Some(None);
    }
    let mut value = [0; 32];
    let bytes = value.get_mut(..word.len() / 2)?;
    hex::decode_to_slice(word, bytes).ok()?;
    Some(Some(value))
}

fn profile_in(word: &str) -> Option<Profile> {
    match word {
        "1" => Some(Profile::One),
        "2" => Some(Profile::Two),
        _ => None,
    }
}

// The program of these digits, with all helpers.
fn accepted_in(alloc: Global, profile: Profile, digits: &str) -> Option<Arc<Accepted>> {
    let bytes = hex::decode(alloc, digits).ok()?;
    let accepted = accept_in(alloc, profile, Version::First, &bytes, HelperTable::all()).ok()?;
    Arc::new(alloc, accepted).ok()
}

// Adds in which profiles the program of these digits is the one that ran.
fn add_profiles(alloc: Global, text: &mut String, finished: &Finished, digits: &str) -> Option<()> {
    for number in ["1", "2"] {
        if let Some(program) = accepted_in(alloc, profile_in(number)?, digits) {
            if finished.is_of(&program) {
                writeln!(text, "of profile {number}").ok()?;
            }
        }
    }
    Some(())
}

// The version that a program runs on.
fn version_in(word: &str) -> Option<Revision> {
    Some(Revision {
        start: Ts(258),
        commit: Ts(772),
        content: match value_in(word)? {
            Some(value) => Content::Value(value),
            None => Content::Deleted,
        },
    })
}

fn cell_in(word: &str) -> Option<Cell> {
    Some(Cell::Data(Row(7), Column::new(word.parse::<u8>().ok()?)?))
}

// The machine of a program, on the change of a cell.
fn machine_of(
    alloc: Global,
    program: &Arc<Accepted>,
    cell: Cell,
    version: &Revision,
) -> Option<Vm> {
    let record = Record::of_version(program.version(), cell, version, Ts(5), None);
    Vm::start(alloc, program, record, Ts(3)).ok()
}

fn machine_in(alloc: Global, words: &[String]) -> Option<Vm> {
    let [_, profile, digits, column, content, ..] = words else {
        return None;
    };
    let cell = cell_in(column.as_str())?;
    let version = version_in(content.as_str())?;
    let program = accepted_in(alloc, profile_in(profile.as_str())?, digits.as_str())?;
    machine_of(alloc, &program, cell, &version)
}

fn add_moves(text: &mut String, vm: &mut Vm, moves: &[String]) -> Option<()> {
    for word in moves {
        add_move(text, vm, word.as_str())?;
    }
    Some(())
}

// Adds what a machine left that has ended, and in which profiles its digits are its program's.
fn add_end(alloc: Global, text: &mut String, vm: Vm, digits: &str) -> Option<()> {
    if let MachinePhase::Over(_) = vm.phase() {
        let finished = vm.finish();
        add_left(alloc, text, &finished).ok()?;
        add_profiles(alloc, text, &finished, digits)?;
    }
    Some(())
}

// What the words ask for.
fn told_by(alloc: Global, words: &[String]) -> Option<String> {
    let digits = words.get(2)?.as_str();
    let moves = words.get(5..)?;
    let mut vm = machine_in(alloc, words)?;
    let mut text = String::new(alloc);
    let are_moved = add_moves(&mut text, &mut vm, moves).is_some();
    if add_end(alloc, &mut text, vm, digits).is_some() && are_moved {
        Some(text)
    } else {
        None
    }
}

/// Whether what these words ask for, the crate's own first, was done and printed.
pub fn are_words_done(rt: &HostRuntime, words: &[String]) -> Option<bool> {
    if words.get(1)?.as_str() == "--help" {
        return Some(println!(rt; "{WORDS}").is_ok());
    }
    let text = told_by(rt.alloc(), words)?;
    Some(print!(rt; "{text}").is_ok())
}
