//! Times what is done with programs, for the scripts of bench/: `list SLOTS` decodes and lists a program of so many slots
//! 10,000 times, and `verify SLOTS` decodes and verifies one 1,000 times. It prints how many bytes the listings, or how
//! many slots the accepted programs have together. `run FILE RUNS` runs the program in a file so often, by as many steps a
//! call as go, and prints what the last run left and how many instructions it did, or why the program is refused; `step
//! FILE RUNS` does so step by step.
#![tactic(auto)]

mod running;

use crate::running::{NoRun, last_of};
use pb_asm::disassemble;
use pb_decode::{decode_in, encode};
use pb_helpers::HelperTable;
use pb_isa::{AluOp, Extension, Insn, Operand, Profile, Program, Reg, Size, Width};
use pb_verify::verify;
use std::alloc::Global;

// Straight code: arithmetic on register 0, and its way over the stack.
fn insn_at(place: u16) -> Insn {
    match place % 4 {
        0 => Insn::Alu {
            op: AluOp::Mov,
            width: Width::Bits64,
            dst: Reg::R0,
            src: Operand::Imm(0),
        },
        1 => Insn::Alu {
            op: AluOp::Add,
            width: Width::Bits64,
            dst: Reg::R0,
            src: Operand::Imm(1),
        },
        2 => Insn::Store {
            size: Size::Dw,
            dst: Reg::R10,
            src: Reg::R0,
            offset: -8,
        },
        _ => Insn::Load {
            size: Size::Dw,
            extension: Extension::Zeros,
            dst: Reg::R1,
            src: Reg::R10,
            offset: -8,
        },
    }
}

fn insns_of(alloc: Global, slots: u16) -> Option<Vec<Insn>> {
    let mut insns = Vec::new(alloc);
    for place in 1..slots {
        insns.push(insn_at(place - 1)).ok()?;
    }
    insns.push(Insn::Exit).ok()?;
    Some(insns)
}

// The bytes of a program of so many slots, the last an exit; none where there is no such program, or no memory.
fn bytes_of(alloc: Global, slots: u16) -> Option<Vec<u8>> {
    let insns = insns_of(alloc, slots)?;
    let profile = Profile::Two;
    if !profile.has_all(&insns) {
        return None;
    }
    let program = Program::new(alloc, profile, insns).ok()?;
    encode(alloc, &program).ok()
}

// How many bytes the listing of this program has; none where the bytes are no program's.
fn listing_bytes(alloc: Global, bytes: &[u8]) -> Option<usize> {
    let program = decode_in(alloc, Profile::Two, bytes).ok()?;
    let listing = disassemble(alloc, &program).ok()?;
    Some(listing.len())
}

// How many slots this program has; none where the bytes are no accepted program's.
fn verified_slots(alloc: Global, bytes: &[u8]) -> Option<usize> {
    let program = decode_in(alloc, Profile::Two, bytes).ok()?;
    let accepted = verify(alloc, program, HelperTable::all()).ok()?;
    Some(accepted.slots())
}

fn total_listed(alloc: Global, bytes: &[u8]) -> Option<u64> {
    let mut total: u64 = 0;
    for _ in 0..10_000 {
        total = total.checked_add(listing_bytes(alloc, bytes)? as u64)?;
    }
    Some(total)
}

fn total_verified(alloc: Global, bytes: &[u8]) -> Option<u64> {
    let mut total: u64 = 0;
    for _ in 0..1_000 {
        total = total.checked_add(verified_slots(alloc, bytes)? as u64)?;
    }
    Some(total)
}

// What `list` or `verify` of so many slots comes to.
fn total_of(rt: &HostRuntime, word: &str, slots: &str) -> Option<u64> {
    let bytes = bytes_of(rt.alloc(), slots.parse::<u16>().ok()?)?;
    match word {
        "list" => total_listed(rt.alloc(), &bytes),
        "verify" => total_verified(rt.alloc(), &bytes),
        _ => None,
    }
}

// Prints what the last of so many runs left.
fn tell_run(rt: &HostRuntime, words: &[String], is_by_steps: bool) -> Option<bool> {
    let path = words.get(2)?.as_str();
    let runs = words.get(3)?.as_str().parse::<u32>().ok()?;
    match last_of(rt, path, runs, is_by_steps) {
        Ok(ran) => {
            let end = ran.finished.result();
            let writes = ran.finished.writes().len();
            Some(println!(rt; "result {end} taken {} writes {writes}", ran.taken).is_ok())
        }
        Err(NoRun::Refused(refused)) => {
            let _ = println!(rt; "{refused}");
            Some(false)
        }
        Err(NoRun::Failed) => None,
    }
}

/// Whether what these words ask for, the crate's own first, was done and printed; none where they ask for nothing, or there is
/// no memory.
pub fn is_done(rt: &HostRuntime, words: &[String]) -> Option<bool> {
    let word = words.get(1)?.as_str();
    if word == "run" || word == "step" {
        return tell_run(rt, words, word == "step");
    }
    let total = total_of(rt, word, words.get(2)?.as_str())?;
    Some(println!(rt; "{total}").is_ok())
}
