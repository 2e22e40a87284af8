//! Calls on programs, their bytes and their texts.
use crate::refusals::Refusals;
use pb_asm::{assemble, disassemble};
use pb_base::NoMemory;
use pb_decode::{DecodeFault, decode, encode};
use pb_helpers::HelperTable;
use pb_isa::{Insn, NoProgram, Profile, Program, Reg};
use pb_verify::{VerifyFault, frames, verify};
use std::alloc::Global;
use test_fixtures::Unready;

const TEXT: &str = "# five\nlddw r0, 5\nexit\n";

const LISTING: &str = "lddw r0, 5\nexit\n";

// Jumps to two slots, to each of which the slot before leads too.
const BRANCHING: &str =
    "mov64 r2, 1\nstdw [r10-8], 2\njeq64 r2, 1, +2\nmov64 r3, 4\njne64 r2, 5, +1\nmov64 r3, 6\nldxdw r0, [r10-8]\nexit\n";

const BYTES: &[u8] = b"\x18\0\0\0\x05\0\0\0\0\0\0\0\0\0\0\0\x95\0\0\0\0\0\0\0";

fn insns(alloc: Global) -> Result<Vec<Insn>, NoMemory> {
    let mut insns = Vec::new(alloc);
    insns.push(Insn::LoadImm {
        dst: Reg::R0,
        imm: 5,
    })?;
    insns.push(Insn::Exit)?;
    Ok(insns)
}

// What `Program::new` answers of those instructions.
fn make_program(alloc: Global) -> Result<Result<Program, NoProgram>, NoMemory> {
    let insns = insns(alloc)?;
    if !Profile::One.has_all(&insns) {
        return Ok(Err(NoProgram::NotInRange(insns)));
    }
    Ok(Program::new(alloc, Profile::One, insns))
}

// The program of those instructions.
fn program(alloc: Global) -> Result<Program, Unready> {
    match make_program(alloc)? {
        Ok(program) => Ok(program),
        Err(NoProgram::NoMemory(refused)) => Err(Unready::NoMemory(refused)),
        Err(NoProgram::NotInRange(_)) => Err(Unready::Other("the profile lacks an instruction")),
    }
}

// Whether it is that program.
fn is_it(program: &Program) -> bool {
    let insns = program.insns();
    program.slots() == 3
        && insns.len() == 2
        && insns[0]
            == Insn::LoadImm {
                dst: Reg::R0,
                imm: 5,
            }
        && insns[1] == Insn::Exit
}

// Each attempt answers whether what it made is as it has to be; nothing where memory is refused for it.
fn made(alloc: Global) -> Result<Option<bool>, NoMemory> {
    match make_program(alloc)? {
        Ok(program) => Ok(Some(is_it(&program))),
        Err(NoProgram::NotInRange(_)) => Ok(Some(false)),
        Err(NoProgram::NoMemory(_)) => Ok(None),
    }
}

/// `Program::new`.
pub fn programs_are_made(alloc: Global, refusals: &mut Refusals) -> Result<bool, NoMemory> {
    if let Some(held) = made(alloc)? {
        return Ok(held);
    }
    refusals.note("Program::new");
    Ok(made(alloc)? == Some(true))
}

fn decoded(alloc: Global) -> Option<bool> {
    match decode(alloc, BYTES) {
        Ok(program) => Some(is_it(&program)),
        Err(DecodeFault::Refused(_)) => Some(false),
        Err(DecodeFault::NoMemory(_)) => None,
    }
}

/// `decode`.
pub fn bytes_are_decoded(alloc: Global, refusals: &mut Refusals) -> bool {
    if let Some(held) = decoded(alloc) {
        return held;
    }
    refusals.note("decode");
    decoded(alloc) == Some(true)
}

fn encoded(alloc: Global, program: &Program) -> Option<bool> {
    match encode(alloc, program) {
        Ok(bytes) => Some(is_it(program) && bytes.as_slice() == BYTES),
        Err(_) => None,
    }
}

/// `encode`.
pub fn programs_are_encoded(alloc: Global, refusals: &mut Refusals) -> Result<bool, Unready> {
    let program = program(alloc)?;
    if let Some(held) = encoded(alloc, &program) {
        return Ok(held);
    }
    refusals.note("encode");
    Ok(encoded(alloc, &program) == Some(true))
}

/// `assemble`.
pub fn texts_are_assembled(alloc: Global, refusals: &mut Refusals) -> bool {
    let fault = match assemble(alloc, TEXT) {
        Ok(program) => return is_it(&program),
        Err(fault) => fault,
    };
    refusals.note("assemble");
    match assemble(alloc, TEXT) {
        Ok(program) => fault.line() == 0 && fault.code() == 1 && is_it(&program),
        Err(_) => false,
    }
}

fn listed(alloc: Global, program: &Program) -> Option<bool> {
    match disassemble(alloc, program) {
        Ok(text) => Some(is_it(program) && text.as_str() == LISTING),
        Err(_) => None,
    }
}

/// `disassemble`.
pub fn programs_are_listed(alloc: Global, refusals: &mut Refusals) -> Result<bool, Unready> {
    let program = program(alloc)?;
    if let Some(held) = listed(alloc, &program) {
        return Ok(held);
    }
    refusals.note("disassemble");
    Ok(listed(alloc, &program) == Some(true))
}

fn verified(alloc: Global) -> Result<Option<bool>, Unready> {
    match verify(alloc, program(alloc)?, HelperTable::none()) {
        Ok(accepted) => Ok(Some(is_it(accepted.program()))),
        Err(VerifyFault::Refused(_)) => Ok(Some(false)),
        Err(VerifyFault::NoMemory(_)) => Ok(None),
    }
}

/// `verify`, which drops the program where memory is refused.
pub fn programs_are_verified(alloc: Global, refusals: &mut Refusals) -> Result<bool, Unready> {
    if let Some(held) = verified(alloc)? {
        return Ok(held);
    }
    refusals.note("verify");
    Ok(verified(alloc)? == Some(true))
}

fn branching(alloc: Global) -> Result<Program, Unready> {
    Ok(assemble(alloc, BRANCHING)?)
}

fn verified_with_jumps(alloc: Global) -> Result<Option<bool>, Unready> {
    match verify(alloc, branching(alloc)?, HelperTable::none()) {
        Ok(accepted) => Ok(Some(accepted.slots() == 8)),
        Err(VerifyFault::Refused(_)) => Ok(Some(false)),
        Err(VerifyFault::NoMemory(_)) => Ok(None),
    }
}

/// `verify` of a program with jumps.
pub fn jumps_are_verified(alloc: Global, refusals: &mut Refusals) -> Result<bool, Unready> {
    if let Some(held) = verified_with_jumps(alloc)? {
        return Ok(held);
    }
    refusals.note("verify");
    Ok(verified_with_jumps(alloc)? == Some(true))
}

fn told(alloc: Global, program: &Program) -> Option<bool> {
    match frames(alloc, program) {
        Ok(known) => Some(known.len() == 8 && known.iter().all(|frame| frame.is_some())),
        Err(_) => None,
    }
}

/// `frames` of a program with jumps, each slot of which is led to.
pub fn frames_are_told(alloc: Global, refusals: &mut Refusals) -> Result<bool, Unready> {
    let program = branching(alloc)?;
    if let Some(held) = told(alloc, &program) {
        return Ok(held);
    }
    refusals.note("frames");
    Ok(told(alloc, &program) == Some(true))
}
