//! Whether the rules hold at every slot, in one pass, which is enough since no accepted jump goes back. One frame goes
//! along and is changed in place. A jump leaves a copy of it at its target, joined with what waits there already; at a
//! slot where a frame waits, the one that goes along is joined with it, if the instruction before leads on. Then the
//! rules are tested with it, the instruction is resolved by it, and it becomes the frame after.
//!
//! This program is accepted. Its nine frames (a row of `checks/tables/frames.py`), each before its instruction:
//!
//! ```text
//! 0  r1=record+0 r10=stack+0                                    mov64 r0, 0
//! 1  r0=number r1=record+0 r10=stack+0                          mov64 r7, r1
//! 2  r0=number r1=record+0 r7=record+0 r10=stack+0              mov64 r8, 0
//! 3  r0=number r1=record+0 r7=record+0 r8=number r10=stack+0    jeq64 r0, 0, +3  a copy of this frame waits at 7
//! 4  r0=number r1=record+0 r7=record+0 r8=number r10=stack+0    add64 r7, 8      a pointer is moved
//! 5  r0=number r1=record+0 r7=record+8 r8=number r10=stack+0    mov64 r8, r1     mov64 keeps what it copies
//! 6  r0=number r1=record+0 r7=record+8 r8=record+0 r10=stack+0  stb [r10-1], 0   the stack byte at -1 is written
//! 7  r0=number r1=record+0 r10=stack+0                          stb [r10-1], 0   r7, r8 and the byte differ by the way
//! 8  r0=number r1=record+0 r10=stack+0 written=-1..-1           exit
//! ```
//!
//! A read of `r7` at 7 would be refused with 21, since it isn't the same on both ways, and one of the byte with 26.
ghost use Rattle.std.specs.Prelude.{◌≡◌, ◌<◌, ◌^◌, Some, None, true, if◌then◌else◌, IfOk, IfErr, IfNone};
ghost use Rattle.pb_isa.specs.Slots.{slots};
ghost use Rattle.pb_base.specs.Growths.{refused_growth};
ghost use Rattle.pb_helpers.specs.declared.change.Version.TheVariants as Version;
ghost use Rattle.pb_accepted.specs.Versions.{judged_by};
ghost use Rattle.pb_helpers.specs.Codes.{lowest_code};
ghost use Rattle.pb_accepted.specs.Arriving.{codes_at};
ghost use Rattle.pb_verify.specs.Verdict.{IsAccepted, IsVerifyFault, EachHasOneVerdict};
ghost use Rattle.pb_verify.specs.Within.{IsWithinIf};
ghost use Rattle.pb_verify.specs.declared.verifier.VerifyFault.TheVariants.{NoMemory};

use crate::accesses::access_of;
use crate::arriving::{arrive, no_jumps, spread};
use crate::following::step;
use crate::resolving::{resolve, resolve_next};
use crate::rules::lowest_broken;
use pb_accepted::{Accepted, Op};
use pb_base::{NoMemory, Refused};
use pb_decode::PackedProgram;
use pb_helpers::{HelperTable, RuleCode, Version};
use pb_isa::{Insn, Program};
use pb_kinds::{Frame, entry};
use std::alloc::{AllocError, Global};
use thiserror::Error;

/// Why a program isn't accepted: memory was refused, or the rules fail, at a slot (from 0) and with a code from 21 to 38.
#[derive(Debug, Drop, Error)]
pub enum VerifyFault {
    #[error("{0}")]
    NoMemory(NoMemory),
    #[error("{0}")]
    Refused(Refused),
}

impl From<NoMemory> for VerifyFault {
    ghost from_gives = { λ e f. f ≡ NoMemory e };

    fn from(e: NoMemory) -> VerifyFault {
        VerifyFault::NoMemory(e)
    }
}

impl From<AllocError> for VerifyFault {
    ghost from_gives = { λ _ f. f ≡ NoMemory refused_growth };

    fn from(e: AllocError) -> VerifyFault {
        VerifyFault::NoMemory(NoMemory::from(e))
    }
}

// The lowest code of the rules that are broken at a slot with this instruction and this frame before it, if it is
// reached; else 35 alone, since without a frame there is nothing to test by.
fn code_at(
    program: &Program,
    helpers: HelperTable,
    version: Version,
    slot: usize,
    insn: Insn,
    frame: &Frame,
    is_reached: bool,
) -> Option<RuleCode>
    requires inside { slot < slots program.now.insns }
    requires near { IsWithinIf (2 ^ 62) (if is_reached then Some frame.now else None) }
    ensures value { result ≡ lowest_code (codes_at (judged_by version program.now helpers) slot
        (Some insn)
        (if is_reached then Some frame.now else None)) }
    ensures reached { IfNone result (is_reached ≡ true) }
{
    if is_reached {
        lowest_broken(program, helpers, version, slot, frame, insn)
    } else {
        Some(RuleCode::Unreachable)
    }
}

/// Accepts a program if the rules hold at every slot with these helpers. Else it returns the first
/// slot at fault, with the lowest code there, and drops the program.
pub fn verify(
    alloc: Global,
    program: Program,
    helpers: HelperTable,
) -> Result<Accepted, VerifyFault>
    ensures accepted { IfOk result (IsAccepted Version.First program helpers) }
    ensures refused { IfErr result (IsVerifyFault (judged_by Version.First program helpers)) }
{
    verify_for(alloc, program, helpers, Version::First)
}

/// Accepts a program if the rules hold at every slot with these helpers, for change records of a
/// version, which says how many bytes may be loaded. Else it returns the first slot at fault, with
/// the lowest code there, and drops the program.
pub fn verify_for(
    alloc: Global,
    program: Program,
    helpers: HelperTable,
    version: Version,
) -> Result<Accepted, VerifyFault>
    ensures accepted { IfOk result (IsAccepted version program helpers) }
    ensures refused { IfErr result (IsVerifyFault (judged_by version program helpers)) }
{
    let mut jumps = no_jumps(alloc, program.slots())?;
    // Room for all operations before the pass, so that each is one push.
    let mut ops = Vec::<Op>::with_capacity(alloc, program.slots())?;
    let mut frame = entry();
    // The slot that the frame leads to in order.
    let mut next = 0;
    for slot in 0..program.slots() {
        let Some(insn) = program.at(slot) else {
            // The second slot of a pair: it has no rules, and the frame goes past it. Its instruction is that of the
            // slot before.
            let first = program.at(slot.saturating_sub(1));
            ops.push_reserved(resolve_next(first));
            continue;
        };
        let is_reached = arrive(&mut jumps, slot, &mut frame, slot == next);
        if let Some(code) = code_at(&program, helpers, version, slot, insn, &frame, is_reached) {
            return Err(VerifyFault::Refused(Refused {
                slot: slot as u16,
                code: code.code(),
            }));
        }
        // Before the frame goes on, since a load may put a number into its own base.
        let access = access_of(&frame, insn);
        ops.push_reserved(resolve(slot, insn, access));
        step(&mut frame, insn);
        next = spread(alloc, &mut jumps, slot, insn, &frame)?;
    }
    let packed = PackedProgram::new(alloc, program)?;
    Ok(Accepted::new(packed, helpers, version, ops))
}

/// The rules accept a program, or they refuse it at one slot with one code, and not both.
pub fn either_accepted_or_refused()
    ensures { EachHasOneVerdict }
{}
