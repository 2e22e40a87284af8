//! What is known before each slot of a program, accepted or not: the verifier's pass without its rules, by the same
//! calls, so that whoever is refused can be shown what was known there.
ghost use Rattle.std.specs.Prelude.{◌≡◌, ◌<◌, ℕ, None, length, slice_index_or, IfOk};
ghost use Rattle.pb_isa.specs.Slots.{slots};
ghost use Rattle.pb_verify.specs.Known.{known_at};

use crate::arriving::{arrive, no_jumps, spread};
use crate::following::step;
use pb_base::NoMemory;
use pb_isa::Program;
use pb_kinds::{Frame, entry};
use std::alloc::Global;

/// For each slot of a program what is known before its instruction, as [`verify`](crate::verify) comes to know it,
/// whether it accepts the program or not; none where no earlier instruction leads, and none for the second slot of a
/// pair. It keeps a frame for each slot, which the verifier doesn't, since only a reader wants all.
pub fn frames(alloc: Global, program: &Program) -> Result<Vec<Option<Frame>>, NoMemory>
    ensures len { IfOk result (λ v. length v.items ≡ slots program.now.insns) }
    ensures each { IfOk result (λ v. (n : ℕ) → n < slots program.now.insns
        → slice_index_or v.items n None ≡ known_at program.now.insns n) }
{
    let mut jumps = no_jumps(alloc, program.slots())?;
    let mut known = Vec::with_capacity(alloc, program.slots())?;
    let mut frame = entry();
    // The slot that the frame leads to in order.
    let mut next = 0;
    for slot in 0..program.slots() {
        let Some(insn) = program.at(slot) else {
            known.push_reserved(None);
            continue;
        };
        let is_reached = arrive(&mut jumps, slot, &mut frame, slot == next);
        // Nothing is followed from here, since what the frame says is of an instruction that doesn't lead here.
        if !is_reached {
            known.push_reserved(None);
            continue;
        }
        known.push_reserved(Some(frame));
        step(&mut frame, insn);
        next = spread(alloc, &mut jumps, slot, insn, &frame)?;
    }
    Ok(known)
}
