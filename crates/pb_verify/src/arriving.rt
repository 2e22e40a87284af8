//! The frame with which a slot is reached: what goes along, joined with what jumps left there.
ghost use Rattle.std.specs.Prelude.{◌≡◌, ◌<◌, ◌≤◌, ◌+◌, ℕ, Some, None, [], ◌∷◌, if◌then◌else◌, nat_eq, length, slice_index_or, option_map, IfOk, OnOk};
ghost use Rattle.std.specs.Box.{box_value};
ghost use Rattle.pb_isa.specs.Slots.{places_of};
ghost use Rattle.pb_accepted.specs.Following.{ahead};
ghost use Rattle.pb_accepted.specs.Arriving.{has_slot, if_leads, merge};

use pb_base::NoMemory;
use pb_isa::{Insn, MAX_SLOTS};
use pb_kinds::{Frame, join};
use std::alloc::Global;
use std::boxed::Box;

/// The frame before a slot, in place: the frame after the last instruction, where it falls through to here, joined with
/// what jumps brought. False where nothing leads here. What waited is taken out of its box, so that each frame is kept
/// only up to its slot.
pub fn arrive(jumps: &mut [Option<Box<Frame>>], slot: usize, frame: &mut Frame, falls: bool) -> bool
    requires { slot < length jumps.old }
    ensures known { (if result then Some frame.new else None) ≡ merge
        (option_map box_value (slice_index_or jumps.old slot None))
        (if falls then Some frame.old else None) }
    ensures len { length jumps.new ≡ length jumps.old }
    ensures rest { (k : ℕ) → slot < k → slice_index_or jumps.new k None
        ≡ slice_index_or jumps.old k None }
{
    match jumps[slot].take() {
        None => falls,
        Some(jumped) => {
            *frame = if falls { join(&jumped, frame) } else { *jumped };
            true
        }
    }
}

// The frame that is known at a slot ahead, if this one jumps there too. A box is made for the first
// jump to a slot alone, so that straight code copies no frame. A target past the end is passed
// over: the verifier has refused it, but `frames` comes to it, since it also takes refused
// programs.
fn send(
    alloc: Global,
    jumps: &mut [Option<Box<Frame>>],
    to: usize,
    frame: &Frame,
) -> Result<(), NoMemory>
    ensures len { length jumps.new ≡ length jumps.old }
    ensures each { OnOk result ((k : ℕ) → k < length jumps.old
        → option_map box_value (slice_index_or jumps.new k None) ≡ merge
        (option_map box_value (slice_index_or jumps.old k None))
        (if nat_eq k to then Some frame.now else None)) }
{
    if to < jumps.len() {
        let known = match jumps[to].take() {
            None => Box::new(alloc, *frame)?,
            Some(mut known) => {
                *known = join(&known, frame);
                known
            }
        };
        jumps[to] = Some(known);
    }
    Ok(())
}

// Where a jump goes back, nothing is sent: the definition leads to later slots alone, so that one pass is enough.
fn jump(
    alloc: Global,
    jumps: &mut [Option<Box<Frame>>],
    slot: usize,
    offset: i16,
    frame: &Frame,
) -> Result<(), NoMemory>
    requires { slot < MAX_SLOTS }
    ensures len { length jumps.new ≡ length jumps.old }
    ensures each { OnOk result ((k : ℕ) → k < length jumps.old
        → option_map box_value (slice_index_or jumps.new k None) ≡ merge
        (option_map box_value (slice_index_or jumps.old k None))
        (if has_slot (ahead slot offset) k then Some frame.now else None)) }
{
    if offset >= 0 {
        send(alloc, jumps, slot + 1 + offset as usize, frame)?;
    }
    Ok(())
}

/// Joins the frame after a slot into those of the slots that it leads to, but for the next
/// instruction's. It returns the next instruction's slot, or 0 if it doesn't lead there, since no
/// instruction leads to the first slot.
pub fn spread(
    alloc: Global,
    jumps: &mut [Option<Box<Frame>>],
    slot: usize,
    insn: Insn,
    frame: &Frame,
) -> Result<usize, NoMemory>
    requires { slot < MAX_SLOTS }
    ensures len { length jumps.new ≡ length jumps.old }
    ensures each { IfOk result (λ next. (k : ℕ) → slot < k → k < length jumps.old
        → merge (option_map box_value (slice_index_or jumps.new k None))
        (if nat_eq k next then Some frame.now else None) ≡ merge
        (option_map box_value (slice_index_or jumps.old k None))
        (if_leads (Some insn) slot k (Some frame.now))) }
    ensures most { IfOk result (λ next. next ≤ slot + 2) }
    ensures pair { IfOk result (λ next. slot + 1 < next → places_of insn ≡ Some insn ∷ None ∷ []) }
{
    match insn {
        Insn::Exit => Ok(0),
        Insn::LoadImm { .. } => Ok(slot + 2),
        Insn::Jump { offset } => {
            jump(alloc, jumps, slot, offset, frame)?;
            Ok(0)
        }
        Insn::JumpIf { offset, .. } => {
            // With offset 0 both ways lead to the next slot, so that the frame goes along and needn't wait too.
            if offset != 0 {
                jump(alloc, jumps, slot, offset, frame)?;
            }
            Ok(slot + 1)
        }
        _ => Ok(slot + 1),
    }
}

/// No frames: nothing has jumped anywhere. A place for each slot, and a box in it only once a jump
/// leads there, since a frame has a flag for each byte of the stack.
pub fn no_jumps(alloc: Global, slots: usize) -> Result<Vec<Option<Box<Frame>>>, NoMemory>
    ensures len { IfOk result (λ v. length v.items ≡ slots) }
    ensures each { IfOk result (λ v. (k : ℕ) → slice_index_or v.items k None ≡ None) }
{
    let mut jumps = Vec::new(alloc);
    for _ in 0..slots {
        jumps.push(None)?;
    }
    Ok(jumps)
}
