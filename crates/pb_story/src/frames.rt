//! What is known before each slot of a program, in words. It is printed for a program that is refused
//! too, since that is when it is asked for.
ghost use Rattle.std.specs.Prelude.{◌≡◌, ◌<◌, ◌≤◌, ◌+◌, ◌++◌, length, drop, IfOk, OnOk, string_bytes};
ghost use Rattle.pb_isa.specs.declared.limits.TheConstants.{STACK_BYTES};
ghost use Rattle.pb_story.specs.Frames.{distance_text, register_text, registers_text, run_length, begins_run, run_text, run_at, runs_text, frame_text, line_at, frames_text};

use pb_base::NoMemory;
use pb_isa::{Insn, Program, STACK_BYTES};
use pb_kinds::{Frame, Kind};
use pb_verify::frames;
use std::alloc::{AllocError, Global};

// Adds a distance, always with its sign.
fn add_distance(text: &mut String, distance: i64) -> Result<(), AllocError>
    ensures { OnOk result (string_bytes text.new
        ≡ string_bytes text.old ++ distance_text distance) }
{
    if distance < 0 {
        write!(text, "{distance}")
    } else {
        write!(text, "+{distance}")
    }
}

// Adds what is known of a register, if anything is.
fn add_register(text: &mut String, number: usize, kind: Kind) -> Result<(), AllocError>
    ensures { OnOk result (string_bytes text.new
        ≡ string_bytes text.old ++ register_text number kind) }
{
    match kind {
        Kind::Unset => text.push_str(""),
        Kind::Number => write!(text, " r{number}=number"),
        Kind::Stack(distance) => {
            write!(text, " r{number}=stack")?;
            add_distance(text, distance)
        }
        Kind::Record(distance) => {
            write!(text, " r{number}=record")?;
            add_distance(text, distance)
        }
    }
}

// Adds what is known of the registers, by their numbers.
fn add_registers(text: &mut String, kinds: &[Kind]) -> Result<(), AllocError>
    ensures { OnOk result (string_bytes text.new
        ≡ string_bytes text.old ++ registers_text kinds.now) }
{
    for (number, kind) in kinds.iter().enumerate() {
        add_register(text, number, *kind)?;
    }
    Ok(())
}

// How many bytes are written before the first that isn't: how long a run is that begins with the first.
fn run_length(written: &[bool]) -> usize
    ensures count { result ≡ run_length written.now }
    ensures few { result ≤ length written.now }
{
    match written {
        [true, rest @ ..] => run_length(rest) + 1,
        _ => 0,
    }
}

// Whether a byte is written and the one below it isn't, so that a run begins at its lowest byte alone.
fn begins_run(written: &[bool], place: usize) -> bool
    requires { place < length written.now }
    ensures { result ≡ begins_run written.now place }
{
    let has_below = place > 0 && written[place - 1];
    written[place] && !has_below
}

// Adds the run of so many written bytes from a place on, by their distances to the stack's end.
fn add_run(text: &mut String, place: usize, count: usize) -> Result<(), AllocError>
    requires { place + count ≤ STACK_BYTES }
    ensures { OnOk result (string_bytes text.new ≡ string_bytes text.old ++ run_text place count) }
{
    let first = STACK_BYTES - place;
    // One more, since the distance is that of the last byte and not of the byte after it.
    let last = STACK_BYTES + 1 - (place + count);
    write!(text, " written=-{first}..-{last}")
}

// Adds the longest run of written bytes that begins at a place, if one does.
fn add_run_at(text: &mut String, written: &[bool], place: usize) -> Result<(), AllocError>
    requires inside { place < length written.now }
    requires few { length written.now ≤ STACK_BYTES }
    ensures { OnOk result (string_bytes text.new
        ≡ string_bytes text.old ++ run_at written.now place) }
{
    if begins_run(written, place) {
        add_run(text, place, run_length(&written[place..]))
    } else {
        text.push_str("")
    }
}

// Adds the longest runs of written bytes, from the lowest.
fn add_runs(text: &mut String, written: &[bool]) -> Result<(), AllocError>
    requires { length written.now ≤ STACK_BYTES }
    ensures { OnOk result (string_bytes text.new ≡ string_bytes text.old ++ runs_text written.now) }
{
    for (place, _byte) in written.iter().enumerate() {
        add_run_at(text, written, place)?;
    }
    Ok(())
}

// Adds what a frame says.
fn add_frame(text: &mut String, frame: &Frame) -> Result<(), AllocError>
    ensures { OnOk result (string_bytes text.new ≡ string_bytes text.old ++ frame_text frame.now) }
{
    add_registers(text, &frame.kinds)?;
    add_runs(text, &frame.written)
}

// Adds the line of a slot with this instruction and this frame before it. The second slot of a wide instruction has
// none, since nothing begins there.
fn add_line(
    text: &mut String,
    slot: usize,
    insn: Option<Insn>,
    frame: &Option<Frame>,
) -> Result<(), AllocError>
    ensures { OnOk result (string_bytes text.new
        ≡ string_bytes text.old ++ line_at slot insn frame.now) }
{
    if insn.is_none() {
        return text.push_str("");
    }
    match frame {
        None => write!(text, "{slot} unreachable\n"),
        Some(frame) => {
            write!(text, "{slot}")?;
            add_frame(text, frame)?;
            text.push_str("\n")
        }
    }
}

/// What is known before each instruction of a program, by the verifier's rules, a line for each: its slot, the kinds of the
/// registers that aren't unset, and the runs of written stack bytes; or that nothing leads there.
pub fn frames_text(alloc: Global, program: &Program) -> Result<String, NoMemory>
    ensures { IfOk result (λ s. string_bytes s ≡ frames_text program.now.insns) }
{
    let known = frames(alloc, program)?;
    let mut text = String::new(alloc);
    for slot in 0..program.slots() {
        add_line(&mut text, slot, program.at(slot), &known[slot])?;
    }
    Ok(text)
}
