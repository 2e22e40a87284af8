//! Which arguments a helper accepts. The codes of registers and stack bytes are found here for
//! loads and stores too, so that each rule is written once.
ghost use Rattle.std.specs.Prelude.{◌≡◌, ◌<◌, is_some, IsTrue};
ghost use Rattle.pb_isa.specs.Helpers.{declared_helper};
ghost use Rattle.pb_helpers.specs.Codes.{lowest_code};
ghost use Rattle.pb_helpers.specs.Arguments.{unset, stack_reads, stack_writes, filled_bytes, taken_bytes, is_cell, is_place, read_rules, write_rules, delete_rules, call_rules, ArgumentCodesRise};

use crate::code::RuleCode;
use crate::table::HelperTable;
use pb_kinds::{Frame, Kind, in_stack};

/// The code of a read of the register with this number. If it breaks another rule too, this one is
/// reported, since it is the lowest.
pub fn unset_code(frame: &Frame, register: usize) -> Option<RuleCode>
    requires { register < 11 }
    ensures { result ≡ lowest_code (unset frame.now register) }
{
    RuleCode::ReadsUnset.when(frame.kinds[register].is_unset())
}

/// The lowest code of a read of so many stack bytes, from this distance to the stack's end on. Whether they are written
/// is asked only inside, since a byte outside has no flag.
pub fn stack_read_code(frame: &Frame, at: i64, bytes: u8) -> Option<RuleCode>
    ensures { result ≡ lowest_code (stack_reads frame.now at bytes) }
{
    if in_stack(at, bytes) {
        RuleCode::UnwrittenByte.when(!frame.are_written(at, bytes))
    } else {
        Some(RuleCode::OutsideStack)
    }
}

/// The code of a write of so many bytes, from this distance to the stack's end on.
pub fn stack_write_code(at: i64, bytes: u8) -> Option<RuleCode>
    ensures { result ≡ lowest_code (stack_writes at bytes) }
{
    RuleCode::OutsideStack.when(!in_stack(at, bytes))
}

// The 32 bytes that a read of a cell fills. What isn't a stack pointer has no bytes to judge, since
// it is reported as a wrong argument.
fn filled_bytes(place: Kind) -> Option<RuleCode>
    ensures { result ≡ lowest_code (filled_bytes place) }
{
    match place {
        Kind::Stack(at) => stack_write_code(at, 32),
        Kind::Unset | Kind::Number | Kind::Record(_) => None,
    }
}

// The 32 bytes that a write takes, which have to be written. Nor has anything but a stack pointer bytes to judge here.
fn taken_bytes(frame: &Frame, place: Kind) -> Option<RuleCode>
    ensures { result ≡ lowest_code (taken_bytes frame.now place) }
{
    match place {
        Kind::Stack(at) => stack_read_code(frame, at, 32),
        Kind::Unset | Kind::Number | Kind::Record(_) => None,
    }
}

// Whether row and column are numbers. Any number will do, since a column over 15 is answered when the program runs.
fn is_cell(frame: &Frame) -> bool
    ensures { result ≡ is_cell frame.now }
{
    frame.kinds[1].is_number() && frame.kinds[2].is_number()
}

// Whether it points to the stack. The change record isn't one, since helpers fill and take stack bytes alone.
fn is_place(kind: Kind) -> bool
    ensures { result ≡ is_place kind }
{
    match kind {
        Kind::Stack(_) => true,
        Kind::Unset | Kind::Number | Kind::Record(_) => false,
    }
}

// The rules of helper 1. They stand by rising code, so that the first that is broken is the lowest.
#[tactic(auto, using(crate::proofs::LowestCode::lowest_append))]
fn read_code(frame: &Frame) -> Option<RuleCode>
    ensures { result ≡ lowest_code (read_rules frame.now) }
{
    unset_code(frame, 1)
        .or(unset_code(frame, 2))
        .or(unset_code(frame, 3))
        .or(filled_bytes(frame.kinds[3]))
        .or(RuleCode::WrongArgument.when(!(is_cell(frame) && is_place(frame.kinds[3]))))
}

// Those of helper 2. Its 32 bytes are read, so that they also have to be written.
#[tactic(auto, using(crate::proofs::LowestCode::lowest_append))]
fn write_code(frame: &Frame) -> Option<RuleCode>
    ensures { result ≡ lowest_code (write_rules frame.now) }
{
    unset_code(frame, 1)
        .or(unset_code(frame, 2))
        .or(unset_code(frame, 3))
        .or(taken_bytes(frame, frame.kinds[3]))
        .or(RuleCode::WrongArgument.when(!(is_cell(frame) && is_place(frame.kinds[3]))))
}

// Those of helper 3, which takes no bytes.
#[tactic(auto, using(crate::proofs::LowestCode::lowest_append))]
fn delete_code(frame: &Frame) -> Option<RuleCode>
    ensures { result ≡ lowest_code (delete_rules frame.now) }
{
    unset_code(frame, 1)
        .or(unset_code(frame, 2))
        .or(RuleCode::WrongArgument.when(!is_cell(frame)))
}

/// The lowest code of the rules that a call of the helper with this number breaks; none where the helper is declared and
/// accepts what the registers hold.
pub fn argument_code(helpers: HelperTable, number: i32, frame: &Frame) -> Option<RuleCode>
    ensures { result ≡ lowest_code (call_rules frame.now (declared_helper helpers number)) }
{
    if !helpers.declares(number) {
        return Some(RuleCode::NotDeclared);
    }
    // The start takes no argument, and another number isn't declared.
    match number {
        1 => read_code(frame),
        2 => write_code(frame),
        3 => delete_code(frame),
        _ => None,
    }
}

/// The codes of a call are listed lowest first, all from 21 to 31. The verifier's law of all rules rests on it.
pub fn argument_codes_rise()
    ensures { ArgumentCodesRise }
{}
