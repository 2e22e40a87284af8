use pb_helpers::{HelperTable, RuleCode, argument_code};
use pb_kinds::{Frame, Kind, entry, in_stack};
use std::process::Abort;
use std::rt::HostRuntime;
use std::test::*;

// The codes of the rules, by their numbers.
const RULES: [(RuleCode, u8); 18] = [
    (RuleCode::ReadsUnset, 21),
    (RuleCode::WritesR10, 22),
    (RuleCode::PointerArithmetic, 23),
    (RuleCode::PointerStored, 24),
    (RuleCode::OutsideStack, 25),
    (RuleCode::UnwrittenByte, 26),
    (RuleCode::OutsideRecord, 27),
    (RuleCode::WritesRecord, 28),
    (RuleCode::ThroughNumber, 29),
    (RuleCode::NotDeclared, 30),
    (RuleCode::WrongArgument, 31),
    (RuleCode::BackwardJump, 32),
    (RuleCode::JumpOutside, 33),
    (RuleCode::JumpIntoPair, 34),
    (RuleCode::Unreachable, 35),
    (RuleCode::FallsOff, 36),
    (RuleCode::ExitsWithPointer, 37),
    (RuleCode::PointerCompared, 38),
];

#[test]
fn numbers_of_codes(rt: HostRuntime) {
    for (code, number) in RULES {
        assert!(rt; code.code() == number, "{number}");
    }
}

#[test]
fn tables(rt: HostRuntime) {
    for number in [-1, 0, 5, 257] {
        assert!(rt;
            !HelperTable::all().declares(number) && HelperTable::none().with(number).is_none(),
            "{number}"
        );
    }
    for number in 1..5 {
        assert!(rt;
            HelperTable::all().declares(number) && !HelperTable::none().declares(number),
            "{number}"
        );
    }
}

#[test]
fn tables_with_one_more(rt: HostRuntime) {
    let one = HelperTable::none().with(2).expect(&rt, "helper 2");
    let two = one.with(4).expect(&rt, "helper 4");
    let again = two.with(2).expect(&rt, "helper 2");
    for number in 0..6 {
        assert!(rt;
            one.declares(number) == (number == 2)
                && two.declares(number) == (number == 2 || number == 4),
            "{number}"
        );
    }
    assert!(rt; again == two);
}

// A frame with these kinds in registers 1 to 3, and with the stack's last 32 bytes written.
fn frame_with(rt: &impl Abort, row: Kind, column: Kind, place: Kind) -> Frame {
    let mut frame = entry();
    frame.kinds[1] = row;
    frame.kinds[2] = column;
    frame.kinds[3] = place;
    assert!(rt; in_stack(-32, 32));
    frame.write(-32, 32);
    frame
}

// The code with which a call is refused where all helpers are declared, and 0 where there is none.
fn call_code(frame: &Frame, helper: i32) -> u8 {
    match argument_code(HelperTable::all(), helper, frame) {
        Some(code) => code.code(),
        None => 0,
    }
}

#[test]
fn arguments(rt: HostRuntime) {
    let number = Kind::Number;
    let unset = Kind::Unset;
    // Row, column and place, and the codes with which a read, a write and a delete are refused.
    let table = [
        (number, number, Kind::Stack(-32), 0, 0, 0),
        (number, number, Kind::Stack(-33), 0, 26, 0),
        (number, number, Kind::Stack(-512), 0, 26, 0),
        (number, number, Kind::Stack(-513), 25, 25, 0),
        (number, number, Kind::Stack(-31), 25, 25, 0),
        (number, number, Kind::Record(0), 31, 31, 0),
        (number, number, number, 31, 31, 0),
        (number, number, unset, 21, 21, 0),
        (number, unset, Kind::Stack(-32), 21, 21, 21),
        (unset, number, Kind::Stack(-32), 21, 21, 21),
        (Kind::Record(0), number, Kind::Stack(-32), 31, 31, 31),
        (number, Kind::Stack(-8), Kind::Stack(-32), 31, 31, 31),
        (Kind::Record(0), number, Kind::Stack(-31), 25, 25, 31),
        (Kind::Record(0), number, Kind::Stack(-40), 31, 26, 31),
        (unset, Kind::Record(0), number, 21, 21, 21),
    ];
    for (row, column, place, read, write, delete) in table {
        let frame = frame_with(&rt, row, column, place);
        assert!(rt;
            call_code(&frame, 1) == read
                && call_code(&frame, 2) == write
                && call_code(&frame, 3) == delete
                && call_code(&frame, 4) == 0
                && call_code(&frame, 5) == 30,
            "{row:?} {column:?} {place:?}"
        );
    }
}

#[test]
fn undeclared_helpers_have_no_argument_rules(rt: HostRuntime) {
    let frame = entry();
    for helper in 1..5 {
        let code = argument_code(HelperTable::none(), helper, &frame);
        assert!(rt; code == Some(RuleCode::NotDeclared), "{helper}");
    }
}
