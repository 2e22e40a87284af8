//! What is known before each slot of a program that isn't accepted.
use pb_asm::assemble;
use pb_kinds::{Frame, Kind};
use pb_verify::frames;
use std::rt::HostRuntime;
use std::test::*;

// Slot 2 exits without a result, slot 5 jumps back, and nothing leads to slot 6.
const FAULTY: &str = "mov64 r2, 1\njeq64 r2, 1, +1\nexit\nlddw r0, 5\nja -3\nmov64 r3, 1\nexit\n";

// Whether registers 0 and 2 are known to hold numbers.
fn numbers(frame: &Option<Frame>) -> Option<(bool, bool)> {
    match frame {
        Some(frame) => Some((
            frame.kinds[0] == Kind::Number,
            frame.kinds[2] == Kind::Number,
        )),
        None => None,
    }
}

#[test]
fn frames_of_a_program_that_is_refused(rt: HostRuntime) {
    let alloc = rt.alloc();
    let program = assemble(alloc, FAULTY).expect(&rt, "a program");
    let known = frames(alloc, &program).expect(&rt, "memory");
    let table = [
        Some((false, false)),
        Some((false, true)),
        Some((false, true)),
        Some((false, true)),
        // The second slot of a pair.
        None,
        Some((true, true)),
        None,
        None,
    ];
    assert!(rt; known.len() == 8);
    for (slot, wanted) in table.iter().enumerate() {
        let told = known.get(slot).and_then(numbers);
        assert!(rt; told == *wanted, "slot {slot}");
    }
}
