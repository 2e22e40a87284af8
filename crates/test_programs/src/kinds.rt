use pb_kinds::{Frame, Kind, entry, in_record, in_stack, join};
use std::rt::HostRuntime;
use std::test::*;

// The frame at entry, with this kind in register 1 and these two of its bytes written or not.
fn frame_with(kind: Kind, lowest: bool, highest: bool) -> Frame {
    let mut frame = entry();
    frame.kinds[1] = kind;
    frame.written[0] = lowest;
    frame.written[511] = highest;
    frame
}

#[test]
fn entry_has_two_pointers(rt: HostRuntime) {
    let frame = entry();
    for register in 0..11 {
        let wanted = match register {
            1 => Kind::Record(0),
            10 => Kind::Stack(0),
            _ => Kind::Unset,
        };
        assert!(rt; frame.kinds[register] == wanted, "register {register}");
    }
    for byte in 0..512 {
        assert!(rt; !frame.written[byte], "byte {byte}");
    }
}

#[test]
fn kinds_are_kept_where_they_are_equal(rt: HostRuntime) {
    let table = [
        (Kind::Unset, Kind::Unset, Kind::Unset),
        (Kind::Number, Kind::Number, Kind::Number),
        (Kind::Stack(-8), Kind::Stack(-8), Kind::Stack(-8)),
        (Kind::Record(8), Kind::Record(8), Kind::Record(8)),
        (Kind::Stack(-8), Kind::Stack(-16), Kind::Unset),
        (Kind::Record(8), Kind::Record(0), Kind::Unset),
        (Kind::Stack(8), Kind::Record(8), Kind::Unset),
        (Kind::Number, Kind::Stack(0), Kind::Unset),
        (Kind::Record(0), Kind::Number, Kind::Unset),
        (Kind::Unset, Kind::Number, Kind::Unset),
        (Kind::Number, Kind::Unset, Kind::Unset),
    ];
    for (a, b, wanted) in table {
        let joined = join(&frame_with(a, true, true), &frame_with(b, true, true));
        assert!(rt;
            joined.kinds[1] == wanted
                && joined.kinds[10] == Kind::Stack(0)
                && joined.kinds[0] == Kind::Unset,
            "{a:?} {b:?}"
        );
    }
}

#[test]
fn a_byte_is_written_where_both_say_so(rt: HostRuntime) {
    let table = [
        (false, false, false),
        (false, true, false),
        (true, false, false),
        (true, true, true),
    ];
    for (a, b, wanted) in table {
        let joined = join(
            &frame_with(Kind::Number, a, b),
            &frame_with(Kind::Number, b, a),
        );
        assert!(rt;
            joined.written[0] == wanted && joined.written[511] == wanted && !joined.written[256],
            "{a} {b}"
        );
    }
}

#[test]
fn both_ends_of_the_stack_and_the_record(rt: HostRuntime) {
    for bytes in [1, 2, 4, 8, 32] {
        let size = i64::from(bytes);
        let are_in_stack = in_stack(-512, bytes) && in_stack(-size, bytes);
        let is_one_beside_stack = in_stack(-513, bytes) || in_stack(1 - size, bytes);
        assert!(rt; are_in_stack && !is_one_beside_stack, "{bytes}");
        let are_in_record = in_record(0, bytes) && in_record(80 - size, bytes);
        let is_one_beside_record = in_record(-1, bytes) || in_record(81 - size, bytes);
        assert!(rt; are_in_record && !is_one_beside_record, "{bytes}");
    }
    for far in [i64::MIN, i64::MAX] {
        assert!(rt; !in_stack(far, 8) && !in_record(far, 8), "{far}");
    }
}

#[test]
fn written_bytes(rt: HostRuntime) {
    let mut frame = entry();
    frame.write(-512, 4);
    frame.write(-1, 1);
    let table = [
        (-512, 4, true),
        (-512, 5, false),
        (-509, 1, true),
        (-508, 1, false),
        (-1, 1, true),
        (-2, 2, false),
    ];
    for (at, bytes, wanted) in table {
        assert!(rt;
            in_stack(at, bytes) && frame.are_written(at, bytes) == wanted,
            "{at} {bytes}"
        );
    }
}

#[test]
fn what_kinds_say(rt: HostRuntime) {
    let table = [
        (Kind::Unset, true, false, false),
        (Kind::Number, false, true, false),
        (Kind::Stack(0), false, false, true),
        (Kind::Record(0), false, false, true),
    ];
    for (kind, unset, number, pointer) in table {
        assert!(rt;
            kind.is_unset() == unset && kind.is_number() == number && kind.is_pointer() == pointer,
            "{kind:?}"
        );
    }
}
