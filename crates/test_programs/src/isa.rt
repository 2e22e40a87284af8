use pb_isa::{AluOp, Cmp, Insn, NoProgram, Operand, Profile, Program, Reg, Width, alu, holds};
use std::alloc::Global;
use std::process::Abort;
use std::rt::HostRuntime;
use std::test::*;

const MINUS_ONE: u64 = 0xffff_ffff_ffff_ffff;

#[test]
fn arithmetic(rt: HostRuntime) {
    let table = [
        // Division by zero gives zero, and the remainder by zero the dividend (RFC 9669, section 4.1).
        (AluOp::Div, Width::Bits64, 7, 0, 0),
        (AluOp::Mod, Width::Bits64, 7, 0, 7),
        (AluOp::Div, Width::Bits32, 7, 0x1_0000_0000, 0),
        (AluOp::Mod, Width::Bits32, 0x1_0000_0007, 0, 7),
        (AluOp::Mod, Width::Bits64, 0x1_0000_0007, 0, 0x1_0000_0007),
        // Division is unsigned.
        (
            AluOp::Div,
            Width::Bits64,
            MINUS_ONE,
            2,
            0x7fff_ffff_ffff_ffff,
        ),
        (AluOp::Div, Width::Bits32, MINUS_ONE, 2, 0x7fff_ffff),
        // Sums, differences and products wrap.
        (AluOp::Add, Width::Bits64, MINUS_ONE, 2, 1),
        (AluOp::Add, Width::Bits32, 0xffff_ffff, 2, 1),
        (AluOp::Sub, Width::Bits64, 0, 1, MINUS_ONE),
        (AluOp::Sub, Width::Bits32, 0, 1, 0xffff_ffff),
        (AluOp::Mul, Width::Bits64, 0x8000_0000_0000_0000, 2, 0),
        (AluOp::Mul, Width::Bits32, 0x8000_0001, 2, 2),
        // A shift's amount is masked with 63 or 31.
        (AluOp::Lsh, Width::Bits64, 1, 64, 1),
        (AluOp::Lsh, Width::Bits64, 1, 63, 0x8000_0000_0000_0000),
        (AluOp::Lsh, Width::Bits32, 1, 33, 2),
        (AluOp::Rsh, Width::Bits64, MINUS_ONE, 60, 15),
        (AluOp::Rsh, Width::Bits32, MINUS_ONE, 28, 15),
        (
            AluOp::Arsh,
            Width::Bits64,
            0x8000_0000_0000_0000,
            63,
            MINUS_ONE,
        ),
        (AluOp::Arsh, Width::Bits32, 0x8000_0000, 31, 0xffff_ffff),
        (AluOp::Arsh, Width::Bits32, 0xffff_ffff_4000_0000, 30, 1),
        (AluOp::Or, Width::Bits64, 12, 10, 14),
        (AluOp::And, Width::Bits64, 12, 10, 8),
        (AluOp::Xor, Width::Bits64, 12, 10, 6),
        (AluOp::Mov, Width::Bits64, 1, MINUS_ONE, MINUS_ONE),
        (AluOp::Mov, Width::Bits32, 1, MINUS_ONE, 0xffff_ffff),
    ];
    for (op, width, a, b, wanted) in table {
        assert!(rt; alu(op, width, a, b) == wanted, "{op:?} {width:?} {a} {b}");
    }
}

#[test]
fn comparisons(rt: HostRuntime) {
    let table = [
        (Cmp::Eq, Width::Bits64, 0x1_0000_0005, 5, false),
        (Cmp::Eq, Width::Bits32, 0x1_0000_0005, 5, true),
        (Cmp::Ne, Width::Bits64, 0x1_0000_0005, 5, true),
        (Cmp::Ne, Width::Bits32, 0x1_0000_0005, 5, false),
        (Cmp::Set, Width::Bits64, 0x1_0000_0000, MINUS_ONE, true),
        (Cmp::Set, Width::Bits32, 0x1_0000_0000, MINUS_ONE, false),
        (Cmp::Gt, Width::Bits64, MINUS_ONE, 0, true),
        (Cmp::Sgt, Width::Bits64, MINUS_ONE, 0, false),
        (Cmp::Sgt, Width::Bits32, 0xffff_ffff, 0, false),
        (Cmp::Sgt, Width::Bits64, 0xffff_ffff, 0, true),
        (Cmp::Ge, Width::Bits64, 5, 5, true),
        (Cmp::Sge, Width::Bits64, MINUS_ONE, 0, false),
        (Cmp::Sge, Width::Bits32, 0x8000_0000, 0x8000_0000, true),
        (Cmp::Lt, Width::Bits64, 0, MINUS_ONE, true),
        (Cmp::Slt, Width::Bits64, MINUS_ONE, 0, true),
        (Cmp::Le, Width::Bits64, 5, 5, true),
        (Cmp::Sle, Width::Bits64, 0, MINUS_ONE, false),
        (Cmp::Sle, Width::Bits32, 0x8000_0000, 0x7fff_ffff, true),
    ];
    for (cmp, width, a, b, wanted) in table {
        assert!(rt;
            holds(cmp, width, a, b) == wanted,
            "{cmp:?} {width:?} {a} {b}"
        );
    }
}

// How many slots these instructions take, if they make a program of the profile; 0 where they are handed back.
fn slots_of(rt: &impl Abort, alloc: Global, profile: Profile, exits: usize, pairs: usize) -> usize {
    let mut insns = Vec::new(alloc);
    for _ in 0..exits {
        insns.push(Insn::Exit).expect(rt, "memory");
    }
    for _ in 0..pairs {
        insns
            .push(Insn::LoadImm {
                dst: Reg::R1,
                imm: 5,
            })
            .expect(rt, "memory");
    }
    if !profile.has_all(&insns) {
        return 10_000;
    }
    match Program::new(alloc, profile, insns) {
        Ok(program) => program.slots(),
        Err(NoProgram::NotInRange(_)) => 0,
        Err(NoProgram::NoMemory(_)) => 10_000,
    }
}

#[test]
fn programs(rt: HostRuntime) {
    // In profile 1 and in profile 2.
    let table = [
        (0, 0, 0, 0),
        (1, 0, 1, 1),
        (0, 1, 2, 2),
        (512, 0, 512, 512),
        (513, 0, 0, 513),
        (510, 1, 512, 512),
        (511, 1, 0, 513),
        (0, 256, 512, 512),
        (0, 257, 0, 514),
        (4_096, 0, 0, 4_096),
        (4_097, 0, 0, 0),
        (4_094, 1, 0, 4_096),
        (4_095, 1, 0, 0),
        (0, 2_048, 0, 4_096),
        (0, 2_049, 0, 0),
    ];
    for (exits, pairs, first, second) in table {
        let in_first = slots_of(&rt, rt.alloc(), Profile::One, exits, pairs);
        let in_second = slots_of(&rt, rt.alloc(), Profile::Two, exits, pairs);
        assert!(rt; in_first == first && in_second == second, "{exits} {pairs}");
    }
}

#[test]
fn second_slots_have_no_instruction(rt: HostRuntime) {
    let pair = Insn::LoadImm {
        dst: Reg::R1,
        imm: 5,
    };
    let last = Insn::Alu {
        op: AluOp::Mov,
        width: Width::Bits64,
        dst: Reg::R0,
        src: Operand::Imm(1),
    };
    let insns = Vec::from_array(rt.alloc(), [pair, last]).expect(&rt, "memory");
    assert!(rt; Profile::One.has_all(&insns));
    let program = Program::new(rt.alloc(), Profile::One, insns)
        .ok()
        .expect(&rt, "a program");
    assert!(rt; program.slots() == 3 && program.insns().len() == 2);
    assert!(rt;
        program.slots() == 3
            && program.at(0) == Some(pair)
            && program.at(1).is_none()
            && program.at(2) == Some(last)
    );
}
