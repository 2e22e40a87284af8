//! What is known after an instruction: the one frame of a pass is changed in place, from instruction to instruction.
ghost use Rattle.std.specs.Prelude.{◌≡◌, ◌≤◌, ◌<◌, ◌+◌, ◌^◌, ℕ, nat_abs};
ghost use Rattle.pb_accepted.specs.Following.{with_kind, move_pointer, kind_after, with_store, clobber, after_call, after};
ghost use Rattle.pb_isa.specs.Helpers.{helper_of};
ghost use Rattle.pb_verify.specs.Within.{IsNear, IsWithin};

use crate::rules::{bytes_of, kind};
use pb_isa::{AluOp, Insn, Operand, Reg, Width};
use pb_kinds::{Frame, Kind, in_stack};

// A register is set. Pointers stay within any distance that the frame and the new kind keep.
fn set_kind(frame: &mut Frame, reg: Reg, kind: Kind)
    ensures value { frame.new ≡ with_kind frame.old reg kind }
    ensures near { (b : ℕ) → IsWithin b frame.old → IsNear b kind → IsWithin b frame.new }
{
    frame.kinds[reg.number()] = kind;
}

// An immediate moves a pointer by at most 2^31, also where its bytes can't be accessed: one may be moved past its
// region and back, since sums of addresses wrap in the machine too.
fn move_pointer(kind: Kind, by: i64) -> Kind
    requires near { IsNear (2 ^ 62) kind }
    requires small { nat_abs by ≤ 2147483648 }
    ensures value { result ≡ move_pointer kind by }
    ensures near { (b : ℕ) → IsNear b kind → IsNear (b + 2147483648) result }
{
    match kind {
        Kind::Unset | Kind::Number => Kind::Number,
        Kind::Stack(at) => Kind::Stack(at + by),
        Kind::Record(at) => Kind::Record(at + by),
    }
}

// What the destination of an operation holds. Three operations keep a pointer; all others make a number, since the
// rules let no pointer into them.
fn kind_after(frame: &Frame, op: AluOp, width: Width, dst: Reg, src: Operand) -> Kind
    requires { IsWithin (2 ^ 62) frame.now }
    ensures value { result ≡ kind_after frame.now op width dst src }
    ensures near { (b : ℕ) → IsWithin b frame.now → IsNear (b + 2147483648) result }
{
    match (width, src) {
        (Width::Bits32, _) => Kind::Number,
        (Width::Bits64, Operand::Reg(src)) => match op {
            AluOp::Mov => kind(frame, src),
            _ => Kind::Number,
        },
        (Width::Bits64, Operand::Imm(imm)) => match op {
            AluOp::Add => move_pointer(kind(frame, dst), i64::from(imm)),
            AluOp::Sub => move_pointer(kind(frame, dst), -i64::from(imm)),
            _ => Kind::Number,
        },
    }
}

// The bytes of a store are written. Those outside the stack are not, which matters to `frames` alone, since the rules
// have refused them.
fn store(frame: &mut Frame, base: Kind, offset: i16, bytes: u8)
    requires { IsNear (2 ^ 62) base }
    ensures value { frame.new ≡ with_store frame.old base offset bytes }
    ensures near { (b : ℕ) → IsWithin b frame.old → IsWithin b frame.new }
{
    if let Kind::Stack(end) = base {
        let at = end + i64::from(offset);
        if in_stack(at, bytes) {
            frame.write(at, bytes);
        }
    }
}

// What a call leaves of the registers: a result, and those from R6 on. R1 to R5 count as unset, since the machine of
// the definitions leaves them so.
fn clobber(frame: &mut Frame)
    ensures value { frame.new ≡ clobber frame.old }
    ensures near { (b : ℕ) → IsWithin b frame.old → IsWithin b frame.new }
{
    let kinds = &frame.kinds;
    frame.kinds = [
        Kind::Number,
        Kind::Unset,
        Kind::Unset,
        Kind::Unset,
        Kind::Unset,
        Kind::Unset,
        kinds[6],
        kinds[7],
        kinds[8],
        kinds[9],
        kinds[10],
    ];
}

// A read fills the 32 bytes at R3. They are written before the registers are given up, since R3 is one of them.
fn call(frame: &mut Frame, number: i32)
    requires { IsWithin (2 ^ 62) frame.old }
    ensures value { frame.new ≡ after_call frame.old (helper_of number) }
    ensures near { (b : ℕ) → IsWithin b frame.old → IsWithin b frame.new }
{
    if number == 1 {
        let place = kind(frame, Reg::R3);
        store(frame, place, 0, 32);
    }
    clobber(frame);
}

/// Makes the frame before an instruction the frame after it. It tests no rule: `verify_for` has done so before, and
/// `frames` wants to go on where one is broken.
pub fn step(frame: &mut Frame, insn: Insn)
    requires { IsWithin (2 ^ 62) frame.old }
    ensures value { frame.new ≡ after frame.old insn }
    ensures near { (b : ℕ) → IsWithin b frame.old → IsWithin (b + 2147483648) frame.new }
{
    match insn {
        Insn::Alu {
            op,
            width,
            dst,
            src,
        } => {
            let kind = kind_after(frame, op, width, dst, src);
            set_kind(frame, dst, kind);
        }
        Insn::MovSx { dst, .. }
        | Insn::Neg { dst, .. }
        | Insn::LoadImm { dst, .. }
        | Insn::Load { dst, .. } => {
            set_kind(frame, dst, Kind::Number);
        }
        Insn::StoreImm {
            size,
            dst,
            offset,
            imm: _,
        } => {
            let place = kind(frame, dst);
            store(frame, place, offset, bytes_of(size));
        }
        Insn::Store {
            size,
            dst,
            src: _,
            offset,
        } => {
            let place = kind(frame, dst);
            store(frame, place, offset, bytes_of(size));
        }
        Insn::Call { imm } => call(frame, imm),
        Insn::Jump { .. } | Insn::JumpIf { .. } | Insn::Exit => {}
    }
}
