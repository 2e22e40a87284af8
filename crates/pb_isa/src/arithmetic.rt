//! Arithmetic and comparisons (RFC 9669, sections 4.1 and 4.3), which the machine does at each instruction.
ghost use Rattle.std.specs.Prelude.{◌≡◌, ◌%◌, ◌^◌};
ghost use Rattle.pb_isa.specs.Alu.{word_alu, word_holds, alu, holds};
ghost use mir.Syntax.{w32, w64};

use crate::insn::{AluOp, Cmp, Width};

// Zero is tested before a division, since RFC 9669 has a result for it, where a processor's division would trap. The
// amount of a shift is reduced first, since only so many bits of it count.
#[tactic(auto, using(crate::proofs::Shift::arsh_64))]
fn alu_64(op: AluOp, a: u64, b: u64) -> u64
    ensures { result ≡ word_alu w64 op a b }
{
    match op {
        AluOp::Add => a.wrapping_add(b),
        AluOp::Sub => a.wrapping_sub(b),
        AluOp::Mul => a.wrapping_mul(b),
        AluOp::Div => if b == 0 { 0 } else { a / b },
        AluOp::Or => a | b,
        AluOp::And => a & b,
        AluOp::Lsh => a << (b % 64),
        AluOp::Rsh => a >> (b % 64),
        AluOp::Mod => if b == 0 { a } else { a % b },
        AluOp::Xor => a ^ b,
        AluOp::Mov => b,
        AluOp::Arsh => (a.cast_signed() >> (b % 64)).cast_unsigned(),
    }
}

// Operations on 32 bits. They have a function of their own, since shift amounts, wrapping and the sign bit are those of
// the width.
#[tactic(auto, using(crate::proofs::Shift::arsh_32))]
fn alu_32(op: AluOp, a: u32, b: u32) -> u32
    ensures { result ≡ word_alu w32 op a b }
{
    match op {
        AluOp::Add => a.wrapping_add(b),
        AluOp::Sub => a.wrapping_sub(b),
        AluOp::Mul => a.wrapping_mul(b),
        AluOp::Div => if b == 0 { 0 } else { a / b },
        AluOp::Or => a | b,
        AluOp::And => a & b,
        AluOp::Lsh => a << (b % 32),
        AluOp::Rsh => a >> (b % 32),
        AluOp::Mod => if b == 0 { a } else { a % b },
        AluOp::Xor => a ^ b,
        AluOp::Mov => b,
        AluOp::Arsh => (a.cast_signed() >> (b % 32)).cast_unsigned(),
    }
}

// The low half of a word. The upper bits are masked off, so that the cast cuts nothing.
fn low(a: u64) -> u32
    ensures { result ≡ a % 2 ^ 32 }
{
    (a & 0xffff_ffff) as u32
}

/// What an operation makes of the destination `a` and the operand `b`. On 32 bits it works on the low halves, and the
/// upper half of the result is clear. Division by zero gives 0, remainder by zero the dividend; sums, differences and
/// products wrap, and a shift's amount is taken modulo the width.
pub fn alu(op: AluOp, width: Width, a: u64, b: u64) -> u64
    ensures { result ≡ alu op width a b }
{
    match width {
        Width::Bits64 => alu_64(op, a, b),
        Width::Bits32 => u64::from(alu_32(op, low(a), low(b))),
    }
}

// Registers hold words without a sign, so that a comparison with sign reads both as signed numbers first.
fn holds_64(cmp: Cmp, a: u64, b: u64) -> bool
    ensures { result ≡ word_holds w64 cmp a b }
{
    match cmp {
        Cmp::Eq => a == b,
        Cmp::Gt => a > b,
        Cmp::Ge => a >= b,
        Cmp::Set => a & b != 0,
        Cmp::Ne => a != b,
        Cmp::Sgt => a.cast_signed() > b.cast_signed(),
        Cmp::Sge => a.cast_signed() >= b.cast_signed(),
        Cmp::Lt => a < b,
        Cmp::Le => a <= b,
        Cmp::Slt => a.cast_signed() < b.cast_signed(),
        Cmp::Sle => a.cast_signed() <= b.cast_signed(),
    }
}

// Comparisons of low halves, whose sign bit is bit 31.
fn holds_32(cmp: Cmp, a: u32, b: u32) -> bool
    ensures { result ≡ word_holds w32 cmp a b }
{
    match cmp {
        Cmp::Eq => a == b,
        Cmp::Gt => a > b,
        Cmp::Ge => a >= b,
        Cmp::Set => a & b != 0,
        Cmp::Ne => a != b,
        Cmp::Sgt => a.cast_signed() > b.cast_signed(),
        Cmp::Sge => a.cast_signed() >= b.cast_signed(),
        Cmp::Lt => a < b,
        Cmp::Le => a <= b,
        Cmp::Slt => a.cast_signed() < b.cast_signed(),
        Cmp::Sle => a.cast_signed() <= b.cast_signed(),
    }
}

/// Whether a comparison holds of the destination `a` and the operand `b`. On 32 bits the low halves are compared.
pub fn holds(cmp: Cmp, width: Width, a: u64, b: u64) -> bool
    ensures { result ≡ holds cmp width a b }
{
    match width {
        Width::Bits64 => holds_64(cmp, a, b),
        Width::Bits32 => holds_32(cmp, low(a), low(b)),
    }
}
