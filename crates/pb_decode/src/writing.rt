//! Programs to bytes: each instruction has one slot, and the 64-bit immediate two.
ghost use Rattle.std.specs.Prelude.{◌≡◌, ◌++◌, ◌/◌, ◌^◌, IfOk, OnOk, ◌<◌};
ghost use Rattle.pb_isa.specs.declared.insn.Insn.TheVariants as insn;
ghost use Rattle.pb_isa.specs.Registers.{number};
ghost use Rattle.pb_decode.specs.Encoding.{slot, bits_of, first_slot, second_slot, second_bytes, insn_bytes, encoding, Encodes};

use crate::fields::SlotFields;
use crate::forms::{Form, Source};
use pb_base::NoMemory;
use pb_isa::{AluOp, Cmp, Insn, Operand, Program, Reg, Size, Width};
use std::alloc::{AllocError, Global};

// A register's number. It also promises that the number is below 11, so that it fits its half of a
// byte.
fn number(reg: Reg) -> u8
    ensures number { result ≡ number reg }
    ensures below { result < 11 }
{
    reg.number() as u8
}

// A slot of a form.
fn slot(form: Form, dst: u8, src: u8, offset: u16, imm: u32) -> SlotFields
    ensures { result ≡ slot form dst src offset imm }
{
    let opcode = form.opcode();
    SlotFields {
        opcode,
        dst,
        src,
        offset,
        imm,
    }
}

// The slot of a form that takes both registers and no immediate.
fn register_slot(form: Form, dst: Reg, src: Reg, offset: u16) -> SlotFields
    ensures slot { result ≡ slot form (number dst) (number src) offset 0 }
    ensures dst { result.dst < 16 }
    ensures src { result.src < 16 }
{
    slot(form, number(dst), number(src), offset, 0)
}

// How many bits of its source a sign-extending move takes. 64 stands here though no profile has it, so that any
// instruction has a slot.
fn bits_of(size: Size) -> u16
    ensures { result ≡ bits_of size }
{
    match size {
        Size::B => 8,
        Size::H => 16,
        Size::W => 32,
        Size::Dw => 64,
    }
}

// The slot of an arithmetic operation.
fn alu_slot(op: AluOp, width: Width, dst: Reg, src: Operand) -> SlotFields
    ensures slot { result ≡ first_slot (insn.Alu op width dst src) }
    ensures dst { result.dst < 16 }
    ensures src { result.src < 16 }
{
    match src {
        Operand::Imm(imm) => {
            let form = Form::Alu(op, width, Source::K);
            slot(form, number(dst), 0, 0, imm.cast_unsigned())
        }
        Operand::Reg(src) => register_slot(Form::Alu(op, width, Source::X), dst, src, 0),
    }
}

// The slot of a conditional jump.
fn jump_slot(cmp: Cmp, width: Width, dst: Reg, src: Operand, offset: i16) -> SlotFields
    ensures slot { result ≡ first_slot (insn.JumpIf cmp width dst src offset) }
    ensures dst { result.dst < 16 }
    ensures src { result.src < 16 }
{
    let offset = offset.cast_unsigned();
    match src {
        Operand::Imm(imm) => {
            let form = Form::JumpIf(cmp, width, Source::K);
            slot(form, number(dst), 0, offset, imm.cast_unsigned())
        }
        Operand::Reg(src) => register_slot(Form::JumpIf(cmp, width, Source::X), dst, src, offset),
    }
}

// The first slot of an instruction. Fields that it doesn't use are zero, since it is read back only so.
pub(crate) fn first_slot(insn: Insn) -> SlotFields
    ensures slot { result ≡ first_slot insn }
    ensures dst { result.dst < 16 }
    ensures src { result.src < 16 }
{
    match insn {
        Insn::Alu {
            op,
            width,
            dst,
            src,
        } => alu_slot(op, width, dst, src),
        Insn::MovSx {
            width,
            size,
            dst,
            src,
        } => {
            let form = Form::Alu(AluOp::Mov, width, Source::X);
            register_slot(form, dst, src, bits_of(size))
        }
        Insn::Neg { width, dst } => slot(Form::Neg(width), number(dst), 0, 0, 0),
        Insn::LoadImm { dst, imm } => {
            let low = (imm % 0x1_0000_0000) as u32;
            slot(Form::LoadImm, number(dst), 0, 0, low)
        }
        Insn::Load {
            size,
            extension,
            dst,
            src,
            offset,
        } => {
            let form = Form::Load(size, extension);
            register_slot(form, dst, src, offset.cast_unsigned())
        }
        Insn::StoreImm {
            size,
            dst,
            offset,
            imm,
        } => {
            let (offset, imm) = (offset.cast_unsigned(), imm.cast_unsigned());
            slot(Form::StoreImm(size), number(dst), 0, offset, imm)
        }
        Insn::Store {
            size,
            dst,
            src,
            offset,
        } => register_slot(Form::Store(size), dst, src, offset.cast_unsigned()),
        Insn::Jump { offset } => slot(Form::Jump, 0, 0, offset.cast_unsigned(), 0),
        Insn::JumpIf {
            cmp,
            width,
            dst,
            src,
            offset,
        } => jump_slot(cmp, width, dst, src, offset),
        Insn::Call { imm } => slot(Form::Call, 0, 0, 0, imm.cast_unsigned()),
        Insn::Exit => slot(Form::Exit, 0, 0, 0, 0),
    }
}

// The second slot of a 64-bit immediate has its high half, and nothing else.
pub(crate) fn second_slot(imm: u64) -> SlotFields
    ensures slot { result ≡ second_slot (imm / 2 ^ 32) }
    ensures dst { result.dst < 16 }
    ensures src { result.src < 16 }
{
    SlotFields {
        opcode: 0,
        dst: 0,
        src: 0,
        offset: 0,
        imm: (imm / 0x1_0000_0000) as u32,
    }
}

// Writes an instruction's slots at the end. The high half of a 64-bit immediate follows in a slot of its own.
fn put(out: &mut Vec<u8>, insn: Insn) -> Result<(), AllocError>
    ensures { OnOk result (out.new.items ≡ out.old.items ++ insn_bytes insn) }
{
    out.extend_from_slice(&first_slot(insn).bytes())?;
    if let Insn::LoadImm { imm, .. } = insn {
        out.extend_from_slice(&second_slot(imm).bytes())?;
    }
    Ok(())
}

/// The one byte list that decodes to this program in its profile.
pub fn encode(alloc: Global, program: &Program) -> Result<Vec<u8>, NoMemory>
    ensures bytes { IfOk result (λ v. v.items ≡ encoding program.now.insns) }
    ensures one { IfOk result (λ v. Encodes v.items program.now) }
{
    let mut bytes = Vec::new(alloc);
    for insn in program.insns() {
        put(&mut bytes, *insn)?;
    }
    Ok(bytes)
}
