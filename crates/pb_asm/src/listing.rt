//! Programs to texts: one line for each instruction, in the one spelling that is read back.
ghost use Rattle.std.specs.Prelude.{◌≡◌, ◌++◌, IfOk, string_bytes, codes};
ghost use Rattle.pb_isa.specs.declared.insn.Insn.TheVariants.{Alu, MovSx, LoadImm, Load, StoreImm, Store, Jump, JumpIf, Call};
ghost use Rattle.pb_asm.specs.Names.{name};
ghost use Rattle.pb_asm.specs.Listing.{operand_text, offset_text, place_text, insn_text, listing};

use crate::names::{Word, reg_name, size_bits};
use pb_base::NoMemory;
use pb_isa::{AluOp, Cmp, Extension, Insn, Operand, Program, Reg, Size, Width};
use std::alloc::{AllocError, Global};

// An immediate begins with a digit or a minus and a register with an r, so the first letter shows
// which it is.
fn operand_text(alloc: Global, operand: Operand) -> Result<String, AllocError>
    ensures { IfOk result (λ s. string_bytes s ≡ operand_text operand) }
{
    match operand {
        Operand::Imm(imm) => format!(in alloc; "{imm}"),
        Operand::Reg(reg) => String::from_str(alloc, reg_name(reg)),
    }
}

// An offset always has its sign, so that in a place it is distinct from the register's number:
// `[r1+8]`.
fn offset_text(alloc: Global, offset: i16) -> Result<String, AllocError>
    ensures { IfOk result (λ s. string_bytes s ≡ offset_text offset) }
{
    if offset < 0 {
        format!(in alloc; "{offset}")
    } else {
        format!(in alloc; "+{offset}")
    }
}

// A register and an offset in brackets.
fn place_text(alloc: Global, base: Reg, offset: i16) -> Result<String, AllocError>
    ensures { IfOk result (λ s. string_bytes s ≡ place_text base offset) }
{
    let base = reg_name(base);
    let offset = offset_text(alloc, offset)?;
    format!(in alloc; "[{base}{offset}]")
}

// A first word and one operand.
fn one(alloc: Global, word: Word, operand: &str) -> Result<String, AllocError>
    ensures { IfOk result (λ s. string_bytes s ≡ name word ++ (codes " " ++ operand.now)) }
{
    let name = word.name();
    format!(in alloc; "{name} {operand}")
}

// A first word and three operands.
fn three(
    alloc: Global,
    word: Word,
    first: &str,
    second: &str,
    third: &str,
) -> Result<String, AllocError>
    ensures { IfOk result (λ s. string_bytes s
        ≡ name word ++ (codes " " ++ (first.now ++
        (codes ", " ++ (second.now ++ (codes ", " ++ third.now)))))) }
{
    let name = word.name();
    format!(in alloc; "{name} {first}, {second}, {third}")
}

// A first word and two operands.
fn two(alloc: Global, word: Word, first: &str, second: &str) -> Result<String, AllocError>
    ensures { IfOk result
        (λ s. string_bytes s ≡ name word ++ (codes " " ++
        (first.now ++ (codes ", " ++ second.now)))) }
{
    let name = word.name();
    format!(in alloc; "{name} {first}, {second}")
}

// The line of arithmetic.
fn alu_text(
    alloc: Global,
    op: AluOp,
    width: Width,
    dst: Reg,
    src: Operand,
) -> Result<String, AllocError>
    ensures { IfOk result (λ s. string_bytes s ≡ insn_text (Alu op width dst src)) }
{
    let src = operand_text(alloc, src)?;
    two(alloc, Word::Alu(op, width), reg_name(dst), &src)
}

// The line of a move that extends the sign: how many bits it takes stands last.
fn mov_sx_text(
    alloc: Global,
    width: Width,
    size: Size,
    dst: Reg,
    src: Reg,
) -> Result<String, AllocError>
    ensures { IfOk result (λ s. string_bytes s ≡ insn_text (MovSx width size dst src)) }
{
    let bits = size_bits(size);
    let bits = format!(in alloc; "{bits}")?;
    three(
        alloc,
        Word::MovSx(width),
        reg_name(dst),
        reg_name(src),
        &bits,
    )
}

// The line of a load of an immediate of 64 bits.
fn load_imm_text(alloc: Global, dst: Reg, imm: u64) -> Result<String, AllocError>
    ensures { IfOk result (λ s. string_bytes s ≡ insn_text (LoadImm dst imm)) }
{
    let imm = format!(in alloc; "{imm}")?;
    two(alloc, Word::LoadImm, reg_name(dst), &imm)
}

// The line of a load from memory.
fn load_text(
    alloc: Global,
    size: Size,
    extension: Extension,
    dst: Reg,
    src: Reg,
    offset: i16,
) -> Result<String, AllocError>
    ensures { IfOk result (λ s. string_bytes s ≡ insn_text (Load size extension dst src offset)) }
{
    let place = place_text(alloc, src, offset)?;
    two(alloc, Word::Load(size, extension), reg_name(dst), &place)
}

// The line of a store of an immediate.
fn store_imm_text(
    alloc: Global,
    size: Size,
    dst: Reg,
    offset: i16,
    imm: i32,
) -> Result<String, AllocError>
    ensures { IfOk result (λ s. string_bytes s ≡ insn_text (StoreImm size dst offset imm)) }
{
    let place = place_text(alloc, dst, offset)?;
    let imm = format!(in alloc; "{imm}")?;
    two(alloc, Word::StoreImm(size), &place, &imm)
}

// The line of a store of a register.
fn store_text(
    alloc: Global,
    size: Size,
    dst: Reg,
    src: Reg,
    offset: i16,
) -> Result<String, AllocError>
    ensures { IfOk result (λ s. string_bytes s ≡ insn_text (Store size dst src offset)) }
{
    let place = place_text(alloc, dst, offset)?;
    two(alloc, Word::Store(size), &place, reg_name(src))
}

// The line of a conditional jump.
fn jump_if_text(
    alloc: Global,
    cmp: Cmp,
    width: Width,
    dst: Reg,
    src: Operand,
    offset: i16,
) -> Result<String, AllocError>
    ensures { IfOk result (λ s. string_bytes s ≡ insn_text (JumpIf cmp width dst src offset)) }
{
    let src = operand_text(alloc, src)?;
    let offset = offset_text(alloc, offset)?;
    three(
        alloc,
        Word::JumpIf(cmp, width),
        reg_name(dst),
        &src,
        &offset,
    )
}

// The line of a jump.
fn jump_text(alloc: Global, offset: i16) -> Result<String, AllocError>
    ensures { IfOk result (λ s. string_bytes s ≡ insn_text (Jump offset)) }
{
    let offset = offset_text(alloc, offset)?;
    one(alloc, Word::Jump, &offset)
}

// The line of a call.
fn call_text(alloc: Global, imm: i32) -> Result<String, AllocError>
    ensures { IfOk result (λ s. string_bytes s ≡ insn_text (Call imm)) }
{
    let imm = format!(in alloc; "{imm}")?;
    one(alloc, Word::Call, &imm)
}

// The line of an instruction, without its newline. The match has no rest, so that each instruction has a line.
fn insn_text(alloc: Global, insn: Insn) -> Result<String, AllocError>
    ensures { IfOk result (λ s. string_bytes s ≡ insn_text insn) }
{
    match insn {
        Insn::Alu {
            op,
            width,
            dst,
            src,
        } => alu_text(alloc, op, width, dst, src),
        Insn::MovSx {
            width,
            size,
            dst,
            src,
        } => mov_sx_text(alloc, width, size, dst, src),
        Insn::Neg { width, dst } => one(alloc, Word::Neg(width), reg_name(dst)),
        Insn::LoadImm { dst, imm } => load_imm_text(alloc, dst, imm),
        Insn::Load {
            size,
            extension,
            dst,
            src,
            offset,
        } => load_text(alloc, size, extension, dst, src, offset),
        Insn::StoreImm {
            size,
            dst,
            offset,
            imm,
        } => store_imm_text(alloc, size, dst, offset, imm),
        Insn::Store {
            size,
            dst,
            src,
            offset,
        } => store_text(alloc, size, dst, src, offset),
        Insn::Jump { offset } => jump_text(alloc, offset),
        Insn::JumpIf {
            cmp,
            width,
            dst,
            src,
            offset,
        } => jump_if_text(alloc, cmp, width, dst, src, offset),
        Insn::Call { imm } => call_text(alloc, imm),
        Insn::Exit => String::from_str(alloc, Word::Exit.name()),
    }
}

/// The listing of a program: a line for each instruction.
pub fn disassemble(alloc: Global, program: &Program) -> Result<String, NoMemory>
    ensures { IfOk result (λ s. string_bytes s ≡ listing program.now.insns) }
{
    let mut text = String::new(alloc);
    for insn in program.insns() {
        let line = insn_text(alloc, *insn)?;
        text.push_str(&line)?;
        text.push('\n')?;
    }
    Ok(text)
}
