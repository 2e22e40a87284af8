//! The rules of one instruction: for each list of codes in specs/Rules, a function that returns its
//! lowest. The definition lists them lowest first, so that `or` in the same order finds it
//! (`codes_rise`).
ghost use Rattle.std.specs.Prelude.{◌≡◌, ◌<◌, ◌+◌, ◌^◌, ◌≤◌, ℕ};
ghost use Rattle.pb_isa.specs.Slots.{slots};
ghost use Rattle.pb_kinds.specs.Ranges as ranges;
ghost use Rattle.pb_helpers.specs.Bytes.{size_of};
ghost use Rattle.pb_accepted.specs.Versions.{judged_by};
ghost use Rattle.pb_helpers.specs.Codes.{lowest_code};
ghost use Rattle.pb_accepted.specs.Rules.{at, reads, sets, reads_operand, points, on_pointer, bytes_of, falls, numeric_rules, part_mov_rules, mov_rules, add_rules, alu_rules, loads, stores, load_rules, store_imm_rules, store_rules, jump_rules, jump_if_rules, exit_rules, insn_rules};
ghost use Rattle.pb_verify.specs.Within.{IsNear, IsWithin};

use pb_helpers::{
    HelperTable, RuleCode, Version, argument_code, stack_read_code, stack_write_code, unset_code,
};
use pb_isa::{AluOp, Insn, MAX_RECORD_BYTES, Operand, Program, RECORD_BYTES, Reg, Size, Width};
use pb_kinds::{Frame, Kind};

/// What is known of a register.
pub fn kind(frame: &Frame, reg: Reg) -> Kind
    ensures { result ≡ at frame.now reg }
{
    frame.kinds[reg.number()]
}

/// How many bytes a load or a store moves.
pub fn bytes_of(size: Size) -> u8
    ensures value { result ≡ bytes_of size }
{
    match size {
        Size::B => 1,
        Size::H => 2,
        Size::W => 4,
        Size::Dw => 8,
    }
}

// 21. Reading is asked first of every rule, since 21 is the lowest code.
fn reads(frame: &Frame, reg: Reg) -> Option<RuleCode>
    ensures { result ≡ lowest_code (reads frame.now reg) }
{
    unset_code(frame, reg.number())
}

// 22. R10 stays the end of the stack, so that its kind is known at every slot.
fn sets(dst: Reg) -> Option<RuleCode>
    ensures { result ≡ lowest_code (sets dst) }
{
    RuleCode::WritesR10.when(dst.number() == 10)
}

fn reads_operand(frame: &Frame, src: Operand) -> Option<RuleCode>
    ensures { result ≡ lowest_code (reads_operand frame.now src) }
{
    match src {
        Operand::Imm(_) => None,
        Operand::Reg(src) => reads(frame, src),
    }
}

fn points(frame: &Frame, src: Operand) -> bool
    ensures { result ≡ points frame.now src }
{
    match src {
        Operand::Imm(_) => false,
        Operand::Reg(src) => kind(frame, src).is_pointer(),
    }
}

fn on_pointer(frame: &Frame, dst: Reg, src: Operand) -> bool
    ensures { result ≡ on_pointer frame.now dst src }
{
    kind(frame, dst).is_pointer() || points(frame, src)
}

// 36, of the slot that an instruction goes on to. Equality is enough, since no instruction takes a
// slot after the last.
fn falls(program: &Program, slot: usize) -> Option<RuleCode>
    ensures { result ≡ lowest_code (falls program.now.insns slot) }
{
    RuleCode::FallsOff.when(slot == program.slots())
}

// An operation on numbers alone: a pointer isn't calculated with, since what comes of it depends on where memory lies.
#[tactic(auto, using(pb_helpers::proofs::LowestCode::lowest_append))]
fn numeric(frame: &Frame, dst: Reg, src: Operand) -> Option<RuleCode>
    ensures { result ≡ lowest_code (numeric_rules frame.now dst src) }
{
    reads(frame, dst)
        .or(reads_operand(frame, src))
        .or(sets(dst))
        .or(RuleCode::PointerArithmetic.when(on_pointer(frame, dst, src)))
}

// A move of some of the source's bits, which takes no pointer, since a part of one points nowhere.
#[tactic(auto, using(pb_helpers::proofs::LowestCode::lowest_append))]
fn part_mov(frame: &Frame, dst: Reg, src: Reg) -> Option<RuleCode>
    ensures { result ≡ lowest_code (part_mov_rules frame.now dst src) }
{
    let is_pointer = kind(frame, src).is_pointer();
    reads(frame, src)
        .or(sets(dst))
        .or(RuleCode::PointerArithmetic.when(is_pointer))
}

#[tactic(auto, using(pb_helpers::proofs::LowestCode::lowest_append))]
fn mov(frame: &Frame, width: Width, dst: Reg, src: Operand) -> Option<RuleCode>
    ensures { result ≡ lowest_code (mov_rules frame.now width dst src) }
{
    match src {
        Operand::Imm(_) => sets(dst),
        Operand::Reg(src) => match width {
            Width::Bits64 => reads(frame, src).or(sets(dst)),
            Width::Bits32 => part_mov(frame, dst, src),
        },
    }
}

// A sum or a difference. With an immediate, on 64 bits, it may move a pointer, since it is known how far.
#[tactic(auto, using(pb_helpers::proofs::LowestCode::lowest_append))]
fn add(frame: &Frame, width: Width, dst: Reg, src: Operand) -> Option<RuleCode>
    ensures { result ≡ lowest_code (add_rules frame.now width dst src) }
{
    match width {
        Width::Bits64 => match src {
            Operand::Imm(_) => reads(frame, dst).or(sets(dst)),
            Operand::Reg(_) => numeric(frame, dst, src),
        },
        Width::Bits32 => numeric(frame, dst, src),
    }
}

fn alu(frame: &Frame, op: AluOp, width: Width, dst: Reg, src: Operand) -> Option<RuleCode>
    ensures { result ≡ lowest_code (alu_rules frame.now op width dst src) }
{
    match op {
        AluOp::Mov => mov(frame, width, dst, src),
        AluOp::Add | AluOp::Sub => add(frame, width, dst, src),
        AluOp::Mul
        | AluOp::Div
        | AluOp::Or
        | AluOp::And
        | AluOp::Lsh
        | AluOp::Rsh
        | AluOp::Mod
        | AluOp::Xor
        | AluOp::Arsh => numeric(frame, dst, src),
    }
}

// Whether so many bytes lie all in a record of this version: 27 is the one rule that a version changes.
fn in_record(version: Version, at: i64, bytes: u8) -> bool
    ensures { result ≡ ranges.in_record (size_of version) at bytes }
{
    let size = match version {
        Version::First => RECORD_BYTES as i64,
        Version::Second => MAX_RECORD_BYTES as i64,
    };
    0 <= at && at <= size - i64::from(bytes)
}

// The bytes of a load. An unset base breaks nothing here, since it is reported as 21.
fn loads(version: Version, frame: &Frame, base: Kind, offset: i16, bytes: u8) -> Option<RuleCode>
    requires { IsNear (2 ^ 62) base }
    ensures { result ≡ lowest_code (loads (size_of version) frame.now base offset bytes) }
{
    match base {
        Kind::Unset => None,
        Kind::Number => Some(RuleCode::ThroughNumber),
        Kind::Stack(at) => stack_read_code(frame, at + i64::from(offset), bytes),
        Kind::Record(at) => RuleCode::OutsideRecord.when(!in_record(
            version,
            at + i64::from(offset),
            bytes,
        )),
    }
}

// The bytes of a store: one to the record is reported as 28, wherever it goes, since the record is
// read-only.
fn stores(base: Kind, offset: i16, bytes: u8) -> Option<RuleCode>
    requires { IsNear (2 ^ 62) base }
    ensures { result ≡ lowest_code (stores base offset bytes) }
{
    match base {
        Kind::Unset => None,
        Kind::Number => Some(RuleCode::ThroughNumber),
        Kind::Stack(at) => stack_write_code(at + i64::from(offset), bytes),
        Kind::Record(_) => Some(RuleCode::WritesRecord),
    }
}

#[tactic(auto, using(pb_helpers::proofs::LowestCode::lowest_append))]
fn load(
    version: Version,
    frame: &Frame,
    size: Size,
    dst: Reg,
    src: Reg,
    offset: i16,
) -> Option<RuleCode>
    requires { IsWithin (2 ^ 62) frame.now }
    ensures { result ≡ lowest_code (load_rules (size_of version) frame.now size dst src offset) }
{
    let access = loads(version, frame, kind(frame, src), offset, bytes_of(size));
    reads(frame, src).or(sets(dst)).or(access)
}

#[tactic(auto, using(pb_helpers::proofs::LowestCode::lowest_append))]
fn store_imm(frame: &Frame, size: Size, dst: Reg, offset: i16) -> Option<RuleCode>
    requires { IsWithin (2 ^ 62) frame.now }
    ensures { result ≡ lowest_code (store_imm_rules frame.now size dst offset) }
{
    let access = stores(kind(frame, dst), offset, bytes_of(size));
    reads(frame, dst).or(access)
}

// A pointer isn't stored (24), so that every load makes a number and no frame needs kinds for stack bytes.
#[tactic(auto, using(pb_helpers::proofs::LowestCode::lowest_append))]
fn store(frame: &Frame, size: Size, dst: Reg, src: Reg, offset: i16) -> Option<RuleCode>
    requires { IsWithin (2 ^ 62) frame.now }
    ensures { result ≡ lowest_code (store_rules frame.now size dst src offset) }
{
    let access = stores(kind(frame, dst), offset, bytes_of(size));
    reads(frame, dst)
        .or(reads(frame, src))
        .or(RuleCode::PointerStored.when(kind(frame, src).is_pointer()))
        .or(access)
}

// One code at most: a jump back is reported as 32 alone, since it has no target among the later
// slots.
fn jumps(program: &Program, slot: usize, offset: i16) -> Option<RuleCode>
    requires { slot < slots program.now.insns }
    ensures { result ≡ lowest_code (jump_rules program.now.insns slot offset) }
{
    let slots = program.slots();
    if offset < 0 {
        return Some(RuleCode::BackwardJump);
    }
    let target = slot + 1 + offset as usize;
    if slots <= target {
        return Some(RuleCode::JumpOutside);
    }
    RuleCode::JumpIntoPair.when(program.at(target).is_none())
}

#[tactic(auto, using(pb_helpers::proofs::LowestCode::lowest_append))]
fn jump_if(
    program: &Program,
    slot: usize,
    frame: &Frame,
    dst: Reg,
    src: Operand,
    offset: i16,
) -> Option<RuleCode>
    requires { slot < slots program.now.insns }
    ensures { result ≡ lowest_code (jump_if_rules program.now.insns slot frame.now dst src offset) }
{
    // For the proof: a program has at most `MAX_SLOTS` slots, so that the next slot is a number.
    let _slots = program.slots();
    reads(frame, dst)
        .or(reads_operand(frame, src))
        .or(jumps(program, slot, offset))
        .or(falls(program, slot + 1))
        .or(RuleCode::PointerCompared.when(on_pointer(frame, dst, src)))
}

#[tactic(auto, using(pb_helpers::proofs::LowestCode::lowest_append))]
fn exit(frame: &Frame) -> Option<RuleCode>
    ensures { result ≡ lowest_code (exit_rules frame.now) }
{
    unset_code(frame, 0).or(RuleCode::ExitsWithPointer.when(frame.kinds[0].is_pointer()))
}

/// The lowest code of the rules that the instruction at a slot breaks.
#[tactic(auto, using(pb_helpers::proofs::LowestCode::lowest_append))]
pub fn lowest_broken(
    program: &Program,
    helpers: HelperTable,
    version: Version,
    slot: usize,
    frame: &Frame,
    insn: Insn,
) -> Option<RuleCode>
    requires inside { slot < slots program.now.insns }
    requires near { IsWithin (2 ^ 62) frame.now }
    ensures { result ≡ lowest_code (insn_rules
        (judged_by version program.now helpers) slot frame.now insn) }
{
    // For the proof: a program has at most `MAX_SLOTS` slots, so that the next slot is a number.
    let _slots = program.slots();
    let falls = falls(program, slot + 1);
    match insn {
        Insn::Alu {
            op,
            width,
            dst,
            src,
        } => alu(frame, op, width, dst, src).or(falls),
        Insn::MovSx {
            width: _,
            size: _,
            dst,
            src,
        } => part_mov(frame, dst, src).or(falls),
        // The negative has no second operand (RFC 9669, section 4.1): an immediate stands in, since it breaks no rule.
        Insn::Neg { width: _, dst } => numeric(frame, dst, Operand::Imm(0)).or(falls),
        // Two slots on, since the immediate takes a pair.
        Insn::LoadImm { dst, imm: _ } => sets(dst).or(self::falls(program, slot + 2)),
        Insn::Load {
            size,
            extension: _,
            dst,
            src,
            offset,
        } => load(version, frame, size, dst, src, offset).or(falls),
        Insn::StoreImm {
            size,
            dst,
            offset,
            imm: _,
        } => store_imm(frame, size, dst, offset).or(falls),
        Insn::Store {
            size,
            dst,
            src,
            offset,
        } => store(frame, size, dst, src, offset).or(falls),
        Insn::Jump { offset } => jumps(program, slot, offset),
        Insn::JumpIf {
            cmp: _,
            width: _,
            dst,
            src,
            offset,
        } => jump_if(program, slot, frame, dst, src, offset),
        Insn::Call { imm } => argument_code(helpers, imm, frame).or(falls),
        Insn::Exit => exit(frame),
    }
}
