//! Bytes to programs: slot by slot from the front, up to the first at fault.
ghost use Rattle.std.specs.Prelude.{◌≡◌, ◌≤◌, ◌*◌, ◌%◌, ◌⊎◌, ◌++◌, ℕ, List, length, false, ok_or, IfOk, IfErr};
ghost use Rattle.pb_reading.specs.Reading.{Gives};
ghost use Rattle.pb_isa.specs.declared.insn.Insn.{Insn};
ghost use Rattle.pb_isa.specs.Programs.{ProgramOf};
ghost use Rattle.pb_isa.specs.Bounds.{Fits};
ghost use Rattle.pb_isa.specs.Profiles.{IsOf, max_slots};
ghost use Rattle.pb_isa.specs.declared.profile.Profile.{Profile};
ghost use Rattle.pb_isa.specs.declared.profile.Profile.TheVariants.{One, Two};
ghost use Rattle.pb_isa.specs.Registers.{reg_of};
ghost use Rattle.pb_decode.specs.declared.fault.DecodeCode.{DecodeCode};
ghost use Rattle.pb_decode.specs.declared.fault.DecodeCode.TheVariants.{Register};
ghost use Rattle.pb_decode.specs.Fields.{slot_of_bytes};
ghost use Rattle.pb_decode.specs.Encoding.{insn_bytes, encoding, Encodes, in_profile};
ghost use Rattle.pb_decode.specs.Reading.{is_second_slot, pair_of, operand_of_source, size_of_bits, alu_of, insn_of_form, first_of};
ghost use Rattle.pb_decode.specs.Faults.{Applies, whole_fault, told_as, IsDecodeFault, AreRefusedAs, IsRefusal, IsRefusalInside, IsNoMemory, IsNoMemoryOr, AreSpelt, AreBytes, HasProgram, HasFault};

use crate::fault::{DecodeCode, DecodeFault};
use crate::fields::SlotFields;
use crate::forms::{Form, Source};
use pb_base::Refused;
use pb_isa::{AluOp, Insn, NoProgram, Operand, Profile, Program, Reg, Size, Width};
use std::alloc::Global;

// The register of a number.
fn register(number: u8) -> Result<Reg, DecodeCode>
    ensures { result ≡ ok_or (reg_of number) Register }
{
    match Reg::of(number) {
        Some(reg) => Ok(reg),
        None => Err(DecodeCode::Register),
    }
}

// Whether a slot has nothing but an immediate.
fn is_second_slot(slot: SlotFields) -> bool
    ensures { result ≡ is_second_slot slot }
{
    slot.opcode == 0 && slot.dst == 0 && slot.src == 0 && slot.offset == 0
}

// The 64-bit immediate of this low half, whose high half stands in the next slot. A pair that is
// cut off is reported before one whose second slot is wrong, since there is no such slot.
fn pair_of(dst: Reg, low: u32, bytes: &[u8]) -> Result<(Insn, &[u8]), DecodeCode>
    ensures { Gives (λ _. false) (λ x. (x.0, x.1.now)) result (pair_of dst low bytes.now) }
{
    if bytes.len() < 8 {
        return Err(DecodeCode::CutOff);
    }
    let second = SlotFields::at(bytes);
    if !is_second_slot(second) {
        return Err(DecodeCode::SecondSlot);
    }
    let imm = u64::from(low) + 0x1_0000_0000 * u64::from(second.imm);
    Ok((Insn::LoadImm { dst, imm }, &bytes[8..]))
}

// The source operand: of which sort, the opcode says.
fn operand(source: Source, src: Reg, imm: i32) -> Operand
    ensures { result ≡ operand_of_source source src imm }
{
    match source {
        Source::K => Operand::Imm(imm),
        Source::X => Operand::Reg(src),
    }
}

// The size of 8, 16 or 32 bits. The last case is that of 32, since an offset with other bits is refused before.
fn size_of_bits(bits: u16) -> Size
    ensures { result ≡ size_of_bits bits }
{
    match bits {
        8 => Size::B,
        16 => Size::H,
        _ => Size::W,
    }
}

// Arithmetic. With an offset, which a move of a register alone has, it extends the sign of so many bits.
fn alu_of(op: AluOp, width: Width, source: Source, dst: Reg, src: Reg, slot: SlotFields) -> Insn
    ensures { result ≡ alu_of op width source dst src slot }
{
    if slot.offset == 0 {
        let src = operand(source, src, slot.imm.cast_signed());
        Insn::Alu {
            op,
            width,
            dst,
            src,
        }
    } else {
        let size = size_of_bits(slot.offset);
        Insn::MovSx {
            width,
            size,
            dst,
            src,
        }
    }
}

// The instruction of a form with these fields, and the bytes after it. Only a pair takes more than
// its slot.
fn insn_of(
    form: Form,
    dst: Reg,
    src: Reg,
    slot: SlotFields,
    bytes: &[u8],
) -> Result<(Insn, &[u8]), DecodeCode>
    ensures { Gives (λ _. false) (λ x. (x.0, x.1.now)) result
        (insn_of_form form dst src slot bytes.now) }
{
    let imm = slot.imm.cast_signed();
    let offset = slot.offset.cast_signed();
    let insn = match form {
        Form::Alu(op, width, source) => alu_of(op, width, source, dst, src, slot),
        Form::Neg(width) => Insn::Neg { width, dst },
        Form::LoadImm => return pair_of(dst, slot.imm, bytes),
        Form::Load(size, extension) => Insn::Load {
            size,
            extension,
            dst,
            src,
            offset,
        },
        Form::StoreImm(size) => Insn::StoreImm {
            size,
            dst,
            offset,
            imm,
        },
        Form::Store(size) => Insn::Store {
            size,
            dst,
            src,
            offset,
        },
        Form::Jump => Insn::Jump { offset },
        Form::JumpIf(cmp, width, source) => Insn::JumpIf {
            cmp,
            width,
            dst,
            src: operand(source, src, imm),
            offset,
        },
        Form::Call => Insn::Call { imm },
        Form::Exit => Insn::Exit,
    };
    Ok((insn, bytes))
}

// The instruction at the front, and the bytes after it; or the lowest code that applies. The tests
// stand in the order of the codes, so that the first that fails returns it.
#[tactic(auto, unfolding(crate::specs::Reading::first_with))]
fn first_of(profile: Profile, bytes: &[u8]) -> Result<(Insn, &[u8]), DecodeCode>
    requires { 8 ≤ length bytes.now }
    ensures { Gives (λ _. false) (λ x. (x.0, x.1.now)) result (first_of profile bytes.now) }
{
    let slot = SlotFields::at(bytes);
    let Some(form) = Form::of(profile, slot.opcode) else {
        return Err(DecodeCode::Opcode);
    };
    let dst = register(slot.dst)?;
    let src = register(slot.src)?;
    if !form.is_clean(profile, slot) {
        return Err(DecodeCode::Unused);
    }
    insn_of(form, dst, src, slot, &bytes[8..])
}

// The fault of the whole, reported at slot 0 before that of any slot.
fn whole_fault(profile: Profile, bytes: &[u8]) -> Option<DecodeCode>
    ensures { result ≡ whole_fault profile bytes.now }
{
    if bytes.is_empty() || bytes.len() % 8 != 0 {
        Some(DecodeCode::Length)
    } else if bytes.len() > 8 * profile.max_slots() {
        Some(DecodeCode::TooLong)
    } else {
        None
    }
}

// A fault at a slot.
fn fault_at(slot: u16, code: DecodeCode) -> DecodeFault
    ensures { result ≡ told_as slot code }
{
    let code = code.code();
    DecodeFault::Refused(Refused { slot, code })
}

// The instructions that the bytes spell, one after the other. The whole has been tested, so that each rest begins with
// a slot, and a slot's number fits 16 bits.
fn insns_of(alloc: Global, profile: Profile, bytes: &[u8]) -> Result<Vec<Insn>, DecodeFault>
    requires whole { length bytes.now % 8 ≡ 0 }
    requires most { length bytes.now ≤ 8 * max_slots profile }
    ensures ok { IfOk result (λ v. AreSpelt profile bytes.now v.items) }
    ensures err { IfErr result (IsRefusalInside profile bytes.now) }
{
    let mut insns = Vec::new(alloc);
    let mut rest = bytes;
    while !rest.is_empty() {
        let (insn, after) = match first_of(profile, rest) {
            Ok(found) => found,
            Err(code) => {
                // What is read so far took whole slots, so that the division leaves nothing.
                let slot = (bytes.len() - rest.len()) / 8;
                return Err(fault_at(slot as u16, code));
            }
        };
        insns.push(insn)?;
        rest = after;
    }
    Ok(insns)
}

// The program of the profile that the bytes are, or why they are none.
fn program_of(alloc: Global, profile: Profile, bytes: &[u8]) -> Result<Program, DecodeFault>
    ensures ok { IfOk result (λ p. Encodes bytes.now p) }
    ensures profile { IfOk result (λ p. p.profile ≡ profile) }
    ensures err { IfErr result (IsRefusal profile bytes.now) }
{
    if let Some(code) = whole_fault(profile, bytes) {
        return Err(fault_at(0, code));
    }
    match Program::new(alloc, profile, insns_of(alloc, profile, bytes)?) {
        Ok(program) => Ok(program),
        Err(NoProgram::NoMemory(e)) => Err(DecodeFault::NoMemory(e)),
        // The bytes are some slots and no more than the profile has, since the whole has no fault.
        Err(NoProgram::NotInRange(_)) => unreachable!(),
    }
}

/// The program of profile 1 whose encoding the bytes are. Where they are none's, the first slot at fault and its lowest
/// code.
pub fn decode(alloc: Global, bytes: &[u8]) -> Result<Program, DecodeFault>
    ensures ok { IfOk result (λ p. Encodes bytes.now p) }
    ensures profile { IfOk result (λ p. p.profile ≡ One) }
    ensures err { IfErr result (IsRefusal One bytes.now) }
    ensures program { (p : ProgramOf) → p.profile ≡ One → Encodes bytes.now p
        → IfOk result (λ q. q ≡ p)
        × IfErr result IsNoMemory }
    ensures fault { (slot told : ℕ) → AreRefusedAs One bytes.now slot told → IfOk result (λ _. ⊥)
        × IfErr result (IsNoMemoryOr slot told) }
{
    decode_in(alloc, Profile::One, bytes)
}

/// The program of the profile whose encoding the bytes are. Where they are none's, the first slot at fault and its lowest
/// code.
pub fn decode_in(alloc: Global, profile: Profile, bytes: &[u8]) -> Result<Program, DecodeFault>
    ensures ok { IfOk result (λ p. Encodes bytes.now p) }
    ensures profile { IfOk result (λ p. p.profile ≡ profile) }
    ensures err { IfErr result (IsRefusal profile bytes.now) }
    ensures program { (p : ProgramOf) → p.profile ≡ profile → Encodes bytes.now p
        → IfOk result (λ q. q ≡ p)
        × IfErr result IsNoMemory }
    ensures fault { (slot told : ℕ) → AreRefusedAs profile bytes.now slot told
        → IfOk result (λ _. ⊥)
        × IfErr result (IsNoMemoryOr slot told) }
{
    program_of(alloc, profile, bytes)
}

/// In each profile a list of bytes is one program's, or has one fault, and not both. No code
/// applies where an instruction of the profile stands. So what is reported depends on the bytes
/// alone, and on no order of reading.
pub fn either_program_or_fault()
    ensures either { (profile : Profile) (bytes : List ℕ) → AreBytes bytes
        → HasProgram profile bytes ⊎ HasFault profile bytes }
    ensures not_both { (bytes : List ℕ) (p : ProgramOf) (slot : ℕ) (code : DecodeCode)
        → Encodes bytes p
        → IsDecodeFault p.profile bytes slot code → ⊥ }
    ensures one_program { (bytes : List ℕ) (p q : ProgramOf) → p.profile ≡ q.profile
        → Encodes bytes p
        → Encodes bytes q → p ≡ q }
    ensures one_fault { (profile : Profile) (bytes : List ℕ) (s t : ℕ) (c d : DecodeCode)
        → IsDecodeFault profile bytes s c
        → IsDecodeFault profile bytes t d → (s ≡ t) × (c ≡ d) }
    ensures no_code { (profile : Profile) (i : Insn) (rest : List ℕ) (code : DecodeCode) → Fits i
        → IsOf profile i
        → Applies profile (insn_bytes i ++ rest) code → ⊥ }
{}

/// Bytes that are a program's in profile 1 are, in profile 2, the program's of the same instructions.
pub fn profiles_read_alike()
    ensures { (bytes : List ℕ) (p : ProgramOf) → p.profile ≡ One → Encodes bytes p
        → Encodes bytes (in_profile Two p) }
{}
