//! The words of a line, read from left to right, up to the first fault. Each reader takes words off the front.
ghost use Rattle.std.specs.Prelude.{◌≡◌, IfOk, ◌==◌, false};
ghost use Rattle.pb_isa.specs.Profiles.{IsOf};
ghost use Rattle.pb_isa.specs.declared.insn.Insn.TheVariants as insn;
ghost use Rattle.pb_asm.specs.declared.names.Word.TheVariants as word;
ghost use Rattle.pb_reading.specs.Reading.{Gives, words_left};
ghost use Rattle.pb_asm.specs.Operands.{comma, last, alu_operands, mov_sx_operands, load_imm_operands, load_operands, store_imm_operands, store_operands, jump_if_operands, operands, insn_of_words, line_of, reg_of_text, operand_of_text, place_of_text, offset_of_text, imm_of_text, bits_of_text};

use crate::cuts::strip_suffix;
use crate::fault::AsmCode;
use crate::names::Word;
use crate::operands::{bits_of, imm_of, offset_of, operand_of, place_of, reg_of};
use pb_isa::{AluOp, Cmp, Extension, Insn, Operand, Profile, Reg, Size, Width};
use pb_reading::{LineWords, numeral_upto};

// The next word, which has a comma at its end. The comma is cut off before the word is read, so
// that a word without one is refused with 81, whatever the word says.
#[tactic(auto, unfolding(crate::specs::Operands::comma))]
fn comma<'a>(words: &mut LineWords<'a>) -> Result<&'a str, AsmCode>
    ensures { Gives (λ _. false) (λ x. (x.now, words_left words.new.rest)) result
        (comma (words_left words.old.rest)) }
{
    let word = words.next_word(AsmCode::Form)?;
    match strip_suffix(word, ',') {
        Some(word) => Ok(word),
        None => Err(AsmCode::Form),
    }
}

// A register or an immediate and nothing after it, as `add64` ends.
#[tactic(auto, unfolding(crate::specs::Operands::last))]
fn last_operand(words: &mut LineWords) -> Result<Operand, AsmCode>
    ensures { Gives (λ _. false) (λ a. a) result
        (last operand_of_text (words_left words.old.rest)) }
{
    let word = words.next_word(AsmCode::Form)?;
    let operand = operand_of(word)?;
    words.no_word(AsmCode::Form)?;
    Ok(operand)
}

// A number of bits and nothing after it, as `movsx64` ends.
#[tactic(auto, unfolding(crate::specs::Operands::last))]
fn last_bits(words: &mut LineWords, width: Width) -> Result<Size, AsmCode>
    ensures { Gives (λ _. false) (λ z. z) result
        (last (bits_of_text width) (words_left words.old.rest)) }
{
    let word = words.next_word(AsmCode::Form)?;
    let size = bits_of(width, word)?;
    words.no_word(AsmCode::Form)?;
    Ok(size)
}

// A place and nothing after it, as `ldxdw` ends.
#[tactic(auto, unfolding(crate::specs::Operands::last))]
fn last_place(words: &mut LineWords) -> Result<(Reg, i16), AsmCode>
    ensures { Gives (λ _. false) (λ p. p) result
        (last place_of_text (words_left words.old.rest)) }
{
    let word = words.next_word(AsmCode::Form)?;
    let place = place_of(word)?;
    words.no_word(AsmCode::Form)?;
    Ok(place)
}

// One register and nothing after it, as `neg64` and `stxdw` end.
#[tactic(auto, unfolding(crate::specs::Operands::last))]
fn last_reg(words: &mut LineWords) -> Result<Reg, AsmCode>
    ensures { Gives (λ _. false) (λ r. r) result
        (last reg_of_text (words_left words.old.rest)) }
{
    let word = words.next_word(AsmCode::Form)?;
    let reg = reg_of(word)?;
    words.no_word(AsmCode::Form)?;
    Ok(reg)
}

// One offset and nothing after it, as `ja` and `jeq64` end.
#[tactic(auto, unfolding(crate::specs::Operands::last))]
fn last_offset(words: &mut LineWords) -> Result<i16, AsmCode>
    ensures { Gives (λ _. false) (λ o. o) result
        (last offset_of_text (words_left words.old.rest)) }
{
    let word = words.next_word(AsmCode::Form)?;
    let offset = offset_of(word)?;
    words.no_word(AsmCode::Form)?;
    Ok(offset)
}

// One immediate and nothing after it, as `call` and `stdw` end.
#[tactic(auto, unfolding(crate::specs::Operands::last))]
fn last_imm(words: &mut LineWords) -> Result<i32, AsmCode>
    ensures { Gives (λ _. false) (λ k. k) result
        (last imm_of_text (words_left words.old.rest)) }
{
    let word = words.next_word(AsmCode::Form)?;
    let imm = imm_of(word)?;
    words.no_word(AsmCode::Form)?;
    Ok(imm)
}

// After `add64`: `r1, -32` or `r1, r2`.
#[tactic(auto, unfolding(crate::specs::Operands::alu_operands))]
fn alu(words: &mut LineWords, op: AluOp, width: Width) -> Result<Insn, AsmCode>
    ensures { Gives (λ _. false) (λ i. i) result
        (alu_operands (insn.Alu op width) (words_left words.old.rest)) }
{
    let word = comma(words)?;
    let dst = reg_of(word)?;
    let src = last_operand(words)?;
    Ok(Insn::Alu {
        op,
        width,
        dst,
        src,
    })
}

// After `movsx64`: `r0, r1, 8`.
#[tactic(auto, unfolding(crate::specs::Operands::mov_sx_operands))]
fn mov_sx(words: &mut LineWords, width: Width) -> Result<Insn, AsmCode>
    ensures { Gives (λ _. false) (λ i. i) result
        (mov_sx_operands width (words_left words.old.rest)) }
{
    let word = comma(words)?;
    let dst = reg_of(word)?;
    let word = comma(words)?;
    let src = reg_of(word)?;
    let size = last_bits(words, width)?;
    Ok(Insn::MovSx {
        width,
        size,
        dst,
        src,
    })
}

// After `lddw`: `r0, 4294967303`. Its number has no sign, since it is a whole word.
#[tactic(auto, unfolding(crate::specs::Operands::load_imm_operands, crate::specs::Operands::last))]
fn wide(words: &mut LineWords) -> Result<Insn, AsmCode>
    ensures { Gives (λ _. false) (λ i. i) result
        (load_imm_operands (words_left words.old.rest)) }
{
    let word = comma(words)?;
    let dst = reg_of(word)?;
    let word = words.next_word(AsmCode::Form)?;
    let imm = numeral_upto(AsmCode::Form, AsmCode::Range, u64::MAX, word)?;
    words.no_word(AsmCode::Form)?;
    Ok(Insn::LoadImm { dst, imm })
}

// After `ldxdw`: `r0, [r1+8]`.
#[tactic(auto, unfolding(crate::specs::Operands::load_operands))]
fn load(words: &mut LineWords, size: Size, extension: Extension) -> Result<Insn, AsmCode>
    ensures { Gives (λ _. false) (λ i. i) result
        (load_operands (insn.Load size extension) (words_left words.old.rest)) }
{
    let word = comma(words)?;
    let dst = reg_of(word)?;
    let (src, offset) = last_place(words)?;
    Ok(Insn::Load {
        size,
        extension,
        dst,
        src,
        offset,
    })
}

// After `stdw`: `[r10-8], 5`.
#[tactic(auto, unfolding(crate::specs::Operands::store_imm_operands))]
fn store_imm(words: &mut LineWords, size: Size) -> Result<Insn, AsmCode>
    ensures { Gives (λ _. false) (λ i. i) result
        (store_imm_operands (insn.StoreImm size) (words_left words.old.rest)) }
{
    let word = comma(words)?;
    let (dst, offset) = place_of(word)?;
    let imm = last_imm(words)?;
    Ok(Insn::StoreImm {
        size,
        dst,
        offset,
        imm,
    })
}

// After `stxdw`: `[r10-8], r2`.
#[tactic(auto, unfolding(crate::specs::Operands::store_operands))]
fn store(words: &mut LineWords, size: Size) -> Result<Insn, AsmCode>
    ensures { Gives (λ _. false) (λ i. i) result
        (store_operands (insn.Store size) (words_left words.old.rest)) }
{
    let word = comma(words)?;
    let (dst, offset) = place_of(word)?;
    let src = last_reg(words)?;
    Ok(Insn::Store {
        size,
        dst,
        src,
        offset,
    })
}

// After `jeq64`: `r1, 5, +2` or `r1, r2, +2`.
#[tactic(auto, unfolding(crate::specs::Operands::jump_if_operands))]
fn jump_if(words: &mut LineWords, cmp: Cmp, width: Width) -> Result<Insn, AsmCode>
    ensures { Gives (λ _. false) (λ i. i) result
        (jump_if_operands (insn.JumpIf cmp width) (words_left words.old.rest)) }
{
    let word = comma(words)?;
    let dst = reg_of(word)?;
    let word = comma(words)?;
    let src = operand_of(word)?;
    let offset = last_offset(words)?;
    Ok(Insn::JumpIf {
        cmp,
        width,
        dst,
        src,
        offset,
    })
}

// After `neg64`: `r1`.
fn neg(words: &mut LineWords, width: Width) -> Result<Insn, AsmCode>
    ensures { Gives (λ _. false) (λ i. i) result
        (operands (word.Neg width) (words_left words.old.rest)) }
{
    let dst = last_reg(words)?;
    Ok(Insn::Neg { width, dst })
}

// After `ja`: `+2`.
fn jump(words: &mut LineWords) -> Result<Insn, AsmCode>
    ensures { Gives (λ _. false) (λ i. i) result
        (operands word.Jump (words_left words.old.rest)) }
{
    let offset = last_offset(words)?;
    Ok(Insn::Jump { offset })
}

// After `call`: `1`.
fn call(words: &mut LineWords) -> Result<Insn, AsmCode>
    ensures { Gives (λ _. false) (λ i. i) result
        (operands word.Call (words_left words.old.rest)) }
{
    let imm = last_imm(words)?;
    Ok(Insn::Call { imm })
}

// The operands that a first word asks for.
fn operands(words: &mut LineWords, word: Word) -> Result<Insn, AsmCode>
    ensures { Gives (λ _. false) (λ i. i) result
        (operands word (words_left words.old.rest)) }
{
    match word {
        Word::Alu(op, width) => alu(words, op, width),
        Word::MovSx(width) => mov_sx(words, width),
        Word::Neg(width) => neg(words, width),
        Word::LoadImm => wide(words),
        Word::Load(size, extension) => load(words, size, extension),
        Word::StoreImm(size) => store_imm(words, size),
        Word::Store(size) => store(words, size),
        Word::Jump => jump(words),
        Word::JumpIf(cmp, width) => jump_if(words, cmp, width),
        Word::Call => call(words),
        Word::Exit => {
            words.no_word(AsmCode::Form)?;
            Ok(Insn::Exit)
        }
    }
}

// One instruction of a profile. The first word is looked at first, so that an unknown one is
// reported whatever comes after it.
#[tactic(auto, unfolding(crate::specs::Operands::insn_of_words))]
fn insn_of(words: &mut LineWords, profile: Profile) -> Result<Insn, AsmCode>
    ensures { Gives (λ _. false) (λ i. i) result
        (insn_of_words profile (words_left words.old.rest)) }
{
    let first = words.next_word(AsmCode::Form)?;
    match Word::of_name(profile, first) {
        Some(word) => operands(words, word),
        None => Err(AsmCode::Word),
    }
}

/// The instruction of a line, which isn't empty and no remark.
pub fn line_of(profile: Profile, text: &str) -> Result<Insn, AsmCode>
    ensures read { Gives (λ _. false) (λ i. i) result (line_of profile text.now) }
    ensures of_profile { IfOk result (IsOf profile) }
{
    insn_of(&mut LineWords { rest: Some(text) }, profile)
}
