//! Registers, numbers and places, each a text of its own.
ghost use Rattle.std.specs.Prelude.{◌≡◌, ◌≤◌, ◌<◌, ◌^◌, ◌-◌, ◌-ℤ◌, ◌≤ℤ◌, pos, neg_ℤ, IfOk, ℤ, false};
ghost use Rattle.pb_reading.specs.Reading.{Gives};
ghost use Rattle.pb_asm.specs.Operands.{minus, plus, imm_of_text, offset_of_text, reg_of_text, operand_of_text, size_in, bits_of_text, base_and_offset, place_of_text};
ghost use Rattle.pb_asm.specs.Names.{sizes};

use crate::cuts::{split_once, strip_prefix, strip_suffix};
use crate::fault::AsmCode;
use crate::names::reg_named;
use pb_isa::{Operand, Reg, Size, Width};
use pb_reading::numeral_upto;

// The digits after a minus: at most this, and not zero, since `-0` would be a second spelling of
// `0`.
#[tactic(auto, unfolding(crate::specs::Operands::minus))]
fn minus(greatest: u32, text: &str) -> Result<i64, AsmCode>
    ensures value { Gives (λ _. false) (λ z. z) result (minus greatest text.now) }
    ensures low { IfOk result (λ z. neg_ℤ (pos greatest) ≤ℤ z) }
    ensures high { IfOk result (λ z. z ≤ℤ pos 0) }
{
    let number = numeral_upto(AsmCode::Form, AsmCode::Range, u64::from(greatest), text)?;
    if number == 0 {
        return Err(AsmCode::Form);
    }
    Ok(-(number as i64))
}

// Digits without a minus: below this. The limit and not the greatest is taken, so that one number says the range of
// either sign.
#[tactic(auto, unfolding(crate::specs::Operands::plus))]
fn plus(limit: u32, text: &str) -> Result<i64, AsmCode>
    requires { 0 < limit }
    ensures value { Gives (λ _. false) (λ z. z) result (plus limit text.now) }
    ensures low { IfOk result (λ z. pos 0 ≤ℤ z) }
    ensures high { IfOk result (λ z. z ≤ℤ pos (limit - 1)) }
{
    let number = numeral_upto(AsmCode::Form, AsmCode::Range, u64::from(limit - 1), text)?;
    Ok(number as i64)
}

/// An immediate, which has a sign only where it is negative: -2147483648 to 2147483647.
pub fn imm_of(text: &str) -> Result<i32, AsmCode>
    ensures { Gives (λ _. false) (λ z. z) result (imm_of_text text.now) }
{
    let number = match strip_prefix(text, '-') {
        Some(digits) => minus(0x8000_0000, digits)?,
        None => plus(0x8000_0000, text)?,
    };
    Ok(number as i32)
}

/// An offset, which always has a sign: -32768 to +32767.
pub fn offset_of(text: &str) -> Result<i16, AsmCode>
    ensures { Gives (λ _. false) (λ z. z) result (offset_of_text text.now) }
{
    if let Some(digits) = strip_prefix(text, '-') {
        return Ok(minus(0x8000, digits)? as i16);
    }
    match strip_prefix(text, '+') {
        Some(digits) => Ok(plus(0x8000, digits)? as i16),
        None => Err(AsmCode::Form),
    }
}

/// A register.
pub fn reg_of(text: &str) -> Result<Reg, AsmCode>
    ensures { Gives (λ _. false) (λ r. r) result (reg_of_text text.now) }
{
    match reg_named(text) {
        Some(reg) => Ok(reg),
        None => Err(AsmCode::Form),
    }
}

/// An operand that may be a register or an immediate. Its first letter shows which, so that what
/// begins with an `r` is reported as no register and not as no number.
#[tactic(auto, unfolding(crate::specs::Operands::operand_of_text))]
pub fn operand_of(text: &str) -> Result<Operand, AsmCode>
    ensures { Gives (λ _. false) (λ a. a) result (operand_of_text text.now) }
{
    let bytes = text.as_bytes();
    if !bytes.is_empty() && bytes[0] == b'r' {
        Ok(Operand::Reg(reg_of(text)?))
    } else {
        Ok(Operand::Imm(imm_of(text)?))
    }
}

// The size of so many bits that is narrower than the width, if there is one.
fn narrower_size(width: Width, bits: u64) -> Option<Size>
    ensures { result ≡ size_in width bits sizes }
{
    match (bits, width) {
        (8, _) => Some(Size::B),
        (16, _) => Some(Size::H),
        (32, Width::Bits64) => Some(Size::W),
        _ => None,
    }
}

/// How many bits a sign-extending move of this width takes from its source: 8 or 16, and to 64 bits
/// also 32. Any other number, of any length, is refused with 82, since it has the form.
#[tactic(auto, unfolding(crate::specs::Operands::bits_of_text))]
pub fn bits_of(width: Width, text: &str) -> Result<Size, AsmCode>
    ensures { Gives (λ _. false) (λ z. z) result (bits_of_text width text.now) }
{
    let bits = numeral_upto(AsmCode::Form, AsmCode::Range, u64::MAX, text)?;
    match narrower_size(width, bits) {
        Some(size) => Ok(size),
        None => Err(AsmCode::Range),
    }
}

/// A place in memory: a register and an offset in brackets. It is cut at the sign, since a register's name has none.
#[tactic(auto, unfolding(crate::specs::Operands::place_of_text, crate::specs::Operands::base_and_offset))]
pub fn place_of(text: &str) -> Result<(Reg, i16), AsmCode>
    ensures { Gives (λ _. false) (λ p. p) result (place_of_text text.now) }
{
    let Some(front) = strip_prefix(text, '[') else {
        return Err(AsmCode::Form);
    };
    let Some(inner) = strip_suffix(front, ']') else {
        return Err(AsmCode::Form);
    };
    if let Some((base, digits)) = split_once(inner, '+') {
        let base = reg_of(base)?;
        return Ok((base, plus(0x8000, digits)? as i16));
    }
    let Some((base, digits)) = split_once(inner, '-') else {
        return Err(AsmCode::Form);
    };
    let base = reg_of(base)?;
    Ok((base, minus(0x8000, digits)? as i16))
}
