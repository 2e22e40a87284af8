//! Why bytes are no program.
ghost use Rattle.std.specs.Prelude.{◌≡◌};
ghost use Rattle.pb_base.specs.Growths.{refused_growth};
ghost use Rattle.pb_decode.specs.Faults.{decode_code};
ghost use Rattle.pb_decode.specs.declared.fault.DecodeFault.TheVariants.{NoMemory};

use pb_base::{NoMemory, Refused};
use std::alloc::AllocFailed;
use thiserror::Error;

/// What is wrong with the bytes. A slot is looked at in the order of the numbers, so that the first code that is found
/// is the lowest.
#[derive(Clone, Copy)]
pub enum DecodeCode {
    /// Their length is zero, or no multiple of 8.
    Length,
    /// More slots than the profile has.
    TooLong,
    /// An opcode outside the profile.
    Opcode,
    /// A register number over 10.
    Register,
    /// An unused field that is not zero.
    Unused,
    /// A pair cut off by the end.
    CutOff,
    /// A pair's second slot that has more than an immediate.
    SecondSlot,
}

impl DecodeCode {
    /// The number by which a code is reported.
    pub fn code(self) -> u8
        ensures { result ≡ decode_code self }
    {
        match self {
            DecodeCode::Length => 10,
            DecodeCode::TooLong => 11,
            DecodeCode::Opcode => 12,
            DecodeCode::Register => 13,
            DecodeCode::Unused => 14,
            DecodeCode::CutOff => 15,
            DecodeCode::SecondSlot => 16,
        }
    }
}

/// Why bytes were not decoded: memory was refused, or they are at fault, at a slot (from 0) and
/// with a code. Of the whole, 10 is no bytes, or no multiple of 8, and 11 more slots than the
/// profile has; both are at slot 0. Of one slot, 12 is an opcode outside the profile, 13 a register
/// number over 10, and 14 an unused field that is not zero. Of a pair, 15 is one cut off by the
/// end, and 16 a second slot that has more than an immediate; both are at the pair's first slot.
#[derive(Debug, Drop, Error)]
pub enum DecodeFault {
    #[error("{0}")]
    NoMemory(NoMemory),
    #[error("{0}")]
    Refused(Refused),
}

impl<T: Drop> From<AllocFailed<T>> for DecodeFault {
    ghost from_gives = { λ _ e. e ≡ NoMemory refused_growth };

    fn from(e: AllocFailed<T>) -> DecodeFault {
        DecodeFault::NoMemory(NoMemory::from(e))
    }
}
