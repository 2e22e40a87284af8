//! What each profile has, in figures, and what bytes are in both.
ghost use Rattle.law_programs.specs.BothProfiles.{BytesMeanTheSame};
ghost use Rattle.law_programs.specs.EncodedSigns.{SignsAreEncoded};
ghost use Rattle.law_programs.specs.ExtendedSigns.{LoadsExtendSigns, MovesExtendSigns};
ghost use Rattle.law_programs.specs.ProfileLimits.{ProfilesExtendSigns, ProfilesHaveSlots};

use pb_decode::{either_program_or_fault, profiles_read_alike};
use pb_sound::profiles_agree;

/// A program of profile 1 has at most 512 slots, and one of profile 2 at most 4,096. Profile 2 alone has moves that extend 8, 16
/// or 32 bits to 64, moves that extend 8 or 16 to 32, and loads that extend one, two or four bytes.
pub fn profiles_differ_in_slots_and_signs()
    ensures slots { ProfilesHaveSlots }
    ensures signs { ProfilesExtendSigns }
{}

/// A move or a load that extends the sign leaves 0x7f of 8 bits, 0x7fff of 16 and 0x7fff_ffff of 32 as they are, and fills the
/// bits above 0x80, 0x8000 and 0x8000_0000 with ones. A move to 32 bits clears the upper half.
pub fn signs_are_extended()
    ensures moves { MovesExtendSigns }
    ensures loads { LoadsExtendSigns }
{}

/// The moves and loads that extend the sign have the bytes which LLVM's assembler writes for them. In profile 2 these bytes are
/// no other program, and in profile 1 they are none.
pub fn sign_extensions_have_these_bytes()
    ensures { SignsAreEncoded }
{
    either_program_or_fault();
    profiles_read_alike();
}

/// Bytes that are a program of profile 1 are one program of profile 2, with the same instructions. For the same helpers and
/// record it is accepted alike, or refused at the same slot with the same code, and it means the same.
pub fn bytes_mean_the_same_in_both_profiles()
    ensures { BytesMeanTheSame }
{
    either_program_or_fault();
    profiles_read_alike();
    profiles_agree();
}
