//! Code that is accepted: its bytes are read, and the rules accept the program. It stands in one place, so that a
//! manifest and the command `check` can't judge by different rules.
ghost use Rattle.std.specs.Prelude.{IfOk, IfErr};
ghost use Rattle.pb_isa.specs.declared.profile.Profile.TheVariants as profiles;
ghost use Rattle.pb_helpers.specs.declared.change.Version.TheVariants as versions;
ghost use Rattle.pb_registry.specs.Accepting.{IsAcceptedCode, IsAcceptFault};

use pb_accepted::Accepted;
use pb_decode::{DecodeFault, decode_in};
use pb_helpers::{HelperTable, Version};
use pb_isa::Profile;
use pb_verify::{VerifyFault, verify_for};
use std::alloc::Global;

/// Reads the bytes of a program of this profile, and accepts it with these helpers, for change
/// records of this version. Else it returns the first slot at fault, with the lowest code there: 10
/// to 16 of the bytes, or 21 to 38 of the program.
pub fn accept_in(
    alloc: Global,
    profile: Profile,
    version: Version,
    bytes: &[u8],
    helpers: HelperTable,
) -> Result<Accepted, VerifyFault>
    ensures accepted { IfOk result (IsAcceptedCode profile version bytes.now helpers) }
    ensures fault { IfErr result (IsAcceptFault profile version bytes.now helpers) }
{
    match decode_in(alloc, profile, bytes) {
        Ok(program) => verify_for(alloc, program, helpers, version),
        Err(DecodeFault::Refused(refused)) => Err(VerifyFault::Refused(refused)),
        Err(DecodeFault::NoMemory(e)) => Err(VerifyFault::NoMemory(e)),
    }
}

/// As `accept_in` in profile 1, for change records of version 1, since a manifest of that profile has no others.
pub fn accept(alloc: Global, bytes: &[u8], helpers: HelperTable) -> Result<Accepted, VerifyFault>
    ensures accepted { IfOk result (IsAcceptedCode profiles.One versions.First bytes.now helpers) }
    ensures fault { IfErr result (IsAcceptFault profiles.One versions.First bytes.now helpers) }
{
    accept_in(alloc, Profile::One, Version::First, bytes, helpers)
}
