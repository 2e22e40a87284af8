//! The verdict on a program, as C gets it.
ghost use Rattle.std.specs.Prelude.{◌≡◌, Some};
ghost use Rattle.pb_registry.specs.Manifests.{profile_of};
ghost use Rattle.pb_api.specs.Numbers.{version_by, helpers_in_bits};
ghost use Rattle.pb_api.specs.Verdicts.{IsVerdictOf, IsVerdictBy, no_verdict};

use crate::kind::{AnswerKind, KindNumber};
use crate::numbers::{helpers_of, profile_of, version_of};
use pb_helpers::{HelperTable, Version};
use pb_isa::Profile;
use pb_registry::accept_in;
use pb_verify::VerifyFault;
use std::alloc::Global;

/// The verdict on a program: where it is accepted, how many slots it takes, and where it is refused, the first slot at
/// fault and the lowest code there.
#[repr(C)]
#[derive(Clone, Copy)]
pub struct ProgramVerdict {
    pub kind: KindNumber,
    pub slot: u32,
    pub code: u32,
}

/// The verdict where an argument isn't one of those that it may be.
pub fn no_verdict() -> ProgramVerdict
    ensures { result ≡ no_verdict }
{
    ProgramVerdict {
        kind: AnswerKind::BadArgument.number(),
        slot: 0,
        code: 0,
    }
}

/// The verdict on the bytes of a program of this profile, for change records of this version, with these helpers.
pub fn judge(
    alloc: Global,
    bytes: &[u8],
    profile: Profile,
    version: Version,
    helpers: HelperTable,
) -> ProgramVerdict
    ensures { IsVerdictOf profile version helpers bytes.now result }
{
    match accept_in(alloc, profile, version, bytes, helpers) {
        Ok(accepted) => ProgramVerdict {
            kind: AnswerKind::Done.number(),
            slot: accepted.slots() as u32,
            code: 0,
        },
        Err(VerifyFault::Refused(refused)) => ProgramVerdict {
            kind: AnswerKind::Refused.number(),
            slot: u32::from(refused.slot),
            code: u32::from(refused.code),
        },
        Err(VerifyFault::NoMemory(refused)) => ProgramVerdict {
            kind: AnswerKind::NoMemory(refused).number(),
            slot: 0,
            code: 1,
        },
    }
}

/// What the numbers stand for, where each is one of those that it may be.
pub fn judge_by_numbers(
    alloc: Global,
    bytes: &[u8],
    profile: u32,
    version: u32,
    helpers: u32,
) -> ProgramVerdict
    ensures { IsVerdictBy (profile_of profile) (version_by version) (helpers_in_bits helpers)
        bytes.now result }
{
    match (
        profile_of(profile),
        version_of(version),
        helpers_of(helpers),
    ) {
        (Some(profile), Some(version), Some(helpers)) => {
            judge(alloc, bytes, profile, version, helpers)
        }
        _ => no_verdict(),
    }
}
