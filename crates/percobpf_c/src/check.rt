//! What C calls for a verdict. An export's clauses may lead to no function's code, so that exports stand alone in their files.
ghost use Rattle.std.specs.Prelude.{◌≡◌, ◌+◌, ◌^◌};
ghost use Rattle.pb_registry.specs.Manifests.{profile_of};
ghost use Rattle.pb_api.specs.Numbers.{version_by, helpers_in_bits};
ghost use Rattle.pb_api.specs.Verdicts.{IsVerdictBy};
ghost use Rattle.pb_api.specs.Versions.{StandFrom};

use pb_api::{ProgramVerdict, Versions, judge_by_numbers, known_versions};
use std::alloc::Global;

/// Judges the bytes of a program of this profile, for change records of this version, with the helpers whose bits are set.
#[unsafe(no_mangle)]
pub extern "C" fn percobpf_check(
    alloc: Global,
    bytes: &[u8],
    profile: u32,
    record: u32,
    helpers: u32,
) -> ProgramVerdict
    ensures { IsVerdictBy (profile_of profile) (version_by «record») (helpers_in_bits helpers)
        bytes.now result }
{
    judge_by_numbers(alloc, bytes, profile, record, helpers)
}

/// The versions that this library knows: of its interface, and the greatest numbers that a caller may pass.
#[unsafe(no_mangle)]
pub extern "C" fn percobpf_version() -> Versions
    ensures interface { result.interface ≡ 1 }
    ensures profiles { StandFrom 1 (result.profiles + 1) profile_of }
    ensures records { StandFrom 1 (result.records + 1) version_by }
    ensures helpers { StandFrom 0 (2 ^ result.helpers) helpers_in_bits }
{
    known_versions()
}
