//! What C calls to assemble and list programs, and to judge a manifest.
ghost use Rattle.std.specs.Prelude.{◌≡◌};
ghost use Rattle.pb_registry.specs.Manifests.{profile_of};
ghost use Rattle.pb_api.specs.Answers.{buffer_call};
ghost use Rattle.pb_api.specs.Programs.{IsAssembled, IsListed, InProfile};
ghost use Rattle.pb_api.specs.Manifests.{IsManifestVerdict};

use pb_api::{ManifestVerdict, TextAnswer, assemble_numbered, judge_manifest, list_numbered};
use std::alloc::Global;

/// Assembles the text of a program of this profile: `out` gets the program's bytes.
#[unsafe(no_mangle)]
pub extern "C" fn percobpf_asm(
    alloc: Global,
    text: &[u8],
    profile: u32,
    out: &mut [u8],
) -> TextAnswer
    ensures { InProfile (IsAssembled text.now) (profile_of profile)
        (buffer_call out.old out.new result) }
{
    assemble_numbered(alloc, text, profile, out)
}

/// Lists the bytes of a program of this profile: `out` gets one line for each instruction.
#[unsafe(no_mangle)]
pub extern "C" fn percobpf_dis(
    alloc: Global,
    bytes: &[u8],
    profile: u32,
    out: &mut [u8],
) -> TextAnswer
    ensures { InProfile (IsListed bytes.now) (profile_of profile)
        (buffer_call out.old out.new result) }
{
    list_numbered(alloc, bytes, profile, out)
}

/// Judges the text of a manifest, with the programs of its observers.
#[unsafe(no_mangle)]
pub extern "C" fn percobpf_manifest(alloc: Global, text: &[u8]) -> ManifestVerdict
    ensures { IsManifestVerdict text.now result }
{
    judge_manifest(alloc, text)
}
