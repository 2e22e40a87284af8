//! Programs assembled and listed, as C gets them.
ghost use Rattle.std.specs.Prelude.{◌≡◌};
ghost use Rattle.pb_registry.specs.Manifests.{profile_of};
ghost use Rattle.pb_api.specs.Answers.{text_answer, buffer_call};
ghost use Rattle.pb_api.specs.Kinds.{no_memory};
ghost use Rattle.pb_api.specs.Programs.{IsAssembled, IsListed, InProfile};

use crate::answer::TextAnswer;
use crate::kind::AnswerKind;
use crate::numbers::profile_of;
use pb_asm::{AsmFault, assemble_in, disassemble};
use pb_base::NoMemory;
use pb_decode::{DecodeFault, decode_in, encode};
use pb_isa::Profile;
use std::alloc::Global;

/// The answer where a growth was refused.
pub fn out_of_memory(refused: NoMemory) -> TextAnswer
    ensures { result ≡ text_answer no_memory 1 0 0 }
{
    TextAnswer::without_text(AnswerKind::NoMemory(refused), 1, 0)
}

// The bytes of the program of this profile that a text is.
fn assemble(alloc: Global, text: &[u8], profile: Profile, out: &mut [u8]) -> TextAnswer
    ensures { IsAssembled text.now profile (buffer_call out.old out.new result) }
{
    let Ok(text) = str::from_utf8(text) else {
        return TextAnswer::without_text(AnswerKind::NotText, 0, 0);
    };
    match assemble_in(alloc, profile, text) {
        Ok(program) => match encode(alloc, &program) {
            Ok(bytes) => TextAnswer::with_text(AnswerKind::Done, &bytes, out),
            Err(refused) => out_of_memory(refused),
        },
        Err(AsmFault::At { line, code }) => {
            TextAnswer::without_text(AnswerKind::Refused, u32::from(code), line)
        }
        Err(AsmFault::NoMemory(refused)) => out_of_memory(refused),
    }
}

// The listing of the program of this profile that bytes are.
fn list(alloc: Global, bytes: &[u8], profile: Profile, out: &mut [u8]) -> TextAnswer
    ensures { IsListed bytes.now profile (buffer_call out.old out.new result) }
{
    match decode_in(alloc, profile, bytes) {
        Ok(program) => match disassemble(alloc, &program) {
            Ok(text) => TextAnswer::with_text(AnswerKind::Done, text.as_bytes(), out),
            Err(refused) => out_of_memory(refused),
        },
        Err(DecodeFault::Refused(refused)) => TextAnswer::without_text(
            AnswerKind::Refused,
            u32::from(refused.code),
            usize::from(refused.slot),
        ),
        Err(DecodeFault::NoMemory(refused)) => out_of_memory(refused),
    }
}

/// Assembles a text in the profile of this number.
pub fn assemble_numbered(alloc: Global, text: &[u8], profile: u32, out: &mut [u8]) -> TextAnswer
    ensures { InProfile (IsAssembled text.now) (profile_of profile)
        (buffer_call out.old out.new result) }
{
    match profile_of(profile) {
        Some(profile) => assemble(alloc, text, profile, out),
        None => TextAnswer::without_text(AnswerKind::BadArgument, 0, 0),
    }
}

/// Lists bytes in the profile of this number.
pub fn list_numbered(alloc: Global, bytes: &[u8], profile: u32, out: &mut [u8]) -> TextAnswer
    ensures { InProfile (IsListed bytes.now) (profile_of profile)
        (buffer_call out.old out.new result) }
{
    match profile_of(profile) {
        Some(profile) => list(alloc, bytes, profile, out),
        None => TextAnswer::without_text(AnswerKind::BadArgument, 0, 0),
    }
}
