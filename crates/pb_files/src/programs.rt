//! Programs assembled, listed and checked. A file's bytes are judged, and the text made, before any
//! of it is written.
ghost use Rattle.std.specs.Prelude.{◌≡◌, ℕ, List, false, IfOk, IfErr, string_bytes};
ghost use Rattle.pb_isa.specs.declared.insn.Insn.{Insn};
ghost use Rattle.pb_asm.specs.Listing.{listing};
ghost use Rattle.pb_base.specs.Taking.{taking, TookAll, TookPart};
ghost use Rattle.pb_files.specs.declared.fault.FileFault.TheVariants as faults;
ghost use Rattle.pb_files.specs.Files.{filing};
ghost use Rattle.pb_files.specs.PathFaults.{IsUnreadAt};
ghost use Rattle.pb_files.specs.Programs.{IsNoProgramText, IsTextFault, IsMemoryFault};
ghost use Rattle.pb_files.specs.declared.answer.Verdict.TheVariants as verdicts;
ghost use Rattle.pb_files.specs.Programs.{Assembles, AsmLeaves, TellsProgram, Checks, AnswerLeaves, refusal_line, acceptance_line};

use crate::answer::{Verdict, VerdictText};
use crate::fault::FileFault;
use crate::paths::{PathFault, Paths};
use crate::reading::{bytes_at, text_of};
use pb_asm::{AsmFault, assemble_in, disassemble};
use pb_base::{NoMemory, Refused, Sink};
use pb_decode::{DecodeFault, decode_in, encode};
use pb_helpers::{HelperTable, Version};
use pb_isa::{Profile, Program};
use pb_registry::accept_in;
use pb_texts::ProgramFile;
use pb_verify::VerifyFault;
use std::alloc::Global;

// The fault of a text. Want of memory has no line, so it is a fault of its own.
fn text_fault<'a>(fault: AsmFault) -> FileFault<'a>
    ensures { IsTextFault fault result }
{
    match fault {
        AsmFault::NoMemory(refused) => FileFault::NoMemory(refused),
        fault => FileFault::Text(fault),
    }
}

// The bytes of the program of this profile whose text a file holds.
fn bytes_of_text<'a, P: Paths>(
    alloc: Global,
    profile: Profile,
    input: &'a str,
    paths: &mut P,
) -> Result<Vec<u8>, FileFault<'a>>
    ensures bytes { IfOk result (λ v. Assembles profile (P.held paths.old input.now) v.items) }
    ensures fault { IfErr result (IsNoProgramText profile (P.held paths.old input.now) input.now) }
    ensures same { P.held paths.new ≡ P.held paths.old }
    ensures quiet { P.failed paths.new ≡ P.failed paths.old }
{
    let bytes = bytes_at(paths, input)?;
    let text = text_of(bytes, input)?;
    match assemble_in(alloc, profile, text.as_str()) {
        Ok(program) => Ok(encode(alloc, &program)?),
        Err(fault) => Err(text_fault(fault)),
    }
}

/// Writes the bytes of the program of this profile whose text a file holds.
pub fn assemble_file<'a, P: Paths>(
    alloc: Global,
    profile: Profile,
    input: &'a str,
    output: &'a str,
    paths: &mut P,
) -> Result<Verdict, FileFault<'a>>
    ensures { AsmLeaves profile (filing P.held P.failed paths.old paths.new)
        input.now output.now result }
{
    let bytes = bytes_of_text(alloc, profile, input, paths)?;
    match paths.write(output, &bytes) {
        Ok(()) => Ok(Verdict::Accepted),
        Err(PathFault::NoMemory(refused)) => Err(FileFault::NoMemory(refused)),
        Err(_) => Err(FileFault::Unwritable(output)),
    }
}

/// A refusal, and the line that reports it.
pub fn refusal_of<'a>(alloc: Global, refused: Refused) -> Result<VerdictText, FileFault<'a>>
    ensures told { IfOk result
        (λ a. (a.verdict ≡ verdicts.Refused)
        × (string_bytes a.text ≡ refusal_line refused.slot refused.code)) }
    ensures fault { IfErr result IsMemoryFault }
{
    let text = format!(in alloc; "{refused}\n")?;
    Ok(VerdictText {
        verdict: Verdict::Refused,
        text,
    })
}

/// Which text is written for a program.
pub trait ProgramText {
    ghost text_of: { List Insn → List ℕ };

    /// The text for this one.
    fn text(alloc: Global, program: &Program) -> Result<String, NoMemory>
        ensures { IfOk result (λ s. string_bytes s ≡ text_of program.now.insns) };
}

/// Its listing.
pub struct Listing;

impl ProgramText for Listing {
    ghost text_of = { listing };

    fn text(alloc: Global, program: &Program) -> Result<String, NoMemory> {
        disassemble(alloc, program)
    }
}

// The text for the program of these bytes, read in this profile, or where they are refused.
fn told_of<'a, V: ProgramText>(
    alloc: Global,
    profile: Profile,
    bytes: &[u8],
) -> Result<VerdictText, FileFault<'a>>
    ensures told { IfOk result (λ a. TellsProgram V.text_of profile bytes.now a.verdict
        (string_bytes a.text)) }
    ensures fault { IfErr result IsMemoryFault }
{
    match decode_in(alloc, profile, bytes) {
        Ok(program) => {
            let text = V::text(alloc, &program)?;
            Ok(VerdictText {
                verdict: Verdict::Accepted,
                text,
            })
        }
        Err(DecodeFault::Refused(refused)) => refusal_of(alloc, refused),
        Err(DecodeFault::NoMemory(refused)) => Err(FileFault::NoMemory(refused)),
    }
}

// That a program is accepted, and the line that reports it.
fn acceptance_of<'a>(alloc: Global, slots: usize) -> Result<VerdictText, FileFault<'a>>
    ensures told { IfOk result (λ a. (a.verdict ≡ verdicts.Accepted)
        × (string_bytes a.text ≡ acceptance_line slots)) }
    ensures fault { IfErr result IsMemoryFault }
{
    let text = format!(in alloc; "accepted {slots} slots\n")?;
    Ok(VerdictText {
        verdict: Verdict::Accepted,
        text,
    })
}

// Whether the program of these bytes, read in this profile, is accepted with all helpers for change
// records of this version, or where bytes or program are refused.
fn verdict_of<'a>(
    alloc: Global,
    profile: Profile,
    version: Version,
    bytes: &[u8],
) -> Result<VerdictText, FileFault<'a>>
    ensures told { IfOk result (λ a. Checks profile version bytes.now a.verdict
        (string_bytes a.text)) }
    ensures fault { IfErr result IsMemoryFault }
{
    // All helpers, since a program alone has no manifest that names its own.
    match accept_in(alloc, profile, version, bytes, HelperTable::all()) {
        Ok(accepted) => acceptance_of(alloc, accepted.slots()),
        Err(VerifyFault::Refused(refused)) => refusal_of(alloc, refused),
        Err(VerifyFault::NoMemory(refused)) => Err(FileFault::NoMemory(refused)),
    }
}

/// Writes an answer.
pub fn write_answer<'a, O: Sink>(
    answer: &VerdictText,
    out: &mut O,
) -> Result<Verdict, FileFault<'a>>
    requires unfailed { O.failed out.old ≡ false }
    ensures ok { IfOk result (λ v. (v ≡ answer.now.verdict)
        × TookAll (taking O.taken O.failed out.old out.new) (string_bytes answer.now.text)) }
    ensures err { IfErr result (λ f. (f ≡ faults.Output)
        × TookPart (taking O.taken O.failed out.old out.new) (string_bytes answer.now.text)) }
{
    match out.write_all(answer.text.as_bytes()) {
        Ok(()) => Ok(answer.verdict),
        Err(_) => Err(FileFault::Output),
    }
}

/// Writes the text for the program of this profile whose bytes a file holds, or where they are
/// refused.
pub fn tell_file<'a, V: ProgramText, P: Paths, O: Sink>(
    alloc: Global,
    profile: Profile,
    file: &'a str,
    paths: &mut P,
    out: &mut O,
) -> Result<Verdict, FileFault<'a>>
    requires unfailed { O.failed out.old ≡ false }
    ensures told { AnswerLeaves (TellsProgram V.text_of profile) (P.held paths.old file.now)
        file.now
        (taking O.taken O.failed out.old out.new) result }
    ensures same { P.held paths.new ≡ P.held paths.old }
    ensures quiet { P.failed paths.new ≡ P.failed paths.old }
{
    let bytes = bytes_at(paths, file)?;
    let answer = told_of::<V>(alloc, profile, &bytes)?;
    write_answer(&answer, out)
}

/// Writes whether a file's program is accepted with all helpers, or where it is refused.
pub fn check_file<'a, P: Paths, O: Sink>(
    alloc: Global,
    program: &ProgramFile<'a>,
    paths: &mut P,
    out: &mut O,
) -> Result<Verdict, FileFault<'a>>
    requires unfailed { O.failed out.old ≡ false }
    ensures told { AnswerLeaves (Checks program.now.profile program.now.version)
        (P.held paths.old program.now.file.now) program.now.file.now
        (taking O.taken O.failed out.old out.new) result }
    ensures same { P.held paths.new ≡ P.held paths.old }
    ensures quiet { P.failed paths.new ≡ P.failed paths.old }
{
    let bytes = bytes_at(paths, program.file)?;
    let answer = verdict_of(alloc, program.profile, program.version, &bytes)?;
    write_answer(&answer, out)
}
