//! Texts to programs, and the laws of what is read and which faults are reported.
ghost use Rattle.std.specs.Prelude.{◌≡◌, ◌≢◌, ◌⊎◌, ◌↔◌, ℕ, ◌+◌, ◌==◌, ◌<◌, ◌≤◌, IfOk, Ok, Err, List, [], ◌∷◌, ◌++◌, map};
ghost use Rattle.std.specs.List.{slice_split, before_first, AllByRecursion};
ghost use Rattle.pb_isa.specs.Bounds.{Fits};
ghost use Rattle.pb_isa.specs.declared.insn.Insn.{Insn};
ghost use Rattle.pb_isa.specs.Slots.{slots};
ghost use Rattle.pb_isa.specs.declared.profile.Profile.{Profile};
ghost use Rattle.pb_isa.specs.declared.profile.Profile.TheVariants.{One};
ghost use Rattle.pb_isa.specs.Profiles.{max_slots, IsOf};
ghost use Rattle.pb_isa.specs.Programs.{ProgramOf, IsProgram};
ghost use Rattle.pb_asm.specs.declared.fault.AsmCode.{AsmCode};
ghost use Rattle.pb_asm.specs.declared.fault.AsmCode.TheVariants as code;
ghost use Rattle.pb_asm.specs.declared.names.Word.{Word};
ghost use Rattle.pb_asm.specs.Names.{name, IsWordOf};
ghost use Rattle.pb_reading.specs.Reading.{lines_of, numbered, shown_lines};
ghost use Rattle.pb_reading.specs.Faults.{ReadsLine, ReadsText, StopsAt};
ghost use Rattle.pb_asm.specs.Codes.{asm_code};
ghost use Rattle.pb_asm.specs.Listing.{insn_text, listing};
ghost use Rattle.pb_asm.specs.Operands.{line_of};
ghost use Rattle.pb_asm.specs.OutOfRange.{NumberPlace, line_with, FitsBefore, place_word, IsBeyond, EndsWord, IsOutOfRange};
ghost use Rattle.pb_asm.specs.Texts.{with_insn_line, insns_of_lines, program_of_text, HasNone};

use crate::fault::AsmCode;
use crate::line::line_of;
use crate::lines::Lines;
use pb_isa::{Insn, NoProgram, Profile, Program};
use pb_reading::{LineFault, TextFault as AsmFault, first_line, is_skipped};
use std::alloc::Global;

impl Lines {
    // Adds what one line says in a profile. That it ends past the last slot is reported last, since
    // 83 is reported only if a line has no other fault.
    #[tactic(auto, using(crate::proofs::SlotCounts::slots_push, crate::proofs::SlotCounts::fit_push, crate::proofs::SlotCounts::of_push), unfolding(crate::specs::Texts::with_insn_line))]
    fn add(&mut self, profile: Profile, line: &str) -> Result<(), LineFault<AsmCode>>
        requires most { self.old.taken ≤ max_slots profile }
        requires fits { AllByRecursion Fits self.old.insns.items }
        requires of_profile { AllByRecursion (IsOf profile) self.old.insns.items }
        ensures read { ReadsLine (λ _. self.new.insns.items) result
            (with_insn_line profile self.old.insns.items line.now) }
        ensures most { self.new.taken ≤ max_slots profile }
        ensures fits { AllByRecursion Fits self.new.insns.items }
        ensures of_profile { AllByRecursion (IsOf profile) self.new.insns.items }
    {
        if is_skipped(line) {
            return Ok(());
        }
        let insn = line_of(profile, line).map_err(LineFault::Code)?;
        let most = profile.max_slots();
        let slots = self.taken + slots_of(insn);
        if slots > most {
            return Err(LineFault::Code(AsmCode::TooLong));
        }
        // After the test, so that the instructions are within the profile's slots after every line.
        self.insns.push(insn)?;
        self.taken = slots;
        Ok(())
    }
}

// How many slots an instruction takes. It also promises that its numbers fit, which they do by
// their types, so that this holds of all lines together.
fn slots_of(insn: Insn) -> usize
    ensures slots { result ≡ slots (insn ∷ []) }
    ensures fits { Fits insn }
{
    match insn {
        Insn::LoadImm { .. } => 2,
        _ => 1,
    }
}

// The instructions of all lines, up to the first fault. Later lines aren't looked at, since the
// first fault is reported.
fn lines_in(alloc: Global, profile: Profile, text: &str) -> Result<Lines, AsmFault>
    ensures read { ReadsText (λ l. l.insns.items) result
        (insns_of_lines profile 0 [] (lines_of text.now)) }
    ensures most { IfOk result (λ l. l.taken ≤ max_slots profile) }
    ensures fits { IfOk result (λ l. AllByRecursion Fits l.insns.items) }
    ensures of_profile { IfOk result (λ l. AllByRecursion (IsOf profile) l.insns.items) }
{
    let mut read = Lines {
        insns: Vec::new(alloc),
        taken: 0,
    };
    let mut index = 0;
    let mut left = Some(text);
    while let Some(lines) = left {
        let (line, after) = first_line(lines);
        match read.add(profile, line) {
            Ok(()) => {}
            Err(LineFault::NoMemory(e)) => return Err(AsmFault::NoMemory(e)),
            Err(LineFault::Code(code)) => return Err(AsmFault::at(index, code.code())),
        }
        index += 1;
        left = after;
    }
    Ok(read)
}

/// The program of a text of profile 1, one instruction a line. Empty lines and lines that begin with `#` are skipped.
pub fn assemble(alloc: Global, text: &str) -> Result<Program, AsmFault>
    ensures read { ReadsText (λ p. p) result (program_of_text One text.now) }
    ensures profile { IfOk result (λ p. p.profile ≡ One) }
    ensures program { IfOk result IsProgram }
    ensures fits { IfOk result (λ p. AllByRecursion Fits p.insns) }
{
    assemble_in(alloc, Profile::One, text)
}

/// The program of a text, one instruction of the profile per line. Empty lines and lines that begin
/// with `#` are skipped. Any other text is refused at its first line at fault. The code is 80 for a
/// first word that is none of the profile's instructions', and 81 for operands that are not of the
/// form. It is 82 for a number out of range or none of those that may stand there, and 83 for an
/// instruction that ends past the last slot that a program of the profile may have. A text with no
/// instruction at all is refused with 84 at line 0, since that is no line's fault. If memory ran
/// out it is line 0 with code 1, whichever line was read.
pub fn assemble_in(alloc: Global, profile: Profile, text: &str) -> Result<Program, AsmFault>
    ensures read { ReadsText (λ p. p) result (program_of_text profile text.now) }
    ensures profile { IfOk result (λ p. p.profile ≡ profile) }
    ensures program { IfOk result IsProgram }
    ensures fits { IfOk result (λ p. AllByRecursion Fits p.insns) }
{
    let lines = lines_in(alloc, profile, text)?;
    if lines.insns.is_empty() {
        let code = AsmCode::Nothing.code();
        return Err(AsmFault::At { line: 0, code });
    }
    match Program::new(alloc, profile, lines.insns) {
        Ok(program) => Ok(program),
        Err(NoProgram::NoMemory(e)) => Err(AsmFault::NoMemory(e)),
        // There is an instruction, and each line was tested, so that they take some slots and no more than the profile
        // has.
        Err(NoProgram::NotInRange(_)) => unreachable!(),
    }
}

/// Each listing is a text with one reading in its program's profile, its program. So `dis` loses nothing of a program.
pub fn listings_read_back()
    ensures { (p : ProgramOf) → IsProgram p → AllByRecursion Fits p.insns
        → program_of_text p.profile (listing p.insns) ≡ Ok p }
{}

/// A line is read in a profile as an instruction exactly where it is the instruction's line of a listing, character for
/// character, the instruction's numbers fit their fields, and the profile has it.
pub fn one_spelling()
    ensures { (p : Profile) (line : List ℕ) (i : Insn) → (line_of p line ≡ Ok i)
        ↔ ((line ≡ insn_text i) × Fits i × IsOf p i) }
{}

/// A text is read in a profile as a program exactly where its lines that are neither empty nor remarks are the program's
/// listing line by line, and it is a program of that profile.
pub fn only_listings_are_read()
    ensures { (q : Profile) (text : List ℕ) (p : ProgramOf) → (program_of_text q text ≡ Ok p)
        ↔ ((shown_lines text ≡ map insn_text p.insns) × (p.profile ≡ q) × IsProgram p
        × AllByRecursion Fits p.insns) }
{}

/// The fault that is reported is that of the first line at fault, after lines that are read; or no
/// line has an instruction.
pub fn fault_is_first()
    ensures { (p : Profile) (text : List ℕ) (line told : ℕ)
        → program_of_text p text ≡ Err (line, told)
        → StopsAt asm_code (with_insn_line p) [] text line told ⊎ HasNone p text line told }
{}

/// An unknown word is reported exactly if what stands before the first blank, or the whole line if
/// there is none, is the name of none of the profile's instructions. Too many slots are reported
/// exactly if the line is the listing's of one of the profile's instructions, which ends past the
/// last slot that a program of the profile may have. No instruction at all is reported exactly if
/// each line is empty or a remark. A line by itself is refused for an unknown word, operands that
/// are not of the form or a number out of range, and for nothing else; a line after others for the
/// same, or for too many slots.
pub fn faults_are_told_where_they_are()
    ensures word { (p : Profile) (line : List ℕ) → (line_of p line ≡ Err code.Word)
        ↔ ((w : Word) → IsWordOf p w → before_first (λ b. b == 32) line ≢ name w) }
    ensures too_long { (p : Profile) (before : List Insn) (line : List ℕ)
        → (with_insn_line p before line ≡ Err code.TooLong)
        ↔ ((i : Insn) × (line ≡ insn_text i) × Fits i × IsOf p i
        × (max_slots p < slots (before ++ i ∷ []))) }
    ensures nothing { (p : Profile) (text : List ℕ) → (program_of_text p text ≡ Err (0, 84))
        ↔ (shown_lines text ≡ []) }
    ensures line { (p : Profile) (line : List ℕ) (c : AsmCode) → line_of p line ≡ Err c
        → (c ≡ code.Word) ⊎ (c ≡ code.Form) ⊎ (c ≡ code.Range) }
    ensures own { (p : Profile) (before : List Insn) (line : List ℕ) (c : AsmCode)
        → with_insn_line p before line ≡ Err c
        → (c ≡ code.TooLong) ⊎ (line_of p line ≡ Err c) }
{}

/// A line is out of range exactly if it is that of one of the profile's instructions up to a number
/// that has its form and goes beyond its field or isn't in its list. What comes after the number's
/// word doesn't matter. Exactly such lines are refused with 82.
pub fn numbers_out_of_range_are_told()
    ensures read { (p : Profile) (line : List ℕ)
        → (line_of p line ≡ Err code.Range) ↔ IsOutOfRange p line }
    ensures told { (p : Profile) (n : ℕ) (before : List Insn) (place : NumberPlace)
        (number rest : List ℕ)
        → IsWordOf p (place_word place) → FitsBefore place → IsBeyond place number → EndsWord rest
        → numbered asm_code n (with_insn_line p before (line_with place number rest))
        ≡ Err (n + 1, 82) }
    ensures only { (p : Profile) (n : ℕ) (before : List Insn) (line : List ℕ)
        → numbered asm_code n (with_insn_line p before line) ≡ Err (n + 1, 82)
        → IsOutOfRange p line }
{}
