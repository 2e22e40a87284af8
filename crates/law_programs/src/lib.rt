//! What holds of the definitions by which programs are read, judged and given records of changes:
//! laws, on which nothing is built, so that they make no crate wait for them.
//!
//! A contract of the verifier holds of a definition, and that can be wrong in the same way as its
//! code. These laws state the same in other words, those of docs/CODES.md and docs/MACHINE.md: when
//! each code is reported, which slots are reached, what is known after an instruction, and what
//! stands where in a change record. So of `stb [r10-513], 0` the verifier's lists have 25, and here
//! a law states that one byte from 513 below the stack's end on isn't among the 512 before it. The
//! promise is that both state the same, of every instruction and every frame. What a profile has is
//! given in figures: slots, bytes, and what an extended sign leaves.
#![tactic(auto)]

ghost use Rattle.law_programs.specs.Breaks.{RulesAreByCode};
ghost use Rattle.law_programs.specs.Following.{FramesAfterAreTold};
ghost use Rattle.law_programs.specs.Reached.{FaultsAreTold, ReachedAreTold, UnreachableIsTold};
ghost use Rattle.law_programs.specs.RecordParts.{RecordsHaveParts};
ghost use Rattle.law_programs.specs.Verdicts.{VerdictsAreTold};

mod profiles;

use pb_accepted::{codes_rise, frames_are_meets, jumps_lead_on};
pub use profiles::{
    bytes_mean_the_same_in_both_profiles, profiles_differ_in_slots_and_signs,
    sign_extensions_have_these_bytes, signs_are_extended,
};

/// In a change record row, column, start and commit of the change, 1 for a value or 0 for none, and the acknowledged timestamp
/// stand at 0, 8, 16, 24, 32 and 40 as 8 bytes with the lowest first, and the value or zeros at 48. In version 2 the same of
/// the value at the acknowledged timestamp stands at 80 and 88.
pub fn records_have_parts()
    ensures { RecordsHaveParts }
{}

/// The codes that the rules list of an instruction, with a frame before it, are those whose meaning in the table of codes holds
/// of it.
pub fn rules_are_by_code()
    ensures { RulesAreByCode }
{}

/// A slot has a frame before it exactly where it is reached from the first slot, in steps that each go where an instruction
/// leads. Where it has none, it isn't the first, and no earlier slot that has a frame leads to it.
pub fn reached_are_told()
    ensures { ReachedAreTold }
{
    frames_are_meets();
    jumps_lead_on();
}

/// The codes at a slot are those that its instruction breaks with the frame before it. An
/// instruction is reported as unreachable exactly where its slot isn't reached.
pub fn faults_are_told()
    ensures each { FaultsAreTold }
    ensures unreachable { UnreachableIsTold }
{
    frames_are_meets();
    jumps_lead_on();
    rules_are_by_code();
}

/// After an instruction whose rules hold, its destination is known to be what it was set to, a call's result a number and R1 to
/// R5 unset; all other registers are known to be what they were; and the written bytes are those of before and those that it
/// wrote.
pub fn frames_after_are_told()
    ensures { FramesAfterAreTold }
{
    rules_are_by_code();
}

/// A program is accepted exactly if no code is reported at any of its slots. It is refused with the
/// first slot at which one is, and the lowest code there.
pub fn verdicts_are_told()
    ensures { VerdictsAreTold }
{
    codes_rise();
    faults_are_told();
}
