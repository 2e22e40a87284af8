//! Programs: lists of instructions that take at most so many slots together.
ghost use Rattle.std.specs.Prelude.{◌≡◌, ◌≢◌, ◌<◌, ◌≤◌, ◌⊎◌, if◌then◌else◌, IfOk, IfErr, Ok, [], ◌∷◌, Some, None};
ghost use Rattle.pb_isa.specs.Bounds.{Fits};
ghost use Rattle.pb_isa.specs.Slots.{layout, places_of, insn_at, slots};
ghost use Rattle.pb_isa.specs.NextSlots.{NextSlotsAreFirst};
ghost use Rattle.pb_isa.specs.Profiles.{IsOf};
ghost use Rattle.pb_base.specs.Growths.{refused_growth};
ghost use Rattle.pb_isa.specs.Programs.{IsProgram, IsRefused};
ghost use Rattle.pb_isa.specs.declared.program.NoProgram.TheVariants.{NoMemory};

use crate::insn::Insn;
use crate::limits::MAX_SLOTS;
use crate::profile::Profile;
use pb_base::NoMemory;
use std::alloc::{AllocFailed, Global};
use std::marker::Model;

/// A program: some instructions of its profile, of at most so many slots together as the profile
/// has. They are also kept slot by slot, since jumps count slots, so that what a jump leads to is
/// looked up and not counted out.
#[derive(Drop)]
pub struct Program {
    profile: Profile,
    insns: Vec<Insn>,
    places: Vec<Option<Insn>>,
}

impl Model for Program {
    ghost use Rattle.std.specs.Prelude.{◌≡◌, ◌<◌, ◌≤◌, length};
    ghost use Rattle.pb_isa.specs.Profiles.{IsOf, max_slots};
    ghost use Rattle.pb_isa.specs.Programs.{ProgramOf};

    ghost Value = { ProgramOf };

    ghost use Rattle.std.specs.List.{AllByRecursion};
    ghost use Rattle.pb_isa.specs.Bounds.{Fits};
    ghost use Rattle.pb_isa.specs.Slots.{layout};

    ghost view = { λ p. record { profile = p.profile; insns = p.insns.items } };

    ghost invariant = { λ p. (p.places.items ≡ layout p.insns.items) × (0 < length p.places.items) × (length p.places.items ≤ max_slots p.profile) × AllByRecursion Fits p.insns.items × AllByRecursion (IsOf p.profile) p.insns.items };
}

/// Why a list of instructions is no program.
#[derive(Drop)]
pub enum NoProgram {
    NoMemory(NoMemory),
    /// They take no slot, or more than the profile has. They are handed back, so that the caller still has them.
    NotInRange(Vec<Insn>),
}

impl<T: Drop> From<AllocFailed<T>> for NoProgram {
    ghost from_gives = { λ _ e. e ≡ NoMemory refused_growth };

    fn from(e: AllocFailed<T>) -> NoProgram {
        NoProgram::NoMemory(NoMemory::from(e))
    }
}

// Whether an instruction takes two slots. It also promises that the instruction's numbers fit,
// which they do by their types, so that this holds of the whole list.
fn is_pair(insn: Insn) -> bool
    ensures places { places_of insn ≡ Some insn ∷ (if result then None ∷ [] else []) }
    ensures fits { Fits insn }
{
    match insn {
        Insn::LoadImm { .. } => true,
        _ => false,
    }
}

impl Program {
    ghost use Rattle.std.specs.List.{AllByRecursion};

    /// The program of these instructions, where they take at least one slot and at most so many as the profile has; else
    /// they are handed back.
    pub fn new(alloc: Global, profile: Profile, insns: Vec<Insn>) -> Result<Program, NoProgram>
        requires { AllByRecursion (IsOf profile) insns.items }
        ensures ok { IfOk result (λ p. (p.profile ≡ profile) × (p.insns ≡ insns.items)
            × IsProgram p) }
        ensures fits { IfOk result (λ p. AllByRecursion Fits p.insns) }
        ensures err { IfErr result (IsRefused profile insns.items) }
    {
        let mut places: Vec<Option<Insn>> = Vec::new(alloc);
        for insn in &insns {
            places.push(Some(*insn))?;
            if is_pair(*insn) {
                places.push(None)?;
            }
        }
        // Tested once all are there, since only then it is known how many slots they take: a pair takes two.
        if places.is_empty() || places.len() > profile.max_slots() {
            return Err(NoProgram::NotInRange(insns));
        }
        Ok(Program {
            profile,
            insns,
            places,
        })
    }

    /// The profile that its instructions are of.
    pub fn profile(&self) -> Profile
        ensures { result ≡ self.now.profile }
    {
        self.profile
    }

    /// How many slots it takes.
    pub fn slots(&self) -> usize
        ensures slots { result ≡ slots self.now.insns }
        ensures program { IsProgram self.now }
        ensures most { result ≤ MAX_SLOTS }
    {
        self.places.len()
    }

    /// The instruction whose first slot this is; none in the second slot of a pair.
    pub fn at(&self, slot: usize) -> Option<Insn>
        requires { slot < slots self.now.insns }
        ensures { result ≡ insn_at self.now.insns slot }
    {
        self.places[slot]
    }

    /// Its instructions, in order.
    pub fn insns(&self) -> &[Insn]
        ensures insns { result.now ≡ self.now.insns }
        ensures program { IsProgram self.now }
        ensures fits { AllByRecursion Fits self.now.insns }
    {
        &self.insns
    }
}

/// An instruction begins at slot 0, and at the slot after each instruction but the last. So straight code never comes
/// to the second slot of a pair.
pub fn next_slots_are_first()
    ensures { NextSlotsAreFirst }
{}
