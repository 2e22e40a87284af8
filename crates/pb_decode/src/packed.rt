//! Programs beside their packed bytes, by which two are compared at the speed of memory: a declared run's program with
//! the observer's, twice in each run, however few of its instructions the run did.
ghost use Rattle.std.specs.Prelude.{◌≡◌, ◌↔◌, ◌<◌, ◌≤◌, ◌++◌, IsTrue, OnOk, IfOk, length};
ghost use Rattle.std.specs.List.{AllByRecursion};
ghost use Rattle.pb_isa.specs.Bounds.{Fits};
ghost use Rattle.pb_isa.specs.Programs.{IsProgram};
ghost use Rattle.pb_decode.specs.Packing.{nonzero_bit, nonzero_bits, nonzero_bytes, packed_bytes, packed_insn, packing};
ghost use Rattle.pb_decode.specs.Fields.{slot_bytes};

use crate::fields::SlotFields;
use crate::writing::{first_slot, second_slot};
use pb_base::NoMemory;
use pb_isa::{Insn, Program};
use std::alloc::{AllocError, Global};
use std::marker::Model;

// The most bytes of a packed slot: its eight, and the one that says which of them aren't zero.
const PACKED_BYTES: usize = 9;

/// A program, and beside it its bytes packed. They are made once, since each run compares its program with the
/// observer's, and no instruction need be looked at for that.
#[derive(Drop)]
pub struct PackedProgram {
    program: Program,
    packed: Vec<u8>,
}

impl Model for PackedProgram {
    ghost use Rattle.std.specs.Prelude.{◌≡◌};
    ghost use Rattle.std.specs.List.{AllByRecursion};
    ghost use Rattle.pb_isa.specs.Bounds.{Fits};
    ghost use Rattle.pb_isa.specs.Programs.{ProgramOf, IsProgram};
    ghost use Rattle.pb_decode.specs.Packing.{packing};

    ghost Value = { ProgramOf };

    ghost view = { λ p. p.program };

    ghost invariant = { λ p. (p.packed.items ≡ packing p.program.insns) × IsProgram p.program × AllByRecursion Fits p.program.insns };
}

// 1 for a byte that isn't zero.
fn nonzero_bit(byte: u8) -> u8
    ensures bit { result ≡ nonzero_bit byte }
    ensures most { result ≤ 1 }
{
    if byte == 0 { 0 } else { 1 }
}

// Which of a slot's bytes aren't zero.
#[tactic(auto, unfolding(crate::specs::Packing::nonzero_bits))]
fn nonzero_bits(bytes: &[u8]) -> u8
    requires { length bytes.now ≡ 8 }
    ensures { result ≡ nonzero_bits bytes.now }
{
    let [a, b, c, d, e, f, g, h] = bytes else {
        // No caller comes here, since a slot has eight bytes.
        unreachable!()
    };
    let low = nonzero_bit(*a) + 2 * nonzero_bit(*b) + 4 * nonzero_bit(*c) + 8 * nonzero_bit(*d);
    let high = nonzero_bit(*e) + 2 * nonzero_bit(*f) + 4 * nonzero_bit(*g) + 8 * nonzero_bit(*h);
    low + 16 * high
}

// Writes the bytes that aren't zero at the end.
#[tactic(auto, unfolding(crate::specs::Packing::nonzero_bytes))]
fn put_nonzero(out: &mut Vec<u8>, bytes: &[u8]) -> Result<(), AllocError>
    ensures { OnOk result (out.new.items ≡ out.old.items ++ nonzero_bytes bytes.now) }
{
    match bytes {
        [] => Ok(()),
        [first, rest @ ..] => {
            if *first != 0 {
                out.push(*first)?;
            }
            put_nonzero(out, rest)
        }
    }
}

// Writes a slot at the end, packed.
fn put_slot(out: &mut Vec<u8>, slot: SlotFields) -> Result<(), AllocError>
    requires dst { slot.dst < 16 }
    requires src { slot.src < 16 }
    ensures { OnOk result (out.new.items ≡ out.old.items ++ packed_bytes (slot_bytes slot)) }
{
    let bytes = slot.bytes();
    out.push(nonzero_bits(&bytes))?;
    put_nonzero(out, &bytes)
}

// Writes an instruction at the end, packed.
fn put(out: &mut Vec<u8>, insn: Insn) -> Result<(), AllocError>
    ensures { OnOk result (out.new.items ≡ out.old.items ++ packed_insn insn) }
{
    put_slot(out, first_slot(insn))?;
    if let Insn::LoadImm { imm, .. } = insn {
        put_slot(out, second_slot(imm))?;
    }
    Ok(())
}

// A program's bytes, packed. Room for the most that they can be comes first, so that they grow by no step, and what is
// left of it is given back.
fn packed_of(alloc: Global, program: &Program) -> Result<Vec<u8>, NoMemory>
    ensures packed { IfOk result (λ v. v.items ≡ packing program.now.insns) }
    ensures program { IsProgram program.now }
    ensures fits { AllByRecursion Fits program.now.insns }
{
    let insns = program.insns();
    let mut packed = Vec::with_capacity(alloc, PACKED_BYTES * program.slots())?;
    for insn in insns {
        put(&mut packed, *insn)?;
    }
    packed.shrink_to_fit();
    Ok(packed)
}

// Whether both are the same bytes, in the same order.
fn are_same_bytes(a: &[u8], b: &[u8]) -> bool
    ensures { IsTrue result ↔ (a.now ≡ b.now) }
{
    a == b
}

impl PackedProgram {
    ghost use Rattle.std.specs.Prelude.{◌≡◌, ◌↔◌, IsTrue, IfOk};

    /// Packs a program.
    pub fn new(alloc: Global, program: Program) -> Result<PackedProgram, NoMemory>
        ensures { IfOk result (λ p. p ≡ program) }
    {
        let packed = packed_of(alloc, &program)?;
        Ok(PackedProgram { program, packed })
    }

    /// The program.
    pub fn program(&self) -> &Program
        ensures { result.now ≡ self.now }
    {
        &self.program
    }

    /// Whether both are of one profile and have the same instructions. A declared run is refused where its program
    /// isn't the observer's, so that a program that only means the same isn't enough.
    #[tactic(auto, using(crate::proofs::OnePacking::one_packing))]
    pub fn is_same(&self, other: &PackedProgram) -> bool
        ensures { IsTrue result ↔ (self.now ≡ other.now) }
    {
        // Profiles too, since the same instructions of the other profile are another program.
        self.program.profile() == other.program.profile()
            && are_same_bytes(&self.packed, &other.packed)
    }
}
