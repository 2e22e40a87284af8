//! How many cells a program can ask for, and how many writes it can do: as many as it has such calls, since a run comes
//! to each slot once at most.
ghost use Rattle.std.specs.Prelude.{◌≡◌, ◌≤◌};
ghost use Rattle.pb_accepted.specs.Needs.{called_by, reads_by, writes_by, IsNeeded, NeedsFall};

use pb_isa::{Insn, Program};

/// How many of a program's instructions read a cell, and how many write or delete one. A run makes its room by them,
/// since it may not be refused memory between its start and its exit.
#[derive(Clone, Copy)]
pub struct Needs {
    pub reads: usize,
    pub writes: usize,
}

// By the instruction of one slot: one at most, so that no sum over 4,096 slots overflows.
fn needs_at(insn: Option<Insn>) -> Needs
    ensures reads { result.reads ≡ reads_by (called_by insn) }
    ensures writes { result.writes ≡ writes_by (called_by insn) }
    ensures most { result.reads ≤ 1 }
    ensures most_writes { result.writes ≤ 1 }
{
    match insn {
        Some(Insn::Call { imm: 1 }) => Needs {
            reads: 1,
            writes: 0,
        },
        Some(Insn::Call { imm: 2 | 3 }) => Needs {
            reads: 0,
            writes: 1,
        },
        _ => Needs {
            reads: 0,
            writes: 0,
        },
    }
}

/// By all instructions of a program.
pub fn needs_of(program: &Program) -> Needs
    ensures { IsNeeded program.now.insns result }
{
    let mut reads = 0;
    let mut writes = 0;
    for slot in 0..program.slots() {
        let needs = needs_at(program.at(slot));
        reads += needs.reads;
        writes += needs.writes;
    }
    Needs { reads, writes }
}

/// What a program can still ask for and write falls from slot to slot, so that the room of a run's start is enough to
/// its end.
pub fn needs_fall()
    ensures { NeedsFall }
{}
