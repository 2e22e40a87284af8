//! The profiles: which instructions a program may have, and how many slots it may take. They are the project's own.
ghost use Rattle.std.specs.Prelude.{◌≡◌, ◌≤◌, ◌↔◌, IsTrue};
ghost use Rattle.std.specs.List.{AllByRecursion};
ghost use Rattle.pb_isa.specs.Profiles.{max_slots, is_narrower, is_of, IsOf};

use crate::insn::{Extension, Insn, Size, Width};
use crate::limits::{MAX_SLOTS, PROFILE_1_SLOTS};

/// What a program may be. What profile 1 has means the same in profile 2, so that a manifest may go over to it with the
/// programs that it has.
#[derive(Clone, Copy)]
pub enum Profile {
    /// No moves and loads that extend the sign, and at most [`PROFILE_1_SLOTS`] slots.
    One,
    /// All instructions that there are, and at most [`MAX_SLOTS`] slots.
    Two,
}

// Whether a size has fewer bits than a width, so that there is something to extend.
fn is_narrower(size: Size, width: Width) -> bool
    ensures { result ≡ is_narrower size width }
{
    match (size, width) {
        (Size::Dw, _) => false,
        (Size::W, Width::Bits32) => false,
        _ => true,
    }
}

impl Profile {
    /// The most slots that a program of it takes.
    pub fn max_slots(self) -> usize
        ensures slots { result ≡ max_slots self }
        ensures most { result ≤ MAX_SLOTS }
    {
        match self {
            Profile::One => PROFILE_1_SLOTS,
            Profile::Two => MAX_SLOTS,
        }
    }

    /// Whether a program may have this instruction. What extends a sign over no bit is of no profile, since a plain
    /// move or load does the same.
    pub fn has(self, insn: Insn) -> bool
        ensures { result ≡ is_of self insn }
    {
        let (size, width) = match insn {
            Insn::MovSx { width, size, .. } => (size, width),
            Insn::Load {
                size,
                extension: Extension::Sign,
                ..
            } => (size, Width::Bits64),
            _ => return true,
        };
        match self {
            Profile::One => false,
            Profile::Two => is_narrower(size, width),
        }
    }

    /// Whether a program may have each of these instructions. It is what [`Program::new`](crate::Program::new) asks of
    /// them.
    pub fn has_all(self, insns: &[Insn]) -> bool
        ensures { IsTrue result ↔ AllByRecursion (IsOf self) insns.now }
    {
        match insns {
            [] => true,
            [insn, rest @ ..] => self.has(*insn) && self.has_all(rest),
        }
    }
}
