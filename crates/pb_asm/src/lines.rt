//! What has been read of a text.
ghost use Rattle.std.specs.Prelude.{◌≡◌};
ghost use Rattle.pb_isa.specs.Slots.{slots};

use pb_isa::Insn;

/// The instructions of the lines so far, and how many slots they take. These are kept along, since each line tests them
/// and counting anew would look at all lines before it.
#[derive(Drop)]
pub struct Lines {
    pub insns: Vec<Insn>,
    pub taken: usize,
    ghost counted: { taken ≡ slots insns.items },
}
