//! What is wrong with a line, or with the text, and its number.
ghost use Rattle.std.specs.Prelude.{◌≡◌};
ghost use Rattle.pb_asm.specs.Codes.{asm_code};

/// What is wrong with a line, or with the text.
#[derive(Clone, Copy, Drop)]
pub enum AsmCode {
    /// A first word that is none of the profile's instructions'.
    Word,
    /// Operands that are not of the form: of a word this is tested before the range.
    Form,
    /// A number out of range, or none of those that may stand there.
    Range,
    /// An instruction that ends past the last slot that a program of the profile may have.
    TooLong,
    /// No instruction.
    Nothing,
}

impl AsmCode {
    /// The number by which a code is reported.
    pub fn code(self) -> u8
        ensures { result ≡ asm_code self }
    {
        match self {
            AsmCode::Word => 80,
            AsmCode::Form => 81,
            AsmCode::Range => 82,
            AsmCode::TooLong => 83,
            AsmCode::Nothing => 84,
        }
    }
}
