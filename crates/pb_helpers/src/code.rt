//! The rules that an instruction can break. They are an enum, since a definition can't be read by
//! numbers; it stands in this crate, as the lowest whose rules report codes.
ghost use Rattle.std.specs.Prelude.{◌≡◌, if◌then◌else◌};
ghost use Rattle.pb_helpers.specs.Codes.{code_number, when, lowest_code};

/// What is wrong with an instruction.
#[derive(Clone, Copy, PartialEq, Eq)]
pub enum RuleCode {
    /// It reads an unset register.
    ReadsUnset,
    /// It writes R10.
    WritesR10,
    /// Arithmetic on a pointer, but for what moves it: a 64-bit sum or difference with an immediate.
    PointerArithmetic,
    /// It stores a pointer.
    PointerStored,
    /// Bytes outside the stack.
    OutsideStack,
    /// It reads a stack byte that isn't written.
    UnwrittenByte,
    /// Bytes outside the change record.
    OutsideRecord,
    /// It writes the change record.
    WritesRecord,
    /// It reads or writes through a number.
    ThroughNumber,
    /// The helper isn't declared.
    NotDeclared,
    /// A helper's argument is of a wrong kind.
    WrongArgument,
    /// It jumps backward.
    BackwardJump,
    /// It jumps outside the program.
    JumpOutside,
    /// It jumps to the second slot of a pair.
    JumpIntoPair,
    /// Nothing leads to it.
    Unreachable,
    /// It leads past the last slot.
    FallsOff,
    /// It exits with a pointer.
    ExitsWithPointer,
    /// It compares a pointer.
    PointerCompared,
}

impl RuleCode {
    /// The number by which a code is reported.
    pub fn code(self) -> u8
        ensures { result ≡ code_number self }
    {
        match self {
            RuleCode::ReadsUnset => 21,
            RuleCode::WritesR10 => 22,
            RuleCode::PointerArithmetic => 23,
            RuleCode::PointerStored => 24,
            RuleCode::OutsideStack => 25,
            RuleCode::UnwrittenByte => 26,
            RuleCode::OutsideRecord => 27,
            RuleCode::WritesRecord => 28,
            RuleCode::ThroughNumber => 29,
            RuleCode::NotDeclared => 30,
            RuleCode::WrongArgument => 31,
            RuleCode::BackwardJump => 32,
            RuleCode::JumpOutside => 33,
            RuleCode::JumpIntoPair => 34,
            RuleCode::Unreachable => 35,
            RuleCode::FallsOff => 36,
            RuleCode::ExitsWithPointer => 37,
            RuleCode::PointerCompared => 38,
        }
    }

    /// This code where its rule is broken.
    pub fn when(self, broken: bool) -> Option<RuleCode>
        ensures { result ≡ lowest_code (when broken self) }
    {
        if broken { Some(self) } else { None }
    }
}
