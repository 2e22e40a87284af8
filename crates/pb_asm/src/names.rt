//! The words of the text: the first word of each line, and the names of registers.
ghost use Rattle.std.specs.Prelude.{◌≡◌};
ghost use Rattle.pb_asm.specs.declared.names.Word.{Word};
ghost use Rattle.pb_asm.specs.Names.{name, is_word_of, size_bits, word_in, word_named, reg_name, reg_spelled, reg_named};

use pb_isa::{AluOp, Cmp, Extension, Profile, Reg, Size, Width};

/// The first word of a line: which instruction it is, and on how many bits or bytes. A load of 64 bits with a sign has
/// one though no profile has the instruction, so that each load has a name.
#[derive(Clone, Copy)]
pub enum Word {
    Alu(AluOp, Width),
    MovSx(Width),
    Neg(Width),
    LoadImm,
    Load(Size, Extension),
    StoreImm(Size),
    Store(Size),
    Jump,
    JumpIf(Cmp, Width),
    Call,
    Exit,
}

// The names of operations, jumps and loads are functions of their own, since the prover's time grows with the square of the
// cases of one.
fn alu_name(op: AluOp, width: Width) -> &'static str
    ensures { result.now ≡ name (Word.Alu op width) }
{
    match (op, width) {
        (AluOp::Add, Width::Bits32) => "add32",
        (AluOp::Add, Width::Bits64) => "add64",
        (AluOp::Sub, Width::Bits32) => "sub32",
        (AluOp::Sub, Width::Bits64) => "sub64",
        (AluOp::Mul, Width::Bits32) => "mul32",
        (AluOp::Mul, Width::Bits64) => "mul64",
        (AluOp::Div, Width::Bits32) => "div32",
        (AluOp::Div, Width::Bits64) => "div64",
        (AluOp::Or, Width::Bits32) => "or32",
        (AluOp::Or, Width::Bits64) => "or64",
        (AluOp::And, Width::Bits32) => "and32",
        (AluOp::And, Width::Bits64) => "and64",
        (AluOp::Lsh, Width::Bits32) => "lsh32",
        (AluOp::Lsh, Width::Bits64) => "lsh64",
        (AluOp::Rsh, Width::Bits32) => "rsh32",
        (AluOp::Rsh, Width::Bits64) => "rsh64",
        (AluOp::Mod, Width::Bits32) => "mod32",
        (AluOp::Mod, Width::Bits64) => "mod64",
        (AluOp::Xor, Width::Bits32) => "xor32",
        (AluOp::Xor, Width::Bits64) => "xor64",
        (AluOp::Mov, Width::Bits32) => "mov32",
        (AluOp::Mov, Width::Bits64) => "mov64",
        (AluOp::Arsh, Width::Bits32) => "arsh32",
        (AluOp::Arsh, Width::Bits64) => "arsh64",
    }
}

fn jump_name(cmp: Cmp, width: Width) -> &'static str
    ensures { result.now ≡ name (Word.JumpIf cmp width) }
{
    match (cmp, width) {
        (Cmp::Eq, Width::Bits32) => "jeq32",
        (Cmp::Eq, Width::Bits64) => "jeq64",
        (Cmp::Gt, Width::Bits32) => "jgt32",
        (Cmp::Gt, Width::Bits64) => "jgt64",
        (Cmp::Ge, Width::Bits32) => "jge32",
        (Cmp::Ge, Width::Bits64) => "jge64",
        (Cmp::Set, Width::Bits32) => "jset32",
        (Cmp::Set, Width::Bits64) => "jset64",
        (Cmp::Ne, Width::Bits32) => "jne32",
        (Cmp::Ne, Width::Bits64) => "jne64",
        (Cmp::Sgt, Width::Bits32) => "jsgt32",
        (Cmp::Sgt, Width::Bits64) => "jsgt64",
        (Cmp::Sge, Width::Bits32) => "jsge32",
        (Cmp::Sge, Width::Bits64) => "jsge64",
        (Cmp::Lt, Width::Bits32) => "jlt32",
        (Cmp::Lt, Width::Bits64) => "jlt64",
        (Cmp::Le, Width::Bits32) => "jle32",
        (Cmp::Le, Width::Bits64) => "jle64",
        (Cmp::Slt, Width::Bits32) => "jslt32",
        (Cmp::Slt, Width::Bits64) => "jslt64",
        (Cmp::Sle, Width::Bits32) => "jsle32",
        (Cmp::Sle, Width::Bits64) => "jsle64",
    }
}

fn load_name(size: Size, extension: Extension) -> &'static str
    ensures { result.now ≡ name (Word.Load size extension) }
{
    match (size, extension) {
        (Size::B, Extension::Zeros) => "ldxb",
        (Size::H, Extension::Zeros) => "ldxh",
        (Size::W, Extension::Zeros) => "ldxw",
        (Size::Dw, Extension::Zeros) => "ldxdw",
        (Size::B, Extension::Sign) => "ldxsb",
        (Size::H, Extension::Sign) => "ldxsh",
        (Size::W, Extension::Sign) => "ldxsw",
        (Size::Dw, Extension::Sign) => "ldxsdw",
    }
}

impl Word {
    /// How it is written.
    pub fn name(self) -> &'static str
        ensures { result.now ≡ name self }
    {
        match self {
            Word::Alu(op, width) => alu_name(op, width),
            Word::JumpIf(cmp, width) => jump_name(cmp, width),
            Word::Load(size, extension) => load_name(size, extension),
            Word::StoreImm(Size::B) => "stb",
            Word::StoreImm(Size::H) => "sth",
            Word::StoreImm(Size::W) => "stw",
            Word::StoreImm(Size::Dw) => "stdw",
            Word::Store(Size::B) => "stxb",
            Word::Store(Size::H) => "stxh",
            Word::Store(Size::W) => "stxw",
            Word::Store(Size::Dw) => "stxdw",
            Word::MovSx(Width::Bits32) => "movsx32",
            Word::MovSx(Width::Bits64) => "movsx64",
            Word::Neg(Width::Bits32) => "neg32",
            Word::Neg(Width::Bits64) => "neg64",
            Word::LoadImm => "lddw",
            Word::Jump => "ja",
            Word::Call => "call",
            Word::Exit => "exit",
        }
    }

    // Whether a profile has instructions with this word. The load of 64 bits with a sign is in none, since nothing is
    // extended.
    fn is_of(self, profile: Profile) -> bool
        ensures { result ≡ is_word_of profile self }
    {
        match (self, profile) {
            (Word::Load(Size::Dw, Extension::Sign), _) => false,
            (Word::Load(_, Extension::Sign) | Word::MovSx(_), Profile::One) => false,
            _ => true,
        }
    }

    /// The profile's word that is written so. A word of another profile is as unknown as any text.
    #[tactic(auto, unfolding(crate::specs::Names::words))]
    pub fn of_name(profile: Profile, text: &str) -> Option<Word>
        ensures { result ≡ word_named profile text.now }
    {
        let word = word_in(&WORDS, text)?;
        if word.is_of(profile) {
            Some(word)
        } else {
            None
        }
    }
}

// The first of these words that is written so; there is one at most, since no two are written alike.
fn word_in(words: &[Word], text: &str) -> Option<Word>
    ensures { result ≡ word_in text.now words.now }
{
    for word in words {
        if text == word.name() {
            return Some(*word);
        }
    }
    None
}

/// How many bits a size has.
pub fn size_bits(size: Size) -> u64
    ensures { result ≡ size_bits size }
{
    match size {
        Size::B => 8,
        Size::H => 16,
        Size::W => 32,
        Size::Dw => 64,
    }
}

/// How a register is written.
pub fn reg_name(reg: Reg) -> &'static str
    ensures { result.now ≡ reg_name reg }
{
    match reg {
        Reg::R0 => "r0",
        Reg::R1 => "r1",
        Reg::R2 => "r2",
        Reg::R3 => "r3",
        Reg::R4 => "r4",
        Reg::R5 => "r5",
        Reg::R6 => "r6",
        Reg::R7 => "r7",
        Reg::R8 => "r8",
        Reg::R9 => "r9",
        Reg::R10 => "r10",
    }
}

// The first of these registers that is written so. They are compared whole, so that `r01` and `r11` are none.
fn reg_spelled(registers: &[Reg], text: &str) -> Option<Reg>
    ensures { result ≡ reg_spelled text.now registers.now }
{
    for reg in registers {
        if text == reg_name(*reg) {
            return Some(*reg);
        }
    }
    None
}

/// The register that is written so.
#[tactic(auto, unfolding(crate::specs::Names::registers))]
pub fn reg_named(text: &str) -> Option<Reg>
    ensures { result ≡ reg_named text.now }
{
    reg_spelled(&REGISTERS, text)
}

// Each register, in the order of the definition, which goes through them one by one.
const REGISTERS: [Reg; 11] = [
    Reg::R0,
    Reg::R1,
    Reg::R2,
    Reg::R3,
    Reg::R4,
    Reg::R5,
    Reg::R6,
    Reg::R7,
    Reg::R8,
    Reg::R9,
    Reg::R10,
];

// Each word, in the order of the definition, so that both lists are one.
const WORDS: [Word; 70] = [
    Word::Alu(AluOp::Add, Width::Bits32),
    Word::Alu(AluOp::Add, Width::Bits64),
    Word::Alu(AluOp::Sub, Width::Bits32),
    Word::Alu(AluOp::Sub, Width::Bits64),
    Word::Alu(AluOp::Mul, Width::Bits32),
    Word::Alu(AluOp::Mul, Width::Bits64),
    Word::Alu(AluOp::Div, Width::Bits32),
    Word::Alu(AluOp::Div, Width::Bits64),
    Word::Alu(AluOp::Or, Width::Bits32),
    Word::Alu(AluOp::Or, Width::Bits64),
    Word::Alu(AluOp::And, Width::Bits32),
    Word::Alu(AluOp::And, Width::Bits64),
    Word::Alu(AluOp::Lsh, Width::Bits32),
    Word::Alu(AluOp::Lsh, Width::Bits64),
    Word::Alu(AluOp::Rsh, Width::Bits32),
    Word::Alu(AluOp::Rsh, Width::Bits64),
    Word::Alu(AluOp::Mod, Width::Bits32),
    Word::Alu(AluOp::Mod, Width::Bits64),
    Word::Alu(AluOp::Xor, Width::Bits32),
    Word::Alu(AluOp::Xor, Width::Bits64),
    Word::Alu(AluOp::Mov, Width::Bits32),
    Word::Alu(AluOp::Mov, Width::Bits64),
    Word::Alu(AluOp::Arsh, Width::Bits32),
    Word::Alu(AluOp::Arsh, Width::Bits64),
    Word::JumpIf(Cmp::Eq, Width::Bits32),
    Word::JumpIf(Cmp::Eq, Width::Bits64),
    Word::JumpIf(Cmp::Gt, Width::Bits32),
    Word::JumpIf(Cmp::Gt, Width::Bits64),
    Word::JumpIf(Cmp::Ge, Width::Bits32),
    Word::JumpIf(Cmp::Ge, Width::Bits64),
    Word::JumpIf(Cmp::Set, Width::Bits32),
    Word::JumpIf(Cmp::Set, Width::Bits64),
    Word::JumpIf(Cmp::Ne, Width::Bits32),
    Word::JumpIf(Cmp::Ne, Width::Bits64),
    Word::JumpIf(Cmp::Sgt, Width::Bits32),
    Word::JumpIf(Cmp::Sgt, Width::Bits64),
    Word::JumpIf(Cmp::Sge, Width::Bits32),
    Word::JumpIf(Cmp::Sge, Width::Bits64),
    Word::JumpIf(Cmp::Lt, Width::Bits32),
    Word::JumpIf(Cmp::Lt, Width::Bits64),
    Word::JumpIf(Cmp::Le, Width::Bits32),
    Word::JumpIf(Cmp::Le, Width::Bits64),
    Word::JumpIf(Cmp::Slt, Width::Bits32),
    Word::JumpIf(Cmp::Slt, Width::Bits64),
    Word::JumpIf(Cmp::Sle, Width::Bits32),
    Word::JumpIf(Cmp::Sle, Width::Bits64),
    Word::Load(Size::B, Extension::Zeros),
    Word::Load(Size::H, Extension::Zeros),
    Word::Load(Size::W, Extension::Zeros),
    Word::Load(Size::Dw, Extension::Zeros),
    Word::Load(Size::B, Extension::Sign),
    Word::Load(Size::H, Extension::Sign),
    Word::Load(Size::W, Extension::Sign),
    Word::Load(Size::Dw, Extension::Sign),
    Word::StoreImm(Size::B),
    Word::StoreImm(Size::H),
    Word::StoreImm(Size::W),
    Word::StoreImm(Size::Dw),
    Word::Store(Size::B),
    Word::Store(Size::H),
    Word::Store(Size::W),
    Word::Store(Size::Dw),
    Word::MovSx(Width::Bits32),
    Word::MovSx(Width::Bits64),
    Word::Neg(Width::Bits32),
    Word::Neg(Width::Bits64),
    Word::LoadImm,
    Word::Jump,
    Word::Call,
    Word::Exit,
];
