//! Registers and instructions, with their fields as RFC 9669 names them.
ghost use Rattle.std.specs.Prelude.{◌≡◌, ◌<◌};
ghost use Rattle.pb_isa.specs.Registers.{number, reg_of};

/// A register. R10 is read-only: it points to the end of the stack.
#[derive(Clone, Copy, PartialEq, Eq)]
pub enum Reg {
    R0,
    R1,
    R2,
    R3,
    R4,
    R5,
    R6,
    R7,
    R8,
    R9,
    R10,
}

impl Reg {
    /// The register's number.
    pub fn number(self) -> usize
        ensures number { result ≡ number self }
        ensures below { result < 11 }
    {
        self as usize
    }

    /// The register of a number; none where it is over 10.
    pub fn of(number: u8) -> Option<Reg>
        ensures { result ≡ reg_of number }
    {
        let registers = [
            Reg::R0,
            Reg::R1,
            Reg::R2,
            Reg::R3,
            Reg::R4,
            Reg::R5,
            Reg::R6,
            Reg::R7,
            Reg::R8,
            Reg::R9,
            Reg::R10,
        ];
        registers.get(usize::from(number)).copied()
    }
}

/// On how many bits an operation or a comparison works (RFC 9669, section 4).
#[derive(Clone, Copy, Debug, PartialEq, Eq)]
pub enum Width {
    Bits32,
    Bits64,
}

/// How many bytes a load or a store moves: 1, 2, 4 or 8 (RFC 9669, section 5).
#[derive(Clone, Copy, PartialEq, Eq)]
pub enum Size {
    B,
    H,
    W,
    Dw,
}

/// An arithmetic operation with two operands (RFC 9669, section 4.1).
#[derive(Clone, Copy, Debug, PartialEq, Eq)]
pub enum AluOp {
    Add,
    Sub,
    Mul,
    Div,
    Or,
    And,
    Lsh,
    Rsh,
    Mod,
    Xor,
    Mov,
    Arsh,
}

/// A comparison, destination on the left (RFC 9669, section 4.3).
#[derive(Clone, Copy, Debug, PartialEq, Eq)]
pub enum Cmp {
    Eq,
    Gt,
    Ge,
    Set,
    Ne,
    Sgt,
    Sge,
    Lt,
    Le,
    Slt,
    Sle,
}

/// The source operand of arithmetic and of a comparison: an immediate, or a register (RFC 9669, section 4.1).
#[derive(Clone, Copy, PartialEq, Eq)]
pub enum Operand {
    Imm(i32),
    Reg(Reg),
}

/// How a load of fewer bytes than a register has fills the rest of it (RFC 9669, sections 5.1 and 5.2). It is a field
/// of the load and makes no instruction of its own, so that rules and machine have one case for both.
#[derive(Clone, Copy, PartialEq, Eq)]
pub enum Extension {
    /// MEM
    Zeros,
    /// MEMSX: with the sign.
    Sign,
}

/// An instruction, with the fields of RFC 9669, section 3.1, that it uses. Each takes one slot, and the 64-bit
/// immediate takes two. Which of them a program may have, its [`Profile`](crate::Profile) says. Numbers have the widths
/// of their fields, so that no instruction has one that its slots can't hold.
#[derive(Clone, Copy, PartialEq, Eq)]
pub enum Insn {
    /// An operation on destination and source, whose result is the destination's.
    Alu {
        op: AluOp,
        width: Width,
        dst: Reg,
        src: Operand,
    },
    /// MOVSX: the low bytes of the source, extended by their sign to so many bits.
    MovSx {
        width: Width,
        size: Size,
        dst: Reg,
        src: Reg,
    },
    /// The destination's negative. It isn't one of [`AluOp`], since it has no second operand.
    Neg {
        width: Width,
        dst: Reg,
    },
    /// A 64-bit immediate, opcode 0x18.
    LoadImm {
        dst: Reg,
        imm: u64,
    },
    /// LDX: from the address in the source, with the offset.
    Load {
        size: Size,
        extension: Extension,
        dst: Reg,
        src: Reg,
        offset: i16,
    },
    /// ST: to the address in the destination, with the offset.
    StoreImm {
        size: Size,
        dst: Reg,
        offset: i16,
        imm: i32,
    },
    /// STX: to the address in the destination, with the offset.
    Store {
        size: Size,
        dst: Reg,
        src: Reg,
        offset: i16,
    },
    /// JA: the offset counts slots from the next one.
    Jump {
        offset: i16,
    },
    /// A jump where the comparison of destination and source holds.
    JumpIf {
        cmp: Cmp,
        width: Width,
        dst: Reg,
        src: Operand,
        offset: i16,
    },
    /// A helper, by its number. Any number is an instruction, since which helpers there are is the verifier's to say.
    Call {
        imm: i32,
    },
    /// The end of the program, with R0 as its result.
    Exit,
}
