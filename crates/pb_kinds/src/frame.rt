//! Kinds, frames, and what two frames both say.
ghost use Rattle.std.specs.Prelude.{◌≡◌};
ghost use Rattle.pb_kinds.specs.Frames.{join, meet, meet_kinds, meet_bytes, entry_frame, is_unset, is_number_kind, is_pointer};
ghost use Rattle.pb_kinds.specs.Meet.{IsMeet, JoinsAreMeets};

use pb_isa::STACK_BYTES;

/// What is known of a register.
#[derive(Clone, Copy, Debug, PartialEq, Eq)]
pub enum Kind {
    /// Nothing: it can be unset.
    Unset,
    /// It holds a number, whichever.
    Number,
    /// It points to the stack, at this distance from the stack's end. A distance and no address, since a program is
    /// judged for every placement.
    Stack(i64),
    /// It points to the change record, at this distance from the record's first byte.
    Record(i64),
}

impl Kind {
    /// Whether nothing is known, so that it may not be read.
    pub fn is_unset(self) -> bool
        ensures { result ≡ is_unset self }
    {
        self == Kind::Unset
    }

    /// Whether it is a number, whichever; a helper takes any as row and column.
    pub fn is_number(self) -> bool
        ensures { result ≡ is_number_kind self }
    {
        self == Kind::Number
    }

    /// Whether it points to the stack or to the record.
    pub fn is_pointer(self) -> bool
        ensures { result ≡ is_pointer self }
    {
        match self {
            Kind::Unset | Kind::Number => false,
            Kind::Stack(_) | Kind::Record(_) => true,
        }
    }
}

/// What is known before an instruction: the kinds of the registers by number, and which stack bytes are written, from
/// the lowest. Each byte has a flag of its own, since a load may take any bytes of what several stores have written.
#[derive(Clone, Copy)]
pub struct Frame {
    pub kinds: [Kind; 11],
    pub written: [bool; STACK_BYTES],
}

/// The frame at entry: register 1 points to the record and register 10 to the end of the stack, and nothing is written.
#[tactic(auto, unfolding(crate::specs::Frames::entry_frame))]
pub fn entry() -> Frame
    ensures { result ≡ entry_frame }
{
    let mut kinds = [Kind::Unset; 11];
    kinds[1] = Kind::Record(0);
    kinds[10] = Kind::Stack(0);
    Frame {
        kinds,
        written: [false; STACK_BYTES],
    }
}

// What is known where both may be: a pointer only where both point to one place, since it has to hold on either way.
fn meet(a: Kind, b: Kind) -> Kind
    ensures { result ≡ meet a b }
{
    if a == b { a } else { Kind::Unset }
}

// Register by register.
fn meet_kinds(a: &[Kind; 11], b: &[Kind; 11]) -> [Kind; 11]
    ensures { result ≡ meet_kinds a.now b.now }
{
    let mut kinds = *a;
    for i in 0..11 {
        kinds[i] = meet(a[i], b[i]);
    }
    kinds
}

// Byte by byte: one is written where it is on both ways.
fn meet_bytes(a: &[bool; STACK_BYTES], b: &[bool; STACK_BYTES]) -> [bool; STACK_BYTES]
    ensures { result ≡ meet_bytes a.now b.now }
{
    let mut written = *a;
    for i in 0..STACK_BYTES {
        // Without a branch, so that the compiler joins many at once.
        written[i] = a[i] & b[i];
    }
    written
}

/// What both frames say, and no more: where two ways lead to one slot, the frame there is the join of theirs.
pub fn join(a: &Frame, b: &Frame) -> Frame
    ensures value { result ≡ join a.now b.now }
    ensures meet { IsMeet a.now b.now result }
{
    Frame {
        kinds: meet_kinds(&a.kinds, &b.kinds),
        written: meet_bytes(&a.written, &b.written),
    }
}

/// The join of any two frames is their meet. By it the verifier's law of frames needs no order of the ways to a slot.
pub fn joins_are_meets()
    ensures { JoinsAreMeets }
{}
