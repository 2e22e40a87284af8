//! Which bytes a pointer reaches, and which of them are written. It is defined here once, below
//! loads, stores and arguments.
ghost use Rattle.std.specs.Prelude.{◌≡◌, ◌≤◌, ◌+◌, length, replicate, true, IsTrue};
ghost use Rattle.std.specs.List.{list_all};
ghost use Rattle.pb_kinds.specs.Ranges.{in_stack, in_record, from_low, are_written, set_flags, with_written};

use crate::frame::Frame;
use pb_isa::{RECORD_BYTES, STACK_BYTES};

/// Whether so many bytes lie all in the stack, from this distance to the stack's end on. Distances in the stack are
/// negative, since R10 points to its end.
pub fn in_stack(at: i64, bytes: u8) -> bool
    ensures { result ≡ in_stack at bytes }
{
    -(STACK_BYTES as i64) <= at && at <= -i64::from(bytes)
}

/// Whether so many bytes lie all in a change record of version 1, from this distance to its first byte on.
pub fn in_record(at: i64, bytes: u8) -> bool
    ensures { result ≡ in_record RECORD_BYTES at bytes }
{
    0 <= at && at <= RECORD_BYTES as i64 - i64::from(bytes)
}

/// The place of a stack byte, counted from the lowest.
pub fn from_low(at: i64, bytes: u8) -> usize
    requires { IsTrue (in_stack at bytes) }
    ensures place { result ≡ from_low at }
    ensures fits { result + bytes ≤ STACK_BYTES }
{
    (at + STACK_BYTES as i64) as usize
}

// Whether each of these flags is set.
fn all_true(bytes: &[bool]) -> bool
    ensures { result ≡ list_all (λ b. b) bytes.now }
{
    for b in bytes {
        if !*b {
            return false;
        }
    }
    true
}

// Sets all of these flags.
fn fill(bytes: &mut [bool])
    ensures { bytes.new ≡ replicate (length bytes.old) true }
{
    for b in bytes.iter_mut() {
        *b = true;
    }
}

// Sets the flags of so many bytes. It is lent the array alone, so that nothing else of a frame changes.
fn fill_from(written: &mut [bool; STACK_BYTES], low: usize, bytes: usize)
    requires { low + bytes ≤ STACK_BYTES }
    ensures { written.new ≡ set_flags written.old low bytes }
{
    fill(&mut written[low..low + bytes]);
}

impl Frame {
    /// Whether so many stack bytes are all written, from this distance to the stack's end on.
    #[tactic(auto, using(crate::proofs::FlagsByPlace::all_by_place))]
    pub fn are_written(&self, at: i64, bytes: u8) -> bool
        requires inside { IsTrue (in_stack at bytes) }
        ensures { result ≡ are_written self.now at bytes }
    {
        let low = from_low(at, bytes);
        all_true(&self.written[low..low + usize::from(bytes)])
    }

    /// Notes that so many stack bytes are written, from this distance to the stack's end on.
    pub fn write(&mut self, at: i64, bytes: u8)
        requires inside { IsTrue (in_stack at bytes) }
        ensures { self.new ≡ with_written self.old at bytes }
    {
        let low = from_low(at, bytes);
        fill_from(&mut self.written, low, usize::from(bytes));
    }
}
