//! Where lines come from: in the program standard input.
ghost use Rattle.std.specs.Prelude.{◌≡◌, ◌≤◌, ◌||◌, ℕ, Bool, List, Option, length, IfOk, OnErr};
ghost use Rattle.std.specs.Io.Buffered.{reader_remaining};
ghost use Rattle.std.specs.Io.KnownBytes.{Keeps};
ghost use Rattle.pb_base.specs.Growths.{refused_growth};
ghost use Rattle.pb_keep.specs.Input.{is_of_reader, TakesPiece};
ghost use Rattle.pb_keep.specs.declared.source.InputFault.TheVariants as ends;
ghost use Rattle.pb_requests.specs.declared.parse.TheConstants.{MAX_LINE};

use crate::lines::{Piece, take_piece};
use pb_base::NoMemory;
use std::alloc::AllocError;
use std::io::{self, BufReader, Read};

/// Why a line isn't read.
#[derive(Debug, Drop)]
pub enum InputFault {
    NoMemory(NoMemory),
    /// A read failed.
    Reader,
}

impl From<AllocError> for InputFault {
    ghost from_gives = { λ _ f. f ≡ ends.NoMemory refused_growth };

    fn from(e: AllocError) -> InputFault {
        InputFault::NoMemory(e.into())
    }
}

impl From<io::Error> for InputFault {
    ghost from_gives = { λ _ f. f ≡ ends.Reader };

    fn from(_: io::Error) -> InputFault {
        InputFault::Reader
    }
}

/// Gives lines. Its contracts state which bytes are left in it, and whether a read has failed so far. The bytes may be unknown,
/// since no contract of the standard library states what standard input has; whether a read failed is known of each.
pub trait LineSource {
    ghost remaining: { Self → Option (List ℕ) };

    ghost failed: { Self → Bool };

    /// Takes what is at hand of a line: it is held, unless the line is too long.
    fn take_piece(&mut self, line: &mut Vec<u8>, is_long: &mut bool) -> Result<Piece, InputFault>
        ensures took { IfOk result (λ piece. TakesPiece piece (remaining self.old)
            (remaining self.new) line.old.items is_long.old line.new.items is_long.new) }
        ensures short { length line.old.items ≤ MAX_LINE → length line.new.items ≤ MAX_LINE }
        ensures err { OnErr result (Keeps (remaining self.old) (remaining self.new)) }
        ensures fails { failed self.new ≡ (failed self.old || is_of_reader result) };

    /// Whether a whole line is at hand that isn't taken yet.
    fn has_line(&self) -> bool;
}

/// The source over a reader. It promises what the reader's contracts promise.
#[derive(Drop)]
pub struct In<I: Read + Drop> {
    reader: BufReader<I>,
    failed: bool,
}

impl<I: Read + Drop> In<I> {
    ghost use Rattle.std.specs.Prelude.{◌≡◌, false};

    /// A source over the reader, of which no read has failed so far.
    pub fn new(reader: BufReader<I>) -> In<I>
        ensures fresh { ⟦<In<I> as LineSource>⟧.failed result ≡ false }
        ensures same { ⟦<In<I> as LineSource>⟧.remaining result
            ≡ reader_remaining I.remaining reader }
    {
        In {
            reader,
            failed: false,
        }
    }
}

impl<I: Read + Drop> LineSource for In<I> {
    ghost remaining = { λ i. reader_remaining I.remaining i.reader };

    ghost failed = { λ i. i.failed };

    fn take_piece(&mut self, line: &mut Vec<u8>, is_long: &mut bool) -> Result<Piece, InputFault> {
        let taken = take_piece(&mut self.reader, line, is_long);
        if matches!(taken, Err(InputFault::Reader)) {
            self.failed = true;
        }
        taken
    }

    fn has_line(&self) -> bool {
        self.reader.buffer().contains(&b'\n')
    }
}
