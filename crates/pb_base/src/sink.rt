//! Where bytes are written: what a report or a listing goes to, in the program standard output or a file.
ghost use Rattle.std.specs.Prelude.{◌≡◌, ◌≤◌, ◌||◌, ◌&&◌, nat_lt, length, true, List, ℕ, Bool, Option, IfOk, OnOk, OnErr};
ghost use Rattle.std.specs.Io.KnownBytes.{Appends, WriteAppends};
ghost use Rattle.pb_base.specs.Sink.{took_none, AppendsPart};

use std::io::Write;
use thiserror::Error;

/// A write that failed.
#[derive(Clone, Copy, Debug, Drop, Error)]
#[error("the write failed")]
pub struct SinkFault;

/// Takes bytes. Its contracts state which bytes it has taken so far, if that is known, and whether
/// a write of a piece that isn't empty has failed or taken no byte so far. The bytes may be
/// unknown, since no contract of the standard library states what standard output leads to; whether
/// a write failed is known of each.
pub trait Sink {
    ghost taken: { Self → Option (List ℕ) };

    ghost failed: { Self → Bool };

    /// Takes some bytes from the front of the piece, and answers how many.
    fn write(&mut self, piece: &[u8]) -> Result<usize, SinkFault>
        ensures bound { IfOk result (λ n. n ≤ length piece.now) }
        ensures bytes { WriteAppends (taken self.old) (taken self.new) result piece.now }
        ensures fails { failed self.new ≡ (failed self.old ||
            (nat_lt 0 (length piece.now) && took_none result)) };

    /// Whether a write of a piece that isn't empty has failed or taken no byte.
    fn has_failed(&self) -> bool
        ensures { result ≡ failed self.now };

    /// Writes all of the bytes, or a beginning of them where a write fails or takes none.
    fn write_all(&mut self, bytes: &[u8]) -> Result<(), SinkFault>
        ensures taken { OnOk result (Appends (taken self.old) (taken self.new) bytes.now) }
        ensures quiet { OnOk result (failed self.new ≡ failed self.old) }
        ensures part { OnErr result (AppendsPart (taken self.old) (taken self.new) bytes.now) }
        ensures fails { OnErr result (failed self.new ≡ true) }
    {
        let mut rest = bytes;
        while !rest.is_empty() {
            let count = self.write(rest)?;
            if count == 0 {
                return Err(SinkFault);
            }
            rest = &rest[count..];
        }
        Ok(())
    }
}

/// The sink over a writer. It promises what the writer's contracts promise.
#[derive(Drop)]
pub struct Out<W: Write> {
    writer: W,
    failed: bool,
}

impl<W: Write> Out<W> {
    ghost use Rattle.std.specs.Prelude.{◌≡◌, false};

    /// A sink over the writer, to which nothing has been written so far.
    pub fn new(writer: W) -> Out<W>
        ensures fresh { ⟦<Out<W> as Sink>⟧.failed result ≡ false }
        ensures same { ⟦<Out<W> as Sink>⟧.taken result ≡ W.contents writer }
    {
        Out {
            writer,
            failed: false,
        }
    }
}

impl<W: Write> Sink for Out<W> {
    ghost taken = { λ o. W.contents o.writer };

    ghost failed = { λ o. o.failed };

    fn write(&mut self, piece: &[u8]) -> Result<usize, SinkFault> {
        match self.writer.write(piece) {
            Ok(count) => {
                // Nothing taken of some bytes is kept as a failure, since who goes on until all are taken would never
                // end.
                if count == 0 && !piece.is_empty() {
                    self.failed = true;
                }
                Ok(count)
            }
            Err(_) => {
                // A failed write of an empty piece isn't kept, since no byte is missing by it.
                if !piece.is_empty() {
                    self.failed = true;
                }
                Err(SinkFault)
            }
        }
    }

    fn has_failed(&self) -> bool {
        self.failed
    }
}
