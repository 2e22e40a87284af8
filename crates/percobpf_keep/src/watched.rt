//! Answers, of which those to changes are written only while the log has its name.
ghost use Rattle.std.specs.Prelude.{◌≡◌, ◌↔◌, ◌||◌, ℕ, codes, is_some, string_bytes, IfOk, IsTrue};
ghost use Rattle.memchr.specs.Find.{OccursAt};
ghost use Rattle.percobpf_keep.specs.Failures.{ended_with};

use crate::failure::Failure;
use crate::file::{FileId, check_name};
use crate::names::Location;
use memchr::memmem;
use pb_base::{Out, Sink, SinkFault};
use std::io::Write;

/// A sink that takes the answer to a change only while the log has its name.
#[derive(Drop)]
pub(crate) struct WatchedOut<'a, W: Write + Drop> {
    out: Out<W>,
    rt: &'a HostRuntime,
    // The name of the log, and the file that has it.
    log: String,
    id: FileId,
    // Why the file has it no longer.
    lost: Option<Failure>,
}

impl<'a, W: Write + Drop> WatchedOut<'a, W> {
    /// A sink over this writer, with the name and the file of the log.
    pub(crate) fn new(
        rt: &'a HostRuntime,
        writer: W,
        location: &Location,
    ) -> Result<WatchedOut<'a, W>, Failure>
        ensures name { IfOk result (λ w. string_bytes w.log ≡ string_bytes location.now.log) }
        ensures file { IfOk result (λ w. w.id ≡ location.now.file.id) }
    {
        Ok(WatchedOut {
            out: Out::new(writer),
            rt,
            log: String::from_str(rt.alloc(), location.log.as_str())?,
            id: location.file.id,
            lost: None,
        })
    }

    /// From now on the log has this file.
    pub(crate) fn follow(&mut self, location: &Location)
        ensures file { self.new.id ≡ location.now.file.id }
        ensures out { self.new.out ≡ self.old.out }
        ensures name { self.new.log ≡ self.old.log }
        ensures lost { self.new.lost ≡ self.old.lost }
    {
        self.id = location.file.id;
    }

    /// What was done, or why nothing more is written, if the log has lost its name.
    pub(crate) fn end(self, done: Result<(), Failure>) -> Result<(), Failure>
        ensures { result ≡ ended_with self.entry.lost done }
    {
        let WatchedOut {
            out: _,
            rt: _,
            log: _,
            id: _,
            lost,
        } = self;
        match lost {
            Some(lost) => Err(lost),
            None => done,
        }
    }
}

// Whether one of these answers is that a change is made.
fn has_made(answers: &[u8]) -> bool
    ensures { IsTrue result ↔ ((at : ℕ) × OccursAt answers.now (codes "made ") at) }
{
    memmem::find(answers, b"made ").is_some()
}

impl<'a, W: Write + Drop> Sink for WatchedOut<'a, W> {
    ghost taken = { λ w. ⟦<Out<W> as Sink>⟧.taken w.out };

    ghost failed = { λ w. is_some w.lost || ⟦<Out<W> as Sink>⟧.failed w.out };

    fn write(&mut self, piece: &[u8]) -> Result<usize, SinkFault> {
        if piece.is_empty() || !has_made(piece) {
            return self.out.write(piece);
        }
        match check_name(self.rt, self.id, self.log.as_str()) {
            Ok(()) => self.out.write(piece),
            Err(lost) => {
                self.lost = Some(lost);
                Err(SinkFault)
            }
        }
    }

    fn has_failed(&self) -> bool {
        self.lost.is_some() || self.out.has_failed()
    }
}
