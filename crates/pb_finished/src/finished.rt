//! What a machine leaves at its end. Its stack and its registers are gone then, since a run that is declared stays in
//! the journal.
ghost use Rattle.std.specs.Prelude.{◌≡◌, ◌↔◌, IsTrue};
ghost use Rattle.pb_isa.specs.Meaning.{Means};
ghost use Rattle.pb_sound.specs.RunWrites.{AreRunWrites};
ghost use Rattle.pb_finished.specs.Finished.{IsMeant, is_plain};
ghost use Rattle.pb_finished.specs.Talk.{talk_of};

use pb_accepted::Accepted;
use pb_base::{Cell, Content, Ts, are_same_writes};
use pb_helpers::{Ask, Record, Reply};
use std::marker::Model;
use std::sync::Arc;

/// A run's program, record and start timestamp, the asks and replies, and its result and writes, which are what the program
/// means by the rest.
#[derive(Drop)]
pub struct Finished {
    accepted: Arc<Accepted>,
    change: Record,
    start: Ts,
    talk: Vec<(Ask, Reply)>,
    end: u64,
    writes: Vec<(Cell, Content)>,
}

impl Model for Finished {
    ghost use Rattle.pb_isa.specs.Meaning.{Means};
    ghost use Rattle.pb_finished.specs.Finished.{Meant, meant_code};
    ghost use Rattle.pb_finished.specs.Talk.{talk_of};

    ghost Value = { Meant };

    ghost coded = { meant_code };

    ghost view = { λ f. record { judged = f.accepted.value; bytes = f.change; start = f.start.0; talk = talk_of f.talk.items; result = f.end; writes = f.writes.items } };

    ghost invariant = { λ f. Means f.accepted.value f.change f.start.0 (talk_of f.talk.items) f.end f.writes.items };
}

// Whether the asks and replies are the same, in the same order.
fn is_same_talk(a: &[(Ask, Reply)], b: &[(Ask, Reply)]) -> bool
    ensures { IsTrue result ↔ (talk_of a.now ≡ talk_of b.now) }
{
    match a {
        [] => b.is_empty(),
        [first, rest @ ..] => match b {
            [] => false,
            [other, others @ ..] => {
                first.0.is_same(other.0) && first.1.is_same(other.1) && is_same_talk(rest, others)
            }
        },
    }
}

impl Finished {
    pub fn new(
        accepted: Arc<Accepted>,
        change: Record,
        start: Ts,
        talk: Vec<(Ask, Reply)>,
        end: u64,
        writes: Vec<(Cell, Content)>,
    ) -> Finished
        requires { Means accepted.value change start.0 (talk_of talk.items) end writes.items }
        ensures judged { result.judged ≡ accepted.value }
        ensures bytes { result.bytes ≡ change }
        ensures start { result.start ≡ start.0 }
        ensures talk { result.talk ≡ talk_of talk.items }
        ensures end { result.result ≡ end }
        ensures writes { result.writes ≡ writes.items }
    {
        Finished {
            accepted,
            change,
            start,
            talk,
            end,
            writes,
        }
    }

    /// Result and writes are what the program means: it writes nothing, or 1 to 16 distinct data cells, so that the run
    /// can be declared. It does nothing: a caller's proof learns by it what the type keeps.
    pub fn known(&self)
        ensures meant { IsMeant self.now }
        ensures writes { AreRunWrites self.now.writes }
    {
        // For the proof: opens the value, whose invariant says it.
        let _ = &self.end;
    }

    /// Whether it ran this program with its helpers.
    pub fn is_of(&self, accepted: &Accepted) -> bool
        ensures { IsTrue result ↔ (self.now.judged ≡ accepted.now) }
    {
        self.accepted.is_same(accepted)
    }

    /// The program that it ran, with its helpers.
    pub fn accepted(&self) -> &Accepted
        ensures { result.now ≡ self.now.judged }
    {
        &self.accepted
    }

    /// The record that it ran on.
    pub fn record(&self) -> &Record
        ensures { result.now ≡ self.now.bytes }
    {
        &self.change
    }

    /// The run's start timestamp.
    pub fn start(&self) -> Ts
        ensures { result.0 ≡ self.now.start }
    {
        self.start
    }

    /// The cells that it asked for, and the replies, in order.
    pub fn talk(&self) -> &[(Ask, Reply)]
        ensures { talk_of result.now ≡ self.now.talk }
    {
        &self.talk
    }

    /// Register 0 at the exit.
    pub fn result(&self) -> u64
        ensures { result ≡ self.now.result }
    {
        self.end
    }

    /// The cells that it writes, each once, in order of their first write; none where the result isn't 0.
    pub fn writes(&self) -> &[(Cell, Content)]
        ensures { result.now ≡ self.now.writes }
    {
        &self.writes
    }

    /// Whether it asked nothing and wrote nothing.
    pub fn is_plain(&self) -> bool
        ensures { result ≡ is_plain self.now }
    {
        self.talk.is_empty() && self.writes.is_empty()
    }
    /// Whether it is a run of the same program with the same helpers, on the same record, with the
    /// same start, asks, replies, result and writes.
    pub fn is_same(&self, other: &Finished) -> bool
        ensures { IsTrue result ↔ (self.now ≡ other.now) }
    {
        self.is_of(other.accepted())
            && self.record().is_same(other.record())
            && self.start() == other.start()
            && is_same_talk(self.talk(), other.talk())
            && self.result() == other.result()
            && are_same_writes(self.writes(), other.writes())
    }
}
