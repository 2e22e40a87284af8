//! Questions that are answered alone: no change is made, no line waits, and nothing is put into the log.
ghost use Rattle.std.specs.Prelude.{◌≡◌, ◌⊎◌, ℕ, List, Option, None, string_bytes, IfErr, IfOk, IfSome, OnErr, OnOk};
ghost use Rattle.std.specs.Io.KnownBytes.{Appends};
ghost use Rattle.pb_keeper.specs.Stats.{kept_table};
ghost use Rattle.pb_keep.specs.Causes.{IsOfAnswer};
ghost use Rattle.pb_keep.specs.Held.{IsReadAs};
ghost use Rattle.pb_keep.specs.Input.{HasNoLine, IsLineRead, IsNextLine};
ghost use Rattle.pb_keep.specs.Questions.{refused_line, AnswersAll, AnswersBegun, AnswersTurn, IsAnswerAlone, MayHaveBegun, WhyNotAnswered};

use crate::fault::KeepFault;
use crate::keeper::Keeper;
use crate::lines::{Line, read_line};
use crate::source::LineSource;
use crate::take::{OUT_OF_PLACE, is_question, write};
use pb_base::{NoMemory, Sink};
use pb_parse::ScriptCode;
use pb_requests::{Request, parse_request};
use pb_store::Tablet;
use sqlite_disk::Disk;
use std::alloc::Global;
use std::sync::Wait;

// What these bytes of a line ask for.
fn request_of(line: &[u8]) -> Result<Request, ScriptCode>
    ensures { IsReadAs line.now result }
{
    match std::str::from_utf8(line) {
        Ok(text) => parse_request(text),
        Err(_) => Err(ScriptCode::Form),
    }
}

// What the line asks for that was read, if one was.
fn request_in(read: Line, line: &[u8]) -> Option<Result<Request, ScriptCode>>
    ensures asks { (from to : Option (List ℕ)) → IsLineRead read line.now from to
        → IfSome result (λ asked. (whole : List ℕ) × IsNextLine whole from to
        × IsReadAs whole asked) }
    ensures ended { (from to : Option (List ℕ)) → IsLineRead read line.now from to
        → result ≡ None → HasNoLine from }
{
    match read {
        Line::Read => Some(request_of(line)),
        Line::TooLong => Some(Err(ScriptCode::Form)),
        Line::End => None,
    }
}

// The text that a refused line is answered with.
fn refused(alloc: Global, code: u8) -> Result<String, NoMemory>
    ensures { IfOk result (λ s. string_bytes s ≡ refused_line code) }
{
    let text = format!(in alloc; "refused {code}\n")?;
    Ok(text)
}

impl<T: Tablet, D: Disk + Drop> Keeper<T, D> {
    // The text that a line is answered with.
    fn text_alone(
        &self,
        alloc: Global,
        asked: Result<Request, ScriptCode>,
    ) -> Result<String, NoMemory>
        ensures { IfOk result (λ s. IsAnswerAlone self.now.since.0
            (kept_table self.now.state self.now.stats.items) self.now.log.end asked
            (string_bytes s)) }
    {
        match asked {
            Ok(request) if is_question(&request) => self.answer_to(alloc, request),
            Ok(_) => refused(alloc, OUT_OF_PLACE),
            Err(code) => refused(alloc, code.code()),
        }
    }

    /// Answers a line that is read as this, where questions alone are answered: a question as where the table is served, and any other line by its
    /// refusal. Nothing of it is made or kept. If the call fails, a beginning of the answer may be written.
    pub fn answer_alone<S: Sink>(
        &self,
        alloc: Global,
        out: &mut S,
        asked: Result<Request, ScriptCode>,
    ) -> Result<(), KeepFault>
        ensures ok { OnOk result ((text : List ℕ) × IsAnswerAlone self.now.since.0
            (kept_table self.now.state self.now.stats.items) self.now.log.end asked text
            × Appends (S.taken out.old) (S.taken out.new) text) }
        ensures err { OnErr result (MayHaveBegun self.now.since.0
            (kept_table self.now.state self.now.stats.items) self.now.log.end asked
            (S.taken out.old) (S.taken out.new)) }
        ensures why { IfErr result (IsOfAnswer (S.failed out.new)) }
    {
        let text = self.text_alone(alloc, asked)?;
        write(out, text.as_str())
    }
}

// Reads a line and answers it. Returns whether there was one.
fn answer_next<R: Wait, I: LineSource, T: Tablet, D: Disk + Drop, S: Sink>(
    rt: &R,
    alloc: Global,
    keeper: &Keeper<T, D>,
    input: &mut I,
    out: &mut S,
    line: &mut Vec<u8>,
) -> Result<bool, KeepFault>
    ensures turn { IfOk result (AnswersTurn keeper.now.since.0
        (kept_table keeper.now.state keeper.now.stats.items) keeper.now.log.end
        (I.remaining input.old) (I.remaining input.new) (S.taken out.old) (S.taken out.new)) }
    ensures begun { OnErr result (AnswersBegun keeper.now.since.0
        (kept_table keeper.now.state keeper.now.stats.items) keeper.now.log.end
        (I.remaining input.old) (S.taken out.old) (S.taken out.new)) }
    ensures why { IfErr result (WhyNotAnswered (I.failed input.new) (S.failed out.new)) }
{
    let read = match read_line(rt, input, line) {
        Ok(read) => read,
        Err(fault) => return Err(fault.into()),
    };
    match request_in(read, line.as_slice()) {
        Some(asked) => {
            keeper.answer_alone(alloc, out, asked)?;
            Ok(true)
        }
        None => Ok(false),
    }
}

/// Reads lines and answers each as it comes, until the input ends, where questions alone are answered. The keeper is left as it is.
pub fn answer_questions<R: Wait, I: LineSource, T: Tablet, D: Disk + Drop, S: Sink>(
    rt: &R,
    alloc: Global,
    keeper: &Keeper<T, D>,
    input: &mut I,
    out: &mut S,
) -> Result<(), KeepFault>
    // All lines of the input are answered, in their order.
    ensures all { OnOk result (AnswersAll keeper.now.since.0
        (kept_table keeper.now.state keeper.now.stats.items) keeper.now.log.end
        (I.remaining input.old) (S.taken out.old) (S.taken out.new)) }
    // At a fault the first lines are, and the last of their answers may be cut short.
    ensures begun { OnErr result (AnswersBegun keeper.now.since.0
        (kept_table keeper.now.state keeper.now.stats.items) keeper.now.log.end
        (I.remaining input.old) (S.taken out.old) (S.taken out.new)) }
    // A fault has its cause.
    ensures why { IfErr result (WhyNotAnswered (I.failed input.new) (S.failed out.new)) }
{
    let mut line = Vec::new(alloc);
    for _turn in rt.forever() {
        let is_read = answer_next(rt, alloc, keeper, input, out, &mut line)?;
        if !is_read {
            return Ok(());
        }
    }
    unreachable!()
}
