//! One line: a change waits, and a question is answered after what waits.
ghost use Rattle.std.specs.Prelude.{◌≡◌, ◌==◌, ◌∷◌, ◌++◌, [], ℕ, List, Option, None, Ok, true, false, length, string_bytes, OnOk, IfOk, OnErr, IfErr, IfSome, IsTrue};
ghost use Rattle.std.specs.List.{list_any};
ghost use Rattle.std.specs.Io.KnownBytes.{Appends};
ghost use Rattle.pb_base.specs.Sink.{AppendsPart};
ghost use Rattle.pb_base.specs.declared.cell.Cell.TheVariants.{Data};
ghost use Rattle.pb_answers.specs.Seen.{IsSeenIn};
ghost use Rattle.pb_requests.specs.Requests.{asked_by};
ghost use Rattle.pb_requests.specs.declared.request.Request.TheVariants.{Change, ChangeIf};
ghost use Rattle.pb_script.specs.declared.reports.lines.Newest.{Newest};
ghost use Rattle.pb_keep.specs.declared.fault.KeepFault.TheVariants as ends;
ghost use Rattle.pb_keeper.specs.Stats.{kept_table};
ghost use Rattle.pb_keep.specs.Conversations.{keeper_view, Beginning, LeavesFirst, Serves};
ghost use Rattle.pb_keep.specs.Served.{ServesLine};
ghost use Rattle.pb_keep.specs.Held.{change_as_line, commit_seen, refuses_changes, unless_full, waits_for, waits_within, IsAnswerTo, IsHeldIf, IsSinceAnswer};
ghost use Rattle.pb_keep.specs.Causes.{IsOfAnswer, WhyNotKept};
ghost use Rattle.pb_keep.specs.Kept.{IsShutFile};
ghost use Rattle.pb_keep.specs.Taken.{is_of_log, is_question, IsLeftToCaller, IsLineReady, IsNoQuestion, IsNotOfLog, IsReadyFor, MayHaveAnswered, NamesLog, WaitsNow};
ghost use Rattle.pb_keep.specs.Waits.{IsNoLine, IsWaiting};

use crate::fault::KeepFault;
use crate::keeper::Keeper;
use crate::waiting::{Waiting, Waits};
use pb_answers::{answer_get, answer_list, answer_quiet, answer_since, answer_stats, newest_of};
use pb_base::{NoMemory, Sink, Ts};
use pb_keeper::has_room;
use pb_parse::{ScriptCode, batch_of, first_operation};
use pb_reading::{LineFault, is_skipped};
use pb_requests::{Condition, Request, parse_request};
use pb_state::State;
use pb_store::Tablet;
use sqlite_disk::Disk;
use std::alloc::Global;

/// The code of a line that may not stand in a group, of an `end` without its `begin`, and of a line that is no question where
/// questions alone are answered.
pub const OUT_OF_PLACE: u8 = 76;

/// The code of a question about writes that are gone: those up to the snapshot that the log begins with.
pub const GONE: u8 = 77;

/// The code of a change for which the table has no room: it has as many entries as its limit or more, or too few timestamps.
pub const FULL: u8 = 79;

/// What was done with a line.
#[derive(Clone, Copy)]
pub enum Took {
    /// It waits, or it is answered.
    Served,
    /// It asks for a compaction, and is left to the caller. All before it is answered.
    Asked,
    /// The same of a copy of the log, which this number names.
    Copy(u64),
}

// Whether a text has a newline.
fn has_newline(text: &str) -> bool
    ensures { result ≡ list_any (λ b. b == 10) text.now }
{
    text.as_bytes().iter().any(|b| *b == b'\n')
}

// As what a change of these operations waits: a record has them as a line.
fn change_of(alloc: Global, operations: &str) -> Result<Waits, NoMemory>
    ensures { IfOk result (λ item. item ≡ waits_for (change_as_line operations.now)) }
{
    if is_skipped(operations) || has_newline(operations) {
        return Ok(Waits::Refused(ScriptCode::Form.code()));
    }
    match batch_of(alloc, operations) {
        Ok(batch) => Ok(Waits::Change(batch)),
        Err(LineFault::Code(code)) => Ok(Waits::Refused(code.code())),
        Err(LineFault::NoMemory(refused)) => Err(refused),
    }
}

// The commit of a cell's newest write, 0 where it has none.
fn newest_commit<T: Tablet>(state: &State<T>, condition: &Condition) -> Ts
    ensures { (newest : Option Newest)
        × IsSeenIn state.now.entries state.now.clock
        (Data condition.now.row condition.now.column) newest
        × (result ≡ commit_seen newest) }
{
    match newest_of(state, condition.row, condition.column) {
        Some(newest) => newest.commit,
        None => Ts(0),
    }
}

// A change is refused where the table has no room for one.
fn unless_full(is_full: bool, item: Waits) -> Waits
    ensures { result ≡ unless_full is_full item }
{
    match item {
        Waits::Change(_) if is_full => Waits::Refused(FULL),
        item => item,
    }
}

// As what operations on a condition wait. They are read before the condition is looked at, so that a line of no form is
// refused in any case.
fn change_if<T: Tablet>(
    alloc: Global,
    state: &State<T>,
    condition: &Condition,
    operations: &str,
    is_full: bool,
) -> Result<Waits, NoMemory>
    ensures { IfOk result (IsHeldIf is_full state.now condition.now operations.now) }
{
    let item = change_of(alloc, operations)?;
    let newest = newest_commit(state, condition);
    match item {
        Waits::Change(_) if newest != condition.commit => Ok(Waits::Unmade(newest)),
        item => Ok(unless_full(is_full, item)),
    }
}

// As what a change in a group waits, whose record may have no room for it.
fn change_within(
    alloc: Global,
    waiting: &Waiting,
    line: &str,
    is_full: bool,
) -> Result<Waits, NoMemory>
    ensures { IfOk result (λ item. item ≡ waits_within is_full waiting.now.changes
        (length (string_bytes waiting.now.script)) line.now Change) }
{
    let item = change_of(alloc, line)?;
    match item {
        Waits::Change(_) if !waiting.has_room(line.len()) => {
            Ok(Waits::Refused(ScriptCode::TooMany.code()))
        }
        item => Ok(unless_full(is_full, item)),
    }
}

// As what a line waits in a group.
fn item_within(
    alloc: Global,
    waiting: &Waiting,
    line: &str,
    request: Request,
    is_full: bool,
) -> Result<Waits, NoMemory>
    ensures { IfOk result (λ item. item ≡ waits_within is_full waiting.now.changes
        (length (string_bytes waiting.now.script)) line.now request) }
{
    match request {
        Request::Change => change_within(alloc, waiting, line, is_full),
        Request::End => Ok(Waits::Ended),
        _ => Ok(Waits::Refused(OUT_OF_PLACE)),
    }
}

// Whether the table has no room for a change, where none waits yet. With the first there is room for all of its record.
fn refuses_changes<T: Tablet>(state: &State<T>, waiting: &Waiting, limit: u64) -> bool
    ensures { result ≡ refuses_changes limit (waiting.now.changes == 0) state.now }
{
    waiting.changes == 0 && !has_room(state, limit)
}

// A line with a condition waits. Its first operation is the condition.
fn hold_if<T: Tablet>(
    alloc: Global,
    state: &State<T>,
    waiting: &mut Waiting,
    condition: &Condition,
    line: &str,
    limit: u64,
) -> Result<(), NoMemory>
    requires waiting { IsWaiting waiting.old }
    requires first { IsNoLine waiting.old }
    requires read { asked_by line.now ≡ Ok (ChangeIf condition.now) }
    ensures waiting { OnOk result (IsWaiting waiting.new) }
    ensures held { OnOk result (WaitsNow limit state.now line.now (Ok (ChangeIf condition.now))
        waiting.old waiting.new) }
{
    let (_, after) = first_operation(line);
    match after {
        Some(operations) => {
            let is_full = refuses_changes(state, waiting, limit);
            let item = change_if(alloc, state, condition, operations, is_full)?;
            waiting.push(operations, item)
        }
        None => unreachable!(),
    }
}

// A line that is neither a question nor asks something of the log waits.
fn hold_request<T: Tablet>(
    alloc: Global,
    state: &State<T>,
    waiting: &mut Waiting,
    line: &str,
    request: Request,
    limit: u64,
) -> Result<(), NoMemory>
    requires waiting { IsWaiting waiting.old }
    requires read { asked_by line.now ≡ Ok request }
    requires ready { IsReadyFor waiting.old (length line.now) request }
    requires alone { waiting.old.is_group ≡ false }
    requires no_question { is_question request ≡ false }
    requires not_of_log { is_of_log request ≡ false }
    ensures waiting { OnOk result (IsWaiting waiting.new) }
    ensures held { OnOk result
        (WaitsNow limit state.now line.now (Ok request) waiting.old waiting.new) }
{
    match request {
        Request::Change => {
            let is_full = refuses_changes(state, waiting, limit);
            let item = change_of(alloc, line)?;
            waiting.push(line, unless_full(is_full, item))
        }
        Request::ChangeIf(condition) => hold_if(alloc, state, waiting, &condition, line, limit),
        Request::Begin => waiting.push(line, Waits::Begun),
        Request::End => waiting.push(line, Waits::Refused(OUT_OF_PLACE)),
        _ => unreachable!(),
    }
}

// A line waits.
fn hold<T: Tablet>(
    alloc: Global,
    state: &State<T>,
    waiting: &mut Waiting,
    line: &str,
    read: Result<Request, ScriptCode>,
    limit: u64,
) -> Result<(), NoMemory>
    requires waiting { IsWaiting waiting.old }
    requires read { asked_by line.now ≡ read }
    requires ready { IsLineReady waiting.old (length line.now) read }
    requires no_question { IsNoQuestion waiting.old read }
    requires not_of_log { IsNotOfLog waiting.old read }
    ensures waiting { OnOk result (IsWaiting waiting.new) }
    ensures held { OnOk result (WaitsNow limit state.now line.now read waiting.old waiting.new) }
{
    let request = match read {
        Ok(request) => request,
        Err(code) => return waiting.push(line, Waits::Refused(code.code())),
    };
    if !waiting.is_group {
        return hold_request(alloc, state, waiting, line, request, limit);
    }
    let is_full = refuses_changes(state, waiting, limit);
    let item = item_within(alloc, waiting, line, request, is_full)?;
    waiting.push(line, item)
}

// Writes an answer.
pub(crate) fn write<S: Sink>(out: &mut S, text: &str) -> Result<(), KeepFault>
    ensures ok { OnOk result (Appends (S.taken out.old) (S.taken out.new) text.now) }
    ensures err { OnErr result (AppendsPart (S.taken out.old) (S.taken out.new) text.now) }
    ensures why { IfErr result (λ e. e ≡ ends.Output) }
    ensures failed { OnErr result (S.failed out.new ≡ true) }
{
    match out.write_all(text.as_bytes()) {
        Ok(()) => Ok(()),
        Err(_) => Err(KeepFault::Output),
    }
}

// Whether a line is answered at once.
pub(crate) fn is_question(request: &Request) -> bool
    ensures { result ≡ is_question request.now }
{
    matches!(
        request,
        Request::Get(..) | Request::Since(_) | Request::List | Request::IsQuiet | Request::Stats
    )
}

// The question that a line asks, which is none in a group.
fn question_in(waiting: &Waiting, read: &Result<Request, ScriptCode>) -> Option<Request>
    ensures some { IfSome result (λ q. (read.now ≡ Ok q) × (is_question q ≡ true)
        × (waiting.now.is_group ≡ false)) }
    ensures none { result ≡ None → IsNoQuestion waiting.now read.now }
{
    match read {
        Ok(request) if !waiting.is_group && is_question(request) => Some(*request),
        _ => None,
    }
}

// What a line asks of the log, which is left to the caller. One in a group asks for nothing.
fn left_to_caller(waiting: &Waiting, read: &Result<Request, ScriptCode>) -> Option<Took>
    ensures some { IfSome result (IsLeftToCaller waiting.now read.now) }
    ensures none { result ≡ None → IsNotOfLog waiting.now read.now }
{
    match read {
        Ok(Request::Compact) if !waiting.is_group => Some(Took::Asked),
        Ok(Request::Copy(number)) if !waiting.is_group => Some(Took::Copy(*number)),
        _ => None,
    }
}

// Whether what waits is kept before this line is taken: it speaks of the table in which all of that is made, or the record has
// no room for it. A group is kept after its `end` alone.
fn is_kept_before(waiting: &Waiting, line: &str, read: &Result<Request, ScriptCode>) -> bool
    ensures not_in_group { result ≡ true → waiting.now.is_group ≡ false }
    ensures ready { result ≡ false → IsLineReady waiting.now (length line.now) read.now }
{
    if waiting.is_group {
        return false;
    }
    match read {
        Ok(Request::Change) => !waiting.has_room(line.len()),
        Ok(Request::End) => false,
        Ok(_) => true,
        Err(_) => false,
    }
}

// The text that a question about the writes above a commit is answered with, where those above `since` are there.
fn answer_above<T: Tablet>(
    alloc: Global,
    state: &State<T>,
    since: Ts,
    above: Ts,
) -> Result<String, NoMemory>
    ensures { IfOk result (λ s. IsSinceAnswer since.0 state.now above.0 (string_bytes s)) }
{
    if above < since {
        let text = format!(in alloc; "refused {GONE} {}\n", since.0)?;
        return Ok(text);
    }
    answer_since(alloc, state, above)
}

impl<T: Tablet, D: Disk + Drop> Keeper<T, D> {
    // The text that a question is answered with.
    pub(crate) fn answer_to(&self, alloc: Global, question: Request) -> Result<String, NoMemory>
        requires { is_question question ≡ true }
        ensures answer { IfOk result (λ s. IsAnswerTo self.now.since.0 question
            (kept_table self.now.state self.now.stats.items) (string_bytes s)) }
        ensures log { IfOk result (λ s. NamesLog question
            (kept_table self.now.state self.now.stats.items) self.now.log.end (string_bytes s)) }
    {
        match question {
            Request::Get(row, column) => answer_get(alloc, &self.state, row, column),
            Request::Since(above) => answer_above(alloc, &self.state, self.since, above),
            Request::List => answer_list(alloc, &self.state, &self.stats),
            Request::IsQuiet => answer_quiet(alloc, &self.state),
            Request::Stats => answer_stats(alloc, &self.state, &self.stats, self.log.end),
            _ => unreachable!(),
        }
    }

    // Answers a question. Where that fails, a beginning of the answer may be written.
    fn answer<S: Sink>(
        &self,
        alloc: Global,
        out: &mut S,
        question: Request,
    ) -> Result<(), KeepFault>
        requires { is_question question ≡ true }
        ensures ok { OnOk result ((text : List ℕ)
            × IsAnswerTo self.now.since.0 question
            (kept_table self.now.state self.now.stats.items) text
            × NamesLog question (kept_table self.now.state self.now.stats.items)
            self.now.log.end text
            × Appends (S.taken out.old) (S.taken out.new) text) }
        ensures err { OnErr result (MayHaveAnswered self.now.since.0 question
            (kept_table self.now.state self.now.stats.items)
            (S.taken out.old) (S.taken out.new)) }
        ensures why { IfErr result (IsOfAnswer (S.failed out.new)) }
    {
        let text = self.answer_to(alloc, question)?;
        write(out, text.as_str())
    }

    // Keeps what waits, where that is asked for.
    pub(crate) fn keep_if<S: Sink>(
        &mut self,
        alloc: Global,
        out: &mut S,
        is_asked: bool,
    ) -> Result<(), KeepFault>
        requires usable { IsTrue (D.is_usable self.old.log.disk) }
        requires waiting { IsWaiting self.old.waiting }
        requires alone { is_asked ≡ true → self.old.waiting.is_group ≡ false }
        ensures usable { OnOk result (IsTrue (D.is_usable self.new.log.disk)) }
        ensures waiting { OnOk result (IsWaiting self.new.waiting) }
        ensures kept { OnOk result (is_asked ≡ true → IsNoLine self.new.waiting) }
        ensures idle { IsNoLine self.old.waiting → OnOk result (IsNoLine self.new.waiting) }
        ensures same { is_asked ≡ false → self.new ≡ self.old }
        ensures observers { OnOk result
            (self.new.state.observers ≡ self.old.state.observers) }
        ensures serves { (b : Beginning) (lines : List (List ℕ))
            → Serves b lines (keeper_view D.seen D.may_leave self.old (S.taken out.old))
            → OnOk result (Serves b lines
            (keeper_view D.seen D.may_leave self.new (S.taken out.new))) }
        ensures crash { (b : Beginning) (lines : List (List ℕ))
            → Serves b lines (keeper_view D.seen D.may_leave self.old (S.taken out.old))
            → (c : List ℕ) → D.may_leave self.new.log.disk c
            → LeavesFirst b lines (S.taken out.new) c }
        ensures shut { ((d : _) → IsTrue (D.is_mixing d)) → (b : Beginning) (lines : List (List ℕ))
            → Serves b lines (keeper_view D.seen D.may_leave self.old (S.taken out.old))
            → (c : List ℕ) → D.may_leave self.new.log.disk c → IsShutFile c }
        ensures cause { (b : Beginning) (lines : List (List ℕ))
            → Serves b lines (keeper_view D.seen D.may_leave self.old (S.taken out.old))
            → IfErr result (WhyNotKept (D.faults self.old.log.disk)
            (D.faults self.new.log.disk) (S.failed out.new)
            (keeper_view D.seen D.may_leave self.new (S.taken out.new))) }
        ensures faultless { OnOk result
            (D.faults self.new.log.disk ≡ D.faults self.old.log.disk) }
    {
        if !is_asked {
            return Ok(());
        }
        self.keep(alloc, out)
    }

    /// Takes one line. A change waits, and so does the answer to a line that is refused; a question is answered after all that
    /// waits is kept. A line that asks for a compaction, or for a copy of the log, is answered by the caller.
    pub fn take<S: Sink>(
        &mut self,
        alloc: Global,
        out: &mut S,
        line: &str,
    ) -> Result<Took, KeepFault>
        requires usable { IsTrue (D.is_usable self.old.log.disk) }
        requires waiting { IsWaiting self.old.waiting }
        ensures usable { OnOk result (IsTrue (D.is_usable self.new.log.disk)) }
        ensures waiting { OnOk result (IsWaiting self.new.waiting) }
        // The table has the same observers.
        ensures observers { OnOk result
            (self.new.state.observers ≡ self.old.state.observers) }
        ensures serves { (b : Beginning) (lines : List (List ℕ))
            → Serves b lines (keeper_view D.seen D.may_leave self.old (S.taken out.old))
            → IfOk result (ServesLine b lines line.now
            (keeper_view D.seen D.may_leave self.new (S.taken out.new))) }
        // Whenever it stops, the log has the changes of the first lines.
        ensures crash { (b : Beginning) (lines : List (List ℕ))
            → Serves b lines (keeper_view D.seen D.may_leave self.old (S.taken out.old))
            → (c : List ℕ) → D.may_leave self.new.log.disk c
            → LeavesFirst b (lines ++ line.now ∷ []) (S.taken out.new) c }
        // Where each byte of a torn write is old or new, a closed gate stands after the records.
        ensures shut { ((d : _) → IsTrue (D.is_mixing d)) → (b : Beginning) (lines : List (List ℕ))
            → Serves b lines (keeper_view D.seen D.may_leave self.old (S.taken out.old))
            → (c : List ℕ) → D.may_leave self.new.log.disk c → IsShutFile c }
        // A fault has its cause.
        ensures cause { (b : Beginning) (lines : List (List ℕ))
            → Serves b lines (keeper_view D.seen D.may_leave self.old (S.taken out.old))
            → IfErr result (WhyNotKept (D.faults self.old.log.disk)
            (D.faults self.new.log.disk) (S.failed out.new)
            (keeper_view D.seen D.may_leave self.new (S.taken out.new))) }
        ensures faultless { OnOk result
            (D.faults self.new.log.disk ≡ D.faults self.old.log.disk) }
    {
        let read = parse_request(line);
        let before = is_kept_before(&self.waiting, line, &read);
        self.keep_if(alloc, out, before)?;
        if let Some(took) = left_to_caller(&self.waiting, &read) {
            return Ok(took);
        }
        match question_in(&self.waiting, &read) {
            Some(question) => self.answer(alloc, out, question)?,
            None => hold(
                alloc,
                &self.state,
                &mut self.waiting,
                line,
                read,
                self.limit,
            )?,
        }
        Ok(Took::Served)
    }
}
