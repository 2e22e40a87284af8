//! Lines taken as they come, until the input ends or the log is to be compacted.
ghost use Rattle.std.specs.Prelude.{◌≡◌, ◌≤◌, ◌<◌, ◌∷◌, ◌++◌, [], ℕ, List, Option, None, Err, true, false, IfOk, IfErr, IfSome, OnOk, IsTrue};
ghost use Rattle.pb_parse.specs.declared.script.code.ScriptCode.TheVariants.{Form};
ghost use Rattle.pb_steps.specs.State.{StateOf};
ghost use Rattle.pb_keep.specs.Conversations.{keeper_view, Beginning, LeavesFirst, Serves};
ghost use Rattle.pb_keep.specs.Input.{IsLineRead};
ghost use Rattle.pb_keep.specs.Causes.{WhyNotKept, WhyNotServed};
ghost use Rattle.pb_keep.specs.Kept.{IsShutFile};
ghost use Rattle.pb_keep.specs.Served.{IsKeptAtEnd, IsPauseAfter, LeavesRead, ServesLine, ServesNext, ServesUntil};
ghost use Rattle.pb_keep.specs.declared.service.Went.TheVariants as turns;
ghost use Rattle.pb_keep.specs.declared.take.Took.TheVariants.{Served};
ghost use Rattle.pb_keep.specs.Taken.{WaitsNow};
ghost use Rattle.pb_keep.specs.Waits.{IsNoLine, IsWaiting};

use crate::fault::KeepFault;
use crate::keeper::Keeper;
use crate::lines::{Line, read_line};
use crate::source::LineSource;
use crate::take::Took;
use crate::waiting::{Waiting, Waits};
use pb_base::{NoMemory, Sink};
use pb_parse::ScriptCode;
use pb_store::Tablet;
use sqlite_disk::Disk;
use std::alloc::Global;
use std::sync::Wait;

/// Why lines are taken no further.
#[derive(Clone, Copy)]
pub enum Paused {
    /// The input has ended.
    Ended,
    /// A line asked for a compaction. Everything before it is answered.
    Asked,
    /// The same of a copy of the log, which this number names.
    Copy(u64),
    /// The log has as many bytes as the limit. Everything before is answered.
    Large,
}

// How a turn of the service went.
#[derive(Clone, Copy)]
enum Went {
    // A line was read, and this was done with it.
    Line(Took),
    // The input has ended.
    End,
}

// A line of no form waits for its refusal.
fn refuse(waiting: &mut Waiting) -> Result<(), NoMemory>
    requires { IsWaiting waiting.old }
    ensures waiting { OnOk result (IsWaiting waiting.new) }
    ensures held { (limit : ℕ) (state : StateOf) (line : List ℕ)
        → OnOk result (WaitsNow limit state line (Err Form) waiting.old waiting.new) }
{
    waiting.push("", Waits::Refused(ScriptCode::Form.code()))
}

// Takes the bytes of a line.
fn take_bytes<T: Tablet, D: Disk + Drop, S: Sink>(
    alloc: Global,
    keeper: &mut Keeper<T, D>,
    out: &mut S,
    bytes: &[u8],
) -> Result<Took, KeepFault>
    requires usable { IsTrue (D.is_usable keeper.old.log.disk) }
    requires waiting { IsWaiting keeper.old.waiting }
    ensures usable { OnOk result (IsTrue (D.is_usable keeper.new.log.disk)) }
    ensures waiting { OnOk result (IsWaiting keeper.new.waiting) }
    ensures observers { OnOk result
        (keeper.new.state.observers ≡ keeper.old.state.observers) }
    ensures serves { (b : Beginning) (lines : List (List ℕ))
        → Serves b lines (keeper_view D.seen D.may_leave keeper.old (S.taken out.old))
        → IfOk result (ServesLine b lines bytes.now
        (keeper_view D.seen D.may_leave keeper.new (S.taken out.new))) }
    ensures crash { (b : Beginning) (lines : List (List ℕ))
        → Serves b lines (keeper_view D.seen D.may_leave keeper.old (S.taken out.old))
        → (c : List ℕ) → D.may_leave keeper.new.log.disk c
        → LeavesFirst b (lines ++ bytes.now ∷ []) (S.taken out.new) c }
    ensures shut { ((d : _) → IsTrue (D.is_mixing d)) → (b : Beginning) (lines : List (List ℕ))
        → Serves b lines (keeper_view D.seen D.may_leave keeper.old (S.taken out.old))
        → (c : List ℕ) → D.may_leave keeper.new.log.disk c → IsShutFile c }
    ensures cause { (b : Beginning) (lines : List (List ℕ))
        → Serves b lines (keeper_view D.seen D.may_leave keeper.old (S.taken out.old))
        → IfErr result (WhyNotKept (D.faults keeper.old.log.disk) (D.faults keeper.new.log.disk)
        (S.failed out.new) (keeper_view D.seen D.may_leave keeper.new (S.taken out.new))) }
    ensures faultless { OnOk result
        (D.faults keeper.new.log.disk ≡ D.faults keeper.old.log.disk) }
{
    match std::str::from_utf8(bytes) {
        Ok(line) => keeper.take(alloc, out, line),
        Err(_) => {
            refuse(&mut keeper.waiting)?;
            Ok(Took::Served)
        }
    }
}

// Takes what was read.
fn take_read<T: Tablet, D: Disk + Drop, S: Sink>(
    alloc: Global,
    keeper: &mut Keeper<T, D>,
    out: &mut S,
    read: Line,
    bytes: &[u8],
) -> Result<Went, KeepFault>
    requires usable { IsTrue (D.is_usable keeper.old.log.disk) }
    requires waiting { IsWaiting keeper.old.waiting }
    ensures usable { OnOk result (IsTrue (D.is_usable keeper.new.log.disk)) }
    ensures waiting { OnOk result (IsWaiting keeper.new.waiting) }
    ensures observers { OnOk result
        (keeper.new.state.observers ≡ keeper.old.state.observers) }
    ensures serves { (b : Beginning) (lines : List (List ℕ)) (from to : Option (List ℕ))
        → IsLineRead read bytes.now from to
        → Serves b lines (keeper_view D.seen D.may_leave keeper.old (S.taken out.old))
        → IfOk result (ServesNext b lines from to
        (keeper_view D.seen D.may_leave keeper.new (S.taken out.new))) }
    ensures crash { (b : Beginning) (lines : List (List ℕ)) (from to : Option (List ℕ))
        → IsLineRead read bytes.now from to
        → Serves b lines (keeper_view D.seen D.may_leave keeper.old (S.taken out.old))
        → (c : List ℕ) → D.may_leave keeper.new.log.disk c
        → LeavesRead b lines from (S.taken out.new) c }
    ensures shut { ((d : _) → IsTrue (D.is_mixing d)) → (b : Beginning) (lines : List (List ℕ))
        → Serves b lines (keeper_view D.seen D.may_leave keeper.old (S.taken out.old))
        → (c : List ℕ) → D.may_leave keeper.new.log.disk c → IsShutFile c }
    ensures cause { (b : Beginning) (lines : List (List ℕ))
        → Serves b lines (keeper_view D.seen D.may_leave keeper.old (S.taken out.old))
        → IfErr result (WhyNotKept (D.faults keeper.old.log.disk) (D.faults keeper.new.log.disk)
        (S.failed out.new) (keeper_view D.seen D.may_leave keeper.new (S.taken out.new))) }
    ensures faultless { OnOk result
        (D.faults keeper.new.log.disk ≡ D.faults keeper.old.log.disk) }
{
    match read {
        Line::Read => Ok(Went::Line(take_bytes(alloc, keeper, out, bytes)?)),
        Line::TooLong => {
            refuse(&mut keeper.waiting)?;
            Ok(Went::Line(Took::Served))
        }
        Line::End => Ok(Went::End),
    }
}

// Whether what waits is kept after a turn: no line more has come, or the input has ended, and no group is open.
fn is_kept_after(went: Went, waiting: &Waiting, has_more: bool) -> bool
    ensures alone { result ≡ true → waiting.now.is_group ≡ false }
    ensures ended { result ≡ false → went ≡ turns.End → waiting.now.is_group ≡ true }
{
    !waiting.is_group && (matches!(went, Went::End) || !has_more)
}

// Reads a line, takes it, and keeps what waits unless a line more has come.
fn turn<R: Wait, I: LineSource, T: Tablet, D: Disk + Drop, S: Sink>(
    rt: &R,
    alloc: Global,
    keeper: &mut Keeper<T, D>,
    input: &mut I,
    out: &mut S,
    line: &mut Vec<u8>,
) -> Result<Went, KeepFault>
    requires usable { IsTrue (D.is_usable keeper.old.log.disk) }
    requires waiting { IsWaiting keeper.old.waiting }
    ensures usable { OnOk result (IsTrue (D.is_usable keeper.new.log.disk)) }
    ensures waiting { OnOk result (IsWaiting keeper.new.waiting) }
    ensures observers { OnOk result
        (keeper.new.state.observers ≡ keeper.old.state.observers) }
    ensures serves { (b : Beginning) (lines : List (List ℕ))
        → Serves b lines (keeper_view D.seen D.may_leave keeper.old (S.taken out.old))
        → IfOk result (ServesNext b lines (I.remaining input.old)
        (I.remaining input.new)
        (keeper_view D.seen D.may_leave keeper.new (S.taken out.new))) }
    ensures crash { (b : Beginning) (lines : List (List ℕ))
        → Serves b lines (keeper_view D.seen D.may_leave keeper.old (S.taken out.old))
        → (c : List ℕ) → D.may_leave keeper.new.log.disk c
        → LeavesRead b lines (I.remaining input.old) (S.taken out.new) c }
    ensures shut { ((d : _) → IsTrue (D.is_mixing d)) → (b : Beginning) (lines : List (List ℕ))
        → Serves b lines (keeper_view D.seen D.may_leave keeper.old (S.taken out.old))
        → (c : List ℕ) → D.may_leave keeper.new.log.disk c → IsShutFile c }
    ensures cause { (b : Beginning) (lines : List (List ℕ))
        → Serves b lines (keeper_view D.seen D.may_leave keeper.old (S.taken out.old))
        → IfErr result (WhyNotServed (D.faults keeper.old.log.disk) (D.faults keeper.new.log.disk)
        (I.failed input.new) (S.failed out.new)
        (keeper_view D.seen D.may_leave keeper.new (S.taken out.new))) }
    ensures faultless { OnOk result
        (D.faults keeper.new.log.disk ≡ D.faults keeper.old.log.disk) }
    ensures ended { IfOk result (λ went. IsKeptAtEnd went keeper.new.waiting) }
{
    match read_line(rt, input, line) {
        Ok(read) => {
            let went = take_read(alloc, keeper, out, read, line.as_slice())?;
            let is_kept = is_kept_after(went, &keeper.waiting, input.has_line());
            keeper.keep_if(alloc, out, is_kept)?;
            Ok(went)
        }
        Err(fault) => Err(fault.into()),
    }
}

// Whether the log has so many bytes, and no line waits.
fn is_large<T: Tablet, D: Disk + Drop>(keeper: &Keeper<T, D>, limit: u64) -> bool
    requires waiting { IsWaiting keeper.now.waiting }
    ensures idle { result ≡ true → IsNoLine keeper.now.waiting }
    ensures large { result ≡ true → limit ≤ keeper.now.log.end }
    ensures small { result ≡ false → IsNoLine keeper.now.waiting → keeper.now.log.end < limit }
{
    keeper.waiting.items.is_empty() && keeper.log.end as u64 >= limit
}

// Why lines are taken no further after a turn, if they aren't.
fn pause_after(went: Went, is_large: bool) -> Option<Paused>
    ensures some { IfSome result (IsPauseAfter went is_large) }
    ensures none { result ≡ None → went ≡ turns.Line Served }
    ensures small { result ≡ None → is_large ≡ false }
{
    match went {
        Went::Line(Took::Served) if is_large => Some(Paused::Large),
        Went::Line(Took::Served) => None,
        Went::Line(Took::Asked) => Some(Paused::Asked),
        Went::Line(Took::Copy(number)) => Some(Paused::Copy(number)),
        Went::End => Some(Paused::Ended),
    }
}

/// Takes lines and answers each, until the input ends, a line asks for a compaction or a copy, or the log has `limit` bytes, which is
/// looked at after each line after which none waits. While a whole line more was read that isn't taken yet, what came
/// before it waits; so no line waits for one that hasn't come. What waits when the input ends is kept, but for a group
/// without its `end`. After a pause the caller answers, and calls this again for the rest of the input.
pub fn serve<R: Wait, I: LineSource, T: Tablet, D: Disk + Drop, S: Sink>(
    rt: &R,
    alloc: Global,
    keeper: &mut Keeper<T, D>,
    input: &mut I,
    out: &mut S,
    limit: u64,
) -> Result<Paused, KeepFault>
    requires usable { IsTrue (D.is_usable keeper.old.log.disk) }
    requires waiting { IsWaiting keeper.old.waiting }
    ensures usable { OnOk result (IsTrue (D.is_usable keeper.new.log.disk)) }
    ensures waiting { OnOk result (IsWaiting keeper.new.waiting) }
    // The table has the same observers.
    ensures observers { OnOk result
        (keeper.new.state.observers ≡ keeper.old.state.observers) }
    // At the end of the input all of its lines are taken, and only a group without its end isn't
    // answered. At any other pause all lines that were taken are answered.
    ensures serves { (b : Beginning) (lines : List (List ℕ))
        → Serves b lines (keeper_view D.seen D.may_leave keeper.old (S.taken out.old))
        → IfOk result (ServesUntil b lines limit (I.remaining input.old)
        (I.remaining input.new)
        (keeper_view D.seen D.may_leave keeper.new (S.taken out.new))) }
    // Whenever it stops, the log has the changes of the first lines, with all that are answered.
    ensures crash { (b : Beginning) (lines : List (List ℕ))
        → Serves b lines (keeper_view D.seen D.may_leave keeper.old (S.taken out.old))
        → (c : List ℕ) → D.may_leave keeper.new.log.disk c
        → LeavesRead b lines (I.remaining input.old) (S.taken out.new) c }
    // Where each byte of a torn write is old or new, a closed gate stands after the records.
    ensures shut { ((d : _) → IsTrue (D.is_mixing d)) → (b : Beginning) (lines : List (List ℕ))
        → Serves b lines (keeper_view D.seen D.may_leave keeper.old (S.taken out.old))
        → (c : List ℕ) → D.may_leave keeper.new.log.disk c → IsShutFile c }
    // A fault has its cause.
    ensures cause { (b : Beginning) (lines : List (List ℕ))
        → Serves b lines (keeper_view D.seen D.may_leave keeper.old (S.taken out.old))
        → IfErr result (WhyNotServed (D.faults keeper.old.log.disk) (D.faults keeper.new.log.disk)
        (I.failed input.new) (S.failed out.new)
        (keeper_view D.seen D.may_leave keeper.new (S.taken out.new))) }
{
    let mut line = Vec::new(alloc);
    for _turn in rt.forever() {
        let went = turn(rt, alloc, keeper, input, out, &mut line)?;
        if let Some(paused) = pause_after(went, is_large(keeper, limit)) {
            return Ok(paused);
        }
    }
    unreachable!()
}
