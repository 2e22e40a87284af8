//! Calls as the journal and the seats keep them: in less room than step and answer take, since all of them are kept.
ghost use Rattle.std.specs.Prelude.{◌≡◌, ◌↔◌, IsTrue, MatchOption, OnOk, Some, None, true, false};
ghost use Rattle.pb_steps.specs.declared.step.Step.TheVariants.{Begin, Read, Declare, Prewrite, Stamp, CommitPrimary, CommitSecondary, NextMark, Sweep};
ghost use Rattle.pb_steps.specs.declared.step.Answer.TheVariants.{Done};
ghost use Rattle.pb_history.specs.KeptCalls.{call_of, cell_in, is_owned};

use crate::entry::Received;
use pb_base::{Cell, Column, NoMemory, ObserverNo, Row, Ts};
use pb_steps::{Answer, Declaration, Step, Work};
use std::alloc::Global;
use std::marker::Model;

/// A step and its answer as they are kept, in 24 bytes where they have 112: those that mostly come together have a form for
/// both, and others stand on the heap.
#[derive(Drop)]
pub struct KeptCall {
    form: CallForm,
}

// All of a cell but its row. It takes three bytes, and so room that a form has anyway: fields lie in the order in which they
// stand, and a row begins at the next multiple of 8.
#[derive(Clone, Copy, Drop)]
pub(crate) enum Lane {
    Data(Column),
    Ack(ObserverNo, Column),
}

// The forms are named after what was done.
#[derive(Drop)]
pub(crate) enum CallForm {
    Begun(Ts),
    BegunRun(ObserverNo, Row, Ts),
    ReadAbsent(Lane, Row, Ts),
    Declared(Ts, Declaration),
    Prewritten(Lane, Row, Ts),
    Stamped(Ts, Ts),
    Committed(Ts),
    CommittedOther(Lane, Row, Ts),
    /// The first mark of all.
    Marked(Lane, Row),
    /// The first mark after a cell, which comes first here.
    MarkedAfter(Lane, Lane, Row, Row),
    NoMark,
    NoMarkAfter(Lane, Row),
    Swept(Lane, Row),
    Other(Box<Received>),
}

impl Model for KeptCall {
    ghost use Rattle.pb_history.specs.declared.entry.Received.{Received};
    ghost use Rattle.pb_history.specs.KeptCalls.{call_of};

    ghost Value = { Received };

    ghost view = { λ k. call_of k.form };
}

/// Room on the heap for the next call that needs some, made before the step is taken, so that no answer is lost for want of
/// memory. Contracts see whether it is there.
#[derive(Drop)]
pub struct CallRoom {
    alloc: Global,
    room: Option<Box<Received>>,
}

impl Model for CallRoom {
    ghost use Rattle.std.specs.Prelude.{Bool, is_some};

    ghost Value = { Bool };

    ghost view = { λ r. is_some r.room };
}

impl CallRoom {
    /// None so far.
    pub fn new(alloc: Global) -> CallRoom
        ensures { result ≡ false }
    {
        CallRoom { alloc, room: None }
    }

    /// Makes room where there is none.
    pub fn make(&mut self) -> Result<(), NoMemory>
        ensures { OnOk result (self.new ≡ true) }
    {
        if self.room.is_none() {
            // Any call will do, since the next one is written over it.
            let any = Received {
                step: Step::NextMark(None),
                answer: Answer::NoMark,
            };
            self.room = Some(Box::new(self.alloc, any)?);
        }
        Ok(())
    }
}

// Keeps a call in the room.
fn other(step: Step, answer: Answer, room: &mut CallRoom) -> CallForm
    requires { room.old ≡ true }
    ensures { call_of result ≡ record { step = step; answer = answer } }
{
    match room.room.take() {
        Some(mut place) => {
            *place = Received { step, answer };
            CallForm::Other(place)
        }
        // There is room, since every caller asks for it.
        None => unreachable!(),
    }
}

// The lane of a cell, and its row.
fn parts_of(cell: Cell) -> (Lane, Row)
    ensures { cell_in result.0 result.1 ≡ cell }
{
    match cell {
        Cell::Data(row, column) => (Lane::Data(column), row),
        Cell::Ack(observer, row, column) => (Lane::Ack(observer, column), row),
    }
}

// The cell of a lane in a row.
fn cell_in(lane: Lane, row: Row) -> Cell
    ensures { result ≡ cell_in lane row }
{
    match lane {
        Lane::Data(column) => Cell::Data(row, column),
        Lane::Ack(observer, column) => Cell::Ack(observer, row, column),
    }
}

fn begin_form(work: Work, answer: Answer, room: &mut CallRoom) -> CallForm
    requires { room.old ≡ true }
    ensures { call_of result ≡ record { step = Begin work; answer = answer } }
{
    let Answer::At(start) = answer else {
        return other(Step::Begin(work), answer, room);
    };
    match work {
        Work::Script => CallForm::Begun(start),
        Work::Run(observer, row) => CallForm::BegunRun(observer, row, start),
    }
}

fn read_form(start: Ts, cell: Cell, answer: Answer, room: &mut CallRoom) -> CallForm
    requires { room.old ≡ true }
    ensures { call_of result ≡ record { step = Read start cell; answer = answer } }
{
    match answer {
        Answer::Absent => {
            let (lane, row) = parts_of(cell);
            CallForm::ReadAbsent(lane, row, start)
        }
        _ => other(Step::Read(start, cell), answer, room),
    }
}

fn declare_form(start: Ts, what: Declaration, answer: Answer, room: &mut CallRoom) -> CallForm
    requires { room.old ≡ true }
    ensures { call_of result ≡ record { step = Declare start what; answer = answer } }
{
    match answer {
        Answer::Done => CallForm::Declared(start, what),
        _ => other(Step::Declare(start, what), answer, room),
    }
}

fn prewrite_form(start: Ts, cell: Cell, answer: Answer, room: &mut CallRoom) -> CallForm
    requires { room.old ≡ true }
    ensures { call_of result ≡ record { step = Prewrite start cell; answer = answer } }
{
    match answer {
        Answer::Done => {
            let (lane, row) = parts_of(cell);
            CallForm::Prewritten(lane, row, start)
        }
        _ => other(Step::Prewrite(start, cell), answer, room),
    }
}

fn stamp_form(start: Ts, answer: Answer, room: &mut CallRoom) -> CallForm
    requires { room.old ≡ true }
    ensures { call_of result ≡ record { step = Stamp start; answer = answer } }
{
    match answer {
        Answer::At(commit) => CallForm::Stamped(start, commit),
        _ => other(Step::Stamp(start), answer, room),
    }
}

fn primary_form(start: Ts, answer: Answer, room: &mut CallRoom) -> CallForm
    requires { room.old ≡ true }
    ensures { call_of result ≡ record { step = CommitPrimary start; answer = answer } }
{
    match answer {
        Answer::Committed => CallForm::Committed(start),
        _ => other(Step::CommitPrimary(start), answer, room),
    }
}

fn secondary_form(start: Ts, cell: Cell, answer: Answer, room: &mut CallRoom) -> CallForm
    requires { room.old ≡ true }
    ensures { call_of result ≡ record { step = CommitSecondary start cell; answer = answer } }
{
    match answer {
        Answer::Done => {
            let (lane, row) = parts_of(cell);
            CallForm::CommittedOther(lane, row, start)
        }
        _ => other(Step::CommitSecondary(start, cell), answer, room),
    }
}

fn first_mark_form(answer: Answer, room: &mut CallRoom) -> CallForm
    requires { room.old ≡ true }
    ensures { call_of result ≡ record { step = NextMark None; answer = answer } }
{
    match answer {
        Answer::Marked(cell) => {
            let (lane, row) = parts_of(cell);
            CallForm::Marked(lane, row)
        }
        Answer::NoMark => CallForm::NoMark,
        _ => other(Step::NextMark(None), answer, room),
    }
}

fn next_mark_form(after: Cell, answer: Answer, room: &mut CallRoom) -> CallForm
    requires { room.old ≡ true }
    ensures { call_of result ≡ record { step = NextMark (Some after); answer = answer } }
{
    match answer {
        Answer::Marked(cell) => {
            let (before, before_row) = parts_of(after);
            let (lane, row) = parts_of(cell);
            CallForm::MarkedAfter(before, lane, before_row, row)
        }
        Answer::NoMark => {
            let (lane, row) = parts_of(after);
            CallForm::NoMarkAfter(lane, row)
        }
        _ => other(Step::NextMark(Some(after)), answer, room),
    }
}

fn sweep_form(cell: Cell, answer: Answer, room: &mut CallRoom) -> CallForm
    requires { room.old ≡ true }
    ensures { call_of result ≡ record { step = Sweep cell; answer = answer } }
{
    match answer {
        Answer::Done => {
            let (lane, row) = parts_of(cell);
            CallForm::Swept(lane, row)
        }
        _ => other(Step::Sweep(cell), answer, room),
    }
}

// A call, put together again, where it has no owner of a declaration and isn't together on the heap.
fn unowned(form: &CallForm) -> Option<Received>
    ensures { MatchOption result (is_owned form.now ≡ true) (λ r. r ≡ call_of form.now) }
{
    let (step, answer) = match form {
        CallForm::Begun(start) => (Step::Begin(Work::Script), Answer::At(*start)),
        CallForm::BegunRun(observer, row, start) => {
            (Step::Begin(Work::Run(*observer, *row)), Answer::At(*start))
        }
        CallForm::ReadAbsent(lane, row, start) => {
            (Step::Read(*start, cell_in(*lane, *row)), Answer::Absent)
        }
        CallForm::Prewritten(lane, row, start) => {
            (Step::Prewrite(*start, cell_in(*lane, *row)), Answer::Done)
        }
        CallForm::Stamped(start, commit) => (Step::Stamp(*start), Answer::At(*commit)),
        CallForm::Committed(start) => (Step::CommitPrimary(*start), Answer::Committed),
        CallForm::CommittedOther(lane, row, start) => {
            (
                Step::CommitSecondary(*start, cell_in(*lane, *row)),
                Answer::Done,
            )
        }
        CallForm::Marked(lane, row) => {
            (Step::NextMark(None), Answer::Marked(cell_in(*lane, *row)))
        }
        CallForm::MarkedAfter(before, lane, before_row, row) => {
            (
                Step::NextMark(Some(cell_in(*before, *before_row))),
                Answer::Marked(cell_in(*lane, *row)),
            )
        }
        CallForm::NoMark => (Step::NextMark(None), Answer::NoMark),
        CallForm::NoMarkAfter(lane, row) => {
            (Step::NextMark(Some(cell_in(*lane, *row))), Answer::NoMark)
        }
        CallForm::Swept(lane, row) => (Step::Sweep(cell_in(*lane, *row)), Answer::Done),
        CallForm::Declared(_, _) | CallForm::Other(_) => return None,
    };
    Some(Received { step, answer })
}

// Whether it is the call that declares this, and is answered so.
fn is_declared(call: &Received, start: Ts, what: &Declaration) -> bool
    ensures { IsTrue result ↔ (call.now ≡ record { step = Declare start what.now; answer = Done }) }
{
    match &call.step {
        Step::Declare(its_start, its_what) => {
            *its_start == start && call.answer == Answer::Done && its_what.get().is_same(what.get())
        }
        _ => false,
    }
}

// Whether it is this call.
fn is_call(form: &CallForm, call: &Received) -> bool
    ensures { IsTrue result ↔ (call_of form.now ≡ call.now) }
{
    match form {
        CallForm::Declared(start, what) => is_declared(call, *start, what),
        CallForm::Other(held) => held.is_same(call),
        _ => match unowned(form) {
            Some(put) => put.is_same(call),
            None => unreachable!(),
        },
    }
}

impl KeptCall {
    ghost use Rattle.std.specs.Prelude.{◌≡◌, ◌↔◌, IsTrue, IsSome, IfOk, IfSome, true};
    ghost use Rattle.pb_steps.specs.declared.step.Step.TheVariants.{Begin, Declare};

    /// Keeps a call. It takes the room only where it needs it, so that most calls leave it for the next one.
    pub fn new(step: Step, answer: Answer, room: &mut CallRoom) -> KeptCall
        requires { room.old ≡ true }
        ensures { result ≡ record { step = step; answer = answer } }
    {
        let form = match step {
            Step::Begin(work) => begin_form(work, answer, room),
            Step::Read(start, cell) => read_form(start, cell, answer, room),
            Step::ReadAt(start, cell, at) => other(Step::ReadAt(start, cell, at), answer, room),
            Step::Declare(start, what) => declare_form(start, what, answer, room),
            Step::Prewrite(start, cell) => prewrite_form(start, cell, answer, room),
            Step::Stamp(start) => stamp_form(start, answer, room),
            Step::CommitPrimary(start) => primary_form(start, answer, room),
            Step::CommitSecondary(start, cell) => secondary_form(start, cell, answer, room),
            Step::Settle(cell) => other(Step::Settle(cell), answer, room),
            Step::Clear(cell) => other(Step::Clear(cell), answer, room),
            Step::NextMark(None) => first_mark_form(answer, room),
            Step::NextMark(Some(after)) => next_mark_form(after, answer, room),
            Step::Sweep(cell) => sweep_form(cell, answer, room),
        };
        KeptCall { form }
    }

    /// Whether it is the same call. Declarations are compared as what they hold.
    pub fn is_same(&self, kept: &KeptCall) -> bool
        ensures { IsTrue result ↔ (self.now ≡ kept.now) }
    {
        match &kept.form {
            CallForm::Other(held) => is_call(&self.form, held),
            CallForm::Declared(start, what) => match &self.form {
                CallForm::Declared(its_start, its_what) => {
                    *its_start == *start && its_what.get().is_same(what.get())
                }
                CallForm::Other(held) => is_declared(held, *start, what),
                _ => false,
            },
            _ => match unowned(&kept.form) {
                Some(put) => is_call(&self.form, &put),
                None => unreachable!(),
            },
        }
    }

    /// The call, put together again. A declaration has one more owner then.
    pub fn get(&self) -> Result<Received, NoMemory>
        ensures { IfOk result (λ r. r ≡ self.now) }
    {
        match &self.form {
            CallForm::Declared(start, what) => {
                let what = what.share()?;
                Ok(Received {
                    step: Step::Declare(*start, what),
                    answer: Answer::Done,
                })
            }
            CallForm::Other(held) => {
                let step = held.step.copy()?;
                let answer = held.answer;
                Ok(Received { step, answer })
            }
            _ => match unowned(&self.form) {
                Some(put) => Ok(put),
                None => unreachable!(),
            },
        }
    }

    /// What was answered.
    pub fn answer(&self) -> Answer
        ensures { result ≡ self.now.answer }
    {
        match &self.form {
            CallForm::Declared(_, _) => Answer::Done,
            CallForm::Other(held) => held.answer,
            _ => match unowned(&self.form) {
                Some(put) => put.answer,
                None => unreachable!(),
            },
        }
    }

    /// What it declares, where it is a declaration.
    pub fn declares(&self) -> Option<(Ts, &Declaration)>
        ensures some { IfSome result (λ d. self.now.step ≡ Declare d.0 d.1.now) }
        ensures found { (start : _) (what : _) → self.now.step ≡ Declare start what
            → IsSome result }
    {
        match &self.form {
            CallForm::Declared(start, what) => Some((*start, what)),
            CallForm::Other(held) => match &held.step {
                Step::Declare(start, what) => Some((*start, what)),
                _ => None,
            },
            _ => None,
        }
    }

    /// What it begins, where it begins a transaction.
    pub fn begins(&self) -> Option<Work>
        ensures some { IfSome result (λ w. self.now.step ≡ Begin w) }
        ensures found { (work : _) → self.now.step ≡ Begin work → IsSome result }
    {
        match &self.form {
            CallForm::Begun(_) => Some(Work::Script),
            CallForm::BegunRun(observer, row, _) => Some(Work::Run(*observer, *row)),
            CallForm::Other(held) => match &held.step {
                Step::Begin(work) => Some(*work),
                _ => None,
            },
            _ => None,
        }
    }
}
