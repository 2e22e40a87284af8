//! Actors, and what one step does to them and to the table. No two have one seat, so that what came in at a seat
//! since the launch is the conversation of one job.
ghost use Rattle.std.specs.Prelude.{◌≡◌, None, Some, MatchOption, MatchResult, IfOk, IfErr, OnErr, OnOk};
ghost use Rattle.pb_steps.specs.Answers.{CanAnswer};
ghost use Rattle.pb_core.specs.Calls.{Calls, call_reason};
ghost use Rattle.pb_world.specs.Actors.{IsRefusedBy, AsksNothing, Answers, IsNotAnswered, JobSteps, ActorSteps, OnNote, JobMayWant, ActorMayWant, launched, crashed, crash_note};
ghost use Rattle.pb_world.specs.Jobs.{unless_over};
ghost use Rattle.pb_world.specs.declared.note.Note.TheVariants.{Called};

use crate::job::ActorJob;
use crate::note::Note;
use pb_base::NoMemory;
use pb_core::{Seat, Shared};
use pb_steps::{Answer, Step};
use pb_store::Tablet;
use std::alloc::Global;

/// An actor. The length of its seat's list when it was launched is kept, since what its job has said comes after
/// that.
#[derive(Drop)]
pub struct Actor {
    pub launched: usize,
    pub job: Option<ActorJob>,
}

/// Why a call wasn't answered.
pub enum NotCalled {
    /// A growth was refused.
    NoMemory(NoMemory),
    /// The number of the refusal, 40 to 47 or 49.
    Refused(u8),
}

/// One call of the table. Want of memory is kept apart from the other refusals, since it doesn't
/// end a job.
pub fn call<T: Tablet>(
    shared: &mut Shared<T>,
    seat: &mut Seat,
    step: &Step,
) -> Result<Answer, NotCalled>
    ensures ok { IfOk result (λ a. Calls shared.old seat.old step.now a shared.new seat.new) }
    ensures allowed { OnOk result (call_reason shared.old seat.old.number step.now ≡ None) }
    ensures can { IfOk result (λ a. CanAnswer step.now a) }
    ensures refused { IfErr result (IsRefusedBy shared.old seat.old.number step.now) }
    ensures table { OnErr result (shared.new ≡ shared.old) }
    ensures seat { OnErr result (seat.new ≡ seat.old) }
{
    match shared.call(seat, step) {
        Ok(answer) => Ok(answer),
        Err(refusal) => match refusal.memory() {
            Ok(refused) => Err(NotCalled::NoMemory(refused)),
            Err(code) => Err(NotCalled::Refused(code)),
        },
    }
}

// The job's next step is asked, if it has one.
fn ask<T: Tablet>(
    shared: &mut Shared<T>,
    seat: &mut Seat,
    job: &ActorJob,
) -> Option<Result<Answer, NotCalled>>
    ensures { MatchOption result (AsksNothing shared.old seat.old job.now shared.new seat.new)
        (λ r. MatchResult r
        (Answers shared.old seat.old job.now shared.new seat.new)
        (IsNotAnswered shared.old seat.old job.now shared.new seat.new)) }
{
    let step = job.next()?;
    Some(call(shared, seat, step))
}

// What a step leaves of a job. Note and job are apart, since a job that was refused memory stays.
struct AfterStep {
    note: Result<Note, NoMemory>,
    job: Option<ActorJob>,
}

fn after_step(note: Result<Note, NoMemory>, job: Option<ActorJob>) -> AfterStep
    ensures { result ≡ record { note = note; job = job } }
{
    AfterStep { note, job }
}

fn call_note(answer: &Answer) -> Note
    ensures { result ≡ Called answer.now }
{
    Note::Called(*answer)
}

// A job that is over is gone, so that its actor can be launched again.
fn keep_unless_over(job: ActorJob) -> Option<ActorJob>
    ensures { result ≡ unless_over job }
{
    if job.is_over() { None } else { Some(job) }
}

// One instruction or one call of a job. Refused for memory, all is as before.
fn step_job<T: Tablet>(
    alloc: Global,
    shared: &mut Shared<T>,
    seat: &mut Seat,
    mut job: ActorJob,
) -> AfterStep
    ensures { OnNote result.note
        (λ n. JobSteps shared.old seat.old job (record {
          note = n;
          table = shared.new;
          seat = seat.new;
          job = result.job;
        }))
        ((shared.new ≡ shared.old)
        × (seat.new ≡ seat.old) × (result.job ≡ Some job)
        × JobMayWant shared.old seat.old.number job) }
{
    if job.is_local() {
        return match job.local(alloc) {
            Ok(()) => after_step(Ok(Note::Instruction), Some(job)),
            Err(e) => after_step(Err(e), Some(job)),
        };
    }
    match ask(shared, seat, &job) {
        None => after_step(Ok(Note::Idle), None),
        Some(Ok(answer)) => {
            let note = call_note(&answer);
            job.took(answer);
            after_step(Ok(note), keep_unless_over(job))
        }
        // The job ends as by a crash: what its transaction left stays for others to clear.
        Some(Err(NotCalled::Refused(code))) => after_step(Ok(Note::Refused(code)), None),
        Some(Err(NotCalled::NoMemory(refused))) => after_step(Err(refused), Some(job)),
    }
}

/// One step of an actor. Refused for memory, all is as before.
pub fn step_actor<T: Tablet>(
    alloc: Global,
    shared: &mut Shared<T>,
    seat: &mut Seat,
    actor: &mut Actor,
) -> Result<Note, NoMemory>
    ensures { OnNote result
        (λ n. ActorSteps shared.old seat.old actor.old n shared.new seat.new actor.new)
        ((shared.new ≡ shared.old)
        × (seat.new ≡ seat.old) × (actor.new ≡ actor.old)
        × ActorMayWant shared.old seat.old.number actor.old) }
{
    // The job is taken out, since the step may end it.
    match actor.job.take() {
        None => Ok(Note::Idle),
        Some(job) => {
            let AfterStep { note, job } = step_job(alloc, shared, seat, job);
            actor.job = job;
            note
        }
    }
}

/// An actor gets a job, when its seat's list has this length.
pub fn launch(actor: &mut Actor, said: usize, job: ActorJob)
    ensures { actor.new ≡ launched said job }
{
    actor.launched = said;
    actor.job = Some(job);
}

/// An actor loses its job, if it has one. The table isn't called, so that its locks stay for others
/// to clear.
pub fn crash(actor: &mut Actor) -> Note
    ensures note { result ≡ crash_note actor.old.job }
    ensures job { actor.new ≡ crashed actor.old }
{
    match actor.job.take() {
        None => Note::Idle,
        Some(_) => Note::Crashed,
    }
}
