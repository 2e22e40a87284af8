//! Worlds, and the events that happen in them.
ghost use Rattle.std.specs.Prelude.{◌≡◌, ◌<◌, ◌≤◌, ◌++◌, ◌∷◌, [], length, IfOk, OnOk, vec_len, vec_capacity};
ghost use Rattle.pb_world.specs.Events.{idle_actors};

use crate::actor::{Actor, NotCalled, call, crash, launch, step_actor};
use crate::fault::{EventFault, WorldFault};
use crate::job::ActorJob;
use crate::note::Note;
use pb_base::{Batch, NoMemory};
use pb_core::{Seat, Shared};
use pb_notify::ObserverJob;
use pb_parse::{Event, Job};
use pb_steps::Step;
use pb_store::Tablet;
use pb_txn::ChangeJob;
use std::alloc::Global;
use std::marker::Model;
use std::sync::Arc;

/// A shared table with its seats, the changes that may be launched, and an actor for each seat but the first, by whose
/// number it goes. Seat 0 takes the steps of no actor.
///
/// A world ends by `close` alone.
pub struct World<T: Tablet> {
    shared: Shared<T>,
    seats: Vec<Seat>,
    actors: Vec<Actor>,
    batches: Vec<Batch>,
}

impl<T: Tablet> Model for World<T> {
    ghost use Rattle.pb_world.specs.Events.{WorldOf, IsWorld};

    ghost Value = { WorldOf };

    ghost use Rattle.pb_world.specs.Codes.{world_code};

    ghost coded = { world_code };

    ghost view = { λ w. record { shared = w.shared; seats = w.seats.items; actors = w.actors.items; batches = w.batches.items } };

    ghost invariant = { λ w. IsWorld (record { shared = w.shared; seats = w.seats.items; actors = w.actors.items; batches = w.batches.items }) };
}

// So many actors without job. Seat 0 has one too, so that an actor stands at the place of its seat.
fn idle_actors(alloc: Global, count: usize) -> Result<Vec<Actor>, NoMemory>
    ensures { IfOk result (λ v. v.items ≡ idle_actors count) }
{
    let mut actors = Vec::new(alloc);
    for _ in 0..count {
        actors.push(Actor {
            launched: 0,
            job: None,
        })?;
    }
    Ok(actors)
}

// Room for so many notes, made before the first event, so that none is refused once its event has happened.
fn room_for(alloc: Global, count: usize) -> Result<Vec<Note>, NoMemory>
    ensures items { IfOk result (λ v. v.items ≡ []) }
    ensures room { IfOk result (λ v. count ≤ vec_capacity v) }
{
    let mut notes = Vec::new(alloc);
    notes.reserve(count)?;
    Ok(notes)
}

// One item more, where there is room for it.
fn append<X: Drop>(list: &mut Vec<X>, item: X)
    requires { vec_len list.old < vec_capacity list.old }
    ensures items { list.new.items ≡ list.old.items ++ item ∷ [] }
    ensures room { vec_capacity list.old ≤ vec_capacity list.new }
{
    list.push(item).unwrap();
}

impl<T: Tablet> World<T> {
    ghost use Rattle.std.specs.Prelude.{◌≡◌, ◌⊎◌, None, Some, MatchOption, MatchResult, IfOk, IfErr, length};
    ghost use Rattle.pb_core.specs.Calls.{AreSeats};
    ghost use Rattle.pb_world.specs.Headline.{IsOpened};
    ghost use Rattle.pb_world.specs.Faults.{fault_code, memory_fault};
    ghost use Rattle.pb_world.specs.Jobs.{IsReady};
    ghost use Rattle.pb_world.specs.Events.{idle_actors, actor_of, held_job, change_of, job_for, no_job, no_actor, OwnCalls, OwnMayWant, TriesEvent, RunsTo, StopsAtEvent};
    ghost use Rattle.pb_parse.specs.declared.event.Event.TheVariants as events;

    /// A world over a table with all its seats, in order, where these changes may be launched. Its actors have no job.
    ///
    /// Refused for memory, it hands all back.
    pub fn open(
        alloc: Global,
        shared: Shared<T>,
        seats: Vec<Seat>,
        batches: Vec<Batch>,
    ) -> Result<World<T>, (Shared<T>, Vec<Seat>, Vec<Batch>, NoMemory)>
        requires { AreSeats shared seats.items }
        ensures ok { IfOk result (λ w. w ≡ record {
          shared = shared;
          seats = seats.items;
          actors = idle_actors
              (length seats.items);
          batches = batches.items;
        }) }
        ensures opened { IfOk result IsOpened }
        ensures handed_back { IfErr result (λ p. (p.0 ≡ shared)
            × (p.1 ≡ seats) × (p.2 ≡ batches)) }
    {
        prove!(shared.seats() > 0);
        // For the proof: the journal is legal.
        shared.known();
        match idle_actors(alloc, seats.len()) {
            Ok(actors) => Ok(World {
                shared,
                seats,
                actors,
                batches,
            }),
            Err(refused) => Err((shared, seats, batches, refused)),
        }
    }

    /// The table.
    pub fn shared(&self) -> &Shared<T>
        ensures { result.now ≡ self.now.shared }
    {
        &self.shared
    }

    /// Ends the world. It takes no memory.
    pub fn close(self) -> (Shared<T>, Vec<Seat>)
        ensures shared { result.0 ≡ self.shared }
        ensures seats { result.1.items ≡ self.seats }
    {
        let World {
            shared,
            seats,
            actors: _,
            batches: _,
        } = self;
        (shared, seats)
    }

    // The actor of this number, from 1, since seat 0 takes no actor's steps.
    fn actor(&self, number: u32) -> Option<&Actor>
        ensures { MatchOption result (actor_of self.now number ≡ None)
            (λ a. actor_of self.now number ≡ Some a.now) }
    {
        if number == 0 {
            None
        } else {
            self.actors.get(number as usize)
        }
    }

    /// The job of the actor of this number, where there is such an actor and it has one.
    pub fn job(&self, number: u32) -> Option<&ActorJob>
        ensures { MatchOption result (held_job self.now number ≡ None)
            (λ j. held_job self.now number ≡ Some j.now) }
    {
        self.actor(number)?.job.as_ref()
    }

    // The change of this number, from 1.
    fn change(&self, number: u32) -> Option<&Batch>
        ensures { MatchOption result (change_of self.now.batches number ≡ None)
            (λ b. change_of self.now.batches number ≡ Some b.now) }
    {
        if number == 0 {
            None
        } else {
            self.batches.get(number as usize - 1)
        }
    }

    // The place of the actor of this number, if there is one.
    fn place(&self, number: u32) -> Result<usize, EventFault>
        ensures { MatchResult result
            (λ at. (at ≡ number) × (no_actor (actor_of self.now at) ≡ None))
            (λ f. no_actor (actor_of self.now number) ≡ Some f) }
    {
        match self.actor(number) {
            Some(_) => Ok(number as usize),
            None => Err(EventFault::NoSuchActor),
        }
    }

    // The job of a launch, before its first step, where there is such a change or observer.
    fn make(&self, alloc: Global, job: &Job) -> Result<ActorJob, EventFault>
        ensures job { IfOk result (λ j. job_for self.now job.now ≡ Some j) }
        ensures ready { IfOk result IsReady }
        ensures fault { IfErr result (λ f.
            ((f ≡ memory_fault) × (no_job (job_for self.now job.now) ≡ None))
            ⊎ (no_job (job_for self.now job.now) ≡ Some f)) }
    {
        match job {
            Job::Change(number) => {
                let batch = self.change(*number).ok_or(EventFault::NoSuchJob)?;
                // A copy, since the same change may be launched again.
                let batch = batch.copy().map_err(EventFault::NoMemory)?;
                // For the proof: a batch has some cells, each named once.
                batch.known();
                match ChangeJob::new(alloc, batch) {
                    Ok(job) => Ok(ActorJob::Change(job)),
                    Err((_, refused)) => Err(EventFault::NoMemory(refused)),
                }
            }
            Job::Run(number, row) => {
                let Some(observer) = self.shared.observers().get(number.number() as usize) else {
                    return Err(EventFault::NoSuchJob);
                };
                let program = Arc::try_clone(&observer.program).map_err(NoMemory::from);
                let program = program.map_err(EventFault::NoMemory)?;
                // For the proof: the rules accept it.
                program.known();
                let job = ObserverJob::new(*number, program, *row, observer.column);
                Ok(ActorJob::Run(job))
            }
        }
    }

    // An actor gets a job. It is made first, so that a refused growth leaves the actor as it was.
    fn launch(&mut self, alloc: Global, number: u32, job: &Job) -> Result<Note, EventFault>
        ensures { TriesEvent self.old (events.Launch number job.now) result self.new }
    {
        let at = self.place(number)?;
        if self.actors[at].job.is_some() {
            return Err(EventFault::Busy);
        }
        let made = self.make(alloc, job)?;
        let said = self.seats[at].received().len();
        launch(&mut self.actors[at], said, made);
        Ok(Note::Launched)
    }

    // One step of an actor, by the seat of its number.
    fn step(&mut self, alloc: Global, number: u32) -> Result<Note, EventFault>
        ensures { TriesEvent self.old (events.Step number) result self.new }
    {
        let at = self.place(number)?;
        let seat = &mut self.seats[at];
        let actor = &mut self.actors[at];
        match step_actor(alloc, &mut self.shared, seat, actor) {
            Ok(note) => Ok(note),
            Err(refused) => Err(EventFault::NoMemory(refused)),
        }
    }

    // An actor loses its job; table and seats stay.
    fn crash(&mut self, number: u32) -> Result<Note, EventFault>
        ensures { TriesEvent self.old (events.Crash number) result self.new }
    {
        let at = self.place(number)?;
        Ok(crash(&mut self.actors[at]))
    }

    // A step of no actor, by seat 0.
    fn own_call(&mut self, step: &Step) -> Result<Note, EventFault>
        ensures { MatchResult result (λ n. OwnCalls self.old step.now n self.new)
            (λ f. (self.new ≡ self.old) × (f ≡ memory_fault) × OwnMayWant self.old step.now) }
    {
        match call(&mut self.shared, &mut self.seats[0], step) {
            Ok(answer) => Ok(Note::Called(answer)),
            Err(NotCalled::Refused(code)) => Ok(Note::Refused(code)),
            Err(NotCalled::NoMemory(refused)) => Err(EventFault::NoMemory(refused)),
        }
    }

    // One event. At fault, it did nothing, since each kind of event looks for what it needs before it does anything.
    fn event(&mut self, alloc: Global, event: &Event) -> Result<Note, EventFault>
        ensures { TriesEvent self.old event.now result self.new }
    {
        match event {
            Event::Launch(number, job) => self.launch(alloc, *number, job),
            Event::Step(number) => self.step(alloc, *number),
            Event::Crash(number) => self.crash(*number),
            Event::Settle(cell) => self.own_call(&Step::Settle(*cell)),
            Event::Clear(cell) => self.own_call(&Step::Clear(*cell)),
            Event::Sweep(cell) => self.own_call(&Step::Sweep(*cell)),
        }
    }

    /// Lets the events happen in order, and answers a note for each.
    ///
    /// The fault names the first event that can't happen: 60 there is no such actor, 61 the actor
    /// of a launch has a job, 63 there is no such change or observer, 1 memory was refused. The
    /// events before it stand, and it did nothing. A launch makes the job and takes no step. A step
    /// is one instruction of the job's machine, or the one call of the table that comes next, which
    /// the table answers or, refusing it, ends the job. A crash loses the job alone. `settle`,
    /// `clear` and `sweep` are calls of seat 0. Nothing else changes. Want of memory is reported
    /// for the notes at the first event, and else at one that could happen and may want some.
    pub fn run(&mut self, alloc: Global, events: &[Event]) -> Result<Vec<Note>, WorldFault>
        ensures ok { IfOk result (λ ns. RunsTo self.old events.now ns.items self.new) }
        ensures err { IfErr result (λ f. StopsAtEvent self.old events.now f.event
            (fault_code f.fault) self.new) }
    {
        let mut notes = match room_for(alloc, events.len()) {
            Ok(notes) => notes,
            Err(refused) => return Err(fault_at(0, EventFault::NoMemory(refused))),
        };
        for event in events {
            match self.event(alloc, event) {
                Ok(note) => append(&mut notes, note),
                Err(fault) => return Err(fault_at(notes.len(), fault)),
            }
        }
        Ok(notes)
    }
}

// The fault of the event at this place of the list.
fn fault_at(event: usize, fault: EventFault) -> WorldFault
    ensures { result ≡ record { event = event; fault = fault } }
{
    WorldFault { event, fault }
}
