//! What happens in a world has one outcome: laws, on which nothing is built, so that they make no crate wait for them.
//!
//! `pb_world` says by a relation what an event may come to, so that its contracts need not say how.
//! That could allow two outcomes, and then a replay would report one of several. These laws say
//! that it doesn't: from a sound world an event has one note and leaves one world, and so has a
//! list of events, up to its fault. So the schedule of `examples/crash.schedule` leaves one world,
//! as often as it is replayed. Memory alone is outside: any event may be refused it.
#![tactic(auto)]

ghost use Rattle.law_worlds.specs.Outcomes.{OpenedWorldsAreSound, EventsHaveOneOutcome, RunsHaveOneOutcome};
ghost use Rattle.law_worlds.specs.Outcomes.{FaultsHaveOnePlace, WholeRunsHaveNoFault};

use pb_history::{journals_are_sound, steps_have_one_outcome};
use pb_notify::machines_are_led;
use pb_sound::each_has_one_meaning;
use pb_world::worlds_stay_sound;

/// A world is sound as it is opened, so that the laws below speak of all that happens in it.
pub fn opened_worlds_are_sound()
    ensures { OpenedWorldsAreSound }
{}

/// An event of a sound world has one note, and leaves one world: a launch makes one job, an instruction of a machine leads to
/// one place, a call has one answer.
pub fn events_have_one_outcome()
    ensures { EventsHaveOneOutcome }
{
    steps_have_one_outcome();
    journals_are_sound();
    machines_are_led();
    each_has_one_meaning();
}

/// A list of events of a sound world has one list of notes, and leaves one world.
pub fn runs_have_one_outcome()
    ensures { RunsHaveOneOutcome }
{
    events_have_one_outcome();
    worlds_stay_sound();
}

/// Whether a list of events of a sound world happens to the last, and else at which event it stops
/// and with which number, follows from the world and the list, but for memory. Two stops for
/// another reason are one, and none is of a list that happens to the last.
pub fn faults_have_one_place()
    ensures one { FaultsHaveOnePlace }
    ensures none { WholeRunsHaveNoFault }
{
    events_have_one_outcome();
    runs_have_one_outcome();
    worlds_stay_sound();
}
