//! What holds in every world, whatever the order of its events.
ghost use Rattle.pb_world.specs.Headline.{WorldsHold, RunsJoin, RunsPart};
ghost use Rattle.pb_world.specs.Sound.{EventsKeepSound};
ghost use Rattle.pb_world.specs.GivenJobs.{JobsAreGiven, BusyActorsAreLeft, BusyActorsAreTold, RefusedJobsEnd};

use pb_core::legal_tables_tell;
use pb_notify::{jobs_converse, machines_are_led};
use pb_sound::accepted_are_never_stuck;
use pb_txn::changes_converse;

/// Whatever events happen, a sound world stays sound: its journal is legal, each seat has its entries of it, and each
/// actor's job stands where its seat's answers led it since the launch.
pub fn worlds_stay_sound()
    ensures { EventsKeepSound }
{}

/// Whatever events happen in an opened world, an actor's job is what its last launch was for, and isn't at its end: it
/// is gone with a refused step, with its last step, and with a crash. While an actor has one, a launch of it is at
/// fault with 61.
pub fn actors_hold_their_launch()
    ensures given { JobsAreGiven }
    ensures busy { BusyActorsAreLeft }
    ensures told { BusyActorsAreTold }
    ensures refused { RefusedJobsEnd }
{}

/// Whatever events happen in an opened world, this holds after each of them. The machine of each
/// actor's run is a state of the definitions, reached from entry at every placement with replies
/// that are the reads of its transaction, isn't stuck, and has done fewer instructions than its
/// program has slots. An actor's conversation is a beginning of one of the forms, and the journal's
/// entries of its seat since the launch. The committed transactions are a legal snapshot history.
/// Each committed change of an observed column is handled by at most one committed run of each
/// observer of that column, and by one when no mark and no lock is left. The same holds after each
/// event, after several lists, and after a fault, which leaves the events before it. While a
/// machine computes, nothing was read beyond what it was given. While it asks, its next instruction
/// asks for the cell that is looked at. Once it has ended, what its run means is what its plan
/// declares. A cell on which an observer isn't up to date is marked.
pub fn worlds_hold()
    ensures holds { WorldsHold }
    ensures join { RunsJoin }
    ensures part { RunsPart }
{
    accepted_are_never_stuck();
    jobs_converse();
    machines_are_led();
    changes_converse();
    legal_tables_tell();
}
