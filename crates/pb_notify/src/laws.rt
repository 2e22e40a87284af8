//! What the steps of a run are, and that the table takes them.
ghost use Rattle.pb_notify.specs.Forms.{JobsConverse, JobsEnd};
ghost use Rattle.pb_notify.specs.Led.{MachinesAreLed, AsksAreOpen, EndedRunsMean};
ghost use Rattle.pb_notify.specs.Allowed.{JobsAreAllowed, RunsAreKept};

use pb_history::{acknowledged_is_earlier, journals_are_sound, transactions_are_told};
use pb_txn::{plans_are_allowed, plans_converse};

/// What a job has asked is a beginning of a run's conversation, and at its end a whole one, whose
/// declared run is what its program means. It is its begin and a look at the cell, or at the cell
/// and its acknowledgment, where nothing is newer, and then a sweep. Or it is these looks, a look
/// at each cell that was asked for, with the replies of the declared run, and a transaction's
/// conversation of that run, with a sweep where it committed. Or it is a beginning of one, up to
/// the 64th read that met a lock.
pub fn jobs_converse()
    ensures converses { JobsConverse }
    ensures ends { JobsEnd }
{
    plans_converse();
}

/// The machine of a job stands where its program led it from entry, at every placement, on the
/// record of what the job read and with the replies that it read. It has exactly the asks that the
/// job looked at. The conversation since the last reply is empty while it computes, and a beginning
/// of one look at that cell while it asks; once it has ended, the conversation since is its plan's.
pub fn machines_are_led()
    ensures led { MachinesAreLed }
    ensures open { AsksAreOpen }
    ensures ended { EndedRunsMean }
{
    plans_converse();
}

/// Where the entries of a legal journal that name a run's start are those of its job, the job's next step is refused
/// only where no timestamp is left. They are its job's where the seat's entries end with what the job asked. So none
/// of 41 to 43, 45 to 47 and 49 comes: no other seat's entries name the start, and none of that seat's before it.
pub fn jobs_are_allowed()
    ensures allowed { JobsAreAllowed }
    ensures kept { RunsAreKept }
{
    plans_converse();
    plans_are_allowed();
    transactions_are_told();
    journals_are_sound();
    acknowledged_is_earlier();
}
