//! That replay is the same table: a law on changes that are kept, on which no other law is built.
//!
//! By `pb_keeper` some conversation of the only seat leads to a table that keeps changes. This law says that there is one such
//! table: made anew of the same changes, in the same order, from the same beginning and with the same limit of entries, it has
//! the same entries, marks, clock and transactions, acknowledgments and timestamps included. So a log of a limit, a snapshot and
//! changes stands for its table. Observers that it gets as it begins anew catch up in one way, too.
#![tactic(auto)]

ghost use Rattle.law_replays.specs.Replays.{CatchingUpHasOneOutcome, ReplayHasOneOutcome};

use pb_generations::snapshots_serve;
use pb_history::{steps_have_one_outcome, steps_keep_sound};
use pb_notify::machines_are_led;
use pb_sound::each_has_one_meaning;

/// Two tables that keep the same changes since a generation began with the same table and the same limit of entries are the
/// same, if the observers' programs are judged for records of a size that there is, as each is by `Accepted::known`.
pub fn replay_has_one_outcome()
    ensures { ReplayHasOneOutcome }
{
    steps_have_one_outcome();
    steps_keep_sound();
    snapshots_serve();
    each_has_one_meaning();
    machines_are_led();
}

/// Two tables that came from one, as it went on with some observers of a table that keeps changes, got the same others, and
/// these caught up, are the same, if all programs are judged so.
pub fn catching_up_has_one_outcome()
    ensures { CatchingUpHasOneOutcome }
{
    steps_have_one_outcome();
    steps_keep_sound();
    snapshots_serve();
    each_has_one_meaning();
    machines_are_led();
}
