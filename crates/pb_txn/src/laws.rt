//! What the steps of plans are, and that the table takes them.
ghost use Rattle.pb_txn.specs.Forms.{PlansConverse, PlansEnd, PlansStop};
ghost use Rattle.pb_txn.specs.Changes.{ChangesConverse, ChangesEnd};
ghost use Rattle.pb_txn.specs.Allowed.{PlansAreAllowed};

use pb_history::{histories_are_told, journals_are_sound, transactions_are_told};

/// What a plan has asked is a beginning of a transaction's conversation, and at its end a whole
/// one. Without a next step it is at its end. There are four. It declares, prewrites every cell, is
/// stamped, and commits the primary and then the others. Or it meets a conflict on the primary, and
/// that is all. Or it meets one on a later cell, and settles its primary and clears the others that
/// it prewrote. Or it loses its primary, and clears the others.
pub fn plans_converse()
    ensures converses { PlansConverse }
    ensures ends { PlansEnd }
    ensures stops { PlansStop }
{}

/// What a change has asked is its begin, and then a beginning of a transaction's conversation; at its end a whole one.
pub fn changes_converse()
    ensures converses { ChangesConverse }
    ensures ends { ChangesEnd }
{}

/// Where the entries of a legal journal that name a start, reads aside, are those of its plan, the plan's next step
/// isn't refused with 42, 45 or 46.
pub fn plans_are_allowed()
    ensures { PlansAreAllowed }
{
    histories_are_told();
    transactions_are_told();
    journals_are_sound();
}
