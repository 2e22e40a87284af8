//! When a read is taken, and what it is answered.
ghost use Rattle.law_journals.specs.AcknowledgedVersions.{AcknowledgedVersionsAreFound};
ghost use Rattle.law_journals.specs.EarlierReads.{LaterLocksHideNothing, ReadsUpToTheStartAreTaken};

/// Where a transaction may read, a read at a timestamp up to its start is not refused, its start among them, and one above it is
/// refused with 49.
pub fn reads_up_to_the_start_are_taken()
    ensures { ReadsUpToTheStartAreTaken }
{}

/// Where each lock on a cell is of a start above the timestamp up to which it is read, the read returns the newest version up to
/// there, or that there is none, and never a lock. That is so of a read up to the start and of one up to an earlier timestamp.
pub fn later_locks_hide_nothing()
    ensures { LaterLocksHideNothing }
{}

/// After a legal journal in which a transaction found a cell newer than its acknowledgment, its read of that cell at the
/// acknowledged timestamp returns a version: no lock up to there stands, and the cell isn't absent. So no look of a run at the
/// value of before is `Locked`.
pub fn acknowledged_versions_are_found()
    ensures { AcknowledgedVersionsAreFound }
{}
