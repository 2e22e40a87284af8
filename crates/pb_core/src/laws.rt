//! What holds of every table with a legal journal, in one law for those who have such a table. It
//! follows from the laws of journals in `pb_history`.
ghost use Rattle.pb_core.specs.Calls.{SharedOf};
ghost use Rattle.pb_core.specs.Histories.{IsLegalTable, IsSnapshotHistory, HandlesOnce};
ghost use Rattle.pb_history.specs.RecordsTold.{TellsRecords};

use pb_history::journals_tell;

/// The committed transactions of a legal table are a legal snapshot history. One has its lock or its write record on each cell
/// that it wrote, and what isn't committed has a write record nowhere. Each committed change of an observed column is handled by
/// at most one committed run of each observer of the column, and by one where no mark and no lock is left.
pub fn legal_tables_tell()
    ensures history { (s : SharedOf) → IsLegalTable s → IsSnapshotHistory s }
    ensures records { (s : SharedOf) → IsLegalTable s → TellsRecords s.journal s.state }
    ensures once { (s : SharedOf) → IsLegalTable s → HandlesOnce s }
{
    journals_tell();
}
