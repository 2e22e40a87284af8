//! What holds of all logs of changes: empty functions, so that a caller has the laws.
ghost use Rattle.pb_keep.specs.Laws.{CompactionsGoOn, FilesHaveOneList, GoodLogsOpen, LinesSurvive};

use pb_log::files_have_one_reading;
use pb_snapshots::{records_are_of_one_snapshot, snapshots_begin};

/// Any bytes of a file are a log that begins with one snapshot, or with none, and has one list of changes; or they are no log.
pub fn files_have_one_list()
    ensures { FilesHaveOneList }
{
    files_have_one_reading();
    records_are_of_one_snapshot();
}

/// What is opened after a crash has the changes of the first lines that were sent, with all that are answered. And what is opened with the
/// log of a compaction goes on as the table that was compacted: it begins the next generation of that, and has no change yet.
pub fn opened_logs_go_on()
    ensures survive { LinesSurvive }
    ensures compacted { CompactionsGoOn }
{
    files_have_one_list();
    snapshots_begin();
}

/// A log that has changes, ends as puts leave it, and begins with no snapshot of a table with other observers, is refused by `Keeper::open`
/// only for want of memory, where a call of the disk failed, or where the last timestamp is given out.
pub fn good_logs_open()
    ensures { GoodLogsOpen }
{
    files_have_one_reading();
}
