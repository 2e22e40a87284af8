//! What holds of the records of all snapshots.
ghost use Rattle.pb_snapshots.specs.RecordLaws.{RecordsAreOfOneSnapshot, SnapshotsAreNoTexts};

/// A record is of one snapshot: no two have the same bytes.
pub fn records_are_of_one_snapshot()
    ensures { RecordsAreOfOneSnapshot }
{}

/// No record of a snapshot is UTF-8, so that none is a script.
pub fn snapshots_are_no_texts()
    ensures { SnapshotsAreNoTexts }
{}
