//! What every step keeps, and what holds of every legal journal: empty functions, so that a caller
//! has the law.
ghost use Rattle.pb_history.specs.Laws.{StepsKeepSound, OpeningIsSound, SoundHasData, JournalsAreSound};
ghost use Rattle.pb_history.specs.Laws.{TransactionsAreTold, StepsCanAnswer};
ghost use Rattle.pb_history.specs.Laws.{ReasonsRise, ClockIsLastGiven, FirstMarksAreFound, SweepsUnmark, QuietIsCounted};
ghost use Rattle.pb_history.specs.Laws.{StepsHaveOneOutcome};
ghost use Rattle.pb_history.specs.Laws.{HistoriesAreTold, ReadsAreTold, RunsAreCounted, RunsAreTold, ScriptsWriteBatches};
ghost use Rattle.pb_history.specs.Laws.{AcknowledgedIsEarlier, BehindIsMarked, HandledAtMostOnce, HandledWhenQuiet};
ghost use Rattle.pb_history.specs.Laws.{TimestampsRise, CommitsAreOrdered, ReadsTellSnapshots, WritersAreApart, RecordsAreTold};

/// The table is sound as it is opened, and every step keeps it so. Sound is how starts, commits,
/// prewritten cells, locks, write records and data go together, and what recorded reads still show.
pub fn steps_keep_sound()
    ensures step { StepsKeepSound }
    ensures opening { OpeningIsSound }
{}

/// What a step is answered is one of the answers of its kind.
pub fn steps_can_answer()
    ensures { StepsCanAnswer }
{}

/// Where a lock or a write record stands in a sound table, its data stand; no transaction began above its clock, and that
/// has 64 bits.
pub fn sound_has_data()
    ensures { SoundHasData }
{}

/// The committed transactions of a legal journal are those of the state that it leads to. What a declaration names is what
/// its transaction has declared, names each cell once, is known, and is for its work: a run's is of its observer, on a
/// record of the cell that it observes.
pub fn histories_are_told()
    ensures { HistoriesAreTold }
{}

/// A read of a legal journal that found a version, or none, returns what the table held up to its
/// start, or up to the timestamp that it named.
pub fn reads_are_told()
    ensures { ReadsAreTold }
{}

/// A committed run of a legal journal found its cell, in the snapshot at its start, newer than its
/// acknowledgment, and wrote this, with its start as the stamp, and then what its program means on
/// the record of what it read, with replies that are the same snapshot; where the record has it,
/// the value before is that of the snapshot at the acknowledged timestamp. What its program means
/// is nothing, or 1 to 16 distinct data cells.
pub fn runs_are_told()
    ensures { RunsAreTold }
{}

/// The starts and commits of a legal journal rise, from above the clock as opened up to that of the state.
pub fn timestamps_rise()
    ensures { TimestampsRise }
{}

/// Of each observer, a legal journal has as many committed runs as it has entries that begin one which the state has as
/// committed.
pub fn runs_are_counted()
    ensures { RunsAreCounted }
{}

/// A legal journal leads to a sound table, and so does every beginning of it. It has the observers that it was opened with.
pub fn journals_are_sound()
    ensures { JournalsAreSound }
{}

/// A transaction of a legal journal is committed above its start, and what begins after the answer starts above
/// that commit, so that it has it in its snapshot.
pub fn commits_are_ordered()
    ensures { CommitsAreOrdered }
{}

/// Every read of a legal journal that found a version, or none, returns what the snapshot at its
/// start has, or that at the timestamp that it named, which is none above its start. It is the
/// snapshot of the whole history, whatever was committed after the read. That is so of any
/// transaction, committed or not.
pub fn reads_tell_snapshots()
    ensures { ReadsTellSnapshots }
{}

/// The acknowledged timestamp that a read of a legal journal returns is at most the start of its
/// transaction.
pub fn acknowledged_is_earlier()
    ensures { AcknowledgedIsEarlier }
{}

/// Of two committed transactions of a legal journal that write one cell, one was committed before the other began.
pub fn writers_are_apart()
    ensures { WritersAreApart }
{}

/// A script's committed transaction writes a batch.
pub fn scripts_write_batches()
    ensures { ScriptsWriteBatches }
{}

/// A committed transaction of a legal journal has its lock or its write record on each cell that it wrote, and one that
/// isn't committed has a write record nowhere.
pub fn records_are_told()
    ensures { RecordsAreTold }
{}

/// What the table has of a transaction follows from the entries of a legal journal that name its start. That is its seat,
/// work, phase, reads in order, declared and prewritten cells. The first of these entries begins it, no later one does, and
/// all are of one seat.
pub fn transactions_are_told()
    ensures { TransactionsAreTold }
{}

/// A cell on which an observer isn't up to date is marked, after each legal journal, so that a pass
/// finds it.
pub fn behind_is_marked()
    ensures { BehindIsMarked }
{}

/// Each committed change is handled by at most one committed run of an observer, since all its runs write one
/// acknowledgment and don't overlap.
pub fn handled_at_most_once()
    ensures { HandledAtMostOnce }
{}

/// Where neither a mark nor a lock stands, each committed change of an observed cell is handled by a committed run of each
/// observer of its column. That is so of changes by scripts and by runs.
pub fn handled_when_quiet()
    ensures { HandledWhenQuiet }
{}

/// What holds of the history and state of every legal journal, in one law for those who have such a
/// journal. Each part is a law above.
pub fn journals_tell()
    ensures history { HistoriesAreTold }
    ensures versions { ReadsAreTold }
    ensures counts { RunsAreCounted }
    ensures timestamps { TimestampsRise }
    ensures order { CommitsAreOrdered }
    ensures snapshots { ReadsTellSnapshots }
    ensures writers { WritersAreApart }
    ensures runs { RunsAreTold }
    ensures scripts { ScriptsWriteBatches }
    ensures records { RecordsAreTold }
    ensures behind { BehindIsMarked }
    ensures most { HandledAtMostOnce }
    ensures quiet { HandledWhenQuiet }
{
    histories_are_told();
    reads_are_told();
    runs_are_counted();
    timestamps_rise();
    commits_are_ordered();
    reads_tell_snapshots();
    writers_are_apart();
    runs_are_told();
    scripts_write_batches();
    records_are_told();
    behind_is_marked();
    handled_at_most_once();
    handled_when_quiet();
}

/// The reasons to refuse a step are listed lowest number first, so that the first that applies is the lowest.
pub fn reasons_rise()
    ensures { ReasonsRise }
{}

/// The clock of a legal journal's state is the greatest timestamp that the journal gave out, or the clock as opened where it
/// gave out none.
pub fn clock_is_last_given()
    ensures { ClockIsLastGiven }
{}

/// `NextMark` answers the first marked cell after the given one, wherever there is one.
pub fn first_marks_are_found()
    ensures { FirstMarksAreFound }
{}

/// `Sweep` leaves no mark where all observers of the cell's column are up to date on it.
pub fn sweeps_unmark()
    ensures { SweepsUnmark }
{}

/// After a legal journal neither mark nor lock is counted exactly where neither stands, so that the
/// counts show that.
pub fn quiet_is_counted()
    ensures { QuietIsCounted }
{}

/// A step of a sound table has one answer, and leaves one state. The law is stated for sound
/// tables, since only soundness bounds the commit that `Clear` finds at a primary.
pub fn steps_have_one_outcome()
    ensures { StepsHaveOneOutcome }
{}
