//! Generations of a table are one: what a table does that was carried over is what the whole table would have done.
//!
//! A table that outlives its process need not keep all that ever was written. Where no lock stands on it,
//! it can begin anew with a snapshot: the newest version of each cell, acknowledgments too, and the
//! versions at what observers have acknowledged, which they may still read as the values before. It is
//! given a mark on each cell that one of them isn't up to date on. Its observers may be others then: some
//! stay, in any order, and keep what they have acknowledged; some go, and theirs go with them; and
//! for new ones all that was ever written is still to be handled.
//! These laws state that no later step of a job shows a difference, so that the past and what comes
//! later are one legal journal, and the promises of `pb_history` hold of all generations together. They
//! follow from the definition of a step (`pb_steps`), from the laws of journals (`pb_history`), and
//! from what a run of an observer asks (`pb_notify`); `pb_keeper` rests on them. For example, a
//! cell is written at 2 and again at 6, and a run of start 7 has handled both; a snapshot at 8
//! keeps the write of 6 and the acknowledgment 7. The next run reads the cell as of 7 for its value
//! of before, and finds the write of 6, although that of 2 is gone. No run handles 6 again.
#![tactic(auto)]

ghost use Rattle.pb_generations.specs.Chosen.{ChosenAreSound};
ghost use Rattle.pb_generations.specs.InTime.{ChangesAreInTime, MarksAreInTime, RefusalsCarryOver, RunsAreInTime};
ghost use Rattle.pb_generations.specs.KeptTables.{ChangesAskSteps, ChangesKeepTables, MarksKeepTables, RunsKeepTables};
ghost use Rattle.pb_generations.specs.KeptTables.{HandledOnceInAll, HandledWhenQuietInAll, WholeChangesKeepTables};
ghost use Rattle.pb_generations.specs.KeptTables.{KeptAnswersAreKnown, KeptTablesAreWhole, LaterWritesInAll};
ghost use Rattle.pb_generations.specs.KeptTables.{NewestInAll, RunsAskSteps};
ghost use Rattle.pb_generations.specs.KeptTables.{SnapshotsInAll, TimestampsRiseInAll};
ghost use Rattle.pb_generations.specs.KnownSteps.{ChangesNameKnown, RunsNameKnown};
ghost use Rattle.pb_generations.specs.LateSteps.{GenerationsAreOne, StepsCarryOver};
ghost use Rattle.pb_generations.specs.LeftOut.{MarksMissNothing, MirrorsWithoutOthers};
ghost use Rattle.pb_generations.specs.LeftOut.{OthersAreNeverMissed, OthersAreNeverNamed, OthersMayBeLeftOut};
ghost use Rattle.pb_generations.specs.LeftOut.{SameRefusals, SnapshotsServeWithoutOthers};
ghost use Rattle.pb_generations.specs.Mirrored.{OldMayBeDropped, QuietCarriesOver, QuietMirrorsItself};
ghost use Rattle.pb_generations.specs.Renumbered.{JournalsMayBeRenumbered, RenumberedAreQuiet};
ghost use Rattle.pb_generations.specs.Snapshots.{LeftAreSound};
ghost use Rattle.pb_generations.specs.Snapshots.{SnapshotsCarryOver, SnapshotsServe};
ghost use Rattle.pb_state.specs.SnapshotViews.{SnapshotsAreSound};

use pb_history::{
    handled_at_most_once, reads_tell_snapshots, sound_has_data, timestamps_rise,
    transactions_are_told,
};
use pb_notify::jobs_are_allowed;
use pb_txn::{plans_are_allowed, plans_converse};

/// A quiet table serves for itself, what is older than the versions at its clock may be dropped, and a carried table is quiet
/// exactly where the whole one is.
pub fn old_may_be_dropped()
    ensures itself { QuietMirrorsItself }
    ensures old { OldMayBeDropped }
    ensures quiet { QuietCarriesOver }
{
    sound_has_data();
}

/// A step of a carried table that names no transaction of before, and reads at no timestamp for which what was kept doesn't serve,
/// is one of the whole table, with the same answer. It serves at and above the version that was kept, and where the versions are
/// the same.
pub fn steps_carry_over()
    ensures { StepsCarryOver }
{}

/// What a carried table does is a legal journal of the whole one: its past, and then what came later.
pub fn generations_are_one()
    ensures { GenerationsAreOne }
{
    steps_carry_over();
}

/// A snapshot of a table without locks serves for it, and a state may be opened with one: with what is left of the transactions that
/// wrote its versions it is a sound table. So is what was chosen of one for other observers.
pub fn snapshots_serve()
    ensures serve { SnapshotsServe }
    ensures sound { SnapshotsAreSound }
    ensures left { LeftAreSound }
    ensures chosen { ChosenAreSound }
{
    old_may_be_dropped();
    sound_has_data();
}

/// What shows all that may still be viewed of a carried table shows it of the whole one, so that generations follow one another.
pub fn snapshots_carry_over()
    ensures { SnapshotsCarryOver }
{}

/// What a run of an observer asks next reads its cell at no timestamp but the one that it read as acknowledged there, and a change
/// asks for no read at a timestamp.
pub fn jobs_ask_steps()
    ensures runs { RunsAskSteps }
    ensures changes { ChangesAskSteps }
{
    plans_converse();
}

/// The observers of a table may get other numbers, no two the same one: but for steps of marks, the renumbered journal is a legal
/// one of a table that was opened with a list in which they have these. That table is quiet, but for its marks, where the old one
/// is. It is for a table that gets another list, in which some stand elsewhere, and those that are gone stand after all others.
pub fn journals_may_be_renumbered()
    ensures journals { JournalsMayBeRenumbered }
    ensures quiet { RenumberedAreQuiet }
{}

/// The last observers of a table may be left out where no lock stands, with all of their acknowledgments. No later step that names
/// none of these, and no transaction of before, shows a difference: it is one of the whole table too, with the same answer, or it is
/// refused for the same reason. It is for a table whose new list lacks some observers: where these stand last, after the others
/// got their new numbers, the table doesn't keep their acknowledgments.
pub fn others_may_be_left_out()
    ensures begin { OthersMayBeLeftOut }
    ensures steps { OthersAreNeverMissed }
    ensures answers { OthersAreNeverNamed }
    ensures marks { MarksMissNothing }
    ensures refusals { SameRefusals }
{
    sound_has_data();
}

/// What a run of an observer that stays asks next names none of the others' acknowledgments, where no lock that it was answered has
/// one of them as its primary; and what a change of data cells asks next names none.
pub fn jobs_name_known_cells()
    ensures runs { RunsNameKnown }
    ensures changes { ChangesNameKnown }
{
    plans_converse();
}

/// A table without some of its observers mirrors itself where the whole one does, and what shows all that may be viewed of it serves
/// for it. So it may begin a generation, although no legal journal has led to it.
pub fn snapshots_serve_without_others()
    ensures itself { MirrorsWithoutOthers }
    ensures serve { SnapshotsServeWithoutOthers }
{
    old_may_be_dropped();
    sound_has_data();
}

/// A table that is opened, takes the steps of jobs, and where no lock stands begins anew with a snapshot, also with other observers, any
/// number of times, stands for a whole table, which has the observers that are gone after its own. But for steps of marks, the
/// journal of all its generations, with the numbers that observers have by now, is a legal one that leads to that. No lock that is
/// answered to a job has an acknowledgment of an observer that is gone as its primary.
pub fn kept_tables_are_whole()
    ensures whole { KeptTablesAreWhole }
    ensures answers { KeptAnswersAreKnown }
{
    journals_may_be_renumbered();
    old_may_be_dropped();
    others_may_be_left_out();
    snapshots_carry_over();
    snapshots_serve_without_others();
    sound_has_data();
    steps_carry_over();
}

/// A table that is kept over generations is one after each run of an observer and each change, as far as these went, and after the
/// next mark was asked for.
pub fn jobs_keep_tables()
    ensures runs { RunsKeepTables }
    ensures changes { ChangesKeepTables }
    ensures whole { WholeChangesKeepTables }
    ensures marks { MarksKeepTables }
{
    jobs_ask_steps();
    jobs_name_known_cells();
    kept_tables_are_whole();
    plans_converse();
}

/// A step that names no transaction of before is refused by a carried table for the same reason as by the whole one.
pub fn refusals_carry_over()
    ensures { RefusalsCarryOver }
{}

/// In a table of one seat that is kept over generations, the next step of a run of an observer or of a change is refused only
/// where no timestamp is left, and the next mark may be asked for at any time.
pub fn jobs_are_in_time()
    ensures runs { RunsAreInTime }
    ensures changes { ChangesAreInTime }
    ensures marks { MarksAreInTime }
{
    jobs_are_allowed();
    jobs_ask_steps();
    jobs_keep_tables();
    jobs_name_known_cells();
    kept_tables_are_whole();
    others_may_be_left_out();
    plans_are_allowed();
    plans_converse();
    refusals_carry_over();
    transactions_are_told();
}

/// Over all generations no change is handled by two committed runs of one observer, where one that was gone and came back is
/// another; where the table is quiet each is handled by every observer that it has; each read returns its snapshot of the whole
/// history; what is newest of an unlocked cell is the newest write of that history, and each write since the last generation began is
/// there, but for acknowledgments of observers that are gone; and timestamps rise.
pub fn promises_hold_over_generations()
    ensures once { HandledOnceInAll }
    ensures handled { HandledWhenQuietInAll }
    ensures snapshots { SnapshotsInAll }
    ensures newest { NewestInAll }
    ensures later { LaterWritesInAll }
    ensures timestamps { TimestampsRiseInAll }
{
    handled_at_most_once();
    kept_tables_are_whole();
    reads_tell_snapshots();
    timestamps_rise();
}
