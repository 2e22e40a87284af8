//! Accepted programs are never stuck: where the rules hold, the machine of the definitions goes on, at every placement
//! alike, and a machine that tests nothing does the same.
//!
//! Laws alone: an accepted program is never stuck, at any placement, ends, has one meaning, and
//! writes nothing or what a batch could. They stand apart from the machine above, so that an edit
//! of it has none of them checked again. `pb_vm` cites them for its contracts, and `pb_world` for
//! the headline. Take a program that loads the record's byte 16 and exits. By these laws the byte
//! is there at every placement, since the frame before slot 0 has R1 at the record's first byte;
//! and each run ends after two instructions, with one result.
#![tactic(auto)]

ghost use Rattle.pb_sound.specs.NeverStuck.{AcceptedAreNeverStuck};
ghost use Rattle.pb_sound.specs.Alike.{EndIsMeaning};
ghost use Rattle.pb_sound.specs.AcceptedRuns.{AcceptedRuns};
ghost use Rattle.pb_sound.specs.Placements.{EachPlacementHasTheSlot};
ghost use Rattle.pb_sound.specs.Silent.{WithoutHelpersSilent};
ghost use Rattle.pb_sound.specs.RunWrites.{RunsWriteBatches};
ghost use Rattle.pb_sound.specs.OneMeaning.{EachHasOneMeaning};
ghost use Rattle.pb_sound.specs.Positions.{AcceptedCellsRun, EveryRunEnds};
ghost use Rattle.pb_sound.specs.ProfilesAgree.{ProgramsOfOneAreOfTwo, SameAreAccepted, SameAreRefused, SameIsMeant};

/// An accepted program is never stuck: at every placement, with every record of the size that it is judged for, start and
/// replies, each instruction that a run from entry comes to goes on to a later slot, asks, or is an exit; and the frame before
/// its slot fits. So a run takes fewer instructions than the program has slots.
pub fn accepted_are_never_stuck()
    ensures { AcceptedAreNeverStuck }
{}

/// What a machine that tests nothing rests on, in one law. From entry on, a list of registers and
/// one of bytes do what the definitions do with an accepted program, and each byte that an
/// instruction reads or writes is there, so that nothing has to be tested. What a run does at one
/// placement, it does at every one, since no rule lets a number depend on an address: so a machine
/// that keeps one placement shows what it does at each. An access is where the frame before its
/// slot says, so that it can be resolved once, at upload. And what a program can still ask for and
/// write falls from slot to slot.
pub fn accepted_programs_run()
    ensures { AcceptedRuns }
{}

/// What an accepted program ends with at one placement, it ends with at every one, after the same asks and replies.
pub fn end_is_meaning()
    ensures { EndIsMeaning }
{}

/// A program has one meaning: the same record, start, asks and replies mean one result and one list of writes.
pub fn each_has_one_meaning()
    ensures { EachHasOneMeaning }
{}

/// From entry to an end, a machine that tests nothing has the asks and replies of the definitions, and ends with what the
/// program means.
pub fn accepted_cells_run()
    ensures { AcceptedCellsRun }
{}

/// Whatever the replies, a run of an accepted program comes to an end, since each instruction leads
/// to a later slot.
pub fn every_run_ends()
    ensures { EveryRunEnds }
{}

/// The slot that a run of an accepted program is at, at one placement, it is at, at every one.
pub fn each_placement_has_the_slot()
    ensures { EachPlacementHasTheSlot }
{}

/// A program that may call no helper asks nothing and writes nothing, since any call of it is stuck.
pub fn without_helpers_silent()
    ensures { WithoutHelpersSilent }
{}

/// A program writes nothing, or 1 to 16 distinct data cells without stamps: what a script's transaction may write, so
/// that both are declared alike.
pub fn runs_write_batches()
    ensures { RunsWriteBatches }
{}

/// The profile decides which programs there are, and nothing else: a program of profile 1 and the program of profile 2
/// with the same instructions are accepted alike, refused at the same slot with the same code, and mean the same. A
/// rule that looked at the profile would break it.
pub fn profiles_agree()
    ensures programs { ProgramsOfOneAreOfTwo }
    ensures accepted { SameAreAccepted }
    ensures refused { SameAreRefused }
    ensures meant { SameIsMeant }
{}
