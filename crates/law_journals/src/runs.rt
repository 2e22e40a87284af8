//! What a committed run saw.
ghost use Rattle.law_journals.specs.LooksBack.{RunsLookBackToTheirAcknowledgment};
ghost use Rattle.law_journals.specs.ShownValues.{ValuesAreShown};

/// Each answered read at a timestamp, by a committed run of a legal journal, is of its observed cell, at the timestamp that its
/// snapshot has in the acknowledgment, and for a change record of version 2. So where nothing is acknowledged there is none.
pub fn runs_look_back_to_their_acknowledgment()
    ensures { RunsLookBackToTheirAcknowledgment }
{}

/// A cell shows its value to a program, in its reply and as the value at the acknowledged timestamp, where the newest write of
/// the snapshot is a value. Where that is a deletion, or there is no write, it shows none.
pub fn values_are_shown()
    ensures { ValuesAreShown }
{}
