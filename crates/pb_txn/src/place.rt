//! Where a plan stands, and where an answer leads. Cells go by their places among the declared ones, so that a place
//! holds none of them.
ghost use Rattle.std.specs.Prelude.{◌≡◌, ◌<◌, ◌≤◌, ℕ};
ghost use Rattle.pb_txn.specs.Places.{place_after, LiesWithin};

use pb_base::Ts;
use pb_steps::Answer;

/// How a transaction ends.
#[derive(Clone, Copy, Debug, PartialEq, Eq)]
pub enum Outcome {
    /// With its commit timestamp.
    Committed(Ts),
    /// Another transaction had a lock on one of its cells, or wrote it since this one began.
    Conflicted,
    /// Another took the lock off its primary before it was committed.
    Lost,
}

/// Which step of a plan is next, with the places of the cells that it is about.
#[derive(Clone, Copy)]
pub enum PlanPlace {
    Declaring,
    /// The cell at this place.
    Prewriting(usize),
    Stamping,
    /// With the commit timestamp.
    CommittingPrimary(Ts),
    /// With the commit timestamp, the cell at this place.
    CommittingSecondary(Ts, usize),
    /// After a conflict on the cell at this place.
    Settling(usize),
    /// The cell at the first place, of those up to the second; then it ends so.
    Clearing(usize, usize, Outcome),
    Over(Outcome),
}

// The next cell to prewrite, or the stamp.
fn prewrite_from(count: usize, k: usize) -> PlanPlace
    ensures place { result ≡ Rattle.pb_txn.specs.Places.prewrite_from count k }
    ensures fits { LiesWithin count result }
{
    if k < count {
        PlanPlace::Prewriting(k)
    } else {
        PlanPlace::Stamping
    }
}

// The next secondary to commit, or the end. It is never the cell at 0, since that is the primary.
fn commit_from(count: usize, commit: Ts, k: usize) -> PlanPlace
    requires { 0 < k }
    ensures place { result ≡ Rattle.pb_txn.specs.Places.commit_from count commit k }
    ensures fits { LiesWithin count result }
{
    if k < count {
        PlanPlace::CommittingSecondary(commit, k)
    } else {
        PlanPlace::Over(Outcome::Committed(commit))
    }
}

// The next secondary to clear, or the end. The primary is none of them, since it was settled or is lost.
fn clear_from(k: usize, end: usize, outcome: Outcome) -> PlanPlace
    requires { 0 < k }
    ensures place { result ≡ Rattle.pb_txn.specs.Places.clear_from k end outcome }
    ensures fits { (count : ℕ) → end ≤ count → LiesWithin count result }
{
    if k < end {
        PlanPlace::Clearing(k, end, outcome)
    } else {
        PlanPlace::Over(outcome)
    }
}

// After a prewrite: a conflict on the primary leaves nothing to clear, since that is prewritten
// first.
fn after_prewrite(count: usize, k: usize, answer: Answer) -> PlanPlace
    requires { k < count }
    ensures place { result ≡ Rattle.pb_txn.specs.Places.after_prewrite count k answer }
    ensures fits { LiesWithin count result }
{
    match answer {
        Answer::Conflict => {
            if k == 0 {
                PlanPlace::Over(Outcome::Conflicted)
            } else {
                PlanPlace::Settling(k)
            }
        }
        _ => prewrite_from(count, k + 1),
    }
}

/// Where an answer leads.
pub fn place_after(count: usize, place: PlanPlace, answer: Answer) -> PlanPlace
    requires { LiesWithin count place }
    ensures place { result ≡ place_after count place answer }
    ensures fits { LiesWithin count result }
{
    match place {
        PlanPlace::Declaring => prewrite_from(count, 0),
        PlanPlace::Prewriting(k) => after_prewrite(count, k, answer),
        PlanPlace::Stamping => match answer {
            Answer::At(commit) => PlanPlace::CommittingPrimary(commit),
            _ => PlanPlace::Stamping,
        },
        PlanPlace::CommittingPrimary(commit) => match answer {
            Answer::Committed => commit_from(count, commit, 1),
            // Whoever took the primary's lock off has decided against the transaction, and all
            // other cells are prewritten.
            _ => clear_from(1, count, Outcome::Lost),
        },
        PlanPlace::CommittingSecondary(commit, k) => commit_from(count, commit, k + 1),
        // What is to be cleared are the cells before the one that conflicted, since no later one was prewritten.
        PlanPlace::Settling(k) => clear_from(1, k, Outcome::Conflicted),
        PlanPlace::Clearing(k, end, outcome) => clear_from(k + 1, end, outcome),
        PlanPlace::Over(outcome) => PlanPlace::Over(outcome),
    }
}
