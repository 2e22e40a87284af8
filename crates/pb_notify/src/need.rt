//! What a job needs, and how it ends: all that an owner goes by, so that none has to know a job's places.

/// How a run of an observer ends.
#[derive(Clone, Copy, Debug, PartialEq, Eq)]
pub enum JobEnd {
    /// It committed. Register 0 at its program's exit.
    Ran(u64),
    /// There was nothing newer than its acknowledgment.
    Clean,
    /// Another transaction had a lock on one of its cells, or wrote it since this one began.
    Conflicted,
    /// Another took the lock off its primary before it was committed.
    Lost,
    /// Its reads met too many locks.
    Blocked,
}

/// What a job needs next.
#[derive(Clone, Copy, Debug, PartialEq, Eq)]
pub enum Need {
    /// One instruction of its machine.
    Local,
    /// The answer of its next step.
    Call,
    /// Nothing: it is over.
    Over(JobEnd),
}
