//! The steps that are asked of the table, and their answers.
ghost use Rattle.std.specs.Prelude.{◌≡◌, IfOk};

use crate::ended_run::EndedRun;
use pb_base::{Batch, Cell, Content, NoMemory, ObserverNo, Row, Ts};
use std::alloc::{AllocFailed, Global};
use std::marker::Model;
use std::sync::Arc;

/// What a transaction is for.
#[derive(Clone, Copy, PartialEq, Eq)]
pub enum Work {
    /// A change of a script.
    Script,
    /// A run of this observer on the cell of its column in this row (OSDI 2010, section 2.4).
    Run(ObserverNo, Row),
}

/// What a transaction declares that it writes.
#[derive(Drop)]
pub enum Declared {
    Script(Batch),
    /// A run of this observer, ended.
    Run(ObserverNo, EndedRun),
}

/// What is declared, with several owners, since a step is copied for the journal and for its seat. Contracts see what
/// it holds, since a copy of a bare pointer would differ. It keeps that a script declares a batch, and a run what its
/// program means.
#[derive(Drop)]
pub struct Declaration {
    owner: Arc<Declared>,
}

impl Model for Declaration {
    ghost use Rattle.pb_steps.specs.declared.step.Declared.{Declared};

    ghost Value = { Declared };

    ghost use Rattle.pb_steps.specs.Declarations.{IsKnown};

    ghost view = { λ d. d.owner.value };

    ghost invariant = { λ d. IsKnown d.owner.value };
}

impl Declared {
    ghost use Rattle.pb_steps.specs.Declarations.{IsKnown};

    // For the proof: what the types of a batch and of a run keep.
    fn known(&self)
        ensures { IsKnown self.now }
    {
        match self {
            Declared::Script(batch) => batch.known(),
            Declared::Run(_, run) => run.get().known(),
        }
    }
}

impl Declaration {
    ghost use Rattle.std.specs.Prelude.{◌≡◌, IfOk, IfErr};
    ghost use Rattle.pb_steps.specs.Declarations.{IsKnown};

    /// The first owner. Refused, it hands back what was to be declared, so that no caller has to keep a copy.
    pub fn new(alloc: Global, declared: Declared) -> Result<Declaration, AllocFailed<Declared>>
        ensures ok { IfOk result (λ d. d ≡ declared) }
        ensures handed_back { IfErr result (λ f. f.value ≡ declared) }
    {
        declared.known();
        match Arc::new(alloc, declared) {
            Ok(owner) => Ok(Declaration { owner }),
            Err(failed) => Err(failed),
        }
    }

    /// One more owner.
    pub fn share(&self) -> Result<Declaration, NoMemory>
        ensures { IfOk result (λ d. d ≡ self.now) }
    {
        let owner = Arc::try_clone(&self.owner)?;
        Ok(Declaration { owner })
    }

    /// What is declared. It is known that what a script declares is a batch, and that what a run declares is what its
    /// program means.
    pub fn get(&self) -> &Declared
        ensures same { result.now ≡ self.now }
        ensures known { IsKnown result.now }
    {
        &self.owner
    }
}

/// What is asked of the table, one step at a time (OSDI 2010, sections 2.2 to 2.4). A transaction goes by its start.
#[derive(Drop)]
pub enum Step {
    /// A new transaction.
    Begin(Work),
    /// Reads a cell in the transaction's snapshot: its newest version of a commit at most its start.
    Read(Ts, Cell),
    /// Reads a cell in the snapshot of a timestamp that is at most the transaction's start.
    ReadAt(Ts, Cell, Ts),
    /// Says what the transaction writes, its first cell the primary.
    Declare(Ts, Declaration),
    /// Locks a declared cell and writes its data, the primary before the others.
    Prewrite(Ts, Cell),
    /// Takes the commit timestamp, once all cells are prewritten.
    Stamp(Ts),
    /// Replaces the primary's lock by a write record: the transaction is committed.
    CommitPrimary(Ts),
    /// Replaces the lock of a committed transaction on another of its cells by a write record, if it still stands.
    CommitSecondary(Ts, Cell),
    /// Takes a lock off its own primary, by anyone: the transaction can't commit any more.
    Settle(Cell),
    /// Takes a lock off a cell, by anyone, once its primary has none: it goes the way that the primary went.
    Clear(Cell),
    /// Looks for the first marked cell after this one, or for the first of all: an observer may have work there.
    NextMark(Option<Cell>),
    /// Takes the mark off a cell, once all observers of its column are up to date on it.
    Sweep(Cell),
}

impl Step {
    /// One more such step, as the journal and a seat keep it. Only a declaration takes memory, for one more owner.
    pub fn copy(&self) -> Result<Step, NoMemory>
        ensures { IfOk result (λ s. s ≡ self.now) }
    {
        match self {
            Step::Begin(work) => Ok(Step::Begin(*work)),
            Step::Read(start, cell) => Ok(Step::Read(*start, *cell)),
            Step::ReadAt(start, cell, at) => Ok(Step::ReadAt(*start, *cell, *at)),
            Step::Declare(start, what) => {
                let what = what.share()?;
                Ok(Step::Declare(*start, what))
            }
            Step::Prewrite(start, cell) => Ok(Step::Prewrite(*start, *cell)),
            Step::Stamp(start) => Ok(Step::Stamp(*start)),
            Step::CommitPrimary(start) => Ok(Step::CommitPrimary(*start)),
            Step::CommitSecondary(start, cell) => Ok(Step::CommitSecondary(*start, *cell)),
            Step::Settle(cell) => Ok(Step::Settle(*cell)),
            Step::Clear(cell) => Ok(Step::Clear(*cell)),
            Step::NextMark(after) => Ok(Step::NextMark(*after)),
            Step::Sweep(cell) => Ok(Step::Sweep(*cell)),
        }
    }
}

/// What a step answers.
#[derive(Clone, Copy, Debug, PartialEq, Eq)]
pub enum Answer {
    /// A timestamp given out: a start or a commit.
    At(Ts),
    /// A lock stands on the cell, of this start and with this primary; what the cell holds isn't known yet.
    Locked {
        start: Ts,
        primary: Cell,
    },
    /// The newest version in the snapshot: its start, its commit, and what it wrote.
    Found {
        start: Ts,
        commit: Ts,
        content: Content,
    },
    /// There is none: no version, or no lock.
    Absent,
    Done,
    /// Another transaction has a lock on the cell, or wrote it since this one began; it has failed.
    Conflict,
    Committed,
    /// The primary's lock is gone; the transaction has failed.
    Lost,
    /// The lock and its data are erased.
    RolledBack,
    /// The lock stays, since that of its primary stands.
    Waits,
    /// The lock is replaced by the write record of this commit, at which its primary has one.
    CommittedAt(Ts),
    /// The first marked cell.
    Marked(Cell),
    /// There is none, or the cell that was to be swept isn't marked.
    NoMark,
    /// An observer of the cell's column isn't up to date on it; the mark stays.
    StillBehind,
}
