//! A step that isn't refused, with what was found for it: where that was tested, it was looked up, once for all.
use pb_base::{Cell, Content, Ts};
use pb_steps::{Declaration, Work};

/// Where a transaction stands: its start, and its place among all by their starts. Its place stays, since none is
/// forgotten and a new one stands last.
#[derive(Clone, Copy, Debug, PartialEq, Eq)]
pub struct TransactionAt {
    pub start: Ts,
    pub place: usize,
}

/// A step that a state admits, with what it needs of that state: where its transaction stands, what that declared, and
/// its commit timestamp. So nothing is looked up again where it is taken.
#[derive(Drop)]
pub enum Admitted<'s> {
    Begin(Work),
    /// In the snapshot of the start, or of this timestamp.
    Read {
        by: TransactionAt,
        cell: Cell,
        at: Option<Ts>,
    },
    /// With the acknowledgment that a run also writes.
    Declare {
        by: TransactionAt,
        what: &'s Declaration,
        acknowledgment: Option<Cell>,
    },
    Prewrite {
        by: TransactionAt,
        cell: Cell,
        content: Content,
        primary: Cell,
    },
    Stamp(TransactionAt),
    CommitPrimary {
        by: TransactionAt,
        commit: Ts,
        primary: Cell,
    },
    /// It changes no transaction, and so needs no place.
    CommitSecondary {
        start: Ts,
        cell: Cell,
        commit: Ts,
    },
    Settle(Cell),
    Clear(Cell),
    NextMark(Option<Cell>),
    Sweep(Cell),
}
