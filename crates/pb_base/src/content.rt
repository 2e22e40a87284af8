//! What a cell holds, and a version of it with the timestamps that a snapshot is read by.
use crate::names::Ts;

/// What a data cell holds when it isn't deleted.
pub type Value = [u8; 32];

/// What a write gives a cell. A stamp stands in acknowledgment cells alone.
#[derive(Clone, Copy, Debug, PartialEq, Eq)]
pub enum Content {
    Value(Value),
    Deleted,
    Stamp(Ts),
}

/// A committed version of a cell: the start and the commit of the transaction that wrote it, and what it wrote. A
/// snapshot is cut by commits; the start names the transaction.
#[derive(Clone, Copy)]
pub struct Revision {
    pub start: Ts,
    pub commit: Ts,
    pub content: Content,
}
