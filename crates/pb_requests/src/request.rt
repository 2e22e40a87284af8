//! What a line asks for.
use pb_base::{Column, Row, Ts};

/// The commit of a cell's newest write, as a change expects it.
#[derive(Clone, Copy, Debug, Drop)]
pub struct Condition {
    pub row: Row,
    pub column: Column,
    /// 0 where the cell has never been written.
    pub commit: Ts,
}

/// What a line asks for. The operations of a change are read by `pb_parse::batch_of`.
#[derive(Clone, Copy, Debug, Drop)]
pub enum Request {
    /// A change: the line is its operations.
    Change,
    /// A change that is made only if the cell's newest write has this commit: its operations follow the first `; `.
    ChangeIf(Condition),
    /// The newest write of a cell.
    Get(Row, Column),
    /// The report.
    List,
    /// The writes of commits above this one.
    Since(Ts),
    /// The changes of the lines that follow are kept by one record, up to the next `End`.
    Begin,
    /// The record is whole.
    End,
    /// What is left to do.
    IsQuiet,
    /// What the observers have done.
    Stats,
    /// The log is to begin anew, with a snapshot of the table.
    Compact,
    /// The log is to be copied. The number names the copy.
    Copy(u64),
}
