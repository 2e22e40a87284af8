//! What a schedule asks for, which is also what worlds let happen.
use pb_base::{Cell, ObserverNo, Row};

/// What an actor is launched for.
#[derive(Clone, Copy)]
pub enum Job {
    /// The change of this number in the script, from 1.
    Change(u32),
    /// The run of this observer on the cell of its column in this row.
    Run(ObserverNo, Row),
}

/// One event. An actor is named by its number, which is that of its seat. A schedule's text
/// names actors from 1 to 63.
#[derive(Clone, Copy)]
pub enum Event {
    /// The actor gets a job; no step is taken.
    Launch(u32, Job),
    /// The actor's job goes on by one instruction of its machine, or one step of the shared table.
    Step(u32),
    /// The actor's job is gone; what it did in the table stays.
    Crash(u32),
    /// The step of this name on the cell, by the main seat, since it is no actor's (OSDI 2010, section 2.2): the
    /// transaction whose primary is locked there is decided against.
    Settle(Cell),
    /// Likewise: a lock that another transaction left on the cell is taken off, as its primary
    /// decides.
    Clear(Cell),
    /// Likewise: the mark is taken off the cell if all observers are up to date on it.
    Sweep(Cell),
}
