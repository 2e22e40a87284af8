//! Looks at a cell: it is read, and a lock in the way is cleared before it is read again (OSDI 2010, section 2.2).
//! They are apart from jobs, since the cell, the acknowledgment, the value of before and each asked cell are read
//! alike.
ghost use Rattle.std.specs.Prelude.{◌≡◌, ◌<◌};
ghost use Rattle.pb_steps.specs.Read.{read_step};
ghost use Rattle.pb_notify.specs.Looks.{look_step, look_after, locked_after};

use pb_base::{Cell, Ts};
use pb_steps::{Answer, Step};

/// How many reads of one job may meet a lock: at the last it ends, so that it ends however often others lock its
/// cells.
pub const MAX_LOCKED: u8 = 64;

/// The limit of a job has this value.
pub fn locked_limit_is_this()
    ensures { MAX_LOCKED ≡ 64 }
{}

/// Which step of a look is next.
#[derive(Clone, Copy)]
pub enum Look {
    Reading,
    /// The read met a lock with this primary.
    Clearing(Cell),
    /// The lock waits for that of its primary.
    Settling(Cell),
    /// Its primary was settled.
    ClearingAgain,
}

/// Where an answer leads a look.
#[derive(Clone, Copy)]
pub enum Looked {
    On(Look),
    /// The read was answered with what the cell holds, if anything.
    Tells(Answer),
    /// The read met the last lock that it may.
    Blocks,
}

// A read at the start names no timestamp, since `Declare` refuses a run that names one where it needn't.
fn read_step(start: Ts, cell: Cell, at: Option<Ts>) -> Step
    ensures { result ≡ read_step start cell at }
{
    match at {
        None => Step::Read(start, cell),
        Some(at) => Step::ReadAt(start, cell, at),
    }
}

/// The next step of a look at a cell, as of the start or of this timestamp.
pub fn look_step(start: Ts, cell: Cell, at: Option<Ts>, look: Look) -> Step
    ensures { result ≡ look_step start cell at look }
{
    match look {
        Look::Reading => read_step(start, cell, at),
        Look::Clearing(_) => Step::Clear(cell),
        Look::Settling(primary) => Step::Settle(primary),
        Look::ClearingAgain => Step::Clear(cell),
    }
}

// After a read, where so many met a lock before it.
fn after_read(locked: u8, answer: Answer) -> Looked
    requires { locked < MAX_LOCKED }
    ensures { result ≡ Rattle.pb_notify.specs.Looks.after_read locked answer }
{
    match answer {
        Answer::Locked { primary, .. } => {
            if locked + 1 < MAX_LOCKED {
                Looked::On(Look::Clearing(primary))
            } else {
                Looked::Blocks
            }
        }
        _ => Looked::Tells(answer),
    }
}

/// Where an answer leads, where so many reads of the job met a lock before it.
pub fn look_after(locked: u8, look: Look, answer: Answer) -> Looked
    requires { locked < MAX_LOCKED }
    ensures { result ≡ look_after locked look answer }
{
    match look {
        Look::Reading => after_read(locked, answer),
        Look::Clearing(primary) => match answer {
            Answer::Waits => Looked::On(Look::Settling(primary)),
            _ => Looked::On(Look::Reading),
        },
        // The answer doesn't matter, here and below, since the read that follows sees what is left.
        Look::Settling(_) => Looked::On(Look::ClearingAgain),
        Look::ClearingAgain => Looked::On(Look::Reading),
    }
}

/// How many reads of the job met a lock by then.
pub fn locked_after(locked: u8, look: Look, answer: &Answer) -> u8
    requires { locked < MAX_LOCKED }
    ensures { result ≡ locked_after locked look answer.now }
{
    match look {
        Look::Reading => match answer {
            Answer::Locked { .. } => locked + 1,
            _ => locked,
        },
        _ => locked,
    }
}
