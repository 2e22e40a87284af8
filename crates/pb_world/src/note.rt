//! Notes of events: what each did, as a story prints it.
use pb_steps::Answer;

/// What an event did.
#[derive(Clone, Copy, Debug, PartialEq, Eq)]
pub enum Note {
    /// The actor got its job.
    Launched,
    /// The table answered a step.
    Called(Answer),
    /// The table refused a step with this number, 40 to 47 or 49. If it was an actor's, its job ended there as by a
    /// crash.
    Refused(u8),
    /// The actor's machine did one instruction, or came to one that asks.
    Instruction,
    /// The actor lost its job.
    Crashed,
    /// The actor had no job.
    Idle,
}
