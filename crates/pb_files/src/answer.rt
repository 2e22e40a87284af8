//! What a command answers on what it was given. A refusal is an answer and no fault, so it goes to
//! standard output.

/// Whether what a command was given is accepted.
#[derive(Clone, Copy, Debug, PartialEq, Eq, Drop)]
pub enum Verdict {
    Accepted,
    Refused,
}

/// A verdict on a file's bytes, and the text that states it.
#[derive(Drop)]
pub struct VerdictText {
    pub verdict: Verdict,
    pub text: String,
}
