//! Which calls are refused.
use crate::steps::kind_of;
use pb_steps::Step;

/// The first call of a run that was refused, and whether a second one was. One request for memory is refused in a run, and so no
/// second call.
#[derive(Drop)]
pub struct Refusals {
    call: Option<&'static str>,
    // The kind of its step, or nothing.
    kind: &'static str,
    more: bool,
}

impl Refusals {
    pub fn none() -> Refusals {
        Refusals {
            call: None,
            kind: "",
            more: false,
        }
    }

    /// Notes that this call was refused.
    pub fn note(&mut self, call: &'static str) {
        if self.call.is_some() {
            self.more = true;
        } else {
            self.call = Some(call);
        }
    }

    /// Notes that this call was refused with a step.
    pub fn note_step(&mut self, call: &'static str, step: &Step) {
        self.note(call);
        self.kind = kind_of(step);
    }

    /// Whether no second call was refused.
    pub fn are_few(&self) -> bool {
        !self.more
    }

    /// The call that was refused, and the kind of its step, or nothing.
    pub fn first(&self) -> Option<(&'static str, &'static str)> {
        match self.call {
            Some(call) => Some((call, self.kind)),
            None => None,
        }
    }
}
