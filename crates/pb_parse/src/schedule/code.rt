//! What is wrong with a line of a schedule, and its number.
ghost use Rattle.std.specs.Prelude.{◌≡◌};
ghost use Rattle.pb_parse.specs.ScheduleCodes.{schedule_code};

/// What is wrong with a line.
#[derive(Clone, Copy, Drop)]
pub enum ScheduleCode {
    /// Not of the form.
    Form,
    /// A number out of range.
    Range,
    /// Over 1,000,000 events.
    TooMany,
    /// No observer of that name.
    NoObserver,
}

impl ScheduleCode {
    /// The number by which a code is reported.
    pub fn code(self) -> u8
        ensures { result ≡ schedule_code self }
    {
        match self {
            ScheduleCode::Form => 90,
            ScheduleCode::Range => 91,
            ScheduleCode::TooMany => 92,
            ScheduleCode::NoObserver => 93,
        }
    }
}
