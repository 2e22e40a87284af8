//! What is wrong with a line of a script, and its number.
ghost use Rattle.std.specs.Prelude.{◌≡◌};
ghost use Rattle.pb_parse.specs.Codes.{script_code};

/// What is wrong with a line.
#[derive(Clone, Copy, Drop)]
pub enum ScriptCode {
    /// Not of the form.
    Form,
    /// Row or column out of range.
    Range,
    /// Not 2 to 64 lower-case hexadecimal digits, even in number.
    Hex,
    /// A cell named before in the line.
    Twice,
    /// A 17th cell.
    Seventeenth,
    /// Over 10,000 changes.
    TooMany,
}

impl ScriptCode {
    /// The number by which a code is reported.
    pub fn code(self) -> u8
        ensures { result ≡ script_code self }
    {
        match self {
            ScriptCode::Form => 70,
            ScriptCode::Range => 71,
            ScriptCode::Hex => 72,
            ScriptCode::Twice => 73,
            ScriptCode::Seventeenth => 74,
            ScriptCode::TooMany => 75,
        }
    }
}
