//! The phases of a transaction, by which its seat's steps are allowed or refused.
use pb_base::Ts;

/// How far a transaction has come. Nothing ends one that only reads, since it stands in nobody's way.
#[derive(Clone, Copy, PartialEq, Eq)]
pub enum Phase {
    Reading,
    Declared,
    /// With its commit timestamp.
    Stamped(Ts),
    /// With its commit timestamp.
    Committed(Ts),
    /// It met a conflict, or its primary was settled: it can't commit any more.
    Failed,
}

impl Phase {
    ghost use Rattle.std.specs.Prelude.{◌≡◌};
    ghost use Rattle.pb_steps.specs.Phases.{is_reading, is_declared};

    /// Whether it reads, and has declared nothing so far.
    pub fn is_reading(self) -> bool
        ensures { result ≡ is_reading self }
    {
        matches!(self, Phase::Reading)
    }

    /// Whether it has declared what it writes, and has no commit timestamp so far.
    pub fn is_declared(self) -> bool
        ensures { result ≡ is_declared self }
    {
        matches!(self, Phase::Declared)
    }
}
