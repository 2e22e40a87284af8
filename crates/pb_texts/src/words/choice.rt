//! What a command line asks for.
ghost use Rattle.std.specs.Prelude.{◌≡◌};
ghost use Rattle.pb_texts.specs.CommandLines.{swaps_asked};

use pb_base::{Column, Row, Ts, Value};
use pb_helpers::Version;
use pb_isa::Profile;

/// The files of a replay, and the last timestamp given out before its events.
#[derive(Clone, Copy)]
pub struct ReplayFiles<'a> {
    pub manifest: &'a str,
    pub script: &'a str,
    pub schedule: &'a str,
    pub clock: Ts,
}

/// A file with the bytes of a program of this profile, for change records of this version.
#[derive(Clone, Copy)]
pub struct ProgramFile<'a> {
    pub file: &'a str,
    pub profile: Profile,
    pub version: Version,
}

/// What the program is to do.
#[derive(Clone, Copy)]
pub enum Options<'a> {
    /// Reads a manifest and a script, runs the transactions by so many workers while so many tablets are replaced, and prints
    /// what is newest then.
    Run {
        manifest: &'a str,
        script: &'a str,
        workers: u32,
        swaps: u32,
    },
    /// Reads a manifest, a script and a schedule, does the schedule's events, and prints what is newest then.
    Replay(ReplayFiles<'a>),
    /// Reads the text of a program of this profile, and writes its bytes.
    Asm {
        input: &'a str,
        output: &'a str,
        profile: Profile,
    },
    /// Reads the bytes of a program of this profile, and lists it.
    Dis {
        file: &'a str,
        profile: Profile,
    },
    /// Reads the bytes of a program, and prints whether it is accepted.
    Check(ProgramFile<'a>),
}

/// A data cell, and the value that it has in a trial.
#[derive(Clone, Copy, Debug)]
pub struct TrialCell {
    pub row: Row,
    pub column: Column,
    pub value: Value,
}

/// What one run of a program is tried on: the change of a cell, what the cell had at the acknowledged timestamp, if an
/// earlier change was acknowledged, and the other cells that have a value.
#[derive(Drop)]
pub struct Trial<'a> {
    pub program: ProgramFile<'a>,
    pub change: TrialCell,
    pub old: Option<Value>,
    pub cells: Vec<TrialCell>,
}

/// The events whose lines a story has: those with numbers from the first to the last, the first event's being 0.
#[derive(Clone, Copy)]
pub struct Excerpt {
    pub first: u64,
    pub last: u64,
    /// Whether they include steps and crashes of actors without a job.
    pub idle: bool,
}

/// What the story program is to do.
#[derive(Drop)]
pub enum StoryOptions<'a> {
    /// Reads the bytes of a program, and prints what is known before each of its slots. That is the same for change records of
    /// either version.
    Frames(ProgramFile<'a>),
    /// Reads a manifest, a script and a schedule, does the schedule's events, prints what each of the excerpt did, and then what
    /// is newest.
    Replay(ReplayFiles<'a>, Excerpt),
    /// Reads the bytes of a program, runs it once on the record of a change, and prints what it asks, writes and returns.
    Trial(Trial<'a>),
}

impl Options<'_> {
    /// How many tablets are to be replaced: none but by a run.
    pub fn swaps(&self) -> u32
        ensures { result ≡ swaps_asked self.now }
    {
        match self {
            Options::Run { swaps, .. } => *swaps,
            _ => 0,
        }
    }
}
