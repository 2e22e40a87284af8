//! Why the program ends with status 1, and the line that reports it.
ghost use Rattle.std.specs.Prelude.{◌≡◌, MatchResult};
ghost use Rattle.pb_base.specs.Growths.{refused_growth};
ghost use Rattle.pb_registry.specs.Judging.{memory_in};
ghost use Rattle.percobpf_keep.specs.Failures.{of_refusal, IsOfCall, IsOfFile, IsOfManifest, IsOfOpening, IsOfSystem};
ghost use Rattle.percobpf_keep.specs.declared.failure.Failure.TheVariants as ends;

use pb_base::{NoMemory, Refusal, SinkFault};
use pb_keep::{KeepFault, SnapshotFault};
use pb_log::LogFault;
use pb_registry::RegistryFault;
use sqlite_std_file::OpenError;
use std::alloc::{AllocError, AllocFailed, Global};
use std::{fmt, io};

/// Why the program ends with status 1.
#[derive(Drop)]
pub(crate) enum Failure {
    /// A growth was refused, whoever asked for it.
    NoMemory(NoMemory),
    /// A word of the command line is missing, or is one too many.
    Words,
    /// The same after `--copy`.
    CopyWords,
    /// The same after `--manifest`.
    ManifestWords,
    /// These options of the command line don't go together.
    Options,
    /// This number is wanted, and this word is none.
    NoNumber(Wanted, String),
    /// A call of the system failed for the file of this name, and not for want of memory.
    Call(String, io::Error),
    /// The file of this name isn't opened as a log.
    Open(String, OpenError),
    /// The file of this name is such that it isn't used.
    File(String, FileState),
    /// Another call of the system failed, and not for want of memory.
    System(io::Error),
    /// The manifest has too many bytes.
    LargeManifest,
    Manifest(RegistryFault),
    /// A table refused its tablets with this code, as none does that has one empty tablet.
    Tablets(u8),
    /// A log that was begun with a snapshot has changes.
    HasChanges,
    /// The first line wasn't written, or the answer to a line about the log.
    Output(SinkFault),
    Keep(KeepFault),
    Log(LogFault),
    Snapshot(SnapshotFault),
}

/// Which number of the command line is wanted.
#[derive(Clone, Copy, Drop)]
pub(crate) enum Wanted {
    /// From how many bytes on a log is compacted.
    Bytes,
    /// How many entries a table may have.
    Entries,
}

/// What is so of a file that isn't used.
#[derive(Clone, Copy, Drop)]
pub(crate) enum FileState {
    /// It is no text.
    NotText,
    /// Its name is left to new logs.
    Reserved,
    /// Its name leads to another file than a moment ago.
    OtherLog,
    /// The file that is served has its name no longer.
    Lost,
    /// Something has each of the names of a new log.
    NamesTaken,
    /// Its own manifest is no text.
    OwnManifestNotText,
    /// It has another limit of entries than the one that is wanted.
    OtherLimit,
    /// It has no first record.
    NotBegun,
    /// Its table has two observers that are the same.
    SameObservers,
    /// It is there, where a copy is to be made.
    Taken,
    /// It is no folder, and copies are to be made in it.
    NoFolder,
}

impl fmt::Display for Wanted {
    ghost use Rattle.std.specs.Prelude.{Some};
    ghost use Rattle.percobpf_keep.specs.Failures.{wanted_text};

    ghost output = { λ w. Some (wanted_text w) };

    fn fmt<W: fmt::Write>(&self, f: &mut fmt::Formatter<W>) -> fmt::Result {
        match self {
            Wanted::Bytes => write!(f, "BYTES"),
            Wanted::Entries => write!(f, "ENTRIES"),
        }
    }
}

impl fmt::Display for FileState {
    ghost use Rattle.std.specs.Prelude.{Some};
    ghost use Rattle.percobpf_keep.specs.Failures.{state_text};

    ghost output = { λ s. Some (state_text s) };

    fn fmt<W: fmt::Write>(&self, f: &mut fmt::Formatter<W>) -> fmt::Result {
        match self {
            FileState::NotText => write!(f, "stream did not contain valid UTF-8"),
            FileState::Reserved => write!(f, "names ending in ~new or ~new-wal are reserved"),
            FileState::OtherLog => write!(f, "another log was put in its place, start again"),
            FileState::Lost => write!(f, "the log was removed, renamed or replaced"),
            FileState::NamesTaken => write!(f, "all names for a new log are taken"),
            FileState::OwnManifestNotText => write!(f, "its manifest is not text"),
            FileState::OtherLimit => write!(f, "its limit is another one: --compact changes it"),
            FileState::NotBegun => write!(f, "no log was begun in it"),
            FileState::SameObservers => write!(f, "two of its observers are the same"),
            FileState::Taken => write!(f, "it is there already"),
            FileState::NoFolder => write!(f, "it is no folder"),
        }
    }
}

impl fmt::Display for Failure {
    ghost use Rattle.percobpf_keep.specs.Failures.{failure_text};

    ghost output = { failure_text };

    fn fmt<W: fmt::Write>(&self, f: &mut fmt::Formatter<W>) -> fmt::Result {
        match self {
            Failure::NoMemory(_) => write!(f, "no memory"),
            Failure::Words => write!(
                f,
                "two words are wanted, MANIFEST and LOG: `percobpf_keep --help` has more"
            ),
            Failure::CopyWords => write!(
                f,
                "two words are wanted, LOG and PATH: `percobpf_keep --help` has more"
            ),
            Failure::ManifestWords => write!(
                f,
                "one word is wanted, LOG: `percobpf_keep --help` has more"
            ),
            Failure::Options => write!(
                f,
                "these options don't go together: `percobpf_keep --help` has more"
            ),
            Failure::NoNumber(wanted, word) => write!(
                f,
                "{wanted} is a decimal number below 2^64, and not `{word}`: `percobpf_keep --help` has more"
            ),
            Failure::Call(name, error) => write!(f, "{name}: {error}"),
            Failure::Open(name, error) => write!(f, "{name}: {error}"),
            Failure::File(name, state) => write!(f, "{name}: {state}"),
            Failure::System(error) => write!(f, "{error}"),
            Failure::LargeManifest => write!(f, "the manifest is too large"),
            Failure::Manifest(fault) => write!(f, "{fault}"),
            Failure::Tablets(code) => write!(f, "tablets refused code {code}"),
            Failure::HasChanges => write!(f, "the new log has changes"),
            Failure::Output(fault) => write!(f, "{fault}"),
            Failure::Keep(fault) => write!(f, "{fault}"),
            Failure::Log(fault) => write!(f, "{fault}"),
            Failure::Snapshot(fault) => write!(f, "{fault}"),
        }
    }
}

impl Failure {
    /// A file of this name is such that it isn't used. Where memory is refused for the name, that is reported.
    pub(crate) fn of_file(alloc: Global, path: &str, state: FileState) -> Failure
        ensures { IsOfFile path.now state result }
    {
        match String::from_str(alloc, path) {
            Ok(name) => Failure::File(name, state),
            Err(refused) => Failure::NoMemory(NoMemory::from(refused)),
        }
    }

    /// A call of the system failed for the file of this name. Where that is for want of memory, or memory is refused for the
    /// name, that is reported.
    pub(crate) fn of_call(alloc: Global, path: &str, error: io::Error) -> Failure
        ensures { IsOfCall path.now error result }
    {
        match error.kind() {
            io::ErrorKind::OutOfMemory => Failure::NoMemory(NoMemory::from(AllocError)),
            _ => match String::from_str(alloc, path) {
                Ok(name) => Failure::Call(name, error),
                Err(refused) => Failure::NoMemory(NoMemory::from(refused)),
            },
        }
    }

    /// The file of this name isn't opened as a log.
    pub(crate) fn of_opening(alloc: Global, path: &str, error: OpenError) -> Failure
        ensures { IsOfOpening path.now result }
    {
        match error {
            OpenError::OutOfMemory => Failure::NoMemory(NoMemory::from(AllocError)),
            OpenError::Io(error) => Failure::of_call(alloc, path, error),
            error => match String::from_str(alloc, path) {
                Ok(name) => Failure::Open(name, error),
                Err(refused) => Failure::NoMemory(NoMemory::from(refused)),
            },
        }
    }
}

impl From<NoMemory> for Failure {
    ghost from_gives = { λ e f. f ≡ ends.NoMemory e };

    fn from(e: NoMemory) -> Failure {
        Failure::NoMemory(e)
    }
}

impl From<AllocError> for Failure {
    ghost from_gives = { λ _ f. f ≡ ends.NoMemory refused_growth };

    fn from(e: AllocError) -> Failure {
        Failure::NoMemory(e.into())
    }
}

impl<T: Drop> From<AllocFailed<T>> for Failure {
    ghost from_gives = { λ _ f. f ≡ ends.NoMemory refused_growth };

    fn from(e: AllocFailed<T>) -> Failure {
        Failure::NoMemory(e.into())
    }
}

impl From<io::Error> for Failure {
    ghost from_gives = { λ e f. IsOfSystem e f };

    fn from(e: io::Error) -> Failure {
        match e.kind() {
            io::ErrorKind::OutOfMemory => Failure::NoMemory(NoMemory::from(AllocError)),
            _ => Failure::System(e),
        }
    }
}

impl From<SinkFault> for Failure {
    ghost from_gives = { λ e f. f ≡ ends.Output e };

    fn from(e: SinkFault) -> Failure {
        Failure::Output(e)
    }
}

impl From<KeepFault> for Failure {
    ghost from_gives = { λ e f. f ≡ ends.Keep e };

    fn from(e: KeepFault) -> Failure {
        Failure::Keep(e)
    }
}

impl From<LogFault> for Failure {
    ghost from_gives = { λ e f. f ≡ ends.Log e };

    fn from(e: LogFault) -> Failure {
        Failure::Log(e)
    }
}

impl From<SnapshotFault> for Failure {
    ghost from_gives = { λ e f. f ≡ ends.Snapshot e };

    fn from(e: SnapshotFault) -> Failure {
        Failure::Snapshot(e)
    }
}

// A manifest that isn't read for want of memory has no fault.
impl From<RegistryFault> for Failure {
    ghost from_gives = { λ e f. IsOfManifest (memory_in e) f };

    fn from(e: RegistryFault) -> Failure {
        match e.memory() {
            Ok(refused) => Failure::NoMemory(refused),
            Err(fault) => Failure::Manifest(fault),
        }
    }
}

impl From<Refusal> for Failure {
    ghost from_gives = { λ e f. f ≡ of_refusal e.0 };

    fn from(e: Refusal) -> Failure {
        match e.memory() {
            Ok(refused) => Failure::NoMemory(refused),
            Err(code) => Failure::Tablets(code),
        }
    }
}

// Prints why the program ends, with the whole of each name.
fn print_failure(rt: &HostRuntime, failure: &Failure) -> u8
    ensures { result ≡ 1 }
{
    let _ = eprintln!(rt; "Error: {failure}");
    1
}

/// The status of the program: 0, or 1 where one line of standard error reports why.
pub(crate) fn status_of(rt: &HostRuntime, done: Result<(), Failure>) -> u8
    ensures { MatchResult done (λ _. result ≡ 0) (λ _. result ≡ 1) }
{
    match done {
        Ok(()) => 0,
        Err(failure) => print_failure(rt, &failure),
    }
}
