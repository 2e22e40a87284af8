//! Commands carried out over paths and sinks in memory.
ghost use Rattle.std.specs.Prelude.{◌≡◌, None, false, IfOk, IfErr, vec_len};
ghost use Rattle.pb_base.specs.Growths.{refused_growth};
ghost use Rattle.pb_store.specs.Contents.{nothing};
ghost use Rattle.pb_texts.specs.CommandLines.{IsInRange, swaps_asked};
ghost use Rattle.pb_command.specs.Commands.{IsSequential};
ghost use Rattle.pb_files.specs.declared.paths.PathFault.TheVariants as faults;

use pb_base::{NoMemory, Sink, SinkFault};
use pb_command::{command, sequential_command};
use pb_files::{PathFault, Paths};
use pb_store::{Table, Tablet};
use pb_texts::Options;
use std::alloc::Global;
use std::rt::HostRuntime;
use std::sync::Wait;
use std::thread::Threads;
use test_fixtures::{Unready, refused, table};

// A sink that takes one byte a call, so many times, and then none, or fails.
#[derive(Drop)]
struct Sheet {
    bytes: Vec<u8>,
    left: usize,
    fails: bool,
    failed: bool,
}

impl Sink for Sheet {
    ghost taken = { λ _. None };

    ghost failed = { λ s. s.failed };

    fn write(&mut self, piece: &[u8]) -> Result<usize, SinkFault> {
        if piece.is_empty() {
            return Ok(0);
        }
        if self.left > 0 && self.bytes.push(piece[0]).is_ok() {
            self.left -= 1;
            return Ok(1);
        }
        self.failed = true;
        if self.fails { Err(SinkFault) } else { Ok(0) }
    }

    fn has_failed(&self) -> bool {
        self.failed
    }
}

/// Why a file in memory isn't read or written.
#[derive(Clone, Copy, Drop)]
pub enum Unread {
    Failed,
    TooLarge,
    /// A growth is refused, each time anew, as one is reported once.
    NoMemory,
}

impl Unread {
    /// The fault that is answered. Were the growth not refused, it would be another than the one that a test expects.
    pub fn fault(self, alloc: Global) -> PathFault {
        match self {
            Unread::Failed => PathFault::Failed,
            Unread::TooLarge => PathFault::TooLarge,
            Unread::NoMemory => match refused(alloc) {
                Err(refused) => PathFault::NoMemory(refused),
                Ok(()) => PathFault::Failed,
            },
        }
    }
}

/// What the reading of a file answers.
pub type File<'a> = Result<&'a [u8], Unread>;

/// A copy of the bytes.
pub fn copy_of(alloc: Global, bytes: &[u8]) -> Result<Vec<u8>, PathFault>
    ensures copy { IfOk result (λ v. v.items ≡ bytes.now) }
    ensures memory { IfErr result (λ f. f ≡ faults.NoMemory refused_growth) }
{
    let mut copy = Vec::new(alloc);
    match copy.extend_from_slice(bytes) {
        Ok(()) => Ok(copy),
        Err(refused) => Err(PathFault::NoMemory(NoMemory::from(refused))),
    }
}

/// The three files of a command, at the paths `m`, `s` and `e`. No write succeeds.
#[derive(Drop)]
pub struct Files<'a> {
    pub alloc: Global,
    pub manifest: File<'a>,
    pub script: File<'a>,
    pub schedule: File<'a>,
}

impl<'a> Paths for Files<'a> {
    ghost use Rattle.std.specs.Prelude.{Ok, [], ◌∷◌, if◌then◌else◌, true};
    ghost use Rattle.std.specs.Option.{option_map};
    ghost use Rattle.std.specs.Result.{result_ok};
    ghost use Rattle.std.specs.Str.{bytes_eq};

    // A file that isn't read answers a fault, but not a stated one, as it is made anew each time.
    ghost held = { λ h path. option_map (λ r. Ok r.now) (result_ok
        (if bytes_eq path (109 ∷ []) then h.manifest else if bytes_eq path (115 ∷ []) then h.script else h.schedule)) };

    ghost failed = { λ _. true };

    fn read(&mut self, path: &str) -> Result<Vec<u8>, PathFault> {
        let file = if path == "m" {
            self.manifest
        } else if path == "s" {
            self.script
        } else {
            self.schedule
        };
        match file {
            Ok(bytes) => copy_of(self.alloc, bytes),
            Err(unread) => Err(unread.fault(self.alloc)),
        }
    }

    fn write(&mut self, _path: &str, _bytes: &[u8]) -> Result<(), PathFault> {
        Err(PathFault::Failed)
    }
}

/// What a command printed, and its status.
#[derive(Drop)]
pub struct Outcome {
    pub status: u8,
    pub out: Vec<u8>,
    pub err: Vec<u8>,
}

impl Sheet {
    // An empty one.
    fn new(alloc: Global, left: usize, fails: bool) -> Sheet
        ensures { result.failed ≡ false }
    {
        Sheet {
            bytes: Vec::new(alloc),
            left,
            fails,
            failed: false,
        }
    }
}

/// Carries out a command other than `run` over these paths, with an output that takes so many bytes, and then fails or takes
/// none.
pub fn carry<P: Paths>(
    rt: &HostRuntime,
    options: &Options,
    paths: &mut P,
    left: usize,
    fails: bool,
) -> Result<Outcome, Unready>
    requires { IsSequential options.now }
{
    let alloc = rt.alloc();
    let table = table(alloc)?;
    let mut out = Sheet::new(alloc, left, fails);
    let mut err = Sheet::new(alloc, usize::MAX, fails);
    let status = sequential_command(
        alloc,
        options,
        paths,
        table,
        Vec::new(alloc),
        &mut out,
        &mut err,
    );
    Ok(Outcome {
        status,
        out: out.bytes,
        err: err.bytes,
    })
}

/// The same of any command without swaps, with workers in threads of this handle.
pub fn carry_in_threads<R: Threads + Wait + Sync, P: Paths>(
    rt: &R,
    alloc: Global,
    options: &Options,
    paths: &mut P,
    left: usize,
    fails: bool,
) -> Result<Outcome, Unready>
    requires range { IsInRange options.now }
    requires no_swaps { swaps_asked options.now ≡ 0 }
{
    let table = table(alloc)?;
    let spares = Vec::new(alloc);
    Ok(carry_over(rt, alloc, options, paths, table, spares, left, fails))
}

/// The same over this table, with these spares for its swaps.
pub fn carry_over<R: Threads + Wait + Sync, P: Paths, T: Tablet + Send>(
    rt: &R,
    alloc: Global,
    options: &Options,
    paths: &mut P,
    table: Table<T>,
    spares: Vec<(usize, T)>,
    left: usize,
    fails: bool,
) -> Outcome
    requires range { IsInRange options.now }
    requires spares { vec_len spares ≡ swaps_asked options.now }
    requires empty { table.contents ≡ nothing }
{
    let mut out = Sheet::new(alloc, left, fails);
    let mut err = Sheet::new(alloc, usize::MAX, fails);
    let status = command(rt, alloc, options, paths, table, spares, &mut out, &mut err);
    Outcome {
        status,
        out: out.bytes,
        err: err.bytes,
    }
}

/// Whether a command prints nothing but this fault.
pub fn has_told(outcome: Result<Outcome, Unready>, fault: &str) -> bool {
    match outcome {
        Ok(outcome) => {
            outcome.status == 1
                && outcome.out.is_empty()
                && outcome.err.as_slice() == fault.as_bytes()
        }
        Err(_) => false,
    }
}

/// Whether a command printed so many bytes of this text, and reports that its output then failed or
/// took none.
pub fn is_cut(outcome: Result<Outcome, Unready>, taken: usize, text: &[u8]) -> bool {
    match outcome {
        Ok(outcome) => {
            outcome.status == 1
                && outcome.out.len() == taken
                && text.starts_with(outcome.out.as_slice())
                && outcome.err.as_slice() == b"cannot write the output\n".as_slice()
        }
        Err(_) => false,
    }
}

/// Whether a command printed this text, and nothing was wrong.
pub fn has_printed(outcome: &Outcome, text: &[u8]) -> bool {
    outcome.status == 0 && outcome.err.is_empty() && outcome.out.as_slice() == text
}
