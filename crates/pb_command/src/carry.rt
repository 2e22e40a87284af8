//! A command carried out: its files read, its work done, and its outcome returned as a status.
ghost use Rattle.std.specs.Prelude.{◌≡◌, ◌≤◌, ◌<◌, ◌↔◌, false, length, vec_len, IsTrue};
ghost use Rattle.pb_base.specs.declared.limits.TheConstants.{MAX_SEATS};
ghost use Rattle.pb_store.specs.Contents.{nothing};
ghost use Rattle.pb_texts.specs.CommandLines.{IsInRange, swaps_asked};
ghost use Rattle.pb_threads.specs.Swaps.{spares_of};
ghost use Rattle.pb_base.specs.Taking.{taking};
ghost use Rattle.pb_driver.specs.Replays.{ReplaysTexts};
ghost use Rattle.pb_files.specs.Files.{filing};
ghost use Rattle.pb_command.specs.Commands.{IsAllDone, files_outcome, RunLeaves, ReplayLeaves, IsToldAs, IsSequential, Commands};

use crate::fault::{Fault, tell};
use pb_base::{Sink, Ts};
use pb_driver::{Ran, replay_texts, run_texts};
use pb_files::{
    FileFault, Listing, Paths, Verdict, assemble_file, check_file, tell_file, texts_at,
    three_texts_at,
};
use pb_store::{Table, Tablet};
use pb_texts::{Options, ReplayFiles};
use pb_threads::end_spares;
use std::alloc::Global;
use std::sync::Wait;
use std::thread::Threads;

// Whether a run left nothing undone: no seat refused, and no change unfinished.
fn is_all_done(ran: &Ran) -> bool
    ensures { IsTrue result ↔ IsAllDone ran.now }
{
    ran.refusals.iter().all(|r| r.is_none()) && ran.unfinished.is_empty()
}

// Has so many workers run two files on the table, beside the swaps of the spares, and ends all.
fn run_files<'a, R: Threads + Wait + Sync, T: Tablet + Send, P: Paths, O: Sink>(
    rt: &R,
    alloc: Global,
    manifest: &'a str,
    script: &'a str,
    workers: u32,
    paths: &mut P,
    table: Table<T>,
    spares: Vec<(usize, T)>,
    out: &mut O,
) -> Result<Verdict, Fault<'a>>
    requires some { 1 ≤ workers }
    requires few { workers < MAX_SEATS }
    requires empty { table.contents ≡ nothing }
    requires unfailed { O.failed out.old ≡ false }
    ensures ran { RunLeaves (length table.firsts) (P.held paths.old) manifest.now script.now workers
        (spares_of T.contents spares.items)
        (taking O.taken O.failed out.old out.new) result }
    ensures same { P.held paths.new ≡ P.held paths.old }
    ensures quiet { P.failed paths.new ≡ P.failed paths.old }
{
    let (manifest, script) = match texts_at(paths, manifest, script) {
        Ok(texts) => texts,
        Err(fault) => {
            table.close();
            end_spares(spares);
            return Err(Fault::File(fault));
        }
    };
    let ran = run_texts(
        rt,
        alloc,
        &manifest,
        &script,
        workers,
        table,
        spares,
        Ts(0),
        out,
    )?;
    // The report is written whatever was left undone, so this is reported after it.
    if is_all_done(&ran) {
        Ok(Verdict::Accepted)
    } else {
        Err(Fault::Undone(ran))
    }
}

// Replays three files on the table, and ends it.
fn replay_files<'a, T: Tablet, P: Paths, O: Sink>(
    alloc: Global,
    files: &ReplayFiles<'a>,
    paths: &mut P,
    table: Table<T>,
    out: &mut O,
) -> Result<Verdict, Fault<'a>>
    requires empty { table.contents ≡ nothing }
    requires unfailed { O.failed out.old ≡ false }
    ensures ran { ReplayLeaves (ReplaysTexts (length table.firsts)) (P.held paths.old) files.now
        (taking O.taken O.failed out.old out.new) result }
    ensures same { P.held paths.new ≡ P.held paths.old }
    ensures quiet { P.failed paths.new ≡ P.failed paths.old }
{
    let (manifest, script, events) = match three_texts_at(paths, files) {
        Ok(texts) => texts,
        Err(fault) => {
            table.close();
            return Err(Fault::File(fault));
        }
    };
    replay_texts(alloc, &manifest, &script, &events, table, files.clock, out)?;
    Ok(Verdict::Accepted)
}

/// The outcome of what is done with files alone, as a command's.
pub fn of_files<'a>(left: Result<Verdict, FileFault<'a>>) -> Result<Verdict, Fault<'a>>
    ensures { result ≡ files_outcome left.entry }
{
    match left {
        Ok(verdict) => Ok(verdict),
        Err(fault) => Err(Fault::File(fault)),
    }
}

/// The status of an outcome. Its fault, if it is one, is printed.
pub fn status_of<'a, E: Sink>(
    alloc: Global,
    outcome: &Result<Verdict, Fault<'a>>,
    err: &mut E,
) -> u8
    requires unfailed { E.failed err.old ≡ false }
    ensures { IsToldAs outcome.now (taking E.taken E.failed err.old err.new) result }
{
    match outcome {
        Ok(Verdict::Accepted) => 0,
        Ok(Verdict::Refused) => 1,
        Err(fault) => {
            tell(alloc, fault, err);
            1
        }
    }
}

/// Does what a command line asked for, on an empty table, and answers the status: 0, or 1 if what
/// it was given is refused or a fault was reported. It ends the table on every path, and the
/// spares, which only `run` puts in. It waits for nothing and starts no thread: `run` is for
/// [`command`], since a call that may wait meets any contract by never returning.
///
/// All files are read first, in the order given, and then taken as text, parsed and replayed.
/// Results go to `out`, and the line of the first fault to `err`. A program's bytes that are
/// refused are a result. Where `replay` answers 0, its three texts were replayed from its clock,
/// and the whole report was written. Where `asm` does, OUT holds the encoding of the program whose
/// text IN holds. Where `dis` does, its bytes are a program's, and the whole listing was written.
/// Where `check` does, the rules accept them with all helpers, and the line with the number of
/// slots was written. Where a write failed, a beginning was written. It reports that OUT can't be
/// written only if a write failed.
pub fn sequential_command<T: Tablet, P: Paths, O: Sink, E: Sink>(
    alloc: Global,
    options: &Options,
    paths: &mut P,
    table: Table<T>,
    spares: Vec<(usize, T)>,
    out: &mut O,
    err: &mut E,
) -> u8
    requires sequential { IsSequential options.now }
    requires empty { table.contents ≡ nothing }
    requires out_unfailed { O.failed out.old ≡ false }
    requires err_unfailed { E.failed err.old ≡ false }
    ensures { Commands options.now (length table.firsts) (spares_of T.contents spares.items)
        (filing P.held P.failed paths.old paths.new) (taking O.taken O.failed out.old out.new)
        (taking E.taken E.failed err.old err.new) result }
{
    // None of these commands swaps, and tablets are linear, so that the spares are ended at once.
    end_spares(spares);
    let outcome = match options {
        Options::Run { .. } => unreachable!(),
        Options::Replay(files) => replay_files(alloc, files, paths, table, out),
        Options::Asm {
            input,
            output,
            profile,
        } => {
            table.close();
            of_files(assemble_file(alloc, *profile, input, output, paths))
        }
        Options::Dis { file, profile } => {
            table.close();
            of_files(tell_file::<Listing, P, O>(alloc, *profile, file, paths, out))
        }
        Options::Check(program) => {
            table.close();
            of_files(check_file(alloc, program, paths, out))
        }
    };
    status_of(alloc, &outcome, err)
}

/// Does what a command line asked for, as [`sequential_command`] does; and `run`, for which it lets workers go in threads of
/// their own, as far as these can be started, swaps the spares in beside them, each at its place, and waits for the workers
/// and for their table's lock. There is a spare for each swap that is asked for.
///
/// Where the report of a run was written, but a worker was refused or a change is unfinished, a
/// line for each goes to `err`, and the status is 1. Where `run` answers 0, the texts that its two
/// paths hold ran so from the clock 0, the whole report was written, no seat was refused, and no
/// change is unfinished. It reports that a file can't be read, or is too large, only if reading its
/// path answers just that, and all paths before it are read. It reports that a file isn't text only
/// if all are read, and then names the first such path. A fault has one line; if memory is refused
/// for that, the line is `no memory`.
pub fn command<R: Threads + Wait + Sync, T: Tablet + Send, P: Paths, O: Sink, E: Sink>(
    rt: &R,
    alloc: Global,
    options: &Options,
    paths: &mut P,
    table: Table<T>,
    spares: Vec<(usize, T)>,
    out: &mut O,
    err: &mut E,
) -> u8
    requires range { IsInRange options.now }
    requires spares { vec_len spares ≡ swaps_asked options.now }
    requires empty { table.contents ≡ nothing }
    requires out_unfailed { O.failed out.old ≡ false }
    requires err_unfailed { E.failed err.old ≡ false }
    ensures { Commands options.now (length table.firsts) (spares_of T.contents spares.items)
        (filing P.held P.failed paths.old paths.new) (taking O.taken O.failed out.old out.new)
        (taking E.taken E.failed err.old err.new) result }
{
    match options {
        Options::Run {
            manifest,
            script,
            workers,
            swaps: _,
        } => {
            let ended = run_files(
                rt, alloc, manifest, script, *workers, paths, table, spares, out,
            );
            status_of(alloc, &ended, err)
        }
        _ => sequential_command(alloc, options, paths, table, spares, out, err),
    }
}
