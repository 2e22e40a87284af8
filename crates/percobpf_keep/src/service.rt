//! Lines that are served, and compactions in between.
ghost use Rattle.std.specs.Prelude.{◌≡◌, ◌≤◌, ◌<◌, ◌^◌, ℕ, List, Option, false, true, if◌then◌else◌, length, IfOk, Ok, OnOk, IsTrue};
ghost use Rattle.sqlite_disk.specs.Disk.{Only};
ghost use Rattle.pb_base.specs.declared.limits.TheConstants.{MAX_OBSERVERS};
ghost use Rattle.pb_keeper.specs.Keeps.{opened_table};
ghost use Rattle.pb_keeper.specs.Stats.{kept_table};
ghost use Rattle.pb_keep.specs.Conversations.{keeper_view};
ghost use Rattle.pb_keep.specs.Opened.{IsOpenedLog};
ghost use Rattle.pb_keep.specs.Waits.{IsWaiting};
ghost use Rattle.pb_registry.specs.Judging.{ReadsManifest};

use crate::copy::check_folder;
use crate::failure::Failure;
use crate::file::make_log;
use crate::head::limit_in;
use crate::names::{Location, open_at, refuse_reserved};
use crate::pauses::{compact_if_large, handle_pause};
use crate::printed::{Printed, write_line};
use crate::table::{Kept, close, keeper_of, new_log, observers_of, open_log};
use crate::watched::WatchedOut;
use pb_accepted::Observer;
use pb_keep::{In, LineSource, serve};
use sqlite_disk::{Disk, Unknown};
use sqlite_std_file::FileFrom;
use std::io::{BufReader, Write};
use std::sync::Wait;

// How many bytes are read at once at most, and so about how many may wait.
const ROOM: usize = 1_048_576;

// Serves the lines of an input until it ends. Where a line asks for it, and where the log has `first` bytes, it is compacted.
fn serve_input<R: Wait, I: LineSource, W: Write + Drop>(
    waits: &R,
    rt: &HostRuntime,
    keeper: &mut Kept,
    manifest: &str,
    location: &mut Location,
    input: &mut I,
    out: &mut WatchedOut<'_, W>,
    least: u64,
    first: u64,
) -> Result<(), Failure>
    requires short { length manifest.now < 2 ^ 30 }
    requires usable { IsTrue (⟦<FileFrom<Unknown> as Disk>⟧.is_usable keeper.old.log.disk) }
    requires waiting { IsWaiting keeper.old.waiting }
    requires manifest { ReadsManifest manifest.now (Ok keeper.old.state.observers) }
{
    let mut limit = first;
    for _pause in waits.forever() {
        let paused = serve(waits, rt.alloc(), keeper, input, out, limit)?;
        match handle_pause(rt, keeper, manifest, location, out, paused, least, limit)? {
            Some(next) => limit = next,
            None => return Ok(()),
        }
    }
    unreachable!()
}

// The same, of standard input.
fn serve_lines<R: Wait, W: Write + Drop>(
    waits: &R,
    rt: &HostRuntime,
    keeper: &mut Kept,
    manifest: &str,
    location: &mut Location,
    out: &mut WatchedOut<'_, W>,
    least: u64,
    first: u64,
) -> Result<(), Failure>
    requires short { length manifest.now < 2 ^ 30 }
    requires usable { IsTrue (⟦<FileFrom<Unknown> as Disk>⟧.is_usable keeper.old.log.disk) }
    requires waiting { IsWaiting keeper.old.waiting }
    requires manifest { ReadsManifest manifest.now (Ok keeper.old.state.observers) }
{
    let mut input = In::new(BufReader::with_capacity(rt.alloc(), ROOM, rt.reader())?);
    serve_input(
        waits, rt, keeper, manifest, location, &mut input, out, least, first,
    )
}

// How many changes a log has of which so many were found: one that begins anew has none.
fn changes_left(is_anew: bool, found: u64) -> u64
    ensures { result ≡ (if is_anew then 0 else found) }
{
    if is_anew { 0 } else { found }
}

// What lines are served with.
#[derive(Clone, Copy)]
struct Begun {
    // How many changes the log has.
    found: u64,
    // Whether it was compacted just before.
    is_anew: bool,
    // From how many bytes on it is compacted next.
    limit: u64,
}

// Opens the log, and compacts it if it is large.
fn open_to_serve(
    rt: &HostRuntime,
    keeper: &mut Kept,
    manifest: &str,
    location: &mut Location,
    least: u64,
) -> Result<Begun, Failure>
    requires short { length manifest.now < 2 ^ 30 }
    requires usable { IsTrue (⟦<FileFrom<Unknown> as Disk>⟧.is_usable keeper.old.log.disk) }
    requires restarted { Only (⟦<FileFrom<Unknown> as Disk>⟧.seen keeper.old.log.disk)
        (⟦<FileFrom<Unknown> as Disk>⟧.may_leave keeper.old.log.disk) }
    requires opened { kept_table keeper.old.state keeper.old.stats.items
        ≡ opened_table keeper.old.state.observers }
    requires waiting { IsWaiting keeper.old.waiting }
    requires manifest { ReadsManifest manifest.now (Ok keeper.old.state.observers) }
    ensures usable { OnOk result
        (IsTrue (⟦<FileFrom<Unknown> as Disk>⟧.is_usable keeper.new.log.disk)) }
    ensures waiting { OnOk result (IsWaiting keeper.new.waiting) }
    ensures manifest { OnOk result
        (ReadsManifest manifest.now (Ok keeper.new.state.observers)) }
    // So many are its changes, which were all made again, or it begins anew.
    ensures found { (written : Option (List ℕ)) → IfOk result (λ begun. begun.is_anew ≡ false
        → IsTrue (⟦<FileFrom<Unknown> as Disk>⟧.is_clean keeper.new.log.disk)
        → IsOpenedLog manifest.now (⟦<FileFrom<Unknown> as Disk>⟧.seen keeper.old.log.disk)
        keeper.old.state.observers begun.found
        (keeper_view (⟦<FileFrom<Unknown> as Disk>⟧.seen)
        (⟦<FileFrom<Unknown> as Disk>⟧.may_leave) keeper.new written)) }
    ensures anew { IfOk result (λ begun. begun.is_anew ≡ true → begun.found ≡ 0) }
{
    let found = open_log(rt.alloc(), keeper, manifest)?;
    let (is_anew, limit) = compact_if_large(rt, keeper, manifest, location, least)?;
    let found = changes_left(is_anew, found);
    Ok(Begun {
        found,
        is_anew,
        limit,
    })
}

// Opens the log, compacts it if it is large, and serves lines.
fn open_and_serve<R: Wait, W: Write + Drop>(
    waits: &R,
    rt: &HostRuntime,
    keeper: &mut Kept,
    manifest: &str,
    location: &mut Location,
    out: &mut WatchedOut<'_, W>,
    least: u64,
) -> Result<(), Failure>
    requires short { length manifest.now < 2 ^ 30 }
    requires usable { IsTrue (⟦<FileFrom<Unknown> as Disk>⟧.is_usable keeper.old.log.disk) }
    requires restarted { Only (⟦<FileFrom<Unknown> as Disk>⟧.seen keeper.old.log.disk)
        (⟦<FileFrom<Unknown> as Disk>⟧.may_leave keeper.old.log.disk) }
    requires opened { kept_table keeper.old.state keeper.old.stats.items
        ≡ opened_table keeper.old.state.observers }
    requires waiting { IsWaiting keeper.old.waiting }
    requires manifest { ReadsManifest manifest.now (Ok keeper.old.state.observers) }
{
    let begun = open_to_serve(rt, keeper, manifest, location, least)?;
    out.follow(location);
    write_line(rt.alloc(), out, Printed::Opened(begun.found))?;
    let first = begun.limit;
    serve_lines(waits, rt, keeper, manifest, location, out, least, first)
}

// Serves lines over the log in this file, with the observers of the manifest.
fn serve_file<R: Wait, W: Write + Drop>(
    waits: &R,
    rt: &HostRuntime,
    disk: FileFrom<Unknown>,
    manifest: &str,
    observers: Vec<Observer>,
    location: &mut Location,
    out: &mut WatchedOut<'_, W>,
    least: u64,
    wanted: Option<u64>,
) -> Result<(), Failure>
    requires short { length manifest.now < 2 ^ 30 }
    requires few { length observers.items ≤ MAX_OBSERVERS }
    requires read { ReadsManifest manifest.now (Ok observers.items) }
    requires usable { IsTrue (⟦<FileFrom<Unknown> as Disk>⟧.is_usable disk) }
    requires restarted { Only (⟦<FileFrom<Unknown> as Disk>⟧.seen disk)
        (⟦<FileFrom<Unknown> as Disk>⟧.may_leave disk) }
{
    let mut log = new_log(disk);
    let limit = limit_in(rt.alloc(), &mut log, location, wanted)?;
    let mut keeper = keeper_of(rt.alloc(), observers, limit, log.disk)?;
    let done = open_and_serve(waits, rt, &mut keeper, manifest, location, out, least);
    close(keeper);
    done
}

/// Serves lines over the log, which is made where there is none, with this limit of entries, if one is wanted. It is compacted where a line
/// asks for it. Where it has at least so many bytes, and twice as many as after the last time, it is compacted too, if its table can be.
/// Lines may ask for copies of it where these have a folder. No file is made for a manifest that is refused.
pub(crate) fn keep<R: Wait>(
    waits: &R,
    rt: &HostRuntime,
    manifest: &str,
    path: &str,
    least: u64,
    wanted: Option<u64>,
    copies: Option<String>,
) -> Result<(), Failure>
    requires short { length manifest.now < 2 ^ 30 }
{
    refuse_reserved(rt.alloc(), path)?;
    let observers = observers_of(rt.alloc(), manifest)?;
    if let Some(folder) = &copies {
        check_folder(rt, folder.as_str())?;
    }
    make_log(rt, path)?;
    let (mut location, db) = open_at(rt, path)?;
    location.copies = copies;
    let mut out = WatchedOut::new(rt, rt.stdout(), &location)?;
    let done = serve_file(
        waits,
        rt,
        db,
        manifest,
        observers,
        &mut location,
        &mut out,
        least,
        wanted,
    );
    out.end(done)
}
