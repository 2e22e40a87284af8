//! Questions alone, about a log of which as many changes are made as can be.
ghost use Rattle.std.specs.Prelude.{◌≡◌, ◌<◌, ◌^◌, ℕ, List, Ok, Option, length, IfOk, IsTrue, OnOk};
ghost use Rattle.std.specs.Io.KnownBytes.{Appends};
ghost use Rattle.sqlite_disk.specs.Disk.{Only};
ghost use Rattle.pb_keeper.specs.Keeps.{opened_table};
ghost use Rattle.pb_keeper.specs.Stats.{kept_table};
ghost use Rattle.pb_accepted.specs.Observers.{ObserverOf};
ghost use Rattle.pb_keep.specs.Conversations.{keeper_view};
ghost use Rattle.pb_keep.specs.FirstOpened.{IsOpenedFirst, IsOpenedTo, MakesFewer};
ghost use Rattle.pb_keep.specs.Questions.{AnswersAll};
ghost use Rattle.pb_registry.specs.Judging.{ReadsManifest};
ghost use Rattle.percobpf_keep.specs.Printed.{printed_text};
ghost use Rattle.percobpf_keep.specs.declared.printed.Printed.TheVariants.{OpenedFirst};

use crate::failure::Failure;
use crate::file::open_locked;
use crate::head::{head_there, limit_of};
use crate::names::{Location, open_at};
use crate::printed::{Printed, write_line};
use crate::table::{Kept, close, new_keeper, new_log, observers_of};
use pb_base::{Out, Sink};
use pb_keep::{In, Keeper, LineSource, Opened, answer_questions};
use pb_memtablet::ListTablet;
use sqlite_disk::{Disk, Unknown};
use sqlite_std_file::FileFrom;
use std::alloc::Global;
use std::io::BufReader;
use std::sync::Wait;

// How many bytes are read at once at most.
const ROOM: usize = 65_536;

// The limit of entries that the log has. A file in which no log was begun is reported, since opening it would begin one.
fn limit_there(
    rt: &HostRuntime,
    disk: FileFrom<Unknown>,
    location: &Location,
    wanted: Option<u64>,
) -> Result<u64, Failure>
    requires usable { IsTrue (⟦<FileFrom<Unknown> as Disk>⟧.is_usable disk) }
{
    let mut log = new_log(disk);
    let head = head_there(rt.alloc(), &mut log, location)?;
    limit_of(rt.alloc(), &Some(head), wanted, location)
}

// Opens the log of this manifest, whose observers the table has, and makes its first changes again, as many as may be.
fn open_first<D: Disk + Drop>(
    alloc: Global,
    keeper: &mut Keeper<ListTablet, D>,
    manifest: &str,
    most: Option<u64>,
) -> Result<Opened, Failure>
    requires usable { IsTrue (D.is_usable keeper.old.log.disk) }
    requires restarted { Only (D.seen keeper.old.log.disk) (D.may_leave keeper.old.log.disk) }
    requires short { length manifest.now < 2 ^ 30 }
    requires opened { kept_table keeper.old.state keeper.old.stats.items
        ≡ opened_table keeper.old.state.observers }
    ensures fewer { IfOk result (MakesFewer most) }
    ensures made { (written : Option (List ℕ)) → IfOk result (λ opened.
        IsTrue (D.is_clean keeper.new.log.disk)
        → IsOpenedTo keeper.old.state.observers manifest.now (D.seen keeper.old.log.disk) most
        (keeper_view D.seen D.may_leave keeper.new written) opened) }
{
    Ok(keeper.open_first(alloc, manifest.as_bytes(), most)?)
}

// Opens the log once more, and makes its first changes again, at most `most` where a number is given. Returns how far that went.
fn open_once(
    rt: &HostRuntime,
    limit: u64,
    manifest: &str,
    location: &Location,
    most: Option<u64>,
) -> Result<(Kept, Opened), Failure>
    requires short { length manifest.now < 2 ^ 30 }
    ensures fewer { IfOk result (λ o. MakesFewer most o.1) }
    ensures made { (written : Option (List ℕ)) → IfOk result (λ o.
        IsTrue (⟦<FileFrom<Unknown> as Disk>⟧.is_clean o.0.log.disk)
        → (observers : List ObserverOf) × ReadsManifest manifest.now (Ok observers)
        × ((file : List ℕ) × IsOpenedTo observers manifest.now file most
        (keeper_view (⟦<FileFrom<Unknown> as Disk>⟧.seen)
        (⟦<FileFrom<Unknown> as Disk>⟧.may_leave) o.0 written) o.1)) }
{
    let db = open_locked(rt, &location.file, location.log.as_str())?;
    let mut keeper = new_keeper(rt.alloc(), manifest, limit, db)?;
    match open_first(rt.alloc(), &mut keeper, manifest, most) {
        Ok(opened) => Ok((keeper, opened)),
        Err(fault) => {
            close(keeper);
            Err(fault)
        }
    }
}

// Opens the log, and makes as many changes again as can be made. Where one is stopped, a beginning of it may stand in the table: this is
// closed, and those before it alone are made. Returns how many were made of how many.
fn open_as_far(
    rt: &HostRuntime,
    limit: u64,
    manifest: &str,
    location: &Location,
) -> Result<(Kept, u64, u64), Failure>
    requires short { length manifest.now < 2 ^ 30 }
    // The table has the first changes of its log: so many of so many.
    ensures made { (written : Option (List ℕ)) → IfOk result (λ o.
        IsTrue (⟦<FileFrom<Unknown> as Disk>⟧.is_clean o.0.log.disk)
        → (observers : List ObserverOf) × ReadsManifest manifest.now (Ok observers)
        × ((file : List ℕ) × (most : Option ℕ)
        × IsOpenedFirst observers manifest.now file most o.1 o.2
        (keeper_view (⟦<FileFrom<Unknown> as Disk>⟧.seen)
        (⟦<FileFrom<Unknown> as Disk>⟧.may_leave) o.0 written))) }
{
    let (first, opened) = open_once(rt, limit, manifest, location, None)?;
    let mut most = match opened {
        Opened::Made(made, all) => return Ok((first, made, all)),
        Opened::Stopped(made, _) => made,
    };
    close(first);
    'tries: loop {
        let (keeper, opened) = open_once(rt, limit, manifest, location, Some(most))?;
        match opened {
            Opened::Made(made, all) => return Ok((keeper, made, all)),
            Opened::Stopped(made, _) => most = made,
        }
        close(keeper);
    }
}

// Writes how many changes were made of how many, and answers the lines of the input.
fn answer_lines<R: Wait, I: LineSource, S: Sink>(
    waits: &R,
    alloc: Global,
    keeper: &Kept,
    input: &mut I,
    out: &mut S,
    made: u64,
    all: u64,
) -> Result<(), Failure>
    ensures { OnOk result ((begun : Option (List ℕ))
        × Appends (S.taken out.old) begun (printed_text (OpenedFirst made all))
        × AnswersAll keeper.now.since.0 (kept_table keeper.now.state keeper.now.stats.items)
        keeper.now.log.end (I.remaining input.old) begun (S.taken out.new)) }
{
    write_line(alloc, out, Printed::OpenedFirst(made, all))?;
    answer_questions(waits, alloc, keeper, input, out)?;
    Ok(())
}

/// Opens the log, as far as its changes can be made, and answers questions about it until the input ends. No log is made, and nothing is
/// written to the one that is there.
pub(crate) fn answer_alone<R: Wait>(
    waits: &R,
    rt: &HostRuntime,
    manifest: &str,
    path: &str,
    wanted: Option<u64>,
) -> Result<(), Failure>
    requires short { length manifest.now < 2 ^ 30 }
{
    // What lines are read into is there before the table takes the memory that it can get.
    let mut input = In::new(BufReader::with_capacity(rt.alloc(), ROOM, rt.reader())?);
    // The log isn't opened for a manifest that is refused.
    drop(observers_of(rt.alloc(), manifest)?);
    let (location, db) = open_at(rt, path)?;
    let limit = limit_there(rt, db, &location, wanted)?;
    let (keeper, made, all) = open_as_far(rt, limit, manifest, &location)?;
    let mut out = Out::new(rt.stdout());
    let done = answer_lines(waits, rt.alloc(), &keeper, &mut input, &mut out, made, all);
    close(keeper);
    done
}
