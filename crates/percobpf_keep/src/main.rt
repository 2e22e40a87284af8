//! `percobpf_keep MANIFEST LOG` keeps a table on a disk. It opens the log, or makes it, makes its changes again with the
//! observers of the manifest, and then reads lines of standard input and answers each on standard output.
//! `percobpf_keep --compact MANIFEST LOG` puts a log in its place that begins with a snapshot of the table, also for a manifest
//! with other observers. `percobpf_keep --compact-at BYTES MANIFEST LOG` does so while it serves, where the log has so many bytes.
//! `percobpf_keep --questions MANIFEST LOG` makes as many of the changes again as can be made, and answers questions alone.
//! `percobpf_keep --copy LOG PATH` copies a log, and `percobpf_keep --manifest LOG` prints the manifest that one has.
//!
//! It is main alone: `pb_keep` does what a line asks for. Here the table is made, and words, manifest and log are taken
//! from the system. With the manifest of examples/copy.json, `put 7 0 2a` is answered `made 2 runs 1`.
#![tactic(auto)]

ghost use Rattle.std.specs.Prelude.{◌≡◌, ◌∷◌, None, Some, codes, IfErr, IfOk, OnOk};
ghost use Rattle.std.specs.Vec.Iter.{into_iter_items};
ghost use Rattle.percobpf_keep.specs.Options.{AreGiven, HasFolder, HasNumber, IsNumberRead};
ghost use Rattle.percobpf_keep.specs.declared.failure.Failure.TheVariants as ends;

mod anew;
mod compact;
mod copy;
mod failure;
mod file;
mod head;
mod names;
mod new_file;
mod pauses;
mod printed;
mod questions;
mod service;
mod table;
mod watched;

use anew::compact_alone;
use copy::copy_alone;
use failure::{Failure, Wanted, status_of};
use head::print_manifest;
use pb_reading::numeral_upto;
use questions::answer_alone;
use service::keep;
use std::env::{self, Args};
use std::process::ExitCode;
use std::sync::Wait;
use table::manifest_at;

const USAGE: &str = "\
Usage: percobpf_keep [--limit ENTRIES] [--copies FOLDER] MANIFEST LOG
       percobpf_keep [--limit ENTRIES] --compact MANIFEST LOG
       percobpf_keep [--limit ENTRIES] [--copies FOLDER] --compact-at BYTES MANIFEST LOG
       percobpf_keep [--limit ENTRIES] --questions MANIFEST LOG
       percobpf_keep --copy LOG PATH
       percobpf_keep --manifest LOG

Keeps a table on a disk, with the observers of MANIFEST. LOG is opened, or made, and its changes are made again. Then each
line of standard input is answered: `put ROW COL HEX; ..`, `del ROW COL; ..`, `if ROW COL COMMIT; put ..`, `get ROW COL`,
`since COMMIT`, `list`, `quiet?`, `stats`, `begin`, `end`, `compact`, `copy NUMBER`. docs/KEEPING.md describes them.

With --compact, a log that begins with a snapshot of the table is put in the place of LOG. It has the
newest version of each cell, and takes the place that these want. MANIFEST may have other observers than LOG: new ones run for all
that was written before, those of both go on, and the others are gone. With --compact-at, LOG is compacted while lines are
answered, where it has at least BYTES bytes and twice as many as after the last time.

With --limit, the table of a new LOG has ENTRIES entries at most, and 10000000 without it: a change of a table that has so many is
refused. That of a LOG that is there has its own limit, which --compact changes.

With --questions, LOG is opened up to the last change that can be made here: where memory is refused for one, the table is the one
before it. The first line is `open N of M`: N of the M changes were made. Then `get`, `since`, `list`, `quiet?` and `stats` are
answered, and other lines are refused with 76. LOG has to be there, and nothing is written to it.

With --copies, a line `copy NUMBER` copies LOG to FOLDER/NUMBER.log, and without it such lines are refused with 76. With --copy, a LOG
that isn't served is copied to PATH. Nothing may be there before, and what is there then is a whole log, which is on the disk.

With --manifest, the manifest is printed that LOG was made or compacted with.
";

// The number that is wanted after an option.
fn number_of(word: Option<String>, wanted: Wanted) -> Result<u64, Failure>
    ensures { IsNumberRead word wanted result }
{
    let Some(word) = word else {
        return Err(Failure::Words);
    };
    let read = numeral_upto((), (), u64::MAX, word.as_str());
    match read {
        Ok(number) => Ok(number),
        Err(()) => Err(Failure::NoNumber(wanted, word)),
    }
}

// The word that is wanted next.
fn next_word(words: &mut Args) -> Result<String, Failure>
    ensures word { IfOk result (λ word.
        into_iter_items words.old ≡ word ∷ into_iter_items words.new) }
    ensures none { IfErr result (λ e. e ≡ ends.Words) }
{
    match words.next() {
        Some(word) => Ok(word),
        None => Err(Failure::Words),
    }
}

// What is given before what is to be done.
#[derive(Drop)]
struct Given {
    // The limit of entries.
    limit: Option<u64>,
    // The folder of copies.
    copies: Option<String>,
}

// The limit of entries, if it stands first, and the word after it.
fn limit_first(words: &mut Args) -> Result<(Option<u64>, String), Failure>
    ensures { IfOk result (λ r. HasNumber (codes "--limit") r.0
        (into_iter_items words.old) (r.1 ∷ into_iter_items words.new)) }
{
    let first = next_word(words)?;
    if first.as_str() != "--limit" {
        return Ok((None, first));
    }
    let limit = number_of(words.next(), Wanted::Entries)?;
    Ok((Some(limit), next_word(words)?))
}

// The folder of copies, if it stands first of this word and those after it, and the word after it.
fn copies_first(words: &mut Args, first: String) -> Result<(Option<String>, String), Failure>
    ensures { IfOk result (λ r. HasFolder (codes "--copies") r.0
        (first ∷ into_iter_items words.old) (r.1 ∷ into_iter_items words.new)) }
{
    if first.as_str() != "--copies" {
        return Ok((None, first));
    }
    let folder = next_word(words)?;
    Ok((Some(folder), next_word(words)?))
}

// The limit of entries and the folder of copies, if they stand first, and the word after them.
fn first_words(words: &mut Args) -> Result<(Given, String), Failure>
    ensures { IfOk result (λ r. AreGiven r.0.limit r.0.copies
        (into_iter_items words.old) (r.1 ∷ into_iter_items words.new)) }
{
    let (limit, first) = limit_first(words)?;
    let (copies, first) = copies_first(words, first)?;
    Ok((Given { limit, copies }, first))
}

// The limit that is given, with which nothing else may be.
fn limit_alone(given: Given) -> Result<Option<u64>, Failure>
    ensures alone { IfOk result (λ limit. (limit ≡ given.limit) × (given.copies ≡ None)) }
    ensures refused { IfErr result (λ e. (e ≡ ends.Options) × (given.copies ≡ None → ⊥)) }
{
    match given.copies {
        None => Ok(given.limit),
        Some(_) => Err(Failure::Options),
    }
}

// Reports what is given, where nothing may be.
fn refuse_given(given: Given) -> Result<(), Failure>
    ensures alone { OnOk result ((given.limit ≡ None) × (given.copies ≡ None)) }
    ensures refused { IfErr result (λ e. (e ≡ ends.Options)
        × ((given.limit ≡ None) × (given.copies ≡ None) → ⊥)) }
{
    match (given.limit, given.copies) {
        (None, None) => Ok(()),
        _ => Err(Failure::Options),
    }
}

// Copies the log of the last words.
fn do_copy(rt: &HostRuntime, mut words: Args, given: Given) -> Result<(), Failure> {
    refuse_given(given)?;
    let (Some(log), Some(path), None) = (words.next(), words.next(), words.next()) else {
        return Err(Failure::CopyWords);
    };
    copy_alone(rt, log.as_str(), path.as_str())
}

// Prints the manifest of the log of the last word.
fn do_manifest(rt: &HostRuntime, mut words: Args, given: Given) -> Result<(), Failure> {
    refuse_given(given)?;
    let (Some(log), None) = (words.next(), words.next()) else {
        return Err(Failure::ManifestWords);
    };
    print_manifest(rt, log.as_str())
}

// The names of the manifest and of the log: the last words.
fn last_words(manifest: Option<String>, mut words: Args) -> Result<(String, String), Failure>
    ensures manifest { IfOk result (λ r. manifest ≡ Some r.0) }
    ensures none { IfErr result (λ e. e ≡ ends.Words) }
{
    let (Some(manifest), Some(log), None) = (manifest, words.next(), words.next()) else {
        return Err(Failure::Words);
    };
    Ok((manifest, log))
}

// What is done with a log.
#[derive(Drop)]
enum Asked {
    // Lines are served, with what is given, and it is compacted where it has so many bytes.
    Serve(u64, Given),
    // It is compacted for this limit, if one is given.
    Compact(Option<u64>),
    Questions(Option<u64>),
}

// Does it, with the manifest and the log of the last words.
fn do_asked<R: Wait>(
    waits: &R,
    rt: &HostRuntime,
    asked: Asked,
    manifest: Option<String>,
    words: Args,
) -> Result<(), Failure> {
    let (manifest, log) = last_words(manifest, words)?;
    let text = manifest_at(rt, manifest.as_str())?;
    let (text, log) = (text.as_str(), log.as_str());
    match asked {
        Asked::Serve(least, given) => keep(waits, rt, text, log, least, given.limit, given.copies),
        Asked::Compact(limit) => compact_alone(rt, text, log, limit),
        Asked::Questions(limit) => answer_alone(waits, rt, text, log, limit),
    }
}

// Does what the words ask for of which this is the first after what is given.
fn do_words<R: Wait>(
    waits: &R,
    rt: &HostRuntime,
    first: String,
    mut words: Args,
    given: Given,
) -> Result<(), Failure> {
    let asked = match first.as_str() {
        "--help" => {
            print!(rt; "{USAGE}")?;
            return Ok(());
        }
        "--copy" => return do_copy(rt, words, given),
        "--manifest" => return do_manifest(rt, words, given),
        "--compact" => Asked::Compact(limit_alone(given)?),
        "--compact-at" => Asked::Serve(number_of(words.next(), Wanted::Bytes)?, given),
        "--questions" => Asked::Questions(limit_alone(given)?),
        _ => return do_asked(waits, rt, Asked::Serve(u64::MAX, given), Some(first), words),
    };
    do_asked(waits, rt, asked, words.next(), words)
}

// Does what all words ask for.
fn do_all<R: Wait>(waits: &R, rt: &HostRuntime) -> Result<(), Failure> {
    let mut words = env::args(rt)?;
    let _name = words.next();
    let (given, first) = first_words(&mut words)?;
    do_words(waits, rt, first, words, given)
}

// The handle goes down twice, as the host and as what may wait, since a `HostRuntime` may wait in `main` alone.
fn main(rt: HostRuntime) -> ExitCode {
    ExitCode::from(status_of(&rt, do_all(&rt, &rt)))
}
