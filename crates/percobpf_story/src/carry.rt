//! What the words of the story program ask for, done. It takes no leave to wait, so that all of it is proved of calls
//! that return.
ghost use Rattle.std.specs.Prelude.{◌≡◌, false, length};
ghost use Rattle.pb_store.specs.Contents.{nothing};
ghost use Rattle.pb_base.specs.Taking.{taking};
ghost use Rattle.pb_files.specs.Files.{filing};
ghost use Rattle.pb_command.specs.Commands.{ReplayLeaves};
ghost use Rattle.percobpf_story.specs.Replays.{TellsTexts};
ghost use Rattle.percobpf_story.specs.Commands.{StoryCommands};

use crate::frames::Frames;
use crate::replay::tell_texts;
use crate::trial::try_file;
use pb_base::Sink;
use pb_command::{Fault, of_files, status_of};
use pb_files::{Paths, Verdict, tell_file, three_texts_at};
use pb_store::{Table, Tablet};
use pb_texts::{Excerpt, ReplayFiles, StoryOptions};
use std::alloc::Global;

// Tells the story of three files on the table, with the lines of an excerpt, and ends it.
fn tell_files<'a, T: Tablet, P: Paths, O: Sink>(
    alloc: Global,
    files: &ReplayFiles<'a>,
    excerpt: &Excerpt,
    paths: &mut P,
    table: Table<T>,
    out: &mut O,
) -> Result<Verdict, Fault<'a>>
    requires empty { table.contents ≡ nothing }
    requires unfailed { O.failed out.old ≡ false }
    ensures told { ReplayLeaves (TellsTexts excerpt.now (length table.firsts))
        (P.held paths.old) files.now (taking O.taken O.failed out.old out.new) result }
    ensures same { P.held paths.new ≡ P.held paths.old }
    ensures quiet { P.failed paths.new ≡ P.failed paths.old }
{
    let (manifest, script, events) = match three_texts_at(paths, files) {
        Ok(texts) => texts,
        Err(fault) => {
            table.close();
            return Err(Fault::File(fault));
        }
    };
    tell_texts(
        alloc,
        &manifest,
        &script,
        &events,
        table,
        files.clock,
        excerpt,
        out,
    )?;
    Ok(Verdict::Accepted)
}

/// Does what a command line of the story program asked for, on an empty table, and returns the status: 0, or 1 if what it
/// was given is refused or a fault was reported. It ends the table on every path.
///
/// All files are read first, in the order given, and then taken as text, parsed and replayed. A trial reads a program's
/// bytes alone, judges them as `check` does, and runs what is accepted once. Results go to `out`, and the line of the
/// first fault to `err`. A program's bytes that are refused are a result.
pub fn story_command<T: Tablet, P: Paths, O: Sink, E: Sink>(
    alloc: Global,
    options: &StoryOptions,
    paths: &mut P,
    table: Table<T>,
    out: &mut O,
    err: &mut E,
) -> u8
    requires empty { table.contents ≡ nothing }
    requires out_unfailed { O.failed out.old ≡ false }
    requires err_unfailed { E.failed err.old ≡ false }
    ensures { StoryCommands options.now (length table.firsts)
        (filing P.held P.failed paths.old paths.new)
        (taking O.taken O.failed out.old out.new) (taking E.taken E.failed err.old err.new)
        result }
{
    let outcome = match options {
        // The version isn't asked, since what is known before a slot is the same for records of each.
        StoryOptions::Frames(program) => {
            table.close();
            of_files(tell_file::<Frames, P, O>(alloc, program.profile, program.file, paths, out))
        }
        StoryOptions::Replay(files, excerpt) => {
            tell_files(alloc, files, excerpt, paths, table, out)
        }
        StoryOptions::Trial(trial) => {
            table.close();
            of_files(try_file(alloc, trial, paths, out))
        }
    };
    status_of(alloc, &outcome, err)
}
