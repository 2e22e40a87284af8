//! A command line of the story program, read with `clap`.
ghost use Rattle.std.specs.Prelude.{◌≡◌, IfOk, Some, option_map, codes};
ghost use Rattle.clap.specs.Words.{FailsBy, app_of, new_app, fault_of, found_of, kind_of, rows_of, subcommand_of, subcommand_rows_of};
ghost use Rattle.pb_reading.specs.Reading.{texts_of};
ghost use Rattle.pb_texts.specs.Adding.{IsSubcommand, IsApp};
ghost use Rattle.pb_texts.specs.CommandLines.{needs_subcommand};
ghost use Rattle.pb_texts.specs.StoryLines.{frames_app, story_app, story_replay_in, known_in, story_in, story_of, story_fault, story_request};

use crate::words::adding::{with_arg, with_command};
use crate::words::choice::StoryOptions;
use crate::words::excerpt::{events_refused, excerpt_in, story_replay_command};
use crate::words::parse::{
    check_in, file_operand, plus_told, profile_in, profile_option, record_option, replay_in,
};
use crate::words::trial::{trial_command, trial_in, trial_refused};
use clap::error::ErrorKind;
use clap::{ArgMatches, Command, Error};
use std::alloc::{AllocError, Global};

fn frames_command<'a>(alloc: Global) -> Result<Command<'a>, AllocError>
    ensures { IsSubcommand result frames_app }
{
    let bare = Ok(Command::new(alloc, "frames").about(
        "Prints what is known before each slot of a program, or where its bytes are refused",
    ));
    let profiled = with_arg(with_arg(bare, file_operand(alloc)), profile_option(alloc));
    with_arg(profiled, record_option(alloc))
}

// The program without its subcommands.
fn bare_story_program<'a>(alloc: Global) -> Command<'a>
    ensures { app_of result ≡ needs_subcommand (new_app (codes "percobpf_story")) }
{
    let bare = Command::new(alloc, "percobpf_story").subcommand_required(true);
    bare.about(
        "What is known before each slot of a program, what each event of a replay did, and what one run does",
    )
}

fn story_program<'a>(alloc: Global) -> Result<Command<'a>, AllocError>
    ensures { IsApp result story_app }
{
    let frames = with_command(Ok(bare_story_program(alloc)), frames_command(alloc));
    let replays = with_command(frames, story_replay_command(alloc));
    with_command(replays, trial_command(alloc))
}

fn story_matches<'a>(alloc: Global, words: &'a [&'a str]) -> Result<ArgMatches<'a>, Error>
    ensures kinds { FailsBy (fault_of story_app (texts_of words.now)) result }
    ensures subcommand { IfOk result (λ m. subcommand_rows_of m
        ≡ subcommand_of story_app (texts_of words.now)) }
{
    let command = story_program(alloc)?;
    command.try_get_matches_from(words)
}

// What the matches of `replay` name.
fn story_replay_in<'a>(replay: &ArgMatches<'a>) -> Option<StoryOptions<'a>>
    ensures { option_map story_request result ≡ story_replay_in (rows_of (found_of replay.now)) }
{
    let files = replay_in(replay)?;
    Some(StoryOptions::Replay(files, excerpt_in(replay)?))
}

// What the matches of a command line name, where that is no trial.
fn known_in<'a>(matches: &ArgMatches<'a>) -> Option<StoryOptions<'a>>
    ensures { option_map story_request result ≡ known_in (subcommand_rows_of matches.now) }
{
    match matches.subcommand() {
        Some(("frames", frames)) => Some(StoryOptions::Frames(check_in(frames)?)),
        Some(("replay", replay)) => story_replay_in(replay),
        _ => None,
    }
}

// What the matches of a command line name.
fn story_in<'a>(
    alloc: Global,
    matches: &ArgMatches<'a>,
) -> Result<Option<StoryOptions<'a>>, AllocError>
    ensures { IfOk result (λ o. option_map story_request o
        ≡ story_in (subcommand_rows_of matches.now)) }
{
    match matches.subcommand() {
        Some(("trial", trial)) => match trial_in(alloc, trial)? {
            Some(trial) => Ok(Some(StoryOptions::Trial(trial))),
            None => Ok(None),
        },
        _ => Ok(known_in(matches)),
    }
}

// The error of a plus before a number of `frames`, which names the first option that has one.
fn frames_plus_error(alloc: Global, matches: &ArgMatches) -> Result<Error, AllocError>
    ensures { IfOk result (λ e. kind_of e ≡ ErrorKind.ValueValidation) }
{
    let option = match matches.subcommand() {
        Some((_, frames)) if profile_in(frames).is_some() => "--record <N>",
        _ => "--profile <N>",
    };
    plus_told(
        alloc,
        frames_command(alloc),
        "percobpf_story frames",
        option,
    )
}

// The error of words that `clap` takes and that ask for nothing.
fn story_refused(alloc: Global, matches: &ArgMatches) -> Result<Error, AllocError>
    ensures { IfOk result (λ e. kind_of e ≡ ErrorKind.ValueValidation) }
{
    match matches.subcommand() {
        Some(("trial", trial)) => trial_refused(alloc, trial),
        Some(("replay", _)) => events_refused(alloc),
        _ => frames_plus_error(alloc, matches),
    }
}

/// What the words of a command line of the story program ask for, the program's own first. The error of another command
/// line has the text and the status to end with; where help is asked for, the help with status 0.
pub fn story_options<'a>(alloc: Global, words: &'a [&'a str]) -> Result<StoryOptions<'a>, Error>
    ensures kinds { FailsBy (story_fault (texts_of words.now)) result }
    ensures read { IfOk result (λ o. story_of (texts_of words.now) ≡ Some (story_request o)) }
{
    let matches = story_matches(alloc, words)?;
    match story_in(alloc, &matches)? {
        Some(options) => Ok(options),
        // Of what `clap` takes, only a plus before the number of a profile or of a version asks for nothing, a cell or a value
        // of a trial that no script has, or an `--events` that names no events.
        None => Err(story_refused(alloc, &matches)?),
    }
}
