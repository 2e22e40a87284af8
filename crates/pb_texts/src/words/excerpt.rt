//! The words of a story's replay, read with `clap`, and which events' lines they ask for.
ghost use Rattle.std.specs.Prelude.{◌≡◌, false, IfOk, codes};
ghost use Rattle.clap.specs.Words.{first_of, found_of, kind_of, rows_of, rule_of};
ghost use Rattle.pb_texts.specs.Adding.{IsSubcommand};
ghost use Rattle.pb_texts.specs.ExcerptWords.{events_rule, idle_rule, story_replay_app, event_named, span_named, span_of, has_flag, excerpt_in};

use crate::words::adding::with_arg;
use crate::words::choice::Excerpt;
use crate::words::parse::{replay_command, value_error, value_in};
use clap::error::ErrorKind;
use clap::{Arg, ArgAction, ArgMatches, Command, Error};
use pb_reading::numeral_upto;
use std::alloc::{AllocError, Global};

// The form of `--events`, as its fault names it.
const NO_EVENTS: &str =
    "not two numbers with a hyphen between them, the first at most the second, both 0 to 18446744073709551615, in digits without a zero before them";

fn events_option<'a>(alloc: Global) -> Arg<'a>
    ensures rule { rule_of result ≡ events_rule }
    ensures local { result.global ≡ false }
{
    Arg::new(alloc, "events")
        .long("events")
        .value_name("A-B")
        .help(
            "Prints the lines of events A to B alone, counted from 0 (of all events if not given)",
        )
}

fn idle_option<'a>(alloc: Global) -> Arg<'a>
    ensures rule { rule_of result ≡ idle_rule }
    ensures local { result.global ≡ false }
{
    Arg::new(alloc, "idle")
        .long("idle")
        .action(ArgAction::SetTrue)
        .help("Also prints the steps and crashes of actors without a job")
}

/// The subcommand of the program's replays, with the options of a story.
pub fn story_replay_command<'a>(alloc: Global) -> Result<Command<'a>, AllocError>
    ensures { IsSubcommand result story_replay_app }
{
    let about = "Replays a schedule's events, and prints what each did, and then the report";
    let replay = replay_command(alloc)?.about(about);
    with_arg(
        with_arg(Ok(replay), events_option(alloc)),
        idle_option(alloc),
    )
}

fn event_named(text: &str) -> Option<u64>
    ensures { result ≡ event_named text.now }
{
    match numeral_upto((), (), u64::MAX, text) {
        Ok(event) => Some(event),
        Err(_) => None,
    }
}

// The first and the last event of `A-B`.
fn span_named(text: &str) -> Option<(u64, u64)>
    ensures { result ≡ span_named text.now }
{
    let (first, last) = text.split_once('-')?;
    let first = event_named(first)?;
    let last = event_named(last)?;
    if first <= last {
        Some((first, last))
    } else {
        None
    }
}

// The first and the last event that the matches name.
fn events_in(replay: &ArgMatches) -> Option<(u64, u64)>
    ensures { result ≡ span_of (first_of (codes "events") (rows_of (found_of replay.now))) }
{
    match value_in(replay, "events") {
        Some(text) => span_named(text),
        None => Some((0, u64::MAX)),
    }
}

// Whether an option without a value is there. Its value is text, `true` or `false`.
fn has_flag(matches: &ArgMatches, name: &str) -> bool
    ensures { result ≡ has_flag name.now (rows_of (found_of matches.now)) }
{
    match value_in(matches, name) {
        Some(text) => text == "true",
        None => false,
    }
}

/// The events whose lines the matches of `replay` ask for.
pub fn excerpt_in(replay: &ArgMatches) -> Option<Excerpt>
    ensures { result ≡ excerpt_in (rows_of (found_of replay.now)) }
{
    let (first, last) = events_in(replay)?;
    Some(Excerpt {
        first,
        last,
        idle: has_flag(replay, "idle"),
    })
}

/// The error of an `--events` that isn't read, with the usage of the subcommand.
pub fn events_refused(alloc: Global) -> Result<Error, AllocError>
    ensures { IfOk result (λ e. kind_of e ≡ ErrorKind.ValueValidation) }
{
    let text = format!(in alloc; "invalid value for '--events <A-B>': {NO_EVENTS}")?;
    value_error(story_replay_command(alloc), "percobpf_story replay", &text)
}
