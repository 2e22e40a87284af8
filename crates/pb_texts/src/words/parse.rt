//! A command line, read with `clap`.
ghost use Rattle.std.specs.Prelude.{◌≡◌, ℕ, List, true, IfOk, Some, [], false, option_map, codes};
ghost use Rattle.clap.specs.Words.{FailsBy, app_of, new_app, fault_of, first_of, found_of, kind_of, one_of, rows_of, rule_of, subcommand_of, subcommand_rows_of};
ghost use Rattle.pb_reading.specs.Reading.{texts_of};
ghost use Rattle.pb_texts.specs.CommandLines.{required_rule, number_rule, run_app, needs_subcommand, clock_rule, profile_rule, profile_numbered, profile_named, record_rule, version_numbered, version_of, replay_app, asm_app, dis_app, check_app, scripted_app, program_app, is_within, count_named, workers_of, run_in, clock_of, replay_in, asm_in, dis_in, check_in, command_in, command_of, words_fault, request_of, replay_request, check_request, IsInRange, Run, Replay, Asm, Dis, Check};
ghost use Rattle.pb_texts.specs.Adding.{IsSubcommand, IsApp};
ghost use Rattle.clap.specs.declared.builder.command.Command.TheViews.{out-Command as fields_of};

use crate::words::adding::{with_arg, with_command};
use crate::words::choice::{Options, ProgramFile, ReplayFiles};
use clap::builder::ValueParser;
use clap::error::ErrorKind;
use clap::{Arg, ArgMatches, Command, Error, value_parser};
use pb_base::{MAX_SEATS, Ts};
use pb_helpers::Version;
use pb_isa::Profile;
use std::alloc::{AllocError, Global};

// The first seat is the main thread's.
const MAX_WORKERS: u32 = MAX_SEATS - 1;

// So many swaps may be asked for beside a run's workers.
const MAX_SWAPS: u32 = 1_000;

// The profiles are numbered from 1 on.
const LAST_PROFILE: u32 = 2;

// So are the versions of the change record.
const LAST_VERSION: u32 = 2;

// What stands at the end of each help.
const SEE_CODES: &str = "Codes and exit statuses: docs/CODES.md";

// The help of the operands that two subcommands take.
const MANIFEST: &str = "A JSON file with the observers and their programs";

const SCRIPT: &str = "A text file with the changes, one per line";

// A command without operands and options: its name, and its line of help.
fn bare_command<'a>(alloc: Global, name: &'a str, about: &'a str) -> Command<'a>
    ensures app { app_of result ≡ new_app name.now }
    ensures local { (fields_of result).has_globals ≡ false }
{
    Command::new(alloc, name).about(about).after_help(SEE_CODES)
}

fn operand<'a>(alloc: Global, name: &'a str, help: &'a str) -> Arg<'a>
    ensures rule { rule_of result ≡ required_rule name.now }
    ensures local { result.global ≡ false }
{
    Arg::new(alloc, name).required(true).help(help)
}

// The option `--name`, whose value is a number from `low` to `high`.
fn number_option<'a>(
    alloc: Global,
    name: &'a str,
    value: &'a str,
    low: u32,
    high: u32,
    help: &'a str,
) -> Arg<'a>
    ensures rule { rule_of result ≡ number_rule name.now low high }
    ensures local { result.global ≡ false }
{
    Arg::new(alloc, name)
        .long(name)
        .value_name(value)
        .value_parser(ValueParser::unsigned(u64::from(low), u64::from(high)))
        .help(help)
}

// A subcommand that takes a manifest and a script.
fn scripted_command<'a>(
    alloc: Global,
    name: &'a str,
    about: &'a str,
) -> Result<Command<'a>, AllocError>
    ensures { IsSubcommand result (scripted_app name.now) }
{
    let bare = Ok(bare_command(alloc, name, about));
    let with_manifest = with_arg(bare, operand(alloc, "MANIFEST", MANIFEST));
    with_arg(with_manifest, operand(alloc, "SCRIPT", SCRIPT))
}

fn run_command<'a>(alloc: Global) -> Result<Command<'a>, AllocError>
    ensures { IsSubcommand result run_app }
{
    let about = "Makes a script's changes, runs the observers on them, and prints the report";
    let workers = "How many threads make the changes, 1 to 63 (1 if not given)";
    let swaps = "How many tablets are replaced while the workers run, 0 to 1000 (0 if not given)";
    let scripted = scripted_command(alloc, "run", about);
    let crewed = with_arg(
        scripted,
        number_option(alloc, "workers", "N", 1, MAX_WORKERS, workers),
    );
    with_arg(
        crewed,
        number_option(alloc, "swaps", "M", 0, MAX_SWAPS, swaps),
    )
}

fn clock_option<'a>(alloc: Global) -> Arg<'a>
    ensures rule { rule_of result ≡ clock_rule }
    ensures local { result.global ≡ false }
{
    Arg::new(alloc, "clock")
        .long("clock")
        .value_name("N")
        .value_parser(value_parser!(u64))
        .help("The last timestamp given out before the events (0 if not given)")
}

pub fn replay_command<'a>(alloc: Global) -> Result<Command<'a>, AllocError>
    ensures { IsSubcommand result replay_app }
{
    let about = "Replays a schedule's events with a script's changes, and prints the report";
    let schedule = "A text file with the events, one per line";
    let scripted = scripted_command(alloc, "replay", about);
    let scheduled = with_arg(scripted, operand(alloc, "SCHEDULE", schedule));
    with_arg(scheduled, clock_option(alloc))
}

pub fn file_operand<'a>(alloc: Global) -> Arg<'a>
    ensures rule { rule_of result ≡ required_rule (codes "FILE") }
    ensures local { result.global ≡ false }
{
    operand(alloc, "FILE", "A file with a program's bytes")
}

pub fn profile_option<'a>(alloc: Global) -> Arg<'a>
    ensures rule { rule_of result ≡ profile_rule }
    ensures local { result.global ≡ false }
{
    let help = "The profile of the program, 1 or 2 (1 if not given)";
    number_option(alloc, "profile", "N", 1, LAST_PROFILE, help)
}

pub fn record_option<'a>(alloc: Global) -> Arg<'a>
    ensures rule { rule_of result ≡ record_rule }
    ensures local { result.global ≡ false }
{
    let help = "The version of the change record, 1 or 2 (1 if not given)";
    number_option(alloc, "record", "N", 1, LAST_VERSION, help)
}

fn asm_command<'a>(alloc: Global) -> Result<Command<'a>, AllocError>
    ensures { IsSubcommand result asm_app }
{
    let bare = Ok(bare_command(alloc, "asm", "Writes the bytes of a program's text"));
    let input = operand(alloc, "IN", "A text file with one instruction per line");
    let output = operand(
        alloc,
        "OUT",
        "The file that the program's bytes are written to",
    );
    with_arg(
        with_arg(with_arg(bare, input), output),
        profile_option(alloc),
    )
}

fn dis_command<'a>(alloc: Global) -> Result<Command<'a>, AllocError>
    ensures { IsSubcommand result dis_app }
{
    let about = "Prints the text of a program's bytes, or where they are refused";
    let bare = Ok(bare_command(alloc, "dis", about));
    with_arg(with_arg(bare, file_operand(alloc)), profile_option(alloc))
}

fn check_command<'a>(alloc: Global) -> Result<Command<'a>, AllocError>
    ensures { IsSubcommand result check_app }
{
    let about = "Prints whether a program's bytes are accepted, or where they are refused";
    let bare = Ok(bare_command(alloc, "check", about));
    let profiled = with_arg(with_arg(bare, file_operand(alloc)), profile_option(alloc));
    with_arg(profiled, record_option(alloc))
}

// The program without its subcommands.
fn bare_program<'a>(alloc: Global) -> Command<'a>
    ensures { app_of result ≡ needs_subcommand (new_app (codes "percobpf")) }
{
    let about =
        "A table of cells with snapshot transactions, and BPF observers that run on its changes";
    bare_command(alloc, "percobpf", about).subcommand_required(true)
}

fn program<'a>(alloc: Global) -> Result<Command<'a>, AllocError>
    ensures { IsApp result program_app }
{
    let runs = with_command(Ok(bare_program(alloc)), run_command(alloc));
    let replays = with_command(runs, replay_command(alloc));
    let assembles = with_command(replays, asm_command(alloc));
    let lists = with_command(assembles, dis_command(alloc));
    with_command(lists, check_command(alloc))
}

fn matches_of<'a>(alloc: Global, words: &'a [&'a str]) -> Result<ArgMatches<'a>, Error>
    ensures kinds { FailsBy (fault_of program_app (texts_of words.now)) result }
    ensures subcommand { IfOk result (λ m. subcommand_rows_of m
        ≡ subcommand_of program_app (texts_of words.now)) }
{
    let command = program(alloc)?;
    command.try_get_matches_from(words)
}

pub fn value_in<'a>(run: &ArgMatches<'a>, id: &str) -> Option<&'a str>
    ensures { option_map (λ s. s.now) result ≡ first_of id.now (rows_of (found_of run.now)) }
{
    run.get_str(id)
}

fn is_within(low: u32, high: u32, number: u32) -> bool
    ensures { result ≡ is_within low high number }
{
    low <= number && number <= high
}

// The number from `low` to `high` that a text names. `clap` takes a plus before the digits, and so does `parse`.
fn number_named(text: &str, low: u32, high: u32) -> Option<u32>
    ensures { result ≡ count_named low high (Some text.now) }
{
    if text.starts_with('+') {
        return None;
    }
    match text.parse::<u32>() {
        Ok(number) if is_within(low, high, number) => Some(number),
        Ok(_) => None,
        Err(_) => None,
    }
}

// The number from `low` to `high` that the matches name for an option, `low` where they name none.
fn count_in(matches: &ArgMatches, option: &str, low: u32, high: u32) -> Option<u32>
    ensures { result ≡ count_named low high (first_of option.now (rows_of (found_of matches.now))) }
{
    match value_in(matches, option) {
        Some(text) => number_named(text, low, high),
        None => Some(low),
    }
}

fn workers_in(run: &ArgMatches) -> Option<u32>
    ensures { result ≡ workers_of (first_of (codes "workers") (rows_of (found_of run.now))) }
{
    count_in(run, "workers", 1, MAX_WORKERS)
}

// What the matches of `run` name.
fn run_in<'a>(run: &ArgMatches<'a>) -> Option<Options<'a>>
    ensures { option_map request_of result ≡ run_in (rows_of (found_of run.now)) }
{
    Some(Options::Run {
        workers: workers_in(run)?,
        swaps: count_in(run, "swaps", 0, MAX_SWAPS)?,
        manifest: value_in(run, "MANIFEST")?,
        script: value_in(run, "SCRIPT")?,
    })
}

// The clock that the matches of `replay` name.
fn clock_in(replay: &ArgMatches) -> Option<Ts>
    ensures { option_map (λ t. t.0) result ≡ clock_of
        (one_of (codes "clock") (rows_of (found_of replay.now))) }
{
    match replay.try_get_one::<u64>("clock") {
        Ok(clock) => Some(Ts(clock.unwrap_or(0))),
        Err(_) => None,
    }
}

// What the matches of `replay` name.
pub fn replay_in<'a>(replay: &ArgMatches<'a>) -> Option<ReplayFiles<'a>>
    ensures { option_map replay_request result ≡ replay_in (rows_of (found_of replay.now)) }
{
    Some(ReplayFiles {
        clock: clock_in(replay)?,
        manifest: value_in(replay, "MANIFEST")?,
        script: value_in(replay, "SCRIPT")?,
        schedule: value_in(replay, "SCHEDULE")?,
    })
}

fn profile_numbered(number: u32) -> Profile
    ensures { result ≡ profile_numbered number }
{
    match number {
        1 => Profile::One,
        _ => Profile::Two,
    }
}

// The profile that the matches of `asm`, `dis` or `check` name.
pub fn profile_in(program: &ArgMatches) -> Option<Profile>
    ensures { result ≡ profile_named (first_of (codes "profile") (rows_of (found_of program.now))) }
{
    let number = count_in(program, "profile", 1, LAST_PROFILE)?;
    Some(profile_numbered(number))
}

fn version_numbered(number: u32) -> Version
    ensures { result ≡ version_numbered number }
{
    match number {
        1 => Version::First,
        _ => Version::Second,
    }
}

// The version of the change record that the matches of `check` name.
pub fn version_in(check: &ArgMatches) -> Option<Version>
    ensures { result ≡ version_of (first_of (codes "record") (rows_of (found_of check.now))) }
{
    let number = count_in(check, "record", 1, LAST_VERSION)?;
    Some(version_numbered(number))
}

// What the matches of `asm` name.
fn asm_in<'a>(asm: &ArgMatches<'a>) -> Option<Options<'a>>
    ensures { option_map request_of result ≡ asm_in (rows_of (found_of asm.now)) }
{
    Some(Options::Asm {
        profile: profile_in(asm)?,
        input: value_in(asm, "IN")?,
        output: value_in(asm, "OUT")?,
    })
}

// What the matches of `dis` name.
fn dis_in<'a>(dis: &ArgMatches<'a>) -> Option<Options<'a>>
    ensures { option_map request_of result ≡ dis_in (rows_of (found_of dis.now)) }
{
    Some(Options::Dis {
        profile: profile_in(dis)?,
        file: value_in(dis, "FILE")?,
    })
}

// What the matches of `check` name.
pub fn check_in<'a>(check: &ArgMatches<'a>) -> Option<ProgramFile<'a>>
    ensures { option_map check_request result ≡ check_in (rows_of (found_of check.now)) }
{
    Some(ProgramFile {
        profile: profile_in(check)?,
        version: version_in(check)?,
        file: value_in(check, "FILE")?,
    })
}

fn replay_options<'a>(replay: &ArgMatches<'a>) -> Option<Options<'a>>
    ensures { option_map request_of result ≡ replay_in (rows_of (found_of replay.now)) }
{
    Some(Options::Replay(replay_in(replay)?))
}

fn check_options<'a>(check: &ArgMatches<'a>) -> Option<Options<'a>>
    ensures { option_map request_of result ≡ check_in (rows_of (found_of check.now)) }
{
    Some(Options::Check(check_in(check)?))
}

// What the matches of the subcommand of this name name.
fn subcommand_in<'a>(name: &str, found: &ArgMatches<'a>) -> Option<Options<'a>>
    ensures { option_map request_of result
        ≡ command_in (Some (name.now, rows_of (found_of found.now))) }
{
    match name {
        "run" => run_in(found),
        "replay" => replay_options(found),
        "asm" => asm_in(found),
        "dis" => dis_in(found),
        "check" => check_options(found),
        _ => None,
    }
}

// What the matches of a command line name.
fn command_in<'a>(matches: &ArgMatches<'a>) -> Option<Options<'a>>
    ensures { option_map request_of result ≡ command_in (subcommand_rows_of matches.now) }
{
    match matches.subcommand() {
        Some((name, found)) => subcommand_in(name, found),
        None => None,
    }
}

fn plus_text(alloc: Global, option: &str) -> Result<String, AllocError> {
    format!(in alloc; "invalid value for '{option}': a plus stands before the digits")
}

/// The error of a value that isn't read, with this text and the usage of its subcommand.
pub fn value_error(
    command: Result<Command, AllocError>,
    name: &str,
    text: &str,
) -> Result<Error, AllocError>
    ensures { IfOk result (λ e. kind_of e ≡ ErrorKind.ValueValidation) }
{
    let mut named = command?.bin_name(name)?;
    named.error(ErrorKind::ValueValidation, text)
}

// The error of a plus before the number of this option, with the usage of its subcommand.
pub fn plus_told(
    alloc: Global,
    command: Result<Command, AllocError>,
    name: &str,
    option: &str,
) -> Result<Error, AllocError>
    ensures { IfOk result (λ e. kind_of e ≡ ErrorKind.ValueValidation) }
{
    let text = plus_text(alloc, option)?;
    value_error(command, name, &text)
}

// The first option of `check` that has a plus before its number.
fn checked_option(check: &ArgMatches) -> &'static str {
    if profile_in(check).is_none() {
        "--profile <N>"
    } else {
        "--record <N>"
    }
}

// The first option of `run` that has one.
fn run_option(run: &ArgMatches) -> &'static str {
    if workers_in(run).is_none() {
        "--workers <N>"
    } else {
        "--swaps <M>"
    }
}

// The error of a plus before a number of the subcommand of this name, which names the first option that has one.
fn subcommand_plus_error(alloc: Global, name: &str, found: &ArgMatches) -> Result<Error, AllocError>
    ensures { IfOk result (λ e. kind_of e ≡ ErrorKind.ValueValidation) }
{
    match name {
        "asm" => plus_told(alloc, asm_command(alloc), "percobpf asm", "--profile <N>"),
        "dis" => plus_told(alloc, dis_command(alloc), "percobpf dis", "--profile <N>"),
        "check" => {
            let option = checked_option(found);
            plus_told(alloc, check_command(alloc), "percobpf check", option)
        }
        _ => plus_told(alloc, run_command(alloc), "percobpf run", run_option(found)),
    }
}

// The error of a plus before a number.
fn plus_error(alloc: Global, matches: &ArgMatches) -> Result<Error, AllocError>
    ensures { IfOk result (λ e. kind_of e ≡ ErrorKind.ValueValidation) }
{
    match matches.subcommand() {
        Some((name, found)) => subcommand_plus_error(alloc, name, found),
        None => plus_told(alloc, run_command(alloc), "percobpf run", "--swaps <M>"),
    }
}

/// What the words of a command line ask for, the program's own first. The error of another command line has the text and
/// the status to end with; where help is asked for, the help with status 0. What is taken as `run` has 1 to 63 workers, 1
/// where none are named, and 0 to 1,000 swaps, 0 where none are; `asm`, `dis` and `check` have the profile that is named,
/// or 1, and `check` the version of the record that is named, or 1. The error of others is one that `clap` finds, that of a
/// plus before a number, or memory.
pub fn options<'a>(alloc: Global, words: &'a [&'a str]) -> Result<Options<'a>, Error>
    ensures kinds { FailsBy (words_fault (texts_of words.now)) result }
    ensures read { IfOk result (λ o. command_of (texts_of words.now) ≡ Some (request_of o)) }
    ensures range { IfOk result IsInRange }
{
    let matches = matches_of(alloc, words)?;
    match command_in(&matches) {
        Some(options) => Ok(options),
        // Of what `clap` takes, only a plus before a number other than a clock asks for nothing.
        None => Err(plus_error(alloc, &matches)?),
    }
}
