//! The words of a trial, read with `clap`, and its cells, read as a script's words are.
ghost use Rattle.std.specs.Prelude.{◌≡◌, false, IfOk, option_map, codes};
ghost use Rattle.clap.specs.Words.{app_of, new_app, found_of, kind_of, rows_of, rule_of};
ghost use Rattle.clap.specs.declared.builder.command.Command.TheViews.{out-Command as fields_of};
ghost use Rattle.pb_reading.specs.Reading.{texts_of};
ghost use Rattle.pb_texts.specs.Adding.{IsSubcommand};
ghost use Rattle.pb_texts.specs.TrialWords.{text_rule, required_option, cell_rule, change_app, trial_app, row_named, column_named, value_named, trial_cell, cells_named, trial_cells_in, change_in, old_in, trial_with, trial_in, trial_request};

use crate::words::adding::with_arg;
use crate::words::choice::{Trial, TrialCell};
use crate::words::parse::{
    check_in, file_operand, profile_in, profile_option, record_option, value_error, value_in,
    version_in,
};
use clap::error::ErrorKind;
use clap::{Arg, ArgAction, ArgMatches, Command, Error};
use pb_base::{COLUMNS, Column, Row, Value};
use pb_parse::value_of_word;
use pb_reading::numeral_upto;
use std::alloc::{AllocError, Global};

// The form of each option, as help and faults name it.
const NO_ROW: &str = "not 0 to 18446744073709551615, in digits without a zero before them";

const NO_COLUMN: &str = "not 0 to 15, in digits without a zero before them";

const NO_VALUE: &str = "not 2 to 64 lower-case hexadecimal digits, even in number";

const NO_CELL: &str =
    "not a row, a column of 0 to 15 and a value, as `--row`, `--column` and `--value` have them";

const PLUS: &str = "a plus stands before the digits";

// What stands at the end of the help.
const TIMES: &str =
    "The change began at 1 and committed at 2, and the run began at 3. With --old these are 5, 6 and 7, and 3 is acknowledged.";

fn text_option<'a>(alloc: Global, name: &'a str, value: &'a str, help: &'a str) -> Arg<'a>
    ensures rule { rule_of result ≡ text_rule name.now }
    ensures local { result.global ≡ false }
{
    Arg::new(alloc, name)
        .long(name)
        .value_name(value)
        .help(help)
}

fn needed_option<'a>(alloc: Global, name: &'a str, value: &'a str, help: &'a str) -> Arg<'a>
    ensures rule { rule_of result ≡ required_option name.now }
    ensures local { result.global ≡ false }
{
    text_option(alloc, name, value, help).required(true)
}

fn cell_option<'a>(alloc: Global) -> Arg<'a>
    ensures rule { rule_of result ≡ cell_rule }
    ensures local { result.global ≡ false }
{
    Arg::new(alloc, "cell")
        .long("cell")
        .num_args(3)
        .action(ArgAction::Append)
        .value_names(&["R", "C", "HEX"])
        .help("Another cell with its value (a cell that isn't given is absent)")
}

// The subcommand without operands and options.
fn bare_trial<'a>(alloc: Global) -> Command<'a>
    ensures app { app_of result ≡ new_app (codes "trial") }
    ensures local { (fields_of result).has_globals ≡ false }
{
    Command::new(alloc, "trial").after_help(TIMES).about(
        "Runs a program once on the record of a change, and prints what it asks, writes and returns",
    )
}

// The subcommand with the words that name the change.
fn change_command<'a>(alloc: Global) -> Result<Command<'a>, AllocError>
    ensures { IsSubcommand result change_app }
{
    let row = "The row of the cell that was changed";
    let column = "The column of that cell, 0 to 15";
    let value = "The value that the change wrote";
    let filed = with_arg(Ok(bare_trial(alloc)), file_operand(alloc));
    let rowed = with_arg(filed, needed_option(alloc, "row", "R", row));
    let placed = with_arg(rowed, needed_option(alloc, "column", "C", column));
    with_arg(placed, needed_option(alloc, "value", "HEX", value))
}

pub fn trial_command<'a>(alloc: Global) -> Result<Command<'a>, AllocError>
    ensures { IsSubcommand result trial_app }
{
    let old = "The acknowledged value of that cell (nothing is acknowledged if not given)";
    let with_old = with_arg(change_command(alloc), text_option(alloc, "old", "HEX", old));
    let profiled = with_arg(
        with_arg(with_old, cell_option(alloc)),
        profile_option(alloc),
    );
    with_arg(profiled, record_option(alloc))
}

fn row_named(text: &str) -> Option<Row>
    ensures { option_map (λ r. r.0) result ≡ row_named text.now }
{
    match numeral_upto((), (), u64::MAX, text) {
        Ok(row) => Some(Row(row)),
        Err(_) => None,
    }
}

fn column_named(text: &str) -> Option<Column>
    ensures { result ≡ column_named text.now }
{
    match numeral_upto((), (), u64::from(COLUMNS) - 1, text) {
        Ok(column) => Column::new(column as u8),
        Err(_) => None,
    }
}

fn value_named(text: &str) -> Option<Value>
    ensures { result ≡ value_named text.now }
{
    match value_of_word(text) {
        Ok(value) => Some(value),
        Err(_) => None,
    }
}

// A cell with its value, each of the three in the words of a script.
fn trial_cell(row: &str, column: &str, value: &str) -> Option<TrialCell>
    ensures { result ≡ trial_cell row.now column.now value.now }
{
    Some(TrialCell {
        row: row_named(row)?,
        column: column_named(column)?,
        value: value_named(value)?,
    })
}

// The cells that so many words name, three a cell.
fn cells_named(alloc: Global, words: &[&str]) -> Result<Option<Vec<TrialCell>>, AllocError>
    ensures { IfOk result (λ o. option_map (λ v. v.items) o ≡ cells_named (texts_of words.now)) }
{
    let mut cells = Vec::new(alloc);
    let mut left = words;
    while let [row, column, value, rest @ ..] = left {
        match trial_cell(row, column, value) {
            Some(cell) => cells.push(cell)?,
            None => return Ok(None),
        }
        left = rest;
    }
    if left.is_empty() {
        Ok(Some(cells))
    } else {
        Ok(None)
    }
}

// The cells that the matches name beside the changed one.
fn trial_cells_in(alloc: Global, trial: &ArgMatches) -> Result<Option<Vec<TrialCell>>, AllocError>
    ensures { IfOk result (λ o. option_map (λ v. v.items) o
        ≡ trial_cells_in (rows_of (found_of trial.now))) }
{
    match trial.get_strs("cell") {
        Some(words) => cells_named(alloc, words),
        None => Ok(Some(Vec::new(alloc))),
    }
}

// The change that the matches name.
fn change_in(trial: &ArgMatches) -> Option<TrialCell>
    ensures { result ≡ change_in (rows_of (found_of trial.now)) }
{
    trial_cell(
        value_in(trial, "row")?,
        value_in(trial, "column")?,
        value_in(trial, "value")?,
    )
}

// The value that the matches name as the acknowledged one, which they needn't.
fn old_in(trial: &ArgMatches) -> Option<Option<Value>>
    ensures { result ≡ old_in (rows_of (found_of trial.now)) }
{
    match value_in(trial, "old") {
        Some(text) => Some(Some(value_named(text)?)),
        None => Some(None),
    }
}

// What the matches of `trial` name, where they name these cells.
fn trial_with<'a>(trial: &ArgMatches<'a>, cells: Vec<TrialCell>) -> Option<Trial<'a>>
    ensures { option_map trial_request result
        ≡ trial_with (rows_of (found_of trial.now)) cells.items }
{
    Some(Trial {
        program: check_in(trial)?,
        change: change_in(trial)?,
        old: old_in(trial)?,
        cells,
    })
}

/// What the matches of `trial` name.
pub fn trial_in<'a>(alloc: Global, trial: &ArgMatches<'a>) -> Result<Option<Trial<'a>>, AllocError>
    ensures { IfOk result (λ o. option_map trial_request o
        ≡ trial_in (rows_of (found_of trial.now))) }
{
    match trial_cells_in(alloc, trial)? {
        Some(cells) => Ok(trial_with(trial, cells)),
        None => Ok(None),
    }
}

// Whether a word that the matches name for an option isn't read.
fn is_no_row(trial: &ArgMatches) -> bool {
    match value_in(trial, "row") {
        Some(text) => row_named(text).is_none(),
        None => false,
    }
}

fn is_no_column(trial: &ArgMatches) -> bool {
    match value_in(trial, "column") {
        Some(text) => column_named(text).is_none(),
        None => false,
    }
}

// The option that isn't read, with what it isn't: the first in the order of the help.
fn unread<'a>(trial: &ArgMatches) -> (&'a str, &'a str) {
    if is_no_row(trial) {
        ("--row <R>", NO_ROW)
    } else if is_no_column(trial) {
        ("--column <C>", NO_COLUMN)
    } else if change_in(trial).is_none() {
        ("--value <HEX>", NO_VALUE)
    } else if old_in(trial).is_none() {
        ("--old <HEX>", NO_VALUE)
    } else if profile_in(trial).is_none() {
        ("--profile <N>", PLUS)
    } else if version_in(trial).is_none() {
        ("--record <N>", PLUS)
    } else {
        ("--cell <R> <C> <HEX>", NO_CELL)
    }
}

/// The error of a word of `trial` that isn't read, with the usage of the subcommand.
pub fn trial_refused(alloc: Global, trial: &ArgMatches) -> Result<Error, AllocError>
    ensures { IfOk result (λ e. kind_of e ≡ ErrorKind.ValueValidation) }
{
    let (option, why) = unread(trial);
    let text = format!(in alloc; "invalid value for '{option}': {why}")?;
    value_error(trial_command(alloc), "percobpf_story trial", &text)
}
