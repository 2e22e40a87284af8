//! The words of a line, from left to right.
ghost use Rattle.std.specs.Prelude.{◌≡◌, false};
ghost use Rattle.pb_reading.specs.Reading.{Gives, words_left};
ghost use Rattle.pb_parse.specs.ScriptLines.{cut};
ghost use Rattle.pb_requests.specs.Requests.{commit_of, alone_in, get_of, since_of, copy_request_of, condition_in, condition_of, conditional, of_log, question_of, request_by, asked_by};

use crate::request::{Condition, Request};
use pb_base::Ts;
use pb_parse::{ScriptCode, cell_of, first_operation};
use pb_reading::{LineWords, numeral_upto};

/// The most bytes of a line, without its newline.
pub const MAX_LINE: usize = 4096;

#[tactic(auto, unfolding(crate::specs::Requests::commit_of))]
fn commit_of(words: &mut LineWords) -> Result<Ts, ScriptCode>
    ensures { Gives (λ _. false) (λ t. (t.0, words_left words.new.rest)) result
        (commit_of (words_left words.old.rest)) }
{
    let word = words.next_word(ScriptCode::Form)?;
    Ok(Ts(numeral_upto(ScriptCode::Form, ScriptCode::Range, u64::MAX, word)?))
}

// A line of this word alone.
#[tactic(auto, unfolding(crate::specs::Requests::alone_in))]
fn alone_in(request: Request, words: &LineWords) -> Result<Request, ScriptCode>
    ensures { Gives (λ _. false) (λ r. r) result (alone_in request (words_left words.now.rest)) }
{
    words.no_word(ScriptCode::Form)?;
    Ok(request)
}

#[tactic(auto, unfolding(crate::specs::Requests::get_of))]
fn get_of(words: &mut LineWords) -> Result<Request, ScriptCode>
    ensures { Gives (λ _. false) (λ r. r) result (get_of (words_left words.old.rest)) }
{
    let (row, column) = cell_of(words)?;
    words.no_word(ScriptCode::Form)?;
    Ok(Request::Get(row, column))
}

#[tactic(auto, unfolding(crate::specs::Requests::since_of))]
fn since_of(words: &mut LineWords) -> Result<Request, ScriptCode>
    ensures { Gives (λ _. false) (λ r. r) result (since_of (words_left words.old.rest)) }
{
    let commit = commit_of(words)?;
    words.no_word(ScriptCode::Form)?;
    Ok(Request::Since(commit))
}

#[tactic(auto, unfolding(crate::specs::Requests::copy_request_of))]
fn copy_request_of(words: &mut LineWords) -> Result<Request, ScriptCode>
    ensures { Gives (λ _. false) (λ r. r) result (copy_request_of (words_left words.old.rest)) }
{
    let word = words.next_word(ScriptCode::Form)?;
    let number = numeral_upto(ScriptCode::Form, ScriptCode::Range, u64::MAX, word)?;
    words.no_word(ScriptCode::Form)?;
    Ok(Request::Copy(number))
}

// The condition `if ROW COL C`, after its verb.
#[tactic(auto, unfolding(crate::specs::Requests::condition_in))]
fn condition_in(words: &mut LineWords) -> Result<Condition, ScriptCode>
    ensures { Gives (λ _. false) (λ c. c) result (condition_in (words_left words.old.rest)) }
{
    let (row, column) = cell_of(words)?;
    let commit = commit_of(words)?;
    words.no_word(ScriptCode::Form)?;
    Ok(Condition {
        row,
        column,
        commit,
    })
}

#[tactic(auto, unfolding(crate::specs::Requests::condition_of))]
fn condition_of(text: &str) -> Result<Condition, ScriptCode>
    ensures { Gives (λ _. false) (λ c. c) result (condition_of text.now) }
{
    let mut words = LineWords { rest: Some(text) };
    words.next_word(ScriptCode::Form)?;
    condition_in(&mut words)
}

// A change on a condition, which is the first of several operations.
#[tactic(auto, using(crate::proofs::Cuts::cut_has), unfolding(crate::specs::Requests::conditional))]
fn conditional(line: &str) -> Result<Request, ScriptCode>
    ensures { Gives (λ _. false) (λ r. r) result (conditional (cut line.now)) }
{
    match first_operation(line) {
        (condition, Some(_)) => Ok(Request::ChangeIf(condition_of(condition)?)),
        (_, None) => Err(ScriptCode::Form),
    }
}

// A line that asks something of the log, by its verb.
#[tactic(auto, unfolding(crate::specs::Requests::of_log))]
fn of_log(verb: &str, words: &mut LineWords) -> Result<Request, ScriptCode>
    ensures { Gives (λ _. false) (λ r. r) result (of_log verb.now (words_left words.old.rest)) }
{
    match verb {
        "compact" => alone_in(Request::Compact, words),
        "copy" => copy_request_of(words),
        _ => Err(ScriptCode::Form),
    }
}

// A question, a line around changes, or one that asks something of the log, by its verb.
#[tactic(auto, unfolding(crate::specs::Requests::question_of))]
fn question_of(verb: &str, words: &mut LineWords) -> Result<Request, ScriptCode>
    ensures { Gives (λ _. false) (λ r. r) result
        (question_of verb.now (words_left words.old.rest)) }
{
    match verb {
        "get" => get_of(words),
        "since" => since_of(words),
        "list" => alone_in(Request::List, words),
        "begin" => alone_in(Request::Begin, words),
        "end" => alone_in(Request::End, words),
        "quiet?" => alone_in(Request::IsQuiet, words),
        "stats" => alone_in(Request::Stats, words),
        _ => of_log(verb, words),
    }
}

// A line whose words are these, by its verb.
#[tactic(auto, unfolding(crate::specs::Requests::request_by))]
fn request_by(line: &str, verb: &str, words: &mut LineWords) -> Result<Request, ScriptCode>
    ensures { Gives (λ _. false) (λ r. r) result
        (request_by line.now verb.now (words_left words.old.rest)) }
{
    if verb == "put" || verb == "del" {
        return Ok(Request::Change);
    }
    if verb == "if" {
        return conditional(line);
    }
    question_of(verb, words)
}

/// What a line asks for, by its first word at fault where that isn't known: 70 not of the form, or of over 4,096 bytes; 71 a
/// row, a column, a commit or the number of a copy out of range. The operations of a change aren't read here.
#[tactic(auto, unfolding(crate::specs::Requests::asked_by))]
pub fn parse_request(line: &str) -> Result<Request, ScriptCode>
    ensures { Gives (λ _. false) (λ r. r) result (asked_by line.now) }
{
    if line.len() > MAX_LINE {
        return Err(ScriptCode::Form);
    }
    let mut words = LineWords { rest: Some(line) };
    let verb = words.next_word(ScriptCode::Form)?;
    request_by(line, verb, &mut words)
}
