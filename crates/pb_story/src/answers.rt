//! Answers of the shared table in words, after `->` in the line of their step.
ghost use Rattle.std.specs.Prelude.{◌≡◌, ◌++◌, OnOk, string_bytes};
ghost use Rattle.pb_story.specs.Answers.{found_text, answer_text};

use crate::cells::add_content;
use crate::steps::{add_at_cell, add_of_start, add_on_cell};
use pb_accepted::Observer;
use pb_base::{Content, Ts};
use pb_steps::Answer;
use std::alloc::AllocError;

// Adds a version that was found.
fn add_found(text: &mut String, start: Ts, commit: Ts, content: &Content) -> Result<(), AllocError>
    ensures { OnOk result (string_bytes text.new
        ≡ string_bytes text.old ++ found_text start commit content.now) }
{
    let start = start.0;
    let commit = commit.0;
    write!(text, "found {start} {commit} ")?;
    add_content(text, content)
}

/// Adds an answer.
pub fn add_answer(
    text: &mut String,
    observers: &[Observer],
    answer: &Answer,
) -> Result<(), AllocError>
    ensures { OnOk result (string_bytes text.new
        ≡ string_bytes text.old ++ answer_text observers.now answer.now) }
{
    match answer {
        Answer::At(at) => add_of_start(text, "at", *at),
        Answer::Locked { start, primary } => {
            add_at_cell(text, observers, "locked", *start, primary)
        }
        Answer::Found {
            start,
            commit,
            content,
        } => add_found(text, *start, *commit, content),
        Answer::Absent => text.push_str("absent"),
        Answer::Done => text.push_str("done"),
        Answer::Conflict => text.push_str("conflict"),
        Answer::Committed => text.push_str("committed"),
        Answer::Lost => text.push_str("lost"),
        Answer::RolledBack => text.push_str("rolled back"),
        Answer::Waits => text.push_str("waits"),
        Answer::CommittedAt(commit) => add_of_start(text, "committed at", *commit),
        Answer::Marked(cell) => add_on_cell(text, observers, "marked", cell),
        Answer::NoMark => text.push_str("no mark"),
        Answer::StillBehind => text.push_str("still behind"),
    }
}
