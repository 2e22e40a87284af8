//! What a transaction has read, and what a run takes from it: version, acknowledgment, replies.
ghost use Rattle.std.specs.Prelude.{◌≡◌};
ghost use Rattle.pb_helpers.specs.Replies.{reply_of};
ghost use Rattle.pb_steps.specs.Declarations.{old_at};
ghost use Rattle.pb_steps.specs.Reads.{stamp_of, version_in, acknowledged_in, value_of, value_in};

use crate::step::Answer;
use pb_base::{Cell, Content, Revision, Ts, Value};
use pb_helpers::Reply;

/// A read that was answered with what the cell held, as it is recorded with its transaction: the cell, the timestamp up to
/// which it was read, where the read named one, and the answer. One that named none read up to the start.
#[derive(Clone, Copy)]
pub struct RecordedRead {
    pub cell: Cell,
    pub at: Option<Ts>,
    pub answer: Answer,
}

/// What a run saw of its cell: the newest version; the stamp of its acknowledgment, 0 where there
/// was none; and, where its program is given that, the value at the acknowledged timestamp, if
/// there was one.
#[derive(Clone, Copy)]
pub struct Seen {
    pub version: Revision,
    pub acknowledged: Ts,
    pub old: Option<Value>,
}

/// The timestamp of a stamp, 0 where it is none, so that every commit is above it.
pub fn stamp_of(content: Content) -> Ts
    ensures { result ≡ stamp_of content }
{
    match content {
        Content::Stamp(stamp) => stamp,
        Content::Value(_) => Ts(0),
        Content::Deleted => Ts(0),
    }
}

/// The version that a read found.
pub fn version_in(answer: Answer) -> Option<Revision>
    ensures { result ≡ version_in answer }
{
    match answer {
        Answer::Found {
            start,
            commit,
            content,
        } => Some(Revision {
            start,
            commit,
            content,
        }),
        _ => None,
    }
}

/// The stamp of an acknowledgment as it was read, 0 where there was none.
pub fn acknowledged_in(answer: Answer) -> Ts
    ensures { result ≡ acknowledged_in answer }
{
    match answer {
        Answer::Found { content, .. } => stamp_of(content),
        _ => Ts(0),
    }
}

/// The timestamp at which a run reads its cell once more: the acknowledged one, where its program
/// is given the value then and something is acknowledged; 0 is nothing, since the first start is
/// above it.
pub fn old_at(second: bool, acknowledged: Ts) -> Option<Ts>
    ensures { result ≡ old_at second acknowledged }
{
    if second && acknowledged.0 != 0 {
        Some(acknowledged)
    } else {
        None
    }
}

// The reply to a program for a content. For a stamp it is that there is none, since no program can
// ask for an acknowledgment.
fn value_of(content: Content) -> Reply
    ensures { reply_of result ≡ value_of content }
{
    match content {
        Content::Value(value) => Reply::Found(value),
        Content::Deleted => Reply::Absent,
        Content::Stamp(_) => Reply::Absent,
    }
}

/// The reply to a program for a cell that it asked for, as it was read. Deleted and absent are the
/// same to it.
pub fn reply_in(answer: Answer) -> Reply
    ensures { reply_of result ≡ value_in answer }
{
    match answer {
        Answer::Found { content, .. } => value_of(content),
        _ => Reply::Absent,
    }
}
