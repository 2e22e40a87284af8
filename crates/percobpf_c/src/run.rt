//! What C calls to run a program up to its next ask or its end.
ghost use Rattle.std.specs.Prelude.{map};
ghost use Rattle.pb_registry.specs.Manifests.{profile_of};
ghost use Rattle.pb_api.specs.Numbers.{version_by, helpers_in_bits};
ghost use Rattle.pb_api.specs.Runs.{IsRunBy, column_numbered, reply_given};

use pb_api::{ChangeGiven, Reached, ReplyGiven, run_by_numbers};
use std::alloc::Global;

/// Runs a program of this profile, for change records of this version, with the helpers whose bits are set, on the record of
/// a change, from a start timestamp on: with these replies, the first for its first ask, up to the first ask that none of
/// them is for, or to its end.
#[unsafe(no_mangle)]
pub extern "C" fn percobpf_run(
    alloc: Global,
    bytes: &[u8],
    profile: u32,
    record: u32,
    helpers: u32,
    change: &ChangeGiven,
    start: u64,
    replies: &[ReplyGiven],
) -> Reached
    ensures { IsRunBy (profile_of profile) (version_by «record») (helpers_in_bits helpers)
        (column_numbered change.now.column) bytes.now change.now start
        (map reply_given replies.now) result }
{
    run_by_numbers(
        alloc, bytes, profile, record, helpers, change, start, replies,
    )
}
