//! `check`, over paths and sinks in memory.
use crate::carried::{Unread, carry, has_told};
use crate::programs::{holding, is_cut_anywhere};
use pb_helpers::Version;
use pb_isa::Profile;
use pb_texts::{Options, ProgramFile};
use std::rt::HostRuntime;

const CHECK: Options = Options::Check(ProgramFile {
    file: "i",
    profile: Profile::One,
    version: Version::First,
});

#[test]
fn memory_for_a_program_is_refused(rt: HostRuntime) {
    let mut folder = holding(rt.alloc(), b"");
    folder.input = Err(Unread::NoMemory);
    let outcome = carry(&rt, &CHECK, &mut folder, usize::MAX, true);
    assert!(rt; has_told(outcome, "no memory\n"));
}

#[test]
fn a_verdict_may_fail_at_any_call(rt: HostRuntime) {
    let bytes = b"\xb7\0\0\0\0\0\0\0\x95\0\0\0\0\0\0\0" as &[u8];
    let text = b"accepted 2 slots\n" as &[u8];
    assert!(rt; is_cut_anywhere(&rt, &CHECK, bytes, text));
}
