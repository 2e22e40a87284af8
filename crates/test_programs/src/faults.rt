//! The texts of faults.
use pb_asm::AsmFault;
use pb_base::{NoMemory, Reason, Refused, SinkFault};
use pb_decode::DecodeFault;
use pb_verify::VerifyFault;
use std::alloc::Global;
use std::fmt::Display;
use std::process::Abort;
use std::rt::HostRuntime;
use std::test::*;
use test_fixtures::refused;

// A refused growth.
fn no_memory<R: Abort>(rt: &R, alloc: Global) -> NoMemory {
    refused(alloc).err().expect(rt, "no block is so large")
}

// Whether a value is shown as this text.
fn is_shown<D: Display>(alloc: Global, value: &D, text: &str) -> bool {
    match format!(in alloc; "{value}") {
        Ok(shown) => shown.as_str() == text,
        Err(_) => false,
    }
}

#[test]
fn faults_are_told_as_text(rt: HostRuntime) {
    let alloc = rt.alloc();
    let refused = Refused { slot: 3, code: 26 };
    let are_shown = [
        is_shown(
            alloc,
            &DecodeFault::NoMemory(no_memory(&rt, alloc)),
            "no memory",
        ),
        is_shown(
            alloc,
            &DecodeFault::Refused(refused),
            "refused slot 3 code 26",
        ),
        is_shown(
            alloc,
            &VerifyFault::NoMemory(no_memory(&rt, alloc)),
            "no memory",
        ),
        is_shown(
            alloc,
            &VerifyFault::Refused(refused),
            "refused slot 3 code 26",
        ),
        is_shown(alloc, &AsmFault::At { line: 7, code: 82 }, "line 7 code 82"),
        is_shown(alloc, &no_memory(&rt, alloc), "no memory"),
        is_shown(alloc, &Reason::NoSuchObserver.refusal(), "refused with 47"),
        is_shown(alloc, &SinkFault, "the write failed"),
    ];
    for (place, is_shown) in are_shown.iter().enumerate() {
        assert!(rt; *is_shown, "text {place}");
    }
}
