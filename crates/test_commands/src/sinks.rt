//! Whole texts written to sinks.
use pb_base::{Out, Sink};
use std::rt::HostRuntime;

#[test]
fn whole_texts_are_written(rt: HostRuntime) {
    let mut bytes = Vec::new(rt.alloc());
    let mut out = Out::new(&mut bytes);
    assert!(rt; out.write_all(b"quiet\n").is_ok() && !out.has_failed());
    assert!(rt; bytes.as_slice() == b"quiet\n".as_slice());
}

#[test]
fn a_full_sink_fails(rt: HostRuntime) {
    let mut room = [0; 4];
    let mut out = Out::new(room.as_mut_slice());
    assert!(rt; out.write_all(b"quiet\n").is_err() && out.has_failed());
    assert!(rt; room == *b"quie");
}
