//! `asm` and `dis`, over paths and sinks in memory.
ghost use Rattle.std.specs.Prelude.{◌≡◌, ◌∷◌, [], true, IfOk};
ghost use Rattle.std.specs.Str.{bytes_eq};
ghost use Rattle.pb_command.specs.Commands.{IsSequential};

use crate::carried::{File, Outcome, Unread, carry, copy_of, has_printed, has_told, is_cut};
use pb_files::{PathFault, Paths};
use pb_isa::Profile;
use pb_texts::Options;
use std::alloc::Global;
use std::rt::HostRuntime;
use test_fixtures::Unready;

const LISTING: Options = Options::Dis {
    file: "i",
    profile: Profile::One,
};

// A file to be read at the path `i`, and what was written to the path `o`. No other path can be read or written.
#[derive(Drop)]
pub(crate) struct Folder<'a> {
    alloc: Global,
    pub(crate) input: File<'a>,
    // What each write is refused with.
    refuses: Option<Unread>,
    output: Option<Vec<u8>>,
    failed: bool,
}

impl<'a> Paths for Folder<'a> {
    ghost use Rattle.std.specs.Prelude.{Some, Ok, Err, [], ◌∷◌, if◌then◌else◌};
    ghost use Rattle.std.specs.Option.{option_map, ok_or};
    ghost use Rattle.std.specs.Result.{result_ok};
    ghost use Rattle.std.specs.Str.{bytes_eq};
    ghost use Rattle.pb_files.specs.declared.paths.PathFault.TheVariants.{Failed};

    // An input that isn't read answers a fault, but not a stated one, as it is made anew each time.
    ghost held = { λ f path.
        if bytes_eq path (105 ∷ []) then option_map (λ r. Ok r.now) (result_ok f.input)
        else if bytes_eq path (111 ∷ []) then Some (ok_or (option_map (λ v. v.items) f.output) Failed)
        else Some (Err Failed) };

    ghost failed = { λ f. f.failed };

    fn read(&mut self, path: &str) -> Result<Vec<u8>, PathFault> {
        if path == "i" {
            return match self.input {
                Ok(bytes) => copy_of(self.alloc, bytes),
                Err(unread) => Err(unread.fault(self.alloc)),
            };
        }
        match &self.output {
            Some(output) if path == "o" => copy_of(self.alloc, output),
            _ => Err(PathFault::Failed),
        }
    }

    fn write(&mut self, path: &str, bytes: &[u8]) -> Result<(), PathFault> {
        match self.content_after(path, bytes) {
            Ok(output) => {
                self.output = Some(output);
                Ok(())
            }
            Err(fault) => {
                self.failed = true;
                Err(fault)
            }
        }
    }
}

impl<'a> Folder<'a> {
    // What a write leaves at a path.
    fn content_after(&self, path: &str, bytes: &[u8]) -> Result<Vec<u8>, PathFault>
        ensures { IfOk result (λ v. (bytes_eq path.now (111 ∷ []) ≡ true) × (v.items ≡ bytes.now)) }
    {
        if path != "o" {
            return Err(PathFault::Failed);
        }
        match self.refuses {
            Some(unread) => Err(unread.fault(self.alloc)),
            None => copy_of(self.alloc, bytes),
        }
    }
}

pub(crate) fn holding(alloc: Global, input: &[u8]) -> Folder {
    Folder {
        alloc,
        input: Ok(input),
        refuses: None,
        output: None,
        failed: false,
    }
}

fn asm(rt: &HostRuntime, folder: &mut Folder) -> Result<Outcome, Unready> {
    let options = Options::Asm {
        input: "i",
        output: "o",
        profile: Profile::One,
    };
    carry(rt, &options, folder, usize::MAX, true)
}

// Whether `asm` reports this fault, and writes nothing.
fn tells(rt: &HostRuntime, folder: &mut Folder, fault: &str) -> bool {
    has_told(asm(rt, folder), fault) && folder.output.is_none()
}

#[test]
fn memory_for_bytes_is_refused(rt: HostRuntime) {
    let mut folder = holding(rt.alloc(), b"");
    folder.input = Err(Unread::NoMemory);
    assert!(rt; tells(&rt, &mut folder, "no memory\n"));
    assert!(rt;
        has_told(
            carry(&rt, &LISTING, &mut folder, usize::MAX, true),
            "no memory\n"
        )
    );
    // The first fault is reported.
    folder.refuses = Some(Unread::Failed);
    assert!(rt; tells(&rt, &mut folder, "no memory\n"));
}

#[test]
fn bytes_are_not_read(rt: HostRuntime) {
    let table = [
        (Unread::Failed, "cannot read i\n"),
        (Unread::TooLarge, "too large i\n"),
        (Unread::NoMemory, "no memory\n"),
    ];
    for (fault, line) in table {
        let mut folder = holding(rt.alloc(), b"");
        folder.input = Err(fault);
        assert!(rt; tells(&rt, &mut folder, line), "{line}");
    }
}

#[test]
fn what_was_written_is_read(rt: HostRuntime) {
    let mut folder = holding(rt.alloc(), b"exit");
    let outcome = asm(&rt, &mut folder).expect(&rt, "memory");
    assert!(rt; has_printed(&outcome, b""));
    let listing = Options::Dis {
        file: "o",
        profile: Profile::One,
    };
    let outcome = carry(&rt, &listing, &mut folder, usize::MAX, true).expect(&rt, "memory");
    assert!(rt; has_printed(&outcome, b"exit\n"));
}

#[test]
fn bytes_are_not_written(rt: HostRuntime) {
    let table = [
        (Unread::Failed, "cannot write o\n"),
        (Unread::TooLarge, "cannot write o\n"),
        (Unread::NoMemory, "no memory\n"),
    ];
    for (fault, line) in table {
        let mut folder = holding(rt.alloc(), b"exit");
        folder.refuses = Some(fault);
        assert!(rt; tells(&rt, &mut folder, line), "{line}");
    }
}

// Whether a command prints just a beginning of the text, and reports that, if its output ends at
// any call, which fails or takes no byte.
pub(crate) fn is_cut_anywhere(
    rt: &HostRuntime,
    options: &Options,
    bytes: &[u8],
    text: &[u8],
) -> bool
    requires { IsSequential options.now }
{
    let mut held = true;
    for j in 0..text.len() {
        for fails in [true, false] {
            let mut folder = holding(rt.alloc(), bytes);
            let outcome = carry(rt, options, &mut folder, j, fails);
            held = held && is_cut(outcome, j, text);
        }
    }
    held
}

#[test]
fn a_listing_may_fail_at_any_call(rt: HostRuntime) {
    let table = [
        (
            b"\xb7\0\0\0\x07\0\0\0\x95\0\0\0\0\0\0\0" as &[u8],
            b"mov64 r0, 7\nexit\n" as &[u8],
        ),
        (b"\x8f\x01\0\0\0\0\0\0", b"refused slot 0 code 12\n"),
    ];
    for (bytes, text) in table {
        assert!(rt; is_cut_anywhere(&rt, &LISTING, bytes, text), "{text:?}");
    }
}
