//! The program: `run MANIFEST SCRIPT [--workers N] [--swaps M]` has N workers make a script's
//! changes and run the observers while M tablets are replaced, and prints the committed cells and
//! the work that is left. `replay MANIFEST SCRIPT SCHEDULE` lets a schedule's events happen, and
//! nothing else, and prints the same of what they left. `asm IN OUT` writes the bytes of a
//! program's text, `dis FILE` lists a program's bytes, and `check FILE` reports whether they are
//! accepted, each with `--profile N`.
//!
//! It is main alone, since the crate of a program can't be called by another, nor tested as a library: `pb_command`
//! does what the words ask. Here the tablets are made, and the words taken from the system.
#![tactic(auto)]

ghost use Rattle.std.specs.Prelude.{◌≡◌, ◌∷◌, [], vec_len};
ghost use Rattle.pb_store.specs.TableOf.{firsts_of};
ghost use Rattle.pb_texts.specs.CommandLines.{IsInRange, swaps_asked};

mod tablets;

use crate::tablets::{first_tablets, spares_for};
use pb_base::{NoMemory, Out, Row};
use pb_command::{command, exit_status, lent, refuse, words_given};
use pb_files::Files;
use pb_store::{Table, Tablet};
use pb_texts::{Options, options};
use pb_threads::end_spares;
use std::process::ExitCode;
use std::sync::Wait;
use std::thread::Threads;

// Clears and ends tablets, one by one, since they are linear and no table took them.
fn end_all<T: Tablet>(mut parts: Vec<(Row, T)>) {
    while let Some((_, mut tablet)) = parts.pop() {
        tablet.clear();
        tablet.end();
    }
    parts.destroy_empty();
}

// Carries out a command over the real files, on a table of these tablets, whose rows begin at 0 and
// at 1,000, and with these spares, with workers in threads of this handle. What is in the tablets
// isn't known here, so that a table which is refused is reported too.
fn carry_out<R: Threads + Wait + Sync, T: Tablet + Send>(
    threads: &R,
    rt: &HostRuntime,
    options: &Options,
    parts: Vec<(Row, T)>,
    spares: Vec<(usize, T)>,
) -> u8
    requires range { IsInRange options.now }
    requires rows { firsts_of parts.items ≡ 0 ∷ 1000 ∷ [] }
    requires spares { vec_len spares ≡ swaps_asked options.now }
{
    match Table::new(parts) {
        Ok(table) => {
            let mut files = Files::new(rt);
            let mut out = Out::new(rt.stdout());
            let mut err = Out::new(rt.stderr());
            command(
                threads,
                rt.alloc(),
                options,
                &mut files,
                table,
                spares,
                &mut out,
                &mut err,
            )
        }
        Err((parts, refusal)) => {
            end_all(parts);
            end_spares(spares);
            let _ = eprintln!(rt; "tablets refused code {}", refusal.code());
            1
        }
    }
}

// Makes the tablets, and carries out a command on them.
fn run<R: Threads + Wait + Sync>(
    threads: &R,
    rt: &HostRuntime,
    options: &Options,
) -> Result<u8, NoMemory>
    requires { IsInRange options.now }
{
    let alloc = rt.alloc();
    let parts = first_tablets(alloc)?;
    let spares = spares_for(alloc, options.swaps() as usize)?;
    Ok(carry_out(threads, rt, options, parts, spares))
}

// The status of the program. All words are handed on, the program's own first.
fn status<R: Threads + Wait + Sync>(threads: &R, rt: &HostRuntime) -> Result<u8, NoMemory> {
    let owned = match words_given(rt)? {
        Ok(owned) => owned,
        Err(status) => return Ok(status),
    };
    let words = lent(rt.alloc(), &owned)?;
    match options(rt.alloc(), &words) {
        Ok(options) => run(threads, rt, &options),
        Err(error) => refuse(rt, &error),
    }
}

// The handle goes down twice, as the host and as what may wait, since a `HostRuntime` may wait in `main` alone.
fn main(rt: HostRuntime) -> ExitCode {
    ExitCode::from(exit_status(&rt, status(&rt, &rt)))
}
