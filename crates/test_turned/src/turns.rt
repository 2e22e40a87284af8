//! Programs with one byte replaced, one after another.
ghost use Rattle.std.specs.Prelude.{◌<◌, length};

use crate::choice::Choice;
use crate::verdict::{Fault, Verdict, judge};
use std::alloc::{AllocError, Global};
use std::fmt;
use std::fmt::{Display, Formatter, Write};
use thiserror::Error;

/// How many programs with a replaced byte there were, how many of them were refused and how many accepted, and how many
/// runs of these came to their end.
#[derive(Drop)]
pub struct Met {
    turned: u64,
    refused: u64,
    accepted: u64,
    runs: u64,
}

/// A replaced byte: its place, its new value, and what was wrong then.
#[derive(Debug, Drop, Error)]
#[error("byte {at} as {value}: {fault}")]
pub struct Wrong {
    at: usize,
    value: u8,
    fault: Fault,
}

impl Met {
    fn nothing() -> Met {
        Met {
            turned: 0,
            refused: 0,
            accepted: 0,
            runs: 0,
        }
    }

    fn add(&mut self, verdict: Verdict) {
        self.turned = self.turned.saturating_add(1);
        match verdict {
            Verdict::Refused => self.refused = self.refused.saturating_add(1),
            Verdict::Accepted(runs) => {
                self.accepted = self.accepted.saturating_add(1);
                self.runs = self.runs.saturating_add(runs);
            }
        }
    }
}

impl Display for Met {
    fn fmt<W: Write>(&self, f: &mut Formatter<W>) -> fmt::Result {
        write!(
            f,
            "turned {} refused {} accepted {} runs {}",
            self.turned, self.refused, self.accepted, self.runs
        )
    }
}

// The code with this value in the place of a byte.
fn with_byte(alloc: Global, code: &[u8], at: usize, value: u8) -> Result<Vec<u8>, AllocError>
    requires { at < length code.now }
{
    let mut turned = Vec::new(alloc);
    turned.extend_from_slice(code)?;
    turned[at] = value;
    Ok(turned)
}

// Judges the code with this value in the place of a byte.
fn judge_with(alloc: Global, code: &[u8], at: usize, value: u8) -> Result<Verdict, Fault>
    requires { at < length code.now }
{
    let turned = with_byte(alloc, code, at, value)?;
    judge(alloc, &turned)
}

// Has each other value stand in the place of a byte, where it is chosen.
fn turn(
    alloc: Global,
    code: &[u8],
    at: usize,
    choice: &mut Choice,
    met: &mut Met,
) -> Result<(), Wrong>
    requires { at < length code.now }
{
    for value in 0..=u8::MAX {
        if value == code[at] || !choice.takes() {
            continue;
        }
        match judge_with(alloc, code, at, value) {
            Ok(verdict) => met.add(verdict),
            Err(fault) => return Err(Wrong { at, value, fault }),
        }
    }
    Ok(())
}

/// Has each other value stand in the place of each byte, where it is chosen, up to the first that is wrong.
pub fn turn_all(alloc: Global, code: &[u8], choice: &mut Choice) -> Result<Met, Wrong> {
    let mut met = Met::nothing();
    for at in 0..code.len() {
        turn(alloc, code, at, choice, &mut met)?;
    }
    Ok(met)
}
