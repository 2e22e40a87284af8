//! A sink that needs no memory.
ghost use Rattle.std.specs.Prelude.{◌≡◌, None, false};

use pb_base::{Sink, SinkFault};

// How many bytes it takes.
const ROOM: usize = 256;

/// The first bytes that were written, and how many were.
#[derive(Drop)]
pub struct Page {
    bytes: [u8; ROOM],
    count: usize,
    failed: bool,
}

impl Page {
    pub fn new() -> Page
        ensures { result.failed ≡ false }
    {
        Page {
            bytes: [0; ROOM],
            count: 0,
            failed: false,
        }
    }

    /// Whether these bytes were written, and no others.
    pub fn holds(&self, text: &[u8]) -> bool {
        if self.count > ROOM {
            return false;
        }
        let written = &self.bytes[..self.count];
        written == text
    }
}

impl Sink for Page {
    ghost taken = { λ _. None };

    ghost failed = { λ p. p.failed };

    fn write(&mut self, piece: &[u8]) -> Result<usize, SinkFault> {
        if piece.is_empty() {
            return Ok(0);
        }
        if self.count >= ROOM {
            self.failed = true;
            return Err(SinkFault);
        }
        self.bytes[self.count] = piece[0];
        self.count += 1;
        Ok(1)
    }

    fn has_failed(&self) -> bool {
        self.failed
    }
}
