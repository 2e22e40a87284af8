//! A report in memory.
ghost use Rattle.std.specs.Prelude.{◌≡◌, [], None};

use pb_base::{NoMemory, Sink, SinkFault};
use std::alloc::Global;

/// What was written to it, and the growth that was refused, if one was: it takes all of a piece, or else none.
#[derive(Drop)]
pub struct Page {
    bytes: Vec<u8>,
    refused: Option<NoMemory>,
}

impl Page {
    /// An empty page.
    pub fn new(alloc: Global) -> Page
        ensures bytes { result.bytes.items ≡ [] }
        ensures unrefused { result.refused ≡ None }
    {
        Page {
            bytes: Vec::new(alloc),
            refused: None,
        }
    }

    /// What was written to it.
    pub fn bytes(&self) -> &[u8]
        ensures { result.now ≡ self.now.bytes.items }
    {
        &self.bytes
    }

    /// The growth that was refused.
    pub fn refused(self) -> Option<NoMemory>
        ensures { result ≡ self.refused }
    {
        self.refused
    }
}

impl Sink for Page {
    ghost use Rattle.std.specs.Prelude.{Some, is_some};

    ghost taken = { λ p. Some p.bytes.items };

    ghost failed = { λ p. is_some p.refused };

    fn write(&mut self, piece: &[u8]) -> Result<usize, SinkFault> {
        match self.bytes.extend_from_slice(piece) {
            Ok(()) => Ok(piece.len()),
            Err(refused) => {
                if !piece.is_empty() {
                    self.refused = Some(NoMemory::from(refused));
                }
                Err(SinkFault)
            }
        }
    }

    fn has_failed(&self) -> bool {
        self.refused.is_some()
    }
}
