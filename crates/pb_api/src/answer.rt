//! An answer with a text, or with bytes, which goes into the caller's buffer.
ghost use Rattle.std.specs.Prelude.{◌≡◌};
ghost use Rattle.pb_api.specs.Answers.{text_answer, buffer_call, GivesText};

use crate::buffer::fill;
use crate::kind::{AnswerKind, KindNumber};

/// An answer whose text stands in the caller's buffer, as far as there was room. Where the input is at fault, `place` and
/// `code` are of the fault.
#[repr(C)]
#[derive(Clone, Copy)]
pub struct TextAnswer {
    pub kind: KindNumber,
    pub code: u32,
    pub place: usize,
    pub needed: usize,
}

impl TextAnswer {
    /// The answer with this text.
    pub fn with_text(kind: AnswerKind, text: &[u8], out: &mut [u8]) -> TextAnswer
        ensures { GivesText kind text.now (buffer_call out.old out.new result) }
    {
        TextAnswer {
            kind: kind.number(),
            code: 0,
            place: 0,
            needed: fill(out, text),
        }
    }

    /// The answer without a text.
    pub fn without_text(kind: AnswerKind, code: u32, place: usize) -> TextAnswer
        ensures { result ≡ text_answer kind code place 0 }
    {
        TextAnswer {
            kind: kind.number(),
            code,
            place,
            needed: 0,
        }
    }
}
