//! The lines of a text. The front of what is left is taken off and no list of lines is made, so that cutting takes no
//! memory.
ghost use Rattle.std.specs.Prelude.{◌≡◌, ◌∷◌};
ghost use Rattle.pb_reading.specs.Reading.{is_skipped, lines_of, lines_left};

/// The first line of a text, and what stands after its newline, if it has one.
pub fn first_line(text: &str) -> (&str, Option<&str>)
    ensures { lines_of text.now ≡ result.0.now ∷ lines_left result.1 }
{
    match text.split_once('\n') {
        Some((line, after)) => (line, Some(after)),
        None => (text, None),
    }
}

/// Whether a line is empty, or a remark. It is counted as a line all the same, so that a fault is
/// reported at the line that an editor shows.
pub fn is_skipped(line: &str) -> bool
    ensures { result ≡ is_skipped line.now }
{
    let bytes = line.as_bytes();
    bytes.is_empty() || bytes[0] == b'#'
}
