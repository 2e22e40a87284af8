//! Numbers, each with one spelling.
ghost use Rattle.std.specs.Prelude.{◌≡◌, ◌≤◌, IfOk, false};
ghost use Rattle.std.specs.Char.{is_ascii_digit};
ghost use Rattle.std.specs.List.{list_all};
ghost use Rattle.pb_reading.specs.Reading.{Gives, is_numeral, numeral_upto};

// Whether it is digits alone; so is an empty text.
fn all_digits(digits: &[u8]) -> bool
    ensures { result ≡ list_all is_ascii_digit digits.now }
{
    digits.iter().all(|b| b.is_ascii_digit())
}

/// Whether a word is decimal digits without a leading zero. One before another digit is refused, so that each number
/// has one spelling, and a line is what it is written as.
pub fn is_numeral(word: &str) -> bool
    ensures { result ≡ is_numeral word.now }
{
    let digits = word.as_bytes();
    if digits.is_empty() {
        return false;
    }
    if digits[0] == b'0' && digits.len() > 1 {
        return false;
    }
    all_digits(digits)
}

/// The number that a word is, at most this. What is too large, of any length, is distinguished from
/// what is no number: the one is out of range, and the other of another form.
pub fn numeral_upto<C: Drop>(form: C, range: C, greatest: u64, word: &str) -> Result<u64, C>
    ensures value { Gives (λ _. false) (λ n. n) result
        (numeral_upto form range greatest word.now) }
    ensures bound { IfOk result (λ n. n ≤ greatest) }
{
    if !is_numeral(word) {
        return Err(form);
    }
    // What has the form and can't be parsed is beyond 64 bits, so that it is out of range whatever may stand there.
    let Ok(number) = word.parse::<u64>() else {
        return Err(range);
    };
    if number <= greatest {
        Ok(number)
    } else {
        Err(range)
    }
}
