//! Texts cut at one character. These are the library's own calls, said by functions of bytes, so that the readers'
//! proofs know nothing of patterns.
ghost use Rattle.std.specs.Prelude.{◌≡◌, ◌<◌, MatchOption, Some, None};
ghost use Rattle.pb_asm.specs.Cuts.{strip_prefix, strip_suffix, split_once};

/// What stands after this character, if the text begins with it. It has to be ASCII, since a
/// character beyond is several bytes of the text; so in all three.
pub fn strip_prefix(text: &str, c: char) -> Option<&str>
    requires some { 0 < c }
    requires ascii { c < 128 }
    ensures { MatchOption result (strip_prefix c text.now ≡ None)
        (λ x. strip_prefix c text.now ≡ Some x.now) }
{
    text.strip_prefix(c)
}

/// What stands before this character, if the text ends with it. It isn't 0, since the definition
/// reads a 0 after the end.
pub fn strip_suffix(text: &str, c: char) -> Option<&str>
    requires some { 0 < c }
    requires ascii { c < 128 }
    ensures { MatchOption result (strip_suffix c text.now ≡ None)
        (λ x. strip_suffix c text.now ≡ Some x.now) }
{
    text.strip_suffix(c)
}

/// What stands on both sides of the first such character.
pub fn split_once(text: &str, c: char) -> Option<(&str, &str)>
    requires { c < 128 }
    ensures { MatchOption result (split_once c text.now ≡ None)
        (λ x. split_once c text.now ≡ Some (x.0.now, x.1.now)) }
{
    text.split_once(c)
}
