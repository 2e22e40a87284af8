//! The words of a line, taken off its front one by one.
ghost use Rattle.std.specs.Prelude.{◌≡◌, ◌∷◌, false};
ghost use Rattle.pb_reading.specs.Reading.{Gives, next_word, no_word, words_of, words_left};

/// The first word of a line, and what stands after its blank, if it has one.
pub fn first_word(line: &str) -> (&str, Option<&str>)
    ensures { words_of line.now ≡ result.0.now ∷ words_left result.1 }
{
    match line.split_once(' ') {
        Some((word, after)) => (word, Some(after)),
        None => (line, None),
    }
}

/// What is left of a line, if anything is: a cursor that goes on by `&mut`, since the borrow checker doesn't cover a
/// pair of what was read and the words left, where what was read has a model.
#[derive(Drop)]
pub struct LineWords<'a> {
    pub rest: Option<&'a str>,
}

impl<'a> LineWords<'a> {
    /// The next word; where there is none, this fault.
    pub fn next_word<C: Drop>(&mut self, form: C) -> Result<&'a str, C>
        ensures { Gives (λ _. false) (λ x. (x.now, words_left self.new.rest)) result
            (next_word form (words_left self.old.rest)) }
    {
        match self.rest {
            Some(line) => {
                let (word, rest) = first_word(line);
                self.rest = rest;
                Ok(word)
            }
            None => Err(form),
        }
    }

    /// No word is left, or else this fault. It is the last test of a line, so that a word too many
    /// is reported only if all before it are read.
    pub fn no_word<C: Drop>(&self, form: C) -> Result<(), C>
        ensures { Gives (λ _. false) (λ x. x) result
            (no_word form (words_left self.now.rest)) }
    {
        if self.rest.is_some() {
            return Err(form);
        }
        Ok(())
    }
}
