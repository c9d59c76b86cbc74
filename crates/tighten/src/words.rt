//! The words of a line of input.

ghost use Rattle.std.specs.Str.Iter.{split_whitespace_steps, split_whitespace_rest};
ghost use Rattle.std.specs.Iterator.{at_most};
ghost use Rattle.std.specs.Prelude.{length};

use crate::wrong::Wrong;
use model::span::Span;
use std::str::SplitWhitespace;

/// The words of a line that are still to be read. They are parted by blanks, and a comment, from `#` to the end, has none.
#[derive(Drop)]
pub struct Words<'a> {
    rest: SplitWhitespace<'a>,
}

impl<'a> Iterator for Words<'a> {
    type Item = &'a str;

    ghost next_gives = { λ w r v. split_whitespace_steps w.rest r v.rest };

    ghost remaining = { λ w. at_most (length (split_whitespace_rest w.rest)) };

    fn next(&mut self) -> Option<&'a str> {
        self.rest.next()
    }
}

impl<'a> Words<'a> {
    /// The words of a line.
    pub fn new(line: &'a str) -> Words<'a> {
        let text = line.split_once('#').map_or(line, |(before, _)| before);
        Words {
            rest: text.split_whitespace(),
        }
    }

    /// The next word, where the line has to have one.
    pub fn expect(&mut self, what: &'static str) -> Result<&'a str, Wrong<'a>> {
        self.next().ok_or(Wrong::Missing(what))
    }

    /// The next word as a number.
    pub fn number(&mut self, what: &'static str) -> Result<i64, Wrong<'a>> {
        whole_number(self.expect(what)?)
    }

    /// The last one or two words as a coefficient: one number is a thin span.
    pub fn coefficient(&mut self) -> Result<Span, Wrong<'a>> {
        let low = self.number("the coefficient")?;
        let high = match self.next() {
            None => low,
            Some(word) => whole_number(word)?,
        };
        Ok(Span::new(low, high))
    }

    /// Nothing, where no word is left.
    pub fn end(&mut self) -> Result<(), Wrong<'a>> {
        match self.next() {
            None => Ok(()),
            Some(word) => Err(Wrong::Extra(word)),
        }
    }
}

/// A word as a whole number: decimal digits, with `-` before them where it is negative.
fn whole_number(word: &str) -> Result<i64, Wrong<'_>> {
    if word.starts_with('+') {
        return Err(Wrong::NotNumber(word));
    }
    word.parse::<i64>().map_err(|_| Wrong::NotNumber(word))
}
