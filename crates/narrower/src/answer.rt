//! What a narrower answers.

ghost use Rattle.std.specs.Prelude.{◌≡◌};
ghost use Rattle.narrower.specs.Answers.{answer_number};

use std::fmt;

/// What a narrowing came to, the least first: of two in a row the greater tells what both come to.
#[derive(Clone, Copy, PartialEq, Eq, PartialOrd, Ord, Debug)]
pub enum Answer {
    /// The map gives the same box.
    Stood,
    /// The box now holds what the map gives.
    Narrowed,
    /// The map gives none, and the box is as it was.
    Empty,
}

impl Answer {
    /// 1, 2 or 3.
    // A method and no From: the number is what is told of an answer, not the answer in another form.
    pub fn number(self) -> u16
        ensures { result ≡ answer_number self }
    {
        match self {
            Answer::Stood => 1,
            Answer::Narrowed => 2,
            Answer::Empty => 3,
        }
    }
}

/// `stood`, `narrowed` or `none`.
impl fmt::Display for Answer {
    fn fmt<W: fmt::Write>(&self, f: &mut fmt::Formatter<W>) -> fmt::Result {
        f.write_str(match self {
            Answer::Stood => "stood",
            Answer::Narrowed => "narrowed",
            Answer::Empty => "none",
        })
    }
}
