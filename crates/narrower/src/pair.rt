//! The layer that runs one narrower and then another.

ghost use Rattle.std.specs.Prelude.{◌≡◌};
ghost use Rattle.narrower.specs.Layers.{pair_of};
ghost use Rattle.narrower.specs.Joins.{joined_of};
ghost use Rattle.narrower.specs.LayerLaws.{pair_lawful};

use crate::answer::Answer;
use crate::faults::NarrowFault;
use crate::interface::{Narrower, check_run};
use model::span::Span;
use model::spans::copy_of;

/// First one narrower, then the other. It speaks for the rows of both. Two sizes that differ make size 0, which fits no box.
#[derive(Drop)]
pub struct Pair<A, B> {
    first: A,
    second: B,
}

impl<A: Narrower, B: Narrower> Pair<A, B> {
    /// The pair of the two narrowers.
    pub fn new(first: A, second: B) -> Pair<A, B>
        ensures { pair_of (A.means result.first) (B.means result.second) ≡ pair_of (A.means first) (B.means second) }
    {
        Pair { first, second }
    }
}

/// What two answers in a row come to: none if either is, stood if both stood.
fn joined(one: Answer, two: Answer) -> Answer
    ensures { result ≡ joined_of one two }
{
    one.max(two)
}

impl<A: Narrower, B: Narrower> Narrower for Pair<A, B> {
    ghost means = { λ p. pair_of (A.means p.first) (B.means p.second) };

    ghost lawful = { λ n. pair_lawful _ _ (A.Narrower.lawful n.first) (B.Narrower.lawful n.second) };

    fn size(&self) -> usize {
        let a = self.first.size();
        let b = self.second.size();
        if a == b { a } else { 0 }
    }

    fn narrow(&mut self, spans: &mut [Span]) -> Result<Answer, NarrowFault> {
        // These three lines open each of the layers. One function for all would take the rest as a closure over `self`, and be no plainer.
        check_run(self.size(), spans)?;
        let mut copy = copy_of(spans);
        let part = &mut copy[..spans.len()];
        let one = self.first.narrow(part)?;
        if one == Answer::Empty {
            return Ok(Answer::Empty);
        }
        let two = self.second.narrow(part)?;
        if two == Answer::Empty {
            return Ok(Answer::Empty);
        }
        spans.copy_from_slice(part);
        Ok(joined(one, two))
    }
}
