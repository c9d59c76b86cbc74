//! The layer that runs a narrower over and over.

ghost use Rattle.std.specs.Prelude.{◌≡◌};
ghost use Rattle.model.specs.Boxes.{IsBox};
ghost use Rattle.narrower.specs.Answers.{answer_of, after_of};
ghost use Rattle.narrower.specs.Layers.{rounds_of};
ghost use Rattle.narrower.specs.Rounds.{ToldBy, Turned};
ghost use Rattle.narrower.specs.LayerLaws.{rounds_lawful};

use crate::answer::Answer;
use crate::faults::NarrowFault;
use crate::interface::{Narrower, check_run};
use model::span::Span;
use model::spans::copy_of;

/// The most rounds that count.
pub const MOST_ROUNDS: usize = 64;

/// The narrower below, `rounds` times, where more than 64 counts as 64. It stops early only when a round left the box as it was, and tells
/// after each call how many rounds it took.
#[derive(Drop)]
pub struct Rounds<N> {
    below: N,
    rounds: usize,
    told: usize,
}

impl<N: Narrower> Rounds<N> {
    /// The narrower below, so many times.
    pub fn new(below: N, rounds: usize) -> Rounds<N>
        ensures means { rounds_of result.rounds (N.means result.below) ≡ rounds_of rounds (N.means below) }
        ensures told { result.told ≡ 0 }
    {
        Rounds {
            below,
            rounds,
            told: 0,
        }
    }

    /// How many rounds the last call took: 0 before the first call, and after a refusal and none.
    pub fn told(&self) -> usize
        ensures { result ≡ self.now.told }
    {
        self.told
    }
}

/// Narrows until a round stands, at most `most` times, and says how often; none where a round finds none.
fn turns<N: Narrower>(below: &mut N, part: &mut [Span], most: usize) -> Option<usize>
    requires { IsBox (N.means below.old).size part.old }
    ensures same { N.means below.new ≡ N.means below.old }
    ensures turned { Turned most (N.means below.old) part.old result part.new }
{
    // The index is the answer: how many rounds changed the box.
    for i in 0..most {
        match below.narrow(part) {
            Ok(Answer::Empty) => return None,
            Ok(Answer::Stood) => return Some(i),
            Ok(Answer::Narrowed) => {}
            Err(_) => unreachable(),
        }
    }
    Some(most)
}

impl<N: Narrower> Narrower for Rounds<N> {
    ghost means = { λ r. rounds_of r.rounds (N.means r.below) };

    ghost lawful = { λ n. rounds_lawful n.rounds _ (N.Narrower.lawful n.below) };

    fn size(&self) -> usize {
        self.below.size()
    }

    fn narrow(&mut self, spans: &mut [Span]) -> Result<Answer, NarrowFault>
        ensures answer { result ≡ answer_of (rounds_of self.old.rounds (N.means self.old.below)) spans.old }
        ensures after { spans.new ≡ after_of (rounds_of self.old.rounds (N.means self.old.below)) spans.old }
        ensures same { rounds_of self.new.rounds (N.means self.new.below) ≡ rounds_of self.old.rounds (N.means self.old.below) }
        ensures told { ToldBy self.old.rounds (N.means self.old.below) spans.old result spans.new self.new.told }
    {
        self.told = 0;
        check_run(self.below.size(), spans)?;
        let mut copy = copy_of(spans);
        let part = &mut copy[..spans.len()];
        let most = self.rounds.min(MOST_ROUNDS);
        let Some(told) = turns(&mut self.below, part, most) else {
            return Ok(Answer::Empty);
        };
        spans.copy_from_slice(part);
        self.told = told;
        if told == 0 {
            Ok(Answer::Stood)
        } else {
            Ok(Answer::Narrowed)
        }
    }
}
