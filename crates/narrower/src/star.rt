//! The layer that takes over the spans of one star alone.

ghost use Rattle.std.specs.Prelude.{◌≡◌, length, if◌then◌else◌};
ghost use Rattle.model.specs.Boxes.{same_box};
ghost use Rattle.narrower.specs.Layers.{star_of};
ghost use Rattle.narrower.specs.LayerLaws.{star_lawful};

use crate::answer::Answer;
use crate::faults::NarrowFault;
use crate::interface::{Narrower, check_run};
use model::span::Span;
use model::spans::{copy_of, same_spans};

/// Of what the narrower below finds, only the three spans of one star, which counts from 1. A missing star makes size 0, which fits no box.
#[derive(Drop)]
pub struct Star<N> {
    below: N,
    star: usize,
}

impl<N: Narrower> Star<N> {
    /// The narrower below, for one star alone.
    pub fn new(below: N, star: usize) -> Star<N>
        ensures { star_of result.star (N.means result.below) ≡ star_of star (N.means below) }
    {
        Star { below, star }
    }
}

/// Writes the spans, and says what that comes to: stood where they were there already.
fn write(to: &mut [Span], from: &[Span]) -> Answer
    requires { length from.now ≡ length to.old }
    ensures value { result ≡ (if same_box from.now to.old then Answer.Stood else Answer.Narrowed) }
    ensures after { to.new ≡ from.now }
{
    let same = same_spans(from, to);
    to.copy_from_slice(from);
    if same {
        Answer::Stood
    } else {
        Answer::Narrowed
    }
}

impl<N: Narrower> Narrower for Star<N> {
    ghost means = { λ s. star_of s.star (N.means s.below) };

    ghost lawful = { λ n. star_lawful n.star _ (N.Narrower.lawful n.below) };

    fn size(&self) -> usize {
        let size = self.below.size();
        if 0 < self.star && self.star <= size / 3 {
            size
        } else {
            0
        }
    }

    fn narrow(&mut self, spans: &mut [Span]) -> Result<Answer, NarrowFault> {
        check_run(self.size(), spans)?;
        let mut copy = copy_of(spans);
        let part = &mut copy[..spans.len()];
        let answer = self.below.narrow(part)?;
        if answer == Answer::Empty {
            return Ok(Answer::Empty);
        }
        let from = 3 * self.star - 3;
        Ok(write(&mut spans[from..from + 3], &part[from..from + 3]))
    }
}
