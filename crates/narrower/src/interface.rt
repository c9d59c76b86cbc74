//! The one interface behind which every narrower stands.

ghost use Rattle.std.specs.Prelude.{◌≡◌, ◌≤◌};
ghost use Rattle.model.specs.Limits.{most_coordinates};
ghost use Rattle.model.specs.Boxes.{IsBox};
ghost use Rattle.narrower.specs.Narrowings.{Narrowing, Lawful};
ghost use Rattle.narrower.specs.Answers.{checked, answer_of, after_of, CutTo};

use crate::answer::Answer;
use crate::faults::NarrowFault;
use model::span::Span;
use model::spans::{copy_of, first_bad_span, same_spans};

/// Whatever can tighten a box. `means` is its size, the rows that it speaks for and its map, which keeps the laws inside, keeping and
/// order. Narrowing changes none of these.
pub trait Narrower {
    ghost means: { Self → Narrowing };

    /// The size of the boxes that it takes; 0 where it takes none.
    // 0 and no Option: no box has size 0, so the laws and the refusal by 14 need no second case.
    fn size(&self) -> usize
        ensures { result ≡ (means self.now).size };

    /// Narrows the box in a run of spans. A refusal and `Answer::Empty` leave the run as it was.
    fn narrow(&mut self, spans: &mut [Span]) -> Result<Answer, NarrowFault>
        ensures answer { result ≡ answer_of (means self.old) spans.old }
        ensures after { spans.new ≡ after_of (means self.old) spans.old }
        ensures same { means self.new ≡ means self.old };

    ghost lawful: { (n : Self) → Lawful (means n) };
}

/// What a narrower of the size refuses of a run: an empty run or another length, then the first span that is crossed or beyond ±4,096.
pub fn check_run(size: usize, spans: &[Span]) -> Result<(), NarrowFault>
    ensures { result ≡ checked size spans.now }
{
    if spans.len() == 0 || spans.len() != size {
        return Err(NarrowFault::Length);
    }
    // A match: `map_or(Ok(()), ..)` would put what passes into the place of what is missing.
    match first_bad_span(spans) {
        None => Ok(()),
        Some(place) => Err(NarrowFault::BadSpan(place)),
    }
}

/// Whatever cuts a box where it lies, by what it means as a narrower. Where nothing is left it says none, and may leave the run half cut.
pub trait Cutter {
    ghost meaning: { Self → Narrowing };

    /// The size of the boxes that it cuts; 0 where it cuts none.
    fn box_size(&self) -> usize
        ensures { result ≡ (meaning self.now).size };

    /// Cuts the box; none where nothing is left of it.
    fn cut(&self, spans: &mut [Span]) -> Option<()>
        requires { IsBox (meaning self.now).size spans.old }
        ensures { CutTo ((meaning self.now).map spans.old) result spans.new };

    ghost few: { (c : Self) → (meaning c).size ≤ most_coordinates };
}

/// Narrows the box in a run of spans by cutting it, and puts the run back where nothing is left.
pub fn narrow_by_cuts<C: Cutter>(by: &C, spans: &mut [Span]) -> Result<Answer, NarrowFault>
    ensures answer { result ≡ answer_of (C.meaning by.now) spans.old }
    ensures after { spans.new ≡ after_of (C.meaning by.now) spans.old }
{
    check_run(by.box_size(), spans)?;
    let n = spans.len();
    let was = copy_of(spans);
    if by.cut(spans).is_none() {
        spans.copy_from_slice(&was[0..n]);
        return Ok(Answer::Empty);
    }
    if same_spans(spans, &was[0..n]) {
        Ok(Answer::Stood)
    } else {
        Ok(Answer::Narrowed)
    }
}
