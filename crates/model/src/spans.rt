//! What is asked of spans.

ghost use Rattle.std.specs.Prelude.{◌≡◌};
ghost use Rattle.model.specs.Boxes.{span, ends, within, bad_span, equal_spans, same_box, padded};
ghost use Rattle.model.specs.Laws.{BoxHasNoBadSpan};

use crate::limits::BOX_LIMIT;
use crate::span::Span;

impl Span {
    /// The span from `low` to `high`.
    pub fn new(low: i64, high: i64) -> Span
        ensures { result ≡ span low high }
    {
        Span { low, high }
    }

    /// The ends as a range, the low one first.
    // A method and no From: clauses name it, and `.ends()` reads better than a conversion to a pair.
    pub fn ends(self) -> (i64, i64)
        ensures { result ≡ ends self }
    {
        (self.low, self.high)
    }

    /// Whether the low end comes first and neither end is more than `limit` away from 0.
    pub fn is_within(self, limit: u32) -> bool
        ensures { result ≡ within limit (ends self) }
    {
        let most = limit as i64;
        (-most <= self.low) & ((self.low <= self.high) & (self.high <= most))
    }
}

impl From<(i64, i64)> for Span {
    ghost from_gives = { λ r s. s ≡ span r.0 r.1 };

    fn from(ends: (i64, i64)) -> Span {
        Span::new(ends.0, ends.1)
    }
}

/// The place, from 1, of the first span that is crossed or beyond ±4,096.
// A place or none, and no Result: which refusal it makes, and whether it does, is for the caller to say.
pub fn first_bad_span(spans: &[Span]) -> Option<usize>
    ensures value { result ≡ bad_span spans.now }
    ensures law { BoxHasNoBadSpan }
{
    let before = spans.iter().position(|s| !s.is_within(BOX_LIMIT))?;
    Some(before + 1)
}

/// The first nine spans of a run, and zeros where it has fewer.
pub fn copy_of(spans: &[Span]) -> [Span; 9]
    ensures { result ≡ padded spans.now }
{
    let mut copy = [Span::default(); 9];
    let n = spans.len().min(9);
    copy[0..n].copy_from_slice(&spans[0..n]);
    copy
}

/// Whether two runs hold the same spans.
// `==` by another name: its clause says so by the definition that answers are told by.
pub fn same_spans(a: &[Span], b: &[Span]) -> bool
    ensures { result ≡ same_box a.now b.now }
{
    a == b
}
