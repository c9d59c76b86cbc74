//! The weighted sums of rows.

ghost use Rattle.std.specs.Prelude.{◌≡◌, map};
ghost use Rattle.numbers.specs.Ranges.{held_range, just, times};
ghost use Rattle.model.specs.Boxes.{ends};
ghost use Rattle.model.specs.Drafts.{drafted};
ghost use Rattle.weighing.specs.Coefficients.{coefficient_of};
ghost use Rattle.weighing.specs.Weights.{end_for, bound_of};
ghost use Rattle.weighing.specs.Weighed.{weighed, Holds};

use crate::coefficient::Coefficient;
use crate::ends::taken_end;
use crate::weighted::Weighted;
use model::draft::RowDraft;
use model::span::Span;
use numbers::ranges::{Range, sum_range};
use std::array;

/// The end that the weight takes: the low one if it is negative, else the high one; 0 for an absent one.
fn end_for(weight: i64, row: &RowDraft) -> i64
    ensures { result ≡ end_for weight (drafted row.now) }
{
    taken_end(weight, row).unwrap_or(0)
}

/// A weight times a coefficient: of the four end products two are the other two.
fn part(weight: i64, coefficient: Range) -> Range
    ensures { result ≡ held_range (times (just weight) coefficient) }
{
    let p = weight.saturating_mul(coefficient.0);
    let q = weight.saturating_mul(coefficient.1);
    (p.min(q), p.max(q))
}

impl Weighted<'_> {
    /// The weighted sum of one coefficient of all rows, 0 if they don't have it.
    fn sum(self, which: Coefficient) -> Span
        ensures { ends result ≡ coefficient_of which (weighed self.entry) }
    {
        if !which.is_within(self.held.size) {
            return Span::default();
        }
        let sum = self
            .weights
            .iter()
            .zip(self.held.rows)
            .map(|(weight, row)| part(*weight, which.of(row)))
            .fold((0, 0), sum_range);
        Span::from(sum)
    }

    /// The weighted sums of the pairs of coordinate `i` with those after it.
    fn pairs_from(self, i: usize) -> [Span; 9]
        ensures { Holds result ((weighed self.entry).pairs i) }
    {
        array::from_fn(|j| self.sum(Coefficient::Pair(i, j)))
    }

    /// The sum of the weights times their ends.
    fn bound(self) -> i64
        ensures { result ≡ bound_of self.entry.weights.now (map drafted self.entry.held.rows.now) }
    {
        // Nothing saturates: sixteen weights within 64, times ends within 2^36, make at most 2^46.
        self.weights
            .iter()
            .zip(self.held.rows)
            .map(|(weight, row)| weight.saturating_mul(end_for(*weight, row)))
            .fold(0, i64::saturating_add)
    }

    /// The weighted sums of all coefficients, and of the ends, as one row.
    pub(crate) fn row(self) -> RowDraft
        ensures { drafted result ≡ weighed self.entry }
    {
        RowDraft {
            size: self.held.size,
            squares: array::from_fn(|i| self.sum(Coefficient::Square(i))),
            // A clause of its own: none is inferred for a closure that gives an array.
            pairs: array::from_fn(
                |i|
                    ensures { Holds result ((weighed self.entry).pairs i) }
                { self.pairs_from(i) },
            ),
            singles: array::from_fn(|i| self.sum(Coefficient::Single(i))),
            low: None,
            high: Some(self.bound()),
        }
    }
}
