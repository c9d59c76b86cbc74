//! Charges: the low ends of terms on a box, whose coefficients are known to ranges, added.

ghost use Rattle.std.specs.Prelude.{◌≡◌, ℕ, ◌<◌, [], length, slice_index_or};
ghost use Rattle.numbers.specs.Ranges.{Spans, held_range, times, square};
ghost use Rattle.numbers.specs.Sums.{sum};
ghost use Rattle.model.specs.Boxes.{at};
ghost use Rattle.factoring.specs.Factoring.{entry_limit};
ghost use Rattle.factoring.specs.Sizes.{singles_bound};
ghost use Rattle.factoring.specs.Stored.{range_at};
ghost use Rattle.certificate.specs.Charges.{squares_charge, pairs_charge, singles_charge, slacks_charge};

use crate::held_box::HeldBox;
use numbers::ranges::{Range, product_range, square_range};

/// The low end of `a`·x².
fn square_low(a: Range, x: Range) -> i64
    ensures { result ≡ (held_range (times a (held_range (square x)))).0 }
{
    product_range(a, square_range(x)).0
}

/// The low end of `a`·x·y.
fn pair_low(a: Range, x: Range, y: Range) -> i64
    ensures { result ≡ (held_range (times a (held_range (times x y)))).0 }
{
    product_range(a, product_range(x, y)).0
}

/// The low end of `a`·x.
pub(crate) fn single_low(a: Range, x: Range) -> i64
    ensures { result ≡ (held_range (times a x)).0 }
{
    product_range(a, x).0
}

impl HeldBox<'_> {
    /// What squares with the coefficients `c` charge.
    // A chain for each kind of term: one function over the kinds would take a closure and be no shorter.
    pub(crate) fn squares(self, c: &[Range; 9]) -> i64
        requires { (j : ℕ) → j < length self.spans.now → Spans (range_at c.now j) entry_limit }
        ensures { result ≡ squares_charge (length self.entry.spans.now) self.entry.spans.now (range_at c.now) }
    {
        c.iter()
            .zip(self.spans)
            .map(|(a, x)| square_low(*a, x.ends()))
            .sum()
    }

    /// What singles with the coefficients `c` charge.
    pub(crate) fn singles(self, c: &[Range; 9]) -> i64
        requires { (j : ℕ) → j < length self.spans.now → Spans (range_at c.now j) (singles_bound 9) }
        ensures { result ≡ singles_charge (length self.entry.spans.now) self.entry.spans.now (range_at c.now) }
    {
        c.iter()
            .zip(self.spans)
            .map(|(a, x)| single_low(*a, x.ends()))
            .sum()
    }

    /// What the pairs of each coordinate with that of the axis charge, with the coefficients `c`.
    pub(crate) fn slacks(self, c: &[Range; 9], axis: usize) -> i64
        requires axis_within { axis < length self.spans.now }
        requires c_small { (j : ℕ) → j < length self.spans.now → Spans (range_at c.now j) entry_limit }
        ensures { result ≡ slacks_charge (length self.entry.spans.now) self.entry.spans.now axis (range_at c.now) }
    {
        let x = self.spans[axis].ends();
        c.iter()
            .zip(self.spans)
            .map(|(a, y)| pair_low(*a, x, y.ends()))
            .sum()
    }

    /// What the pairs of x_k with the coordinates before it charge.
    fn column(self, c: &[[Range; 9]; 9], k: usize) -> i64
        requires k_within { k < length self.spans.now }
        requires c_small { (i j : ℕ) → i < j → j < length self.spans.now → Spans (range_at (slice_index_or c.now i []) j) entry_limit }
        ensures { result ≡ sum k (λ j. (times (range_at (slice_index_or c.now j []) k) (times (at self.entry.spans.now j) (at self.entry.spans.now k))).0) }
    {
        let y = self.spans[k].ends();
        c.iter()
            .zip(&self.spans[..k])
            .map(|(line, x)| pair_low(line[k], x.ends(), y))
            .sum()
    }

    /// What pairs with the coefficients `c` charge.
    pub(crate) fn pairs(self, c: &[[Range; 9]; 9]) -> i64
        requires { (i j : ℕ) → i < j → j < length self.spans.now → Spans (range_at (slice_index_or c.now i []) j) entry_limit }
        ensures { result ≡ pairs_charge (length self.entry.spans.now) self.entry.spans.now (λ i j. range_at (slice_index_or c.now i []) j) }
    {
        (0..self.spans.len()).map(|k| self.column(c, k)).sum()
    }
}
