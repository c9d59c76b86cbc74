//! Ranges of numbers, each a pair of ends with the low end first.

ghost use Rattle.std.specs.Prelude.{◌≡◌, T, pos, ◌*ℤ◌, ◌≤ℤ◌, ◌≢◌};
ghost use Rattle.numbers.specs.Division.{down, up, held};
ghost use Rattle.numbers.specs.Magnitudes.{abs};
ghost use Rattle.numbers.specs.Ranges.{held_range, least4, most4, holds_zero, plus, minus, without, times, square, quotient_of, shared};
ghost use Rattle.numbers.specs.Laws.{SumIsEnclosed, DifferenceIsEnclosed, ProductIsEnclosed, SquareIsEnclosed, QuotientIsEnclosed, SharedHoldsWhatBothHold};

use crate::rounding::{is_one_sided, quotient_down, quotient_up};

/// A low end and a high end.
// A pair and no struct: the definitions are over pairs of ends, so a range of the code is one of theirs as it stands.
pub type Range = (i64, i64);

/// The range of a sum of a number from `a` and one from `b`.
pub fn sum_range(a: Range, b: Range) -> Range
    ensures value { result ≡ held_range (plus a b) }
    ensures law { SumIsEnclosed }
{
    (a.0.saturating_add(b.0), a.1.saturating_add(b.1))
}

/// The range of a number from `a` less one from `b`.
pub fn difference_range(a: Range, b: Range) -> Range
    ensures value { result ≡ held_range (minus a b) }
    ensures law { DifferenceIsEnclosed }
{
    (a.0.saturating_sub(b.1), a.1.saturating_sub(b.0))
}

/// What is left of `a`, a sum of ranges, without its part `b`, end by end.
pub fn remaining_range(a: Range, b: Range) -> Range
    ensures { result ≡ held_range (without a b) }
{
    (a.0.saturating_sub(b.0), a.1.saturating_sub(b.1))
}

/// The range of a product of a number from `a` and one from `b`: from the least to the greatest of the four end products.
pub fn product_range(a: Range, b: Range) -> Range
    ensures value { result ≡ held_range (times a b) }
    ensures law { ProductIsEnclosed }
{
    let p = capped_product(a.0, b.0);
    let q = capped_product(a.0, b.1);
    let s = capped_product(a.1, b.0);
    let t = capped_product(a.1, b.1);
    (least_of_four(p, q, s, t), greatest_of_four(p, q, s, t))
}

/// The range of the square of a number from `a`: it starts at 0 where `a` holds 0, else at the smaller end square.
pub fn square_range(a: Range) -> Range
    ensures value { result ≡ held_range (square a) }
    ensures law { SquareIsEnclosed }
{
    let p = capped_product(a.0, a.0);
    let q = capped_product(a.1, a.1);
    let most = p.max(q);
    if is_around_zero(a) {
        (0, most)
    } else {
        (p.min(q), most)
    }
}

/// The range of a number from `a` over one from `b`, rounded outward; none unless both ends of `b` lie on one side of 0.
pub fn quotient_range(a: Range, b: Range) -> Option<Range>
    ensures value { result ≡ quotient_of a b }
    ensures law { QuotientIsEnclosed }
{
    if !is_one_sided(b.0, b.1) {
        return None;
    }
    let p = both_roundings(a.0, b.0);
    let q = both_roundings(a.0, b.1);
    let s = both_roundings(a.1, b.0);
    let t = both_roundings(a.1, b.1);
    Some((
        least_of_four(p.0, q.0, s.0, t.0),
        greatest_of_four(p.1, q.1, s.1, t.1),
    ))
}

/// What two ranges share; none where they share nothing.
// Tried: with `then_some` in place of the `if`, the value and the law stay open.
pub fn meeting(a: Range, b: Range) -> Option<Range>
    ensures value { result ≡ shared a b }
    ensures law { SharedHoldsWhatBothHold }
{
    let low = a.0.max(b.0);
    let high = a.1.min(b.1);
    if low <= high { Some((low, high)) } else { None }
}

/// 0 lies in the range.
fn is_around_zero(a: Range) -> bool
    ensures { result ≡ holds_zero a }
{
    (a.0..=a.1).contains(&0)
}

/// A quotient rounded down, and rounded up.
fn both_roundings(a: i64, b: i64) -> Range
    requires { b ≢ pos 0 }
    ensures { result ≡ held_range (down a b, up a b) }
{
    (quotient_down(a, b), quotient_up(a, b))
}

/// The least of four numbers.
fn least_of_four(a: i64, b: i64, c: i64, d: i64) -> i64
    ensures { result ≡ least4 a b c d }
{
    a.min(b).min(c.min(d))
}

/// The greatest of four numbers.
fn greatest_of_four(a: i64, b: i64, c: i64, d: i64) -> i64
    ensures { result ≡ most4 a b c d }
{
    a.max(b).max(c.max(d))
}

/// A product, or the end of the i64 numbers that is nearest to it. Where both numbers are short, nothing can overflow.
fn capped_product(a: i64, b: i64) -> i64
    ensures { result ≡ held (a *ℤ b) }
{
    if is_short(a) && is_short(b) {
        a * b
    } else {
        a.saturating_mul(b)
    }
}

/// At most 2 to the 31st away from 0.
fn is_short(a: i64) -> bool
    ensures { T result → abs a ≤ℤ pos 2147483648 }
{
    (-2147483648..=2147483648).contains(&a)
}
