//! Fractions rounded to a whole number.

ghost use Rattle.std.specs.Prelude.{◌≡◌, pos, ◌≢◌};
ghost use Rattle.numbers.specs.Division.{down, up, held, down_quotient, up_quotient};
ghost use Rattle.numbers.specs.Laws.{DownIsGreatestNotAbove, UpIsLeastNotBelow};
ghost use Rattle.numbers.specs.Ranges.{off_zero};

use crate::positive::Positive;

/// The greatest number that is not above `a / b`; none where `b` is 0.
pub fn floor_div(a: i64, b: i64) -> Option<i64>
    ensures value { result ≡ down_quotient a b }
    ensures law { DownIsGreatestNotAbove }
{
    (b != 0).then(|| quotient_down(a, b))
}

/// The least number that is not below `a / b`; none where `b` is 0.
pub fn ceil_div(a: i64, b: i64) -> Option<i64>
    ensures value { result ≡ up_quotient a b }
    ensures law { UpIsLeastNotBelow }
{
    (b != 0).then(|| quotient_up(a, b))
}

/// The greatest number that is not above `a` over a positive number.
pub fn down_by(a: i64, by: Positive) -> i64
    ensures { result ≡ down a by.value }
{
    a.div_euclid(by.value)
}

/// The least number that is not below `a` over a positive number.
pub fn up_by(a: i64, by: Positive) -> i64
    ensures { result ≡ up a by.value }
{
    let quotient = a.div_euclid(by.value);
    if a.rem_euclid(by.value) == 0 {
        quotient
    } else {
        quotient + 1
    }
}

/// `a / b` rounded down: one less than the quotient cut towards 0, if what is left lies on the other side of 0 than `b`.
// No NonZero for the divisor: those who call have tested the ends of a range already, and would have to test each once more to make one.
pub(crate) fn quotient_down(a: i64, b: i64) -> i64
    requires { b ≢ pos 0 }
    ensures { result ≡ held (down a b) }
{
    if b == -1 {
        return a.saturating_neg();
    }
    let quotient = a / b;
    let rest = a % b;
    if rest != 0 && !is_one_sided(rest, b) {
        quotient - 1
    } else {
        quotient
    }
}

/// `a / b` rounded up: one more than the quotient cut towards 0, if what is left lies on the same side of 0 as `b`.
pub(crate) fn quotient_up(a: i64, b: i64) -> i64
    requires { b ≢ pos 0 }
    ensures { result ≡ held (up a b) }
{
    if b == -1 {
        return a.saturating_neg();
    }
    let quotient = a / b;
    let rest = a % b;
    if is_one_sided(rest, b) {
        quotient + 1
    } else {
        quotient
    }
}

/// Both numbers lie on one side of 0.
pub(crate) fn is_one_sided(a: i64, b: i64) -> bool
    ensures { result ≡ off_zero (a, b) }
{
    (0 < a) & (0 < b) | (a < 0) & (b < 0)
}
