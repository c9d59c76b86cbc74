//! The whole numbers of a factoring, each from a few others.

ghost use Rattle.std.specs.Prelude.{◌≡◌, pos, ◌-ℤ◌, ◌*ℤ◌, ◌≤ℤ◌};
ghost use Rattle.numbers.specs.Division.{up, nearest};
ghost use Rattle.numbers.specs.Magnitudes.{abs};
ghost use Rattle.numbers.specs.Ranges.{Spans};
ghost use Rattle.factoring.specs.Forms.{middle, leftover};
ghost use Rattle.factoring.specs.Steps.{clamped, around, gap_of};

use numbers::positive::Positive;
use numbers::ranges::Range;
use numbers::rounding::{down_by, up_by};

/// The whole number nearest to `a / by`.
pub(crate) fn rounded(a: i64, by: Positive) -> i64
    requires small { by.value ≤ℤ pos 1073741824 }
    requires inside { abs a ≤ℤ pos 1152921504606846976 }
    ensures { result ≡ nearest a by.value }
{
    let twice = 2 * by.value;
    down_by(2 * a + by.value, Positive { value: twice })
}

/// A number held within 65,536 of 0.
pub(crate) fn limited(z: i64) -> i64
    ensures { result ≡ clamped z }
{
    z.clamp(-65536, 65536)
}

/// A pivot times two slopes, or a shift and a slope.
pub(crate) fn product(p: i64, a: i64, b: i64) -> i64
    requires first { abs p ≤ℤ pos 1073741824 }
    requires second { abs a ≤ℤ pos 65536 }
    requires third { abs b ≤ℤ pos 65536 }
    ensures value { result ≡ p *ℤ a *ℤ b }
    ensures small { abs result ≤ℤ pos 4611686018427387904 }
{
    p * a * b
}

/// A pivot times a slope or a shift.
pub(crate) fn scaled(p: i64, a: i64) -> i64
    requires first { abs p ≤ℤ pos 1073741824 }
    requires second { abs a ≤ℤ pos 65536 }
    ensures value { result ≡ p *ℤ a }
    ensures small { abs result ≤ℤ pos 4611686018427387904 }
{
    p * a
}

/// `a` less `q / by`, rounded up.
pub(crate) fn lowered(a: i64, q: i64, by: Positive) -> i64
    requires first { abs a ≤ℤ pos 2305843009213693952 }
    requires second { abs q ≤ℤ pos 4611686018427387904 }
    ensures { result ≡ a -ℤ up q by.value }
{
    a - up_by(q, by)
}

/// `a` less `q / by`, rounded both ways.
pub(crate) fn left_around(a: i64, q: i64, by: Positive) -> Range
    requires first { abs a ≤ℤ pos 2305843009213693952 }
    requires second { abs q ≤ℤ pos 4611686018427387904 }
    ensures { result ≡ around a q by.value }
{
    (a - up_by(q, by), a - down_by(q, by))
}

/// From 0 to how far the two roundings of `q / by` are apart.
pub(crate) fn gap_of(q: i64, by: Positive) -> Range
    ensures { result ≡ gap_of q by.value }
{
    (0, up_by(q, by) - down_by(q, by))
}

/// The middle of a range, rounded down.
pub(crate) fn middle_of(s: Range) -> i64
    requires { Spans s 67108864 }
    ensures { result ≡ middle s }
{
    down_by(s.0 + s.1, Positive { value: 2 })
}

/// What a range has around its middle.
pub(crate) fn leftover_of(s: Range) -> Range
    requires { Spans s 67108864 }
    ensures { result ≡ leftover s }
{
    let m = middle_of(s);
    (s.0 - m, s.1 - m)
}
