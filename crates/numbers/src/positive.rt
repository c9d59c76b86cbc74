//! Positive numbers.

ghost use Rattle.std.specs.Prelude.{pos, ◌<ℤ◌};

/// A number above 0, by which a quotient always is an i64.
#[derive(Clone, Copy)]
pub struct Positive {
    pub value: i64,
    ghost above: { pos 0 <ℤ value },
}
