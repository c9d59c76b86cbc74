//! A row as a person reads it.
use model::draft::RowDraft;
use model::span::Span;
use std::fmt;

/// A row as an inequality: `1 x1^2 + [1,3] x1 x2 - 4 x2 between 6 and 9`.
#[derive(Drop)]
pub struct RowText<'a>(pub &'a RowDraft);

impl<'a> fmt::Display for RowText<'a> {
    fn fmt<W: fmt::Write>(&self, f: &mut fmt::Formatter<W>) -> fmt::Result {
        let row = self.0;
        let mut terms = Terms { f, started: false };
        terms.write_each(&row.squares, 0, |i| Variables::Square(i))?;
        for (i, pairs) in (1..).zip(&row.pairs) {
            terms.write_each(pairs, i, |j| Variables::Pair(i, j))?;
        }
        terms.write_each(&row.singles, 0, |i| Variables::Single(i))?;
        terms.end()?;
        write_side(row.low, row.high, f)
    }
}

/// What a coefficient is multiplied with, by coordinates that count from 1.
#[derive(Clone, Copy)]
enum Variables {
    Square(usize),
    Pair(usize, usize),
    Single(usize),
}

/// As `x1^2`, `x1 x2` or `x2`.
impl fmt::Display for Variables {
    fn fmt<W: fmt::Write>(&self, f: &mut fmt::Formatter<W>) -> fmt::Result {
        match self {
            Variables::Square(i) => write!(f, "x{i}^2"),
            Variables::Pair(i, j) => write!(f, "x{i} x{j}"),
            Variables::Single(i) => write!(f, "x{i}"),
        }
    }
}

/// A sum that is being written, and whether it has a term yet.
#[derive(Drop)]
struct Terms<'f, W> {
    f: &'f mut fmt::Formatter<W>,
    started: bool,
}

impl<'f, W: fmt::Write> Terms<'f, W> {
    /// Writes the terms of a run of coefficients, but for the first ones that are to be skipped. What the k-th is multiplied with is `of(k)`.
    fn write_each<F: Fn(usize) -> Variables>(
        &mut self,
        spans: &[Span],
        skipped: usize,
        of: F,
    ) -> fmt::Result
        requires { F.IsAlwaysCallable of }
    {
        for (k, span) in (1..).zip(spans).skip(skipped) {
            self.write(*span, of(k))?;
        }
        Ok(())
    }

    /// Writes a term with the sign before it. One with the coefficient 0 is left out.
    fn write(&mut self, coefficient: Span, of: Variables) -> fmt::Result {
        let Span { low, high } = coefficient;
        if low == 0 && high == 0 {
            return Ok(());
        }
        let sign = match (self.started, low == high && low < 0) {
            (true, true) => return write!(self.f, " - {} {of}", low.unsigned_abs()),
            (true, false) => " + ",
            (false, _) => "",
        };
        self.started = true;
        if low == high {
            write!(self.f, "{sign}{low} {of}")
        } else {
            write!(self.f, "{sign}{coefficient} {of}")
        }
    }

    /// Writes the sum of no terms, where there was none.
    fn end(self) -> fmt::Result {
        if self.started {
            Ok(())
        } else {
            self.f.write_str("0")
        }
    }
}

/// Writes what the sum is held to.
fn write_side<W: fmt::Write>(
    low: Option<i64>,
    high: Option<i64>,
    f: &mut fmt::Formatter<W>,
) -> fmt::Result {
    match (low, high) {
        (Some(low), Some(high)) => write!(f, " between {low} and {high}"),
        (Some(low), None) => write!(f, " at least {low}"),
        (None, Some(high)) => write!(f, " at most {high}"),
        (None, None) => write!(f, " unbounded"),
    }
}
