//! What a run came to.
use model::span::Span;
use std::fmt;

/// How the placement is left.
// Three meanings, so neither an Option nor a Result.
#[derive(Clone, Copy)]
pub enum Outcome {
    /// No placement was made.
    Nothing,
    /// The placement stands at none.
    NoPlace,
    /// The placement is open.
    Open(Narrowing),
}

/// How much of a box was cut away: how many coordinates are narrower, of how many, and the sums of the widths.
#[derive(Clone, Copy)]
pub struct Narrowing {
    narrowed: usize,
    size: usize,
    before: i64,
    after: i64,
}

impl Narrowing {
    /// What became of a box.
    pub fn between(before: &[Span], after: &[Span]) -> Narrowing {
        let pairs = before.iter().zip(after);
        Narrowing {
            narrowed: pairs.filter(|(was, is)| width(is) < width(was)).count(),
            size: after.len(),
            before: widths(before),
            after: widths(after),
        }
    }
}

fn width(span: &Span) -> i64 {
    span.high.saturating_sub(span.low)
}

/// The sum of the widths.
fn widths(spans: &[Span]) -> i64 {
    spans.iter().map(width).fold(0, i64::saturating_add)
}

/// How many calls there were, how many were refused, and how the placement is left.
#[derive(Clone, Copy)]
pub struct Summary {
    pub calls: u64,
    pub refused: u64,
    pub outcome: Outcome,
}

impl fmt::Display for Summary {
    fn fmt<W: fmt::Write>(&self, f: &mut fmt::Formatter<W>) -> fmt::Result {
        let calls = self.calls;
        let noun = if calls == 1 { "call" } else { "calls" };
        let refused = self.refused;
        write!(f, "{calls} {noun}, {refused} refused; ")?;
        match self.outcome {
            Outcome::Nothing => write!(f, "nothing is made"),
            Outcome::NoPlace => write!(f, "the placement stands at none: no place fits"),
            Outcome::Open(narrowing) => write!(f, "{narrowing}"),
        }
    }
}

impl fmt::Display for Narrowing {
    fn fmt<W: fmt::Write>(&self, f: &mut fmt::Formatter<W>) -> fmt::Result {
        let Narrowing {
            narrowed,
            size,
            before,
            after,
        } = *self;
        if narrowed == 0 {
            return write!(
                f,
                "the box is as it was made, and the widths together are {before} ticks"
            );
        }
        write!(
            f,
            "the box is narrowed in {narrowed} of {size} coordinates, and the widths together fell from {before} to {after} ticks"
        )
    }
}
