//! A span.
use std::fmt;

/// A low end and a high end, between which a coordinate or a coefficient lies. Whether the ends are crossed is for whoever takes it
/// to look at.
#[derive(Clone, Copy, Default, PartialEq, Eq, Debug)]
pub struct Span {
    pub low: i64,
    pub high: i64,
}

/// As `[-3,3]`.
impl fmt::Display for Span {
    fn fmt<W: fmt::Write>(&self, f: &mut fmt::Formatter<W>) -> fmt::Result {
        let Span { low, high } = *self;
        write!(f, "[{low},{high}]")
    }
}
