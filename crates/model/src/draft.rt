//! A row as it is handed over, unchecked.
use crate::span::Span;

/// A row that nobody has looked at yet: its number of coordinates, a coefficient span for each square, each pair (at `pairs[i][j]` for
/// i < j; the other entries count for nothing) and each single, and a right side of which either end, or both, may be absent.
/// Coordinates count from 0 here.
// Tables of nine and a size: a row is copied whole, and what holds it allocates nothing.
#[derive(Clone, Copy)]
pub struct RowDraft {
    pub size: usize,
    pub squares: [Span; 9],
    pub pairs: [[Span; 9]; 9],
    pub singles: [Span; 9],
    pub low: Option<i64>,
    pub high: Option<i64>,
}
