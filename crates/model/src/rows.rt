//! What is asked of rows.

ghost use Rattle.std.specs.Prelude.{◌≡◌, ◌<◌, ◌≤◌, length};
ghost use Rattle.model.specs.Boxes.{ends, at, within};
ghost use Rattle.model.specs.Firsts.{every};
ghost use Rattle.model.specs.Rows.{pair_of, row_fits, squares_fit, column_fits, pairs_fit, singles_fit, end_fits, ends_ordered, side_fits};
ghost use Rattle.model.specs.Drafts.{drafted, blank, row_of, bad_row};
ghost use Rattle.model.specs.Laws.{FittingRowKeepsLimits};

use crate::draft::RowDraft;
use crate::limits::{MOST_COORDINATES, SIDE_LIMIT, SINGLE_LIMIT, SQUARE_LIMIT};
use crate::span::Span;

impl RowDraft {
    /// A row of `size` coordinates without a term or an end.
    pub fn new(size: usize) -> RowDraft
        ensures { result ≡ blank size }
    {
        let zero = Span::default();
        RowDraft {
            size,
            squares: [zero; 9],
            pairs: [[zero; 9]; 9],
            singles: [zero; 9],
            low: None,
            high: None,
        }
    }

    /// The coefficient of x_i·x_j, whichever index is less; 0 where the tables have no such place.
    pub fn pair(&self, i: usize, j: usize) -> Span
        ensures { ends result ≡ pair_of (drafted self.now) i j }
    {
        let (first, second) = if i < j { (i, j) } else { (j, i) };
        let span = self.pairs.get(first).and_then(|line| line.get(second));
        span.copied().unwrap_or_default()
    }

    /// Whether the row keeps all its limits.
    pub fn fits(&self) -> bool
        ensures value { result ≡ row_fits (drafted self.now) }
        ensures law { FittingRowKeepsLimits }
    {
        if self.size == 0 || self.size > MOST_COORDINATES {
            return false;
        }
        squares_fit(self) && pairs_fit(self) && singles_fit(self) && side_fits(self)
    }
}

/// Whether each of the spans is within the limit.
fn all_within(spans: &[Span], limit: u32) -> bool
    ensures { result ≡ every (length spans.now) (λ i. within limit (at spans.now i)) }
{
    spans.iter().all(|s| s.is_within(limit))
}

// A function for each of the two: so a row's singles are looked at only where its squares and its pairs pass.
fn squares_fit(row: &RowDraft) -> bool
    requires { row.now.size ≤ 9 }
    ensures { result ≡ squares_fit (drafted row.now) }
{
    all_within(&row.squares[..row.size], SQUARE_LIMIT)
}

fn singles_fit(row: &RowDraft) -> bool
    requires { row.now.size ≤ 9 }
    ensures { result ≡ singles_fit (drafted row.now) }
{
    all_within(&row.singles[..row.size], SINGLE_LIMIT)
}

fn column_fits(row: &RowDraft, j: usize) -> bool
    requires { j < 9 }
    ensures { result ≡ column_fits (drafted row.now) j }
{
    (0..j).all(|i| row.pairs[i][j].is_within(SQUARE_LIMIT))
}

fn pairs_fit(row: &RowDraft) -> bool
    requires { row.now.size ≤ 9 }
    ensures { result ≡ pairs_fit (drafted row.now) }
{
    (0..row.size).all(|j| column_fits(row, j))
}

fn end_fits(end: Option<i64>) -> bool
    ensures { result ≡ end_fits end }
{
    end.is_none_or(|a| (-SIDE_LIMIT..=SIDE_LIMIT).contains(&a))
}

fn ends_ordered(low: Option<i64>, high: Option<i64>) -> bool
    ensures { result ≡ ends_ordered low high }
{
    match (low, high) {
        (Some(a), Some(b)) => a <= b,
        _ => true,
    }
}

fn side_fits(row: &RowDraft) -> bool
    ensures { result ≡ side_fits (drafted row.now) }
{
    end_fits(row.low) & (end_fits(row.high) & ends_ordered(row.low, row.high))
}

/// Whether the row has `size` coordinates and keeps its limits.
fn is_row_of(row: &RowDraft, size: usize) -> bool
    ensures { result ≡ row_of size row.now }
{
    row.size == size && row.fits()
}

/// The place, from 1, of the first row of another size, with crossed ends or beyond its limits.
// A place or none, and no Result: which refusal it makes, and whether it does, is for the caller to say.
pub fn first_bad_row(size: usize, rows: &[RowDraft]) -> Option<usize>
    ensures { result ≡ bad_row size rows.now }
{
    let before = rows.iter().position(|row| !is_row_of(row, size))?;
    Some(before + 1)
}
