//! The rows and boxes of the cases.
use model::draft::RowDraft;
use model::span::Span;

/// The span that holds one number.
pub fn thin(a: i64) -> Span {
    Span::new(a, a)
}

/// x², of one coordinate.
fn square() -> RowDraft {
    let mut row = RowDraft::new(1);
    row.squares[0] = thin(1);
    row
}

/// x1·x2.
fn product() -> RowDraft {
    let mut row = RowDraft::new(2);
    row.pairs[0][1] = thin(1);
    row
}

/// x² ≤ 9, of one coordinate.
pub fn square_at_most_nine() -> RowDraft {
    RowDraft {
        high: Some(9),
        ..square()
    }
}

/// x² ≥ 101, of one coordinate.
pub fn square_at_least_101() -> RowDraft {
    RowDraft {
        low: Some(101),
        ..square()
    }
}

/// x1² + x2² ≤ 2.
pub fn circle() -> RowDraft {
    let mut row = RowDraft::new(2);
    row.squares[0] = thin(1);
    row.squares[1] = thin(1);
    row.high = Some(2);
    row
}

/// x1·x2 ≤ -2.
pub fn product_at_most() -> RowDraft {
    RowDraft {
        high: Some(-2),
        ..product()
    }
}

/// x1·x2 = 6.
pub fn product_is_six() -> RowDraft {
    RowDraft {
        low: Some(6),
        high: Some(6),
        ..product()
    }
}

/// A row of one coordinate with every end at its limit.
pub fn at_limits() -> RowDraft {
    let mut row = RowDraft::new(1);
    row.squares[0] = Span::new(-1024, 1024);
    row.singles[0] = Span::new(-65536, 65536);
    row.low = Some(-68719476736);
    row.high = Some(68719476736);
    row
}
