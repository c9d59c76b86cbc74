//! The coefficients of a row, by their names.

ghost use Rattle.std.specs.Prelude.{◌≡◌};
ghost use Rattle.model.specs.Drafts.{drafted};
ghost use Rattle.weighing.specs.Coefficients.{coefficient_of, has_coefficient};

use model::draft::RowDraft;
use numbers::ranges::Range;

/// A coefficient of a row, with coordinates counted from 0.
#[derive(Clone, Copy)]
pub enum Coefficient {
    /// Of x_i².
    Square(usize),
    /// Of x_i·x_j, where i < j.
    Pair(usize, usize),
    /// Of x_i.
    Single(usize),
}

impl Coefficient {
    /// Whether a row of `size` coordinates has it.
    pub(crate) fn is_within(self, size: usize) -> bool
        ensures { result ≡ has_coefficient size self }
    {
        match self {
            Coefficient::Pair(i, j) => i < j && j < size,
            Coefficient::Square(i) | Coefficient::Single(i) => i < size,
        }
    }

    /// Its range in a row, 0 beyond the row's tables.
    pub(crate) fn of(self, row: &RowDraft) -> Range
        ensures { result ≡ coefficient_of self (drafted row.now) }
    {
        let span = match self {
            Coefficient::Square(i) => row.squares.get(i),
            Coefficient::Pair(i, j) => row.pairs.get(i).and_then(|line| line.get(j)),
            Coefficient::Single(i) => row.singles.get(i),
        };
        span.copied().unwrap_or_default().ends()
    }
}
