//! Rows that were found to keep their limits, lent together.

ghost use Rattle.std.specs.Prelude.{◌≡◌, ◌≤◌, true, length};
ghost use Rattle.model.specs.Limits.{most_rows};
ghost use Rattle.model.specs.Firsts.{missing};
ghost use Rattle.model.specs.Rows.{size_fits};
ghost use Rattle.model.specs.Drafts.{bad_row};

use crate::draft::RowDraft;

/// At most sixteen checked rows of one size from 1 to 9, as a placement lends them to a check.
#[derive(Clone, Copy)]
pub struct HeldRows<'a> {
    pub size: usize,
    pub rows: &'a [RowDraft],
    ghost sized: { size_fits size ≡ true },
    ghost few: { length rows.now ≤ most_rows },
    ghost fit: { missing (bad_row size rows.now) ≡ true },
}
