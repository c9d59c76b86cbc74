//! Weighted sums of rows.

ghost use Rattle.std.specs.Prelude.{◌≡◌, true};
ghost use Rattle.model.specs.Drafts.{drafted};
ghost use Rattle.model.specs.Sums.{sums_fit};

use crate::draft::RowDraft;

/// The weighted sums of rows, as one row with a high end alone. The limits on rows don't bind it; it keeps wider ones of its own.
#[derive(Clone, Copy)]
pub struct Sums {
    pub row: RowDraft,
    ghost fits: { sums_fit (drafted row) ≡ true },
}
