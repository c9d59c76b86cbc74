//! A row that was found to keep its limits.

ghost use Rattle.std.specs.Prelude.{◌≡◌, true};
ghost use Rattle.model.specs.Rows.{row_fits};
ghost use Rattle.model.specs.Drafts.{drafted};

use crate::draft::RowDraft;

/// A checked row, as a placement holds it and reads it out.
#[derive(Clone, Copy)]
pub struct HeldRow {
    pub draft: RowDraft,
    ghost fits: { row_fits (drafted draft) ≡ true },
}
