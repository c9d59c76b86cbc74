//! The end of a right side that a weight takes.

ghost use Rattle.std.specs.Prelude.{◌≡◌};
ghost use Rattle.model.specs.Drafts.{drafted};
ghost use Rattle.weighing.specs.Weights.{taken_end};

use model::draft::RowDraft;

/// The low end for a negative weight, else the high one; none where it is absent.
pub(crate) fn taken_end(weight: i64, row: &RowDraft) -> Option<i64>
    ensures { result ≡ taken_end weight (drafted row.now) }
{
    if weight < 0 { row.low } else { row.high }
}
