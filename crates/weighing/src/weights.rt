//! Weights for rows: their check, and the weighted sums of the rows.

ghost use Rattle.std.specs.Prelude.{◌≡◌, map};
ghost use Rattle.model.specs.Drafts.{drafted};
ghost use Rattle.weighing.specs.Refusals.{weigh_refusal};
ghost use Rattle.weighing.specs.Weights.{aggregate};
ghost use Rattle.narrower.specs.Faults.{refusal_of};
ghost use Rattle.weighing.specs.Weighed.{SumsAre};
ghost use Rattle.weighing.specs.Laws.{AggregatedRowFollows};

use crate::refusals::check;
use crate::weighted::Weighted;
use model::held_rows::HeldRows;
use model::sums::Sums;
use narrower::faults::ProposalFault;

/// The weighted sums of the rows, as one row that follows from those whose weight is not 0; refused with 15 or 16 where the weights
/// don't fit the rows.
pub fn weigh(held: HeldRows, weights: &[i64]) -> Result<Sums, ProposalFault>
    ensures answer { refusal_of result ≡ weigh_refusal weights.now held.entry.rows.now }
    ensures sums { SumsAre result (aggregate held.entry.size weights.now (map drafted held.entry.rows.now)) }
    ensures law { AggregatedRowFollows }
{
    check(weights, held.rows)?;
    let weighted = Weighted { held, weights };
    Ok(Sums {
        row: weighted.row(),
    })
}
