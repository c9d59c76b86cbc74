//! What is refused of a weight list for rows.

ghost use Rattle.std.specs.Prelude.{◌≡◌, length};
ghost use Rattle.model.specs.Drafts.{drafted};
ghost use Rattle.narrower.specs.Faults.{refusal_of};
ghost use Rattle.weighing.specs.Refusals.{weight_fits, heavy_at, all_zero, weights_refusal, has_end, absent_at, weigh_refusal};

use crate::ends::taken_end;
use model::draft::RowDraft;
use narrower::faults::ProposalFault;

/// How far from 0 a weight may be.
const WEIGHT_LIMIT: i64 = 64;

fn is_light(weight: i64) -> bool
    ensures { result ≡ weight_fits weight }
{
    (-WEIGHT_LIMIT..=WEIGHT_LIMIT).contains(&weight)
}

/// The place, from 1, of the first weight beyond its limit.
// A place or none, and no Result: which refusal it makes, and whether it does, is for the caller to say.
fn first_heavy(weights: &[i64]) -> Option<usize>
    ensures { result ≡ heavy_at weights.now }
{
    weights
        .iter()
        .position(|weight| !is_light(*weight))
        .map(|k| k + 1)
}

fn all_zero(weights: &[i64]) -> bool
    ensures { result ≡ all_zero weights.now }
{
    weights.iter().all(|weight| *weight == 0)
}

/// Refuses with 15 what is not one weight for each of `count` rows, within its limit and not always 0.
fn check_weights(weights: &[i64], count: usize) -> Result<(), ProposalFault>
    ensures { refusal_of result ≡ weights_refusal count weights.now }
{
    if weights.len() != count {
        return Err(ProposalFault::WeightCount);
    }
    if let Some(place) = first_heavy(weights) {
        return Err(ProposalFault::Weights(place));
    }
    if all_zero(weights) {
        return Err(ProposalFault::AllZero);
    }
    Ok(())
}

/// Whether the row has the end that the weight needs.
fn has_end(weight: i64, row: &RowDraft) -> bool
    ensures { result ≡ has_end weight (drafted row.now) }
{
    weight == 0 || taken_end(weight, row).is_some()
}

/// The place, from 1, of the first weight that needs an absent end.
// A place or none, and no Result: which refusal it makes, and whether it does, is for the caller to say.
fn first_absent(weights: &[i64], rows: &[RowDraft]) -> Option<usize>
    requires { length weights.now ≡ length rows.now }
    ensures { result ≡ absent_at weights.now rows.now }
{
    weights
        .iter()
        .zip(rows)
        .position(|(weight, row)| !has_end(*weight, row))
        .map(|k| k + 1)
}

/// Refuses with 15, then with 16, weights that don't fit the rows.
pub(crate) fn check(weights: &[i64], rows: &[RowDraft]) -> Result<(), ProposalFault>
    ensures { refusal_of result ≡ weigh_refusal weights.now rows.now }
{
    check_weights(weights, rows.len())?;
    // A match: `map_or(Ok(()), ..)` would put what passes into the place of what is missing.
    match first_absent(weights, rows) {
        Some(place) => Err(ProposalFault::AbsentEnd(place)),
        None => Ok(()),
    }
}
