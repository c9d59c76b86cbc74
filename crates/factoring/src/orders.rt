//! What is asked of an order of coordinates.

ghost use Rattle.std.specs.Prelude.{◌≡◌, ℕ, ◌<◌, ◌≤◌, not, length, take, ◌==◌, slice_index};
ghost use Rattle.model.specs.Firsts.{every};
ghost use Rattle.narrower.specs.Faults.{refusal_of};
ghost use Rattle.factoring.specs.Orders.{entry_fits, entries_refusal, from_zero};

use crate::tables::table;
use narrower::faults::ProposalFault;

/// Whether no earlier entry names what entry k names.
fn is_new(order: &[usize], k: usize) -> bool
    requires { k < length order.now }
    ensures { result ≡ every k (λ j. not (slice_index order.now j == slice_index order.now k)) }
{
    !order[..k].contains(&order[k])
}

/// Whether entry k is a coordinate from 1 to n that no earlier entry names.
fn entry_fits(n: usize, order: &[usize], k: usize) -> bool
    requires { k < length order.now }
    ensures { result ≡ entry_fits n order.now k }
{
    0 < order[k] && order[k] <= n && is_new(order, k)
}

/// Refuses an order that is empty or longer than n, then the first entry that is outside 1 to n or repeated.
pub(crate) fn check_order(n: usize, order: &[usize]) -> Result<(), ProposalFault>
    ensures { refusal_of result ≡ entries_refusal n order.now }
{
    if order.is_empty() || order.len() > n {
        return Err(ProposalFault::OrderLength);
    }
    // A match: `map_or(Ok(()), ..)` would put what passes into the place of what is missing.
    match (0..order.len()).find(|k| !entry_fits(n, order, *k)) {
        Some(k) => Err(ProposalFault::Order(k + 1)),
        None => Ok(()),
    }
}

/// The order's coordinates, counted from 0.
pub(crate) fn from_zero(order: &[usize]) -> [usize; 9]
    requires few { length order.now ≤ 9 }
    requires positive { (k : ℕ) → k < length order.now → 0 < slice_index order.now k }
    ensures { take (length order.now) result ≡ from_zero order.now }
{
    table(order.len(), 0, |k| order[k] - 1)
}
