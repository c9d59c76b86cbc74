//! Rows with a weight for each.

ghost use Rattle.std.specs.Prelude.{◌≡◌, None};
ghost use Rattle.weighing.specs.Refusals.{weigh_refusal};

use model::held_rows::HeldRows;

/// Checked rows, and weights for them of which nothing is refused.
#[derive(Clone, Copy)]
pub(crate) struct Weighted<'a> {
    pub held: HeldRows<'a>,
    pub weights: &'a [i64],
    ghost unrefused: { weigh_refusal weights.now held.rows.now ≡ None },
}
