//! A certificate.

use factoring::factored::Factored;

/// The narrower that a check of weights and an order writes: the weighted sums of a placement's rows, factored. Before its first check it
/// has size 0 and neither rows nor marks. Its *marks* are a bit for each of sixteen rows, set if the row's weight is not 0.
#[derive(Clone, Copy)]
pub struct Certificate {
    pub(crate) marks: u16,
    pub(crate) factored: Option<Factored>,
}
