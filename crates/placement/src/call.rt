//! A call on a placement, as a run makes it.

use certificate::certificate::Certificate;

/// One call of a run.
// An enum and no closures: what a run promises is stated over the list of its calls, and a slice holds closures of one type alone.
#[derive(Drop)]
pub enum Call<'a, N> {
    /// Narrows by a narrower.
    Narrow(N),
    /// Checks weights and an order, and writes the certificate.
    Check(&'a [i64], &'a [usize], Certificate),
    /// Reads the size.
    ReadSize,
    /// Reads the box.
    ReadBox,
    /// Reads the standing.
    ReadStanding,
    /// Reads the row with a number.
    ReadRow(usize),
}
