//! The coefficients that a factoring leaves over.

ghost use Rattle.std.specs.Prelude.{◌≡◌, ◌<◌, true};
ghost use Rattle.numbers.specs.Ranges.{just};
ghost use Rattle.model.specs.Drafts.{drafted};
ghost use Rattle.factoring.specs.Forms.{leftover};
ghost use Rattle.factoring.specs.Stored.{form_at, parts_at, rest_parts, leftover_parts, same_parts};

use crate::parts::leftover_of;
use crate::tables::{TermTable, grid, table};
use crate::view::FormView;
use model::sums::Sums;
use numbers::ranges::Range;

/// The range of one number.
fn just_of(z: i64) -> Range
    ensures { result ≡ just z }
{
    (z, z)
}

impl FormView<'_> {
    /// The coefficients of the form.
    pub(crate) fn terms(&self) -> TermTable
        ensures { same_parts self.now.size (parts_at result) (rest_parts (form_at self.now.form.now)) ≡ true }
    {
        TermTable {
            squares: table(self.size, (0, 0), |j| just_of(self.form.entries[j][j])),
            pairs: grid(self.size, (0, 0), |j, k| just_of(self.form.entries[j][k])),
            singles: self.form.singles.map(just_of),
        }
    }
}

fn leftover_at(sums: &Sums, j: usize, k: usize) -> Range
    requires first { j < k }
    requires second { k < sums.now.row.size }
    ensures { result ≡ leftover ((drafted sums.now.row).pairs j k) }
{
    leftover_of(sums.row.pairs[j][k].ends())
}

fn leftover_of_single(sums: &Sums, j: usize) -> Range
    requires { j < sums.now.row.size }
    ensures { result ≡ leftover ((drafted sums.now.row).singles j) }
{
    leftover_of(sums.row.singles[j].ends())
}

/// What the sums have around the numbers that their form picks from pairs and singles.
pub(crate) fn leftover_terms(sums: &Sums) -> TermTable
    ensures { same_parts sums.now.row.size (parts_at result) (leftover_parts (drafted sums.now.row)) ≡ true }
{
    let size = sums.row.size;
    TermTable {
        squares: [(0, 0); 9],
        pairs: grid(
            size,
            (0, 0),
            |j, k| if j < k {
                leftover_at(sums, j, k)
            } else {
                (0, 0)
            },
        ),
        singles: table(size, (0, 0), |j| leftover_of_single(sums, j)),
    }
}
