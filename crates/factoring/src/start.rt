//! The form of weighted sums.

ghost use Rattle.std.specs.Prelude.{◌≡◌, ◌<◌};
ghost use Rattle.model.specs.Drafts.{drafted};
ghost use Rattle.factoring.specs.Forms.{form_of};
ghost use Rattle.factoring.specs.Stored.{form_at};
ghost use Rattle.factoring.specs.Cuts.{Agree};

use crate::parts::middle_of;
use crate::tables::{FormTable, grid, table};
use model::sums::Sums;

fn start_entry(sums: &Sums, i: usize, j: usize) -> i64
    requires first { i < sums.now.row.size }
    requires second { j < sums.now.row.size }
    ensures { result ≡ (form_of (drafted sums.now.row)).h i j }
{
    if i == j {
        512 * sums.row.squares[i].low
    } else {
        256 * middle_of(sums.row.pair(i, j).ends())
    }
}

fn start_single(sums: &Sums, i: usize) -> i64
    requires { i < sums.now.row.size }
    ensures { result ≡ (form_of (drafted sums.now.row)).g i }
{
    256 * middle_of(sums.row.singles[i].ends())
}

/// 512 times the sums, with one number for each range: the low end of a square, the middle of a pair or a single.
pub(crate) fn start(sums: &Sums) -> FormTable
    ensures { Agree sums.now.row.size (form_at result) (form_of (drafted sums.now.row)) }
{
    FormTable {
        entries: grid(sums.row.size, 0, |i, j| start_entry(sums, i, j)),
        singles: table(sums.row.size, 0, |i| start_single(sums, i)),
    }
}
