//! The form that a step leaves.

ghost use Rattle.std.specs.Prelude.{◌≡◌, ◌<◌};
ghost use Rattle.factoring.specs.Stored.{form_at};
ghost use Rattle.factoring.specs.Cuts.{Agree};
ghost use Rattle.factoring.specs.Taken.{form_left};

use crate::parts::lowered;
use crate::tables::{FormTable, grid, table};
use crate::taking::Taking;
use numbers::positive::Positive;

impl Taking<'_> {
    fn next_entry(&self, j: usize, k: usize) -> i64
        requires first { j < self.now.view.size }
        requires second { k < self.now.view.size }
        ensures { result ≡ (form_left self.now).h j k }
    {
        if self.cut.axis == j || self.cut.axis == k {
            return 0;
        }
        let by = Positive { value: 4294967296 };
        lowered(self.view.form.entries[j][k], self.pair_product(j, k), by)
    }

    fn next_single(&self, j: usize) -> i64
        requires { j < self.now.view.size }
        ensures { result ≡ (form_left self.now).g j }
    {
        if self.cut.axis == j {
            return 0;
        }
        let by = Positive { value: 1048576 };
        lowered(self.view.form.singles[j], self.single_product(j), by)
    }

    /// What the step leaves: nothing at its coordinate, and the rest less the square's other terms, rounded up.
    pub(crate) fn next_form(&self) -> FormTable
        ensures { Agree self.now.view.size (form_at result) (form_left self.now) }
    {
        FormTable {
            entries: grid(self.view.size, 0, |j, k| self.next_entry(j, k)),
            singles: table(self.view.size, 0, |j| self.next_single(j)),
        }
    }
}
