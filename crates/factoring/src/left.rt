//! What the roundings of a step leave over.

ghost use Rattle.std.specs.Prelude.{◌≡◌, ℕ, ◌<◌, [], slice_index_or};
ghost use Rattle.factoring.specs.Stored.{range_at};
ghost use Rattle.factoring.specs.Taken.{step_taken};

use crate::parts::{gap_of, left_around, scaled};
use crate::tables::{grid, table};
use crate::taking::Taking;
use numbers::positive::Positive;
use numbers::ranges::Range;

impl Taking<'_> {
    fn slack_at(&self, j: usize) -> Range
        requires { j < self.now.view.size }
        ensures { result ≡ (step_taken self.now).slack j }
    {
        if self.cut.axis == j {
            return (0, 0);
        }
        let product = scaled(self.cut.pivot, self.cut.slopes[j]);
        left_around(
            self.view.form.entries[self.cut.axis][j],
            product,
            Positive { value: 65536 },
        )
    }

    /// What is left of the terms with the step's coordinate and another.
    pub(crate) fn slacks(&self) -> [Range; 9]
        ensures { (j : ℕ) → j < self.now.view.size → range_at result j ≡ (step_taken self.now).slack j }
    {
        table(self.view.size, (0, 0), |j| self.slack_at(j))
    }

    /// What is left of the term with the step's coordinate alone.
    pub(crate) fn slack_of_single(&self) -> Range
        ensures { result ≡ (step_taken self.now).slack0 }
    {
        let product = scaled(self.cut.pivot, self.cut.shift);
        left_around(
            self.view.form.singles[self.cut.axis],
            product,
            Positive { value: 16 },
        )
    }

    fn gap_at(&self, j: usize, k: usize) -> Range
        requires first { j < self.now.view.size }
        requires second { k < self.now.view.size }
        ensures { result ≡ (step_taken self.now).gap j k }
    {
        gap_of(self.pair_product(j, k), Positive { value: 4294967296 })
    }

    /// What rounding up adds to the terms with two other coordinates.
    pub(crate) fn gaps(&self) -> [[Range; 9]; 9]
        ensures { (j k : ℕ) → j < self.now.view.size → k < self.now.view.size → range_at (slice_index_or result j []) k ≡ (step_taken self.now).gap j k }
    {
        grid(self.view.size, (0, 0), |j, k| self.gap_at(j, k))
    }

    fn gap_of_single(&self, j: usize) -> Range
        requires { j < self.now.view.size }
        ensures { result ≡ (step_taken self.now).gap0 j }
    {
        gap_of(self.single_product(j), Positive { value: 1048576 })
    }

    /// What rounding up adds to the terms with one other coordinate.
    pub(crate) fn gaps_of_singles(&self) -> [Range; 9]
        ensures { (j : ℕ) → j < self.now.view.size → range_at result j ≡ (step_taken self.now).gap0 j }
    {
        table(self.view.size, (0, 0), |j| self.gap_of_single(j))
    }
}
