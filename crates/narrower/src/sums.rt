//! The ranges of sums of a row's terms over a box.

ghost use Rattle.std.specs.Prelude.{◌≡◌, ◌<◌, pos};
ghost use Rattle.model.specs.Rows.{pair_of};
ghost use Rattle.model.specs.Boxes.{at};
ghost use Rattle.numbers.specs.Ranges.{just, times, sum_r, pairs_r};
ghost use Rattle.numbers.specs.Sums.{but, ordered};
ghost use Rattle.narrower.specs.OneRow.{square_term, pair_term, single_term, total, factor_of, rest_of};
ghost use Rattle.narrower.specs.Cuts.{its_row, its_box, with_of};

use crate::on_box::RowOnBox;
use numbers::ranges::{Range, product_range, remaining_range, sum_range};

// A chain for each sum: one function over the term would take it as a closure, with clauses about it, and be no shorter.

impl RowOnBox<'_> {
    /// The terms with a square.
    fn squares(&self) -> Range
        ensures { result ≡ sum_r self.now.row.now.draft.size (square_term (its_row self.now) (its_box self.now)) }
    {
        (0..self.row.draft.size)
            .map(|i| self.square(i))
            .fold((0, 0), sum_range)
    }

    /// The terms with one coordinate alone.
    fn singles(&self) -> Range
        ensures { result ≡ sum_r self.now.row.now.draft.size (single_term (its_row self.now) (its_box self.now)) }
    {
        (0..self.row.draft.size)
            .map(|i| self.single(i))
            .fold((0, 0), sum_range)
    }

    /// The terms with x_j and a coordinate before it.
    fn column(&self, j: usize) -> Range
        requires { j < self.now.row.now.draft.size }
        ensures { result ≡ sum_r j (λ i. pair_term (its_row self.now) (its_box self.now) i j) }
    {
        (0..j).map(|i| self.pair(i, j)).fold((0, 0), sum_range)
    }

    /// The terms with two coordinates, column by column.
    fn pairs(&self) -> Range
        ensures { result ≡ pairs_r self.now.row.now.draft.size (pair_term (its_row self.now) (its_box self.now)) }
    {
        (0..self.row.draft.size)
            .map(|j| self.column(j))
            .fold((0, 0), sum_range)
    }

    /// The range of the row's sum over the box.
    pub(crate) fn total(&self) -> Range
        ensures { result ≡ total (its_row self.now) (its_box self.now) }
    {
        sum_range(self.squares(), sum_range(self.pairs(), self.singles()))
    }

    /// What the pairs add to the factor of x_i.
    fn pair_factors(&self, i: usize) -> Range
        requires { i < self.now.row.now.draft.size }
        ensures { result ≡ sum_r self.now.row.now.draft.size (but (just (pos 0)) i (λ k. times (pair_of (its_row self.now) i k) (at (its_box self.now) k))) }
    {
        (0..self.row.draft.size)
            .map(|j| self.factor_of_two(i, j))
            .fold((0, 0), sum_range)
    }

    /// The range of what multiplies x_i.
    pub(crate) fn factor(&self, i: usize) -> Range
        requires { i < self.now.row.now.draft.size }
        ensures { result ≡ factor_of (its_row self.now) (its_box self.now) i }
    {
        let square = product_range(self.row.draft.squares[i].ends(), self.spans[i].ends());
        let pairs = self.pair_factors(i);
        sum_range(square, sum_range(pairs, self.row.draft.singles[i].ends()))
    }

    /// The terms with x_i and another coordinate.
    fn pair_terms_with(&self, i: usize) -> Range
        requires { i < self.now.row.now.draft.size }
        ensures { result ≡ sum_r self.now.row.now.draft.size (but (just (pos 0)) i (ordered (pair_term (its_row self.now) (its_box self.now)) i)) }
    {
        (0..self.row.draft.size)
            .map(|j| self.term_of_two(i, j))
            .fold((0, 0), sum_range)
    }

    /// The range of the terms with x_i.
    pub(crate) fn terms_with(&self, i: usize) -> Range
        requires { i < self.now.row.now.draft.size }
        ensures { result ≡ with_of (its_row self.now) (its_box self.now) i }
    {
        sum_range(
            self.square(i),
            sum_range(self.pair_terms_with(i), self.single(i)),
        )
    }

    /// The range of the terms without x_i, where `sum` is the range of the row's sum.
    pub(crate) fn rest(&self, i: usize, sum: Range) -> Range
        requires i_within { i < self.now.row.now.draft.size }
        requires total { sum ≡ total (its_row self.now) (its_box self.now) }
        ensures { result ≡ rest_of (its_row self.now) (its_box self.now) i }
    {
        remaining_range(sum, self.terms_with(i))
    }
}
