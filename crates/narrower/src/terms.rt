//! The ranges of a row's terms over a box.

ghost use Rattle.std.specs.Prelude.{◌≡◌, ◌<◌, pos};
ghost use Rattle.model.specs.Rows.{pair_of};
ghost use Rattle.model.specs.Boxes.{at};
ghost use Rattle.numbers.specs.Ranges.{just, times};
ghost use Rattle.numbers.specs.Sums.{but, ordered};
ghost use Rattle.narrower.specs.OneRow.{square_term, pair_term, single_term};
ghost use Rattle.narrower.specs.Cuts.{its_row, its_box};

use crate::on_box::RowOnBox;
use numbers::ranges::{Range, product_range, square_range};
use std::cmp::Ordering;

impl RowOnBox<'_> {
    /// The range of the term with x_i².
    pub(crate) fn square(&self, i: usize) -> Range
        requires { i < self.now.row.now.draft.size }
        ensures { result ≡ square_term (its_row self.now) (its_box self.now) i }
    {
        product_range(
            self.row.draft.squares[i].ends(),
            square_range(self.spans[i].ends()),
        )
    }

    /// The range of the term with x_i·x_j, where i < j.
    pub(crate) fn pair(&self, i: usize, j: usize) -> Range
        requires in_order { i < j }
        requires j_within { j < self.now.row.now.draft.size }
        ensures { result ≡ pair_term (its_row self.now) (its_box self.now) i j }
    {
        let product = product_range(self.spans[i].ends(), self.spans[j].ends());
        product_range(self.row.draft.pairs[i][j].ends(), product)
    }

    /// The range of the term with x_i alone.
    pub(crate) fn single(&self, i: usize) -> Range
        requires { i < self.now.row.now.draft.size }
        ensures { result ≡ single_term (its_row self.now) (its_box self.now) i }
    {
        product_range(self.row.draft.singles[i].ends(), self.spans[i].ends())
    }

    /// The range of the term with x_i·x_j, whichever index is less; 0 where they are one.
    pub(crate) fn term_of_two(&self, i: usize, j: usize) -> Range
        requires i_within { i < self.now.row.now.draft.size }
        requires j_within { j < self.now.row.now.draft.size }
        ensures { result ≡ but (just (pos 0)) i (ordered (pair_term (its_row self.now) (its_box self.now)) i) j }
    {
        match i.cmp(&j) {
            Ordering::Less => self.pair(i, j),
            Ordering::Equal => (0, 0),
            Ordering::Greater => self.pair(j, i),
        }
    }

    /// What x_j adds to the factor of x_i, the pair's coefficient times x_j; 0 where they are one.
    pub(crate) fn factor_of_two(&self, i: usize, j: usize) -> Range
        requires i_within { i < self.now.row.now.draft.size }
        requires j_within { j < self.now.row.now.draft.size }
        ensures { result ≡ but (just (pos 0)) i (λ k. times (pair_of (its_row self.now) i k) (at (its_box self.now) k)) j }
    {
        if i == j {
            (0, 0)
        } else {
            product_range(self.row.draft.pair(i, j).ends(), self.spans[j].ends())
        }
    }
}
