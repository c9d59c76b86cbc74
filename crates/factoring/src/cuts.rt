//! The square that a step takes off.

ghost use Rattle.std.specs.Prelude.{◌≡◌, ◌<◌, pos, ◌*ℤ◌, ◌≤ℤ◌};
ghost use Rattle.numbers.specs.Division.{nearest};
ghost use Rattle.numbers.specs.Magnitudes.{abs};
ghost use Rattle.factoring.specs.Steps.{clamped, slope_of};
ghost use Rattle.factoring.specs.Stored.{form_at};
ghost use Rattle.factoring.specs.Cuts.{Ready, Cuts};
ghost use Rattle.factoring.specs.Taken.{step_taken};

use crate::parts::{limited, product, rounded};
use crate::tables::{Cut, table};
use crate::taking::Taking;
use crate::view::FormView;
use numbers::positive::Positive;

/// 65,536 times `entry / pivot`, to the nearest.
fn slope(entry: i64, pivot: Positive) -> i64
    requires small { pivot.value ≤ℤ pos 1073741824 }
    requires inside { abs entry ≤ℤ pos 1073741824 }
    ensures { result ≡ nearest (pos 65536 *ℤ entry) pivot.value }
{
    rounded(65536 * entry, pivot)
}

/// 16 times `single / pivot`, to the nearest, held within 65,536.
fn shift(single: i64, pivot: Positive) -> i64
    requires small { pivot.value ≤ℤ pos 1073741824 }
    requires inside { abs single ≤ℤ pos 70368744177664 }
    ensures { result ≡ clamped (nearest (pos 16 *ℤ single) pivot.value) }
{
    limited(rounded(16 * single, pivot))
}

impl FormView<'_> {
    fn slope_at(&self, i: usize, j: usize) -> i64
        requires ready { Ready self.now.size (form_at self.now.form.now) i }
        requires inside { j < self.now.size }
        ensures { result ≡ slope_of (form_at self.now.form.now) i j }
    {
        if i == j {
            return 0;
        }
        let row = &self.form.entries[i];
        slope(row[j], Positive { value: row[i] })
    }

    /// The square of coordinate i.
    pub(crate) fn cut_at(&self, i: usize) -> Cut
        requires ready { Ready self.now.size (form_at self.now.form.now) i }
        ensures axis { result.axis ≡ i }
        ensures cuts { Cuts self.now.size (form_at self.now.form.now) result }
    {
        let pivot = self.form.entries[i][i];
        Cut {
            axis: i,
            pivot,
            slopes: table(self.size, 0, |j| self.slope_at(i, j)),
            shift: shift(self.form.singles[i], Positive { value: pivot }),
        }
    }
}

impl Taking<'_> {
    /// The pivot times two slopes.
    pub(crate) fn pair_product(&self, j: usize, k: usize) -> i64
        requires first { j < self.now.view.size }
        requires second { k < self.now.view.size }
        ensures value { result ≡ (step_taken self.now).pivot *ℤ (step_taken self.now).slope j *ℤ (step_taken self.now).slope k }
        ensures small { abs result ≤ℤ pos 4611686018427387904 }
    {
        product(self.cut.pivot, self.cut.slopes[j], self.cut.slopes[k])
    }

    /// The pivot times the shift and a slope.
    pub(crate) fn single_product(&self, j: usize) -> i64
        requires { j < self.now.view.size }
        ensures value { result ≡ (step_taken self.now).pivot *ℤ (step_taken self.now).shift *ℤ (step_taken self.now).slope j }
        ensures small { abs result ≤ℤ pos 4611686018427387904 }
    {
        product(self.cut.pivot, self.cut.shift, self.cut.slopes[j])
    }
}
