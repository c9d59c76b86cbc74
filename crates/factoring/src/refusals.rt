//! What a step looks at before it is taken.

ghost use Rattle.std.specs.Prelude.{◌≡◌, ◌<◌, not, ◌&&◌, ◌==◌, unsigned_abs};
ghost use Rattle.model.specs.Firsts.{any};
ghost use Rattle.factoring.specs.Factoring.{outgrows, entry_limit, steep, large};
ghost use Rattle.factoring.specs.Stored.{form_at};

use crate::view::FormView;

/// How far from 0 the entries of a form may be: 2^30.
const ENTRY_LIMIT: u64 = 1073741824;

/// Whether `z` is farther than `b` from 0.
fn exceeds(z: i64, b: u64) -> bool
    ensures { result ≡ outgrows z b }
{
    z.unsigned_abs() > b
}

impl FormView<'_> {
    fn steep_at(&self, i: usize, j: usize) -> bool
        requires first { i < self.now.size }
        requires second { j < self.now.size }
        ensures { result ≡ (not (i == j) && outgrows ((form_at self.now.form.now).h i j) (unsigned_abs ((form_at self.now.form.now).h i i))) }
    {
        let row = &self.form.entries[i];
        i != j && exceeds(row[j], row[i].unsigned_abs())
    }

    /// Whether some other entry of row i is farther from 0 than the pivot.
    pub(crate) fn is_steep(&self, i: usize) -> bool
        requires { i < self.now.size }
        ensures { result ≡ steep self.now.size (form_at self.now.form.now) i }
    {
        (0..self.size).any(|j| self.steep_at(i, j))
    }

    fn is_large_row(&self, j: usize) -> bool
        requires { j < self.now.size }
        ensures { result ≡ any self.now.size (λ k. outgrows ((form_at self.now.form.now).h j k) entry_limit) }
    {
        (0..self.size).any(|k| exceeds(self.form.entries[j][k], ENTRY_LIMIT))
    }

    /// Whether some entry is farther than 2^30 from 0.
    pub(crate) fn is_large(&self) -> bool
        ensures { result ≡ large self.now.size (form_at self.now.form.now) }
    {
        (0..self.size).any(|j| self.is_large_row(j))
    }
}
