//! One step of a factoring.

ghost use Rattle.std.specs.Prelude.{◌≡◌, ◌<◌, true};
ghost use Rattle.factoring.specs.Sizes.{SizedForm};
ghost use Rattle.factoring.specs.Stored.{form_at, step_at, same_step};
ghost use Rattle.factoring.specs.Cuts.{StepAnswer};
ghost use Rattle.factoring.specs.Taken.{step_taken};

use crate::tables::{FormTable, StepTable};
use crate::taking::Taking;
use crate::view::FormView;
use narrower::faults::FactorFault;

impl Taking<'_> {
    /// The cut, with what its roundings leave over.
    fn step(&self) -> StepTable
        ensures { same_step self.now.view.size (step_at result) (step_taken self.now) ≡ true }
    {
        StepTable {
            cut: self.cut,
            slacks: self.slacks(),
            slack0: self.slack_of_single(),
            gaps: self.gaps(),
            gaps0: self.gaps_of_singles(),
        }
    }
}

impl FormView<'_> {
    /// Takes the square of coordinate i off the form, after k steps: the step, and the form that it leaves.
    pub(crate) fn step_at(&self, k: usize, i: usize) -> Result<(StepTable, FormTable), FactorFault>
        requires inside { i < self.now.size }
        requires early { k < 9 }
        requires sized { SizedForm self.now.size k (form_at self.now.form.now) }
        ensures { StepAnswer self.now.size k (form_at self.now.form.now) i result }
    {
        if self.form.entries[i][i] <= 0 {
            return Err(FactorFault::NoPivot(k + 1, i + 1));
        }
        if self.is_steep(i) {
            return Err(FactorFault::Steep(k + 1, i + 1));
        }
        let taking = Taking {
            view: *self,
            cut: self.cut_at(i),
        };
        let after = taking.next_form();
        let next = FormView {
            form: &after,
            size: self.size,
        };
        if next.is_large() {
            return Err(FactorFault::Large(k + 1, i + 1));
        }
        Ok((taking.step(), after))
    }
}
