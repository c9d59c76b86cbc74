//! The factoring of weighted sums in an order of coordinates.

ghost use Rattle.std.specs.Prelude.{◌≡◌, ℕ, ◌<◌, ◌≤◌, length, slice_index};
ghost use Rattle.model.specs.Drafts.{drafted};
ghost use Rattle.narrower.specs.Faults.{refusal_of};
ghost use Rattle.factoring.specs.Forms.{Form};
ghost use Rattle.factoring.specs.Factoring.{factor};
ghost use Rattle.factoring.specs.Sizes.{SizedForm, FactoringStaysSmall};
ghost use Rattle.factoring.specs.Stored.{form_at};
ghost use Rattle.factoring.specs.Orders.{order_refusal};
ghost use Rattle.factoring.specs.Dominance.{DominantSumsPass};
ghost use Rattle.factoring.specs.Made.{MadeOf};
ghost use Rattle.factoring.specs.Cuts.{Agree, Ran};

use crate::factored::Factored;
use crate::orders::{check_order, from_zero};
use crate::start::start;
use crate::tables::{FormTable, StepTable};
use crate::terms::leftover_terms;
use crate::view::FormView;
use model::sums::Sums;
use narrower::faults::{FactorFault, ProposalFault};

impl FormView<'_> {
    /// Takes the squares of the listed coordinates, counted from 0, off the form: the steps, and the form that they leave.
    fn steps(&self, order: &[usize]) -> Result<([StepTable; 9], FormTable), FactorFault>
        requires short { length order.now ≤ 9 }
        requires inside { (k : ℕ) → k < length order.now → slice_index order.now k < self.now.size }
        requires sized { SizedForm self.now.size 0 (form_at self.now.form.now) }
        ensures { (f : Form) → Agree self.now.size (form_at self.now.form.now) f → Ran self.now.size (length order.now) result (factor self.now.size 1 f order.now) }
    {
        let mut steps = [StepTable::default(); 9];
        let mut rest = *self.form;
        for (k, i) in order.iter().enumerate() {
            let view = FormView {
                form: &rest,
                size: self.size,
            };
            let (step, after) = view.step_at(k, *i)?;
            steps[k] = step;
            rest = after;
        }
        Ok((steps, rest))
    }
}

impl Factored {
    /// The factoring of the sums in an order of coordinates, which count from 1.
    pub fn of(sums: Sums, order: &[usize]) -> Result<Factored, ProposalFault>
        ensures answer { refusal_of result ≡ order_refusal (drafted sums.row) order.now }
        ensures made { MadeOf (drafted sums.row) order.now result }
        ensures passes { DominantSumsPass }
        ensures small { FactoringStaysSmall }
    {
        let size = sums.row.size;
        check_order(size, order)?;
        let taken = from_zero(order);
        let count = order.len();
        let form = &start(&sums);
        let (steps, left) = FormView { form, size }.steps(&taken[..count])?;
        let rest = FormView { form: &left, size }.terms();
        let leftovers = leftover_terms(&sums);
        Ok(Factored {
            sums,
            order: taken,
            count,
            steps,
            rest,
            leftovers,
        })
    }
}
