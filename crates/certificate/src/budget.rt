//! The budget of a factoring on a box.

ghost use Rattle.std.specs.Prelude.{◌≡◌, ◌+◌, ◌≤◌, length, Ok};
ghost use Rattle.model.specs.Boxes.{IsBox};
ghost use Rattle.model.specs.Drafts.{drafted};
ghost use Rattle.factoring.specs.Factoring.{Factors, entry_limit, factored};
ghost use Rattle.factoring.specs.Made.{taken_of};
ghost use Rattle.factoring.specs.Sizes.{singles_bound};
ghost use Rattle.factoring.specs.Stored.{step_at, steps_at, parts_at};
ghost use Rattle.certificate.specs.Charges.{step_charge};
ghost use Rattle.certificate.specs.Budgets.{step_gain, steps_sum, budget};
ghost use Rattle.certificate.specs.Ready.{SmallGain, SmallCharge, SmallGains, SmallCharges, SmallParts, mixed_charge, parts_charge};

use crate::charges::single_low;
use crate::held_box::HeldBox;
use factoring::factored::Factored;
use factoring::tables::{StepTable, TermTable};
use model::span::Span;
use numbers::positive::Positive;
use numbers::rounding::up_by;

impl HeldBox<'_> {
    /// What a step charges: its slacks and its gaps, twice.
    fn step(self, step: &StepTable) -> i64
        requires { SmallCharge (length self.spans.now) (step_at step.now) }
        ensures { result ≡ step_charge (length self.entry.spans.now) self.entry.spans.now (step_at step.now) }
    {
        let axis = step.cut.axis;
        let slacks = self.slacks(&step.slacks, axis);
        let slack0 = single_low(step.slack0, self.spans[axis].ends());
        let gaps = self.pairs(&step.gaps);
        let gaps0 = self.singles(&step.gaps0);
        2 * (slacks + slack0 + gaps + gaps0)
    }

    /// What steps charge.
    fn steps(self, steps: &[StepTable]) -> i64
        requires few { length steps.now ≤ 9 }
        requires small { SmallCharges (length self.spans.now) steps.now }
        ensures { result ≡ steps_sum (steps_at steps.now) (step_charge (length self.entry.spans.now) self.entry.spans.now) }
    {
        steps.iter().map(|step| self.step(step)).sum()
    }

    /// What pairs and singles charge.
    fn mixed(self, terms: &TermTable) -> i64
        requires { SmallParts (length self.spans.now) entry_limit (singles_bound 9) (parts_at terms.now) }
        ensures { result ≡ mixed_charge (length self.entry.spans.now) self.entry.spans.now (parts_at terms.now) }
    {
        self.pairs(&terms.pairs) + self.singles(&terms.singles)
    }

    /// What the form that is left charges.
    fn rest(self, rest: &TermTable) -> i64
        requires { SmallParts (length self.spans.now) entry_limit (singles_bound 9) (parts_at rest.now) }
        ensures { result ≡ parts_charge (length self.entry.spans.now) self.entry.spans.now (parts_at rest.now) }
    {
        let squares = self.squares(&rest.squares);
        let mixed = self.mixed(rest);
        squares + 2 * mixed
    }
}

/// What a step's square has too much: pivot·(shift / 16)², rounded up.
fn step_gain(step: &StepTable) -> i64
    requires { SmallGain (step_at step.now) }
    ensures { result ≡ step_gain (step_at step.now) }
{
    let cut = &step.cut;
    up_by(cut.pivot * cut.shift * cut.shift, Positive { value: 256 })
}

/// What the squares of steps have too much.
fn steps_gain(steps: &[StepTable]) -> i64
    requires few { length steps.now ≤ 9 }
    requires small { SmallGains steps.now }
    ensures { result ≡ steps_sum (steps_at steps.now) step_gain }
{
    steps.iter().map(step_gain).sum()
}

/// What the squares of a factoring, together, do not exceed at a point of the box that meets the sums.
pub(crate) fn budget_of(f: &Factored, spans: &[Span]) -> i64
    requires { IsBox f.now.sums.row.size spans.now }
    ensures { (g : Factors) → factored (drafted f.now.sums.row) (taken_of f.now) ≡ Ok g → result ≡ budget (drafted f.now.sums.row) g spans.now }
{
    let on_box = HeldBox { spans };
    let steps = &f.steps[..f.count];
    let high = f.sums.row.high.unwrap_or(0);
    let gain = steps_gain(steps);
    let leftovers = on_box.mixed(&f.leftovers);
    let charge = on_box.steps(steps);
    let rest = on_box.rest(&f.rest);
    512 * high + gain - 512 * leftovers - charge - rest
}
