//! Where the budget of a certificate leaves each coordinate of a box.

ghost use Rattle.std.specs.Prelude.{◌≡◌, length, take};
ghost use Rattle.model.specs.Boxes.{IsBox};
ghost use Rattle.narrower.specs.Answers.{CutTo};
ghost use Rattle.factoring.specs.Stored.{step_at, steps_at};
ghost use Rattle.certificate.specs.Budgets.{root_of};
ghost use Rattle.certificate.specs.Maps.{slopes_range, cut_of, narrow_by, backward};
ghost use Rattle.certificate.specs.Cutting.{Cuttable};

use crate::step_on_box::StepOnBox;
use factoring::factored::Factored;
use factoring::tables::StepTable;
use model::span::Span;
use numbers::positive::Positive;
use numbers::ranges::{Range, difference_range, meeting, product_range, sum_range};
use numbers::roots::root_up;
use numbers::rounding::{down_by, up_by};

/// As far as the budget over a pivot counts: 2^31, since the square of x_axis + Σ slope_j·x_j / 65,536 + shift / 16 is less on any box.
const RATIO_LIMIT: u64 = 2147483648;

/// The least number whose square is not below 256 times the budget over the pivot.
fn root_of(budget: i64, pivot: Positive) -> i64
    ensures { result ≡ root_of budget pivot.value }
{
    let ratio = up_by(budget, pivot).unsigned_abs().min(RATIO_LIMIT);
    root_up(256 * ratio) as i64
}

impl StepOnBox<'_> {
    /// The range of Σ slope_j·x_j over the box.
    fn slopes_range(self) -> Range
        ensures { result ≡ slopes_range (length self.entry.spans.now) (step_at self.entry.step.now) self.entry.spans.now }
    {
        self.step
            .cut
            .slopes
            .iter()
            .zip(self.spans)
            .map(|(slope, x)| product_range((*slope, *slope), x.ends()))
            .fold((0, 0), sum_range)
    }

    /// Where the step's square, at most the budget, leaves its axis, rounded outward.
    fn range(self, budget: i64) -> Range
        ensures { result ≡ cut_of (length self.entry.spans.now) budget (step_at self.entry.step.now) self.entry.spans.now }
    {
        let slopes = self.slopes_range();
        let pivot = Positive {
            value: self.step.cut.pivot,
        };
        let reach = 4096 * root_of(budget, pivot);
        let middle = -4096 * self.step.cut.shift;
        let ends = difference_range((middle - reach, middle + reach), slopes);
        let by = Positive { value: 65536 };
        (down_by(ends.0, by), up_by(ends.1, by))
    }
}

/// Meets the span of the step's axis with what the budget leaves of it; none where nothing is left.
fn narrow_by(step: &StepTable, spans: &mut [Span], budget: i64) -> Option<()>
    requires { Cuttable (length spans.old) (step_at step.now) spans.old }
    ensures { CutTo (narrow_by (length spans.old) budget (step_at step.now) spans.old) result spans.new }
{
    let axis = step.cut.axis;
    let cut = StepOnBox { step, spans }.range(budget);
    spans[axis] = Span::from(meeting(spans[axis].ends(), cut)?);
    Some(())
}

/// Narrows the spans by each step, from the last to the first, with the spans as narrowed so far; none where nothing is left of one.
pub(crate) fn narrow_back(f: &Factored, spans: &mut [Span], budget: i64) -> Option<()>
    requires { IsBox f.now.sums.row.size spans.old }
    ensures { CutTo (backward f.now.sums.row.size budget (steps_at (take f.now.count f.now.steps)) spans.old) result spans.new }
{
    for step in f.steps[..f.count].iter().rev() {
        narrow_by(step, spans, budget)?;
    }
    Some(())
}
