//! The narrower of one row.

ghost use Rattle.std.specs.Prelude.{◌≡◌, ◌<◌};
ghost use Rattle.model.specs.Boxes.{IsBox};
ghost use Rattle.model.specs.Drafts.{drafted};
ghost use Rattle.narrower.specs.OneRow.{misses, side_of, rest_of, total, up_to, row_narrowing};
ghost use Rattle.narrower.specs.Answers.{CutTo};
ghost use Rattle.narrower.specs.Cuts.{one_row_meaning, its_row, its_box, quotient_at, CutAt};
ghost use Rattle.narrower.specs.Examples.{ExamplesHold};
ghost use Rattle.model.proofs.RowLimits.{within_of_fits};
ghost use Rattle.narrower.specs.RowLaws.{one_row-lawful};

use crate::answer::Answer;
use crate::faults::NarrowFault;
use crate::interface::{Cutter, Narrower, narrow_by_cuts};
use crate::on_box::RowOnBox;
use model::draft::RowDraft;
use model::held::HeldRow;
use model::span::Span;
use numbers::ranges::{Range, difference_range, meeting, quotient_range, sum_range};

/// What an absent end of a right side counts for, beyond every sum that a row can have on a box: 2^45.
const ABSENT_END: i64 = 35184372088832;

/// The narrower of one row, for which alone it speaks. It is had from a row that a placement read out.
#[derive(Clone, Copy)]
pub struct OneRow {
    row: HeldRow,
}

impl OneRow {
    /// The narrower of the row.
    pub fn new(row: HeldRow) -> OneRow
        ensures value { one_row_meaning result ≡ row_narrowing (drafted row.draft) }
        ensures law { ExamplesHold }
    {
        OneRow { row }
    }
}

/// Whether a range of the row's sum lies beyond an end of its right side.
fn is_missed(row: &RowDraft, sum: Range) -> bool
    ensures { result ≡ misses (drafted row.now) sum }
{
    row.low.is_some_and(|low| sum.1 < low) || row.high.is_some_and(|high| high < sum.0)
}

/// The right side, where an absent end counts as one beyond every sum.
fn side(row: &RowDraft) -> Range
    ensures { result ≡ side_of (drafted row.now) }
{
    (
        row.low.unwrap_or(-ABSENT_END),
        row.high.unwrap_or(ABSENT_END),
    )
}

/// What x_i is met with, where `rest` is the range of the terms without it: the right side less those terms, over what multiplies x_i.
/// None where the latter may be 0.
fn row_quotient(on: &RowOnBox, i: usize, rest: Range) -> Option<Range>
    requires i_within { i < on.now.row.now.draft.size }
    requires rest { rest ≡ rest_of (its_row on.now) (its_box on.now) i }
    ensures { result ≡ quotient_at (its_row on.now) (its_box on.now) i }
{
    let left = difference_range(side(&on.row.draft), rest);
    quotient_range(left, on.factor(i))
}

/// Cuts coordinate `i` to what the row leaves of it, where `sum` is the range of the row's sum over the box. Gives that range over the
/// box that is left, or none where nothing is left of the coordinate.
fn narrow_at(row: &HeldRow, spans: &mut [Span], i: usize, sum: Range) -> Option<Range>
    requires boxed { IsBox row.now.draft.size spans.old }
    requires i_within { i < row.now.draft.size }
    requires total { sum ≡ total (drafted row.now.draft) spans.old }
    ensures { CutAt (drafted row.now.draft) i spans.old result spans.new }
{
    let before = RowOnBox { row, spans };
    let rest = before.rest(i, sum);
    let Some(quotient) = row_quotient(&before, i, rest) else {
        return Some(sum);
    };
    spans[i] = Span::from(meeting(spans[i].ends(), quotient)?);
    let after = RowOnBox { row, spans };
    Some(sum_range(rest, after.terms_with(i)))
}

/// Cuts each coordinate in turn, with the spans as narrowed so far; none where nothing is left of one.
fn narrow_all(row: &HeldRow, spans: &mut [Span], whole: Range) -> Option<()>
    requires boxed { IsBox row.now.draft.size spans.old }
    requires total { whole ≡ total (drafted row.now.draft) spans.old }
    ensures { CutTo (up_to (drafted row.now.draft) row.now.draft.size spans.old) result spans.new }
{
    let mut sum = whole;
    // By index: each coordinate is cut in the run that the one before has changed.
    for i in 0..row.draft.size {
        sum = narrow_at(row, spans, i, sum)?;
    }
    Some(())
}

impl Cutter for OneRow {
    ghost meaning = { one_row_meaning };

    ghost few = { λ n. (within_of_fits (drafted n.row.draft) n.row.fits).few };

    fn box_size(&self) -> usize {
        self.row.draft.size
    }

    fn cut(&self, spans: &mut [Span]) -> Option<()> {
        let row = &self.row;
        let sum = RowOnBox { row, spans }.total();
        if is_missed(&row.draft, sum) {
            return None;
        }
        narrow_all(row, spans, sum)
    }
}

impl Narrower for OneRow {
    ghost means = { one_row_meaning };

    ghost lawful = { λ n. one_row-lawful _ (within_of_fits _ n.row.fits) };

    fn size(&self) -> usize {
        self.box_size()
    }

    fn narrow(&mut self, spans: &mut [Span]) -> Result<Answer, NarrowFault> {
        narrow_by_cuts(self, spans)
    }
}
