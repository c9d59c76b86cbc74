//! Made placements.

ghost use Rattle.std.specs.Prelude.{◌≡◌, MatchOption, MatchResult};
ghost use Rattle.narrower.specs.declared.faults.PlacementFault.TheVariants.{NoSuchRow};
ghost use Rattle.placement.specs.States.{state_of_made, refused_by};
ghost use Rattle.placement.specs.Makes.{contents_refusal, rows_refusal, opened};
ghost use Rattle.placement.specs.Narrows.{narrow_answer, narrow_state, Keeps};
ghost use Rattle.placement.specs.Reads.{row_at};

use crate::placement::Made;
use crate::standing::Standing;
use model::draft::RowDraft;
use model::held::HeldRow;
use model::held_rows::HeldRows;
use model::limits::{MOST_COORDINATES, MOST_ROWS};
use model::rows::first_bad_row;
use model::span::Span;
use model::spans::{copy_of, first_bad_span};
use narrower::answer::Answer;
use narrower::faults::PlacementFault;
use narrower::interface::Narrower;

/// What is refused of rows.
fn check_rows(size: usize, rows: &[RowDraft]) -> Result<(), PlacementFault>
    ensures { result ≡ refused_by (rows_refusal size rows.now) }
{
    if rows.len() > MOST_ROWS {
        return Err(PlacementFault::TooManyRows);
    }
    // A match: `map_or(Ok(()), ..)` would put what passes into the place of what is missing.
    match first_bad_row(size, rows) {
        None => Ok(()),
        Some(place) => Err(PlacementFault::BadRow(place)),
    }
}

impl Made {
    /// A size, a box and rows, or what is refused of them.
    pub(crate) fn of(
        size: usize,
        spans: &[Span],
        rows: Vec<RowDraft>,
    ) -> Result<Made, PlacementFault>
        ensures { MatchResult result
            (λ m. (contents_refusal size spans.now rows.items ≡ None) × (state_of_made m ≡ opened size spans.now rows.items))
            (λ e. contents_refusal size spans.now rows.items ≡ Some e) }
    {
        if size == 0 || size > MOST_COORDINATES || spans.len() != size {
            return Err(PlacementFault::Size);
        }
        if let Some(place) = first_bad_span(spans) {
            return Err(PlacementFault::BadSpan(place));
        }
        check_rows(size, &rows)?;
        Ok(Made {
            at_none: false,
            size,
            spans: copy_of(spans),
            rows,
        })
    }

    /// Narrows the box by a narrower. After `Answer::Empty` it stands at none.
    pub(crate) fn narrow<N: Narrower>(&mut self, by: &mut N) -> Result<Answer, PlacementFault>
        ensures answer { result ≡ narrow_answer (N.means by.old) (state_of_made self.old) }
        ensures after { state_of_made self.new ≡ narrow_state (N.means by.old) (state_of_made self.old) }
        ensures same { N.means by.new ≡ N.means by.old }
        ensures keeps { Keeps (N.means by.old) (state_of_made self.old) (state_of_made self.new) }
    {
        if self.at_none {
            return Err(PlacementFault::AtNone);
        }
        let answer = by.narrow(&mut self.spans[0..self.size])?;
        self.at_none = answer == Answer::Empty;
        Ok(answer)
    }

    /// The box.
    pub(crate) fn spans(&self) -> &[Span]
        ensures { result.now ≡ (state_of_made self.now).box }
    {
        &self.spans[..self.size]
    }

    /// Whether a place may still fit.
    pub(crate) fn standing(&self) -> Standing
        ensures { result ≡ (state_of_made self.now).standing }
    {
        if self.at_none {
            Standing::Nowhere
        } else {
            Standing::Open
        }
    }

    /// The rows.
    pub(crate) fn rows(&self) -> HeldRows
        ensures size { result.size ≡ self.now.size }
        ensures rows { result.rows.now ≡ self.now.rows.items }
    {
        HeldRows {
            size: self.size,
            rows: &self.rows,
        }
    }

    /// The row with the number `k`, counted from 1.
    pub(crate) fn row(&self, k: usize) -> Option<HeldRow>
        ensures { MatchOption result (row_at k self.now.rows.items ≡ Err NoSuchRow) (λ h. row_at k self.now.rows.items ≡ Ok h.draft) }
    {
        let draft = *self.rows.get(k.checked_sub(1)?)?;
        Some(HeldRow { draft })
    }
}
