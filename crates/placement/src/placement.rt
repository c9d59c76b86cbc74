//! A placement, and what it holds once it is made.

ghost use Rattle.std.specs.Prelude.{◌≡◌, ◌≤◌, true, length, take};
ghost use Rattle.model.specs.Limits.{most_rows};
ghost use Rattle.model.specs.Firsts.{missing};
ghost use Rattle.model.specs.Boxes.{IsBox};
ghost use Rattle.model.specs.Drafts.{bad_row};

use model::draft::RowDraft;
use model::span::Span;

/// A group of stars. Before it is made it holds nothing.
#[derive(Drop)]
pub struct Placement {
    pub(crate) made: Option<Made>,
}

/// The number of coordinates, the box (the first `size` spans), the rows, and whether a narrower found that no place fits.
// Nine spans and a size: narrowing allocates nothing. A bool for the standing: of a Standing one variant would have to be ruled out.
#[derive(Drop)]
pub(crate) struct Made {
    pub(crate) at_none: bool,
    pub(crate) size: usize,
    pub(crate) spans: [Span; 9],
    pub(crate) rows: Vec<RowDraft>,
    ghost on_box: { IsBox size (take size spans) },
    ghost few: { length rows.items ≤ most_rows },
    ghost fit: { missing (bad_row size rows.items) ≡ true },
}
