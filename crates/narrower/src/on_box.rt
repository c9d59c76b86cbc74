//! A row on a box.

ghost use Rattle.model.specs.Boxes.{IsBox};

use model::held::HeldRow;
use model::span::Span;

/// A row that keeps its limits, and a box of its size.
#[derive(Clone, Copy)]
pub(crate) struct RowOnBox<'a> {
    pub(crate) row: &'a HeldRow,
    pub(crate) spans: &'a [Span],
    ghost boxed: { IsBox row.now.draft.size spans.now },
}
