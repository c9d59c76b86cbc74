//! A box, lent.

ghost use Rattle.std.specs.Prelude.{length};
ghost use Rattle.model.specs.Boxes.{IsBox};

use model::span::Span;

/// A run of spans that was found to be a box. What it is asked for is what terms charge on it: the least that they come to there.
#[derive(Clone, Copy)]
pub(crate) struct HeldBox<'a> {
    pub(crate) spans: &'a [Span],
    ghost is_box: { IsBox (length spans.now) spans.now },
}
