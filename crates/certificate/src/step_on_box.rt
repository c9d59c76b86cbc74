//! A step on a box that it cuts.

ghost use Rattle.std.specs.Prelude.{length};
ghost use Rattle.factoring.specs.Stored.{step_at};
ghost use Rattle.certificate.specs.Cutting.{Cuttable};

use factoring::tables::StepTable;
use model::span::Span;

/// A step, and a box of as many coordinates, one of which the step's square cuts.
#[derive(Clone, Copy)]
pub(crate) struct StepOnBox<'a> {
    pub(crate) step: &'a StepTable,
    pub(crate) spans: &'a [Span],
    ghost cuttable: { Cuttable (length spans.now) (step_at step.now) spans.now },
}
