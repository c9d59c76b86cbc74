//! A step that is being taken.

ghost use Rattle.factoring.specs.Stored.{form_at};
ghost use Rattle.factoring.specs.Cuts.{Ready, Cuts};

use crate::tables::Cut;
use crate::view::FormView;

/// A step that is being taken: the form, whose row at the cut's axis passed the first two tests, and the cut.
#[derive(Clone, Copy)]
pub(crate) struct Taking<'a> {
    pub(crate) view: FormView<'a>,
    pub(crate) cut: Cut,
    ghost ready: { Ready view.size (form_at view.form.now) cut.axis },
    ghost cuts: { Cuts view.size (form_at view.form.now) cut },
}
