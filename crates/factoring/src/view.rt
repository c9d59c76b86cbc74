//! A form with its size.

ghost use Rattle.std.specs.Prelude.{◌≤◌};

use crate::tables::FormTable;

/// The form of at most nine coordinates that stands in a table.
#[derive(Clone, Copy)]
pub(crate) struct FormView<'a> {
    pub(crate) form: &'a FormTable,
    pub(crate) size: usize,
    ghost few: { size ≤ 9 },
}
