//! A factoring that was not refused.

ghost use Rattle.std.specs.Prelude.{◌≡◌, ◌≤◌, true, take};
ghost use Rattle.model.specs.Drafts.{drafted};
ghost use Rattle.factoring.specs.Factoring.{factored};
ghost use Rattle.factoring.specs.Stored.{steps_at, parts_at, leftover_parts, entries_below, stored, same_parts};

use crate::tables::{StepTable, TermTable};
use model::sums::Sums;

/// Weighted sums with the steps that factor them, in an order of coordinates counted from 0, the form that the steps leave, and what
/// the sums have around the numbers that were picked from them. The tables are those of the definition, by its invariants.
#[derive(Clone, Copy)]
pub struct Factored {
    pub sums: Sums,
    // Nine places and a count: a certificate is copied whole and allocates nothing. The order stands beside the axes of the steps, since it is what
    // the definition factors along, and the invariants say so of it.
    pub order: [usize; 9],
    pub count: usize,
    pub steps: [StepTable; 9],
    pub rest: TermTable,
    pub leftovers: TermTable,
    ghost few: { count ≤ 9 },
    ghost inside: { entries_below sums.row.size (take count order) ≡ true },
    ghost made: { stored sums.row.size (steps_at (take count steps)) (parts_at rest) (factored (drafted sums.row) (take count order)) ≡ true },
    ghost left: { same_parts sums.row.size (parts_at leftovers) (leftover_parts (drafted sums.row)) ≡ true },
}
