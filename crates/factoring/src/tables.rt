//! The tables that a factoring fills. Coordinates count from 0; what stands beyond the size of the row counts for nothing.

ghost use Rattle.std.specs.Prelude.{ℕ, ◌<◌, ◌≤◌, [], slice_index_or};

use numbers::ranges::Range;
use std::array;

// Tables of nine in fixed memory: a step of a narrowing allocates nothing.

/// A form: its entries, both ways round, and its singles.
#[derive(Clone, Copy)]
pub struct FormTable {
    pub entries: [[i64; 9]; 9],
    pub singles: [i64; 9],
}

/// The square that a step takes off: pivot·(x_axis + Σ slope_j·x_j / 65,536 + shift / 16)².
#[derive(Clone, Copy, Default)]
pub struct Cut {
    pub axis: usize,
    pub pivot: i64,
    pub slopes: [i64; 9],
    pub shift: i64,
}

/// One step: its cut, and what the roundings leave over.
#[derive(Clone, Copy, Default)]
pub struct StepTable {
    pub cut: Cut,
    pub slacks: [Range; 9],
    pub slack0: Range,
    pub gaps: [[Range; 9]; 9],
    pub gaps0: [Range; 9],
}

/// Coefficients, each known to a range, of squares, pairs (at `pairs[j][k]` for j < k) and singles.
#[derive(Clone, Copy)]
pub struct TermTable {
    pub squares: [Range; 9],
    pub pairs: [[Range; 9]; 9],
    pub singles: [Range; 9],
}

/// Nine places: what `entry` gives at each of the first `size`, and `blank` at the others.
pub(crate) fn table<T: Copy, F: Fn(usize) -> T>(size: usize, blank: T, entry: F) -> [T; 9]
    requires few { size ≤ 9 }
    requires callable { (j : ℕ) → j < size → F.pre entry j }
    ensures { (j : ℕ) (d : T) → j < size → F.post entry j (slice_index_or result j d) }
{
    array::from_fn(
        |j| -> T
            requires { j < size → F.pre entry j }
            ensures { j < size → F.post entry j result }
        { if j < size { entry(j) } else { blank } },
    )
}

/// Nine rows of nine: what `entry` gives at each two of the first `size` places, and `blank` at the others.
pub(crate) fn grid<T: Copy, F: Fn(usize, usize) -> T>(
    size: usize,
    blank: T,
    entry: F,
) -> [[T; 9]; 9]
    requires few { size ≤ 9 }
    requires callable { (j k : ℕ) → j < size → k < size → F.pre entry j k }
    ensures { (j k : ℕ) (d : T) → j < size → k < size → F.post entry j k (slice_index_or (slice_index_or result j []) k d) }
{
    table(
        size,
        [blank; 9],
        |j| -> [T; 9]
            requires few { size ≤ 9 }
            requires callable { (k : ℕ) → k < size → F.pre entry j k }
            ensures { (k : ℕ) (d : T) → k < size → F.post entry j k (slice_index_or result k d) }
        {
            table(
                size,
                blank,
                |k| -> T
                    requires { F.pre entry j k }
                    ensures { F.post entry j k result }
                { entry(j, k) },
            )
        },
    )
}
