//! Marks: a bit for each row whose weight is not 0.

ghost use Rattle.std.specs.Prelude.{◌≡◌, min, length};
ghost use Rattle.model.specs.Limits.{most_rows};
ghost use Rattle.weighing.specs.Marks.{marks_below};
ghost use Rattle.weighing.specs.Laws.{MarksAreCounted};

use model::limits::MOST_ROWS;

/// The marks of the first sixteen weights: bit k for the weight k, from 0.
pub fn marks(weights: &[i64]) -> u16
    ensures value { result ≡ marks_below (min (length weights.now) most_rows) weights.now }
    ensures law { MarksAreCounted }
{
    let mut marks: u16 = 0;
    let first = &weights[..weights.len().min(MOST_ROWS)];
    for (k, weight) in first.iter().enumerate() {
        if *weight != 0 {
            marks += 1 << k;
        }
    }
    marks
}
