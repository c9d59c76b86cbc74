//! One row from many: a weight for each row, and the weighted sum of all, which follows from the rows whose weight is not 0.
#![tactic(auto)]

pub mod coefficient;
mod ends;
pub mod marks;
mod refusals;
mod totals;
mod weighted;
pub mod weights;
