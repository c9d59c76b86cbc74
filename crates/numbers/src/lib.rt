//! Whole numbers: fractions rounded down and up, and ranges of sums, products, squares and quotients. All numbers are i64; where a
//! result needs more than 64 bits, it is held at the end of the i64 numbers that is nearest to it, and each contract says so.
#![tactic(auto)]

pub mod positive;
pub mod ranges;
pub mod roots;
pub mod rounding;
