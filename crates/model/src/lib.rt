//! The model of a placement: spans and boxes, rows and their limits. A *tick* is the length, picked for one group of stars, in which
//! coordinates are counted.
#![tactic(auto)]

pub mod draft;
pub mod held;
pub mod held_rows;
pub mod limits;
pub mod rows;
pub mod span;
pub mod spans;
pub mod sums;
