//! The interface of narrowers, the narrower of one row, and the layers over any narrower. A *narrower* is whatever can tighten a box: it means a size, the rows that
//! it speaks for and a map that sends each box of its size to a box inside it, or to none.
#![tactic(auto)]

pub mod answer;
pub mod faults;
pub mod interface;
mod on_box;
pub mod one_row;
pub mod pair;
pub mod rounds;
pub mod star;
mod sums;
mod terms;
