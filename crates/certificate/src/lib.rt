//! Certificates. A *certificate* is the narrower of a weighted sum of rows: the sum is factored into squares, and on a box each square
//! can be no more than what is left of the right side, which bounds its coordinate.
#![tactic(auto)]

mod budget;
pub mod calls;
pub mod certificate;
mod charges;
mod cuts;
mod held_box;
mod step_on_box;
