//! Placements. A *placement* is a group of up to three stars: up to nine coordinates, up to sixteen rows and one box, which narrowers
//! shrink until they find that no place fits, or nothing more to cut.
#![tactic(auto)]

pub mod call;
mod calls;
mod made;
pub mod placement;
mod runs;
pub mod standing;
