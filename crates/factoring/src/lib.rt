//! Factoring a row into squares, coordinate by coordinate, in whole numbers; what is rounded off is kept.
#![tactic(auto)]

pub(crate) mod cuts;
pub mod factored;
pub mod factoring;
pub(crate) mod left;
pub(crate) mod next;
pub(crate) mod orders;
pub(crate) mod parts;
pub(crate) mod refusals;
pub(crate) mod start;
pub(crate) mod steps;
pub mod tables;
pub(crate) mod taking;
pub(crate) mod terms;
pub(crate) mod view;
