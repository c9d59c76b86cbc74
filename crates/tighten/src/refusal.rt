//! A refusal as a person reads it.
use crate::command::{Call, Plan, Reading};
use model::limits::{
    BOX_LIMIT, MOST_COORDINATES, MOST_ROWS, SIDE_LIMIT, SINGLE_LIMIT, SQUARE_LIMIT,
};
use narrower::faults::{FactorFault, PlacementFault, ProposalFault};
use std::fmt;

/// A call and why it is refused.
#[derive(Clone, Copy)]
pub struct Refusal {
    pub call: Call,
    pub fault: PlacementFault,
}

/// As `refused 12 at 2 (placement): ..`.
impl fmt::Display for Refusal {
    fn fmt<W: fmt::Write>(&self, f: &mut fmt::Formatter<W>) -> fmt::Result {
        let number = self.fault.number();
        let place = self.fault.place();
        let layer = self.fault.layer();
        write!(f, "refused {number} at {place} ({layer}): ")?;
        self.write_words(f)
    }
}

impl Refusal {
    /// What is wrong with a problem or with a call on it, and what to do.
    fn write_words<W: fmt::Write>(&self, f: &mut fmt::Formatter<W>) -> fmt::Result {
        match self.fault {
            PlacementFault::Size => write!(
                f,
                "the size is not from 1 to {MOST_COORDINATES}: begin with 'size N' for such an N"
            ),
            PlacementFault::BadSpan(i) => write!(
                f,
                "the span of coordinate {i} is crossed or goes beyond -{BOX_LIMIT} to {BOX_LIMIT}: give it again"
            ),
            PlacementFault::TooManyRows => {
                write!(f, "there are more than {MOST_ROWS} rows: leave some out")
            }
            PlacementFault::BadRow(k) => write!(
                f,
                "row {k} is crossed or goes beyond its limits: squares and pairs lie within {SQUARE_LIMIT} of 0, singles within {SINGLE_LIMIT}, ends within {SIDE_LIMIT}"
            ),
            PlacementFault::NoSuchRow => self.write_missing_row(f),
            PlacementFault::OtherSize => f.write_str(OTHER_SIZE),
            PlacementFault::NotMade => f.write_str(NOT_MADE),
            PlacementFault::AlreadyMade => f.write_str(ALREADY_MADE),
            PlacementFault::AtNone => f.write_str(AT_NONE),
            PlacementFault::Proposal(fault) => f.write_str(proposal_words(fault)),
        }
    }

    /// Which row is missing of those that the call names.
    fn write_missing_row<W: fmt::Write>(&self, f: &mut fmt::Formatter<W>) -> fmt::Result {
        match self.call {
            Call::Narrow(
                Plan {
                    first,
                    second: Some(second),
                    ..
                },
            ) => write!(f, "there is no row {first} or no row {second}")?,
            Call::Narrow(Plan { first: k, .. }) | Call::Read(Reading::Row(k)) => {
                write!(f, "there is no row {k}")?
            }
            _ => f.write_str("there is no such row")?,
        }
        f.write_str(": rows count from 1, in the order in which they are described")
    }
}

const OTHER_SIZE: &str =
    "the narrower does not fit: the star is missing, since stars count from 1 and have three coordinates each";

const NOT_MADE: &str = "nothing is made yet: describe a problem, then write 'make'";

const ALREADY_MADE: &str = "the problem is made already: run the program anew for another one";

const AT_NONE: &str = "no place fits any more: there is nothing to narrow";

/// What is wrong with weights and an order, and what to do.
fn proposal_words(fault: ProposalFault) -> &'static str {
    match fault {
        ProposalFault::WeightCount | ProposalFault::Weights(_) | ProposalFault::AllZero =>
            "there has to be one weight for each row, from -64 to 64, and not all 0: change the weights",
        ProposalFault::AbsentEnd(_) =>
            "this weight needs an end that its row does not have: change the weight's sign or give the row that end",
        ProposalFault::OrderLength | ProposalFault::Order(_) =>
            "the order has to name coordinates of the problem, each at most once: change the order",
        ProposalFault::Factor(fault) => factor_words(fault),
    }
}

/// What is wrong with a factoring, and what to do.
fn factor_words(fault: FactorFault) -> &'static str {
    match fault {
        FactorFault::NoPivot(_, _) =>
            "the square of this coordinate is not positive at this step: change the weights or the order",
        FactorFault::Steep(_, _) =>
            "a pair of this coordinate is greater than its square at this step: change the weights or the order",
        FactorFault::Large(_, _) =>
            "a coefficient grew beyond 2^30 at this step: take smaller weights",
    }
}
