//! Refusals. Each layer passes the refusal of the layer below it up whole.

ghost use Rattle.std.specs.Prelude.{◌≡◌};
ghost use Rattle.narrower.specs.declared.faults.ProposalFault.TheVariants.{Factor};
ghost use Rattle.narrower.specs.declared.faults.PlacementFault.TheVariants.{Proposal};
ghost use Rattle.narrower.specs.Faults.{RefusalsPassUpWhole, narrow_number, narrow_place, narrow_layer, factor_layer, factor_number, factor_place, proposal_number, proposal_place, proposal_layer, placement_number, placement_place, placement_layer, raised};

use std::fmt;

/// Which layer refused.
#[derive(Clone, Copy, PartialEq, Eq, Debug)]
pub enum Layer {
    Placement,
    Proposal,
    Factoring,
}

/// `placement`, `proposal` or `factoring`.
impl fmt::Display for Layer {
    fn fmt<W: fmt::Write>(&self, f: &mut fmt::Formatter<W>) -> fmt::Result {
        f.write_str(match self {
            Self::Placement => "placement",
            Self::Proposal => "proposal",
            Self::Factoring => "factoring",
        })
    }
}

/// What a refusal points at.
#[derive(Clone, Copy, PartialEq, Eq, Debug)]
pub enum Place {
    /// The first span, row, weight or order entry at fault, from 1; 0 where no entry is at fault.
    Entry(usize),
    /// A step of a factoring and its coordinate, both from 1.
    Step(usize, usize),
}

/// As `2`, or as `step 1 coordinate 3`.
impl fmt::Display for Place {
    fn fmt<W: fmt::Write>(&self, f: &mut fmt::Formatter<W>) -> fmt::Result {
        match self {
            Place::Entry(entry) => write!(f, "{entry}"),
            Place::Step(step, coordinate) => write!(f, "step {step} coordinate {coordinate}"),
        }
    }
}

/// What a narrower refuses of a run of spans.
#[derive(Clone, Copy, PartialEq, Eq, Debug)]
pub enum NarrowFault {
    /// 14: the run is empty or has another length.
    Length,
    /// 12: the span at this place is crossed or beyond its limits.
    BadSpan(usize),
}

/// What a factoring refuses, with the step and its coordinate.
// The two by place, as in `Place::Step`: a struct for them would be taken apart wherever it is told.
#[derive(Clone, Copy, PartialEq, Eq, Debug)]
pub enum FactorFault {
    /// 18: the pivot is not positive.
    NoPivot(usize, usize),
    /// 19: an entry beside the pivot is greater than the pivot.
    Steep(usize, usize),
    /// 20: an entry grew beyond 2^30.
    Large(usize, usize),
}

/// What a check of weights and an order refuses.
#[derive(Clone, Copy, PartialEq, Eq, Debug)]
pub enum ProposalFault {
    /// 15: there is not one weight for each row.
    WeightCount,
    /// 15: the weight at this place is beyond ±64.
    Weights(usize),
    /// 15: all weights are 0.
    AllZero,
    /// 16: the weight at this place needs an end that is absent.
    AbsentEnd(usize),
    /// 17: the order is empty or longer than the size.
    OrderLength,
    /// 17: the entry at this place is outside 1 to the size or repeats an earlier one.
    Order(usize),
    /// 18 to 20.
    Factor(FactorFault),
}

/// What a placement refuses.
#[derive(Clone, Copy, PartialEq, Eq, Debug)]
pub enum PlacementFault {
    /// 11: a size outside 1 to 9, or a run of another length.
    Size,
    /// 12: the span at this place is crossed or beyond ±4,096.
    BadSpan(usize),
    /// 13: there are over 16 rows.
    TooManyRows,
    /// 13: the row at this place is of another size, crossed or beyond its limits.
    BadRow(usize),
    /// 13: no row has the number that was asked for.
    NoSuchRow,
    /// 14: the narrower is of another size.
    OtherSize,
    /// 31: the placement is not made.
    NotMade,
    /// 32: the placement is made already.
    AlreadyMade,
    /// 33: the placement stands at none.
    AtNone,
    /// 15 to 20.
    Proposal(ProposalFault),
}

impl From<NarrowFault> for PlacementFault {
    ghost from_gives = { λ e r. r ≡ raised e };

    fn from(e: NarrowFault) -> PlacementFault {
        match e {
            NarrowFault::Length => PlacementFault::OtherSize,
            NarrowFault::BadSpan(place) => PlacementFault::BadSpan(place),
        }
    }
}

impl From<FactorFault> for ProposalFault {
    ghost from_gives = { λ e r. r ≡ Factor e };

    fn from(e: FactorFault) -> ProposalFault {
        ProposalFault::Factor(e)
    }
}

impl From<ProposalFault> for PlacementFault {
    ghost from_gives = { λ e r. r ≡ Proposal e };

    fn from(e: ProposalFault) -> PlacementFault {
        PlacementFault::Proposal(e)
    }
}

// Numbers, places and layers are methods, and no From: kinds share a number, so it tells of a refusal and is not one in another form. A trait
// over the four enums would have no user, since each is known where it is told.

impl NarrowFault {
    /// The refusal's number.
    pub fn number(self) -> u16
        ensures { result ≡ narrow_number self }
    {
        match self {
            NarrowFault::Length => 14,
            NarrowFault::BadSpan(_) => 12,
        }
    }

    /// The first bad span, from 1, or 0.
    pub fn place(self) -> Place
        ensures { result ≡ narrow_place self }
    {
        match self {
            NarrowFault::Length => Place::Entry(0),
            NarrowFault::BadSpan(place) => Place::Entry(place),
        }
    }

    /// The layer that refused.
    pub fn layer(self) -> Layer
        ensures { result ≡ narrow_layer self }
    {
        Layer::Placement
    }
}

impl FactorFault {
    /// The refusal's number.
    pub fn number(self) -> u16
        ensures { result ≡ factor_number self }
    {
        match self {
            FactorFault::NoPivot(_, _) => 18,
            FactorFault::Steep(_, _) => 19,
            FactorFault::Large(_, _) => 20,
        }
    }

    /// The step and its coordinate.
    pub fn place(self) -> Place
        ensures { result ≡ factor_place self }
    {
        match self {
            FactorFault::NoPivot(step, coordinate)
            | FactorFault::Steep(step, coordinate)
            | FactorFault::Large(step, coordinate) => Place::Step(step, coordinate),
        }
    }

    /// The layer that refused.
    pub fn layer(self) -> Layer
        ensures { result ≡ factor_layer self }
    {
        Layer::Factoring
    }
}

impl ProposalFault {
    /// The refusal's number.
    pub fn number(self) -> u16
        ensures { result ≡ proposal_number self }
    {
        match self {
            ProposalFault::WeightCount | ProposalFault::Weights(_) | ProposalFault::AllZero => 15,
            ProposalFault::AbsentEnd(_) => 16,
            ProposalFault::OrderLength | ProposalFault::Order(_) => 17,
            ProposalFault::Factor(e) => e.number(),
        }
    }

    /// What the refusal points at.
    pub fn place(self) -> Place
        ensures { result ≡ proposal_place self }
    {
        match self {
            ProposalFault::Weights(place)
            | ProposalFault::AbsentEnd(place)
            | ProposalFault::Order(place) => Place::Entry(place),
            ProposalFault::Factor(e) => e.place(),
            _ => Place::Entry(0),
        }
    }

    /// The layer that refused.
    pub fn layer(self) -> Layer
        ensures { result ≡ proposal_layer self }
    {
        match self {
            ProposalFault::Factor(e) => e.layer(),
            _ => Layer::Proposal,
        }
    }
}

impl PlacementFault {
    /// The refusal's number.
    pub fn number(self) -> u16
        ensures value { result ≡ placement_number self }
        ensures law { RefusalsPassUpWhole }
    {
        match self {
            PlacementFault::Size => 11,
            PlacementFault::BadSpan(_) => 12,
            PlacementFault::TooManyRows | PlacementFault::BadRow(_) | PlacementFault::NoSuchRow =>
                13,
            PlacementFault::OtherSize => 14,
            PlacementFault::NotMade => 31,
            PlacementFault::AlreadyMade => 32,
            PlacementFault::AtNone => 33,
            PlacementFault::Proposal(e) => e.number(),
        }
    }

    /// What the refusal points at.
    pub fn place(self) -> Place
        ensures { result ≡ placement_place self }
    {
        match self {
            PlacementFault::BadSpan(place) | PlacementFault::BadRow(place) => Place::Entry(place),
            PlacementFault::Proposal(e) => e.place(),
            _ => Place::Entry(0),
        }
    }

    /// The layer that refused.
    pub fn layer(self) -> Layer
        ensures { result ≡ placement_layer self }
    {
        match self {
            PlacementFault::Proposal(e) => e.layer(),
            _ => Layer::Placement,
        }
    }
}
