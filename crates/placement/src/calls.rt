//! The calls on a placement.

ghost use Rattle.std.specs.Prelude.{◌≡◌, None, Some, Ok, Err, MatchResult};
ghost use Rattle.weighing.specs.Laws.{AggregatedRowFollows};
ghost use Rattle.narrower.specs.declared.faults.PlacementFault.TheVariants.{NotMade};
ghost use Rattle.certificate.specs.Certificates.{told_of};
ghost use Rattle.certificate.specs.Laws.{DominantWeightsPass};
ghost use Rattle.placement.specs.States.{state_of, unmade};
ghost use Rattle.placement.specs.Makes.{make_answer, make_state};
ghost use Rattle.placement.specs.Narrows.{narrow_answer, narrow_state, Keeps};
ghost use Rattle.placement.specs.Checks.{check_answer, check_told};
ghost use Rattle.placement.specs.Reads.{read_size, read_box, read_standing, read_row, bare};

use crate::placement::{Made, Placement};
use crate::standing::Standing;
use certificate::certificate::Certificate;
use model::draft::RowDraft;
use model::held::HeldRow;
use model::span::Span;
use narrower::answer::Answer;
use narrower::faults::PlacementFault;
use narrower::interface::Narrower;

impl Placement {
    /// A placement that is not made yet.
    pub fn new() -> Placement
        ensures { state_of result ≡ unmade }
    {
        Placement { made: None }
    }

    /// What the placement holds once it is made.
    fn made(&self) -> Result<&Made, PlacementFault>
        ensures { MatchResult result (λ m. self.now.made ≡ Some m.now) (λ e. (self.now.made ≡ None) × (e ≡ NotMade)) }
    {
        self.made.as_ref().ok_or(PlacementFault::NotMade)
    }

    /// Makes the placement of a size, a box and rows.
    pub fn make(
        &mut self,
        size: usize,
        spans: &[Span],
        rows: Vec<RowDraft>,
    ) -> Result<(), PlacementFault>
        ensures answer { result ≡ make_answer (state_of self.old) size spans.now rows.items }
        ensures after { state_of self.new ≡ make_state (state_of self.old) size spans.now rows.items }
    {
        if self.made.is_some() {
            return Err(PlacementFault::AlreadyMade);
        }
        self.made = Some(Made::of(size, spans, rows)?);
        Ok(())
    }

    /// Narrows the placement's box by a narrower. After `Answer::Empty` the placement stands at none.
    pub fn narrow<N: Narrower>(&mut self, by: &mut N) -> Result<Answer, PlacementFault>
        ensures answer { result ≡ narrow_answer (N.means by.old) (state_of self.old) }
        ensures after { state_of self.new ≡ narrow_state (N.means by.old) (state_of self.old) }
        ensures same { N.means by.new ≡ N.means by.old }
        ensures keeps { Keeps (N.means by.old) (state_of self.old) (state_of self.new) }
    {
        let Some(made) = &mut self.made else {
            return Err(PlacementFault::NotMade);
        };
        made.narrow(by)
    }

    /// Checks one weight for each row, from -64 to 64 and not all 0, and an order of coordinates counted from 1, and writes the
    /// certificate of the weighted sum in that order. A refusal leaves the certificate as it was.
    // Weights and order each by itself: that is the call that is asked of this library.
    pub fn check(
        &self,
        weights: &[i64],
        order: &[usize],
        certificate: &mut Certificate,
    ) -> Result<(), PlacementFault>
        ensures answer { result ≡ check_answer weights.now order.now (state_of self.now) }
        ensures written { told_of certificate.new ≡ check_told weights.now order.now (state_of self.now) (told_of certificate.old) }
        ensures follows { AggregatedRowFollows }
        ensures passes { DominantWeightsPass }
    {
        certificate.check(self.made()?.rows(), weights, order)?;
        Ok(())
    }

    /// How many coordinates there are.
    pub fn size(&self) -> Result<usize, PlacementFault>
        ensures { result ≡ read_size (state_of self.now) }
    {
        Ok(self.made()?.size)
    }

    /// The box.
    pub fn spans(&self) -> Result<&[Span], PlacementFault>
        ensures { MatchResult result (λ s. Ok s.now ≡ read_box (state_of self.now)) (λ e. Err e ≡ read_box (state_of self.now)) }
    {
        Ok(self.made()?.spans())
    }

    /// Whether a place may still fit.
    pub fn standing(&self) -> Result<Standing, PlacementFault>
        ensures { result ≡ read_standing (state_of self.now) }
    {
        Ok(self.made()?.standing())
    }

    /// The row with the number `k`, counted from 1.
    pub fn row(&self, k: usize) -> Result<HeldRow, PlacementFault>
        ensures { bare result ≡ read_row k (state_of self.now) }
    {
        self.made()?.row(k).ok_or(PlacementFault::NoSuchRow)
    }
}
