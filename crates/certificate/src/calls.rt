//! A certificate's calls: a new one, the check that writes it, and its narrowing.

ghost use Rattle.std.specs.Prelude.{◌≡◌, Some, count_ones};
ghost use Rattle.model.specs.Boxes.{IsBox};
ghost use Rattle.narrower.specs.Answers.{CutTo};
ghost use Rattle.weighing.specs.Laws.{AggregatedRowFollows};
ghost use Rattle.certificate.specs.Certificates.{meaning_of, certificate_meaning, told_of, nothing_told};
ghost use Rattle.certificate.specs.Checks.{check_refusal, proposed, after_check};
ghost use Rattle.certificate.specs.Laws.{DominantWeightsPass, BudgetsStaySmall};
ghost use Rattle.certificate.specs.Cases.{WorkedCasesHold};
ghost use Rattle.certificate.specs.CertificateNarrowerLemmas;

use crate::budget::budget_of;
use crate::certificate::Certificate;
use crate::cuts::narrow_back;
use factoring::factored::Factored;
use model::held_rows::HeldRows;
use model::span::Span;
use narrower::answer::Answer;
use narrower::faults::{NarrowFault, ProposalFault};
use narrower::interface::{Cutter, Narrower, narrow_by_cuts};
use weighing::marks::marks;
use weighing::weights::weigh;

impl Certificate {
    /// A certificate before its first check.
    pub fn new() -> Certificate
        ensures value { told_of result ≡ nothing_told }
        ensures cases { WorkedCasesHold }
        ensures small { BudgetsStaySmall }
    {
        Certificate {
            marks: 0,
            factored: None,
        }
    }

    /// Weighs the rows, factors their sums in the order, whose coordinates count from 1, and writes that down; where either is refused,
    /// what was written stays.
    pub fn check(
        &mut self,
        held: HeldRows,
        weights: &[i64],
        order: &[usize],
    ) -> Result<(), ProposalFault>
        ensures answer { result ≡ proposed (check_refusal held.entry.size weights.now held.entry.rows.now order.now) }
        ensures after { told_of self.new ≡ after_check held.entry.size weights.now held.entry.rows.now order.now (told_of self.old) }
        ensures follows { AggregatedRowFollows }
        ensures passes { DominantWeightsPass }
    {
        let sums = weigh(held, weights)?;
        let factored = Factored::of(sums, order)?;
        self.marks = marks(weights);
        self.factored = Some(factored);
        Ok(())
    }

    /// The marks of the rows whose weight is not 0.
    pub fn marks(&self) -> u16
        ensures { result ≡ (told_of self.now).marks }
    {
        self.marks
    }

    /// How many rows have a mark.
    pub fn marked(&self) -> u32
        ensures { result ≡ count_ones (told_of self.now).marks }
    {
        self.marks.count_ones()
    }
}

/// Cuts a box by a factoring; none where nothing is left.
fn cut_with(f: &Factored, spans: &mut [Span]) -> Option<()>
    requires { IsBox f.now.sums.row.size spans.old }
    ensures { CutTo ((meaning_of (Some f.now)).map spans.old) result spans.new }
{
    let budget = budget_of(f, spans);
    if budget < 0 {
        None
    } else {
        narrow_back(f, spans, budget)
    }
}

impl Cutter for Certificate {
    ghost meaning = { certificate_meaning };

    ghost few = { λ c. CertificateNarrowerLemmas.few c.factored };

    fn box_size(&self) -> usize {
        self.factored.as_ref().map_or(0, |f| f.sums.row.size)
    }

    fn cut(&self, spans: &mut [Span]) -> Option<()> {
        match &self.factored {
            None => Some(()),
            Some(f) => cut_with(f, spans),
        }
    }
}

impl Narrower for Certificate {
    ghost means = { certificate_meaning };

    ghost lawful = { λ n. CertificateNarrowerLemmas.lawful n.factored };

    fn size(&self) -> usize {
        self.box_size()
    }

    fn narrow(&mut self, spans: &mut [Span]) -> Result<Answer, NarrowFault> {
        narrow_by_cuts(self, spans)
    }
}
