//! The cases: each with its expected and its real outcome.
use crate::outcome::{Stop, answered};
use crate::problems::{
    circle, product_at_most, product_is_six, square_at_least_101, square_at_most_nine,
};
use model::draft::RowDraft;
use model::span::Span;
use narrower::one_row::OneRow;
use placement::placement::Placement;
use std::alloc::{AllocError, Global};
use std::fmt;

/// A call with what was expected of it and what came.
#[derive(Drop)]
pub struct Case {
    call: &'static str,
    expected: &'static str,
    got: String,
}

impl Case {
    /// Whether what came is what was expected.
    pub fn agreed(&self) -> bool {
        self.got.as_str() == self.expected
    }
}

impl fmt::Display for Case {
    fn fmt<W: fmt::Write>(&self, f: &mut fmt::Formatter<W>) -> fmt::Result {
        let verdict = if self.agreed() { "agreed" } else { "DIFFERENT" };
        write!(
            f,
            "{} | expected {} | got {} | {verdict}",
            self.call, self.expected, self.got
        )
    }
}

/// The cases so far, and where the words of the next ones come from.
#[derive(Drop)]
pub struct Table {
    pub heap: Global,
    pub cases: Vec<Case>,
}

impl Table {
    /// No cases.
    pub fn new(heap: Global) -> Table {
        Table {
            heap,
            cases: Vec::new(heap),
        }
    }

    /// One case more. A refusal is an outcome too.
    pub fn note(
        &mut self,
        call: &'static str,
        expected: &'static str,
        got: Result<String, Stop>,
    ) -> Result<(), AllocError> {
        let got = match got {
            Ok(words) => words,
            Err(Stop::Refused(refusal)) => refusal.to_string(self.heap)?,
            Err(Stop::Memory(error)) => return Err(error),
        };
        self.cases.push(Case {
            call,
            expected,
            got,
        })?;
        Ok(())
    }

    /// The worked examples of the one-row rule.
    pub fn note_one_row(&mut self) -> Result<(), AllocError> {
        let heap = self.heap;
        let ten = [Span::new(-10, 10)];
        let two = [Span::new(-2, 2); 2];
        let positive = [Span::new(1, 10), Span::new(2, 3)];
        let with_zero = [Span::new(1, 10), Span::new(0, 3)];
        self.note(
            "x1^2 <= 9 on [-10,10], row 1",
            "stood [-10,10]",
            narrowed(heap, &ten, square_at_most_nine(), 1),
        )?;
        self.note(
            "x1^2 + x2^2 <= 2 on [-2,2] [-2,2], row 1",
            "stood [-2,2] [-2,2]",
            narrowed(heap, &two, circle(), 1),
        )?;
        self.note(
            "x1 x2 <= -2 on [-2,2] [-2,2], row 1",
            "stood [-2,2] [-2,2]",
            narrowed(heap, &two, product_at_most(), 1),
        )?;
        self.note(
            "x1 x2 = 6 on [1,10] [2,3], row 1",
            "narrowed [2,3] [2,3]",
            narrowed(heap, &positive, product_is_six(), 1),
        )?;
        self.note(
            "x1 x2 = 6 on [1,10] [0,3], row 1",
            "stood [1,10] [0,3]",
            narrowed(heap, &with_zero, product_is_six(), 1),
        )?;
        self.note(
            "x1^2 >= 101 on [-10,10], row 1",
            "none [-10,10]",
            narrowed(heap, &ten, square_at_least_101(), 1),
        )
    }
}

/// The outcome of making a placement.
pub fn made(
    heap: Global,
    size: usize,
    spans: &[Span],
    rows: Vec<RowDraft>,
) -> Result<String, Stop> {
    Placement::new().make(size, spans, rows)?;
    Ok(String::from_str(heap, "made")?)
}

/// The outcome of making a placement of one row and narrowing it by that row as often as said; the last answer counts.
pub fn narrowed(heap: Global, spans: &[Span], row: RowDraft, times: u16) -> Result<String, Stop> {
    let mut placement = Placement::new();
    placement.make(spans.len(), spans, vec![in heap; row]?)?;
    let mut by = OneRow::new(placement.row(1)?);
    for _ in 1..times {
        placement.narrow(&mut by)?;
    }
    let answer = placement.narrow(&mut by)?;
    answered(heap, &placement, answer)
}
