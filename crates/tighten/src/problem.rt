//! The problem as it is described so far.

ghost use Rattle.std.specs.Prelude.{◌≡◌, ◌<◌, IfOk};
ghost use Rattle.tighten.specs.Contents.{Contents, unknown, size_of, box_of};
ghost use Rattle.tighten.specs.Descriptions.{index_in, taken, Taken, TakenIn};

use crate::command::{Description, ordinal};
use crate::wrong::Wrong;
use model::draft::RowDraft;
use model::limits::{BOX_LIMIT, MOST_COORDINATES};
use model::span::Span;
use std::alloc::{AllocError, Global};
use std::marker::Model;

/// What a span is that is not given.
const WIDEST: Span = Span {
    low: -(BOX_LIMIT as i64),
    high: BOX_LIMIT as i64,
};

/// A size, a span for each coordinate, and rows, of which nobody has looked yet whether they keep their limits.
// Nine spans, and no Vec, which would make giving a size need memory; all nine count from the start, and the size may be beyond 9.
#[derive(Drop)]
pub struct Problem {
    size: Option<usize>,
    spans: [Span; 9],
    rows: Vec<RowDraft>,
}

impl Model for Problem {
    ghost Value = { Contents };

    ghost view = { λ p. record { size = p.size; spans = p.spans; rows = p.rows.items } };
}

impl Problem {
    /// A problem of which nothing is known.
    pub fn new(heap: Global) -> Problem
        ensures { result ≡ unknown }
    {
        Problem {
            size: None,
            spans: [WIDEST; 9],
            rows: Vec::new(heap),
        }
    }

    /// The size, or 0 where none is given.
    // No Option: making refuses 0 and a missing size alike.
    pub fn size(&self) -> usize
        ensures { result ≡ size_of self.now }
    {
        self.size.unwrap_or(0)
    }

    /// The spans of the coordinates, of which there are never more than nine.
    pub fn spans(&self) -> &[Span]
        ensures { result.now ≡ box_of self.now }
    {
        let n = self.size().min(MOST_COORDINATES);
        &self.spans[0..n]
    }

    /// A copy of the rows.
    pub fn rows(&self, heap: Global) -> Result<Vec<RowDraft>, AllocError>
        ensures { IfOk result (λ v. v.items ≡ self.now.rows) }
    {
        Vec::from_slice(heap, &self.rows)
    }

    /// Takes in a line. A span, a term or an end that is given again replaces the earlier one, so that what is refused can be put right.
    pub fn describe<'a>(&mut self, line: Description) -> Result<(), Wrong<'a>>
        ensures { TakenIn result (taken line self.old) self.old self.new }
    {
        match line {
            Description::Size(size) => self.set_size(size),
            Description::Span(i, span) => self.set_span(i, span),
            Description::Row => self.start_row(),
            Description::Square(i, span) => self.set_square(i, span),
            Description::Pair(i, j, span) => self.set_pair(i, j, span),
            Description::Single(i, span) => self.set_single(i, span),
            Description::AtLeast(low) => self.set_low(low),
            Description::AtMost(high) => self.set_high(high),
        }
    }

    fn set_size<'a>(&mut self, given: i64) -> Result<(), Wrong<'a>>
        ensures { Taken result (taken (Description.Size given) self.old) self.old self.new }
    {
        if self.size.is_some() {
            return Err(Wrong::SizeAgain);
        }
        let size = usize::try_from(given).map_err(|_| Wrong::NegativeSize(given))?;
        self.size = Some(size);
        Ok(())
    }

    /// The place of a coordinate that is counted from 1.
    fn index<'a>(&self, given: i64) -> Result<usize, Wrong<'a>>
        ensures value { result ≡ index_in self.now.size given }
        ensures bound { IfOk result (λ i. i < 9) }
    {
        let size = self.size.ok_or(Wrong::NoSize)?;
        let most = size.min(MOST_COORDINATES);
        ordinal(given)
            .checked_sub(1)
            .filter(|i| *i < most)
            .ok_or(Wrong::NoCoordinate(given, most))
    }

    fn set_span<'a>(&mut self, i: i64, span: Span) -> Result<(), Wrong<'a>>
        ensures { Taken result (taken (Description.Span i span) self.old) self.old self.new }
    {
        let i = self.index(i)?;
        self.spans[i] = span;
        Ok(())
    }

    fn start_row<'a>(&mut self) -> Result<(), Wrong<'a>>
        ensures { TakenIn result (taken Description.Row self.old) self.old self.new }
    {
        let size = self.size.ok_or(Wrong::NoSize)?;
        self.rows.push(RowDraft::new(size))?;
        Ok(())
    }

    // A function for each field, of three lines: one for all would take a closure that lends a place of a row.
    fn set_square<'a>(&mut self, i: i64, coefficient: Span) -> Result<(), Wrong<'a>>
        ensures { Taken result (taken (Description.Square i coefficient) self.old) self.old self.new }
    {
        let i = self.index(i)?;
        let row = self.rows.last_mut().ok_or(Wrong::NoRow)?;
        row.squares[i] = coefficient;
        Ok(())
    }

    fn set_pair<'a>(&mut self, i: i64, j: i64, coefficient: Span) -> Result<(), Wrong<'a>>
        ensures { Taken result (taken (Description.Pair i j coefficient) self.old) self.old self.new }
    {
        let first = self.index(i)?;
        let second = self.index(j)?;
        if first == second {
            return Err(Wrong::PairOfOne(i));
        }
        let row = self.rows.last_mut().ok_or(Wrong::NoRow)?;
        row.pairs[first.min(second)][first.max(second)] = coefficient;
        Ok(())
    }

    fn set_single<'a>(&mut self, i: i64, coefficient: Span) -> Result<(), Wrong<'a>>
        ensures { Taken result (taken (Description.Single i coefficient) self.old) self.old self.new }
    {
        let i = self.index(i)?;
        let row = self.rows.last_mut().ok_or(Wrong::NoRow)?;
        row.singles[i] = coefficient;
        Ok(())
    }

    fn set_low<'a>(&mut self, low: i64) -> Result<(), Wrong<'a>>
        ensures { Taken result (taken (Description.AtLeast low) self.old) self.old self.new }
    {
        let row = self.rows.last_mut().ok_or(Wrong::NoRow)?;
        row.low = Some(low);
        Ok(())
    }

    fn set_high<'a>(&mut self, high: i64) -> Result<(), Wrong<'a>>
        ensures { Taken result (taken (Description.AtMost high) self.old) self.old self.new }
    {
        let row = self.rows.last_mut().ok_or(Wrong::NoRow)?;
        row.high = Some(high);
        Ok(())
    }
}
