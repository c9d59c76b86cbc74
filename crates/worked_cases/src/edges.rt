//! The edges: what just passes, what just does not, and the refusals by the state.
use crate::cases::{Table, made, narrowed};
use crate::outcome::{Stop, answered, told};
use crate::problems::{
    at_limits, circle, product_is_six, square_at_least_101, square_at_most_nine, thin,
};
use model::draft::RowDraft;
use model::span::Span;
use narrower::interface::Narrower;
use narrower::one_row::OneRow;
use placement::placement::Placement;
use std::alloc::{AllocError, Global};

impl Table {
    /// Sizes and runs of spans.
    pub fn note_boxes(&mut self) -> Result<(), AllocError> {
        let heap = self.heap;
        let wide = [Span::new(-4096, 4096); 10];
        let beyond = [Span::new(-4096, 4096), Span::new(-4096, 4097)];
        let crossed = [Span::new(3, 3), Span::new(5, 4), Span::new(9, 1)];
        self.note(
            "size 9 with ends 4096, make",
            "made",
            made(heap, 9, &wide[0..9], Vec::new(heap)),
        )?;
        self.note(
            "size 10, make",
            "refused 11 at 0",
            made(heap, 10, &wide, Vec::new(heap)),
        )?;
        self.note(
            "size 0, make",
            "refused 11 at 0",
            made(heap, 0, &[], Vec::new(heap)),
        )?;
        self.note(
            "size 2 with three spans, make",
            "refused 11 at 0",
            made(heap, 2, &crossed, Vec::new(heap)),
        )?;
        self.note(
            "end 4097 in span 2, make",
            "refused 12 at 2",
            made(heap, 2, &beyond, Vec::new(heap)),
        )?;
        self.note(
            "spans 2 and 3 crossed, make",
            "refused 12 at 2",
            made(heap, 3, &crossed, Vec::new(heap)),
        )
    }

    /// Numbers of rows, and rows that a placement does not take.
    pub fn note_rows(&mut self) -> Result<(), AllocError> {
        let heap = self.heap;
        let ten = [Span::new(-10, 10)];
        let nine = square_at_most_nine();
        self.note(
            "sixteen rows, make",
            "made",
            made(heap, 1, &ten, vec![in heap; nine; 16]?),
        )?;
        self.note(
            "seventeen rows, make",
            "refused 13 at 0",
            made(heap, 1, &ten, vec![in heap; nine; 17]?),
        )?;
        self.note(
            "row 2 of another size, make",
            "refused 13 at 2",
            made(heap, 1, &ten, vec![in heap; nine, circle()]?),
        )?;
        self.note(
            "a bad span before a bad row, make",
            "refused 12 at 1",
            made(heap, 1, &[Span::new(1, 0)], vec![in heap; circle()]?),
        )
    }

    /// The limits of a row.
    pub fn note_limits(&mut self) -> Result<(), AllocError> {
        let heap = self.heap;
        let most = at_limits();
        let mut square = most;
        square.squares[0] = Span::new(-1025, 1024);
        let mut single = most;
        single.singles[0] = thin(65537);
        let mut side = most;
        side.high = Some(68719476737);
        let mut crossed = most;
        crossed.low = Some(1);
        crossed.high = Some(0);
        self.note(
            "a row with every end at its limit, make",
            "made",
            with_row(heap, most),
        )?;
        self.note(
            "a square's coefficient of -1025, make",
            "refused 13 at 1",
            with_row(heap, square),
        )?;
        self.note(
            "a single's coefficient of 65537, make",
            "refused 13 at 1",
            with_row(heap, single),
        )?;
        self.note(
            "a right side of 2^36 + 1, make",
            "refused 13 at 1",
            with_row(heap, side),
        )?;
        self.note(
            "a crossed right side, make",
            "refused 13 at 1",
            with_row(heap, crossed),
        )
    }

    /// The refusals by the state.
    pub fn note_states(&mut self) -> Result<(), AllocError> {
        let heap = self.heap;
        let mut unmade = Placement::new();
        let one = placed(heap, square_at_most_nine())?;
        self.note(
            "read row 1 before make",
            "refused 31 at 0",
            row_read(heap, &unmade, 1),
        )?;
        self.note(
            "narrow before make",
            "refused 31 at 0",
            narrowed_by(heap, &mut unmade, &one),
        )?;
        self.note("make twice", "refused 32 at 0", made_twice(heap))?;
        self.note(
            "narrow again after none",
            "refused 33 at 0",
            narrowed(heap, &[Span::new(-10, 10)], square_at_least_101(), 2),
        )
    }

    /// Row numbers that are not held, and a narrower of another size.
    pub fn note_narrowers(&mut self) -> Result<(), AllocError> {
        let heap = self.heap;
        let mut one = placed(heap, square_at_most_nine())?;
        let two = placed_product(heap)?;
        self.note("read row 0", "refused 13 at 0", row_read(heap, &one, 0))?;
        self.note(
            "read row 2 of one",
            "refused 13 at 0",
            row_read(heap, &one, 2),
        )?;
        self.note(
            "narrow by a row of another size",
            "refused 14 at 0",
            narrowed_by(heap, &mut one, &two),
        )
    }

    /// Runs of spans handed to a narrower itself.
    pub fn note_runs(&mut self) -> Result<(), AllocError> {
        let heap = self.heap;
        let mut none: [Span; 0] = [];
        let mut three = [Span::new(2, 1); 3];
        let mut crossed = [Span::new(1, 10), Span::new(3, 2)];
        let mut good = [Span::new(1, 10), Span::new(2, 3)];
        self.note(
            "an empty run, narrower of size 2",
            "refused 14 at 0, leaving",
            run_narrowed(heap, &mut none),
        )?;
        self.note(
            "three crossed spans, narrower of size 2",
            "refused 14 at 0, leaving [2,1] [2,1] [2,1]",
            run_narrowed(heap, &mut three),
        )?;
        self.note(
            "span 2 crossed, narrower of size 2",
            "refused 12 at 2, leaving [1,10] [3,2]",
            run_narrowed(heap, &mut crossed),
        )?;
        self.note(
            "x1 x2 = 6 on the run [1,10] [2,3]",
            "narrowed, leaving [2,3] [2,3]",
            run_narrowed(heap, &mut good),
        )
    }
}

/// The outcome of making a placement of one coordinate and one row.
fn with_row(heap: Global, row: RowDraft) -> Result<String, Stop> {
    made(heap, 1, &[Span::new(-10, 10)], vec![in heap; row]?)
}

/// A placement of one coordinate in [-10,10] with one row.
fn placed(heap: Global, row: RowDraft) -> Result<Placement, AllocError> {
    let mut placement = Placement::new();
    let _ = placement.make(1, &[Span::new(-10, 10)], vec![in heap; row]?);
    Ok(placement)
}

/// The placement of x1 x2 = 6 on [1,10] [2,3].
fn placed_product(heap: Global) -> Result<Placement, AllocError> {
    let mut placement = Placement::new();
    let _ = placement.make(
        2,
        &[Span::new(1, 10), Span::new(2, 3)],
        vec![in heap; product_is_six()]?,
    );
    Ok(placement)
}

/// The outcome of making a placement that is made.
fn made_twice(heap: Global) -> Result<String, Stop> {
    let mut placement = placed(heap, square_at_most_nine())?;
    placement.make(0, &[], Vec::new(heap))?;
    Ok(String::from_str(heap, "made")?)
}

/// The outcome of reading a row.
fn row_read(heap: Global, placement: &Placement, k: usize) -> Result<String, Stop> {
    placement.row(k)?;
    Ok(String::from_str(heap, "read")?)
}

/// The outcome of narrowing a placement by the row of another one.
fn narrowed_by(heap: Global, placement: &mut Placement, other: &Placement) -> Result<String, Stop> {
    let mut by = OneRow::new(other.row(1)?);
    let answer = placement.narrow(&mut by)?;
    answered(heap, placement, answer)
}

/// The outcome of handing a run of spans to the narrower of x1 x2 = 6.
fn run_narrowed(heap: Global, spans: &mut [Span]) -> Result<String, Stop> {
    let mut by = OneRow::new(placed_product(heap)?.row(1)?);
    told(heap, by.narrow(spans), spans)
}
