//! What a call came to, in words that can be compared.
use model::span::Span;
use narrower::answer::Answer;
use narrower::faults::{NarrowFault, Place, PlacementFault};
use placement::placement::Placement;
use std::alloc::{AllocError, AllocFailed, Global};
use std::fmt;

/// A refusal's number and place, as `refused 12 at 2`.
#[derive(Clone, Copy)]
pub struct Refusal {
    number: u16,
    place: Place,
}

impl From<PlacementFault> for Refusal {
    fn from(fault: PlacementFault) -> Refusal {
        Refusal {
            number: fault.number(),
            place: fault.place(),
        }
    }
}

impl From<NarrowFault> for Refusal {
    fn from(fault: NarrowFault) -> Refusal {
        Refusal {
            number: fault.number(),
            place: fault.place(),
        }
    }
}

impl fmt::Display for Refusal {
    fn fmt<W: fmt::Write>(&self, f: &mut fmt::Formatter<W>) -> fmt::Result {
        let Refusal { number, place } = *self;
        write!(f, "refused {number} at {place}")
    }
}

/// Why a call has no outcome of its own.
#[derive(Drop)]
pub enum Stop {
    /// The call is refused.
    Refused(Refusal),
    /// There is no memory left for the words.
    Memory(AllocError),
}

impl From<PlacementFault> for Stop {
    fn from(fault: PlacementFault) -> Stop {
        Stop::Refused(Refusal::from(fault))
    }
}

impl From<AllocError> for Stop {
    fn from(error: AllocError) -> Stop {
        Stop::Memory(error)
    }
}

impl<T: Drop> From<AllocFailed<T>> for Stop {
    fn from(failed: AllocFailed<T>) -> Stop {
        Stop::Memory(AllocError::from(failed))
    }
}

/// A run of spans, each with a blank before it, as ` [-3,3] [1,5]`.
#[derive(Drop)]
struct Written<'a>(&'a [Span]);

impl<'a> fmt::Display for Written<'a> {
    fn fmt<W: fmt::Write>(&self, f: &mut fmt::Formatter<W>) -> fmt::Result {
        for span in self.0 {
            write!(f, " {span}")?;
        }
        Ok(())
    }
}

/// A placement's answer with the box that is left, as `narrowed [2,3] [2,3]`.
pub fn answered(heap: Global, placement: &Placement, answer: Answer) -> Result<String, Stop> {
    let spans = Written(placement.spans()?);
    Ok(format!(in heap; "{answer}{spans}")?)
}

/// A narrower's answer or refusal with the run that is left, as `narrowed, leaving [2,3] [2,3]`.
pub fn told(
    heap: Global,
    answer: Result<Answer, NarrowFault>,
    spans: &[Span],
) -> Result<String, Stop> {
    let spans = Written(spans);
    let text = match answer {
        Ok(answer) => format!(in heap; "{answer}, leaving{spans}")?,
        Err(fault) => format!(in heap; "{}, leaving{spans}", Refusal::from(fault))?,
    };
    Ok(text)
}
