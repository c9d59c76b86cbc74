//! A box as a person reads it.

ghost use Rattle.std.specs.Prelude.{◌≡◌};
ghost use Rattle.tighten.specs.Calls.{box_text};

use model::span::Span;
use model::spans::copy_of;
use std::fmt;

/// A copy of a box, as `box [-3,3] [1,5]`: its size and, in the first places, its spans.
// Spans with a size beside them: a reply that borrowed the box would keep `obey` from saying how it leaves the session, a Vec would make reading
// a box need memory, and a reply is copied, which a vector in place is not.
#[derive(Clone, Copy)]
pub struct BoxText {
    size: usize,
    spans: [Span; 9],
}

impl BoxText {
    /// The text of a box.
    pub fn new(spans: &[Span]) -> BoxText
        ensures { result ≡ box_text spans.now }
    {
        BoxText {
            size: spans.len(),
            spans: copy_of(spans),
        }
    }
}

impl fmt::Display for BoxText {
    fn fmt<W: fmt::Write>(&self, f: &mut fmt::Formatter<W>) -> fmt::Result {
        f.write_str("box")?;
        for span in self.spans.iter().take(self.size) {
            write!(f, " {span}")?;
        }
        Ok(())
    }
}
