//! How a placement stands.
use std::fmt;

/// Whether a placement is made, and whether a place may still fit.
#[derive(Clone, Copy, PartialEq, Eq, Debug)]
pub enum Standing {
    /// Not made yet. No reading tells this, since it is refused; the states of the definitions have it.
    Unmade,
    /// Made, and no narrower found that no place fits.
    Open,
    /// A narrower found that no place fits: the placement stands at none.
    Nowhere,
}

/// `unmade`, `open` or `none`.
impl fmt::Display for Standing {
    fn fmt<W: fmt::Write>(&self, f: &mut fmt::Formatter<W>) -> fmt::Result {
        f.write_str(match self {
            Standing::Unmade => "unmade",
            Standing::Open => "open",
            Standing::Nowhere => "none",
        })
    }
}
