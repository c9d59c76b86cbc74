//! What can be wrong with a line of input.

ghost use Rattle.std.specs.Prelude.{◌≡◌};
ghost use Rattle.tighten.specs.declared.wrong.Wrong.TheVariants.{Memory};

use std::alloc::{AllocError, AllocFailed};
use std::fmt;

/// Why a line ends the program.
#[derive(Drop)]
pub enum Wrong<'a> {
    /// The first word is none of the words that a line starts with.
    UnknownLine(&'a str),
    /// The word where a narrower should stand is none.
    UnknownNarrower(&'a str),
    /// A layer is given again, or after a row.
    MisplacedLayer(&'a str),
    /// The word after `read` is nothing that can be read.
    UnknownReading(&'a str),
    /// The line ends before this.
    Missing(&'static str),
    /// The line goes on where it should end.
    Extra(&'a str),
    /// A word that should be a whole number is none, or is beyond the numbers of 64 bits.
    NotNumber(&'a str),
    /// The size is less than 0.
    NegativeSize(i64),
    /// The number of rounds is less than 0.
    NegativeRounds(i64),
    /// The size is given a second time.
    SizeAgain,
    /// The size is not given yet.
    NoSize,
    /// No row is started yet.
    NoRow,
    /// The coordinate is not one of 1 to this number.
    NoCoordinate(i64, usize),
    /// A pair of a coordinate with itself.
    PairOfOne(i64),
    /// The problem is made, and nothing can be added.
    AfterMake,
    /// There is no memory left.
    Memory,
}

impl<'a> From<AllocError> for Wrong<'a> {
    ghost from_gives = { λ _ r. r ≡ Memory };

    fn from(_e: AllocError) -> Wrong<'a> {
        Wrong::Memory
    }
}

impl<'a, T: Drop> From<AllocFailed<T>> for Wrong<'a> {
    ghost from_gives = { λ _ r. r ≡ Memory };

    fn from(_e: AllocFailed<T>) -> Wrong<'a> {
        Wrong::Memory
    }
}

/// What a line may start with.
const FIRST_WORDS: &str =
    "size, span, row, square, pair, single, at-least, at-most, make, narrow or read";

/// What a line that narrows has.
const NARROW_LINE: &str = "'narrow [star S] [rounds K] row K [then row K]'";

/// What can be read.
const READ_LINES: &str = "'read size', 'read box', 'read standing' or 'read row K'";

/// Where layers stand.
const LAYERS: &str = "'star S' and 'rounds K' stand before the first row, each at most once";

impl<'a> fmt::Display for Wrong<'a> {
    fn fmt<W: fmt::Write>(&self, f: &mut fmt::Formatter<W>) -> fmt::Result {
        match self {
            Wrong::UnknownLine(word) => write!(
                f,
                "a line cannot start with '{word}': it starts with {FIRST_WORDS}"
            ),
            Wrong::UnknownNarrower(word) => {
                write!(f, "'{word}' is no narrower: write {NARROW_LINE}")
            }
            Wrong::MisplacedLayer(word) => write!(f, "'{word}' cannot stand here: {LAYERS}"),
            Wrong::UnknownReading(word) => {
                write!(f, "'{word}' cannot be read: write {READ_LINES}")
            }
            Wrong::Missing(what) => write!(f, "{what} is missing at the end of the line"),
            Wrong::Extra(word) => write!(f, "the line should end before '{word}'"),
            Wrong::NotNumber(word) => {
                write!(
                    f,
                    "'{word}' is not a whole number from {} to {}",
                    i64::MIN,
                    i64::MAX
                )
            }
            Wrong::NegativeSize(n) => write!(f, "the size cannot be {n}, which is below 0"),
            Wrong::NegativeRounds(n) => {
                write!(f, "the number of rounds cannot be {n}, which is below 0")
            }
            Wrong::SizeAgain => f.write_str("the size is given a second time"),
            Wrong::NoSize => f.write_str("the size has to be given first, by 'size N'"),
            Wrong::NoRow => f.write_str("a row has to be started first, by 'row'"),
            Wrong::NoCoordinate(given, most) => write_no_coordinate(*given, *most, f),
            Wrong::PairOfOne(given) => write_pair_of_one(*given, f),
            Wrong::AfterMake => f.write_str("the problem is made and cannot be changed any more"),
            Wrong::Memory => f.write_str("there is no memory left"),
        }
    }
}

fn write_no_coordinate<W: fmt::Write>(
    given: i64,
    most: usize,
    f: &mut fmt::Formatter<W>,
) -> fmt::Result {
    write!(f, "there is no coordinate {given}: ")?;
    if most == 0 {
        f.write_str("the size is 0")
    } else {
        write!(f, "they count from 1 to {most}")
    }
}

fn write_pair_of_one<W: fmt::Write>(given: i64, f: &mut fmt::Formatter<W>) -> fmt::Result {
    write!(
        f,
        "a pair takes two coordinates, and {given} is given twice: write 'square {given}' for its square"
    )
}
