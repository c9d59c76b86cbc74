//! Why the program ends before its input does.
use std::alloc::AllocError;
use std::{fmt, io};

/// What goes to standard error.
#[derive(Drop)]
pub enum Failure {
    /// This is wrong with the line of this number.
    Line(u64, String),
    /// The line of this number cannot be read.
    Input(u64, io::Error),
    /// What was to be told cannot be written.
    Output(io::Error),
    /// There is no memory left.
    Memory,
}

impl From<io::Error> for Failure {
    fn from(e: io::Error) -> Failure {
        Failure::Output(e)
    }
}

impl From<AllocError> for Failure {
    fn from(_e: AllocError) -> Failure {
        Failure::Memory
    }
}

impl fmt::Display for Failure {
    fn fmt<W: fmt::Write>(&self, f: &mut fmt::Formatter<W>) -> fmt::Result {
        match self {
            Failure::Line(number, words) => write!(f, "line {number}: {words}"),
            Failure::Input(number, error) => {
                write!(f, "line {number}: the line cannot be read: {error}")
            }
            Failure::Output(error) => write!(f, "the output cannot be written: {error}"),
            Failure::Memory => write!(f, "there is no memory left"),
        }
    }
}
