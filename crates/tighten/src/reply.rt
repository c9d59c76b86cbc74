//! What a call is answered with.
use crate::box_text::BoxText;
use crate::refusal::Refusal;
use crate::row_text::RowText;
use model::draft::RowDraft;
use narrower::answer::Answer;
use placement::standing::Standing;
use std::fmt;

/// What a call comes to, told in one line.
#[derive(Clone, Copy)]
pub enum Reply {
    Made,
    Narrowing(Answer),
    /// The answer of rounds, and how many they were.
    Rounds(Answer, usize),
    Size(usize),
    Box(BoxText),
    Standing(Standing),
    Row(i64, RowDraft),
    Refused(Refusal),
}

impl fmt::Display for Reply {
    fn fmt<W: fmt::Write>(&self, f: &mut fmt::Formatter<W>) -> fmt::Result {
        match self {
            Reply::Made => f.write_str("made"),
            Reply::Narrowing(answer) => write!(f, "{answer}"),
            Reply::Rounds(answer, told) => write!(f, "{answer} told {told}"),
            Reply::Size(size) => write!(f, "size {size}"),
            Reply::Box(text) => write!(f, "{text}"),
            Reply::Standing(standing) => write!(f, "standing {standing}"),
            Reply::Row(k, row) => write!(f, "row {k}: {}", RowText(row)),
            Reply::Refused(refusal) => write!(f, "{refusal}"),
        }
    }
}
