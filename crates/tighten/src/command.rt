//! What a line of input asks for.

ghost use Rattle.std.specs.Prelude.{◌≡◌};
ghost use Rattle.tighten.specs.Contents.{ordinal_of};

use crate::words::Words;
use crate::wrong::Wrong;
use model::span::Span;

/// A line that describes the problem, with coordinates that count from 1 and that nobody has looked at yet.
#[derive(Clone, Copy)]
pub enum Description {
    Size(i64),
    Span(i64, Span),
    Row,
    Square(i64, Span),
    Pair(i64, i64, Span),
    Single(i64, Span),
    AtLeast(i64),
    AtMost(i64),
}

/// What can be read of a placement. Rows count from 1.
#[derive(Clone, Copy)]
pub enum Reading {
    Size,
    Box,
    Standing,
    Row(i64),
}

/// The layers over a narrower, the outermost first. Stars count from 1, and nobody has looked at their numbers yet.
#[derive(Clone, Copy)]
pub enum Layers {
    Plain,
    Star(i64),
    Rounds(usize),
    StarOfRounds(i64, usize),
    RoundsOfStar(usize, i64),
}

/// What to narrow by: layers over a row, or over a row and then another. Rows count from 1.
#[derive(Clone, Copy)]
pub struct Plan {
    pub layers: Layers,
    pub first: i64,
    pub second: Option<i64>,
}

/// A line that calls the placement. Rows count from 1.
#[derive(Clone, Copy)]
pub enum Call {
    Make,
    Narrow(Plan),
    Read(Reading),
}

/// A line that says something.
#[derive(Clone, Copy)]
pub enum Command {
    Describe(Description),
    Call(Call),
}

/// The command of a line; none where the line is empty or a comment.
pub fn parse<'a>(line: &'a str) -> Result<Option<Command>, Wrong<'a>> {
    let mut words = Words::new(line);
    let Some(first) = words.next() else {
        return Ok(None);
    };
    let command = match parse_call(first, &mut words)? {
        Some(call) => Command::Call(call),
        None => Command::Describe(parse_description(first, &mut words)?),
    };
    words.end()?;
    Ok(Some(command))
}

/// The call that starts with a word; none where no call does.
fn parse_call<'a>(first: &'a str, words: &mut Words<'a>) -> Result<Option<Call>, Wrong<'a>> {
    match first {
        "make" => Ok(Some(Call::Make)),
        "narrow" => Ok(Some(Call::Narrow(parse_plan(words)?))),
        "read" => Ok(Some(Call::Read(parse_reading(words)?))),
        _ => Ok(None),
    }
}

/// What stands after `narrow`.
fn parse_plan<'a>(words: &mut Words<'a>) -> Result<Plan, Wrong<'a>> {
    let (layers, word) = parse_layers(words)?;
    let first = parse_base(word, words)?;
    let second = parse_second(words)?;
    Ok(Plan {
        layers,
        first,
        second,
    })
}

/// The layers, and the word after them.
fn parse_layers<'a>(words: &mut Words<'a>) -> Result<(Layers, &'a str), Wrong<'a>> {
    match words.expect("what to narrow by")? {
        "star" => parse_below_star(words),
        "rounds" => parse_below_rounds(words),
        word => Ok((Layers::Plain, word)),
    }
}

/// The layers of which `star` is the outermost, and the word after them.
fn parse_below_star<'a>(words: &mut Words<'a>) -> Result<(Layers, &'a str), Wrong<'a>> {
    let star = words.number("the star's number")?;
    match words.expect("what to narrow by")? {
        "rounds" => {
            let rounds = parse_rounds(words)?;
            let word = words.expect("what to narrow by")?;
            Ok((Layers::StarOfRounds(star, rounds), word))
        }
        word => Ok((Layers::Star(star), word)),
    }
}

/// The layers of which `rounds` is the outermost, and the word after them.
// Beside the parser for `star`: the two read their numbers in other orders, and one with both as closures would be no shorter.
fn parse_below_rounds<'a>(words: &mut Words<'a>) -> Result<(Layers, &'a str), Wrong<'a>> {
    let rounds = parse_rounds(words)?;
    match words.expect("what to narrow by")? {
        "star" => {
            let star = words.number("the star's number")?;
            let word = words.expect("what to narrow by")?;
            Ok((Layers::RoundsOfStar(rounds, star), word))
        }
        word => Ok((Layers::Rounds(rounds), word)),
    }
}

/// What stands after `rounds`.
fn parse_rounds<'a>(words: &mut Words<'a>) -> Result<usize, Wrong<'a>> {
    let given = words.number("the number of rounds")?;
    usize::try_from(given).map_err(|_| Wrong::NegativeRounds(given))
}

/// The row of a narrower that starts with a word.
fn parse_base<'a>(first: &'a str, words: &mut Words<'a>) -> Result<i64, Wrong<'a>> {
    match first {
        "row" => words.number("the row's number"),
        "star" | "rounds" => Err(Wrong::MisplacedLayer(first)),
        word => Err(Wrong::UnknownNarrower(word)),
    }
}

/// The row after `then`, if there is one.
fn parse_second<'a>(words: &mut Words<'a>) -> Result<Option<i64>, Wrong<'a>> {
    match words.next() {
        None => Ok(None),
        Some("then") => {
            let word = words.expect("what to narrow by")?;
            Ok(Some(parse_base(word, words)?))
        }
        Some(word) => Err(Wrong::Extra(word)),
    }
}

/// What stands after `read`.
fn parse_reading<'a>(words: &mut Words<'a>) -> Result<Reading, Wrong<'a>> {
    match words.expect("what to read")? {
        "size" => Ok(Reading::Size),
        "box" => Ok(Reading::Box),
        "standing" => Ok(Reading::Standing),
        "row" => Ok(Reading::Row(words.number("the row's number")?)),
        word => Err(Wrong::UnknownReading(word)),
    }
}

/// The description that starts with a word.
fn parse_description<'a>(first: &'a str, words: &mut Words<'a>) -> Result<Description, Wrong<'a>> {
    match first {
        "size" => Ok(Description::Size(words.number("the size")?)),
        "span" => parse_span(words),
        "row" => Ok(Description::Row),
        "square" => {
            let i = words.number("the coordinate")?;
            Ok(Description::Square(i, words.coefficient()?))
        }
        "pair" => parse_pair(words),
        "single" => {
            let i = words.number("the coordinate")?;
            Ok(Description::Single(i, words.coefficient()?))
        }
        "at-least" => Ok(Description::AtLeast(words.number("the low end")?)),
        "at-most" => Ok(Description::AtMost(words.number("the high end")?)),
        word => Err(Wrong::UnknownLine(word)),
    }
}

/// What stands after `span`.
fn parse_span<'a>(words: &mut Words<'a>) -> Result<Description, Wrong<'a>> {
    let i = words.number("the coordinate")?;
    let low = words.number("the low end")?;
    let high = words.number("the high end")?;
    Ok(Description::Span(i, Span::new(low, high)))
}

/// What stands after `pair`.
fn parse_pair<'a>(words: &mut Words<'a>) -> Result<Description, Wrong<'a>> {
    let i = words.number("the first coordinate")?;
    let j = words.number("the second coordinate")?;
    Ok(Description::Pair(i, j, words.coefficient()?))
}

/// A number that counts from 1, as those of coordinates and rows do. None is below 1, so 0 stands for all of those.
// No Option: what takes such a number refuses 0 by itself, with the words for a coordinate, a row or a star that is not there.
pub fn ordinal(given: i64) -> usize
    ensures { result ≡ ordinal_of given }
{
    usize::try_from(given).unwrap_or(0)
}
