// What a command says.
use scenario_errors::JournalWords;
use segments::journal::Error;
use std::alloc::{AllocError, Global};
use value_codec::HexName;

/// The answer of a command.
#[derive(Drop)]
pub enum Said {
    /// It is done.
    Done,
    Truth(bool),
    Number(u64),
    /// A number, where there is one.
    Maybe(Option<u64>),
    Text(&'static str),
    /// Several parts. One for which there was no memory is missing.
    Row(Vec<Part>),
}

/// A part of a longer answer.
#[derive(Drop)]
pub enum Part {
    Text(&'static str),
    Number(u64),
    Bytes(HexName),
    /// A section, and the last item below its marker, where there is one.
    Bound(u64, Option<u64>),
    /// A section, a position, and the item there.
    Item(u64, u64, u64),
    /// An error that a replay gave.
    Given(Error),
    /// Why a replay gave no journal back.
    Refused(Error),
}

/// The text of an answer.
pub fn text_of(alloc: Global, answer: &Result<Said, Error>) -> Result<String, AllocError> {
    match answer {
        Ok(Said::Done) => String::from_str(alloc, "ok"),
        Ok(Said::Truth(truth)) => format!(in alloc; "{truth}"),
        Ok(Said::Number(number)) => format!(in alloc; "{number}"),
        Ok(Said::Maybe(Some(number))) => format!(in alloc; "{number}"),
        Ok(Said::Maybe(None)) => String::from_str(alloc, "none"),
        Ok(Said::Text(text)) => String::from_str(alloc, text),
        Ok(Said::Row(row)) => row_text(alloc, row.as_slice()),
        Err(error) => format!(in alloc; "{}", JournalWords(error)),
    }
}

// The text of several parts, with a space between two.
fn row_text(alloc: Global, row: &[Part]) -> Result<String, AllocError> {
    let mut text = String::new(alloc);
    for part in row {
        if !text.is_empty() {
            text.push(' ')?;
        }
        let written = match part {
            Part::Text(word) => write!(text, "{word}"),
            Part::Number(number) => write!(text, "{number}"),
            Part::Bytes(bytes) => write!(text, "{bytes}"),
            Part::Bound(section, Some(item)) => write!(text, "{section}:{item}"),
            Part::Bound(section, None) => write!(text, "{section}:none"),
            Part::Item(section, position, item) => write!(text, "{section}:{position}:{item}"),
            Part::Given(error) => write!(text, "[{}]", JournalWords(error)),
            Part::Refused(error) => write!(text, "{}", JournalWords(error)),
        };
        written?;
    }
    Ok(text)
}
