// What a command says.
use scenario_errors::JournalWords;
use segments::journal::Error;
use std::alloc::{AllocError, Global};
use value_codec::HexName;

/// What an answer ends with that is wrong whatever the device does.
pub const WRONG: &str = "WRONG";

/// From how many bytes on one that is repeated is said once.
const LONG: usize = 32;

/// Bytes, as a step writes them.
#[derive(Drop)]
pub enum Sequence {
    Bytes(HexName),
    /// So many times a byte.
    Times(usize, u8),
}

/// The answer of a command.
#[derive(Drop)]
pub enum Said {
    /// It is done.
    Done,
    Truth(bool),
    Number(u64),
    /// A number, where there is one.
    Maybe(Option<u64>),
    /// Bytes, where there are some to tell.
    Bytes(Option<Sequence>),
    Text(&'static str),
    /// Several parts.
    Row(Vec<Part>),
}

/// A part of a longer answer.
#[derive(Drop)]
pub enum Part {
    Text(&'static str),
    Number(u64),
    /// A number, where there is one.
    Maybe(Option<u64>),
    Bytes(Sequence),
    /// An offset, and a length.
    Place(u64, u32),
    /// A section, an offset, and the item there.
    Item(u64, u64, Sequence),
    /// An index, and the value there.
    Entry(u64, Sequence),
    /// An error that a replay gave.
    Given(Error),
    /// Why a replay gave no journal back.
    Refused(Error),
}

/// The bytes, as a step writes them.
pub fn spelled(alloc: Global, bytes: &[u8]) -> Result<Sequence, Error> {
    if bytes.len() >= LONG {
        if let Some(byte) = repeated(bytes) {
            return Ok(Sequence::Times(bytes.len(), byte));
        }
    }
    Ok(Sequence::Bytes(HexName::new(alloc, bytes)?))
}

// The byte that all of these are, if they are one.
fn repeated(bytes: &[u8]) -> Option<u8> {
    let first = *bytes.first()?;
    for byte in bytes {
        if *byte != first {
            return None;
        }
    }
    Some(first)
}

/// The text of an answer.
pub fn text_of(alloc: Global, answer: &Result<Said, Error>) -> Result<String, AllocError> {
    match answer {
        Ok(Said::Done) => String::from_str(alloc, "ok"),
        Ok(Said::Truth(truth)) => format!(in alloc; "{truth}"),
        Ok(Said::Number(number)) => format!(in alloc; "{number}"),
        Ok(Said::Maybe(Some(number))) => format!(in alloc; "{number}"),
        Ok(Said::Bytes(Some(bytes))) => shown(alloc, bytes),
        Ok(Said::Maybe(None) | Said::Bytes(None)) => String::from_str(alloc, "none"),
        Ok(Said::Text(text)) => String::from_str(alloc, text),
        Ok(Said::Row(row)) => row_text(alloc, row.as_slice()),
        Err(error) => format!(in alloc; "{}", JournalWords(error)),
    }
}

// Bytes as a step writes them: `-` where there are none.
fn shown(alloc: Global, bytes: &Sequence) -> Result<String, AllocError> {
    let text = match bytes {
        Sequence::Bytes(bytes) => format!(in alloc; "{bytes}")?,
        Sequence::Times(count, byte) => format!(in alloc; "{count}*{byte}")?,
    };
    if text.is_empty() {
        return String::from_str(alloc, "-");
    }
    Ok(text)
}

// The text of several parts, with a space between two.
fn row_text(alloc: Global, row: &[Part]) -> Result<String, AllocError> {
    if row.is_empty() {
        return String::from_str(alloc, "none");
    }
    let mut text = String::new(alloc);
    for part in row {
        if !text.is_empty() {
            text.push(' ')?;
        }
        let part = part_text(alloc, part)?;
        text.push_str(part.as_str())?;
    }
    Ok(text)
}

// The text of a part.
fn part_text(alloc: Global, part: &Part) -> Result<String, AllocError> {
    match part {
        Part::Text(word) => String::from_str(alloc, word),
        Part::Number(number) => format!(in alloc; "{number}"),
        Part::Maybe(Some(number)) => format!(in alloc; "{number}"),
        Part::Maybe(None) => String::from_str(alloc, "none"),
        Part::Bytes(bytes) => shown(alloc, bytes),
        Part::Place(offset, size) => format!(in alloc; "{offset}:{size}"),
        Part::Item(section, offset, item) => {
            let item = shown(alloc, item)?;
            format!(in alloc; "{section}:{offset}:{item}")
        }
        Part::Entry(index, value) => {
            let value = shown(alloc, value)?;
            format!(in alloc; "{index}={value}")
        }
        Part::Given(error) => format!(in alloc; "[{}]", JournalWords(error)),
        Part::Refused(error) => format!(in alloc; "{}", JournalWords(error)),
    }
}
