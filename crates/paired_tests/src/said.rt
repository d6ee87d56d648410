// What a command says.
use crate::notes::Note;
use scenario_errors::JournalWords;
use segments::journal::Error;
use std::alloc::{AllocError, Global};

/// The answer of a command.
#[derive(Drop)]
pub enum Said {
    /// It is done.
    Done,
    /// There is no such thing.
    Nothing,
    Truth(bool),
    Number(u64),
    Maybe(Option<u64>),
    /// The place and the size of a frame.
    Place(u64, u32),
    /// A record's position, and the place and the size of its value's frame.
    Position(u64, u64, u32),
    Record(Option<Note>),
    Bytes(Vec<u8>),
    Text(String),
    Items(Vec<Item>),
    /// The scenario asks for what nobody may ask.
    Refused(&'static str),
}

/// One of several answers.
#[derive(Drop)]
pub enum Item {
    Section(u64),
    /// A record's section, its position and its number.
    Record(u64, u64, u64),
    Failure(Error),
}

/// The text of an answer.
pub fn text_of(alloc: Global, answer: &Result<Said, Error>) -> Result<String, AllocError> {
    match answer {
        Ok(Said::Done) => String::from_str(alloc, "ok"),
        Ok(Said::Nothing) => String::from_str(alloc, "none"),
        Ok(Said::Maybe(None)) => String::from_str(alloc, "none"),
        Ok(Said::Record(None)) => String::from_str(alloc, "none"),
        Ok(Said::Truth(true)) => String::from_str(alloc, "yes"),
        Ok(Said::Truth(false)) => String::from_str(alloc, "no"),
        Ok(Said::Number(number)) => format!(in alloc; "{number}"),
        Ok(Said::Maybe(Some(number))) => format!(in alloc; "{number}"),
        Ok(Said::Place(offset, size)) => format!(in alloc; "{offset} {size}"),
        Ok(Said::Position(at, offset, size)) => format!(in alloc; "{at} {offset} {size}"),
        Ok(Said::Record(Some(note))) if note.tag != !note.number => {
            String::from_str(alloc, "a record with another tag")
        }
        Ok(Said::Record(Some(note))) => {
            format!(in alloc; "{} {} {}", note.number, note.offset, note.size)
        }
        Ok(Said::Bytes(bytes)) if bytes.is_empty() => String::from_str(alloc, "-"),
        Ok(Said::Bytes(bytes)) => hex::encode(alloc, bytes.as_slice()),
        Ok(Said::Text(text)) => String::from_str(alloc, text.as_str()),
        Ok(Said::Items(items)) => items_text(alloc, items.as_slice()),
        Ok(Said::Refused(why)) => format!(in alloc; "refused: {why}"),
        Err(error) => format!(in alloc; "error {}", JournalWords(error)),
    }
}

// Answers, one behind another.
fn items_text(alloc: Global, items: &[Item]) -> Result<String, AllocError> {
    let mut text = String::new(alloc);
    for item in items {
        if !text.is_empty() {
            text.push_str(", ")?;
        }
        match item {
            Item::Section(section) => write!(text, "{section}")?,
            Item::Record(section, at, number) => write!(text, "{section} {at} {number}")?,
            Item::Failure(error) => write!(text, "error {}", JournalWords(error))?,
        }
    }
    if text.is_empty() {
        text.push_str("none")?;
    }
    Ok(text)
}
