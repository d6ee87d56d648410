// What a step says.
use std::alloc::{AllocError, Global};
use value_codec::codec::Error;

/// The answer of a call.
#[derive(Drop)]
pub enum Said {
    Word(&'static str),
    Text(String),
    Number(u64),
    Signed(i32),
    Bytes(Vec<u8>),
    /// A seal or a hash.
    Digits(u32),
    /// The number at the start of bytes, and how many of them it takes.
    Leading(u64, usize),
    /// What was written of a value behind a byte, and its size; the value was read again.
    Spelled(Vec<u8>, u64),
}

/// Why a step has no answer.
#[derive(Drop)]
pub enum Stop {
    /// The library refused.
    Failed(Error),
    /// The scenario asks for what nobody may ask.
    Refused(&'static str),
}

impl From<Error> for Stop {
    fn from(error: Error) -> Self {
        Stop::Failed(error)
    }
}

impl From<AllocError> for Stop {
    fn from(error: AllocError) -> Self {
        Stop::Failed(Error::from(error))
    }
}

/// The text of an answer.
pub fn text_of(alloc: Global, answer: &Result<Said, Stop>) -> Result<String, AllocError> {
    match answer {
        Ok(Said::Word(word)) => String::from_str(alloc, *word),
        Ok(Said::Text(text)) => text.clone(),
        Ok(Said::Number(number)) => format!(in alloc; "{number}"),
        Ok(Said::Signed(number)) => format!(in alloc; "{number}"),
        Ok(Said::Bytes(bytes)) => digits(alloc, bytes),
        Ok(Said::Digits(number)) => format!(in alloc; "{number:08x}"),
        Ok(Said::Leading(number, len)) => format!(in alloc; "{number} {len}"),
        Ok(Said::Spelled(bytes, size)) => {
            let written = digits(alloc, bytes)?;
            format!(in alloc; "{written} {size} again")
        }
        Err(Stop::Failed(error)) => error_text(alloc, *error),
        Err(Stop::Refused(why)) => format!(in alloc; "refused: {why}"),
    }
}

/// Whether two values are equal.
pub fn compared<T: Eq>(first: &T, second: &T) -> Said {
    match (*first == *second, *first != *second) {
        (true, false) => Said::Word("equal"),
        (false, true) => Said::Word("different"),
        _ => Said::Word("a contradiction"),
    }
}

// The words by which a scenario names an error.
fn error_text(alloc: Global, error: Error) -> Result<String, AllocError> {
    match error {
        Error::EndOfBuffer => String::from_str(alloc, "codec end-of-buffer"),
        Error::ExtraBytes => String::from_str(alloc, "codec extra-bytes"),
        Error::TooLong => String::from_str(alloc, "codec too-long"),
        Error::InvalidVarint => String::from_str(alloc, "codec invalid-varint"),
        Error::InvalidEnum(tag) => format!(in alloc; "codec invalid-enum {tag}"),
        Error::Mem => String::from_str(alloc, "memory"),
    }
}

// Bytes in hexadecimal.
fn digits(alloc: Global, bytes: &Vec<u8>) -> Result<String, AllocError> {
    if bytes.is_empty() {
        return String::from_str(alloc, "-");
    }
    hex::encode(alloc, bytes.as_slice())
}
