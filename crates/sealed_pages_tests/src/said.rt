// What a command says.
use blob_device::{DevError, RError};
use std::alloc::{AllocError, Global};

/// The answer of a command.
#[derive(Drop)]
pub enum Said {
    /// It is done.
    Done,
    /// There is no such thing.
    Nothing,
    Truth(bool),
    Number(u64),
    Bytes(Vec<u8>),
    /// The sealed prefix of pages, and the size at which they are adopted.
    Kept(Vec<u8>, u64),
}

/// Why a command was not carried out.
#[derive(Drop)]
pub enum Stop {
    /// The library refused.
    Failed(RError),
    /// The scenario asks for what nobody may ask.
    Refused(&'static str),
}

impl From<RError> for Stop {
    fn from(error: RError) -> Self {
        Stop::Failed(error)
    }
}

impl From<DevError> for Stop {
    fn from(error: DevError) -> Self {
        Stop::Failed(RError::from(error))
    }
}

impl From<AllocError> for Stop {
    fn from(_: AllocError) -> Self {
        Stop::Failed(RError::Mem)
    }
}

/// The text of an answer.
pub fn text_of(alloc: Global, answer: &Result<Said, Stop>) -> Result<String, AllocError> {
    match answer {
        Ok(Said::Done) => String::from_str(alloc, "ok"),
        Ok(Said::Nothing) => String::from_str(alloc, "none"),
        Ok(Said::Truth(true)) => String::from_str(alloc, "yes"),
        Ok(Said::Truth(false)) => String::from_str(alloc, "no"),
        Ok(Said::Number(number)) => format!(in alloc; "{number}"),
        Ok(Said::Bytes(bytes)) => digits(alloc, bytes),
        Ok(Said::Kept(bytes, size)) => {
            let prefix = digits(alloc, bytes)?;
            format!(in alloc; "{prefix}/{size}")
        }
        Err(Stop::Failed(error)) => error_text(alloc, *error),
        Err(Stop::Refused(why)) => format!(in alloc; "refused: {why}"),
    }
}

// The words by which a scenario names an error.
fn error_text(alloc: Global, error: RError) -> Result<String, AllocError> {
    match error {
        RError::Fault => String::from_str(alloc, "error runtime fault"),
        RError::InvalidChecksum(page) => {
            format!(in alloc; "error runtime invalid-checksum {page}")
        }
        RError::BlobInsufficientLength => {
            String::from_str(alloc, "error runtime insufficient-length")
        }
        RError::OffsetOverflow => String::from_str(alloc, "error runtime offset-overflow"),
        RError::Mem => String::from_str(alloc, "error memory"),
    }
}

// Bytes in hexadecimal.
fn digits(alloc: Global, bytes: &Vec<u8>) -> Result<String, AllocError> {
    if bytes.is_empty() {
        return String::from_str(alloc, "-");
    }
    hex::encode(alloc, bytes.as_slice())
}
