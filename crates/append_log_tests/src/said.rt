// What a step says.
use append_log::{Appended, LogError};
use blob_device::DevError;
use std::alloc::{AllocError, Global};

/// What a step says.
#[derive(Drop)]
pub enum Said {
    /// It is done.
    Done,
    /// An append ended so.
    Ended(Result<(), LogError>),
    /// Appends of many records ended so.
    Grown(Appended),
    Number(u64),
    /// The bytes of the log, where it is there.
    Log(Option<Vec<u8>>),
    /// What runs left.
    Runs(String),
    /// There is no such command.
    Refused,
}

/// The text of an answer.
pub fn text_of(alloc: Global, answer: &Result<Said, DevError>) -> Result<String, AllocError> {
    match answer {
        Ok(Said::Done) => String::from_str(alloc, "ok"),
        Ok(Said::Ended(end)) => ended(alloc, *end),
        Ok(Said::Grown(appended)) => grown(alloc, appended),
        Ok(Said::Number(number)) => format!(in alloc; "{number}"),
        Ok(Said::Log(Some(bytes))) => digits(alloc, bytes),
        Ok(Said::Log(None)) => String::from_str(alloc, "absent"),
        Ok(Said::Runs(text)) => text.clone(),
        Ok(Said::Refused) => String::from_str(alloc, "refused: no such command"),
        Err(error) => String::from_str(alloc, device_word(*error)),
    }
}

/// Bytes in hexadecimal, or `-`.
pub fn digits(alloc: Global, bytes: &[u8]) -> Result<String, AllocError> {
    if bytes.is_empty() {
        return String::from_str(alloc, "-");
    }
    hex::encode(alloc, bytes)
}

// How an append ended.
fn ended(alloc: Global, end: Result<(), LogError>) -> Result<String, AllocError> {
    let word = match end {
        Ok(()) => "ok",
        Err(LogError::Device(error)) => device_word(error),
        Err(LogError::Full) => "the log is full",
    };
    String::from_str(alloc, word)
}

// The words by which a scenario names an error of the device.
fn device_word(error: DevError) -> &'static str {
    match error {
        DevError::Fault => "runtime fault",
        DevError::Mem => "memory",
    }
}

// How appends ended, and the marks of those that began.
fn grown(alloc: Global, appended: &Appended) -> Result<String, AllocError> {
    let mut text = ended(alloc, appended.result)?;
    for mark in &appended.marks {
        write!(&mut text, " {mark}")?;
    }
    Ok(text)
}
