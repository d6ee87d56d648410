// What a step says.
use blob_device::DevError;
use std::alloc::{AllocError, Global};

/// The answer of a step.
#[derive(Drop)]
pub enum Said {
    /// It is done.
    Done,
    Word(&'static str),
    Text(String),
    /// The scenario asks for what nobody may ask.
    Refused(&'static str),
}

/// The text of an answer.
pub fn text_of(alloc: Global, answer: &Result<Said, DevError>) -> Result<String, AllocError> {
    match answer {
        Ok(Said::Done) => String::from_str(alloc, "ok"),
        Ok(Said::Word(word)) => String::from_str(alloc, *word),
        Ok(Said::Text(text)) => text.clone(),
        Ok(Said::Refused(why)) => format!(in alloc; "refused: {why}"),
        Err(error) => format!(in alloc; "{error}"),
    }
}
