// Names and errors, as they are printed.
use crate::said::{Said, Stop, compared};
use crate::words::bytes;
use scenario_text::Step;
use std::alloc::Global;
use value_codec::HexName;
use value_codec::codec::Error;

/// The text of a name, its bytes, or whether it equals another one.
pub fn name(alloc: Global, step: &Step) -> Result<Said, Stop> {
    let name = HexName::new(alloc, &bytes(alloc, step, 0)?)?;
    match step.word() {
        "name" => Ok(Said::Text(format!(in alloc; "{name}")?)),
        "name-bytes" => Ok(Said::Bytes(name.as_bytes().to_vec(alloc)?)),
        _ => {
            let other = HexName::new(alloc, &bytes(alloc, step, 1)?)?;
            Ok(compared(&name, &other))
        }
    }
}

/// The text by which the library prints the error that a step names.
pub fn error(alloc: Global, step: &Step) -> Result<Said, Stop> {
    match error_of(step) {
        Some(error) => Ok(Said::Text(format!(in alloc; "{error}")?)),
        None => Err(Stop::Refused("no such error")),
    }
}

// The error that a step names.
fn error_of(step: &Step) -> Option<Error> {
    match (step.argument(0), step.argument(1).parse::<u8>()) {
        ("end-of-buffer", _) => Some(Error::EndOfBuffer),
        ("extra-bytes", _) => Some(Error::ExtraBytes),
        ("too-long", _) => Some(Error::TooLong),
        ("invalid-varint", _) => Some(Error::InvalidVarint),
        ("invalid-enum", Ok(tag)) => Some(Error::InvalidEnum(tag)),
        ("memory", _) => Some(Error::Mem),
        _ => None,
    }
}
