// The words of a step.
use crate::said::Stop;
use scenario_text::Step;
use std::alloc::Global;

/// The number at this place behind the first word.
pub fn number(step: &Step, at: usize) -> Result<u64, Stop> {
    step.number(at).ok_or(Stop::Refused("this is no number"))
}

/// The bytes at this place behind the first word.
pub fn bytes(alloc: Global, step: &Step, at: usize) -> Result<Vec<u8>, Stop> {
    match step.bytes(alloc, at)? {
        Some(bytes) => Ok(bytes),
        None => Err(Stop::Refused("these are no bytes")),
    }
}
