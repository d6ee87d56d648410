// Seals and hashes, by the bounds alone.
use crate::said::{Said, Stop};
use crate::words::bytes;
use scenario_text::Step;
use std::alloc::Global;
use value_codec::{Hash32, Seal};

/// The seal of bytes, or of two parts.
pub fn seal<S: Seal>(alloc: Global, step: &Step) -> Result<Said, Stop> {
    let first = bytes(alloc, step, 0)?;
    let seal = match step.word() {
        "seal2" => S::seal2(&first, &bytes(alloc, step, 1)?),
        _ => S::seal(&first),
    };
    Ok(Said::Digits(seal))
}

/// The hash of bytes.
pub fn hash<H: Hash32>(alloc: Global, step: &Step) -> Result<Said, Stop> {
    Ok(Said::Digits(H::hash(&bytes(alloc, step, 0)?)))
}
