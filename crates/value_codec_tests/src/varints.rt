// Varints of 32 and of 64 bits.
use crate::said::{Said, Stop};
use crate::words::{bytes, number};
use scenario_text::Step;
use std::alloc::Global;
use value_codec::{read_varint32, read_varint64, write_varint32, write_varint64};

/// Writes the varint of a number behind bytes.
pub fn written(alloc: Global, step: &Step) -> Result<Said, Stop> {
    let number = number(step, 1)?;
    let mut out = bytes(alloc, step, 0)?;
    match (step.word(), u32::try_from(number)) {
        ("write-varint64", _) => write_varint64(number, &mut out)?,
        (_, Ok(small)) => write_varint32(small, &mut out)?,
        (_, Err(_)) => return Err(Stop::Refused("the number has more than 32 bits")),
    }
    Ok(Said::Bytes(out))
}

/// Reads the number at the start of bytes.
pub fn read(alloc: Global, step: &Step) -> Result<Said, Stop> {
    let bytes = bytes(alloc, step, 0)?;
    if step.word() == "read-varint64" {
        let (number, len) = read_varint64(&bytes)?;
        return Ok(Said::Leading(number, len));
    }
    let (number, len) = read_varint32(&bytes)?;
    Ok(Said::Leading(u64::from(number), len))
}
