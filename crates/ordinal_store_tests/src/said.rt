// The texts of answers. Each is added to what is said so far.
use ordinal_store::{BitMap, RangeIter};
use std::alloc::AllocError;

/// Says that a record is not as it has to be.
pub fn tell_at(text: &mut String, error: &str, index: u64) -> Result<(), AllocError> {
    write!(text, "error {error} {index}")
}

/// Adds two digits for each byte.
pub fn add_hex(text: &mut String, bytes: &[u8]) -> Result<(), AllocError> {
    for byte in bytes {
        write!(text, "{byte:02x}")?;
    }
    Ok(())
}

/// Adds a number, behind a space where something stands before it; `none` where there is none.
pub fn add_number(text: &mut String, number: Option<u64>) -> Result<(), AllocError> {
    if !text.is_empty() {
        text.push(' ')?;
    }
    match number {
        Some(number) => write!(text, "{number}"),
        None => text.push_str("none"),
    }
}

/// Adds the end of a range and the start of the next one.
pub fn add_gap(text: &mut String, gap: (Option<u64>, Option<u64>)) -> Result<(), AllocError> {
    add_number(text, gap.0)?;
    add_number(text, gap.1)
}

/// Adds numbers, or `none` where there are none.
pub fn add_numbers(text: &mut String, numbers: &[u64]) -> Result<(), AllocError> {
    for number in numbers {
        add_number(text, Some(*number))?;
    }
    or_none(text)
}

/// Adds ranges, or `none` where there are none.
pub fn add_ranges(text: &mut String, ranges: RangeIter<'_>) -> Result<(), AllocError> {
    for range in ranges {
        add_range(text, range)?;
    }
    or_none(text)
}

/// Adds a range, behind a space where something stands before it.
pub fn add_range(text: &mut String, range: (u64, u64)) -> Result<(), AllocError> {
    add_number(text, Some(range.0))?;
    text.push_str("..")?;
    let end = range.1;
    write!(text, "{end}")
}

/// Says `none` where nothing is said.
pub fn or_none(text: &mut String) -> Result<(), AllocError> {
    if text.is_empty() {
        return text.push_str("none");
    }
    Ok(())
}

/// Adds a digit for each bit, and how many are set.
pub fn add_bits(text: &mut String, bits: &BitMap) -> Result<(), AllocError> {
    for i in 0..bits.len() {
        text.push(if bits.get(i) { '1' } else { '0' })?;
    }
    if text.is_empty() {
        text.push('-')?;
    }
    add_number(text, Some(bits.count_ones()))
}
