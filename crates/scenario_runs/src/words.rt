// The words of a step.
ghost use Rattle.std.specs.Prelude.{◌≤◌};

use scenario_text::Step;
use sealed_pages::Pages;
use segments::journal::Error;
use std::alloc::Global;
use value_codec::ByteValue;

/// What the words of a step spell that takes memory. It is read before anything is done.
#[derive(Drop)]
pub struct Told {
    /// Its numbers, in their order.
    pub numbers: Vec<u64>,
}

/// Reads the words.
pub fn read_words(alloc: Global, step: &Step) -> Result<Told, Error> {
    let mut numbers = Vec::new(alloc);
    for word in step.rest() {
        if let Ok(number) = word.as_str().parse::<u64>() {
            numbers.push(number)?;
        }
    }
    Ok(Told { numbers })
}

/// The number at this place behind the first word; 0 where none stands there.
pub fn number(step: &Step, at: usize) -> u64 {
    step.number(at).unwrap_or(0)
}

/// The value at this place: its bytes, or `-` for none, or `COUNT*BYTE` for so many times a byte.
pub fn value(alloc: Global, step: &Step, at: usize) -> Result<ByteValue, Error> {
    if let Some((count, byte)) = step.argument(at).split_once('*') {
        let count = count.parse::<u32>().unwrap_or(0);
        let byte = byte.parse::<u8>().unwrap_or(0);
        let bytes = vec![in alloc; byte; count as usize]?;
        return Ok(ByteValue::new(alloc, bytes.as_slice())?);
    }
    let bytes = match step.bytes(alloc, at)? {
        Some(bytes) => bytes,
        None => Vec::new(alloc),
    };
    Ok(ByteValue::new(alloc, bytes.as_slice())?)
}

/// The greatest length of a value, at this place behind the first word; 100 where none stands there.
pub fn most(step: &Step, at: usize) -> u32 {
    u32::try_from(step.number(at).unwrap_or(100)).unwrap_or(100)
}

/// Pages of so many bytes as the word at this place behind the first one says, and at least one. Behind
/// a `/` it may say how many pages a buffer holds.
pub fn pages(step: &Step, at: usize) -> Pages
    ensures { 1 ≤ result.page_size }
{
    let word = step.argument(at);
    let (size, held) = word.split_once('/').unwrap_or((word, "0"));
    let page_size = size.parse::<u16>().unwrap_or(16);
    Pages {
        page_size: page_size.max(1),
        cache_pages: held.parse::<u32>().unwrap_or(0),
    }
}
