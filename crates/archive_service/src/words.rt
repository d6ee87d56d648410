// The words of a line: where it is cut, and what a word says.
ghost use Rattle.std.specs.Prelude.{◌≡◌, ◌==◌, IfOk, IsTrue, ◌↔◌};
ghost use Rattle.std.specs.List.{position};
ghost use Rattle.std.specs.Option.{option_map};
ghost use Rattle.std.specs.Fmt.{decimal};
ghost use Rattle.hex.specs.Hex.{encode_lower};
ghost use Rattle.value_codec.specs.Keys.{key8_bytes};
ghost use Rattle.archive_service.specs.Script.{IsCount, IsIndex, IsKey, IsValue};
ghost use Rattle.archive_service.specs.Reading.{IsReading};
ghost use Rattle.archive_service.specs.Texts.{value_text};
ghost use Rattle.archive_service.specs.Words.{IsCut, IsDecimal, IsHexText, IsShortest, IsValueText};

use std::alloc::{AllocError, Global};
use value_codec::{ByteValue, Key, Key8};

/// The place of the first such byte.
fn place_of(text: &[u8], byte: u8) -> Option<usize>
    ensures { result ≡ position (λ b. b == byte) text.now }
{
    text.iter().position(|b| *b == byte)
}

/// The bytes before the first such byte, and those behind it.
pub(crate) fn cut(text: &[u8], byte: u8) -> Option<(&[u8], &[u8])>
    ensures { IsCut byte text.now (option_map (λ x. (x.0.now, x.1.now)) result) }
{
    match place_of(text, byte) {
        Some(at) => Some((&text[..at], &text[at + 1..])),
        None => None,
    }
}

fn is_shortest(word: &[u8]) -> bool
    ensures { IsTrue result ↔ IsShortest word.now }
{
    match word {
        [] => false,
        [first, ..] => *first != b'0' || word.len() == 1,
    }
}

fn is_decimal(word: &[u8]) -> bool
    ensures { IsTrue result ↔ IsDecimal word.now }
{
    is_shortest(word) && word.iter().all(|b| b.is_ascii_digit())
}

/// An index: a decimal number of 64 bits, in its shortest spelling.
pub fn index_of(word: &[u8]) -> Option<u64>
    ensures { IsReading IsIndex decimal word.now result }
{
    if !is_decimal(word) {
        return None;
    }
    match std::str::from_utf8(word) {
        Ok(digits) => digits.parse::<u64>().ok(),
        Err(_) => None,
    }
}

/// The most indices that one command asks for.
const COUNT_LIMIT: u64 = 1 << 16;

/// A number of indices: a decimal number up to [`COUNT_LIMIT`], in its shortest spelling.
pub(crate) fn count_of(word: &[u8]) -> Option<u32>
    ensures { IsReading IsCount decimal word.now result }
{
    let count = index_of(word)?;
    if count > COUNT_LIMIT {
        return None;
    }
    Some(count as u32)
}

fn is_hex_text(word: &[u8]) -> bool
    ensures { IsTrue result ↔ IsHexText word.now }
{
    word.len() % 2 == 0 && word.iter().all(|b| matches!(*b, b'0'..=b'9' | b'a'..=b'f'))
}

/// A key: sixteen lower-case hexadecimal digits.
pub(crate) fn key_of(word: &[u8]) -> Option<Key8>
    ensures { IsReading IsKey encode_lower word.now (option_map key8_bytes result) }
{
    if !is_hex_text(word) {
        return None;
    }
    let mut bytes = [0u8; 8];
    match hex::decode_to_slice(word, &mut bytes) {
        Ok(()) => Key8::from_bytes(&bytes),
        Err(_) => None,
    }
}

fn is_value_text(word: &[u8], max_value: u32) -> bool
    ensures { IsTrue result ↔ IsValueText max_value word.now }
{
    !word.is_empty() && word.len() / 2 <= max_value as usize && is_hex_text(word)
}

/// A value of at most `max_value` bytes: a dash for the empty one, or lower-case hexadecimal.
pub(crate) fn value_of(
    alloc: Global,
    word: &[u8],
    max_value: u32,
) -> Result<Option<ByteValue>, AllocError>
    ensures { IfOk result (IsReading (IsValue max_value) value_text word.now) }
{
    if word == b"-".as_slice() {
        return Ok(Some(copied(alloc, b"")?));
    }
    if !is_value_text(word, max_value) {
        return Ok(None);
    }
    match hex::decode(alloc, word) {
        Ok(bytes) => Ok(Some(copied(alloc, bytes.as_slice())?)),
        // The digits were tested, so that only memory can be wanting.
        Err(_) => Err(AllocError),
    }
}

// A value of these bytes.
pub(crate) fn copied(alloc: Global, bytes: &[u8]) -> Result<ByteValue, AllocError>
    ensures { IfOk result (λ value. value ≡ bytes.now) }
{
    ByteValue::new(alloc, bytes).map_err(|_| AllocError)
}
