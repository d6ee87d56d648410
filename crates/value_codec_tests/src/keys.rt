// Keys, by the bound alone.
use crate::said::{Said, Stop};
use crate::words::bytes;
use scenario_text::Step;
use std::alloc::Global;
use value_codec::Key;

/// The bytes of the key that has these bytes.
pub fn key<K: Key>(alloc: Global, step: &Step) -> Result<Said, Stop> {
    match K::from_bytes(&bytes(alloc, step, 0)?) {
        Some(key) => Ok(Said::Bytes(key.as_bytes().to_vec(alloc)?)),
        None => Ok(Said::Word("none")),
    }
}

/// How two keys compare.
pub fn order<K: Key>(alloc: Global, step: &Step) -> Result<Said, Stop> {
    let first = K::from_bytes(&bytes(alloc, step, 0)?);
    let second = K::from_bytes(&bytes(alloc, step, 1)?);
    match (first, second) {
        (Some(first), Some(second)) => Ok(Said::Word(compared(first, second))),
        _ => Err(Stop::Refused("these are no keys")),
    }
}

/// Which of `<`, `==` and `!=` hold.
fn compared<K: Key>(first: K, second: K) -> &'static str {
    match (first < second, first == second, first != second) {
        (true, false, true) => "< !=",
        (false, true, false) => "==",
        (false, false, true) => "!=",
        _ => "a contradiction",
    }
}

/// How many bytes each key has.
pub fn key_size<K: Key>() -> Said {
    Said::Number(K::SIZE as u64)
}
