// What an opening is asked to keep, as the library takes it.
use crate::plainly::Slots;
use ordinal_store::BitMap;
use ordinal_store::plain_section::is_wanted;
use std::alloc::{AllocError, Global};
use std::collections::BTreeMap;

/// The sections of which something is kept: all slots, or those whose bit is set.
pub type Marks = BTreeMap<u64, Option<BitMap>>;

/// Whether the slot of this index is wanted. Without marks none is.
pub fn wants(marks: &Option<Marks>, items: u64, index: u64) -> bool {
    let Some(marks) = marks else {
        return false;
    };
    let section = index.checked_div(items).unwrap_or(0);
    let position = index.checked_rem(items).unwrap_or(0);
    match marks.get(&section) {
        None => false,
        Some(bits) => is_wanted(items, bits, position),
    }
}

/// So many bits, none of them set.
pub fn unset(alloc: Global, len: u64) -> Result<BitMap, AllocError> {
    match BitMap::zeroes(alloc, len) {
        Ok(bits) => Ok(bits),
        Err(_) => Err(AllocError),
    }
}

// The bits that digits spell.
fn bits_in(alloc: Global, digits: &[u8]) -> Result<BitMap, AllocError> {
    let mut bits = unset(alloc, digits.len() as u64)?;
    set_where(&mut bits, digits);
    Ok(bits)
}

// Sets the bits at which a digit is 1.
fn set_where(bits: &mut BitMap, digits: &[u8]) {
    for (position, digit) in digits.iter().enumerate() {
        let position = position as u64;
        if position < bits.len() {
            bits.set(position, *digit == b'1');
        }
    }
}

// What is kept of a section.
fn mark_in(alloc: Global, digits: &str) -> Result<Option<BitMap>, AllocError> {
    if digits == "full" {
        return Ok(None);
    }
    Ok(Some(bits_in(alloc, digits.as_bytes())?))
}

// Whether each is a digit of a bit.
fn are_bits(digits: &[u8]) -> bool {
    for digit in digits {
        if *digit != b'0' && *digit != b'1' {
            return false;
        }
    }
    true
}

/// Whether a word spells what is kept of a section: `SECTION:full`, or `SECTION:` and a digit for each bit.
pub fn is_mark(word: &str) -> bool {
    match word.split_once(":") {
        Some((section, digits)) => section.parse::<u64>().is_ok() && is_kept(digits),
        None => false,
    }
}

// Whether this spells what is kept: `full`, or a digit for each bit.
fn is_kept(digits: &str) -> bool {
    digits == "full" || are_bits(digits.as_bytes())
}

/// The marks that words spell, each `SECTION:full`, or `SECTION:` and a digit for each bit.
pub fn marks_in(alloc: Global, words: &[String]) -> Result<Marks, AllocError> {
    let mut marks = BTreeMap::new(alloc);
    for word in words {
        add_mark(alloc, &mut marks, word.as_str())?;
    }
    Ok(marks)
}

// Adds what a word spells.
fn add_mark(alloc: Global, marks: &mut Marks, word: &str) -> Result<(), AllocError> {
    let (section, digits) = word.split_once(":").unwrap_or(("", ""));
    let bits = mark_in(alloc, digits)?;
    marks.insert(section.parse::<u64>().unwrap_or(0), bits)?;
    Ok(())
}

/// Marks that want just these slots, at so many a section.
pub fn marks_of(alloc: Global, slots: &Slots, items: u64) -> Result<Marks, AllocError> {
    let mut marks = BTreeMap::new(alloc);
    for (index, _) in slots.iter() {
        mark_held(alloc, &mut marks, slots, *index, items)?;
    }
    Ok(marks)
}

// Marks the slots that there are in the section of an index.
fn mark_held(
    alloc: Global,
    marks: &mut Marks,
    slots: &Slots,
    index: u64,
    items: u64,
) -> Result<(), AllocError> {
    let position = index.checked_rem(items).unwrap_or(0);
    let bits = held_bits(alloc, slots, index.saturating_sub(position), items)?;
    marks.insert(index.checked_div(items).unwrap_or(0), Some(bits))?;
    Ok(())
}

// The bits of the slots that there are, in the section with this first index.
fn held_bits(alloc: Global, slots: &Slots, first: u64, items: u64) -> Result<BitMap, AllocError> {
    let mut bits = unset(alloc, items)?;
    set_held(&mut bits, slots, first);
    Ok(bits)
}

// Sets the bits of these slots.
fn set_held(bits: &mut BitMap, slots: &Slots, first: u64) {
    for position in 0..bits.len() {
        let is_held = slots.contains_key(&first.saturating_add(position));
        if position < bits.len() {
            bits.set(position, is_held);
        }
    }
}
