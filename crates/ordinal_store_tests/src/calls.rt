// The commands over a range set. Each adds what it says to a text.
use crate::alike::tell_difference;
use crate::asked::unset;
use crate::change::{Change, changes_of, make_all};
use crate::said::{add_bits, add_gap, add_number, add_numbers, add_range, add_ranges, or_none};
use crate::words::{MISSPELT, is_spelt, number};
use ordinal_store::{BitMap, RMap, RMapError};
use scenario_text::Step;
use std::alloc::{AllocError, Global};

/// Carries out a step.
pub fn obey(
    alloc: Global,
    set: &mut RMap,
    step: &Step,
    text: &mut String,
) -> Result<(), AllocError> {
    if !is_spelt(step) {
        return text.push_str(MISSPELT);
    }
    match step.word() {
        "change" | "same" | "alike" => change(alloc, set, step, text),
        "bits" => tell_bits(alloc, step, text),
        _ => ask(set, step, text),
    }
}

// Carries out a step that is given changes.
fn change(alloc: Global, set: &mut RMap, step: &Step, text: &mut String) -> Result<(), AllocError> {
    let changes = changes_of(alloc, step.rest())?;
    match step.word() {
        "alike" => tell_alike(alloc, changes.as_slice(), text),
        "same" => tell_same(alloc, set, changes.as_slice(), text),
        _ => make_told(set, changes.as_slice(), text),
    }
}

// Tells where the set and the plain one differ.
fn tell_alike(alloc: Global, changes: &[Change], text: &mut String) -> Result<(), AllocError> {
    match tell_difference(alloc, changes, text) {
        Ok(()) => Ok(()),
        Err(RMapError::Mem) => Err(AllocError),
    }
}

// Makes the changes, and tells that.
fn make_told(set: &mut RMap, changes: &[Change], text: &mut String) -> Result<(), AllocError> {
    make_all(set, changes)?;
    text.push_str("ok")
}

// Tells whether the set is the one that changes make.
fn tell_same(
    alloc: Global,
    set: &RMap,
    changes: &[Change],
    text: &mut String,
) -> Result<(), AllocError> {
    let mut other = RMap::new(alloc);
    make_all(&mut other, changes)?;
    let said = if *set == other { "yes" } else { "no" };
    text.push_str(said)
}

// Asks the set.
fn ask(set: &RMap, step: &Step, text: &mut String) -> Result<(), AllocError> {
    let at = number(step, 0);
    match step.word() {
        "ranges" if step.rest().is_empty() => add_ranges(text, set.iter()),
        "ranges" => add_ranges(text, set.iter_from(at)),
        "get" => {
            if let Some(range) = set.get(at) {
                add_range(text, range)?;
            }
            or_none(text)
        }
        "next-gap" => add_gap(text, set.next_gap(at)),
        "first" => add_number(text, set.first_index()),
        "last" => add_number(text, set.last_index()),
        "missing" => match set.missing_items(at, (number(step, 1) as usize).max(1)) {
            Ok(numbers) => add_numbers(text, numbers.as_slice()),
            Err(RMapError::Mem) => Err(AllocError),
        },
        "error" => {
            let error = RMapError::Mem;
            write!(text, "{error}")
        }
        _ => text.push_str("refused: no such command"),
    }
}

// Sets and clears bits.
fn set_all(bits: &mut BitMap, changes: &[Change]) {
    for change in changes {
        let (at, bit) = match *change {
            Change::Put(at) => (at, true),
            Change::Take(at, _) => (at, false),
        };
        if at < bits.len() {
            bits.set(at, bit);
        }
    }
}

// Tells the bits of a list after changes.
fn tell_bits(alloc: Global, step: &Step, text: &mut String) -> Result<(), AllocError> {
    let words = step.rest().get(1..).unwrap_or(&[]);
    let changes = changes_of(alloc, words)?;
    let mut bits = unset(alloc, number(step, 0))?;
    set_all(&mut bits, changes.as_slice());
    add_bits(text, &bits)
}
