// Changes of a set.
use ordinal_store::{RMap, RMapError};
use std::alloc::{AllocError, Global};

/// A call that changes a set.
#[derive(Clone, Copy)]
pub enum Change {
    Put(u64),
    /// Takes the numbers from the first to the second.
    Take(u64, u64),
}

/// The change that a word spells: `+N` or `-N..M`.
fn change_of(word: &str) -> Option<Change> {
    if let Some(number) = word.strip_prefix('+') {
        return Some(Change::Put(number.parse::<u64>().ok()?));
    }
    let (start, end) = word.strip_prefix('-')?.split_once("..")?;
    Some(Change::Take(start.parse::<u64>().ok()?, end.parse::<u64>().ok()?))
}

/// Whether a word spells a change.
pub fn is_change(word: &str) -> bool {
    change_of(word).is_some()
}

/// The changes that the words spell, up to one that spells none.
pub fn changes_of(alloc: Global, words: &[String]) -> Result<Vec<Change>, AllocError> {
    let mut changes = Vec::new(alloc);
    for word in words {
        match change_of(word.as_str()) {
            Some(change) => changes.push(change)?,
            None => return Ok(changes),
        }
    }
    Ok(changes)
}

// Makes a change, unless there is no memory for it.
fn made(set: &mut RMap, change: Change) -> Result<(), RMapError> {
    match change {
        Change::Put(number) => set.insert(number),
        Change::Take(start, end) => set.remove(start, end),
    }
}

/// Makes a change.
pub fn make(set: &mut RMap, change: Change) -> Result<(), AllocError> {
    match made(set, change) {
        Ok(()) => Ok(()),
        Err(RMapError::Mem) => Err(AllocError),
    }
}

/// Makes changes, one after another.
pub fn make_all(set: &mut RMap, changes: &[Change]) -> Result<(), AllocError> {
    for change in changes {
        make(set, *change)?;
    }
    Ok(())
}
