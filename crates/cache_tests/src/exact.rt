// A plain reading of which indices are held, and what a cache has to say of them.
ghost use Rattle.std.specs.Prelude.{◌≤◌};

use crate::caches::Bytes;
use segments::journal::Error;

/// What differs between what a cache says of indices and what these held ones say, which ascend and
/// are all that are held.
pub fn differing(cache: &Bytes, held: &[u64], end: u64) -> Result<Option<&'static str>, Error> {
    if cache.first() != held.first().copied() {
        return Ok(Some("first is WRONG"));
    }
    for index in 0..end {
        if cache.has(index) != is_held(held, index) {
            return Ok(Some("has is WRONG"));
        }
        if cache.next_gap(index) != gap_of(held, index) {
            return Ok(Some("gap is WRONG"));
        }
    }
    for start in 0..end {
        for fewer in 0..end {
            if !misses(cache, held, start, fewer as usize + 1)? {
                return Ok(Some("missing is WRONG"));
            }
        }
    }
    Ok(None)
}

// Whether the index is held.
fn is_held(held: &[u64], index: u64) -> bool {
    for number in held {
        if *number == index {
            return true;
        }
    }
    false
}

// Where the run around the index ends, and where the first run above it begins.
fn gap_of(held: &[u64], index: u64) -> (Option<u64>, Option<u64>) {
    let mut end = None;
    let mut last = index;
    for number in held {
        if *number < index {
            continue;
        }
        if *number == last {
            end = Some(last);
            last = last.saturating_add(1);
        } else {
            return (end, Some(*number));
        }
    }
    (end, None)
}

// Whether the cache gives the first absent indices from the start on that have a held one above.
fn misses(cache: &Bytes, held: &[u64], start: u64, most: usize) -> Result<bool, Error>
    requires { 1 ≤ most }
{
    let numbers = cache.missing_items(start, most)?;
    let given = numbers.as_slice();
    let mut at = 0;
    for index in start..held.last().copied().unwrap_or(0) {
        if at < most && !is_held(held, index) {
            if given.get(at).copied() != Some(index) {
                return Ok(false);
            }
            at += 1;
        }
    }
    Ok(given.len() == at)
}
