// The range set beside the plain one.
ghost use Rattle.std.specs.Prelude.{◌≤◌};

use crate::change::{Change, make};
use ordinal_store::plain::PlainSet;
use ordinal_store::{RMap, RMapError, RangeIter};
use std::alloc::Global;

/// The numbers of the further changes: the first five and the last three.
const NUMBERS: [u64; 8] = [0, 1, 2, 3, 4, u64::MAX - 2, u64::MAX - 1, u64::MAX];

/// The numbers to ask about: those, and the ones beside them.
const PROBES: [u64; 12] = [
    0,
    1,
    2,
    3,
    4,
    5,
    6,
    u64::MAX - 4,
    u64::MAX - 3,
    u64::MAX - 2,
    u64::MAX - 1,
    u64::MAX,
];

/// A range set, and a plain set that is given the same changes.
#[derive(Drop)]
struct Both {
    // The set that is tried.
    ranges: RMap,
    // The set that is right: each change goes to both.
    plain: PlainSet,
}

/// Whether the ranges are these runs.
fn are_same(ranges: RangeIter<'_>, runs: &[(u64, u64)]) -> bool {
    let mut count = 0_usize;
    for range in ranges {
        match runs.get(count) {
            Some(run) if *run == range => count = count.saturating_add(1),
            _ => return false,
        }
    }
    count == runs.len()
}

impl Both {
    /// Makes a change to both.
    fn make(&mut self, change: Change) -> Result<(), RMapError> {
        make(&mut self.ranges, change)?;
        match change {
            Change::Put(number) => self.plain.insert(number),
            Change::Take(start, end) => self.plain.remove(start, end),
        }
    }

    /// Makes changes to both, one after another.
    fn make_all(&mut self, changes: &[Change]) -> Result<(), RMapError> {
        for change in changes {
            self.make(*change)?;
        }
        Ok(())
    }

    /// Whether both have the same ranges.
    fn has_same_ranges(&self) -> Result<bool, RMapError> {
        let runs = self.plain.runs_from(0)?;
        Ok(are_same(self.ranges.iter(), runs.as_slice()))
    }

    /// Whether both have the same ranges that end at `number` or later.
    fn has_same_ranges_from(&self, number: u64) -> Result<bool, RMapError> {
        let runs = self.plain.runs_from(number)?;
        Ok(are_same(self.ranges.iter_from(number), runs.as_slice()))
    }

    /// Whether both have the same first `max` missing numbers from `number` on.
    fn misses_same(&self, number: u64, max: usize) -> Result<bool, RMapError>
        requires { 1 ≤ max }
    {
        let missing = self.ranges.missing_items(number, max)?;
        Ok(missing.as_slice() == self.plain.missing(number, max)?.as_slice())
    }

    /// Whether both have the same ends.
    fn has_same_ends(&self) -> bool {
        self.ranges.first_index() == self.plain.first()
            && self.ranges.last_index() == self.plain.last()
    }

    /// Whether both have the same run and the same gap at `number`.
    fn has_same_gap(&self, number: u64) -> bool {
        self.ranges.get(number) == self.plain.get(number)
            && self.ranges.next_gap(number) == self.plain.next_gap(number)
    }

    /// Whether both answer alike about `number`.
    fn is_alike_at(&self, number: u64) -> Result<bool, RMapError> {
        Ok(
            self.has_same_ends()
                && self.has_same_gap(number)
                && self.misses_same(number, 1)?
                && self.misses_same(number, 3)?
                && self.has_same_ranges_from(number)?,
        )
    }
}

/// Both sets behind these changes.
fn both_after(alloc: Global, changes: &[Change]) -> Result<Both, RMapError> {
    let mut both = Both {
        ranges: RMap::new(alloc),
        plain: PlainSet::new(alloc),
    };
    both.make_all(changes)?;
    Ok(both)
}

/// Tells each number that is asked about of which both do not answer alike.
fn tell_numbers(both: &Both, text: &mut String) -> Result<(), RMapError> {
    for number in PROBES {
        if !both.is_alike_at(number)? {
            write!(text, "differ at {number} ")?;
        }
    }
    Ok(())
}

/// Whether both have the same ranges behind these changes and the next one.
fn leave_same(alloc: Global, changes: &[Change], next: Change) -> Result<bool, RMapError> {
    let mut both = both_after(alloc, changes)?;
    both.make(next)?;
    both.has_same_ranges()
}

/// Tells the next change where both do not have the same ranges behind it.
fn tell_change(
    alloc: Global,
    changes: &[Change],
    next: Change,
    text: &mut String,
) -> Result<(), RMapError> {
    if leave_same(alloc, changes, next)? {
        return Ok(());
    }
    let (start, end) = match next {
        Change::Put(number) => (number, number),
        Change::Take(start, end) => (start, end),
    };
    Ok(write!(text, "differ after a change of {start}..{end} ")?)
}

/// Tells where both differ behind these changes.
fn tell_both(alloc: Global, changes: &[Change], text: &mut String) -> Result<(), RMapError> {
    let both = both_after(alloc, changes)?;
    tell_numbers(&both, text)
}

/// Tells where the sets differ behind these changes, or behind a further one; `ok` where nowhere.
pub fn tell_difference(
    alloc: Global,
    changes: &[Change],
    text: &mut String,
) -> Result<(), RMapError> {
    tell_both(alloc, changes, text)?;
    for start in NUMBERS {
        tell_change(alloc, changes, Change::Put(start), text)?;
        for end in NUMBERS {
            tell_change(alloc, changes, Change::Take(start, end), text)?;
        }
    }
    if text.is_empty() {
        text.push_str("ok")?;
    }
    Ok(())
}
