// Which indices a cache holds, and where their records are. No call here has a device.
ghost use Rattle.std.specs.Prelude.{◌≡◌, ◌≤◌, ℕ, false, OnErr, OnOk};
ghost use Rattle.std.specs.BTreeMap.{get};
ghost use Rattle.std.specs.Ordering.{nat_cmp};
ghost use Rattle.std.specs.Result.{IsErrOf};
ghost use Rattle.ordinal_store.specs.Indices.{GivesMissing, IsGap};
ghost use Rattle.ordinal_store.specs.Numbers.{IsLeast};
ghost use Rattle.cache_store.specs.Holding.{IsTied, forgotten, indices_of, members, noted, offsets_of};

use ordinal_store::{Numbers, RMap, RMapError};
use section_manager::journal::Error;
use std::alloc::Global;
use std::collections::BTreeMap;

/// The indices that are held, each with the offset of its record in its section.
#[derive(Drop)]
pub struct Held {
    // of each index, where the frame of its record begins
    offsets: BTreeMap<u64, u64>,
    // just these indices, as runs (`IsTied`)
    indices: RMap,
}

// Want of memory in the set of indices is want of memory here.
fn raised(_e: RMapError) -> Error
    ensures { result ≡ Error.Mem }
{
    Error::Mem
}

// Whether something is noted of the number.
pub(crate) fn is_noted(map: &BTreeMap<u64, u64>, number: u64) -> bool
    ensures { result ≡ members (get nat_cmp map.now) number }
{
    map.contains_key(&number)
}

// Notes a value of the number, in the place of what was noted.
pub(crate) fn note(map: &mut BTreeMap<u64, u64>, number: u64, value: u64) -> Result<(), Error>
    ensures noted { OnOk result ((i : ℕ)
        → get nat_cmp map.new i ≡ noted number value (get nat_cmp map.old) i) }
    ensures cause { OnErr result (IsErrOf result Error.Mem) }
{
    map.insert(number, value)?;
    Ok(())
}

// Keeps the entries from the bound on.
pub(crate) fn keep_from(map: &mut BTreeMap<u64, u64>, bound: u64)
    ensures { (i : ℕ) → get nat_cmp map.new i ≡ forgotten bound (get nat_cmp map.old) i }
{
    map.retain(|number, _| bound <= *number);
}

impl Held {
    /// None. It takes no memory.
    pub(crate) fn new(alloc: Global) -> Held
        ensures tied { IsTied result }
        ensures none { (i : ℕ) → members (offsets_of result) i ≡ false }
    {
        Held {
            offsets: BTreeMap::new(alloc),
            indices: RMap::new(alloc),
        }
    }

    /// Whether the index is held.
    pub(crate) fn has(&self, index: u64) -> bool
        ensures { result ≡ members (offsets_of self.now) index }
    {
        is_noted(&self.offsets, index)
    }

    /// Where its record begins.
    pub(crate) fn offset(&self, index: u64) -> Option<u64>
        ensures { result ≡ offsets_of self.now index }
    {
        self.offsets.get(&index).copied()
    }

    /// The end of the run of indices around the index, and the start of the first run above it.
    pub(crate) fn next_gap(&self, index: u64) -> (Option<u64>, Option<u64>)
        ensures { IsGap (indices_of self.now) index result }
    {
        self.indices.next_gap(index)
    }

    /// The first `max` indices from `start` on that are not held and have a held one above them, or
    /// all of these.
    pub(crate) fn missing_items(&self, start: u64, max: usize) -> Result<Numbers, Error>
        requires { 1 ≤ max }
        ensures { GivesMissing Error.Mem (indices_of self.now) start max result }
    {
        match self.indices.missing_items(start, max) {
            Ok(numbers) => Ok(numbers),
            Err(e) => Err(raised(e)),
        }
    }

    /// The least index.
    pub(crate) fn first(&self) -> Option<u64>
        ensures { IsLeast (indices_of self.now) result }
    {
        self.indices.first_index()
    }

    /// Holds an index at an offset.
    pub(crate) fn insert(&mut self, index: u64, offset: u64) -> Result<(), Error>
        requires tied { IsTied self.old }
        ensures tied { OnOk result (IsTied self.new) }
        ensures held { OnOk result ((i : ℕ)
            → offsets_of self.new i ≡ noted index offset (offsets_of self.old) i) }
        ensures cause { OnErr result (IsErrOf result Error.Mem) }
    {
        note(&mut self.offsets, index, offset)?;
        self.indices.insert(index).map_err(raised)?;
        Ok(())
    }

    /// Forgets the indices below the bound, which is at least 1. It takes no memory.
    pub(crate) fn forget_below(&mut self, bound: u64)
        requires tied { IsTied self.old }
        requires bound { 1 ≤ bound }
        ensures tied { IsTied self.new }
        ensures held { (i : ℕ) → offsets_of self.new i ≡ forgotten bound (offsets_of self.old) i }
    {
        // It does not fail: from the start no run is split.
        let _ = self.indices.remove(0, bound - 1);
        keep_from(&mut self.offsets, bound);
    }
}
