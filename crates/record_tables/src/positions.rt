// The positions of a section's records by their offset: their index less the section's first.
ghost use Rattle.std.specs.Prelude.{◌≡◌, ◌≢◌, ◌<◌, ◌≤◌, ◌^◌, ◌++◌, ℕ, [], ◌∷◌, None, OnOk, length, slice_get, slice_set};
ghost use Rattle.std.specs.BTreeMap.{get};
ghost use Rattle.std.specs.Ordering.{nat_cmp};
ghost use Rattle.record_tables.specs.Firsts.{HasSpareFurther, HaveFirsts, first_in, first_of, further_of};

use std::alloc::{AllocError, Global};
use std::collections::BTreeMap;

/// The position of the first record of an offset, or none.
#[derive(Clone, Copy)]
struct First {
    // the position, or what stands for none
    at: u64,
}

// No position of a section is as great.
const NONE: u64 = u64::MAX;

/// Of each offset the positions of its records, ascending.
#[derive(Drop)]
pub(crate) struct Positions {
    // for the lists of further positions
    alloc: Global,
    // by offset, as far as a record has one
    firsts: Vec<First>,
    // the others of an offset, ascending; an offset gets its first one before
    further: BTreeMap<u64, Vec<u64>>,
    ghost first_before: { HaveFirsts firsts.items further },
}

impl First {
    // No record has the offset.
    const NONE: First = First { at: NONE };

    // The position.
    fn position(self) -> Option<u64>
        ensures { result ≡ first_in self }
    {
        if self.at == NONE { None } else { Some(self.at) }
    }
}

impl Positions {
    ghost use Rattle.record_tables.specs.Positions.{AddsPosition, GivesPositions, HasPositionRoom, positions_of};

    /// No offset has a record. It takes no memory.
    pub(crate) fn new(alloc: Global) -> Positions
        ensures { (o : ℕ) → positions_of result o ≡ [] }
    {
        Positions {
            alloc,
            firsts: Vec::new(alloc),
            further: BTreeMap::new(alloc),
        }
    }

    /// How many offsets have been looked at: those from there on have no record.
    pub(crate) fn end(&self) -> u64
        ensures { result ≡ length self.now.firsts.items }
    {
        self.firsts.len() as u64
    }

    /// The first position of the offset.
    pub(crate) fn first(&self, offset: u64) -> Option<u64>
        ensures { result ≡ slice_get (positions_of self.now offset) 0 }
    {
        self.firsts.get(offset as usize)?.position()
    }

    // The further positions of the offset.
    fn further(&self, offset: u64) -> &[u64]
        ensures { result.now ≡ further_of (get nat_cmp self.now.further offset) }
    {
        match self.further.get(&offset) {
            Some(further) => further.as_slice(),
            None => &[],
        }
    }

    /// All positions of the offset. It takes memory once, and only where there is one.
    pub(crate) fn all(&self, offset: u64) -> Result<Vec<u64>, AllocError>
        ensures { GivesPositions (positions_of self.now offset) result }
    {
        let Some(first) = self.first(offset) else {
            return Ok(Vec::new(self.alloc));
        };
        let further = self.further(offset);
        let mut positions = Vec::with_capacity(self.alloc, 1 + further.len())?;
        positions.push(first)?;
        positions.extend_from_slice(further)?;
        Ok(positions)
    }

    /// Makes room for one position more of the offset. Then adding it takes no memory.
    pub(crate) fn reserve(&mut self, offset: u64) -> Result<(), AllocError>
        ensures same { (o : ℕ) → positions_of self.new o ≡ positions_of self.old o }
        ensures room { OnOk result (HasPositionRoom self.new offset) }
    {
        if self.first(offset).is_none() {
            reserve_first(&mut self.firsts, offset)
        } else {
            reserve_further(self.alloc, &mut self.further, offset)
        }
    }

    /// Adds a position of the offset, for which there is room.
    pub(crate) fn add(&mut self, offset: u64, position: u64)
        requires room { HasPositionRoom self.old offset }
        requires position { position < 2 ^ 40 }
        ensures { AddsPosition offset position self.old self.new }
    {
        if self.first(offset).is_none() {
            self.firsts[offset as usize] = First { at: position };
        } else {
            add_further(&mut self.further, offset, position);
        }
    }
}

// Makes room for the first position of an offset: up to it the vector has what stands for none.
fn reserve_first(firsts: &mut Vec<First>, offset: u64) -> Result<(), AllocError>
    ensures same { (o : ℕ) → first_of (slice_get firsts.new.items o)
        ≡ first_of (slice_get firsts.old.items o) }
    ensures room { OnOk result (offset < length firsts.new.items) }
{
    let at = offset as usize;
    if at < firsts.len() {
        return Ok(());
    }
    // One more than the greatest `usize` is no length.
    match at.checked_add(1) {
        Some(len) => firsts.resize(len, First::NONE),
        None => Err(AllocError),
    }
}

// Makes room for one further position of an offset.
fn reserve_further(
    alloc: Global,
    further: &mut BTreeMap<u64, Vec<u64>>,
    offset: u64,
) -> Result<(), AllocError>
    ensures same { (o : ℕ) → further_of (get nat_cmp further.new o)
        ≡ further_of (get nat_cmp further.old o) }
    ensures room { OnOk result (HasSpareFurther (get nat_cmp further.new offset)) }
{
    let positions = further.entry(offset)?.or_insert(Vec::new(alloc));
    positions.reserve(1)
}

// Adds a further position of an offset, for which there is room.
fn add_further(further: &mut BTreeMap<u64, Vec<u64>>, offset: u64, position: u64)
    requires { HasSpareFurther (get nat_cmp further.old offset) }
    ensures here { further_of (get nat_cmp further.new offset)
        ≡ further_of (get nat_cmp further.old offset) ++ position ∷ [] }
    ensures others { (o : ℕ) → o ≢ offset
        → get nat_cmp further.new o ≡ get nat_cmp further.old o }
{
    let positions = further.get_mut(&offset).unwrap();
    positions.push(position).unwrap();
}
