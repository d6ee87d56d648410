// Values by index, each in a slot of its own.
//
// # Format
//
// A slot is the value's spelling, and the seal of that in four bytes, the highest first. The slots of a section stand one
// behind the other in the section's blob, which is named by the eight bytes of its number. Index i is slot i mod `items`
// of section i / `items`:
//
//     0             `size`           2 `size`
//     +---------------+---------------+---
//     | value, seal   | value, seal   | ..
//     +---------------+---------------+---
//
// # Sync
//
// A put writes through the buffer of its section (`sealed_pages::WriteBlob`), and settles nothing. `sync` settles the
// sections that were written since the last one, the least first.
//
// # Crashes
//
// A slot that was synced, and not put since, outlives every crash (`IsCommitted`). No call but a put of its index, a prune
// above it or a destroy takes it away, also where the call fails. What a crash leaves of it is a fact of the disk alone
// (`IsDurable`), so it outlives the store that wrote it, refused calls and openings that are cut off.
//
// # Cost
//
// A put makes at most three calls of the device, and a get one. A sync makes at most two for each section that was written.
// A prune makes one for each section that it removes. In memory are one buffer a section, and the runs of held indices.
ghost use Rattle.std.specs.Prelude.{◌≡◌, ◌≤◌, ◌<◌, ◌+◌, ◌*◌, ◌/◌, ◌^◌, length, Ok, Err, IfOk, OnOk, OnErr, IsSome};
ghost use Rattle.std.specs.BTreeSet.{btree_set_len as set_size};
ghost use Rattle.std.specs.Ordering.{nat_cmp};
ghost use Rattle.std.specs.Result.{IsErr};
ghost use Rattle.ordinal_store.specs.Indices.{GivesMissing, IsGap};
ghost use Rattle.ordinal_store.specs.Numbers.{AreRuns, AreRunsFrom, IsGreatest, IsLeast};
ghost use Rattle.ordinal_store.specs.Ranges.{set_of};
ghost use Rattle.blob_device.specs.Timeline.{disk};
ghost use Rattle.ordinal_store.specs.Calls.{Getting, Putting, Syncing};
ghost use Rattle.ordinal_store.specs.Slots.{place_of, slot_of};
ghost use Rattle.ordinal_store.specs.Steps.{IsWrittenOne, Settling, Stepping};
ghost use Rattle.ordinal_store.specs.Stores.{IsUsable, has, key_of, sight};

mod adopting;
mod init;
mod opening;
mod removing;
mod restoring;

use crate::ordinal::Error;
use crate::slot::{read_part, slot_for, value_in};
use crate::{Numbers, RMap, RMapError, RangeIter};
use adopting::adopted;
use blob_device::Device;
use sealed_pages::WriteBlob;
use std::alloc::Global;
use std::collections::{BTreeMap, BTreeSet};
use std::marker::PhantomData;
use value_codec::{CodecFixed, Seal};

/// A store of values by index. The last value that is put at an index wins.
///
/// ```rust
/// let store: Ordinal<u64, Sha256Seal> = Ordinal::init(alloc, &mut dev, &cfg, Some(&map))?;
/// let store = store.put(&mut dev, 5, &7)?;     // in the buffer of section 1, at four slots a section
/// let store = store.sync(&mut dev)?;           // from here on each crash leaves it
/// store.get(&mut dev, 5)?;                     // Some(7)
/// ```
///
/// A refused call gives the store up. Its blobs are then opened again, by a map of the indices that were synced.
#[derive(Drop)]
pub struct Ordinal<A: CodecFixed, S: Seal> {
    /// Where the buffers and the sets take their memory.
    alloc: Global,
    /// The partition of the sections' blobs, and of no other blob.
    partition: String,
    /// How many slots a section has, 1 to 2^40 (`IsUsable.items`).
    items: u64,
    /// From how many bytes on a buffer flushes them. Each buffer has it (`IsUsable.capacity`).
    capacity: usize,
    /// The buffer of each section that has a blob (`StandsOver.whose`), over that blob (`IsUsable.key`).
    buffers: BTreeMap<u64, WriteBlob>,
    /// The held indices. The slot of each is in its section's buffer (`IsUsable.room`).
    held: RMap,
    /// The sections written since the last sync. The buffers of all others have nothing unsettled (`IsUsable.unwritten`).
    written: BTreeSet<u64>,
    /// The type of the values.
    value: PhantomData<A>,
    /// The kind of the seals.
    seal: PhantomData<S>,
}

// Want of memory in the set of indices is want of memory here.
fn noted(done: Result<(), RMapError>) -> Result<(), Error>
    ensures ok { OnOk result (done ≡ Ok tt) }
    ensures refused { OnErr result (IsErr done) }
    ensures cause { OnErr result (result ≡ Err Error.Mem) }
{
    match done {
        Ok(()) => Ok(()),
        Err(RMapError::Mem) => Err(Error::Mem),
    }
}

impl<A: CodecFixed, S: Seal> Ordinal<A, S> {
    ghost use Rattle.ordinal_store.specs.Shown.{shown};

    /// Whether a value was put at the index. It takes no memory.
    pub fn has(&self, index: u64) -> bool
        ensures { result ≡ has (shown A.SIZE S.seal_of A.refusal self.now) index }
    {
        self.held.get(index).is_some()
    }

    // Where the slot of an index begins in its section's blob.
    fn place_of(&self, index: u64) -> u64
        requires items { (1 ≤ self.now.items) × (self.now.items ≤ 2 ^ 40) }
        ensures { result ≡ place_of (shown A.SIZE S.seal_of A.refusal self.now).layout index }
    {
        (index % self.items) * (A::SIZE as u64 + 4)
    }

    // The store with a buffer for the section, over its blob, which is made where it is absent.
    fn seated<D: Device>(self, dev: &mut D, section: u64) -> Result<Self, Error>
        requires usable { IsUsable (shown A.SIZE S.seal_of A.refusal self) D.Tells
            (D.opened dev.old) (disk (D.time dev.old)) }
        requires first { section * self.items < 2 ^ 64 }
        ensures stepping { Stepping (shown A.SIZE S.seal_of A.refusal) D.Tells
            (shown A.SIZE S.seal_of A.refusal self) (λ q. q ≡ key_of (shown A.SIZE S.seal_of A.refusal self)
            section) result (sight D.Device dev.old) (sight D.Device dev.new) }
        ensures seated { IfOk result (λ r. IsSome ((shown A.SIZE S.seal_of A.refusal r).buffers section)) }
    {
        if self.buffers.contains_key(&section) {
            return Ok(self);
        }
        let mut this = self;
        let buffer = adopted(
            this.alloc,
            dev,
            this.partition.as_str(),
            section,
            this.capacity,
        )?;
        this.buffers.insert(section, buffer)?;
        Ok(this)
    }

    // Writes the slot of an index through the buffer of its section.
    fn write_slot<D: Device>(self, dev: &mut D, index: u64, slot: &[u8]) -> Result<Self, Error>
        requires usable { IsUsable (shown A.SIZE S.seal_of A.refusal self) D.Tells
            (D.opened dev.old) (disk (D.time dev.old)) }
        requires seated { IsSome ((shown A.SIZE S.seal_of A.refusal self).buffers (index / self.items)) }
        requires size { length slot.now ≡ A.SIZE + 4 }
        ensures { Putting (shown A.SIZE S.seal_of A.refusal) D.Tells (shown A.SIZE S.seal_of A.refusal self)
            index slot.now result (sight D.Device dev.old) (sight D.Device dev.new) }
    {
        let section = index / self.items;
        let at = self.place_of(index);
        let mut this = self;
        let Some(buffer) = this.buffers.remove(&section) else {
            return Ok(this);
        };
        // The slot alone is written over; what was synced beside it stays settled.
        let buffer = buffer.write_at(dev, at, slot)?;
        this.buffers.insert(section, buffer)?;
        this.written.insert(section)?;
        noted(this.held.insert(index))?;
        Ok(this)
    }

    /// Keeps the value at the index, in place of one that is there. It makes at most three calls of the device.
    pub fn put<D: Device>(self, dev: &mut D, index: u64, value: &A) -> Result<Self, Error>
        requires usable { IsUsable (shown A.SIZE S.seal_of A.refusal self) D.Tells
            (D.opened dev.old) (disk (D.time dev.old)) }
        requires value { A.accepted value.now tt }
        ensures { Putting (shown A.SIZE S.seal_of A.refusal) D.Tells (shown A.SIZE S.seal_of A.refusal self)
            index (slot_of (shown A.SIZE S.seal_of A.refusal self).layout (A.spelling value.now)) result
            (sight D.Device dev.old) (sight D.Device dev.new) }
    {
        let slot = slot_for::<A, S>(self.alloc, value)?;
        let section = index / self.items;
        let this = self.seated(dev, section)?;
        this.write_slot(dev, index, slot.as_slice())
    }

    // The least section that was written since the last sync.
    fn first_written(&self) -> Option<u64>
        ensures { IsWrittenOne (shown A.SIZE S.seal_of A.refusal self.now) result }
    {
        let section = self.written.first()?;
        Some(*section)
    }

    // Settles the buffer of one section.
    fn sync_one<D: Device>(self, dev: &mut D, section: u64) -> Result<Self, Error>
        requires usable { IsUsable (shown A.SIZE S.seal_of A.refusal self) D.Tells
            (D.opened dev.old) (disk (D.time dev.old)) }
        ensures { Settling (shown A.SIZE S.seal_of A.refusal) (λ r. set_size r.written) D.Tells
            (shown A.SIZE S.seal_of A.refusal self) (set_size self.written) section result
            (sight D.Device dev.old) (sight D.Device dev.new) }
    {
        let mut this = self;
        this.written.remove(&section);
        let Some(buffer) = this.buffers.remove(&section) else {
            return Ok(this);
        };
        // One section after another: a fault leaves each one as its own sync left it.
        let buffer = buffer.sync(dev)?;
        this.buffers.insert(section, buffer)?;
        Ok(this)
    }

    /// Settles all that was put: what the store then holds outlives every crash.
    pub fn sync<D: Device>(self, dev: &mut D) -> Result<Self, Error>
        requires usable { IsUsable (shown A.SIZE S.seal_of A.refusal self) D.Tells
            (D.opened dev.old) (disk (D.time dev.old)) }
        ensures { Syncing (shown A.SIZE S.seal_of A.refusal) D.Tells (shown A.SIZE S.seal_of A.refusal self)
            result (sight D.Device dev.old) (sight D.Device dev.new) }
    {
        let mut this = self;
        while let Some(section) = this.first_written() {
            this = this.sync_one(dev, section)?;
        }
        Ok(this)
    }

    /// The value at the index.
    pub fn get<D: Device>(&self, dev: &mut D, index: u64) -> Result<Option<A>, Error>
        requires usable { IsUsable (shown A.SIZE S.seal_of A.refusal self.now) D.Tells
            (D.opened dev.old) (disk (D.time dev.old)) }
        ensures { Getting D.Tells (shown A.SIZE S.seal_of A.refusal self.now) A.spelling index result
            (sight D.Device dev.old) (sight D.Device dev.new) }
    {
        if !self.has(index) {
            return Ok(None);
        }
        let Some(buffer) = self.buffers.get(&(index / self.items)) else {
            return Ok(None);
        };
        let at = self.place_of(index);
        let slot = read_part(self.alloc, dev, buffer, at, A::SIZE + 4)?;
        match value_in::<A, S>(self.alloc, slot.as_slice())? {
            Some(value) => Ok(Some(value)),
            None => Err(Error::InvalidRecord(index)),
        }
    }

    /// The end of the run of held indices around the index, and the start of the first run above it.
    pub fn next_gap(&self, index: u64) -> (Option<u64>, Option<u64>)
        ensures { IsGap (set_of (shown A.SIZE S.seal_of A.refusal self.now).ranges) index result }
    {
        self.held.next_gap(index)
    }

    /// The first `max` indices from `start` on that are not held and have a held one above them, or all of these.
    pub fn missing_items(&self, start: u64, max: usize) -> Result<Numbers, Error>
        requires { 1 ≤ max }
        ensures { GivesMissing Error.Mem (set_of (shown A.SIZE S.seal_of A.refusal self.now).ranges)
            start max result }
    {
        match self.held.missing_items(start, max) {
            Ok(numbers) => Ok(numbers),
            Err(RMapError::Mem) => Err(Error::Mem),
        }
    }

    /// The runs of held indices, ascending.
    pub fn ranges(&self) -> RangeIter<'_>
        ensures { AreRuns (set_of (shown A.SIZE S.seal_of A.refusal self.now).ranges) result }
    {
        self.held.iter()
    }

    /// Those whose end is at least `from`.
    pub fn ranges_from(&self, from: u64) -> RangeIter<'_>
        ensures { AreRunsFrom (set_of (shown A.SIZE S.seal_of A.refusal self.now).ranges) from result }
    {
        self.held.iter_from(from)
    }

    /// The least held index.
    pub fn first_index(&self) -> Option<u64>
        ensures { IsLeast (set_of (shown A.SIZE S.seal_of A.refusal self.now).ranges) result }
    {
        self.held.first_index()
    }

    /// The greatest held index.
    pub fn last_index(&self) -> Option<u64>
        ensures { IsGreatest (set_of (shown A.SIZE S.seal_of A.refusal self.now).ranges) result }
    {
        self.held.last_index()
    }
}
