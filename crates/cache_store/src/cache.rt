//! Values by index, in a journal of records.
//!
//! # Format
//!
//! The indices are cut into sections, each named by its first index. A section is a blob of sealed
//! pages, and its data are records, each in a frame, in the order in which they were put. With room
//! for 4 indices a section:
//!
//! ```text
//! cache/0000000000000004
//! +--------+---------+-------+--------+---------+-------+
//! | length | index 5 | value | length | index 7 | value |
//! +--------+---------+-------+--------+---------+-------+
//!   varint   varint            varint   varint
//! ```
//!
//! A record is the index and the spelling of the value. It says no length of its own: the frame
//! does.
//!
//! # Sync
//!
//! A put goes into the buffer of its section, and settles nothing. `sync` settles the sections that
//! were written since the last one.
//!
//! # Crashes
//!
//! Of each section a crash leaves a prefix of the records that were put, with all that were synced;
//! or nothing of one that a prune or a destroy takes. What stands behind it is cut by the next
//! opening. A call that fails gives the cache up: its blobs are opened again.
//!
//! # Cost
//!
//! Of each record the index and its place are held in memory, and the indices also as a set of
//! runs. A get reads one record. What asks for gaps, and whether an index is held, reads nothing.
//!
//! # Example
//!
//! ```rust
//! let cache = Cache::<Bytes, Sha256Seal>::init(alloc, &mut dev, &cfg)?;
//! let cache = cache.put(&mut dev, 5, value)?;     // in the buffer of section 4
//! let cache = cache.sync(&mut dev)?;              // from here on each crash leaves it
//! cache.get(&mut dev, 5)?                         // Some(value)
//! ```
ghost use Rattle.std.specs.Prelude.{◌≡◌, ◌≤◌};
ghost use Rattle.cache_store.specs.Caches.{holds};
ghost use Rattle.cache_store.specs.Changes.{Destroys, Gets, MayUse, Prunes, PutSyncs, Puts, Says, SaysItems, Syncs, spelled_value};
ghost use Rattle.cache_store.specs.Machine.{Ends, First, Flag, Gap, Has, Index, section_of};
ghost use Rattle.ordinal_store.specs.Indices.{IsGap};
ghost use Rattle.ordinal_store.specs.Numbers.{IsLeast};
ghost use Rattle.section_manager.specs.Answers.{seen};

mod opening;
mod writing;

use crate::held::{Held, keep_from};
use crate::record::Record;
use blob_device::Device;
use ordinal_store::Numbers;
use sealed_pages::PageBlob;
use section_manager::journal::Error;
use section_manager::{AppendFactory, BufferFactory, SectionBuffer};
use std::alloc::Global;
use std::collections::BTreeMap;
use value_codec::{Codec, Seal};
use variable_journal::Journal;

/// A map from indices to values, that is appended to, and whose prefix can be pruned. The first
/// value that is put at an index stays there.
///
/// Calls that take the cache by value give it up where they refuse; its blobs are then opened again
/// by an `init`.
#[derive(Drop)]
pub struct Cache<V: Codec, S: Seal> {
    /// Where memory comes from.
    alloc: Global,
    /// The records, by section. No section owes a replay (`IsCache.recovered`).
    journal: Journal<Record<V>, S>,
    /// How many indices share a section, at least 1. A cache is opened with the number with which
    /// it was made.
    items_per_blob: u64,
    /// The indices of all records, each with the offset of its first one (`IsTold.listed`).
    held: Held,
    /// The sections written since the last sync, each with its size in bytes at that sync
    /// (`IsCache.settled`).
    written: BTreeMap<u64, u64>,
    /// The start of a section, moved by `prune` alone. Nothing is held below it (`IsCache.below`).
    floor: u64,
}

// The section of an index: its first index.
fn section_of(index: u64, items_per_blob: u64) -> u64
    requires { 1 ≤ items_per_blob }
    ensures { result ≡ section_of items_per_blob index }
{
    index - index % items_per_blob
}

impl<V: Codec, S: Seal> Cache<V, S> {
    ghost use Rattle.cache_store.specs.Shown.{config_of, shown};

    /// Whether the index is held. It takes no memory.
    pub fn has(&self, index: u64) -> bool
        ensures { Says (shown V.refusal self.now) (λ c. result ≡ holds c index)
            (Has index) (Flag result) }
    {
        self.held.has(index)
    }

    /// The value that was put first at the index, if it is held.
    pub fn get<D: Device>(&self, dev: &mut D, index: u64) -> Result<Option<V>, Error>
        requires over { MayUse ⟦<PageBlob<S> as SectionBuffer>⟧
            ⟦<AppendFactory<S> as BufferFactory>⟧.gives
            D.Device (shown V.refusal self.now) dev.old }
        ensures { Gets ⟦<PageBlob<S> as SectionBuffer>⟧
            ⟦<AppendFactory<S> as BufferFactory>⟧.gives D.Device (shown V.refusal self.now) index
            (seen (spelled_value V.spelling) result) dev.old dev.new }
    {
        let Some(offset) = self.held.offset(index) else {
            return Ok(None);
        };
        let section = section_of(index, self.items_per_blob);
        let record = self.journal.get(dev, section, offset)?;
        Ok(Some(record.value))
    }

    /// Keeps the value at the index. Where the index is below the floor, or is held, nothing is
    /// stored, and the device is not touched.
    ///
    /// It refuses by `ValueTooLarge` a record of more bytes than a `u32` counts, with nothing
    /// written. It refuses by `Full` where the section's blob would pass the greatest `u64`. To a
    /// section that is held nothing is written then.
    pub fn put<D: Device>(self, dev: &mut D, index: u64, value: V) -> Result<Self, Error>
        requires over { MayUse ⟦<PageBlob<S> as SectionBuffer>⟧
            ⟦<AppendFactory<S> as BufferFactory>⟧.gives D.Device (shown V.refusal self) dev.old }
        requires value { V.accepted value (config_of self) }
        ensures { Puts ⟦<PageBlob<S> as SectionBuffer>⟧
            ⟦<AppendFactory<S> as BufferFactory>⟧.gives D.Device (shown V.refusal self) index
            (V.spelling value) (seen (shown V.refusal) result)
            (config_of self) (seen config_of result) dev.old dev.new }
    {
        if index < self.floor || self.has(index) {
            return Ok(self);
        }
        self.append(dev, index, value)
    }

    /// As [`put`](Cache::put) and then [`sync`](Cache::sync), also where the index is held. Below
    /// the floor neither.
    pub fn put_sync<D: Device>(self, dev: &mut D, index: u64, value: V) -> Result<Self, Error>
        requires over { MayUse ⟦<PageBlob<S> as SectionBuffer>⟧
            ⟦<AppendFactory<S> as BufferFactory>⟧.gives D.Device (shown V.refusal self) dev.old }
        requires value { V.accepted value (config_of self) }
        ensures { PutSyncs ⟦<PageBlob<S> as SectionBuffer>⟧
            ⟦<AppendFactory<S> as BufferFactory>⟧.gives D.Device (shown V.refusal self) index
            (V.spelling value) (seen (shown V.refusal) result)
            (config_of self) (seen config_of result) dev.old dev.new }
    {
        if index < self.floor {
            return Ok(self);
        }
        let this = self.put(dev, index, value)?;
        // After the put, so that the new record is synced too. An index that was held does not
        // spare it.
        this.sync(dev)
    }

    /// Settles what was put: each crash leaves it then.
    pub fn sync<D: Device>(self, dev: &mut D) -> Result<Self, Error>
        requires over { MayUse ⟦<PageBlob<S> as SectionBuffer>⟧
            ⟦<AppendFactory<S> as BufferFactory>⟧.gives D.Device (shown V.refusal self) dev.old }
        ensures { Syncs ⟦<PageBlob<S> as SectionBuffer>⟧
            ⟦<AppendFactory<S> as BufferFactory>⟧.gives D.Device (shown V.refusal self)
            (seen (shown V.refusal) result)
            (config_of self) (seen config_of result) dev.old dev.new }
    {
        let mut this = self;
        let sections = this.written_sections()?;
        // Just what was written since the last sync: all other sections have settled.
        this.journal = this.journal.sync(dev, sections.as_slice())?;
        this.written.clear();
        Ok(this)
    }

    /// Removes the sections below that of `min`, the oldest first. Nothing is put below it any
    /// more, until the cache is opened again. Where it is at or below the floor nothing is done.
    pub fn prune<D: Device>(self, dev: &mut D, min: u64) -> Result<Self, Error>
        requires over { MayUse ⟦<PageBlob<S> as SectionBuffer>⟧
            ⟦<AppendFactory<S> as BufferFactory>⟧.gives D.Device (shown V.refusal self) dev.old }
        ensures { Prunes ⟦<PageBlob<S> as SectionBuffer>⟧
            ⟦<AppendFactory<S> as BufferFactory>⟧.gives D.Device (shown V.refusal self) min
            (seen (shown V.refusal) result)
            (config_of self) (seen config_of result) dev.old dev.new }
    {
        let bound = section_of(min, self.items_per_blob);
        if bound <= self.floor {
            return Ok(self);
        }
        let mut this = self;
        // First what is held in memory: nothing there names a section below the bound once its blob
        // goes.
        this.held.forget_below(bound);
        keep_from(&mut this.written, bound);
        // Now the blobs.
        let (journal, _) = this.journal.prune(dev, bound)?;
        this.journal = journal;
        this.floor = bound;
        Ok(this)
    }

    /// Where the run of indices around the index ends, and where the first run above it begins. It
    /// takes no memory.
    pub fn next_gap(&self, index: u64) -> (Option<u64>, Option<u64>)
        ensures { Says (shown V.refusal self.now) (λ c. IsGap c.indices index result)
            (Gap index) (Ends result.0 result.1) }
    {
        self.held.next_gap(index)
    }

    /// The first `max` indices from `start` on that are not held and have a held one above them, or
    /// all of these.
    pub fn missing_items(&self, start: u64, max: usize) -> Result<Numbers, Error>
        requires { 1 ≤ max }
        ensures { SaysItems (shown V.refusal self.now) start max result }
    {
        self.held.missing_items(start, max)
    }

    /// The least index that is held. It takes no memory.
    pub fn first(&self) -> Option<u64>
        ensures { Says (shown V.refusal self.now) (λ c. IsLeast c.indices result)
            First (Index result) }
    {
        self.held.first()
    }

    /// Removes all sections, the oldest first. On Ok no blob of one is left.
    pub fn destroy<D: Device>(self, dev: &mut D) -> Result<(), Error>
        requires over { MayUse ⟦<PageBlob<S> as SectionBuffer>⟧
            ⟦<AppendFactory<S> as BufferFactory>⟧.gives D.Device (shown V.refusal self) dev.old }
        ensures { Destroys ⟦<PageBlob<S> as SectionBuffer>⟧
            ⟦<AppendFactory<S> as BufferFactory>⟧.gives D.Device (shown V.refusal self)
            result dev.old dev.new }
    {
        // The blobs go last, with the value itself: what it holds in memory names them up to here.
        self.journal.destroy(dev)
    }
}
