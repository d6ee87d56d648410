//! The archive whose first sections can be pruned: values by index and by key.
//!
//! # Format
//!
//! The indices are cut into sections, each named by its first index. A section is a list of records, in the order
//! in which they were put. With room for 4 indices a section, and keys of eight bytes:
//!
//! ```text
//! keys/0000000000000004                               values/0000000000000004     markers
//! +---------+-----------+------------+------------+   +---------------+           +--------+
//! | index 5 | key 8 B   | place 8 B  | size 4 B   |-->| value, seal   |           | 4 -> 2 |
//! | index 7 | key       | place      | size       |-->| value, seal   |           +--------+
//! +---------+-----------+------------+------------+   +---------------+
//! ```
//!
//! All numbers are big-endian. The three partitions are those of `paired`, which pages, seals and marks them.
//!
//! # Sync
//!
//! A put syncs nothing, and makes no call while both buffers of its section have room. `sync` settles the sections
//! written since the last one, records first, then values. It raises markers of those not written since, where they lag.
//!
//! # Crashes
//!
//! Of each section a crash leaves a prefix of the records that were put, with all that were synced; or nothing of
//! one that a prune or a destroy takes. What stands behind it is cut by the next opening. A call that fails gives
//! the archive up: its blobs are opened again.
//!
//! # Cost
//!
//! Of each record the word of its key and its handle are held in memory, and of each section a vector with the first
//! position of each offset, as far as a record has one; the indices also as a set of runs. No key is held. A lookup
//! by index reads at most one record and one value. One by key reads the records whose keys have the word, up to the
//! first with the whole key, and then one value. `has` reads no value. Whether an index is taken, and what asks for
//! gaps and runs, is answered by the runs alone.
//!
//! # Example
//!
//! ```rust
//! let archive = Archive::<FourCap, Key8, ByteValue, Sha256Seal>::init(alloc, &mut dev, &cfg)?;
//! let archive = archive.put(&mut dev, 5, key, &value)?;    // in memory, below the buffers' capacity
//! let archive = archive.sync(&mut dev)?;                   // from here on each crash leaves it
//! archive.get(&mut dev, Identifier::Index(5))?             // Some(value)
//! ```
ghost use Rattle.std.specs.Prelude.{◌≡◌, ◌≤◌, ◌^◌};
ghost use Rattle.ordinal_store.specs.Numbers.{AreRuns, AreRunsFrom, IsGreatest, IsLeast};
ghost use Rattle.archives.specs.Changes.{outcome};
ghost use Rattle.archives.specs.Destroys.{Removes};
ghost use Rattle.archives.specs.Finding.{wanted_of};
ghost use Rattle.archives.specs.Gets.{Gets, Has};
ghost use Rattle.archives.specs.Indices.{GivesMissing, IsGap};
ghost use Rattle.archives.specs.Machine.{section_of};
ghost use Rattle.archives.specs.Prunable.{IsOver, meaning};
ghost use Rattle.archives.specs.Puts.{Puts};
ghost use Rattle.archives.specs.Putting.{Once};
ghost use Rattle.archives.specs.Syncs.{PutSyncs, Syncs};

mod config;
mod growing;
mod index_record;
mod laws;
mod limits;
mod multi;
mod opening;
mod pruning;
mod reading;
mod syncing;
mod writing;

use crate::{Error, Identifier, Translator};
use blob_device::{Device, Handle};
pub use config::Config;
pub use index_record::IndexRecord;
pub use limits::Limits;
use ordinal_store::{Numbers, RMap, RangeIter};
use paired::{Oversized, Record};
use record_tables::Tables;
use sealed_pages::PageBlob;
use segments::SectionBuffer;
use std::alloc::Global;
use std::collections::BTreeSet;
use value_codec::{Codec, Key, Seal};

/// Values by index and by key. The indices are cut into sections, each of them named by its first index, and a section is a list of records
/// in the order in which they were put.
///
/// Of each record the archive holds in memory the word of its key and where it stands, and the indices also as a set
/// of runs. A lookup reads no blob but those of a section in which a record has the index, or a key with the key's
/// word.
#[derive(Drop)]
pub struct Archive<T: Translator, K: Key, V: Codec, S: Seal>
where
    IndexRecord<K>: Record,
{
    alloc: Global,
    // as the configuration gave it: one word for equal keys, always
    translator: T,
    // as the configuration gave it: an archive is opened with the number with which it was made
    items_per_section: u64,
    ghost has_items: { 1 ≤ items_per_section },
    // what a put and an opening judge before they keep a record
    limits: Limits,
    ghost has_records: { 1 ≤ limits.per_section },
    ghost few_sections: { limits.sections ≤ 2 ^ 24 },
    ghost few_records: { limits.per_section ≤ 2 ^ 40 },
    // the records and values on the device: each call hands it on as the pair's call left it
    pair: Oversized<IndexRecord<K>, V, S>,
    // the start of a section, moved by `prune` alone: nothing is held of one below it, and nothing is put
    // there
    floor: u64,
    // where the records of the pair stand, by index and by the words of keys: entered with the record
    tables: Tables<T::Word, K>,
    // the indices of all records: a row of the tables has each, and no other
    indices: RMap,
    // the sections written since the last sync: a put adds its own, a sync clears all
    written: BTreeSet<u64>,
}

// The section of an index: its first index.
fn section_of(index: u64, items_per_section: u64) -> u64
    requires { 1 ≤ items_per_section }
    ensures { result ≡ section_of items_per_section index }
{
    index - index % items_per_section
}

impl<T: Translator, K: Key, V: Codec, S: Seal> crate::Archive for Archive<T, K, V, S> {
    ghost use Rattle.archives.specs.Shown.{means, shown};

    type Key = K;

    type Value = V;

    ghost meaning = { meaning (means ⟦<PageBlob<S> as SectionBuffer>⟧) };

    /// Keeps the value at the end of its index's section. Where the index is below the floor, or is taken,
    /// nothing is stored.
    ///
    /// It refuses in this order, and then wrote nothing: by `Full` where one section more would keep a record
    /// than the limits allow, or the section one record more; by `ValueTooLarge` a value whose frame has more
    /// bytes than a `u32` counts; by `Full` where the section's records or values would pass the greatest
    /// `u64`.
    fn put<D: Device>(self, dev: &mut D, index: u64, key: K, value: &V) -> Result<Self, Error>
        requires over { IsOver (means ⟦<PageBlob<S> as SectionBuffer>⟧) D.Device self dev.old }
        requires value { (means ⟦<PageBlob<S> as SectionBuffer>⟧).Accepts self value.now }
        ensures { Puts (means ⟦<PageBlob<S> as SectionBuffer>⟧) D.Device Once self index
            (K.key_bytes key) (V.spelling value.now) result dev.old dev.new }
    {
        if index < self.floor || self.has_index(index) {
            return Ok(self);
        }
        self.append(dev, index, key, value)
    }

    /// As [`put`](crate::Archive::put) and then [`sync`](crate::Archive::sync), also where nothing was stored.
    fn put_sync<D: Device>(self, dev: &mut D, index: u64, key: K, value: &V) -> Result<Self, Error>
        requires over { IsOver (means ⟦<PageBlob<S> as SectionBuffer>⟧) D.Device self dev.old }
        requires value { (means ⟦<PageBlob<S> as SectionBuffer>⟧).Accepts self value.now }
        ensures { PutSyncs (means ⟦<PageBlob<S> as SectionBuffer>⟧) D.Device Once self index
            (K.key_bytes key) (V.spelling value.now) result dev.old dev.new }
    {
        let this = self.put(dev, index, key, value)?;
        // Behind the put, so that the new record is synced too. An index that was taken does not spare it.
        this.sync(dev)
    }

    /// As [`put`](crate::Archive::put) and then [`start_sync`](crate::Archive::start_sync), also where nothing was stored.
    fn put_start_sync<D: Device>(
        self,
        dev: &mut D,
        index: u64,
        key: K,
        value: &V,
    ) -> Result<(Self, Handle), Error>
        requires over { IsOver (means ⟦<PageBlob<S> as SectionBuffer>⟧) D.Device self dev.old }
        requires value { (means ⟦<PageBlob<S> as SectionBuffer>⟧).Accepts self value.now }
        ensures { PutSyncs (means ⟦<PageBlob<S> as SectionBuffer>⟧) D.Device Once self index
            (K.key_bytes key) (V.spelling value.now) (outcome (λ r. r.0) result) dev.old dev.new }
    {
        let this = self.put_sync(dev, index, key, value)?;
        Ok((this, Handle::finished()))
    }

    /// The value. By index it is the first that was put there.
    ///
    /// It reads no blob but those of a section in which a record has the index, or a key with the key's word.
    fn get<D: Device>(&self, dev: &mut D, identifier: Identifier<'_, K>) -> Result<Option<V>, Error>
        requires over { IsOver (means ⟦<PageBlob<S> as SectionBuffer>⟧) D.Device self.now dev.old }
        ensures { Gets (means ⟦<PageBlob<S> as SectionBuffer>⟧) D.Device self.now
            (wanted_of K.key_bytes identifier.entry) result dev.old dev.new }
    {
        match identifier {
            Identifier::Index(index) => self.get_at(dev, index),
            Identifier::Key(key) => self.get_by(dev, key),
        }
    }

    /// Whether a value has this index or key. No value is read. By index the device is not touched, and no memory is taken.
    fn has<D: Device>(&self, dev: &mut D, identifier: Identifier<'_, K>) -> Result<bool, Error>
        requires over { IsOver (means ⟦<PageBlob<S> as SectionBuffer>⟧) D.Device self.now dev.old }
        ensures { Has (means ⟦<PageBlob<S> as SectionBuffer>⟧) D.Device self.now
            (wanted_of K.key_bytes identifier.entry) result dev.old dev.new }
    {
        match identifier {
            Identifier::Index(index) => Ok(self.has_index(index)),
            Identifier::Key(key) => Ok(self.find(dev, key)?.is_some()),
        }
    }

    fn has_index(&self, index: u64) -> bool
        ensures { result ≡ (shown self.now).indices index }
    {
        self.indices.get(index).is_some()
    }

    fn next_gap(&self, index: u64) -> (Option<u64>, Option<u64>)
        ensures { IsGap (shown self.now).indices index result }
    {
        self.indices.next_gap(index)
    }

    fn missing_items(&self, start: u64, max: usize) -> Result<Numbers, Error>
        requires { 1 ≤ max }
        ensures { GivesMissing (shown self.now).indices start max result }
    {
        Ok(self.indices.missing_items(start, max)?)
    }

    fn ranges(&self) -> RangeIter<'_>
        ensures { AreRuns (shown self.now).indices result }
    {
        self.indices.iter()
    }

    fn ranges_from(&self, from: u64) -> RangeIter<'_>
        ensures { AreRunsFrom (shown self.now).indices from result }
    {
        self.indices.iter_from(from)
    }

    fn first_index(&self) -> Option<u64>
        ensures { IsLeast (shown self.now).indices result }
    {
        self.indices.first_index()
    }

    fn last_index(&self) -> Option<u64>
        ensures { IsGreatest (shown self.now).indices result }
    {
        self.indices.last_index()
    }

    /// Makes durable what was written since the last sync. What was synced before is marked, so that the next opening does not read its
    /// values.
    ///
    /// It answers `Full` where a marker has to move and the markers have no next version; then all has settled.
    fn sync<D: Device>(self, dev: &mut D) -> Result<Self, Error>
        requires over { IsOver (means ⟦<PageBlob<S> as SectionBuffer>⟧) D.Device self dev.old }
        ensures { Syncs (means ⟦<PageBlob<S> as SectionBuffer>⟧) D.Device self
            result dev.old dev.new }
    {
        let mut this = self;
        let sections = this.written_sections()?;
        // What was written settles first, then the markers of the other sections move.
        this.pair = this.pair.sync_tracked(dev, &sections, &sections)?;
        this.written.clear();
        Ok(this)
    }

    /// As [`sync`](crate::Archive::sync), with the handle of a sync that has finished.
    fn start_sync<D: Device>(self, dev: &mut D) -> Result<(Self, Handle), Error>
        requires over { IsOver (means ⟦<PageBlob<S> as SectionBuffer>⟧) D.Device self dev.old }
        ensures { Syncs (means ⟦<PageBlob<S> as SectionBuffer>⟧) D.Device self
            (outcome (λ r. r.0) result) dev.old dev.new }
    {
        // Done at once: no device has a sync that is only started.
        let this = self.sync(dev)?;
        Ok((this, Handle::finished()))
    }

    /// Removes the markers, then all records, then all values. On Ok none of these blobs is left.
    fn destroy<D: Device>(self, dev: &mut D) -> Result<(), Error>
        requires over { IsOver (means ⟦<PageBlob<S> as SectionBuffer>⟧) D.Device self dev.old }
        ensures { Removes (means ⟦<PageBlob<S> as SectionBuffer>⟧) D.Device self
            result dev.old dev.new }
    {
        // The blobs go last, with the value itself: what it holds in memory names them up to here.
        self.pair.destroy(dev)?;
        Ok(())
    }
}
