// Several records of an index.
ghost use Rattle.archives.specs.Changes.{outcome};
ghost use Rattle.archives.specs.Entries.{GetsAll, GetsEntries, HasAt};
ghost use Rattle.archives.specs.Prunable.{IsOver};
ghost use Rattle.archives.specs.Puts.{Puts};
ghost use Rattle.archives.specs.Putting.{Often};
ghost use Rattle.archives.specs.Shown.{means};
ghost use Rattle.archives.specs.Syncs.{PutSyncs};

use super::{Archive, section_of};
use crate::{Archive as _, Entries, Error, Translator, Values};
use blob_device::{Device, Handle};
use sealed_pages::PageBlob;
use segments::SectionBuffer;
use value_codec::{Codec, Key, Seal};

impl<T: Translator, K: Key, V: Codec, S: Seal> crate::MultiArchive for Archive<T, K, V, S> {
    ghost several = { λ a st next command reply is_several step. step };

    /// As [`put`](crate::Archive::put), but that a taken index is no reason to store nothing.
    fn put_multi<D: Device>(self, dev: &mut D, index: u64, key: K, value: &V) -> Result<Self, Error>
        requires over { IsOver (means ⟦<PageBlob<S> as SectionBuffer>⟧) D.Device self dev.old }
        requires value { (means ⟦<PageBlob<S> as SectionBuffer>⟧).Accepts self value.now }
        ensures { Puts (means ⟦<PageBlob<S> as SectionBuffer>⟧) D.Device Often self index
            (K.key_bytes key) (V.spelling value.now) result dev.old dev.new }
    {
        if index < self.floor {
            return Ok(self);
        }
        self.append(dev, index, key, value)
    }

    /// As [`put_multi`](crate::MultiArchive::put_multi) and then [`sync`](crate::Archive::sync), also where
    /// nothing was stored.
    fn put_multi_sync<D: Device>(
        self,
        dev: &mut D,
        index: u64,
        key: K,
        value: &V,
    ) -> Result<Self, Error>
        requires over { IsOver (means ⟦<PageBlob<S> as SectionBuffer>⟧) D.Device self dev.old }
        requires value { (means ⟦<PageBlob<S> as SectionBuffer>⟧).Accepts self value.now }
        ensures { PutSyncs (means ⟦<PageBlob<S> as SectionBuffer>⟧) D.Device Often self index
            (K.key_bytes key) (V.spelling value.now) result dev.old dev.new }
    {
        let this = self.put_multi(dev, index, key, value)?;
        // Behind the put, so that the new record is synced too.
        this.sync(dev)
    }

    /// As [`put_multi`](crate::MultiArchive::put_multi) and then [`start_sync`](crate::Archive::start_sync),
    /// also where nothing was stored.
    fn put_multi_start_sync<D: Device>(
        self,
        dev: &mut D,
        index: u64,
        key: K,
        value: &V,
    ) -> Result<(Self, Handle), Error>
        requires over { IsOver (means ⟦<PageBlob<S> as SectionBuffer>⟧) D.Device self dev.old }
        requires value { (means ⟦<PageBlob<S> as SectionBuffer>⟧).Accepts self value.now }
        ensures { PutSyncs (means ⟦<PageBlob<S> as SectionBuffer>⟧) D.Device Often self index
            (K.key_bytes key) (V.spelling value.now) (outcome (λ r. r.0) result) dev.old dev.new }
    {
        let this = self.put_multi_sync(dev, index, key, value)?;
        Ok((this, Handle::finished()))
    }

    /// All values at the index, in the order in which they were put. It reads no blob but the two of the
    /// index's section.
    fn get_all<D: Device>(&self, dev: &mut D, index: u64) -> Result<Option<Values<V>>, Error>
        requires over { IsOver (means ⟦<PageBlob<S> as SectionBuffer>⟧) D.Device self.now dev.old }
        ensures { GetsAll (means ⟦<PageBlob<S> as SectionBuffer>⟧) D.Device self.now index
            result dev.old dev.new }
    {
        match self.get_entries(dev, index)? {
            Some(entries) => Ok(Some(entries.into_values(self.alloc)?)),
            None => Ok(None),
        }
    }

    /// Whether one record has both this index and this key. It reads the records at the index, each once at
    /// most, and no value. Where there is none it does not touch the device.
    fn has_at<D: Device>(&self, dev: &mut D, index: u64, key: &K) -> Result<bool, Error>
        requires over { IsOver (means ⟦<PageBlob<S> as SectionBuffer>⟧) D.Device self.now dev.old }
        ensures { HasAt (means ⟦<PageBlob<S> as SectionBuffer>⟧) D.Device self.now index
            (K.key_bytes key.now) result dev.old dev.new }
    {
        let section = section_of(index, self.items_per_section);
        let positions = self.tables.positions_at(section, index)?;
        for position in &positions {
            let record = self.record_at(dev, section, *position)?;
            if *record.key() == *key {
                return Ok(true);
            }
        }
        Ok(false)
    }
}

impl<T: Translator, K: Key, V: Codec, S: Seal> Archive<T, K, V, S> {
    /// Key and value of all records at the index, in the order in which they were put; none where no record
    /// has it.
    ///
    /// It refuses as a [`get`](crate::Archive::get) by index does, and reads no blob but the two of the
    /// index's section.
    pub fn get_entries<D: Device>(
        &self,
        dev: &mut D,
        index: u64,
    ) -> Result<Option<Entries<K, V>>, Error>
        requires over { IsOver (means ⟦<PageBlob<S> as SectionBuffer>⟧) D.Device self.now dev.old }
        ensures { GetsEntries (means ⟦<PageBlob<S> as SectionBuffer>⟧) D.Device K.key_bytes self.now
            index result dev.old dev.new }
    {
        let section = section_of(index, self.items_per_section);
        let positions = self.tables.positions_at(section, index)?;
        if positions.is_empty() {
            return Ok(None);
        }
        let mut entries = Vec::new(self.alloc);
        for position in &positions {
            entries.push(self.entry_at(dev, section, *position)?)?;
        }
        Ok(Some(Entries::from_vec(entries)))
    }
}
