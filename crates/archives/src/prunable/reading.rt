// Finding records, and reading their values.
ghost use Rattle.std.specs.Prelude.{⊤, ℕ, IsSomeAnd, slice_get};
ghost use Rattle.archives.specs.Entries.{FindsKey, ReadsEntry, ReadsRecordAt, ReadsValueOf};
ghost use Rattle.archives.specs.Finding as wanted;
ghost use Rattle.archives.specs.Gets.{Gets, Reads};
ghost use Rattle.archives.specs.Prunable.{IsOver};
ghost use Rattle.archives.specs.Shown.{means, shown};

use super::{Archive, IndexRecord, section_of};
use crate::{Error, Translator};
use blob_device::Device;
use paired::Record;
use sealed_pages::PageBlob;
use segments::SectionBuffer;
use value_codec::{Codec, Key, Seal};

impl<T: Translator, K: Key, V: Codec, S: Seal> Archive<T, K, V, S> {
    // A record with this key, with its section. Those with the key's word are read one after the other, up to the
    // first with the whole key: no other record can have it.
    pub(super) fn find<D: Device>(
        &self,
        dev: &mut D,
        key: &K,
    ) -> Result<Option<(u64, IndexRecord<K>)>, Error>
        requires over { IsOver (means ⟦<PageBlob<S> as SectionBuffer>⟧) D.Device self.now dev.old }
        ensures { FindsKey (means ⟦<PageBlob<S> as SectionBuffer>⟧) D.Device K.key_bytes self.now
            (K.key_bytes key.now) result dev.old dev.new }
    {
        let word = self.translator.transform(key.as_bytes());
        for handle in self.tables.candidates(&word) {
            let (section, position) = self.tables.place(*handle);
            let record = self.record_at(dev, section, position)?;
            if *record.key() == *key {
                return Ok(Some((section, record)));
            }
        }
        Ok(None)
    }

    // The value of the first record with this index.
    pub(super) fn get_at<D: Device>(&self, dev: &mut D, index: u64) -> Result<Option<V>, Error>
        requires over { IsOver (means ⟦<PageBlob<S> as SectionBuffer>⟧) D.Device self.now dev.old }
        ensures { Gets (means ⟦<PageBlob<S> as SectionBuffer>⟧) D.Device self.now
            (wanted.Index index) result dev.old dev.new }
    {
        let section = section_of(index, self.items_per_section);
        match self.tables.position_of(section, index) {
            Some(position) => Ok(Some(self.value_at(dev, section, position)?)),
            None => Ok(None),
        }
    }

    // The value of a record with this key.
    pub(super) fn get_by<D: Device>(&self, dev: &mut D, key: &K) -> Result<Option<V>, Error>
        requires over { IsOver (means ⟦<PageBlob<S> as SectionBuffer>⟧) D.Device self.now dev.old }
        ensures { Gets (means ⟦<PageBlob<S> as SectionBuffer>⟧) D.Device self.now
            (wanted.Key (K.key_bytes key.now)) result dev.old dev.new }
    {
        match self.find(dev, key)? {
            Some((section, record)) => Ok(Some(self.value_of(dev, section, &record)?)),
            None => Ok(None),
        }
    }

    // The record at a place, which is kept, without its value. It is read from the blob, and not made of the
    // tables.
    pub(super) fn record_at<D: Device>(
        &self,
        dev: &mut D,
        section: u64,
        position: u64,
    ) -> Result<IndexRecord<K>, Error>
        requires over { IsOver (means ⟦<PageBlob<S> as SectionBuffer>⟧) D.Device self.now dev.old }
        requires kept { IsSomeAnd (slice_get ((shown self.now).rows section) position) (λ _. ⊤) }
        ensures { ReadsRecordAt (means ⟦<PageBlob<S> as SectionBuffer>⟧) D.Device K.key_bytes
            self.now section position result dev.old dev.new }
    {
        Ok(self.pair.get(dev, section, position)?)
    }

    // Key and value of the record at a place, which is kept. Both are read from the blobs.
    pub(super) fn entry_at<D: Device>(
        &self,
        dev: &mut D,
        section: u64,
        position: u64,
    ) -> Result<(K, V), Error>
        requires over { IsOver (means ⟦<PageBlob<S> as SectionBuffer>⟧) D.Device self.now dev.old }
        requires kept { IsSomeAnd (slice_get ((shown self.now).rows section) position) (λ _. ⊤) }
        ensures { ReadsEntry (means ⟦<PageBlob<S> as SectionBuffer>⟧) D.Device K.key_bytes self.now
            section position result dev.old dev.new }
    {
        let record = self.record_at(dev, section, position)?;
        let value = self.value_of(dev, section, &record)?;
        Ok((*record.key(), value))
    }

    // The value of a record that was read in its section.
    pub(super) fn value_of<D: Device>(
        &self,
        dev: &mut D,
        section: u64,
        record: &IndexRecord<K>,
    ) -> Result<V, Error>
        requires over { IsOver (means ⟦<PageBlob<S> as SectionBuffer>⟧) D.Device self.now dev.old }
        requires kept { (at : ℕ)
            × IsSomeAnd (slice_get ((shown self.now).rows section) at) (λ _. ⊤) }
        ensures { ReadsValueOf (means ⟦<PageBlob<S> as SectionBuffer>⟧) D.Device K.key_bytes
            self.now section record.now result dev.old dev.new }
    {
        let (offset, size) = record.value_location();
        Ok(self.pair.get_value(dev, section, offset, size)?)
    }

    // The value of the record at a place, which is kept.
    pub(super) fn value_at<D: Device>(
        &self,
        dev: &mut D,
        section: u64,
        position: u64,
    ) -> Result<V, Error>
        requires over { IsOver (means ⟦<PageBlob<S> as SectionBuffer>⟧) D.Device self.now dev.old }
        requires kept { IsSomeAnd (slice_get ((shown self.now).rows section) position) (λ _. ⊤) }
        ensures { Reads (means ⟦<PageBlob<S> as SectionBuffer>⟧) D.Device self.now
            section position result dev.old dev.new }
    {
        let (_, value) = self.entry_at(dev, section, position)?;
        Ok(value)
    }
}
