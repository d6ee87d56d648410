// Adding records with their values.
ghost use Rattle.std.specs.Prelude.{◌≡◌, ◌≤◌, false};
ghost use Rattle.archives.specs.Prunable.{IsOver};
ghost use Rattle.archives.specs.Puts.{Puts};
ghost use Rattle.archives.specs.Putting.{Times, is_skipped};
ghost use Rattle.archives.specs.Shown.{means, shown};

use super::growing::Held;
use super::index_record::IndexRecord;
use super::{Archive, section_of};
use crate::{Error, Translator};
use blob_device::Device;
use sealed_pages::PageBlob;
use segments::SectionBuffer;
use value_codec::{Codec, Key, Seal};

impl<T: Translator, K: Key, V: Codec, S: Seal> Archive<T, K, V, S> {
    // Adds a record at the end of its index's section, with its value. Such a put is not skipped, so this is
    // the put, of one record to an index or of one of several.
    //
    // What the archive holds in memory grows first, so that a record that was written is never lost for want
    // of memory.
    pub(super) fn append<D: Device>(
        self,
        dev: &mut D,
        index: u64,
        key: K,
        value: &V,
    ) -> Result<Self, Error>
        requires over { IsOver (means ⟦<PageBlob<S> as SectionBuffer>⟧) D.Device self dev.old }
        requires value { (means ⟦<PageBlob<S> as SectionBuffer>⟧).Accepts self value.now }
        requires floor { (shown self).floor ≤ index }
        ensures { (times : Times) → is_skipped (shown self) index times ≡ false
            → Puts (means ⟦<PageBlob<S> as SectionBuffer>⟧) D.Device times self index
            (K.key_bytes key) (V.spelling value.now) result dev.old dev.new }
    {
        let section = section_of(index, self.items_per_section);
        let limits = self.limits;
        if !self
            .tables
            .has_room(limits.sections, limits.per_section, section)
        {
            return Err(Error::Full);
        }
        let word = self.translator.transform(key.as_bytes());
        let mut this = self;
        let held = Held {
            tables: this.tables,
            indices: this.indices,
            written: this.written,
        };
        let held = held.grown(section, index, word)?;
        this.tables = held.tables;
        this.indices = held.indices;
        this.written = held.written;
        let record = IndexRecord::new(index, key);
        // The record goes last: what is held in memory has room for it by now, and adding it cannot fail.
        let (pair, _, _, _) = this.pair.append(dev, section, record, value)?;
        this.pair = pair;
        this.tables.push(section, index, word, &key);
        Ok(this)
    }
}
