// Adding a record, and which sections a sync settles.
ghost use Rattle.std.specs.Prelude.{◌≡◌, ◌≤◌, ◌↔◌, ℕ, None, false, Contains, IfOk, OnOk, OnErr};
ghost use Rattle.std.specs.Result.{IsErrOf};
ghost use Rattle.std.specs.BTreeMap.{get};
ghost use Rattle.std.specs.Ordering.{nat_cmp};
ghost use Rattle.cache_store.specs.Caches.{holds};
ghost use Rattle.cache_store.specs.Changes.{MayUse, Puts};
ghost use Rattle.cache_store.specs.Holding.{marked};
ghost use Rattle.section_manager.specs.Answers.{seen};
ghost use Rattle.cache_store.specs.Shown.{config_of, shown};

use super::{Cache, section_of};
use crate::held::{is_noted, note};
use crate::record::Record;
use blob_device::Device;
use sealed_pages::PageBlob;
use section_manager::journal::Error;
use section_manager::{AppendFactory, BufferFactory, SectionBuffer};
use std::collections::BTreeMap;
use value_codec::{Codec, Seal};

// Notes that a section of this size is written. What was noted since the last sync stays.
fn note_written(written: &mut BTreeMap<u64, u64>, section: u64, size: u64) -> Result<(), Error>
    ensures noted { OnOk result ((s : ℕ)
        → get nat_cmp written.new s ≡ marked section size (get nat_cmp written.old) s) }
    ensures cause { OnErr result (IsErrOf result Error.Mem) }
{
    if is_noted(written, section) {
        return Ok(());
    }
    note(written, section, size)
}

impl<V: Codec, S: Seal> Cache<V, S> {
    // Adds the record at the end of its section. Such a put is not skipped, so this is the put.
    pub(super) fn append<D: Device>(self, dev: &mut D, index: u64, value: V) -> Result<Self, Error>
        requires over { MayUse ⟦<PageBlob<S> as SectionBuffer>⟧
            ⟦<AppendFactory<S> as BufferFactory>⟧.gives D.Device (shown V.refusal self) dev.old }
        requires value { V.accepted value (config_of self) }
        requires floor { (shown V.refusal self).floor ≤ index }
        requires absent { holds (shown V.refusal self) index ≡ false }
        ensures { Puts ⟦<PageBlob<S> as SectionBuffer>⟧
            ⟦<AppendFactory<S> as BufferFactory>⟧.gives D.Device (shown V.refusal self) index
            (V.spelling value) (seen (shown V.refusal) result)
            (config_of self) (seen config_of result) dev.old dev.new }
    {
        let section = section_of(index, self.items_per_blob);
        let record = Record { index, value };
        let mut this = self;
        // In one append: a crash leaves of it no more than a frame cut short.
        let (journal, offset, _) = this.journal.append(dev, section, &record)?;
        this.journal = journal;
        // Where there is no memory to note it, the cache is given up, and opened again with the
        // record or without.
        note_written(&mut this.written, section, offset)?;
        this.held.insert(index, offset)?;
        Ok(this)
    }

    // The sections written since the last sync.
    pub(super) fn written_sections(&self) -> Result<Vec<u64>, Error>
        ensures each { IfOk result (λ r. (s : ℕ) → Contains r.items s
            ↔ ((shown V.refusal self.now).written s ≡ None → ⊥)) }
        ensures cause { OnErr result (IsErrOf result Error.Mem) }
    {
        Ok(self.written.keys().copied().collect(self.alloc)?)
    }
}
