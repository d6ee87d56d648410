// Sections in buffers without seals.
ghost use Rattle.std.specs.Prelude.{⊤};
ghost use Rattle.section_manager.specs.unsealed.Buffer.{setting_of, key_of, extent_of, content_of, count_of, settled_of, is_unsettled, Stands, IsWhole, MayKeep};
ghost use Rattle.section_manager.specs.unsealed.Laws.{passes, looser, counted, settled_within, all_settled, rested, found_again};

use crate::{BufferFactory, SectionBuffer};
use blob_device::{Device, Handle, RError};
use sealed_pages::WriteBlob;
use std::alloc::Global;

/// Makes buffers without seals.
#[derive(Clone, Copy, Debug)]
pub struct WriteFactory {
    /// From how many bytes on a buffer flushes them.
    pub capacity: usize,
}

impl SectionBuffer for WriteBlob {
    ghost setting = { setting_of };

    ghost holds = { λ _ content. content };

    ghost key = { key_of };

    ghost extent = { extent_of };

    ghost bytes = { content_of };

    ghost byte_count = { count_of };

    ghost settled = { settled_of };

    ghost unsettled = { is_unsettled };

    ghost StartsReads = { ⊥ };

    ghost Stands = { Stands };

    ghost IsWhole = { IsWhole };

    ghost NoChanceSeal = { λ _ _ _. ⊤ };

    ghost MayKeep = { MayKeep };

    ghost CanCut = { λ _ _ _. ⊤ };

    fn size(&self) -> u64 {
        self.size()
    }

    fn needs_sync(&self) -> bool {
        self.needs_sync()
    }

    fn sync<D: Device>(self, dev: &mut D) -> Result<Self, RError> {
        // `WriteBlob::sync` makes no call where nothing is unsettled, as the trait asks.
        self.sync(dev)
    }

    fn start_sync<D: Device>(self, dev: &mut D) -> Result<(Self, Handle), RError> {
        // Settled before the handle is given out: it is of a sync that has finished.
        let this = self.sync(dev)?;
        Ok((this, Handle::finished()))
    }

    fn wait_for_sync<D: Device>(self, _dev: &mut D) -> Result<Self, RError> {
        Ok(self)
    }

    fn truncate<D: Device>(self, dev: &mut D, len: u64) -> Result<Self, RError> {
        // The buffer's own cut flushes what stays of the run first, and then settles the cut.
        self.truncate(dev, len)
    }

    ghost passes = { passes };

    ghost looser = { looser };

    ghost counted = { counted };

    ghost settled_within = { settled_within };

    ghost no_chance = { λ _ _ _ _. tt };

    ghost all_settled = { all_settled };

    ghost rested = { rested };

    ghost found_again = { found_again };
}

impl BufferFactory for WriteFactory {
    type Buffer = WriteBlob;

    ghost gives = { λ f. record { page_size = 1; capacity = f.capacity; cache_pages = 0 } };

    fn create<D: Device>(
        &self,
        alloc: Global,
        _dev: &mut D,
        partition: &str,
        name: &[u8],
        size: u64,
    ) -> Result<WriteBlob, RError> {
        WriteBlob::adopt(alloc, partition, name, size, self.capacity)
    }
}
