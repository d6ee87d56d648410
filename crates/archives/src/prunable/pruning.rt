// Removing the first sections.
ghost use Rattle.std.specs.Prelude.{◌≡◌, ◌<◌, ◌≤◌, ℕ, false};
ghost use Rattle.std.specs.BTreeSet.{contains};
ghost use Rattle.std.specs.Ordering.{nat_cmp};
ghost use Rattle.archives.specs.Prunable.{IsOver};
ghost use Rattle.archives.specs.Prunes.{Prunes};
ghost use Rattle.archives.specs.Shown.{means, shown};

use super::{Archive, section_of};
use crate::{Error, Translator};
use blob_device::Device;
use sealed_pages::PageBlob;
use segments::SectionBuffer;
use std::collections::BTreeSet;
use value_codec::{Codec, Key, Seal};

impl<T: Translator, K: Key, V: Codec, S: Seal> Archive<T, K, V, S> {
    /// The floor: below it all was pruned, and nothing is put. It takes no memory.
    pub fn floor(&self) -> u64
        ensures { result ≡ (shown self.now).floor }
    {
        self.floor
    }

    /// Removes the sections below that of `min`, as `paired::Oversized::prune` does: first their markers,
    /// durably, then their records, the oldest section first, then their values. Nothing is put below that
    /// section any more, until the archive is opened again.
    ///
    /// Where it is at or below the floor nothing is done. It answers `Full` where a marker has to go and the
    /// markers have no next version; then nothing was written.
    pub fn prune<D: Device>(self, dev: &mut D, min: u64) -> Result<Self, Error>
        requires over { IsOver (means ⟦<PageBlob<S> as SectionBuffer>⟧) D.Device self dev.old }
        ensures { Prunes (means ⟦<PageBlob<S> as SectionBuffer>⟧) D.Device self min
            result dev.old dev.new }
    {
        let bound = section_of(min, self.items_per_section);
        if bound <= self.floor {
            return Ok(self);
        }
        let mut this = self;
        // First what is held in memory: nothing there names a section below the bound once its blobs go.
        // What goes is first, so no run is split and this takes no memory.
        this.tables.remove_below(bound);
        this.indices.remove(0, bound - 1)?;
        remove_below(&mut this.written, bound);
        // Now the blobs: nothing names them any more.
        let (pair, _) = this.pair.prune(dev, bound)?;
        this.pair = pair;
        this.floor = bound;
        Ok(this)
    }
}

// Takes the sections below a bound out of a set.
fn remove_below(sections: &mut BTreeSet<u64>, bound: u64)
    ensures below { (s : ℕ) → s < bound → contains nat_cmp sections.new s ≡ false }
    ensures others { (s : ℕ) → bound ≤ s
        → contains nat_cmp sections.new s ≡ contains nat_cmp sections.old s }
{
    // Those below come first.
    while let Some(first) = sections.first().copied().filter(|s| *s < bound) {
        sections.remove(&first);
    }
}
