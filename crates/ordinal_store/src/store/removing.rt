// Removing sections, for good and in ascending order.
ghost use Rattle.std.specs.Prelude.{◌≡◌, ◌↔◌, ℕ, ◌/◌, ◌^◌, ◌<◌, ◌≤◌, IfOk};
ghost use Rattle.std.specs.BTreeMap.{btree_map_len};
ghost use Rattle.blob_device.specs.Timeline.{disk};
ghost use Rattle.ordinal_store.specs.Calls.{Destroying, Pruning};
ghost use Rattle.ordinal_store.specs.Removing.{Dropping, IsFirst, IsNext, Removing};
ghost use Rattle.ordinal_store.specs.Stores.{IsUsable, sight};

use super::Ordinal;
use crate::RMapError;
use crate::ordinal::Error;
use blob_device::Device;
use value_codec::{CodecFixed, Seal};

impl<A: CodecFixed, S: Seal> Ordinal<A, S> {
    ghost use Rattle.ordinal_store.specs.Shown.{shown};

    // The least section that has a blob, where it is below the bound. Without a bound each section is.
    fn first_below(&self, bound: Option<u64>) -> Option<u64>
        ensures { IsNext (shown A.SIZE S.seal_of A.refusal self.now) bound result }
    {
        let (section, _) = self.buffers.first_key_value()?;
        match bound {
            Some(bound) if bound <= *section => None,
            _ => Some(*section),
        }
    }

    // The last index of a section, or the greatest `u64` where that index would pass it.
    fn last_of(&self, section: u64) -> u64
        requires { 1 ≤ self.now.items }
        ensures { (j : ℕ) → j < 2 ^ 64 → (result < j) ↔ (section < j / self.now.items) }
    {
        section
            .saturating_mul(self.items)
            .saturating_add(self.items - 1)
    }

    // Removes the blob of the least section, and all that is held of it. No index below that section is held, so no run is split.
    fn remove_first<D: Device>(self, dev: &mut D, section: u64) -> Result<Self, Error>
        requires usable { IsUsable (shown A.SIZE S.seal_of A.refusal self) D.Tells
            (D.opened dev.old) (disk (D.time dev.old)) }
        requires first { IsFirst (shown A.SIZE S.seal_of A.refusal self) section }
        ensures dropping { Dropping (shown A.SIZE S.seal_of A.refusal) D.Tells
            (shown A.SIZE S.seal_of A.refusal self) section result (sight D.Device dev.old)
            (sight D.Device dev.new) }
        ensures fewer { IfOk result (λ r. btree_map_len r.buffers < btree_map_len self.buffers) }
    {
        let name = section.to_be_bytes();
        // The blob goes first, so that what the store forgets is gone for good.
        dev.remove(self.partition.as_str(), name.as_slice())?;
        let mut this = self;
        this.buffers.remove(&section);
        this.written.remove(&section);
        let last = this.last_of(section);
        match this.held.remove(0, last) {
            Ok(()) => Ok(this),
            Err(RMapError::Mem) => Err(Error::Mem),
        }
    }

    // Removes the sections below the bound, the least first. Without a bound it removes all of them.
    fn remove_below<D: Device>(self, dev: &mut D, bound: Option<u64>) -> Result<Self, Error>
        requires usable { IsUsable (shown A.SIZE S.seal_of A.refusal self) D.Tells
            (D.opened dev.old) (disk (D.time dev.old)) }
        ensures { Removing (shown A.SIZE S.seal_of A.refusal) D.Tells
            (shown A.SIZE S.seal_of A.refusal self) bound result (sight D.Device dev.old)
            (sight D.Device dev.new) }
    {
        let mut this = self;
        while let Some(section) = this.first_below(bound) {
            // One section is gone for good before the next is touched, so a crash leaves no gap between sections.
            this = this.remove_first(dev, section)?;
        }
        Ok(this)
    }

    /// Removes the sections below that of `min`, for good, the least first. An index below them may be put again.
    pub fn prune<D: Device>(self, dev: &mut D, min: u64) -> Result<Self, Error>
        requires usable { IsUsable (shown A.SIZE S.seal_of A.refusal self) D.Tells
            (D.opened dev.old) (disk (D.time dev.old)) }
        ensures { Pruning (shown A.SIZE S.seal_of A.refusal) D.Tells (shown A.SIZE S.seal_of A.refusal self)
            min result (sight D.Device dev.old) (sight D.Device dev.new) }
    {
        let bound = min / self.items;
        self.remove_below(dev, Some(bound))
    }

    /// Removes all sections, for good, the least first.
    pub fn destroy<D: Device>(self, dev: &mut D) -> Result<(), Error>
        requires usable { IsUsable (shown A.SIZE S.seal_of A.refusal self) D.Tells
            (D.opened dev.old) (disk (D.time dev.old)) }
        ensures { Destroying D.Tells (shown A.SIZE S.seal_of A.refusal self) result (sight D.Device dev.old)
            (sight D.Device dev.new) }
    {
        self.remove_below(dev, None)?;
        Ok(())
    }
}
