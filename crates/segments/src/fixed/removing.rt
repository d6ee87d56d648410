// Removing sections of a fixed journal, for good and in order.
ghost use Rattle.std.specs.Prelude.{◌≡◌, ◌≤◌, ◌<◌, ℕ, false};
ghost use Rattle.std.specs.Ordering.{nat_cmp};
ghost use Rattle.std.specs.BTreeSet as set;
ghost use Rattle.blob_device.specs.Timeline.{disk};
ghost use Rattle.section_manager.specs.Answers.{seen};
ghost use Rattle.section_manager.specs.managing.Removing.{Destroys};
ghost use Rattle.segments.specs.FixedRemoving.{Clears, Prunes};

use super::Journal;
use super::floors::lift_below;
use crate::journal::Error;
use crate::{AppendFactory, BufferFactory, SectionBuffer};
use blob_device::Device;
use sealed_pages::PageBlob;
use std::collections::BTreeSet;
use value_codec::{CodecFixed, Seal};

// Takes the numbers below `min` out.
fn forget_below(numbers: &mut BTreeSet<u64>, min: u64)
    ensures below { (s : ℕ) → s < min → set.contains nat_cmp numbers.new s ≡ false }
    ensures others { (s : ℕ) → min ≤ s → set.contains nat_cmp numbers.new s
        ≡ set.contains nat_cmp numbers.old s }
{
    while let Some(first) = numbers.first().copied().filter(|n| *n < min) {
        numbers.remove(&first);
    }
}

impl<A: CodecFixed, S: Seal> Journal<A, S> {
    ghost use Rattle.segments.specs.FixedShown.{flagged, shown};
    ghost use Rattle.segments.specs.FixedLists.{IsJournal};

    /// Removes the sections below `min`, the oldest first, and says whether there was one; only then `min`
    /// is the floor.
    pub fn prune<D: Device>(self, dev: &mut D, min: u64) -> Result<(Self, bool), Error>
        requires over { IsJournal
            ⟦<PageBlob<S> as SectionBuffer>⟧ ⟦<AppendFactory<S> as BufferFactory>⟧.gives
            S.seal_of A.SIZE D.Tells (shown self) (D.opened dev.old) (disk (D.time dev.old)) }
        ensures { Prunes (shown self)
            ⟦<PageBlob<S> as SectionBuffer>⟧ ⟦<AppendFactory<S> as BufferFactory>⟧.gives
            S.seal_of A.SIZE min D.Device (seen flagged result) dev.old dev.new }
    {
        let Journal {
            alloc,
            manager,
            mut unrecovered,
            mut floors,
            spelling,
            item,
        } = self;
        // The blobs first; then no note is kept of a section that is gone.
        let (manager, was) = manager.prune(dev, min)?;
        forget_below(&mut unrecovered, min);
        lift_below(&mut floors, min);
        let this = Journal {
            alloc,
            manager,
            unrecovered,
            floors,
            spelling,
            item,
        };
        Ok((this, was))
    }

    /// Removes all sections, the oldest first, and lifts the floor and the bound of the opening.
    pub fn clear<D: Device>(self, dev: &mut D) -> Result<Self, Error>
        requires over { IsJournal
            ⟦<PageBlob<S> as SectionBuffer>⟧ ⟦<AppendFactory<S> as BufferFactory>⟧.gives
            S.seal_of A.SIZE D.Tells (shown self) (D.opened dev.old) (disk (D.time dev.old)) }
        ensures { Clears (shown self)
            ⟦<PageBlob<S> as SectionBuffer>⟧ ⟦<AppendFactory<S> as BufferFactory>⟧.gives
            S.seal_of A.SIZE D.Device (seen shown result) dev.old dev.new }
    {
        let mut this = self;
        // The blobs first; then no note is kept of a section that is gone.
        this.manager = this.manager.clear(dev)?;
        this.unrecovered.clear();
        this.floors.clear();
        Ok(this)
    }

    /// Removes all sections, the oldest first.
    pub fn destroy<D: Device>(self, dev: &mut D) -> Result<(), Error>
        requires over { IsJournal
            ⟦<PageBlob<S> as SectionBuffer>⟧ ⟦<AppendFactory<S> as BufferFactory>⟧.gives
            S.seal_of A.SIZE D.Tells (shown self) (D.opened dev.old) (disk (D.time dev.old)) }
        ensures { Destroys D.Device (shown self).sections dev.old dev.new result }
    {
        let Journal { manager, .. } = self;
        // The blobs are all there is: notes are in memory alone.
        manager.destroy(dev)
    }
}
