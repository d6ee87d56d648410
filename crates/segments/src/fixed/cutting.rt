// Shortening a section of a fixed journal, for good.
ghost use Rattle.std.specs.Prelude.{◌≡◌, ◌≢◌, ◌⊎◌, ◌≤◌, ◌<◌, ◌%◌, ℕ, Some, false, length, IsSomeAnd};
ghost use Rattle.std.specs.Ordering.{nat_cmp};
ghost use Rattle.std.specs.BTreeSet as set;
ghost use Rattle.blob_device.specs.Timeline.{disk};
ghost use Rattle.sealed_pages.specs.Buffer.{size_of};
ghost use Rattle.sealed_pages.specs.SealedPrefix.{sealed_prefix};
ghost use Rattle.section_manager.specs.Answers.{seen};
ghost use Rattle.section_manager.specs.Sections.{key_of};
ghost use Rattle.segments.specs.FixedCutting.{Cuts};

use super::Journal;
use super::floors::lower_to;
use crate::journal::Error;
use crate::{AppendFactory, BufferFactory, SectionBuffer};
use blob_device::Device;
use sealed_pages::PageBlob;
use std::collections::BTreeSet;
use value_codec::{CodecFixed, Seal};

// A section that is cut to nothing owes no replay.
fn forget_emptied(numbers: &mut BTreeSet<u64>, section: u64, size: u64)
    ensures emptied { size ≡ 0 → set.contains nat_cmp numbers.new section ≡ false }
    ensures others { (q : ℕ) → (q ≢ section) ⊎ (0 < size) → set.contains nat_cmp numbers.new q
        ≡ set.contains nat_cmp numbers.old q }
{
    if size == 0 {
        numbers.remove(&section);
    }
}

impl<A: CodecFixed, S: Seal> Journal<A, S> {
    ghost use Rattle.sealed_pages.specs.Shown as page_blob;
    ghost use Rattle.segments.specs.FixedShown.{shown};
    ghost use Rattle.segments.specs.FixedLists.{IsJournal, IsProven};

    /// Shortens this section to `size` bytes, if it is held and longer. A shorter length is durable when
    /// this returns. A section that is cut to nothing takes appends again. The section's floor is no higher
    /// than `size` from then on.
    pub fn truncate_pending_section<D: Device>(
        self,
        dev: &mut D,
        section: u64,
        size: u64,
    ) -> Result<Self, Error>
        requires over { IsJournal
            ⟦<PageBlob<S> as SectionBuffer>⟧ ⟦<AppendFactory<S> as BufferFactory>⟧.gives
            S.seal_of A.SIZE D.Tells (shown self) (D.opened dev.old) (disk (D.time dev.old)) }
        // A cut is to whole items, and of a section that owes a replay or has a floor to at most its
        // sealed prefix.
        requires whole { IsSomeAnd ((shown self).sections.held section)
            (λ u. size < size_of (page_blob.shown u)) → size % A.SIZE ≡ 0 }
        requires sealed { D.Tells → (u : _) → (shown self).sections.held section ≡ Some u
            → size < size_of (page_blob.shown u) → (IsProven (shown self) section → ⊥)
            → size ≤ length (sealed_prefix S.seal_of u.page_size
            (disk (D.time dev.old) (key_of (shown self).sections section)).content) }
        ensures { Cuts
            ⟦<PageBlob<S> as SectionBuffer>⟧ ⟦<AppendFactory<S> as BufferFactory>⟧.gives
            S.seal_of A.SIZE D.Device (shown self) section size dev.old
            (seen shown result) dev.new }
    {
        let mut this = self;
        // Durable before the notes follow: only a section that is cut to nothing owes no replay any more.
        this.manager = this.manager.truncate_pending_section(dev, section, size)?;
        forget_emptied(&mut this.unrecovered, section, size);
        lower_to(&mut this.floors, section, size);
        Ok(this)
    }
}
