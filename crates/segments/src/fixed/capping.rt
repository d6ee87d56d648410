// Opening a fixed journal up to a byte of a section, and cutting what stands behind.
ghost use Rattle.std.specs.Prelude.{◌≡◌, ◌≤◌, ◌<◌, ◌%◌, Some, length, OnErr, IsSomeAnd, string_bytes};
ghost use Rattle.blob_device.specs.Timeline.{disk};
ghost use Rattle.sealed_pages.specs.Buffer as pages;
ghost use Rattle.sealed_pages.specs.Entries.{IsOpenAt};
ghost use Rattle.sealed_pages.specs.SealedPrefix.{sealed_prefix};
ghost use Rattle.sealed_pages.specs.Shown as page_blob;
ghost use Rattle.section_manager.specs.Answers.{seen};
ghost use Rattle.section_manager.specs.Sections.{key_of, IsOver};
ghost use Rattle.segments.specs.FixedBounds.{whole_of, MeasuresBlob, Recovers, FindsEnd, CutsTail, Bounds, IsBoundCause, IsDrainCause, IsOpenedCut, IsOpenedAtMost};

use super::floors::lift_after;
use super::replaying::forget_later;
use super::{Config, Journal};
use crate::journal::Error;
use crate::{AppendFactory, BufferFactory, SectionBuffer};
use blob_device::{Device, RError};
use sealed_pages::PageBlob;
use std::alloc::Global;
use value_codec::{CodecFixed, Seal};

/// So many bytes without a partial item at their end.
pub(super) fn whole_bytes<A: CodecFixed>(bytes: u64) -> u64
    ensures { result ≡ whole_of A.SIZE bytes }
{
    bytes - bytes % A::SIZE as u64
}

/// The bytes of a buffer's sealed prefix, and no more than `end`.
pub(super) fn prefix_at_most<D: Device, S: Seal>(
    buffer: &PageBlob<S>,
    dev: &mut D,
    end: u64,
    piece: usize,
) -> Result<u64, RError>
    requires { IsOpenAt (D.opened dev.old) (pages.key_of (page_blob.shown buffer.now))
        buffer.now.end }
    ensures { MeasuresBlob S.seal_of D.Device buffer.now dev.old dev.new end result }
{
    // No page behind `end` is read.
    let kept = buffer.recoverable_prefix_len_at_most(dev, 0, end, piece)?;
    // That it is no more than `end` is promised there of a disk that is told.
    Ok(kept.min(end))
}

impl<A: CodecFixed, S: Seal> Journal<A, S> {
    ghost use Rattle.segments.specs.FixedShown.{shown};
    ghost use Rattle.segments.specs.FixedLists.{IsJournal, IsProven};

    /// How many bytes of the section's sealed prefix are whole items that end at or before `end`. Of a
    /// section that is not held it is `end`, without a partial item. It reads pieces of about `buffer`
    /// bytes, and no page behind `end`.
    pub fn recoverable_prefix_len_at_most<D: Device>(
        &self,
        dev: &mut D,
        section: u64,
        end: u64,
        buffer: usize,
    ) -> Result<u64, Error>
        requires over { IsOver ⟦<PageBlob<S> as SectionBuffer>⟧
            ⟦<AppendFactory<S> as BufferFactory>⟧.gives D.Tells (shown self.now).sections
            (D.opened dev.old) (disk (D.time dev.old)) }
        ensures { Recovers ⟦<PageBlob<S> as SectionBuffer>⟧
            ⟦<AppendFactory<S> as BufferFactory>⟧.gives S.seal_of A.SIZE D.Device (shown self.now)
            section end result dev.old dev.new }
    {
        let Some(held) = self.manager.get(section)? else {
            return Ok(whole_bytes::<A>(end));
        };
        let kept = prefix_at_most(held, dev, end, buffer)?;
        Ok(whole_bytes::<A>(kept))
    }

    /// Removes the later sections, the newest first, and then shortens this one to `end` bytes, if it is
    /// held and longer. A shorter length is durable when this returns. The bound of the opening is lifted.
    ///
    /// The later sections owe no replay any more, and have no floor; this one does, and has, as before.
    pub fn truncate_pending_tail<D: Device>(
        self,
        dev: &mut D,
        section: u64,
        end: u64,
    ) -> Result<Self, Error>
        requires over { IsJournal ⟦<PageBlob<S> as SectionBuffer>⟧
            ⟦<AppendFactory<S> as BufferFactory>⟧.gives S.seal_of A.SIZE D.Tells (shown self)
            (D.opened dev.old) (disk (D.time dev.old)) }
        requires ceiling { section ≤ (shown self).sections.ceiling }
        // A cut is to whole items, and of a section that owes a replay or has a floor to at most its sealed
        // prefix.
        requires whole { IsSomeAnd ((shown self).sections.held section)
            (λ u. end < pages.size_of (page_blob.shown u)) → end % A.SIZE ≡ 0 }
        requires sealed { D.Tells → (u : _) → (shown self).sections.held section ≡ Some u → end
            < pages.size_of (page_blob.shown u) → (IsProven (shown self) section → ⊥) → end
            ≤ length (sealed_prefix S.seal_of u.page_size
            (disk (D.time dev.old) (key_of (shown self).sections section)).content) }
        ensures { CutsTail ⟦<PageBlob<S> as SectionBuffer>⟧
            ⟦<AppendFactory<S> as BufferFactory>⟧.gives S.seal_of A.SIZE D.Tells (shown self)
            section end D.Device (seen shown result) dev.old dev.new }
    {
        let mut this = self;
        // The later blobs first, then the cut; then no note is kept of a section that is gone.
        this.manager = this.manager.truncate_pending(dev, section, end)?;
        forget_later(&mut this.unrecovered, section);
        lift_after(&mut this.floors, section);
        Ok(this)
    }

    // Where a section is to be cut that is to have no more than `end` bytes: at the end of its last sealed
    // item before. A section that is not longer is not read.
    fn end_within<D: Device>(
        &self,
        dev: &mut D,
        section: u64,
        end: u64,
        piece: usize,
    ) -> Result<u64, Error>
        requires over { IsOver ⟦<PageBlob<S> as SectionBuffer>⟧
            ⟦<AppendFactory<S> as BufferFactory>⟧.gives D.Tells (shown self.now).sections
            (D.opened dev.old) (disk (D.time dev.old)) }
        requires whole { end % A.SIZE ≡ 0 }
        ensures { FindsEnd S.seal_of A.SIZE D.Device (shown self.now).sections section end result
            dev.old dev.new }
    {
        if self.manager.size(section)? <= end {
            return Ok(end);
        }
        self.recoverable_prefix_len_at_most(dev, section, end, piece)
    }

    /// Opens the sections of the partition up to this one, removes the later ones, the newest first, and
    /// then cuts this one to the whole items of its sealed prefix that end at or before `end`. Each section
    /// that had bytes before the cut owes a replay, also one that the cut emptied.
    ///
    /// It refuses a blob with a name that is no section's, also above the bound, before it changes anything.
    pub fn open_at_most<D: Device>(
        alloc: Global,
        dev: &mut D,
        cfg: &Config,
        section: u64,
        end: u64,
    ) -> Result<Self, Error>
        requires valid { 1 ≤ cfg.now.pages.page_size }
        ensures bounds { Bounds S.seal_of cfg.now.pages.page_size A.SIZE
            (string_bytes cfg.now.partition) section end D.Device (seen shown result) dev.old
            dev.new (λ k. IsOpenedCut S.seal_of cfg.now.pages.page_size A.SIZE
            (string_bytes cfg.now.partition) section end ⟦<PageBlob<S> as SectionBuffer>⟧
            ⟦<AppendFactory<S> as BufferFactory>⟧.gives D.Tells cfg.now.pages cfg.now.write_buffer k
            (D.opened dev.new) (disk (D.time dev.old)) (disk (D.time dev.new))) }
        ensures cause { OnErr (seen shown result) (IsBoundCause S.seal_of cfg.now.pages.page_size
            A.SIZE (string_bytes cfg.now.partition) section end D.Device (seen shown result) dev.old
            dev.new) }
    {
        // All names are looked at here: nothing is removed before.
        let journal = Journal::init_bounded(alloc, dev, cfg, section)?;
        let end = whole_bytes::<A>(end);
        let end = journal.end_within(dev, section, end, cfg.write_buffer)?;
        // The later sections go before the cut, so that a crash leaves none behind a section that is cut.
        journal.truncate_pending_tail(dev, section, end)
    }

    /// As [`open_at_most`](Journal::open_at_most), and goes over all that is left: each section is cut
    /// durably to the whole items of its sealed prefix, each of which decodes. The sections take appends.
    pub fn init_at_most<D: Device>(
        alloc: Global,
        dev: &mut D,
        cfg: &Config,
        section: u64,
        end: u64,
    ) -> Result<Self, Error>
        requires valid { 1 ≤ cfg.now.pages.page_size }
        ensures bounds { Bounds S.seal_of cfg.now.pages.page_size A.SIZE
            (string_bytes cfg.now.partition) section end D.Device (seen shown result) dev.old
            dev.new (λ k. IsOpenedAtMost S.seal_of cfg.now.pages.page_size A.SIZE
            (string_bytes cfg.now.partition) section end ⟦<PageBlob<S> as SectionBuffer>⟧
            ⟦<AppendFactory<S> as BufferFactory>⟧.gives D.Tells cfg.now.pages cfg.now.write_buffer
            A.spelling A.accepted k (D.opened dev.new) (disk (D.time dev.old))
            (disk (D.time dev.new))) }
        ensures cause { IsDrainCause S.seal_of cfg.now.pages.page_size A.SIZE
            (string_bytes cfg.now.partition) section end D.Device (seen shown result) dev.old
            dev.new A.spelling A.accepted A.refusal }
    {
        let journal = Journal::open_at_most(alloc, dev, cfg, section, end)?;
        // Behind the cut: what stands above the bound is not judged.
        let replay = journal.replay(dev, 0, 0, cfg.write_buffer)?;
        replay.drain(dev)
    }
}
