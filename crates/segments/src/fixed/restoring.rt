// Opening a fixed journal at a checkpoint: what the checkpoint covers is checked before anything is written.
ghost use Rattle.std.specs.Prelude.{◌≡◌, ◌≢◌, ◌⊎◌, ◌≤◌, ◌<◌, ◌%◌, ◌++◌, ◌∷◌, [], ℕ, List, Some, None, length, OnOk, OnErr, IsSomeAnd, string_bytes};
ghost use Rattle.std.specs.List.{Contains};
ghost use Rattle.std.specs.Result.{IsErrOf};
ghost use Rattle.blob_device.specs.Timeline.{disk};
ghost use Rattle.sealed_pages.specs.Buffer as buffer;
ghost use Rattle.sealed_pages.specs.Reading.{OnlyRead, Unchanged};
ghost use Rattle.sealed_pages.specs.SealedPrefix.{sealed_prefix};
ghost use Rattle.sealed_pages.specs.Shown as page_blob;
ghost use Rattle.section_manager.specs.Answers.{seen};
ghost use Rattle.section_manager.specs.Refusing.{HasFailed};
ghost use Rattle.section_manager.specs.Sections.{key_of, IsHeld, IsOver};
ghost use Rattle.segments.specs.FixedBounds.{whole_of};
ghost use Rattle.segments.specs.FixedChecks.{AreCheckable};
ghost use Rattle.segments.specs.FixedCheckpoint.{Checks, Found, HasCome, IsOpenedFor, IsReady, Looks, Restores};
ghost use Rattle.segments.specs.FixedFloors as floors;
ghost use Rattle.segments.specs.FixedShown as journal;

use super::capping::{prefix_at_most, whole_bytes};
use super::preflighting::Target;
use super::{Config, Journal, Preflight};
use crate::journal::{Damage, Error};
use crate::{AppendFactory, BufferFactory, SectionBuffer};
use blob_device::Device;
use sealed_pages::PageBlob;
use std::alloc::Global;
use value_codec::{CodecFixed, Seal};

// Refuses so many bytes of a section where they end within an item.
fn check_whole<A: CodecFixed>(section: u64, size: u64) -> Result<(), Error>
    ensures whole { OnOk result (size % A.SIZE ≡ 0) }
    ensures partial { OnErr result (size % A.SIZE ≢ 0) }
    ensures damage { OnErr result (IsErrOf result
        (Error.Corruption (record {
          section = section;
          kept = size;
          wanted = whole_of A.SIZE size;
        }))) }
{
    let whole = whole_bytes::<A>(size);
    if whole != size {
        return Err(Error::Corruption(Damage {
            section,
            kept: size,
            wanted: whole,
        }));
    }
    Ok(())
}

impl<A: CodecFixed, S: Seal> Journal<A, S> {
    /// Opens the sections of the partition up to this one, and checks what a checkpoint covers: each
    /// earlier section whole, and the first `size` bytes of this one. No byte is written.
    ///
    /// It refuses a size that ends within an item, before any call of the device, and then a blob with a
    /// name that is no section's, before anything is opened. Then the sections are checked, ascending, and
    /// the first that is refused is answered: by `Corruption`, which names it, where an earlier one ends
    /// within an item, where a boundary above 0 has no blob, where the last item below it is not sealed,
    /// or, of a section that is to be cut, where less than `size` is sealed; by `Codec`, which says why,
    /// where that item is none.
    ///
    /// [`Preflight::finish`] then removes the later sections and cuts this one.
    pub fn preflight_restore<D: Device>(
        alloc: Global,
        dev: &mut D,
        cfg: &Config,
        section: u64,
        size: u64,
    ) -> Result<Preflight<A, S>, Error>
        requires valid { 1 ≤ cfg.now.pages.page_size }
        ensures { Checks S.seal_of cfg.now.pages.page_size A.SIZE (string_bytes cfg.now.partition)
            section size A.spelling A.accepted A.refusal D.Device result dev.old dev.new
            (λ r. Found S.seal_of cfg.now.pages.page_size A.SIZE (string_bytes cfg.now.partition)
            section size A.spelling A.accepted D.Tells (floors.preflight_shown r) (disk (D.time dev.old))
            × IsOpenedFor S.seal_of cfg.now.pages.page_size A.SIZE (string_bytes cfg.now.partition)
            section size A.spelling A.accepted ⟦<PageBlob<S> as SectionBuffer>⟧
            ⟦<AppendFactory<S> as BufferFactory>⟧.gives D.Tells cfg.now.pages cfg.now.write_buffer
            (floors.journal_of r) (D.opened dev.new) (disk (D.time dev.old))
            (disk (D.time dev.new))) }
    {
        check_whole::<A>(section, size)?;
        // Opened before a boundary is checked: the check reads by the buffers, and writes nothing.
        let journal = Journal::init_bounded(alloc, dev, cfg, section)?;
        let found = Preflight::unchecked(alloc, journal);
        let found = found.checked_earlier(dev, section)?;
        let found = found.checked_target(dev, section, size)?;
        // Whole to its end or to the checkpoint: only this section may owe a replay.
        let owing = found.owing_longer()?;
        Ok(owing)
    }

    /// Removes what stands behind a checkpoint. The section owes no replay then: it is cut to its floor.
    pub(super) fn restored<D: Device>(self, dev: &mut D, target: Target) -> Result<Self, Error>
        requires { IsReady ⟦<PageBlob<S> as SectionBuffer>⟧
            ⟦<AppendFactory<S> as BufferFactory>⟧.gives S.seal_of A.SIZE D.Tells
            (journal.shown self) target (D.opened dev.old) (disk (D.time dev.old)) }
        ensures { Restores ⟦<PageBlob<S> as SectionBuffer>⟧
            ⟦<AppendFactory<S> as BufferFactory>⟧.gives S.seal_of A.SIZE D.Device
            (journal.shown self) (seen journal.shown result) dev.old dev.new target }
    {
        // Durable when it returns, the later sections first. What is kept was settled when it was opened.
        let mut this = self.truncate_pending_tail(dev, target.section, target.size)?;
        this.unrecovered.remove(&target.section);
        Ok(this)
    }
}

impl<A: CodecFixed, S: Seal> Preflight<A, S> {
    // Checks the sections before this one, ascending.
    fn checked_earlier<D: Device>(self, dev: &mut D, section: u64) -> Result<Self, Error>
        requires ready { AreCheckable ⟦<PageBlob<S> as SectionBuffer>⟧
            ⟦<AppendFactory<S> as BufferFactory>⟧.gives S.seal_of D.Tells
            (floors.journal_of self).sections (D.opened dev.old) (disk (D.time dev.old)) }
        requires bounded { section ≤ (floors.preflight_shown self).ceiling }
        requires fresh { (s : ℕ) → ((floors.preflight_shown self).boundary_of s ≡ None)
            × ((floors.preflight_shown self).floor_of s ≡ 0) }
        ensures { (bytes : ℕ) → Looks S.seal_of (floors.journal_of
            self).sections.factory.pages.page_size A.SIZE
            (floors.journal_of self).sections.partition section bytes A.spelling A.accepted
            A.refusal D.Device result dev.old dev.new ⟦<PageBlob<S> as SectionBuffer>⟧
            ⟦<AppendFactory<S> as BufferFactory>⟧.gives (floors.journal_of self).sections
            (λ r. HasCome S.seal_of (floors.journal_of self).sections.factory.pages.page_size A.SIZE
            (floors.journal_of self).sections.partition section bytes A.spelling A.accepted
            (λ s. s < section) D.Tells (floors.journal_of self).sections
            (floors.journal_of r).sections (floors.preflight_shown r) (disk (D.time dev.old))) }
    {
        let numbers = self.journal.manager.numbers()?;
        let mut found = self;
        for number in numbers.as_slice() {
            if *number < section {
                found = found.checked_whole(dev, *number)?;
            }
        }
        Ok(found)
    }

    // Checks a section that has to be whole.
    fn checked_whole<D: Device>(self, dev: &mut D, section: u64) -> Result<Self, Error>
        requires ready { AreCheckable ⟦<PageBlob<S> as SectionBuffer>⟧
            ⟦<AppendFactory<S> as BufferFactory>⟧.gives S.seal_of D.Tells
            (floors.journal_of self).sections (D.opened dev.old) (disk (D.time dev.old)) }
        requires is_held { IsHeld (floors.journal_of self).sections section }
        ensures { (at bytes : ℕ) (done : List ℕ) → section < at
            → ((s : ℕ) → s < section → IsHeld (floors.journal_of self).sections s → Contains done s)
            → HasCome S.seal_of (floors.journal_of self).sections.factory.pages.page_size A.SIZE
            (floors.journal_of self).sections.partition at bytes A.spelling A.accepted
            (λ s. Contains done s × (s < at)) D.Tells (floors.journal_of self).sections
            (floors.journal_of self).sections (floors.preflight_shown self) (disk (D.time dev.old))
            → Looks S.seal_of (floors.journal_of self).sections.factory.pages.page_size A.SIZE
            (floors.journal_of self).sections.partition at bytes A.spelling A.accepted A.refusal
            D.Device result dev.old dev.new ⟦<PageBlob<S> as SectionBuffer>⟧
            ⟦<AppendFactory<S> as BufferFactory>⟧.gives (floors.journal_of self).sections
            (λ r. HasCome S.seal_of (floors.journal_of self).sections.factory.pages.page_size A.SIZE
            (floors.journal_of self).sections.partition at bytes A.spelling A.accepted
            (λ s. Contains (done ++ section ∷ []) s × (s < at)) D.Tells
            (floors.journal_of self).sections (floors.journal_of r).sections (floors.preflight_shown r)
            (disk (D.time dev.old))) }
    {
        let size = self.journal.manager.size(section)?;
        check_whole::<A>(section, size)?;
        self.checked(dev, section, size / A::SIZE as u64)
    }

    // Checks the section of the checkpoint, and notes where it is cut. A checkpoint of no bytes asks for no
    // blob.
    fn checked_target<D: Device>(self, dev: &mut D, section: u64, size: u64) -> Result<Self, Error>
        requires ready { AreCheckable ⟦<PageBlob<S> as SectionBuffer>⟧
            ⟦<AppendFactory<S> as BufferFactory>⟧.gives S.seal_of D.Tells
            (floors.journal_of self).sections (D.opened dev.old) (disk (D.time dev.old)) }
        requires bounded { section ≤ (floors.preflight_shown self).ceiling }
        requires whole { size % A.SIZE ≡ 0 }
        requires earlier { HasCome S.seal_of (floors.journal_of
            self).sections.factory.pages.page_size A.SIZE
            (floors.journal_of self).sections.partition section size A.spelling A.accepted
            (λ s. s < section) D.Tells (floors.journal_of self).sections
            (floors.journal_of self).sections (floors.preflight_shown self) (disk (D.time dev.old)) }
        ensures { Looks S.seal_of (floors.journal_of self).sections.factory.pages.page_size A.SIZE
            (floors.journal_of self).sections.partition section size A.spelling A.accepted A.refusal
            D.Device result dev.old dev.new ⟦<PageBlob<S> as SectionBuffer>⟧
            ⟦<AppendFactory<S> as BufferFactory>⟧.gives (floors.journal_of self).sections
            (λ r. HasCome S.seal_of (floors.journal_of self).sections.factory.pages.page_size A.SIZE
            (floors.journal_of self).sections.partition section size A.spelling A.accepted
            (λ s. s ≤ section) D.Tells (floors.journal_of self).sections
            (floors.journal_of r).sections (floors.preflight_shown r) (disk (D.time dev.old))
            × ((floors.preflight_shown r).floor_of section ≡ size)
            × IsSomeAnd (floors.preflight_shown r).target (λ t. (t.section ≡ section) × (t.size ≡ size))) }
    {
        let mut this = self;
        this.target = Some(Target { section, size });
        if size == 0 {
            return this.with_floor(section, 0, None);
        }
        let this = this.checked(dev, section, size / A::SIZE as u64)?;
        this.check_prefix(dev, section, size)?;
        Ok(this)
    }

    // Refuses a cut to more than is sealed. A section that is not longer is not cut, and not read.
    fn check_prefix<D: Device>(&self, dev: &mut D, section: u64, size: u64) -> Result<(), Error>
        requires floor { (floors.journal_of self.now).sections.floor ≡ 0 }
        requires over { IsOver ⟦<PageBlob<S> as SectionBuffer>⟧
            ⟦<AppendFactory<S> as BufferFactory>⟧.gives D.Tells
            (floors.journal_of self.now).sections (D.opened dev.old) (disk (D.time dev.old)) }
        ensures sealed { D.Tells → OnOk result ((u : _)
            → (floors.journal_of self.now).sections.held section ≡ Some u → size
            < buffer.size_of (page_blob.shown u) → size
            ≤ length (sealed_prefix S.seal_of u.page_size
            (disk (D.time dev.old) (key_of (floors.journal_of self.now).sections section)).content)) }
        ensures damage { D.Tells → (x : _) → IsErrOf result (Error.Corruption x)
            → IsSomeAnd ((floors.journal_of self.now).sections.held section)
            (λ u. (x.section ≡ section) × (x.kept ≡ length
            (sealed_prefix S.seal_of u.page_size (disk (D.time dev.old)
            (key_of (floors.journal_of self.now).sections section)).content)) × (x.wanted ≡ size)
            × (x.kept < size)) }
        ensures unchanged { D.Tells → Unchanged (D.time dev.old) (D.time dev.new) }
        ensures entries { OnlyRead (key_of (floors.journal_of self.now).sections section)
            (D.opened dev.old) (D.opened dev.new) }
        ensures faults { D.faults dev.old ≤ D.faults dev.new }
        ensures cause { OnErr result (((x : _) × IsErrOf result (Error.Corruption x))
            ⊎ HasFailed result (D.faults dev.old) (D.faults dev.new)) }
    {
        let Some(buffer) = self.journal.manager.get(section)? else {
            return Ok(());
        };
        if buffer.size() <= size {
            return Ok(());
        }
        let piece = self.journal.manager.factory().write_buffer;
        let kept = prefix_at_most(buffer, dev, size, piece)?;
        if kept < size {
            return Err(Error::Corruption(Damage {
                section,
                kept,
                wanted: size,
            }));
        }
        Ok(())
    }
}
