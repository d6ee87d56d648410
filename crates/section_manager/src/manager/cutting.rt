// Shortening sections, for good.
ghost use Rattle.std.specs.Prelude.{◌≡◌, ◌↔◌, ◌≤◌, ◌<◌, ℕ, Some, OnErr, IsSome, IsTrue};
ghost use Rattle.std.specs.Ordering.{nat_cmp};
ghost use Rattle.std.specs.BTreeMap.{get};
ghost use Rattle.blob_device.specs.Timeline.{disk};
ghost use Rattle.section_manager.specs.Answers.{seen};
ghost use Rattle.section_manager.specs.Lasting.{IsLonger};
ghost use Rattle.section_manager.specs.Refusing.{IsPruned};
ghost use Rattle.section_manager.specs.Sections.{key_of, IsOver};

use super::Manager;
use super::removing::Doomed;
use crate::journal::Error;
use crate::{BufferFactory, SectionBuffer};
use blob_device::Device;
use std::collections::BTreeMap;

impl<F: BufferFactory> Manager<F> {
    ghost use Rattle.section_manager.specs.managing.Cutting.{CutsBehind, CutsEach, CutsOne, MayBeCut};
    ghost use Rattle.section_manager.specs.managing.Managed.{shown};
    ghost use Rattle.section_manager.specs.managing.Settling.{IsAnyBelow};

    // Whether the section is held, and longer than this.
    fn is_longer(&self, section: u64, size: u64) -> bool
        ensures { IsTrue result ↔ IsLonger F.Buffer.SectionBuffer (shown self.now) section size }
    {
        match self.held.get(section) {
            Some(buffer) => buffer.size() > size,
            None => false,
        }
    }

    // Shortens one section, if it is held and longer.
    fn cut_one<D: Device>(self, dev: &mut D, section: u64, size: u64) -> Result<Self, Error>
        requires over { IsOver F.Buffer.SectionBuffer F.gives D.Tells (shown self)
            (D.opened dev.old) (disk (D.time dev.old)) }
        requires can { D.Tells → MayBeCut F.Buffer.SectionBuffer (shown self) section size
            (disk (D.time dev.old)) }
        ensures { CutsOne F.Buffer.SectionBuffer F.gives D.Device (shown self) section size ⊥
            dev.old dev.new (seen shown result) }
    {
        if !self.is_longer(section, size) {
            return Ok(self);
        }
        let mut this = self;
        let Some(buffer) = this.held.remove(section) else {
            return Ok(this);
        };
        // By the buffer, which settles the cut: bytes may be written there again when this returns.
        let buffer = buffer.truncate(dev, size)?;
        this.held.insert(section, buffer)?;
        Ok(this)
    }

    /// Removes the later sections, the newest first, and then shortens this one to `size` bytes, if it is held
    /// and longer. A shorter length is durable when this returns. The ceiling is lifted.
    pub fn truncate_pending<D: Device>(
        self,
        dev: &mut D,
        section: u64,
        size: u64,
    ) -> Result<Self, Error>
        requires over { IsOver F.Buffer.SectionBuffer F.gives D.Tells (shown self)
            (D.opened dev.old) (disk (D.time dev.old)) }
        requires ceiling { section ≤ (shown self).ceiling }
        requires can { D.Tells → MayBeCut F.Buffer.SectionBuffer (shown self) section size
            (disk (D.time dev.old)) }
        ensures { CutsBehind F.Buffer.SectionBuffer F.gives D.Device (shown self) section size
            dev.old dev.new (seen shown result) }
    {
        self.prune_guard(section)?;
        // The later sections first: a crash leaves none of them behind a section that is cut.
        let (this, _) = self.remove_all(dev, Doomed::After(section))?;
        let mut this = this;
        this.ceiling = u64::MAX;
        // Last, once the later sections are gone for good.
        this.cut_one(dev, section, size)
    }

    /// Shortens this section to `size` bytes, if it is held and longer. A shorter length is durable when this
    /// returns.
    pub fn truncate_pending_section<D: Device>(
        self,
        dev: &mut D,
        section: u64,
        size: u64,
    ) -> Result<Self, Error>
        requires over { IsOver F.Buffer.SectionBuffer F.gives D.Tells (shown self)
            (D.opened dev.old) (disk (D.time dev.old)) }
        requires can { D.Tells → MayBeCut F.Buffer.SectionBuffer (shown self) section size
            (disk (D.time dev.old)) }
        ensures { CutsOne F.Buffer.SectionBuffer F.gives D.Device (shown self) section size
            (section < (shown self).floor) dev.old dev.new (seen shown result) }
    {
        self.prune_guard(section)?;
        // Behind the check alone: the other sections stay.
        self.cut_one(dev, section, size)
    }

    // Refuses the first section that was pruned.
    fn check_sizes(&self, sizes: &BTreeMap<u64, u64>) -> Result<(), Error>
        ensures guard { IsPruned result (shown self.now).floor
            ↔ IsAnyBelow (λ s. IsSome (get nat_cmp sizes.now s)) (shown self.now).floor }
        ensures cause { OnErr result (IsPruned result (shown self.now).floor) }
    {
        for section in sizes.keys() {
            self.prune_guard(*section)?;
        }
        Ok(())
    }

    /// Shortens each of these sections to its size, if it is held and longer. A shorter length is durable when
    /// this returns. All are checked before one is cut.
    pub fn truncate_pending_sections<D: Device>(
        self,
        dev: &mut D,
        sizes: &BTreeMap<u64, u64>,
    ) -> Result<Self, Error>
        requires over { IsOver F.Buffer.SectionBuffer F.gives D.Tells (shown self)
            (D.opened dev.old) (disk (D.time dev.old)) }
        requires can { D.Tells → (s n : ℕ) (u : _) → get nat_cmp sizes.now s ≡ Some n
            → (shown self).held s ≡ Some u → n < F.Buffer.byte_count u
            → F.Buffer.CanCut u (disk (D.time dev.old) (key_of (shown self) s)) n }
        ensures { CutsEach F.Buffer.SectionBuffer F.gives D.Device (shown self)
            (get nat_cmp sizes.now) dev.old dev.new (seen shown result) }
    {
        self.check_sizes(sizes)?;
        let mut this = self;
        for (section, size) in sizes {
            // Behind the check of all, so that a refusal has cut none.
            this = this.cut_one(dev, *section, *size)?;
        }
        Ok(this)
    }
}
