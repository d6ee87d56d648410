// Removing sections, for good and in order.
ghost use Rattle.std.specs.Prelude.{◌≡◌, ◌≢◌, ◌↔◌, ◌≤◌, ◌<◌, ℕ, None, IfOk, IfSome, IsTrue};
ghost use Rattle.blob_device.specs.Timeline.{disk};
ghost use Rattle.section_manager.specs.Answers.{seen};
ghost use Rattle.section_manager.specs.Sections.{IsKnown, IsOver, IsSection};

use super::Manager;
use crate::journal::Error;
use crate::unopened::Unopened;
use crate::{BufferFactory, SectionBuffer};
use blob_device::Device;

/// Which sections are removed.
#[derive(Clone, Copy)]
pub(super) enum Doomed {
    /// Those up to this one, the oldest first.
    Through(u64),
    /// Those after this one, the newest first.
    After(u64),
}

impl<F: BufferFactory> Manager<F> {
    ghost use Rattle.section_manager.specs.managing.Managed.{flagged, known_count, shown};
    ghost use Rattle.section_manager.specs.managing.Removing.{Clears, Destroys, Forgets, Prunes};
    ghost use Rattle.section_manager.specs.managing.Removing.{RemovesAll, RemovesOne};
    ghost use Rattle.section_manager.specs.Doomed.{IsDoomed, GoesBefore};

    // The least section that is known.
    fn oldest_known(&self) -> Option<u64>
        ensures none { result ≡ None → (s : ℕ) → IsKnown (shown self.now) s → ⊥ }
        ensures known { IfSome result (IsKnown (shown self.now)) }
        ensures least { IfSome result (λ n. (s : ℕ) → IsKnown (shown self.now) s → n ≤ s) }
    {
        let unopened = self.unopened.first_key_value().map(|entry| *entry.0);
        match self.held.first() {
            None => unopened,
            Some(held) => Some(held.min(unopened.unwrap_or(held))),
        }
    }

    // The greatest.
    fn newest_known(&self) -> Option<u64>
        ensures none { result ≡ None → (s : ℕ) → IsKnown (shown self.now) s → ⊥ }
        ensures known { IfSome result (IsKnown (shown self.now)) }
        ensures greatest { IfSome result (λ n. (s : ℕ) → IsKnown (shown self.now) s → s ≤ n) }
    {
        let unopened = self.unopened.last_key_value().map(|entry| *entry.0);
        match self.held.last() {
            None => unopened,
            Some(held) => Some(held.max(unopened.unwrap_or(held))),
        }
    }

    // The section to be removed next.
    fn next_doomed(&self, doomed: Doomed) -> Option<u64>
        ensures none { result ≡ None → (s : ℕ) → IsDoomed (shown self.now) doomed s → ⊥ }
        ensures doomed { IfSome result (IsDoomed (shown self.now) doomed) }
        ensures first { IfSome result (λ n. (s : ℕ) → IsDoomed (shown self.now) doomed s → s ≢ n
            → GoesBefore doomed n s) }
    {
        match doomed {
            Doomed::Through(last) => self.oldest_known().filter(|n| *n <= last),
            Doomed::After(kept) => self.newest_known().filter(|n| *n > kept),
        }
    }

    // Whether the section is held, or unopened and no leftover.
    fn is_section(&self, section: u64) -> bool
        ensures { IsTrue result ↔ IsSection (shown self.now) section }
    {
        self.held.contains(section)
            || matches!(self.unopened.get(&section), Some(Unopened::Section))
    }

    // Removes the section's blob for good, and forgets the section.
    fn remove_known<D: Device>(self, dev: &mut D, section: u64) -> Result<Self, Error>
        requires over { IsOver F.Buffer.SectionBuffer F.gives D.Tells (shown self)
            (D.opened dev.old) (disk (D.time dev.old)) }
        ensures forgets { Forgets F.Buffer.SectionBuffer F.gives D.Device (shown self) section
            dev.old dev.new (seen shown result) }
        ensures fewer { IsKnown (shown self) section
            → IfOk result (λ r. known_count r < known_count self) }
    {
        let name = section.to_be_bytes();
        // Before the section is forgotten: only a removal that returned Ok lasts.
        dev.remove(self.partition.as_str(), name.as_slice())?;
        let mut this = self;
        this.held.remove(section);
        this.unopened.remove(&section);
        Ok(this)
    }

    // Removes sections one after another, and says whether there was one that was no leftover.
    pub(super) fn remove_all<D: Device>(
        self,
        dev: &mut D,
        doomed: Doomed,
    ) -> Result<(Self, bool), Error>
        requires over { IsOver F.Buffer.SectionBuffer F.gives D.Tells (shown self)
            (D.opened dev.old) (disk (D.time dev.old)) }
        ensures { RemovesAll F.Buffer.SectionBuffer F.gives D.Device (shown self) doomed
            dev.old dev.new (seen flagged result) }
    {
        let mut this = self;
        let mut removed = false;
        while let Some(section) = this.next_doomed(doomed) {
            removed = removed || this.is_section(section);
            // Each has returned before the next one begins, so that a crash leaves no hole.
            this = this.remove_known(dev, section)?;
        }
        Ok((this, removed))
    }

    /// Removes the sections below `min`, the oldest first, and says whether there was one; only then `min` is
    /// the floor.
    pub fn prune<D: Device>(self, dev: &mut D, min: u64) -> Result<(Self, bool), Error>
        requires over { IsOver F.Buffer.SectionBuffer F.gives D.Tells (shown self)
            (D.opened dev.old) (disk (D.time dev.old)) }
        ensures { Prunes F.Buffer.SectionBuffer F.gives D.Device (shown self) min dev.old dev.new
            (seen flagged result) }
    {
        if min == 0 {
            return Ok((self, false));
        }
        // Before the floor moves: calls are refused only below what is gone.
        let (this, removed) = self.remove_all(dev, Doomed::Through(min - 1))?;
        let mut this = this;
        if removed {
            this.floor = min;
        }
        Ok((this, removed))
    }

    /// Removes one section, and says whether it was held.
    pub fn remove_section<D: Device>(self, dev: &mut D, section: u64) -> Result<(Self, bool), Error>
        requires over { IsOver F.Buffer.SectionBuffer F.gives D.Tells (shown self)
            (D.opened dev.old) (disk (D.time dev.old)) }
        ensures { RemovesOne F.Buffer.SectionBuffer F.gives D.Device (shown self) section
            dev.old dev.new (seen flagged result) }
    {
        self.prune_guard(section)?;
        if !self.held.contains(section) {
            return Ok((self, false));
        }
        // Behind the checks: a pruned section is refused, and one that is not held is left alone.
        Ok((self.remove_known(dev, section)?, true))
    }

    /// Removes all sections, the oldest first, and lifts the floor and the ceiling.
    pub fn clear<D: Device>(self, dev: &mut D) -> Result<Self, Error>
        requires over { IsOver F.Buffer.SectionBuffer F.gives D.Tells (shown self)
            (D.opened dev.old) (disk (D.time dev.old)) }
        ensures { Clears F.Buffer.SectionBuffer F.gives D.Device (shown self) dev.old dev.new
            (seen shown result) }
    {
        // Before the bounds are lifted: sections above the ceiling are removed too.
        let (this, _) = self.remove_all(dev, Doomed::Through(u64::MAX))?;
        let mut this = this;
        this.floor = 0;
        this.ceiling = u64::MAX;
        Ok(this)
    }

    /// Removes all sections, the oldest first.
    pub fn destroy<D: Device>(self, dev: &mut D) -> Result<(), Error>
        requires over { IsOver F.Buffer.SectionBuffer F.gives D.Tells (shown self)
            (D.opened dev.old) (disk (D.time dev.old)) }
        ensures { Destroys D.Device (shown self) dev.old dev.new result }
    {
        // As `clear` does it: the bounds that it lifts are lost with the manager.
        self.clear(dev)?;
        Ok(())
    }
}
