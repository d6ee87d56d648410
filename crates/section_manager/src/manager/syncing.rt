// Settling sections.
ghost use Rattle.std.specs.Prelude.{◌≡◌, ◌↔◌, ⊤, ℕ, IfOk, OnErr, IsTrue};
ghost use Rattle.std.specs.List.Sorted.{IsStrictlySortedBy};
ghost use Rattle.std.specs.Ordering.{nat_cmp};
ghost use Rattle.std.specs.Result.{IsErrOf};
ghost use Rattle.std.specs.List.{Contains};
ghost use Rattle.blob_device.specs.Timeline.{disk};
ghost use Rattle.section_manager.specs.Answers.{seen};
ghost use Rattle.section_manager.specs.Lasting.{IsUnsettled};
ghost use Rattle.section_manager.specs.Refusing.{IsPruned};
ghost use Rattle.section_manager.specs.Sections.{IsHeld, IsOver};

use super::Manager;
use crate::journal::Error;
use crate::{BufferFactory, SectionBuffer};
use blob_device::{Device, Handle};

impl<F: BufferFactory> Manager<F> {
    ghost use Rattle.section_manager.specs.managing.Managed.{shown};
    ghost use Rattle.section_manager.specs.managing.Settling.{IsAnyBelow, Settles, SettlesOne};

    // Refuses the first section that was pruned.
    fn check_all(&self, sections: &[u64]) -> Result<(), Error>
        ensures guard { IsPruned result (shown self.now).floor
            ↔ IsAnyBelow (Contains sections.now) (shown self.now).floor }
        ensures cause { OnErr result (IsPruned result (shown self.now).floor) }
    {
        for section in sections {
            self.prune_guard(*section)?;
        }
        Ok(())
    }

    // Whether the section is held, and a sync would do something.
    fn is_unsettled(&self, section: u64) -> bool
        ensures { IsTrue result ↔ IsUnsettled F.Buffer.SectionBuffer (shown self.now) section }
    {
        match self.held.get(section) {
            Some(buffer) => buffer.needs_sync(),
            None => false,
        }
    }

    // Settles one section, if it is held.
    fn sync_one<D: Device>(self, dev: &mut D, section: u64) -> Result<Self, Error>
        requires over { IsOver F.Buffer.SectionBuffer F.gives D.Tells (shown self)
            (D.opened dev.old) (disk (D.time dev.old)) }
        ensures { SettlesOne F.Buffer.SectionBuffer F.gives D.Device (shown self) section
            dev.old dev.new (seen shown result) }
    {
        if !self.is_unsettled(section) {
            return Ok(self);
        }
        let mut this = self;
        let Some(buffer) = this.held.remove(section) else {
            return Ok(this);
        };
        // Only where a byte has not settled, so that an idle sync makes no call.
        let buffer = buffer.sync(dev)?;
        this.held.insert(section, buffer)?;
        Ok(this)
    }

    // Settles these sections, as far as they are held.
    fn sync_each<D: Device>(self, dev: &mut D, sections: &[u64]) -> Result<Self, Error>
        requires over { IsOver F.Buffer.SectionBuffer F.gives D.Tells (shown self)
            (D.opened dev.old) (disk (D.time dev.old)) }
        ensures { Settles F.Buffer.SectionBuffer F.gives D.Device (shown self)
            (Contains sections.now) ⊥ dev.old dev.new (seen shown result) }
    {
        let mut this = self;
        for section in sections {
            // One by one: a crash treats each section by itself, so no order is owed.
            this = this.sync_one(dev, *section)?;
        }
        Ok(this)
    }

    /// The numbers of the held sections, ascending. It makes no call of the device.
    pub fn numbers(&self) -> Result<Vec<u64>, Error>
        ensures ascending { IfOk result (λ r. IsStrictlySortedBy nat_cmp r.items) }
        ensures each { IfOk result (λ r. (s : ℕ) → Contains r.items s ↔ IsHeld (shown self.now) s) }
        ensures cause { OnErr result (IsErrOf result Error.Mem) }
    {
        let mut numbers = Vec::new(self.alloc);
        for section in self.sections() {
            numbers.push(section)?;
        }
        Ok(numbers)
    }

    /// Settles these sections. One that is not held is passed over. All are checked before one is synced.
    pub fn sync<D: Device>(self, dev: &mut D, sections: &[u64]) -> Result<Self, Error>
        requires over { IsOver F.Buffer.SectionBuffer F.gives D.Tells (shown self)
            (D.opened dev.old) (disk (D.time dev.old)) }
        ensures { Settles F.Buffer.SectionBuffer F.gives D.Device (shown self)
            (Contains sections.now) (IsAnyBelow (Contains sections.now) (shown self).floor)
            dev.old dev.new (seen shown result) }
    {
        self.check_all(sections)?;
        // Behind the check of all, so that a refusal has touched none.
        self.sync_each(dev, sections)
    }

    /// As [`sync`](Manager::sync), with the handle of a sync that has finished.
    pub fn start_sync<D: Device>(
        self,
        dev: &mut D,
        sections: &[u64],
    ) -> Result<(Self, Handle), Error>
        requires over { IsOver F.Buffer.SectionBuffer F.gives D.Tells (shown self)
            (D.opened dev.old) (disk (D.time dev.old)) }
        ensures { Settles F.Buffer.SectionBuffer F.gives D.Device (shown self)
            (Contains sections.now) (IsAnyBelow (Contains sections.now) (shown self).floor)
            dev.old dev.new (seen (λ p. shown p.0) result) }
    {
        // Settled before the handle is given out: it is of a sync that has finished.
        let this = self.sync(dev, sections)?;
        Ok((this, Handle::finished()))
    }

    /// Settles all sections.
    pub fn sync_all<D: Device>(self, dev: &mut D) -> Result<Self, Error>
        requires over { IsOver F.Buffer.SectionBuffer F.gives D.Tells (shown self)
            (D.opened dev.old) (disk (D.time dev.old)) }
        ensures { Settles F.Buffer.SectionBuffer F.gives D.Device (shown self) (λ s. ⊤) ⊥
            dev.old dev.new (seen shown result) }
    {
        let numbers = self.numbers()?;
        // With no check: what is held is not below the floor.
        self.sync_each(dev, numbers.as_slice())
    }
}
