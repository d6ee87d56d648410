// Settling the sections of a glob.
ghost use Rattle.std.specs.Prelude.{⊤};
ghost use Rattle.std.specs.List.{Contains};
ghost use Rattle.section_manager.specs.managing.Settling.{IsAnyBelow};

use super::Glob;
use blob_device::{Device, Handle};
use segments::journal::Error;
use value_codec::{Codec, Seal};

impl<V: Codec, S: Seal> Glob<V, S> {
    ghost use Rattle.section_manager.specs.managing.Managed.{shown};
    ghost use Rattle.paired.specs.glob.Shown.{shown_glob, IsGlobOn};
    ghost use Rattle.paired.specs.glob.Syncs.{SyncsGlob};

    /// Settles these sections. One that is not held is passed over. All are checked before one is synced.
    pub fn sync<D: Device>(self, dev: &mut D, sections: &[u64]) -> Result<Self, Error>
        requires over { IsGlobOn D.Device (shown self.manager) dev.old }
        ensures { SyncsGlob D.Device (shown_glob self) dev.old dev.new shown_glob (Contains sections.now)
            (IsAnyBelow (Contains sections.now) (shown self.manager).floor) result }
    {
        let mut this = self;
        // Section by section: that records go before values is the affair of the pair.
        this.manager = this.manager.sync(dev, sections)?;
        Ok(this)
    }

    /// As [`sync`](Glob::sync), with the handle of a sync that has finished.
    pub fn start_sync<D: Device>(
        self,
        dev: &mut D,
        sections: &[u64],
    ) -> Result<(Self, Handle), Error>
        requires over { IsGlobOn D.Device (shown self.manager) dev.old }
        ensures { SyncsGlob D.Device (shown_glob self) dev.old dev.new (λ r. shown_glob r.0)
            (Contains sections.now)
            (IsAnyBelow (Contains sections.now) (shown self.manager).floor) result }
    {
        // Settled before the handle is given out: it is of a sync that has finished.
        let this = self.sync(dev, sections)?;
        Ok((this, Handle::finished()))
    }

    /// Settles all sections.
    pub fn sync_all<D: Device>(self, dev: &mut D) -> Result<Self, Error>
        requires over { IsGlobOn D.Device (shown self.manager) dev.old }
        ensures { SyncsGlob D.Device (shown_glob self) dev.old dev.new shown_glob (λ s. ⊤) ⊥ result }
    {
        let mut this = self;
        // The buffers are all there is to settle: a glob notes nothing beside them.
        this.manager = this.manager.sync_all(dev)?;
        Ok(this)
    }
}
