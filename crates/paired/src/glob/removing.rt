// Removing sections of a glob, for good and in order.
use super::Glob;
use blob_device::Device;
use segments::journal::Error;
use value_codec::{Codec, Seal};

impl<V: Codec, S: Seal> Glob<V, S> {
    ghost use Rattle.section_manager.specs.managing.Managed.{shown};
    ghost use Rattle.paired.specs.glob.Shown.{shown_glob, IsGlobOn};
    ghost use Rattle.section_manager.specs.managing.Removing.{Destroys};
    ghost use Rattle.paired.specs.glob.Removes.{PrunesGlob, RemovesSection};

    /// Removes the sections below `min`, the oldest first, and says whether there was one; only then `min` is the floor.
    pub fn prune<D: Device>(self, dev: &mut D, min: u64) -> Result<(Self, bool), Error>
        requires over { IsGlobOn D.Device (shown self.manager) dev.old }
        ensures { PrunesGlob D.Device (shown_glob self) dev.old dev.new (λ r. shown_glob r.0) min
            (λ r. r.1) result }
    {
        let Glob {
            alloc,
            manager,
            codec_config,
            seal,
        } = self;
        // The blobs are all that has to go: a glob notes nothing of a section.
        let (manager, was) = manager.prune(dev, min)?;
        let this = Glob {
            alloc,
            manager,
            codec_config,
            seal,
        };
        Ok((this, was))
    }

    /// Removes one section, and says whether it was held.
    pub fn remove_section<D: Device>(self, dev: &mut D, section: u64) -> Result<(Self, bool), Error>
        requires over { IsGlobOn D.Device (shown self.manager) dev.old }
        ensures { RemovesSection D.Device (shown_glob self) dev.old dev.new (λ r. shown_glob r.0) section
            (λ r. r.1) result }
    {
        let Glob {
            alloc,
            manager,
            codec_config,
            seal,
        } = self;
        // The blob is all that has to go: a glob notes nothing of a section.
        let (manager, was) = manager.remove_section(dev, section)?;
        let this = Glob {
            alloc,
            manager,
            codec_config,
            seal,
        };
        Ok((this, was))
    }

    /// Removes all sections, the oldest first.
    pub fn destroy<D: Device>(self, dev: &mut D) -> Result<(), Error>
        requires over { IsGlobOn D.Device (shown self.manager) dev.old }
        ensures { Destroys D.Device (shown self.manager) dev.old dev.new result }
    {
        let Glob { manager, .. } = self;
        // The blobs are all that has to go: a glob notes nothing of a section.
        manager.destroy(dev)
    }
}
