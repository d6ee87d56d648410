// Removing sections of a journal, for good and in order.
ghost use Rattle.blob_device.specs.Timeline.{disk};
ghost use Rattle.section_manager.specs.Answers.{seen};
ghost use Rattle.section_manager.specs.managing.Removing.{Destroys};
ghost use Rattle.variable_journal.specs.Removing.{Clears, Prunes};

use super::Journal;
use blob_device::Device;
use sealed_pages::PageBlob;
use segments::journal::Error;
use segments::{AppendFactory, BufferFactory, SectionBuffer};
use value_codec::{Codec, Seal};

impl<V: Codec, S: Seal> Journal<V, S> {
    ghost use Rattle.variable_journal.specs.Lists.{IsJournal};
    ghost use Rattle.variable_journal.specs.Shown.{config_of, shown};

    /// Removes the sections below `min`, the oldest first, and says whether there was one; only then `min` is
    /// the floor.
    pub fn prune<D: Device>(self, dev: &mut D, min: u64) -> Result<(Self, bool), Error>
        requires { IsJournal
            ⟦<PageBlob<S> as SectionBuffer>⟧ ⟦<AppendFactory<S> as BufferFactory>⟧.gives
            S.seal_of D.Tells (shown self) (D.opened dev.old) (disk (D.time dev.old)) }
        ensures { Prunes
            ⟦<PageBlob<S> as SectionBuffer>⟧ ⟦<AppendFactory<S> as BufferFactory>⟧.gives
            S.seal_of D.Device (shown self) min (seen (λ r. (shown r.0, r.1)) result)
            (config_of self) (seen (λ r. config_of r.0) result) dev.old dev.new }
    {
        let mut this = self;
        // The journal of bytes keeps the order: no section goes before the older ones are gone.
        let (bytes, has_removed) = this.bytes.prune(dev, min)?;
        this.bytes = bytes;
        Ok((this, has_removed))
    }

    /// Removes all sections, the oldest first, and lifts the floor and the bound of the opening.
    pub fn clear<D: Device>(self, dev: &mut D) -> Result<Self, Error>
        requires { IsJournal
            ⟦<PageBlob<S> as SectionBuffer>⟧ ⟦<AppendFactory<S> as BufferFactory>⟧.gives
            S.seal_of D.Tells (shown self) (D.opened dev.old) (disk (D.time dev.old)) }
        ensures { Clears
            ⟦<PageBlob<S> as SectionBuffer>⟧ ⟦<AppendFactory<S> as BufferFactory>⟧.gives
            S.seal_of D.Device (shown self) (seen shown result)
            (config_of self) (seen config_of result) dev.old dev.new }
    {
        let mut this = self;
        // As in `prune`: the oldest goes first.
        this.bytes = this.bytes.clear(dev)?;
        Ok(this)
    }

    /// Removes all sections, the oldest first.
    pub fn destroy<D: Device>(self, dev: &mut D) -> Result<(), Error>
        requires { IsJournal
            ⟦<PageBlob<S> as SectionBuffer>⟧ ⟦<AppendFactory<S> as BufferFactory>⟧.gives
            S.seal_of D.Tells (shown self) (D.opened dev.old) (disk (D.time dev.old)) }
        ensures { Destroys D.Device (shown self).sections dev.old dev.new result }
    {
        // As in `prune`: the oldest goes first.
        self.bytes.destroy(dev)
    }
}
