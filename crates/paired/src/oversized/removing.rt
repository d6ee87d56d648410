// Removing sections of a pair.
use super::Oversized;
use crate::Record;
use blob_device::Device;
use sealed_pages::PageBlob;
use segments::journal::Error;
use segments::{AppendFactory, BufferFactory, SectionBuffer};
use value_codec::{Codec, Seal};

impl<I: Record, V: Codec, S: Seal> Oversized<I, V, S> {
    ghost use Rattle.paired.specs.PairDestroys.{DestroysPair};
    ghost use Rattle.paired.specs.PairPrunes.{PrunesPair};
    ghost use Rattle.paired.specs.PairShown.{shown};
    ghost use Rattle.paired.specs.PairUse.{IsPairOver};

    /// Removes the sections below a bound: first their markers, durably, then their records, the oldest section first, then their values. It
    /// says whether a section was removed.
    pub fn prune<D: Device>(self, dev: &mut D, min: u64) -> Result<(Self, bool), Error>
        requires over { IsPairOver ⟦<PageBlob<S> as SectionBuffer>⟧
            ⟦<AppendFactory<S> as BufferFactory>⟧.gives D.Device (shown I.place self) dev.old }
        ensures { PrunesPair ⟦<PageBlob<S> as SectionBuffer>⟧
            ⟦<AppendFactory<S> as BufferFactory>⟧.gives D.Device (shown I.place self)
            self.values.codec_config dev.old dev.new (λ r. shown I.place r.0) (λ r. r.0.values.codec_config)
            min (λ r. r.1) result }
    {
        let mut this = self;
        this.tracking.drop_below(min);
        // The markers first, for good: none may count records that are gone.
        this.tracking = this.tracking.sync(dev)?;
        // Then the records: none may be left that names a value which is gone.
        let (index, records) = this.index.prune(dev, min)?;
        // Last the values, which no record names by now.
        let (values, frames) = this.values.prune(dev, min)?;
        this.index = index;
        this.values = values;
        Ok((this, records || frames))
    }

    /// Removes the markers, then all records, then all values.
    pub fn destroy<D: Device>(self, dev: &mut D) -> Result<(), Error>
        requires over { IsPairOver ⟦<PageBlob<S> as SectionBuffer>⟧
            ⟦<AppendFactory<S> as BufferFactory>⟧.gives D.Device (shown I.place self) dev.old }
        ensures { DestroysPair D.Device (shown I.place self) dev.old dev.new result }
    {
        let Oversized {
            index,
            values,
            tracking,
            ..
        } = self;
        // The markers first: none may count records that are gone.
        tracking.destroy(dev)?;
        // Then the records: none may be left that names a value which is gone.
        index.destroy(dev)?;
        // Last the values, which no record names by now.
        values.destroy(dev)
    }
}
