// What a crash leaves of an archive between its calls and before the first one, and what a put or a sync asks, said of the state of the machine.
ghost use Rattle.blob_device.specs.Timeline.{disk};
ghost use Rattle.archives.specs.Outlasts.{MayStart, Outlasts};
ghost use Rattle.archives.specs.Prunable.{IsOver};
ghost use Rattle.archives.specs.Shown.{filing_for, means};

use super::{Archive, Config};
use crate::Translator;
use blob_device::Device;
use sealed_pages::PageBlob;
use segments::SectionBuffer;
use value_codec::{Codec, Key, Seal};

impl<T: Translator, K: Key, V: Codec, S: Seal> Archive<T, K, V, S> {
    /// What a crash now leaves is a lawful image that stands for the state, the disk may be opened again, and the state says what a put or a sync would meet. It
    /// does nothing.
    pub fn crash_laws<D: Device>(&self, _dev: &D)
        requires over { IsOver (means ⟦<PageBlob<S> as SectionBuffer>⟧) D.Device self.now _dev.now }
        ensures { Outlasts (means ⟦<PageBlob<S> as SectionBuffer>⟧) D.Device self.now _dev.now }
    {}

    /// A disk of which nothing is pending may be opened; and where it reads as a lawful image, each crash leaves an image that stands for its start state. It
    /// does nothing.
    pub fn start_laws<D: Device>(_cfg: &Config<T, V::Cfg>, _dev: &D)
        ensures { D.Tells → MayStart (filing_for K.SIZE S.Seal V.refusal _cfg.now) (disk
            (D.time _dev.now)) }
    {}
}
