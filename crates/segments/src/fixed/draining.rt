// Going over all items of a fixed journal that are left, for what that cuts and checks.
ghost use Rattle.blob_device.specs.Timeline.{disk};
ghost use Rattle.section_manager.specs.Answers.{seen};
ghost use Rattle.segments.specs.FixedDraining.{Drains};

use super::{Journal, Replay};
use crate::journal::Error;
use crate::{AppendFactory, BufferFactory, SectionBuffer};
use blob_device::Device;
use sealed_pages::PageBlob;
use value_codec::{CodecFixed, Seal};

impl<A: CodecFixed, S: Seal> Replay<A, S> {
    ghost use Rattle.segments.specs.FixedReplay.{IsWalk};
    ghost use Rattle.segments.specs.FixedShown.{shown};
    ghost use Rattle.segments.specs.FixedWalking.{walk_of};

    /// Goes over all items that are left, and gives the journal back, or an error. Among items it is that
    /// of the first that is none.
    pub fn drain<D: Device>(self, dev: &mut D) -> Result<Journal<A, S>, Error>
        requires { IsWalk ⟦<PageBlob<S> as SectionBuffer>⟧
            ⟦<AppendFactory<S> as BufferFactory>⟧.gives S.seal_of A.SIZE D.Tells (walk_of self)
            (D.opened dev.old) (disk (D.time dev.old)) }
        ensures { Drains ⟦<PageBlob<S> as SectionBuffer>⟧
            ⟦<AppendFactory<S> as BufferFactory>⟧.gives S.seal_of A.SIZE A.spelling A.accepted
            A.refusal (walk_of self) D.Device (seen shown result) dev.old dev.new }
    {
        let mut this = self;
        'items: while let Some(next) = this.next(dev) {
            next?;
        }
        this.finish()
    }
}
