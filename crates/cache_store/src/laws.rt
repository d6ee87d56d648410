// Laws of a cache that no call says alone, as the crates above cite them.
ghost use Rattle.std.specs.Prelude.{List, Option, ℕ};
ghost use Rattle.blob_device.specs.Disk.{Disk};
ghost use Rattle.blob_device.specs.Timeline.{disk};
ghost use Rattle.cache_store.specs.Changes.{MayUse, Seen};
ghost use Rattle.cache_store.specs.Elsewhere.{GoesOn, IsSameIn, IsSpared};
ghost use Rattle.cache_store.specs.Kept.{Layout};
ghost use Rattle.cache_store.specs.Machine.{Call, State};
ghost use Rattle.cache_store.specs.Recovering.{Recovery};
ghost use Rattle.cache_store.specs.Reopening.{MayOpen};
ghost use Rattle.cache_store.specs.Standing.{wanted_at_destroy, wanted_of};
ghost use Rattle.cache_store.specs.declared.config.Config.{Config};

use blob_device::Device;
use sealed_pages::PageBlob;
use section_manager::{AppendFactory, BufferFactory, SectionBuffer};
use value_codec::{Codec, Seal};

/// An opening of what a crash left holds of each section a prefix of what was put, with all that
/// was synced, and nothing else. It fails only with the device, or for want of memory.
///
/// So it is where each crash leaves what stands for a state with a call under way, as it does at
/// each moment of a call. Of a section that a prune takes it may hold nothing.
pub fn crash_law<V: Codec, S: Seal, D: Device>()
    ensures { (cfg : Config V.Cfg) (st : State (List ℕ)) (under_way : Option (Call (List ℕ)))
        → Recovery ⟦<PageBlob<S> as SectionBuffer>⟧ ⟦<AppendFactory<S> as BufferFactory>⟧.gives
        D.Device S.seal_of V.refusal cfg (wanted_of cfg.items_per_blob st under_way) }
{}

/// As [`crash_law`], once a destroy began: of each section the opening may hold nothing.
pub fn destroy_law<V: Codec, S: Seal, D: Device>()
    ensures { (cfg : Config V.Cfg) (st : State (List ℕ))
        → Recovery ⟦<PageBlob<S> as SectionBuffer>⟧ ⟦<AppendFactory<S> as BufferFactory>⟧.gives
        D.Device S.seal_of V.refusal cfg (wanted_at_destroy st) }
{}

/// A cache depends on its own partition alone: calls on other partitions leave it as it was.
pub fn frame_law<S: Seal, D: Device>()
    ensures { (c : Seen ⟦<PageBlob<S> as SectionBuffer>⟧
        ⟦<AppendFactory<S> as BufferFactory>⟧.gives D.Device) (old new : D)
        → IsSpared ⟦<PageBlob<S> as SectionBuffer>⟧ ⟦<AppendFactory<S> as BufferFactory>⟧.gives
        D.Device c old new
        → MayUse ⟦<PageBlob<S> as SectionBuffer>⟧ ⟦<AppendFactory<S> as BufferFactory>⟧.gives
        D.Device c old
        → GoesOn ⟦<PageBlob<S> as SectionBuffer>⟧ ⟦<AppendFactory<S> as BufferFactory>⟧.gives
        D.Device c old new }
{}

/// At a moment at which a cache's partition is as it was, it may be opened as before: each crash
/// leaves what stands for its state. So it is inside calls on other partitions.
pub fn spared_law<D: Device>()
    ensures { (l : Layout) (st : State (List ℕ)) (old : D) (d : Disk) → D.Tells
        → IsSameIn l.partition (disk (D.time old)) d → MayOpen l st (disk (D.time old))
        → MayOpen l st d }
{}
