// Reading records and values.
ghost use Rattle.std.specs.Prelude.{◌≡◌, ◌≢◌, ◌↔◌, ◌⊎◌, ◌≤◌, ◌<◌, ◌+◌, ◌-◌, ◌/◌, ◌^◌, ℕ, List, Ok, Some, None, false, slice_get, length, IfOk, OnErr, IsSomeAnd};
ghost use Rattle.std.specs.Result.{IsErrOf};
ghost use Rattle.blob_device.specs.declared.runtime.RError.TheVariants.{InvalidChecksum};
ghost use Rattle.blob_device.specs.Timeline.{disk};
ghost use Rattle.value_codec.specs.declared.codec.Error.TheVariants as codec;
ghost use Rattle.sealed_pages.specs.Buffer.{size_of};
ghost use Rattle.sealed_pages.specs.Entries.{ReadsAtMost};
ghost use Rattle.sealed_pages.specs.Reading.{Unchanged};
ghost use Rattle.section_manager.specs.Sections.{key_of, IsHeld};
ghost use Rattle.section_manager.specs.unsealed.Buffer.{count_of};
ghost use Rattle.section_manager.specs.Refusing.{HasFailed, IsPruned};
ghost use Rattle.segments.specs.FixedItems.{item_at, IsItem};
ghost use Rattle.segments.specs.FixedLists.{section_bytes};
ghost use Rattle.segments.specs.FixedReading.{HasItem, is_item_held, IsDamaged, IsItemCovered, IsAbsent, IsPast, HasNotRead};
ghost use Rattle.paired.specs.Frames.{HasFrame, IsBroken, Differ};
ghost use Rattle.paired.specs.glob.Reading as frames;
ghost use Rattle.paired.specs.Pair.{IsPair, IsSoundOn, list_of, length_of};

use super::Oversized;
use crate::Record;
use blob_device::Device;
use sealed_pages::{PageBlob, WriteBlob};
use segments::journal::Error;
use segments::{AppendFactory, BufferFactory, SectionBuffer, WriteFactory};
use value_codec::{Codec, Seal};

impl<I: Record, V: Codec, S: Seal> Oversized<I, V, S> {
    ghost use Rattle.sealed_pages.specs.Shown as page_blob;
    ghost use Rattle.paired.specs.glob.Sections as glob;
    ghost use Rattle.paired.specs.PairShown.{shown};

    /// The record at a position of the section.
    ///
    /// It refuses in this order: a section that was pruned; one that is not held; a position at or past the end; a damaged page; a record that does
    /// not decode. It starts at most as many reads as the record has pages, all on the blob of the section's records.
    pub fn get<D: Device>(&self, dev: &mut D, section: u64, position: u64) -> Result<I, Error>
        requires { IsPair ⟦<PageBlob<S> as SectionBuffer>⟧ ⟦<AppendFactory<S> as BufferFactory>⟧.gives ⟦<WriteBlob as SectionBuffer>⟧ ⟦<WriteFactory as BufferFactory>⟧.gives D.Tells (shown I.place self.now) (D.opened dev.old) (disk (D.time dev.old)) }
        ensures record { D.Tells → IfOk result (λ r. IsSomeAnd (slice_get (list_of (shown I.place self.now) (disk (D.time dev.old)) section) position) (λ e. e.stored ≡ I.spelling r)) }
        ensures accepted { IfOk result (λ r. I.accepted r tt) }
        ensures gives { D.Tells → (r : I) → I.accepted r tt → IsSomeAnd (slice_get (list_of (shown I.place self.now) (disk (D.time dev.old)) section) position) (λ e. e.stored ≡ I.spelling r) → (result ≡ Ok r) ⊎ HasFailed result (D.faults dev.old) (D.faults dev.new) }
        ensures inside { IfOk result (λ _. position < length_of (shown I.place self.now) section) }
        ensures guard { IsPruned result (shown I.place self.now).index.sections.floor ↔ (section < (shown I.place self.now).index.sections.floor) }
        ensures absent { IsAbsent result section ↔ (((shown I.place self.now).index.sections.floor ≤ section) × ((shown I.place self.now).index.sections.held section ≡ None)) }
        ensures past { IsPast result position ↔ (IsHeld (shown I.place self.now).index.sections section × (length_of (shown I.place self.now) section ≤ position)) }
        ensures damaged { D.Tells → (k : ℕ) → IsErrOf result (Error.Runtime (InvalidChecksum k))
            → IsSomeAnd ((shown I.place self.now).index.sections.held section) (λ u. IsDamaged I.SIZE S.seal_of u (disk (D.time dev.old) (key_of (shown I.place self.now).index.sections section)).content position k) }
        ensures refused { D.Tells → (e : _) → IsErrOf result (Error.Codec e) → I.refusal (item_at I.SIZE (section_bytes (shown I.place self.now).index.sections (disk (D.time dev.old)) section) position) tt ≡ Some e }
        ensures over { IsPair ⟦<PageBlob<S> as SectionBuffer>⟧ ⟦<AppendFactory<S> as BufferFactory>⟧.gives ⟦<WriteBlob as SectionBuffer>⟧ ⟦<WriteFactory as BufferFactory>⟧.gives D.Tells (shown I.place self.now) (D.opened dev.new) (disk (D.time dev.new)) }
        ensures unchanged { D.Tells → Unchanged (D.time dev.old) (D.time dev.new) }
        ensures reads { IsHeld (shown I.place self.now).index.sections section → ReadsAtMost (I.SIZE / (shown I.place self.now).index.sections.factory.pages.page_size + 2) (key_of (shown I.place self.now).index.sections section) (D.opened dev.old) (D.opened dev.new) }
        ensures idle { ((section < (shown I.place self.now).index.sections.floor) ⊎ (((shown I.place self.now).index.sections.held section ≡ None) ⊎ (length_of (shown I.place self.now) section ≤ position))) → dev.new ≡ dev.old }
        // A record that is held in memory needs no read either.
        ensures in_memory { (IsSomeAnd ((shown I.place self.now).index.sections.held section) (λ u. HasItem I.SIZE u position × (is_item_held I.SIZE u position ≡ false)) → ⊥) → dev.new ≡ dev.old }
        ensures faults { D.faults dev.old ≤ D.faults dev.new }
        ensures cause { OnErr result (IsPruned result (shown I.place self.now).index.sections.floor ⊎ (IsAbsent result section ⊎ (IsPast result position ⊎ HasNotRead result (D.faults dev.old) (D.faults dev.new)))) }
    {
        self.index.get(dev, section, position)
    }

    /// The last record of the section, none where it has none. It refuses as [`get`](Oversized::get) does.
    pub fn last<D: Device>(&self, dev: &mut D, section: u64) -> Result<Option<I>, Error>
        requires { IsPair ⟦<PageBlob<S> as SectionBuffer>⟧ ⟦<AppendFactory<S> as BufferFactory>⟧.gives ⟦<WriteBlob as SectionBuffer>⟧ ⟦<WriteFactory as BufferFactory>⟧.gives D.Tells (shown I.place self.now) (D.opened dev.old) (disk (D.time dev.old)) }
        ensures none { IfOk result (λ r. (r ≡ None) ↔ (length_of (shown I.place self.now) section ≡ 0)) }
        ensures record { D.Tells → IfOk result (λ r. (v : I) → r ≡ Some v → IsSomeAnd (slice_get (list_of (shown I.place self.now) (disk (D.time dev.old)) section) (length_of (shown I.place self.now) section - 1)) (λ e. e.stored ≡ I.spelling v)) }
        ensures accepted { IfOk result (λ r. (v : I) → r ≡ Some v → I.accepted v tt) }
        ensures guard { IsPruned result (shown I.place self.now).index.sections.floor ↔ (section < (shown I.place self.now).index.sections.floor) }
        ensures absent { IsAbsent result section ↔ (((shown I.place self.now).index.sections.floor ≤ section) × ((shown I.place self.now).index.sections.held section ≡ None)) }
        ensures damaged { D.Tells → (k : ℕ) → IsErrOf result (Error.Runtime (InvalidChecksum k))
            → IsSomeAnd ((shown I.place self.now).index.sections.held section) (λ u. IsDamaged I.SIZE S.seal_of u (disk (D.time dev.old) (key_of (shown I.place self.now).index.sections section)).content (length_of (shown I.place self.now) section - 1) k) }
        ensures refused { D.Tells → (e : _) → IsErrOf result (Error.Codec e) → I.refusal (item_at I.SIZE (section_bytes (shown I.place self.now).index.sections (disk (D.time dev.old)) section) (length_of (shown I.place self.now) section - 1)) tt ≡ Some e }
        ensures over { IsPair ⟦<PageBlob<S> as SectionBuffer>⟧ ⟦<AppendFactory<S> as BufferFactory>⟧.gives ⟦<WriteBlob as SectionBuffer>⟧ ⟦<WriteFactory as BufferFactory>⟧.gives D.Tells (shown I.place self.now) (D.opened dev.new) (disk (D.time dev.new)) }
        ensures unchanged { D.Tells → Unchanged (D.time dev.old) (D.time dev.new) }
        ensures reads { IsHeld (shown I.place self.now).index.sections section → ReadsAtMost (I.SIZE / (shown I.place self.now).index.sections.factory.pages.page_size + 2) (key_of (shown I.place self.now).index.sections section) (D.opened dev.old) (D.opened dev.new) }
        ensures idle { ((section < (shown I.place self.now).index.sections.floor) ⊎ (((shown I.place self.now).index.sections.held section ≡ None) ⊎ (length_of (shown I.place self.now) section ≡ 0))) → dev.new ≡ dev.old }
        // A record that is held in memory needs no read either.
        ensures in_memory { (IsSomeAnd ((shown I.place self.now).index.sections.held section) (λ u. (0 < size_of (page_blob.shown u) / I.SIZE) × (is_item_held I.SIZE u (size_of (page_blob.shown u) / I.SIZE - 1) ≡ false)) → ⊥) → dev.new ≡ dev.old }
        ensures faults { D.faults dev.old ≤ D.faults dev.new }
        ensures cause { OnErr result (IsPruned result (shown I.place self.now).index.sections.floor ⊎ (IsAbsent result section ⊎ HasNotRead result (D.faults dev.old) (D.faults dev.new))) }
    {
        self.index.last(dev, section)
    }

    /// The value of the frame of this size at a place of the section.
    ///
    /// It refuses as [`Glob::get`](crate::Glob::get) does, and reads the device at most once. It reads no record.
    pub fn get_value<D: Device>(
        &self,
        dev: &mut D,
        section: u64,
        offset: u64,
        size: u32,
    ) -> Result<V, Error>
        requires { IsPair ⟦<PageBlob<S> as SectionBuffer>⟧ ⟦<AppendFactory<S> as BufferFactory>⟧.gives ⟦<WriteBlob as SectionBuffer>⟧ ⟦<WriteFactory as BufferFactory>⟧.gives D.Tells (shown I.place self.now) (D.opened dev.old) (disk (D.time dev.old)) }
        // Where the pair is sound, the value of a record in the section's list is given by the place that the record names, if the device does not fail
        // and memory lasts.
        ensures gives { D.Tells → IsSoundOn (shown I.place self.now) (disk (D.time dev.old)) → (position : ℕ) (v : V) → V.accepted v self.now.values.codec_config
            → IsSomeAnd (slice_get (list_of (shown I.place self.now) (disk (D.time dev.old)) section) position) (λ e. (e.value ≡ V.spelling v) × (I.place e.stored ≡ (offset, size)))
            → (result ≡ Ok v) ⊎ HasFailed result (D.faults dev.old) (D.faults dev.new) }
        ensures value { D.Tells → IfOk result (λ v. HasFrame S.seal_of (glob.section_bytes (shown I.place self.now).values (disk (D.time dev.old)) section) offset size (V.spelling v)) }
        ensures accepted { IfOk result (λ v. V.accepted v self.now.values.codec_config) }
        ensures guard { IsPruned result (shown I.place self.now).index.sections.floor ↔ (section < (shown I.place self.now).index.sections.floor) }
        ensures absent { frames.IsAbsent result section ↔ (((shown I.place self.now).index.sections.floor ≤ section) × ((shown I.place self.now).values.held section ≡ None)) }
        ensures overflow { frames.IsOverflow result ↔ (((shown I.place self.now).index.sections.floor ≤ section) × IsHeld (shown I.place self.now).values section × (2 ^ 64 ≤ offset + size)) }
        ensures short { frames.IsShort result ↔ (((shown I.place self.now).index.sections.floor ≤ section) × IsSomeAnd ((shown I.place self.now).values.held section) (λ u. (offset + size < 2 ^ 64) × ((count_of u < offset + size) ⊎ (size < 4)))) }
        ensures mismatch { D.Tells → (stored computed : ℕ) → IsErrOf result (Error.ChecksumMismatch stored computed)
            → IsBroken S.seal_of (glob.section_bytes (shown I.place self.now).values (disk (D.time dev.old)) section) offset size stored computed }
        ensures mismatch_any { (stored computed : ℕ) → IsErrOf result (Error.ChecksumMismatch stored computed) → Differ S.seal_of size stored computed }
        ensures refused { D.Tells → (e : _) → IsErrOf result (Error.Codec e)
            → ((spelled : List ℕ) × HasFrame S.seal_of (glob.section_bytes (shown I.place self.now).values (disk (D.time dev.old)) section) offset size spelled × (V.refusal spelled self.now.values.codec_config ≡ Some e)) }
        ensures refused_any { (e : _) → IsErrOf result (Error.Codec e) → (e ≢ codec.Mem) × ((spelled : List ℕ) × (length spelled + 4 ≡ size) × (V.refusal spelled self.now.values.codec_config ≡ Some e)) }
        ensures over { IsPair ⟦<PageBlob<S> as SectionBuffer>⟧ ⟦<AppendFactory<S> as BufferFactory>⟧.gives ⟦<WriteBlob as SectionBuffer>⟧ ⟦<WriteFactory as BufferFactory>⟧.gives D.Tells (shown I.place self.now) (D.opened dev.new) (disk (D.time dev.new)) }
        ensures unchanged { D.Tells → Unchanged (D.time dev.old) (D.time dev.new) }
        // A refusal that needs no read makes no call of the device, and neither does a frame that is not flushed.
        ensures idle { (((shown I.place self.now).index.sections.floor ≤ section) × IsSomeAnd ((shown I.place self.now).values.held section) (λ u. frames.IsInside u offset size) → ⊥) → dev.new ≡ dev.old }
        ensures pending { glob.IsPendingRange (shown I.place self.now).values section offset size → dev.new ≡ dev.old }
        ensures reads { ReadsAtMost 1 (key_of (shown I.place self.now).values section) (D.opened dev.old) (D.opened dev.new) }
        ensures faults { D.faults dev.old ≤ D.faults dev.new }
        ensures cause { OnErr result (IsPruned result (shown I.place self.now).index.sections.floor ⊎ (frames.IsAbsent result section ⊎ (frames.IsOverflow result ⊎ (frames.IsShort result ⊎ (frames.IsMismatch result ⊎ (frames.IsRefused result ⊎ HasFailed result (D.faults dev.old) (D.faults dev.new))))))) }
    {
        self.index.prune_guard(section)?;
        self.values.get(dev, section, offset, size)
    }

    /// Where the frame of the section's last value ends; 0 where it has none, or is not held.
    pub fn value_size<D: Device>(&self, dev: &mut D, section: u64) -> Result<u64, Error>
        requires { IsPair ⟦<PageBlob<S> as SectionBuffer>⟧ ⟦<AppendFactory<S> as BufferFactory>⟧.gives ⟦<WriteBlob as SectionBuffer>⟧ ⟦<WriteFactory as BufferFactory>⟧.gives D.Tells (shown I.place self.now) (D.opened dev.old) (disk (D.time dev.old)) }
        ensures end { D.Tells → IfOk result (λ n. IsSomeAnd (slice_get (list_of (shown I.place self.now) (disk (D.time dev.old)) section) (length_of (shown I.place self.now) section - 1)) (λ e. n ≡ (I.place e.stored).0 + (I.place e.stored).1) ⊎ ((length_of (shown I.place self.now) section ≡ 0) × (n ≡ 0))) }
        ensures sound { D.Tells → IsSoundOn (shown I.place self.now) (disk (D.time dev.old)) → IfOk result (λ n. n ≡ glob.section_size (shown I.place self.now).values section) }
        ensures none { IfOk result (λ n. length_of (shown I.place self.now) section ≡ 0 → n ≡ 0) }
        ensures guard { IsPruned result (shown I.place self.now).index.sections.floor ↔ (section < (shown I.place self.now).index.sections.floor) }
        ensures damaged { D.Tells → (k : ℕ) → IsErrOf result (Error.Runtime (InvalidChecksum k))
            → IsSomeAnd ((shown I.place self.now).index.sections.held section) (λ u. IsDamaged I.SIZE S.seal_of u (disk (D.time dev.old) (key_of (shown I.place self.now).index.sections section)).content (length_of (shown I.place self.now) section - 1) k) }
        ensures refused { D.Tells → (e : _) → IsErrOf result (Error.Codec e) → I.refusal (item_at I.SIZE (section_bytes (shown I.place self.now).index.sections (disk (D.time dev.old)) section) (length_of (shown I.place self.now) section - 1)) tt ≡ Some e }
        ensures overflow { D.Tells → IsErrOf result Error.OffsetOverflow → IsSomeAnd (slice_get (list_of (shown I.place self.now) (disk (D.time dev.old)) section) (length_of (shown I.place self.now) section - 1)) (λ e. 2 ^ 64 ≤ (I.place e.stored).0 + (I.place e.stored).1) }
        ensures reads { ReadsAtMost (I.SIZE / (shown I.place self.now).index.sections.factory.pages.page_size + 2) (key_of (shown I.place self.now).index.sections section) (D.opened dev.old) (D.opened dev.new) }
        ensures idle { length_of (shown I.place self.now) section ≡ 0 → dev.new ≡ dev.old }
        ensures over { IsPair ⟦<PageBlob<S> as SectionBuffer>⟧ ⟦<AppendFactory<S> as BufferFactory>⟧.gives ⟦<WriteBlob as SectionBuffer>⟧ ⟦<WriteFactory as BufferFactory>⟧.gives D.Tells (shown I.place self.now) (D.opened dev.new) (disk (D.time dev.new)) }
        ensures unchanged { D.Tells → Unchanged (D.time dev.old) (D.time dev.new) }
        ensures faults { D.faults dev.old ≤ D.faults dev.new }
        ensures cause { OnErr result (IsPruned result (shown I.place self.now).index.sections.floor ⊎ (IsErrOf result Error.OffsetOverflow ⊎ HasNotRead result (D.faults dev.old) (D.faults dev.new))) }
    {
        if self.index.size(section)? == 0 {
            return Ok(0);
        }
        let Some(record) = self.index.last(dev, section)? else {
            return Ok(0);
        };
        let (offset, size) = record.value_location();
        offset
            .checked_add(u64::from(size))
            .ok_or(Error::OffsetOverflow)
    }
}
