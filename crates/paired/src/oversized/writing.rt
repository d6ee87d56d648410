// Adding records with their values.
ghost use Rattle.std.specs.Prelude.{◌≡◌, ◌≢◌, ◌↔◌, ◌⊎◌, ◌≤◌, ◌<◌, ◌+◌, ◌-◌, ◌^◌, ◌++◌, ◌∷◌, [], ℕ, eqb, if◌then◌else◌, Some, length, IfOk, OnErr, IsSomeAnd};
ghost use Rattle.std.specs.Result.{IsErrOf};
ghost use Rattle.blob_device.specs.Disk.{Key};
ghost use Rattle.blob_device.specs.Timeline.{disk, Always};
ghost use Rattle.sealed_pages.specs.Buffer.{extent, size_of, FlushesNothing};
ghost use Rattle.section_manager.specs.Sections.{key_of, IsHeld, IsSame, SameBounds};
ghost use Rattle.section_manager.specs.unsealed.Buffer.{count_of};
ghost use Rattle.section_manager.specs.Refusing.{HasFailed, IsPruned};
ghost use Rattle.segments.specs.FixedLists.{section_bytes};
ghost use Rattle.paired.specs.Frames.{frame};
ghost use Rattle.paired.specs.Crashes.{IsIndexOf, IsValuesOf, InOrder, Keeping};
ghost use Rattle.paired.specs.Kept.{IsSameLayout};
ghost use Rattle.paired.specs.Pair.{IsPair, IsSafeOn, IsSoundOn, list_of, length_of, synced_length};

use super::Oversized;
use crate::Record;
use crate::glob::frame_size;
use blob_device::Device;
use sealed_pages::{PageBlob, WriteBlob};
use segments::journal::Error;
use segments::{AppendFactory, BufferFactory, SectionBuffer, WriteFactory};
use value_codec::{Codec, Seal};

// The record, as it names a value's frame. It stays one that may be added.
fn naming<I: Record>(entry: I, offset: u64, size: u32) -> I
    requires { I.accepted entry tt }
    ensures located { result ≡ I.located entry offset size }
    ensures accepted { I.accepted result tt }
    ensures place { I.place (I.spelling result) ≡ (offset, size) }
{
    entry.with_location(offset, size)
}

impl<I: Record, V: Codec, S: Seal> Oversized<I, V, S> {
    ghost use Rattle.sealed_pages.specs.Shown as page_blob;
    ghost use Rattle.paired.specs.glob.Sections as glob;
    ghost use Rattle.paired.specs.PairShown.{shown};
    ghost use Rattle.paired.specs.Tails.{AreTailsAfter};

    /// Adds a value, then its record, at the end of the section, which is made where it is not held. The answer has the record's position,
    /// and the place and size of the value's frame.
    ///
    /// It refuses in this order, and then wrote nothing: a value whose frame has more bytes than a `u32` counts; a section that was pruned; a
    /// section whose records or values would pass the greatest `u64`.
    pub fn append<D: Device>(
        self,
        dev: &mut D,
        section: u64,
        entry: I,
        value: &V,
    ) -> Result<(Self, u64, u64, u32), Error>
        requires over { IsPair ⟦<PageBlob<S> as SectionBuffer>⟧ ⟦<AppendFactory<S> as BufferFactory>⟧.gives ⟦<WriteBlob as SectionBuffer>⟧ ⟦<WriteFactory as BufferFactory>⟧.gives D.Tells (shown I.place self) (D.opened dev.old) (disk (D.time dev.old)) }
        requires entry { I.accepted entry tt }
        requires value { V.accepted value.now self.values.codec_config }
        ensures over { IfOk result (λ r. IsPair ⟦<PageBlob<S> as SectionBuffer>⟧ ⟦<AppendFactory<S> as BufferFactory>⟧.gives ⟦<WriteBlob as SectionBuffer>⟧ ⟦<WriteFactory as BufferFactory>⟧.gives D.Tells (shown I.place r.0) (D.opened dev.new) (disk (D.time dev.new))) }
        ensures sound { D.Tells → IsSoundOn (shown I.place self) (disk (D.time dev.old)) → IfOk result (λ r. IsSoundOn (shown I.place r.0) (disk (D.time dev.new))) }
        ensures position { IfOk result (λ r. D.Tells ⊎ IsHeld (shown I.place self).index.sections section → r.1 ≡ length_of (shown I.place self) section) }
        ensures place { IfOk result (λ r. D.Tells ⊎ IsHeld (shown I.place self).values section → r.2 ≡ glob.section_size (shown I.place self).values section) }
        ensures size { IfOk result (λ r. r.3 ≡ length (frame S.seal_of (V.spelling value.now))) }
        // The section's list ends with the record, which names the frame, and the value.
        ensures list { D.Tells → IsSoundOn (shown I.place self) (disk (D.time dev.old)) → IfOk result (λ r. list_of (shown I.place r.0) (disk (D.time dev.new)) section ≡ list_of (shown I.place self) (disk (D.time dev.old)) section ++ record { stored = I.spelling (I.located entry (glob.section_size (shown I.place self).values section) (length (frame S.seal_of (V.spelling value.now)))); value = V.spelling value.now } ∷ []) }
        ensures other_lists { D.Tells → IfOk result (λ r. (s : ℕ) → s ≢ section → list_of (shown I.place r.0) (disk (D.time dev.new)) s ≡ list_of (shown I.place self) (disk (D.time dev.old)) s) }
        // The record and the frame stand behind the section's bytes, whatever stood there.
        ensures records { D.Tells → IfOk result (λ r. section_bytes (shown I.place r.0).index.sections (disk (D.time dev.new)) section ≡ section_bytes (shown I.place self).index.sections (disk (D.time dev.old)) section ++ I.spelling (I.located entry r.2 r.3)) }
        ensures values { D.Tells → IfOk result (λ r. glob.section_bytes (shown I.place r.0).values (disk (D.time dev.new)) section ≡ glob.section_bytes (shown I.place self).values (disk (D.time dev.old)) section ++ frame S.seal_of (V.spelling value.now)) }
        // What is not flushed then, of the records and of the values: all, until it reaches the capacity.
        ensures tails { IfOk result
            (λ r. AreTailsAfter (shown I.place self) section r.3 (shown I.place r.0)) }
        ensures held { IfOk result (λ r. IsHeld (shown I.place r.0).index.sections section) }
        // Nothing settles.
        ensures settled { IfOk result (λ r. (u v : _) → (shown I.place self).index.sections.held section ≡ Some u → (shown I.place r.0).index.sections.held section ≡ Some v → v.settled ≡ u.settled) }
        ensures values_settled { IfOk result (λ r. D.Tells ⊎ IsHeld (shown I.place self).values section → glob.settled_size (shown I.place r.0).values section ≡ glob.settled_size (shown I.place self).values section) }
        ensures others { IfOk result (λ r. (s : ℕ) → s ≢ section → IsSame (shown I.place self).index.sections (shown I.place r.0).index.sections s × IsSame (shown I.place self).values (shown I.place r.0).values s) }
        ensures synced { IfOk result (λ r. (s : ℕ) → synced_length (shown I.place r.0) s ≡ synced_length (shown I.place self) s) }
        ensures markers { IfOk result (λ r. (shown I.place r.0).store ≡ (shown I.place self).store) }
        ensures bounds { IfOk result (λ r. SameBounds (shown I.place self).index.sections (shown I.place r.0).index.sections × SameBounds (shown I.place self).values (shown I.place r.0).values) }
        ensures layout { IfOk result (λ r. IsSameLayout (shown I.place self).layout (shown I.place r.0).layout) }
        ensures codec_config { IfOk result (λ r. r.0.values.codec_config ≡ self.values.codec_config) }
        // At every moment, also where the call fails, each crash leaves of each section a prefix of its list, this record's included, that holds what was
        // synced; the markers are true; no blob but the section's two changes.
        ensures moments { D.Tells → IsSafeOn (shown I.place self) (disk (D.time dev.old)) → Keeping (shown I.place self).layout (λ s. list_of (shown I.place self) (disk (D.time dev.old)) s ++ (if eqb s section then record { stored = I.spelling (I.located entry (glob.section_size (shown I.place self).values section) (length (frame S.seal_of (V.spelling value.now)))); value = V.spelling value.now } ∷ [] else [])) (synced_length (shown I.place self)) (λ _. ⊥) (λ q. IsIndexOf (shown I.place self).layout (λ s. s ≡ section) q ⊎ IsValuesOf (shown I.place self).layout (λ s. s ≡ section) q) (D.time dev.old) (D.time dev.new) }
        ensures order { D.Tells → InOrder (IsValuesOf (shown I.place self).layout (λ s. s ≡ section)) (IsIndexOf (shown I.place self).layout (λ s. s ≡ section)) (D.time dev.old) (D.time dev.new) }
        // Also of a pair that is not sound no blob but the section's two changes.
        ensures untouched { D.Tells → Always (D.time dev.old) (D.time dev.new) (λ d. (q : Key) → q ≢ key_of (shown I.place self).index.sections section → q ≢ key_of (shown I.place self).values section → d q ≡ disk (D.time dev.old) q) }
        // While both buffers have room no call of the device is made.
        ensures below { (u : _) (v : _) → (shown I.place self).index.sections.held section ≡ Some u → (shown I.place self).values.held section ≡ Some v → FlushesNothing (page_blob.shown u) I.SIZE
            → glob.pending_size (shown I.place self).values section + length (frame S.seal_of (V.spelling value.now)) < (shown I.place self).values.factory.capacity → dev.new ≡ dev.old }
        ensures entries { (q : Key) → q ≢ key_of (shown I.place self).index.sections section → q ≢ key_of (shown I.place self).values section → D.opened dev.new q ≡ D.opened dev.old q }
        ensures too_large { IsErrOf result Error.ValueTooLarge ↔ (2 ^ 32 - 1 < length (frame S.seal_of (V.spelling value.now))) }
        ensures guard { IsPruned result (shown I.place self).index.sections.floor ↔ ((length (frame S.seal_of (V.spelling value.now)) ≤ 2 ^ 32 - 1) × (section < (shown I.place self).index.sections.floor)) }
        // A section is full exactly where its records, with both slots of their last page, or its values would pass 2^64.
        ensures full { D.Tells ⊎ (IsHeld (shown I.place self).index.sections section × IsHeld (shown I.place self).values section) → IsErrOf result Error.Full ↔ ((length (frame S.seal_of (V.spelling value.now)) ≤ 2 ^ 32 - 1) × ((shown I.place self).index.sections.floor ≤ section)
            × (IsSomeAnd ((shown I.place self).index.sections.held section) (λ u. 2 ^ 64 ≤ extent u.page_size (size_of (page_blob.shown u) + I.SIZE))
            ⊎ IsSomeAnd ((shown I.place self).values.held section) (λ v. 2 ^ 64 ≤ count_of v + length (frame S.seal_of (V.spelling value.now))))) }
        ensures refused { (IsErrOf result Error.ValueTooLarge ⊎ (IsPruned result (shown I.place self).index.sections.floor ⊎ ((D.Tells ⊎ (IsHeld (shown I.place self).index.sections section × IsHeld (shown I.place self).values section)) × IsErrOf result Error.Full))) → dev.new ≡ dev.old }
        ensures faults { D.faults dev.old ≤ D.faults dev.new }
        ensures cause { OnErr result (IsErrOf result Error.ValueTooLarge ⊎ (IsPruned result (shown I.place self).index.sections.floor ⊎ (IsErrOf result Error.Full ⊎ HasFailed result (D.faults dev.old) (D.faults dev.new)))) }
    {
        frame_size(value)?;
        // Asked before a byte is written, so that no refusal leaves a value without its record.
        if self.index.is_full(section)? {
            return Err(Error::Full);
        }
        let mut this = self;
        // The value first, since the record names its place.
        let (values, offset, size) = this.values.append(dev, section, value)?;
        let entry = naming(entry, offset, size);
        // Behind the value, so that no record is added whose value failed.
        let (index, position) = this.index.append(dev, section, &entry)?;
        this.values = values;
        this.index = index;
        Ok((this, position, offset, size))
    }
}
