// Adding values to a glob.
ghost use Rattle.std.specs.Prelude.{◌≡◌, ◌≢◌, ◌↔◌, ◌⊎◌, ◌≤◌, ◌<◌, ◌+◌, ◌-◌, ◌^◌, ◌++◌, ℕ, Some, None, length, IfOk, OnErr, IsSomeAnd};
ghost use Rattle.std.specs.Result.{IsErrOf};
ghost use Rattle.blob_device.specs.Timeline.{disk};
ghost use Rattle.section_manager.specs.Leaving.{AllMoments};
ghost use Rattle.section_manager.specs.Entries.{OnlyOwnEntry, StartsNoRead};
ghost use Rattle.section_manager.specs.Sections.{key_of, IsHeld, IsSame, SameBounds};
ghost use Rattle.section_manager.specs.unsealed.Buffer.{content_of, count_of};
ghost use Rattle.section_manager.specs.Raised.{raised};
ghost use Rattle.section_manager.specs.Refusing.{HasFailed, IsPruned};
ghost use Rattle.paired.specs.Frames.{frame, HasFrame};
ghost use Rattle.paired.specs.glob.Lasting.{Outlasts, IsBeginning, settled_bytes};

use super::Glob;
use super::framing::{frame_size, framed};
use blob_device::{Device, RError};
use sealed_pages::WriteBlob;
use segments::journal::Error;
use segments::{BufferFactory, SectionBuffer, WriteFactory};
use value_codec::{Codec, Seal};

// A section that would pass the greatest `u64` is full.
fn full_or_raised(e: RError) -> Error
    ensures full { e ≡ RError.OffsetOverflow → result ≡ Error.Full }
    ensures other { e ≢ RError.OffsetOverflow → result ≡ raised e }
{
    match e {
        RError::OffsetOverflow => Error::Full,
        other => Error::from(other),
    }
}

impl<V: Codec, S: Seal> Glob<V, S> {
    ghost use Rattle.section_manager.specs.managing.Managed.{shown};
    ghost use Rattle.paired.specs.glob.Sections.{IsGlob, section_bytes, section_size, settled_size, pending_size, IsFlushed};
    ghost use Rattle.paired.specs.Tails.{IsTailAfter};

    /// Adds a value's frame at the end of the section, which is made where it is not held. The answer has the frame's place and its
    /// size, the seal counted.
    ///
    /// It refuses in this order: a value whose frame has more bytes than a `u32` counts, before its spelling is made; a section that
    /// was pruned; a section that would pass the greatest `u64`.
    pub fn append<D: Device>(
        self,
        dev: &mut D,
        section: u64,
        value: &V,
    ) -> Result<(Self, u64, u32), Error>
        requires over { IsGlob ⟦<WriteBlob as SectionBuffer>⟧ ⟦<WriteFactory as BufferFactory>⟧.gives D.Tells (shown self.manager) (D.opened dev.old) (disk (D.time dev.old)) }
        requires ceiling { section ≤ (shown self.manager).ceiling }
        requires accepted { V.accepted value.now self.codec_config }
        ensures over { IfOk result (λ r. IsGlob ⟦<WriteBlob as SectionBuffer>⟧ ⟦<WriteFactory as BufferFactory>⟧.gives D.Tells (shown r.0.manager) (D.opened dev.new) (disk (D.time dev.new))) }
        ensures place { IfOk result (λ r. D.Tells ⊎ IsHeld (shown self.manager) section → r.1 ≡ section_size (shown self.manager) section) }
        ensures size { IfOk result (λ r. r.2 ≡ length (frame S.seal_of (V.spelling value.now))) }
        ensures grown { IfOk result (λ r. section_size (shown r.0.manager) section ≡ r.1 + r.2) }
        // What is not flushed then: all, until it reaches the capacity.
        ensures tail { IfOk result
            (λ r. IsTailAfter (shown self.manager) section r.2 (shown r.0.manager)) }
        ensures bytes { D.Tells → IfOk result (λ r. section_bytes (shown r.0.manager) (disk (D.time dev.new)) section ≡ section_bytes (shown self.manager) (disk (D.time dev.old)) section ++ frame S.seal_of (V.spelling value.now)) }
        ensures stands { D.Tells → IfOk result (λ r. HasFrame S.seal_of (section_bytes (shown r.0.manager) (disk (D.time dev.new)) section) r.1 r.2 (V.spelling value.now)) }
        ensures held { IfOk result (λ r. IsHeld (shown r.0.manager) section) }
        // No byte settles; of a section that was made none has.
        ensures settled { IfOk result (λ r. D.Tells ⊎ IsHeld (shown self.manager) section → settled_size (shown r.0.manager) section ≡ settled_size (shown self.manager) section) }
        ensures others { IfOk result (λ r. (q : ℕ) → q ≢ section → IsSame (shown self.manager) (shown r.0.manager) q) }
        ensures other_bytes { D.Tells → IfOk result (λ r. (q : ℕ) → q ≢ section → section_bytes (shown r.0.manager) (disk (D.time dev.new)) q ≡ section_bytes (shown self.manager) (disk (D.time dev.old)) q) }
        ensures bounds { IfOk result (λ r. SameBounds (shown self.manager) (shown r.0.manager)) }
        ensures codec_config { IfOk result (λ r. r.0.codec_config ≡ self.codec_config) }
        // At every moment, also where the call fails, each crash leaves of the section what had settled, and behind it only what its
        // bytes and the frame make; no other blob changes.
        ensures moments { D.Tells → (u : _) → (shown self.manager).held section ≡ Some u
            → AllMoments (key_of (shown self.manager) section) (Outlasts (settled_bytes u (disk (D.time dev.old) (key_of (shown self.manager) section)).content) (content_of u (disk (D.time dev.old) (key_of (shown self.manager) section)).content ++ frame S.seal_of (V.spelling value.now))) (D.time dev.old) (D.time dev.new) }
        ensures made { D.Tells → (shown self.manager).held section ≡ None
            → AllMoments (key_of (shown self.manager) section) (IsBeginning (frame S.seal_of (V.spelling value.now)) (disk (D.time dev.old) (key_of (shown self.manager) section))) (D.time dev.old) (D.time dev.new) }
        // The frame reaches the device in one write, and only once the bytes that are not flushed are at least the capacity.
        ensures once { IsHeld (shown self.manager) section → (D.time dev.new).calls ≤ (D.time dev.old).calls + 1 }
        ensures below { IsHeld (shown self.manager) section
            → pending_size (shown self.manager) section + length (frame S.seal_of (V.spelling value.now)) < (shown self.manager).factory.capacity → dev.new ≡ dev.old }
        ensures whole_run { IsHeld (shown self.manager) section → IfOk result (λ r. (dev.new ≡ dev.old) ⊎ (pending_size (shown r.0.manager) section ≡ 0)) }
        ensures full_run { IfOk result (λ r. (pending_size (shown r.0.manager) section < (shown self.manager).factory.capacity) ⊎ IsFlushed (shown r.0.manager) section) }
        ensures entries { OnlyOwnEntry (key_of (shown self.manager) section) (D.opened dev.old) (D.opened dev.new) }
        ensures reads { StartsNoRead (D.opened dev.old) (D.opened dev.new) }
        ensures too_large { IsErrOf result Error.ValueTooLarge ↔ (2 ^ 32 - 1 < length (frame S.seal_of (V.spelling value.now))) }
        ensures guard { IsPruned result (shown self.manager).floor ↔ ((length (frame S.seal_of (V.spelling value.now)) ≤ 2 ^ 32 - 1) × (section < (shown self.manager).floor)) }
        // A section is full exactly where it would pass 2^64.
        ensures full { D.Tells ⊎ IsHeld (shown self.manager) section → IsErrOf result Error.Full
            ↔ ((length (frame S.seal_of (V.spelling value.now)) ≤ 2 ^ 32 - 1) × IsSomeAnd ((shown self.manager).held section) (λ u. 2 ^ 64 ≤ count_of u + length (frame S.seal_of (V.spelling value.now)))) }
        ensures full_made { (shown self.manager).held section ≡ None → IsErrOf result Error.Full
            → IsSomeAnd (D.opened dev.new (key_of (shown self.manager) section)) (λ o. 2 ^ 64 ≤ o.len + length (frame S.seal_of (V.spelling value.now))) }
        ensures too_large_idle { IsErrOf result Error.ValueTooLarge → dev.new ≡ dev.old }
        ensures guard_idle { IsPruned result (shown self.manager).floor → dev.new ≡ dev.old }
        ensures full_idle { D.Tells ⊎ IsHeld (shown self.manager) section → IsErrOf result Error.Full → dev.new ≡ dev.old }
        ensures faults { D.faults dev.old ≤ D.faults dev.new }
        ensures cause { OnErr result (IsErrOf result Error.ValueTooLarge ⊎ (IsPruned result (shown self.manager).floor ⊎ (IsErrOf result Error.Full ⊎ HasFailed result (D.faults dev.old) (D.faults dev.new)))) }
    {
        let size = frame_size(value)?;
        let end = self.manager.size(section)?;
        if u64::from(size) > u64::MAX - end {
            return Err(Error::Full);
        }
        let frame = framed::<V, S>(self.alloc, value, size)?;
        let mut this = self;
        // Behind all refusals: a section is made only for a frame that there is.
        let buffer = this.manager.take(dev, section)?;
        // Spelling and seal together, so that the frame reaches the device in one write.
        let (buffer, offset) = buffer
            .append(dev, frame.as_slice())
            .map_err(full_or_raised)?;
        this.manager.put(section, buffer)?;
        Ok((this, offset, size))
    }
}
