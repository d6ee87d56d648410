// Reading frames by their place.
ghost use Rattle.std.specs.Prelude.{◌≡◌, ◌≢◌, ◌↔◌, ◌⊎◌, ◌≤◌, ◌<◌, ◌+◌, ◌^◌, ℕ, List, Some, None, Ok, length, IfOk, OnOk, OnErr, IsSomeAnd};
ghost use Rattle.std.specs.Result.{IsErrOf};
ghost use Rattle.blob_device.specs.Timeline.{disk};
ghost use Rattle.value_codec.specs.declared.codec.Error.TheVariants as codec;
ghost use Rattle.sealed_pages.specs.Entries.{IsOpenAt, ReadsAtMost};
ghost use Rattle.sealed_pages.specs.Reading.{Unchanged};
ghost use Rattle.sealed_pages.specs.unsealed.Writing as writing;
ghost use Rattle.section_manager.specs.Sections.{key_of, IsHeld};
ghost use Rattle.section_manager.specs.unsealed.Buffer as unsealed;
ghost use Rattle.section_manager.specs.unsealed.Buffer.{content_of, count_of};
ghost use Rattle.section_manager.specs.managing.Managed.{shown};
ghost use Rattle.section_manager.specs.Refusing.{HasFailed, IsPruned};
ghost use Rattle.paired.specs.Frames.{bytes_at, HasFrame, IsBroken, Differ};
ghost use Rattle.paired.specs.glob.Reading.{IsInside, IsAbsent, IsOverflow, IsShort, IsMismatch, IsRefused};

use super::Glob;
use super::framing::{SEAL_SIZE, spelled};
use blob_device::{Device, RError};
use sealed_pages::WriteBlob;
use segments::journal::Error;
use segments::{BufferFactory, Manager, SectionBuffer, WriteFactory};
use std::alloc::Global;
use value_codec::{Codec, Seal};

/// Refuses a range that passes the greatest `u64`, then one that passes the end of the section, then one too short for a seal.
pub(super) fn check_range(buffer: &WriteBlob, offset: u64, size: u32) -> Result<(), Error>
    ensures inside { OnOk result (IsInside buffer.now offset size) }
    ensures fits { OnOk result (offset + size < 2 ^ 64) }
    ensures bound { count_of buffer.now < 2 ^ 64 }
    ensures overflow { IsOverflow result ↔ (2 ^ 64 ≤ offset + size) }
    ensures short { IsShort result ↔ ((offset + size < 2 ^ 64) × ((count_of buffer.now < offset + size) ⊎ (size < 4))) }
    ensures cause { OnErr result (IsOverflow result ⊎ IsShort result) }
{
    let len = u64::from(size);
    let end = buffer.size();
    if len > u64::MAX - offset {
        return Err(Error::Runtime(RError::OffsetOverflow));
    }
    if offset + len > end || size < SEAL_SIZE {
        return Err(Error::Runtime(RError::BlobInsufficientLength));
    }
    Ok(())
}

/// The bytes of a frame, by one read of the device at most.
pub(super) fn read_frame<D: Device>(
    alloc: Global,
    dev: &mut D,
    buffer: &WriteBlob,
    offset: u64,
    size: u32,
) -> Result<Vec<u8>, Error>
    requires open { IsOpenAt (D.opened dev.old) (unsealed.key_of buffer.now) buffer.now.end }
    requires inside { IsInside buffer.now offset size }
    requires fits { offset + size < 2 ^ 64 }
    ensures bytes { D.Tells → IfOk result (λ r. r.items ≡ bytes_at (content_of buffer.now (disk (D.time dev.old) (unsealed.key_of buffer.now)).content) offset size) }
    ensures size { IfOk result (λ r. length r.items ≡ size) }
    ensures unchanged { D.Tells → Unchanged (D.time dev.old) (D.time dev.new) }
    ensures reads { ReadsAtMost 1 (unsealed.key_of buffer.now) (D.opened dev.old) (D.opened dev.new) }
    ensures pending { writing.AllPending (writing.shown buffer.now) offset size → dev.new ≡ dev.old }
    ensures faults { D.faults dev.old ≤ D.faults dev.new }
    ensures cause { OnErr result (HasFailed result (D.faults dev.old) (D.faults dev.new)) }
{
    let mut bytes = vec![in alloc; 0; size as usize]?;
    buffer.read_at(dev, offset, bytes.as_mut_slice())?;
    Ok(bytes)
}

// The section's buffer.
fn buffer_of(manager: &Manager<WriteFactory>, section: u64) -> Result<&WriteBlob, Error>
    ensures held { IfOk result (λ r. (shown manager.now).held section ≡ Some r.now) }
    ensures guard { IsPruned result (shown manager.now).floor ↔ (section < (shown manager.now).floor) }
    ensures absent { IsAbsent result section ↔ (((shown manager.now).floor ≤ section) × ((shown manager.now).held section ≡ None)) }
    ensures cause { OnErr result (IsPruned result (shown manager.now).floor ⊎ IsAbsent result section) }
{
    match manager.get(section)? {
        Some(buffer) => Ok(buffer),
        None => Err(Error::SectionOutOfRange(section)),
    }
}

impl<V: Codec, S: Seal> Glob<V, S> {
    ghost use Rattle.paired.specs.glob.Sections.{IsGlob, section_bytes, IsPendingRange};

    /// The value of the frame of this size at a place of the section.
    ///
    /// It refuses in this order: a section that was pruned; one that is not held; a range that passes the greatest `u64`; one that
    /// passes the end of the section; a size below 4, which has no room for a seal; a seal that fails; a spelling that the codec
    /// refuses. It reads the device at most once.
    pub fn get<D: Device>(
        &self,
        dev: &mut D,
        section: u64,
        offset: u64,
        size: u32,
    ) -> Result<V, Error>
        requires { IsGlob ⟦<WriteBlob as SectionBuffer>⟧ ⟦<WriteFactory as BufferFactory>⟧.gives D.Tells (shown self.now.manager) (D.opened dev.old) (disk (D.time dev.old)) }
        ensures value { D.Tells → IfOk result (λ v. HasFrame S.seal_of (section_bytes (shown self.now.manager) (disk (D.time dev.old)) section) offset size (V.spelling v)) }
        ensures accepted { IfOk result (λ v. V.accepted v self.now.codec_config) }
        // Where the frame of an accepted value stands, that value is the answer, if the device does not fail and memory lasts.
        ensures gives { D.Tells → (v : V) → V.accepted v self.now.codec_config
            → HasFrame S.seal_of (section_bytes (shown self.now.manager) (disk (D.time dev.old)) section) offset size (V.spelling v)
            → (result ≡ Ok v) ⊎ HasFailed result (D.faults dev.old) (D.faults dev.new) }
        ensures inside { OnOk result (IsSomeAnd ((shown self.now.manager).held section) (λ u. IsInside u offset size)) }
        ensures guard { IsPruned result (shown self.now.manager).floor ↔ (section < (shown self.now.manager).floor) }
        ensures absent { IsAbsent result section ↔ (((shown self.now.manager).floor ≤ section) × ((shown self.now.manager).held section ≡ None)) }
        ensures overflow { IsOverflow result ↔ (IsHeld (shown self.now.manager) section × (2 ^ 64 ≤ offset + size)) }
        // Such a range passes the end of the section too.
        ensures beyond { IsOverflow result → IsSomeAnd ((shown self.now.manager).held section) (λ u. count_of u < offset + size) }
        ensures short { IsShort result ↔ IsSomeAnd ((shown self.now.manager).held section) (λ u. (offset + size < 2 ^ 64) × ((count_of u < offset + size) ⊎ (size < 4))) }
        ensures mismatch { D.Tells → (stored computed : ℕ) → IsErrOf result (Error.ChecksumMismatch stored computed)
            → IsBroken S.seal_of (section_bytes (shown self.now.manager) (disk (D.time dev.old)) section) offset size stored computed }
        ensures mismatch_any { (stored computed : ℕ) → IsErrOf result (Error.ChecksumMismatch stored computed) → Differ S.seal_of size stored computed }
        ensures mismatch_inside { IsMismatch result → IsSomeAnd ((shown self.now.manager).held section) (λ u. IsInside u offset size) }
        ensures refused { D.Tells → (e : _) → IsErrOf result (Error.Codec e)
            → ((spelled : List ℕ) × HasFrame S.seal_of (section_bytes (shown self.now.manager) (disk (D.time dev.old)) section) offset size spelled × (V.refusal spelled self.now.codec_config ≡ Some e)) }
        ensures refused_any { (e : _) → IsErrOf result (Error.Codec e) → (e ≢ codec.Mem) × ((spelled : List ℕ) × (length spelled + 4 ≡ size) × (V.refusal spelled self.now.codec_config ≡ Some e)) }
        ensures refused_inside { IsRefused result → IsSomeAnd ((shown self.now.manager).held section) (λ u. IsInside u offset size) }
        ensures over { IsGlob ⟦<WriteBlob as SectionBuffer>⟧ ⟦<WriteFactory as BufferFactory>⟧.gives D.Tells (shown self.now.manager) (D.opened dev.new) (disk (D.time dev.new)) }
        ensures unchanged { D.Tells → Unchanged (D.time dev.old) (D.time dev.new) }
        // A refusal that needs no read makes no call of the device, and neither does a frame that is not flushed.
        ensures idle { (IsSomeAnd ((shown self.now.manager).held section) (λ u. IsInside u offset size) → ⊥) → dev.new ≡ dev.old }
        ensures pending { IsPendingRange (shown self.now.manager) section offset size → dev.new ≡ dev.old }
        ensures reads { ReadsAtMost 1 (key_of (shown self.now.manager) section) (D.opened dev.old) (D.opened dev.new) }
        ensures faults { D.faults dev.old ≤ D.faults dev.new }
        ensures cause { OnErr result (IsPruned result (shown self.now.manager).floor ⊎ (IsAbsent result section ⊎ (IsOverflow result ⊎ (IsShort result ⊎ (IsMismatch result ⊎ (IsRefused result ⊎ HasFailed result (D.faults dev.old) (D.faults dev.new))))))) }
    {
        let buffer = buffer_of(&self.manager, section)?;
        check_range(buffer, offset, size)?;
        let bytes = read_frame(self.alloc, dev, buffer, offset, size)?;
        let prefix = spelled::<S>(bytes.as_slice())?;
        Ok(V::decode_cfg(self.alloc, prefix, self.codec_config)?)
    }
}
