// What a section is kept in, and how it is made.
ghost use Rattle.std.specs.Prelude.{◌≡◌, ◌≢◌, ◌≤◌, ◌<◌, ◌⊎◌, ℕ, Bool, true, false, List, length, take, min, Err, IfOk, OnOk, OnErr};
ghost use Rattle.std.specs.List.{Contains};
ghost use Rattle.blob_device.specs.declared.runtime.RError.TheVariants.{Fault, InvalidChecksum, Mem};
ghost use Rattle.blob_device.specs.Disk.{Key, Blob, settled_at};
ghost use Rattle.blob_device.specs.Timeline.{disk};
ghost use Rattle.blob_device.specs.Counts.{Rose};
ghost use Rattle.sealed_pages.specs.Entries.{IsOpenAt};
ghost use Rattle.sealed_pages.specs.Cutting.{StandsSettled};
ghost use Rattle.sealed_pages.specs.Reading.{Unchanged};
ghost use Rattle.section_manager.specs.Setting.{Setting};
ghost use Rattle.section_manager.specs.Leaving.{Leaves, AllMoments};
ghost use Rattle.section_manager.specs.Entries.{OnlyOwnEntry, StartsNoRead};

use blob_device::{Device, Handle, RError};
use std::alloc::Global;

/// A buffer over a blob, as a section is kept in.
///
/// Its blob is opened, and nobody else writes, opens or removes it. A refused call gives the buffer up; the blob is then
/// opened again, and a new buffer made.
pub trait SectionBuffer: Sized + Drop {
    /// What this one was made with.
    ghost setting: { Self → Setting };

    /// The bytes of a buffer that is made with this setting over a blob of this content.
    ghost holds: { Setting → List ℕ → List ℕ };

    /// The partition and the name of its blob.
    ghost key: { Self → Key };

    /// The length of its blob, which its entry in the list of opened blobs has.
    ghost extent: { Self → ℕ };

    /// Its bytes, over a blob that reads as these.
    ghost bytes: { Self → List ℕ → List ℕ };

    /// How many bytes those are.
    ghost byte_count: { Self → ℕ };

    /// How many of them have settled.
    ghost settled: { Self → ℕ };

    /// Whether a sync would do something.
    ghost unsettled: { Self → Bool };

    /// Whether the calls of such buffers, or the making of one, may start a read.
    ghost StartsReads: { Type 0 };

    /// The buffer stands over this blob.
    ghost Stands: { Self → Blob → Type 0 };

    /// Of all bytes of the buffer the promise on crashes stands. Of another one that stands over its blob, it does of some.
    ghost IsWhole: { Self → Blob → Type 0 };

    /// The blob was left with this content by a crash, without a chance seal: each seal in it that holds was so in one of
    /// the contents that the blob had since it settled.
    ghost NoChanceSeal: { Self → List (List ℕ) → List ℕ → Type 0 };

    /// A crash may leave these bytes of the buffer's blob, which since it settled has had these contents, where the buffer stood
    /// over that blob, and so many of its bytes have to be kept.
    ghost MayKeep: { Self → Blob → ℕ → List (List ℕ) → List ℕ → Type 0 };

    /// The buffer, over this blob, may be cut to this length.
    ghost CanCut: { Self → Blob → ℕ → Type 0 };

    /// The length, with the bytes that are not flushed. It takes no memory.
    fn size(&self) -> u64
        ensures { result ≡ byte_count self.now };

    /// Whether a sync would do something. It takes no memory.
    fn needs_sync(&self) -> bool
        ensures { result ≡ unsettled self.now };

    /// Settles all bytes. Where none is unsettled, it makes no call of the device.
    fn sync<D: Device>(self, dev: &mut D) -> Result<Self, RError>
        requires open { IsOpenAt (D.opened dev.old) (key self) (extent self) }
        // At every moment, also where the call fails, each crash leaves of the blob what had settled; no other blob changes.
        ensures moments { D.Tells → Stands self (disk (D.time dev.old) (key self))
            → AllMoments (key self) (Leaves (NoChanceSeal self) (MayKeep self (disk (D.time dev.old) (key self)) (settled self))) (D.time dev.old) (D.time dev.new) }
        ensures stands { D.Tells → Stands self (disk (D.time dev.old) (key self)) → IfOk result (λ r. Stands r (disk (D.time dev.new) (key self))) }
        ensures bytes { D.Tells → Stands self (disk (D.time dev.old) (key self))
            → IfOk result (λ r. bytes r (disk (D.time dev.new) (key self)).content ≡ bytes self (disk (D.time dev.old) (key self)).content) }
        ensures whole { D.Tells → Stands self (disk (D.time dev.old) (key self)) → IsWhole self (disk (D.time dev.old) (key self))
            → IfOk result (λ r. IsWhole r (disk (D.time dev.new) (key self))) }
        ensures size { IfOk result (λ r. byte_count r ≡ byte_count self) }
        ensures done { IfOk result (λ r. unsettled r ≡ false) }
        ensures idle { unsettled self ≡ false → dev.new ≡ dev.old }
        ensures key { IfOk result (λ r. key r ≡ key self) }
        ensures setting { IfOk result (λ r. setting r ≡ setting self) }
        ensures open { IfOk result (λ r. IsOpenAt (D.opened dev.new) (key self) (extent r)) }
        ensures entries { OnlyOwnEntry (key self) (D.opened dev.old) (D.opened dev.new) }
        ensures reads { (StartsReads → ⊥) → StartsNoRead (D.opened dev.old) (D.opened dev.new) }
        ensures faults { D.faults dev.old ≤ D.faults dev.new }
        ensures cause { OnErr result ((result ≡ Err Mem) ⊎ ((result ≡ Err Fault) × Rose (D.faults dev.old) (D.faults dev.new))) };

    /// As [`sync`](SectionBuffer::sync), with the handle of a sync that has finished.
    fn start_sync<D: Device>(self, dev: &mut D) -> Result<(Self, Handle), RError>
        requires open { IsOpenAt (D.opened dev.old) (key self) (extent self) }
        ensures moments { D.Tells → Stands self (disk (D.time dev.old) (key self))
            → AllMoments (key self) (Leaves (NoChanceSeal self) (MayKeep self (disk (D.time dev.old) (key self)) (settled self))) (D.time dev.old) (D.time dev.new) }
        ensures stands { D.Tells → Stands self (disk (D.time dev.old) (key self)) → IfOk result (λ r. Stands r.0 (disk (D.time dev.new) (key self))) }
        ensures bytes { D.Tells → Stands self (disk (D.time dev.old) (key self))
            → IfOk result (λ r. bytes r.0 (disk (D.time dev.new) (key self)).content ≡ bytes self (disk (D.time dev.old) (key self)).content) }
        ensures whole { D.Tells → Stands self (disk (D.time dev.old) (key self)) → IsWhole self (disk (D.time dev.old) (key self))
            → IfOk result (λ r. IsWhole r.0 (disk (D.time dev.new) (key self))) }
        ensures size { IfOk result (λ r. byte_count r.0 ≡ byte_count self) }
        ensures done { IfOk result (λ r. unsettled r.0 ≡ false) }
        ensures idle { unsettled self ≡ false → dev.new ≡ dev.old }
        ensures key { IfOk result (λ r. key r.0 ≡ key self) }
        ensures setting { IfOk result (λ r. setting r.0 ≡ setting self) }
        ensures open { IfOk result (λ r. IsOpenAt (D.opened dev.new) (key self) (extent r.0)) }
        ensures entries { OnlyOwnEntry (key self) (D.opened dev.old) (D.opened dev.new) }
        ensures reads { (StartsReads → ⊥) → StartsNoRead (D.opened dev.old) (D.opened dev.new) }
        ensures faults { D.faults dev.old ≤ D.faults dev.new }
        ensures cause { OnErr result ((result ≡ Err Mem) ⊎ ((result ≡ Err Fault) × Rose (D.faults dev.old) (D.faults dev.new))) };

    /// Waits for a started sync. None is ever under way, so this changes nothing.
    fn wait_for_sync<D: Device>(self, dev: &mut D) -> Result<Self, RError>
        ensures unchanged { dev.new ≡ dev.old }
        ensures same { IfOk result (λ r. r ≡ self) }
        ensures cause { OnErr result (result ≡ Err Mem) };

    /// Cuts the buffer to this length, which has then settled. At or above the size nothing changes, and no call of the device
    /// is made; else what is pending is settled first.
    ///
    /// Over a device that does not tell its disk it may also answer that a page of the blob is damaged.
    fn truncate<D: Device>(self, dev: &mut D, len: u64) -> Result<Self, RError>
        requires open { IsOpenAt (D.opened dev.old) (key self) (extent self) }
        requires can { D.Tells → CanCut self (disk (D.time dev.old) (key self)) len }
        // At every moment, also where the call fails, each crash leaves of the blob what had settled, up to the cut.
        ensures moments { D.Tells → Stands self (disk (D.time dev.old) (key self))
            → AllMoments (key self) (Leaves (NoChanceSeal self) (MayKeep self (disk (D.time dev.old) (key self)) (min (settled self) len))) (D.time dev.old) (D.time dev.new) }
        ensures stands { D.Tells → Stands self (disk (D.time dev.old) (key self)) → IfOk result (λ r. Stands r (disk (D.time dev.new) (key self))) }
        ensures bytes { D.Tells → Stands self (disk (D.time dev.old) (key self))
            → IfOk result (λ r. bytes r (disk (D.time dev.new) (key self)).content ≡ take len (bytes self (disk (D.time dev.old) (key self)).content)) }
        ensures whole { D.Tells → Stands self (disk (D.time dev.old) (key self)) → IsWhole self (disk (D.time dev.old) (key self))
            → IfOk result (λ r. IsWhole r (disk (D.time dev.new) (key self))) }
        // Where it cut, the promise on crashes begins again.
        ensures mended { D.Tells → Stands self (disk (D.time dev.old) (key self)) → len < byte_count self → IfOk result (λ r. IsWhole r (disk (D.time dev.new) (key self))) }
        ensures size { IfOk result (λ r. byte_count r ≡ min (byte_count self) len) }
        ensures done { len < byte_count self → IfOk result (λ r. unsettled r ≡ false) }
        ensures unchanged { byte_count self ≤ len → dev.new ≡ dev.old }
        ensures same_settled { byte_count self ≤ len → IfOk result (λ r. settled r ≡ settled self) }
        ensures same_unsettled { byte_count self ≤ len → IfOk result (λ r. unsettled r ≡ unsettled self) }
        ensures key { IfOk result (λ r. key r ≡ key self) }
        ensures setting { IfOk result (λ r. setting r ≡ setting self) }
        ensures open { IfOk result (λ r. IsOpenAt (D.opened dev.new) (key self) (extent r)) }
        ensures entries { OnlyOwnEntry (key self) (D.opened dev.old) (D.opened dev.new) }
        ensures reads { (StartsReads → ⊥) → StartsNoRead (D.opened dev.old) (D.opened dev.new) }
        ensures faults { D.faults dev.old ≤ D.faults dev.new }
        ensures damage { D.Tells → Stands self (disk (D.time dev.old) (key self)) → (page : ℕ) → result ≢ Err (InvalidChecksum page) }
        // A buffer that starts no read finds no damage.
        ensures unread { (StartsReads → ⊥) → (page : ℕ) → result ≢ Err (InvalidChecksum page) }
        ensures cause { OnErr result (((page : ℕ) × (result ≡ Err (InvalidChecksum page))) ⊎ ((result ≡ Err Mem) ⊎ ((result ≡ Err Fault) × Rose (D.faults dev.old) (D.faults dev.new)))) };

    /// Each crash leaves of the blob over which a buffer stands what has settled of the buffer.
    ghost passes: { (u : Self) (b : Blob) → Stands u b → Leaves (NoChanceSeal u) (MayKeep u b (settled u)) b };

    /// Fewer bytes to keep ask less of a crash.
    ghost looser: { (u : Self) (b : Blob) (few more : ℕ) (contents : List (List ℕ)) (c : List ℕ) → few ≤ more → MayKeep u b more contents c → MayKeep u b few contents c };

    /// The bytes are as many as the buffer says.
    ghost counted: { (u : Self) (b : Blob) → Stands u b → length (bytes u b.content) ≡ byte_count u };

    /// No more bytes have settled than there are.
    ghost settled_within: { (u : Self) (b : Blob) → Stands u b → settled u ≤ byte_count u };

    /// A content that the blob had is left by no chance.
    ghost no_chance: { (u : Self) (contents : List (List ℕ)) (c : List ℕ) → Contains contents c → NoChanceSeal u contents c };

    /// Where a sync would do nothing, all bytes count as settled.
    ghost all_settled: { (u : Self) → unsettled u ≡ false → settled u ≡ byte_count u };

    /// The blob has then settled.
    ghost rested: { (u : Self) (b : Blob) → Stands u b → unsettled u ≡ false → StandsSettled b };

    /// A new buffer over it then has the bytes again, where the promise on crashes stands of all.
    ghost found_again: { (u : Self) (b : Blob) → Stands u b → IsWhole u b → unsettled u ≡ false → holds (setting u) b.content ≡ bytes u b.content };
}

/// What makes the buffers of sections.
pub trait BufferFactory: Drop {
    /// What it makes.
    type Buffer: SectionBuffer;

    /// What it makes them with.
    ghost gives: { Self → Setting };

    /// A buffer over an opened blob of this length. It changes no blob.
    fn create<D: Device>(
        &self,
        alloc: Global,
        dev: &mut D,
        partition: &str,
        name: &[u8],
        size: u64,
    ) -> Result<Self::Buffer, RError>
        requires open { IsOpenAt (D.opened dev.old) (partition.now, name.now) size }
        ensures unchanged { D.Tells → Unchanged (D.time dev.old) (D.time dev.new) }
        ensures stands { D.Tells → StandsSettled (disk (D.time dev.old) (partition.now, name.now))
            → IfOk result (λ r. Self.Buffer.Stands r (disk (D.time dev.old) (partition.now, name.now))) }
        ensures bytes { D.Tells → StandsSettled (disk (D.time dev.old) (partition.now, name.now))
            → IfOk result (λ r. Self.Buffer.bytes r (disk (D.time dev.old) (partition.now, name.now)).content ≡ Self.Buffer.holds (gives self.now) (disk (D.time dev.old) (partition.now, name.now)).content) }
        ensures key { IfOk result (λ r. Self.Buffer.key r ≡ (partition.now, name.now)) }
        ensures setting { IfOk result (λ r. Self.Buffer.setting r ≡ gives self.now) }
        ensures extent { IfOk result (λ r. Self.Buffer.extent r ≡ size) }
        ensures idle { IfOk result (λ r. Self.Buffer.unsettled r ≡ false) }
        ensures open { IsOpenAt (D.opened dev.new) (partition.now, name.now) size }
        ensures entries { OnlyOwnEntry (partition.now, name.now) (D.opened dev.old) (D.opened dev.new) }
        ensures reads { (Self.Buffer.StartsReads → ⊥) → D.opened dev.new ≡ D.opened dev.old }
        ensures faults { D.faults dev.old ≤ D.faults dev.new }
        ensures cause { OnErr result ((result ≡ Err Mem) ⊎ ((result ≡ Err Fault) × Rose (D.faults dev.old) (D.faults dev.new))) };
}
