// Settling the sections of a pair, and moving their markers.
ghost use Rattle.std.specs.Prelude.{◌≡◌, ◌≢◌, ◌↔◌, ◌⊎◌, ◌≤◌, ◌<◌, ◌+◌, ◌/◌, ◌^◌, ⊤, ℕ, IfOk, OnOk, OnErr};
ghost use Rattle.std.specs.List.{Contains};
ghost use Rattle.std.specs.Result.{IsErrOf};
ghost use Rattle.blob_device.specs.Disk.{Key};
ghost use Rattle.blob_device.specs.Timeline.{disk, Always};
ghost use Rattle.blob_device.specs.declared.runtime.RError.TheVariants.{Fault};
ghost use Rattle.section_manager.specs.Lasting.{IsUnsettled};
ghost use Rattle.section_manager.specs.Sections.{IsHeld, SameBounds};
ghost use Rattle.section_manager.specs.Refusing.{HasFailed};
ghost use Rattle.meta_store.specs.Blobs.{blob_of, other_side};
ghost use Rattle.paired.specs.Crashes.{IsBlobOf, IsCopy, IsIndexOf, IsValuesOf, InOrder, Keeping};
ghost use Rattle.paired.specs.glob.Sections as glob;
ghost use Rattle.paired.specs.Kept.{IsMarked, IsSameLayout, marker_of};
ghost use Rattle.paired.specs.Pair.{IsPair, IsSafeOn, IsSoundOn, IsMoving, list_of, length_of, synced_length};
ghost use Rattle.paired.specs.PairFaults.{FaultsInOrder};
ghost use Rattle.paired.specs.PairRefusing.{HasLostMarkers};
ghost use Rattle.paired.specs.PairSync.{MovesMarkers, SyncKeeps};
ghost use Rattle.paired.specs.Tracked.{Trails, synced_of};
ghost use Rattle.paired.specs.sighted.Shown as tracked;
ghost use Rattle.segments.specs.FixedLists.{section_size};
ghost use Rattle.segments.specs.FixedShown as fixed;

use super::Oversized;
use super::tracking::Tracking;
use crate::Record;
use blob_device::{Device, Handle};
use sealed_pages::{PageBlob, WriteBlob};
use segments::fixed::Journal;
use segments::journal::Error;
use segments::{AppendFactory, BufferFactory, SectionBuffer, WriteFactory};
use std::alloc::Global;
use value_codec::{Codec, Seal};

// The numbers of the held sections.
pub(super) fn numbers<I: Record, S: Seal>(
    alloc: Global,
    index: &Journal<I, S>,
) -> Result<Vec<u64>, Error>
    ensures each { IfOk result (λ r. (s : ℕ) → Contains r.items s ↔ IsHeld (fixed.shown index.now).sections s) }
    ensures cause { OnErr result (IsErrOf result Error.Mem) }
{
    let mut numbers = Vec::new(alloc);
    for section in index.sections() {
        numbers.push(section)?;
    }
    Ok(numbers)
}

// Notes of each of these sections that all its records are synced. Nothing is staged.
pub(super) fn note_synced<I: Record, S: Seal>(
    index: &Journal<I, S>,
    tracking: &mut Tracking<S>,
    sections: &[u64],
) -> Result<(), Error>
    requires trails { Trails (tracked.shown tracking.old) }
    requires kept { (s : ℕ) → Contains sections.now s → (fixed.shown index.now).sections.floor ≤ s }
    ensures trails { OnOk result (Trails (tracked.shown tracking.new)) }
    ensures named { OnOk result ((s : ℕ) → Contains sections.now s → synced_of (tracked.shown tracking.new) s ≡ section_size (fixed.shown index.now).sections s / I.SIZE) }
    ensures others { OnOk result ((s : ℕ) → (Contains sections.now s → ⊥) → (tracked.shown tracking.new).trailing s ≡ (tracked.shown tracking.old).trailing s) }
    ensures store { (tracked.shown tracking.new).store ≡ (tracked.shown tracking.old).store }
    ensures cause { OnErr result (IsErrOf result Error.Mem) }
{
    for section in sections {
        let len = index.section_len(*section)?;
        tracking.synced(*section, len)?;
    }
    Ok(())
}

impl<I: Record, V: Codec, S: Seal> Oversized<I, V, S> {
    ghost use Rattle.paired.specs.PairShown.{shown};
    ghost use Rattle.paired.specs.PairSyncs.{SettlesPair, SyncsTracked};
    ghost use Rattle.paired.specs.PairUse.{IsPairOver};

    /// Settles these sections, and leaves their markers to a later sync. One that is not held is passed over.
    pub fn sync<D: Device>(self, dev: &mut D, sections: &[u64]) -> Result<Self, Error>
        requires over { IsPairOver ⟦<PageBlob<S> as SectionBuffer>⟧
            ⟦<AppendFactory<S> as BufferFactory>⟧.gives D.Device (shown I.place self) dev.old }
        ensures { SyncsTracked ⟦<PageBlob<S> as SectionBuffer>⟧
            ⟦<AppendFactory<S> as BufferFactory>⟧.gives D.Device (shown I.place self)
            self.values.codec_config dev.old dev.new (λ r. shown I.place r) (λ r. r.values.codec_config)
            (Contains sections.now) (Contains sections.now) result }
    {
        self.sync_tracked(dev, sections, sections)
    }

    /// As [`sync`](Oversized::sync), with the handle of a sync that has finished.
    pub fn start_sync<D: Device>(
        self,
        dev: &mut D,
        sections: &[u64],
    ) -> Result<(Self, Handle), Error>
        requires over { IsPairOver ⟦<PageBlob<S> as SectionBuffer>⟧
            ⟦<AppendFactory<S> as BufferFactory>⟧.gives D.Device (shown I.place self) dev.old }
        ensures { SyncsTracked ⟦<PageBlob<S> as SectionBuffer>⟧
            ⟦<AppendFactory<S> as BufferFactory>⟧.gives D.Device (shown I.place self)
            self.values.codec_config dev.old dev.new (λ r. shown I.place r.0) (λ r. r.0.values.codec_config)
            (Contains sections.now) (Contains sections.now) result }
    {
        self.start_sync_tracked(dev, sections, sections)
    }

    /// Settles all sections, and leaves their markers to a later sync.
    pub fn sync_all<D: Device>(self, dev: &mut D) -> Result<Self, Error>
        requires over { IsPair ⟦<PageBlob<S> as SectionBuffer>⟧ ⟦<AppendFactory<S> as BufferFactory>⟧.gives ⟦<WriteBlob as SectionBuffer>⟧ ⟦<WriteFactory as BufferFactory>⟧.gives D.Tells (shown I.place self) (D.opened dev.old) (disk (D.time dev.old)) }
        ensures over { IfOk result (λ r. IsPair ⟦<PageBlob<S> as SectionBuffer>⟧ ⟦<AppendFactory<S> as BufferFactory>⟧.gives ⟦<WriteBlob as SectionBuffer>⟧ ⟦<WriteFactory as BufferFactory>⟧.gives D.Tells (shown I.place r) (D.opened dev.new) (disk (D.time dev.new))) }
        ensures sound { D.Tells → IsSoundOn (shown I.place self) (disk (D.time dev.old)) → IfOk result (λ r. IsSoundOn (shown I.place r) (disk (D.time dev.new))) }
        ensures lists { D.Tells → IfOk result (λ r. (s : ℕ) → list_of (shown I.place r) (disk (D.time dev.new)) s ≡ list_of (shown I.place self) (disk (D.time dev.old)) s) }
        ensures lengths { IfOk result (λ r. (s : ℕ) → length_of (shown I.place r) s ≡ length_of (shown I.place self) s) }
        ensures held { IfOk result (λ r. (s : ℕ) → IsHeld (shown I.place r).index.sections s ↔ IsHeld (shown I.place self).index.sections s) }
        ensures values_held { IfOk result (λ r. (s : ℕ) → IsHeld (shown I.place r).values s ↔ IsHeld (shown I.place self).values s) }
        ensures synced { IfOk result (λ r. (s : ℕ) → synced_length (shown I.place r) s ≡ length_of (shown I.place self) s) }
        ensures settled { IfOk result (λ r. (s : ℕ) → IsHeld (shown I.place self).values s → glob.IsAllSettled (shown I.place r).values s) }
        // No marker moves.
        ensures markers { IfOk result (λ r. (shown I.place r).store ≡ (shown I.place self).store) }
        ensures bounds { IfOk result (λ r. SameBounds (shown I.place self).index.sections (shown I.place r).index.sections × SameBounds (shown I.place self).values (shown I.place r).values) }
        ensures layout { IfOk result (λ r. IsSameLayout (shown I.place self).layout (shown I.place r).layout) }
        ensures codec_config { IfOk result (λ r. r.values.codec_config ≡ self.values.codec_config) }
        ensures moments { D.Tells → IsSafeOn (shown I.place self) (disk (D.time dev.old)) → Keeping (shown I.place self).layout (list_of (shown I.place self) (disk (D.time dev.old))) (synced_length (shown I.place self)) (λ _. ⊥) (λ q. IsIndexOf (shown I.place self).layout (λ _. ⊤) q ⊎ IsValuesOf (shown I.place self).layout (λ _. ⊤) q) (D.time dev.old) (D.time dev.new) }
        // Also of a pair that is not sound, no other blob changes.
        ensures untouched { D.Tells → Always (D.time dev.old) (D.time dev.new) (λ d. (q : Key) → (IsBlobOf (shown I.place self).layout (λ s. IsHeld (shown I.place self).index.sections s) q → ⊥) → d q ≡ disk (D.time dev.old) q) }
        ensures order { D.Tells → InOrder (IsIndexOf (shown I.place self).layout (λ _. ⊤)) (IsValuesOf (shown I.place self).layout (λ _. ⊤)) (D.time dev.old) (D.time dev.new) }
        // Where nothing is left to settle, no call of the device is made.
        ensures idle { ((s : ℕ) → IsUnsettled ⟦<PageBlob<S> as SectionBuffer>⟧ (shown I.place self).index.sections s ⊎ glob.IsUnsettled (shown I.place self).values s → ⊥) → dev.new ≡ dev.old }
        ensures entries { (q : Key) → (IsIndexOf (shown I.place self).layout (λ _. ⊤) q → ⊥) → (IsValuesOf (shown I.place self).layout (λ _. ⊤) q → ⊥) → D.opened dev.new q ≡ D.opened dev.old q }
        // No copy of the markers changes.
        ensures fault { D.Tells → FaultsInOrder (shown I.place self) (λ _. ⊤) result (D.faults dev.old) (D.faults dev.new) (D.time dev.old) (D.time dev.new) }
        ensures faults { D.faults dev.old ≤ D.faults dev.new }
        ensures cause { OnErr result (HasFailed result (D.faults dev.old) (D.faults dev.new)) }
    {
        let sections = numbers(self.alloc, &self.index)?;
        self.settle(dev, sections.as_slice())
    }

    // Settles the records of these sections, then their values, and notes what was synced. No marker moves.
    fn settle<D: Device>(self, dev: &mut D, sections: &[u64]) -> Result<Self, Error>
        requires over { IsPairOver ⟦<PageBlob<S> as SectionBuffer>⟧
            ⟦<AppendFactory<S> as BufferFactory>⟧.gives D.Device (shown I.place self) dev.old }
        ensures { SettlesPair ⟦<PageBlob<S> as SectionBuffer>⟧
            ⟦<AppendFactory<S> as BufferFactory>⟧.gives D.Device (shown I.place self)
            self.values.codec_config dev.old dev.new (λ r. shown I.place r) (λ r. r.values.codec_config)
            (Contains sections.now) result }
    {
        let mut this = self;
        // Records, then values, as `SyncKeeps.order` says. Either order is safe: an opening checks values
        // above a marker.
        this.index = this.index.sync(dev, sections)?;
        // Before it is noted what was synced: a record counts only with its value.
        this.values = this.values.sync(dev, sections)?;
        // Only now: a marker may move to this.
        note_synced(&this.index, &mut this.tracking, sections)?;
        Ok(this)
    }

    // Moves the marker of each section that is not active to what was synced of it, and makes the markers durable, if one moved.
    pub(super) fn move_markers<D: Device>(self, dev: &mut D, active: &[u64]) -> Result<Self, Error>
        requires over { IsPair ⟦<PageBlob<S> as SectionBuffer>⟧ ⟦<AppendFactory<S> as BufferFactory>⟧.gives ⟦<WriteBlob as SectionBuffer>⟧ ⟦<WriteFactory as BufferFactory>⟧.gives D.Tells (shown I.place self) (D.opened dev.old) (disk (D.time dev.old)) }
        ensures over { IfOk result (λ r. IsPair ⟦<PageBlob<S> as SectionBuffer>⟧ ⟦<AppendFactory<S> as BufferFactory>⟧.gives ⟦<WriteBlob as SectionBuffer>⟧ ⟦<WriteFactory as BufferFactory>⟧.gives D.Tells (shown I.place r) (D.opened dev.new) (disk (D.time dev.new))) }
        ensures sound { D.Tells → IsSoundOn (shown I.place self) (disk (D.time dev.old)) → IfOk result (λ r. IsSoundOn (shown I.place r) (disk (D.time dev.new))) }
        ensures lists { D.Tells → IfOk result (λ r. (s : ℕ) → list_of (shown I.place r) (disk (D.time dev.new)) s ≡ list_of (shown I.place self) (disk (D.time dev.old)) s) }
        ensures index { IfOk result (λ r. (shown I.place r).index ≡ (shown I.place self).index) }
        ensures values { IfOk result (λ r. (shown I.place r).values ≡ (shown I.place self).values) }
        ensures synced { IfOk result (λ r. (s : ℕ) → synced_length (shown I.place r) s ≡ synced_length (shown I.place self) s) }
        ensures markers { IfOk result (λ r. (s : ℕ) → (Contains active.now s → ⊥) → marker_of (shown I.place r).store.entries s ≡ synced_length (shown I.place r) s) }
        ensures active { IfOk result (λ r. (s : ℕ) → Contains active.now s → marker_of (shown I.place r).store.entries s ≡ marker_of (shown I.place self).store.entries s) }
        ensures marked { IfOk result (λ r. (s m : ℕ) → IsMarked (shown I.place r).store.entries s m → IsMarked (shown I.place self).store.entries s m ⊎ ((Contains active.now s → ⊥) × (m ≡ synced_length (shown I.place r) s) × (m ≢ marker_of (shown I.place self).store.entries s))) }
        ensures still { (((s : ℕ) × IsMoving (shown I.place self) (λ _. ⊥) (Contains active.now) s) → ⊥) → (dev.new ≡ dev.old) × IfOk result (λ r. (shown I.place r).store ≡ (shown I.place self).store) }
        ensures marker_floor { IfOk result (λ r.
            (shown I.place r).store.floor ≡ (shown I.place self).store.floor) }
        ensures layout { IfOk result (λ r. IsSameLayout (shown I.place self).layout (shown I.place r).layout) }
        ensures codec_config { IfOk result (λ r. r.values.codec_config ≡ self.values.codec_config) }
        ensures moments { D.Tells → IsSafeOn (shown I.place self) (disk (D.time dev.old)) → Keeping (shown I.place self).layout (list_of (shown I.place self) (disk (D.time dev.old))) (synced_length (shown I.place self)) (λ _. ⊥) (IsCopy (shown I.place self).layout) (D.time dev.old) (D.time dev.new) }
        ensures alone { D.Tells → Always (D.time dev.old) (D.time dev.new) (λ d. (q : Key) → (IsCopy (shown I.place self).layout q → ⊥) → d q ≡ disk (D.time dev.old) q) }
        ensures newer_stays { D.Tells → Always (D.time dev.old) (D.time dev.new) (λ d. d (blob_of (shown I.place self).layout.metadata (other_side (shown I.place self).store.older)) ≡ disk (D.time dev.old) (blob_of (shown I.place self).layout.metadata (other_side (shown I.place self).store.older))) }
        // Also of a pair that is not sound.
        ensures mapping { D.Tells
            → MovesMarkers (shown I.place self) (Contains active.now) (D.time dev.old) (D.time dev.new) }
        ensures entries { (q : Key) → (IsCopy (shown I.place self).layout q → ⊥) → D.opened dev.new q ≡ D.opened dev.old q }
        ensures full { IsErrOf result Error.Full → (2 ^ 64 ≤ (shown I.place self).store.version + 1) × ((s : ℕ) × IsMoving (shown I.place self) (λ _. ⊥) (Contains active.now) s) }
        ensures no_version { 2 ^ 64 ≤ (shown I.place self).store.version + 1 → ((s : ℕ) × IsMoving (shown I.place self) (λ _. ⊥) (Contains active.now) s) → OnOk result ⊥ }
        ensures lost { HasLostMarkers result (D.faults dev.old) (D.faults dev.new) → ((s : ℕ) × IsMoving (shown I.place self) (λ _. ⊥) (Contains active.now) s) }
        // The device's failure is one of the markers.
        ensures fault { IsErrOf result (Error.Runtime Fault) → ⊥ }
        ensures faults { D.faults dev.old ≤ D.faults dev.new }
        ensures cause { OnErr result (IsErrOf result Error.Full ⊎ (HasFailed result (D.faults dev.old) (D.faults dev.new) ⊎ HasLostMarkers result (D.faults dev.old) (D.faults dev.new))) }
    {
        let mut this = self;
        this.tracking.stage(active)?;
        // Behind the sync of all that the markers count.
        this.tracking = this.tracking.sync(dev)?;
        Ok(this)
    }

    /// Settles the records of these sections, then their values. Then the marker of each held section that is not active becomes the section's length
    /// at its last completed sync or opening, and the markers are made durable, if one moved. A section that is not held is passed over.
    pub fn sync_tracked<D: Device>(
        self,
        dev: &mut D,
        sections: &[u64],
        active: &[u64],
    ) -> Result<Self, Error>
        requires over { IsPairOver ⟦<PageBlob<S> as SectionBuffer>⟧
            ⟦<AppendFactory<S> as BufferFactory>⟧.gives D.Device (shown I.place self) dev.old }
        ensures { SyncsTracked ⟦<PageBlob<S> as SectionBuffer>⟧
            ⟦<AppendFactory<S> as BufferFactory>⟧.gives D.Device (shown I.place self)
            self.values.codec_config dev.old dev.new (λ r. shown I.place r) (λ r. r.values.codec_config)
            (Contains sections.now) (Contains active.now) result }
    {
        // First what the markers are to count.
        let this = self.settle(dev, sections)?;
        this.move_markers(dev, active)
    }

    /// As [`sync_tracked`](Oversized::sync_tracked), with the handle of a sync that has finished.
    pub fn start_sync_tracked<D: Device>(
        self,
        dev: &mut D,
        sections: &[u64],
        active: &[u64],
    ) -> Result<(Self, Handle), Error>
        requires over { IsPairOver ⟦<PageBlob<S> as SectionBuffer>⟧
            ⟦<AppendFactory<S> as BufferFactory>⟧.gives D.Device (shown I.place self) dev.old }
        ensures { SyncsTracked ⟦<PageBlob<S> as SectionBuffer>⟧
            ⟦<AppendFactory<S> as BufferFactory>⟧.gives D.Device (shown I.place self)
            self.values.codec_config dev.old dev.new (λ r. shown I.place r.0) (λ r. r.0.values.codec_config)
            (Contains sections.now) (Contains active.now) result }
    {
        // Settled before the handle is given out: it is of a sync that has finished.
        let this = self.sync_tracked(dev, sections, active)?;
        Ok((this, Handle::finished()))
    }
}
