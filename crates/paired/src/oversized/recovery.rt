// The end of an opening by markers: what is not kept is cut, and the markers are raised.
ghost use Rattle.std.specs.Prelude.{◌≡◌, ◌≢◌, ◌↔◌, ◌⊎◌, ◌≤◌, ◌<◌, ◌+◌, ◌*◌, ◌/◌, ◌^◌, ⊤, ℕ, Option, Some, None, Ok, Err, true, false, length, map, min, take, unwrap_or, IfOk, OnOk, OnErr, IsSome, IsSomeAnd, IsTrue};
ghost use Rattle.std.specs.List.{Contains};
ghost use Rattle.std.specs.Result.{IsErrOf};
ghost use Rattle.std.specs.BTreeMap.{get};
ghost use Rattle.std.specs.BTreeSet as set;
ghost use Rattle.std.specs.Ordering.{nat_cmp};
ghost use Rattle.blob_device.specs.Disk.{Key, nothing};
ghost use Rattle.blob_device.specs.Opened.{reads_of};
ghost use Rattle.blob_device.specs.Timeline.{disk, Always, Each};
ghost use Rattle.blob_device.specs.declared.runtime.RError.TheVariants.{InvalidChecksum};
ghost use Rattle.sealed_pages.specs.Buffer.{size_of};
ghost use Rattle.sealed_pages.specs.Reading.{Unchanged};
ghost use Rattle.sealed_pages.specs.Shown as page_blob;
ghost use Rattle.section_manager.specs.Entries.{StartsNoRead};
ghost use Rattle.section_manager.specs.Lasting.{EntriesLeave, Removing};
ghost use Rattle.section_manager.specs.managing.Managed as managed;
ghost use Rattle.section_manager.specs.Refusing.{HasFailed, HasDamage};
ghost use Rattle.section_manager.specs.Sections.{key_of, section_key, IsHeld, IsKeyOf, IsSame, SameBounds};
ghost use Rattle.segments.specs.FixedLists.{IsJournal, IsProven, section_bytes, section_size};
ghost use Rattle.segments.specs.FixedReading.{HasNotRead};
ghost use Rattle.segments.specs.FixedReplay.{IsDrained};
ghost use Rattle.segments.specs.FixedShown as journal;
ghost use Rattle.meta_store.specs.Blobs.{blob_of, other_side};
ghost use Rattle.paired.specs.Crashes.{IsBlobOf, IsCopy, IsIndexOf, IsOwn, IsValuesOf, InOrder};
ghost use Rattle.paired.specs.glob.Lasting.{Cutting};
ghost use Rattle.paired.specs.glob.Sections.{IsGlob, IsAllSettled, IsLonger};
ghost use Rattle.paired.specs.glob.Sections as glob;
ghost use Rattle.paired.specs.Kept.{IsMarked, IsSameLayout, kept, marker_of};
ghost use Rattle.paired.specs.Opening.{as_read, IsLawful, MayBeOpened, RecallsAlone};
ghost use Rattle.paired.specs.OpeningFound.{CountsAll, HasKept};
ghost use Rattle.paired.specs.OpeningRefusing.{AreSpellings, IsLastOutside, IsSomeRefused};
ghost use Rattle.paired.specs.Pair.{IsPair, IsSoundOn, list_of, length_of, records_of, synced_length};
ghost use Rattle.paired.specs.PairRefusing.{HasLostMarkers};
ghost use Rattle.paired.specs.PairShown.{shown};
ghost use Rattle.paired.specs.Places.{last_end};
ghost use Rattle.paired.specs.Records.{records};
ghost use Rattle.paired.specs.Reconciling.{CutTo, EndOf, IsCutOff, IsEndWithin, Shortening};
ghost use Rattle.paired.specs.ReplayShown.{run_of};
ghost use Rattle.paired.specs.Replaying.{IsRun, entries_given, records_given};
ghost use Rattle.paired.specs.Replaying as run;

use super::Oversized;
use super::opening::held_sections;
use super::replaying::Replay;
use super::syncing::{note_synced, numbers};
use crate::{Glob, Record, Recovery};
use blob_device::Device;
use sealed_pages::{PageBlob, WriteBlob};
use segments::fixed::Journal;
use segments::journal::Error;
use segments::{AppendFactory, BufferFactory, SectionBuffer, WriteFactory};
use std::alloc::Global;
use std::collections::{BTreeMap, BTreeSet};
use value_codec::{Codec, Seal};

// Cuts each of these sections to so many records, if it has more. A cut is durable when this returns.
fn cut_records<I: Record, S: Seal, D: Device>(
    dev: &mut D,
    index: Journal<I, S>,
    ends: &BTreeMap<u64, u64>,
) -> Result<Journal<I, S>, Error>
    requires over { IsJournal ⟦<PageBlob<S> as SectionBuffer>⟧ ⟦<AppendFactory<S> as BufferFactory>⟧.gives S.seal_of I.SIZE D.Tells (journal.shown index) (D.opened dev.old) (disk (D.time dev.old)) }
    requires proven { (s : ℕ) → IsProven (journal.shown index) s }
    requires floor { (journal.shown index).sections.floor ≡ 0 }
    ensures over { IfOk result (λ r. IsJournal ⟦<PageBlob<S> as SectionBuffer>⟧ ⟦<AppendFactory<S> as BufferFactory>⟧.gives S.seal_of I.SIZE D.Tells (journal.shown r) (D.opened dev.new) (disk (D.time dev.new))) }
    ensures proven { IfOk result (λ r. (s : ℕ) → IsProven (journal.shown r) s) }
    ensures cut { D.Tells → IfOk result (λ r. (s n : ℕ) → get nat_cmp ends.now s ≡ Some n → section_bytes (journal.shown r).sections (disk (D.time dev.new)) s ≡ take (n * I.SIZE) (section_bytes (journal.shown index).sections (disk (D.time dev.old)) s)) }
    ensures sizes { IfOk result (λ r. (s n : ℕ) → get nat_cmp ends.now s ≡ Some n → section_size (journal.shown r).sections s ≡ min (section_size (journal.shown index).sections s) (n * I.SIZE)) }
    ensures others { IfOk result (λ r. (s : ℕ) → get nat_cmp ends.now s ≡ None → IsSame (journal.shown index).sections (journal.shown r).sections s) }
    ensures held { IfOk result (λ r. (s : ℕ) → IsHeld (journal.shown r).sections s ↔ IsHeld (journal.shown index).sections s) }
    ensures unopened { IfOk result (λ r. (s : ℕ) → (journal.shown r).sections.unopened s ≡ (journal.shown index).sections.unopened s) }
    ensures settled { ((s : ℕ) (u : _) → (journal.shown index).sections.held s ≡ Some u → ⟦<PageBlob<S> as SectionBuffer>⟧.unsettled u ≡ false) → IfOk result (λ r. (s : ℕ) (u : _) → (journal.shown r).sections.held s ≡ Some u → ⟦<PageBlob<S> as SectionBuffer>⟧.unsettled u ≡ false) }
    ensures bounds { IfOk result (λ r. SameBounds (journal.shown index).sections (journal.shown r).sections) }
    // At every moment, also where the call fails, each crash leaves of a section that is cut a prefix of its bytes, no shorter than the cut or than what
    // had settled; no other blob changes.
    ensures moments { D.Tells → Always (D.time dev.old) (D.time dev.new) (Each (Shortening S.seal_of (journal.shown index).sections (λ s. CutTo I.SIZE (get nat_cmp ends.now s)) (disk (D.time dev.old)))) }
    ensures idle { ((s n : ℕ) → get nat_cmp ends.now s ≡ Some n → section_size (journal.shown index).sections s ≤ n * I.SIZE) → dev.new ≡ dev.old }
    ensures entries { (q : Key) → (IsKeyOf (journal.shown index).sections (λ s. IsSome (get nat_cmp ends.now s)) q → ⊥) → D.opened dev.new q ≡ D.opened dev.old q }
    ensures faults { D.faults dev.old ≤ D.faults dev.new }
    ensures damage { D.Tells → HasDamage result → ⊥ }
    ensures cause { OnErr result (HasDamage result ⊎ HasFailed result (D.faults dev.old) (D.faults dev.new)) }
{
    let mut index = index;
    for (section, count) in ends {
        let size = count.saturating_mul(I::SIZE as u64);
        // Durable before a value goes: no record that comes back may name bytes that were cut.
        index = index.truncate_pending_section(dev, *section, size)?;
    }
    Ok(index)
}

// Where the last kept value of a section ends, whose values have so many bytes; 0 where it keeps none.
fn end_at(kept: &BTreeMap<u64, u64>, section: u64, size: u64) -> u64
    ensures { result ≡ min (unwrap_or (get nat_cmp kept.now section) 0) size }
{
    kept.get(&section).copied().unwrap_or(0).min(size)
}

// Where the values of each section of records end.
fn value_ends<I: Record, V: Codec, S: Seal>(
    alloc: Global,
    index: &Journal<I, S>,
    kept: &BTreeMap<u64, u64>,
    values: &Recovery<V, S>,
) -> Result<BTreeMap<u64, u64>, Error>
    requires floor { (managed.shown values.now.manager).floor ≡ 0 }
    ensures each { IfOk result (λ r. (s : ℕ)
        → IsSome (get nat_cmp r s) ↔ IsHeld (journal.shown index.now).sections s) }
    ensures ends { IfOk result (λ r. (s n : ℕ) → get nat_cmp r s ≡ Some n
        → IsCutOff (unwrap_or (get nat_cmp kept.now s) 0)
        (glob.section_size (managed.shown values.now.manager) s) n) }
    ensures cause { OnErr result (IsErrOf result Error.Mem) }
{
    let mut ends = BTreeMap::new(alloc);
    for section in index.sections() {
        // A value that is kept stands within them, so this takes nothing away.
        let size = values.size(section)?;
        let end = end_at(kept, section, size);
        ends.insert(section, end)?;
    }
    Ok(ends)
}

// Cuts the values of each section with records to the end of its last record's. A cut is durable when this returns.
fn cut_values<I: Record, V: Codec, S: Seal, D: Device>(
    alloc: Global,
    dev: &mut D,
    index: &Journal<I, S>,
    kept: &BTreeMap<u64, u64>,
    values: Recovery<V, S>,
) -> Result<Glob<V, S>, Error>
    requires over { IsJournal ⟦<PageBlob<S> as SectionBuffer>⟧ ⟦<AppendFactory<S> as BufferFactory>⟧.gives S.seal_of I.SIZE D.Tells (journal.shown index.now) (D.opened dev.old) (disk (D.time dev.old)) }
    requires values { IsGlob ⟦<WriteBlob as SectionBuffer>⟧ ⟦<WriteFactory as BufferFactory>⟧.gives D.Tells (managed.shown values.manager) (D.opened dev.old) (disk (D.time dev.old)) }
    requires proven { (s : ℕ) → IsProven (journal.shown index.now) s }
    requires floors { ((journal.shown index.now).sections.floor ≡ 0) × ((managed.shown values.manager).floor ≡ 0) }
    // Where the values of the sections of records end was found when those were gone over.
    requires ends { D.Tells → (s : ℕ) → IsHeld (journal.shown index.now).sections s
        → IsEndWithin (last_end I.place (records I.SIZE
        (section_bytes (journal.shown index.now).sections (disk (D.time dev.old)) s)))
        (glob.section_size (managed.shown values.manager) s)
        (unwrap_or (get nat_cmp kept.now s) 0) }
    requires apart { (journal.shown index.now).sections.partition ≢ (managed.shown values.manager).partition }
    ensures over { IfOk result (λ _. IsJournal ⟦<PageBlob<S> as SectionBuffer>⟧ ⟦<AppendFactory<S> as BufferFactory>⟧.gives S.seal_of I.SIZE D.Tells (journal.shown index.now) (D.opened dev.new) (disk (D.time dev.new))) }
    ensures values { IfOk result (λ r. IsGlob ⟦<WriteBlob as SectionBuffer>⟧ ⟦<WriteFactory as BufferFactory>⟧.gives D.Tells (managed.shown r.manager) (D.opened dev.new) (disk (D.time dev.new))) }
    ensures cut { D.Tells → IfOk result (λ r. (s : ℕ) → IsHeld (journal.shown index.now).sections s → glob.section_bytes (managed.shown r.manager) (disk (D.time dev.new)) s
        ≡ take (last_end I.place (records I.SIZE (section_bytes (journal.shown index.now).sections (disk (D.time dev.old)) s))) (glob.section_bytes (managed.shown values.manager) (disk (D.time dev.old)) s)) }
    ensures others { IfOk result (λ r. (s : ℕ) → ((journal.shown index.now).sections.held s ≡ None) → (managed.shown r.manager).held s ≡ (managed.shown values.manager).held s) }
    ensures held { IfOk result (λ r. (s : ℕ) → IsHeld (managed.shown r.manager) s ↔ IsHeld (managed.shown values.manager) s) }
    ensures unopened { IfOk result (λ r. (s : ℕ) → (managed.shown r.manager).unopened s ≡ (managed.shown values.manager).unopened s) }
    ensures settled { ((s : ℕ) → IsHeld (managed.shown values.manager) s → IsAllSettled (managed.shown values.manager) s) → IfOk result (λ r. (s : ℕ) → IsHeld (managed.shown r.manager) s → IsAllSettled (managed.shown r.manager) s) }
    ensures bounds { IfOk result (λ r. SameBounds (managed.shown values.manager) (managed.shown r.manager)) }
    ensures codec_config { IfOk result (λ r. r.codec_config ≡ values.codec_config) }
    // At every moment, also where the call fails, each crash leaves of a section that is cut what had settled, up to the cut; no other blob changes.
    ensures moments { D.Tells → Always (D.time dev.old) (D.time dev.new) (Each (Cutting (managed.shown values.manager) (EndOf I.place I.SIZE (journal.shown index.now).sections (disk (D.time dev.old))) (disk (D.time dev.old)))) }
    ensures idle { D.Tells → ((s : ℕ) → IsHeld (journal.shown index.now).sections s → glob.section_size (managed.shown values.manager) s ≤ last_end I.place (records I.SIZE (section_bytes (journal.shown index.now).sections (disk (D.time dev.old)) s))) → Unchanged (D.time dev.old) (D.time dev.new) }
    ensures reads { (s : ℕ) → reads_of (D.opened dev.new (key_of (managed.shown values.manager) s)) ≤ reads_of (D.opened dev.old (key_of (managed.shown values.manager) s)) }
    // No record is read.
    ensures entries { (q : Key) → (IsKeyOf (managed.shown values.manager)
        (IsHeld (journal.shown index.now).sections) q → ⊥)
        → D.opened dev.new q ≡ D.opened dev.old q }
    ensures faults { D.faults dev.old ≤ D.faults dev.new }
    ensures cause { OnErr result (HasFailed result (D.faults dev.old) (D.faults dev.new)) }
{
    let ends = value_ends(alloc, index, kept, &values)?;
    // Behind the cut of the records, by whose last one the end is known. New frames go there.
    let values = values.truncate_sections(dev, &ends)?;
    Ok(Glob::from(values))
}

// The sections of the values that are not among these.
fn orphans<V: Codec, S: Seal>(
    alloc: Global,
    held: &BTreeSet<u64>,
    values: &Glob<V, S>,
) -> Result<Vec<u64>, Error>
    ensures each { IfOk result (λ r. (s : ℕ) → Contains r.items s ↔ (IsHeld (managed.shown values.now.manager) s × (set.contains nat_cmp held.now s ≡ false))) }
    ensures cause { OnErr result (IsErrOf result Error.Mem) }
{
    let mut orphans = Vec::new(alloc);
    for section in values.sections() {
        if !held.contains(&section) {
            orphans.push(section)?;
        }
    }
    Ok(orphans)
}

// Removes the values of these sections.
fn remove_values<V: Codec, S: Seal, D: Device>(
    dev: &mut D,
    values: Glob<V, S>,
    sections: &[u64],
) -> Result<Glob<V, S>, Error>
    requires over { IsGlob ⟦<WriteBlob as SectionBuffer>⟧ ⟦<WriteFactory as BufferFactory>⟧.gives D.Tells (managed.shown values.manager) (D.opened dev.old) (disk (D.time dev.old)) }
    requires floor { (managed.shown values.manager).floor ≡ 0 }
    ensures over { IfOk result (λ r. IsGlob ⟦<WriteBlob as SectionBuffer>⟧ ⟦<WriteFactory as BufferFactory>⟧.gives D.Tells (managed.shown r.manager) (D.opened dev.new) (disk (D.time dev.new))) }
    ensures removed { IfOk result (λ r. (s : ℕ) → Contains sections.now s → (managed.shown r.manager).held s ≡ None) }
    ensures others { IfOk result (λ r. (s : ℕ) → (Contains sections.now s → ⊥) → IsSame (managed.shown values.manager) (managed.shown r.manager) s) }
    ensures bytes { D.Tells → IfOk result (λ r. (s : ℕ) → (Contains sections.now s → ⊥) → glob.section_bytes (managed.shown r.manager) (disk (D.time dev.new)) s ≡ glob.section_bytes (managed.shown values.manager) (disk (D.time dev.old)) s) }
    ensures unopened { IfOk result (λ r. (s : ℕ) → (managed.shown r.manager).unopened s ≡ (managed.shown values.manager).unopened s) }
    ensures bounds { IfOk result (λ r. SameBounds (managed.shown values.manager) (managed.shown r.manager)) }
    ensures codec_config { IfOk result (λ r. r.codec_config ≡ values.codec_config) }
    ensures gone { D.Tells → OnOk result ((s : ℕ) → Contains sections.now s → IsHeld (managed.shown values.manager) s → disk (D.time dev.new) (key_of (managed.shown values.manager) s) ≡ nothing) }
    ensures moments { D.Tells → Always (D.time dev.old) (D.time dev.new) (λ d. (q : Key) → (IsKeyOf (managed.shown values.manager) (λ s. Contains sections.now s × IsHeld (managed.shown values.manager) s) q → ⊥) → d q ≡ (disk (D.time dev.old)) q) }
    ensures idle { ((s : ℕ) → Contains sections.now s → (managed.shown values.manager).held s ≡ None) → dev.new ≡ dev.old }
    ensures entries { EntriesLeave (IsKeyOf (managed.shown values.manager) (Contains sections.now)) (D.opened dev.old) (D.opened dev.new) }
    ensures faults { D.faults dev.old ≤ D.faults dev.new }
    ensures cause { OnErr result (HasFailed result (D.faults dev.old) (D.faults dev.new)) }
{
    let mut values = values;
    for section in sections {
        // No record names them. Left there, they would stand before the section's first new frame.
        let (rest, _) = values.remove_section(dev, *section)?;
        values = rest;
    }
    Ok(values)
}

impl<I: Record, V: Codec, S: Seal> Replay<I, V, S> {
    /// Gives the pair that was opened by its markers. The records that are not kept are cut off, then the values behind the last record of
    /// each section, then those of sections without records; last the markers are raised to what is kept. Where there is nothing to do,
    /// nothing is written. No value is read.
    ///
    /// It answers `ReplayFailed` where a record is left, an error was given, or the replay is not that of an opening by markers.
    pub fn finish_tracked<D: Device>(self, dev: &mut D) -> Result<Oversized<I, V, S>, Error>
        requires over { IsRun (run_of I.place self) ⟦<PageBlob<S> as SectionBuffer>⟧ ⟦<AppendFactory<S> as BufferFactory>⟧.gives ⟦<WriteBlob as SectionBuffer>⟧ ⟦<WriteFactory as BufferFactory>⟧.gives D.Tells (D.opened dev.old) (disk (D.time dev.old)) }
        ensures over { IfOk result (λ r. IsPair ⟦<PageBlob<S> as SectionBuffer>⟧ ⟦<AppendFactory<S> as BufferFactory>⟧.gives ⟦<WriteBlob as SectionBuffer>⟧ ⟦<WriteFactory as BufferFactory>⟧.gives D.Tells (shown I.place r) (D.opened dev.new) (disk (D.time dev.new))) }
        // Each section has the records that were given, which are those that the disk kept, and the values up to the end of the last one's.
        ensures kept { D.Tells → IfOk result (λ r. HasKept (run_of I.place self) (disk (D.time dev.old)) (disk (D.time dev.new)) (shown I.place r)) }
        // The markers count them. Partitions, pages and write buffers are those of the replay.
        ensures counts { IfOk result (λ r. CountsAll (run_of I.place self) (shown I.place r)) }
        ensures settled { IfOk result (λ r. (s : ℕ) → IsHeld (shown I.place r).values s → IsAllSettled (shown I.place r).values s) }
        ensures index_settled { IfOk result (λ r. (s : ℕ) (u : _) → (shown I.place r).index.sections.held s ≡ Some u → ⟦<PageBlob<S> as SectionBuffer>⟧.unsettled u ≡ false) }
        ensures codec_config { IfOk result (λ r. r.values.codec_config ≡ self.values.codec_config) }
        // At every moment, also where the call fails, each crash leaves what a crash before the call would have left; no blob but the pair's changes.
        ensures moments { D.Tells → MayBeOpened (run_of I.place self).layout (disk (D.time dev.old)) → Always (D.time dev.old) (D.time dev.new) (RecallsAlone (run_of I.place self).layout (IsOwn (run_of I.place self).layout (λ _. ⊤)) (disk (D.time dev.old))) }
        ensures untouched { D.Tells → Always (D.time dev.old) (D.time dev.new) (λ d. (q : Key) → (IsOwn (run_of I.place self).layout (λ _. ⊤) q → ⊥) → d q ≡ (disk (D.time dev.old)) q) }
        // Records first, then the values behind them, then those of sections without records, then markers.
        ensures order { D.Tells → InOrder (IsIndexOf (run_of I.place self).layout (λ _. ⊤)) (IsValuesOf (run_of I.place self).layout (λ _. ⊤)) (D.time dev.old) (D.time dev.new) }
        ensures orphans_last { D.Tells → InOrder (IsValuesOf (run_of I.place self).layout (IsHeld (run_of I.place self).walk.journal.sections)) (IsValuesOf (run_of I.place self).layout (λ s. (run_of I.place self).walk.journal.sections.held s ≡ None)) (D.time dev.old) (D.time dev.new) }
        ensures markers_last { D.Tells → InOrder (IsBlobOf (run_of I.place self).layout (λ _. ⊤)) (IsCopy (run_of I.place self).layout) (D.time dev.old) (D.time dev.new) }
        // The markers are written over their older copy.
        ensures newer_stays { D.Tells → Always (D.time dev.old) (D.time dev.new) (λ d. d (blob_of (run_of I.place self).layout.metadata (other_side (run_of I.place self).store.older)) ≡ (disk (D.time dev.old)) (blob_of (run_of I.place self).layout.metadata (other_side (run_of I.place self).store.older))) }
        // The blobs of a section of which all is kept, and no value behind the last record's or without a record, stay as they are at each moment,
        // also where the call fails. Where all sections are such and the markers are what is kept, nothing changes.
        ensures clean { D.Tells → (s : ℕ) → run.IsClean (run_of I.place self) (disk (D.time dev.old)) s → Always (D.time dev.old) (D.time dev.new) (λ d. (q : Key) → IsBlobOf (run_of I.place self).layout (λ t. t ≡ s) q → d q ≡ (disk (D.time dev.old)) q) }
        ensures idle { D.Tells → run.IsAllKept (run_of I.place self) (disk (D.time dev.old)) → Unchanged (D.time dev.old) (D.time dev.new) }
        ensures reads { (s : ℕ) → reads_of (D.opened dev.new (section_key (run_of I.place self).layout.values s)) ≤ reads_of (D.opened dev.old (section_key (run_of I.place self).layout.values s)) }
        // Of a section in which no value failed no record is read.
        ensures index_unread { (s : ℕ) → s < 2 ^ 64 → (run_of I.place self).ends.at s ≡ None
            → reads_of (D.opened dev.new (section_key (run_of I.place self).layout.index s))
            ≤ reads_of (D.opened dev.old (section_key (run_of I.place self).layout.index s)) }
        ensures entries { (q : Key) → (IsOwn (run_of I.place self).layout (λ _. ⊤) q → ⊥) → D.opened dev.new q ≡ D.opened dev.old q }
        ensures replay_failed { (result ≡ Err Error.ReplayFailed) ↔ (((run_of I.place self).tracked ≡ false) ⊎ (run.HasFailed (run_of I.place self) ⊎ (IsDrained (run_of I.place self).walk → ⊥))) }
        ensures refused { result ≡ Err Error.ReplayFailed → dev.new ≡ dev.old }
        // `Full` exactly where a marker moves and the version of the markers would pass the greatest `u64`.
        ensures full { IsErrOf result Error.Full → 2 ^ 64 ≤ (run_of I.place self).store.version + 1 }
        ensures full_moves { D.Tells → IsErrOf result Error.Full → (s : ℕ) × (run.marker (run_of I.place self) s ≢ length (records_given (run_of I.place self) (disk (D.time dev.old)) s)) }
        ensures no_version { D.Tells → 2 ^ 64 ≤ (run_of I.place self).store.version + 1 → ((s : ℕ) × (run.marker (run_of I.place self) s ≢ length (records_given (run_of I.place self) (disk (D.time dev.old)) s))) → OnOk result ⊥ }
        ensures unspelled { D.Tells → (e : _) → IsErrOf result (Error.Codec e) → (s : ℕ) × IsSomeRefused I.refusal (records_given (run_of I.place self) (disk (D.time dev.old)) s) e }
        ensures complete { D.Tells → AreSpellings (run_of I.place self).layout I.refusal (as_read (disk (D.time dev.old))) → OnErr result ((result ≡ Err Error.ReplayFailed) ⊎ (IsErrOf result Error.Full ⊎ (HasFailed result (D.faults dev.old) (D.faults dev.new) ⊎ HasLostMarkers result (D.faults dev.old) (D.faults dev.new)))) }
        ensures damage { D.Tells → (x : _) → IsErrOf result (Error.Corruption x) → ⊥ }
        ensures damaged { D.Tells → HasDamage result → ⊥ }
        ensures faults { D.faults dev.old ≤ D.faults dev.new }
        ensures cause { OnErr result ((result ≡ Err Error.ReplayFailed) ⊎ (IsErrOf result Error.Full ⊎ (HasLostMarkers result (D.faults dev.old) (D.faults dev.new) ⊎ (((x : _) × IsErrOf result (Error.Corruption x)) ⊎ HasNotRead result (D.faults dev.old) (D.faults dev.new))))) }
    {
        if !self.is_tracked || self.has_failed {
            return Err(Error::ReplayFailed);
        }
        let Replay {
            alloc,
            index,
            values,
            tracking,
            ends,
            ..
        } = self;
        // Records go before the values that they name.
        let index = cut_records(dev, index.finish()?, &ends.at)?;
        // No record names these bytes any more.
        let values = cut_values(alloc, dev, &index, &ends.values, values)?;
        let alone = orphans(alloc, &held_sections(alloc, &index)?, &values)?;
        // Behind the cuts, as `orphans_last` says. No record stands in these sections.
        let values = remove_values(dev, values, alone.as_slice())?;
        let mut pair = Oversized {
            alloc,
            index,
            values,
            tracking,
        };
        let held = numbers(alloc, &pair.index)?;
        note_synced(&pair.index, &mut pair.tracking, held.as_slice())?;
        // Last: a marker may count only what is kept for good. No section is active yet.
        pair.move_markers(dev, [].as_slice())
    }
}
