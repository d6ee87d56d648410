// Opening a pair by its markers.
ghost use Rattle.std.specs.Prelude.{◌≡◌, ◌≢◌, ◌↔◌, ◌⊎◌, ◌≤◌, ◌<◌, ◌+◌, ◌*◌, ◌-◌, ◌^◌, ⊤, [], ℕ, List, Some, None, true, false, Ok, Err, length, IfOk, OnOk, OnErr, IsSome, IsTrue, string_bytes, string_len};
ghost use Rattle.std.specs.Option.{option_copied};
ghost use Rattle.std.specs.Result.{IsErrOf};
ghost use Rattle.std.specs.BTreeMap.{get};
ghost use Rattle.std.specs.BTreeSet as set;
ghost use Rattle.std.specs.Ordering.{nat_cmp};
ghost use Rattle.blob_device.specs.Disk.{Key};
ghost use Rattle.blob_device.specs.Opened.{reads_of};
ghost use Rattle.blob_device.specs.Timeline.{disk, Always, Each};
ghost use Rattle.blob_device.specs.declared.runtime.RError.TheVariants.{Fault};
ghost use Rattle.meta_store.specs.declared.error.Error.TheVariants as metadata;
ghost use Rattle.meta_store.specs.declared.error.Side.{Side};
ghost use Rattle.meta_store.specs.Opening.{PairOn};
ghost use Rattle.section_manager.specs.Lasting.{IsSettling};
ghost use Rattle.section_manager.specs.managing.Managed as managed;
ghost use Rattle.section_manager.specs.Refusing.{HasFailed, IsForeign};
ghost use Rattle.section_manager.specs.Sections.{section_key, IsHeld};
ghost use Rattle.segments.specs.FixedFloors as floors;
ghost use Rattle.segments.specs.FixedLists.{IsJournal, floor_in, section_bytes, section_size};
ghost use Rattle.segments.specs.FixedShown as journal;
ghost use Rattle.paired.specs.Crashes.{IsOwn};
ghost use Rattle.paired.specs.glob.Sections.{IsGlob, IsAllSettled};
ghost use Rattle.paired.specs.glob.Sections as glob;
ghost use Rattle.paired.specs.Kept.{IsSameLayout, Markers};
ghost use Rattle.paired.specs.Opening.{as_read, IsLawful, MayBeOpened, OnlyOpens, RecallsAlone};
ghost use Rattle.paired.specs.OpeningFound.{HasCause, HasFound};
ghost use Rattle.paired.specs.OpeningRefusing.{AreSpellings, EndsWithin, IsLost, IsOutside, IsUnreadable};
ghost use Rattle.paired.specs.Pair.{AreApart};
ghost use Rattle.paired.specs.PairRefusing.{HasLostMarkers};
ghost use Rattle.paired.specs.ReplayShown.{layout_for, run_of};
ghost use Rattle.paired.specs.Replaying.{IsRun};
ghost use Rattle.paired.specs.Replaying as run;

use super::Oversized;
use super::replaying::Replay;
use super::tracking::Tracking;
use crate::{Record, Recovery, glob};
use blob_device::Device;
use sealed_pages::{PageBlob, Pages, WriteBlob};
use segments::fixed::{self, Preflight};
use segments::journal::{Damage, Error};
use segments::{AppendFactory, BufferFactory, SectionBuffer, WriteFactory};
use std::alloc::Global;
use std::collections::{BTreeMap, BTreeSet};
use value_codec::{Codec, Seal};

/// Where a pair is kept, and how. Its markers stand in a third partition.
#[derive(Drop)]
pub struct Config<C> {
    /// The partition that holds the records' blobs, and no other blob.
    pub index_partition: String,
    /// The partition that holds the values' blobs, and no other blob.
    pub value_partition: String,
    /// How a blob of records is cut into pages.
    pub index_pages: Pages,
    /// From how many bytes on a section's buffer of records flushes them.
    pub index_write_buffer: usize,
    /// From how many bytes on a section's buffer of values flushes them.
    pub value_write_buffer: usize,
    /// How many bytes of records the replay of an opening reads at once, about.
    pub replay_buffer: usize,
    /// What the codec of the values asks for.
    pub codec_config: C,
}

impl<C> Config<C> {
    /// Whether the partitions have names, which differ, and page size and buffers are at least 1.
    pub fn is_valid(&self) -> bool
        ensures { IsTrue result ↔ ((1 ≤ string_len self.now.index_partition) × (1 ≤ string_len self.now.value_partition) × (string_bytes self.now.index_partition ≢ string_bytes self.now.value_partition)
            × (1 ≤ self.now.index_pages.page_size) × (1 ≤ self.now.index_write_buffer) × (1 ≤ self.now.value_write_buffer) × (1 ≤ self.now.replay_buffer)) }
    {
        !self.index_partition.is_empty()
            && !self.value_partition.is_empty()
            && self.index_partition.as_str() != self.value_partition.as_str()
            && self.index_pages.is_valid()
            && self.index_write_buffer >= 1
            && self.value_write_buffer >= 1
            && self.replay_buffer >= 1
    }

    // Where the records are kept.
    fn index(&self) -> Result<fixed::Config, Error>
        ensures partition { IfOk result (λ c. string_bytes c.partition ≡ string_bytes self.now.index_partition) }
        ensures pages { IfOk result (λ c. c.pages ≡ self.now.index_pages) }
        ensures write_buffer { IfOk result (λ c. c.write_buffer ≡ self.now.index_write_buffer) }
        ensures cause { OnErr result (IsErrOf result Error.Mem) }
    {
        Ok(fixed::Config {
            partition: self.index_partition.clone()?,
            pages: self.index_pages,
            write_buffer: self.index_write_buffer,
        })
    }
}

impl<C: Copy + Drop> Config<C> {
    // Where the values are kept.
    fn values(&self) -> Result<glob::Config<C>, Error>
        ensures partition { IfOk result (λ c. string_bytes c.partition ≡ string_bytes self.now.value_partition) }
        ensures codec_config { IfOk result (λ c. c.codec_config ≡ self.now.codec_config) }
        ensures write_buffer { IfOk result (λ c. c.write_buffer ≡ self.now.value_write_buffer) }
        ensures cause { OnErr result (IsErrOf result Error.Mem) }
    {
        Ok(glob::Config {
            partition: self.value_partition.clone()?,
            codec_config: self.codec_config,
            write_buffer: self.value_write_buffer,
        })
    }
}

// Where the value at a place of a section ends, which stands within so many bytes.
//
// It refuses a place that passes the greatest u64, with place and size, and one that ends behind the bytes, with their number and the end.
fn end_within(section: u64, location: (u64, u32), len: u64) -> Result<u64, Error>
    ensures end { IfOk result (λ n. (n ≡ location.0 + location.1) × (n ≤ len)) }
    ensures damage { (x : _) → IsErrOf result (Error.Corruption x) → (x.section ≡ section) × IsOutside location len x }
    ensures cause { OnErr result ((x : _) × IsErrOf result (Error.Corruption x)) }
{
    let (offset, size) = location;
    let size = u64::from(size);
    let Some(end) = offset.checked_add(size) else {
        return Err(Error::Corruption(Damage {
            section,
            kept: offset,
            wanted: size,
        }));
    };
    if len < end {
        return Err(Error::Corruption(Damage {
            section,
            kept: len,
            wanted: end,
        }));
    }
    Ok(end)
}

// Refuses the last value below the section's marker, if there is one, where it does not stand within the values.
fn check_value<I: Record, V: Codec, S: Seal>(
    section: u64,
    last: Option<&I>,
    values: &Recovery<V, S>,
) -> Result<(), Error>
    requires { (managed.shown values.now.manager).floor ≡ 0 }
    ensures within { OnOk result ((v : I) → option_copied last.entry ≡ Some v → (I.location v).0 + (I.location v).1 ≤ glob.section_size (managed.shown values.now.manager) section) }
    ensures damage { (x : _) → IsErrOf result (Error.Corruption x) → (x.section ≡ section) × ((v : I) × (option_copied last.entry ≡ Some v) × IsOutside (I.location v) (glob.section_size (managed.shown values.now.manager) section) x) }
    ensures cause { OnErr result ((x : _) × IsErrOf result (Error.Corruption x)) }
{
    let Some(item) = last else {
        return Ok(());
    };
    end_within(section, item.value_location(), values.size(section)?)?;
    Ok(())
}

// Refuses the first section in which the last value below its marker does not stand within the values.
fn check_values<I: Record, V: Codec, S: Seal>(
    found: &Preflight<I, S>,
    values: &Recovery<V, S>,
) -> Result<(), Error>
    requires { (managed.shown values.now.manager).floor ≡ 0 }
    ensures within { OnOk result ((s : ℕ) (v : I) → (floors.preflight_shown found.now).boundary_of s ≡ Some (Some v) → (I.location v).0 + (I.location v).1 ≤ glob.section_size (managed.shown values.now.manager) s) }
    ensures damage { (x : _) → IsErrOf result (Error.Corruption x) → (v : I) × ((floors.preflight_shown found.now).boundary_of x.section ≡ Some (Some v)) × IsOutside (I.location v) (glob.section_size (managed.shown values.now.manager) x.section) x }
    ensures cause { OnErr result ((x : _) × IsErrOf result (Error.Corruption x)) }
{
    for (section, last) in found.boundaries() {
        check_value(section, last, values)?;
    }
    Ok(())
}

/// The held sections.
pub(super) fn held_sections<I: Record, S: Seal>(
    alloc: Global,
    index: &fixed::Journal<I, S>,
) -> Result<BTreeSet<u64>, Error>
    ensures each { IfOk result (λ r. (s : ℕ) → IsTrue (set.contains nat_cmp r s) ↔ IsHeld (journal.shown index.now).sections s) }
    ensures cause { OnErr result (IsErrOf result Error.Mem) }
{
    let mut held = BTreeSet::new(alloc);
    for section in index.sections() {
        held.insert(section)?;
    }
    Ok(held)
}

// Refuses the first section with a marker that is not held.
fn check_held<I: Record, S: Seal>(
    alloc: Global,
    index: &fixed::Journal<I, S>,
    floors: &BTreeMap<u64, u64>,
) -> Result<(), Error>
    ensures held { OnOk result ((s : ℕ) → IsSome (get nat_cmp floors.now s) → IsHeld (journal.shown index.now).sections s) }
    ensures absent { (x : _) → IsErrOf result (Error.Corruption x) → IsSome (get nat_cmp floors.now x.section) × ((journal.shown index.now).sections.held x.section ≡ None) }
    ensures cause { OnErr result (((x : _) × IsErrOf result (Error.Corruption x)) ⊎ IsErrOf result Error.Mem) }
{
    let held = held_sections(alloc, index)?;
    for (section, items) in floors.iter() {
        if !held.contains(section) {
            return Err(Error::Corruption(Damage {
                section: *section,
                kept: 0,
                wanted: items.saturating_mul(I::SIZE as u64),
            }));
        }
    }
    Ok(())
}

impl<I: Record, V: Codec, S: Seal> Oversized<I, V, S> {
    // Checks what the markers vouch for, of the records and of the values, and opens both. No byte is changed.
    fn open_parts<D: Device>(
        alloc: Global,
        dev: &mut D,
        cfg: &Config<V::Cfg>,
        floors: &BTreeMap<u64, u64>,
    ) -> Result<(fixed::Journal<I, S>, Recovery<V, S>), Error>
        requires valid { 1 ≤ cfg.now.index_pages.page_size }
        requires apart { string_bytes cfg.now.index_partition ≢ string_bytes cfg.now.value_partition }
        requires floors { (s : ℕ) → IsSome (get nat_cmp floors.now s) → s < 2 ^ 64 }
        ensures index { IfOk result (λ r. IsJournal ⟦<PageBlob<S> as SectionBuffer>⟧ ⟦<AppendFactory<S> as BufferFactory>⟧.gives S.seal_of I.SIZE D.Tells (journal.shown r.0) (D.opened dev.new) (disk (D.time dev.new))) }
        ensures values { IfOk result (λ r. IsGlob ⟦<WriteBlob as SectionBuffer>⟧ ⟦<WriteFactory as BufferFactory>⟧.gives D.Tells (managed.shown r.1.manager) (D.opened dev.new) (disk (D.time dev.new))) }
        ensures index_held { D.Tells → IfOk result (λ r. (s : ℕ) → s < 2 ^ 64 → IsHeld (journal.shown r.0).sections s ↔ IsTrue ((disk (D.time dev.old)) (section_key (string_bytes cfg.now.index_partition) s)).there) }
        ensures values_held { D.Tells → IfOk result (λ r. (s : ℕ) → s < 2 ^ 64 → IsHeld (managed.shown r.1.manager) s ↔ IsTrue ((disk (D.time dev.old)) (section_key (string_bytes cfg.now.value_partition) s)).there) }
        ensures index_known { IfOk result (λ r. (s : ℕ) → (journal.shown r.0).sections.unopened s ≡ None) }
        ensures values_known { IfOk result (λ r. (s : ℕ) → (managed.shown r.1.manager).unopened s ≡ None) }
        ensures index_bytes { D.Tells → IfOk result (λ r. (s : ℕ) → IsHeld (journal.shown r.0).sections s
            → section_bytes (journal.shown r.0).sections (disk (D.time dev.new)) s ≡ ⟦<PageBlob<S> as SectionBuffer>⟧.holds (⟦<AppendFactory<S> as BufferFactory>⟧.gives (journal.shown r.0).sections.factory) ((disk (D.time dev.old)) (section_key (string_bytes cfg.now.index_partition) s)).content) }
        ensures values_bytes { D.Tells → IfOk result (λ r. (s : ℕ) → IsHeld (managed.shown r.1.manager) s → glob.section_bytes (managed.shown r.1.manager) (disk (D.time dev.new)) s ≡ ((disk (D.time dev.old)) (section_key (string_bytes cfg.now.value_partition) s)).content) }
        ensures index_settled { IfOk result (λ r. (s : ℕ) (u : _) → (journal.shown r.0).sections.held s ≡ Some u → ⟦<PageBlob<S> as SectionBuffer>⟧.unsettled u ≡ false) }
        ensures values_settled { IfOk result (λ r. (s : ℕ) → IsHeld (managed.shown r.1.manager) s → IsAllSettled (managed.shown r.1.manager) s) }
        // A section with more bytes than its floor owes a replay, and no other does. Each section with a marker is held.
        ensures unrecovered { IfOk result (λ r. (s : ℕ) → IsTrue ((journal.shown r.0).unrecovered s) ↔ ((journal.shown r.0).floor_of s < section_size (journal.shown r.0).sections s)) }
        ensures reached { IfOk result (λ r. (s : ℕ) → (journal.shown r.0).floor_of s ≤ section_size (journal.shown r.0).sections s) }
        ensures floors { IfOk result (λ r. (s : ℕ) → (journal.shown r.0).floor_of s ≡ floor_in floors.now s * I.SIZE) }
        ensures marked { IfOk result (λ r. (s : ℕ) → IsSome (get nat_cmp floors.now s) → IsHeld (journal.shown r.0).sections s) }
        // The last value below each marker stands within the values.
        ensures within { D.Tells → IfOk result (λ r. (s n : ℕ) → get nat_cmp floors.now s ≡ Some n → 0 < n → EndsWithin (layout_for I.place I.SIZE S.Seal cfg.now []) (disk (D.time dev.old)) s n (glob.section_size (managed.shown r.1.manager) s)) }
        ensures index_partition { IfOk result (λ r. (journal.shown r.0).sections.partition ≡ (string_bytes cfg.now.index_partition)) }
        ensures values_partition { IfOk result (λ r. (managed.shown r.1.manager).partition ≡ (string_bytes cfg.now.value_partition)) }
        ensures pages { IfOk result (λ r. (journal.shown r.0).sections.factory.pages ≡ cfg.now.index_pages) }
        ensures write_buffers { IfOk result (λ r. ((journal.shown r.0).sections.factory.write_buffer ≡ cfg.now.index_write_buffer) × ((managed.shown r.1.manager).factory.capacity ≡ cfg.now.value_write_buffer)) }
        ensures codec_config { IfOk result (λ r. r.1.codec_config ≡ cfg.now.codec_config) }
        ensures bounds { IfOk result (λ r. ((journal.shown r.0).sections.floor ≡ 0) × ((journal.shown r.0).sections.ceiling ≡ 2 ^ 64 - 1) × ((managed.shown r.1.manager).floor ≡ 0) × ((managed.shown r.1.manager).ceiling ≡ 2 ^ 64 - 1)) }
        // At every moment, also where the call fails, each blob of the two partitions is as before, or settled as it read; no other blob changes.
        ensures moments { D.Tells → Always (D.time dev.old) (D.time dev.new) (Each (λ q b. IsSettling (string_bytes cfg.now.index_partition) (2 ^ 64 - 1) (disk (D.time dev.old)) q b ⊎ IsSettling (string_bytes cfg.now.value_partition) (2 ^ 64 - 1) (disk (D.time dev.old)) q b)) }
        ensures entries { (q : Key) → ((s : ℕ) → s < 2 ^ 64 → (q ≢ section_key (string_bytes cfg.now.index_partition) s) × (q ≢ section_key (string_bytes cfg.now.value_partition) s)) → D.opened dev.new q ≡ D.opened dev.old q }
        ensures reads { (s : ℕ) → s < 2 ^ 64 → reads_of (D.opened dev.new (section_key (string_bytes cfg.now.value_partition) s)) ≤ reads_of (D.opened dev.old (section_key (string_bytes cfg.now.value_partition) s)) }
        ensures damage { D.Tells → (x : _) → IsErrOf result (Error.Corruption x) → IsLost (layout_for I.place I.SIZE S.Seal cfg.now []) (λ s n. get nat_cmp floors.now s ≡ Some n) (disk (D.time dev.old)) x }
        ensures refused { D.Tells → (e : _) → IsErrOf result (Error.Codec e) → IsUnreadable (layout_for I.place I.SIZE S.Seal cfg.now []) (λ s n. get nat_cmp floors.now s ≡ Some n) I.refusal (disk (D.time dev.old)) e }
        ensures foreign { D.Tells → (name : List ℕ) → IsForeign (disk (D.time dev.old)) (string_bytes cfg.now.index_partition) name ⊎ IsForeign (disk (D.time dev.old)) (string_bytes cfg.now.value_partition) name → OnOk result ⊥ }
        ensures named { D.Tells → (n : List ℕ) → result ≡ Err (Error.InvalidBlobName n) → IsForeign (disk (D.time dev.old)) (string_bytes cfg.now.index_partition) n ⊎ IsForeign (disk (D.time dev.old)) (string_bytes cfg.now.value_partition) n }
        ensures faults { D.faults dev.old ≤ D.faults dev.new }
        ensures cause { OnErr result (((n : List ℕ) × IsErrOf result (Error.InvalidBlobName n)) ⊎ (((x : _) × IsErrOf result (Error.Corruption x)) ⊎ (((e : _) × IsErrOf result (Error.Codec e)) ⊎ HasFailed result (D.faults dev.old) (D.faults dev.new)))) }
    {
        // Opened and checked with no byte changed, so that a refusal costs nothing.
        let found: Preflight<I, S> = fixed::Journal::preflight_floors(
            alloc,
            dev,
            &cfg.index()?,
            floors,
            u64::MAX,
        )?;
        // Then the values, within which those of the last marked records have to end.
        let values = Recovery::init(alloc, dev, &cfg.values()?, u64::MAX)?;
        check_values(&found, &values)?;
        let index = found.finish(dev)?;
        check_held(alloc, &index, floors)?;
        Ok((index, values))
    }

    /// Opens the pair by its markers, which are kept in the partition `metadata_partition`, and goes over its records. It changes no byte: all
    /// that the markers vouch for is proved before anything is repaired. The partition has a name, as the configuration of a map asks.
    ///
    /// The replay is to be drained, and to be finished by [`finish_tracked`](Replay::finish_tracked). It gives of each section the records
    /// below its marker, whose values are not read, and those behind them up to the first whose value fails.
    ///
    /// It refuses copies of the markers that are damaged; a blob with a name that is no section's; by `Corruption` a section whose last
    /// record below its marker is not there or not sealed, or whose value does not stand within the values; and by `Codec` a last record that
    /// is none.
    pub fn init_with_metadata<D: Device>(
        alloc: Global,
        dev: &mut D,
        cfg: &Config<V::Cfg>,
        metadata_partition: &str,
    ) -> Result<Replay<I, V, S>, Error>
        requires valid { 1 ≤ cfg.now.index_pages.page_size }
        requires apart { AreApart (layout_for I.place I.SIZE S.Seal cfg.now metadata_partition.now) }
        requires named { 1 ≤ length metadata_partition.now }
        ensures over { IfOk result (λ r. IsRun (run_of I.place r) ⟦<PageBlob<S> as SectionBuffer>⟧ ⟦<AppendFactory<S> as BufferFactory>⟧.gives ⟦<WriteBlob as SectionBuffer>⟧ ⟦<WriteFactory as BufferFactory>⟧.gives D.Tells (D.opened dev.new) (disk (D.time dev.new))) }
        ensures tracked { IfOk result (λ r. (run_of I.place r).tracked ≡ true) }
        ensures going { IfOk result (λ r. run.HasFailed (run_of I.place r) → ⊥) }
        ensures layout { IfOk result (λ r. IsSameLayout (layout_for I.place I.SIZE S.Seal cfg.now metadata_partition.now) (run_of I.place r).layout) }
        // Its buffers are cut into these pages, of which they hold at most so many.
        ensures pages { IfOk result (λ r. (run_of I.place r).walk.journal.sections.factory.pages ≡ cfg.now.index_pages) }
        ensures write_buffers { IfOk result (λ r. ((run_of I.place r).walk.journal.sections.factory.write_buffer ≡ cfg.now.index_write_buffer) × ((run_of I.place r).values.factory.capacity ≡ cfg.now.value_write_buffer)) }
        ensures codec_config { IfOk result (λ r. r.values.codec_config ≡ cfg.now.codec_config) }
        // What was found: the markers, proved, and the sections; all records are still to be given, and are those that the disk kept.
        ensures found { D.Tells → IfOk result (λ r. HasFound (layout_for I.place I.SIZE S.Seal cfg.now metadata_partition.now) (disk (D.time dev.old)) (disk (D.time dev.new)) (run_of I.place r)) }
        ensures spelled { D.Tells → AreSpellings (layout_for I.place I.SIZE S.Seal cfg.now metadata_partition.now) I.refusal (as_read (disk (D.time dev.old))) → OnOk result (AreSpellings (layout_for I.place I.SIZE S.Seal cfg.now metadata_partition.now) I.refusal (as_read (disk (D.time dev.new)))) }
        // At every moment, also where the call fails, no byte has changed, and each crash leaves what a crash before the call would have left.
        ensures settles { D.Tells → Always (D.time dev.old) (D.time dev.new) (OnlyOpens (layout_for I.place I.SIZE S.Seal cfg.now metadata_partition.now) (disk (D.time dev.old))) }
        ensures moments { D.Tells → MayBeOpened (layout_for I.place I.SIZE S.Seal cfg.now metadata_partition.now) (disk (D.time dev.old)) → Always (D.time dev.old) (D.time dev.new) (RecallsAlone (layout_for I.place I.SIZE S.Seal cfg.now metadata_partition.now) (IsOwn (layout_for I.place I.SIZE S.Seal cfg.now metadata_partition.now) (λ _. ⊤)) (disk (D.time dev.old))) }
        // Also where the call fails the disk may be opened again.
        ensures opened { D.Tells → MayBeOpened (layout_for I.place I.SIZE S.Seal cfg.now metadata_partition.now) (disk (D.time dev.old)) → MayBeOpened (layout_for I.place I.SIZE S.Seal cfg.now metadata_partition.now) (disk (D.time dev.new)) }
        ensures entries { (q : Key) → (IsOwn (layout_for I.place I.SIZE S.Seal cfg.now metadata_partition.now) (λ _. ⊤) q → ⊥) → D.opened dev.new q ≡ D.opened dev.old q }
        // No value is read.
        ensures reads { (s : ℕ) → s < 2 ^ 64 → reads_of (D.opened dev.new (section_key (string_bytes cfg.now.value_partition) s)) ≤ reads_of (D.opened dev.old (section_key (string_bytes cfg.now.value_partition) s)) }
        // Why it refuses; and damaged copies and foreign names are never passed over.
        ensures refusals { D.Tells → HasCause (layout_for I.place I.SIZE S.Seal cfg.now metadata_partition.now) (disk (D.time dev.old)) I.refusal result }
        ensures corrupt_copies { D.Tells → (side : Side) → PairOn (layout_for I.place I.SIZE S.Seal cfg.now metadata_partition.now).markers metadata_partition.now (disk (D.time dev.old)) (Err side)
            → IsErrOf result (Error.Metadata (metadata.Corruption side)) ⊎ (HasFailed result (D.faults dev.old) (D.faults dev.new) ⊎ HasLostMarkers result (D.faults dev.old) (D.faults dev.new)) }
        ensures foreign { D.Tells → (name : List ℕ) → IsForeign (disk (D.time dev.old)) (string_bytes cfg.now.index_partition) name ⊎ IsForeign (disk (D.time dev.old)) (string_bytes cfg.now.value_partition) name → OnOk result ⊥ }
        // A lawful image whose records are all spelled is opened, unless the device fails or memory is short.
        ensures complete { D.Tells → (markers : Markers) → IsLawful (layout_for I.place I.SIZE S.Seal cfg.now metadata_partition.now) (as_read (disk (D.time dev.old))) markers → AreSpellings (layout_for I.place I.SIZE S.Seal cfg.now metadata_partition.now) I.refusal (as_read (disk (D.time dev.old)))
            → OnErr result (HasFailed result (D.faults dev.old) (D.faults dev.new) ⊎ HasLostMarkers result (D.faults dev.old) (D.faults dev.new)) }
        ensures faults { D.faults dev.old ≤ D.faults dev.new }
        ensures cause { OnErr result (((side : Side) × IsErrOf result (Error.Metadata (metadata.Corruption side))) ⊎ (((n : List ℕ) × IsErrOf result (Error.InvalidBlobName n)) ⊎ (((x : _) × IsErrOf result (Error.Corruption x)) ⊎ (((e : _) × IsErrOf result (Error.Codec e)) ⊎ (HasFailed result (D.faults dev.old) (D.faults dev.new) ⊎ HasLostMarkers result (D.faults dev.old) (D.faults dev.new)))))) }
    {
        // The markers first: they say what has to be found of records and values.
        let tracking = Tracking::init(alloc, dev, metadata_partition)?;
        let floors = tracking.markers(alloc)?;
        let (index, values) = Self::open_parts(alloc, dev, cfg, &floors)?;
        Replay::tracked(alloc, dev, index, values, tracking, cfg.replay_buffer)
    }
}
