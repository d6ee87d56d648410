// The markers of a pair, and which sections they trail.
ghost use Rattle.std.specs.Prelude.{◌≡◌, ◌≢◌, ◌≤◌, ◌<◌, ◌+◌, ◌⊎◌, ◌^◌, ◌↔◌, ℕ, true, false, List, None, Some, Ok, Err, length, unwrap_or, IfOk, OnOk, OnErr, IsOk, MatchResult};
ghost use Rattle.std.specs.Int.{w64, to_be_bytes};
ghost use Rattle.std.specs.List.{Contains};
ghost use Rattle.std.specs.Result.{IsErrOf};
ghost use Rattle.std.specs.BTreeMap.{get};
ghost use Rattle.std.specs.Ordering.{nat_cmp};
ghost use Rattle.blob_device.specs.Disk.{Disk, nothing};
ghost use Rattle.blob_device.specs.Timeline.{disk, Always};
ghost use Rattle.blob_device.specs.Counts.{next};
ghost use Rattle.value_codec.specs.Keys.{key8_bytes};
ghost use Rattle.meta_store.specs.declared.error.Error.TheVariants.{Mem};
ghost use Rattle.meta_store.specs.declared.error.Side.{Side};
ghost use Rattle.meta_store.specs.declared.copy.Contents.{Contents};
ghost use Rattle.meta_store.specs.declared.pair.Chosen.{Chosen};
ghost use Rattle.meta_store.specs.declared.error.Side.TheVariants.{Left, Right};
ghost use Rattle.meta_store.specs.Opening.{PairOn, Opening};
ghost use Rattle.meta_store.specs.Store.{Stands, MayBeSynced, chosen_by, contents_of, synced_store};
ghost use Rattle.meta_store.specs.Store as store;
ghost use Rattle.meta_store.specs.Crashes.{Mapping};
ghost use Rattle.meta_store.specs.Pairs.{empty_map};
ghost use Rattle.meta_store.specs.Calls.{IsOpened, OthersOpened, NoReads, CalledAtMost, GaveUp};
ghost use Rattle.meta_store.specs.Removing.{Removing};
ghost use Rattle.meta_store.specs.Blobs.{OnlyOne, blob_of};
ghost use Rattle.paired.specs.Kept.{IsMarked, marker_of};
ghost use Rattle.paired.specs.Tracked.{synced_of, Trails, IsFrom};
ghost use Rattle.paired.specs.sighted.Shown.{marker_format};

use blob_device::Device;
use meta_store::{Config, Error, Metadata};
use std::alloc::Global;
use std::collections::BTreeMap;
use value_codec::{Key, Key8, Seal};

/// The markers, and of each section whose marker is another number, its length at its last completed sync or
/// opening.
#[derive(Drop)]
pub(super) struct Tracking<S: Seal> {
    /// By section how many of its first records have sound values. Between calls nothing is staged
    /// (`IsPair.synced`).
    pub(super) metadata: Metadata<Key8, u64, S>,
    /// By section how many records were synced, where that is not the marker (`AreMarkers.trails`).
    pub(super) trailing: BTreeMap<u64, u64>,
}

// The key of a section's marker.
fn marker_key(section: u64) -> Key8
    ensures { key8_bytes result ≡ to_be_bytes w64 section }
{
    Key8::from_bytes(&section.to_be_bytes()).unwrap()
}

// The number in eight bytes, the highest first.
fn number_in(bytes: &[u8]) -> u64
    requires { length bytes.now ≡ 8 }
    ensures { to_be_bytes w64 result ≡ bytes.now }
{
    u64::from_be_bytes(<[u8; 8]>::try_from(bytes).unwrap())
}

// The section of a marker's key.
fn section_of(key: &Key8) -> u64
    ensures { to_be_bytes w64 result ≡ key8_bytes key.now }
{
    number_in(key.as_bytes())
}

// Whether the key is of a section at or above the bound.
fn is_from(key: &Key8, min: u64) -> bool
    ensures { IsFrom min key.now result }
{
    min <= section_of(key)
}

// Stages the marker of a section.
fn put_marker<S: Seal>(
    metadata: &mut Metadata<Key8, u64, S>,
    section: u64,
    len: u64,
) -> Result<(), Error>
    ensures here { OnOk result (marker_of (store.shown metadata.new).entries section ≡ len) }
    ensures others { OnOk result ((s : ℕ) → s ≢ section → marker_of (store.shown metadata.new).entries s ≡ marker_of (store.shown metadata.old).entries s) }
    ensures marked { OnOk result ((s m : ℕ) → IsMarked (store.shown metadata.new).entries s m → IsMarked (store.shown metadata.old).entries s m ⊎ ((s ≡ section) × (m ≡ len))) }
    ensures staged { OnOk result (store.shown metadata.new ≡ store.staging (store.shown metadata.old) (store.shown metadata.new).entries) }
    ensures storable { OnOk result (MayBeSynced (marker_format S.Seal) (store.shown metadata.old).entries → MayBeSynced (marker_format S.Seal) (store.shown metadata.new).entries) }
    ensures stands { (synced : Contents _ _) (d : Disk) → Stands (marker_format S.Seal) (store.shown metadata.old) synced d → Stands (marker_format S.Seal) (store.shown metadata.new) synced d }
    ensures cause { OnErr result (IsErrOf result Mem) }
{
    metadata.put(marker_key(section), len)
}

// Stages the marker of a section that is not active.
fn put_inactive<S: Seal>(
    metadata: &mut Metadata<Key8, u64, S>,
    active: &[u64],
    section: u64,
    len: u64,
) -> Result<(), Error>
    ensures here { OnOk result ((Contains active.now section → ⊥) → marker_of (store.shown metadata.new).entries section ≡ len) }
    ensures others { OnOk result ((s : ℕ) → (s ≡ section → Contains active.now section) → marker_of (store.shown metadata.new).entries s ≡ marker_of (store.shown metadata.old).entries s) }
    ensures marked { OnOk result ((s m : ℕ) → IsMarked (store.shown metadata.new).entries s m → IsMarked (store.shown metadata.old).entries s m ⊎ ((Contains active.now section → ⊥) × (s ≡ section) × (m ≡ len))) }
    ensures still { OnOk result (Contains active.now section → store.shown metadata.new ≡ store.shown metadata.old) }
    ensures staged { OnOk result (store.shown metadata.new ≡ record (store.shown metadata.old) { entries = (store.shown metadata.new).entries; staged = (store.shown metadata.new).staged }) }
    ensures fresh { OnOk result ((store.shown metadata.new).staged ≡ false → store.shown metadata.new ≡ store.shown metadata.old) }
    ensures storable { OnOk result (MayBeSynced (marker_format S.Seal) (store.shown metadata.old).entries → MayBeSynced (marker_format S.Seal) (store.shown metadata.new).entries) }
    ensures stands { (synced : Contents _ _) (d : Disk) → Stands (marker_format S.Seal) (store.shown metadata.old) synced d → Stands (marker_format S.Seal) (store.shown metadata.new) synced d }
    ensures cause { OnErr result (IsErrOf result Mem) }
{
    if active.contains(&section) {
        return Ok(());
    }
    put_marker(metadata, section, len)
}

// Stages these lengths as markers, but for the active sections.
fn put_markers<S: Seal>(
    metadata: &mut Metadata<Key8, u64, S>,
    lens: &BTreeMap<u64, u64>,
    active: &[u64],
) -> Result<(), Error>
    ensures moved { OnOk result ((s : ℕ) → (Contains active.now s → ⊥) → marker_of (store.shown metadata.new).entries s ≡ unwrap_or (get nat_cmp lens.now s) (marker_of (store.shown metadata.old).entries s)) }
    ensures active { OnOk result ((s : ℕ) → Contains active.now s → marker_of (store.shown metadata.new).entries s ≡ marker_of (store.shown metadata.old).entries s) }
    ensures marked { OnOk result ((s m : ℕ) → IsMarked (store.shown metadata.new).entries s m → IsMarked (store.shown metadata.old).entries s m ⊎ ((Contains active.now s → ⊥) × (get nat_cmp lens.now s ≡ Some m))) }
    ensures still { OnOk result (((s : ℕ) → (Contains active.now s → ⊥) → get nat_cmp lens.now s ≡ None) → store.shown metadata.new ≡ store.shown metadata.old) }
    ensures staged { OnOk result (store.shown metadata.new ≡ record (store.shown metadata.old) { entries = (store.shown metadata.new).entries; staged = (store.shown metadata.new).staged }) }
    ensures fresh { OnOk result ((store.shown metadata.new).staged ≡ false → store.shown metadata.new ≡ store.shown metadata.old) }
    ensures storable { OnOk result (MayBeSynced (marker_format S.Seal) (store.shown metadata.old).entries → MayBeSynced (marker_format S.Seal) (store.shown metadata.new).entries) }
    ensures stands { (synced : Contents _ _) (d : Disk) → Stands (marker_format S.Seal) (store.shown metadata.old) synced d → Stands (marker_format S.Seal) (store.shown metadata.new) synced d }
    ensures cause { OnErr result (IsErrOf result Mem) }
{
    for (section, len) in lens.iter() {
        put_inactive(metadata, active, *section, *len)?;
    }
    Ok(())
}

impl<S: Seal> Tracking<S> {
    ghost use Rattle.paired.specs.sighted.Shown.{shown};

    /// The markers that are kept in this partition. No section trails.
    pub(super) fn init<D: Device>(
        alloc: Global,
        dev: &mut D,
        partition: &str,
    ) -> Result<Self, Error>
        requires { 1 ≤ length partition.now }
        ensures reads { D.Tells → IfOk result (λ t. PairOn (marker_format S.Seal) partition.now (disk (D.time dev.old)) (Ok (chosen_by (shown t).store (contents_of (shown t).store)))) }
        ensures corrupt { D.Tells → (side : Side) → IsErrOf result (Error.Corruption side) → PairOn (marker_format S.Seal) partition.now (disk (D.time dev.old)) (Err side) }
        ensures map { D.Tells → (chosen : Chosen _ _) → PairOn (marker_format S.Seal) partition.now (disk (D.time dev.old)) (Ok chosen)
            → MatchResult result (λ t. chosen_by (shown t).store (contents_of (shown t).store) ≡ chosen) (λ _. GaveUp result (D.faults dev.old) (D.faults dev.new)) }
        ensures refused { D.Tells → (side : Side) → PairOn (marker_format S.Seal) partition.now (disk (D.time dev.old)) (Err side)
            → (result ≡ Err (Error.Corruption side)) ⊎ GaveUp result (D.faults dev.old) (D.faults dev.new) }
        ensures moments { D.Tells → Always (D.time dev.old) (D.time dev.new) (Opening partition.now (disk (D.time dev.old))) }
        ensures stands { D.Tells → IfOk result (λ t. Stands (marker_format S.Seal) (shown t).store (contents_of (shown t).store) (disk (D.time dev.new))) }
        ensures storable { IfOk result (λ t. MayBeSynced (marker_format S.Seal) (shown t).store.entries) }
        ensures partition { IfOk result (λ t. (shown t).store.partition ≡ partition.now) }
        ensures staged { IfOk result (λ t. (shown t).store.staged ≡ false) }
        ensures trailing { IfOk result (λ t. (s : ℕ) → (shown t).trailing s ≡ None) }
        ensures opened { OnOk result (IsOpened partition.now (D.opened dev.new)) }
        ensures entries { OthersOpened partition.now (D.opened dev.old) (D.opened dev.new) }
        ensures faults { D.faults dev.old ≤ D.faults dev.new }
        ensures cause { OnErr result (((side : Side) × (result ≡ Err (Error.Corruption side))) ⊎ GaveUp result (D.faults dev.old) (D.faults dev.new)) }
    {
        let config = Config {
            partition: String::from_str(alloc, partition)?,
            codec_config: (),
        };
        let metadata = Metadata::init(alloc, dev, &config)?;
        Ok(Tracking {
            metadata,
            trailing: BTreeMap::new(alloc),
        })
    }

    /// The section's marker, 0 where it has none. It takes no memory.
    pub(super) fn marker(&self, section: u64) -> u64
        ensures { result ≡ marker_of (shown self.now).store.entries section }
    {
        self.metadata
            .get(&marker_key(section))
            .copied()
            .unwrap_or(0)
    }

    /// All markers, by section.
    pub(super) fn markers(&self, alloc: Global) -> Result<BTreeMap<u64, u64>, Error>
        ensures each { IfOk result (λ r. (s m : ℕ) → (get nat_cmp r s ≡ Some m) ↔ IsMarked (shown self.now).store.entries s m) }
        ensures cause { OnErr result (IsErrOf result Mem) }
    {
        let mut markers = BTreeMap::new(alloc);
        for key in self.metadata.keys() {
            let section = section_of(key);
            markers.insert(section, self.marker(section))?;
        }
        Ok(markers)
    }

    /// Notes the length of a section that a sync has completed. Nothing is staged.
    pub(super) fn synced(&mut self, section: u64, len: u64) -> Result<(), Error>
        requires { Trails (shown self.old) }
        ensures trails { OnOk result (Trails (shown self.new)) }
        ensures here { OnOk result (synced_of (shown self.new) section ≡ len) }
        ensures others { OnOk result ((s : ℕ) → s ≢ section → (shown self.new).trailing s ≡ (shown self.old).trailing s) }
        ensures store { (shown self.new).store ≡ (shown self.old).store }
        ensures storable { MayBeSynced (marker_format S.Seal) (shown self.old).store.entries → MayBeSynced (marker_format S.Seal) (shown self.new).store.entries }
        ensures cause { OnErr result (IsErrOf result Mem) }
    {
        let marker = self.metadata.get(&marker_key(section));
        if marker.copied().unwrap_or(0) == len {
            self.trailing.remove(&section);
        } else {
            self.trailing.insert(section, len)?;
        }
        Ok(())
    }

    /// Stages the markers of the sections that trail, but for the active ones. Where no other trails, nothing is staged.
    pub(super) fn stage(&mut self, active: &[u64]) -> Result<(), Error>
        requires { Trails (shown self.old) }
        ensures trails { OnOk result (Trails (shown self.new)) }
        ensures synced { OnOk result ((s : ℕ) → synced_of (shown self.new) s ≡ synced_of (shown self.old) s) }
        ensures moved { OnOk result ((s : ℕ) → (Contains active.now s → ⊥) → ((shown self.new).trailing s ≡ None) × (marker_of (shown self.new).store.entries s ≡ synced_of (shown self.old) s)) }
        ensures active { OnOk result ((s : ℕ) → Contains active.now s → ((shown self.new).trailing s ≡ (shown self.old).trailing s) × (marker_of (shown self.new).store.entries s ≡ marker_of (shown self.old).store.entries s)) }
        // Each marker was there, or is that of a section that trailed.
        ensures marked { OnOk result ((s m : ℕ) → IsMarked (shown self.new).store.entries s m → IsMarked (shown self.old).store.entries s m ⊎ ((Contains active.now s → ⊥) × ((shown self.old).trailing s ≡ Some m))) }
        ensures still { ((s : ℕ) → (Contains active.now s → ⊥) → (shown self.old).trailing s ≡ None) → OnOk result ((shown self.new).store ≡ (shown self.old).store) }
        ensures staged { OnOk result ((shown self.new).store ≡ record (shown self.old).store { entries = (shown self.new).store.entries; staged = (shown self.new).store.staged }) }
        // Where nothing is staged the markers are as they were.
        ensures fresh { OnOk result ((shown self.new).store.staged ≡ false → (shown self.new).store ≡ (shown self.old).store) }
        ensures storable { MayBeSynced (marker_format S.Seal) (shown self.old).store.entries → OnOk result (MayBeSynced (marker_format S.Seal) (shown self.new).store.entries) }
        // It stands on its device as before.
        ensures stands { (synced : Contents _ _) (d : Disk) → Stands (marker_format S.Seal) (shown self.old).store synced d → Stands (marker_format S.Seal) (shown self.new).store synced d }
        ensures cause { OnErr result (IsErrOf result Mem) }
    {
        put_markers(&mut self.metadata, &self.trailing, active)?;
        self.trailing.retain(|section, _| active.contains(section));
        Ok(())
    }

    /// Makes the staged markers durable. Where nothing is staged it does nothing.
    pub(super) fn sync<D: Device>(self, dev: &mut D) -> Result<Self, Error>
        requires storable { MayBeSynced (marker_format S.Seal) (shown self).store.entries }
        requires opened { IsOpened (shown self).store.partition (D.opened dev.old) }
        ensures crashes { D.Tells → (synced : Contents _ _) → Stands (marker_format S.Seal) (shown self).store synced (disk (D.time dev.old))
            → Mapping (marker_format S.Seal) (shown self).store.partition synced (contents_of (shown self).store) (D.time dev.old) (D.time dev.new) }
        ensures alone { D.Tells → Always (D.time dev.old) (D.time dev.new) (OnlyOne (shown self).store.partition (shown self).store.older (disk (D.time dev.old))) }
        ensures stands { D.Tells → (synced : Contents _ _) → Stands (marker_format S.Seal) (shown self).store synced (disk (D.time dev.old))
            → IfOk result (λ t. Stands (marker_format S.Seal) (shown t).store (contents_of (shown self).store) (disk (D.time dev.new))) }
        ensures same { IfOk result (λ t. (shown t).store ≡ synced_store (shown self).store) }
        ensures markers { IfOk result (λ t. (shown t).store.entries ≡ (shown self).store.entries) }
        ensures contents { IfOk result (λ t. contents_of (shown t).store ≡ contents_of (shown self).store) }
        ensures trailing { IfOk result (λ t. (shown t).trailing ≡ (shown self).trailing) }
        ensures idle { (shown self).store.staged ≡ false → (dev.new ≡ dev.old) × IsOk result }
        ensures calls { (shown self).store.staged ≡ true → OnOk result ((D.time dev.new).calls ≡ next (next (D.time dev.old).calls)) }
        ensures most_calls { CalledAtMost 2 (D.time dev.old).calls (D.time dev.new).calls }
        ensures opened { IsOpened (shown self).store.partition (D.opened dev.new) }
        ensures entries { OthersOpened (shown self).store.partition (D.opened dev.old) (D.opened dev.new) }
        ensures reads { NoReads (shown self).store.partition (D.opened dev.old) (D.opened dev.new) }
        ensures faults { D.faults dev.old ≤ D.faults dev.new }
        ensures full { IsErrOf result Error.Full ↔ (((shown self).store.staged ≡ true) × (2 ^ 64 ≤ (shown self).store.version + 1)) }
        ensures untouched { IsErrOf result Error.Full → dev.new ≡ dev.old }
        ensures cause { OnErr result ((result ≡ Err Error.Full) ⊎ GaveUp result (D.faults dev.old) (D.faults dev.new)) }
    {
        let Tracking { metadata, trailing } = self;
        // All that was staged in one copy, so that the markers move together.
        let metadata = metadata.sync(dev)?;
        Ok(Tracking { metadata, trailing })
    }

    /// Stages that the sections below a bound have no markers. Where none has one, nothing is staged.
    pub(super) fn drop_below(&mut self, min: u64)
        requires { Trails (shown self.old) }
        ensures trails { Trails (shown self.new) }
        ensures below { (s : ℕ) → s < min → ((shown self.new).trailing s ≡ None) × (marker_of (shown self.new).store.entries s ≡ 0) }
        ensures above { (s : ℕ) → min ≤ s → ((shown self.new).trailing s ≡ (shown self.old).trailing s) × (marker_of (shown self.new).store.entries s ≡ marker_of (shown self.old).store.entries s) }
        ensures marked { (s m : ℕ) → IsMarked (shown self.new).store.entries s m → (min ≤ s) × IsMarked (shown self.old).store.entries s m }
        ensures still { ((s m : ℕ) → s < min → IsMarked (shown self.old).store.entries s m → ⊥) → (shown self.new).store ≡ (shown self.old).store }
        ensures staged { (shown self.new).store ≡ record (shown self.old).store { entries = (shown self.new).store.entries; staged = (shown self.new).store.staged } }
        // Where a marker is dropped, a change is staged.
        ensures dropped { (shown self.new).store.staged ≡ false → (shown self.new).store ≡ (shown self.old).store }
        ensures storable { MayBeSynced (marker_format S.Seal) (shown self.old).store.entries → MayBeSynced (marker_format S.Seal) (shown self.new).store.entries }
        // It stands on its device as before.
        ensures stands { (synced : Contents _ _) (d : Disk) → Stands (marker_format S.Seal) (shown self.old).store synced d → Stands (marker_format S.Seal) (shown self.new).store synced d }
    {
        let keep = |key: &Key8, _len: &u64| -> bool
            ensures { IsFrom min key.now result }
        { is_from(key, min) };
        self.metadata.retain(keep);
        self.trailing.retain(|section, _| min <= *section);
    }

    /// Removes the markers from the device.
    pub(super) fn destroy<D: Device>(self, dev: &mut D) -> Result<(), Error>
        // At each moment, also where the call fails, a crash leaves the markers as they were last synced, or none and the floor 0.
        ensures crashes { D.Tells → (synced : Contents _ _) → Stands (marker_format S.Seal) (shown self).store synced (disk (D.time dev.old))
            → Mapping (marker_format S.Seal) (shown self).store.partition synced empty_map (D.time dev.old) (D.time dev.new) }
        ensures moments { D.Tells → Always (D.time dev.old) (D.time dev.new) (Removing (shown self).store.partition (shown self).store.older (disk (D.time dev.old))) }
        ensures gone { D.Tells → (side : Side) → OnOk result (disk (D.time dev.new) (blob_of (shown self).store.partition side) ≡ nothing) }
        ensures closed { (side : Side) → OnOk result (D.opened dev.new (blob_of (shown self).store.partition side) ≡ None) }
        ensures listed { (side : Side) → (D.opened dev.new (blob_of (shown self).store.partition side) ≡ D.opened dev.old (blob_of (shown self).store.partition side)) ⊎ (D.opened dev.new (blob_of (shown self).store.partition side) ≡ None) }
        ensures entries { OthersOpened (shown self).store.partition (D.opened dev.old) (D.opened dev.new) }
        ensures calls { CalledAtMost 2 (D.time dev.old).calls (D.time dev.new).calls }
        ensures faults { D.faults dev.old ≤ D.faults dev.new }
        ensures cause { OnErr result (GaveUp result (D.faults dev.old) (D.faults dev.new)) }
    {
        // As they stand: a map of no markers need not be written first.
        self.metadata.destroy(dev)
    }
}
