// What is measured: an archive is filled, and opened again.
ghost use Rattle.std.specs.Prelude.{◌≤◌, length, IfOk};
ghost use Rattle.archives.specs.Changes.{MayUse};
ghost use Rattle.archives.specs.Config.{IsValid};
ghost use Rattle.value_codec.specs.declared.byte_value.ByteValue.{ByteValue};

use crate::config::{ITEMS, RECORD_BYTES, config_of, index_pages};
use crate::counting::{Counting, Phased};
use crate::counts::Tally;
use crate::error::BenchError;
use crate::looking::{Look, Looked, look_up, order_of};
use crate::report::{PutCosts, Report};
use crate::times::Watch;
use crate::words::Plan;
use archive_service::Settings;
use archives::{Archive, Error, FourCap, prunable};
use blob_device::Device;
use std::alloc::{AllocError, Global};
use std::time::CpuClock;
use value_codec::{ByteValue, Key, Key8, Sha256Seal};

// The archive that is measured.
type Measured = prunable::Archive<FourCap, Key8, ByteValue, Sha256Seal>;

// How many bytes a value has.
const VALUE_BYTES: usize = 100;

// After how many puts a sync is made.
const SYNC_EVERY: u64 = 100;

// An odd number near 2^64 divided by the golden ratio: its multiples lie far from each other.
const SPREAD: u64 = 0x9E37_79B9_7F4A_7C15;

/// Fills an archive on the device as planned, and opens it twice again. Where the plan asks for it, the records
/// are looked up then.
pub fn measure<D: Device, C: CpuClock>(
    alloc: Global,
    dev: &mut Counting<D>,
    plan: &Plan<'_>,
    watch: &mut Watch<'_, C>,
) -> Result<Report, BenchError> {
    let settings = Settings::DEFAULT;
    let items = plan.items.unwrap_or(ITEMS).max(1);
    let config = config_of(alloc, &settings, items)?;
    dev.take();
    let costs = filled(alloc, dev, &config, plan)?;
    watch.enter("filling")?;
    let filling = dev.take();
    dev.turn();
    let pruning = dev.take();
    let (blob_bytes, most_bytes) = blob_bytes(dev)?;
    opened(alloc, dev, &config)?;
    let opening = dev.take();
    let archive = opened(alloc, dev, &config)?;
    let (opening_again, looked) = looked_up(&archive, alloc, dev, plan, watch)?;
    let records = records_below(&archive, plan.puts);
    Ok(Report {
        costs,
        filling,
        pruning,
        blob_bytes,
        most_bytes,
        held_bytes: held_bytes(plan),
        opening,
        opening_again,
        records,
        record_bytes: bytes_of(records),
        index_pages: index_pages(&settings, items, records),
        looked,
    })
}

// How many bytes the blobs have, and the most that they had at once. It is an error where that is not known.
fn blob_bytes<D: Device>(dev: &Counting<D>) -> Result<(u64, u64), AllocError> {
    if dev.sizes().has_gaps() {
        return Err(AllocError);
    }
    Ok((dev.sizes().sum(), dev.sizes().greatest()))
}

// How many bytes the records have of as many whole sections as are held. None where all sections are.
fn held_bytes(plan: &Plan<'_>) -> Option<u64> {
    Some(bytes_of(plan.sections?.saturating_mul(ITEMS)))
}

// How many bytes so many records have, in the index and as values.
fn bytes_of(records: u64) -> u64 {
    records.saturating_mul(RECORD_BYTES + VALUE_BYTES as u64)
}

// Ends the phase of openings, and makes all phases of lookups where the plan asks for them. The calls of the last
// opening come first.
fn looked_up<A, D: Phased, C: CpuClock>(
    archive: &A,
    alloc: Global,
    dev: &mut D,
    plan: &Plan<'_>,
    watch: &mut Watch<'_, C>,
) -> Result<(Tally, Vec<Looked>), BenchError>
where
    A: Archive<Key = Key8, Value = ByteValue>,
    requires usable { MayUse A.meaning D.Device archive.now dev.old }
{
    let opening = dev.take();
    watch.enter("opening twice")?;
    let mut looked = Vec::new(alloc);
    if plan.items.is_none() {
        return Ok((opening, looked));
    }
    let order = order_of(alloc, plan.puts)?;
    watch.enter("order")?;
    for look in Look::ALL {
        let found = look_up(archive, dev, order.as_slice(), look)?;
        watch.enter(look.name())?;
        let tally = dev.take();
        looked.push(Looked { look, found, tally })?;
    }
    Ok((opening, looked))
}

// Opens the archive.
fn opened<D: Device>(
    alloc: Global,
    dev: &mut D,
    config: &prunable::Config<FourCap, u32>,
) -> Result<Measured, BenchError>
    requires valid { IsValid config.now }
    requires values { VALUE_BYTES ≤ config.now.codec_config }
    ensures usable { IfOk result (λ r. MayUse ⟦<Measured as Archive>⟧.meaning D.Device r dev.new) }
    ensures accepts { IfOk result (λ r. (v : ByteValue) → length v ≤ VALUE_BYTES
        → ⟦<Measured as Archive>⟧.meaning.Accepts r v) }
{
    Ok(Measured::init(alloc, dev, config)?)
}

// Opens the archive, which has to be empty, and fills it with so many records.
fn filled<D: Phased>(
    alloc: Global,
    dev: &mut D,
    config: &prunable::Config<FourCap, u32>,
    plan: &Plan<'_>,
) -> Result<PutCosts, BenchError>
    requires valid { IsValid config.now }
    requires values { VALUE_BYTES ≤ config.now.codec_config }
{
    let archive = opened(alloc, dev, config)?;
    if archive.has_index(0) {
        return Err(BenchError::NotEmpty);
    }
    let mut costs = PutCosts::NONE;
    fill(archive, alloc, dev, plan, &mut costs)?;
    Ok(costs)
}

/// An archive whose first sections can be removed.
trait Prunable: Archive<Key = Key8, Value = ByteValue> + Drop {
    /// Removes the sections below that of an index.
    fn pruned<D: Device>(self, dev: &mut D, index: u64) -> Result<Self, Error>
        requires usable { MayUse Self.meaning D.Device self dev.old }
        ensures usable { IfOk result (λ r. MayUse Self.meaning D.Device r dev.new) }
        ensures accepts { IfOk result (λ r. (v : ByteValue) → Self.meaning.Accepts self v
            → Self.meaning.Accepts r v) };
}

impl Prunable for Measured {
    fn pruned<D: Device>(self, dev: &mut D, index: u64) -> Result<Measured, Error> {
        self.prune(dev, index)
    }
}

// Puts as many records as planned, with a sync after every hundred of them. What is left over is not synced.
fn fill<A, D: Phased>(
    archive: A,
    alloc: Global,
    dev: &mut D,
    plan: &Plan<'_>,
    costs: &mut PutCosts,
) -> Result<(), BenchError>
where
    A: Prunable,
    requires usable { MayUse A.meaning D.Device archive dev.old }
    requires accepts { (v : ByteValue) → length v ≤ VALUE_BYTES → A.meaning.Accepts archive v }
{
    let mut archive = archive;
    for index in 0..plan.puts {
        archive = oldest_pruned(archive, dev, index, plan.sections)?;
        archive = put_one(archive, alloc, dev, index, costs)?;
        if index % SYNC_EVERY == SYNC_EVERY - 1 {
            archive = synced(archive, dev)?;
        }
    }
    Ok(())
}

// Puts the record of an index, and counts the calls.
fn put_one<A, D: Device>(
    archive: A,
    alloc: Global,
    dev: &mut D,
    index: u64,
    costs: &mut PutCosts,
) -> Result<A, BenchError>
where
    A: Archive<Key = Key8, Value = ByteValue> + Drop,
    requires usable { MayUse A.meaning D.Device archive dev.old }
    requires accepts { (v : ByteValue) → length v ≤ VALUE_BYTES → A.meaning.Accepts archive v }
    ensures usable { IfOk result (λ r. MayUse A.meaning D.Device r dev.new) }
    ensures accepts { IfOk result (λ r. (v : ByteValue) → length v ≤ VALUE_BYTES
        → A.meaning.Accepts r v) }
{
    let value = value_of(alloc, index)?;
    let before = dev.calls();
    let archive = archive.put(dev, index, key_of(index), &value)?;
    costs.enter(dev.calls().saturating_sub(before));
    Ok(archive)
}

// Where an index is the first of its section, prunes the archive, so that with this section no more than so
// many are held. The calls of that are counted apart.
fn oldest_pruned<A, D: Phased>(
    archive: A,
    dev: &mut D,
    index: u64,
    sections: Option<u64>,
) -> Result<A, Error>
where
    A: Prunable,
    requires usable { MayUse A.meaning D.Device archive dev.old }
    requires accepts { (v : ByteValue) → length v ≤ VALUE_BYTES → A.meaning.Accepts archive v }
    ensures usable { IfOk result (λ r. MayUse A.meaning D.Device r dev.new) }
    ensures accepts { IfOk result (λ r. (v : ByteValue) → length v ≤ VALUE_BYTES
        → A.meaning.Accepts r v) }
{
    let Some(sections) = sections else {
        return Ok(archive);
    };
    if index % ITEMS != 0 {
        return Ok(archive);
    }
    let held = sections.saturating_sub(1).saturating_mul(ITEMS);
    dev.turn();
    let pruned = archive.pruned(dev, index.saturating_sub(held))?;
    dev.turn();
    Ok(pruned)
}

// Makes all that was put durable.
fn synced<A, D: Device>(archive: A, dev: &mut D) -> Result<A, Error>
where
    A: Archive<Key = Key8, Value = ByteValue> + Drop,
    requires usable { MayUse A.meaning D.Device archive dev.old }
    requires accepts { (v : ByteValue) → length v ≤ VALUE_BYTES → A.meaning.Accepts archive v }
    ensures usable { IfOk result (λ r. MayUse A.meaning D.Device r dev.new) }
    ensures accepts { IfOk result (λ r. (v : ByteValue) → length v ≤ VALUE_BYTES
        → A.meaning.Accepts r v) }
{
    archive.sync(dev)
}

/// The key of an index: eight bytes, of which the first four differ from those of its neighbours, as words do.
pub fn key_of(index: u64) -> Key8 {
    match Key8::from_bytes(&index.wrapping_mul(SPREAD).to_be_bytes()) {
        Some(key) => key,
        None => unreachable!(),
    }
}

// The value of an index: its last byte, again and again.
fn value_of(alloc: Global, index: u64) -> Result<ByteValue, AllocError>
    ensures { IfOk result (λ v. length v ≤ VALUE_BYTES) }
{
    let [_, _, _, _, _, _, _, last] = index.to_be_bytes();
    match ByteValue::new(alloc, &[last; VALUE_BYTES]) {
        Ok(value) => Ok(value),
        Err(_) => Err(AllocError),
    }
}

// How many of the first so many indices have a record.
fn records_below<A: Archive>(archive: &A, indices: u64) -> u64 {
    let mut records: u64 = 0;
    for index in 0..indices {
        if archive.has_index(index) {
            records = records.saturating_add(1);
        }
    }
    records
}
