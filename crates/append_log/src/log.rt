// Records at the end of a blob.
//
// # Format
//
//     0                                           the blob's length
//     +----------+----------+-- .. --+------------+
//     | record 0 | record 1 |        | record n-1 |
//     +----------+----------+-- .. --+------------+
//
// The bytes of the records stand one behind the other, with no length and no seal between them. Where a
// record ends, its reader has to know.
//
// # Sync
//
// An append is synced before it returns Ok. `append_all` syncs each record before it writes the next.
//
// # Crashes
//
// At every moment, and after an error too, a crash leaves all that was synced. Behind it stand at most as
// many bytes as the record under way has, and any bytes. Nothing tells such a torn record from a whole one.
//
// # Cost
//
// A record takes three calls of the device: it opens the blob, writes and syncs. `append_all` holds a mark a
// record in memory.
ghost use Rattle.std.specs.Prelude.{◌≡◌, ◌≢◌, ◌+◌, ◌<◌, ◌≤◌, ◌^◌, ◌++◌, length, OnOk, IsSome};
ghost use Rattle.blob_device.specs.Timeline.{disk, Always, OnlyAt, Stretches};
ghost use Rattle.blob_device.specs.Disk.{Key};
ghost use Rattle.blob_device.specs.Counts.{Rose};
ghost use Rattle.append_log.specs.Appended.{Holds, LeavesFirst, grown, Appending};

use crate::LogError;
use blob_device::{DevError, Device};
use std::alloc::Global;

/// Adds a record at the end of a blob, for good: it has settled once this returns Ok.
pub fn append<D: Device>(
    dev: &mut D,
    partition: &str,
    name: &[u8],
    bytes: &[u8],
) -> Result<(), LogError>
    requires { D.Tells → (let b = disk (D.time dev.old) (partition.now, name.now) in Holds b.content b) }
    ensures done { D.Tells → OnOk result (Holds ((disk (D.time dev.old) (partition.now, name.now)).content ++ bytes.now) (disk (D.time dev.new) (partition.now, name.now))) }

    // At every moment a crash leaves the old bytes, and at most so many more.
    ensures any_moment { D.Tells → (let b = disk (D.time dev.old) (partition.now, name.now) in Always (D.time dev.old) (D.time dev.new)
        (OnlyAt (partition.now, name.now) (disk (D.time dev.old)) (LeavesFirst b.content (length b.content + length bytes.now)))) }
    ensures open { OnOk result (IsSome (D.opened dev.new (partition.now, name.now))) }
    ensures other_entries { (q : Key) → q ≢ (partition.now, name.now) → D.opened dev.new q ≡ D.opened dev.old q }
    ensures faults { D.faults dev.old ≤ D.faults dev.new }
    ensures fault { result ≡ Err (LogError.Device DevError.Fault) → Rose (D.faults dev.old) (D.faults dev.new) }
    ensures full { D.Tells → result ≡ Err LogError.Full → 2 ^ 64 ≤ length (disk (D.time dev.old) (partition.now, name.now)).content + length bytes.now }
    ensures room { D.Tells → OnOk result (length (disk (D.time dev.old) (partition.now, name.now)).content + length bytes.now < 2 ^ 64) }
{
    // An opening settles what stands there, and only it tells where the record goes.
    let len = dev.open_blob(partition, name)?;
    if bytes.len() as u64 > u64::MAX - len {
        return Err(LogError::Full);
    }
    // Behind the end and nowhere else: no place below it becomes loose.
    dev.write_at(partition, name, len, bytes)?;
    // Before the answer, since after an Ok every crash leaves the record.
    dev.sync(partition, name)?;
    Ok(())
}

/// What became of a list of records.
#[derive(Drop)]
pub struct Appended {
    /// The numbers of the device's calls at which each append began.
    pub marks: Vec<u64>,
    /// Whether all were appended.
    pub result: Result<(), LogError>,
}

/// Adds each record for good before the next, until one fails.
pub fn append_all<D: Device>(
    alloc: Global,
    dev: &mut D,
    partition: &str,
    name: &[u8],
    records: &[Vec<u8>],
) -> Appended
    requires { D.Tells → (let b = disk (D.time dev.old) (partition.now, name.now) in Holds b.content b) }
    ensures done { D.Tells → OnOk result.result (Holds (grown (disk (D.time dev.old) (partition.now, name.now)).content records.now (length records.now)) (disk (D.time dev.new) (partition.now, name.now))) }
    ensures number { OnOk result.result (length result.marks.items ≡ length records.now) }

    // From mark i to the next, a crash leaves the first i records, and no more than one record behind them.
    ensures any_moment { D.Tells → Stretches (D.time dev.old) (D.time dev.new) result.marks.items
        (Appending (partition.now, name.now) (disk (D.time dev.old)) (disk (D.time dev.old) (partition.now, name.now)).content records.now) }
    ensures others { D.Tells → ((q : Key) → q ≢ (partition.now, name.now) → disk (D.time dev.new) q ≡ disk (D.time dev.old) q) }
    ensures other_entries { (q : Key) → q ≢ (partition.now, name.now) → D.opened dev.new q ≡ D.opened dev.old q }
    ensures faults { D.faults dev.old ≤ D.faults dev.new }
    ensures fault { result.result ≡ Err (LogError.Device DevError.Fault) → Rose (D.faults dev.old) (D.faults dev.new) }

    // Full comes at the record that would reach the end of a u64, and where one would, the answer is not Ok.
    ensures full { D.Tells → result.result ≡ Err LogError.Full → 2 ^ 64 ≤ length (grown (disk (D.time dev.old) (partition.now, name.now)).content records.now (length result.marks.items)) }
    ensures room { D.Tells → OnOk result.result (0 < length records.now → length (grown (disk (D.time dev.old) (partition.now, name.now)).content records.now (length records.now)) < 2 ^ 64) }
{
    let mut marks = Vec::new(alloc);
    'records: for record in records {
        // The mark is taken before the record's first call, so that no moment of the append lies before it.
        if marks.push(dev.calls()).is_err() {
            return Appended {
                marks,
                result: Err(LogError::Device(DevError::Mem)),
            };
        }
        // For good before the next one begins: so at most one record is torn.
        match append(dev, partition, name, record.as_slice()) {
            Ok(()) => {}
            Err(e) => {
                return Appended {
                    marks,
                    result: Err(e),
                };
            }
        }
    }
    Appended {
        marks,
        result: Ok(()),
    }
}
