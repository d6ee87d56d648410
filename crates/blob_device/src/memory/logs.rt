// The logs of all blobs of a device in memory.
ghost use Rattle.std.specs.Prelude.{◌≡◌, ◌≢◌, ◌+◌, ◌≤◌, List, ℕ, Option, Some, None, OnOk, OnErr, IsSome, IsSomeAnd, IfOk, length, take, drop};
ghost use Rattle.blob_device.specs.declared.memory.blob_log.Call.{Call};
ghost use Rattle.blob_device.specs.Disk.{Key, put};
ghost use Rattle.blob_device.specs.Tables.{at_name, at_key};
ghost use Rattle.blob_device.specs.Calls.{IsCall, change_of, pushed, read_once, now, entry_of};
ghost use Rattle.std.specs.Map.{keys_of};
ghost use Rattle.std.specs.List.Sorted.{IsStrictlySortedBy};
ghost use Rattle.blob_device.specs.NameList.{names_of};
ghost use Rattle.blob_device.specs.NamesThere.{there_in, NamesThere};
ghost use Rattle.blob_device.specs.Tables.{by_bytes};
ghost use Rattle.blob_device.specs.Tracks.{track_at, tracks_in, tracks_of, Stepped};

use crate::memory::blob_log::{BlobLog, Step};
use crate::table::{Table, make_partition};
use std::alloc::{AllocError, Global};
use std::collections::BTreeMap;

// Makes an empty log for the name where it has none.
fn make_name(
    alloc: Global,
    names: &mut BTreeMap<Vec<u8>, BlobLog>,
    name: &[u8],
) -> Result<(), AllocError>
    ensures same { tracks_in names.new ≡ tracks_in names.old }
    ensures present { OnOk result (IsSome (at_name names.new name.now)) }
{
    if names.contains_key(name) {
        return Ok(());
    }
    let key = name.to_vec(alloc)?;
    names.insert(key, BlobLog::new(alloc))?;
    Ok(())
}

fn step_in(
    alloc: Global,
    names: &mut BTreeMap<Vec<u8>, BlobLog>,
    name: &[u8],
    number: u64,
    step: Step,
    failed: bool,
) -> Result<(), AllocError>
    ensures here { OnOk result ((c : Call) × IsCall c number (change_of step) failed × (tracks_in names.new name.now ≡ pushed c (tracks_in names.old name.now))) }
    ensures others { OnOk result ((q : List ℕ) → q ≢ name.now → tracks_in names.new q ≡ tracks_in names.old q) }
    ensures err { OnErr result ((q : List ℕ) → tracks_in names.new q ≡ tracks_in names.old q) }
{
    make_name(alloc, names, name)?;
    match names.get_mut(name) {
        Some(log) => log.step(number, step, failed),
        None => unreachable!(),
    }
}

/// Keeps a call on one blob, and makes its change. Where it finds no memory, nothing changes.
pub fn step_at(
    alloc: Global,
    logs: &mut Table<BlobLog>,
    partition: &[u8],
    name: &[u8],
    number: u64,
    step: Step,
    failed: bool,
) -> Result<(), AllocError>
    ensures ok { OnOk result (Stepped (partition.now, name.now) number (change_of step) failed (tracks_of logs.old) (tracks_of logs.new)) }
    ensures err { OnErr result (tracks_of logs.new ≡ tracks_of logs.old) }
{
    make_partition(alloc, &mut logs.partitions, partition)?;
    match logs.partitions.get_mut(partition) {
        Some(names) => step_in(alloc, names, name, number, step, failed),
        None => unreachable!(),
    }
}

fn read_in(names: &mut BTreeMap<Vec<u8>, BlobLog>, name: &[u8], offset: u64, buf: &mut [u8])
    requires { IsSomeAnd (entry_of (tracks_in names.old name.now)) (λ o. offset + length buf.old ≤ o.len) }
    ensures bytes { buf.new ≡ take (length buf.old) (drop offset (now (tracks_in names.old name.now)).content) }
    ensures here { tracks_in names.new name.now ≡ read_once (tracks_in names.old name.now) }
    ensures others { (q : List ℕ) → q ≢ name.now → tracks_in names.new q ≡ tracks_in names.old q }
{
    match names.get_mut(name) {
        Some(log) => log.read(offset, buf),
        None => unreachable!(),
    }
}

/// Reads bytes of an opened blob, and counts the read.
pub fn read_at(
    logs: &mut Table<BlobLog>,
    partition: &[u8],
    name: &[u8],
    offset: u64,
    buf: &mut [u8],
)
    requires { IsSomeAnd (entry_of (tracks_of logs.old (partition.now, name.now))) (λ o. offset + length buf.old ≤ o.len) }
    ensures bytes { buf.new ≡ take (length buf.old) (drop offset (now (tracks_of logs.old (partition.now, name.now))).content) }
    ensures tracks { tracks_of logs.new ≡ put (tracks_of logs.old) (partition.now, name.now) (read_once (tracks_of logs.old (partition.now, name.now))) }
{
    match logs.partitions.get_mut(partition) {
        Some(names) => read_in(names, name, offset, buf),
        None => unreachable!(),
    }
}

/// How long the blob reads.
pub fn len_of(logs: &Table<BlobLog>, partition: &[u8], name: &[u8]) -> u64
    ensures { result ≡ length (now (tracks_of logs.now (partition.now, name.now))).content }
{
    match logs.get(partition, name) {
        Some(log) => log.len(),
        None => 0,
    }
}

/// The names of the blobs that are there in the partition, ascending.
pub fn names_at(
    alloc: Global,
    logs: &Table<BlobLog>,
    partition: &[u8],
) -> Result<Vec<Vec<u8>>, AllocError>
    ensures { IfOk result (λ v. NamesThere (tracks_of logs.now) partition.now (names_of v.items)) }
{
    match logs.partitions.get(partition) {
        Some(names) => there_names(alloc, names),
        None => Ok(Vec::new(alloc)),
    }
}

fn there_names(
    alloc: Global,
    names: &BTreeMap<Vec<u8>, BlobLog>,
) -> Result<Vec<Vec<u8>>, AllocError>
    ensures names { IfOk result (λ v. names_of v.items ≡ there_in names.now.entries) }
    ensures ordered { OnOk result (IsStrictlySortedBy by_bytes (keys_of names.now.entries)) }
{
    let mut there = Vec::new(alloc);
    for (name, log) in names.iter() {
        if log.is_there() {
            there.push(name.to_vec(alloc)?)?;
        }
    }
    Ok(there)
}
