// Calls of a device, as steps of a scenario spell them.
ghost use Rattle.std.specs.Prelude.{IsSome};

use crate::stop::Stop;
use blob_device::{DevError, Device};
use scenario_text::Step;
use std::alloc::Global;

/// What is done with the blob that is open.
#[derive(Drop)]
pub enum Change {
    /// Nothing is read, but the file is asked.
    Read,
    Write(u32, Vec<u8>),
    Resize(u32),
    Sync,
}

/// A blob, which is opened and changed.
#[derive(Drop)]
pub struct Visit {
    /// Its partition,
    pub partition: String,
    /// and its name there.
    pub name: Vec<u8>,
    /// What is done to it once it is open, in order.
    pub changes: Vec<Change>,
}

/// What a device is asked for.
#[derive(Drop)]
pub enum Call {
    Open(Visit),
    Remove(Visit),
    Scan(String),
}

impl Call {
    /// The partition that it speaks of.
    pub fn partition(&self) -> &str {
        match self {
            Call::Open(visit) | Call::Remove(visit) => visit.partition.as_str(),
            Call::Scan(partition) => partition.as_str(),
        }
    }
}

/// Adds what a step asks for. A change goes to the blob that was opened last.
pub fn add_call(alloc: Global, step: &Step, calls: &mut Vec<Call>) -> Result<(), Stop> {
    let call = match step.word() {
        "open" => Call::Open(visit_of(alloc, step)?),
        "remove" => Call::Remove(visit_of(alloc, step)?),
        "scan" => Call::Scan(String::from_str(alloc, step.argument(0))?),
        _ => {
            let change = change_of(alloc, step)?;
            return add_change(calls, change);
        }
    };
    calls.push(call)?;
    Ok(())
}

/// Adds a change of the blob that was opened last.
pub fn add_change(calls: &mut Vec<Call>, change: Change) -> Result<(), Stop> {
    match calls.last_mut() {
        Some(Call::Open(visit)) => {
            visit.changes.push(change)?;
            Ok(())
        }
        _ => Err(Stop::Said("no blob is open")),
    }
}

// The change that a step spells.
fn change_of(alloc: Global, step: &Step) -> Result<Change, Stop> {
    match step.word() {
        "write" => Ok(Change::Write(place_in(step)?, bytes_of(alloc, step, 1)?)),
        "read" => Ok(Change::Read),
        "resize" => Ok(Change::Resize(place_in(step)?)),
        "sync" => Ok(Change::Sync),
        _ => Err(Stop::Said("no such command")),
    }
}

// No offset and no length of a step is greater.
const MOST: u64 = 65_536;

// The offset or the length that a step names.
fn place_in(step: &Step) -> Result<u32, Stop> {
    match step.number(0) {
        Some(number) if number <= MOST => Ok(number as u32),
        _ => Err(Stop::Said("a number is missing, or too great")),
    }
}

fn visit_of(alloc: Global, step: &Step) -> Result<Visit, Stop> {
    Ok(Visit {
        partition: String::from_str(alloc, step.argument(0))?,
        name: bytes_of(alloc, step, 1)?,
        changes: Vec::new(alloc),
    })
}

/// The bytes at this place behind the first word of a step.
pub fn bytes_of(alloc: Global, step: &Step, at: usize) -> Result<Vec<u8>, Stop> {
    match step.bytes(alloc, at)? {
        // No word would read as no byte.
        Some(bytes) if !step.argument(at).is_empty() => Ok(bytes),
        _ => Err(Stop::Said("bytes are missing")),
    }
}

/// Changes a blob that is open.
pub fn changed<D: Device>(
    dev: &mut D,
    partition: &str,
    name: &[u8],
    change: &Change,
) -> Result<(), DevError>
    requires { IsSome (D.opened dev.old (partition.now, name.now)) }
    ensures { IsSome (D.opened dev.new (partition.now, name.now)) }
{
    match change {
        Change::Read => dev.read_at(partition, name, 0, &mut []),
        Change::Write(offset, bytes) => {
            let offset = u64::from(*offset);
            if offset.checked_add(bytes.len() as u64).is_none() {
                return Err(DevError::Fault);
            }
            dev.write_at(partition, name, offset, bytes)
        }
        Change::Resize(len) => dev.resize(partition, name, u64::from(*len)),
        Change::Sync => dev.sync(partition, name),
    }
}
