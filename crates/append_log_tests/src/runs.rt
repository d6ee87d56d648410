// Whole runs, in which each call of the device fails once.
use crate::logs::{grow, left};
use crate::plain::whole;
use crate::said::{Said, digits};
use append_log::LogError;
use blob_device::{CrashChoice, DevError, Device, Memory};
use std::alloc::Global;

/// How often a run is made at most.
const MOST: u64 = 100;

/// Which calls of the device fail, and what is told of a run.
#[derive(Clone, Copy)]
pub enum Mode {
    /// All calls from one on; what crashes leave.
    Stops,
    /// One call alone; what crashes leave.
    Fails,
    /// One call alone; what crashes leave once the log is opened again.
    Reopens,
}

/// A run that opens a new log and appends records to it.
#[derive(Clone, Copy)]
struct Run<'a> {
    // How the calls fail from there on.
    mode: Mode,
    /// The number of the first call that fails.
    nth: u64,
    // What is appended, in order.
    records: &'a [Vec<u8>],
}

/// How a run ended.
#[derive(Drop)]
struct Outcome {
    /// Whether a call failed.
    failed: bool,
    /// What is left.
    text: String,
}

/// Makes a run again and again, with each call failing in turn, until none fails.
pub fn each_call(alloc: Global, mode: Mode, records: &[Vec<u8>]) -> Result<Said, DevError> {
    let mut said = String::new(alloc);
    for nth in 0..MOST {
        let outcome = made(alloc, Run { mode, nth, records })?;
        let space = if nth == 0 { "" } else { " " };
        write!(&mut said, "{space}{}", outcome.text.as_str())?;
        if !outcome.failed {
            break;
        }
    }
    Ok(Said::Runs(said))
}

// Makes the run on a device of its own.
fn made(alloc: Global, run: Run<'_>) -> Result<Outcome, DevError> {
    let mut dev = Memory::new(alloc);
    judged(alloc, &mut dev, run)
}

// Makes the run, and judges what it left.
fn judged(alloc: Global, dev: &mut Memory, run: Run<'_>) -> Result<Outcome, DevError> {
    match run.mode {
        Mode::Stops => dev.fuse_at(run.nth),
        Mode::Fails | Mode::Reopens => dev.fail_at(run.nth)?,
    }
    let result = grow(alloc, dev, run.records).result;
    let faults = dev.faults();
    let text = match (faults, result, run.mode) {
        (1, Err(LogError::Device(DevError::Fault)), Mode::Reopens) => reopened(alloc, dev)?,
        (1, Err(LogError::Device(DevError::Fault)), _) | (0, Ok(()), _) => {
            crashes(alloc, dev, run.records)?
        }
        _ => String::from_str(alloc, "untold")?,
    };
    Ok(Outcome {
        failed: faults > 0,
        text,
    })
}

// How many bytes each crash leaves at least in whole records, and at most in all.
fn crashes(alloc: Global, dev: &Memory, records: &[Vec<u8>]) -> Result<String, DevError> {
    let mut least = usize::MAX;
    let mut most = 0;
    for choice in CrashChoice::SAMPLES {
        let bytes = left(alloc, dev, choice)?.unwrap_or(Vec::new(alloc));
        least = least.min(whole(records, &bytes));
        most = most.max(bytes.len());
    }
    Ok(format!(in alloc; "{least}-{most}")?)
}

// Opens the log again: its length, and the bytes that all crashes leave.
fn reopened(alloc: Global, dev: &mut Memory) -> Result<String, DevError> {
    let len = dev.open_blob("p", b"log")?;
    let Some(read) = left(alloc, dev, CrashChoice::AsRead)? else {
        return Ok(String::from_str(alloc, "absent")?);
    };
    settled(alloc, dev, len, &read)
}

// The same, of a log that reads as these bytes.
fn settled(alloc: Global, dev: &Memory, len: u64, read: &[u8]) -> Result<String, DevError> {
    for choice in CrashChoice::SAMPLES {
        if !leaves(alloc, dev, choice, read)? {
            return Ok(String::from_str(alloc, "unsettled")?);
        }
    }
    let bytes = digits(alloc, read)?;
    Ok(format!(in alloc; "{len}:{}", bytes.as_str())?)
}

// Whether this crash leaves just these bytes.
fn leaves(
    alloc: Global,
    dev: &Memory,
    choice: CrashChoice,
    bytes: &[u8],
) -> Result<bool, DevError> {
    match left(alloc, dev, choice)? {
        Some(found) => Ok(found.as_slice() == bytes),
        None => Ok(false),
    }
}
