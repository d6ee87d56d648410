// What a device in memory keeps of one blob: its calls, for every earlier moment, and how it reads now.
ghost use Rattle.std.specs.Prelude.{◌≡◌, ◌/◌, cond, ◌+◌, ◌<◌, ◌^◌, ◌++◌, [], ◌∷◌, length, take, drop, ◌≤◌, OnOk, OnErr, IfOk, true, List, ℕ, Option, Some, None};
ghost use Rattle.std.specs.Option.{option_map, option_copied};
ghost use Rattle.blob_device.specs.Counts.{next};
ghost use Rattle.blob_device.specs.Disk.{Blob, reads, begun};
ghost use Rattle.blob_device.specs.Change.{written, resized};
ghost use Rattle.blob_device.specs.Calls.{replay, Reads, start_of, starts_with_bytes, opening, change_of};

use crate::memory::history::History;
use std::alloc::{AllocError, Global};

/// A change of one blob.
#[derive(Drop)]
pub enum Step {
    Make,
    /// Where the bytes go, and the bytes.
    Write(u64, Vec<u8>),
    /// The length in bytes that the blob is to have.
    Resize(u64),
    Settle,
    Remove,
}

/// A call that began: its number, its change, and whether it failed.
#[derive(Drop)]
pub struct Call {
    /// Its number on the device, from 0 (`IsCall.number`).
    pub number: u64,
    /// What it changes (`IsCall.change`).
    pub step: Step,
    /// Whether it failed; then it is under way for good (`IsCall.failed`).
    pub failed: bool,
}

/// Writes the bytes from this place on; a gap is filled with zeros. Where it finds no memory, nothing changes.
pub fn write_into(content: &mut Vec<u8>, at: usize, bytes: &[u8]) -> Result<(), AllocError>
    ensures ok { OnOk result (content.new.items ≡ written content.old.items at bytes.now) }
    ensures err { OnErr result (content.new.items ≡ content.old.items) }
{
    let end = match at.checked_add(bytes.len()) {
        Some(end) => end,
        None => return Err(AllocError),
    };
    let len = content.len();
    if end <= len {
        content[at..end].copy_from_slice(bytes);
        return Ok(());
    }
    // After this there is room, and no step fails.
    content.reserve(end - len)?;
    content.truncate(at);
    // The gap behind the old end, which reads as zeros.
    content.resize(at, 0)?;
    content.extend_from_slice(bytes)?;
    Ok(())
}

/// What a write leaves of its bytes: all, or where it failed the first half.
pub fn left_of(bytes: &[u8], failed: bool) -> &[u8]
    ensures { result.now ≡ cond failed (take (length bytes.now / 2) bytes.now) bytes.now }
{
    if failed {
        &bytes[..bytes.len() / 2]
    } else {
        bytes
    }
}

/// What a blob reads as.
#[derive(Drop)]
pub struct Found {
    /// Whether the blob is there (`Reads.is_there`).
    pub there: bool,
    /// Its bytes, none where it is not there (`Reads.reads_as`).
    pub content: Vec<u8>,
}

impl Found {
    ghost use Rattle.blob_device.specs.Calls.{change_of, result_of, Reads};

    // Makes one change, where memory is found.
    fn apply(&mut self, step: &Step, failed: bool) -> Result<(), AllocError>
        ensures ok { OnOk result ((b : Blob) → Reads b self.old.there self.old.content.items
            → Reads (result_of (change_of step.now) failed b) self.new.there self.new.content.items) }
        ensures err_there { OnErr result (self.new.there ≡ self.old.there) }
        ensures err_content { OnErr result (self.new.content.items ≡ self.old.content.items) }
    {
        match step {
            Step::Make => {
                if !self.there {
                    self.content.clear();
                }
                if !failed {
                    self.there = true;
                }
            }
            Step::Write(at, bytes) => {
                let part = left_of(bytes.as_slice(), failed);
                write_into(&mut self.content, *at as usize, part)?;
            }
            Step::Resize(len) => {
                if !failed {
                    // New bytes are zeros. A resize that fails leaves what was there.
                    self.content.resize(*len as usize, 0)?;
                }
            }
            Step::Settle => {
                if !failed {
                    self.there = true;
                }
            }
            Step::Remove => {
                if !failed {
                    self.there = false;
                    self.content.clear();
                }
            }
        }
        Ok(())
    }
}

/// The calls on one blob since the device was made, and what they left.
#[derive(Drop)]
pub struct BlobLog {
    /// The bytes that it had when the device was made, if it was there.
    start: Option<Vec<u8>>,
    /// The calls that changed it since, in their order (`IsSound.below`).
    calls: Vec<Call>,
    /// What they left, so that a read need not go through them (kept true by `tied`).
    found: Found,
    /// How many reads began since it was opened, up to the end of a u64; none where it is not opened.
    reads: Option<u64>,
    // What it began with are bytes.
    ghost bytes: { starts_with_bytes (start_of start) ≡ true },
    // Going through the calls from the start gives what was found.
    ghost tied: { Reads (replay calls.items (begun (start_of start))) found.there found.content.items },
}

fn reads_after(step: &Step, failed: bool, reads: Option<u64>) -> Option<u64>
    ensures { result ≡ opening (change_of step.now) failed reads }
{
    match step {
        Step::Make if !failed => Some(reads.unwrap_or(0)),
        Step::Remove if !failed => None,
        _ => reads,
    }
}

impl BlobLog {
    ghost use Rattle.blob_device.specs.Calls.{no_track, started, IsCall, pushed, read_once, now, change_of};
    ghost use Rattle.blob_device.specs.declared.memory.blob_log.Call.{Call};
    ghost use Rattle.blob_device.specs.Tracks.{track_of};
    ghost use Rattle.blob_device.specs.Histories.{IsHistory};

    /// A blob that was never there. It takes no memory.
    pub fn new(alloc: Global) -> BlobLog
        ensures { track_of result ≡ no_track }
    {
        BlobLog {
            start: None,
            calls: Vec::new(alloc),
            found: Found {
                there: false,
                content: Vec::new(alloc),
            },
            reads: None,
        }
    }

    /// A blob that had these bytes when the device was made.
    pub fn started(alloc: Global, bytes: &[u8]) -> Result<BlobLog, AllocError>
        ensures { IfOk result (λ l. track_of l ≡ started bytes.now) }
    {
        Ok(BlobLog {
            start: Some(bytes.to_vec(alloc)?),
            calls: Vec::new(alloc),
            found: Found {
                there: true,
                content: bytes.to_vec(alloc)?,
            },
            reads: None,
        })
    }

    /// The blob as it reads.
    pub fn as_read(&self, alloc: Global) -> Result<Option<Vec<u8>>, AllocError>
        ensures { IfOk result (λ o. option_map (λ v. v.items) o ≡ reads (now (track_of self.now))) }
    {
        if self.found.there {
            Ok(Some(self.found.content.as_slice().to_vec(alloc)?))
        } else {
            Ok(None)
        }
    }

    /// What a crash may leave of the blob.
    pub fn history(&self, alloc: Global) -> Result<History, AllocError>
        ensures { IfOk result (λ h. IsHistory h (now (track_of self.now))) }
    {
        let mut history = History::new(alloc, bytes_of(&self.start))?;
        for call in &self.calls {
            history.advance(call)?;
        }
        Ok(history)
    }

    /// Keeps a call, and makes its change. Where it finds no memory, nothing changes.
    pub fn step(&mut self, number: u64, step: Step, failed: bool) -> Result<(), AllocError>
        ensures ok { OnOk result ((c : Call) × IsCall c number (change_of step) failed × (track_of self.new ≡ pushed c (track_of self.old))) }
        ensures err { OnErr result (track_of self.new ≡ track_of self.old) }
    {
        self.calls.reserve(1)?;
        self.found.apply(&step, failed)?;
        self.reads = reads_after(&step, failed, self.reads);
        self.calls.push(Call {
            number,
            step,
            failed,
        })?;
        Ok(())
    }

    /// Reads bytes, and counts the read.
    pub fn read(&mut self, offset: u64, buf: &mut [u8])
        requires { offset + length buf.old ≤ length (now (track_of self.old)).content }
        ensures bytes { buf.new ≡ take (length buf.old) (drop offset (now (track_of self.old)).content) }
        ensures track { track_of self.new ≡ read_once (track_of self.old) }
    {
        let start = offset as usize;
        let end = start + buf.len();
        buf.copy_from_slice(&self.found.content[start..end]);
        self.reads = one_more(self.reads);
    }

    /// Whether the blob is there as the disk reads.
    pub fn is_there(&self) -> bool
        ensures { result ≡ (now (track_of self.now)).there }
    {
        self.found.there
    }

    /// How long the blob reads.
    pub fn len(&self) -> u64
        ensures { result ≡ length (now (track_of self.now)).content }
    {
        self.found.content.len() as u64
    }
}

fn bytes_of(start: &Option<Vec<u8>>) -> Option<&[u8]>
    ensures { option_copied result ≡ start_of start.now }
{
    match start {
        Some(bytes) => Some(bytes.as_slice()),
        None => None,
    }
}

fn one_more(reads: Option<u64>) -> Option<u64>
    ensures { result ≡ option_map next reads }
{
    match reads {
        Some(n) => Some(n.saturating_add(1)),
        None => None,
    }
}
