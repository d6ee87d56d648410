// A run of the program between a source and a sink in memory.
use crate::stop::Stop;
use archive_program::run_with;
use archive_service::{Ended, Settings, Status};
use blob_device::{Device, MemSink, MemSource};
use std::alloc::Global;

/// How a run of the program ended, and what it wrote.
#[derive(Drop)]
pub struct Outcome {
    /// Status, error and marks.
    pub ended: Ended,
    /// What came on standard output.
    pub written: String,
}

impl Outcome {
    /// The outcome of no run.
    pub fn unserved(alloc: Global) -> Outcome {
        Outcome {
            ended: Ended::unserved(alloc, Status::Usage),
            written: String::new(alloc),
        }
    }

    /// Whether both ended so: with the same status, marks and error, and the same output.
    pub fn is_same(&self, other: &Outcome) -> bool {
        self.written.as_str() == other.written.as_str()
            && self.ended.status == other.ended.status
            && self.served_same(other)
    }

    /// Whether both have the same marks and error.
    pub fn served_same(&self, other: &Outcome) -> bool {
        self.ended.marks.as_slice() == other.ended.marks.as_slice()
            && self.ended.error == other.ended.error
    }
}

/// What the program is called with, beside a device.
#[derive(Drop)]
pub struct Call<'a> {
    /// The words behind the program's name.
    pub words: &'a [String],
    /// The numbers with which it runs.
    pub settings: &'a Settings,
    /// What comes on standard input.
    pub input: &'a [u8],
    /// How many bytes the source gives at a time, and the sink takes.
    pub piece: usize,
    /// Which read fails.
    pub failing_read: Option<u64>,
    /// Which write fails.
    pub failing_write: Option<u64>,
}

/// So many bytes at a time are as good as all at once.
pub const WHOLE: usize = 1 << 20;

/// Runs the program over a device.
pub fn outcome_of<D: Device>(alloc: Global, call: &Call<'_>, dev: &mut D) -> Result<Outcome, Stop> {
    if !call.settings.is_valid() {
        return Err(Stop::Said("the settings are not valid"));
    }
    let mut source = MemSource::new(alloc, call.input, call.piece.max(1))?;
    if let Some(nth) = call.failing_read {
        source.fail_at(nth)?;
    }
    let mut sink = MemSink::new(alloc, call.piece.max(1));
    if let Some(nth) = call.failing_write {
        sink.fail_at(nth)?;
    }
    let ended = run_with(
        alloc,
        call.words,
        dev,
        &mut source,
        &mut sink,
        call.settings,
    );
    let written = std::str::from_utf8(sink.bytes()).unwrap_or("no text");
    Ok(Outcome {
        ended,
        written: String::from_str(alloc, written)?,
    })
}
