// Sources that give bytes in pieces, and sinks that take them so.
use crate::disk::hex_of;
use blob_device::{DevError, IoFault, MemSink, MemSource, Sink, Source, StdSink, StdSource};
use scenario_text::Step;
use std::alloc::Global;
use std::io::{self, Cursor, ErrorKind, Write};

/// A writer that shows what it was given only when it is flushed.
#[derive(Drop)]
struct Holding {
    /// What was given and not flushed.
    held: Vec<u8>,
    /// What was flushed.
    shown: Vec<u8>,
    /// How many flushes there were.
    flushes: u64,
    /// The number of the flush that fails, from 0.
    failing: Option<u64>,
}

impl Write for Holding {
    fn write(&mut self, buf: &[u8]) -> io::Result<usize> {
        self.held.extend_from_slice(buf)?;
        Ok(buf.len())
    }

    fn flush(&mut self) -> io::Result<()> {
        let number = self.flushes;
        self.flushes = number.saturating_add(1);
        if self.failing == Some(number) {
            return Err(io::Error::from(ErrorKind::StorageFull));
        }
        self.shown.extend_from_slice(&self.held)?;
        self.held.clear();
        Ok(())
    }
}

/// What a step about a source or a sink says.
pub fn said(alloc: Global, step: &Step) -> Result<Option<String>, DevError> {
    match (step.word(), step.argument(0)) {
        ("reads", "std") => {
            let bytes = step.bytes(alloc, 2)?.unwrap_or(Vec::new(alloc));
            let mut source = StdSource::new(Cursor::new(bytes.as_slice()));
            Ok(Some(reads(alloc, &mut source, step)?))
        }
        ("reads", _) => Ok(Some(read_in_pieces(alloc, step)?)),
        ("writes", "std") => {
            let mut bytes = Vec::new(alloc);
            let mut said = writes(alloc, &mut StdSink::new(&mut bytes), step)?;
            write!(&mut said, ": {}", hex_of(alloc, &bytes)?.as_str())?;
            Ok(Some(said))
        }
        ("writes", "held") => Ok(Some(written_and_shown(alloc, step)?)),
        ("writes", _) => Ok(Some(written_in_pieces(alloc, step)?)),
        _ => Ok(None),
    }
}

/// Reads of a source in memory.
fn read_in_pieces(alloc: Global, step: &Step) -> Result<String, DevError> {
    let bytes = step.bytes(alloc, 2)?.unwrap_or(Vec::new(alloc));
    let piece = step.number(0).unwrap_or(1).max(1);
    let mut source = MemSource::new(alloc, &bytes, piece as usize)?;
    if let Some(nth) = step.number(1) {
        source.fail_at(nth)?;
    }
    reads(alloc, &mut source, step)
}

/// Writes to a sink in memory, and what it took.
fn written_in_pieces(alloc: Global, step: &Step) -> Result<String, DevError> {
    let piece = step.number(0).unwrap_or(1).max(1);
    let mut sink = MemSink::new(alloc, piece as usize);
    if let Some(nth) = step.number(1) {
        sink.fail_at(nth)?;
    }
    let mut said = writes(alloc, &mut sink, step)?;
    write!(&mut said, ": {}", hex_of(alloc, sink.bytes())?.as_str())?;
    Ok(said)
}

/// Writes to a writer of std that has to be flushed, and what it showed.
fn written_and_shown(alloc: Global, step: &Step) -> Result<String, DevError> {
    let mut writer = Holding {
        held: Vec::new(alloc),
        shown: Vec::new(alloc),
        flushes: 0,
        failing: step.number(1),
    };
    let mut said = writes(alloc, &mut StdSink::new(&mut writer), step)?;
    write!(&mut said, ": {}", hex_of(alloc, &writer.shown)?.as_str())?;
    Ok(said)
}

/// The word for a refusal of a stream.
fn word_of(error: IoFault) -> &'static str {
    match error {
        IoFault::Fault => "fault",
        IoFault::Mem => "memory",
    }
}

/// What buffers of these sizes are given.
fn reads<S: Source>(alloc: Global, source: &mut S, step: &Step) -> Result<String, DevError> {
    let mut said = String::new(alloc);
    for size in step.rest().get(3..).unwrap_or(&[]) {
        let size = size.parse::<usize>().unwrap_or(1).max(1);
        let mut buf = vec![in alloc; 0_u8; size]?;
        let space = if said.is_empty() { "" } else { " " };
        match source.read(buf.as_mut_slice()) {
            Ok(count) => {
                let given = hex_of(alloc, buf.get(..count).unwrap_or(b""))?;
                write!(&mut said, "{space}{}", given.as_str())?;
            }
            Err(e) => write!(&mut said, "{space}{}", word_of(e))?,
        }
    }
    Ok(said)
}

/// How many bytes are taken of each of the pieces.
fn writes<S: Sink>(alloc: Global, sink: &mut S, step: &Step) -> Result<String, DevError> {
    let mut said = String::new(alloc);
    for at in 2..step.rest().len() {
        let bytes = step.bytes(alloc, at)?.unwrap_or(Vec::new(alloc));
        if bytes.is_empty() {
            continue;
        }
        let space = if said.is_empty() { "" } else { " " };
        match sink.write(&bytes) {
            Ok(count) => write!(&mut said, "{space}{count}")?,
            Err(e) => write!(&mut said, "{space}{}", word_of(e))?,
        }
    }
    Ok(said)
}
