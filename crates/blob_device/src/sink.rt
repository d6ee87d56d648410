// Where bytes are written to: the trait, a sink in memory, and one over a writer of std.
ghost use Rattle.std.specs.Prelude.{◌≡◌, ◌≤◌, ◌<◌, ◌||◌, ◌==◌, min, take, ℕ, Bool, true, false, List, [], length, IfOk, OnOk, OnErr};
ghost use Rattle.std.specs.Result.{IsErrOf, IsOkUnless};
ghost use Rattle.blob_device.specs.Counts.{next, FaultsAre};
ghost use Rattle.std.specs.Io.KnownBytes.{Appends};
ghost use Rattle.blob_device.specs.Streams.{Faulted, HasWritten, is_stream_fault};

use crate::failing::is_in_list;
use crate::flushing::write_flushed;
use crate::{DevError, IoFault};
use std::alloc::Global;
use std::io::Write;

/// Where bytes are written to.
pub trait Sink {
    /// Whether sinks of this kind tell the bytes that they took.
    ghost Tells: { Type 0 };

    /// The bytes that were taken so far.
    ghost taken: { Self → List ℕ };

    /// How often a write has failed, up to the end of a u64.
    ghost faults: { Self → ℕ };

    /// Takes the first of these bytes, at least one, and answers how many. After an Err nothing was taken, where this is
    /// told.
    fn write(&mut self, bytes: &[u8]) -> Result<usize, IoFault>
        requires { 0 < length bytes.now }
        ensures bound { IfOk result (λ n. (0 < n) × (n ≤ length bytes.now)) }
        ensures faults { Faulted result (faults self.old) (faults self.new) }
        ensures told { Tells → HasWritten result (taken self.old) (taken self.new) bytes.now };
}

/// A sink in memory that takes bytes in pieces, with writes that fail where a test wants it.
#[derive(Drop)]
pub struct MemSink {
    /// All bytes that were taken, in their order (`sink_taken`).
    bytes: Vec<u8>,
    /// The most bytes that one write takes.
    piece: usize,
    /// The numbers of the writes that are to fail, in any order (`sink_fails`).
    failing: Vec<u64>,
    /// The number of the next write: how many were begun, up to the end of a u64.
    writes: u64,
    /// How many writes failed, up to the end of a u64.
    faults: u64,
    // A write that does not fail takes a byte.
    ghost piece_is_some: { 0 < piece },
}

impl MemSink {
    ghost use Rattle.blob_device.specs.MemStreams.{sink_taken, sink_writes, sink_faults, sink_fails, sink_piece};

    /// An empty sink, which takes at most `piece` bytes at a time. It takes no memory.
    pub fn new(alloc: Global, piece: usize) -> MemSink
        requires { 0 < piece }
        ensures nothing_taken { sink_taken result ≡ [] }
        ensures piece { sink_piece result ≡ piece }
        ensures unwritten { sink_writes result ≡ 0 }
        ensures no_fault { sink_faults result ≡ 0 }
        ensures never_fails { (n : ℕ) → sink_fails result n ≡ false }
    {
        MemSink {
            bytes: Vec::new(alloc),
            piece,
            failing: Vec::new(alloc),
            writes: 0,
            faults: 0,
        }
    }

    /// Write number `nth`, from 0 since the sink was made, fails.
    pub fn fail_at(&mut self, nth: u64) -> Result<(), DevError>
        ensures fails { OnOk result ((n : ℕ) → sink_fails self.new n ≡ (sink_fails self.old n || (nth == n))) }
        ensures unchanged { OnErr result ((n : ℕ) → sink_fails self.new n ≡ sink_fails self.old n) }
        ensures taken { sink_taken self.new ≡ sink_taken self.old }
        ensures writes { sink_writes self.new ≡ sink_writes self.old }
        ensures faults { sink_faults self.new ≡ sink_faults self.old }
        ensures piece { sink_piece self.new ≡ sink_piece self.old }
        ensures memory { IsOkUnless result DevError.Mem }
    {
        self.failing.push(nth)?;
        Ok(())
    }

    /// The bytes that were taken so far.
    pub fn bytes(&self) -> &[u8]
        ensures { result.now ≡ sink_taken self.now }
    {
        self.bytes.as_slice()
    }
}

impl Sink for MemSink {
    ghost use Rattle.blob_device.specs.MemStreams.{sink_taken, sink_writes, sink_faults, sink_fails, sink_piece};

    ghost Tells = { Unit {0} };

    ghost taken = { sink_taken };

    ghost faults = { sink_faults };

    fn write(&mut self, bytes: &[u8]) -> Result<usize, IoFault>
        requires { 0 < length bytes.now }
        ensures bound { IfOk result (λ n. (0 < n) × (n ≤ length bytes.now)) }
        ensures faults { Faulted result (sink_faults self.old) (sink_faults self.new) }
        ensures told { Unit {0} → HasWritten result (sink_taken self.old) (sink_taken self.new) bytes.now }
        ensures fails { sink_fails self.old (sink_writes self.old) ≡ true → result ≡ Err IoFault.Fault }
        ensures succeeds { sink_fails self.old (sink_writes self.old) ≡ false → IsOkUnless result IoFault.Mem × (sink_faults self.new ≡ sink_faults self.old) }
        ensures counted { sink_writes self.new ≡ next (sink_writes self.old) }
        ensures piece { IfOk result (λ n. n ≡ min (length bytes.now) (sink_piece self.old)) }
        ensures piece_stays { sink_piece self.new ≡ sink_piece self.old }
        ensures one_fault { IsErrOf result IoFault.Fault → sink_faults self.new ≡ next (sink_faults self.old) }
        ensures fails_as_before { (n : ℕ) → sink_fails self.new n ≡ sink_fails self.old n }
    {
        let number = self.writes;
        self.writes = number.saturating_add(1);
        if is_in_list(self.failing.as_slice(), number) {
            self.faults = self.faults.saturating_add(1);
            return Err(IoFault::Fault);
        }
        let count = bytes.len().min(self.piece);
        self.bytes.extend_from_slice(&bytes[..count])?;
        Ok(count)
    }
}

/// A writer of std, flushed after each write, with the number of its errors.
///
/// It does not tell the bytes that it took, since a writer may have taken some before its flush failed. What
/// a write that ends Ok added to the writer is told.
#[derive(Drop)]
pub struct StdSink<W> {
    /// What the bytes go to; it is flushed behind each write.
    writer: W,
    /// How many writes ended in an error or took nothing, up to the end of a u64 (`FaultsAre`).
    faults: u64,
}

impl<W: Write> StdSink<W> {
    ghost use Rattle.blob_device.specs.StdStreams.{writer_of, write_faults};

    /// A sink over this writer.
    pub fn new(writer: W) -> StdSink<W>
        ensures writer { writer_of result ≡ writer }
        ensures no_fault { write_faults result ≡ 0 }
    {
        StdSink { writer, faults: 0 }
    }
}

impl<W: Write> Sink for StdSink<W> {
    ghost use Rattle.blob_device.specs.StdStreams.{writer_of, write_faults};

    ghost Tells = { ⊥ };

    ghost taken = { λ s. [] };

    ghost faults = { write_faults };

    fn write(&mut self, bytes: &[u8]) -> Result<usize, IoFault>
        requires { 0 < length bytes.now }
        ensures bound { IfOk result (λ n. (0 < n) × (n ≤ length bytes.now)) }
        ensures faults { Faulted result (write_faults self.old) (write_faults self.new) }
        ensures told { ⊥ → HasWritten result [] [] bytes.now }
        ensures takes_no_memory { ¬ IsErrOf result IoFault.Mem }
        ensures counted { FaultsAre is_stream_fault result (write_faults self.old) (write_faults self.new) }
        ensures written { IfOk result (λ n. Appends (W.contents (writer_of self.old)) (W.contents (writer_of self.new)) (take n bytes.now)) }
    {
        match write_flushed(&mut self.writer, bytes) {
            Some(count) => Ok(count),
            None => {
                self.faults = self.faults.saturating_add(1);
                Err(IoFault::Fault)
            }
        }
    }
}
