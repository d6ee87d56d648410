// Where bytes are read from: the trait, a source in memory, and one over a reader of std.
ghost use Rattle.std.specs.Prelude.{◌≡◌, ◌≤◌, ◌<◌, ◌||◌, ◌==◌, min, IsSome, take, ℕ, Bool, true, false, List, [], length, IfOk, IsOk, IsErr, OnOk, OnErr, IsErrOf};
ghost use Rattle.std.specs.Result.{IsOkUnless};
ghost use Rattle.blob_device.specs.Counts.{next, FaultsAre};
ghost use Rattle.blob_device.specs.Streams.{Faulted, HasRead, is_stream_fault, known};

use crate::failing::is_in_list;
use crate::{DevError, IoFault};
use std::alloc::Global;
use std::io::Read;

/// Where bytes are read from.
pub trait Source {
    /// Whether sources of this kind tell the bytes that they have left.
    ghost Tells: { Type 0 };

    /// The bytes that are left.
    ghost left: { Self → List ℕ };

    /// How often a read has failed, up to the end of a u64.
    ghost faults: { Self → ℕ };

    /// Reads the next bytes, at least one, and answers how many; 0 at the end of input. After an Err `buf` holds any
    /// bytes, and nothing was taken.
    fn read(&mut self, buf: &mut [u8]) -> Result<usize, IoFault>
        requires { 0 < length buf.old }
        ensures bound { IfOk result (λ n. n ≤ length buf.new) }
        ensures faults { Faulted result (faults self.old) (faults self.new) }
        ensures takes_no_memory { ¬ IsErrOf result IoFault.Mem }
        ensures told { Tells → HasRead result (left self.old) (left self.new) buf.new };
}

/// Bytes in memory, given in pieces, with reads that fail where a test wants it.
#[derive(Drop)]
pub struct MemSource {
    /// All bytes, those that were read too.
    bytes: Vec<u8>,
    /// How many were read (`source_left`).
    at: usize,
    /// The most bytes that one read gives.
    piece: usize,
    /// The numbers of the reads that are to fail, in any order (`source_fails`).
    failing: Vec<u64>,
    /// The number of the next read: how many were begun, up to the end of a u64.
    reads: u64,
    /// How many reads failed, up to the end of a u64.
    faults: u64,
    // No more was read than there is.
    ghost within: { at ≤ length bytes.items },
    // A read gives a byte, where one is left.
    ghost piece_is_some: { 0 < piece },
}

impl MemSource {
    ghost use Rattle.blob_device.specs.MemStreams.{source_left, source_reads, source_faults, source_fails, source_piece};

    /// A source of these bytes, which gives at most `piece` of them at a time.
    pub fn new(alloc: Global, bytes: &[u8], piece: usize) -> Result<MemSource, DevError>
        requires { 0 < piece }
        ensures left { IfOk result (λ s. source_left s ≡ bytes.now) }
        ensures unread { IfOk result (λ s. source_reads s ≡ 0) }
        ensures no_fault { IfOk result (λ s. source_faults s ≡ 0) }
        ensures never_fails { IfOk result (λ s. (n : ℕ) → source_fails s n ≡ false) }
        ensures piece { IfOk result (λ s. source_piece s ≡ piece) }
        ensures memory { IsOkUnless result DevError.Mem }
    {
        Ok(MemSource {
            bytes: bytes.to_vec(alloc)?,
            at: 0,
            piece,
            failing: Vec::new(alloc),
            reads: 0,
            faults: 0,
        })
    }

    /// Read number `nth`, from 0 since the source was made, fails.
    pub fn fail_at(&mut self, nth: u64) -> Result<(), DevError>
        ensures fails { OnOk result ((n : ℕ) → source_fails self.new n ≡ (source_fails self.old n || (nth == n))) }
        ensures unchanged { OnErr result ((n : ℕ) → source_fails self.new n ≡ source_fails self.old n) }
        ensures left { source_left self.new ≡ source_left self.old }
        ensures reads { source_reads self.new ≡ source_reads self.old }
        ensures faults { source_faults self.new ≡ source_faults self.old }
        ensures piece { source_piece self.new ≡ source_piece self.old }
        ensures memory { IsOkUnless result DevError.Mem }
    {
        self.failing.push(nth)?;
        Ok(())
    }
}

// Copies a prefix of `from`, as long as `most` and `into` allow, and answers its length.
fn copy_prefix(from: &[u8], most: usize, into: &mut [u8]) -> usize
    ensures count { result ≡ min (min (length from.now) most) (length into.old) }
    ensures prefix { take result into.new ≡ take result from.now }
{
    let count = from.len().min(most).min(into.len());
    into[..count].copy_from_slice(&from[..count]);
    count
}

impl Source for MemSource {
    ghost use Rattle.blob_device.specs.MemStreams.{source_left, source_reads, source_faults, source_fails, source_piece};

    ghost Tells = { Unit {0} };

    ghost left = { source_left };

    ghost faults = { source_faults };

    fn read(&mut self, buf: &mut [u8]) -> Result<usize, IoFault>
        requires { 0 < length buf.old }
        ensures bound { IfOk result (λ n. n ≤ length buf.new) }
        ensures faults { Faulted result (source_faults self.old) (source_faults self.new) }
        ensures takes_no_memory { ¬ IsErrOf result IoFault.Mem }
        ensures told { Unit {0} → HasRead result (source_left self.old) (source_left self.new) buf.new }
        ensures fails { source_fails self.old (source_reads self.old) ≡ true → result ≡ Err IoFault.Fault }
        ensures succeeds { source_fails self.old (source_reads self.old) ≡ false → IsOk result × (source_faults self.new ≡ source_faults self.old) }
        ensures counted { source_reads self.new ≡ next (source_reads self.old) }
        ensures piece { IfOk result (λ n. n ≡ min (min (length (source_left self.old)) (source_piece self.old)) (length buf.old)) }
        ensures piece_stays { source_piece self.new ≡ source_piece self.old }
        ensures one_fault { IsErr result → source_faults self.new ≡ next (source_faults self.old) }
        ensures fails_as_before { (n : ℕ) → source_fails self.new n ≡ source_fails self.old n }
    {
        let number = self.reads;
        self.reads = number.saturating_add(1);
        if is_in_list(self.failing.as_slice(), number) {
            self.faults = self.faults.saturating_add(1);
            return Err(IoFault::Fault);
        }
        let (_, rest) = self.bytes.as_slice().split_at(self.at);
        let count = copy_prefix(rest, self.piece, buf);
        self.at += count;
        Ok(count)
    }
}

/// A reader of std, with the number of its errors. It tells the bytes that are left where the reader's type
/// does.
#[derive(Drop)]
pub struct StdSource<R> {
    /// What the bytes come from.
    reader: R,
    /// How many reads ended in an error, up to the end of a u64 (`FaultsAre`).
    faults: u64,
}

impl<R: Read> StdSource<R> {
    ghost use Rattle.blob_device.specs.StdStreams.{reader_of, read_faults};

    /// A source over this reader.
    pub fn new(reader: R) -> StdSource<R>
        ensures reader { reader_of result ≡ reader }
        ensures no_fault { read_faults result ≡ 0 }
    {
        StdSource { reader, faults: 0 }
    }
}

impl<R: Read> Source for StdSource<R> {
    ghost use Rattle.blob_device.specs.StdStreams.{reader_of, read_faults};

    ghost Tells = { (r : R) → IsSome (R.remaining r) };

    ghost left = { λ s. known (R.remaining (reader_of s)) };

    ghost faults = { read_faults };

    fn read(&mut self, buf: &mut [u8]) -> Result<usize, IoFault>
        requires { 0 < length buf.old }
        ensures bound { IfOk result (λ n. n ≤ length buf.new) }
        ensures faults { Faulted result (read_faults self.old) (read_faults self.new) }
        ensures takes_no_memory { ¬ IsErrOf result IoFault.Mem }
        ensures told { ((r : R) → IsSome (R.remaining r)) → HasRead result (known (R.remaining (reader_of self.old))) (known (R.remaining (reader_of self.new))) buf.new }
        ensures counted { FaultsAre is_stream_fault result (read_faults self.old) (read_faults self.new) }
    {
        match self.reader.read(buf) {
            Ok(count) => Ok(count),
            Err(_) => {
                self.faults = self.faults.saturating_add(1);
                Err(IoFault::Fault)
            }
        }
    }
}
