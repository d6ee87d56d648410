// A buffer over a blob without seals.
//
// It means the bytes of its blob, with one run of bytes over them. It is for bytes that carry seals of their
// own, as the frames of a glob do.
//
// # Format
//
// The blob has the bytes as they are. The run is in memory, and stands at any place:
//
//     0                      `settled`          `end`
//     +----------------------+------------------+
//     | blob                 |                  |
//     +----------------------+------------------+
//                                         +------------------+
//                                         | run, not flushed |
//                                         +------------------+
//                                         `at`
//
// A write that begins in the run or at its end joins it. Any other flushes the run, and begins a new one.
// Between the blob's end and a run behind it the bytes are zeros.
//
// # Sync
//
// A write flushes where the run reaches the capacity. A flush is one write, and settles nothing. `sync`
// flushes and settles. `truncate` flushes what the run keeps, cuts, and settles.
//
// # Crashes
//
// Each byte that had settled and was not written since outlives every crash, up to a cut. Of any other byte a
// crash may leave anything: no seal tells a torn write from a whole one. Only places of the run and of the
// call are touched. After an error the buffer is gone, so a write that failed is never read as one that was
// made.
//
// # Cost
//
// A write or append makes at most two calls, and one where its bytes join the run. A sync makes at most two,
// and a cut three. A read makes one, and none where all its bytes are in the run.
ghost use Rattle.std.specs.Prelude.{◌≡◌, ◌+◌, ◌-◌, ◌≤◌, ◌<◌, ◌^◌, ◌↔◌, length, IfOk, false, IsTrue};
ghost use Rattle.sealed_pages.specs.Entries.{IsOpenAt};

mod cutting;
mod reads;
mod run;

use blob_device::{DevError, Device, RError};
use run::overwrite;
use std::alloc::{AllocError, Global};

/// A buffer over an opened blob that carries no seals.
///
/// One run of bytes is held in memory. A write that begins in the run or at its end goes into it; any other
/// flushes the run and begins a new one. No byte is written that was not handed to the buffer since its last
/// flush: gaps are left to the device. A refused call gives the buffer up; the blob is then opened and
/// adopted again.
///
/// ```rust
/// let blob = WriteBlob::adopt(alloc, "p", b"v", end, 1024)?;
/// let (blob, at) = blob.append(&mut dev, b"abc")?;    // in the run, below 1,024 bytes
/// let blob = blob.write_at(&mut dev, at, b"x")?;      // in the run: xbc
/// let blob = blob.sync(&mut dev)?;                    // one write and one sync
/// ```
#[derive(Drop)]
pub struct WriteBlob {
    /// The partition of the blob.
    partition: String,
    /// The blob's name.
    name: Vec<u8>,
    /// From how many bytes in the run on a write flushes it (`StaysBelow`).
    capacity: usize,
    /// How long the blob is, in bytes. The opened list has it (`IsOpenAt`).
    end: u64,
    /// Where the run begins, in bytes from the blob's beginning. It may be behind the end.
    at: u64,
    /// The run: what was handed in and is not flushed (`HoldsOnly`).
    pending: Vec<u8>,
    /// How many first bytes have settled, but for those written since (`Over.lasts`).
    settled: u64,
    /// Whether the blob has bytes, or an end, that have not settled (`Over.clean`).
    dirty: bool,
    // The run ends below 2^64.
    ghost fit: { at + length pending.items < 2 ^ 64 },
    // No more has settled than the blob has.
    ghost order: { settled ≤ end },
    // Where the blob has settled, all of it counts as settled.
    ghost rests: { dirty ≡ false → settled ≡ end },
}

impl WriteBlob {
    ghost use Rattle.sealed_pages.specs.unsealed.RunCalls.{AdoptsRun, FlushesRun, Flushes, Rests, Syncs, Moves, WritesAt, Appends};
    ghost use Rattle.sealed_pages.specs.unsealed.Writing.{shown, blob_key, size_of, is_idle, is_unsettled, Joins, with_bytes_put};

    /// Adopts an opened blob of this length. All of it counts as settled, since opening a blob settles it.
    pub fn adopt(
        alloc: Global,
        partition: &str,
        name: &[u8],
        size: u64,
        capacity: usize,
    ) -> Result<WriteBlob, RError>
        ensures { AdoptsRun shown (partition.now, name.now) size capacity result }
    {
        let partition = String::from_str(alloc, partition)?;
        let name = name.to_vec(alloc)?;
        Ok(WriteBlob {
            partition,
            name,
            capacity,
            end: size,
            at: size,
            pending: Vec::new(alloc),
            settled: size,
            dirty: false,
        })
    }

    /// The length, with the bytes that are not flushed. It takes no memory.
    pub fn size(&self) -> u64
        ensures { result ≡ size_of (shown self.now) }
    {
        self.end.max(self.at + self.pending.len() as u64)
    }

    // Whether a flush would do nothing.
    fn idle(&self) -> bool
        ensures { result ≡ is_idle (shown self.now) }
    {
        self.pending.is_empty() && self.at <= self.end
    }

    /// Whether a sync would do something: whether a byte has not settled. It takes no memory.
    pub fn needs_sync(&self) -> bool
        ensures { result ≡ is_unsettled (shown self.now) }
    {
        self.dirty || !self.idle()
    }

    // Whether a write there goes into the run.
    fn joins(&self, offset: u64) -> bool
        ensures { IsTrue result ↔ Joins (shown self.now) offset }
    {
        self.at <= offset && offset - self.at <= self.pending.len() as u64
    }

    // Writes the run.
    fn flushed<D: Device>(self, dev: &mut D) -> Result<WriteBlob, DevError>
        requires open { IsOpenAt (D.opened dev.old) (blob_key (shown self)) self.end }
        ensures { FlushesRun D.Device (shown self) dev.old dev.new shown result }
    {
        if self.idle() {
            return Ok(self);
        }
        let end = self.size();
        // The run alone: a byte that was not handed in is never loose.
        dev.write_at(
            self.partition.as_str(),
            self.name.as_slice(),
            self.at,
            self.pending.as_slice(),
        )?;
        let mut this = self;
        this.end = end;
        this.pending.clear();
        this.dirty = true;
        Ok(this)
    }

    /// Writes what is not yet flushed, by at most one write of the device.
    pub fn flush<D: Device>(self, dev: &mut D) -> Result<WriteBlob, RError>
        requires open { IsOpenAt (D.opened dev.old) (blob_key (shown self)) self.end }
        ensures { Flushes D.Device (shown self) dev.old dev.new shown result }
    {
        // Written and no more: nothing settles before a sync is asked for.
        Ok(self.flushed(dev)?)
    }

    // Settles what is flushed.
    fn rested<D: Device>(self, dev: &mut D) -> Result<WriteBlob, DevError>
        requires open { IsOpenAt (D.opened dev.old) (blob_key (shown self)) self.end }
        ensures { Rests D.Device (shown self) dev.old dev.new shown result }
    {
        // Behind the flush, so that all the blob has by now counts as settled.
        dev.sync(self.partition.as_str(), self.name.as_slice())?;
        let mut this = self;
        this.settled = this.end;
        this.dirty = false;
        Ok(this)
    }

    /// Settles all bytes. Where none is unsettled, it makes no call of the device.
    pub fn sync<D: Device>(self, dev: &mut D) -> Result<WriteBlob, RError>
        requires open { IsOpenAt (D.opened dev.old) (blob_key (shown self)) self.end }
        ensures { Syncs D.Device (shown self) dev.old dev.new shown result }
    {
        if !self.needs_sync() {
            return Ok(self);
        }
        // The run first, since the device settles only what the blob has.
        let this = self.flushed(dev)?;
        // All bytes are in the blob by now, so this settles them all.
        Ok(this.rested(dev)?)
    }

    // Flushes the run where a write there does not go into it, and begins one there.
    fn moved<D: Device>(self, dev: &mut D, offset: u64) -> Result<WriteBlob, DevError>
        requires open { IsOpenAt (D.opened dev.old) (blob_key (shown self)) self.end }
        ensures { Moves D.Device (shown self) dev.old dev.new shown offset result }
    {
        if self.joins(offset) {
            return Ok(self);
        }
        // There is one run: the old one goes before another begins.
        let mut this = self.flushed(dev)?;
        this.at = offset;
        Ok(this)
    }

    // Puts bytes into the run.
    fn put(self, offset: u64, bytes: &[u8]) -> Result<WriteBlob, AllocError>
        requires joins { Joins (shown self) offset }
        requires fits { offset + length bytes.now < 2 ^ 64 }
        ensures { IfOk result (λ r. shown r ≡ with_bytes_put (shown self) offset bytes.now) }
    {
        let mut this = self;
        let skip = (offset - this.at) as usize;
        overwrite(&mut this.pending, skip, bytes)?;
        Ok(this)
    }

    /// Writes bytes from `offset` on; a gap behind the old end reads as zeros. All that is not flushed is
    /// flushed where it is then at least as long as the capacity.
    pub fn write_at<D: Device>(
        self,
        dev: &mut D,
        offset: u64,
        bytes: &[u8],
    ) -> Result<WriteBlob, RError>
        requires open { IsOpenAt (D.opened dev.old) (blob_key (shown self)) self.end }
        ensures { WritesAt D.Device (shown self) dev.old dev.new shown offset bytes.now result }
    {
        if bytes.len() as u64 > u64::MAX - offset {
            return Err(RError::OffsetOverflow);
        }
        let this = self.moved(dev, offset)?;
        let this = this.put(offset, bytes)?;
        if this.pending.len() < this.capacity {
            return Ok(this);
        }
        // At the capacity, which bounds what is in memory. Nothing settles.
        Ok(this.flushed(dev)?)
    }

    /// Adds bytes at the end. The answer has the place of the first of them.
    pub fn append<D: Device>(self, dev: &mut D, bytes: &[u8]) -> Result<(WriteBlob, u64), RError>
        requires open { IsOpenAt (D.opened dev.old) (blob_key (shown self)) self.end }
        ensures { Appends D.Device (shown self) dev.old dev.new shown bytes.now result }
    {
        let at = self.size();
        // At the end, so it joins the run or begins one: no byte that was written before is touched.
        match self.write_at(dev, at, bytes) {
            Ok(this) => Ok((this, at)),
            Err(e) => Err(e),
        }
    }
}
