// Reading the bytes that a buffer means: from its tip what is held there, and the rest from pages of its
// blob.
ghost use Rattle.std.specs.Prelude.{◌≡◌, ◌+◌, ◌*◌, ◌-◌, ◌≤◌, ◌<◌, ◌↔◌, ◌/◌, Err, min, length, take, drop, IsSome, true, false, ℕ};
ghost use Rattle.blob_device.specs.declared.runtime.RError.TheVariants.{OffsetOverflow};
ghost use Rattle.sealed_pages.specs.Buffer.{key_of, size_of, is_cached};
ghost use Rattle.sealed_pages.specs.Reads.{IsWanted, below};
ghost use Rattle.sealed_pages.specs.Entries.{IsOpenAt};

use super::PageBlob;
use crate::open_blob::OpenBlob;
use crate::prefix::prefix_len;
use crate::range::{PageSource, check_range, open_again, read_last, read_opened, read_pages};
use crate::replay::PageReplay;
use blob_device::{Device, RError};
use std::alloc::Global;
use value_codec::Seal;

impl<S: Seal> PageBlob<S> {
    ghost use Rattle.sealed_pages.specs.Shown.{shown};
    ghost use Rattle.sealed_pages.specs.PageReads.{ReadsAt, TriesHeld, ReadsRange, ReadsTail, SeeksPrefix, SeeksAtMost};
    ghost use Rattle.sealed_pages.specs.Replays.{Replays};
    ghost use Rattle.sealed_pages.specs.Readers.{reading};

    // Where the tip begins.
    fn tip_start(&self) -> u64
        ensures { result ≡ self.now.first * self.now.page_size }
    {
        self.first * u64::from(self.page_size)
    }

    // How many of these bytes stand below the tip.
    fn below_tip(&self, offset: u64, len: usize) -> usize
        ensures { result ≡ below self.now.page_size self.now.first offset len }
    {
        (len as u64).min(self.tip_start().saturating_sub(offset)) as usize
    }

    // Copies bytes out of the tip.
    fn copy_held(&self, offset: u64, buf: &mut [u8])
        requires { 0 < length buf.old → (self.now.first * self.now.page_size ≤ offset)
            × (offset + length buf.old ≤ size_of (shown self.now)) }
        ensures { buf.new ≡ take (length buf.old)
            (drop (offset - self.now.first * self.now.page_size) self.now.tip.items) }
    {
        if buf.is_empty() {
            return;
        }
        let skip = (offset - self.tip_start()) as usize;
        buf.copy_from_slice(&self.tip[skip..skip + buf.len()]);
    }

    /// Reads the bytes from `offset` on: from memory those that are held, in the tip or in cached pages. Each
    /// other page is read once, and checked.
    ///
    /// `InvalidChecksum` names a page that no matching slot covers as far as the read needs it. After an
    /// error `buf` holds any bytes. An empty `buf` reads nothing.
    pub fn read_at<D: Device>(&self, dev: &mut D, offset: u64, buf: &mut [u8]) -> Result<(), RError>
        requires { IsOpenAt (D.opened dev.old) (key_of (shown self.now)) self.now.end }
        ensures { ReadsAt D.Device S.seal_of (shown self.now) dev.old dev.new offset
            buf.old buf.new result }
    {
        check_range(offset, buf.len(), self.size())?;
        if self.try_read_held(offset, buf) {
            return Ok(());
        }
        let below = self.below_tip(offset, buf.len());
        let prefix = &mut buf[..below];
        let source = PageSource {
            blob: self.blob(),
            cache: &self.cache,
        };
        read_pages::<D, S>(self.alloc, dev, &source, offset, prefix)?;
        self.copy_held(offset + below as u64, &mut buf[below..]);
        Ok(())
    }

    // Whether these bytes, which stand below the tip, are all in pages that are held.
    fn has_below(&self, offset: u64, len: usize) -> bool
        requires { 0 < len → offset + len ≤ self.now.first * self.now.page_size }
        ensures { (result ≡ true) ↔ ((k : ℕ) → IsWanted self.now.page_size offset len k
            → is_cached (shown self.now) k ≡ true) }
    {
        if len == 0 {
            return true;
        }
        let page_size = u64::from(self.page_size);
        let last = (offset + (len as u64 - 1)) / page_size;
        self.cache.has_all(offset / page_size, last + 1)
    }

    /// Takes the bytes from `offset` on where all of them are held in memory; else `buf` stays as it is. It
    /// takes no memory.
    pub fn try_read_held(&self, offset: u64, buf: &mut [u8]) -> bool
        ensures { TriesHeld S.seal_of (shown self.now) offset buf.old buf.new result }
    {
        if buf.is_empty() {
            return true;
        }
        if check_range(offset, buf.len(), self.size()).is_err() {
            return false;
        }
        let below = self.below_tip(offset, buf.len());
        if !self.has_below(offset, below) {
            return false;
        }
        let prefix = &mut buf[..below];
        self.cache.copy_out(self.page_size, offset, prefix);
        self.copy_held(offset + below as u64, &mut buf[below..]);
        true
    }

    /// Reads bytes of an opened blob without a buffer over it: the bytes from `offset` on, below the size at
    /// which the blob would be adopted. Its length is learned by opening it again, which settles it.
    ///
    /// `InvalidChecksum` names a page that no matching slot covers as far as the read needs it. After an
    /// error `buf` holds any bytes.
    pub fn read_range<D: Device>(
        alloc: Global,
        dev: &mut D,
        partition: &str,
        name: &[u8],
        page_size: u16,
        offset: u64,
        buf: &mut [u8],
    ) -> Result<(), RError>
        requires valid { 1 ≤ page_size }
        requires open { IsSome (D.opened dev.old (partition.now, name.now)) }
        ensures { ReadsRange D.Device S.seal_of page_size (partition.now, name.now)
            dev.old dev.new offset buf.old buf.new result }
    {
        if offset.checked_add(buf.len() as u64).is_none() {
            return Err(RError::OffsetOverflow);
        }
        let end = open_again(dev, partition, name)?;
        let blob = OpenBlob {
            partition,
            name,
            page_size,
            end,
        };
        read_opened::<D, S>(alloc, dev, &blob, offset, buf)
    }

    /// Reads the last bytes of an opened blob without a buffer over it. The answer is the size at which the
    /// blob would be adopted, and the bytes are those before it. Its length is learned by opening it again,
    /// which settles it.
    ///
    /// `InvalidChecksum` names a page that no matching slot covers as far as the read needs it. After an
    /// error `buf` holds any bytes.
    pub fn read_tail<D: Device>(
        alloc: Global,
        dev: &mut D,
        partition: &str,
        name: &[u8],
        page_size: u16,
        buf: &mut [u8],
    ) -> Result<u64, RError>
        requires valid { 1 ≤ page_size }
        requires open { IsSome (D.opened dev.old (partition.now, name.now)) }
        ensures { ReadsTail D.Device S.seal_of page_size (partition.now, name.now)
            dev.old dev.new buf.old buf.new result }
    {
        let end = open_again(dev, partition, name)?;
        let blob = OpenBlob {
            partition,
            name,
            page_size,
            end,
        };
        read_last::<D, S>(alloc, dev, &blob, buf)
    }

    /// The length of the blob's sealed prefix as it reads, where the pages below the one that has byte `from`
    /// are taken as full. Where no page begins at or behind that one, the answer is that one's start.
    ///
    /// It reads pieces of about `buffer` bytes, at least one page each, and each page at most once.
    pub fn recoverable_prefix_len<D: Device>(
        &self,
        dev: &mut D,
        from: u64,
        buffer: usize,
    ) -> Result<u64, RError>
        requires { IsOpenAt (D.opened dev.old) (key_of (shown self.now)) self.now.end }
        ensures { SeeksPrefix D.Device S.seal_of (shown self.now) dev.old dev.new from result }
    {
        let among = from / u64::from(self.page_size)..u64::MAX;
        prefix_len::<D, S>(self.alloc, dev, &self.blob(), among, buffer)
    }

    /// The lesser of `end` and [`recoverable_prefix_len`](PageBlob::recoverable_prefix_len) from there. It
    /// reads only pages that begin below `end`.
    pub fn recoverable_prefix_len_at_most<D: Device>(
        &self,
        dev: &mut D,
        from: u64,
        end: u64,
        buffer: usize,
    ) -> Result<u64, RError>
        requires { IsOpenAt (D.opened dev.old) (key_of (shown self.now)) self.now.end }
        ensures { SeeksAtMost D.Device S.seal_of (shown self.now) dev.old dev.new from end result }
    {
        let size = u64::from(self.page_size);
        let among = from / size..end.div_ceil(size);
        let len = prefix_len::<D, S>(self.alloc, dev, &self.blob(), among, buffer)?;
        Ok(len.min(end))
    }

    /// Flushes what is not flushed, and gives a reader over all the bytes, from 0. It reads full pages, in
    /// pieces of about `buffer` bytes, and has the bytes of a last page that is not full from here.
    pub fn replay<D: Device>(
        self,
        dev: &mut D,
        buffer: usize,
    ) -> Result<(PageBlob<S>, PageReplay<S>), RError>
        requires open { IsOpenAt (D.opened dev.old) (key_of (shown self)) self.end }
        ensures { Replays D.Device S.seal_of (shown self) dev.old dev.new shown reading result }
    {
        // Flushed, so that the tip is the last page's bytes alone, and the reader has all others from the
        // blob.
        let this = self.flush(dev)?;
        let tip = this.tip.as_slice().to_vec(this.alloc)?;
        let replay = PageReplay::new(this.alloc, &this.blob(), this.size(), buffer, tip)?;
        Ok((this, replay))
    }
}
