// A buffer over a blob whose pages carry seals.
//
// It means a list of bytes, which is extended at its end, read anywhere, and cut. Whatever a crash tears,
// what was synced is found again by the seals.
//
// # Format
//
// A page has P data bytes and two slots, so page k begins at byte k * (P + 12) of the blob:
//
//     0                              P                    P + 6                P + 12
//     +------------------------------+--------------------+--------------------+
//     | data                         | slot A             | slot B             |
//     | P bytes                      | length 2 | seal 4  | length 2 | seal 4  |
//     +------------------------------+--------------------+--------------------+
//
// A slot covers as many first data bytes as its length says. Its seal is over the two length bytes and these.
// Numbers are big-endian. A slot matches where its length is 1 to P, its seal holds, and it stands whole in
// the blob. A page is as long as the longer of its matching slots says. The sealed prefix is the data of the
// pages up to the first that is not full so.
//
// In memory is the tip: the bytes of a last page that is not full, and all that is not flushed:
//
//     page 0         page 1         page 2
//     | full       | | full       | | flushed | not flushed .. |
//                                   |<--------- tip --------->|
//                                   `first`   `from`          the size
//
// # Sync
//
// An append flushes where the bytes that are not flushed reach the capacity. A flush settles nothing. It goes
// page by page: the new data, then a slot over all data of the page. That is the slot that has not settled,
// so a torn one costs nothing that was synced. `sync` flushes and settles. `truncate` settles first, cuts,
// and settles each step.
//
// # Crashes
//
// Of a sealed buffer each crash leaves a blob whose sealed prefix is a prefix of the bytes, a chance seal
// aside. It is no shorter than what has settled, or than a cut. So it is at every moment, and after an error.
//
//     settled             data "ef"              slot A covers 2       slot B covers nothing
//     "gh" is flushed     data "efgh"            slot A covers 2       slot B covers 4
//     a crash leaves      "ef" and any bytes     slot A covers 2       slot B old, new or torn
//
// What an earlier crash left in a blob that is adopted goes for good before the first new byte is written.
// Where the sealed prefix of such a blob is shorter than its size, every crash leaves that prefix as it is. A
// cut to at most the prefix makes the buffer sealed.
//
// # Cost
//
// A flush makes two writes a page, and the first one over leftovers up to three calls before. A sync makes
// one call more. A read makes one call a page that is not held. A cut inside a page reads it, and makes up to
// three changes, each with a sync. Adopting reads page by page from the last one back to one with a matching
// slot.
ghost use Rattle.std.specs.Prelude.{◌≡◌, ◌+◌, ◌*◌, ◌≤◌, ◌<◌, ◌^◌, ◌-◌, ◌↔◌, ◌==◌, ◌||◌, Err, not, length, drop, true, false, IsTrue};
ghost use Rattle.blob_device.specs.declared.runtime.RError.TheVariants.{OffsetOverflow};
ghost use Rattle.sealed_pages.specs.View.{page_at};
ghost use Rattle.sealed_pages.specs.Flushing.{last_slot};
ghost use Rattle.sealed_pages.specs.Buffer.{Fit, extent, key_of, size_of, flushed_of};
ghost use Rattle.sealed_pages.specs.Entries.{IsOpenAt};
ghost use Rattle.sealed_pages.specs.SlotNames.{is_b, opened_key};
ghost use Rattle.sealed_pages.specs.Cached.{held_in, AreFull};

mod cutting;
mod reads;

use crate::Pages;
use crate::cache::PageCache;
use crate::flush::{Settled, flush_pages, next_slot_of};
use crate::open_blob::OpenBlob;
use crate::page::Tip;
use crate::reading::find_last;
use crate::repair::repair;
use crate::slot::{SLOTS_LEN, Slot};
use crate::start::{Start, start_of};
use blob_device::{DevError, Device, RError};
use std::alloc::Global;
use std::marker::PhantomData;
use value_codec::Seal;

/// A buffer over an opened blob whose pages carry two seals each.
///
/// The tip is held in memory: the bytes of a last page that is not full, and all bytes that are not
/// flushed. So are the full pages that were flushed last, at most `cache_pages` of them. A read fills
/// nothing. A refused call gives the buffer up; the blob is then opened and adopted again.
#[derive(Drop)]
pub struct PageBlob<S: Seal> {
    /// Where memory for tips and pages comes from.
    alloc: Global,
    /// The partition of the blob.
    partition: String,
    /// The blob's name.
    name: Vec<u8>,
    /// The data bytes of a page, at least 1 (`Fit.begun`).
    page_size: u16,
    /// From how many bytes on an append flushes those that are not flushed (`FlushesNothing`).
    capacity: usize,
    /// Where the blob ends, in bytes of the blob, slots counted. The opened list has it (`IsOpenAt`).
    end: u64,
    /// The number of the page with which the tip begins. Those below it stand in the blob.
    first: u64,
    /// The data bytes from that page on, flushed or not (`Holds.tip_at`).
    tip: Vec<u8>,
    /// How many bytes of the tip are flushed, less than a page (`Fit.begun`, `Fit.within`).
    from: usize,
    /// How many data bytes have settled, from the first on (`Ready.settled`, `Ready.order`).
    settled: u64,
    /// The slot that covers the page in which they end (`Ready.last`).
    newest: Slot,
    /// Whether bytes stand behind the last page with a matching slot. The first flush cuts them
    /// (`Leftover.behind_is`).
    behind: bool,
    /// Whether that page's other slot is torn. The first flush clears it (`Leftover.torn_is`).
    torn: bool,
    /// The full pages that were flushed last. They are as in the blob (`IsBacked.cache`).
    cache: PageCache,
    /// The kind of seal; no data.
    seal: PhantomData<S>,
    // The tip begins where a page does, and all pages with their slots end below 2^64.
    ghost fit: { Fit page_size first from tip.items },
    // A torn slot stands beside one that covers bytes of the tip.
    ghost inside: { torn ≡ true → 0 < from },
    // No more has settled than is flushed.
    ghost order: { settled ≤ first * page_size + from },
    // The pages that are held stand below the tip, and are whole.
    ghost full: { AreFull page_size first (held_in cache) },
    // There are no more of them than the cache takes.
    ghost few: { length (held_in cache) ≤ cache.most },
}

/// Takes the first n bytes away.
pub fn drop_prefix(tip: &mut Vec<u8>, n: usize)
    requires { n ≤ length tip.old.items }
    ensures { tip.new.items ≡ drop n tip.old.items }
{
    let rest = tip.len() - n;
    tip.rotate_left(n);
    tip.truncate(rest);
}

/// Whether a blob of so many bytes, with both slots of its last page, ends below 2^64.
fn fits(page_size: u16, size: u64, more: usize) -> bool
    requires { 1 ≤ page_size }
    ensures { IsTrue result ↔ extent page_size (size + more) < 2 ^ 64 }
{
    let data = u128::from(page_size);
    let bytes = u128::from(size) + more as u128;
    let pages = (bytes + (data - 1)) / data;
    pages * (data + SLOTS_LEN as u128) <= u128::from(u64::MAX)
}

/// The slot that covers the last page, if the end stands within it.
fn last_slot_of(page_size: u16, page: u64, from: usize, end: u64, settled: Settled) -> Slot
    requires { 0 < from → page_at page_size page + (page_size + 12) < 2 ^ 64 }
    ensures { 0 < from
        → is_b result ≡ last_slot page_size end settled.len (is_b settled.slot) page }
{
    if from == 0 || end == settled.len {
        return settled.slot;
    }
    next_slot_of(page_size, page, settled)
}

impl<S: Seal> PageBlob<S> {
    ghost use Rattle.sealed_pages.specs.Shown.{shown};
    ghost use Rattle.sealed_pages.specs.Adopts.{Adopts};
    ghost use Rattle.sealed_pages.specs.Flushes.{Repairs, WritesTip, Flushes};
    ghost use Rattle.sealed_pages.specs.Writes.{Appends, Syncs};

    /// Adopts an opened blob of this length. The size goes back to the last page with a matching slot.
    /// No page is held then.
    pub fn adopt<D: Device>(
        alloc: Global,
        dev: &mut D,
        partition: &str,
        name: &[u8],
        size: u64,
        capacity: usize,
        pages: Pages,
    ) -> Result<PageBlob<S>, RError>
        requires valid { 1 ≤ pages.page_size }
        requires open { IsOpenAt (D.opened dev.old) (partition.now, name.now) size }
        ensures { Adopts D.Device S.seal_of (partition.now, name.now) pages dev.old dev.new shown
            size capacity result }
    {
        let unit = usize::from(pages.page_size) + SLOTS_LEN;
        let mut bytes = vec![in alloc; 0; unit]?;
        let buf = bytes.as_mut_slice();
        let blob = OpenBlob {
            partition,
            name,
            page_size: pages.page_size,
            end: size,
        };
        let found = find_last::<D, S>(dev, &blob, buf)?;
        let page = bytes.as_slice();
        let start = start_of::<S>(pages.page_size, size, &found, page);
        let partition = String::from_str(alloc, partition)?;
        let name = name.to_vec(alloc)?;
        let tip = page[..start.from].to_vec(alloc)?;
        Ok(PageBlob {
            alloc,
            partition,
            name,
            page_size: pages.page_size,
            capacity,
            end: size,
            first: start.first,
            tip,
            from: start.from,
            settled: start.first * u64::from(pages.page_size) + start.from as u64,
            newest: start.newest,
            behind: start.behind,
            torn: start.torn,
            cache: PageCache::new(pages.cache_pages),
            seal: PhantomData,
        })
    }

    // Its blob, as what reads and writes pages is given it.
    fn blob(&self) -> OpenBlob<'_>
        ensures key { opened_key result ≡ key_of (shown self.now) }
        ensures page_size { result.page_size ≡ self.now.page_size }
        ensures end { result.end ≡ self.now.end }
    {
        OpenBlob {
            partition: self.partition.as_str(),
            name: self.name.as_slice(),
            page_size: self.page_size,
            end: self.end,
        }
    }

    // How far it has settled.
    fn settled_end(&self) -> Settled
        ensures len { result.len ≡ self.now.settled }
        ensures slot { result.slot ≡ self.now.newest }
    {
        Settled {
            len: self.settled,
            slot: self.newest,
        }
    }

    /// How many bytes are flushed.
    fn flushed(&self) -> u64
        ensures { result ≡ flushed_of (shown self.now) }
    {
        self.first * u64::from(self.page_size) + self.from as u64
    }

    /// The length, with the bytes that are not flushed. It takes no memory.
    pub fn size(&self) -> u64
        ensures { result ≡ size_of (shown self.now) }
    {
        self.first * u64::from(self.page_size) + self.tip.len() as u64
    }

    /// Whether a sync would do something: whether a byte has not settled. It takes no memory.
    pub fn needs_sync(&self) -> bool
        ensures { result ≡ not (self.now.settled == size_of (shown self.now)) }
    {
        self.settled != self.size()
    }

    /// Whether so many bytes more end, with both slots of their last page, below 2^64: whether an
    /// append of them is not refused for their number. It takes no memory.
    pub fn has_room(&self, more: usize) -> bool
        ensures { IsTrue result
            ↔ extent self.now.page_size (size_of (shown self.now) + more) < 2 ^ 64 }
    {
        fits(self.page_size, self.size(), more)
    }

    // Removes what a crash may have left, the first time that bytes are to be written.
    fn repaired<D: Device>(self, dev: &mut D) -> Result<PageBlob<S>, DevError>
        requires open { IsOpenAt (D.opened dev.old) (key_of (shown self)) self.end }
        ensures { Repairs D.Device S.seal_of (shown self) dev.old dev.new shown result }
    {
        if !(self.behind || self.torn) {
            return Ok(self);
        }
        let start = Start {
            first: self.first,
            from: self.from,
            newest: self.newest,
            behind: self.behind,
            torn: self.torn,
        };
        // Once, before a first byte is written: what goes here does not come back.
        let end = repair::<D, S>(dev, &self.blob(), &start)?;
        let mut this = self;
        this.end = end;
        this.behind = false;
        this.torn = false;
        Ok(this)
    }

    // Writes the pages of the tip. Only the bytes of a last page that is not full stay in it.
    fn written<D: Device>(self, dev: &mut D) -> Result<PageBlob<S>, DevError>
        requires open { IsOpenAt (D.opened dev.old) (key_of (shown self)) self.end }
        requires clean { (self.behind || self.torn) ≡ false }
        ensures { WritesTip D.Device S.seal_of (shown self) dev.old dev.new shown result }
    {
        let tip = Tip {
            first: self.first,
            from: self.from,
            bytes: self.tip.as_slice(),
        };
        // Before the tip lets a page go: until it is written, the bytes are here alone.
        let end = flush_pages::<D, S>(dev, &self.blob(), &tip, self.settled_end())?;
        let size = usize::from(self.page_size);
        let full = self.tip.len() / size;
        let PageBlob {
            alloc,
            partition,
            name,
            page_size,
            capacity,
            first,
            mut tip,
            settled,
            newest,
            behind,
            torn,
            cache,
            seal,
            ..
        } = self;
        let cache = cache.put_full(alloc, page_size, first, tip.as_slice())?;
        drop_prefix(&mut tip, full * size);
        let from = tip.len();
        Ok(PageBlob {
            alloc,
            partition,
            name,
            page_size,
            capacity,
            end,
            first: first + full as u64,
            tip,
            from,
            settled,
            newest,
            behind,
            torn,
            cache,
            seal,
        })
    }

    // Writes what is not yet flushed.
    fn flush<D: Device>(self, dev: &mut D) -> Result<PageBlob<S>, DevError>
        requires open { IsOpenAt (D.opened dev.old) (key_of (shown self)) self.end }
        ensures { Flushes D.Device S.seal_of (shown self) dev.old dev.new shown result }
    {
        if self.from >= self.tip.len() {
            return Ok(self);
        }
        // For good before the first new byte: beside new bytes old ones could match again.
        let this = self.repaired(dev)?;
        // Only now, with nothing left in the blob that new bytes could bring to match.
        this.written(dev)
    }

    /// Adds bytes at the end. The answer has the place of the first of them. All that is not flushed is
    /// flushed where it is then at least as long as the capacity; below that no call of the device is
    /// made.
    pub fn append<D: Device>(self, dev: &mut D, bytes: &[u8]) -> Result<(PageBlob<S>, u64), RError>
        requires open { IsOpenAt (D.opened dev.old) (key_of (shown self)) self.end }
        ensures { Appends D.Device S.seal_of (shown self) dev.old dev.new shown bytes.now result }
    {
        let at = self.size();
        if !fits(self.page_size, at, bytes.len()) {
            return Err(RError::OffsetOverflow);
        }
        let mut this = self;
        this.tip.extend_from_slice(bytes)?;
        if this.tip.len() - this.from < this.capacity {
            return Ok((this, at));
        }
        // At the capacity, which bounds what is in memory. Nothing settles.
        let this = this.flush(dev)?;
        Ok((this, at))
    }

    /// Settles all bytes. Where none is unsettled, it makes no call of the device.
    pub fn sync<D: Device>(self, dev: &mut D) -> Result<PageBlob<S>, RError>
        requires open { IsOpenAt (D.opened dev.old) (key_of (shown self)) self.end }
        ensures { Syncs D.Device S.seal_of (shown self) dev.old dev.new shown result }
    {
        if !self.needs_sync() {
            return Ok(self);
        }
        // All that is pending first, since the device settles only what the blob has.
        let mut this = self.flush(dev)?;
        // Once, behind all pages: until then the old slots cover what had settled.
        dev.sync(this.partition.as_str(), this.name.as_slice())?;
        let end = this.flushed();
        let settled = this.settled_end();
        let slot = last_slot_of(this.page_size, this.first, this.from, end, settled);
        this.settled = end;
        this.newest = slot;
        Ok(this)
    }
}
