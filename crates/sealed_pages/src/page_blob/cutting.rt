// Cutting a buffer over sealed pages shorter.
ghost use Rattle.std.specs.Prelude.{◌≡◌, ◌+◌, ◌*◌, ◌/◌, ◌%◌, ◌<◌, ◌^◌, length, false};
ghost use Rattle.sealed_pages.specs.CutsTo.{CutsAt, CutsWithin, ended_with};
ghost use Rattle.sealed_pages.specs.Buffer.{extent, key_of, size_of};
ghost use Rattle.sealed_pages.specs.Entries.{IsOpenAt};
ghost use Rattle.sealed_pages.specs.SlotNames.{is_b};

use super::PageBlob;
use crate::cache::PageCache;
use crate::cut::{Head, cut_inside, cut_pages, read_head};
use crate::slot::{Slot, page_place};
use blob_device::{Device, RError};
use value_codec::Seal;

impl<S: Seal> PageBlob<S> {
    ghost use Rattle.sealed_pages.specs.Shown.{shown};
    ghost use Rattle.sealed_pages.specs.Writes.{Truncates};

    // The buffer that ends with these bytes of a page, which have settled. The blob's physical end is
    // at `end`.
    fn ending_with(self, end: u64, page: u64, tip: Vec<u8>, newest: Slot) -> PageBlob<S>
        requires short { length tip.items < self.page_size }
        requires room { extent self.page_size (page * self.page_size + length tip.items) < 2 ^ 64 }
        ensures { shown result ≡ ended_with (shown self) end page tip.items (is_b newest) }
    {
        let PageBlob {
            alloc,
            partition,
            name,
            page_size,
            capacity,
            cache,
            seal,
            ..
        } = self;
        let from = tip.len();
        PageBlob {
            alloc,
            partition,
            name,
            page_size,
            capacity,
            end,
            first: page,
            settled: page * u64::from(page_size) + from as u64,
            tip,
            from,
            newest,
            behind: false,
            torn: false,
            // Empty: what is cut may be written anew, with other bytes.
            cache: PageCache::new(cache.most()),
            seal,
        }
    }

    // Cuts where a page begins.
    fn cut_at<D: Device>(self, dev: &mut D, page: u64) -> Result<PageBlob<S>, RError>
        requires open { IsOpenAt (D.opened dev.old) (key_of (shown self)) self.end }
        requires below { page * self.page_size < size_of (shown self) }
        ensures { CutsAt D.Device S.seal_of (shown self) dev.old dev.new shown page result }
    {
        let end = page_place(self.page_size, page);
        // No page has to be read: those below keep their slots.
        cut_pages::<D, S>(dev, &self.blob(), page)?;
        let tip = Vec::new(self.alloc);
        Ok(self.ending_with(end, page, tip, Slot::A))
    }

    // Cuts a page to its first `keep` bytes. It reads the page, also where it is the last one, so that
    // the cut rests on the slots as the blob has them.
    fn cut_within<D: Device>(
        self,
        dev: &mut D,
        page: u64,
        keep: usize,
    ) -> Result<PageBlob<S>, RError>
        requires open { IsOpenAt (D.opened dev.old) (key_of (shown self)) self.end }
        requires some { 0 < keep }
        requires short { keep < self.page_size }
        requires below { page * self.page_size + keep < size_of (shown self) }
        ensures { CutsWithin D.Device S.seal_of (shown self) dev.old dev.new shown page keep
            result }
    {
        // Before anything is cut: where no slot covers so much, the cut is refused and costs nothing.
        let Head { bytes, slot } = read_head::<D, S>(self.alloc, dev, &self.blob(), page, keep)?;
        // Its pages behind this one first, then its slots: each step settles before the next.
        let end = cut_inside::<D, S>(dev, &self.blob(), page, bytes.as_slice(), slot)?;
        Ok(self.ending_with(end, page, bytes, slot.other()))
    }

    /// Cuts the buffer to this length, which has then settled. At or above the size nothing changes,
    /// and no call of the device is made; else what is pending is settled first.
    ///
    /// It answers `InvalidChecksum` with the page in which the cut is to stand, where no matching slot
    /// covers that page so far. Nothing is cut then.
    pub fn truncate<D: Device>(self, dev: &mut D, len: u64) -> Result<PageBlob<S>, RError>
        requires open { IsOpenAt (D.opened dev.old) (key_of (shown self)) self.end }
        ensures { Truncates D.Device S.seal_of (shown self) dev.old dev.new shown len result }
    {
        if len >= self.size() {
            return Ok(self);
        }
        // What is pending settles first: a cut that is refused then costs no byte.
        let this = self.sync(dev)?;
        let page_size = u64::from(this.page_size);
        let page = len / page_size;
        let keep = (len % page_size) as usize;
        // All has settled, so each step of a cut starts from a settled blob.
        if keep == 0 {
            return this.cut_at(dev, page);
        }
        this.cut_within(dev, page, keep)
    }
}
