// A device that counts the calls of another one, of two phases apart.
ghost use Rattle.std.specs.Prelude.{◌≡◌, ◌≤◌};

use crate::config::KEY_PARTITION;
use crate::counts::Tally;
use crate::sizes::Sizes;
use blob_device::{DevError, Device, Names};
use std::alloc::Global;

/// A device that counts its calls in two counts, of which one is gone on with.
pub trait Phased: Device {
    /// Goes on with the other count. Both begin at nothing, and the device stays as it is.
    fn turn(&mut self)
        ensures time { Self.time self.new ≡ Self.time self.old }
        ensures opened { Self.opened self.new ≡ Self.opened self.old };

    /// What was counted so far. The count begins anew, and the device stays as it is.
    fn take(&mut self) -> Tally
        ensures time { Self.time self.new ≡ Self.time self.old }
        ensures opened { Self.opened self.new ≡ Self.opened self.old };
}

/// A device that passes each call on to another one, and counts it. It tells its disk where that one does.
#[derive(Drop)]
pub struct Counting<D> {
    // the device that does the work: each call reaches it once, unchanged
    inner: D,
    // how many bytes a page of an index blob has in the blob
    page_bytes: u64,
    // so that each byte has its page
    ghost has_bytes: { 1 ≤ page_bytes },
    // what was counted since it was taken last
    tally: Tally,
    // what was counted before the last turn
    aside: Tally,
    // how long the blobs are: entered before each call that changes a length, and as an opening says it
    sizes: Sizes,
}

impl<D> Counting<D> {
    /// Counts the calls of this device from now on. A page of an index blob has so many bytes in the blob.
    pub fn new(alloc: Global, inner: D, page_bytes: u64) -> Counting<D>
        requires { 1 ≤ page_bytes }
        ensures { result.inner ≡ inner }
    {
        Counting {
            inner,
            page_bytes,
            tally: Tally::NONE,
            aside: Tally::NONE,
            sizes: Sizes::new(alloc),
        }
    }

    /// How long the blobs are that were opened.
    pub fn sizes(&self) -> &Sizes {
        &self.sizes
    }

    /// The device whose calls are counted.
    pub fn inner(&self) -> &D
        ensures { result.now ≡ self.now.inner }
    {
        &self.inner
    }

    // Counts the pages of an index blob into which a read of so many bytes reaches.
    fn count_pages(&mut self, partition: &str, offset: u64, len: u64)
        ensures { self.new.inner ≡ self.old.inner }
    {
        if partition == KEY_PARTITION {
            let behind = offset.saturating_add(len).div_ceil(self.page_bytes);
            let pages = behind.saturating_sub(offset / self.page_bytes);
            self.tally.index_pages = self.tally.index_pages.saturating_add(pages);
        }
    }
}

impl<D: Device> Phased for Counting<D> {
    fn turn(&mut self) {
        let tally = self.tally;
        self.tally = self.aside;
        self.aside = tally;
    }

    fn take(&mut self) -> Tally {
        let tally = self.tally;
        self.tally = Tally::NONE;
        tally
    }
}

// One more.
fn count(number: &mut u64) {
    *number = number.saturating_add(1);
}

// So many bytes more.
fn count_bytes(number: &mut u64, bytes: usize) {
    *number = number.saturating_add(bytes as u64);
}

impl<D: Device> Device for Counting<D> {
    ghost Tells = { D.Tells };

    ghost time = { λ c. D.time c.inner };

    ghost faults = { λ c. D.faults c.inner };

    ghost opened = { λ c. D.opened c.inner };

    ghost opened_stands = { λ told c k. D.opened_stands told c.inner k };

    ghost holds_bytes = { λ told c k. D.holds_bytes told c.inner k };

    ghost agrees = { λ told c k. D.agrees told c.inner k };

    ghost absent = { λ told c k. D.absent told c.inner k };

    ghost as_read = { λ told c k. D.as_read told c.inner k };

    fn scan(&mut self, alloc: Global, partition: &str) -> Result<Names, DevError> {
        count(&mut self.tally.at(partition).scans);
        self.inner.scan(alloc, partition)
    }

    fn open_blob(&mut self, partition: &str, name: &[u8]) -> Result<u64, DevError> {
        count(&mut self.tally.at(partition).opens);
        let opened = self.inner.open_blob(partition, name);
        self.sizes.enter_opened(partition, name, &opened);
        opened
    }

    fn read_at(
        &mut self,
        partition: &str,
        name: &[u8],
        offset: u64,
        buf: &mut [u8],
    ) -> Result<(), DevError> {
        let counts = self.tally.at(partition);
        count(&mut counts.reads);
        count_bytes(&mut counts.bytes_read, buf.len());
        self.count_pages(partition, offset, buf.len() as u64);
        self.inner.read_at(partition, name, offset, buf)
    }

    fn write_at(
        &mut self,
        partition: &str,
        name: &[u8],
        offset: u64,
        bytes: &[u8],
    ) -> Result<(), DevError> {
        let counts = self.tally.at(partition);
        count(&mut counts.writes);
        count_bytes(&mut counts.bytes_written, bytes.len());
        let end = offset.saturating_add(bytes.len() as u64);
        self.sizes.reach(partition, name, end);
        // Counted by now, so that a call which fails is counted too.
        self.inner.write_at(partition, name, offset, bytes)
    }

    fn resize(&mut self, partition: &str, name: &[u8], len: u64) -> Result<(), DevError> {
        count(&mut self.tally.at(partition).resizes);
        self.sizes.set(partition, name, len);
        // Counted by now, also where it fails.
        self.inner.resize(partition, name, len)
    }

    fn sync(&mut self, partition: &str, name: &[u8]) -> Result<(), DevError> {
        count(&mut self.tally.at(partition).syncs);
        // Counted by now, also where it fails.
        self.inner.sync(partition, name)
    }

    fn remove(&mut self, partition: &str, name: &[u8]) -> Result<(), DevError> {
        count(&mut self.tally.at(partition).removes);
        self.sizes.forget(partition, name);
        // Counted by now, also where it fails.
        self.inner.remove(partition, name)
    }

    fn calls(&self) -> u64 {
        self.inner.calls()
    }
}
