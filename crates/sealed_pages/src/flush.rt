// All pages of a flush.
ghost use Rattle.std.specs.Prelude.{◌≡◌, ◌+◌, ◌*◌, ◌≤◌, ◌<◌, ◌^◌, length, ℕ};
ghost use Rattle.sealed_pages.specs.PageWrites.{WritesPages};
ghost use Rattle.sealed_pages.specs.View.{page_at};
ghost use Rattle.sealed_pages.specs.Flushing.{next_slot};
ghost use Rattle.sealed_pages.specs.Entries.{IsOpenAt};
ghost use Rattle.sealed_pages.specs.SlotNames.{is_b, opened_key};

use crate::open_blob::OpenBlob;
use crate::page::{Tip, write_page};
use crate::slot::Slot;
use blob_device::{DevError, Device};
use value_codec::Seal;

/// How far a buffer has settled.
#[derive(Clone, Copy)]
pub struct Settled {
    /// How many data bytes have, from the first on.
    pub len: u64,
    /// The slot that covers the page in which they end.
    pub slot: Slot,
}

/// The slot that a flush writes on a page: the one that is not settled, and slot A where none is.
pub fn next_slot_of(page_size: u16, page: u64, settled: Settled) -> Slot
    requires { page_at page_size page + (page_size + 12) < 2 ^ 64 }
    ensures { is_b result ≡ next_slot page_size settled.len (is_b settled.slot) page }
{
    if page * u64::from(page_size) < settled.len {
        settled.slot.other()
    } else {
        Slot::A
    }
}

/// Writes the bytes of a tip that do not stand in the blob, page by page. The answer is the blob's physical end.
pub fn flush_pages<D: Device, S: Seal>(
    dev: &mut D,
    blob: &OpenBlob<'_>,
    tip: &Tip<'_>,
    settled: Settled,
) -> Result<u64, DevError>
    requires open { IsOpenAt (D.opened dev.old) (opened_key blob.now) blob.now.end }
    requires begin { tip.now.from < blob.now.page_size }
    requires within { tip.now.from ≤ length tip.now.bytes.now }
    requires room { (k : ℕ)
        → k * blob.now.page_size < tip.now.first * blob.now.page_size + length tip.now.bytes.now
        → page_at blob.now.page_size k + (blob.now.page_size + 12) < 2 ^ 64 }
    ensures { WritesPages D.Device S.seal_of blob.now.page_size (opened_key blob.now) dev.old
        dev.new tip.now.first tip.now.from tip.now.bytes.now settled.len (is_b settled.slot)
        result }
{
    if tip.from >= tip.bytes.len() {
        return Ok(blob.end);
    }
    let size = usize::from(blob.page_size);
    let mut at = 0;
    let mut from = tip.from;
    let mut page = tip.first;
    let mut reach = blob.end;
    'pages: while at < tip.bytes.len() {
        let n = (tip.bytes.len() - at).min(size);
        let here = OpenBlob {
            end: reach,
            ..*blob
        };
        let part = Tip {
            first: page,
            from,
            bytes: &tip.bytes[at..at + n],
        };
        // In order, so that a call that fails leaves the pages before it whole.
        reach = write_page::<D, S>(
            dev,
            &here,
            &part,
            next_slot_of(blob.page_size, page, settled),
        )?;
        at += n;
        from = 0;
        page += 1;
    }
    Ok(reach)
}
