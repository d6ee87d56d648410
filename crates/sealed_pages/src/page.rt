// One page of a flush: its new data bytes, and then a slot over all of them.
ghost use Rattle.std.specs.Prelude.{◌+◌, ◌≤◌, ◌<◌, ◌^◌, length};
ghost use Rattle.sealed_pages.specs.PageWrites.{WritesPage};
ghost use Rattle.sealed_pages.specs.View.{page_at};
ghost use Rattle.sealed_pages.specs.Entries.{IsOpenAt};
ghost use Rattle.sealed_pages.specs.SlotNames.{is_b, opened_key};

use crate::open_blob::OpenBlob;
use crate::slot::{SLOT_LEN, Slot, page_place, slot_of, slot_place};
use blob_device::{DevError, Device};
use value_codec::Seal;

/// Bytes from the beginning of a page on, of which the first may stand in the blob.
#[derive(Clone, Copy)]
pub struct Tip<'a> {
    /// The page with which they begin.
    pub first: u64,
    /// How many of them stand in the blob, less than a page.
    pub from: usize,
    /// The bytes.
    pub bytes: &'a [u8],
}

/// Writes the bytes of a page that do not stand in the blob, and then a slot over all of them. The answer is the blob's
/// physical end.
pub fn write_page<D: Device, S: Seal>(
    dev: &mut D,
    blob: &OpenBlob<'_>,
    tip: &Tip<'_>,
    slot: Slot,
) -> Result<u64, DevError>
    requires open { IsOpenAt (D.opened dev.old) (opened_key blob.now) blob.now.end }
    requires new { tip.now.from < length tip.now.bytes.now }
    requires size { length tip.now.bytes.now ≤ blob.now.page_size }
    requires room { page_at blob.now.page_size tip.now.first + (blob.now.page_size + 12) < 2 ^ 64 }
    ensures { WritesPage D.Device S.seal_of blob.now.page_size (opened_key blob.now) dev.old dev.new
        tip.now.first tip.now.from tip.now.bytes.now (is_b slot) result }
{
    let start = page_place(blob.page_size, tip.first);
    let chunk = &tip.bytes[tip.from..];
    // The data first: then the blob never has this slot over bytes that are not there.
    dev.write_at(blob.partition, blob.name, start + tip.from as u64, chunk)?;
    let sealed = slot_of::<S>(blob.page_size, tip.bytes);
    let place = slot_place(blob.page_size, tip.first, slot);
    // Into the slot that has not settled: where this write is torn, the other one covers what was synced.
    dev.write_at(blob.partition, blob.name, place, &sealed)?;
    Ok(blob.end.max(place + SLOT_LEN as u64))
}
