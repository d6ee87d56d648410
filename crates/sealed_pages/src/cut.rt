// The steps of a cut of a settled blob. After each of them the blob has settled again.
ghost use Rattle.std.specs.Prelude.{◌+◌, ◌≤◌, ◌<◌, ◌^◌, length, IsSome};
ghost use Rattle.sealed_pages.specs.Cuts.{CutsPages, CutsLater, AddsSlot, ClearsSlot, CutsInside, ReadsHead};
ghost use Rattle.sealed_pages.specs.View.{page_at};
ghost use Rattle.sealed_pages.specs.Entries.{IsOpenAt};
ghost use Rattle.sealed_pages.specs.SlotNames.{is_b, opened_key};

use crate::open_blob::OpenBlob;
use crate::slot::{
    BLANK_SLOT, SLOT_LEN, SLOTS_LEN, Slot, matching_len, page_place, slot_of, slot_place,
};
use blob_device::{DevError, Device, RError};
use std::alloc::Global;
use value_codec::Seal;

/// Cuts a blob where a page begins, and settles it.
pub fn cut_pages<D: Device, S: Seal>(
    dev: &mut D,
    blob: &OpenBlob<'_>,
    page: u64,
) -> Result<(), DevError>
    requires open { IsSome (D.opened dev.old (opened_key blob.now)) }
    requires some { 1 ≤ blob.now.page_size }
    requires room { page_at blob.now.page_size page < 2 ^ 64 }
    ensures { CutsPages D.Device S.seal_of blob.now.page_size (opened_key blob.now) dev.old dev.new
        page result }
{
    let place = page_place(blob.page_size, page);
    // Where a page begins, so that no slot has to change.
    dev.resize(blob.partition, blob.name, place)?;
    // At once: no crash may bring the pages back once others are written there.
    dev.sync(blob.partition, blob.name)?;
    Ok(())
}

/// Cuts the blob where a page begins and settles it, if it reaches further. The answer is its physical end.
pub fn cut_later<D: Device, S: Seal>(
    dev: &mut D,
    blob: &OpenBlob<'_>,
    page: u64,
) -> Result<u64, DevError>
    requires open { IsOpenAt (D.opened dev.old) (opened_key blob.now) blob.now.end }
    requires some { 1 ≤ blob.now.page_size }
    requires room { page_at blob.now.page_size page < 2 ^ 64 }
    ensures { CutsLater D.Device S.seal_of blob.now.page_size (opened_key blob.now) dev.old dev.new
        page result }
{
    let place = page_place(blob.page_size, page);
    if blob.end <= place {
        return Ok(blob.end);
    }
    // Only where the blob reaches further: else nothing is to be settled.
    cut_pages::<D, S>(dev, blob, page)?;
    Ok(place)
}

/// Writes a slot over these first bytes of the last page, beside the slot that covers it, and settles it. The answer is the
/// blob's physical end.
pub fn add_slot<D: Device, S: Seal>(
    dev: &mut D,
    blob: &OpenBlob<'_>,
    page: u64,
    bytes: &[u8],
    slot: Slot,
) -> Result<u64, DevError>
    requires open { IsOpenAt (D.opened dev.old) (opened_key blob.now) blob.now.end }
    requires some { 0 < length bytes.now }
    requires size { length bytes.now ≤ blob.now.page_size }
    requires room { page_at blob.now.page_size page + (blob.now.page_size + 12) < 2 ^ 64 }
    ensures { AddsSlot D.Device S.seal_of blob.now.page_size (opened_key blob.now) dev.old dev.new
        page bytes.now (is_b slot) result }
{
    let sealed = slot_of::<S>(blob.page_size, bytes);
    let place = slot_place(blob.page_size, page, slot);
    // Beside the old slot, which covers the page until this one has settled.
    dev.write_at(blob.partition, blob.name, place, &sealed)?;
    // Before the old slot is cleared: at every moment a settled slot covers what is kept.
    dev.sync(blob.partition, blob.name)?;
    Ok(blob.end.max(place + SLOT_LEN as u64))
}

/// Writes zeros over a slot of the last page, where the other one is to count, and settles them. The answer is the blob's
/// physical end.
pub fn clear_slot<D: Device, S: Seal>(
    dev: &mut D,
    blob: &OpenBlob<'_>,
    page: u64,
    slot: Slot,
) -> Result<u64, DevError>
    requires open { IsOpenAt (D.opened dev.old) (opened_key blob.now) blob.now.end }
    requires some { 1 ≤ blob.now.page_size }
    requires room { page_at blob.now.page_size page + (blob.now.page_size + 12) < 2 ^ 64 }
    ensures { ClearsSlot D.Device S.seal_of blob.now.page_size (opened_key blob.now) dev.old dev.new
        page (is_b slot) result }
{
    let place = slot_place(blob.page_size, page, slot);
    // Last, since the cut counts only now: of two slots that match the longer one does.
    dev.write_at(blob.partition, blob.name, place, &BLANK_SLOT)?;
    // Else a crash could bring back the old slot, and with it the bytes that were cut.
    dev.sync(blob.partition, blob.name)?;
    Ok(blob.end.max(place + SLOT_LEN as u64))
}

/// Cuts a page to these first bytes of it, which this slot covers, and what stands behind it. The answer is the blob's
/// physical end.
pub fn cut_inside<D: Device, S: Seal>(
    dev: &mut D,
    blob: &OpenBlob<'_>,
    page: u64,
    bytes: &[u8],
    slot: Slot,
) -> Result<u64, DevError>
    requires open { IsOpenAt (D.opened dev.old) (opened_key blob.now) blob.now.end }
    requires some { 0 < length bytes.now }
    requires size { length bytes.now < blob.now.page_size }
    requires next { page + 1 < 2 ^ 64 }
    requires room { page_at blob.now.page_size page + (blob.now.page_size + 12) < 2 ^ 64 }
    ensures { CutsInside D.Device S.seal_of blob.now.page_size (opened_key blob.now) dev.old dev.new
        page bytes.now (is_b slot) result }
{
    // Later pages first: behind a page that is not full they would not be sealed.
    let cut = cut_later::<D, S>(dev, blob, page + 1)?;
    let last = OpenBlob { end: cut, ..*blob };
    // Then the new slot, while the old one still covers the page.
    let both = add_slot::<D, S>(dev, &last, page, bytes, slot.other())?;
    let sealed = OpenBlob { end: both, ..*blob };
    // The old slot goes last, once the new one has settled.
    clear_slot::<D, S>(dev, &sealed, page, slot)
}

/// The first bytes of a page, and the slot of greater length that covers them.
#[derive(Drop)]
pub struct Head {
    /// The page's first bytes, as many as are kept (`ReadsHead.long`).
    pub bytes: Vec<u8>,
    /// The slot. At a tie it is A (`best_slot`).
    pub slot: Slot,
}

/// Reads the first `keep` bytes of a page, if a matching slot covers them.
pub fn read_head<D: Device, S: Seal>(
    alloc: Global,
    dev: &mut D,
    blob: &OpenBlob<'_>,
    page: u64,
    keep: usize,
) -> Result<Head, RError>
    requires open { IsOpenAt (D.opened dev.old) (opened_key blob.now) blob.now.end }
    requires some { 0 < keep }
    requires room { page_at blob.now.page_size page + (blob.now.page_size + 12) < 2 ^ 64 }
    ensures { ReadsHead D.Device S.seal_of blob.now.page_size (opened_key blob.now) dev.old dev.new
        blob.now.end page keep result }
{
    let place = page_place(blob.page_size, page);
    if blob.end <= place {
        return Err(RError::InvalidChecksum(page));
    }
    let unit = usize::from(blob.page_size) + SLOTS_LEN;
    let have = (blob.end - place).min(unit as u64) as usize;
    let mut whole = vec![in alloc; 0; have]?;
    let buf = whole.as_mut_slice();
    dev.read_at(blob.partition, blob.name, place, buf)?;
    let first_len = matching_len::<S>(blob.page_size, buf, Slot::A);
    let second_len = matching_len::<S>(blob.page_size, buf, Slot::B);
    if first_len.max(second_len) < keep {
        return Err(RError::InvalidChecksum(page));
    }
    let bytes = buf[..keep].to_vec(alloc)?;
    Ok(Head {
        bytes,
        slot: Slot::longer(first_len, second_len),
    })
}
