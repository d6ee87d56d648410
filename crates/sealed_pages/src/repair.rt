// What the first flush after adopting removes before the first data byte is written: bytes behind the last page with a
// matching slot, and a torn slot beside the one that covers this page. Else new bytes could make old ones match again.
ghost use Rattle.std.specs.Prelude.{◌≡◌, ◌+◌, ◌*◌, ◌≤◌, ◌<◌, ◌^◌, not, true, ℕ};
ghost use Rattle.sealed_pages.specs.Removals.{CutsBehind, ClearsTorn, Removes};
ghost use Rattle.sealed_pages.specs.View.{page_at};
ghost use Rattle.sealed_pages.specs.Buffer.{pages_of};
ghost use Rattle.sealed_pages.specs.Entries.{IsOpenAt};
ghost use Rattle.sealed_pages.specs.SlotNames.{is_b, opened_key};

use crate::open_blob::OpenBlob;
use crate::slot::{BLANK_SLOT, SLOT_LEN, Slot, page_place, slot_place};
use crate::start::Start;
use blob_device::{DevError, Device};
use value_codec::Seal;

/// How many pages begin below the end of the flushed bytes.
pub fn pages_below(first: u64, from: usize) -> u64
    requires { 0 < from → first + 1 < 2 ^ 64 }
    ensures { result ≡ pages_of first from }
{
    if from == 0 { first } else { first + 1 }
}

/// Cuts what stands behind this many pages, if something does. The answer is the blob's physical end.
pub fn cut_behind<D: Device, S: Seal>(
    dev: &mut D,
    blob: &OpenBlob<'_>,
    pages: u64,
    behind: bool,
) -> Result<u64, DevError>
    requires open { IsOpenAt (D.opened dev.old) (opened_key blob.now) blob.now.end }
    requires room { page_at blob.now.page_size pages < 2 ^ 64 }
    requires some { 1 ≤ blob.now.page_size }
    ensures { CutsBehind D.Device S.seal_of blob.now.page_size (opened_key blob.now) dev.old dev.new
        pages behind result }
{
    if !behind {
        return Ok(blob.end);
    }
    let place = page_place(blob.page_size, pages);
    // Before new data: a slot that stands behind could match again over it.
    dev.resize(blob.partition, blob.name, place)?;
    Ok(place)
}

/// Writes six zeros over a slot of a page, if it is torn. The answer is the blob's physical end.
pub fn clear_torn<D: Device, S: Seal>(
    dev: &mut D,
    blob: &OpenBlob<'_>,
    page: u64,
    slot: Slot,
    torn: bool,
) -> Result<u64, DevError>
    requires open { IsOpenAt (D.opened dev.old) (opened_key blob.now) blob.now.end }
    requires some { 1 ≤ blob.now.page_size }
    requires room { torn ≡ true
        → page_at blob.now.page_size page + (blob.now.page_size + 12) < 2 ^ 64 }
    ensures { ClearsTorn D.Device S.seal_of blob.now.page_size (opened_key blob.now) dev.old dev.new
        page (is_b slot) torn result }
{
    if !torn {
        return Ok(blob.end);
    }
    let place = slot_place(blob.page_size, page, slot);
    // Before new data: over more bytes of its page the torn slot could come to match.
    dev.write_at(blob.partition, blob.name, place, &BLANK_SLOT)?;
    Ok(blob.end.max(place + SLOT_LEN as u64))
}

/// Removes what a crash left, as the buffer's start says, and settles the blob. The answer is its physical end.
pub fn repair<D: Device, S: Seal>(
    dev: &mut D,
    blob: &OpenBlob<'_>,
    start: &Start,
) -> Result<u64, DevError>
    requires open { IsOpenAt (D.opened dev.old) (opened_key blob.now) blob.now.end }
    requires begin { start.now.from < blob.now.page_size }
    requires room { (k : ℕ)
        → k * blob.now.page_size < start.now.first * blob.now.page_size + start.now.from
        → page_at blob.now.page_size k + (blob.now.page_size + 12) < 2 ^ 64 }
    requires inside { start.now.torn ≡ true → 0 < start.now.from }
    ensures { Removes D.Device S.seal_of blob.now.page_size (opened_key blob.now) dev.old dev.new
        start.now.first start.now.from (is_b start.now.newest) start.now.behind start.now.torn
        result }
{
    let pages = pages_below(start.first, start.from);
    // The cut first, so that the page of the torn slot is the last one.
    let cut = cut_behind::<D, S>(dev, blob, pages, start.behind)?;
    let last = OpenBlob { end: cut, ..*blob };
    let slot = start.newest.other();
    // Then the torn slot: its page is the last one now.
    let reach = clear_torn::<D, S>(dev, &last, start.first, slot, start.torn)?;
    // Settled before a data byte is written: no crash brings the leftovers back beside new bytes.
    dev.sync(blob.partition, blob.name)?;
    Ok(reach)
}
