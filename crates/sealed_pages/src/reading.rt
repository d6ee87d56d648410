// Reading pages of an opened blob, and finding the last one with a matching slot.
ghost use Rattle.std.specs.Prelude.{◌≡◌, ◌+◌, ◌≤◌, ◌<◌, ◌^◌, ◌/◌, length, ℕ, List};
ghost use Rattle.sealed_pages.specs.BlobReads.{ReadsSpan, ReadsPage, FindsLast};
ghost use Rattle.sealed_pages.specs.View.{page_at};
ghost use Rattle.sealed_pages.specs.Slots.{page_length};
ghost use Rattle.sealed_pages.specs.Entries.{IsOpenAt};
ghost use Rattle.sealed_pages.specs.SlotNames.{opened_key};

use crate::open_blob::OpenBlob;
use crate::slot::{SLOTS_LEN, Slot, matching_len, page_place};
use blob_device::{DevError, Device};
use value_codec::Seal;

/// Reads the bytes from `place` on that stand below the blob's end, as many as fit into `buf`. The answer is
/// how many there are.
pub fn read_span<D: Device>(
    dev: &mut D,
    blob: &OpenBlob<'_>,
    place: u64,
    buf: &mut [u8],
) -> Result<usize, DevError>
    requires { IsOpenAt (D.opened dev.old) (opened_key blob.now) blob.now.end }
    ensures { ReadsSpan D.Device (opened_key blob.now) dev.old dev.new place (length buf.old)
        buf.new result }
{
    if place >= blob.end {
        return Ok(0);
    }
    let have = (blob.end - place).min(buf.len() as u64) as usize;
    let part = &mut buf[..have];
    dev.read_at(blob.partition, blob.name, place, part)?;
    Ok(have)
}

/// As [`read_span`], for so many bytes at most.
pub fn read_prefix<D: Device>(
    dev: &mut D,
    blob: &OpenBlob<'_>,
    place: u64,
    most: usize,
    buf: &mut [u8],
) -> Result<usize, DevError>
    requires open { IsOpenAt (D.opened dev.old) (opened_key blob.now) blob.now.end }
    requires fits { most ≤ length buf.old }
    ensures { ReadsSpan D.Device (opened_key blob.now) dev.old dev.new place most buf.new result }
{
    let part = &mut buf[..most];
    read_span(dev, blob, place, part)
}

/// Reads the bytes of a page that stand below the blob's end. The answer is how many there are.
pub fn read_page<D: Device>(
    dev: &mut D,
    blob: &OpenBlob<'_>,
    page: u64,
    buf: &mut [u8],
) -> Result<usize, DevError>
    requires open { IsOpenAt (D.opened dev.old) (opened_key blob.now) blob.now.end }
    requires buf { length buf.old ≡ blob.now.page_size + 12 }
    requires room { page_at blob.now.page_size page < 2 ^ 64 }
    ensures { ReadsPage D.Device (opened_key blob.now) dev.old dev.new blob.now.page_size page
        buf.new result }
{
    let place = page_place(blob.page_size, page);
    read_span(dev, blob, place, buf)
}

/// A number of pages such that none from there on has a matching slot in a blob that ends at `end`. All of
/// them have their places below 2^64.
pub fn page_count(page_size: u16, end: u64) -> u64
    ensures fits { page_at page_size result < 2 ^ 64 }
    ensures within { result ≤ end / (page_size + 12) + 1 }
    ensures none { (seal : List ℕ → ℕ) (c : List ℕ) → length c ≡ end → (k : ℕ) → result ≤ k
        → page_length seal page_size c k ≡ 0 }
{
    let unit = u64::from(page_size) + SLOTS_LEN as u64;
    (end / unit + 1).min(u64::MAX / unit)
}

/// The last page with a matching slot: its number, the lengths of its slots, and how many of its bytes stand
/// below the end.
#[derive(Clone, Copy)]
pub struct LastPage {
    /// Its number.
    pub page: u64,
    /// How many data bytes slot A covers; 0 where it does not match.
    pub first_len: usize,
    /// The same of slot B. One of the two is greater than 0.
    pub second_len: usize,
    /// How many of its bytes stand below the blob's end, slots counted.
    pub have: usize,
}

/// Goes back from the last page to the last one with a matching slot. Its bytes are then in `buf`.
pub fn find_last<D: Device, S: Seal>(
    dev: &mut D,
    blob: &OpenBlob<'_>,
    buf: &mut [u8],
) -> Result<Option<LastPage>, DevError>
    requires open { IsOpenAt (D.opened dev.old) (opened_key blob.now) blob.now.end }
    requires buf { length buf.old ≡ blob.now.page_size + 12 }
    ensures { FindsLast D.Device S.seal_of blob.now.page_size (opened_key blob.now) dev.old dev.new
        blob.now.end buf.new result }
{
    let mut page = page_count(blob.page_size, blob.end);
    'back: while page > 0 {
        page -= 1;
        let have = read_page(dev, blob, page, buf)?;
        let first_len = matching_len::<S>(blob.page_size, &buf[..have], Slot::A);
        let second_len = matching_len::<S>(blob.page_size, &buf[..have], Slot::B);
        if first_len.max(second_len) > 0 {
            return Ok(Some(LastPage {
                page,
                first_len,
                second_len,
                have,
            }));
        }
    }
    Ok(None)
}
