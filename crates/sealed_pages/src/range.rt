// Reading a range of bytes page by page. A page is read whole, with its slots, and its bytes are given only
// as far as one of its matching slots covers them.
ghost use Rattle.std.specs.Prelude.{◌≡◌, ◌+◌, ◌*◌, ◌≤◌, ◌<◌, ◌^◌, ◌⊎◌, ◌↔◌, Err, length, max, IfSome, IfNone, IsSome, OnOk, OnErr, ℕ};
ghost use Rattle.std.specs.Result.{IsErrOf};
ghost use Rattle.blob_device.specs.declared.runtime.RError.TheVariants.{BlobInsufficientLength, OffsetOverflow};
ghost use Rattle.sealed_pages.specs.BlobReads.{LearnsSize, ReadsPart, ReadsPages, ReadsOpened, ReadsLast};
ghost use Rattle.sealed_pages.specs.View.{page_at};
ghost use Rattle.sealed_pages.specs.Entries.{IsOpenAt};
ghost use Rattle.sealed_pages.specs.Reopening.{OpensAgain};
ghost use Rattle.sealed_pages.specs.Cached.{held_in, AreWhole};
ghost use Rattle.sealed_pages.specs.SlotNames.{opened_key};

use crate::cache::PageCache;
use crate::open_blob::OpenBlob;
use crate::reading::{LastPage, find_last, read_page};
use crate::slot::{SLOTS_LEN, covered_len};
use blob_device::{DevError, Device, RError};
use std::alloc::Global;
use value_codec::Seal;

// A page of at most so many bytes, slots and all, is read without memory for it: 1,024 bytes of data.
const STACK_PAGE: usize = 1024 + SLOTS_LEN;

/// An opened blob, and those of its pages that are held in memory.
#[derive(Clone, Copy)]
pub struct PageSource<'a> {
    /// The blob.
    pub blob: OpenBlob<'a>,
    /// The pages that are held. They are as in the blob (`AreCachedOf`).
    pub cache: &'a PageCache,
}

/// Where a byte stands: in which page, and behind how many bytes of it.
#[derive(Clone, Copy)]
pub struct PagePlace {
    /// The number of the page.
    pub page: u64,
    /// How many of its data bytes stand before.
    pub skip: usize,
}

/// Whether so many bytes from `offset` on stand within the first `size` bytes.
pub fn check_range(offset: u64, len: usize, size: u64) -> Result<(), RError>
    ensures fits { OnOk result (offset + len ≤ size) }
    ensures overflow { IsErrOf result OffsetOverflow ↔ (2 ^ 64 ≤ offset + len) }
    ensures short { IsErrOf result BlobInsufficientLength
        ↔ ((offset + len < 2 ^ 64) × (size < offset + len)) }
    ensures cause { OnErr result ((result ≡ Err RError.OffsetOverflow)
        ⊎ (result ≡ Err RError.BlobInsufficientLength)) }
{
    match offset.checked_add(len as u64) {
        None => Err(RError::OffsetOverflow),
        Some(end) => {
            if end > size {
                return Err(RError::BlobInsufficientLength);
            }
            Ok(())
        }
    }
}

/// Takes bytes of one page from the pages that are held, or reads them. `page_buf` takes a whole page.
pub fn read_part<D: Device, S: Seal>(
    dev: &mut D,
    source: &PageSource<'_>,
    place: PagePlace,
    out: &mut [u8],
    page_buf: &mut [u8],
) -> Result<(), RError>
    requires open { IsOpenAt (D.opened dev.old) (opened_key source.now.blob) source.now.blob.end }
    requires page_buf { length page_buf.old ≡ source.now.blob.page_size + 12 }
    requires room { page_at source.now.blob.page_size place.page + (source.now.blob.page_size + 12)
        < 2 ^ 64 }
    requires whole { AreWhole source.now.blob.page_size (held_in source.now.cache.now) }
    requires part { place.skip + length out.old ≤ source.now.blob.page_size }
    ensures { ReadsPart D.Device S.seal_of source.now.blob.page_size (opened_key source.now.blob)
        dev.old dev.new (held_in source.now.cache.now) place.page place.skip out.old out.new
        result }
{
    let PagePlace { page, skip } = place;
    let page_size = source.blob.page_size;
    if source.cache.has(page) {
        source.cache.copy_part(page_size, page, skip, out);
        return Ok(());
    }
    let have = read_page(dev, &source.blob, page, page_buf)?;
    let found = &page_buf[..have];
    let upto = skip + out.len();
    if covered_len::<S>(page_size, found) < upto {
        return Err(RError::InvalidChecksum(page));
    }
    out.copy_from_slice(&found[skip..upto]);
    Ok(())
}

/// Reads the bytes from `offset` on, page by page, of pages that are held or of the blob. `page_buf` takes a
/// whole page.
pub fn read_each<D: Device, S: Seal>(
    dev: &mut D,
    source: &PageSource<'_>,
    offset: u64,
    out: &mut [u8],
    page_buf: &mut [u8],
) -> Result<(), RError>
    requires open { IsOpenAt (D.opened dev.old) (opened_key source.now.blob) source.now.blob.end }
    requires page_buf { length page_buf.old ≡ source.now.blob.page_size + 12 }
    requires some { 1 ≤ source.now.blob.page_size }
    requires room { (k : ℕ) → k * source.now.blob.page_size < offset + length out.old
        → page_at source.now.blob.page_size k + (source.now.blob.page_size + 12) < 2 ^ 64 }
    requires whole { AreWhole source.now.blob.page_size (held_in source.now.cache.now) }
    ensures { ReadsPages D.Device S.seal_of source.now.blob.page_size (opened_key source.now.blob)
        dev.old dev.new (held_in source.now.cache.now) offset out.old out.new result }
{
    let size = usize::from(source.blob.page_size);
    let mut page = offset / u64::from(source.blob.page_size);
    let mut skip = (offset % u64::from(source.blob.page_size)) as usize;
    let mut at = 0;
    'pages: while at < out.len() {
        let n = (out.len() - at).min(size - skip);
        let part = &mut out[at..at + n];
        read_part::<D, S>(dev, source, PagePlace { page, skip }, part, page_buf)?;
        at += n;
        skip = 0;
        page += 1;
    }
    Ok(())
}

/// Reads the bytes from `offset` on, of pages that are held or of the blob. No bytes need no memory and no
/// call of the device.
pub fn read_pages<D: Device, S: Seal>(
    alloc: Global,
    dev: &mut D,
    source: &PageSource<'_>,
    offset: u64,
    out: &mut [u8],
) -> Result<(), RError>
    requires open { IsOpenAt (D.opened dev.old) (opened_key source.now.blob) source.now.blob.end }
    requires some { 1 ≤ source.now.blob.page_size }
    requires room { (k : ℕ) → k * source.now.blob.page_size < offset + length out.old
        → page_at source.now.blob.page_size k + (source.now.blob.page_size + 12) < 2 ^ 64 }
    requires whole { AreWhole source.now.blob.page_size (held_in source.now.cache.now) }
    ensures { ReadsPages D.Device S.seal_of source.now.blob.page_size (opened_key source.now.blob)
        dev.old dev.new (held_in source.now.cache.now) offset out.old out.new result }
{
    if out.is_empty() {
        return Ok(());
    }
    let unit = usize::from(source.blob.page_size) + SLOTS_LEN;
    if unit <= STACK_PAGE {
        let mut room = [0; STACK_PAGE];
        return read_each::<D, S>(dev, source, offset, out, &mut room[..unit]);
    }
    let mut page_buf = vec![in alloc; 0; unit]?;
    read_each::<D, S>(dev, source, offset, out, page_buf.as_mut_slice())
}

/// The size that the last page with a matching slot gives a blob; 0 with no such page.
fn found_size(page_size: u16, found: &Option<LastPage>) -> u64
    requires { IfSome found.now (λ p. (page_at page_size p.page < 2 ^ 64)
        × (p.first_len ≤ page_size) × (p.second_len ≤ page_size)) }
    ensures some { IfSome found.now
        (λ p. result ≡ p.page * page_size + max p.first_len p.second_len) }
    ensures none { IfNone found.now (result ≡ 0) }
{
    match found {
        Some(last) => {
            last.page * u64::from(page_size) + last.first_len.max(last.second_len) as u64
        }
        None => 0,
    }
}

/// The size at which an opened blob would be adopted.
pub fn adopted_len<D: Device, S: Seal>(
    alloc: Global,
    dev: &mut D,
    blob: &OpenBlob<'_>,
) -> Result<u64, RError>
    requires { IsOpenAt (D.opened dev.old) (opened_key blob.now) blob.now.end }
    ensures { LearnsSize D.Device S.seal_of blob.now.page_size (opened_key blob.now)
        dev.old dev.new result }
{
    let unit = usize::from(blob.page_size) + SLOTS_LEN;
    let mut bytes = vec![in alloc; 0; unit]?;
    let buf = bytes.as_mut_slice();
    let found = find_last::<D, S>(dev, blob, buf)?;
    Ok(found_size(blob.page_size, &found))
}

/// Opens an opened blob again. The answer is its length.
pub fn open_again<D: Device>(dev: &mut D, partition: &str, name: &[u8]) -> Result<u64, DevError>
    requires { IsSome (D.opened dev.old (partition.now, name.now)) }
    ensures { OpensAgain D.Device (partition.now, name.now) dev.old dev.new result }
{
    // Nothing else tells the length of a blob that has no buffer.
    dev.open_blob(partition, name)
}

/// Reads the bytes from `offset` on of an opened blob, below the size at which it would be adopted.
pub fn read_opened<D: Device, S: Seal>(
    alloc: Global,
    dev: &mut D,
    blob: &OpenBlob<'_>,
    offset: u64,
    buf: &mut [u8],
) -> Result<(), RError>
    requires open { IsOpenAt (D.opened dev.old) (opened_key blob.now) blob.now.end }
    requires some { 1 ≤ blob.now.page_size }
    requires fits { offset + length buf.old < 2 ^ 64 }
    ensures { ReadsOpened D.Device S.seal_of blob.now.page_size (opened_key blob.now)
        dev.old dev.new offset buf.old buf.new result }
{
    let size = adopted_len::<D, S>(alloc, dev, blob)?;
    check_range(offset, buf.len(), size)?;
    let none = PageCache::new(0);
    let source = PageSource {
        blob: *blob,
        cache: &none,
    };
    read_pages::<D, S>(alloc, dev, &source, offset, buf)
}

/// Reads the last bytes of an opened blob. The answer is the size at which it would be adopted.
pub fn read_last<D: Device, S: Seal>(
    alloc: Global,
    dev: &mut D,
    blob: &OpenBlob<'_>,
    buf: &mut [u8],
) -> Result<u64, RError>
    requires open { IsOpenAt (D.opened dev.old) (opened_key blob.now) blob.now.end }
    requires some { 1 ≤ blob.now.page_size }
    ensures { ReadsLast D.Device S.seal_of blob.now.page_size (opened_key blob.now)
        dev.old dev.new buf.old buf.new result }
{
    let size = adopted_len::<D, S>(alloc, dev, blob)?;
    let len = buf.len() as u64;
    if size < len {
        return Err(RError::BlobInsufficientLength);
    }
    let none = PageCache::new(0);
    let source = PageSource {
        blob: *blob,
        cache: &none,
    };
    read_pages::<D, S>(alloc, dev, &source, size - len, buf)?;
    Ok(size)
}
