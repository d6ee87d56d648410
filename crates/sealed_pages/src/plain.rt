//! A plain, slow reading of sealed pages: how far given bytes are sealed, and the size at which a blob of
//! them is adopted.
//!
//! It looks at all the bytes at once, and keeps nothing from page to page. The buffers are compared with it,
//! so it shares nothing with them: a slot is a `bool` here, true for slot B, and no `Slot` of theirs.
ghost use Rattle.std.specs.Prelude.{◌≡◌, ◌+◌, ◌*◌, ◌<◌, ◌/◌, if◌then◌else◌, IfOk};
ghost use Rattle.sealed_pages.specs.Slots.{slot_length, page_length};
ghost use Rattle.sealed_pages.specs.SealedPrefix.{sealed_prefix, adopted_size, pages_in};

use std::alloc::{AllocError, Global};
use value_codec::Seal;

/// Where a slot begins within its page.
fn slot_start(page_size: u16, second: bool) -> usize
    ensures { result ≡ page_size + (if second then 6 else 0) }
{
    usize::from(page_size) + if second { 6 } else { 0 }
}

/// The length of a slot that matches, else 0.
///
/// The slot is found among all the bytes, and its numbers are spelled out byte by byte: nothing is shared
/// with the buffers.
pub fn slot_len<S: Seal>(page_size: u16, bytes: &[u8], page: usize, second: bool) -> usize
    requires { page < pages_in page_size bytes.now }
    ensures { result ≡ slot_length S.seal_of page_size bytes.now page second }
{
    let size = usize::from(page_size);
    let start = page * (size + 12);
    let at = start + slot_start(page_size, second);
    if bytes.len() < at + 6 {
        return 0;
    }
    let len = usize::from(bytes[at]) * 256 + usize::from(bytes[at + 1]);
    if len > size {
        return 0;
    }
    let high = u32::from(bytes[at + 2]) * 256 + u32::from(bytes[at + 3]);
    let low = u32::from(bytes[at + 4]) * 256 + u32::from(bytes[at + 5]);
    let seal = S::seal2(&bytes[at..at + 2], &bytes[start..start + len]);
    if seal != high * 65536 + low {
        return 0;
    }
    len
}

/// How far a page is sealed: the greater length of its matching slots, or 0.
pub fn page_len<S: Seal>(page_size: u16, bytes: &[u8], page: usize) -> usize
    requires { page < pages_in page_size bytes.now }
    ensures { result ≡ page_length S.seal_of page_size bytes.now page }
{
    let first = slot_len::<S>(page_size, bytes, page, false);
    first.max(slot_len::<S>(page_size, bytes, page, true))
}

/// A number of pages such that no page from there on has a byte.
pub fn page_count(page_size: u16, bytes: &[u8]) -> usize
    ensures { result ≡ pages_in page_size bytes.now }
{
    bytes.len() / (usize::from(page_size) + 12) + 1
}

/// The data of the pages up to the first that is not full by a matching slot, and as much of that page as one
/// covers.
pub fn sealed_prefix<S: Seal>(
    alloc: Global,
    page_size: u16,
    bytes: &[u8],
) -> Result<Vec<u8>, AllocError>
    ensures { IfOk result (λ v. v.items ≡ sealed_prefix S.seal_of page_size bytes.now) }
{
    let size = usize::from(page_size);
    let mut prefix = Vec::new(alloc);
    let count = page_count(page_size, bytes);
    'pages: for page in 0..count {
        let len = page_len::<S>(page_size, bytes, page);
        let start = page * (size + 12);
        let part = &bytes[start..start + len];
        prefix.extend_from_slice(part)?;
        if len < size {
            return Ok(prefix);
        }
    }
    Ok(prefix)
}

/// The start plus the length of the last page with a matching slot, or 0 where there is none.
pub fn adopted_size<S: Seal>(page_size: u16, bytes: &[u8]) -> u64
    ensures { result ≡ adopted_size S.seal_of page_size bytes.now }
{
    let mut page = page_count(page_size, bytes);
    'back: while page > 0 {
        page -= 1;
        let len = page_len::<S>(page_size, bytes, page);
        if len > 0 {
            return (page * usize::from(page_size) + len) as u64;
        }
    }
    0
}
