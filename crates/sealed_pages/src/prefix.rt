// How far a blob is sealed.
ghost use Rattle.std.specs.Prelude.{◌*◌, ◌≤◌, ◌<◌, ◌^◌};
ghost use Rattle.sealed_pages.specs.BlobReads.{Measures};
ghost use Rattle.sealed_pages.specs.Entries.{IsOpenAt};
ghost use Rattle.sealed_pages.specs.SlotNames.{opened_key};

use crate::open_blob::OpenBlob;
use crate::piece::Piece;
use crate::reading::page_count;
use crate::slot::covered_len;
use blob_device::{Device, RError};
use std::alloc::Global;
use std::ops::Range;
use value_codec::Seal;

/// The length of the sealed prefix of a blob, where the pages before these are taken as full, and those
/// behind them as empty. It reads pieces of about `buffer` bytes, of these pages alone, and each page at most
/// once.
pub fn prefix_len<D: Device, S: Seal>(
    alloc: Global,
    dev: &mut D,
    blob: &OpenBlob<'_>,
    among: Range<u64>,
    buffer: usize,
) -> Result<u64, RError>
    requires open { IsOpenAt (D.opened dev.old) (opened_key blob.now) blob.now.end }
    requires some { 1 ≤ blob.now.page_size }
    requires fits { among.start * blob.now.page_size < 2 ^ 64 }
    ensures { Measures D.Device S.seal_of blob.now.page_size (opened_key blob.now) dev.old dev.new
        blob.now.end among.start among.end result }
{
    let mut piece = Piece::new(alloc, blob.page_size, buffer)?;
    let pages = page_count(blob.page_size, blob.end).min(among.end);
    let mut page = among.start;
    'pages: while page < pages {
        piece.load(dev, blob, page, pages)?;
        let len = covered_len::<S>(blob.page_size, piece.page_bytes(page));
        if len < usize::from(blob.page_size) {
            return Ok(page * u64::from(blob.page_size) + len as u64);
        }
        page += 1;
    }
    Ok(page * u64::from(blob.page_size))
}
