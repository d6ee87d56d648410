// Some pages of a blob that follow one another, read at once and held in memory.
ghost use Rattle.std.specs.Prelude.{◌≡◌, ◌+◌, ◌-◌, ◌*◌, ◌≤◌, ◌<◌, ◌^◌, ◌↔◌, length, IfOk, IsTrue, ℕ, List};
ghost use Rattle.sealed_pages.specs.View.{page_at};
ghost use Rattle.sealed_pages.specs.Reading.{page_of};
ghost use Rattle.sealed_pages.specs.Entries.{IsOpenAt};
ghost use Rattle.sealed_pages.specs.SlotNames.{opened_key};

use crate::open_blob::OpenBlob;
use crate::reading::read_prefix;
use crate::slot::{SLOTS_LEN, page_place};
use blob_device::{DevError, Device};
use std::alloc::{AllocError, Global};

/// Pages from `page` on, `count` of them; no page where it is 0.
#[derive(Drop)]
pub struct Piece {
    /// The data bytes of a page.
    page_size: u16,
    /// How many whole pages there is room for, slots counted.
    room: u64,
    /// That room. Only the first `have` bytes are the blob's.
    bytes: Vec<u8>,
    /// How many bytes are the blob's. The last page may end with the blob.
    have: usize,
    /// The number of the first page.
    page: u64,
    /// How many pages there are (`HasPage`); they are as in the blob (`IsPieceOf`).
    count: u64,
    // The room is of whole pages.
    ghost wide: { room * (page_size + 12) ≡ length bytes.items },
    // There is room for a page.
    ghost some: { 1 ≤ room },
    // What was read fits the room.
    ghost within: { have ≤ length bytes.items },
    // So do the pages.
    ghost fits: { count ≤ room },
}

impl Piece {
    ghost use Rattle.sealed_pages.specs.Pieces.{held_of, HasPage, IsPieceOf};
    ghost use Rattle.sealed_pages.specs.BlobReads.{ReadsPiece, LoadsPiece};

    /// Room for about so many bytes, and for one page at least. It holds no page.
    pub fn new(alloc: Global, page_size: u16, buffer: usize) -> Result<Piece, AllocError>
        ensures page_size { IfOk result (λ p. p.page_size ≡ page_size) }
        ensures empty { IfOk result (λ p. (c : List ℕ) → IsPieceOf c p) }
    {
        let unit = usize::from(page_size) + SLOTS_LEN;
        let room = (buffer / unit).max(1);
        let bytes = vec![in alloc; 0; room * unit]?;
        Ok(Piece {
            page_size,
            room: room as u64,
            bytes,
            have: 0,
            page: 0,
            count: 0,
        })
    }

    /// Whether the page is held.
    pub fn has(&self, page: u64) -> bool
        ensures { IsTrue result ↔ HasPage self.now page }
    {
        page >= self.page && page - self.page < self.count
    }

    // Reads the page, and as many behind it as there is room for, up to the page `upto`. After an error it
    // holds none.
    fn read<D: Device>(
        &mut self,
        dev: &mut D,
        blob: &OpenBlob<'_>,
        page: u64,
        upto: u64,
    ) -> Result<(), DevError>
        requires open { IsOpenAt (D.opened dev.old) (opened_key blob.now) blob.now.end }
        requires place { page_at self.old.page_size page < 2 ^ 64 }
        requires some { page < upto }
        ensures { ReadsPiece D.Device (opened_key blob.now) dev.old dev.new self.old self.new page
            result }
    {
        self.count = 0;
        let count = self.room.min(upto - page);
        let unit = usize::from(self.page_size) + SLOTS_LEN;
        let place = page_place(self.page_size, page);
        let most = count as usize * unit;
        let buf = self.bytes.as_mut_slice();
        self.have = read_prefix(dev, blob, place, most, buf)?;
        self.page = page;
        self.count = count;
        Ok(())
    }

    /// Reads the page, and as many behind it as there is room for, up to the page `upto`, where this piece
    /// does not have it. After an error it may hold none.
    pub fn load<D: Device>(
        &mut self,
        dev: &mut D,
        blob: &OpenBlob<'_>,
        page: u64,
        upto: u64,
    ) -> Result<(), DevError>
        requires open { IsOpenAt (D.opened dev.old) (opened_key blob.now) blob.now.end }
        requires place { page_at self.old.page_size page < 2 ^ 64 }
        requires some { page < upto }
        ensures { LoadsPiece D.Device (opened_key blob.now) dev.old dev.new self.old self.new page
            result }
    {
        if self.has(page) {
            return Ok(());
        }
        self.read(dev, blob, page, upto)
    }

    /// The bytes of a page that stand below the blob's end.
    pub fn page_bytes(&self, page: u64) -> &[u8]
        requires { HasPage self.now page }
        ensures { result.now
            ≡ page_of self.now.page_size (held_of self.now) (page - self.now.page) }
    {
        let unit = usize::from(self.page_size) + SLOTS_LEN;
        let held = &self.bytes[..self.have];
        let from = ((page - self.page) as usize * unit).min(held.len());
        let rest = &held[from..];
        &rest[..unit.min(rest.len())]
    }
}
