// Reading a sealed blob from a position on, in pieces.
ghost use Rattle.std.specs.Prelude.{◌≡◌, ◌+◌, ◌*◌, ◌-◌, ◌/◌, ◌%◌, ◌≤◌, ◌<◌, ◌^◌, ◌↔◌, Ok, Err, min, length, drop, [], OnOk, OnErr, ℕ, List};
ghost use Rattle.std.specs.Result.{IsErrOf};
ghost use Rattle.blob_device.specs.declared.runtime.RError.TheVariants.{BlobInsufficientLength};
ghost use Rattle.sealed_pages.specs.Buffer.{extent};
ghost use Rattle.sealed_pages.specs.Entries.{IsOpenAt};
ghost use Rattle.sealed_pages.specs.SlotNames.{opened_key};

use crate::open_blob::OpenBlob;
use crate::page_blob::drop_prefix;
use crate::piece::Piece;
use crate::slot::covered_len;
use blob_device::{Device, RError};
use std::alloc::Global;
use std::marker::PhantomData;
use value_codec::Seal;

/// Reads a blob whose bytes are all flushed, from a position on.
///
/// A condition of its calls is that the blob was not changed since it was made. Each page is checked before
/// its bytes are given, and judged only as far as bytes of it are wanted.
#[derive(Drop)]
pub struct PageReplay<S: Seal> {
    /// The partition of the blob.
    partition: String,
    /// The blob's name.
    name: Vec<u8>,
    /// The data bytes of a page.
    page_size: u16,
    /// Where the blob ends, in bytes of the blob. The opened list has it (`IsOpenAt`).
    end: u64,
    /// How many data bytes there are.
    size: u64,
    /// The position: how many data bytes stand before those at hand.
    at: u64,
    /// Bytes that were checked: those passed by, and behind them those at hand (`IsReplayOf.covered`).
    held: Vec<u8>,
    /// How many of these were passed by.
    used: usize,
    /// The pages that were read last (`IsReplayOf.piece`).
    piece: Piece,
    /// The bytes of a last page that is not full, which the buffer has in memory (`IsReplayOf.tip`).
    tip: Vec<u8>,
    /// The kind of seal; no data.
    seal: PhantomData<S>,
    // No more was passed by than was checked.
    ghost taken: { used ≤ length held.items },
    // What is at hand ends within the data.
    ghost inside: { at + (length held.items - used) ≤ size },
    // A page has a byte.
    ghost some: { 1 ≤ page_size },
    // All pages with their slots end below 2^64.
    ghost room: { extent page_size size < 2 ^ 64 },
    // The tip is what is left behind the full pages.
    ghost tip_long: { length tip.items ≡ size % page_size },
    // The pages that were read are cut as those of the blob.
    ghost same_pages: { piece.page_size ≡ page_size },
}

impl<S: Seal> PageReplay<S> {
    ghost use Rattle.sealed_pages.specs.Replays.{Begins, Ensures, Fetches};
    ghost use Rattle.sealed_pages.specs.Readers.{reading, next_of, IsReplayOf, SameReader};

    /// A reader from 0 over a blob that has `size` bytes in pages. It reads full pages, in pieces of about
    /// `buffer` bytes. The bytes behind them are the tip.
    pub(crate) fn new(
        alloc: Global,
        blob: &OpenBlob<'_>,
        size: u64,
        buffer: usize,
        tip: Vec<u8>,
    ) -> Result<PageReplay<S>, RError>
        requires some { 1 ≤ blob.now.page_size }
        requires room { extent blob.now.page_size size < 2 ^ 64 }
        requires tip { length tip.items ≡ size % blob.now.page_size }
        ensures { Begins S.seal_of reading (opened_key blob.now) blob.now.page_size blob.now.end
            size tip.items result }
    {
        let partition = String::from_str(alloc, blob.partition)?;
        let name = blob.name.to_vec(alloc)?;
        let piece = Piece::new(alloc, blob.page_size, buffer)?;
        Ok(PageReplay {
            partition,
            name,
            page_size: blob.page_size,
            end: blob.end,
            size,
            at: 0,
            held: Vec::new(alloc),
            used: 0,
            piece,
            tip,
            seal: PhantomData,
        })
    }

    /// The bytes at hand, from the position on.
    pub fn bytes(&self) -> &[u8]
        ensures { result.now ≡ (reading self.now).bytes }
    {
        &self.held[self.used..]
    }

    /// How many bytes are at hand.
    pub fn remaining(&self) -> usize
        ensures { result ≡ length (reading self.now).bytes }
    {
        self.held.len() - self.used
    }

    /// How many bytes the blob has.
    pub fn blob_size(&self) -> u64
        ensures { result ≡ (reading self.now).size }
    {
        self.size
    }

    /// Goes n bytes on, all of them at hand.
    pub fn advance(&mut self, n: usize)
        requires { n ≤ length (reading self.old).bytes }
        ensures goes { reading self.new ≡ record (reading self.old)
            { at = (reading self.old).at + n; bytes = drop n (reading self.old).bytes } }
        ensures replays { (content : List ℕ) → IsReplayOf S.seal_of content (reading self.old)
            → IsReplayOf S.seal_of content (reading self.new) }
    {
        self.at += n as u64;
        self.used += n;
    }

    /// Goes to this position; no bytes are at hand there. After an error the reader is as before.
    pub fn seek_to(&mut self, offset: u64) -> Result<(), RError>
        ensures short { IsErrOf result BlobInsufficientLength ↔ ((reading self.old).size < offset) }
        ensures cause { OnErr result (result ≡ Err RError.BlobInsufficientLength) }
        ensures goes { OnOk result
            (reading self.new ≡ record (reading self.old) { at = offset; bytes = [] }) }
        ensures stays { OnErr result (reading self.new ≡ reading self.old) }
        ensures replays { (content : List ℕ) → IsReplayOf S.seal_of content (reading self.old)
            → IsReplayOf S.seal_of content (reading self.new) }
    {
        if offset > self.size {
            return Err(RError::BlobInsufficientLength);
        }
        self.used = self.held.len();
        self.at = offset;
        Ok(())
    }

    // Lets the bytes go that were passed by.
    fn let_go(&mut self)
        ensures { reading self.new ≡ reading self.old }
    {
        drop_prefix(&mut self.held, self.used);
        self.used = 0;
    }

    // Adds the bytes of the last page, which is not full, from the next one on.
    fn take_tip(&mut self) -> Result<(), RError>
        requires full { (reading self.old).size / (reading self.old).page_size
            ≤ next_of (reading self.old) / (reading self.old).page_size }
        requires within { next_of (reading self.old) ≤ (reading self.old).size }
        ensures same { SameReader (reading self.old) (reading self.new) }
        ensures piece { (reading self.new).piece ≡ (reading self.old).piece }
        ensures replays { (content : List ℕ) → IsReplayOf S.seal_of content (reading self.old)
            → IsReplayOf S.seal_of content (reading self.new) }
        ensures ends { OnOk result (next_of (reading self.new) ≡ (reading self.old).size) }
        ensures stays { OnErr result ((reading self.new).bytes ≡ (reading self.old).bytes) }
        ensures cause { OnErr result (result ≡ Err RError.Mem) }
    {
        let next = self.at + self.remaining() as u64;
        let skip = (next % u64::from(self.page_size)) as usize;
        let rest = &self.tip[skip..];
        self.held.extend_from_slice(rest)?;
        Ok(())
    }

    // Adds the bytes of the next page, up to the blob's last: of a full page those that a matching slot
    // covers, and of the last one the tip. The slot has to cover a full page up to its end or to byte `goal`.
    fn fetch<D: Device>(&mut self, dev: &mut D, goal: u64) -> Result<(), RError>
        requires open { IsOpenAt (D.opened dev.old) (reading self.old).key (reading self.old).end }
        requires more { next_of (reading self.old) < goal }
        requires within { goal ≤ (reading self.old).size }
        ensures { Fetches D.Device S.seal_of (reading self.old) (reading self.new) dev.old dev.new
            goal result }
    {
        let data = u64::from(self.page_size);
        let next = self.at + self.remaining() as u64;
        let page = next / data;
        let full = self.size / data;
        if page >= full {
            return self.take_tip();
        }
        let start = page * data;
        let blob = OpenBlob {
            partition: self.partition.as_str(),
            name: self.name.as_slice(),
            page_size: self.page_size,
            end: self.end,
        };
        self.piece.load(dev, &blob, page, full)?;
        let found = self.piece.page_bytes(page);
        let covered = covered_len::<S>(self.page_size, found);
        let need = (goal - start).min(data) as usize;
        if covered < need {
            return Err(RError::InvalidChecksum(page));
        }
        let skip = (next - start) as usize;
        let upto = (self.size - start).min(covered as u64) as usize;
        self.held.extend_from_slice(&found[skip..upto])?;
        Ok(())
    }

    /// Reads until n bytes are at hand, or all that are left. Whether n are.
    ///
    /// `InvalidChecksum` names a page of the n bytes that no matching slot covers as far as they need it.
    /// After an error the reader stands where it stood, and has at hand at least what it had.
    pub fn ensure<D: Device>(&mut self, dev: &mut D, n: usize) -> Result<bool, RError>
        requires { IsOpenAt (D.opened dev.old) (reading self.old).key (reading self.old).end }
        ensures { Ensures D.Device S.seal_of (reading self.old) (reading self.new) dev.old dev.new
            n result }
    {
        let left = self.size - self.at;
        let want = left.min(n as u64) as usize;
        let goal = self.at + want as u64;
        self.let_go();
        let mut have = self.remaining();
        'fill: while have < want {
            self.fetch(dev, goal)?;
            have = self.remaining();
        }
        Ok(n as u64 <= left)
    }
}
