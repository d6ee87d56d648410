// Reading items of a fixed journal by their position.
ghost use Rattle.std.specs.Prelude.{◌≡◌, ◌↔◌, ◌⊎◌, ◌≤◌, ◌<◌, ◌+◌, ◌*◌, ◌/◌, ◌-◌, ◌^◌, ℕ, List, Some, None, Err, true, false, length, IfOk, OnOk, OnErr, IsSome, IsSomeAnd, MatchOption, IsTrue};
ghost use Rattle.std.specs.Result.{IsErrOf};
ghost use Rattle.std.specs.List.{Contains};
ghost use Rattle.std.specs.List.Sorted.{IsStrictlySortedBy};
ghost use Rattle.std.specs.Ordering.{nat_cmp};
ghost use Rattle.blob_device.specs.declared.runtime.RError.TheVariants.{InvalidChecksum};
ghost use Rattle.blob_device.specs.Timeline.{disk};
ghost use Rattle.sealed_pages.specs.Buffer.{size_of, bytes_of};
ghost use Rattle.sealed_pages.specs.Entries.{IsOpenAt};
ghost use Rattle.sealed_pages.specs.Reads.{IsCacheFor};
ghost use Rattle.section_manager.specs.Refusing.{IsPruned};
ghost use Rattle.section_manager.specs.Answers.{seen};
ghost use Rattle.segments.specs.FixedGetting.{FillsItem, Gets, GetsLast, GetsMany, ReadsEach, ReadsItem};
ghost use Rattle.segments.specs.FixedItems.{item_at, IsItem};
ghost use Rattle.segments.specs.FixedReading.{HasItem, is_item_held, IsAbsent, IsPast};

use super::Journal;
use crate::journal::Error;
use crate::{AppendFactory, BufferFactory, Items, SectionBuffer};
use blob_device::Device;
use sealed_pages::PageBlob;
use smallvec::SmallVec;
use std::alloc::Global;
use value_codec::{CodecFixed, Seal, codec};

// An item of at most so many bytes is read without memory for them.
const STACK_ITEM: usize = 64;

impl<A: CodecFixed, S: Seal> Journal<A, S> {
    ghost use Rattle.sealed_pages.specs.Buffer as pages;
    ghost use Rattle.sealed_pages.specs.Shown as page_blob;
    ghost use Rattle.segments.specs.FixedShown.{shown};
    ghost use Rattle.segments.specs.FixedLists.{IsJournal};

    // The section's buffer.
    fn buffer_of(&self, section: u64) -> Result<&PageBlob<S>, Error>
        ensures held { IfOk result (λ r. (shown self.now).sections.held section ≡ Some r.now) }
        ensures guard { IsPruned result (shown self.now).sections.floor
            ↔ (section < (shown self.now).sections.floor) }
        ensures absent { IsAbsent result section ↔ (((shown self.now).sections.floor ≤ section)
            × ((shown self.now).sections.held section ≡ None)) }
        ensures cause { OnErr result (IsPruned result (shown self.now).sections.floor
            ⊎ IsAbsent result section) }
    {
        match self.manager.get(section)? {
            Some(buffer) => Ok(buffer),
            None => Err(Error::SectionOutOfRange(section)),
        }
    }

    // How many whole items the buffer has.
    fn count_of(buffer: &PageBlob<S>) -> u64
        ensures { result ≡ size_of (page_blob.shown buffer.now) / A.SIZE }
    {
        buffer.size() / A::SIZE as u64
    }

    // Refuses the first of these positions that is at or past the end.
    fn check_positions(buffer: &PageBlob<S>, positions: &[u64]) -> Result<(), Error>
        ensures ok { OnOk result ((p : ℕ) → Contains positions.now p → HasItem A.SIZE buffer.now p) }
        ensures past { (p : ℕ) → IsPast result p → Contains positions.now p
            × (size_of (page_blob.shown buffer.now) / A.SIZE ≤ p) }
        ensures first { IsStrictlySortedBy nat_cmp positions.now → (p q : ℕ) → IsPast result p
            → Contains positions.now q → q < p → HasItem A.SIZE buffer.now q }
        ensures cause { OnErr result ((p : ℕ) × IsPast result p) }
    {
        let count = Self::count_of(buffer);
        for position in positions {
            if *position >= count {
                return Err(Error::ItemOutOfRange(*position));
            }
        }
        Ok(())
    }

    // Takes the bytes of the item at a position: from memory where all of them are held there, and whether
    // they were; else also from the blob.
    fn fill_item<D: Device>(
        dev: &mut D,
        buffer: &PageBlob<S>,
        position: u64,
        bytes: &mut [u8],
    ) -> Result<bool, Error>
        requires open { IsOpenAt (D.opened dev.old) (pages.key_of (page_blob.shown buffer.now))
            buffer.now.end }
        requires inside { HasItem A.SIZE buffer.now position }
        requires room { length bytes.old ≡ A.SIZE }
        ensures { FillsItem S.seal_of A.SIZE D.Device buffer.now dev.old dev.new
            (disk (D.time dev.old) (pages.key_of (page_blob.shown buffer.now))) position bytes.new
            result }
    {
        let offset = position * A::SIZE as u64;
        if buffer.try_read_held(offset, bytes) {
            return Ok(true);
        }
        buffer.read_at(dev, offset, bytes)?;
        Ok(false)
    }

    // Reads the item at a position into `bytes`. Whether all of them were held in memory.
    fn read_into<D: Device>(
        alloc: Global,
        dev: &mut D,
        buffer: &PageBlob<S>,
        position: u64,
        bytes: &mut [u8],
    ) -> Result<(A, bool), Error>
        requires open { IsOpenAt (D.opened dev.old) (pages.key_of (page_blob.shown buffer.now))
            buffer.now.end }
        requires inside { HasItem A.SIZE buffer.now position }
        requires room { length bytes.old ≡ A.SIZE }
        ensures reads { ReadsItem S.seal_of A.SIZE A.spelling A.accepted A.refusal D.Device
            buffer.now dev.old dev.new (disk (D.time dev.old)
            (pages.key_of (page_blob.shown buffer.now))) position (seen (λ r. r.0) result) }
        ensures held { IfOk result (λ r. r.1 ≡ is_item_held A.SIZE buffer.now position) }
    {
        let held = Self::fill_item(dev, buffer, position, bytes)?;
        let item = A::decode_cfg(alloc, bytes, ())?;
        Ok((item, held))
    }

    // Reads the item at a position.
    fn read_item<D: Device>(
        alloc: Global,
        dev: &mut D,
        buffer: &PageBlob<S>,
        position: u64,
    ) -> Result<A, Error>
        requires open { IsOpenAt (D.opened dev.old) (pages.key_of (page_blob.shown buffer.now))
            buffer.now.end }
        requires inside { HasItem A.SIZE buffer.now position }
        ensures { ReadsItem S.seal_of A.SIZE A.spelling A.accepted A.refusal D.Device buffer.now
            dev.old dev.new (disk (D.time dev.old) (pages.key_of (page_blob.shown buffer.now)))
            position result }
    {
        let mut bytes: SmallVec<u8, STACK_ITEM> = SmallVec::from_elem(alloc, 0, A::SIZE)?;
        let (item, _) = Self::read_into(alloc, dev, buffer, position, bytes.as_mut_slice())?;
        Ok(item)
    }

    /// The item at a position.
    ///
    /// It refuses a pruned section, one that is not held, and a position at or past the end, in this order.
    /// `InvalidChecksum` names a page of the item that no matching slot covers as far as the item goes, and
    /// `Codec` says why the item's bytes are none.
    pub fn get<D: Device>(&self, dev: &mut D, section: u64, position: u64) -> Result<A, Error>
        requires { IsJournal
            ⟦<PageBlob<S> as SectionBuffer>⟧ ⟦<AppendFactory<S> as BufferFactory>⟧.gives
            S.seal_of A.SIZE D.Tells (shown self.now) (D.opened dev.old) (disk (D.time dev.old)) }
        ensures { Gets
            ⟦<PageBlob<S> as SectionBuffer>⟧ ⟦<AppendFactory<S> as BufferFactory>⟧.gives
            S.seal_of A.SIZE A.spelling A.accepted A.refusal D.Device (shown self.now) section
            dev.old dev.new position result }
    {
        let buffer = self.buffer_of(section)?;
        if position >= Self::count_of(buffer) {
            return Err(Error::ItemOutOfRange(position));
        }
        Self::read_item(self.alloc, dev, buffer, position)
    }

    // The item at a position, where its bytes are all held in memory and decode.
    fn held_item(alloc: Global, buffer: &PageBlob<S>, position: u64) -> Result<Option<A>, Error>
        requires { HasItem A.SIZE buffer.now position }
        ensures item { IfOk result (λ r. (v : A) → r ≡ Some v
            → (is_item_held A.SIZE buffer.now position ≡ true)
            × ((content : List ℕ) → IsCacheFor S.seal_of (page_blob.shown buffer.now) content
            (position * A.SIZE) A.SIZE → IsItem A.spelling A.accepted
            (item_at A.SIZE (bytes_of (page_blob.shown buffer.now) content) position) v)) }
        ensures none { IfOk result (λ r. r ≡ None → is_item_held A.SIZE buffer.now position ≡ true
            → (content : List ℕ) → IsCacheFor S.seal_of (page_blob.shown buffer.now) content
            (position * A.SIZE) A.SIZE → A.refusal (item_at A.SIZE
            (bytes_of (page_blob.shown buffer.now) content) position) tt ≡ None → ⊥) }
        ensures cause { OnErr result (IsErrOf result Error.Mem) }
    {
        let mut bytes = vec![in alloc; 0; A::SIZE]?;
        let offset = position * A::SIZE as u64;
        if !buffer.try_read_held(offset, bytes.as_mut_slice()) {
            return Ok(None);
        }
        match A::decode_cfg(alloc, bytes.as_slice(), ()) {
            Ok(item) => Ok(Some(item)),
            Err(error) => match error {
                codec::Error::Mem => Err(Error::Mem),
                _ => Ok(None),
            },
        }
    }

    /// What [`get`](Journal::get) would give, where the item's bytes are all held in memory and decode;
    /// else none.
    pub fn try_get_sync(&self, section: u64, position: u64) -> Result<Option<A>, Error>
        // Nothing is given of a section below the floor.
        ensures unpruned { IfOk result (λ r. IsSome r → (shown self.now).sections.floor ≤ section) }
        ensures item { IfOk result (λ r. (v : A) → r ≡ Some v
            → IsSomeAnd ((shown self.now).sections.held section)
            (λ u. HasItem A.SIZE u position × (is_item_held A.SIZE u position ≡ true)
            × ((content : List ℕ) → IsCacheFor S.seal_of (page_blob.shown u) content
            (position * A.SIZE) A.SIZE → IsItem A.spelling A.accepted
            (item_at A.SIZE (bytes_of (page_blob.shown u) content) position) v))) }
        ensures none { IfOk result (λ r. r ≡ None → (u : _) → (shown self.now).sections.held section
            ≡ Some u → (shown self.now).sections.floor ≤ section → HasItem A.SIZE u position
            → is_item_held A.SIZE u position ≡ true → (content : List ℕ)
            → IsCacheFor S.seal_of (page_blob.shown u) content (position * A.SIZE) A.SIZE
            → A.refusal (item_at A.SIZE (bytes_of (page_blob.shown u) content) position) tt ≡ None
            → ⊥) }
        ensures cause { OnErr result (IsErrOf result Error.Mem) }
    {
        let Ok(buffer) = self.buffer_of(section) else {
            return Ok(None);
        };
        if position >= Self::count_of(buffer) {
            return Ok(None);
        }
        Self::held_item(self.alloc, buffer, position)
    }

    /// The last whole item of the section, none where it has none.
    pub fn last<D: Device>(&self, dev: &mut D, section: u64) -> Result<Option<A>, Error>
        requires { IsJournal
            ⟦<PageBlob<S> as SectionBuffer>⟧ ⟦<AppendFactory<S> as BufferFactory>⟧.gives
            S.seal_of A.SIZE D.Tells (shown self.now) (D.opened dev.old) (disk (D.time dev.old)) }
        ensures { GetsLast
            ⟦<PageBlob<S> as SectionBuffer>⟧ ⟦<AppendFactory<S> as BufferFactory>⟧.gives
            S.seal_of A.SIZE A.spelling A.accepted A.refusal D.Device (shown self.now) section
            dev.old dev.new result }
    {
        let buffer = self.buffer_of(section)?;
        let count = Self::count_of(buffer);
        if count == 0 {
            return Ok(None);
        }
        let item = Self::read_item(self.alloc, dev, buffer, count - 1)?;
        Ok(Some(item))
    }

    // Reads the items at these positions into `buf`, one behind the other, and counts those that were held
    // in memory whole.
    fn read_each<D: Device>(
        alloc: Global,
        dev: &mut D,
        buffer: &PageBlob<S>,
        positions: &[u64],
        buf: &mut [u8],
    ) -> Result<(Items<A>, usize), Error>
        requires open { IsOpenAt (D.opened dev.old) (pages.key_of (page_blob.shown buffer.now))
            buffer.now.end }
        requires inside { (p : ℕ) → Contains positions.now p → HasItem A.SIZE buffer.now p }
        requires room { length positions.now * A.SIZE ≤ length buf.old }
        ensures { ReadsEach S.seal_of A.SIZE A.spelling A.accepted A.refusal D.Device buffer.now
            dev.old dev.new (disk (D.time dev.old) (pages.key_of (page_blob.shown buffer.now)))
            positions.now result }
    {
        let mut items = Vec::new(alloc);
        let mut held_count = 0;
        for (i, position) in positions.iter().enumerate() {
            let bytes = &mut buf[i * A::SIZE..i * A::SIZE + A::SIZE];
            let (item, held) = Self::read_into(alloc, dev, buffer, *position, bytes)?;
            items.push(item)?;
            held_count += usize::from(held);
        }
        Ok((Items::from_vec(items), held_count))
    }

    /// The items at these positions, which ascend, and how many of them were held in memory whole. `buf`
    /// takes their bytes.
    ///
    /// It refuses as [`get`](Journal::get) does, the section first, also where no position is given, and
    /// then the first position at or past the end.
    pub fn get_many<D: Device>(
        &self,
        dev: &mut D,
        section: u64,
        positions: &[u64],
        buf: &mut [u8],
    ) -> Result<(Items<A>, usize), Error>
        requires over { IsJournal
            ⟦<PageBlob<S> as SectionBuffer>⟧ ⟦<AppendFactory<S> as BufferFactory>⟧.gives
            S.seal_of A.SIZE D.Tells (shown self.now) (D.opened dev.old) (disk (D.time dev.old)) }
        requires ascending { IsStrictlySortedBy nat_cmp positions.now }
        requires room { length positions.now * A.SIZE ≤ length buf.old }
        ensures { GetsMany
            ⟦<PageBlob<S> as SectionBuffer>⟧ ⟦<AppendFactory<S> as BufferFactory>⟧.gives
            S.seal_of A.SIZE A.spelling A.accepted A.refusal D.Device (shown self.now) section
            dev.old dev.new positions.now result }
    {
        let buffer = self.buffer_of(section)?;
        Self::check_positions(buffer, positions)?;
        Self::read_each(self.alloc, dev, buffer, positions, buf)
    }
}
