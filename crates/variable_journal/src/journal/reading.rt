// Reading items of a journal by their offset.
ghost use Rattle.std.specs.Prelude.{◌≡◌, ◌↔◌, ◌⊎◌, ◌+◌, ◌-◌, ◌≤◌, ◌<◌, ◌++◌, min, List, ℕ, [], length, Some, None, IfOk, IfSome, OnErr};
ghost use Rattle.blob_device.specs.Timeline.{disk};
ghost use Rattle.section_manager.specs.Refusing.{IsPruned};
ghost use Rattle.segments.specs.FixedReading.{IsAbsent};
ghost use Rattle.sealed_pages.specs.Buffer as pages;
ghost use Rattle.sealed_pages.specs.Shown as page_blob;
ghost use Rattle.variable_journal.specs.FrameReading.{IsIdle, MayRead, Reads, ReadsLength};
ghost use Rattle.variable_journal.specs.Reaching.{frame_reach, length_reach};
ghost use Rattle.variable_journal.specs.Reading.{FrameOf, Gets, GetsMany, HasHeader, IsRefusedBy, Measures, SaysNoLength};
ghost use Rattle.variable_journal.specs.Trying.{FindsLength, GetsHeld, TriesGet};

use super::Journal;
use crate::Items;
use blob_device::{Device, RError};
use sealed_pages::PageBlob;
use segments::journal::Error;
use segments::{AppendFactory, BufferFactory, SectionBuffer};
use value_codec::{Codec, Seal, codec, read_varint32};

// How many bytes the longest length of a frame has.
pub(super) const LONGEST: usize = 5;

// The length of the frame that begins with these bytes, and how many bytes it takes; none where they are cut
// short. They are five, or all that are left.
pub(super) fn length_of(prefix: &[u8]) -> Result<Option<(u32, usize)>, Error>
    ensures { (rest : List ℕ) → (length prefix.now < 5 → rest ≡ [])
        → Measures (length prefix.now) (prefix.now ++ rest) result }
{
    match read_varint32(prefix) {
        Ok(found) => Ok(Some(found)),
        // So few bytes may be the beginning of any length.
        Err(_) if prefix.len() < LONGEST => Ok(None),
        Err(e) => Err(Error::from(e)),
    }
}

impl<V: Codec, S: Seal> Journal<V, S> {
    ghost use Rattle.variable_journal.specs.Lists.{IsJournal};
    ghost use Rattle.variable_journal.specs.Shown.{config_of, shown};

    // The section's buffer.
    fn buffer_of(&self, section: u64) -> Result<&PageBlob<S>, Error>
        ensures held { IfOk result (λ r. (shown self.now).sections.held section ≡ Some r.now) }
        ensures guard { IsPruned result (shown self.now).sections.floor
            ↔ (section < (shown self.now).sections.floor) }
        ensures absent { IsAbsent result section ↔ (((shown self.now).sections.floor ≤ section)
            × ((shown self.now).sections.held section ≡ None)) }
        ensures cause { OnErr result (IsPruned result (shown self.now).sections.floor
            ⊎ IsAbsent result section) }
    {
        match self.bytes.buffer(section)? {
            Some(buffer) => Ok(buffer),
            None => Err(Error::SectionOutOfRange(section)),
        }
    }

    // The length at an offset below the end, and how many bytes it takes; none where it is cut short. No
    // byte behind it is read. `most` is how many it may have there.
    fn length_by_bytes<D: Device>(
        dev: &mut D,
        buffer: &PageBlob<S>,
        offset: u64,
        most: usize,
    ) -> Result<Option<(u32, usize)>, Error>
        requires open { MayRead D.Device buffer.now dev.old }
        requires inside { offset < pages.size_of (page_blob.shown buffer.now) }
        requires room { most ≡ min (pages.size_of (page_blob.shown buffer.now) - offset) 5 }
        ensures reads { ReadsLength S.seal_of D.Device buffer.now offset dev.old dev.new result }
        ensures few { IfOk result (λ r. IfSome r (λ f. f.1 ≤ 5)) }
    {
        let mut prefix = [0; LONGEST];
        let mut seen = 0;
        'bytes: while seen < most {
            // One byte more at a time: those behind the length may lie in a damaged page.
            seen += 1;
            let prefix = &mut prefix[..seen];
            buffer.read_at(dev, offset, prefix)?;
            match read_varint32(prefix) {
                Ok(found) => return Ok(Some(found)),
                Err(_) => {}
            }
        }
        if most < LONGEST {
            return Ok(None);
        }
        Err(Error::Codec(codec::Error::InvalidVarint))
    }

    // As `length_by_bytes`, by one read where no page is damaged.
    fn read_length<D: Device>(
        dev: &mut D,
        buffer: &PageBlob<S>,
        offset: u64,
    ) -> Result<Option<(u32, usize)>, Error>
        requires open { MayRead D.Device buffer.now dev.old }
        requires inside { offset < pages.size_of (page_blob.shown buffer.now) }
        ensures reads { ReadsLength S.seal_of D.Device buffer.now offset dev.old dev.new result }
        ensures few { IfOk result (λ r. IfSome r (λ f. f.1 ≤ 5)) }
    {
        let left = buffer.size() - offset;
        let count = left.min(LONGEST as u64) as usize;
        let mut prefix = [0; LONGEST];
        let prefix = &mut prefix[..count];
        match buffer.read_at(dev, offset, prefix) {
            Ok(()) => length_of(prefix),
            Err(e) => match e {
                // The damaged page may have bytes behind the length alone.
                RError::InvalidChecksum(_) => Self::length_by_bytes(dev, buffer, offset, count),
                _ => Err(Error::from(e)),
            },
        }
    }

    // The length at an offset below the end, and how many bytes it takes; none where it is cut short. Where it is
    // in memory, no byte behind it is read.
    fn length_at<D: Device>(
        dev: &mut D,
        buffer: &PageBlob<S>,
        offset: u64,
    ) -> Result<Option<(u32, usize)>, Error>
        requires open { MayRead D.Device buffer.now dev.old }
        requires inside { offset < pages.size_of (page_blob.shown buffer.now) }
        ensures reads { ReadsLength S.seal_of D.Device buffer.now offset dev.old dev.new result }
        ensures few { IfOk result (λ r. IfSome r (λ f. f.1 ≤ 5)) }
        ensures idle { IsIdle S.seal_of D.Device buffer.now offset dev.old dev.new }
    {
        match Self::held_length(buffer, offset) {
            Some(found) => Ok(Some(found)),
            None => Self::read_length(dev, buffer, offset),
        }
    }

    // The length at an offset, and how many bytes it takes, of a frame that ends within the buffer.
    fn header_at<D: Device>(
        dev: &mut D,
        buffer: &PageBlob<S>,
        offset: u64,
    ) -> Result<(u32, usize), Error>
        requires { MayRead D.Device buffer.now dev.old }
        ensures reads { Reads S.seal_of D.Device buffer.now offset dev.old length_reach SaysNoLength
            HasHeader dev.new result }
        ensures inside { IfOk result (λ r. offset + (r.1 + r.0)
            ≤ pages.size_of (page_blob.shown buffer.now)) }
        ensures idle { IsIdle S.seal_of D.Device buffer.now offset dev.old dev.new }
    {
        let left = buffer.size().saturating_sub(offset);
        if left == 0 {
            return Err(Error::ItemOutOfRange(offset));
        }
        let Some((size, header)) = Self::length_at(dev, buffer, offset)? else {
            return Err(Error::ItemOutOfRange(offset));
        };
        if header as u64 + u64::from(size) > left {
            return Err(Error::ItemOutOfRange(offset));
        }
        Ok((size, header))
    }

    // The item of the frame at an offset.
    fn read_frame<D: Device>(
        &self,
        dev: &mut D,
        buffer: &PageBlob<S>,
        offset: u64,
    ) -> Result<V, Error>
        requires { MayRead D.Device buffer.now dev.old }
        ensures reads { Reads S.seal_of D.Device buffer.now offset dev.old frame_reach
            (IsRefusedBy V.refusal self.now.codec_config)
            (FrameOf V.spelling V.accepted self.now.codec_config) dev.new result }
        ensures idle { IsIdle S.seal_of D.Device buffer.now offset dev.old dev.new }
    {
        let (size, header) = Self::header_at(dev, buffer, offset)?;
        let mut bytes = vec![in self.alloc; 0; size as usize]?;
        buffer.read_at(dev, offset + header as u64, bytes.as_mut_slice())?;
        Ok(V::decode_cfg(self.alloc, bytes.as_slice(), self.codec_config)?)
    }

    /// The item whose frame stands at this offset.
    ///
    /// It refuses a pruned section, one that is not held, and an offset at or past the end, or of a frame that runs
    /// past it, in this order. `InvalidChecksum` names a page that has bytes of the frame, and that no matching
    /// slot covers as far as they go. Where no frame is whole, these are the bytes of its length. `Codec` says
    /// why the bytes are no length, or no item. A frame that is in memory needs no call of the device.
    pub fn get<D: Device>(&self, dev: &mut D, section: u64, offset: u64) -> Result<V, Error>
        requires { IsJournal
            ⟦<PageBlob<S> as SectionBuffer>⟧ ⟦<AppendFactory<S> as BufferFactory>⟧.gives
            S.seal_of D.Tells (shown self.now) (D.opened dev.old) (disk (D.time dev.old)) }
        ensures { Gets S.seal_of V.spelling V.accepted V.refusal (config_of self.now) D.Device
            section offset (shown self.now) result dev.old dev.new }
    {
        let buffer = self.buffer_of(section)?;
        self.read_frame(dev, buffer, offset)
    }

    /// The items whose frames stand at these offsets, in this order.
    ///
    /// It refuses as [`get`](Journal::get) does: the section first, also where no offset is given, and then
    /// the first offset that `get` refuses.
    pub fn get_many<D: Device>(
        &self,
        dev: &mut D,
        section: u64,
        offsets: &[u64],
    ) -> Result<Items<V>, Error>
        requires { IsJournal
            ⟦<PageBlob<S> as SectionBuffer>⟧ ⟦<AppendFactory<S> as BufferFactory>⟧.gives
            S.seal_of D.Tells (shown self.now) (D.opened dev.old) (disk (D.time dev.old)) }
        ensures { GetsMany S.seal_of V.spelling V.accepted V.refusal (config_of self.now) D.Device
            section offsets.now (shown self.now) result dev.old dev.new }
    {
        let buffer = self.buffer_of(section)?;
        let mut items = Vec::new(self.alloc);
        for offset in offsets {
            let item = self.read_frame(dev, buffer, *offset)?;
            items.push(item)?;
        }
        Ok(Items::from_vec(items))
    }

    // The length of the frame at an offset, and how many bytes it takes, where these are in memory.
    fn held_length(buffer: &PageBlob<S>, offset: u64) -> Option<(u32, usize)>
        ensures { FindsLength S.seal_of buffer.now offset result }
    {
        let mut prefix = [0; LONGEST];
        let mut count = 0;
        'bytes: while count < LONGEST {
            // One byte more at a time: those behind the length may lie in a page that is not held.
            count += 1;
            let prefix = &mut prefix[..count];
            if !buffer.try_read_held(offset, prefix) {
                return None;
            }
            match read_varint32(prefix) {
                Ok(found) => return Some(found),
                Err(_) => {}
            }
        }
        None
    }

    // The item of the frame at an offset, where the frame is in memory and the item decodes.
    fn held_frame(&self, buffer: &PageBlob<S>, offset: u64) -> Result<Option<V>, Error>
        ensures { GetsHeld S.seal_of buffer.now offset V.spelling V.accepted V.refusal
            self.now.codec_config result }
    {
        let Some((size, header)) = Self::held_length(buffer, offset) else {
            return Ok(None);
        };
        let left = buffer.size().saturating_sub(offset);
        let whole = header as u64 + u64::from(size);
        if left < whole {
            return Ok(None);
        }
        let mut bytes = vec![in self.alloc; 0; size as usize]?;
        if !buffer.try_read_held(offset + header as u64, bytes.as_mut_slice()) {
            return Ok(None);
        }
        match V::decode_cfg(self.alloc, bytes.as_slice(), self.codec_config) {
            Ok(item) => Ok(Some(item)),
            Err(error) => match error {
                codec::Error::Mem => Err(Error::Mem),
                _ => Ok(None),
            },
        }
    }

    /// What [`get`](Journal::get) would give, where all bytes of the frame are in memory and its item
    /// decodes; else none. It makes no call of the device.
    pub fn try_get_sync(&self, section: u64, offset: u64) -> Result<Option<V>, Error>
        ensures { TriesGet S.seal_of V.spelling V.accepted V.refusal (config_of self.now)
            section offset (shown self.now) result }
    {
        let Ok(buffer) = self.buffer_of(section) else {
            return Ok(None);
        };
        self.held_frame(buffer, offset)
    }
}
