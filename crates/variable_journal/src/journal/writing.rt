// Adding items to a journal, and settling them.
ghost use Rattle.std.specs.Prelude.{◌≡◌, ◌⊎◌, ◌↔◌, ◌≤◌, ◌<◌, ◌^◌, length, IfOk, OnErr};
ghost use Rattle.std.specs.Result.{IsErrOf};
ghost use Rattle.std.specs.List.{Contains};
ghost use Rattle.blob_device.specs.Timeline.{disk};
ghost use Rattle.section_manager.specs.Answers.{seen};
ghost use Rattle.section_manager.specs.Refusing.{IsPruned};
ghost use Rattle.section_manager.specs.Sections.{IsHeld};
ghost use Rattle.segments.specs.FixedAdding.{Overfills};
ghost use Rattle.variable_journal.specs.Adding.{Appends};
ghost use Rattle.variable_journal.specs.Frames.{frame};
ghost use Rattle.variable_journal.specs.Settling.{Settles};

use super::Journal;
use super::reading::LONGEST;
use blob_device::{Device, Handle};
use sealed_pages::PageBlob;
use segments::journal::Error;
use segments::{AppendFactory, BufferFactory, SectionBuffer};
use std::alloc::Global;
use value_codec::{Codec, Seal, write_varint32};

// The length of an item, which a frame spells in 32 bits.
fn item_size<V: Codec>(item: &V) -> Result<u32, Error>
    ensures size { IfOk result (λ n. n ≡ length (V.spelling item.now)) }
    ensures large { IsErrOf result Error.ValueTooLarge ↔ (2 ^ 32 ≤ length (V.spelling item.now)) }
    ensures cause { OnErr result (IsErrOf result Error.ValueTooLarge) }
{
    match u32::try_from(item.encode_size()) {
        Ok(size) => Ok(size),
        Err(_) => Err(Error::ValueTooLarge),
    }
}

// The frame of an item of this length.
fn framed<V: Codec>(alloc: Global, size: u32, item: &V) -> Result<Vec<u8>, Error>
    requires { size ≡ length (V.spelling item.now) }
    ensures frame { IfOk result (λ r. r.items ≡ frame (V.spelling item.now)) }
    ensures cause { OnErr result (IsErrOf result Error.Mem) }
{
    let mut bytes = Vec::with_capacity(alloc, LONGEST + size as usize)?;
    write_varint32(size, &mut bytes)?;
    item.write(&mut bytes)?;
    Ok(bytes)
}

impl<V: Codec, S: Seal> Journal<V, S> {
    ghost use Rattle.segments.specs.FixedLists.{IsRecovered};
    ghost use Rattle.variable_journal.specs.Lists.{IsJournal};
    ghost use Rattle.variable_journal.specs.Shown.{config_of, shown};

    // Refuses so many bytes more where they are too many for the section's blob, before any call of the device.
    fn guard_room(&self, section: u64, more: usize) -> Result<(), Error>
        ensures room { IfOk result (λ x. Overfills (shown self.now) section more → ⊥) }
        ensures full { IsErrOf result Error.Full → Overfills (shown self.now) section more }
        ensures guard { IsPruned result (shown self.now).sections.floor
            ↔ (section < (shown self.now).sections.floor) }
        ensures cause { OnErr result (IsErrOf result Error.Full
            ⊎ IsPruned result (shown self.now).sections.floor) }
    {
        match self.bytes.buffer(section)? {
            Some(buffer) if !buffer.has_room(more) => Err(Error::Full),
            _ => Ok(()),
        }
    }

    /// Adds an item at the end of the section, which is made where it is not held. The answer has the offset of
    /// its frame, and the length of the item without that of the frame.
    ///
    /// `ValueTooLarge` says that the length passes a u32; it comes before a section below the floor is refused.
    /// `Full` says that the section's blob would pass the greatest `u64`. To a section that is held nothing is
    /// written then.
    pub fn append<D: Device>(
        self,
        dev: &mut D,
        section: u64,
        item: &V,
    ) -> Result<(Self, u64, u32), Error>
        requires over { IsJournal
            ⟦<PageBlob<S> as SectionBuffer>⟧ ⟦<AppendFactory<S> as BufferFactory>⟧.gives
            S.seal_of D.Tells (shown self) (D.opened dev.old) (disk (D.time dev.old)) }
        requires recovered { IsRecovered (shown self) section }
        ensures { Appends
            ⟦<PageBlob<S> as SectionBuffer>⟧ ⟦<AppendFactory<S> as BufferFactory>⟧.gives
            S.seal_of D.Device section (V.spelling item.now) (shown self)
            (seen (λ r. (shown r.0, r.1, r.2)) result)
            (config_of self) (seen (λ r. config_of r.0) result) dev.old dev.new }
    {
        let size = item_size(item)?;
        self.bytes.prune_guard(section)?;
        let frame = framed(self.alloc, size, item)?;
        // The append below does not say that it writes nothing where there is no room. So room is asked for first.
        self.guard_room(section, frame.len())?;
        let mut this = self;
        // In one append of the buffer: a flush between two would leave a part of the frame.
        let (bytes, offset) = this.bytes.append_bytes(dev, section, frame.as_slice())?;
        this.bytes = bytes;
        Ok((this, offset, size))
    }

    /// Settles these sections. One that is not held is passed over. All are checked before one is synced.
    pub fn sync<D: Device>(self, dev: &mut D, sections: &[u64]) -> Result<Self, Error>
        requires { IsJournal
            ⟦<PageBlob<S> as SectionBuffer>⟧ ⟦<AppendFactory<S> as BufferFactory>⟧.gives
            S.seal_of D.Tells (shown self) (D.opened dev.old) (disk (D.time dev.old)) }
        ensures { Settles
            ⟦<PageBlob<S> as SectionBuffer>⟧ ⟦<AppendFactory<S> as BufferFactory>⟧.gives
            S.seal_of D.Device (Contains sections.now) (shown self) (seen shown result)
            (config_of self) (seen config_of result) dev.old dev.new }
    {
        let mut this = self;
        // The bytes are all there is to settle.
        this.bytes = this.bytes.sync(dev, sections)?;
        Ok(this)
    }

    /// As [`sync`](Journal::sync), with the handle of a sync that has finished.
    pub fn start_sync<D: Device>(
        self,
        dev: &mut D,
        sections: &[u64],
    ) -> Result<(Self, Handle), Error>
        requires { IsJournal
            ⟦<PageBlob<S> as SectionBuffer>⟧ ⟦<AppendFactory<S> as BufferFactory>⟧.gives
            S.seal_of D.Tells (shown self) (D.opened dev.old) (disk (D.time dev.old)) }
        ensures { Settles
            ⟦<PageBlob<S> as SectionBuffer>⟧ ⟦<AppendFactory<S> as BufferFactory>⟧.gives
            S.seal_of D.Device (Contains sections.now) (shown self) (seen (λ r. shown r.0) result)
            (config_of self) (seen (λ r. config_of r.0) result) dev.old dev.new }
    {
        // Settled before the handle is given out: it is of a sync that has finished.
        let this = self.sync(dev, sections)?;
        Ok((this, Handle::finished()))
    }

    /// Settles all sections.
    pub fn sync_all<D: Device>(self, dev: &mut D) -> Result<Self, Error>
        requires { IsJournal
            ⟦<PageBlob<S> as SectionBuffer>⟧ ⟦<AppendFactory<S> as BufferFactory>⟧.gives
            S.seal_of D.Tells (shown self) (D.opened dev.old) (disk (D.time dev.old)) }
        ensures { Settles
            ⟦<PageBlob<S> as SectionBuffer>⟧ ⟦<AppendFactory<S> as BufferFactory>⟧.gives
            S.seal_of D.Device (IsHeld (shown self).sections) (shown self) (seen shown result)
            (config_of self) (seen config_of result) dev.old dev.new }
    {
        let mut this = self;
        // As in `sync`: the bytes are all there is to settle.
        this.bytes = this.bytes.sync_all(dev)?;
        Ok(this)
    }
}
