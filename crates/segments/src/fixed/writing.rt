// Adding items to a fixed journal, and settling them.
ghost use Rattle.std.specs.Prelude.{◌≡◌, ◌↔◌, ◌≤◌, ◌<◌, ◌+◌, ◌%◌, ◌^◌, length, ⊤, IfOk, OnErr, IsSomeAnd, IsTrue};
ghost use Rattle.std.specs.Result.{IsErrOf};
ghost use Rattle.std.specs.List.{Contains};
ghost use Rattle.std.specs.Option.{option_copied};
ghost use Rattle.blob_device.specs.Timeline.{disk};
ghost use Rattle.sealed_pages.specs.Buffer.{extent, size_of};
ghost use Rattle.section_manager.specs.Answers.{seen};
ghost use Rattle.section_manager.specs.Refusing.{IsPruned};
ghost use Rattle.section_manager.specs.managing.Settling.{IsAnyBelow};
ghost use Rattle.segments.specs.FixedAdding.{Appends, Overfills, WouldOverfill};
ghost use Rattle.segments.specs.FixedFull.{full_or_raised_of};
ghost use Rattle.segments.specs.FixedSettling.{Settles};

use super::Journal;
use crate::journal::Error;
use crate::{AppendFactory, BufferFactory, SectionBuffer};
use blob_device::{Device, Handle, RError};
use sealed_pages::PageBlob;
use std::alloc::Global;
use value_codec::{CodecFixed, Seal};

// The bytes of an item, in the memory of other bytes.
fn spelled<A: CodecFixed>(other: Vec<u8>, item: &A) -> Result<Vec<u8>, Error>
    ensures bytes { IfOk result (λ r. r.items ≡ A.spelling item.now) }
    ensures cause { OnErr result (IsErrOf result Error.Mem) }
{
    let mut bytes = other;
    bytes.clear();
    item.write(&mut bytes)?;
    Ok(bytes)
}

// A section that would pass the greatest `u64` is full.
fn full_or_raised(e: RError) -> Error
    ensures { result ≡ full_or_raised_of e }
{
    match e {
        RError::OffsetOverflow => Error::Full,
        other => Error::from(other),
    }
}

impl<A: CodecFixed, S: Seal> Journal<A, S> {
    ghost use Rattle.sealed_pages.specs.Shown as page_blob;
    ghost use Rattle.segments.specs.FixedShown.{shown};
    ghost use Rattle.segments.specs.FixedLists.{IsJournal, IsRecovered};

    /// Whether an append to the section would answer `Full`: whether one item more makes its blob, with
    /// both slots of its last page, pass the greatest `u64`. It takes no memory.
    pub fn is_full(&self, section: u64) -> Result<bool, Error>
        ensures full { IfOk result (λ r. IsTrue r ↔ IsSomeAnd
            ((shown self.now).sections.held section)
            (λ u. 2 ^ 64 ≤ extent u.page_size (size_of (page_blob.shown u) + A.SIZE))) }
        ensures guard { IsPruned result (shown self.now).sections.floor
            ↔ (section < (shown self.now).sections.floor) }
        ensures cause { OnErr result (IsPruned result (shown self.now).sections.floor) }
    {
        Ok(match self.manager.get(section)? {
            Some(buffer) => !buffer.has_room(A::SIZE),
            None => false,
        })
    }

    /// Adds an item at the end of the section, which is made where it is not held. The answer has the
    /// item's position.
    ///
    /// `Full` says that the section's blob would pass the greatest `u64`.
    pub fn append<D: Device>(
        self,
        dev: &mut D,
        section: u64,
        item: &A,
    ) -> Result<(Self, u64), Error>
        requires over { IsJournal
            ⟦<PageBlob<S> as SectionBuffer>⟧ ⟦<AppendFactory<S> as BufferFactory>⟧.gives
            S.seal_of A.SIZE D.Tells (shown self) (D.opened dev.old) (disk (D.time dev.old)) }
        requires recovered { IsRecovered (shown self) section }
        requires accepted { A.accepted item.now tt }
        ensures { Appends (shown self) section
            ⟦<PageBlob<S> as SectionBuffer>⟧ ⟦<AppendFactory<S> as BufferFactory>⟧.gives
            S.seal_of A.SIZE (A.spelling item.now) A.SIZE (Overfills (shown self) section A.SIZE)
            D.Device result (λ r. (shown r.0, r.1)) dev.old dev.new }
    {
        self.manager.prune_guard(section)?;
        let mut this = self;
        // Spelled before the section is taken: where there is no memory for that, none is made.
        let bytes = spelled(this.spelling, item)?;
        this.spelling = Vec::new(this.alloc);
        let (mut this, position) = this.append_bytes(dev, section, bytes.as_slice())?;
        // The next item is spelled in the memory of this one.
        this.spelling = bytes;
        Ok((this, position))
    }

    /// Adds bytes at the end of the section, a whole number of items, by one append of its buffer. The
    /// section is made where it is not held. The answer has the position of the first item.
    ///
    /// `Full` says that the section's blob would pass the greatest `u64`.
    pub fn append_bytes<D: Device>(
        self,
        dev: &mut D,
        section: u64,
        bytes: &[u8],
    ) -> Result<(Self, u64), Error>
        requires over { IsJournal
            ⟦<PageBlob<S> as SectionBuffer>⟧ ⟦<AppendFactory<S> as BufferFactory>⟧.gives
            S.seal_of A.SIZE D.Tells (shown self) (D.opened dev.old) (disk (D.time dev.old)) }
        requires recovered { IsRecovered (shown self) section }
        requires whole { length bytes.now % A.SIZE ≡ 0 }
        ensures { Appends (shown self) section
            ⟦<PageBlob<S> as SectionBuffer>⟧ ⟦<AppendFactory<S> as BufferFactory>⟧.gives
            S.seal_of A.SIZE bytes.now (length bytes.now)
            (WouldOverfill (shown self) section (length bytes.now))
            D.Device result (λ r. (shown r.0, r.1)) dev.old dev.new }
    {
        let mut this = self;
        // A section below the floor is refused by this, before one is made.
        let buffer = this.manager.take(dev, section)?;
        // In one append: a flush between two would leave a part of the items.
        let (buffer, offset) = buffer.append(dev, bytes).map_err(full_or_raised)?;
        this.manager.put(section, buffer)?;
        Ok((this, offset / A::SIZE as u64))
    }

    /// The section's buffer, if the section is held, for reads of any range. It takes no memory.
    pub fn buffer(&self, section: u64) -> Result<Option<&PageBlob<S>>, Error>
        ensures held { IfOk result (λ r. option_copied r ≡ (shown self.now).sections.held section) }
        ensures guard { IsPruned result (shown self.now).sections.floor
            ↔ (section < (shown self.now).sections.floor) }
        ensures cause { OnErr result (IsPruned result (shown self.now).sections.floor) }
    {
        self.manager.get(section)
    }

    /// Settles these sections. One that is not held is passed over. All are checked before one is synced.
    pub fn sync<D: Device>(self, dev: &mut D, sections: &[u64]) -> Result<Self, Error>
        requires over { IsJournal
            ⟦<PageBlob<S> as SectionBuffer>⟧ ⟦<AppendFactory<S> as BufferFactory>⟧.gives
            S.seal_of A.SIZE D.Tells (shown self) (D.opened dev.old) (disk (D.time dev.old)) }
        ensures { Settles
            ⟦<PageBlob<S> as SectionBuffer>⟧ ⟦<AppendFactory<S> as BufferFactory>⟧.gives
            S.seal_of A.SIZE D.Device (shown self) (Contains sections.now)
            (IsAnyBelow (Contains sections.now) (shown self).sections.floor)
            (seen shown result) dev.old dev.new }
    {
        let mut this = self;
        // The buffers are all there is to settle: what the journal notes is in memory alone.
        this.manager = this.manager.sync(dev, sections)?;
        Ok(this)
    }

    /// As [`sync`](Journal::sync), with the handle of a sync that has finished.
    pub fn start_sync<D: Device>(
        self,
        dev: &mut D,
        sections: &[u64],
    ) -> Result<(Self, Handle), Error>
        requires over { IsJournal
            ⟦<PageBlob<S> as SectionBuffer>⟧ ⟦<AppendFactory<S> as BufferFactory>⟧.gives
            S.seal_of A.SIZE D.Tells (shown self) (D.opened dev.old) (disk (D.time dev.old)) }
        ensures { Settles
            ⟦<PageBlob<S> as SectionBuffer>⟧ ⟦<AppendFactory<S> as BufferFactory>⟧.gives
            S.seal_of A.SIZE D.Device (shown self) (Contains sections.now)
            (IsAnyBelow (Contains sections.now) (shown self).sections.floor)
            (seen (λ r. shown r.0) result) dev.old dev.new }
    {
        // Settled before the handle is given out: it is of a sync that has finished.
        let this = self.sync(dev, sections)?;
        Ok((this, Handle::finished()))
    }

    /// Settles all sections.
    pub fn sync_all<D: Device>(self, dev: &mut D) -> Result<Self, Error>
        requires over { IsJournal
            ⟦<PageBlob<S> as SectionBuffer>⟧ ⟦<AppendFactory<S> as BufferFactory>⟧.gives
            S.seal_of A.SIZE D.Tells (shown self) (D.opened dev.old) (disk (D.time dev.old)) }
        ensures { Settles
            ⟦<PageBlob<S> as SectionBuffer>⟧ ⟦<AppendFactory<S> as BufferFactory>⟧.gives
            S.seal_of A.SIZE D.Device (shown self) (λ _. ⊤) ⊥
            (seen shown result) dev.old dev.new }
    {
        let mut this = self;
        // As in `sync`: the buffers are all there is to settle.
        this.manager = this.manager.sync_all(dev)?;
        Ok(this)
    }
}
