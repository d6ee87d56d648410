// Going over the items of a fixed journal from a position on, and cutting what no seal vouches for.
ghost use Rattle.std.specs.Prelude.{◌≡◌, ◌↔◌, ◌⊎◌, ◌≤◌, ◌<◌, ◌+◌, ◌*◌, ◌/◌, ◌^◌, ℕ, Some, None, Ok, Err, true, false, cond, length, take, IfSome, OnOk, OnErr, IsSomeAnd, IsTrue};
ghost use Rattle.std.specs.Result.{IsErrOf};
ghost use Rattle.std.specs.Ordering.{nat_cmp};
ghost use Rattle.std.specs.BTreeSet as set;
ghost use Rattle.blob_device.specs.Disk.{Key};
ghost use Rattle.blob_device.specs.Timeline.{disk, Always, Each};
ghost use Rattle.sealed_pages.specs.Buffer.{size_of};
ghost use Rattle.sealed_pages.specs.SealedPrefix.{sealed_prefix};
ghost use Rattle.sealed_pages.specs.Shown as page_blob;
ghost use Rattle.section_manager.specs.Sections.{key_of, IsHeld, IsKeyOf, IsOver};
ghost use Rattle.segments.specs.FixedItems.{IsItem};
ghost use Rattle.segments.specs.FixedReading.{IsPast, IsBelowFloor, HasNotRead};

use super::Journal;
use super::floors::{floor_at, lift_after, lower_to};
use crate::journal::{Damage, Error};
use crate::{AppendFactory, BufferFactory, SectionBuffer};
use blob_device::{Device, RError};
use sealed_pages::{PageBlob, PageReplay};
use std::collections::BTreeSet;
use value_codec::{CodecFixed, Seal};

/// Where a replay stands within a section. The reader is at the item of this position.
#[derive(Drop)]
pub(super) struct Reading<S: Seal> {
    /// The section, which is held (`HasWalk.place`).
    pub(super) section: u64,
    /// The position of the next item, which the reader stands at (`StandsIn.at`).
    pub(super) position: u64,
    /// Over the section's blob, of which all bytes are flushed (`StandsIn.flushed`).
    pub(super) reader: PageReplay<S>,
}

/// A walk over the items of a journal, which gives the journal back.
#[derive(Drop)]
pub struct Replay<A: CodecFixed, S: Seal> {
    /// The journal that is gone over, and that `finish` gives back (`IsWalk`).
    journal: Journal<A, S>,
    /// About how many bytes one read takes.
    buffer: usize,
    /// The section of the first item that is given.
    start_section: u64,
    /// Its position, within that section (`HasWalk.start_within`).
    start_position: u64,
    /// The replay has come to the sections below; to all where there is none (`IsAhead`).
    next_section: Option<u64>,
    /// Where it stands in a section; none between two (`HasWalk.come_to`).
    pub(super) reading: Option<Reading<S>>,
    /// Whether an error was given. Then `finish` refuses.
    pub(super) has_failed: bool,
    /// Whether it gives no more, since an error came while a section was cut (`HasWalk.ends`).
    has_ended: bool,
}

/// The number behind this one, if it is one.
fn number_after(section: u64) -> Option<u64>
    ensures { (result ≡ Some (section + 1)) ⊎ ((result ≡ None) × (2 ^ 64 ≤ section + 1)) }
{
    if section == u64::MAX {
        return None;
    }
    Some(section + 1)
}

/// Takes the sections behind this one out.
pub(super) fn forget_later(numbers: &mut BTreeSet<u64>, section: u64)
    ensures later { (s : ℕ) → section < s → set.contains nat_cmp numbers.new s ≡ false }
    ensures others { (s : ℕ) → s ≤ section → set.contains nat_cmp numbers.new s
        ≡ set.contains nat_cmp numbers.old s }
{
    while let Some(last) = numbers.last().copied().filter(|n| *n > section) {
        numbers.remove(&last);
    }
}

impl<A: CodecFixed, S: Seal> Journal<A, S> {
    ghost use Rattle.segments.specs.FixedShown.{shown};
    ghost use Rattle.segments.specs.FixedLists.{IsJournal};
    ghost use Rattle.segments.specs.FixedFinishing.{Replays};
    ghost use Rattle.segments.specs.FixedWalking.{walk_of};

    // No replay is owed any more of the sections behind this one, nor of this one itself where it was gone
    // over from its start; and none of them has a floor.
    fn recovered_from(self, section: u64, position: u64) -> Self
        ensures sections { (shown result).sections ≡ (shown self).sections }
        ensures recovered { (s : ℕ) → (section < s) ⊎ ((position ≡ 0) × (section ≡ s))
            → (shown result).unrecovered s ≡ false }
        ensures unrecovered { (s : ℕ) → (s < section) ⊎ ((0 < position) × (section ≡ s))
            → (shown result).unrecovered s ≡ (shown self).unrecovered s }
        ensures lifted { (s : ℕ) → (section < s) ⊎ ((position ≡ 0) × (section ≡ s))
            → (shown result).floor_of s ≡ 0 }
        ensures floors { (s : ℕ) → (s < section) ⊎ ((0 < position) × (section ≡ s))
            → (shown result).floor_of s ≡ (shown self).floor_of s }
    {
        let mut this = self;
        forget_later(&mut this.unrecovered, section);
        lift_after(&mut this.floors, section);
        if position == 0 {
            this.unrecovered.remove(&section);
            lower_to(&mut this.floors, section, 0);
        }
        this
    }

    // Whether the position is past the end of the section, if that is held.
    fn is_past(&self, section: u64, position: u64) -> bool
        requires { IsHeld (shown self.now).sections section → (shown self.now).sections.floor
            ≤ section }
        ensures { IsTrue result ↔ IsSomeAnd ((shown self.now).sections.held section)
            (λ u. size_of (page_blob.shown u) / A.SIZE < position) }
    {
        match self.manager.get(section) {
            Ok(Some(buffer)) => buffer.size() / (A::SIZE as u64) < position,
            _ => false,
        }
    }

    /// Goes over the items from this position of this section on, in ascending order. It reads pieces of
    /// about `buffer` bytes.
    ///
    /// It refuses a position past the end of the section, if that is held.
    pub fn replay<D: Device>(
        self,
        dev: &mut D,
        start_section: u64,
        start_position: u64,
        buffer: usize,
    ) -> Result<Replay<A, S>, Error>
        requires over { IsJournal
            ⟦<PageBlob<S> as SectionBuffer>⟧ ⟦<AppendFactory<S> as BufferFactory>⟧.gives
            S.seal_of A.SIZE D.Tells (shown self) (D.opened dev.old) (disk (D.time dev.old)) }
        ensures { Replays S.seal_of A.SIZE
            ⟦<PageBlob<S> as SectionBuffer>⟧ ⟦<AppendFactory<S> as BufferFactory>⟧.gives
            D.Device (shown self) start_section start_position result walk_of dev.old dev.new }
    {
        if self.is_past(start_section, start_position) {
            return Err(Error::ItemOutOfRange(start_position));
        }
        Ok(Replay {
            journal: self,
            buffer,
            start_section,
            start_position,
            next_section: Some(start_section),
            reading: None,
            has_failed: false,
            has_ended: false,
        })
    }
}

impl<A: CodecFixed, S: Seal> Replay<A, S> {
    ghost use Rattle.segments.specs.FixedShown.{shown};
    ghost use Rattle.segments.specs.FixedLists.{OwesHeld, OwesSettled, AreSealed, UnopenedLater};
    ghost use Rattle.segments.specs.FixedReplay.{IsWalk, HasWalk, WalksOver, SameWalk, KeepsSections, KeepsFloors, KeepsBytes, KeepsItems, IsLeft, IsDrained, IsAhead, IsIn, first_of, Gives, Refuses, IsEndedAt, Stops, IsCutting, Replaying, LeavesNoMore, EndsBelow, EndsDamaged, kept_bytes};
    ghost use Rattle.segments.specs.FixedFinishing.{GivesBack};
    ghost use Rattle.segments.specs.FixedCursor.{Ends, Enters};
    ghost use Rattle.segments.specs.FixedNext.{Advances};
    ghost use Rattle.segments.specs.FixedStepping.{standing, after_item, ReadsOnce, EndsAt, Steps, CutsBack, OpensReader};
    ghost use Rattle.segments.specs.FixedWalking.{walk_of, walk_at, place_of};
    ghost use Rattle.sealed_pages.specs.Readers.{reading};

    // The least held section that the replay has not come to.
    pub(super) fn section_ahead(&self) -> Option<u64>
        ensures none { result ≡ None → (s : ℕ) → IsHeld (walk_of self.now).journal.sections s
            → IsAhead (walk_of self.now) s → ⊥ }
        ensures held { IfSome result (IsHeld (walk_of self.now).journal.sections) }
        ensures ahead { IfSome result (IsAhead (walk_of self.now)) }
        ensures least { IfSome result (λ n. (s : ℕ) → IsHeld (walk_of self.now).journal.sections s
            → IsAhead (walk_of self.now) s → n ≤ s) }
    {
        self.journal
            .manager
            .sections_from(self.next_section?)
            .next()
    }

    // Whether the replay stands in no section, and none is ahead.
    fn is_drained(&self) -> bool
        ensures { IsTrue result ↔ IsDrained (walk_of self.now) }
    {
        self.reading.is_none() && self.section_ahead().is_none()
    }

    /// Whether nothing more is given: no section is left, or the replay has ended.
    pub fn is_over(&self) -> bool
        ensures { IsTrue result ↔ (IsDrained (walk_of self.now) ⊎ ((walk_of self.now).ended ≡ true)) }
    {
        self.has_ended || self.is_drained()
    }

    /// Whether a replay of the section is owed.
    pub fn owes(&self, section: u64) -> bool
        ensures { result ≡ (walk_of self.now).journal.unrecovered section }
    {
        self.journal.unrecovered.contains(&section)
    }

    /// The position from which on the items of this section are given.
    pub fn first_position(&self, section: u64) -> u64
        ensures { result ≡ first_of (walk_of self.now) section }
    {
        if section == self.start_section {
            self.start_position
        } else {
            0
        }
    }

    /// The next item, with its section and its position; none where all were given, or where the replay has
    /// ended.
    ///
    /// A section of which a replay is owed is cut durably to its whole items before the first page that no
    /// matching slot covers, or before a partial item at its end; then the replay goes on with the next
    /// section. A cut below the section's floor is refused as `Corruption`. An error ends its section, and
    /// an error while a section is cut ends the replay.
    pub fn next<D: Device>(&mut self, dev: &mut D) -> Option<Result<(u64, u64, A), Error>>
        requires { IsWalk
            ⟦<PageBlob<S> as SectionBuffer>⟧ ⟦<AppendFactory<S> as BufferFactory>⟧.gives
            S.seal_of A.SIZE D.Tells (walk_of self.old) (D.opened dev.old) (disk (D.time dev.old)) }
        ensures { Advances
            ⟦<PageBlob<S> as SectionBuffer>⟧ ⟦<AppendFactory<S> as BufferFactory>⟧.gives
            S.seal_of A.SIZE A.spelling A.accepted A.refusal D.Device dev.old dev.new
            (walk_of self.old) (walk_of self.new) (self.new ≡ self.old) result }
    {
        'steps: while !self.is_over() {
            match self.step(dev) {
                Ok(None) => {}
                Ok(Some(item)) => return Some(Ok(item)),
                Err(e) => {
                    self.has_failed = true;
                    return Some(Err(e));
                }
            }
        }
        None
    }

    // Goes one step on: into the next section, over one item, or to the end of a section.
    fn step<D: Device>(&mut self, dev: &mut D) -> Result<Option<(u64, u64, A)>, Error>
        requires over { IsWalk ⟦<PageBlob<S> as SectionBuffer>⟧
            ⟦<AppendFactory<S> as BufferFactory>⟧.gives S.seal_of A.SIZE D.Tells (walk_of self.old)
            (D.opened dev.old) (disk (D.time dev.old)) }
        requires going { (walk_of self.old).ended ≡ false }
        requires more { IsDrained (walk_of self.old) → ⊥ }
        ensures { Steps S.seal_of A.SIZE ⟦<PageBlob<S> as SectionBuffer>⟧
            ⟦<AppendFactory<S> as BufferFactory>⟧.gives A.spelling A.accepted A.refusal D.Tells
            result (walk_of self.old) (walk_of self.new) (D.opened dev.old) (D.opened dev.new)
            (D.time dev.old) (D.time dev.new) (D.faults dev.old) (D.faults dev.new) }
    {
        if self.reading.is_none() {
            self.enter(dev)?;
            return Ok(None);
        }
        let enough = self.fill(dev, 1)?;
        if enough {
            let Some(reading) = self.reading.take() else {
                return Ok(None);
            };
            return self.take_item(reading);
        }
        self.end(dev)?;
        Ok(None)
    }

    // Begins to read a section. A section of which a replay is owed is read from its start, so that all of
    // it is checked.
    pub(super) fn begin<D: Device>(&mut self, dev: &mut D, section: u64) -> Result<(), Error>
        requires over { IsWalk ⟦<PageBlob<S> as SectionBuffer>⟧
            ⟦<AppendFactory<S> as BufferFactory>⟧.gives S.seal_of A.SIZE D.Tells (walk_of self.old)
            (D.opened dev.old) (disk (D.time dev.old)) }
        requires going { (walk_of self.old).ended ≡ false }
        requires between { (walk_of self.old).place ≡ None }
        requires held { IsHeld (walk_of self.old).journal.sections section }
        requires ahead { IsAhead (walk_of self.old) section }
        requires least { (s : ℕ) → IsHeld (walk_of self.old).journal.sections s
            → IsAhead (walk_of self.old) s → section ≤ s }
        ensures { Enters S.seal_of A.SIZE
            ⟦<PageBlob<S> as SectionBuffer>⟧ ⟦<AppendFactory<S> as BufferFactory>⟧.gives
            A.spelling A.accepted A.refusal D.Tells result (walk_of self.old) (walk_of self.new)
            (D.opened dev.old) (D.opened dev.new) (D.time dev.old) (D.time dev.new)
            (D.faults dev.old) (D.faults dev.new) }
    {
        self.next_section = number_after(section);
        let mut reader = self.open_reader(dev, section)?;
        let position = self.begin_at(section);
        reader.seek_to(position * A::SIZE as u64)?;
        self.reading = Some(Reading {
            section,
            position,
            reader,
        });
        Ok(())
    }

    // The position at which the section is begun.
    fn begin_at(&self, section: u64) -> u64
        ensures { result ≡ cond ((walk_of self.now).journal.unrecovered section) 0
            (first_of (walk_of self.now) section) }
    {
        if self.owes(section) {
            0
        } else {
            self.first_position(section)
        }
    }

    // Flushes the section's bytes, and gives a reader over them. After an error the section may be lost.
    fn open_reader<D: Device>(&mut self, dev: &mut D, section: u64) -> Result<PageReplay<S>, Error>
        requires over { IsOver ⟦<PageBlob<S> as SectionBuffer>⟧
            ⟦<AppendFactory<S> as BufferFactory>⟧.gives D.Tells (walk_of self.old).journal.sections
            (D.opened dev.old) (disk (D.time dev.old)) }
        requires held { IsHeld (walk_of self.old).journal.sections section }
        ensures { OpensReader ⟦<PageBlob<S> as SectionBuffer>⟧
            ⟦<AppendFactory<S> as BufferFactory>⟧.gives S.seal_of D.Device section
            (walk_of self.old) (walk_of self.new) dev.old dev.new result reading }
    {
        let buffer = self.journal.manager.take(dev, section)?;
        // Flushed by this, since the reader does not see what is in the buffer alone.
        let (buffer, reader) = buffer.replay(dev, self.buffer)?;
        self.journal.manager.put(section, buffer)?;
        Ok(reader)
    }

    // Takes the item at hand, unless it stands before the start.
    fn take_item(&mut self, reading: Reading<S>) -> Result<Option<(u64, u64, A)>, Error>
        requires at_hand { A.SIZE ≤ length (place_of reading).reader.bytes }
        requires room { reading.position + 1 < 2 ^ 64 }
        ensures given { (s p : ℕ) (v : A) → result ≡ Ok (Some (s, p, v)) → (s ≡ reading.section)
            × (p ≡ reading.position) × (first_of (walk_of self.old) reading.section
            ≤ reading.position) × IsItem A.spelling A.accepted
            (take A.SIZE (place_of reading).reader.bytes) v }
        ensures skipped { result ≡ Ok None → reading.position
            < first_of (walk_of self.old) reading.section }
        ensures goes { OnOk result (walk_of self.new
            ≡ standing (walk_of self.old) (after_item A.SIZE (place_of reading))) }
        ensures stays { OnErr result (walk_of self.new ≡ walk_of self.old) }
        ensures refused { (e : _) → IsErrOf result (Error.Codec e)
            → (first_of (walk_of self.old) reading.section ≤ reading.position)
            × (A.refusal (take A.SIZE (place_of reading).reader.bytes) tt ≡ Some e) }
        ensures cause { OnErr result (((e : _) × IsErrOf result (Error.Codec e))
            ⊎ IsErrOf result Error.Mem) }
    {
        let mut reading = reading;
        let item = self.item_of(reading.section, reading.position, reading.reader.bytes())?;
        reading.reader.advance(A::SIZE);
        reading.position += 1;
        self.reading = Some(reading);
        Ok(item)
    }

    // The item that these bytes begin with, unless it stands before the start.
    fn item_of(
        &self,
        section: u64,
        position: u64,
        bytes: &[u8],
    ) -> Result<Option<(u64, u64, A)>, Error>
        requires { A.SIZE ≤ length bytes.now }
        ensures given { (s p : ℕ) (v : A) → result ≡ Ok (Some (s, p, v)) → (s ≡ section)
            × (p ≡ position) × (first_of (walk_of self.now) section ≤ position)
            × IsItem A.spelling A.accepted (take A.SIZE bytes.now) v }
        ensures skipped { result ≡ Ok None → position < first_of (walk_of self.now) section }
        ensures refused { (e : _) → IsErrOf result (Error.Codec e)
            → (first_of (walk_of self.now) section ≤ position)
            × (A.refusal (take A.SIZE bytes.now) tt ≡ Some e) }
        ensures cause { OnErr result (((e : _) × IsErrOf result (Error.Codec e))
            ⊎ IsErrOf result Error.Mem) }
    {
        if position < self.first_position(section) {
            return Ok(None);
        }
        let item = A::decode_cfg(self.journal.alloc, &bytes[..A::SIZE], ())?;
        Ok(Some((section, position, item)))
    }

    // Whether bytes stand behind the place, in a section of which a replay is owed.
    pub(super) fn is_torn(&self, reading: &Reading<S>) -> bool
        requires { reading.now.position * A.SIZE < 2 ^ 64 }
        ensures { IsTrue result ↔ (IsTrue ((walk_of self.now).journal.unrecovered
            reading.now.section) × (reading.now.position * A.SIZE
            < (place_of reading.now).reader.size)) }
    {
        let place = reading.position * A::SIZE as u64;
        place < reading.reader.blob_size() && self.owes(reading.section)
    }

    // Comes to the end of a section, behind its last whole item, and cuts off there what is left. A cut
    // below the section's floor is refused.
    pub(super) fn end_cut<D: Device>(
        &mut self,
        dev: &mut D,
        reading: Reading<S>,
    ) -> Result<(), Error>
        requires over { IsWalk ⟦<PageBlob<S> as SectionBuffer>⟧
            ⟦<AppendFactory<S> as BufferFactory>⟧.gives S.seal_of A.SIZE D.Tells
            (walk_at self.old reading) (D.opened dev.old) (disk (D.time dev.old)) }
        requires going { (walk_of self.old).ended ≡ false }
        requires between { (walk_of self.old).place ≡ None }
        requires owed { IsTrue ((walk_of self.old).journal.unrecovered reading.section) }
        requires last { D.Tells → EndsAt S.seal_of A.SIZE (walk_at self.old reading)
            (disk (D.time dev.old)) (place_of reading) true }
        ensures { Ends S.seal_of A.SIZE ⟦<PageBlob<S> as SectionBuffer>⟧
            ⟦<AppendFactory<S> as BufferFactory>⟧.gives A.spelling A.accepted A.refusal D.Tells
            result (walk_at self.old reading) (walk_of self.new) (D.opened dev.old)
            (D.opened dev.new) (D.time dev.old) (D.time dev.new) (D.faults dev.old)
            (D.faults dev.new) (place_of reading) }
    {
        self.check_floor(reading.section, reading.position)?;
        // Behind the check of the floor: no item that a marker vouches for is cut.
        self.cut(dev, reading.section, reading.position)?;
        self.check_start(reading.section, reading.position)?;
        Ok(())
    }

    // Refuses a cut to so many items where the section's floor is higher.
    fn check_floor(&self, section: u64, count: u64) -> Result<(), Error>
        requires { count * A.SIZE < 2 ^ 64 }
        ensures ok { OnOk result ((walk_of self.now).journal.floor_of section ≤ count * A.SIZE) }
        ensures below { (x : _) → IsErrOf result (Error.Corruption x) → (x.section ≡ section)
            × (x.kept ≡ count * A.SIZE) × (x.wanted ≡ (walk_of self.now).journal.floor_of section)
            × (x.kept < x.wanted) }
        ensures cause { OnErr result (IsBelowFloor result) }
    {
        let kept = count * A::SIZE as u64;
        let wanted = floor_at(&self.journal.floors, section);
        if kept < wanted {
            return Err(Error::Corruption(Damage {
                section,
                kept,
                wanted,
            }));
        }
        Ok(())
    }

    // Refuses the start where its section has fewer items.
    pub(super) fn check_start(&self, section: u64, count: u64) -> Result<(), Error>
        ensures ok { OnOk result (first_of (walk_of self.now) section ≤ count) }
        ensures fewer { (p : ℕ) → IsErrOf result (Error.ItemOutOfRange p)
            → (section ≡ (walk_of self.now).start_section) × (p ≡ (walk_of self.now).start_position)
            × (count < p) }
        ensures cause { OnErr result (IsErrOf result
            (Error.ItemOutOfRange (walk_of self.now).start_position)) }
    {
        let first = self.first_position(section);
        if count < first {
            return Err(Error::ItemOutOfRange(first));
        }
        Ok(())
    }

    // Cuts a section to so many items of its sealed prefix. An error ends the replay, since the section's
    // buffer is gone.
    pub(super) fn cut<D: Device>(
        &mut self,
        dev: &mut D,
        section: u64,
        count: u64,
    ) -> Result<(), Error>
        requires over { IsOver ⟦<PageBlob<S> as SectionBuffer>⟧
            ⟦<AppendFactory<S> as BufferFactory>⟧.gives D.Tells (walk_of self.old).journal.sections
            (D.opened dev.old) (disk (D.time dev.old)) }
        requires held { IsHeld (walk_of self.old).journal.sections section }
        requires settled { (u : _) → (walk_of self.old).journal.sections.held section ≡ Some u
            → u.settled ≡ size_of (page_blob.shown u) }
        requires within { (u : _) → (walk_of self.old).journal.sections.held section ≡ Some u
            → count * A.SIZE ≤ size_of (page_blob.shown u) }
        requires prefix { D.Tells → (u : _) → (walk_of self.old).journal.sections.held section
            ≡ Some u → count * A.SIZE ≤ length (sealed_prefix S.seal_of u.page_size
            (disk (D.time dev.old) (key_of (walk_of self.old).journal.sections section)).content) }
        ensures { CutsBack ⟦<PageBlob<S> as SectionBuffer>⟧
            ⟦<AppendFactory<S> as BufferFactory>⟧.gives S.seal_of D.Device section
            (walk_of self.old) (walk_of self.new) dev.old dev.new result (count * A.SIZE) }
    {
        // Set until the cut is durable: an error in between ends the replay.
        self.has_ended = true;
        let buffer = self.journal.manager.take(dev, section)?;
        // Before any append: none may stand behind bytes that no seal covers.
        let buffer = buffer.truncate(dev, count * A::SIZE as u64)?;
        self.journal.manager.put(section, buffer)?;
        self.has_ended = false;
        Ok(())
    }

    /// Gives the journal back. The sections that were gone over from their start on take appends again.
    ///
    /// It answers `ReplayFailed` where an item is left, or an error was given.
    pub fn finish(self) -> Result<Journal<A, S>, Error>
        ensures { GivesBack S.seal_of A.SIZE A.spelling A.accepted (walk_of self) result shown }
    {
        if self.has_failed || !self.is_drained() {
            return Err(Error::ReplayFailed);
        }
        let Replay {
            journal,
            start_section,
            start_position,
            ..
        } = self;
        Ok(journal.recovered_from(start_section, start_position))
    }
}
