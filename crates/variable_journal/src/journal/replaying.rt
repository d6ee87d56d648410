// Going over the items of a journal from an offset on, and cutting what is torn.
//
//     0              whole frames end      sealed prefix ends     size
//     +-------------------+----------------------+-----------------+
//     | items, in frames  | a frame cut short    | no seal covers  |
//     +-------------------+----------------------+-----------------+
//                         ^ second cut           ^ first cut
//
// A section that owes a replay is cut twice: to its sealed prefix, and then to the whole frames in it. Between the
// two, and within each, a crash leaves all whole frames. A section that owes none is not cut.
//
// Where five bytes or more are left that say no length, nothing is cut off there: that is the codec's error.
ghost use Rattle.std.specs.Prelude.{◌≡◌, ◌<◌, ◌≤◌, ◌++◌, ℕ, List, [], false, Some, IfOk, IfSome, length};
ghost use Rattle.blob_device.specs.Timeline.{disk};
ghost use Rattle.section_manager.specs.Answers.{seen};
ghost use Rattle.section_manager.specs.Sections.{IsHeld};
ghost use Rattle.variable_journal.specs.Turning.{IsSmall, Says};

use super::Journal;
use super::reading::{LONGEST, length_of};
use crate::byte::Byte;
use blob_device::Device;
use sealed_pages::PageBlob;
use segments::journal::Error;
use segments::{AppendFactory, BufferFactory, SectionBuffer, fixed};
use std::alloc::Global;
use value_codec::{Codec, Seal, codec};

/// A walk over the items of a journal, which gives the journal back.
#[derive(Drop)]
pub struct Replay<V: Codec, S: Seal> {
    /// Where memory for items comes from.
    alloc: Global,
    /// The replay of the bytes, which stands where a frame begins (`IsFrameWalk.place`).
    bytes: fixed::Replay<Byte, S>,
    /// What decoding an item needs to know.
    codec_config: V::Cfg,
}

impl<V: Codec, S: Seal> Journal<V, S> {
    ghost use Rattle.variable_journal.specs.Finishing.{BeginsFrames};
    ghost use Rattle.variable_journal.specs.Lists.{IsJournal};
    ghost use Rattle.variable_journal.specs.Replaying.{IsStart};
    ghost use Rattle.variable_journal.specs.Shown as journal;
    ghost use Rattle.variable_journal.specs.Shown.{shown};
    ghost use Rattle.variable_journal.specs.Walking.{config_of, walk_of};

    /// Goes over the items from this offset of this section on, in ascending order. It is meant to read pieces of about
    /// `buffer` bytes. The start is a boundary: the offset of an item, or where the last one ends, or past the end.
    ///
    /// It refuses an offset past the end of the section, if that is held.
    pub fn replay<D: Device>(
        self,
        dev: &mut D,
        start_section: u64,
        start_offset: u64,
        buffer: usize,
    ) -> Result<Replay<V, S>, Error>
        requires over { IsJournal
            ⟦<PageBlob<S> as SectionBuffer>⟧ ⟦<AppendFactory<S> as BufferFactory>⟧.gives
            S.seal_of D.Tells (shown self) (D.opened dev.old) (disk (D.time dev.old)) }
        requires start { D.Tells → IsHeld (shown self).sections start_section → IsStart
            S.seal_of (shown self) (disk (D.time dev.old)) start_section start_offset }
        ensures { BeginsFrames
            ⟦<PageBlob<S> as SectionBuffer>⟧ ⟦<AppendFactory<S> as BufferFactory>⟧.gives
            S.seal_of (journal.config_of self) D.Device (shown self) start_section start_offset
            (seen walk_of result) (seen config_of result) dev.old dev.new }
    {
        let Journal {
            alloc,
            bytes,
            codec_config,
        } = self;
        let bytes = bytes.replay(dev, start_section, start_offset, buffer)?;
        Ok(Replay {
            alloc,
            bytes,
            codec_config,
        })
    }
}

/// An item, with its section, its offset and its length.
type Item<V> = (u64, u64, u32, V);

// What stands where a frame may begin.
#[derive(Clone, Copy)]
enum Header {
    // A length, and how many bytes it takes.
    Length(u32, usize),
    // Fewer bytes than a length has, and none of them ends one.
    Cut,
    // Five bytes that say no length.
    Bad,
}

// What stands at the start of these bytes, which are five, or all that are left.
fn first_header(prefix: &[u8]) -> Header
    ensures says { (rest : List ℕ) → (length prefix.now < 5 → rest ≡ [])
        → Says result (prefix.now ++ rest) }
    ensures small { length prefix.now ≤ 5 → IsSmall result }
{
    match length_of(prefix) {
        Ok(Some((size, header))) => Header::Length(size, header),
        Ok(None) => Header::Cut,
        Err(_) => Header::Bad,
    }
}

impl<V: Codec, S: Seal> Replay<V, S> {
    ghost use Rattle.segments.specs.FixedReplay.{Place};
    ghost use Rattle.variable_journal.specs.Advancing.{IsGoing, Nexts};
    ghost use Rattle.variable_journal.specs.Draining.{DrainEnds};
    ghost use Rattle.variable_journal.specs.Finishing.{Finishes};
    ghost use Rattle.variable_journal.specs.Shown as journal;
    ghost use Rattle.variable_journal.specs.Shown.{shown};
    ghost use Rattle.variable_journal.specs.Turning.{FindsHeader, HasLooked, HasReached, HasSkipped, IsAtFrame, IsAtTorn, IsUnder, MayLook, TurnEnds};
    ghost use Rattle.variable_journal.specs.Walking.{config_of, walk_of};

    /// The next item, with its section, its offset and its length; none where all were given, or where the replay has
    /// ended.
    ///
    /// An error ends its section, and the replay goes on with the next. One that leaves a cut undone ends the replay,
    /// and none is answered then. `Codec` says why the first item, or length, is refused that is left.
    /// `ItemOutOfRange` says that the start's section keeps fewer bytes.
    pub fn next<D: Device>(&mut self, dev: &mut D) -> Option<Result<(u64, u64, u32, V), Error>>
        requires { IsGoing
            ⟦<PageBlob<S> as SectionBuffer>⟧ ⟦<AppendFactory<S> as BufferFactory>⟧.gives
            S.seal_of D.Device (walk_of self.old) dev.old }
        ensures { Nexts
            ⟦<PageBlob<S> as SectionBuffer>⟧ ⟦<AppendFactory<S> as BufferFactory>⟧.gives
            S.seal_of D.Device V.spelling V.accepted V.refusal (config_of self.old)
            (walk_of self.old) (walk_of self.new) dev.old dev.new result (config_of self.new) }
    {
        'turns: while !self.bytes.is_over() {
            match self.turn(dev) {
                Ok(None) => {}
                Ok(Some(item)) => return Some(Ok(item)),
                Err(e) => {
                    // The error is noted, and its section is not gone on with.
                    self.bytes.leave();
                    return Some(Err(e));
                }
            }
        }
        None
    }

    // Goes into a section, or takes the frame at the place, or ends the section.
    fn turn<D: Device>(&mut self, dev: &mut D) -> Result<Option<Item<V>>, Error>
        requires { IsUnder
            ⟦<PageBlob<S> as SectionBuffer>⟧ ⟦<AppendFactory<S> as BufferFactory>⟧.gives
            S.seal_of D.Device (walk_of self.old) dev.old }
        ensures config { config_of self.new ≡ config_of self.old }
        ensures ends { TurnEnds
            ⟦<PageBlob<S> as SectionBuffer>⟧ ⟦<AppendFactory<S> as BufferFactory>⟧.gives
            S.seal_of D.Device V.spelling V.accepted V.refusal (config_of self.old)
            (walk_of self.old) (walk_of self.new) dev.old dev.new result }
    {
        let Some((section, offset)) = self.bytes.place() else {
            // The section's bytes are flushed first, so that all of them are read from the blob.
            self.bytes.enter(dev)?;
            return Ok(None);
        };
        match self.header(dev)? {
            Header::Length(size, header) => self.frame(dev, section, offset, header, size),
            Header::Cut => self.end(dev, section, offset),
            Header::Bad => Err(Error::Codec(codec::Error::InvalidVarint)),
        }
    }

    // How many bytes of a length are at hand: five, or all that are kept.
    fn look<D: Device>(&mut self, dev: &mut D) -> Result<usize, Error>
        requires { MayLook
            ⟦<PageBlob<S> as SectionBuffer>⟧ ⟦<AppendFactory<S> as BufferFactory>⟧.gives
            S.seal_of D.Device (walk_of self.old) dev.old }
        ensures config { config_of self.new ≡ config_of self.old }
        ensures looked { (r : Place) → (walk_of self.old).place ≡ Some r → HasLooked
            ⟦<PageBlob<S> as SectionBuffer>⟧ ⟦<AppendFactory<S> as BufferFactory>⟧.gives
            S.seal_of D.Device r (walk_of self.old) (walk_of self.new) dev.old dev.new result }
    {
        // Mostly so many are kept, and are at hand after one call.
        if self.bytes.fill(dev, LONGEST)? {
            return Ok(LONGEST);
        }
        self.look_last(dev)
    }

    // The same near the end of what is kept.
    fn look_last<D: Device>(&mut self, dev: &mut D) -> Result<usize, Error>
        requires { MayLook
            ⟦<PageBlob<S> as SectionBuffer>⟧ ⟦<AppendFactory<S> as BufferFactory>⟧.gives
            S.seal_of D.Device (walk_of self.old) dev.old }
        ensures config { config_of self.new ≡ config_of self.old }
        ensures looked { (r : Place) → (walk_of self.old).place ≡ Some r → HasLooked
            ⟦<PageBlob<S> as SectionBuffer>⟧ ⟦<AppendFactory<S> as BufferFactory>⟧.gives
            S.seal_of D.Device r (walk_of self.old) (walk_of self.new) dev.old dev.new result }
    {
        let mut count = 0;
        'bytes: while count < LONGEST {
            // One byte more at a time: where fewer than five are kept, they are at hand then.
            if !self.bytes.fill(dev, count + 1)? {
                return Ok(count);
            }
            count += 1;
        }
        Ok(count)
    }

    // What stands at the place.
    fn header<D: Device>(&mut self, dev: &mut D) -> Result<Header, Error>
        requires { MayLook
            ⟦<PageBlob<S> as SectionBuffer>⟧ ⟦<AppendFactory<S> as BufferFactory>⟧.gives
            S.seal_of D.Device (walk_of self.old) dev.old }
        ensures config { config_of self.new ≡ config_of self.old }
        ensures header { (r : Place) → (walk_of self.old).place ≡ Some r → FindsHeader
            ⟦<PageBlob<S> as SectionBuffer>⟧ ⟦<AppendFactory<S> as BufferFactory>⟧.gives
            S.seal_of D.Device r (walk_of self.old) (walk_of self.new) dev.old dev.new result }
    {
        let count = self.look(dev)?;
        // They are at hand: no call of the device is made.
        self.bytes.fill(dev, count)?;
        Ok(first_header(&self.bytes.at_hand()[..count]))
    }

    // Whether so many bytes are kept from the place on. Then they are at hand.
    fn reach<D: Device>(&mut self, dev: &mut D, offset: u64, count: usize) -> Result<bool, Error>
        requires look { MayLook
            ⟦<PageBlob<S> as SectionBuffer>⟧ ⟦<AppendFactory<S> as BufferFactory>⟧.gives
            S.seal_of D.Device (walk_of self.old) dev.old }
        requires at { IfSome (walk_of self.old).place (λ r. r.position ≡ offset) }
        ensures config { config_of self.new ≡ config_of self.old }
        ensures reached { (r : Place) → (walk_of self.old).place ≡ Some r → HasReached
            ⟦<PageBlob<S> as SectionBuffer>⟧ ⟦<AppendFactory<S> as BufferFactory>⟧.gives
            S.seal_of D.Device r (walk_of self.old) (walk_of self.new) dev.old dev.new count result }
    {
        // A section that is too short is not read to its end for this.
        if self.bytes.size() - offset < count as u64 {
            return Ok(false);
        }
        self.bytes.fill(dev, count)
    }

    // Takes the frame at the place, unless it is cut short. One before the start is passed over.
    fn frame<D: Device>(
        &mut self,
        dev: &mut D,
        section: u64,
        offset: u64,
        header: usize,
        size: u32,
    ) -> Result<Option<Item<V>>, Error>
        requires frame { IsAtFrame
            ⟦<PageBlob<S> as SectionBuffer>⟧ ⟦<AppendFactory<S> as BufferFactory>⟧.gives
            S.seal_of D.Device section offset header size (walk_of self.old) dev.old }
        ensures config { config_of self.new ≡ config_of self.old }
        ensures ends { TurnEnds
            ⟦<PageBlob<S> as SectionBuffer>⟧ ⟦<AppendFactory<S> as BufferFactory>⟧.gives
            S.seal_of D.Device V.spelling V.accepted V.refusal (config_of self.old)
            (walk_of self.old) (walk_of self.new) dev.old dev.new result }
    {
        let whole = header + size as usize;
        if !self.reach(dev, offset, whole)? {
            return self.end(dev, section, offset);
        }
        if offset < self.bytes.first_position(section) {
            self.bytes.pass(whole);
            return Ok(None);
        }
        let item = V::decode_cfg(
            self.alloc,
            &self.bytes.at_hand()[header..whole],
            self.codec_config,
        )?;
        self.bytes.pass(whole);
        Ok(Some((section, offset, size, item)))
    }

    // Passes over what is left of the section, so that all of it is looked at.
    fn skip<D: Device>(&mut self, dev: &mut D) -> Result<(), Error>
        requires { MayLook
            ⟦<PageBlob<S> as SectionBuffer>⟧ ⟦<AppendFactory<S> as BufferFactory>⟧.gives
            S.seal_of D.Device (walk_of self.old) dev.old }
        ensures config { config_of self.new ≡ config_of self.old }
        ensures skipped { (r : Place) → (walk_of self.old).place ≡ Some r → HasSkipped
            ⟦<PageBlob<S> as SectionBuffer>⟧ ⟦<AppendFactory<S> as BufferFactory>⟧.gives
            S.seal_of D.Device r (walk_of self.old) (walk_of self.new) dev.old dev.new result }
    {
        'rest: while self.bytes.fill(dev, 1)? {
            let count = self.bytes.at_hand().len();
            self.bytes.pass(count);
        }
        Ok(())
    }

    // Ends the section, of which no whole frame is left from the offset on. It cuts what is torn.
    fn end<D: Device>(
        &mut self,
        dev: &mut D,
        section: u64,
        offset: u64,
    ) -> Result<Option<Item<V>>, Error>
        requires torn { IsAtTorn
            ⟦<PageBlob<S> as SectionBuffer>⟧ ⟦<AppendFactory<S> as BufferFactory>⟧.gives
            S.seal_of D.Device section offset (walk_of self.old) dev.old }
        ensures config { config_of self.new ≡ config_of self.old }
        ensures ends { TurnEnds
            ⟦<PageBlob<S> as SectionBuffer>⟧ ⟦<AppendFactory<S> as BufferFactory>⟧.gives
            S.seal_of D.Device V.spelling V.accepted V.refusal (config_of self.old)
            (walk_of self.old) (walk_of self.new) dev.old dev.new result }
    {
        self.skip(dev)?;
        let Some((_, kept)) = self.bytes.place() else {
            return Ok(None);
        };
        // The first cut, to the sealed prefix: where a frame is torn is known only of sealed bytes.
        self.bytes.end(dev)?;
        if kept <= offset {
            return Ok(None);
        }
        if !self.bytes.owes(section) {
            // Not over a device that tells its disk: such a section is whole frames.
            return Err(Error::Codec(codec::Error::EndOfBuffer));
        }
        let first = self.bytes.first_position(section);
        if offset < first {
            return Err(Error::ItemOutOfRange(first));
        }
        // The second cut, to the whole frames. Behind the first, which left the section sealed.
        self.bytes.shorten(dev, section, offset)?;
        Ok(None)
    }

    // Goes over all items that are left, and gives the journal back, or the first error.
    pub(super) fn drain<D: Device>(self, dev: &mut D) -> Result<Journal<V, S>, Error>
        requires over { IsGoing
            ⟦<PageBlob<S> as SectionBuffer>⟧ ⟦<AppendFactory<S> as BufferFactory>⟧.gives
            S.seal_of D.Device (walk_of self) dev.old }
        requires fine { (walk_of self).failed ≡ false }
        requires going { (walk_of self).ended ≡ false }
        ensures config { IfOk (seen journal.config_of result) (λ c. c ≡ config_of self) }
        ensures ends { DrainEnds
            ⟦<PageBlob<S> as SectionBuffer>⟧ ⟦<AppendFactory<S> as BufferFactory>⟧.gives
            S.seal_of D.Device V.spelling V.accepted V.refusal (config_of self) (walk_of self)
            dev.old (seen shown result) (seen journal.config_of result) dev.new }
    {
        let mut this = self;
        'items: while let Some(next) = this.next(dev) {
            next?;
        }
        this.finish()
    }

    /// Gives the journal back. The sections that were gone over from their start on take appends again.
    ///
    /// It answers `ReplayFailed` where an item is left, or an error was given.
    pub fn finish(self) -> Result<Journal<V, S>, Error>
        ensures { Finishes S.seal_of V.spelling V.accepted (config_of self) (walk_of self)
            (seen shown result) (seen journal.config_of result) }
    {
        let Replay {
            alloc,
            bytes,
            codec_config,
        } = self;
        let bytes = bytes.finish()?;
        Ok(Journal {
            alloc,
            bytes,
            codec_config,
        })
    }
}
