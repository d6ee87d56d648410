// A cursor over a replay, for a layer that keeps something else than items in the bytes: it looks at items
// before it passes over them, and may cut a section once more.
ghost use Rattle.std.specs.Prelude.{◌≡◌, ◌+◌, ◌*◌, ◌<◌, ◌≤◌, ◌^◌, Some, None, true, false, [], length, take, IfSome, IsSome, MatchOption};
ghost use Rattle.std.specs.Option.{option_map};
ghost use Rattle.blob_device.specs.Timeline.{disk};
ghost use Rattle.segments.specs.FixedBounds.{whole_of};

use super::Replay;
use crate::journal::Error;
use crate::{AppendFactory, BufferFactory, SectionBuffer};
use blob_device::{Device, RError};
use sealed_pages::PageBlob;
use value_codec::{CodecFixed, Seal};

impl<A: CodecFixed, S: Seal> Replay<A, S> {
    ghost use Rattle.segments.specs.FixedCursor.{leaving, passing, Ends, Enters, Fills, MayBeShortened, Shortens, Turns};
    ghost use Rattle.segments.specs.FixedReplay.{HasWalk, IsWalk, IsDrained, kept_bytes};
    ghost use Rattle.segments.specs.FixedStepping.{failing};
    ghost use Rattle.segments.specs.FixedWalking.{walk_of};

    /// The section in which it stands, and the position there; none between two sections.
    pub fn place(&self) -> Option<(u64, u64)>
        ensures { result ≡ option_map (λ r. (r.section, r.position)) (walk_of self.now).place }
    {
        match &self.reading {
            Some(reading) => Some((reading.section, reading.position)),
            None => None,
        }
    }

    /// How many bytes the section has in which it stands, also those that are not kept; 0 between two
    /// sections. Who looks here before a fill reads no rest of a section for items that can't be there.
    pub fn size(&self) -> u64
        ensures { MatchOption (walk_of self.now).place (result ≡ 0) (λ r. result ≡ r.reader.size) }
    {
        match &self.reading {
            Some(reading) => reading.reader.blob_size(),
            None => 0,
        }
    }

    /// Goes into the next section. The replay stands in none, and one is ahead. A section of which a replay
    /// is owed is begun at its start, so that all of it is checked.
    pub fn enter<D: Device>(&mut self, dev: &mut D) -> Result<(), Error>
        requires over { IsWalk
            ⟦<PageBlob<S> as SectionBuffer>⟧ ⟦<AppendFactory<S> as BufferFactory>⟧.gives
            S.seal_of A.SIZE D.Tells (walk_of self.old) (D.opened dev.old) (disk (D.time dev.old)) }
        requires going { (walk_of self.old).ended ≡ false }
        requires between { (walk_of self.old).place ≡ None }
        requires more { IsDrained (walk_of self.old) → ⊥ }
        ensures { Enters S.seal_of A.SIZE
            ⟦<PageBlob<S> as SectionBuffer>⟧ ⟦<AppendFactory<S> as BufferFactory>⟧.gives
            A.spelling A.accepted A.refusal D.Tells result (walk_of self.old) (walk_of self.new)
            (D.opened dev.old) (D.opened dev.new) (D.time dev.old) (D.time dev.new)
            (D.faults dev.old) (D.faults dev.new) }
    {
        match self.section_ahead() {
            Some(section) => self.begin(dev, section),
            None => Ok(()),
        }
    }

    /// Whether so many items are kept from the place on. Then they are at hand. Of a section that owes a
    /// replay nothing is kept from the first page on that no matching slot covers. Of any other such a page
    /// is answered.
    pub fn fill<D: Device>(&mut self, dev: &mut D, count: usize) -> Result<bool, Error>
        requires over { IsWalk
            ⟦<PageBlob<S> as SectionBuffer>⟧ ⟦<AppendFactory<S> as BufferFactory>⟧.gives
            S.seal_of A.SIZE D.Tells (walk_of self.old) (D.opened dev.old) (disk (D.time dev.old)) }
        requires stands { IsSome (walk_of self.old).place }
        requires fits { count * A.SIZE < 2 ^ 64 }
        ensures { (r : _) → (walk_of self.old).place ≡ Some r → Fills S.seal_of A.SIZE
            ⟦<PageBlob<S> as SectionBuffer>⟧ ⟦<AppendFactory<S> as BufferFactory>⟧.gives
            D.Device count r result (walk_of self.old) (walk_of self.new) dev.old dev.new }
    {
        let Some(mut reading) = self.reading.take() else {
            return Ok(false);
        };
        match reading.reader.ensure(dev, count * A::SIZE) {
            Ok(enough) => {
                self.reading = Some(reading);
                Ok(enough)
            }
            Err(e) => match e {
                RError::InvalidChecksum(page) => {
                    if !self.owes(reading.section) {
                        return Err(Error::Runtime(RError::InvalidChecksum(page)));
                    }
                    self.reading = Some(reading);
                    Ok(false)
                }
                e => Err(Error::from(e)),
            },
        }
    }

    /// The whole items at hand, from the place on; no bytes between two sections.
    pub fn at_hand(&self) -> &[u8]
        ensures { MatchOption (walk_of self.now).place (result.now ≡ [])
            (λ r. result.now ≡ take (whole_of A.SIZE (length r.reader.bytes)) r.reader.bytes) }
    {
        match &self.reading {
            Some(reading) => {
                let bytes = reading.reader.bytes();
                &bytes[..bytes.len() / A::SIZE * A::SIZE]
            }
            None => &[],
        }
    }

    /// Passes over so many items, which are at hand.
    pub fn pass(&mut self, count: usize)
        requires walk { HasWalk A.SIZE (walk_of self.old) }
        requires at_hand { IfSome (walk_of self.old).place
            (λ r. count * A.SIZE ≤ length r.reader.bytes) }
        ensures { Turns S.seal_of A.SIZE (passing A.SIZE count (walk_of self.old))
            (walk_of self.old) (walk_of self.new) }
    {
        let Some(mut reading) = self.reading.take() else {
            return;
        };
        reading.reader.advance(count * A::SIZE);
        reading.position += count as u64;
        self.reading = Some(reading);
    }

    /// Ends the section in which it stands, of which no whole item is left. It cuts off what is left, where
    /// a replay is owed. A cut below the section's floor is refused, and so is a start behind its end.
    pub fn end<D: Device>(&mut self, dev: &mut D) -> Result<(), Error>
        requires over { IsWalk
            ⟦<PageBlob<S> as SectionBuffer>⟧ ⟦<AppendFactory<S> as BufferFactory>⟧.gives
            S.seal_of A.SIZE D.Tells (walk_of self.old) (D.opened dev.old) (disk (D.time dev.old)) }
        requires going { (walk_of self.old).ended ≡ false }
        requires stands { IsSome (walk_of self.old).place }
        // No whole item is kept from the place on.
        requires last { D.Tells → IfSome (walk_of self.old).place (λ r. length
            (kept_bytes S.seal_of A.SIZE (walk_of self.old) (disk (D.time dev.old)) r.section)
            < (r.position + 1) * A.SIZE) }
        ensures { (r : _) → (walk_of self.old).place ≡ Some r → Ends S.seal_of A.SIZE
            ⟦<PageBlob<S> as SectionBuffer>⟧ ⟦<AppendFactory<S> as BufferFactory>⟧.gives
            A.spelling A.accepted A.refusal D.Tells result (walk_of self.old) (walk_of self.new)
            (D.opened dev.old) (D.opened dev.new) (D.time dev.old) (D.time dev.new)
            (D.faults dev.old) (D.faults dev.new) r }
    {
        let Some(reading) = self.reading.take() else {
            return Ok(());
        };
        if self.is_torn(&reading) {
            // All whole items of the section stand before the place.
            return self.end_cut(dev, reading);
        }
        self.check_start(reading.section, reading.position)?;
        Ok(())
    }

    /// Cuts a section that was gone over to `size` bytes, whole items of it, durably: what the layer above
    /// finds torn behind them. An error ends the replay, since the section's buffer is gone.
    pub fn shorten<D: Device>(&mut self, dev: &mut D, section: u64, size: u64) -> Result<(), Error>
        requires over { IsWalk
            ⟦<PageBlob<S> as SectionBuffer>⟧ ⟦<AppendFactory<S> as BufferFactory>⟧.gives
            S.seal_of A.SIZE D.Tells (walk_of self.old) (D.opened dev.old) (disk (D.time dev.old)) }
        requires going { (walk_of self.old).ended ≡ false }
        requires may { MayBeShortened S.seal_of A.SIZE D.Tells section size (walk_of self.old)
            (disk (D.time dev.old)) }
        ensures { Shortens S.seal_of A.SIZE
            ⟦<PageBlob<S> as SectionBuffer>⟧ ⟦<AppendFactory<S> as BufferFactory>⟧.gives
            D.Device section size result (walk_of self.old) (walk_of self.new) dev.old dev.new }
    {
        // Behind the section's own cut, which left it sealed: what is cut now had settled.
        self.cut(dev, section, size / A::SIZE as u64)?;
        Ok(())
    }

    /// Ends the section in which it stands, by an error of the layer above. The journal is not given back
    /// then.
    pub fn leave(&mut self)
        ensures { Turns S.seal_of A.SIZE (failing (leaving (walk_of self.old)))
            (walk_of self.old) (walk_of self.new) }
    {
        self.reading = None;
        self.has_failed = true;
    }

    /// Notes that an error was given: the journal is not given back then.
    pub fn fail(&mut self)
        ensures { Turns S.seal_of A.SIZE (failing (walk_of self.old))
            (walk_of self.old) (walk_of self.new) }
    {
        self.has_failed = true;
    }
}
