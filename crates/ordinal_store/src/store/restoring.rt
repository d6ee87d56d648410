// The parts of opening one section: it is opened and mended, and then checked.
ghost use Rattle.std.specs.Prelude.{◌≡◌, ◌+◌, ◌*◌, ◌^◌, ◌≤◌, ◌<◌, ℕ, Some, None, true};
ghost use Rattle.sealed_pages.specs.unsealed.Writing.{blob_key, shown as buffer_shown};
ghost use Rattle.ordinal_store.specs.Adopting.{IsReady};
ghost use Rattle.ordinal_store.specs.Marking.{is_wanted};
ghost use Rattle.ordinal_store.specs.Reopening.{Checking, HasWanted, Reopening};
ghost use Rattle.ordinal_store.specs.Stores.{key_of, sight};

use super::Ordinal;
use super::adopting::adopted;
use crate::BitMap;
use crate::checking::{check_marked, sound_slots};
use crate::mending::mended;
use crate::ordinal::Error;
use blob_device::Device;
use sealed_pages::WriteBlob;
use value_codec::{CodecFixed, Seal};

impl<A: CodecFixed, S: Seal> Ordinal<A, S> {
    ghost use Rattle.ordinal_store.specs.Shown.{shown};

    // Opens a section and mends it.
    pub(super) fn reopened<D: Device>(
        &self,
        dev: &mut D,
        section: u64,
        marks: &Option<BitMap>,
    ) -> Result<WriteBlob, Error>
        ensures { Reopening D.Tells (key_of (shown A.SIZE S.seal_of A.refusal self.now) section)
            self.now.capacity (A.SIZE + 4) marks.now result (sight D.Device dev.old) (sight D.Device dev.new) }
    {
        let buffer = adopted(
            self.alloc,
            dev,
            self.partition.as_str(),
            section,
            self.capacity,
        )?;
        mended(self.alloc, dev, buffer, marks, A::SIZE + 4)
    }

    // Refuses a section that has to be full where it has more slots, or where one of its slots holds no value.
    fn check_full<D: Device>(
        &self,
        dev: &mut D,
        buffer: &WriteBlob,
        section: u64,
        piece_size: usize,
    ) -> Result<(), Error>
        requires items { 1 ≤ self.now.items }
        requires fits { section * self.now.items + self.now.items ≤ 2 ^ 64 }
        requires ready { IsReady D.Tells (blob_key (buffer_shown buffer.now)) buffer.now.capacity
            (sight D.Device dev.old) buffer.now }
        ensures { Checking D.Tells (shown A.SIZE S.seal_of A.refusal self.now).layout section None
            (blob_key (buffer_shown buffer.now)) buffer.now result (sight D.Device dev.old)
            (sight D.Device dev.new) }
    {
        let first = section * self.items;
        let count = buffer.size() / (A::SIZE + 4) as u64;
        if count > self.items {
            return Err(Error::InvalidRecord(first.saturating_add(self.items)));
        }
        let sound = sound_slots::<A, S, D>(self.alloc, dev, buffer, count, piece_size)?;
        if sound < self.items {
            return Err(Error::MissingRecord(first + sound));
        }
        Ok(())
    }

    // Refuses a mended section that does not have what is wanted of it.
    pub(super) fn check_section<D: Device>(
        &self,
        dev: &mut D,
        buffer: &WriteBlob,
        wanted: (u64, &Option<BitMap>),
        piece_size: usize,
    ) -> Result<(), Error>
        requires items { 1 ≤ self.now.items }
        requires fits { (p : ℕ) → is_wanted self.now.items (Some wanted.1.now) p ≡ true
            → wanted.0 * self.now.items + p < 2 ^ 64 }
        requires kept { HasWanted self.now.items wanted.1.now }
        requires ready { IsReady D.Tells (blob_key (buffer_shown buffer.now)) buffer.now.capacity
            (sight D.Device dev.old) buffer.now }
        ensures { Checking D.Tells (shown A.SIZE S.seal_of A.refusal self.now).layout wanted.entry.0
            wanted.entry.1.now (blob_key (buffer_shown buffer.now)) buffer.now result
            (sight D.Device dev.old) (sight D.Device dev.new) }
    {
        let (section, marks) = wanted;
        match marks {
            None => self.check_full(dev, buffer, section, piece_size),
            Some(bits) => {
                let count = buffer.size() / (A::SIZE + 4) as u64;
                check_marked(section * self.items, self.items, count, bits)
            }
        }
    }
}
