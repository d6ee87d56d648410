// Sections by their number.
//
// A manager opens, makes, settles, cuts and removes the sections of a partition. What the bytes of a section
// mean is the affair of its buffer, a `SectionBuffer` over a blob of its own.
//
// # Format
//
// A section's blob is named by the eight bytes of its number, big-endian. The partition has no other blob:
//
//     partition
//       0000000000000004     section 4
//       0000000000000102     section 258
//
// Floor and ceiling are in memory alone:
//
//     0              floor                  ceiling
//     +--------------+----------------------+-------------------------+
//     | pruned: each | held, or not there:  | known and not opened    |
//     | call refuses | a call makes it      | until they are removed  |
//     +--------------+----------------------+-------------------------+
//
// # Sync
//
// `sync` settles the named sections, all of them checked before one is touched. Where nothing named is
// unsettled it makes no call. A cut and a removal are durable when they return.
//
// # Crashes
//
// Of a section a crash leaves what passes its buffer's test (`MayKeep`), of all that had settled, up to a
// cut. Removals go one after another: the oldest section first, or before a cut the newest first. So a crash
// among them leaves the last sections, or the first ones, and no hole.
//
// # Pruning
//
// `prune` removes the sections below its bound. Where there was one, the bound is then the floor. The floor
// is not stored: a pruned section may be made again once the partition is opened anew.
//
// # Cost
//
// An opening scans once, and opens the blob of each section up to the ceiling; a buffer with seals then reads
// pages. A removal makes one call a section. All else makes the calls of the buffers.
ghost use Rattle.std.specs.Prelude.{◌≡◌, ◌≢◌, ◌↔◌, ◌+◌, ◌≤◌, ◌<◌, ◌⊎◌, ℕ, Option, Some, None, Bool, true, false, List, length, IfOk, OnOk, OnErr, IfSome, IsSome, IsTrue, MatchOption, string_bytes};
ghost use Rattle.std.specs.Option.{option_copied};
ghost use Rattle.std.specs.List.{Contains};
ghost use Rattle.std.specs.List.Sorted.{IsStrictlySortedBy};
ghost use Rattle.std.specs.Ordering.{nat_cmp};
ghost use Rattle.std.specs.Borrow.{sem};
ghost use Rattle.blob_device.specs.Disk.{settled_at, Key, Blob};
ghost use Rattle.blob_device.specs.Timeline.{disk, Always, Each};
ghost use Rattle.sealed_pages.specs.Entries.{IsOpenAt};
ghost use Rattle.sealed_pages.specs.Reading.{Unchanged};
ghost use Rattle.section_manager.specs.Leaving.{AllMoments};
ghost use Rattle.section_manager.specs.Entries.{OnlyOwnEntry, StartsNoRead};
ghost use Rattle.section_manager.specs.Sections.{Sections, section_key, key_of, IsHeld, IsKnown, IsGone, IsSame, SamePlace, SameBounds, IsKeyOf, HasOpened, StandsOver, IsOver};
ghost use Rattle.section_manager.specs.Lasting.{IsOpening, IsSettling};
ghost use Rattle.section_manager.specs.Refusing.{HasFailed, IsPruned, IsForeign};

mod cutting;
mod opening;
mod removing;
mod syncing;

use crate::held::{Held, SectionIter};
use crate::journal::Error;
use crate::unopened::Unopened;
use crate::{BufferFactory, SectionBuffer};
use blob_device::{Device, RError};
pub use opening::Found;
use std::alloc::Global;
use std::collections::BTreeMap;

/// The sections of a partition, each a buffer over a blob of its own. The blob's name is the eight big-endian
/// bytes of the section's number.
///
/// Calls that take the manager by value give it up where they refuse; its blobs are then opened again by an
/// `init`. The others leave the sections as they were.
///
/// ```rust
/// let mut manager = Manager::init(alloc, &mut dev, cfg)?;      // cfg.factory makes the buffers
/// let buffer = manager.take(&mut dev, 4)?;                     // made where it is not held
/// let (buffer, at) = buffer.append(&mut dev, b"abc")?;
/// manager.put(4, buffer)?;
/// let manager = manager.sync(&mut dev, &[4])?;
/// let (manager, was) = manager.prune(&mut dev, 8)?;            // removes section 4
/// ```
#[derive(Drop)]
pub struct ManagerConfig<F> {
    /// The partition that holds the sections' blobs, and no other blob.
    pub partition: String,
    /// What makes the buffer of each section.
    pub factory: F,
}

/// The sections of a partition, each a buffer over a blob of its own. The blob's name is the eight big-endian
/// bytes of the section's number.
///
/// Calls that take the manager by value give it up where they refuse; its blobs are then opened again by an
/// `init`. The others leave the sections as they were.
#[derive(Drop)]
pub struct Manager<F: BufferFactory> {
    /// Where memory for maps and buffers comes from.
    alloc: Global,
    /// The partition of all sections' blobs.
    partition: String,
    /// What makes the sections' buffers; each is as it makes them (`HasOpened.setting`).
    factory: F,
    /// The buffers by section, each over its section's blob, which is opened (`StandsOver.stands`,
    /// `HasOpened.key`).
    held: Held<F::Buffer>,
    /// The sections that are not held, though their blobs may be there (`StandsOver.whose`,
    /// `HasOpened.apart`).
    unopened: BTreeMap<u64, Unopened>,
    /// The section up to which sections were pruned; 0 where none was (`HasOpened.from_floor`).
    floor: u64,
    /// The greatest section that may be held; `u64::MAX` without a bound (`HasOpened.to_ceiling`).
    ceiling: u64,
}

impl<F: BufferFactory> Manager<F> {
    ghost use Rattle.section_manager.specs.managing.Managed.{shown};

    /// Refuses a section that was pruned. It takes no memory.
    pub fn prune_guard(&self, section: u64) -> Result<(), Error>
        ensures guard { IsPruned result (shown self.now).floor ↔ (section < (shown self.now).floor) }
        ensures cause { OnErr result (IsPruned result (shown self.now).floor) }
    {
        if section < self.floor {
            return Err(Error::AlreadyPrunedToSection(self.floor));
        }
        Ok(())
    }

    /// What makes the sections' buffers.
    pub fn factory(&self) -> &F
        ensures { result.now ≡ (shown self.now).factory }
    {
        &self.factory
    }

    /// Whether the section is below the floor, up to which sections were pruned.
    pub fn pruned(&self, section: u64) -> bool
        ensures { IsTrue result ↔ (section < (shown self.now).floor) }
    {
        section < self.floor
    }

    /// The greatest section that may be made: the bound of [`init_bounded`](Manager::init_bounded) until a
    /// [`truncate_pending`](Manager::truncate_pending) or a [`clear`](Manager::clear) lifts it, and `u64::MAX` from there on.
    pub fn ceiling(&self) -> u64
        ensures { result ≡ (shown self.now).ceiling }
    {
        self.ceiling
    }

    /// The section's buffer, if the section is held. It takes no memory.
    pub fn get(&self, section: u64) -> Result<Option<&F::Buffer>, Error>
        ensures held { IfOk result (λ r. option_copied r ≡ (shown self.now).held section) }
        ensures guard { IsPruned result (shown self.now).floor ↔ (section < (shown self.now).floor) }
        ensures cause { OnErr result (IsPruned result (shown self.now).floor) }
    {
        self.prune_guard(section)?;
        Ok(self.held.get(section))
    }

    /// The section's bytes, buffered ones too; 0 where it is not held. It takes no memory.
    pub fn size(&self, section: u64) -> Result<u64, Error>
        ensures size { IfOk result (λ n. MatchOption ((shown self.now).held section) (n ≡ 0) (λ u. n ≡ F.Buffer.byte_count u)) }
        ensures guard { IsPruned result (shown self.now).floor ↔ (section < (shown self.now).floor) }
        ensures cause { OnErr result (IsPruned result (shown self.now).floor) }
    {
        match self.get(section)? {
            Some(buffer) => Ok(buffer.size()),
            None => Ok(0),
        }
    }

    /// The least section that is held.
    pub fn oldest_section(&self) -> Option<u64>
        ensures none { result ≡ None ↔ ((s : ℕ) → (shown self.now).held s ≡ None) }
        ensures held { IfSome result (IsHeld (shown self.now)) }
        ensures least { IfSome result (λ n. (s : ℕ) → IsHeld (shown self.now) s → n ≤ s) }
    {
        self.held.first()
    }

    /// The greatest section that is held.
    pub fn newest_section(&self) -> Option<u64>
        ensures none { result ≡ None ↔ ((s : ℕ) → (shown self.now).held s ≡ None) }
        ensures held { IfSome result (IsHeld (shown self.now)) }
        ensures greatest { IfSome result (λ n. (s : ℕ) → IsHeld (shown self.now) s → s ≤ n) }
    {
        self.held.last()
    }

    /// Whether no section is held.
    pub fn is_empty(&self) -> bool
        ensures { IsTrue result ↔ ((s : ℕ) → (shown self.now).held s ≡ None) }
    {
        self.held.is_empty()
    }

    /// How many sections are held.
    pub fn num_sections(&self) -> usize
        ensures { (numbers : List ℕ) → IsStrictlySortedBy nat_cmp numbers → ((s : ℕ) → Contains numbers s ↔ IsHeld (shown self.now) s) → result ≡ length numbers }
    {
        self.held.len()
    }

    /// The held sections, ascending.
    pub fn sections(&self) -> SectionIter<'_>
        ensures ascending { IsStrictlySortedBy nat_cmp result }
        ensures each { (s : ℕ) → Contains result s ↔ IsHeld (shown self.now) s }
    {
        self.sections_from(0)
    }

    /// The held sections from `start` on, ascending.
    pub fn sections_from(&self, start: u64) -> SectionIter<'_>
        ensures ascending { IsStrictlySortedBy nat_cmp result }
        ensures each { (s : ℕ) → Contains result s ↔ (IsHeld (shown self.now) s × (start ≤ s)) }
    {
        self.held.from(start)
    }
}
