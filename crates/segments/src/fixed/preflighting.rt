// Opening a fixed journal of which markers vouch for the first items of some sections: these are checked
// before anything is written.
ghost use Rattle.std.specs.Prelude.{◌≡◌, ◌↔◌, ◌⊎◌, ◌≤◌, ◌<◌, ◌+◌, ◌-◌, ◌*◌, ◌/◌, ◌%◌, ◌^◌, ℕ, List, Option, Some, None, Err, false, length, map, IfOk, OnOk, OnErr, IfSome, IsSome, IsTrue, string_bytes};
ghost use Rattle.std.specs.Result.{IsErrOf};
ghost use Rattle.std.specs.Iterator.{item_count};
ghost use Rattle.std.specs.List.{Contains};
ghost use Rattle.std.specs.List.Sorted.{IsStrictlySortedBy};
ghost use Rattle.std.specs.Map.Iter.{TakesFirst};
ghost use Rattle.std.specs.Option.{option_copied};
ghost use Rattle.std.specs.Ordering.{nat_cmp};
ghost use Rattle.std.specs.BTreeMap as tree;
ghost use Rattle.std.specs.BTreeSet as set;
ghost use Rattle.blob_device.specs.Disk.{Key};
ghost use Rattle.blob_device.specs.Timeline.{disk, Always, Each};
ghost use Rattle.sealed_pages.specs.Buffer.{key_of};
ghost use Rattle.sealed_pages.specs.Entries.{IsOpenAt};
ghost use Rattle.sealed_pages.specs.Reads.{IsShort, PassesSize};
ghost use Rattle.sealed_pages.specs.Shown as page_blob;
ghost use Rattle.sealed_pages.specs.View.{view};
ghost use Rattle.section_manager.specs.Lasting.{IsSettling};
ghost use Rattle.section_manager.specs.managing.Managed as managed;
ghost use Rattle.section_manager.specs.Refusing.{IsForeign};
ghost use Rattle.segments.specs.FixedLists.{floor_in, section_size};

use super::floors::floor_at;
use super::{Config, Journal};
use crate::journal::{Damage, Error};
use crate::{AppendFactory, BufferFactory, Manager, SectionBuffer};
use blob_device::{Device, RError};
use sealed_pages::PageBlob;
use section_manager::Unopened;
use std::alloc::Global;
use std::collections::{BTreeMap, BTreeSet, btree_map};
use std::marker::Model;
use value_codec::{CodecFixed, Seal};

/// Sections of which a marker vouches for the first items, ascending, each with the last of these items, if
/// there is one.
#[derive(Drop)]
pub struct BoundaryIter<'a, A> {
    /// The map's own iterator, over the sections that are left.
    inner: btree_map::Iter<'a, u64, Option<A>>,
}

impl<'a, A> Model for BoundaryIter<'a, A> {
    ghost use Rattle.std.specs.Prelude.{List, Option, ℕ};

    ghost Value = { List (ℕ × Option A) };

    ghost view = { λ s. s.inner };
}

impl<'a, A> Iterator for BoundaryIter<'a, A> {
    type Item = (u64, Option<&'a A>);

    ghost next_gives = { λ s r t. TakesFirst (λ p. (p.0, option_copied p.1)) s r t };

    ghost remaining = { item_count (λ s. s) };

    fn next(&mut self) -> Option<(u64, Option<&'a A>)> {
        match self.inner.next() {
            Some((section, item)) => Some((*section, item.as_ref())),
            None => None,
        }
    }
}

/// Where a checkpoint ends: later sections are removed, and the section is cut to so many bytes.
#[derive(Clone, Copy)]
pub(super) struct Target {
    /// The section of the checkpoint.
    pub(super) section: u64,
    /// How many of its bytes are kept.
    pub(super) size: u64,
}

/// A journal that is opened, of which the items that markers vouch for were checked, and nothing was written.
#[derive(Drop)]
pub struct Preflight<A: CodecFixed, S: Seal> {
    /// The opened journal, with the floors of the markers that were checked.
    pub(super) journal: Journal<A, S>,
    /// By section with a checked marker its last item, none where the marker is 0 (`KeepsBoundary`).
    boundaries: BTreeMap<u64, Option<A>>,
    /// Where a checkpoint cuts; none where markers were checked.
    pub(super) target: Option<Target>,
    // A floor is of whole items.
    ghost whole: { (s : ℕ) → floor_in journal.floors s % A.SIZE ≡ 0 },
    // A section with a floor was opened.
    ghost bounded: { (s : ℕ) → 0 < floor_in journal.floors s → s ≤ journal.manager.ceiling },
}

/// The sections with more bytes than their floor.
pub(super) fn longer_sections<S: Seal>(
    alloc: Global,
    manager: &Manager<AppendFactory<S>>,
    floors: &BTreeMap<u64, u64>,
) -> Result<BTreeSet<u64>, Error>
    requires { (managed.shown manager.now).floor ≡ 0 }
    ensures longer { IfOk result (λ r. (s : ℕ) → IsTrue (set.contains nat_cmp r s)
        ↔ (floor_in floors.now s < section_size (managed.shown manager.now) s)) }
    ensures cause { OnErr result (IsErrOf result Error.Mem) }
{
    let mut longer = BTreeSet::new(alloc);
    for section in manager.sections() {
        if manager.size(section)? > floor_at(floors, section) {
            longer.insert(section)?;
        }
    }
    Ok(longer)
}

// Refuses the first section with fewer bytes than its floor.
fn check_reached<S: Seal>(
    manager: &Manager<AppendFactory<S>>,
    floors: &BTreeMap<u64, u64>,
) -> Result<(), Error>
    requires { (managed.shown manager.now).floor ≡ 0 }
    ensures reached { OnOk result ((s : ℕ) → floor_in floors.now s
        ≤ section_size (managed.shown manager.now) s) }
    ensures first { (x : _) → IsErrOf result (Error.Corruption x) → (s : ℕ) → s < x.section
        → floor_in floors.now s ≤ section_size (managed.shown manager.now) s }
    ensures damage { (x : _) → IsErrOf result (Error.Corruption x)
        → (x.kept ≡ section_size (managed.shown manager.now) x.section)
        × (x.wanted ≡ floor_in floors.now x.section) × (x.kept < x.wanted) }
    ensures cause { OnErr result ((x : _) × IsErrOf result (Error.Corruption x)) }
{
    for (section, floor) in floors {
        let kept = manager.size(*section)?;
        let wanted = *floor;
        if kept < wanted {
            return Err(Error::Corruption(Damage {
                section: *section,
                kept,
                wanted,
            }));
        }
    }
    Ok(())
}

impl<A: CodecFixed, S: Seal> Journal<A, S> {
    ghost use Rattle.segments.specs.FixedFloors.{preflight_shown, journal_of};
    ghost use Rattle.segments.specs.FixedPreflight.{ChecksFloors};
    ghost use Rattle.segments.specs.FixedShown as journal;
    ghost use Rattle.segments.specs.FixedLists.{IsJournal, section_bytes};

    /// Opens the sections of the partition up to the section `ceiling`, as
    /// [`init_bounded`](Journal::init_bounded) does, and checks what markers vouch for, so many first items
    /// of some of them. No byte is written.
    ///
    /// It refuses a blob with a name that is no section's, before anything is opened. Then the sections
    /// with a marker are checked one by one, ascending, and the first that is refused is answered: by
    /// `Corruption`, which names it, where its marker counts more bytes than a `u64` can, where it has no
    /// blob, or where the last item below the marker is not sealed; by `Codec`, which says why, where the
    /// bytes there are no item. A section with more bytes than its floor owes a replay, which cuts nothing
    /// below the floor.
    ///
    /// It keeps no page that it reads: a replay may read the pages of a section's last item below its
    /// marker again, at most `SIZE / page_size + 2` of them. That is how it is made; no clause counts them.
    pub fn preflight_floors<D: Device>(
        alloc: Global,
        dev: &mut D,
        cfg: &Config,
        floors: &BTreeMap<u64, u64>,
        ceiling: u64,
    ) -> Result<Preflight<A, S>, Error>
        requires valid { 1 ≤ cfg.now.pages.page_size }
        requires ceiling { (s : ℕ) → IsSome (tree.get nat_cmp floors.now s) → s ≤ ceiling }
        ensures { ChecksFloors
            ⟦<PageBlob<S> as SectionBuffer>⟧ ⟦<AppendFactory<S> as BufferFactory>⟧.gives
            S.seal_of A.SIZE A.spelling A.accepted A.refusal (string_bytes cfg.now.partition)
            cfg.now.pages cfg.now.write_buffer ceiling (tree.get nat_cmp floors.now)
            D.Device preflight_shown journal_of result dev.old dev.new }
    {
        // Opened before a marker is checked: the check reads by the buffers, and writes nothing.
        let journal = Journal::init_bounded(alloc, dev, cfg, ceiling)?;
        let unchecked = Preflight::unchecked(alloc, journal);
        let mut found = unchecked;
        for (section, items) in floors {
            found = found.checked(dev, *section, *items)?;
        }
        let owing = found.owing_longer()?;
        Ok(owing)
    }
}

impl<A: CodecFixed, S: Seal> Preflight<A, S> {
    ghost use Rattle.section_manager.specs.Answers.{seen};
    ghost use Rattle.segments.specs.FixedCheckpoint.{Finishes, IsReady};
    ghost use Rattle.segments.specs.FixedChecks.{AreCheckable, ChecksMarker, LooksBelow, ReadsLast, TakesFloor};
    ghost use Rattle.segments.specs.FixedFloors.{preflight_shown, journal_of, IsAdoptedOver};
    ghost use Rattle.segments.specs.FixedShown as journal;

    // No section has a marker yet.
    pub(super) fn unchecked(alloc: Global, opened: Journal<A, S>) -> Self
        requires { (s : ℕ) → (journal.shown opened).floor_of s ≡ 0 }
        ensures journal { journal_of result ≡ journal.shown opened }
        ensures boundaries { (s : ℕ) → (preflight_shown result).boundary_of s ≡ None }
        ensures target { (preflight_shown result).target ≡ None }
    {
        Preflight {
            journal: opened,
            boundaries: BTreeMap::new(alloc),
            target: None,
        }
    }

    // How many bytes so many items have. It refuses a number that passes the greatest u64.
    fn bytes_of(section: u64, items: u64) -> Result<u64, Error>
        ensures bytes { IfOk result (λ n. (n ≡ items * A.SIZE) × (items * A.SIZE < 2 ^ 64)) }
        ensures damage { (x : _) → IsErrOf result (Error.Corruption x) → (x.section ≡ section)
            × (2 ^ 64 ≤ items * A.SIZE) × (x.kept ≡ items) × (x.wanted ≡ (2 ^ 64 - 1) / A.SIZE) }
        ensures cause { OnErr result ((x : _) × IsErrOf result (Error.Corruption x)) }
    {
        let most = u64::MAX / A::SIZE as u64;
        if items > most {
            return Err(Error::Corruption(Damage {
                section,
                kept: items,
                wanted: most,
            }));
        }
        Ok(items * A::SIZE as u64)
    }

    // Checks the marker of a section of which none was checked.
    pub(super) fn checked<D: Device>(
        self,
        dev: &mut D,
        section: u64,
        items: u64,
    ) -> Result<Self, Error>
        requires bounded { section ≤ (preflight_shown self).ceiling }
        requires ready { AreCheckable ⟦<PageBlob<S> as SectionBuffer>⟧
            ⟦<AppendFactory<S> as BufferFactory>⟧.gives S.seal_of D.Tells
            (journal_of self).sections (D.opened dev.old) (disk (D.time dev.old)) }
        ensures { ChecksMarker preflight_shown (λ r. (journal_of r).sections)
            (preflight_shown self).floor_of (preflight_shown self).boundary_of
            (preflight_shown self).target (journal_of self).sections section
            S.seal_of (preflight_shown self).pages.page_size A.SIZE
            (preflight_shown self).partition A.spelling A.accepted A.refusal D.Device
            ⟦<PageBlob<S> as SectionBuffer>⟧ ⟦<AppendFactory<S> as BufferFactory>⟧.gives
            items dev.old dev.new result }
    {
        let floor = Self::bytes_of(section, items)?;
        let Some(buffer) = self.journal.manager.get(section)? else {
            return Err(Error::Corruption(Damage {
                section,
                kept: 0,
                wanted: floor,
            }));
        };
        if items == 0 {
            return self.with_floor(section, floor, None);
        }
        let item = self.last_below(dev, buffer, section, items)?;
        self.with_floor(section, floor, Some(item))
    }

    // Takes the floor of a section in, and its last item below it.
    pub(super) fn with_floor(self, section: u64, floor: u64, item: Option<A>) -> Result<Self, Error>
        requires whole { floor % A.SIZE ≡ 0 }
        requires bounded { section ≤ (preflight_shown self).ceiling }
        ensures { TakesFloor preflight_shown (λ r. (journal_of r).sections)
            (preflight_shown self).floor_of (preflight_shown self).boundary_of
            (preflight_shown self).target (journal_of self).sections section floor item result }
    {
        let mut this = self;
        let journal = &mut this.journal;
        journal.floors.insert(section, floor)?;
        this.boundaries.insert(section, item)?;
        Ok(this)
    }

    // Reads the last of a section's first items, whose bytes a u64 counts.
    fn last_below<D: Device>(
        &self,
        dev: &mut D,
        buffer: &PageBlob<S>,
        section: u64,
        items: u64,
    ) -> Result<A, Error>
        requires some { 0 < items }
        requires fits { items * A.SIZE < 2 ^ 64 }
        requires open { IsOpenAt (D.opened dev.old) (key_of (page_blob.shown buffer.now))
            buffer.now.end }
        requires adopted { D.Tells → IsAdoptedOver S.seal_of buffer.now
            (disk (D.time dev.old) (key_of (page_blob.shown buffer.now))) }
        ensures { LooksBelow S.seal_of buffer.now.page_size A.SIZE D.Device
            (key_of (page_blob.shown buffer.now)) buffer.now.end dev.old dev.new items A.spelling
            A.accepted A.refusal section result }
    {
        let mut bytes = vec![in self.journal.alloc; 0; A::SIZE]?;
        match Self::read_last(dev, buffer, items, bytes.as_mut_slice()) {
            Ok(()) => Ok(A::decode_cfg(self.journal.alloc, bytes.as_slice(), ())?),
            Err(e) => match e {
                RError::InvalidChecksum(_) => self.refuse(dev, buffer, section, items),
                RError::BlobInsufficientLength => self.refuse(dev, buffer, section, items),
                e => Err(Error::from(e)),
            },
        }
    }

    // Reads the bytes of the last of a section's first items.
    fn read_last<D: Device>(
        dev: &mut D,
        buffer: &PageBlob<S>,
        items: u64,
        bytes: &mut [u8],
    ) -> Result<(), RError>
        requires some { 0 < items }
        requires fits { items * A.SIZE < 2 ^ 64 }
        requires room { length bytes.old ≡ A.SIZE }
        requires open { IsOpenAt (D.opened dev.old) (key_of (page_blob.shown buffer.now))
            buffer.now.end }
        requires adopted { D.Tells → IsAdoptedOver S.seal_of buffer.now
            (disk (D.time dev.old) (key_of (page_blob.shown buffer.now))) }
        ensures { ReadsLast S.seal_of buffer.now.page_size A.SIZE D.Device
            (key_of (page_blob.shown buffer.now)) buffer.now.end dev.old dev.new items bytes.new
            result }
    {
        buffer.read_at(dev, (items - 1) * A::SIZE as u64, bytes)
    }

    // Refuses the last of a section's first items, which is not sealed, with how much of the section is.
    fn refuse<D: Device>(
        &self,
        dev: &mut D,
        buffer: &PageBlob<S>,
        section: u64,
        items: u64,
    ) -> Result<A, Error>
        requires some { 0 < items }
        requires fits { items * A.SIZE < 2 ^ 64 }
        requires open { IsOpenAt (D.opened dev.old) (key_of (page_blob.shown buffer.now))
            buffer.now.end }
        requires there { D.Tells → IsTrue (disk (D.time dev.old)
            (key_of (page_blob.shown buffer.now))).there }
        requires broken { D.Tells → ((k : ℕ) × IsShort S.seal_of buffer.now.page_size
            (disk (D.time dev.old) (key_of (page_blob.shown buffer.now))).content
            ((items - 1) * A.SIZE) A.SIZE k) ⊎ PassesSize S.seal_of buffer.now.page_size
            (disk (D.time dev.old) (key_of (page_blob.shown buffer.now))).content
            ((items - 1) * A.SIZE) A.SIZE }
        ensures fails { OnOk result ⊥ }
        ensures looks { LooksBelow S.seal_of buffer.now.page_size A.SIZE D.Device
            (key_of (page_blob.shown buffer.now)) buffer.now.end dev.old dev.new items A.spelling
            A.accepted A.refusal section result }
    {
        let piece = self.journal.manager.factory().write_buffer;
        let kept = buffer.recoverable_prefix_len(dev, 0, piece)?;
        Err(Error::Corruption(Damage {
            section,
            kept,
            wanted: items * A::SIZE as u64,
        }))
    }

    // The sections with more bytes than their floor owe a replay. It refuses the first one with fewer.
    pub(super) fn owing_longer(self) -> Result<Self, Error>
        requires floor { (journal_of self).sections.floor ≡ 0 }
        ensures same { IfOk result (λ r. preflight_shown r ≡ preflight_shown self) }
        ensures sections { IfOk result (λ r. (journal_of r).sections ≡ (journal_of self).sections) }
        ensures unrecovered { IfOk result (λ r. (s : ℕ) → IsTrue ((journal_of r).unrecovered s)
            ↔ ((preflight_shown r).floor_of s < section_size (journal_of r).sections s)) }
        ensures reached { IfOk result (λ r. (s : ℕ) → (preflight_shown r).floor_of s
            ≤ section_size (journal_of r).sections s) }
        ensures damage { (x : _) → IsErrOf result (Error.Corruption x)
            → section_size (journal_of self).sections x.section < (preflight_shown self).floor_of x.section }
        ensures cause { OnErr result (((x : _) × IsErrOf result (Error.Corruption x))
            ⊎ IsErrOf result Error.Mem) }
    {
        let mut this = self;
        let journal = &this.journal;
        check_reached(&journal.manager, &journal.floors)?;
        let longer = longer_sections(journal.alloc, &journal.manager, &journal.floors)?;
        this.journal.unrecovered = longer;
        Ok(this)
    }

    /// The sections with a marker, ascending, each with the last item that it vouches for.
    pub fn boundaries(&self) -> BoundaryIter<'_, A>
        ensures ascending { IsStrictlySortedBy nat_cmp (map (λ p. p.0) result) }
        ensures each { (s : ℕ) (o : Option A) → Contains result (s, o)
            ↔ ((preflight_shown self.now).boundary_of s ≡ Some o) }
    {
        BoundaryIter {
            inner: self.boundaries.iter(),
        }
    }

    /// Gives the journal, which was opened for the check. Where markers were checked it makes no call of
    /// the device. Where a checkpoint was, it removes the later sections, the newest first, and then cuts
    /// the checkpoint's, durably; no section owes a replay then.
    pub fn finish<D: Device>(self, dev: &mut D) -> Result<Journal<A, S>, Error>
        requires { (t : _) → (preflight_shown self).target ≡ Some t
            → IsReady ⟦<PageBlob<S> as SectionBuffer>⟧ ⟦<AppendFactory<S> as BufferFactory>⟧.gives
            S.seal_of A.SIZE D.Tells (journal_of self) t (D.opened dev.old) (disk (D.time dev.old)) }
        ensures { Finishes ⟦<PageBlob<S> as SectionBuffer>⟧
            ⟦<AppendFactory<S> as BufferFactory>⟧.gives S.seal_of A.SIZE D.Device (journal_of self)
            (seen journal.shown result) dev.old dev.new (preflight_shown self).target }
    {
        let Preflight {
            journal,
            target,
            ..
        } = self;
        match target {
            None => Ok(journal),
            Some(target) => journal.restored(dev, target),
        }
    }
}
