// Opening a store: its calls, from the one for a section up.
ghost use Rattle.std.specs.Prelude.{◌≡◌, ◌⊎◌, ◌↔◌, ◌≤◌, ◌<◌, ◌+◌, ◌*◌, ◌^◌, ℕ, List, Option, Some, None, false, true, IfOk, OnOk, OnErr, IsTrue, string_bytes};
ghost use Rattle.std.specs.BTreeMap.{get};
ghost use Rattle.std.specs.BTreeSet.{contains as set_contains};
ghost use Rattle.std.specs.List.{Contains};
ghost use Rattle.std.specs.Option.{option_copied, option_map};
ghost use Rattle.std.specs.Ordering.{nat_cmp};
ghost use Rattle.blob_device.specs.Disk.{Disk};
ghost use Rattle.ordinal_store.specs.Calls.{Opening};
ghost use Rattle.ordinal_store.specs.Marking.{IsKept, is_wanted};
ghost use Rattle.ordinal_store.specs.Ranges.{AreRanges, set_of};
ghost use Rattle.ordinal_store.specs.Reopening.{HasWanted, IsEmpty, IsHolding, Restoring, RestoringIf};
ghost use Rattle.ordinal_store.specs.Restoring.{RestoringAll};
ghost use Rattle.ordinal_store.specs.Slots.{Layout, stored_by};
ghost use Rattle.ordinal_store.specs.Stores.{key_of, now, sight};

use super::opening::{listed, remove_all, remove_unkept};
use super::{Ordinal, noted};
use crate::checking::{check_numbers, is_kept};
use crate::ordinal::{Config, Error};
use crate::plain_section::is_wanted;
use crate::{BitMap, RMap};
use blob_device::Device;
use sealed_pages::WriteBlob;
use std::alloc::Global;
use std::collections::{BTreeMap, BTreeSet};
use std::marker::PhantomData;
use value_codec::{CodecFixed, Seal};

// A position past each wanted one.
fn wanted_end(items: u64, marks: &Option<BitMap>) -> u64
    ensures { (p : ℕ) → is_wanted items (Some marks.now) p ≡ true → p < result }
{
    match marks {
        None => items,
        Some(bits) => bits.len(),
    }
}

// Puts the wanted indices of a section into the set.
fn hold_wanted(
    held: &mut RMap,
    items: u64,
    section: u64,
    marks: &Option<BitMap>,
) -> Result<(), Error>
    requires { (p : ℕ) → is_wanted items (Some marks.now) p ≡ true → section * items + p < 2 ^ 64 }
    ensures ranges { AreRanges held.old → OnOk result (AreRanges held.new) }
    ensures held { OnOk result ((j : ℕ) → IsTrue (set_of held.new j)
        ↔ (IsTrue (set_of held.old j) ⊎ ((p : ℕ) × (is_wanted items (Some marks.now) p ≡ true)
        × (j ≡ section * items + p)))) }
    ensures cause { OnErr result (result ≡ Err Error.Mem) }
{
    for position in 0..wanted_end(items, marks) {
        if !is_wanted(items, marks, position) {
            continue;
        }
        noted(held.insert(section * items + position))?;
    }
    Ok(())
}

// The set of these numbers.
fn set_of_numbers(alloc: Global, numbers: &[u64]) -> Result<BTreeSet<u64>, Error>
    ensures each { IfOk result (λ r. (s : ℕ) → IsTrue (set_contains nat_cmp r s)
        ↔ Contains numbers.now s) }
    ensures cause { OnErr result (result ≡ Err Error.Mem) }
{
    let mut set = BTreeSet::new(alloc);
    for number in numbers {
        set.insert(*number)?;
    }
    Ok(set)
}

impl<A: CodecFixed, S: Seal> Ordinal<A, S> {
    ghost use Rattle.ordinal_store.specs.Shown.{shown};

    // A store that holds nothing, and has opened nothing.
    fn empty(alloc: Global, cfg: &Config) -> Result<Self, Error>
        ensures empty { IfOk result (λ r. IsEmpty (stored_by (string_bytes cfg.now.partition)
            cfg.now.items_per_blob A.SIZE S.seal_of A.refusal) cfg.now.write_buffer
            (shown A.SIZE S.seal_of A.refusal r)) }
        ensures cause { OnErr result (result ≡ Err Error.Mem) }
    {
        Ok(Ordinal {
            alloc,
            partition: cfg.partition.clone()?,
            items: cfg.items_per_blob,
            capacity: cfg.write_buffer,
            buffers: BTreeMap::new(alloc),
            held: RMap::new(alloc),
            written: BTreeSet::new(alloc),
            value: PhantomData,
            seal: PhantomData,
        })
    }

    // The store with the buffer of one more section, and the wanted indices of that held.
    fn holding(self, section: u64, buffer: WriteBlob, marks: &Option<BitMap>) -> Result<Self, Error>
        requires items { 1 ≤ self.items }
        requires inside { (p : ℕ) → is_wanted self.items (Some marks.now) p ≡ true → (p < self.items)
            × (section * self.items + p < 2 ^ 64) }
        ensures holding { IfOk result (λ r. IsHolding (shown A.SIZE S.seal_of A.refusal self) section buffer
            marks.now (shown A.SIZE S.seal_of A.refusal r)) }
        ensures cause { OnErr result (result ≡ Err Error.Mem) }
    {
        let mut this = self;
        this.buffers.insert(section, buffer)?;
        hold_wanted(&mut this.held, this.items, section, marks)?;
        Ok(this)
    }

    // The store with one more section, which is opened, mended and checked.
    fn restored<D: Device>(
        self,
        dev: &mut D,
        section: u64,
        marks: &Option<BitMap>,
        piece_size: usize,
    ) -> Result<Self, Error>
        requires items { 1 ≤ self.items }
        requires fits { (p : ℕ) → is_wanted self.items (Some marks.now) p ≡ true
            → section * self.items + p < 2 ^ 64 }
        requires kept { HasWanted self.items marks.now }
        ensures { Restoring (shown A.SIZE S.seal_of A.refusal) D.Tells
            (shown A.SIZE S.seal_of A.refusal self) section marks.now result (sight D.Device dev.old)
            (sight D.Device dev.new) }
    {
        let buffer = self.reopened(dev, section, marks)?;
        self.check_section(dev, &buffer, (section, marks), piece_size)?;
        self.holding(section, buffer, marks)
    }

    // The store with one more section of the map, if it is kept.
    fn restored_if_kept<D: Device>(
        self,
        dev: &mut D,
        wanted: (u64, &Option<BitMap>),
        there: &BTreeSet<u64>,
        piece_size: usize,
    ) -> Result<Self, Error>
        requires items { 1 ≤ self.items }
        requires fits { (p : ℕ) → is_wanted self.items (Some wanted.1.now) p ≡ true
            → wanted.0 * self.items + p < 2 ^ 64 }
        ensures { RestoringIf (shown A.SIZE S.seal_of A.refusal) D.Tells
            (shown A.SIZE S.seal_of A.refusal self) wanted.entry.0 wanted.entry.1.now
            (set_contains nat_cmp there.now wanted.entry.0) result (sight D.Device dev.old)
            (sight D.Device dev.new) }
    {
        let (section, marks) = wanted;
        if !is_kept(marks) {
            return Ok(self);
        }
        if !there.contains(&section) {
            return Err(Error::MissingRecord(section * self.items));
        }
        self.restored(dev, section, marks, piece_size)
    }

    // The store with the kept sections of the map, the least first.
    fn restore_all<D: Device>(
        self,
        dev: &mut D,
        map: &BTreeMap<u64, Option<BitMap>>,
        there: &BTreeSet<u64>,
        piece_size: usize,
    ) -> Result<Self, Error>
        requires items { 1 ≤ self.items }
        requires fits { (s p : ℕ) → s < 2 ^ 64 → is_wanted self.items (get nat_cmp map.now s) p ≡ true
            → s * self.items + p < 2 ^ 64 }
        requires there { D.Tells → (s : ℕ) → IsKept (shown A.SIZE S.seal_of A.refusal self).layout
            (get nat_cmp map.now) s → IsTrue (set_contains nat_cmp there.now s)
            ↔ IsTrue (now (sight D.Device dev.old) (key_of (shown A.SIZE S.seal_of A.refusal self) s)).there }
        requires empty { IsEmpty (shown A.SIZE S.seal_of A.refusal self).layout self.capacity
            (shown A.SIZE S.seal_of A.refusal self) }
        ensures { RestoringAll D.Tells (shown A.SIZE S.seal_of A.refusal self).layout self.capacity
            (get nat_cmp map.now) (sight D.Device dev.old) (shown A.SIZE S.seal_of A.refusal) result
            (sight D.Device dev.new) }
    {
        let mut this = self;
        for (section, marks) in map.iter() {
            // One section is whole before the next is opened, so the first that is not ends the call.
            this = this.restored_if_kept(dev, (*section, marks), there, piece_size)?;
        }
        Ok(this)
    }

    // Removes all blobs of the partition, whatever their names, and opens a store that holds nothing.
    fn bare<D: Device>(alloc: Global, dev: &mut D, cfg: &Config) -> Result<Self, Error>
        requires items { (1 ≤ cfg.now.items_per_blob) × (cfg.now.items_per_blob ≤ 2 ^ 40) }
        ensures { Opening (stored_by (string_bytes cfg.now.partition) cfg.now.items_per_blob A.SIZE
            S.seal_of A.refusal) None (shown A.SIZE S.seal_of A.refusal) D.Tells cfg.now.write_buffer result
            (sight D.Device dev.old) (sight D.Device dev.new) }
    {
        remove_all(alloc, dev, cfg.partition.as_str())?;
        Self::empty(alloc, cfg)
    }

    // Opens the store by a map, whose names and numbers are judged first.
    fn opened<D: Device>(
        alloc: Global,
        dev: &mut D,
        cfg: &Config,
        map: &BTreeMap<u64, Option<BitMap>>,
    ) -> Result<Self, Error>
        requires items { (1 ≤ cfg.now.items_per_blob) × (cfg.now.items_per_blob ≤ 2 ^ 40) }
        ensures { Opening (stored_by (string_bytes cfg.now.partition) cfg.now.items_per_blob A.SIZE
            S.seal_of A.refusal) (Some (get nat_cmp map.now)) (shown A.SIZE S.seal_of A.refusal) D.Tells
            cfg.now.write_buffer result (sight D.Device dev.old) (sight D.Device dev.new) }
    {
        let partition = cfg.partition.as_str();
        let numbers = listed(alloc, dev, partition)?;
        check_numbers(cfg.items_per_blob, map)?;
        let there = set_of_numbers(alloc, numbers.as_slice())?;
        let this = Self::empty(alloc, cfg)?;
        remove_unkept(dev, partition, numbers.as_slice(), map)?;
        this.restore_all(dev, map, &there, cfg.replay_buffer)
    }

    /// Opens the store, keeping the slots that the map names. Without a map all blobs of the partition are removed.
    ///
    /// With a map a name that is not eight bytes long is refused, and then a wanted index past the greatest `u64`, before
    /// anything is changed. A section of which no slot is wanted is removed. Each other one is cut to whole slots, and its
    /// slots that are not wanted are cleared. The first section, and in it the first slot, that is not as it is wanted is
    /// refused.
    pub fn init<D: Device>(
        alloc: Global,
        dev: &mut D,
        cfg: &Config,
        bits: Option<&BTreeMap<u64, Option<BitMap>>>,
    ) -> Result<Self, Error>
        requires items { (1 ≤ cfg.now.items_per_blob) × (cfg.now.items_per_blob ≤ 2 ^ 40) }
        ensures { Opening (stored_by (string_bytes cfg.now.partition) cfg.now.items_per_blob A.SIZE
            S.seal_of A.refusal) (option_map (λ m. get nat_cmp m) (option_copied bits.entry))
            (shown A.SIZE S.seal_of A.refusal) D.Tells cfg.now.write_buffer result (sight D.Device dev.old)
            (sight D.Device dev.new) }
    {
        match bits {
            None => Self::bare(alloc, dev, cfg),
            Some(map) => Self::opened(alloc, dev, cfg, map),
        }
    }
}
