// The sections that are held, by number.
ghost use Rattle.std.specs.Prelude.{◌≡◌, ◌≢◌, ◌↔◌, ◌+◌, ◌≤◌, ◌<◌, ℕ, Option, Some, None, List, length, IfOk, OnOk, OnErr, IfSome, IsSome, IsTrue, is_some, if◌then◌else◌};
ghost use Rattle.std.specs.Option.{option_copied, option_copied_mut};
ghost use Rattle.std.specs.Iterator.{YieldsFirst, item_count};
ghost use Rattle.std.specs.List.{Contains};
ghost use Rattle.std.specs.List.Sorted.{IsStrictlySortedBy};
ghost use Rattle.std.specs.Ordering.{nat_cmp};
ghost use Rattle.std.specs.BTreeMap.{get, keys, btree_map_len};
ghost use Rattle.std.specs.Borrow.{sem};

use std::alloc::{AllocError, Global};
use std::collections::{BTreeMap, BTreeSet, btree_set};
use std::marker::Model;

/// Numbers of sections, ascending.
#[derive(Drop)]
pub struct SectionIter<'a> {
    /// The numbers that are left, ascending.
    inner: btree_set::Range<'a, u64>,
}

impl<'a> Model for SectionIter<'a> {
    ghost use Rattle.std.specs.Prelude.{List, ℕ};

    ghost Value = { List ℕ };

    ghost view = { λ s. s.inner };
}

impl<'a> Iterator for SectionIter<'a> {
    type Item = u64;

    ghost next_gives = { YieldsFirst (λ s. s) };

    ghost remaining = { item_count (λ s. s) };

    fn next(&mut self) -> Option<u64> {
        self.inner.next().copied()
    }
}

/// Buffers by the number of their section, with the numbers alone beside them.
#[derive(Drop)]
pub struct Held<B> {
    /// The buffer of each section that is held.
    buffers: BTreeMap<u64, B>,
    /// The numbers of these sections, so that they can be gone over without the buffers.
    numbers: BTreeSet<u64>,
    // The two have the same numbers.
    ghost same: { numbers.keys ≡ keys buffers },
}

impl<B: Drop> Held<B> {
    ghost use Rattle.section_manager.specs.managing.Lending.{lends_held};

    /// No section.
    pub fn new(alloc: Global) -> Held<B>
        ensures { (s : ℕ) → get nat_cmp result.buffers s ≡ None }
    {
        Held {
            buffers: BTreeMap::new(alloc),
            numbers: BTreeSet::new(alloc),
        }
    }

    /// The section's buffer.
    pub fn get(&self, section: u64) -> Option<&B>
        ensures { option_copied result ≡ get nat_cmp self.now.buffers section }
    {
        self.buffers.get(&section)
    }

    /// Whether the section is held.
    pub fn contains(&self, section: u64) -> bool
        ensures { IsTrue result ↔ IsSome (get nat_cmp self.now.buffers section) }
    {
        self.numbers.contains(&section)
    }

    /// The section's buffer, to write through.
    pub fn get_mut(&mut self, section: u64) -> Option<&mut B>
        ensures* writes_back { sem 𝓛 (lends_held B.row self.entry section result) }
        ensures value { option_copied_mut result ≡ get nat_cmp self.old.buffers section }
    {
        self.buffers.get_mut(&section)
    }

    /// The least number.
    pub fn first(&self) -> Option<u64>
        ensures none { result ≡ None ↔ ((s : ℕ) → get nat_cmp self.now.buffers s ≡ None) }
        ensures held { IfSome result (λ n. IsSome (get nat_cmp self.now.buffers n)) }
        ensures least { IfSome result (λ n. (s : ℕ) → IsSome (get nat_cmp self.now.buffers s) → n ≤ s) }
    {
        self.numbers.first().copied()
    }

    /// The greatest number.
    pub fn last(&self) -> Option<u64>
        ensures none { result ≡ None ↔ ((s : ℕ) → get nat_cmp self.now.buffers s ≡ None) }
        ensures held { IfSome result (λ n. IsSome (get nat_cmp self.now.buffers n)) }
        ensures greatest { IfSome result (λ n. (s : ℕ) → IsSome (get nat_cmp self.now.buffers s) → s ≤ n) }
    {
        self.numbers.last().copied()
    }

    /// Whether there is none.
    pub fn is_empty(&self) -> bool
        ensures { IsTrue result ↔ ((s : ℕ) → get nat_cmp self.now.buffers s ≡ None) }
    {
        self.numbers.is_empty()
    }

    /// How many there are.
    pub fn len(&self) -> usize
        ensures len { result ≡ length (keys self.now.buffers) }
        ensures ordered { IsStrictlySortedBy nat_cmp (keys self.now.buffers) }
    {
        self.numbers.len()
    }

    /// The numbers from `start` on.
    pub fn from(&self, start: u64) -> SectionIter<'_>
        ensures ascending { IsStrictlySortedBy nat_cmp result }
        ensures each { (s : ℕ) → Contains result s ↔ (IsSome (get nat_cmp self.now.buffers s) × (start ≤ s)) }
    {
        SectionIter {
            inner: self.numbers.range(start..),
        }
    }

    /// Puts the buffer in. After an Err nothing has changed.
    pub fn insert(&mut self, section: u64, buffer: B) -> Result<(), AllocError>
        ensures here { OnOk result (get nat_cmp self.new.buffers section ≡ Some buffer) }
        ensures others { (q : ℕ) → q ≢ section → get nat_cmp self.new.buffers q ≡ get nat_cmp self.old.buffers q }
        ensures err { OnErr result (get nat_cmp self.new.buffers section ≡ get nat_cmp self.old.buffers section) }
    {
        let was_there = !self.numbers.insert(section)?;
        if self.buffers.insert(section, buffer).is_err() {
            if !was_there {
                self.numbers.remove(&section);
            }
            return Err(AllocError);
        }
        Ok(())
    }

    /// Takes the section's buffer out.
    pub fn remove(&mut self, section: u64) -> Option<B>
        ensures value { result ≡ get nat_cmp self.old.buffers section }
        ensures here { get nat_cmp self.new.buffers section ≡ None }
        ensures len { btree_map_len self.new.buffers + (if is_some result then 1 else 0) ≡ btree_map_len self.old.buffers }
        ensures others { (q : ℕ) → q ≢ section → get nat_cmp self.new.buffers q ≡ get nat_cmp self.old.buffers q }
    {
        self.numbers.remove(&section);
        self.buffers.remove(&section)
    }
}
