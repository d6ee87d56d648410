// Which records the sections keep, held in memory.
ghost use Rattle.std.specs.Prelude.{◌≡◌, ◌≢◌, ◌<◌, ◌≤◌, ◌+◌, ◌^◌, ◌↔◌, ℕ, [], None, length, IfOk, IfSome, IsSome, IsTrue, OnOk};
ghost use Rattle.std.specs.BTreeMap.{btree_map_len, get};
ghost use Rattle.std.specs.Ordering.{nat_cmp};
ghost use Rattle.ordinal_store.specs.Ranges.{set_of};
ghost use Rattle.record_tables.specs.Positions.{positions_of};
ghost use Rattle.record_tables.specs.Rows.{AreIndicesOf, FindsFirst, FindsPositions, HasRoom};
ghost use Rattle.record_tables.specs.Tables.{AddsEntry, AddsIndices, AreCandidates, AreEmpty, AreInOrder, Drops, HasPlace, HasSpare, HasTableRoom, HaveWords, IsFresh, IsPlace, KeepsTable, Pushes, Reserves, ReservesTable, has_word, rows_of};
ghost use Rattle.record_tables.specs.Words.{RemovesSlot};

use crate::Handle;
use crate::positions::Positions;
use crate::slots::Slots;
use crate::words::Words;
use ordinal_store::{RMap, RMapError};
use std::alloc::{AllocError, Global};
use std::collections::BTreeMap;
use std::hash::Hash;
use std::snapshot::Snapshot;

/// What is held in memory of a record: the word of its key. What contracts see beside takes no memory.
#[derive(Drop)]
struct Entry<W, K> {
    // that of the record's key
    word: W,
    // that of the record
    index: Snapshot<u64>,
    // that of the record
    key: Snapshot<K>,
}

/// What is held in memory of a section.
#[derive(Drop)]
struct Table<W, K> {
    // no other section has it, once the table is among those of the sections
    slot: u32,
    // entry i for the record at position i
    entries: Vec<Entry<W, K>>,
    // of the same records
    positions: Positions,
}

/// Where the records of all sections stand, by section and index, and by the words of their keys.
///
/// Each section that keeps a record has a table. None is empty, but one for which room was made.
#[derive(Drop)]
pub struct Tables<W: Copy + Eq + Hash, K> {
    // for the tables
    alloc: Global,
    // by section
    tables: BTreeMap<u64, Table<W, K>>,
    // those of the sections with a table
    slots: Slots,
    // the handles of all records
    words: Words<W>,
}

impl<W: Copy + Eq + Hash, K> Tables<W, K> {
    /// No section keeps a record. It takes no memory.
    pub fn new(alloc: Global) -> Tables<W, K>
        ensures { AreEmpty W.eq result }
    {
        Tables {
            alloc,
            tables: BTreeMap::new(alloc),
            slots: Slots::new(alloc),
            words: Words::new(alloc),
        }
    }

    /// Whether so many sections, and so many records in each, allow one record more in the section.
    pub fn has_room(&self, sections: u32, per_section: u64, section: u64) -> bool
        requires { AreInOrder (λ _. ⊥) self.now }
        ensures { IsTrue result ↔ HasRoom sections per_section (rows_of self.now) section }
    {
        match self.tables.get(&section) {
            Some(table) => (table.entries.len() as u64) < per_section,
            None => (self.tables.len() as u64) < u64::from(sections),
        }
    }

    /// Makes room for one record more, so that adding it takes no memory. On an error no row has changed, and no slot
    /// is lost; the section may have a table without a record.
    pub fn reserve(&mut self, section: u64, index: u64, word: W) -> Result<(), AllocError>
        requires order { AreInOrder (λ _. ⊥) self.old }
        requires room { HasRoom (2 ^ 24) (2 ^ 40) (rows_of self.old) section }
        requires index { section ≤ index }
        ensures { Reserves W.eq section index word self.old result self.new }
    {
        self.reserve_table(section, index - section)?;
        self.words.reserve(word)
    }

    // Makes room in the section's table for one record more at an offset. A section without a table is given one.
    fn reserve_table(&mut self, section: u64, offset: u64) -> Result<(), AllocError>
        requires order { AreInOrder (λ _. ⊥) self.old }
        requires room { HasRoom (2 ^ 24) (2 ^ 40) (rows_of self.old) section }
        ensures { ReservesTable W.eq section offset self.old result self.new }
    {
        if let Some(table) = self.tables.get_mut(&section) {
            return table.reserve(offset);
        }
        let mut fresh = Table::with_room(self.alloc, offset)?;
        // The slot comes last, and is given back where the table finds no place.
        let slot = self.slots.take(section)?;
        fresh.slot = slot;
        match self.tables.insert(section, fresh) {
            Ok(_) => Ok(()),
            Err(_) => {
                self.slots.free(slot);
                Err(AllocError)
            }
        }
    }

    /// Adds a record behind those of its section, for which room was made. Word and key are those of the record.
    pub fn push(&mut self, section: u64, index: u64, word: W, key: &K)
        requires order { AreInOrder (λ s. s ≡ section) self.old }
        requires spare { HasSpare W.eq section index word self.old }
        requires index { section ≤ index }
        ensures { Pushes W.eq section index word key.now self.old self.new }
    {
        let entry = Entry {
            word,
            index: Snapshot::of(&index),
            key: Snapshot::of(key),
        };
        let table = self.tables.get_mut(&section).unwrap();
        let position = table.add(index - section, entry);
        let handle = Handle::new(table.slot, position);
        self.words.add(&word, handle);
    }

    /// Forgets the records of the sections below a bound. It takes no memory.
    pub fn remove_below(&mut self, bound: u64)
        requires { AreInOrder (λ _. ⊥) self.old }
        ensures { Drops W.eq (λ s. s < bound) self.old self.new }
    {
        // Those below come first.
        while let Some(first) = self.first_below(bound) {
            self.remove(first);
        }
    }

    // The first section that has a table, where it is below the bound.
    fn first_below(&self, bound: u64) -> Option<u64>
        ensures some { IfSome result (λ s. (s < bound) × IsSome (get nat_cmp self.now.tables s)) }
        ensures none { result ≡ None → (s : ℕ) → s < bound → get nat_cmp self.now.tables s ≡ None }
    {
        let (first, _) = self.tables.first_key_value()?;
        if *first < bound { Some(*first) } else { None }
    }

    // Forgets the records of a section that has a table: a slot that is free has no handle.
    fn remove(&mut self, section: u64)
        requires order { AreInOrder (λ _. ⊥) self.old }
        requires there { IsSome (get nat_cmp self.old.tables section) }
        ensures drops { Drops W.eq (λ s. s ≡ section) self.old self.new }
        ensures fewer { btree_map_len self.new.tables < btree_map_len self.old.tables }
    {
        let table = self.tables.remove(&section).unwrap();
        forget(&mut self.words, table.slot, &table.entries);
        self.slots.free(table.slot);
    }

    /// The indices of all records, as a set.
    pub fn indices(&self) -> Result<RMap, RMapError>
        requires { AreInOrder (λ _. ⊥) self.now }
        ensures { IfOk result (λ indices. AreIndicesOf (rows_of self.now) (set_of indices)) }
    {
        let mut indices = RMap::new(self.alloc);
        for (section, table) in &self.tables {
            add_indices(&mut indices, *section, &table.positions)?;
        }
        Ok(indices)
    }

    /// The position of the first record in the section that has this index.
    pub fn position_of(&self, section: u64, index: u64) -> Option<u64>
        requires order { AreInOrder (λ _. ⊥) self.now }
        requires index { section ≤ index }
        ensures { FindsFirst (rows_of self.now section) index result }
    {
        self.tables.get(&section)?.positions.first(index - section)
    }

    /// The positions of the records in the section that have this index, ascending. It takes memory only where
    /// there is one.
    pub fn positions_at(&self, section: u64, index: u64) -> Result<Vec<u64>, AllocError>
        requires order { AreInOrder (λ _. ⊥) self.now }
        requires index { section ≤ index }
        ensures { FindsPositions (rows_of self.now section) index result }
    {
        match self.tables.get(&section) {
            Some(table) => table.positions.all(index - section),
            None => Ok(Vec::new(self.alloc)),
        }
    }

    /// The handles of the records with a key of this word, in no order. It takes no memory.
    pub fn candidates(&self, word: &W) -> &[Handle]
        requires order { AreInOrder (λ _. ⊥) self.now }
        ensures { (word_of : K → W) → HaveWords W.eq word_of self.now
            → AreCandidates W.eq word_of word.now self.now result.now }
    {
        self.words.get(word)
    }

    /// Section and position of the record with this handle.
    pub fn place(&self, handle: Handle) -> (u64, u64)
        requires { HasPlace self.now handle }
        ensures { IsPlace self.now handle result.0 result.1 }
    {
        (self.slots.section(handle.slot()), handle.position())
    }
}

impl<W: Copy, K> Table<W, K> {
    // Of a section that keeps no record, and has no slot yet, with room for a record at an offset.
    fn with_room(alloc: Global, offset: u64) -> Result<Table<W, K>, AllocError>
        ensures { IfOk result (λ table. IsFresh offset table) }
    {
        let mut table = Table {
            slot: 0,
            entries: Vec::new(alloc),
            positions: Positions::new(alloc),
        };
        table.reserve(offset)?;
        Ok(table)
    }

    // Makes room for one record more at an offset. Then adding it takes no memory.
    fn reserve(&mut self, offset: u64) -> Result<(), AllocError>
        ensures same { KeepsTable self.old self.new }
        ensures room { OnOk result (HasTableRoom offset self.new) }
    {
        self.entries.reserve(1)?;
        self.positions.reserve(offset)
    }

    // Adds a record at an offset, for which there is room: its position.
    fn add(&mut self, offset: u64, entry: Entry<W, K>) -> u64
        requires room { HasTableRoom offset self.old }
        requires short { length self.old.entries.items < 2 ^ 40 }
        ensures position { result ≡ length self.old.entries.items }
        ensures adds { AddsEntry offset entry self.old self.new }
    {
        let position = self.entries.len() as u64;
        self.positions.add(offset, position);
        self.entries.push(entry).unwrap();
        position
    }
}

// Takes away the handles with this slot, which is that of the section with these entries. The first entry of a word
// takes all of the word.
fn forget<W: Copy + Eq + Hash, K>(words: &mut Words<W>, slot: u32, entries: &[Entry<W, K>])
    ensures { RemovesSlot W.eq (has_word W.eq entries.now) slot words.old words.new }
{
    for entry in entries {
        words.remove(&entry.word, slot);
    }
}

// Puts the indices of a section into the set: those whose offset has a position.
fn add_indices(indices: &mut RMap, section: u64, positions: &Positions) -> Result<(), RMapError>
    requires { (o : ℕ) → positions_of positions.now o ≢ [] → section + o < 2 ^ 64 }
    ensures { OnOk result (AddsIndices section (positions_of positions.now) (set_of indices.old)
        (set_of indices.new)) }
{
    for offset in 0..positions.end() {
        if positions.first(offset).is_some() {
            indices.insert(section + offset)?;
        }
    }
    Ok(())
}
