//! The same calls over plain lists, gone over from their begin. It is slow, and short: what it answers is judged
//! against the tables.
ghost use Rattle.std.specs.Prelude.{◌≡◌, ℕ, [], ◌∷◌, ◌++◌, IfOk, OnOk, if◌then◌else◌, length};
ghost use Rattle.record_tables.specs.Plain.{ArePlaces, ForgetsBelow, ListsOneMore, listed_rows, rows_among};
ghost use Rattle.record_tables.specs.Rows.{ArePositions};

use std::alloc::{AllocError, AllocFailed, Global};

/// A record, as the plain lists hold it.
#[derive(Clone, Copy, Debug, PartialEq, Eq)]
pub struct Row<W> {
    /// The section in which it stands.
    pub section: u64,
    /// Its index.
    pub index: u64,
    /// The word of its key.
    pub word: W,
}

/// The records of all sections, in the order in which they were added.
#[derive(Drop)]
pub struct Lists<W> {
    // each record once
    rows: Vec<Row<W>>,
}

impl<W: Copy + Eq> Lists<W> {
    /// No section keeps a record.
    pub fn new(alloc: Global) -> Lists<W>
        ensures { (s : ℕ) → listed_rows result s ≡ [] }
    {
        Lists {
            rows: Vec::new(alloc),
        }
    }

    /// The records, in the order in which they were added.
    pub fn rows(&self) -> &[Row<W>]
        ensures { result.now ≡ self.now.rows.items }
    {
        self.rows.as_slice()
    }

    /// Adds a record behind those of its section.
    pub fn push(&mut self, row: Row<W>) -> Result<(), AllocFailed<Row<W>>>
        ensures { ListsOneMore row self.old result self.new }
    {
        self.rows.push(row)
    }

    /// Forgets the records of the sections below a bound.
    pub fn remove_below(&mut self, bound: u64)
        ensures { ForgetsBelow bound self.old self.new }
    {
        self.rows.retain(|row| bound <= row.section);
    }

    /// The positions of the records in the section that have this index, ascending.
    pub fn positions_at(
        &self,
        alloc: Global,
        section: u64,
        index: u64,
    ) -> Result<Vec<u64>, AllocError>
        ensures { IfOk result (λ positions.
            ArePositions (listed_rows self.now section) index positions.items) }
    {
        let mut positions = Vec::new(alloc);
        let mut position = 0;
        for row in &self.rows {
            if row.section == section {
                push_if(&mut positions, row.index == index, position)?;
                position += 1;
            }
        }
        Ok(positions)
    }

    /// Section and position of each record with a key of this word, in the order in which they were added.
    pub fn candidates(&self, alloc: Global, word: &W) -> Result<Vec<(u64, u64)>, AllocError>
        ensures { IfOk result (λ places.
            ArePlaces W.eq word.now (listed_rows self.now) places.items) }
    {
        let mut places = Vec::new(alloc);
        for (at, row) in self.rows.iter().enumerate() {
            let position = count_in(&self.rows[..at], row.section);
            push_if(&mut places, row.word == *word, (row.section, position))?;
        }
        Ok(places)
    }
}

// How many of these records stand in the section.
fn count_in<W: Copy>(rows: &[Row<W>], section: u64) -> u64
    ensures { result ≡ length (rows_among section rows.now) }
{
    let mut count = 0;
    for row in rows {
        if row.section == section {
            count += 1;
        }
    }
    count
}

// Adds it behind the others, where it is wanted.
fn push_if<T: Copy>(found: &mut Vec<T>, is_wanted: bool, one: T) -> Result<(), AllocError>
    ensures { OnOk result (found.new.items
        ≡ (if is_wanted then found.old.items ++ one ∷ [] else found.old.items)) }
{
    if !is_wanted {
        return Ok(());
    }
    found.push(one)?;
    Ok(())
}
