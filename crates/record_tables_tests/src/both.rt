// Tables beside plain lists that are told the same.
ghost use Rattle.std.specs.Prelude.{◌≡◌, IfOk};
ghost use Rattle.record_tables_tests.specs.Told.{AreTold};
ghost use Rattle.record_tables_tests.specs.Told as told;

use crate::plainly::has_room;
use crate::words::Place;
use ordinal_store::RMapError;
use ordinal_store::plain::PlainSet;
use record_tables::{Tables, plain};
use std::alloc::{AllocError, Global};

/// How many sections may keep records.
pub const SECTIONS: u32 = 8;

/// How many records a section may keep.
pub const PER_SECTION: u64 = 16;

/// Tables, and lists that are told the same.
#[derive(Drop)]
pub struct Both {
    // for answers that are lists
    alloc: Global,
    // told of each record and each bound (`AreTold`)
    tables: Tables<u64, u64>,
    // told the same after the tables
    plain: plain::Lists<u64>,
}

/// An answer of the tables, and whether it is the plain lists' one.
#[derive(Drop)]
pub struct Answer<T> {
    /// What the tables say.
    pub said: T,
    /// Whether the lists say the same.
    pub same: bool,
}

// The word of a key.
fn word_of(key: u64) -> u64
    ensures { result ≡ told.word_of key }
{
    key % 4
}

impl Both {
    /// No section keeps a record.
    pub fn new(alloc: Global) -> Both
        ensures { AreTold result }
    {
        Both {
            alloc,
            tables: Tables::new(alloc),
            plain: plain::Lists::new(alloc),
        }
    }

    /// Whether one record more has room in the section.
    pub fn has_room(&self, section: u64) -> Answer<bool>
        requires { AreTold self.now }
    {
        let said = self.tables.has_room(SECTIONS, PER_SECTION, section);
        let plain = has_room(self.plain.rows(), section);
        Answer {
            said,
            same: said == plain,
        }
    }

    /// Adds a record, where it has room.
    pub fn put(self, place: Place, key: u64) -> Result<Both, AllocError>
        requires { AreTold self }
        ensures { IfOk result (λ both. AreTold both) }
    {
        let Place { section, index } = place;
        if !self.tables.has_room(SECTIONS, PER_SECTION, section) {
            return Ok(self);
        }
        let word = word_of(key);
        let mut tables = self.tables;
        let mut plain = self.plain;
        tables.reserve(section, index, word)?;
        tables.push(section, index, word, &key);
        plain.push(plain::Row {
            section,
            index,
            word,
        })?;
        Ok(Both {
            alloc: self.alloc,
            tables,
            plain,
        })
    }

    /// Forgets the records of the sections below a bound.
    pub fn prune(&mut self, bound: u64)
        requires { AreTold self.old }
        ensures { AreTold self.new }
    {
        self.tables.remove_below(bound);
        self.plain.remove_below(bound);
    }

    /// The first position of the index.
    pub fn first(&self, at: Place) -> Result<Answer<Option<u64>>, AllocError>
        requires { AreTold self.now }
    {
        let said = self.tables.position_of(at.section, at.index);
        let plain = self.plain.positions_at(self.alloc, at.section, at.index)?;
        Ok(Answer {
            said,
            same: said == plain.first().copied(),
        })
    }

    /// All positions of the index.
    pub fn all(&self, at: Place) -> Result<Answer<Vec<u64>>, AllocError>
        requires { AreTold self.now }
    {
        let said = self.tables.positions_at(at.section, at.index)?;
        let plain = self.plain.positions_at(self.alloc, at.section, at.index)?;
        let same = said.as_slice() == plain.as_slice();
        Ok(Answer { said, same })
    }

    /// The places of the records with the key's word, ascending.
    pub fn places(&self, key: u64) -> Result<Answer<Vec<(u64, u64)>>, AllocError>
        requires { AreTold self.now }
    {
        let word = word_of(key);
        let mut said = Vec::new(self.alloc);
        for handle in self.tables.candidates(&word) {
            said.push(self.tables.place(*handle))?;
        }
        let mut plain = self.plain.candidates(self.alloc, &word)?;
        said.sort()?;
        plain.sort()?;
        let same = said.as_slice() == plain.as_slice();
        Ok(Answer { said, same })
    }

    /// Slot and position of the same records, ascending.
    pub fn handles(&self, key: u64) -> Result<Vec<(u32, u64)>, AllocError>
        requires { AreTold self.now }
    {
        let mut handles = Vec::new(self.alloc);
        for handle in self.tables.candidates(&word_of(key)) {
            handles.push((handle.slot(), handle.position()))?;
        }
        handles.sort()?;
        Ok(handles)
    }

    /// The runs of all indices.
    pub fn indices(&self) -> Result<Answer<Vec<(u64, u64)>>, RMapError>
        requires { AreTold self.now }
    {
        let mut said = Vec::new(self.alloc);
        for run in self.tables.indices()?.iter() {
            said.push(run)?;
        }
        let mut plain = PlainSet::new(self.alloc);
        for row in self.plain.rows() {
            plain.insert(row.index)?;
        }
        let same = said.as_slice() == plain.runs_from(0)?.as_slice();
        Ok(Answer { said, same })
    }
}
