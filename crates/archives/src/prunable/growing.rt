// Growth of what is held in memory, before a record is written.
ghost use Rattle.std.specs.Prelude.{◌≤◌, ◌^◌};
ghost use Rattle.record_tables.specs.Rows.{HasRoom};
ghost use Rattle.record_tables.specs.Tables.{AreInOrder, rows_of};
ghost use Rattle.archives.specs.Growing.{GrowEnds};

use crate::Error;
use ordinal_store::RMap;
use record_tables::Tables;
use std::collections::BTreeSet;
use std::hash::Hash;

// What an archive holds in memory of its records, beside the pair's buffers.
#[derive(Drop)]
pub(super) struct Held<W: Copy + Eq + Hash, K> {
    // as the archive's
    pub(super) tables: Tables<W, K>,
    // as the archive's
    pub(super) indices: RMap,
    // as the archive's
    pub(super) written: BTreeSet<u64>,
}

impl<W: Copy + Eq + Hash, K> Held<W, K> {
    // All growths for one record more: behind it the record is added without memory. Its section counts as written, and
    // its index as taken. It has no device, so nothing can be written before.
    pub(super) fn grown(self, section: u64, index: u64, word: W) -> Result<Self, Error>
        requires order { AreInOrder (λ _. ⊥) self.tables }
        requires room { HasRoom (2 ^ 24) (2 ^ 40) (rows_of self.tables) section }
        requires index { section ≤ index }
        ensures { GrowEnds W.eq section index word self result }
    {
        let mut held = self;
        held.tables.reserve(section, index, word)?;
        held.written.insert(section)?;
        held.indices.insert(index)?;
        Ok(held)
    }
}
