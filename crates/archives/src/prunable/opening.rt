// Opening the archive over what its blobs keep.
ghost use Rattle.std.specs.Prelude.{◌≤◌};
ghost use Rattle.paired.specs.CodecShown.{replay_codec_config};
ghost use Rattle.paired.specs.ReplayShown.{run_of};
ghost use Rattle.archives.specs.Config.{IsValid};
ghost use Rattle.archives.specs.Enters.{Drains, EntersRow, MayEnter};
ghost use Rattle.archives.specs.IndexRecord.{place_of};
ghost use Rattle.archives.specs.Limits.{AreLimits};
ghost use Rattle.archives.specs.Opens.{Opens};
ghost use Rattle.archives.specs.Rows.{AreTables, rows_of};
ghost use Rattle.archives.specs.Shown.{buffers_by, means, setup_for};

use super::index_record::IndexRecord;
use super::{Archive, Config, section_of};
use crate::{Error, Translator};
use blob_device::Device;
use paired::{Oversized, oversized};
use record_tables::Tables;
use sealed_pages::PageBlob;
use segments::SectionBuffer;
use std::alloc::Global;
use std::collections::BTreeSet;
use value_codec::{Codec, Key, Seal};

// Enters a record that the section keeps. It refuses one whose index is of another section, and one that passes the limits.
fn enter<T: Translator, K: Key, C>(
    tables: &mut Tables<T::Word, K>,
    section: u64,
    found: &IndexRecord<K>,
    cfg: &Config<T, C>,
) -> Result<(), Error>
    requires items { 1 ≤ cfg.now.items_per_section }
    requires limits { AreLimits cfg.now.limits }
    requires tied { AreTables K.key_bytes T.Word.eq (T.word_of cfg.now.translator) tables.old }
    ensures { EntersRow K.key_bytes T.Word.eq (T.word_of cfg.now.translator)
        cfg.now.items_per_section cfg.now.limits tables.old section
        (record { index = found.now.index; key = K.key_bytes found.now.key })
        result tables.new }
{
    let index = found.index();
    if section_of(index, cfg.items_per_section) != section {
        return Err(Error::RecordCorrupted);
    }
    if !tables.has_room(cfg.limits.sections, cfg.limits.per_section, section) {
        return Err(Error::Full);
    }
    let key = found.key();
    let word = cfg.translator.transform(key.as_bytes());
    // Room comes first, so that the record is added whole or not at all.
    tables.reserve(section, index, word)?;
    tables.push(section, index, word, key);
    Ok(())
}

impl<T: Translator, K: Key, V: Codec, S: Seal> Archive<T, K, V, S> {
    /// Opens the archive, with all that its blobs keep. The floor is none.
    ///
    /// It refuses as the opening of a pair by its markers does; by `RecordCorrupted` where a record that is kept stands in a section that is
    /// not that of its index; and by `Full` where more sections keep records than the limits allow, or a section keeps more records. Then no
    /// record and no value that is kept was cut, and no marker was raised.
    pub fn init<D: Device>(
        alloc: Global,
        dev: &mut D,
        cfg: &Config<T, V::Cfg>,
    ) -> Result<Self, Error>
        requires valid { IsValid cfg.now }
        ensures { Opens (means ⟦<PageBlob<S> as SectionBuffer>⟧) D.Device
            (setup_for K.SIZE S.Seal V.Codec T.word_of T.Word.eq cfg.now) result dev.old dev.new }
    {
        let mut replay = Oversized::init_with_metadata(
            alloc,
            dev,
            &cfg.pair()?,
            cfg.metadata_partition.as_str(),
        )?;
        let tables = Self::entered(alloc, dev, &mut replay, cfg)?;
        let indices = tables.indices()?;
        Ok(Archive {
            alloc,
            translator: cfg.translator,
            items_per_section: cfg.items_per_section,
            limits: cfg.limits,
            pair: replay.finish_tracked(dev)?,
            // None is stored.
            floor: 0,
            tables,
            indices,
            written: BTreeSet::new(alloc),
        })
    }

    // Drains the replay, and enters the records that it gives.
    fn entered<D: Device>(
        alloc: Global,
        dev: &mut D,
        replay: &mut oversized::Replay<IndexRecord<K>, V, S>,
        cfg: &Config<T, V::Cfg>,
    ) -> Result<Tables<T::Word, K>, Error>
        requires valid { IsValid cfg.now }
        requires may { MayEnter (buffers_by ⟦<PageBlob<S> as SectionBuffer>⟧) D.Device
            (run_of (place_of K.SIZE) replay.old) dev.old }
        ensures { Drains (buffers_by ⟦<PageBlob<S> as SectionBuffer>⟧) D.Device
            K.SIZE cfg.now.items_per_section cfg.now.limits
            (run_of (place_of K.SIZE) replay.old) (run_of (place_of K.SIZE) replay.new)
            dev.old dev.new (rows_of K.key_bytes)
            (AreTables K.key_bytes T.Word.eq (T.word_of cfg.now.translator))
            (replay_codec_config replay.old) (replay_codec_config replay.new) result }
    {
        let mut tables = Tables::new(alloc);
        while let Some(given) = replay.next(dev) {
            let (section, _, record) = given?;
            enter(&mut tables, section, &record, cfg)?;
        }
        Ok(tables)
    }
}
