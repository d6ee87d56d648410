// Opening a cache over what its blobs keep.
ghost use Rattle.std.specs.Prelude.{◌≡◌, ◌≤◌};
ghost use Rattle.cache_store.specs.Config.{IsValid, refusal_of};
ghost use Rattle.cache_store.specs.Entering.{Enters};
ghost use Rattle.cache_store.specs.Holding.{IsTied};
ghost use Rattle.cache_store.specs.Opens.{Opens};
ghost use Rattle.cache_store.specs.Replayed.{EntersAll};
ghost use Rattle.cache_store.specs.Shown.{shown};
ghost use Rattle.cache_store.specs.Shown.{config_of as config_in};
ghost use Rattle.section_manager.specs.Answers.{seen};
ghost use Rattle.segments.specs.FixedReplay.{Begins};
ghost use Rattle.variable_journal.specs.Advancing.{IsGoing};
ghost use Rattle.variable_journal.specs.Walking.{config_of, walk_of};

use super::{Cache, section_of};
use crate::Config;
use crate::held::Held;
use crate::record::Record;
use blob_device::Device;
use sealed_pages::PageBlob;
use section_manager::journal::{Damage, Error};
use section_manager::{AppendFactory, BufferFactory, SectionBuffer};
use std::alloc::Global;
use std::collections::BTreeMap;
use value_codec::{Codec, Seal};
use variable_journal::{Journal, Replay};

// Holds a record that its section keeps, by the first of its index. It refuses one whose index is
// of another section.
fn enter(held: &mut Held, section: u64, offset: u64, index: u64, items: u64) -> Result<(), Error>
    requires items { 1 ≤ items }
    requires tied { IsTied held.old }
    ensures { Enters items section offset index held.old held.new result }
{
    let wanted = section_of(index, items);
    if wanted != section {
        return Err(Error::Corruption(Damage {
            section,
            kept: section,
            wanted,
        }));
    }
    if held.has(index) {
        return Ok(());
    }
    held.insert(index, offset)
}

impl<V: Codec, S: Seal> Cache<V, S> {
    /// Opens the cache, with all that its blobs keep. The floor is none.
    ///
    /// A name that is no section's is refused before all else, by `InvalidBlobName`. Then it goes
    /// over the sections in ascending order, and cuts off what a crash left torn. `Codec` says why
    /// a record, or a length, is refused: the first that is. `Corruption` says that a record is of
    /// another section.
    pub fn init<D: Device>(alloc: Global, dev: &mut D, cfg: &Config<V::Cfg>) -> Result<Self, Error>
        requires { IsValid cfg.now }
        ensures { Opens ⟦<PageBlob<S> as SectionBuffer>⟧
            ⟦<AppendFactory<S> as BufferFactory>⟧.gives D.Device S.seal_of V.refusal cfg.now
            dev.old dev.new (seen (shown V.refusal) result) (seen config_in result) }
    {
        let config = cfg.journal()?;
        // Each blob settles as it is opened: no crash takes back what is held from here on.
        let journal = Journal::init(alloc, dev, &config)?;
        // From the first section on, so that none owes a replay: what is torn is cut as it is met.
        let mut replay = journal.replay(dev, 0, 0, cfg.replay_buffer)?;
        let held = Self::entered(alloc, dev, &mut replay, cfg.items_per_blob)?;
        let records = replay.finish()?;
        Ok(Cache {
            alloc,
            journal: records,
            items_per_blob: cfg.items_per_blob,
            held,
            written: BTreeMap::new(alloc),
            // None is stored.
            floor: 0,
        })
    }

    // Drains the replay, and holds the records that it gives.
    fn entered<D: Device>(
        alloc: Global,
        dev: &mut D,
        replay: &mut Replay<Record<V>, S>,
        items: u64,
    ) -> Result<Held, Error>
        requires items { 1 ≤ items }
        requires over { IsGoing ⟦<PageBlob<S> as SectionBuffer>⟧
            ⟦<AppendFactory<S> as BufferFactory>⟧.gives S.seal_of
            D.Device (walk_of replay.old) dev.old }
        requires begun { Begins (walk_of replay.old).journal 0 0 (walk_of replay.old) }
        ensures config { config_of replay.new ≡ config_of replay.old }
        ensures all { EntersAll ⟦<PageBlob<S> as SectionBuffer>⟧
            ⟦<AppendFactory<S> as BufferFactory>⟧.gives S.seal_of
            D.Device items (refusal_of V.refusal (config_of replay.old))
            (walk_of replay.old) (walk_of replay.new) dev.old dev.new result }
    {
        let mut held = Held::new(alloc);
        'records: while let Some(given) = replay.next(dev) {
            let (section, offset, _, record) = given?;
            enter(&mut held, section, offset, record.index, items)?;
        }
        Ok(held)
    }
}
