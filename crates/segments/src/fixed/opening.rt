// Opening a fixed journal.
ghost use Rattle.std.specs.Prelude.{◌≤◌, ◌-◌, ◌^◌, string_bytes};
ghost use Rattle.section_manager.specs.Answers.{seen};
ghost use Rattle.segments.specs.FixedOpens.{Opens};

use super::preflighting::longer_sections;
use super::{Config, Journal};
use crate::journal::Error;
use crate::{AppendFactory, BufferFactory, Manager, ManagerConfig, SectionBuffer};
use blob_device::Device;
use sealed_pages::PageBlob;
use std::alloc::Global;
use std::collections::BTreeMap;
use std::marker::PhantomData;
use value_codec::{CodecFixed, Seal};

impl<A: CodecFixed, S: Seal> Journal<A, S> {
    ghost use Rattle.segments.specs.FixedShown.{shown};

    /// Opens the sections of the partition.
    ///
    /// It refuses a blob with a name that is no section's, before it changes anything.
    pub fn init<D: Device>(alloc: Global, dev: &mut D, cfg: &Config) -> Result<Self, Error>
        requires valid { 1 ≤ cfg.now.pages.page_size }
        ensures { Opens ⟦<PageBlob<S> as SectionBuffer>⟧ ⟦<AppendFactory<S> as BufferFactory>⟧.gives
            S.seal_of A.SIZE (string_bytes cfg.now.partition) cfg.now.pages cfg.now.write_buffer
            (2 ^ 64 - 1) D.Device (seen shown result) dev.old dev.new }
    {
        Journal::init_bounded(alloc, dev, cfg, u64::MAX)
    }

    /// Opens the sections of the partition up to this one. The later ones are not held, but a `prune`, a
    /// `clear` and a `destroy` remove them.
    ///
    /// It refuses a blob with a name that is no section's, before it changes anything.
    pub fn init_bounded<D: Device>(
        alloc: Global,
        dev: &mut D,
        cfg: &Config,
        ceiling: u64,
    ) -> Result<Self, Error>
        requires valid { 1 ≤ cfg.now.pages.page_size }
        ensures { Opens ⟦<PageBlob<S> as SectionBuffer>⟧ ⟦<AppendFactory<S> as BufferFactory>⟧.gives
            S.seal_of A.SIZE (string_bytes cfg.now.partition) cfg.now.pages cfg.now.write_buffer
            ceiling D.Device (seen shown result) dev.old dev.new }
    {
        let config = ManagerConfig {
            partition: cfg.partition.clone()?,
            factory: AppendFactory::new(cfg.write_buffer, cfg.pages),
        };
        let manager = Manager::init_bounded(alloc, dev, config, ceiling)?;
        let floors = BTreeMap::new(alloc);
        let unrecovered = longer_sections(alloc, &manager, &floors)?;
        Ok(Journal {
            alloc,
            manager,
            unrecovered,
            floors,
            spelling: Vec::new(alloc),
            item: PhantomData,
        })
    }
}
