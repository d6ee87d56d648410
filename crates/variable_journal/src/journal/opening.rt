// Opening a journal.
ghost use Rattle.std.specs.Prelude.{◌≡◌, ◌≤◌, IfOk, OnErr, string_bytes};
ghost use Rattle.std.specs.Result.{IsErrOf};
ghost use Rattle.section_manager.specs.Answers.{seen};
ghost use Rattle.variable_journal.specs.Opening.{Opens};
ghost use Rattle.variable_journal.specs.OpeningAtMost.{OpensTo};

use super::{Config, Journal};
use blob_device::Device;
use sealed_pages::PageBlob;
use segments::journal::Error;
use segments::{AppendFactory, BufferFactory, SectionBuffer, fixed};
use std::alloc::Global;
use value_codec::{Codec, Seal};

impl<C: Copy> Config<C> {
    // The same of the journal of bytes.
    fn of_bytes(&self) -> Result<fixed::Config, Error>
        ensures same { IfOk result (λ r.
            (string_bytes r.partition ≡ string_bytes self.now.partition)
            × (r.pages ≡ self.now.pages) × (r.write_buffer ≡ self.now.write_buffer)) }
        ensures cause { OnErr result (IsErrOf result Error.Mem) }
    {
        Ok(fixed::Config {
            partition: self.partition.clone()?,
            pages: self.pages,
            write_buffer: self.write_buffer,
        })
    }
}

impl<V: Codec, S: Seal> Journal<V, S> {
    ghost use Rattle.variable_journal.specs.Shown.{config_of, shown};

    /// Opens the sections of the partition. Each that has bytes owes a replay.
    ///
    /// It refuses a blob with a name that is no section's, before it changes anything.
    pub fn init<D: Device>(alloc: Global, dev: &mut D, cfg: &Config<V::Cfg>) -> Result<Self, Error>
        requires { 1 ≤ cfg.now.pages.page_size }
        ensures { Opens ⟦<PageBlob<S> as SectionBuffer>⟧ ⟦<AppendFactory<S> as BufferFactory>⟧.gives
            S.seal_of (string_bytes cfg.now.partition) cfg.now.pages cfg.now.write_buffer
            D.Device (seen shown result) cfg.now.codec_config (seen config_of result)
            dev.old dev.new }
    {
        // What a blob reads as settles as it is opened, so that no crash takes back what was given.
        let bytes = fixed::Journal::init(alloc, dev, &cfg.of_bytes()?)?;
        Ok(Journal {
            alloc,
            bytes,
            codec_config: cfg.codec_config,
        })
    }

    /// Opens the sections of the partition up to this one, removes the later ones, the newest first, and cuts this
    /// one to its sealed bytes before `end`. Then each section is cut durably to its whole frames. The sections take
    /// appends.
    ///
    /// It refuses a blob with a name that is no section's, also above the bound, before it changes anything. `Codec`
    /// says why the first item, or length, is refused.
    pub fn init_at_most<D: Device>(
        alloc: Global,
        dev: &mut D,
        cfg: &Config<V::Cfg>,
        section: u64,
        end: u64,
    ) -> Result<Self, Error>
        requires { 1 ≤ cfg.now.pages.page_size }
        ensures { OpensTo S.seal_of cfg.now.pages.page_size (string_bytes cfg.now.partition) section
            end V.spelling V.accepted cfg.now.codec_config V.refusal
            ⟦<PageBlob<S> as SectionBuffer>⟧ ⟦<AppendFactory<S> as BufferFactory>⟧.gives
            cfg.now.pages cfg.now.write_buffer D.Device (seen shown result) (seen config_of result)
            dev.old dev.new }
    {
        // The later sections go before the cut, so that a crash leaves none behind a section that is cut.
        let bytes = fixed::Journal::open_at_most(alloc, dev, &cfg.of_bytes()?, section, end)?;
        let journal = Journal {
            alloc,
            bytes,
            codec_config: cfg.codec_config,
        };
        // After the cut: what stands above the bound is not judged.
        let replay = journal.replay(dev, 0, 0, cfg.write_buffer)?;
        replay.drain(dev)
    }
}
