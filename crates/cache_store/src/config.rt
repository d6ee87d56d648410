// Where a cache is kept, and how.
ghost use Rattle.std.specs.Prelude.{◌↔◌, IsTrue};
ghost use Rattle.cache_store.specs.Config.{IsValid, Journals};

use sealed_pages::Pages;
use section_manager::journal::Error;
use variable_journal as variable;

/// Where a cache is kept, and how.
#[derive(Drop)]
pub struct Config<C> {
    /// The partition that holds the sections' blobs, and no other blob.
    pub partition: String,
    /// What the codec of the values asks for.
    pub codec_config: C,
    /// How many indices share a section. A cache is opened with the number with which it was made.
    pub items_per_blob: u64,
    /// From how many bytes on a section's buffer flushes them.
    pub write_buffer: usize,
    /// How many bytes of a section an opening reads at once, about.
    pub replay_buffer: usize,
    /// How a section's blob is cut into pages.
    pub pages: Pages,
}

impl<C> Config<C> {
    /// Whether the partition has a name, and each number is at least 1. It takes no memory.
    pub fn is_valid(&self) -> bool
        ensures { IsTrue result ↔ IsValid self.now }
    {
        !self.partition.is_empty()
            && self.pages.is_valid()
            && self.items_per_blob >= 1
            && self.write_buffer >= 1
            && self.replay_buffer >= 1
    }
}

impl<C: Copy + Drop> Config<C> {
    // Where the journal of records is kept.
    pub(crate) fn journal(&self) -> Result<variable::Config<C>, Error>
        ensures { Journals self.now result }
    {
        Ok(variable::Config {
            partition: self.partition.clone()?,
            pages: self.pages,
            write_buffer: self.write_buffer,
            codec_config: self.codec_config,
        })
    }
}
