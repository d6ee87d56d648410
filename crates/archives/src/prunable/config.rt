// Where a prunable archive is kept, and how.
ghost use Rattle.std.specs.Prelude.{◌↔◌, IsTrue};
ghost use Rattle.archives.specs.Config.{HasPartitions, IsValid, Pairs};

use super::Limits;
use crate::Error;
use paired::oversized;
use sealed_pages::Pages;

/// Where a prunable archive is kept, and how. Its three partitions hold its blobs, and no others.
#[derive(Drop)]
pub struct Config<T, C> {
    /// What makes words of keys.
    pub translator: T,
    /// The partition that holds the markers.
    pub metadata_partition: String,
    /// The partition that holds the index records, with their keys.
    pub key_partition: String,
    /// How a blob of index records is cut into pages.
    pub key_pages: Pages,
    /// The partition that holds the values.
    pub value_partition: String,
    /// What the codec of the values asks for.
    pub codec_config: C,
    /// How many indices share a section.
    pub items_per_section: u64,
    /// From how many bytes on a section's buffer of index records flushes them.
    pub key_write_buffer: usize,
    /// From how many bytes on a section's buffer of values flushes them.
    pub value_write_buffer: usize,
    /// How many bytes of index records an opening reads at once, about.
    pub replay_buffer: usize,
    /// How much may be kept.
    pub limits: Limits,
}

impl<T, C> Config<T, C> {
    /// Whether the partitions have names, no two of them the same, each number is at least 1, and the limits are in their ranges. It takes
    /// no memory.
    pub fn is_valid(&self) -> bool
        ensures { IsTrue result ↔ IsValid self.now }
    {
        self.has_partitions()
            && self.key_pages.is_valid()
            && self.items_per_section >= 1
            && self.key_write_buffer >= 1
            && self.value_write_buffer >= 1
            && self.replay_buffer >= 1
            && self.limits.is_valid()
    }

    // Whether the partitions have names, no two of them the same.
    fn has_partitions(&self) -> bool
        ensures { IsTrue result ↔ HasPartitions self.now }
    {
        let metadata = self.metadata_partition.as_str();
        let keys = self.key_partition.as_str();
        let values = self.value_partition.as_str();
        !metadata.is_empty()
            && !keys.is_empty()
            && !values.is_empty()
            && metadata != keys
            && metadata != values
            && keys != values
    }
}

impl<T, C: Copy + Drop> Config<T, C> {
    // Where the archive's pair is kept, but for its markers.
    pub(crate) fn pair(&self) -> Result<oversized::Config<C>, Error>
        ensures { Pairs self.now result }
    {
        Ok(oversized::Config {
            index_partition: self.key_partition.clone()?,
            value_partition: self.value_partition.clone()?,
            index_pages: self.key_pages,
            index_write_buffer: self.key_write_buffer,
            value_write_buffer: self.value_write_buffer,
            replay_buffer: self.replay_buffer,
            codec_config: self.codec_config,
        })
    }
}
