// Where the program keeps its archive.
ghost use Rattle.std.specs.Prelude.{◌≤◌, IfOk};
ghost use Rattle.archive_service.specs.Settings.{AreSettings};
ghost use Rattle.archive_program.specs.Config.{IsConfigFor};

use archive_service::{Settings, StoreConfig};
use archives::{FourCap, prunable};
use sealed_pages::Pages;
use std::alloc::{AllocError, Global};

/// Where the archive is kept, and how, with room for so many indices in a section.
pub fn config_of(
    alloc: Global,
    items: u64,
    settings: &Settings,
) -> Result<StoreConfig<FourCap, u32>, AllocError>
    requires settings { AreSettings settings.now }
    requires items { 1 ≤ items }
    ensures { IfOk result (IsConfigFor settings.now items) }
{
    Ok(StoreConfig::Prunable(prunable::Config {
        translator: FourCap,
        metadata_partition: String::from_str(alloc, "meta")?,
        key_partition: String::from_str(alloc, "keys")?,
        key_pages: Pages {
            page_size: settings.page_size,
            cache_pages: settings.cache_pages,
        },
        value_partition: String::from_str(alloc, "values")?,
        codec_config: settings.max_value,
        items_per_section: items,
        key_write_buffer: settings.write_buffer,
        value_write_buffer: settings.write_buffer,
        replay_buffer: settings.replay_buffer,
        limits: settings.limits,
    }))
}
