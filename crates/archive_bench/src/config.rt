// Where the archive of the benchmark is kept.
ghost use Rattle.std.specs.Prelude.{◌≡◌, ◌≤◌, IfOk};
ghost use Rattle.archives.specs.Config.{IsValid};
ghost use Rattle.archive_service.specs.Settings.{AreSettings};

use archive_service::Settings;
use archives::{FourCap, prunable};
use sealed_pages::Pages;
use std::alloc::{AllocError, Global};

/// The partition of the markers.
pub const METADATA_PARTITION: &str = "meta";

/// The partition of the index records.
pub const KEY_PARTITION: &str = "keys";

/// The partition of the values.
pub const VALUE_PARTITION: &str = "values";

/// How many indices a section has room for, where no words say it.
pub const ITEMS: u64 = 1024;

// How many bytes a page has behind its data: two slots of six.
const SLOT_BYTES: u64 = 12;

/// How many bytes a page of an index blob has in the blob.
pub fn page_bytes(settings: &Settings) -> u64
    ensures { 1 ≤ result }
{
    u64::from(settings.page_size) + SLOT_BYTES
}

/// How many bytes an index record has: the index, the key of eight bytes, and the place and the size of the
/// value.
pub const RECORD_BYTES: u64 = 28;

// How many pages the index blob of a section has with so many records.
fn section_pages(settings: &Settings, records: u64) -> u64
    requires { 1 ≤ settings.now.page_size }
{
    records
        .saturating_mul(RECORD_BYTES)
        .div_ceil(u64::from(settings.page_size))
}

/// How many pages all index blobs have where so many indices one behind another have a record, from the first
/// of a section on, and no others.
pub fn index_pages(settings: &Settings, items: u64, records: u64) -> u64
    requires page { 1 ≤ settings.now.page_size }
    requires items { 1 ≤ items }
{
    let full = (records / items).saturating_mul(section_pages(settings, items));
    full.saturating_add(section_pages(settings, records % items))
}

/// Where the archive is kept, and how, by the settings of the program.
pub fn config_of(
    alloc: Global,
    settings: &Settings,
    items: u64,
) -> Result<prunable::Config<FourCap, u32>, AllocError>
    requires settings { AreSettings settings.now }
    requires items { 1 ≤ items }
    ensures valid { IfOk result (λ c. IsValid c) }
    ensures values { IfOk result (λ c. c.codec_config ≡ settings.now.max_value) }
{
    Ok(prunable::Config {
        translator: FourCap,
        metadata_partition: String::from_str(alloc, METADATA_PARTITION)?,
        key_partition: String::from_str(alloc, KEY_PARTITION)?,
        key_pages: Pages {
            page_size: settings.page_size,
            cache_pages: settings.cache_pages,
        },
        value_partition: String::from_str(alloc, VALUE_PARTITION)?,
        codec_config: settings.max_value,
        items_per_section: items,
        key_write_buffer: settings.write_buffer,
        value_write_buffer: settings.write_buffer,
        replay_buffer: settings.replay_buffer,
        limits: settings.limits,
    })
}
