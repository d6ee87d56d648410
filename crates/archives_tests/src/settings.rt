// How the archives of scenarios are configured.
use archives::FourCap;
use archives::prunable::{Config, Limits};
use scenario_text::Step;
use sealed_pages::Pages;
use std::alloc::{AllocError, Global};

pub type Settings = Config<FourCap, ()>;

/// Four indices a section, buffers that hold all that a scenario puts, and limits that none comes near.
pub fn usual(alloc: Global) -> Result<Settings, AllocError> {
    Ok(Config {
        translator: FourCap,
        metadata_partition: String::from_str(alloc, "meta")?,
        key_partition: String::from_str(alloc, "keys")?,
        key_pages: Pages {
            page_size: 1024,
            cache_pages: 0,
        },
        value_partition: String::from_str(alloc, "values")?,
        codec_config: (),
        items_per_section: 4,
        key_write_buffer: 1024,
        value_write_buffer: 1024,
        replay_buffer: 64,
        limits: Limits {
            sections: 1 << 24,
            per_section: 1 << 40,
        },
    })
}

/// Changes the partition's name or the number that the step names. The answer is whether there is one.
pub fn set(settings: &mut Settings, alloc: Global, step: &Step) -> Result<bool, AllocError> {
    let word = match step.argument(1) {
        "-" => "",
        word => word,
    };
    match step.argument(0) {
        "metadata_partition" => settings.metadata_partition = String::from_str(alloc, word)?,
        "key_partition" => settings.key_partition = String::from_str(alloc, word)?,
        "value_partition" => settings.value_partition = String::from_str(alloc, word)?,
        name => return Ok(set_number(settings, name, step.number(1))),
    }
    Ok(true)
}

// Changes the number of this name.
fn set_number(settings: &mut Settings, name: &str, number: Option<u64>) -> bool {
    let Some(number) = number else {
        return false;
    };
    match (name, u16::try_from(number), u32::try_from(number)) {
        ("page_size", Ok(size), _) => settings.key_pages.page_size = size,
        ("items_per_section", _, _) => settings.items_per_section = number,
        ("key_write_buffer", _, _) => settings.key_write_buffer = number as usize,
        ("value_write_buffer", _, _) => settings.value_write_buffer = number as usize,
        ("replay_buffer", _, _) => settings.replay_buffer = number as usize,
        ("sections", _, Ok(sections)) => settings.limits.sections = sections,
        ("per_section", _, _) => settings.limits.per_section = number,
        _ => return false,
    }
    true
}
