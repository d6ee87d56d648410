// What images hold, by the plain reading and by opening the map.
use crate::plain::{Entries, number, reading, text_of};
use crate::session::{Map, opened};
use crate::words::error_text;
use blob_device::{CrashChoice, DevError, Image, Memory};
use std::alloc::{AllocError, Global};
use value_codec::Key;

/// All entries of the map, in the order of its keys.
pub fn entries(alloc: Global, map: &Map) -> Result<Entries, AllocError> {
    let mut entries = Vec::new(alloc);
    for key in map.keys() {
        if let Some(value) = map.get(key) {
            entries.push((number(Some(key.as_bytes())), *value))?;
        }
    }
    Ok(entries)
}

/// A floor and entries, in plain text.
fn text_with(alloc: Global, floor: u64, entries: &str) -> Result<String, AllocError> {
    match floor {
        0 => format!(in alloc; ": {entries}"),
        _ => format!(in alloc; ", floor {floor}: {entries}"),
    }
}

/// What the image holds. Where the map opens as anything else, that is told too.
pub fn judged(alloc: Global, image: &Image) -> Result<String, DevError> {
    let plain = reading(alloc, image)?;
    let mut dev = Memory::from_image(alloc, image.copy(alloc)?)?;
    let held = match opened(alloc, &mut dev) {
        Ok(map) => {
            let entries = text_of(alloc, &entries(alloc, &map)?)?;
            text_with(alloc, map.floor(), entries.as_str())?
        }
        Err(e) => text_with(alloc, 0, error_text(alloc, e)?.as_str())?,
    };
    let wanted = text_with(alloc, plain.floor, plain.entries.as_str())?;
    let mut said = match plain.version {
        Some(version) => format!(in alloc; "version {version}{}", wanted.as_str())?,
        None => plain.entries.clone()?,
    };
    if held.as_str() != wanted.as_str() {
        write!(&mut said, ", but it opens as {}", held.as_str())?;
    }
    Ok(said)
}

/// What a crash may now leave: each outcome of the fourteen choices once.
pub fn crashes(alloc: Global, dev: &Memory) -> Result<String, DevError> {
    let mut seen: Vec<String> = Vec::new(alloc);
    let mut said = String::new(alloc);
    for choice in CrashChoice::SAMPLES {
        let outcome = judged(alloc, &dev.pick_crash(alloc, choice)?)?;
        if !seen.contains(&outcome) {
            let between = if said.is_empty() { "" } else { " or " };
            write!(&mut said, "{between}{}", outcome.as_str())?;
            seen.push(outcome)?;
        }
    }
    Ok(said)
}
