// What plain programs find in an image.
use crate::notes::Note;
use blob_device::{Image, Memory};
use meta_store::{Config, Metadata};
use paired::plain::{has_sound, is_sound, kept};
use segments::journal::Error;
use std::alloc::Global;
use value_codec::{Key, Key8, Sha256Seal};

/// The sections that scenarios speak of.
const SECTIONS: [u64; 8] = [0, 1, 2, 3, 4, 5, 7, 9];

// The markers that an image holds.
fn markers_in(alloc: Global, image: &Image) -> Result<Metadata<Key8, u64, Sha256Seal>, Error> {
    let place = Config {
        partition: String::from_str(alloc, "m")?,
        codec_config: (),
    };
    let mut dev = Memory::from_image(alloc, image.copy(alloc)?)?;
    Ok(Metadata::init(alloc, &mut dev, &place)?)
}

/// What an image keeps of a pair: the records of each section. `!` is behind a section whose marker
/// is not true, and `?` at the end where a marker is of another section.
pub fn kept_text(alloc: Global, page_size: u16, image: &Image) -> Result<String, Error> {
    let markers = markers_in(alloc, image)?;
    let mut text = String::new(alloc);
    let mut count = 0_usize;
    for section in SECTIONS {
        let name = section.to_be_bytes();
        let mut marker = None;
        if let Some(key) = Key8::from_bytes(name.as_slice()) {
            marker = markers.get(&key).copied();
        }
        if marker.is_some() {
            count = count.saturating_add(1);
        }
        add_section(alloc, image, (page_size, section, marker), &mut text)?;
    }
    if markers.keys().count() != count {
        text.push_str("?")?;
    }
    if text.is_empty() {
        text.push_str("-")?;
    }
    Ok(text)
}

// Adds what the image keeps of a section.
fn add_section(
    alloc: Global,
    image: &Image,
    place: (u16, u64, Option<u64>),
    text: &mut String,
) -> Result<(), Error> {
    let (page_size, section, marker) = place;
    let name = section.to_be_bytes();
    let index = image.blob("i", name.as_slice()).unwrap_or(b"");
    let values = image.blob("v", name.as_slice()).unwrap_or(b"");
    let least = marker.unwrap_or(0);
    if index.is_empty() && marker.is_none() {
        return Ok(());
    }
    let mut is_first = true;
    for found in kept::<Note, Sha256Seal>(alloc, page_size, index, values, least)? {
        let number = hex::encode(alloc, found.stored().get(7..8).unwrap_or(b""))?;
        let value = hex::encode(alloc, found.value())?;
        if is_first {
            write!(text, ";{section}:")?;
        }
        write!(text, "{number}={value},")?;
        is_first = false;
    }
    if marker.is_none() {
        return Ok(());
    }
    let is_there = image.blob("i", name.as_slice()).is_some();
    if !is_there || !has_sound::<Note, Sha256Seal>(alloc, page_size, index, values, least)? {
        write!(text, ";{section}!")?;
    }
    Ok(())
}

/// The values of four bytes that stand in a section from its begin on, each in a sound frame.
pub fn frames_text(alloc: Global, image: &Image, section: u64) -> Result<String, Error> {
    let name = section.to_be_bytes();
    let values = image.blob("v", name.as_slice()).unwrap_or(b"");
    let mut text = String::new(alloc);
    let mut end = 0_u64;
    for frame in values.chunks_exact(8) {
        if !is_sound::<Sha256Seal>(values, (end, 8)) {
            break;
        }
        end = end.saturating_add(8);
        let value = hex::encode(alloc, frame.get(..4).unwrap_or(b""))?;
        write!(text, "{value},")?;
    }
    if text.is_empty() {
        text.push_str("-")?;
    }
    Ok(text)
}

/// Whether two images have the same blobs of the sections, and the same copies of the markers.
pub fn is_same(some: &Image, other: &Image) -> bool {
    for section in SECTIONS {
        let name = section.to_be_bytes();
        for partition in ["i", "v"] {
            if some.blob(partition, name.as_slice()) != other.blob(partition, name.as_slice()) {
                return false;
            }
        }
    }
    some.blob("m", b"left") == other.blob("m", b"left")
        && some.blob("m", b"right") == other.blob("m", b"right")
}
