// What an image keeps, by the plain program.
use crate::image::device;
use crate::stop::Stop;
use archive_service::{index_of, plain};
use archives::Error;
use archives::prunable::IndexRecord;
use blob_device::{Device, Image};
use meta_store::Metadata;
use paired::plain::{Found, kept};
use std::alloc::Global;
use value_codec::{Codec, Key, Key8, Sha256Seal};

/// What an image keeps of a section: its marker, and its records as a script spells them.
#[derive(Drop)]
pub struct Kept {
    /// The first index that it has room for.
    pub section: u64,
    /// How many of its records a marker counts; none where it has no marker.
    pub marker: Option<u64>,
    /// In their order: each as the words of a put, without its command.
    pub records: Vec<String>,
}

/// The markers of an image.
type Markers = Metadata<Key8, u64, Sha256Seal>;

/// What the image keeps of each section of which it has a blob or a marker.
pub fn kept_in(alloc: Global, page_size: u16, image: &Image) -> Result<Vec<Kept>, Stop> {
    let markers = markers_in(alloc, image)?;
    let mut all = Vec::new(alloc);
    for section in sections_in(alloc, image, &markers)?.iter() {
        let marker = marker_of(&markers, *section);
        let mut records = Vec::new(alloc);
        for found in found_in(alloc, page_size, image, *section, marker.unwrap_or(0))?.iter() {
            records.push(record_text(alloc, found)?)?;
        }
        all.push(Kept {
            section: *section,
            marker,
            records,
        })?;
    }
    Ok(all)
}

// The markers that the image holds. Their floor must be 0, as none is stored yet.
fn markers_in(alloc: Global, image: &Image) -> Result<Markers, Stop> {
    let mut dev = device(alloc, image)?;
    let cfg = meta_store::Config {
        partition: String::from_str(alloc, "meta")?,
        codec_config: (),
    };
    match Metadata::init(alloc, &mut dev, &cfg) {
        Ok(markers) => {
            if markers.floor() != 0 {
                return Err(Stop::Said("a copy of the markers names a floor"));
            }
            Ok(markers)
        }
        Err(error) => Err(Stop::from(Error::from(error))),
    }
}

// The section's marker among these.
fn marker_of(markers: &Markers, section: u64) -> Option<u64> {
    let name = section.to_be_bytes();
    match Key8::from_bytes(name.as_slice()) {
        Some(key) => markers.get(&key).copied(),
        None => None,
    }
}

// The sections that have a blob or a marker.
fn sections_in(alloc: Global, image: &Image, markers: &Markers) -> Result<Vec<u64>, Stop> {
    let mut dev = device(alloc, image)?;
    let mut sections = Vec::new(alloc);
    for partition in ["keys", "values"] {
        let names = dev.scan(alloc, partition)?;
        for i in 0..names.len() {
            add_section(&mut sections, names.get(i).unwrap_or(&[]))?;
        }
    }
    for key in markers.keys() {
        add_section(&mut sections, key.as_bytes())?;
    }
    Ok(sections)
}

// Adds the section that a name is of, unless it is there.
fn add_section(sections: &mut Vec<u64>, name: &[u8]) -> Result<(), Stop> {
    let Ok(bytes) = <[u8; 8]>::try_from(name) else {
        return Err(Stop::Said("a name is that of no section"));
    };
    let section = u64::from_be_bytes(bytes);
    if !sections.contains(&section) {
        sections.push(section)?;
    }
    Ok(())
}

/// The bytes of a section's blob, none where it is not there.
pub fn blob_of<'a>(image: &'a Image, partition: &str, section: u64) -> &'a [u8] {
    let name = section.to_be_bytes();
    image.blob(partition, name.as_slice()).unwrap_or(&[])
}

/// The records of the section up to the first one at or above this marker whose value is not sound.
pub fn found_in(
    alloc: Global,
    page_size: u16,
    image: &Image,
    section: u64,
    marker: u64,
) -> Result<Vec<Found>, Error> {
    let found = kept::<IndexRecord<Key8>, Sha256Seal>(
        alloc,
        page_size,
        blob_of(image, "keys", section),
        blob_of(image, "values", section),
        marker,
    )?;
    Ok(found)
}

/// The record that these bytes are.
pub fn record_of(alloc: Global, found: &Found) -> Result<IndexRecord<Key8>, Stop> {
    match IndexRecord::<Key8>::decode_cfg(alloc, found.stored(), ()) {
        Ok(record) => Ok(record),
        Err(_) => Err(Stop::Said("bytes are no record")),
    }
}

// A record as a script spells it: INDEX KEY VALUE.
fn record_text(alloc: Global, found: &Found) -> Result<String, Stop> {
    let record = record_of(alloc, found)?;
    let index = record.index();
    let key = hex::encode(alloc, record.key().as_bytes())?;
    let value = plain::value_word(alloc, found.value())?;
    Ok(format!(in alloc; "{index} {key} {value}")?)
}

/// The index of a record.
pub fn index_in(record: &str) -> Option<u64> {
    index_of(word_in(record, 0).as_bytes())
}

/// A word of a record: its index, its key or its value.
pub fn word_in(record: &str, at: usize) -> &str {
    record.split_whitespace().nth(at).unwrap_or("")
}

/// What is kept of the section.
pub fn records_of(kept: &[Kept], section: u64) -> &[String] {
    for one in kept {
        if one.section == section {
            return one.records.as_slice();
        }
    }
    &[]
}
