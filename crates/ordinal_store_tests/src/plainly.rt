// What an image holds, read plainly: values of eight bytes, so each slot has twelve.
use crate::asked::Marks;
use crate::images::{copy_of, device_over};
use crate::said::{add_hex, tell_at};
use blob_device::{Device, Image, Memory, Names};
use ordinal_store::BitMap;
use ordinal_store::plain_section::is_wanted;
use std::alloc::{AllocError, Global};
use std::collections::BTreeMap;
use value_codec::{Seal, Sha256Seal};

/// The partition of the sections.
pub const PARTITION: &str = "o";

/// The twelve bytes of a slot, as two numbers: the value, and the seal of its bytes.
pub type Slot = (u64, u32);

/// Slots by index.
pub type Slots = BTreeMap<u64, Slot>;

/// The slot of a value.
pub fn slot_of(value: u64) -> Slot {
    let bytes = value.to_be_bytes();
    (value, Sha256Seal::seal(bytes.as_slice()))
}

/// The value in a slot, if its seal is that of its bytes.
pub fn value_in(slot: Slot) -> Option<u64> {
    let (value, seal) = slot;
    if slot_of(value).1 == seal {
        Some(value)
    } else {
        None
    }
}

// The slot at a position, if it stands whole in the blob.
fn slot_at(blob: &[u8], position: u64) -> Option<Slot> {
    let at = position.checked_mul(12)?;
    let bytes = blob.get(at as usize..)?;
    let value = u64::from_be_bytes(*bytes.first_chunk::<8>()?);
    let seal = u32::from_be_bytes(*bytes.get(8..)?.first_chunk::<4>()?);
    Some((value, seal))
}

// The number that a name spells, if it is a section's.
fn section_in(name: &[u8]) -> Option<u64> {
    match <[u8; 8]>::try_from(name) {
        Ok(bytes) => Some(u64::from_be_bytes(bytes)),
        Err(_) => None,
    }
}

// The index at a position of a section, if it is a number of eight bytes.
fn index_at(items: u64, section: u64, position: u64) -> Option<u64> {
    section.checked_mul(items)?.checked_add(position)
}

// The names in the partition.
fn names_in(alloc: Global, image: &Image) -> Result<Names, AllocError> {
    let image = copy_of(alloc, image)?;
    let mut dev = device_over(alloc, image)?;
    names_on(alloc, &mut dev)
}

// The names in the partition, by a call of the device.
fn names_on(alloc: Global, dev: &mut Memory) -> Result<Names, AllocError> {
    match dev.scan(alloc, PARTITION) {
        Ok(names) => Ok(names),
        Err(_) => Err(AllocError),
    }
}

// The bytes of a blob. One that is not there has none.
fn bytes_in<'a>(image: &'a Image, name: &[u8]) -> &'a [u8] {
    image.blob(PARTITION, name).unwrap_or(b"")
}

/// The slots that stand whole in the image, at so many a section.
pub fn slots_in(alloc: Global, image: &Image, items: u64) -> Result<Slots, AllocError> {
    let names = names_in(alloc, image)?;
    slots_under(alloc, image, items, &names)
}

// The slots that stand whole in the blobs of these names.
fn slots_under(
    alloc: Global,
    image: &Image,
    items: u64,
    names: &Names,
) -> Result<Slots, AllocError> {
    let mut slots = BTreeMap::new(alloc);
    for i in 0..names.len() {
        let name = names.get(i).unwrap_or(b"");
        add_slots(&mut slots, name, bytes_in(image, name), items)?;
    }
    Ok(slots)
}

// Adds the whole slots of a blob, if it is a section's.
fn add_slots(slots: &mut Slots, name: &[u8], blob: &[u8], items: u64) -> Result<(), AllocError> {
    let Some(section) = section_in(name) else {
        return Ok(());
    };
    for position in 0..items {
        match (index_at(items, section, position), slot_at(blob, position)) {
            (Some(index), Some(slot)) => slots.insert(index, slot)?,
            _ => return Ok(()),
        };
    }
    Ok(())
}

/// Tells how an opening of the image that keeps these has to be refused, if it has to be.
pub fn tell_refusal(
    alloc: Global,
    image: &Image,
    items: u64,
    marks: &Marks,
    text: &mut String,
) -> Result<(), AllocError> {
    tell_names(alloc, image, text)?;
    tell_past(items, marks, text)?;
    tell_faults(image, items, marks, text)
}

// Tells the refusal of the first section that is not as it has to be.
fn tell_faults(
    image: &Image,
    items: u64,
    marks: &Marks,
    text: &mut String,
) -> Result<(), AllocError> {
    for (section, bits) in marks.iter() {
        if text.is_empty() {
            tell_section(image, items, *section, bits, text)?;
        }
    }
    Ok(())
}

// Tells the refusal of a section that is not as it has to be.
fn tell_section(
    image: &Image,
    items: u64,
    section: u64,
    bits: &Option<BitMap>,
    text: &mut String,
) -> Result<(), AllocError> {
    let name = section.to_be_bytes();
    let blob = image.blob(PARTITION, name.as_slice());
    tell_fault(text, blob, items, section, bits)
}

// Tells the first name that is no section's.
fn tell_names(alloc: Global, image: &Image, text: &mut String) -> Result<(), AllocError> {
    let names = names_in(alloc, image)?;
    tell_foreign(&names, text)
}

// Tells the first of these names that is no section's.
fn tell_foreign(names: &Names, text: &mut String) -> Result<(), AllocError> {
    for i in 0..names.len() {
        let name = names.get(i).unwrap_or(b"");
        if name.len() != 8 {
            text.push_str("error invalid-blob-name ")?;
            return add_hex(text, name);
        }
    }
    Ok(())
}

// Tells whether a wanted index is no number of eight bytes.
fn tell_past(items: u64, marks: &Marks, text: &mut String) -> Result<(), AllocError> {
    for (section, bits) in marks.iter() {
        if text.is_empty() && has_past(items, *section, bits) {
            text.push_str("error full")?;
        }
    }
    Ok(())
}

// How many positions may be wanted at most.
fn end_of(items: u64, bits: &Option<BitMap>) -> u64 {
    match bits {
        None => items,
        Some(bits) => bits.len(),
    }
}

// Whether a wanted index of the section is no number of eight bytes.
fn has_past(items: u64, section: u64, bits: &Option<BitMap>) -> bool {
    for position in 0..end_of(items, bits) {
        if is_wanted(items, bits, position) && index_at(items, section, position).is_none() {
            return true;
        }
    }
    false
}

// The first wanted position whose slot is not as it has to be.
fn first_fault(blob: &[u8], items: u64, bits: &Option<BitMap>) -> Option<u64> {
    for position in 0..end_of(items, bits) {
        if is_wanted(items, bits, position) && !is_sound(blob, items, bits, position) {
            return Some(position);
        }
    }
    None
}

// Whether a slot is as it has to be where it is wanted.
fn is_sound(blob: &[u8], items: u64, bits: &Option<BitMap>, position: u64) -> bool {
    match (slot_at(blob, position), bits) {
        (None, _) => false,
        (Some(slot), None) => value_in(slot).is_some(),
        (Some(_), Some(_)) => position < items,
    }
}

// Tells the refusal of a section, of which all wanted indices are numbers.
fn tell_fault(
    text: &mut String,
    blob: Option<&[u8]>,
    items: u64,
    section: u64,
    bits: &Option<BitMap>,
) -> Result<(), AllocError> {
    let first = section.saturating_mul(items);
    let bytes = blob.unwrap_or(b"");
    if bits.is_none() && slot_at(bytes, items).is_some() {
        return tell_at(text, "invalid-record", first.saturating_add(items));
    }
    match (first_fault(bytes, items, bits), blob) {
        (None, _) => Ok(()),
        (Some(_), None) => tell_at(text, "missing-record", first),
        (Some(position), Some(_)) => tell_at(
            text,
            "missing-record",
            first.saturating_add(position),
        ),
    }
}

/// Adds the sections of an image, each with the values in its slots: `SECTION:INDEX=VALUE,..;..`.
pub fn tell_image(
    alloc: Global,
    image: &Image,
    items: u64,
    text: &mut String,
) -> Result<(), AllocError> {
    let names = names_in(alloc, image)?;
    tell_blobs(image, items, &names, text)
}

// Adds the values in the blobs of these names.
fn tell_blobs(
    image: &Image,
    items: u64,
    names: &Names,
    text: &mut String,
) -> Result<(), AllocError> {
    for i in 0..names.len() {
        let name = names.get(i).unwrap_or(b"");
        tell_blob(text, name, bytes_in(image, name), items)?;
    }
    if text.is_empty() {
        return text.push('-');
    }
    Ok(())
}

// Adds the values in a blob, if it is a section's.
fn tell_blob(text: &mut String, name: &[u8], blob: &[u8], items: u64) -> Result<(), AllocError> {
    if !text.is_empty() {
        text.push(';')?;
    }
    match section_in(name) {
        None => text.push_str("other"),
        Some(section) => tell_values(text, section, blob, items),
    }
}

// Adds a section, and the values in its slots.
fn tell_values(text: &mut String, section: u64, blob: &[u8], items: u64) -> Result<(), AllocError> {
    write!(text, "{section}:")?;
    let first = section.saturating_mul(items);
    for position in 0..blob.len() as u64 / 12 {
        if let Some(value) = value_at(blob, position) {
            tell_value(text, first.saturating_add(position), value)?;
        }
    }
    Ok(())
}

// The value in the slot at a position, if there is one.
fn value_at(blob: &[u8], position: u64) -> Option<u64> {
    value_in(slot_at(blob, position)?)
}

// Adds a value behind those that stand before it.
fn tell_value(text: &mut String, index: u64, value: u64) -> Result<(), AllocError> {
    if !text.as_str().ends_with(':') {
        text.push(',')?;
    }
    write!(text, "{index}={value}")
}
