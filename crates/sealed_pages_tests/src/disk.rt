// Commands over the device.
use crate::said::{Said, Stop};
use crate::words::{bytes, choice, number, page_size};
use blob_device::{Device, Image, Memory};
use scenario_text::Step;
use sealed_pages::plain;
use std::alloc::{AllocError, Global};
use value_codec::Sha256Seal;

/// Looks at the device.
pub fn look(alloc: Global, dev: &Memory, step: &Step) -> Result<Said, Stop> {
    match step.word() {
        "calls" => Ok(Said::Number(dev.calls())),
        "faults" => Ok(Said::Number(dev.faults())),
        "kept" => {
            let (prefix, size) = kept(alloc, &dev.image(alloc)?, page_size(step)?)?;
            Ok(Said::Kept(prefix, size))
        }
        _ => shows(
            alloc,
            &dev.image(alloc)?,
            step.argument(0),
            step.argument(1),
        ),
    }
}

/// What a blob of an image has.
pub fn shows(alloc: Global, image: &Image, partition: &str, name: &str) -> Result<Said, Stop> {
    match image.blob(partition, name.as_bytes()) {
        Some(bytes) => Ok(Said::Bytes(bytes.to_vec(alloc)?)),
        None => Ok(Said::Nothing),
    }
}

/// What the pages of an image keep, by the plain program: their sealed prefix, and the size at
/// which they are adopted.
pub fn kept(alloc: Global, image: &Image, page_size: u16) -> Result<(Vec<u8>, u64), AllocError> {
    let bytes = image.blob("p", b"x").unwrap_or(b"");
    let prefix = plain::sealed_prefix::<Sha256Seal>(alloc, page_size, bytes)?;
    let size = plain::adopted_size::<Sha256Seal>(page_size, bytes);
    Ok((prefix, size))
}

/// Sets when the device fails, or makes another one.
pub fn remake(alloc: Global, dev: &mut Memory, step: &Step) -> Result<Said, Stop> {
    match step.word() {
        "fail" => dev.fail_at(number(step, 0)?)?,
        "fuse" => dev.fuse_at(number(step, 0)?),
        _ => {
            let image = image_for(alloc, dev, step)?;
            *dev = Memory::from_image(alloc, image)?;
        }
    }
    Ok(Said::Done)
}

// The image of which another device is made.
fn image_for(alloc: Global, dev: &Memory, step: &Step) -> Result<Image, Stop> {
    if step.word() == "crash" {
        return Ok(dev.pick_crash(alloc, choice(step)?)?);
    }
    let content = content_for(alloc, dev, step)?;
    let mut image = dev.image(alloc)?;
    image.set_blob(
        step.argument(0),
        step.argument(1).as_bytes(),
        content.as_slice(),
    )?;
    Ok(image)
}

// The bytes that a blob gets: those of the step, or its own with some of them changed.
fn content_for(alloc: Global, dev: &Memory, step: &Step) -> Result<Vec<u8>, Stop> {
    if step.word() == "blob" {
        return bytes(alloc, step, 2);
    }
    let from = number(step, 2)? as usize;
    let to = number(step, 3)? as usize;
    let byte = bytes(alloc, step, 4)?.first().copied().unwrap_or(0);
    let image = dev.image(alloc)?;
    let old = image.blob(step.argument(0), step.argument(1).as_bytes());
    let mut content = old.unwrap_or(b"").to_vec(alloc)?;
    for place in content.iter_mut().skip(from).take(to.saturating_sub(from)) {
        *place = byte;
    }
    Ok(content)
}
