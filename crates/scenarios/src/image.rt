// Images: what a device reads as, what a crash leaves, and changes of these.
use crate::given::number;
use crate::stage::Stage;
use crate::stop::{Stop, ok};
use blob_device::{CrashChoice, Image, Memory};
use scenario_text::Step;
use std::alloc::Global;

/// A device over a copy of the image.
pub fn device(alloc: Global, image: &Image) -> Result<Memory, Stop> {
    Ok(Memory::from_image(alloc, image.copy(alloc)?)?)
}

/// The name of a blob: of the section of a number, or the text itself.
pub fn name_of(alloc: Global, word: &str) -> Result<Vec<u8>, Stop> {
    match word.parse::<u64>() {
        Ok(section) => Ok(section.to_be_bytes().to_vec(alloc)?),
        Err(_) => Ok(word.as_bytes().to_vec(alloc)?),
    }
}

// The bytes at this place behind the first word of a step.
fn bytes_of(alloc: Global, step: &Step, at: usize) -> Result<Vec<u8>, Stop> {
    match step.bytes(alloc, at)? {
        Some(bytes) => Ok(bytes),
        None => Err(Stop::Said("bytes are missing")),
    }
}

// The crash that a step names.
fn choice_of(step: &Step) -> Result<CrashChoice, Stop> {
    match step.argument(0) {
        "settled" => Ok(CrashChoice::Settled),
        "as-read" => Ok(CrashChoice::AsRead),
        "mixed" => Ok(CrashChoice::Mixed(number(step, 1)?)),
        _ => Err(Stop::Said("no such crash")),
    }
}

/// Goes on over another image.
pub fn change(stage: &mut Stage, step: &Step) -> Result<String, Stop> {
    let alloc = stage.alloc;
    let mut image = stage.dev.image(alloc)?;
    let name = name_of(alloc, step.argument(1))?;
    match step.word() {
        "empty" => image = Image::new(alloc),
        "crash" => image = stage.dev.pick_crash(alloc, choice_of(step)?)?,
        "drop" => image.drop_blob(step.argument(0), &name),
        "blob" => {
            let bytes = bytes_of(alloc, step, 2)?;
            image.set_blob(step.argument(0), &name, &bytes)?;
        }
        _ => damage(alloc, &mut image, step, &name)?,
    }
    stage.dev = Memory::from_image(alloc, image)?;
    stage.fuse = None;
    ok(alloc)
}

// Gives bytes of a blob another value.
fn damage(alloc: Global, image: &mut Image, step: &Step, name: &[u8]) -> Result<(), Stop> {
    let partition = step.argument(0);
    let (from, to) = (number(step, 2)?, number(step, 3)?);
    let wanted = bytes_of(alloc, step, 4)?;
    let Some(wanted) = wanted.first() else {
        return Err(Stop::Said("a byte is missing"));
    };
    let mut bytes = image.blob(partition, name).unwrap_or(&[]).to_vec(alloc)?;
    for (i, byte) in bytes.iter_mut().enumerate() {
        if from <= i as u64 && (i as u64) < to {
            *byte = *wanted;
        }
    }
    image.set_blob(partition, name, &bytes)?;
    Ok(())
}
