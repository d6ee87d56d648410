// What a scenario keeps beside its device, and commands over the device.
use crate::plainly::{frames_text, is_same, kept_text};
use crate::said::Said;
use crate::words::{name_of, number};
use blob_device::{CrashChoice, Device, Image, Memory};
use scenario_text::Step;
use segments::journal::Error;
use std::alloc::Global;

/// What is remembered from step to step.
#[derive(Drop)]
pub struct Bench {
    /// For images and texts.
    pub alloc: Global,
    /// The image that a step remembered.
    pub image: Image,
    /// How many calls the device had when they were last asked for.
    pub base: u64,
    /// How many calls were noted by `note-calls`.
    pub noted: u64,
    /// What crashes left in a whole run.
    pub left: Vec<Image>,
    /// The run is made again on that.
    pub is_again: bool,
}

/// How often the device was called since that was last asked for.
pub fn count(bench: &mut Bench, dev: &Memory, step: &Step) -> Said {
    let calls = dev.calls().saturating_sub(bench.base);
    bench.base = dev.calls();
    let n = number(step, 0);
    match step.word() {
        "note-calls" => {
            bench.noted = calls;
            Said::Done
        }
        "count-calls" => Said::Done,
        "calls-at-most" if calls <= n => Said::Done,
        "calls-as-noted"
            if calls.saturating_add(number(step, 1)) == bench.noted.saturating_add(n) => Said::Done,
        _ => Said::Number(calls),
    }
}

/// Looks at the device.
pub fn look(bench: &mut Bench, dev: &Memory, step: &Step) -> Result<Said, Error> {
    let alloc = bench.alloc;
    match step.word() {
        "faults" => Ok(Said::Number(dev.faults())),
        "remember" => {
            bench.image = dev.image(alloc)?;
            Ok(Said::Done)
        }
        "same" => Ok(Said::Truth(is_same(&bench.image, &dev.image(alloc)?))),
        "settled-shows" | "settled-there" | "settled-kept" => {
            shows(alloc, &dev.pick_crash(alloc, CrashChoice::Settled)?, step)
        }
        _ => shows(alloc, &dev.image(alloc)?, step),
    }
}

/// What an image has.
pub fn shows(alloc: Global, image: &Image, step: &Step) -> Result<Said, Error> {
    match step.word() {
        "kept" | "settled-kept" | "leaves" => {
            let page_size = u16::try_from(number(step, 0)).unwrap_or(1).max(1);
            Ok(Said::Text(kept_text(alloc, page_size, image)?))
        }
        "frames" | "leaves-frames" => {
            Ok(Said::Text(frames_text(alloc, image, number(step, 0))?))
        }
        word => {
            let name = name_of(alloc, step.argument(1))?;
            let blob = image.blob(step.argument(0), name.as_slice());
            if word == "there" || word == "settled-there" {
                return Ok(Said::Truth(blob.is_some()));
            }
            match blob {
                None => Ok(Said::Nothing),
                Some(bytes) if word == "length" => Ok(Said::Number(bytes.len() as u64)),
                Some(bytes) => Ok(Said::Bytes(bytes.to_vec(alloc)?)),
            }
        }
    }
}

/// Makes another device, over an image that is changed or that a crash leaves. Or nothing is made,
/// or the names in a partition are counted.
pub fn remake(bench: &mut Bench, dev: &mut Memory, step: &Step) -> Result<Said, Error> {
    let alloc = bench.alloc;
    let image = match step.word() {
        "close" => return Ok(Said::Done),
        "names" => {
            let names = dev.scan(alloc, step.argument(0))?;
            return Ok(Said::Number(names.len() as u64));
        }
        "image" => Image::new(alloc),
        "crash" => match step.argument(0) {
            "settled" => dev.pick_crash(alloc, CrashChoice::Settled)?,
            "as-read" => dev.pick_crash(alloc, CrashChoice::AsRead)?,
            _ => dev.pick_crash(alloc, CrashChoice::Mixed(number(step, 1)))?,
        },
        _ => edited(alloc, dev, step)?,
    };
    *dev = Memory::from_image(alloc, image)?;
    bench.base = 0;
    Ok(Said::Done)
}

// The device's image with a blob changed.
fn edited(alloc: Global, dev: &Memory, step: &Step) -> Result<Image, Error> {
    let name = name_of(alloc, step.argument(1))?;
    let content = content_for(alloc, dev, name.as_slice(), step)?;
    let mut image = dev.image(alloc)?;
    if step.word() == "no-blob" {
        image.drop_blob(step.argument(0), name.as_slice());
    } else {
        image.set_blob(step.argument(0), name.as_slice(), content.as_slice())?;
    }
    Ok(image)
}

// The bytes that a blob gets: those of the step, or its own with some of them changed.
fn content_for(alloc: Global, dev: &Memory, name: &[u8], step: &Step) -> Result<Vec<u8>, Error> {
    let (from, to) = (number(step, 2) as usize, number(step, 3) as usize);
    if step.word() != "damage" && step.word() != "resize" {
        return match step.bytes(alloc, 2)? {
            Some(bytes) => Ok(bytes),
            None => Ok(Vec::new(alloc)),
        };
    }
    let mut byte = 0_u8;
    if let Some(bytes) = step.bytes(alloc, 4)? {
        byte = bytes.first().copied().unwrap_or(0);
    }
    let image = dev.image(alloc)?;
    let old = image.blob(step.argument(0), name).unwrap_or(b"");
    let is_damage = step.word() == "damage";
    let len = if is_damage { old.len() } else { from };
    let mut content = vec![in alloc; 0; len]?;
    for (at, place) in content.iter_mut().enumerate() {
        if is_damage && from <= at && at < to {
            *place = byte;
        } else if let Some(same) = old.get(at) {
            *place = *same;
        }
    }
    Ok(content)
}
