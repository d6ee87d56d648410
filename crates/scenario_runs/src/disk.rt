// Commands over the device.
use crate::said::{Part, Said, spelled};
use crate::words::{Told, number};
use blob_device::{CrashChoice, DevError, Device, Memory};
use scenario_text::Step;
use segments::journal::Error;
use std::alloc::Global;

/// Looks at the device: its counts, or the lengths or the bytes of sections of a partition.
pub fn look(alloc: Global, dev: &Memory, step: &Step, told: &Told) -> Result<Said, Error> {
    match step.word() {
        "calls" => return Ok(Said::Number(dev.calls())),
        "faults" => return Ok(Said::Number(dev.faults())),
        _ => {}
    }
    let image = dev.image(alloc)?;
    let mut row = Vec::new(alloc);
    for section in &told.numbers {
        let part = match image.blob(step.argument(0), section.to_be_bytes().as_slice()) {
            None => Part::Text("none"),
            Some(bytes) if step.word() == "length" => Part::Number(bytes.len() as u64),
            Some(bytes) => Part::Bytes(spelled(alloc, bytes)?),
        };
        row.push(part)?;
    }
    Ok(Said::Row(row))
}

/// Sets when the device fails, or makes another one in its place.
pub fn remake(alloc: Global, dev: &mut Memory, step: &Step) -> Result<Said, Error> {
    match step.word() {
        "fail" => dev.fail_at(number(step, 0))?,
        "fuse" => dev.fuse_at(number(step, 0)),
        _ => *dev = changed(alloc, dev, step)?,
    }
    Ok(Said::Done)
}

/// The device that a crash leaves.
pub fn crashed(alloc: Global, dev: &Memory, choice: CrashChoice) -> Result<Memory, DevError> {
    Memory::from_image(alloc, dev.pick_crash(alloc, choice)?)
}

/// The device behind a crash, or with another blob of a section or of a name.
pub fn changed(alloc: Global, dev: &Memory, step: &Step) -> Result<Memory, Error> {
    if step.word() == "crash" {
        let choice = match step.argument(0) {
            "settled" => CrashChoice::Settled,
            "as-read" => CrashChoice::AsRead,
            _ => CrashChoice::Mixed(number(step, 1)),
        };
        return Ok(crashed(alloc, dev, choice)?);
    }
    let name = match step.number(1) {
        Some(section) => section.to_be_bytes().as_slice().to_vec(alloc)?,
        None => step.argument(1).as_bytes().to_vec(alloc)?,
    };
    let content = content(alloc, dev, step, name.as_slice())?;
    let mut image = dev.image(alloc)?;
    match content {
        Some(bytes) => image.set_blob(step.argument(0), name.as_slice(), bytes.as_slice())?,
        None => image.drop_blob(step.argument(0), name.as_slice()),
    }
    Ok(Memory::from_image(alloc, image)?)
}

// The bytes that the blob gets: those of the step, or its own with a range set to one byte.
fn content(
    alloc: Global,
    dev: &Memory,
    step: &Step,
    name: &[u8],
) -> Result<Option<Vec<u8>>, Error> {
    match step.word() {
        "drop" => return Ok(None),
        "blob" => return Ok(step.bytes(alloc, 2)?),
        _ => {}
    }
    let from = number(step, 2);
    let count = number(step, 3).saturating_sub(from);
    let byte = u8::try_from(number(step, 4)).unwrap_or(255);
    let image = dev.image(alloc)?;
    let old = image.blob(step.argument(0), name).unwrap_or(&[]);
    let mut bytes = old.to_vec(alloc)?;
    for place in bytes.iter_mut().skip(from as usize).take(count as usize) {
        *place = byte;
    }
    Ok(Some(bytes))
}
