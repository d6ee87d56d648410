// What stands after a run.
use crate::given::number;
use crate::image::name_of;
use crate::judge::unlawful;
use crate::kept::{Kept, kept_in, records_of};
use crate::stage::Stage;
use crate::stop::Stop;
use crate::trial::items_of;
use archive_service::write_error;
use blob_device::{Device, Image};
use scenario_text::Step;
use std::alloc::Global;

/// Says what a step asks of the last run or of the device.
pub fn look(stage: &Stage, step: &Step) -> Result<String, Stop> {
    let alloc = stage.alloc;
    let marks = stage.last.ended.marks.as_slice();
    let count = match step.word() {
        "begun" => marks.len() as u64,
        "calls" => stage.dev.calls(),
        "faults" => stage.dev.faults(),
        "cost" => cost(marks, stage.calls, number(step, 0)?),
        "error" => return error_text(stage),
        "shows" => return shown(stage, step),
        _ => return changed(stage),
    };
    Ok(format!(in alloc; "{count}")?)
}

// How many calls the command of this number made, where the first is 1.
fn cost(marks: &[u64], calls: u64, nth: u64) -> u64 {
    let from = marks.get((nth as usize).saturating_sub(1)).copied();
    let to = marks.get(nth as usize).copied();
    to.unwrap_or(calls).saturating_sub(from.unwrap_or(0))
}

// The text of the error that the last run handed out.
fn error_text(stage: &Stage) -> Result<String, Stop> {
    let Some(error) = &stage.last.ended.error else {
        return Ok(String::from_str(stage.alloc, "none")?);
    };
    let mut text = Vec::new(stage.alloc);
    match write_error(error, &mut text) {
        Ok(()) => text_of(stage.alloc, &text),
        Err(_) => Err(Stop::Mem),
    }
}

/// The text that these bytes are.
pub fn text_of(alloc: Global, bytes: &[u8]) -> Result<String, Stop> {
    match std::str::from_utf8(bytes) {
        Ok(text) => Ok(String::from_str(alloc, text)?),
        Err(_) => Err(Stop::Said("the bytes are no text")),
    }
}

// A blob's bytes, or the first ones.
fn shown(stage: &Stage, step: &Step) -> Result<String, Stop> {
    let alloc = stage.alloc;
    let image = stage.dev.image(alloc)?;
    let name = name_of(alloc, step.argument(1))?;
    let Some(bytes) = image.blob(step.argument(0), &name) else {
        return Ok(String::from_str(alloc, "none")?);
    };
    let count = step.number(2).unwrap_or(u64::MAX) as usize;
    let bytes = bytes.get(..count).unwrap_or(bytes);
    if bytes.is_empty() {
        return Ok(String::from_str(alloc, "-")?);
    }
    Ok(hex::encode(alloc, bytes)?)
}

// Whether the last run changed a blob.
fn changed(stage: &Stage) -> Result<String, Stop> {
    let alloc = stage.alloc;
    let now = stage.dev.image(alloc)?;
    let is_same = has_all(alloc, &stage.before, &now)? && has_all(alloc, &now, &stage.before)?;
    let said = if is_same { "no" } else { "yes" };
    Ok(String::from_str(alloc, said)?)
}

// Whether the blobs of an image are in the other one.
fn has_all(alloc: Global, some: &Image, other: &Image) -> Result<bool, Stop> {
    let mut dev = crate::image::device(alloc, some)?;
    for partition in ["meta", "keys", "values"] {
        let names = dev.scan(alloc, partition)?;
        for i in 0..names.len() {
            let name = names.get(i).unwrap_or(&[]);
            if some.blob(partition, name) != other.blob(partition, name) {
                return Ok(false);
            }
        }
    }
    Ok(true)
}

/// Says what the plain program says of the device's image.
pub fn judged(stage: &Stage, step: &Step) -> Result<String, Stop> {
    let alloc = stage.alloc;
    let page_size = stage.settings.page_size;
    let image = stage.dev.image(alloc)?;
    let kept = kept_in(alloc, page_size, &image)?;
    match step.word() {
        "kept" => kept_text(alloc, records_of(&kept, number(step, 0)?)),
        "marker" => marker_text(alloc, &kept, number(step, 0)?),
        _ => {
            let items = items_of(stage.words.as_slice());
            let why = unlawful(alloc, page_size, items, &image, &kept)?;
            Ok(String::from_str(alloc, if why.is_empty() { "ok" } else { why })?)
        }
    }
}

// The records that are kept.
fn kept_text(alloc: Global, records: &[String]) -> Result<String, Stop> {
    let mut text = String::new(alloc);
    for record in records {
        if !text.is_empty() {
            text.push_str(" / ")?;
        }
        text.push_str(record.as_str())?;
    }
    if text.is_empty() {
        text.push_str("nothing")?;
    }
    Ok(text)
}

// The marker of a section.
fn marker_text(alloc: Global, kept: &[Kept], section: u64) -> Result<String, Stop> {
    for one in kept {
        if let (true, Some(marker)) = (one.section == section, one.marker) {
            return Ok(format!(in alloc; "{marker}")?);
        }
    }
    Ok(String::from_str(alloc, "none")?)
}
