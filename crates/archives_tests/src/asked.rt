// Steps that no archive is needed for.
use crate::records;
use crate::settings::{Settings, set, usual};
use blob_device::{CrashChoice, DevError, Device, Memory};
use scenario_text::Step;
use std::alloc::{AllocError, Global};

/// What is noted between steps.
#[derive(Drop)]
pub struct Notes {
    /// The configuration with which the next archive is opened.
    pub settings: Settings,
    /// How many device calls had been made at the last mark.
    pub calls: u64,
    // how many of them were few
    counted: u64,
    // the blobs that crashes left
    kept: Vec<u8>,
}

impl Notes {
    pub fn new(alloc: Global) -> Result<Notes, AllocError> {
        Ok(Notes {
            settings: usual(alloc)?,
            calls: 0,
            counted: 0,
            kept: Vec::new(alloc),
        })
    }
}

/// What a step says that no archive is needed for; none where it needs one.
pub fn asked(
    alloc: Global,
    dev: &Memory,
    notes: &mut Notes,
    step: &Step,
) -> Result<Option<String>, AllocError> {
    if let Some(said) = noted(alloc, dev, notes, step)? {
        return Ok(Some(String::from_str(alloc, said)?));
    }
    let made = dev.calls().saturating_sub(notes.calls);
    match step.word() {
        "calls" => Ok(Some(format!(in alloc; "{made}")?)),
        "more_calls" => {
            let more = made.saturating_sub(notes.counted);
            Ok(Some(format!(in alloc; "{more}")?))
        }
        "length" => Ok(Some(length(alloc, dev, step)?)),
        _ => records::told(alloc, step),
    }
}

// What a step says that is about the notes.
fn noted(
    alloc: Global,
    dev: &Memory,
    notes: &mut Notes,
    step: &Step,
) -> Result<Option<&'static str>, AllocError> {
    let holds = match step.word() {
        "set" if set(&mut notes.settings, alloc, step)? => return Ok(Some("ok")),
        "mark" => {
            notes.calls = dev.calls();
            return Ok(Some("ok"));
        }
        "keep" => {
            notes.kept = crashes(alloc, dev)?;
            return Ok(Some("ok"));
        }
        "same" => crashes(alloc, dev)? == notes.kept,
        "valid" => notes.settings.is_valid(),
        "few_calls" => {
            notes.counted = dev.calls().saturating_sub(notes.calls);
            notes.counted <= step.number(0).unwrap_or(0)
        }
        _ => return Ok(None),
    };
    Ok(Some(if holds { "yes" } else { "no" }))
}

// How many bytes the blob of a section has.
fn length(alloc: Global, dev: &Memory, step: &Step) -> Result<String, AllocError> {
    let image = dev.image(alloc).map_err(|_| AllocError)?;
    let name = step.number(1).unwrap_or(0).to_be_bytes();
    match image.blob(step.argument(0), &name) {
        Some(bytes) => format!(in alloc; "{}", bytes.len()),
        None => String::from_str(alloc, "none"),
    }
}

// What the fourteen crashes may now leave: each blob with its name, and how many bytes these have.
fn crashes(alloc: Global, dev: &Memory) -> Result<Vec<u8>, AllocError> {
    let mut all = Vec::new(alloc);
    for choice in CrashChoice::SAMPLES {
        let left = dev
            .pick_crash(alloc, choice)
            .and_then(|image| Memory::from_image(alloc, image));
        let mut left = left.map_err(|_| AllocError)?;
        for partition in ["meta", "keys", "values"] {
            add_blobs(alloc, &mut left, partition, &mut all).map_err(|_| AllocError)?;
        }
    }
    Ok(all)
}

// Adds the blobs of a partition, each with its name, and how many bytes these have.
fn add_blobs(
    alloc: Global,
    dev: &mut Memory,
    partition: &str,
    all: &mut Vec<u8>,
) -> Result<(), DevError> {
    let names = dev.scan(alloc, partition)?;
    let image = dev.image(alloc)?;
    for at in 0..names.len() {
        let name = names.get(at).unwrap_or(&[]);
        let bytes = image.blob(partition, name).unwrap_or(&[]);
        for part in [name, bytes] {
            all.extend_from_slice(&(part.len() as u64).to_be_bytes())?;
            all.extend_from_slice(part)?;
        }
    }
    Ok(())
}
