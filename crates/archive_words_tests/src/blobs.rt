// Blobs, and what is noted of their losses.
use crate::said::Said;
use archive_words::Notebook;
use blob_device::{DevError, Device};
use scenario_text::Step;
use std::alloc::Global;

/// Changes the blob that the step names.
pub fn changed<D: Device>(alloc: Global, device: &mut D, step: &Step) -> Result<Said, DevError> {
    let Some(name) = step.bytes(alloc, 1)? else {
        return Ok(Said::Refused("this is no name"));
    };
    let partition = step.argument(0);
    match (step.word(), step.number(2)) {
        ("open", _) => {
            device.open_blob(partition, &name)?;
        }
        ("write", Some(offset)) => return write(alloc, device, &name, step, offset),
        ("resize", Some(len)) => resize(device, partition, &name, len)?,
        ("remove", _) => device.remove(partition, &name)?,
        _ => return Ok(Said::Refused("no such command")),
    }
    Ok(Said::Done)
}

/// Opens a blob, writes bytes into it, and gives it a length where the step names one.
fn write<D: Device>(
    alloc: Global,
    device: &mut D,
    name: &[u8],
    step: &Step,
    offset: u64,
) -> Result<Said, DevError> {
    let Some(bytes) = step.bytes(alloc, 3)? else {
        return Ok(Said::Refused("these are no bytes"));
    };
    let Some(_) = offset.checked_add(bytes.len() as u64) else {
        return Ok(Said::Refused("too far"));
    };
    let partition = step.argument(0);
    device.open_blob(partition, name)?;
    device.write_at(partition, name, offset, &bytes)?;
    if let Some(len) = step.number(4) {
        device.resize(partition, name, len)?;
    }
    Ok(Said::Done)
}

/// Opens a blob, and gives it a length.
fn resize<D: Device>(
    device: &mut D,
    partition: &str,
    name: &[u8],
    len: u64,
) -> Result<(), DevError> {
    device.open_blob(partition, name)?;
    device.resize(partition, name, len)
}

/// The notes, each behind the number of its call.
pub fn notes(alloc: Global, notebook: &Notebook) -> Result<Said, DevError> {
    let mut text = String::new(alloc);
    for note in notebook.notes() {
        let separator = if text.is_empty() { "" } else { "; " };
        write!(&mut text, "{separator}{}: {note}", note.call)?;
    }
    if text.is_empty() {
        return Ok(Said::Word("none"));
    }
    Ok(Said::Text(text))
}
