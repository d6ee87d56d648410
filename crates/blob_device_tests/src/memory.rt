// Scenarios over a device in memory.
ghost use Rattle.std.specs.Prelude.{◌≡◌, IfOk, IfSome};
ghost use Rattle.blob_device.specs.MemoryMeaning.{memory_opened};
ghost use Rattle.blob_device_tests.specs.Holding.{IsHeld};

use crate::disk::{Held, carried_out, hex_of, partition};
use blob_device::{CrashChoice, DevError, Image, Memory};
use scenario_text::{Report, Step};
use std::alloc::Global;

/// Carries out the steps of a scenario.
pub fn run(alloc: Global, steps: &[Step], report: &mut Report) -> Result<(), DevError> {
    let mut dev = Memory::new(alloc);
    let mut held = None;
    for step in steps {
        let (next, said) = in_memory(alloc, &mut dev, held, step)?;
        held = next;
        report.compare(step, said.as_str())?;
    }
    Ok(())
}

/// Carries out a step. The answer is the blob that is open then, and what the step says.
fn in_memory(
    alloc: Global,
    dev: &mut Memory,
    held: Option<Held>,
    step: &Step,
) -> Result<(Option<Held>, String), DevError>
    requires { IfSome held (λ h. IsHeld h (memory_opened dev.old)) }
    ensures { IfOk result (λ r. IfSome r.0 (λ h. IsHeld h (memory_opened dev.new))) }
{
    if let Some(said) = asked(alloc, dev, step)? {
        return Ok((held, said));
    }
    if let Some(image) = image_after(alloc, dev, step)? {
        *dev = Memory::from_image(alloc, image)?;
        return Ok((None, String::from_str(alloc, "ok")?));
    }
    if plan(dev, step)? {
        return Ok((held, String::from_str(alloc, "ok")?));
    }
    carried_out(alloc, dev, held, step)
}

/// The crash image that a step names, with its choice behind this many words.
fn choice(step: &Step, at: usize) -> Option<CrashChoice> {
    match (step.argument(at), step.number(at.saturating_add(1))) {
        ("settled", _) => Some(CrashChoice::Settled),
        ("as-read", _) => Some(CrashChoice::AsRead),
        ("mixed", Some(bits)) => Some(CrashChoice::Mixed(bits)),
        _ => None,
    }
}

/// What a step that only asks the device is told.
fn asked(alloc: Global, dev: &Memory, step: &Step) -> Result<Option<String>, DevError> {
    if step.word() == "faults" {
        return Ok(Some(format!(in alloc; "{}", dev.faults())?));
    }
    if let Some(said) = crate::streams::said(alloc, step)? {
        return Ok(Some(said));
    }
    if step.word() != "bytes" {
        return Ok(None);
    }
    let image = match choice(step, 2) {
        Some(choice) => dev.pick_crash(alloc, choice)?,
        None => dev.image(alloc)?.copy(alloc)?,
    };
    let name = step.bytes(alloc, 1)?.unwrap_or(Vec::new(alloc));
    match image.blob(partition(step), &name) {
        Some(bytes) => Ok(Some(hex_of(alloc, bytes)?)),
        None => Ok(Some(String::from_str(alloc, "absent")?)),
    }
}

/// The image that the device begins anew with, where the step is one that says so.
fn image_after(alloc: Global, dev: &Memory, step: &Step) -> Result<Option<Image>, DevError> {
    let mut image = dev.image(alloc)?;
    let name = step.bytes(alloc, 1)?.unwrap_or(Vec::new(alloc));
    match (step.word(), choice(step, 0), step.bytes(alloc, 2)?) {
        ("crash", Some(choice), _) => return Ok(Some(dev.pick_crash(alloc, choice)?)),
        ("blob", _, Some(bytes)) => image.set_blob(partition(step), &name, &bytes)?,
        ("drop", _, _) => image.drop_blob(partition(step), &name),
        _ => return Ok(None),
    }
    Ok(Some(image))
}

/// Whether the step says which calls fail; then they do.
fn plan(dev: &mut Memory, step: &Step) -> Result<bool, DevError>
    ensures { memory_opened dev.new ≡ memory_opened dev.old }
{
    match (step.word(), step.number(0)) {
        ("fail", Some(nth)) => dev.fail_at(nth)?,
        ("fuse", Some(nth)) => dev.fuse_at(nth),
        _ => return Ok(false),
    }
    Ok(true)
}
