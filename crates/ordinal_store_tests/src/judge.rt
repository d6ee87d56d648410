// What crashes leave, judged by the plain program and by opening the store again and again.
ghost use Rattle.std.specs.Prelude.{◌≤◌, ◌^◌};

use crate::asked::{Marks, marks_of};
use crate::disk::Bench;
use crate::images::{copy_of, crash_of, device_over};
use crate::plainly::{Slots, slots_in, tell_image};
use crate::stores::{has_slots, opened};
use crate::words::{Family, family_of};
use blob_device::{CrashChoice, Image, Memory};
use scenario_text::{Report, Step};
use std::alloc::AllocError;

/// How many calls an opening has at most.
const MOST: u64 = 100;

/// Notes a failure where a crash now leaves what it may not, or where an opening of what it leaves
/// does not find what is owed. `done` are the steps that were carried out.
pub fn judge(
    bench: &Bench,
    dev: &Memory,
    mode: &Step,
    done: &[Step],
    report: &mut Report,
) -> Result<(), AllocError> {
    if let Some(step) = last_leaves(done) {
        judge_texts(bench, dev, step, report)?;
    }
    if bench.config.is_valid() {
        judge_openings(bench, dev, mode, report)?;
    }
    Ok(())
}

// The last step that names what a crash may leave.
fn last_leaves(steps: &[Step]) -> Option<&Step> {
    let mut leaves = None;
    for step in steps {
        if let Family::Leaves = family_of(step.word()) {
            leaves = Some(step);
        }
    }
    leaves
}

// Notes a failure where the step does not name what a crash leaves.
fn judge_texts(
    bench: &Bench,
    dev: &Memory,
    step: &Step,
    report: &mut Report,
) -> Result<(), AllocError> {
    for choice in CrashChoice::SAMPLES {
        let text = text_after(bench, dev, choice)?;
        judge_text(bench, step, text.as_str(), report)?;
    }
    Ok(())
}

// Notes a failure where the step does not name this text.
fn judge_text(
    bench: &Bench,
    step: &Step,
    text: &str,
    report: &mut Report,
) -> Result<(), AllocError> {
    if names(step, text) {
        return Ok(());
    }
    tell_left(bench, step, text, report)
}

// Notes that a crash leaves this.
fn tell_left(
    bench: &Bench,
    step: &Step,
    text: &str,
    report: &mut Report,
) -> Result<(), AllocError> {
    let why = format!(in bench.alloc; "a crash leaves {text}")?;
    report.fail(step.line, why.as_str())
}

// What a crash leaves.
fn text_after(bench: &Bench, dev: &Memory, choice: CrashChoice) -> Result<String, AllocError> {
    let image = crash_of(bench.alloc, dev, choice)?;
    text_of(bench, &image)
}

// What an image holds.
fn text_of(bench: &Bench, image: &Image) -> Result<String, AllocError> {
    let mut text = String::new(bench.alloc);
    tell_image(bench.alloc, image, bench.config.items_per_blob, &mut text)?;
    Ok(text)
}

// Whether the step names this text.
fn names(step: &Step, text: &str) -> bool {
    for word in step.rest() {
        if word.as_str() == text {
            return true;
        }
    }
    false
}

// Notes a failure where an opening of what a crash leaves does not find what is owed.
fn judge_openings(
    bench: &Bench,
    dev: &Memory,
    mode: &Step,
    report: &mut Report,
) -> Result<(), AllocError>
    requires { (1 ≤ bench.now.config.items_per_blob)
        × (bench.now.config.items_per_blob ≤ 2 ^ 40) }
{
    let marks = marks_of(bench.alloc, &bench.model.owed, bench.config.items_per_blob)?;
    let marks = Some(marks);
    if are_well(bench, dev, mode, &marks)? {
        return Ok(());
    }
    report.fail(mode.line, "what was synced is lost")
}

// Whether each crash leaves what is owed, and in a run that is stopped twice each opening that is stopped too.
fn are_well(
    bench: &Bench,
    dev: &Memory,
    mode: &Step,
    marks: &Option<Marks>,
) -> Result<bool, AllocError>
    requires { (1 ≤ bench.now.config.items_per_blob)
        × (bench.now.config.items_per_blob ≤ 2 ^ 40) }
{
    if mode.word() != "each-call-stops-twice" {
        return are_kept(bench, dev, marks);
    }
    for choice in CrashChoice::SAMPLES {
        if !outlasts(bench, crash_of(bench.alloc, dev, choice)?, marks)? {
            return Ok(false);
        }
    }
    Ok(true)
}

/// How an opening ended.
#[derive(Clone, Copy)]
enum Fate {
    /// A crash of it loses what was owed.
    Lost,
    /// It was stopped, and each crash of it leaves that.
    Stopped,
    /// It was not stopped.
    Done,
}

// Whether what is owed outlasts an opening of the image that is stopped at each of its calls.
fn outlasts(bench: &Bench, image: Image, marks: &Option<Marks>) -> Result<bool, AllocError>
    requires { (1 ≤ bench.now.config.items_per_blob)
        × (bench.now.config.items_per_blob ≤ 2 ^ 40) }
{
    for nth in 0..MOST {
        match stopped_at(bench, &image, marks, nth)? {
            Fate::Lost => return Ok(false),
            Fate::Stopped => {}
            Fate::Done => return Ok(true),
        }
    }
    Ok(false)
}

// Opens the image, which is stopped at this call, and judges each crash then.
fn stopped_at(
    bench: &Bench,
    image: &Image,
    marks: &Option<Marks>,
    nth: u64,
) -> Result<Fate, AllocError>
    requires { (1 ≤ bench.now.config.items_per_blob)
        × (bench.now.config.items_per_blob ≤ 2 ^ 40) }
{
    let image = copy_of(bench.alloc, image)?;
    let mut dev = device_over(bench.alloc, image)?;
    dev.fuse_at(nth);
    let is_done = is_opened(bench, &mut dev, marks);
    if !are_kept(bench, &dev, marks)? {
        return Ok(Fate::Lost);
    }
    Ok(if is_done { Fate::Done } else { Fate::Stopped })
}

// Whether an opening ends well.
fn is_opened(bench: &Bench, dev: &mut Memory, marks: &Option<Marks>) -> bool
    requires { (1 ≤ bench.now.config.items_per_blob)
        × (bench.now.config.items_per_blob ≤ 2 ^ 40) }
{
    opened(bench.alloc, dev, &bench.config, marks).is_ok()
}

// Whether each crash leaves what is owed.
fn are_kept(bench: &Bench, dev: &Memory, marks: &Option<Marks>) -> Result<bool, AllocError>
    requires { (1 ≤ bench.now.config.items_per_blob)
        × (bench.now.config.items_per_blob ≤ 2 ^ 40) }
{
    for choice in CrashChoice::SAMPLES {
        if !is_kept(bench, crash_of(bench.alloc, dev, choice)?, marks)? {
            return Ok(false);
        }
    }
    Ok(true)
}

// Whether what is owed stands in the image, by the plain program, and an opening holds just that.
fn is_kept(bench: &Bench, image: Image, marks: &Option<Marks>) -> Result<bool, AllocError>
    requires { (1 ≤ bench.now.config.items_per_blob)
        × (bench.now.config.items_per_blob ≤ 2 ^ 40) }
{
    if !stands(bench, &image)? {
        return Ok(false);
    }
    let mut dev = device_over(bench.alloc, image)?;
    Ok(is_held(bench, &mut dev, marks))
}

// Whether an opening holds just what is owed.
fn is_held(bench: &Bench, dev: &mut Memory, marks: &Option<Marks>) -> bool
    requires { (1 ≤ bench.now.config.items_per_blob)
        × (bench.now.config.items_per_blob ≤ 2 ^ 40) }
{
    match opened(bench.alloc, dev, &bench.config, marks) {
        Ok(store) => has_slots(&store, dev, &bench.model.owed),
        Err(_) => false,
    }
}

// Whether what is owed stands in the image.
fn stands(bench: &Bench, image: &Image) -> Result<bool, AllocError> {
    let slots = slots_in(bench.alloc, image, bench.config.items_per_blob)?;
    Ok(has_all(&slots, &bench.model.owed))
}

// Whether the slots are among these.
fn has_all(slots: &Slots, owed: &Slots) -> bool {
    for (index, slot) in owed.iter() {
        match slots.get(index) {
            Some(left) if *left == *slot => {}
            _ => return false,
        }
    }
    true
}
