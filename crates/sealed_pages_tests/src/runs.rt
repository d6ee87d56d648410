// Scenarios from their first step to their last, and whole runs, stopped at each call of the device.
ghost use Rattle.std.specs.Prelude.{◌≡◌, ◌≤◌};
ghost use Rattle.blob_device.specs.MemoryMeaning.{memory_opened};
ghost use Rattle.sealed_pages_tests.specs.Stores.{IsOpen};

use crate::disk::{kept, shows};
use crate::pages::adopted;
use crate::said::{Said, Stop, text_of};
use crate::store::{Store, obey};
use crate::words::{Family, family_of, page_size};
use blob_device::{CrashChoice, DevError, Image, Memory, RError};
use scenario_text::{Report, Step};
use sealed_pages::Pages;
use std::alloc::{AllocError, Global};
use std::mem;

/// How often a run is made at most.
const MOST: u64 = 200;

/// Carries out the steps of a scenario, the whole run at its end included.
pub fn carry_out(
    alloc: Global,
    dev: &mut Memory,
    steps: &[Step],
    report: &mut Report,
) -> Result<(), AllocError> {
    let at = play(alloc, dev, steps, report)?;
    let Some((step, run)) = steps.get(at..).unwrap_or(&[]).split_first() else {
        return Ok(());
    };
    match family_of(step.word()) {
        Family::Run => run_whole(alloc, dev, step, run, report),
        _ => report.compare(step, "error runtime fault"),
    }
}

// Carries out steps from nothing open on, up to a whole run, or to a step that is stopped by the device and not to be. The
// answer is how many steps were carried out.
fn play(
    alloc: Global,
    dev: &mut Memory,
    steps: &[Step],
    report: &mut Report,
) -> Result<usize, AllocError> {
    let mut store = Store::Closed;
    play_on(alloc, &mut store, dev, steps, report)
}

// The same, from what is open on.
fn play_on(
    alloc: Global,
    store: &mut Store,
    dev: &mut Memory,
    steps: &[Step],
    report: &mut Report,
) -> Result<usize, AllocError>
    requires { IsOpen (memory_opened dev.old) store.old }
{
    'steps: for (at, step) in steps.iter().enumerate() {
        match family_of(step.word()) {
            Family::Run => return Ok(at),
            Family::Leaves => {}
            _ => {
                if !take_step(alloc, store, dev, step, report)? {
                    return Ok(at);
                }
            }
        }
    }
    Ok(steps.len())
}

// Carries out a step, unless it is stopped by the device and not to be. The answer is whether it was.
fn take_step(
    alloc: Global,
    store: &mut Store,
    dev: &mut Memory,
    step: &Step,
    report: &mut Report,
) -> Result<bool, AllocError>
    requires { IsOpen (memory_opened dev.old) store.old }
    ensures { IsOpen (memory_opened dev.new) store.new }
{
    let (next, answer) = obey(alloc, mem::replace(store, Store::Closed), dev, step);
    put(store, next);
    let said = text_of(alloc, &answer)?;
    if let Err(Stop::Failed(RError::Fault)) = answer {
        if step.wanted.as_str() != said.as_str() {
            return Ok(false);
        }
    }
    report.compare(step, said.as_str())?;
    Ok(true)
}

fn put(store: &mut Store, next: Store)
    ensures { store.new ≡ next }
{
    *store = next;
}

// Makes the run again and again, on what the device has, until it is not stopped.
fn run_whole(
    alloc: Global,
    start: &Memory,
    mode: &Step,
    run: &[Step],
    report: &mut Report,
) -> Result<(), AllocError> {
    for nth in 0..MOST {
        let Ok(mut dev) = armed(alloc, start, mode, nth) else {
            return Err(AllocError);
        };
        let stopped = run_once(alloc, &mut dev, run, report)?;
        if !stopped || !report.is_well() {
            let count = format!(in alloc; "{nth}")?;
            return report.compare(mode, count.as_str());
        }
    }
    report.fail(mode.line, "the run is stopped again and again")
}

// The device of a run, told which calls fail.
fn armed(alloc: Global, start: &Memory, mode: &Step, nth: u64) -> Result<Memory, DevError> {
    let mut dev = Memory::from_image(alloc, start.image(alloc)?)?;
    if mode.word() == "each-call-fails" {
        dev.fail_at(nth)?;
    } else {
        dev.fuse_at(nth);
    }
    Ok(dev)
}

// Makes the run, and judges what each crash then leaves. The answer is whether the run was stopped.
fn run_once(
    alloc: Global,
    dev: &mut Memory,
    run: &[Step],
    report: &mut Report,
) -> Result<bool, AllocError> {
    let at = play(alloc, dev, run, report)?;
    let mut owed = None;
    for step in run.get(..at).unwrap_or(&[]) {
        if let Family::Leaves = family_of(step.word()) {
            owed = Some(step);
        }
    }
    if let Some(owed) = owed {
        judge(alloc, dev, owed, report)?;
    }
    Ok(at < run.len())
}

// Notes a failure where a crash now leaves what this step does not name.
fn judge(alloc: Global, dev: &Memory, owed: &Step, report: &mut Report) -> Result<(), AllocError> {
    for choice in CrashChoice::SAMPLES {
        let Ok(image) = dev.pick_crash(alloc, choice) else {
            return Err(AllocError);
        };
        let left = left_in(alloc, image, owed)?;
        if !is_named(owed.rest(), left.as_str()) {
            report.compare(owed, left.as_str())?;
        }
    }
    Ok(())
}

// What a crash left in this image.
fn left_in(alloc: Global, image: Image, owed: &Step) -> Result<String, AllocError> {
    if owed.word() == "leaves-bytes" {
        return text_of(alloc, &shows(alloc, &image, "p", "w"));
    }
    text_of(alloc, &kept_by_both(alloc, image, owed))
}

// What the pages keep by the plain program. A buffer over them has to find the same.
fn kept_by_both(alloc: Global, image: Image, owed: &Step) -> Result<Said, Stop> {
    let page_size = page_size(owed)?;
    let (prefix, size) = kept(alloc, &image, page_size)?;
    let mut dev = Memory::from_image(alloc, image)?;
    if found(alloc, &mut dev, page_size)? != (size, prefix.len() as u64) {
        return Err(Stop::Refused("the buffer finds other bytes"));
    }
    Ok(Said::Kept(prefix, size))
}

// The size at which a buffer adopts the pages, and how far it finds them sealed.
fn found(alloc: Global, dev: &mut Memory, page_size: u16) -> Result<(u64, u64), RError>
    requires { 1 ≤ page_size }
{
    let pages = Pages {
        page_size,
        cache_pages: 0,
    };
    let blob = adopted(alloc, dev, pages, 4)?;
    let sealed = blob.recoverable_prefix_len(dev, 0, 64)?;
    Ok((blob.size(), sealed))
}

// Whether one of these words names the text.
fn is_named(words: &[String], text: &str) -> bool {
    for word in words {
        if fits(word.as_bytes(), text.as_bytes()) {
            return true;
        }
    }
    false
}

// Whether the text is this pattern, in which `.` is any digit, and `*` all the rest.
fn fits(pattern: &[u8], text: &[u8]) -> bool {
    for (at, wanted) in pattern.iter().enumerate() {
        match text.get(at) {
            _ if *wanted == b'*' => return true,
            Some(byte) if *byte == *wanted => {}
            Some(byte) if *wanted == b'.' && byte.is_ascii_hexdigit() => {}
            _ => return false,
        }
    }
    pattern.len() == text.len()
}
