// Scenarios from their first step to their last, and whole runs with a failure at each call.
ghost use Rattle.std.specs.Prelude.{◌≡◌};
ghost use Rattle.segments_tests.specs.Stores.{IsOpen};

use crate::disk::crashed;
use crate::replays::WRONG;
use crate::said::text_of;
use crate::store::{Store, obey};
use crate::words::read_words;
use blob_device::{CrashChoice, DevError, Memory};
use scenario_text::{Report, Step};
use std::alloc::{AllocError, Global};
use std::mem;

/// How often a run is made at most.
const MOST: u64 = 400;

/// What stands between the answers of which a step may give any.
const OR: &str = " | ";

/// Carries out the steps of a scenario, the whole run at its end included.
pub fn carry_out(
    alloc: Global,
    dev: &mut Memory,
    steps: &[Step],
    report: &mut Report,
) -> Result<(), AllocError> {
    let at = play(alloc, dev, steps, report)?;
    let Some((step, run)) = steps.get(at..).unwrap_or(&[]).split_first() else {
        return Ok(());
    };
    match step.word() {
        "each-call-stops" | "each-call-fails" => run_whole(alloc, dev, step, run, report),
        _ => report.compare(step, "stopped by the device"),
    }
}

// Carries out steps from nothing open on, up to a whole run or what follows it, or to a step that
// is stopped by the device and not to be. The answer is how many steps were carried out.
fn play(
    alloc: Global,
    dev: &mut Memory,
    steps: &[Step],
    report: &mut Report,
) -> Result<usize, AllocError> {
    let mut store = Store::Closed;
    play_on(alloc, &mut store, dev, steps, report)
}

// The same, from what is open on.
fn play_on(
    alloc: Global,
    store: &mut Store,
    dev: &mut Memory,
    steps: &[Step],
    report: &mut Report,
) -> Result<usize, AllocError>
    requires { IsOpen dev.old store.old }
{
    'steps: for (at, step) in steps.iter().enumerate() {
        match step.word() {
            "each-call-stops" | "each-call-fails" | "after-each-crash" => return Ok(at),
            _ => {
                if !take_step(alloc, store, dev, step, report)? {
                    return Ok(at);
                }
            }
        }
    }
    Ok(steps.len())
}

// Carries out a step. The answer is whether it was not stopped by the device, or was to be.
fn take_step(
    alloc: Global,
    store: &mut Store,
    dev: &mut Memory,
    step: &Step,
    report: &mut Report,
) -> Result<bool, AllocError>
    requires { IsOpen dev.old store.old }
    ensures { IsOpen dev.new store.new }
{
    let Ok(told) = read_words(alloc, step) else {
        return Err(AllocError);
    };
    let faults = dev.faults();
    let (next, answer) = obey(alloc, mem::replace(store, Store::Closed), dev, step, &told);
    put(store, next);
    let said = text_of(alloc, &answer)?;
    hear(step, said.as_str(), dev.faults() > faults, report)
}

fn put(store: &mut Store, next: Store)
    ensures { store.new ≡ next }
{
    *store = next;
}

// Notes a failure where the step said what it may not. A step that the device stopped may say
// anything but what is wrong; the answer is then false, unless the step was to say that.
fn hear(
    step: &Step,
    said: &str,
    is_stopped: bool,
    report: &mut Report,
) -> Result<bool, AllocError> {
    for wanted in step.wanted.as_str().split(OR) {
        if wanted == said {
            return Ok(true);
        }
    }
    if is_stopped && !said.ends_with(WRONG) {
        return Ok(false);
    }
    report.compare(step, said)?;
    Ok(true)
}

// Makes the run again and again, on what the device has, until it is not stopped.
fn run_whole(
    alloc: Global,
    start: &Memory,
    mode: &Step,
    run: &[Step],
    report: &mut Report,
) -> Result<(), AllocError> {
    for nth in 0..MOST {
        let stopped = match armed(alloc, start, mode, nth) {
            Ok(mut dev) => run_once(alloc, &mut dev, run, report),
            Err(_) => Err(AllocError),
        };
        if !stopped? || !report.is_well() {
            return Ok(());
        }
    }
    report.fail(mode.line, "the run is stopped again and again")
}

// The device of a run, told which calls fail.
fn armed(alloc: Global, start: &Memory, mode: &Step, nth: u64) -> Result<Memory, DevError> {
    let mut dev = crashed(alloc, start, CrashChoice::AsRead)?;
    if mode.word() == "each-call-fails" {
        dev.fail_at(nth)?;
    } else {
        dev.fuse_at(nth);
    }
    Ok(dev)
}

// Makes the run, and after each crash the steps that follow it. The answer is whether the run was
// stopped.
fn run_once(
    alloc: Global,
    dev: &mut Memory,
    run: &[Step],
    report: &mut Report,
) -> Result<bool, AllocError> {
    let mut end = run.len();
    for (at, step) in run.iter().enumerate() {
        if step.word() == "after-each-crash" {
            end = at;
        }
    }
    let after = run.get(end.saturating_add(1)..).unwrap_or(&[]);
    let at = play(alloc, dev, run, report)?;
    for choice in CrashChoice::SAMPLES {
        let played = match crashed(alloc, dev, choice) {
            Ok(mut left) => play(alloc, &mut left, after, report),
            Err(_) => Err(AllocError),
        };
        played?;
    }
    Ok(at < end)
}
