// Scenarios from their first step to their last, and whole runs with a failure at each call.
ghost use Rattle.std.specs.Prelude.{◌≡◌};

use crate::disk::{crashed, look, remake};
use crate::said::{WRONG, text_of};
use crate::words::{Told, read_words};
use crate::{Opened, Said};
use blob_device::{CrashChoice, DevError, Memory};
use scenario_text::{Report, Step};
use segments::journal::Error;
use std::alloc::{AllocError, Global};
use std::mem;

/// How often a run is made at most.
const MOST: u64 = 400;

/// What stands between the answers of which a step may give any.
const OR: &str = " | ";

/// What begins the steps that follow each crash.
const AFTER: &str = "after-each-crash";

/// What names the answers that a crash may leave from there on, and what stands for them.
const LEAVES: &str = "leaves";

const LEFT: &str = "what is left";

/// What a step says that the device stopped.
const FAULT: &str = "runtime fault";

/// What all steps are carried out with.
#[derive(Clone, Copy)]
struct Bench<'a> {
    // Where memory comes from.
    alloc: Global,
    // The answers that the crash may have left.
    left: &'a str,
}

/// Carries out the steps of a scenario, the whole run at its end included, and one more on what
/// crashes left of that.
pub fn carry_out<S: Opened>(
    alloc: Global,
    dev: &mut Memory,
    steps: &[Step],
    report: &mut Report,
) -> Result<(), AllocError> {
    let bench = Bench { alloc, left: "" };
    let at = play::<S>(bench, dev, steps, report)?;
    let steps = steps.get(at..).unwrap_or(&[]);
    let Some(step) = steps.first() else {
        return Ok(());
    };
    if !begins_run(step) {
        return report.compare(step, "stopped by the device");
    }
    let mut starts = Vec::new(alloc);
    run_whole::<S>(alloc, dev, steps, &mut starts, report)?;
    let again = steps.get(next_run(steps)..).unwrap_or(&[]);
    for start in starts.iter() {
        let mut last = Vec::new(alloc);
        run_whole::<S>(alloc, start, again, &mut last, report)?;
        if !last.is_empty() {
            report.fail(step.line, "a third run is not made")?;
        }
    }
    Ok(())
}

// Whether a step begins a whole run.
fn begins_run(step: &Step) -> bool {
    matches!(step.word(), "each-call-stops" | "each-call-fails")
}

// Where the next whole run begins, after the first step.
fn next_run(steps: &[Step]) -> usize {
    for (at, step) in steps.iter().enumerate() {
        if at > 0 && begins_run(step) {
            return at;
        }
    }
    steps.len()
}

// Carries out steps from nothing open on, up to a whole run or what follows it, or to a step that
// is stopped by the device and not to be. The answer is how many steps were carried out.
fn play<S: Opened>(
    bench: Bench<'_>,
    dev: &mut Memory,
    steps: &[Step],
    report: &mut Report,
) -> Result<usize, AllocError> {
    let mut store = S::closed(dev);
    play_on(bench, &mut store, dev, steps, report)
}

// The same, from what is open on.
fn play_on<S: Opened>(
    bench: Bench<'_>,
    store: &mut S,
    dev: &mut Memory,
    steps: &[Step],
    report: &mut Report,
) -> Result<usize, AllocError>
    requires { S.is_open dev.old store.old }
{
    'steps: for (at, step) in steps.iter().enumerate() {
        if begins_run(step) || step.word() == AFTER {
            return Ok(at);
        }
        if step.word() != LEAVES && !take_step(bench, store, dev, step, report)? {
            return Ok(at);
        }
    }
    Ok(steps.len())
}

// Carries out a step. The answer is whether it was not stopped by the device, or was to be.
fn take_step<S: Opened>(
    bench: Bench<'_>,
    store: &mut S,
    dev: &mut Memory,
    step: &Step,
    report: &mut Report,
) -> Result<bool, AllocError>
    requires { S.is_open dev.old store.old }
    ensures { S.is_open dev.new store.new }
{
    let alloc = bench.alloc;
    let Ok(told) = read_words(alloc, step) else {
        return Err(AllocError);
    };
    let faults = dev.faults();
    let (next, answer) = obey(alloc, mem::replace(store, S::closed(dev)), dev, step, &told);
    put(store, next);
    let said = text_of(alloc, &answer)?;
    hear(bench, step, said.as_str(), dev.faults() > faults, report)
}

// Carries out a step of the device, after which nothing is open, or one over what is open.
fn obey<S: Opened>(
    alloc: Global,
    store: S,
    dev: &mut Memory,
    step: &Step,
    told: &Told,
) -> (S, Result<Said, Error>)
    requires { S.is_open dev.old store }
    ensures { S.is_open dev.new result.0 }
{
    match step.word() {
        "calls" | "faults" | "length" | "bytes" => (store, look(alloc, dev, step, told)),
        "blob" | "drop" | "damage" | "crash" | "fail" | "fuse" => {
            let answer = remake(alloc, dev, step);
            (S::closed(dev), answer)
        }
        _ => store.obey(alloc, dev, step, told),
    }
}

fn put<S: Drop>(store: &mut S, next: S)
    ensures { store.new ≡ next }
{
    *store = next;
}

// Notes a failure where the step said what it may not. A step that the device stopped may say that, and
// nothing wrong beside; the answer is then false, unless the step was to say that.
fn hear(
    bench: Bench<'_>,
    step: &Step,
    said: &str,
    is_stopped: bool,
    report: &mut Report,
) -> Result<bool, AllocError> {
    let wanted = match step.wanted.as_str() {
        LEFT => bench.left,
        wanted => wanted,
    };
    for wanted in wanted.split(OR) {
        if wanted == said {
            return Ok(true);
        }
    }
    if is_stopped && said.contains(FAULT) && !said.ends_with(WRONG) {
        return Ok(false);
    }
    report.compare(step, said)?;
    Ok(true)
}

// Makes the run that the first step begins again and again, on what the device has, until it is not
// stopped. It was stopped as often as the first step says.
fn run_whole<S: Opened>(
    alloc: Global,
    start: &Memory,
    steps: &[Step],
    starts: &mut Vec<Memory>,
    report: &mut Report,
) -> Result<(), AllocError> {
    let Some((mode, run)) = steps.split_first() else {
        return Ok(());
    };
    for nth in 0..MOST {
        let stopped = match armed(alloc, start, mode, nth) {
            Ok(mut dev) => run_once::<S>(alloc, &mut dev, run, starts, report),
            Err(_) => Err(AllocError),
        };
        let stopped = stopped?;
        if !report.is_well() {
            return Ok(());
        }
        if !stopped {
            let count = format!(in alloc; "{nth}")?;
            let bench = Bench { alloc, left: "" };
            hear(bench, mode, count.as_str(), false, report)?;
            return Ok(());
        }
    }
    report.fail(mode.line, "the run is stopped again and again")
}

// The device of a run, told which calls fail.
fn armed(alloc: Global, start: &Memory, mode: &Step, nth: u64) -> Result<Memory, DevError> {
    let mut dev = crashed(alloc, start, CrashChoice::AsRead)?;
    if mode.word() == "each-call-fails" {
        dev.fail_at(nth)?;
    } else {
        dev.fuse_at(nth);
    }
    Ok(dev)
}

// Makes the run, and after each crash the steps that follow it. The answer is whether the run was
// stopped.
fn run_once<S: Opened>(
    alloc: Global,
    dev: &mut Memory,
    run: &[Step],
    starts: &mut Vec<Memory>,
    report: &mut Report,
) -> Result<bool, AllocError> {
    let bench = Bench { alloc, left: "" };
    let at = play::<S>(bench, dev, run, report)?;
    let is_stopped = match run.get(at) {
        Some(step) => step.word() != AFTER,
        None => false,
    };
    if !is_stopped && dev.faults() > 0 {
        report.fail(0, "a call fails, and no step says so")?;
    }
    let (left, after) = parts(run, at);
    let bench = Bench { alloc, left };
    // One of them, another one each time: it is gone on with as often as that run is stopped.
    let chosen = starts.len() % 14 * 5 % 14;
    let mut nth = 0_usize;
    for choice in CrashChoice::SAMPLES {
        let played = match crashed(alloc, dev, choice) {
            Ok(crash) => follow::<S>(bench, crash, after, report),
            Err(_) => Err(AllocError),
        };
        match played? {
            Some(start) if nth == chosen => starts.push(start)?,
            _ => {}
        }
        nth = nth.saturating_add(1);
    }
    Ok(is_stopped)
}

// What a crash may leave of a run that came to this step, and the steps that follow it.
fn parts(run: &[Step], end: usize) -> (&str, &[Step]) {
    let mut left = "";
    for (at, step) in run.iter().enumerate() {
        if step.word() == AFTER {
            return (left, run.get(at + 1..).unwrap_or(&[]));
        }
        if step.word() == LEAVES && at < end {
            left = step.wanted.as_str();
        }
    }
    (left, &[])
}

// Carries out the steps after a crash. The answer is what it left, where another whole run follows.
fn follow<S: Opened>(
    bench: Bench<'_>,
    crash: Memory,
    after: &[Step],
    report: &mut Report,
) -> Result<Option<Memory>, AllocError> {
    let mut crash = crash;
    let at = play::<S>(bench, &mut crash, after, report)?;
    match after.get(at) {
        Some(step) if begins_run(step) => return Ok(Some(crash)),
        Some(step) => report.compare(step, "stopped by the device")?,
        None => {}
    }
    Ok(None)
}
