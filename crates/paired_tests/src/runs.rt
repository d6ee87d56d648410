// Scenarios from their first step to their last, and whole runs, stopped at each call of the
// device.
ghost use Rattle.std.specs.Prelude.{◌≡◌};
ghost use Rattle.paired_tests.specs.Stores.{IsOpen};

use crate::disk::{Bench, shows};
use crate::plainly::is_same;
use crate::said::text_of;
use crate::store::{Store, obey};
use crate::words::{Family, family_of, number};
use blob_device::{CrashChoice, Image, Memory};
use scenario_text::{Report, Step};
use segments::journal::Error;
use std::alloc::{AllocError, Global};
use std::mem;

/// How often a run is made at most.
const MOST: u64 = 200;

/// Carries out the steps of a scenario, the whole run at its end included.
pub fn carry_out(
    bench: &mut Bench,
    dev: &mut Memory,
    steps: &[Step],
    report: &mut Report,
) -> Result<(), AllocError> {
    let at = run_once(bench, dev, steps, report)?;
    let Some(step) = steps.get(at) else {
        return Ok(());
    };
    let Family::Run = family_of(step.word()) else {
        return report.compare(step, "something else, as the device fails");
    };
    let Ok(image) = dev.image(bench.alloc) else {
        return Err(AllocError);
    };
    run_whole(bench, &image, steps.get(at..).unwrap_or(&[]), report)
}

// Carries out steps from nothing open on, up to a whole run, or to a step that the device keeps from
// what it is to say. The answer is how many steps were carried out.
fn play(
    bench: &mut Bench,
    dev: &mut Memory,
    steps: &[Step],
    report: &mut Report,
) -> Result<usize, AllocError> {
    let mut store = Store::Closed;
    play_on(bench, &mut store, dev, steps, report)
}

// The same, from what is open on.
fn play_on(
    bench: &mut Bench,
    store: &mut Store,
    dev: &mut Memory,
    steps: &[Step],
    report: &mut Report,
) -> Result<usize, AllocError>
    requires { IsOpen dev.old store.old }
{
    'steps: for (at, step) in steps.iter().enumerate() {
        match family_of(step.word()) {
            Family::Run => return Ok(at),
            Family::Leaves => {}
            _ => {
                if !take_step(bench, store, dev, step, report)? {
                    return Ok(at);
                }
            }
        }
    }
    Ok(steps.len())
}

// Carries out a step. The answer is whether it says what it is to, or the device has not failed.
fn take_step(
    bench: &mut Bench,
    store: &mut Store,
    dev: &mut Memory,
    step: &Step,
    report: &mut Report,
) -> Result<bool, AllocError>
    requires { IsOpen dev.old store.old }
    ensures { IsOpen dev.new store.new }
{
    let (next, answer) = obey(bench, mem::replace(store, Store::Closed), dev, step);
    put(store, next);
    let alloc = bench.alloc;
    let said = text_of(alloc, &answer)?;
    if dev.faults() > 0 && step.wanted.as_str() != said.as_str() {
        return Ok(false);
    }
    report.compare(step, said.as_str())?;
    Ok(true)
}

fn put(store: &mut Store, next: Store)
    ensures { store.new ≡ next }
{
    *store = next;
}

// Carries out steps, and judges what each crash then leaves; but not where they are carried out
// again and to their end. The answer is how many steps were carried out.
fn run_once(
    bench: &mut Bench,
    dev: &mut Memory,
    steps: &[Step],
    report: &mut Report,
) -> Result<usize, AllocError> {
    let at = play(bench, dev, steps, report)?;
    let mut owed = None;
    for step in steps.get(..at).unwrap_or(&[]) {
        if let Family::Leaves = family_of(step.word()) {
            owed = Some(step);
        }
    }
    if at == steps.len() && bench.is_again {
        return Ok(at);
    }
    if let Some(owed) = owed {
        judge(bench, dev, owed, report)?;
    }
    Ok(at)
}

// Notes a failure where a crash now leaves what this step does not name. Five of the crashes are
// taken where the run is made again.
fn judge(
    bench: &mut Bench,
    dev: &Memory,
    owed: &Step,
    report: &mut Report,
) -> Result<(), AllocError> {
    let mut at = 0_u64;
    for choice in CrashChoice::SAMPLES {
        let is_passed = match at {
            0 | 1 | 7 | 11 | 13 => false,
            _ => bench.is_again,
        };
        at = at.saturating_add(1);
        if is_passed {
            continue;
        }
        let Ok(image) = dev.pick_crash(bench.alloc, choice) else {
            return Err(AllocError);
        };
        let mut is_new = true;
        for known in bench.left.iter() {
            is_new = is_new && !is_same(known, &image);
        }
        if is_new {
            judge_image(bench.alloc, &image, owed, report)?;
            bench.left.push(image)?;
        }
    }
    Ok(())
}

// The same for an image that a crash left.
fn judge_image(
    alloc: Global,
    image: &Image,
    owed: &Step,
    report: &mut Report,
) -> Result<(), AllocError> {
    let text = text_of(alloc, &shows(alloc, image, owed))?;
    for word in owed.rest() {
        if word.as_str() == text.as_str() {
            return Ok(());
        }
    }
    report.compare(owed, text.as_str())
}

// Makes the run that the first step begins, again and again. Twice: again on what crashes left of
// it, and once more on what they left of that.
fn run_whole(
    bench: &mut Bench,
    start: &Image,
    steps: &[Step],
    report: &mut Report,
) -> Result<(), AllocError> {
    stop_each(bench, start, steps, report)?;
    let Some(mode) = steps.first() else {
        return Ok(());
    };
    if mode.word() != "each-call-fails-twice" {
        return Ok(());
    }
    let alloc = bench.alloc;
    let first = mem::replace(&mut bench.left, Vec::new(alloc));
    bench.is_again = true;
    for image in first.iter() {
        bench.left.clear();
        stop_each(bench, image, steps, report)?;
        let second = mem::replace(&mut bench.left, Vec::new(alloc));
        for last in second.iter() {
            bench.left.clear();
            run_at(bench, last, steps, u64::MAX, report)?;
        }
    }
    Ok(())
}

// Makes the run again and again, with each call of the device failing, until no call is missed.
fn stop_each(
    bench: &mut Bench,
    start: &Image,
    steps: &[Step],
    report: &mut Report,
) -> Result<(), AllocError> {
    let Some(mode) = steps.first() else {
        return Ok(());
    };
    for nth in 0..MOST {
        let is_stopped = run_at(bench, start, steps, nth, report)?;
        if !report.is_well() {
            return Ok(());
        }
        if !is_stopped && number(mode, 0) <= nth && nth <= number(mode, 1) {
            return Ok(());
        }
        if !is_stopped {
            let alloc = bench.alloc;
            let count = format!(in alloc; "{nth}")?;
            return report.compare(mode, count.as_str());
        }
        if mode.word() != "each-call-fails-twice" {
            bench.left.clear();
        }
    }
    report.fail(mode.line, "the run is stopped again and again")
}

// Makes the run with this call of the device failing. The answer is whether it was stopped.
fn run_at(
    bench: &mut Bench,
    start: &Image,
    steps: &[Step],
    nth: u64,
    report: &mut Report,
) -> Result<bool, AllocError> {
    let Some((mode, run)) = steps.split_first() else {
        return Ok(false);
    };
    let Ok(mut dev) = armed(bench.alloc, start, mode, nth) else {
        return Err(AllocError);
    };
    let at = run_once(bench, &mut dev, run, report)?;
    if dev.faults() > 0 && at == run.len() {
        report.fail(mode.line, "a call fails, and no step says so")?;
    }
    Ok(at < run.len())
}

// The device of a run, told which calls fail.
fn armed(alloc: Global, start: &Image, mode: &Step, nth: u64) -> Result<Memory, Error> {
    let mut dev = Memory::from_image(alloc, start.copy(alloc)?)?;
    if mode.word() == "each-call-stops" {
        dev.fuse_at(nth);
    } else {
        dev.fail_at(nth)?;
    }
    Ok(dev)
}
