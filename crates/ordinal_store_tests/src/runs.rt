// Scenarios of stores from their first step to their last, and whole runs, stopped at each call of the device.
ghost use Rattle.std.specs.Prelude.{◌≡◌};
ghost use Rattle.ordinal_store_tests.specs.Over.{MayBeOver};

use crate::disk::{Bench, arm, fail_from, look, remake};
use crate::images::{device_over, image_of};
use crate::judge::judge;
use crate::steps::{ask, change, put};
use crate::stores::{FAULT, Store};
use crate::words::{Family, MISSPELT, family_of, is_spelt};
use blob_device::Memory;
use scenario_text::{Report, Step};
use std::alloc::AllocError;

/// How often a run is made at most.
const MOST: u64 = 200;

/// Carries out the steps of a scenario, the whole run at its end included.
pub fn carry_out(
    bench: &mut Bench,
    dev: &mut Memory,
    steps: &[Step],
    report: &mut Report,
) -> Result<(), AllocError> {
    let at = play(bench, dev, steps, report)?;
    let Some((step, run)) = steps.get(at..).unwrap_or(&[]).split_first() else {
        return Ok(());
    };
    match family_of(step.word()) {
        Family::Run => run_whole(bench, dev, step, run, report),
        _ => report.compare(step, FAULT),
    }
}

// Carries out steps from nothing open on, up to a whole run, or to a step that is stopped by the device and not to be. The
// answer is how many steps were carried out.
fn play(
    bench: &mut Bench,
    dev: &mut Memory,
    steps: &[Step],
    report: &mut Report,
) -> Result<usize, AllocError> {
    let mut store = None;
    play_on(bench, &mut store, dev, steps, report)
}

// The same, from what is open on.
fn play_on(
    bench: &mut Bench,
    store: &mut Option<Store>,
    dev: &mut Memory,
    steps: &[Step],
    report: &mut Report,
) -> Result<usize, AllocError>
    requires { MayBeOver store.old dev.old }
{
    'steps: for (at, step) in steps.iter().enumerate() {
        match family_of(step.word()) {
            Family::Run => return Ok(at),
            Family::Leaves => {}
            _ => {
                if !take_step(bench, store, dev, step, report)? {
                    return Ok(at);
                }
            }
        }
    }
    Ok(steps.len())
}

// Carries out a step, unless it is stopped by the device and not to be. The answer is whether it was.
fn take_step(
    bench: &mut Bench,
    store: &mut Option<Store>,
    dev: &mut Memory,
    step: &Step,
    report: &mut Report,
) -> Result<bool, AllocError>
    requires { MayBeOver store.old dev.old }
    ensures { MayBeOver store.new dev.new }
{
    let mut text = String::new(bench.alloc);
    obey(bench, store, dev, step, &mut text)?;
    compare(step, text.as_str(), report)
}

// Compares what is said with what is wanted, unless the device stopped the step and is not to. The answer is
// whether it was compared.
fn compare(step: &Step, said: &str, report: &mut Report) -> Result<bool, AllocError> {
    if said == FAULT && step.wanted.as_str() != FAULT {
        return Ok(false);
    }
    report.compare(step, said)?;
    Ok(true)
}

// Carries out a step, and says what it answers.
fn obey(
    bench: &mut Bench,
    store: &mut Option<Store>,
    dev: &mut Memory,
    step: &Step,
    text: &mut String,
) -> Result<(), AllocError>
    requires { MayBeOver store.old dev.old }
    ensures { MayBeOver store.new dev.new }
{
    if !is_spelt(step) {
        return text.push_str(MISSPELT);
    }
    match family_of(step.word()) {
        Family::Look => look(bench, dev, step, text),
        Family::Arm => arm(dev, step, text),
        Family::Remake => {
            put(store, None);
            begin_anew(bench, dev, step, text)
        }
        Family::Change => change_open(bench, store, dev, step, text),
        _ => ask_open(bench, store, dev, step, text),
    }
}

// What is said of a call that wants an open store.
const CLOSED: &str = "refused: not open";

// Makes another device, or another configuration, or gives the store up.
fn begin_anew(
    bench: &mut Bench,
    dev: &mut Memory,
    step: &Step,
    text: &mut String,
) -> Result<(), AllocError> {
    if step.word() == "close" {
        bench.model.give_up(bench.alloc);
        return text.push_str("ok");
    }
    remake(bench, dev, step, text)
}

// Makes a call that changes the store, which has to be open, or is opened by it.
fn change_open(
    bench: &mut Bench,
    store: &mut Option<Store>,
    dev: &mut Memory,
    step: &Step,
    text: &mut String,
) -> Result<(), AllocError>
    requires { MayBeOver store.old dev.old }
    ensures { MayBeOver store.new dev.new }
{
    if store.is_none() && step.word() != "open" {
        return text.push_str(CLOSED);
    }
    change(bench, store, dev, step, text)
}

// Asks the store, which has to be open.
fn ask_open(
    bench: &Bench,
    store: &Option<Store>,
    dev: &mut Memory,
    step: &Step,
    text: &mut String,
) -> Result<(), AllocError>
    requires { MayBeOver store.now dev.old }
    ensures { MayBeOver store.now dev.new }
{
    match store {
        None => text.push_str(CLOSED),
        Some(store) => ask(bench, store, dev, step, text),
    }
}

// Makes the run again and again, on what the device has, until it is not stopped.
fn run_whole(
    bench: &mut Bench,
    start: &Memory,
    mode: &Step,
    run: &[Step],
    report: &mut Report,
) -> Result<(), AllocError> {
    for nth in 0..MOST {
        if !run_once(bench, start, (mode, nth), run, report)? || !report.is_well() {
            return tell_count(bench, mode, nth, report);
        }
    }
    report.fail(mode.line, "the run is stopped again and again")
}

// Tells how many runs were stopped.
fn tell_count(
    bench: &Bench,
    mode: &Step,
    count: u64,
    report: &mut Report,
) -> Result<(), AllocError> {
    let text = format!(in bench.alloc; "{count}")?;
    report.compare(mode, text.as_str())
}

// Makes the run, and judges what each crash then leaves. The answer is whether it was stopped.
fn run_once(
    bench: &mut Bench,
    start: &Memory,
    stop: (&Step, u64),
    run: &[Step],
    report: &mut Report,
) -> Result<bool, AllocError> {
    let image = image_of(bench.alloc, start)?;
    let mut dev = device_over(bench.alloc, image)?;
    run_on(bench, &mut dev, stop, run, report)
}

// The same, on this device.
fn run_on(
    bench: &mut Bench,
    dev: &mut Memory,
    stop: (&Step, u64),
    run: &[Step],
    report: &mut Report,
) -> Result<bool, AllocError> {
    let (mode, nth) = stop;
    bench.restart(dev)?;
    fail_from(dev, mode.word() == "each-call-fails", nth)?;
    let at = play(bench, dev, run, report)?;
    judge(bench, dev, mode, run.get(..at).unwrap_or(&[]), report)?;
    Ok(at < run.len())
}
