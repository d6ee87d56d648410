//! The tests of `meta_store`: scenarios in the files of `data`, each over a device in memory.
//!
//! A map is kept in the partition `p`, with keys and values of eight bytes. What an image holds is
//! read by the plain program in `plain.rt`, and the map is opened over it besides.
//!
//! Of the device:
//!
//! | Command | What it does, and what it says |
//! |---|---|
//! | `blob PARTITION NAME HEX` | puts a blob into the image; the device begins anew over it |
//! | `damage PARTITION NAME FROM TO BYTE` | puts this byte at these places, likewise |
//! | `crash CHOICE` | begins anew over `settled`, `as-read` or `mixed BITS` |
//! | `fail N`, `fuse N` | device call N fails; all from N on fail |
//! | `calls`, `faults` | how many there were since the device began |
//! | `bytes PARTITION NAME` | the bytes of a blob as it reads, or `absent` |
//! | `kept` | what the two blobs hold, as they read |
//! | `crashes` | what the fourteen crash choices leave of them, each outcome once |
//!
//! Of the map:
//!
//! | Command | What it does, and what it says |
//! |---|---|
//! | `open`, `close` | opens the map, gives it up |
//! | `put K V`, `change K V` | stages a value; changes one in place |
//! | `keep-below V` | drops the entries whose values are V or more |
//! | `get K`, `entries`, `floor` | a value, all entries, the floor |
//! | `set-floor N` | stages a floor |
//! | `sync`, `start-sync`, `put-sync K V` | makes what is staged durable |
//! | `destroy` | removes the map |
//! | `errors` | the words for the errors |
//!
//! `each-call-fails` and `each-call-stops` run the commands behind them with call 0, 1, 2, ..
//! failing, alone or with all calls behind it, until a run has no failure. They say what crashes
//! leave after each run.
#![tactic(auto)]

mod judge;
mod plain;
mod session;
mod steps;
mod words;

use blob_device::{DevError, Image, Memory};
use scenario_text::{Driver, Report, Scenario, Step, run_files};
use session::run;
use std::alloc::{AllocError, Global};
use std::process::ExitCode;

/// Runs scenarios of maps.
#[derive(Drop)]
struct Maps {}

impl Driver for Maps {
    fn carry_out(
        &self,
        alloc: Global,
        scenario: &Scenario,
        report: &mut Report,
    ) -> Result<(), AllocError> {
        match carried_out(alloc, &scenario.steps, report) {
            Ok(()) => Ok(()),
            Err(_) => Err(AllocError),
        }
    }
}

/// Carries out the steps of a scenario, which may end in a whole run.
fn carried_out(alloc: Global, steps: &[Step], report: &mut Report) -> Result<(), DevError> {
    let mut at = 0_usize;
    for (i, step) in steps.iter().enumerate() {
        if step.word().starts_with("each-call-") {
            break;
        }
        at = i + 1;
    }
    let before = steps.get(..at).unwrap_or(&[]);
    let dev = run(alloc, Memory::new(alloc), before, report, false)?;
    match steps.get(at..).unwrap_or(&[]).split_first() {
        Some((mode, body)) => each_call(alloc, &dev.image(alloc)?, mode, body, report),
        None => Ok(()),
    }
}

/// The device over this image for run number `nth` of a whole run.
fn failing(alloc: Global, image: &Image, mode: &Step, nth: u64) -> Result<Memory, DevError> {
    let mut dev = Memory::from_image(alloc, image.copy(alloc)?)?;
    match mode.word() {
        "each-call-stops" => dev.fuse_at(nth),
        _ => dev.fail_at(nth)?,
    }
    Ok(dev)
}

/// Carries out the steps with each of their device calls failing, until a run has no failure.
fn each_call(
    alloc: Global,
    image: &Image,
    mode: &Step,
    steps: &[Step],
    report: &mut Report,
) -> Result<(), DevError> {
    let mut said = String::new(alloc);
    for nth in 0..100_u64 {
        let dev = failing(alloc, image, mode, nth)?;
        let dev = run(alloc, dev, steps, report, true)?;
        said.push_str(judge::crashes(alloc, &dev)?.as_str())?;
        if dev.faults() == 0 {
            report.compare(mode, said.as_str())?;
            return Ok(());
        }
        said.push_str("; ")?;
    }
    report.fail(mode.line, "no run is without a failure")?;
    Ok(())
}

fn main(rt: HostRuntime) -> ExitCode {
    run_files(&rt, &Maps {})
}
