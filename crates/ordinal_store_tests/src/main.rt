//! The tests of `ordinal_store`: scenarios in the files of `data`.
//!
//! # Range sets
//!
//! A scenario whose first step is not `store` is over a range set that is empty at first. Numbers
//! are decimal. A CHANGE is `+N`, which puts the number N into a set, or `-N..M`, which takes the
//! numbers from N to M out of it. A range is told as `N..M`, and what is not there as `none`.
//!
//! | Command | What it does, and what it says |
//! |---|---|
//! | `change CHANGE ..` | makes these changes |
//! | `ranges`, `ranges N` | all ranges; those that end at N or later |
//! | `get N` | the range that holds N |
//! | `next-gap N` | the end of the range that holds N, and where the next one begins |
//! | `first`, `last` | the least number, the greatest |
//! | `missing N COUNT` | the first COUNT absent numbers from N on that are below one of the set |
//! | `same CHANGE ..` | whether the set equals the one that these changes leave: `yes` or `no` |
//! | `bits LEN CHANGE ..` | the bits of a list so long after these changes, and how many are set |
//! | `error` | the text by which the library prints the error |
//!
//! `alike CHANGE ..` makes the changes to an empty range set and to a plain set, and asks both about
//! twelve numbers near the ends of the type. Then it tries each further change of such numbers,
//! and compares the ranges. It says `ok`, or where the two sets differ.
//!
//! # Stores
//!
//! A scenario whose first step is `store` is over a store of numbers of eight bytes in the partition
//! `o`, on a device in memory that is empty at first. A NAME is a section's number, or letters.
//!
//! | Command | What it does, and what it says |
//! |---|---|
//! | `store ITEMS WRITE READ` | sets the slots of a section and both buffers; `-` behind them is a partition without a name; `ok` or `not valid` |
//! | `blob NAME HEX`, `damage NAME AT` | puts a blob into the image, turns all bits of a byte; the device begins anew over it |
//! | `crash CHOICE` | begins anew over `settled`, `as-read` or `mixed BITS` |
//! | `fail N`, `fuse N` | device call N from now on fails; all from there on fail |
//! | `calls`, `faults` | how many there were since that was last asked; since the device began |
//! | `shows NAME` | the bytes of a blob, or `none` |
//! | `kept` | the sections that there are, and the values in their slots: `SECTION:INDEX=VALUE,..;..`, or `-` |
//! | `open none` | opens without a map |
//! | `open map SECTION:MARK ..` | opens by a map: MARK is `full`, or a digit for each bit |
//! | `put INDEX VALUE`, `sync`, `prune MIN`, `destroy`, `close` | the calls; `close` gives the store up |
//! | `get INDEX`, `has INDEX` | the value or `none`; `yes` or `no` |
//! | `ranges`, `next-gap`, `first`, `last`, `missing` | as of a range set |
//!
//! A plain program beside the store has a map of what was put, and reads images slot by slot
//! (`model.rt`, `plainly.rt`). Where an opening, a read or the held indices are not as it says, the
//! step tells that too.
//!
//! `each-call-stops` makes the steps behind it again and again, on what the device has then, with
//! all calls of the device failing from call 0 on, from call 1 on, and so on until no call is
//! missed; it says how many runs were stopped. `each-call-fails` lets one call fail alone. After
//! each run, each of the fourteen crashes has to leave what the last step `leaves TEXT ..` names, as
//! `kept` tells it, and all that was synced and not put since. A store that is opened there by a map
//! of the latter has to hold just these slots. In `each-call-stops-twice` that opening is first
//! stopped at each of its own calls, and each crash of it is opened once more.
#![tactic(auto)]

mod alike;
mod asked;
mod calls;
mod change;
mod disk;
mod images;
mod judge;
mod model;
mod plainly;
mod runs;
mod said;
mod steps;
mod stores;
mod words;

use blob_device::Memory;
use calls::obey;
use disk::Bench;
use ordinal_store::RMap;
use scenario_text::{Driver, Report, Scenario, Step, run_files};
use std::alloc::{AllocError, Global};
use std::process::ExitCode;

/// Runs scenarios of range sets and of stores.
#[derive(Drop)]
struct Ordinals {}

impl Driver for Ordinals {
    fn carry_out(
        &self,
        alloc: Global,
        scenario: &Scenario,
        report: &mut Report,
    ) -> Result<(), AllocError> {
        if is_of_store(&scenario.steps) {
            return play_store(alloc, &scenario.steps, report);
        }
        let mut set = RMap::new(alloc);
        play(alloc, &mut set, &scenario.steps, report)
    }
}

/// Whether the steps are over a store.
fn is_of_store(steps: &[Step]) -> bool {
    match steps.first() {
        Some(step) => step.word() == "store",
        None => false,
    }
}

/// Carries out the steps over a store, on an empty device.
fn play_store(alloc: Global, steps: &[Step], report: &mut Report) -> Result<(), AllocError> {
    let mut bench = Bench::new(alloc)?;
    let mut dev = Memory::new(alloc);
    runs::carry_out(&mut bench, &mut dev, steps, report)
}

/// Carries out the steps over this set.
fn play(
    alloc: Global,
    set: &mut RMap,
    steps: &[Step],
    report: &mut Report,
) -> Result<(), AllocError> {
    for step in steps {
        take_step(alloc, set, step, report)?;
    }
    Ok(())
}

/// Carries out a step over this set.
fn take_step(
    alloc: Global,
    set: &mut RMap,
    step: &Step,
    report: &mut Report,
) -> Result<(), AllocError> {
    let mut text = String::new(alloc);
    obey(alloc, set, step, &mut text)?;
    report.compare(step, text.as_str())
}

fn main(rt: HostRuntime) -> ExitCode {
    run_files(&rt, &Ordinals {})
}
