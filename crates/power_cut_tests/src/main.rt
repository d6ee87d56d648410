//! Power cuts: a device over files, and the program over it, on a disk in memory that knows what was synced.
//!
//! A scenario begins with an empty disk. The folder of the device is `d`, and is not there unless a step makes it. Bytes and the
//! names of blobs are hexadecimal.
//!
//! | Step | What it does |
//! |---|---|
//! | `root PATH` | the folder of the device |
//! | `folder PATH`, `file PATH HEX` | puts a folder or a file on the disk, synced |
//! | `closing-forgets` | no later sync writes what a file had not synced when it was closed |
//! | `open PARTITION NAME` | a call of the device, and the blob of the next changes |
//! | `write OFFSET HEX`, `resize LENGTH`, `sync` | a change of that blob |
//! | `read` | a read of that blob, of no byte: its file is asked all the same |
//! | `remove PARTITION NAME`, `scan PARTITION` | a call of the device |
//! | `writes COUNT` | opens so many blobs, and writes a byte into each |
//! | `> COMMAND` | a line of the program's script, and its reply |
//! | `puts COUNT` | so many lines, each a put in a section of its own |
//! | `items NUMBER`, `set NAME NUMBER` | how many indices a section has room for; a setting |
//! | `each-call-fails [LEAST]` | each call on the files fails alone; one that changes names or a length, both not done and done |
//! | `power-goes-after-each-call [LEAST]` | the power goes before each call on the files, or the process ends there |
//! | `power-goes-at-the-end [LEAST]` | the power goes when all is done |
//!
//! The last three begin what was gathered again and again, and want at least LEAST calls on the files. What each power cut leaves is judged by what the calls or the script put
//! and synced, and by plain programs. A new device, or a new run, must find it, and what it finds must outlast the next power cut.
//! What a run of the program replies is the first of what is wanted, and an error where it did not come to all.
#![tactic(auto)]

mod calls;
mod change;
mod cuts;
mod device_trial;
mod disk;
mod files;
mod judge;
mod kept;
mod known;
mod left;
mod owed;
mod plan;
mod program;
mod stage;
mod stop;
mod trial;

use scenario_text::{Driver, Report, Scenario, Step, run_files};
use stage::Stage;
use std::alloc::{AllocError, Global};
use std::process::ExitCode;
use stop::Stop;
use trial::Each;

fn main(rt: HostRuntime) -> ExitCode {
    run_files(&rt, &PowerCuts {})
}

/// Carries out scenarios over files in memory.
#[derive(Drop)]
struct PowerCuts {}

impl Driver for PowerCuts {
    fn carry_out(
        &self,
        alloc: Global,
        scenario: &Scenario,
        report: &mut Report,
    ) -> Result<(), AllocError> {
        let Ok(mut stage) = Stage::new(alloc) else {
            return Err(AllocError);
        };
        let mut untried = None;
        for step in scenario.steps.iter() {
            untried = if is_trial(step) { None } else { Some(step) };
            match said(&mut stage, step) {
                Ok(said) => note(report, step, said.as_str())?,
                Err(Stop::Mem) => return Err(AllocError),
                Err(Stop::Said(why)) => report.compare(step, why)?,
                Err(Stop::Failed(error)) => {
                    let why = format!(in alloc; "error {error}")?;
                    report.compare(step, why.as_str())?;
                }
            }
        }
        match untried {
            Some(step) => report.fail(step.line, "no trial stands behind this step"),
            None => Ok(()),
        }
    }
}

// Whether what was gathered is tried by this step.
fn is_trial(step: &Step) -> bool {
    matches!(
        step.word(),
        "each-call-fails" | "power-goes-after-each-call" | "power-goes-at-the-end"
    )
}

// A line of a script is answered when the script is run.
fn note(report: &mut Report, step: &Step, said: &str) -> Result<(), AllocError> {
    if step.word() == ">" {
        return Ok(());
    }
    report.compare(step, said)
}

/// What a step says.
fn said(stage: &mut Stage, step: &Step) -> Result<String, Stop> {
    let least = step.number(0).unwrap_or(0);
    match step.word() {
        "each-call-fails" => stage.tried(Each::Fails, least),
        "power-goes-after-each-call" => stage.tried(Each::Stops, least),
        "power-goes-at-the-end" => stage.tried(Each::Whole, least),
        _ => stage.give(step),
    }
}
