//! Scenarios of the program: what it is given, what it must print, and what must outlast failures and crashes.
//!
//! The arguments name the files of scenarios, which stand in `data/`; `data/README.md` shows their form by examples. What an
//! image keeps is judged by plain programs, and by what the script of the scenario put and synced.
#![tactic(auto)]

mod cuts;
mod errors;
mod failing;
mod folders;
mod given;
mod image;
mod judge;
mod kept;
mod listed;
mod looking;
mod outcome;
mod owed;
mod reading;
mod runs;
mod stage;
mod stop;
mod stopping;
mod trial;

use scenario_text::{Driver, Report, Scenario, Step, run_files};
use stage::Stage;
use std::alloc::{AllocError, Global};
use std::process::ExitCode;
use stop::Stop;

fn main(rt: HostRuntime) -> ExitCode {
    let driver = Scenarios { rt: &rt };
    run_files(&rt, &driver)
}

/// Carries out scenarios of the program.
#[derive(Drop)]
struct Scenarios<'a> {
    // what reads the files of scenarios, and writes the report
    rt: &'a HostRuntime,
}

impl Driver for Scenarios<'_> {
    fn carry_out(
        &self,
        alloc: Global,
        scenario: &Scenario,
        report: &mut Report,
    ) -> Result<(), AllocError> {
        let mut stage = Stage::new(alloc)?;
        for step in scenario.steps.iter() {
            match said(self.rt, &mut stage, step) {
                Ok(said) => note(report, step, said.as_str())?,
                Err(Stop::Mem) => return Err(AllocError),
                Err(Stop::Said(why)) => report.compare(step, why)?,
                Err(Stop::Failed(error)) => {
                    let why = format!(in alloc; "error {error}")?;
                    report.compare(step, why.as_str())?;
                }
            }
        }
        Ok(())
    }
}

// A line of a script is answered when the script is run.
fn note(report: &mut Report, step: &Step, said: &str) -> Result<(), AllocError> {
    if step.word() == ">" {
        return Ok(());
    }
    report.compare(step, said)
}

/// What a step says.
fn said(rt: &HostRuntime, stage: &mut Stage, step: &Step) -> Result<String, Stop> {
    match step.word() {
        ">" | "words" | "set" | "input" | "repeat" | "fail" | "fuse" => given::give(stage, step),
        "empty" | "blob" | "drop" | "damage" | "crash" => image::change(stage, step),
        "run" => runs::run(rt, stage),
        "each-call-fails"
        | "each-call-stops"
        | "stops-twice"
        | "marks-count"
        | "input-cut"
        | "streams" => runs::try_out(stage, step),
        "begun" | "cost" | "error" | "calls" | "faults" | "shows" | "changed" => {
            looking::look(stage, step)
        }
        "kept" | "marker" | "lawful" => looking::judged(stage, step),
        "script" | "reads" | "begins" | "valid" => reading::read(stage, step),
        "listed" => listed::served(stage, step),
        "text" | "bad-line" => errors::write(stage.alloc, step),
        "folder" | "file" | "there" | "read" | "clear" => folders::use_files(rt, stage, step),
        _ => Err(Stop::Said("no such command")),
    }
}
