//! The tests of `archive_words`: scenarios in the files of `data`, whose steps ask what is wrong with
//! words and lines, or change blobs in memory while the losses are noted.
//!
//! Numbers are decimal. A line, a script, the name of a blob and its bytes are hexadecimal, and `-`
//! is no byte. A word of a command line stands as it is, and `""` is the empty one.
//!
//! | Command | What it does, and what it says |
//! |---|---|
//! | `line LINE` | what is wrong with a line that is ended, where values have at most two bytes, or `-` |
//! | `line-at N SCRIPT` | the same of line N of a script, or `none` where it has no such line |
//! | `words WORD ..` | what is wrong with the words of a command line, or `-` |
//! | `open PARTITION NAME` | opens a blob |
//! | `write PARTITION NAME OFFSET BYTES [LENGTH]` | opens a blob, writes bytes, and then cuts or extends it to a length |
//! | `resize PARTITION NAME LENGTH` | opens a blob, and cuts or extends it |
//! | `remove PARTITION NAME` | removes a blob |
//! | `notes` | what these calls took off blobs, each behind the number of its call, or `none` |
#![tactic(auto)]

mod blobs;
mod explained;
mod said;

use archive_words::Noting;
use blob_device::{DevError, Memory};
use said::{Said, text_of};
use scenario_text::{Driver, Report, Scenario, Step, run_files};
use std::alloc::{AllocError, Global};
use std::process::ExitCode;

/// Carries out scenarios of words, and of blobs whose losses are noted.
struct ArchiveWords;

impl Driver for ArchiveWords {
    fn carry_out(
        &self,
        alloc: Global,
        scenario: &Scenario,
        report: &mut Report,
    ) -> Result<(), AllocError> {
        let mut device = Noting::new(alloc, Memory::new(alloc));
        play(alloc, &mut device, &scenario.steps, report)
    }
}

/// Carries out the steps over this device.
fn play(
    alloc: Global,
    device: &mut Noting<Memory>,
    steps: &[Step],
    report: &mut Report,
) -> Result<(), AllocError> {
    for step in steps {
        let text = text_of(alloc, &carried_out(alloc, device, step))?;
        report.compare(step, text.as_str())?;
    }
    Ok(())
}

/// Carries out a step.
fn carried_out(alloc: Global, device: &mut Noting<Memory>, step: &Step) -> Result<Said, DevError> {
    match step.word() {
        "line" => explained::line(alloc, step),
        "line-at" => explained::line_of_script(alloc, step),
        "words" => explained::words(alloc, step),
        "notes" => blobs::notes(alloc, device.notebook()),
        _ => blobs::changed(alloc, device, step),
    }
}

fn main(rt: HostRuntime) -> ExitCode {
    run_files(&rt, &ArchiveWords)
}
