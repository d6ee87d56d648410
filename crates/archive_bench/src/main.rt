//! `archive_bench` fills an archive, opens it again, and prints how many calls of the device that made.
//!
//! What it prints on standard output depends on its words alone, and is the same over a folder and in memory. The processor time of each
//! phase goes to standard error.
#![tactic(auto)]

mod bench;
mod config;
mod counting;
mod counts;
mod error;
mod looking;
mod report;
mod sizes;
mod times;
mod words;

use archive_service::Settings;
use bench::measure;
use blob_device::{FileDevice, Memory};
use config::page_bytes;
use counting::Counting;
use error::BenchError;
use report::Report;
use std::alloc::AllocError;
use std::process::ExitCode;
use std::{env, io};
use times::Watch;
use words::{Plan, USUAL, plan_of};

const HELP: &str = "\
Fills an archive, opens it again, and prints how many calls of the device that made.

usage: archive_bench [DIR PUTS [SECTIONS | look ITEMS]]
       archive_bench --help

  DIR       an empty folder to keep the archive in, made when it is needed; with
            - the archive is kept in memory
  PUTS      how many records of 100 bytes are put, with a sync every 100
  SECTIONS  how many sections are held at most: as a new one begins, the oldest
            one is pruned; without it all are held
  ITEMS     for how many indices a section has room; then each record is looked
            up by index and by key, and so are as many that were not put

Counts go to standard output, and the processor time of each phase to standard
error. With no words 1000 records are put in memory, and then 24600 of which
twenty sections are held. Then 10000 are put and looked up, in one section and
in sections of 1024, and so are 100000. Without ITEMS a section has room for
1024.

status: 0 done, 1 usage, 2 the archive is not empty, 4 input or output fault,
        5 the archive failed, 6 no memory";

fn main(rt: HostRuntime) -> ExitCode {
    match run(&rt) {
        Ok(()) => ExitCode::from(0),
        Err(error) => {
            // There is nobody else to tell if this fails.
            let _ = eprintln!(rt; "archive_bench: {error}");
            ExitCode::from(error.status())
        }
    }
}

// Does what the words ask for.
fn run(rt: &HostRuntime) -> Result<(), BenchError> {
    let words = arguments(rt)?;
    if let [word] = words.as_slice()
        && word.as_str() == "--help"
    {
        println!(rt; "{HELP}")?;
        return Ok(());
    }
    if words.is_empty() {
        for plan in USUAL {
            carry_out(rt, &plan)?;
        }
        return Ok(());
    }
    carry_out(rt, &plan_of(words.as_slice())?)
}

// Measures what is asked for, and prints it.
fn carry_out(rt: &HostRuntime, plan: &Plan<'_>) -> Result<(), BenchError> {
    let mut watch = Watch::new(rt.alloc(), rt)?;
    let report = match plan.folder {
        None => measure_in_memory(rt, plan, &mut watch)?,
        Some(folder) => measure_in(rt, folder, plan, &mut watch)?,
    };
    println!(rt; "{report}")?;
    eprintln!(rt; "{watch}")?;
    Ok(())
}

// The words behind the program's name. Words that are no text are an error.
fn arguments(rt: &HostRuntime) -> io::Result<Vec<String>> {
    let mut words = Vec::new(rt.alloc());
    for word in env::args(rt)?.skip(1) {
        words.push(word)?;
    }
    Ok(words)
}

// Measures over memory.
fn measure_in_memory(
    rt: &HostRuntime,
    plan: &Plan<'_>,
    watch: &mut Watch<'_, HostRuntime>,
) -> Result<Report, BenchError> {
    let memory = Memory::new(rt.alloc());
    let mut device = Counting::new(rt.alloc(), memory, page_bytes(&Settings::DEFAULT));
    measure(rt.alloc(), &mut device, plan, watch)
}

// Measures over this folder. What failed in it is said on standard error.
fn measure_in(
    rt: &HostRuntime,
    folder: &str,
    plan: &Plan<'_>,
    watch: &mut Watch<'_, HostRuntime>,
) -> Result<Report, BenchError> {
    let Ok(files) = FileDevice::new(rt, rt.alloc(), folder) else {
        return Err(BenchError::Memory(AllocError));
    };
    let mut device = Counting::new(rt.alloc(), files, page_bytes(&Settings::DEFAULT));
    let report = measure(rt.alloc(), &mut device, plan, watch);
    if let Some(failure) = device.inner().last_failure() {
        eprintln!(rt; "archive_bench: {failure}")?;
    }
    report
}
