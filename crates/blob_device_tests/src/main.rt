//! The tests of `blob_device`: scenarios in the files of `data`, over a device in memory, a device
//! over a folder, and sources and sinks.
//!
//! The name of a blob and all bytes are hexadecimal, and `-` is no byte. A partition is a word, and
//! `""` is the empty one.
//!
//! | Command | What it does, and what it says |
//! |---|---|
//! | `open PARTITION NAME` | opens a blob, which the next commands are about: its length |
//! | `write OFFSET HEX`, `read OFFSET COUNT` | writes bytes; reads as many |
//! | `resize LENGTH`, `sync` | cuts or extends the blob; settles it |
//! | `besides PARTITION NAME HEX` | opens, writes and settles another blob beside it |
//! | `remove PARTITION NAME` | removes a blob; none is open then |
//! | `scan PARTITION` | the names in a partition, or `none` |
//! | `calls`, `faults` | how many there were since the device began |
//!
//! Of a device in memory:
//!
//! | Command | What it does, and what it says |
//! |---|---|
//! | `blob PARTITION NAME HEX` | puts a blob into the image; the device begins anew over it |
//! | `drop PARTITION NAME` | takes a blob out of the image, likewise |
//! | `crash CHOICE` | begins anew over this crash image: `settled`, `as-read` or `mixed BITS` |
//! | `bytes PARTITION NAME [CHOICE]` | a blob as it reads or a crash leaves it, or `absent` |
//! | `fail N`, `fuse N` | device call N fails; all from N on fail |
//!
//! Where a step is `folder`, the scenario is of a device over a folder:
//!
//! | Command | What it does, and what it says |
//! |---|---|
//! | `folder PATH` | a new device over this folder; no blob is open |
//! | `alone PATH` | the same, and the device has the folder alone from its first call on |
//! | `second PATH` | whether a further device can have this folder alone: `ok`, or the line of its fault |
//! | `failure` | the line of the last fault, or `none` |
//! | `file PATH HEX`, `file-bytes PATH` | writes a file; its bytes |
//! | `there PATH`, `clear PATH` | whether something stands there; removes it |
//!
//! Of sources and sinks, with `std` or a greatest number of bytes at a time as PIECE:
//!
//! | Command | What it says |
//! |---|---|
//! | `reads PIECE FAILING HEX SIZE ..` | what buffers of these sizes are given |
//! | `writes PIECE FAILING HEX ..` | how many bytes are taken of each: all that were taken |
//! | `writes held FAILING HEX ..` | the same of a stream of std that has to be flushed: all that it shows |
//!
//! Read, write or flush number FAILING fails, and `-` is none.
#![tactic(auto)]

mod disk;
mod folder;
mod memory;
mod streams;

use blob_device::DevError;
use scenario_text::{Driver, Report, Scenario, run_files};
use std::alloc::{AllocError, Global};
use std::process::ExitCode;

/// Runs scenarios of devices.
#[derive(Drop)]
struct Devices<'a> {
    // For folders: a device over files needs the system's.
    rt: &'a HostRuntime,
}

impl Driver for Devices<'_> {
    fn carry_out(
        &self,
        alloc: Global,
        scenario: &Scenario,
        report: &mut Report,
    ) -> Result<(), AllocError> {
        let mut over_folder = false;
        for step in &scenario.steps {
            over_folder |= step.word() == "folder";
        }
        let done: Result<(), DevError> = if over_folder {
            folder::run(self.rt, &scenario.steps, report)
        } else {
            memory::run(alloc, &scenario.steps, report)
        };
        match done {
            Ok(()) => Ok(()),
            Err(_) => Err(AllocError),
        }
    }
}

fn main(rt: HostRuntime) -> ExitCode {
    run_files(&rt, &Devices { rt: &rt })
}
