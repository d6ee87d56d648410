//! The tests of `append_log`: scenarios in the files of `data`, each over a device in memory.
//!
//! A scenario begins with an empty device. The log is the blob `log` of the partition `p`. Records
//! are hexadecimal, and `-` is no byte.
//!
//! | Command | What it does, and what it says |
//! |---|---|
//! | `append RECORD` | opens the log, and appends a record |
//! | `append-all RECORD ..` | opens the log, and appends records: `ok` or the error, and their marks |
//! | `remove` | removes the log |
//! | `crash CHOICE` | begins anew over `settled`, `as-read` or `mixed BITS` |
//! | `fail N`, `fuse N` | device call N fails; all from N on fail |
//! | `calls`, `faults` | how many there were since the device began |
//! | `log [CHOICE]` | the log as it reads or a crash leaves it, or `absent` |
//!
//! A whole run opens a new log and appends the records to it. It is made on a device of its own,
//! with device call 0, 1, 2, .. failing, until no call fails. A run in which a call fails must end
//! with one fault, and tell it; else it says `untold`.
//!
//! | Command | What it says of each run |
//! |---|---|
//! | `each-call-stops RECORD ..` | `LEAST-MOST`, where all calls behind it fail too |
//! | `each-call-fails RECORD ..` | `LEAST-MOST`, where it fails alone |
//! | `each-call-reopens RECORD ..` | `LENGTH:BYTES`, where it fails alone; `LEAST-MOST` of the last run |
//!
//! Each of the fourteen crashes leaves the first records whole, of LEAST bytes together, and at most
//! MOST bytes in all. Once the log is opened again, it has LENGTH bytes, and each crash leaves just
//! BYTES.
#![tactic(auto)]

mod logs;
mod plain;
mod runs;
mod said;
mod steps;

use blob_device::Memory;
use scenario_text::{Driver, Report, Scenario, run_files};
use std::alloc::{AllocError, Global};
use std::process::ExitCode;

/// Carries out scenarios of logs.
struct AppendLog;

impl Driver for AppendLog {
    fn carry_out(
        &self,
        alloc: Global,
        scenario: &Scenario,
        report: &mut Report,
    ) -> Result<(), AllocError> {
        let mut dev = Memory::new(alloc);
        steps::run(alloc, &mut dev, scenario.steps.as_slice(), report)
    }
}

fn main(rt: HostRuntime) -> ExitCode {
    run_files(&rt, &AppendLog)
}
