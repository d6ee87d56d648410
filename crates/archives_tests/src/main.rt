//! What only a call of `archives` shows: scenarios in the files of `data`, each over a device in memory.
//!
//! What the program shows of an archive is shown by its own scenarios: replies to scripts, what crashes leave, calls of
//! the device that fail. Here the numbers are set that the program does not set, device calls are counted, and values
//! have as many bytes as no memory holds.
//!
//! | Command | What it does, and what it says |
//! |---|---|
//! | `set NAME TEXT` | changes a field of the configuration: a number, or a partition's name, of which `-` is the empty one |
//! | `valid` | whether the configuration is valid: `yes`, `no` |
//! | `open` | opens the archive; one that is open is given up |
//! | `put INDEX KEY VALUE [ZEROS]` | puts VALUE behind so many zeros, which are never written; so `putsync`, `putstart`, `multi` |
//! | `sync`, `start` | settles all that was put |
//! | `prune INDEX`, `floor` | removes the sections below that of INDEX; below which index nothing is put |
//! | `get INDEX`, `getk KEY` | `value VALUE` or `none` |
//! | `has INDEX`, `hask KEY`, `has_index INDEX` | `yes`, `no` |
//! | `entries INDEX` | `KEY VALUE / ..` of all records at INDEX, or `none` |
//! | `mark`, `calls` | how many device calls were made since the mark |
//! | `few_calls N`, `more_calls` | whether they are at most N; how many more they are now than they were there |
//! | `crash CHOICE` | the device begins anew over this crash image: `settled`, `as-read`, `mixed BITS` |
//! | `keep`, `same` | notes what the fourteen crashes may now leave; whether that is the same now |
//! | `length PARTITION SECTION` | how many bytes a section's blob has, `none` where it is not there |
//! | `errors` | what lower errors become |
//! | `word KEY` | the word of a key |
//! | `spell INDEX KEY [OFFSET SIZE]..` | the bytes of an index record to which these places were given, one after another |
//! | `read SIZE HEX` | the index record that these bytes are, with a key of SIZE bytes: 8 or 32 |
#![tactic(auto)]

mod asked;
mod changes;
mod error_words;
mod looks;
mod records;
mod run;
mod sample;
mod settings;

use run::{Samples, run};
use scenario_text::{Driver, Report, Scenario, run_files};
use std::alloc::{AllocError, Global};
use std::process::ExitCode;

/// Carries out scenarios of archives.
#[derive(Drop)]
struct Archives {}

impl Driver for Archives {
    fn carry_out(
        &self,
        alloc: Global,
        scenario: &Scenario,
        report: &mut Report,
    ) -> Result<(), AllocError> {
        run::<Samples>(alloc, &scenario.steps, report)
    }
}

fn main(rt: HostRuntime) -> ExitCode {
    run_files(&rt, &Archives {})
}
