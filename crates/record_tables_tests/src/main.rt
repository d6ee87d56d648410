//! The tests of `record_tables`: scenarios in the files of `data`, each over tables that are empty at first.
//!
//! Numbers are decimal. A record's word is its KEY modulo 4, so that few words are shared by many keys. A section
//! has room for 16 records, and 8 sections may keep some. An INDEX is not below its SECTION.
//!
//! | Command | What it does, and what it says |
//! |---|---|
//! | `put SECTION INDEX KEY` | adds a record behind those of its section: `ok`, or `full` |
//! | `prune BOUND` | forgets the records of the sections below BOUND |
//! | `first SECTION INDEX` | the position of the first record with this index, or `none` |
//! | `all SECTION INDEX` | all positions of the index, or `none` |
//! | `key KEY` | section and position of each record with the key's word: `SECTION:POSITION ..`, or `none` |
//! | `handles KEY` | slot and position of the same records: `SLOT/POSITION ..` |
//! | `indices` | the runs of all indices: `FIRST..LAST ..`, or `none` |
//! | `mixed SEED COUNT` | so many puts and prunes over new tables, chosen by SEED; all is asked after each |
//!
//! Plain lists beside the tables are told the same. Where an answer is not as they say, the step tells that too.
#![tactic(auto)]

mod both;
mod mixed;
mod plainly;
mod said;
mod steps;
mod words;

use scenario_text::{Driver, Report, Scenario, run_files};
use std::alloc::{AllocError, Global};
use std::process::ExitCode;

/// Carries out scenarios of tables.
struct RecordTables;

impl Driver for RecordTables {
    fn carry_out(
        &self,
        alloc: Global,
        scenario: &Scenario,
        report: &mut Report,
    ) -> Result<(), AllocError> {
        steps::run(alloc, &scenario.steps, report)
    }
}

fn main(rt: HostRuntime) -> ExitCode {
    run_files(&rt, &RecordTables)
}
