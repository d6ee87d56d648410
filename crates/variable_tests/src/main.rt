//! Scenarios over `variable_journal`, over a device in memory.
//!
//! A scenario begins with an empty device, and nothing open. The head of `scenario_runs` has the words of
//! numbers and of bytes, the steps of the device, and whole runs.
//!
//! Plain readings: `frames BYTES` says the items of the whole frames, and `cut` with a number or
//! `bad` where bytes are left; `kept PARTITION PAGE SECTION ..` says what is kept of sections.
//!
//! A journal of bytes: `open PARTITION PAGE BUFFER MOST`, where MOST is the greatest length of an
//! item. Then `append SECTION ITEM ..`, which says an offset and a length of each, `get SECTION
//! OFFSET`, `get-many SECTION OFFSET ..`, `size`, `recovered`, `pruned` and `guard` of a section,
//! `oldest`, `newest`, `count`, `empty`, `sync SECTION ..`, `start-sync SECTION ..`, `sync-all`,
//! `prune`, `clear` and `destroy`. PAGE may be `BYTES/PAGES`, with how many pages a buffer holds.
//! `valid PARTITION PAGE BUFFER` says whether a journal may be kept so, where `-` is no name.
//! `held SECTION OFFSET` says the item that `get` would give, where it is in memory. `open-at-most` has
//! the words of `open`, and then SECTION and END: it opens a journal up to this byte of the section.
//! `replay SECTION PIECE MOST` gives items with their places, and then `done` or why no journal is
//! given back. `replay-at` has the words of `open`, and then SECTION, OFFSET and PIECE: it opens a
//! journal, and begins where an item begins, or where the last one ends, or past it.
#![tactic(auto)]

mod journals;
mod plainly;
mod reading;
mod replays;
mod starts;
mod store;

use crate::store::Store;
use blob_device::Memory;
use scenario_runs::carry_out;
use scenario_text::{Driver, Report, Scenario, run_files};
use std::alloc::{AllocError, Global};
use std::process::ExitCode;

/// Carries out scenarios over journals of frames.
struct Variable;

impl Driver for Variable {
    fn carry_out(
        &self,
        alloc: Global,
        scenario: &Scenario,
        report: &mut Report,
    ) -> Result<(), AllocError> {
        let mut dev = Memory::new(alloc);
        carry_out::<Store>(alloc, &mut dev, scenario.steps.as_slice(), report)
    }
}

fn main(rt: HostRuntime) -> ExitCode {
    run_files(&rt, &Variable)
}
