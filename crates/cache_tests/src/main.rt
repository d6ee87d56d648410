//! Scenarios over `cache_store`, over a device in memory.
//!
//! A scenario begins with an empty device, and nothing open. The head of `scenario_runs` has the words of
//! numbers and of bytes, the steps of the device, and whole runs.
//!
//! A cache of bytes: `cache PARTITION PAGE BUFFER ITEMS MOST PIECE`, where MOST is the greatest length of
//! a value (100 where it is left out), and PIECE the bytes that the opening reads at once (64). Then `put
//! INDEX VALUE`, `put-sync`, `get`, `has`, `sync`, `prune INDEX`, `gap INDEX`, `missing INDEX COUNT`,
//! `first`, `all END` (what is held below an index), `exact END` (whether all that is asked of indices
//! below this one is answered as a plain reading of those that are held has it), `agrees PARTITION PAGE
//! SECTION ..` (whether it holds just what a plain reading of the blobs finds) and `destroy`. `entries
//! PARTITION PAGE SECTION ..` says what is kept of sections of a cache. `valid PARTITION PAGE BUFFER ITEMS
//! PIECE` says whether a cache may be kept so, where `-` is no name.
#![tactic(auto)]

mod caches;
mod exact;
mod plainly;
mod reading;
mod store;

use crate::store::Store;
use blob_device::Memory;
use scenario_runs::carry_out;
use scenario_text::{Driver, Report, Scenario, run_files};
use std::alloc::{AllocError, Global};
use std::process::ExitCode;

/// Carries out scenarios over caches.
struct Cached;

impl Driver for Cached {
    fn carry_out(
        &self,
        alloc: Global,
        scenario: &Scenario,
        report: &mut Report,
    ) -> Result<(), AllocError> {
        let mut dev = Memory::new(alloc);
        carry_out::<Store>(alloc, &mut dev, scenario.steps.as_slice(), report)
    }
}

fn main(rt: HostRuntime) -> ExitCode {
    run_files(&rt, &Cached)
}
