//! Scenarios over `segments`: its section buffers, its manager and its fixed journal, over a
//! device in memory.
//!
//! A scenario begins with an empty device, and nothing open. Numbers are decimal, and one that is
//! left out is 0; bytes are hexadecimal. A blob has a partition and a name: a number is a section,
//! and anything else a text.
//!
//! The device, behind each of which nothing is open: `blob PARTITION NAME BYTES`, `drop PARTITION
//! NAME`, `damage PARTITION NAME FROM TO BYTE`, `crash settled`, `crash as-read`, `crash mixed
//! BITS`, `fail N` and `fuse N`. What it says: `calls`, `faults`, `length PARTITION SECTION ..` and
//! `bytes PARTITION SECTION ..`.
//!
//! A journal of numbers below 100, eight bytes each: `open PARTITION PAGE BUFFER HELD CEILING`,
//! where HELD is how many pages are held, and CEILING the last section that is opened. The same
//! words and `SECTION:COUNT ..` behind `open-floors` check markers too. `open-elsewhere` has the
//! words of `damage` and markers, and gives the journal where the device is a damaged one.
//! `open-at-most PARTITION PAGE BUFFER HELD SECTION END` opens one up to a byte of a section and
//! goes over it, and `open-cut` does not go over it; `open-restore` has the same words, of a
//! checkpoint, and says the last item below each boundary. Then
//! `append SECTION N ..`, `sync SECTION ..`, `start-sync SECTION ..`, `sync-all`, `prune SECTION`,
//! `clear`, `destroy`, `cut SECTION SIZE`, `cut-tail SECTION END` (to what is sealed up to
//! there), `sealed SECTION END PIECE`, `replay SECTION POSITION PIECE MOST`, `get SECTION
//! POSITION`, `get-many SECTION POSITION ..`, `last SECTION` and `held SECTION POSITION`. It says
//! its `len`, `size`, `full`, `floor`, `recovered`, `pruned` and `guard` of a section, and its
//! `oldest`, `newest` and all `sections`. `append-bytes SECTION N ..` adds numbers by one append of the
//! buffer. `scan PIECE COUNT SECTION KEEP` goes over all items by the cursor of a replay, COUNT at once, and
//! cuts the section once more to KEEP items, if that is said and the section owed a replay.
//!
//! A manager: `manage PARTITION BUFFER CEILING`, then `append SECTION BYTES`, `take`, `make`, the
//! syncs, `prune`, `remove`, `clear`, `destroy`, `cut` and `cut-tail SECTION SIZE`, `cut-each
//! SECTION:SIZE ..`. A buffer: `buffer write CAPACITY` and `buffer append CAPACITY` over `p x`.
//!
//! A step may say any of several answers, with ` | ` between them. A whole run: `each-call-stops`
//! makes the steps behind it again and again, on what the device has then, with all calls of the
//! device failing from call 0 on, from call 1 on, and so on until no call is missed;
//! `each-call-fails` lets one call fail alone. A run ends with the first step that the device
//! stops. Then each crash is taken, and the steps behind `after-each-crash` are made.
#![tactic(auto)]

mod buffers;
mod cursors;
mod disk;
mod floors;
mod items;
mod journals;
mod managers;
mod reading;
mod replays;
mod runs;
mod said;
mod store;
mod words;

use blob_device::Memory;
use scenario_text::{Driver, Report, Scenario, run_files};
use std::alloc::{AllocError, Global};
use std::process::ExitCode;

/// Carries out scenarios over sections.
struct Segments;

impl Driver for Segments {
    fn carry_out(
        &self,
        alloc: Global,
        scenario: &Scenario,
        report: &mut Report,
    ) -> Result<(), AllocError> {
        let mut dev = Memory::new(alloc);
        runs::carry_out(alloc, &mut dev, scenario.steps.as_slice(), report)
    }
}

fn main(rt: HostRuntime) -> ExitCode {
    run_files(&rt, &Segments)
}
