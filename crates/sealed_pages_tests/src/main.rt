//! `sealed_pages_tests` carries out the scenarios of `data/` over the buffers of
//! `sealed_pages`, on a device in memory.
//!
//! A scenario begins with an empty device, and nothing open. Numbers are decimal, and one that
//! is left out is 0; bytes are hexadecimal, and `-` is no byte. A blob has a partition and a
//! name, which are text. Pages stand in the blob `p x`, and bytes without seals in the blob `p
//! w`.
//!
//! The device, after each of which nothing is open: `blob PARTITION NAME BYTES`, `damage
//! PARTITION NAME FROM TO BYTE`, `crash settled`, `crash as-read`, `crash mixed BITS`, `fail N`
//! and `fuse N`. What it says: `calls`, `faults`, `shows PARTITION NAME`, and `kept PAGE`, the
//! sealed prefix and the adopted size of the pages by the plain program.
//!
//! Pages: `open PAGE BUFFER CACHE` says the size, `append BYTES` the place, `sync`, `cut
//! LENGTH`, `size`, `needs-sync`, `has-room N`, `read FROM N`, `read-held FROM N`, `prefix
//! FROM BUFFER`, `prefix-below FROM END BUFFER`; with no buffer open `read-range PAGE FROM N`,
//! and `read-tail PAGE N`, which says the size behind the bytes. A reader over them:
//! `replay BUFFER`, then `ensure N`, `hand`, `remaining`, `advance N`, `seek N` and
//! `blob-size`; any other command gives it up. Bytes without seals: `open-plain BUFFER`, then
//! `append`, `write AT BYTES`, `flush`, `sync`, `cut`, `size`, `needs-sync` and `read`. A
//! command that changes the blob and is refused leaves nothing open.
//!
//! A whole run: `each-call-stops` makes the steps behind it again and again, on what the device
//! has then, with all calls of the device failing from call 0 on, from call 1 on, and so on
//! until no call is missed; it says how many runs were stopped. `each-call-fails` lets one call
//! fail alone. After each run each crash must leave one of what the last step `leaves PAGE KEPT
//! ..` or `leaves-bytes BYTES ..` names, where `.` is any digit and `*` any rest; and a buffer
//! over the pages must find what the plain program finds.
#![tactic(auto)]

mod disk;
mod pages;
mod reader;
mod runs;
mod said;
mod store;
mod unsealed;
mod words;

use blob_device::Memory;
use scenario_text::{Driver, Report, Scenario, run_files};
use std::alloc::{AllocError, Global};
use std::process::ExitCode;

/// Carries out scenarios over sealed pages.
struct SealedPages;

impl Driver for SealedPages {
    fn carry_out(
        &self,
        alloc: Global,
        scenario: &Scenario,
        report: &mut Report,
    ) -> Result<(), AllocError> {
        let mut dev = Memory::new(alloc);
        runs::carry_out(alloc, &mut dev, scenario.steps.as_slice(), report)
    }
}

fn main(rt: HostRuntime) -> ExitCode {
    run_files(&rt, &SealedPages)
}
