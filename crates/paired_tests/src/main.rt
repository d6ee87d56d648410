//! `paired_tests` carries out the scenarios of `data/` over pairs of records and values, and over
//! globs, on a device in memory.
//!
//! A scenario begins with an empty device, and nothing open. Numbers are decimal, and one that is
//! left out is 0; bytes are hexadecimal, and `-` is no byte. A blob has a partition and a name; a
//! name that is a number stands for a section's. Records stand in `i`, values in `v`, and markers
//! in `m left` and `m right`.
//!
//! The device, after each of which nothing is open: `image` (without blobs), `blob PARTITION NAME
//! BYTES`, `no-blob PARTITION NAME`, `damage PARTITION NAME FROM TO BYTE`, `resize PARTITION NAME
//! LENGTH`, `crash settled`, `crash as-read` and `crash mixed BITS`. Call N from now on fails
//! alone by `fail N`, and with all behind it by `fuse N`.
//!
//! What the device says: `faults`; `calls`, made since they were last asked for; `calls-at-most
//! N`; `note-calls`, and then `calls-as-noted MORE FEWER`; `shows PARTITION NAME`, `there
//! PARTITION NAME` and `length PARTITION NAME` of a blob; `remember`, and then `same`. `kept PAGE`
//! says what the plain program finds in the image of a pair: of each section its records, each the
//! last byte of its number and its value, and `!` behind a marker that is not true. `frames
//! SECTION` says the values of four bytes that stand there in sound frames. `settled-shows`,
//! `settled-there` and `settled-kept` look at what is settled.
//!
//! Pairs: `open PAGE BUFFER` says how many records it gave; `begin PAGE BUFFER` begins that, for
//! `next COUNT` and then `finish-tracked`. `append SECTION NUMBER VALUE`, `sync SECTION ..`,
//! `sync-all`, `sync-tracked SECTION .. / ACTIVE ..`, `start-sync`, `start-sync-tracked`, `prune
//! SECTION`, `destroy`, `replay SECTION POSITION`, then `next` and `finish`. It is asked by `get
//! SECTION POSITION`, `last SECTION`, `frame SECTION OFFSET SIZE`, `value-size SECTION`, `size
//! SECTION`, `pruned SECTION`, `oldest` and `newest`.
//!
//! Globs: `open-glob BUFFER PARTITION`, then `append SECTION VALUE` and the same, with `remove
//! SECTION`, `sections` and `ceiling`. `recover BUFFER PARTITION CEILING` opens one to be checked
//! by `verify SECTION OFFSET SIZE` and cut by `cut SECTION SIZE`, `cut-each SECTION:SIZE ..` and
//! `truncate SECTION SIZE`, until it is `recovered`. `valid BUFFER PARTITION` asks of a place. A
//! value `zeros-N` is so many zeros. `close` closes, and so does a change that is refused.
//!
//! A whole run: `each-call-stops LEAST MOST` makes the steps behind it again and again, on what
//! the device has then, with all calls of the device failing from call 0 on, from call 1 on, and
//! so on until no call is missed; so many runs were stopped. `each-call-fails` lets one call fail
//! alone, and `each-call-fails-twice` makes the run again on all that crashes leave of stopped
//! ones, and once more on what crashes leave of those. After each run each crash must leave what
//! the last step `leaves PAGE KEPT ..` or `leaves-frames SECTION FRAMES ..` names.
#![tactic(auto)]

mod content;
mod disk;
mod globs;
mod notes;
mod pairs;
mod plainly;
mod runs;
mod said;
mod store;
mod walks;
mod words;

use blob_device::{Image, Memory};
use disk::Bench;
use scenario_text::{Driver, Report, Scenario, run_files};
use std::alloc::{AllocError, Global};
use std::process::ExitCode;

/// Carries out scenarios over pairs and globs.
struct PairDriver;

impl Driver for PairDriver {
    fn carry_out(
        &self,
        alloc: Global,
        scenario: &Scenario,
        report: &mut Report,
    ) -> Result<(), AllocError> {
        let mut bench = Bench {
            alloc,
            image: Image::new(alloc),
            base: 0,
            noted: 0,
            left: Vec::new(alloc),
            is_again: false,
        };
        let mut dev = Memory::new(alloc);
        runs::carry_out(&mut bench, &mut dev, scenario.steps.as_slice(), report)
    }
}

fn main(rt: HostRuntime) -> ExitCode {
    run_files(&rt, &PairDriver)
}
