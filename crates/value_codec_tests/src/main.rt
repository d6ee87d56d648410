//! The tests of `value_codec`: scenarios in the files of `data`, whose steps each call the library.
//!
//! Numbers are decimal. Bytes are hexadecimal, and `-` is no byte. A call that is refused says the
//! words for its error.
//!
//! | Command | What it says |
//! |---|---|
//! | `write-varint32 BYTES N`, `write-varint64 BYTES N` | the bytes, and behind them the number's varint |
//! | `read-varint32 BYTES`, `read-varint64 BYTES` | the number at the start, and how many bytes it takes |
//! | `u64 N`, `i32 N`, `bytes MOST BYTES` | the value's spelling, written behind the byte `ff`, its size, and `again` where it was read; or `not accepted` |
//! | `read-u64 BYTES`, `read-i32 BYTES`, `read-bytes MOST BYTES` | the value that all the bytes spell |
//! | `value BYTES` | the bytes of a value of bytes |
//! | `clone BYTES` | whether a value of bytes and its clone are `equal` or `different` |
//! | `compare-values BYTES BYTES`, `compare-names BYTES BYTES` | whether both are |
//! | `key8 BYTES`, `key32 BYTES` | the bytes of the key, or `none` where they make no key |
//! | `order8 BYTES BYTES`, `order32 BYTES BYTES` | which of `<`, `==` and `!=` hold of two keys |
//! | `size TYPE` | how many bytes each value of `u64`, `i32`, `key8` or `key32` takes |
//! | `seal BYTES`, `seal2 BYTES BYTES`, `hash BYTES` | eight hexadecimal digits |
//! | `name BYTES`, `name-bytes BYTES` | the text of a name, and its bytes |
//! | `error VARIANT [TAG]` | the text by which the library prints an error |
#![tactic(auto)]

mod keys;
mod names;
mod said;
mod seals;
mod values;
mod varints;
mod words;

use said::{Said, Stop, text_of};
use scenario_text::{Driver, Report, Scenario, Step, run_files};
use std::alloc::{AllocError, Global};
use std::process::ExitCode;
use value_codec::{Key8, Key32, Sha256Hash, Sha256Seal};

/// Carries out scenarios over the calls of `value_codec`.
struct ValueCodec;

impl Driver for ValueCodec {
    fn carry_out(
        &self,
        alloc: Global,
        scenario: &Scenario,
        report: &mut Report,
    ) -> Result<(), AllocError> {
        for step in &scenario.steps {
            let text = text_of(alloc, &carried_out(alloc, step))?;
            report.compare(step, text.as_str())?;
        }
        Ok(())
    }
}

/// Carries out a step.
fn carried_out(alloc: Global, step: &Step) -> Result<Said, Stop> {
    match step.word() {
        "write-varint32" | "write-varint64" => varints::written(alloc, step),
        "read-varint32" | "read-varint64" => varints::read(alloc, step),
        "u64" | "i32" | "bytes" => values::written(alloc, step),
        "read-u64" | "read-i32" | "read-bytes" => values::read(alloc, step),
        "value" | "clone" | "compare-values" => values::value(alloc, step),
        "key8" => keys::key::<Key8>(alloc, step),
        "key32" => keys::key::<Key32>(alloc, step),
        "order8" => keys::order::<Key8>(alloc, step),
        "order32" => keys::order::<Key32>(alloc, step),
        "size" => values::size(step),
        "seal" | "seal2" => seals::seal::<Sha256Seal>(alloc, step),
        "hash" => seals::hash::<Sha256Hash>(alloc, step),
        "name" | "name-bytes" | "compare-names" => names::name(alloc, step),
        "error" => names::error(alloc, step),
        _ => Err(Stop::Refused("no such command")),
    }
}

fn main(rt: HostRuntime) -> ExitCode {
    run_files(&rt, &ValueCodec)
}
