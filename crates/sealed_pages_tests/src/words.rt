// The words of a step.
ghost use Rattle.std.specs.Prelude.{◌≤◌, IfOk};

use crate::said::Stop;
use blob_device::CrashChoice;
use scenario_text::Step;
use std::alloc::Global;

/// What kind of command a word names.
#[derive(Clone, Copy)]
pub enum Family {
    /// It looks at the device.
    Look,
    /// It makes another device, or sets when it fails.
    Remake,
    /// It opens, or reads what is not open.
    Open,
    /// It asks the reader.
    Reader,
    /// It asks what is open.
    Ask,
    /// It changes what is open.
    Change,
    /// It begins a whole run.
    Run,
    /// It names what a crash may leave.
    Leaves,
}

pub fn family_of(word: &str) -> Family {
    match word {
        "calls" | "faults" | "shows" | "kept" => Family::Look,
        "blob" | "damage" | "crash" | "fail" | "fuse" => Family::Remake,
        "open" | "open-plain" | "read-range" | "read-tail" => Family::Open,
        "ensure" | "hand" | "remaining" | "advance" | "seek" | "blob-size" => Family::Reader,
        "size" | "needs-sync" | "has-room" | "read" | "read-held" | "prefix" | "prefix-below" =>
            Family::Ask,
        "each-call-stops" | "each-call-fails" => Family::Run,
        "leaves" | "leaves-bytes" => Family::Leaves,
        _ => Family::Change,
    }
}

/// The number at this place behind the first word; 0 where no word stands there.
pub fn number(step: &Step, at: usize) -> Result<u64, Stop> {
    if step.argument(at).is_empty() {
        return Ok(0);
    }
    step.number(at).ok_or(Stop::Refused("this is no number"))
}

/// The bytes at this place behind the first word.
pub fn bytes(alloc: Global, step: &Step, at: usize) -> Result<Vec<u8>, Stop> {
    match step.bytes(alloc, at)? {
        Some(bytes) => Ok(bytes),
        None => Err(Stop::Refused("these are no bytes")),
    }
}

/// The number and the bytes of a change: `write` has both, `append` has bytes, and any other change a number.
pub fn change_of(alloc: Global, step: &Step) -> Result<(u64, Vec<u8>), Stop> {
    match step.word() {
        "append" => Ok((0, bytes(alloc, step, 0)?)),
        "write" => Ok((number(step, 0)?, bytes(alloc, step, 1)?)),
        _ => Ok((number(step, 0)?, Vec::new(alloc))),
    }
}

/// The size of a page, behind the first word.
pub fn page_size(step: &Step) -> Result<u16, Stop>
    ensures { IfOk result (λ n. 1 ≤ n) }
{
    match u16::try_from(number(step, 0)?) {
        Ok(size) if size >= 1 => Ok(size),
        _ => Err(Stop::Refused("this is no page size")),
    }
}

/// The choice of a crash, behind the first word.
pub fn choice(step: &Step) -> Result<CrashChoice, Stop> {
    match step.argument(0) {
        "settled" => Ok(CrashChoice::Settled),
        "as-read" => Ok(CrashChoice::AsRead),
        "mixed" => Ok(CrashChoice::Mixed(number(step, 1)?)),
        _ => Err(Stop::Refused("this is no crash")),
    }
}
