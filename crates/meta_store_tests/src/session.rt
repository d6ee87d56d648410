// A run of steps over a device in memory, with a map that is open or not.
ghost use Rattle.std.specs.Prelude.{◌≡◌, Ok, IfOk, IfSome};
ghost use Rattle.meta_store_tests.specs.Over.{IsOver};

use crate::steps::{asked, image_after, plan, settle, stage};
use crate::words::error_text;
use blob_device::{DevError, Memory};
use meta_store::{Config, Error, Metadata};
use scenario_text::{Report, Step};
use std::alloc::Global;
use value_codec::{Key8, Sha256Seal};

/// A map of keys and numbers of eight bytes.
pub type Map = Metadata<Key8, u64, Sha256Seal>;

/// Opens the map in the partition `p`.
pub fn opened(alloc: Global, dev: &mut Memory) -> Result<Map, Error>
    ensures { IfOk result (λ m. IsOver m dev.new) }
{
    let config = Config {
        partition: String::from_str(alloc, "p")?,
        codec_config: (),
    };
    let map = Metadata::init(alloc, dev, &config)?;
    Ok(map)
}

/// Carries out the steps over this device. With `ends_at_fault` a run ends where the device fails.
pub fn run(
    alloc: Global,
    dev: Memory,
    steps: &[Step],
    report: &mut Report,
    ends_at_fault: bool,
) -> Result<Memory, DevError> {
    let mut dev = dev;
    let mut map = None;
    for step in steps {
        let (next, said) = carried_out(alloc, &mut dev, map, step)?;
        map = next;
        if ends_at_fault && dev.faults() > 0 {
            if said.as_str() != "runtime fault" {
                report.fail(step.line, "a fault of the device is not told")?;
            }
            return Ok(dev);
        }
        report.compare(step, said.as_str())?;
    }
    Ok(dev)
}

/// Carries out one step. The answer is the map, where it is open then, and what the step says.
fn carried_out(
    alloc: Global,
    dev: &mut Memory,
    map: Option<Map>,
    step: &Step,
) -> Result<(Option<Map>, String), DevError>
    requires { IfSome map (λ m. IsOver m dev.old) }
    ensures { IfOk result (λ r. IfSome r.0 (λ m. IsOver m dev.new)) }
{
    if let Some(said) = asked(alloc, dev, step)? {
        return Ok((map, said));
    }
    if let Some(image) = image_after(alloc, dev, step)? {
        *dev = Memory::from_image(alloc, image)?;
        return Ok((None, String::from_str(alloc, "ok")?));
    }
    if plan(dev, step)? {
        return Ok((map, String::from_str(alloc, "ok")?));
    }
    on_map(alloc, dev, map, step)
}

/// Carries out a step of the map.
fn on_map(
    alloc: Global,
    dev: &mut Memory,
    map: Option<Map>,
    step: &Step,
) -> Result<(Option<Map>, String), DevError>
    requires { IfSome map (λ m. IsOver m dev.old) }
    ensures { IfOk result (λ r. IfSome r.0 (λ m. IsOver m dev.new)) }
{
    match (step.word(), map) {
        ("open", _) => told(alloc, opened(alloc, dev)),
        (_, None) => Ok((None, String::from_str(alloc, "refused: not open")?)),
        ("sync" | "put-sync" | "start-sync" | "destroy" | "close", Some(map)) => {
            settle(alloc, dev, map, step)
        }
        (_, Some(map)) => {
            let (map, said) = stage(alloc, map, step)?;
            Ok((Some(map), said))
        }
    }
}

/// The map, where the call gave one, and what the call says.
pub fn told(alloc: Global, done: Result<Map, Error>) -> Result<(Option<Map>, String), DevError>
    ensures { IfOk result (λ r. IfSome r.0 (λ m. done ≡ Ok m)) }
{
    match done {
        Ok(map) => Ok((Some(map), String::from_str(alloc, "ok")?)),
        Err(e) => Ok((None, error_text(alloc, e)?)),
    }
}
