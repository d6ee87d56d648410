// The steps of a scenario.
ghost use Rattle.std.specs.Prelude.{◌≡◌, IfOk, IfSome, OnOk};
ghost use Rattle.blob_device.specs.MemoryMeaning.{memory_opened};
ghost use Rattle.meta_store.specs.Store.{shown, MayBeSynced};
ghost use Rattle.meta_store_tests.specs.Over.{IsOver, map_format};

use crate::judge::{crashes, entries, judged};
use crate::plain::text_of;
use crate::session::{Map, told};
use crate::words::error_text;
use blob_device::{CrashChoice, DevError, Device, Image, Memory, RError};
use meta_store::{Error, Side};
use scenario_text::Step;
use std::alloc::{AllocError, Global};
use value_codec::{Key, Key8};

/// The key that is this number.
fn key(n: u64) -> Key8 {
    Key8::from_bytes(&n.to_be_bytes()).unwrap()
}

/// The crash image that a step names.
fn choice(step: &Step) -> Option<CrashChoice> {
    match (step.argument(0), step.number(1)) {
        ("settled", _) => Some(CrashChoice::Settled),
        ("as-read", _) => Some(CrashChoice::AsRead),
        ("mixed", Some(bits)) => Some(CrashChoice::Mixed(bits)),
        _ => None,
    }
}

/// These bytes with the last of the step's words at the places from its third to its fourth.
fn damaged(alloc: Global, bytes: &[u8], step: &Step) -> Result<Option<Vec<u8>>, AllocError> {
    let byte = step.bytes(alloc, 4)?;
    let (Some(from), Some(to), Some(byte)) = (step.number(2), step.number(3), byte) else {
        return Ok(None);
    };
    let byte = byte.first().copied().unwrap_or(0);
    let mut turned = Vec::new(alloc);
    for (at, old) in bytes.iter().enumerate() {
        let hit = from <= at as u64 && (at as u64) < to;
        turned.push(if hit { byte } else { *old })?;
    }
    Ok(Some(turned))
}

/// The image that the device begins anew with, where the step is one that says so.
pub fn image_after(alloc: Global, dev: &Memory, step: &Step) -> Result<Option<Image>, DevError> {
    let mut image = dev.image(alloc)?;
    let partition = step.argument(0);
    let name = step.argument(1).as_bytes();
    let bytes = match step.word() {
        "crash" => {
            return match choice(step) {
                Some(choice) => Ok(Some(dev.pick_crash(alloc, choice)?)),
                None => Ok(None),
            };
        }
        "blob" => step.bytes(alloc, 2)?,
        "damage" => damaged(alloc, image.blob(partition, name).unwrap_or(b""), step)?,
        _ => None,
    };
    match bytes {
        Some(bytes) => {
            image.set_blob(partition, name, &bytes)?;
            Ok(Some(image))
        }
        None => Ok(None),
    }
}

/// What a step that only asks the device is told.
pub fn asked(alloc: Global, dev: &Memory, step: &Step) -> Result<Option<String>, DevError> {
    let said = match step.word() {
        "calls" => format!(in alloc; "{}", dev.calls())?,
        "faults" => format!(in alloc; "{}", dev.faults())?,
        "bytes" => bytes_of(alloc, &dev.image(alloc)?, step)?,
        "kept" => judged(alloc, &dev.image(alloc)?)?,
        "crashes" => crashes(alloc, dev)?,
        "errors" => errors(alloc)?,
        _ => return Ok(None),
    };
    Ok(Some(said))
}

/// The bytes of a blob in hexadecimal.
fn bytes_of(alloc: Global, image: &Image, step: &Step) -> Result<String, AllocError> {
    let Some(bytes) = image.blob(step.argument(0), step.argument(1).as_bytes()) else {
        return String::from_str(alloc, "absent");
    };
    let mut text = String::new(alloc);
    for byte in bytes {
        write!(&mut text, "{byte:02x}")?;
    }
    if text.is_empty() {
        text.push('-')?;
    }
    Ok(text)
}

/// The words for the errors, and what errors of the device become.
fn errors(alloc: Global) -> Result<String, AllocError> {
    let mut text = String::new(alloc);
    for error in [
        Error::from(DevError::Fault),
        Error::from(RError::Fault),
        Error::Corruption(Side::Left),
        Error::Corruption(Side::Right),
        Error::Full,
        Error::Mem,
        Error::from(DevError::Mem),
        Error::from(RError::Mem),
    ] {
        let between = if text.is_empty() { "" } else { ", " };
        let words = error_text(alloc, error)?;
        write!(&mut text, "{between}{}", words.as_str())?;
    }
    Ok(text)
}

/// Whether the step says which calls fail; then they do.
pub fn plan(dev: &mut Memory, step: &Step) -> Result<bool, DevError>
    ensures { memory_opened dev.new ≡ memory_opened dev.old }
{
    match (step.word(), step.number(0)) {
        ("fail", Some(nth)) => dev.fail_at(nth)?,
        ("fuse", Some(nth)) => dev.fuse_at(nth),
        _ => return Ok(false),
    }
    Ok(true)
}

/// Carries out a step that changes or reads the map in memory.
pub fn stage(alloc: Global, map: Map, step: &Step) -> Result<(Map, String), DevError>
    requires { MayBeSynced map_format (shown map).entries }
    ensures storable { IfOk result (λ r. MayBeSynced map_format (shown r.0).entries) }
    ensures partition { IfOk result (λ r. (shown r.0).partition ≡ (shown map).partition) }
{
    match (step.word(), step.number(0), step.number(1)) {
        ("put", Some(at), Some(value)) => put(alloc, map, at, value),
        ("change", Some(at), Some(value)) => changed(alloc, map, &key(at), value),
        ("keep-below", Some(bound), _) => kept(alloc, map, bound),
        ("set-floor", Some(floor), _) => floored(alloc, map, floor),
        _ => {
            let said = read(alloc, &map, step)?;
            Ok((map, said))
        }
    }
}

/// Carries out a step that reads the map.
fn read(alloc: Global, map: &Map, step: &Step) -> Result<String, DevError> {
    let said = match (step.word(), step.number(0)) {
        ("get", Some(at)) => match map.get(&key(at)) {
            Some(value) => format!(in alloc; "{value}")?,
            None => String::from_str(alloc, "none")?,
        },
        ("floor", _) => format!(in alloc; "{}", map.floor())?,
        ("entries", _) => text_of(alloc, &entries(alloc, map)?)?,
        _ => String::from_str(alloc, "refused: no such command")?,
    };
    Ok(said)
}

/// The map with this value put.
fn put(alloc: Global, map: Map, at: u64, value: u64) -> Result<(Map, String), DevError>
    requires { MayBeSynced map_format (shown map).entries }
    ensures storable { IfOk result (λ r. MayBeSynced map_format (shown r.0).entries) }
    ensures partition { IfOk result (λ r. (shown r.0).partition ≡ (shown map).partition) }
{
    let mut map = map;
    let done = map.put(key(at), value);
    let said = match done {
        Ok(()) => String::from_str(alloc, "ok")?,
        Err(e) => error_text(alloc, e)?,
    };
    Ok((map, said))
}

/// The map without the entries whose values are at or above the bound.
fn kept(alloc: Global, map: Map, bound: u64) -> Result<(Map, String), DevError>
    requires { MayBeSynced map_format (shown map).entries }
    ensures storable { IfOk result (λ r. MayBeSynced map_format (shown r.0).entries) }
    ensures partition { IfOk result (λ r. (shown r.0).partition ≡ (shown map).partition) }
{
    let mut map = map;
    map.retain(|_, value| *value < bound);
    Ok((map, String::from_str(alloc, "ok")?))
}

/// The map with this floor, where that does not fall.
fn floored(alloc: Global, map: Map, floor: u64) -> Result<(Map, String), DevError>
    requires { MayBeSynced map_format (shown map).entries }
    ensures storable { IfOk result (λ r. MayBeSynced map_format (shown r.0).entries) }
    ensures partition { IfOk result (λ r. (shown r.0).partition ≡ (shown map).partition) }
{
    if floor < map.floor() {
        return Ok((
            map,
            String::from_str(alloc, "refused: a floor does not fall")?,
        ));
    }
    let mut map = map;
    map.set_floor(floor);
    Ok((map, String::from_str(alloc, "ok")?))
}

/// The map with this value in place at the key, where it has the key.
fn changed(alloc: Global, map: Map, key: &Key8, value: u64) -> Result<(Map, String), DevError>
    requires { MayBeSynced map_format (shown map).entries }
    ensures storable { IfOk result (λ r. MayBeSynced map_format (shown r.0).entries) }
    ensures partition { IfOk result (λ r. (shown r.0).partition ≡ (shown map).partition) }
{
    let mut map = map;
    let said = match map.get_mut(key) {
        Some(place) => {
            *place = value;
            "ok"
        }
        None => "none",
    };
    Ok((map, String::from_str(alloc, said)?))
}

/// Puts a value, and makes that durable in the same call.
fn put_at_once(dev: &mut Memory, map: Map, at: u64, value: u64) -> Result<Map, Error>
    requires { IsOver map dev.old }
    ensures { IfOk result (λ m. IsOver m dev.new) }
{
    let map = map.put_sync(dev, key(at), value)?;
    Ok(map)
}

/// Makes what is staged durable.
fn sync(dev: &mut Memory, map: Map) -> Result<Map, Error>
    requires { IsOver map dev.old }
    ensures { IfOk result (λ m. IsOver m dev.new) }
{
    let map = map.sync(dev)?;
    Ok(map)
}

/// As that, with the handle waited for.
fn start(dev: &mut Memory, map: Map) -> Result<Map, Error>
    requires { IsOver map dev.old }
    ensures { IfOk result (λ m. IsOver m dev.new) }
{
    let (map, handle) = map.start_sync(dev)?;
    handle.wait();
    Ok(map)
}

/// Carries out a step that ends with the map on the device, or gives it up.
pub fn settle(
    alloc: Global,
    dev: &mut Memory,
    map: Map,
    step: &Step,
) -> Result<(Option<Map>, String), DevError>
    requires { IsOver map dev.old }
    ensures { IfOk result (λ r. IfSome r.0 (λ m. IsOver m dev.new)) }
{
    match (step.word(), step.number(0), step.number(1)) {
        ("sync", _, _) => told(alloc, sync(dev, map)),
        ("put-sync", Some(at), Some(value)) => told(alloc, put_at_once(dev, map, at, value)),
        ("start-sync", _, _) => told(alloc, start(dev, map)),
        ("destroy", _, _) => match map.destroy(dev) {
            Ok(()) => Ok((None, String::from_str(alloc, "ok")?)),
            Err(e) => told(alloc, Err(e)),
        },
        _ => Ok((None, String::from_str(alloc, "ok")?)),
    }
}
