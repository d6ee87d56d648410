// A cache that is open, and the commands over it.
ghost use Rattle.std.specs.Prelude.{IfOk};
ghost use Rattle.cache_tests.specs.Stores.{IsOpen};

use crate::reading::read;
use crate::store::{Store, or_closed};
use blob_device::Memory;
use cache_store::{Cache, Config};
use scenario_runs::{Part, Said, Told, most, number, pages, value};
use scenario_text::Step;
use sealed_pages::Pages;
use segments::journal::Error;
use std::alloc::Global;
use value_codec::{ByteValue, Codec, Sha256Seal};

/// What is said of a value that the codec refuses.
const NO_VALUE: &str = "no value";

/// A cache of bytes.
pub type Bytes = Cache<ByteValue, Sha256Seal>;

/// Opens a cache.
pub fn open(alloc: Global, dev: &mut Memory, step: &Step) -> Result<(Store, Said), Error>
    ensures { IfOk result (λ r. IsOpen dev.new r.0) }
{
    let most = most(step, 4);
    let cfg = Config {
        partition: String::from_str(alloc, step.argument(0))?,
        codec_config: most,
        items_per_blob: number(step, 3),
        write_buffer: number(step, 2) as usize,
        replay_buffer: step.number(5).unwrap_or(64) as usize,
        pages: pages(step, 1),
    };
    if !cfg.is_valid() {
        return Ok((Store::Closed, Said::Text("not valid")));
    }
    let cache = Cache::init(alloc, dev, &cfg)?;
    Ok((Store::Values(cache, most), Said::Done))
}

/// Whether a cache may be kept so, where `-` is a partition without a name.
pub fn is_valid(alloc: Global, step: &Step) -> Result<Said, Error> {
    let partition = match step.argument(0) {
        "-" => "",
        name => name,
    };
    let cfg = Config {
        partition: String::from_str(alloc, partition)?,
        codec_config: 0_u32,
        items_per_blob: number(step, 3),
        write_buffer: number(step, 2) as usize,
        replay_buffer: number(step, 4) as usize,
        pages: Pages {
            page_size: u16::try_from(number(step, 1)).unwrap_or(0),
            cache_pages: 0,
        },
    };
    Ok(Said::Truth(cfg.is_valid()))
}

/// Carries out a command over a cache of values that have at most so many bytes.
pub fn obey(
    alloc: Global,
    held: (Bytes, u32),
    dev: &mut Memory,
    step: &Step,
    told: &Told,
) -> (Store, Result<Said, Error>)
    requires { IsOpen dev.old (Store.Values held.0 held.1) }
    ensures { IsOpen dev.new result.0 }
{
    let (cache, most) = held;
    match step.word() {
        "put" | "put-sync" => or_closed(put(alloc, cache, most, dev, step), dev),
        "sync" | "prune" | "destroy" => or_closed(change(cache, most, dev, step), dev),
        "get" | "all" | "exact" | "agrees" => {
            let answer = read(alloc, &cache, dev, step, told);
            (Store::Values(cache, most), answer)
        }
        _ => {
            let answer = ask(alloc, &cache, step);
            (Store::Values(cache, most), answer)
        }
    }
}

// Puts a value, and settles all that was put where the step says so.
fn put(
    alloc: Global,
    cache: Bytes,
    most: u32,
    dev: &mut Memory,
    step: &Step,
) -> Result<(Store, Said), Error>
    requires { IsOpen dev.old (Store.Values cache most) }
    ensures { IfOk result (λ r. IsOpen dev.new r.0) }
{
    let index = number(step, 0);
    let value = value(alloc, step, 1)?;
    if !value.accepts(most) {
        return Ok((Store::Values(cache, most), Said::Text(NO_VALUE)));
    }
    match step.word() {
        "put" => {
            let cache = cache.put(dev, index, value)?;
            Ok((Store::Values(cache, most), Said::Done))
        }
        _ => {
            let cache = cache.put_sync(dev, index, value)?;
            Ok((Store::Values(cache, most), Said::Done))
        }
    }
}

// Settles or removes what was put.
fn change(cache: Bytes, most: u32, dev: &mut Memory, step: &Step) -> Result<(Store, Said), Error>
    requires { IsOpen dev.old (Store.Values cache most) }
    ensures { IfOk result (λ r. IsOpen dev.new r.0) }
{
    match step.word() {
        "sync" => {
            let cache = cache.sync(dev)?;
            Ok((Store::Values(cache, most), Said::Done))
        }
        "prune" => {
            let cache = cache.prune(dev, number(step, 0))?;
            Ok((Store::Values(cache, most), Said::Done))
        }
        _ => {
            cache.destroy(dev)?;
            Ok((Store::Closed, Said::Done))
        }
    }
}

// Asks a cache without its device.
fn ask(alloc: Global, cache: &Bytes, step: &Step) -> Result<Said, Error> {
    let index = number(step, 0);
    let mut row = Vec::new(alloc);
    match step.word() {
        "has" => return Ok(Said::Truth(cache.has(index))),
        "first" => return Ok(Said::Maybe(cache.first())),
        "gap" => {
            let (end, next) = cache.next_gap(index);
            row.push(Part::Maybe(end))?;
            row.push(Part::Maybe(next))?;
        }
        "missing" => {
            let numbers = cache.missing_items(index, number(step, 1).max(1) as usize)?;
            for missing in numbers.as_slice() {
                row.push(Part::Number(*missing))?;
            }
        }
        _ => return Ok(Said::Text("no such command")),
    }
    Ok(Said::Row(row))
}
