// What a cache gives for indices, beside plain readings of them.
ghost use Rattle.cache_tests.specs.Stores.{IsUsable};

use crate::caches::Bytes;
use crate::exact::differing;
use blob_device::Memory;
use cache_store::plain::{Found, kept};
use scenario_runs::{Part, Said, Told, number, spelled};
use scenario_text::Step;
use segments::journal::Error;
use std::alloc::Global;
use value_codec::Sha256Seal;

/// How many runs of indices are counted at most.
const MOST: u64 = 64;

/// Reads values.
pub fn read(
    alloc: Global,
    cache: &Bytes,
    dev: &mut Memory,
    step: &Step,
    told: &Told,
) -> Result<Said, Error>
    requires { IsUsable dev.old cache.now }
    ensures { IsUsable dev.new cache.now }
{
    let index = number(step, 0);
    match step.word() {
        "get" => match cache.get(dev, index)? {
            Some(value) => Ok(Said::Bytes(Some(spelled(alloc, value.as_bytes())?))),
            None => Ok(Said::Bytes(None)),
        },
        "all" => all(alloc, cache, dev, index),
        "exact" => exact(alloc, cache, dev, index),
        _ => agrees(alloc, cache, dev, step, told),
    }
}

// Each index below this one that is held, with its value.
fn all(alloc: Global, cache: &Bytes, dev: &mut Memory, end: u64) -> Result<Said, Error>
    requires { IsUsable dev.old cache.now }
    ensures { IsUsable dev.new cache.now }
{
    let mut row = Vec::new(alloc);
    'indices: for index in 0..end {
        if let Some(value) = cache.get(dev, index)? {
            row.push(Part::Entry(index, spelled(alloc, value.as_bytes())?))?;
        }
    }
    Ok(Said::Row(row))
}

// Whether what the cache says of indices is what it is of those that have a value, all of which are
// below this one.
fn exact(alloc: Global, cache: &Bytes, dev: &mut Memory, end: u64) -> Result<Said, Error>
    requires { IsUsable dev.old cache.now }
    ensures { IsUsable dev.new cache.now }
{
    let mut held = Vec::new(alloc);
    'indices: for index in 0..end {
        if cache.get(dev, index)?.is_some() {
            held.push(index)?;
        }
    }
    match differing(cache, held.as_slice(), end)? {
        Some(what) => Ok(Said::Text(what)),
        None => Ok(Said::Done),
    }
}

// Whether a cache holds just what a plain reading of these sections' blobs finds, each with its
// value.
fn agrees(
    alloc: Global,
    cache: &Bytes,
    dev: &mut Memory,
    step: &Step,
    told: &Told,
) -> Result<Said, Error>
    requires { IsUsable dev.old cache.now }
    ensures { IsUsable dev.new cache.now }
{
    let image = dev.image(alloc)?;
    let page = u16::try_from(number(step, 1)).unwrap_or(16);
    let mut count = 0_u64;
    'sections: for section in told.numbers.as_slice().get(1..).unwrap_or(&[]) {
        let blob = image
            .blob(step.argument(0), section.to_be_bytes().as_slice())
            .unwrap_or(&[]);
        let found = kept::<Sha256Seal>(alloc, page, blob)?;
        if !has_all(cache, dev, found.as_slice())? {
            return Ok(Said::Text("a value differs, which is WRONG"));
        }
        count = count.saturating_add(found.len() as u64);
    }
    if count == held(cache) {
        return Ok(Said::Done);
    }
    Ok(Said::Text("the indices differ, which is WRONG"))
}

// Whether a cache has these entries.
fn has_all(cache: &Bytes, dev: &mut Memory, entries: &[Found]) -> Result<bool, Error>
    requires { IsUsable dev.old cache.now }
    ensures { IsUsable dev.new cache.now }
{
    'entries: for found in entries {
        match cache.get(dev, found.index())? {
            Some(value) if value.as_bytes() == found.value() => {}
            _ => return Ok(false),
        }
    }
    Ok(true)
}

// How many indices a cache holds, as its runs tell them.
fn held(cache: &Bytes) -> u64 {
    let mut count = 0_u64;
    let mut next = cache.first();
    'runs: for _ in 0..MOST {
        let Some(start) = next else {
            return count;
        };
        let (end, after) = cache.next_gap(start);
        let run = end.unwrap_or(start).saturating_sub(start);
        count = run.saturating_add(1).saturating_add(count);
        next = after;
    }
    count
}
