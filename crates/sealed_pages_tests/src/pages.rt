// Commands over pages with seals.
ghost use Rattle.std.specs.Prelude.{◌≤◌, IfOk};
ghost use Rattle.blob_device.specs.MemoryMeaning.{memory_opened};
ghost use Rattle.sealed_pages.specs.Buffer.{key_of};
ghost use Rattle.sealed_pages.specs.Entries.{IsOpenAt};
ghost use Rattle.sealed_pages.specs.Shown.{shown};
ghost use Rattle.sealed_pages_tests.specs.Stores.{IsOpen};

use crate::said::{Said, Stop};
use crate::store::Store;
use crate::words::{number, page_size};
use blob_device::{Device, Memory, RError};
use scenario_text::Step;
use sealed_pages::{PageBlob, Pages};
use std::alloc::Global;
use value_codec::Sha256Seal;

/// Opens the blob and adopts it.
pub fn adopted(
    alloc: Global,
    dev: &mut Memory,
    pages: Pages,
    capacity: usize,
) -> Result<PageBlob<Sha256Seal>, RError>
    requires { 1 ≤ pages.page_size }
    ensures { IfOk result (λ r. IsOpenAt (memory_opened dev.new) (key_of (shown r)) r.end) }
{
    let size = dev.open_blob("p", b"x")?;
    PageBlob::adopt(alloc, dev, "p", b"x", size, capacity, pages)
}

/// Opens the pages as a step says.
pub fn open(alloc: Global, dev: &mut Memory, step: &Step) -> Result<(Store, Said), Stop>
    ensures { IfOk result (λ r. IsOpen (memory_opened dev.new) r.0) }
{
    let page_size = page_size(step)?;
    let capacity = number(step, 1)? as usize;
    let Ok(cache_pages) = u32::try_from(number(step, 2)?) else {
        return Err(Stop::Refused("this is no number of pages"));
    };
    let pages = Pages {
        page_size,
        cache_pages,
    };
    let blob = adopted(alloc, dev, pages, capacity)?;
    let size = blob.size();
    Ok((Store::Pages(blob), Said::Number(size)))
}

/// Opens the blob, and reads without a buffer over it.
pub fn read_range(alloc: Global, dev: &mut Memory, step: &Step) -> Result<Said, Stop> {
    let page_size = page_size(step)?;
    let from = number(step, 1)?;
    let mut buf = vec![in alloc; 0; number(step, 2)? as usize]?;
    dev.open_blob("p", b"x")?;
    PageBlob::<Sha256Seal>::read_range(alloc, dev, "p", b"x", page_size, from, &mut buf)?;
    Ok(Said::Bytes(buf))
}

/// Opens the blob, and reads its last bytes without a buffer over it. It says them, and behind them the size in eight bytes.
pub fn read_tail(alloc: Global, dev: &mut Memory, step: &Step) -> Result<Said, Stop> {
    let page_size = page_size(step)?;
    let mut buf = vec![in alloc; 0; number(step, 1)? as usize]?;
    dev.open_blob("p", b"x")?;
    let size = PageBlob::<Sha256Seal>::read_tail(alloc, dev, "p", b"x", page_size, &mut buf)?;
    buf.extend_from_slice(&size.to_be_bytes())?;
    Ok(Said::Bytes(buf))
}

/// Makes the change that this word names.
pub fn change(
    blob: PageBlob<Sha256Seal>,
    dev: &mut Memory,
    word: &str,
    n: u64,
    more: &[u8],
) -> Result<(Store, Said), Stop>
    requires { IsOpenAt (memory_opened dev.old) (key_of (shown blob)) blob.end }
    ensures { IfOk result (λ r. IsOpen (memory_opened dev.new) r.0) }
{
    match word {
        "append" => {
            let (blob, at) = blob.append(dev, more)?;
            Ok((Store::Pages(blob), Said::Number(at)))
        }
        "sync" => Ok((Store::Pages(blob.sync(dev)?), Said::Done)),
        "cut" => Ok((Store::Pages(blob.truncate(dev, n)?), Said::Done)),
        "replay" => {
            let (blob, reader) = blob.replay(dev, n as usize)?;
            Ok((Store::Reading(blob, reader), Said::Done))
        }
        _ => Err(Stop::Refused("no such command")),
    }
}

/// Asks the pages.
pub fn ask(
    alloc: Global,
    blob: &mut PageBlob<Sha256Seal>,
    dev: &mut Memory,
    step: &Step,
) -> Result<Said, Stop>
    requires { IsOpenAt (memory_opened dev.old) (key_of (shown blob.old)) blob.old.end }
    ensures { IsOpenAt (memory_opened dev.new) (key_of (shown blob.new)) blob.new.end }
{
    let from = number(step, 0)?;
    let n = number(step, 1)? as usize;
    match step.word() {
        "size" => Ok(Said::Number(blob.size())),
        "needs-sync" => Ok(Said::Truth(blob.needs_sync())),
        "has-room" => Ok(Said::Truth(blob.has_room(from as usize))),
        "prefix" => Ok(Said::Number(blob.recoverable_prefix_len(dev, from, n)?)),
        "prefix-below" => {
            let buffer = number(step, 2)? as usize;
            let len = blob.recoverable_prefix_len_at_most(dev, from, n as u64, buffer)?;
            Ok(Said::Number(len))
        }
        "read-held" => read_held(alloc, blob, from, n),
        _ => {
            let mut buf = vec![in alloc; 0; n]?;
            blob.read_at(dev, from, &mut buf)?;
            Ok(Said::Bytes(buf))
        }
    }
}

// Takes bytes that are held. Where they are not, the buffer stays as it was.
fn read_held(
    alloc: Global,
    blob: &PageBlob<Sha256Seal>,
    from: u64,
    n: usize,
) -> Result<Said, Stop> {
    let mut buf = vec![in alloc; 0; n]?;
    if blob.try_read_held(from, &mut buf) {
        return Ok(Said::Bytes(buf));
    }
    for byte in &buf {
        if *byte != 0 {
            return Err(Stop::Refused("bytes were given"));
        }
    }
    Ok(Said::Truth(false))
}
