// Commands over bytes without seals.
ghost use Rattle.std.specs.Prelude.{IfOk};
ghost use Rattle.blob_device.specs.MemoryMeaning.{memory_opened};
ghost use Rattle.sealed_pages.specs.Entries.{IsOpenAt};
ghost use Rattle.sealed_pages.specs.unsealed.Writing.{shown, blob_key};
ghost use Rattle.sealed_pages_tests.specs.Stores.{IsOpen};

use crate::said::{Said, Stop};
use crate::store::Store;
use crate::words::number;
use blob_device::{Device, Memory};
use scenario_text::Step;
use sealed_pages::WriteBlob;
use std::alloc::Global;

/// Opens the blob and adopts it.
pub fn open(alloc: Global, dev: &mut Memory, step: &Step) -> Result<(Store, Said), Stop>
    ensures { IfOk result (λ r. IsOpen (memory_opened dev.new) r.0) }
{
    let capacity = number(step, 0)? as usize;
    let size = dev.open_blob("p", b"w")?;
    let blob = WriteBlob::adopt(alloc, "p", b"w", size, capacity)?;
    let size = blob.size();
    Ok((Store::Unsealed(blob), Said::Number(size)))
}

/// Makes the change that this word names.
pub fn change(
    blob: WriteBlob,
    dev: &mut Memory,
    word: &str,
    n: u64,
    more: &[u8],
) -> Result<(Store, Said), Stop>
    requires { IsOpenAt (memory_opened dev.old) (blob_key (shown blob)) blob.end }
    ensures { IfOk result (λ r. IsOpen (memory_opened dev.new) r.0) }
{
    match word {
        "append" => {
            let (blob, at) = blob.append(dev, more)?;
            Ok((Store::Unsealed(blob), Said::Number(at)))
        }
        "write" => Ok((Store::Unsealed(blob.write_at(dev, n, more)?), Said::Done)),
        "flush" => Ok((Store::Unsealed(blob.flush(dev)?), Said::Done)),
        "sync" => Ok((Store::Unsealed(blob.sync(dev)?), Said::Done)),
        "cut" => Ok((Store::Unsealed(blob.truncate(dev, n)?), Said::Done)),
        _ => Err(Stop::Refused("no such command")),
    }
}

/// Asks the bytes.
pub fn ask(alloc: Global, blob: &WriteBlob, dev: &mut Memory, step: &Step) -> Result<Said, Stop>
    requires { IsOpenAt (memory_opened dev.old) (blob_key (shown blob.now)) blob.now.end }
    ensures { IsOpenAt (memory_opened dev.new) (blob_key (shown blob.now)) blob.now.end }
{
    let from = number(step, 0)?;
    let n = number(step, 1)? as usize;
    match step.word() {
        "size" => Ok(Said::Number(blob.size())),
        "needs-sync" => Ok(Said::Truth(blob.needs_sync())),
        "read" => {
            let mut buf = vec![in alloc; 9; n]?;
            blob.read_at(dev, from, &mut buf)?;
            Ok(Said::Bytes(buf))
        }
        _ => Err(Stop::Refused("no such command")),
    }
}
