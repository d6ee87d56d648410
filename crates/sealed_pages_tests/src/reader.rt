// Commands of a reader over pages.
ghost use Rattle.std.specs.Prelude.{◌≡◌};
ghost use Rattle.blob_device.specs.MemoryMeaning.{memory_opened};
ghost use Rattle.sealed_pages.specs.Entries.{IsOpenAt};
ghost use Rattle.sealed_pages.specs.Readers.{reading};

use crate::said::{Said, Stop};
use crate::words::number;
use blob_device::Memory;
use scenario_text::Step;
use sealed_pages::PageReplay;
use std::alloc::Global;
use value_codec::Sha256Seal;

/// Asks the reader, or moves it.
pub fn read_on(
    alloc: Global,
    reader: &mut PageReplay<Sha256Seal>,
    dev: &mut Memory,
    step: &Step,
) -> Result<Said, Stop>
    requires { IsOpenAt (memory_opened dev.old) (reading reader.old).key (reading reader.old).end }
    ensures open { IsOpenAt (memory_opened dev.new) (reading reader.new).key (reading reader.new).end }
    ensures key { (reading reader.new).key ≡ (reading reader.old).key }
    ensures end { (reading reader.new).end ≡ (reading reader.old).end }
{
    let n = number(step, 0)?;
    match step.word() {
        "ensure" => Ok(Said::Truth(reader.ensure(dev, n as usize)?)),
        "seek" => {
            reader.seek_to(n)?;
            Ok(Said::Done)
        }
        "advance" => {
            if n as usize > reader.remaining() {
                return Err(Stop::Refused("fewer bytes are at hand"));
            }
            reader.advance(n as usize);
            Ok(Said::Done)
        }
        "hand" => {
            let mut bytes = reader.bytes().to_vec(alloc)?;
            if n > 0 {
                bytes.truncate(n as usize);
            }
            Ok(Said::Bytes(bytes))
        }
        "remaining" => Ok(Said::Number(reader.remaining() as u64)),
        _ => Ok(Said::Number(reader.blob_size())),
    }
}
