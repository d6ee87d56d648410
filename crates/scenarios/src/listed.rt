// A store of records in a list, which leaves the device alone: another kind of store than an archive, served by the same loop.
ghost use Rattle.std.specs.Prelude.{◌≡◌};
ghost use Rattle.value_codec.specs.Keys.{key8_bytes};
ghost use Rattle.archives.specs.Machine.{empty_state};
ghost use Rattle.archives.specs.plain.Machine.{state_of};

mod serving;

use crate::given::append_text;
use crate::stage::Stage;
use crate::stop::Stop;
use archive_service::{End, Replies, Served, read_script, serve_from, write_reply};
use archives::plain::Machine;
use blob_device::{Device, Memory};
use scenario_text::Step;
use std::alloc::Global;
use value_codec::{ByteValue, Key8};

// How many indices a section of it has room for.
const ITEMS: u64 = 1;

/// Records in a list. Nothing of them outlasts a reopening.
#[derive(Drop)]
pub struct Listed {
    // all records, in memory alone
    machine: Machine<Key8, ByteValue>,
    // as `empty` makes it; no step changes it
    ghost has_one: { machine.items_per_section ≡ 1 },
}

impl Listed {
    // No records.
    fn empty(alloc: Global) -> Listed
        ensures { state_of key8_bytes result.machine ≡ empty_state }
    {
        Listed {
            machine: Machine::new(alloc, ITEMS),
        }
    }
}

/// Says what a script gets from such a store: a line for each reply.
pub fn served(stage: &Stage, step: &Step) -> Result<String, Stop> {
    let alloc = stage.alloc;
    let mut text = Vec::new(alloc);
    append_text(&mut text, step.argument(0))?;
    let Ok(script) = read_script(alloc, text.as_slice(), stage.settings.max_value) else {
        return Err(Stop::Said("it is no script"));
    };
    let mut dev = Memory::new(alloc);
    let Served {
        replies,
        marks,
        end,
    } = serve_from::<Listed, Memory>(alloc, &mut dev, &(), script.as_slice());
    if let End::Failed(error) = end {
        return Err(Stop::from(error));
    }
    if dev.calls() > 0 || marks.as_slice().len() != replies.as_slice().len() {
        return Err(Stop::Said("the device was called, or a mark is missing"));
    }
    said(alloc, &replies)
}

// The lines of the replies, behind one another.
fn said(alloc: Global, replies: &Replies<ByteValue>) -> Result<String, Stop> {
    let mut lines = Vec::new(alloc);
    for reply in replies.as_slice() {
        if write_reply(reply, &mut lines).is_err() {
            return Err(Stop::Mem);
        }
    }
    let text = std::str::from_utf8(lines.as_slice()).unwrap_or("no text");
    let mut said = String::new(alloc);
    for line in text.lines() {
        if !said.is_empty() {
            said.push_str(" / ")?;
        }
        said.push_str(line)?;
    }
    Ok(said)
}
