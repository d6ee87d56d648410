// What a journal says of itself and of its items.
ghost use Rattle.variable_tests.specs.Stores.{IsOpen};
ghost use Rattle.variable_tests.specs.declared.store.Store.{Store};

use crate::journals::Frames;
use blob_device::Memory;
use scenario_runs::{Part, Said, Told, number, spelled};
use scenario_text::Step;
use segments::journal::Error;
use std::alloc::Global;
use value_codec::ByteValue;
use variable_journal::Items;

/// Asks the journal without its device.
pub fn ask(alloc: Global, journal: &Frames, step: &Step) -> Result<Said, Error> {
    let section = number(step, 0);
    match step.word() {
        "held" => match journal.try_get_sync(section, number(step, 1))? {
            Some(item) => Ok(Said::Bytes(Some(spelled(alloc, item.as_bytes())?))),
            None => Ok(Said::Bytes(None)),
        },
        "size" => Ok(Said::Number(journal.size(section)?)),
        "recovered" => Ok(Said::Truth(journal.is_recovered(section))),
        "pruned" => Ok(Said::Truth(journal.pruned(section))),
        "guard" => {
            journal.prune_guard(section)?;
            Ok(Said::Done)
        }
        "oldest" => Ok(Said::Maybe(journal.oldest_section())),
        "newest" => Ok(Said::Maybe(journal.newest_section())),
        "count" => Ok(Said::Number(journal.num_sections() as u64)),
        "empty" => Ok(Said::Truth(journal.is_empty())),
        _ => Ok(Said::Text("no such command")),
    }
}

/// Reads an item.
pub fn read(alloc: Global, journal: &Frames, dev: &mut Memory, step: &Step) -> Result<Said, Error>
    requires { IsOpen dev.old (Store.Frames journal.now) }
    ensures { IsOpen dev.new (Store.Frames journal.now) }
{
    let item = get(journal, dev, number(step, 0), number(step, 1))?;
    Ok(Said::Bytes(Some(spelled(alloc, item.as_bytes())?)))
}

// The item at an offset of a section.
fn get(journal: &Frames, dev: &mut Memory, section: u64, offset: u64) -> Result<ByteValue, Error>
    requires { IsOpen dev.old (Store.Frames journal.now) }
    ensures { IsOpen dev.new (Store.Frames journal.now) }
{
    journal.get(dev, section, offset)
}

/// Reads the items at the offsets that follow the section.
pub fn read_many(
    alloc: Global,
    journal: &Frames,
    dev: &mut Memory,
    step: &Step,
    told: &Told,
) -> Result<Said, Error>
    requires { IsOpen dev.old (Store.Frames journal.now) }
    ensures { IsOpen dev.new (Store.Frames journal.now) }
{
    let offsets = told.numbers.as_slice().get(1..).unwrap_or(&[]);
    let items = get_many(journal, dev, number(step, 0), offsets)?;
    let mut row = Vec::new(alloc);
    for item in items.as_slice() {
        row.push(Part::Bytes(spelled(alloc, item.as_bytes())?))?;
    }
    Ok(Said::Row(row))
}

// The items at these offsets.
fn get_many(
    journal: &Frames,
    dev: &mut Memory,
    section: u64,
    offsets: &[u64],
) -> Result<Items<ByteValue>, Error>
    requires { IsOpen dev.old (Store.Frames journal.now) }
    ensures { IsOpen dev.new (Store.Frames journal.now) }
{
    journal.get_many(dev, section, offsets)
}
