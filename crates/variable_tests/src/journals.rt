// A journal of frames that is open, and the commands over it.
ghost use Rattle.std.specs.Prelude.{◌≤◌, IfOk};
ghost use Rattle.variable_tests.specs.Stores.{IsOpen};

use crate::reading::{ask, read, read_many};
use crate::replays::replay;
use crate::store::{Store, or_closed};
use blob_device::Memory;
use scenario_runs::{Part, Said, Told, most, number, pages, value};
use scenario_text::Step;
use sealed_pages::Pages;
use segments::journal::Error;
use std::alloc::Global;
use value_codec::{ByteValue, Sha256Seal};
use variable_journal::{Config, Journal};

/// A journal of bytes.
pub type Frames = Journal<ByteValue, Sha256Seal>;

/// How a journal is kept.
pub fn config(alloc: Global, step: &Step) -> Result<Config<u32>, Error>
    ensures { IfOk result (λ r. 1 ≤ r.pages.page_size) }
{
    Ok(Config {
        partition: String::from_str(alloc, step.argument(0))?,
        pages: pages(step, 1),
        write_buffer: number(step, 2) as usize,
        codec_config: most(step, 3),
    })
}

/// Whether a journal may be kept so, where `-` is a partition without a name.
pub fn is_valid(alloc: Global, step: &Step) -> Result<Said, Error> {
    let partition = match step.argument(0) {
        "-" => "",
        name => name,
    };
    let cfg = Config {
        partition: String::from_str(alloc, partition)?,
        pages: Pages {
            page_size: u16::try_from(number(step, 1)).unwrap_or(0),
            cache_pages: 0,
        },
        write_buffer: number(step, 2) as usize,
        codec_config: 0_u32,
    };
    Ok(Said::Truth(cfg.is_valid()))
}

/// Opens a journal.
pub fn open(alloc: Global, dev: &mut Memory, step: &Step) -> Result<(Store, Said), Error>
    ensures { IfOk result (λ r. IsOpen dev.new r.0) }
{
    let cfg = config(alloc, step)?;
    let journal = Journal::init(alloc, dev, &cfg)?;
    Ok((Store::Frames(journal), Said::Done))
}

/// Opens a journal up to a byte of a section, which the words after those of `open` name.
pub fn open_at_most(alloc: Global, dev: &mut Memory, step: &Step) -> Result<(Store, Said), Error>
    ensures { IfOk result (λ r. IsOpen dev.new r.0) }
{
    let cfg = config(alloc, step)?;
    let journal = Journal::init_at_most(alloc, dev, &cfg, number(step, 4), number(step, 5))?;
    Ok((Store::Frames(journal), Said::Done))
}

/// Carries out a command over a journal.
pub fn obey(
    alloc: Global,
    journal: Frames,
    dev: &mut Memory,
    step: &Step,
    told: &Told,
) -> (Store, Result<Said, Error>)
    requires { IsOpen dev.old (Store.Frames journal) }
    ensures { IsOpen dev.new result.0 }
{
    match step.word() {
        "append" => or_closed(append(alloc, journal, dev, step), dev),
        "sync" | "start-sync" | "sync-all" | "prune" | "clear" | "destroy" => {
            or_closed(change(journal, dev, step, told), dev)
        }
        "replay" => or_closed(replay(alloc, journal, dev, step), dev),
        "get" => {
            let answer = read(alloc, &journal, dev, step);
            (Store::Frames(journal), answer)
        }
        "get-many" => {
            let answer = read_many(alloc, &journal, dev, step, told);
            (Store::Frames(journal), answer)
        }
        _ => {
            let answer = ask(alloc, &journal, step);
            (Store::Frames(journal), answer)
        }
    }
}

// Adds items to a section, and says their offsets and lengths. A section that takes none is left as
// it is.
fn append(
    alloc: Global,
    journal: Frames,
    dev: &mut Memory,
    step: &Step,
) -> Result<(Store, Said), Error>
    requires { IsOpen dev.old (Store.Frames journal) }
    ensures { IfOk result (λ r. IsOpen dev.new r.0) }
{
    let section = number(step, 0);
    let mut journal = journal;
    let mut row = Vec::new(alloc);
    'items: for at in 1..step.rest().len() {
        let item = value(alloc, step, at)?;
        if !journal.is_recovered(section) {
            return Ok((Store::Frames(journal), Said::Text("a replay is owed")));
        }
        let (next, offset, size) = journal.append(dev, section, &item)?;
        journal = next;
        row.push(Part::Place(offset, size))?;
    }
    Ok((Store::Frames(journal), Said::Row(row)))
}

// Settles or removes sections.
fn change(
    journal: Frames,
    dev: &mut Memory,
    step: &Step,
    told: &Told,
) -> Result<(Store, Said), Error>
    requires { IsOpen dev.old (Store.Frames journal) }
    ensures { IfOk result (λ r. IsOpen dev.new r.0) }
{
    let sections = told.numbers.as_slice();
    match step.word() {
        "sync" => Ok((Store::Frames(journal.sync(dev, sections)?), Said::Done)),
        "start-sync" => {
            let (journal, handle) = journal.start_sync(dev, sections)?;
            handle.wait();
            Ok((Store::Frames(journal), Said::Done))
        }
        "sync-all" => Ok((Store::Frames(journal.sync_all(dev)?), Said::Done)),
        "prune" => {
            let (journal, was) = journal.prune(dev, number(step, 0))?;
            Ok((Store::Frames(journal), Said::Truth(was)))
        }
        "clear" => Ok((Store::Frames(journal.clear(dev)?), Said::Done)),
        _ => {
            journal.destroy(dev)?;
            Ok((Store::Closed, Said::Done))
        }
    }
}
