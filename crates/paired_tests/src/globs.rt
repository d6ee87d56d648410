// Commands over a glob, and over one under recovery.
ghost use Rattle.std.specs.Prelude.{IfOk};
ghost use Rattle.paired_tests.specs.Stores.{IsOpen};
ghost use Rattle.paired_tests.specs.declared.store.Store.TheVariants as variant;

use crate::content::Content;
use crate::said::{Item, Said};
use crate::store::{Mended, Store, Values};
use crate::words::{Order, number, size};
use blob_device::Memory;
use paired::glob::{Config, Glob, Recovery};
use scenario_text::Step;
use segments::SectionIter;
use segments::journal::Error;
use std::alloc::{AllocError, Global};
use value_codec::Codec;

/// Opens a glob, or begins its recovery, or asks of the place where it would be kept.
pub fn open(alloc: Global, dev: &mut Memory, step: &Step) -> Result<(Store, Said), Error>
    ensures { IfOk result (λ r. IsOpen dev.new r.0) }
{
    let partition = match step.argument(1) {
        "" => "v",
        "-" => "",
        word => word,
    };
    let place = Config {
        partition: String::from_str(alloc, partition)?,
        codec_config: (),
        write_buffer: number(step, 0) as usize,
    };
    match step.word() {
        "open-glob" => Ok((Store::Glob(Glob::init(alloc, dev, &place)?), Said::Done)),
        "recover" => {
            let ceiling = step.number(2).unwrap_or(u64::MAX);
            let values = Recovery::init(alloc, dev, &place, ceiling)?;
            Ok((Store::Mend(values), Said::Done))
        }
        _ => Ok((Store::Closed, Said::Truth(place.is_valid()))),
    }
}

/// Adds the order's value to a section.
pub fn append(values: Values, dev: &mut Memory, order: &Order) -> Result<(Store, Said), Error>
    requires open { IsOpen dev.old (variant.Glob values) }
    requires value { ⟦<Content as Codec>⟧.accepted order.now.value tt }
    ensures { IfOk result (λ r. IsOpen dev.new r.0) }
{
    if order.section > values.ceiling() {
        return Ok((Store::Closed, Said::Refused("above the ceiling")));
    }
    let (values, offset, size) = values.append(dev, order.section, &order.value)?;
    Ok((Store::Glob(values), Said::Place(offset, size)))
}

/// Makes the change that this word names.
pub fn change(
    values: Values,
    dev: &mut Memory,
    word: &str,
    order: &Order,
) -> Result<(Store, Said), Error>
    requires { IsOpen dev.old (variant.Glob values) }
    ensures { IfOk result (λ r. IsOpen dev.new r.0) }
{
    let sections = order.named.sections.as_slice();
    match word {
        "sync" => Ok((Store::Glob(values.sync(dev, sections)?), Said::Done)),
        "sync-all" => Ok((Store::Glob(values.sync_all(dev)?), Said::Done)),
        "start-sync" => {
            let (values, handle) = values.start_sync(dev, sections)?;
            handle.wait();
            Ok((Store::Glob(values), Said::Done))
        }
        "prune" => {
            let (values, was) = values.prune(dev, order.section)?;
            Ok((Store::Glob(values), Said::Truth(was)))
        }
        "remove" => {
            let (values, was) = values.remove_section(dev, order.section)?;
            Ok((Store::Glob(values), Said::Truth(was)))
        }
        "destroy" => {
            values.destroy(dev)?;
            Ok((Store::Closed, Said::Done))
        }
        _ => Ok((Store::Closed, Said::Refused("no such command"))),
    }
}

/// Asks the glob.
pub fn ask(alloc: Global, values: &Values, dev: &mut Memory, step: &Step) -> Result<Said, Error>
    requires { IsOpen dev.old (variant.Glob values.now) }
    ensures { IsOpen dev.new (variant.Glob values.now) }
{
    let section = number(step, 0);
    match step.word() {
        "frame" => {
            let (at, size) = (number(step, 1), size(step, 2));
            Ok(Said::Bytes(values.get(dev, section, at, size)?.into_bytes()))
        }
        "size" => Ok(Said::Number(values.size(section)?)),
        "pruned" => Ok(Said::Truth(values.pruned(section))),
        "oldest" => Ok(Said::Maybe(values.oldest_section())),
        "newest" => Ok(Said::Maybe(values.newest_section())),
        "sections" => Ok(Said::Items(listed(alloc, values.sections())?)),
        "ceiling" => Ok(Said::Number(values.ceiling())),
        _ => Ok(Said::Refused("no such command")),
    }
}

// Sections, one behind another.
fn listed(alloc: Global, sections: SectionIter<'_>) -> Result<Vec<Item>, AllocError> {
    let mut items = Vec::new(alloc);
    for section in sections {
        items.push(Item::Section(section))?;
    }
    Ok(items)
}

/// Cuts a section, a section with all behind it, or several sections; or ends the recovery.
pub fn cut(
    values: Mended,
    dev: &mut Memory,
    word: &str,
    order: &Order,
) -> Result<(Store, Said), Error>
    requires { IsOpen dev.old (variant.Mend values) }
    ensures { IfOk result (λ r. IsOpen dev.new r.0) }
{
    let (section, size) = (order.section, order.number);
    match word {
        "cut" => Ok((
            Store::Mend(values.truncate_section(dev, section, size)?),
            Said::Done,
        )),
        "cut-each" => Ok((
            Store::Mend(values.truncate_sections(dev, &order.named.sizes)?),
            Said::Done,
        )),
        "truncate" if section <= values.ceiling() => Ok((
            Store::Mend(values.truncate(dev, section, size)?),
            Said::Done,
        )),
        "recovered" => Ok((Store::Glob(Glob::from(values)), Said::Done)),
        _ => Ok((Store::Closed, Said::Refused("no such command"))),
    }
}

/// Checks a frame, or asks of sections.
pub fn check(alloc: Global, values: &Mended, dev: &mut Memory, step: &Step) -> Result<Said, Error>
    requires { IsOpen dev.old (variant.Mend values.now) }
    ensures { IsOpen dev.new (variant.Mend values.now) }
{
    let section = number(step, 0);
    let (at, size) = (number(step, 1), size(step, 2));
    match step.word() {
        "verify" => Ok(Said::Truth(values.verify(dev, section, at, size)?)),
        "size" => Ok(Said::Number(values.size(section)?)),
        "sections" => Ok(Said::Items(listed(alloc, values.sections())?)),
        "ceiling" => Ok(Said::Number(values.ceiling())),
        _ => Ok(Said::Refused("no such command")),
    }
}
