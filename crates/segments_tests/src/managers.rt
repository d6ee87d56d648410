// A manager that is open, with buffers that have no seals, and the commands over it.
ghost use Rattle.std.specs.Prelude.{◌≡◌, ◌≤◌, IfOk};
ghost use Rattle.blob_device.specs.Timeline.{disk};
ghost use Rattle.section_manager.specs.managing.Managed.{shown};
ghost use Rattle.section_manager.specs.Sections.{IsOver};
ghost use Rattle.segments_tests.specs.Stores.{IsOpen};

use crate::reading::listed;
use crate::said::Said;
use crate::store::{Store, or_closed};
use crate::words::{Told, number};
use blob_device::{Device, Memory};
use scenario_text::Step;
use sealed_pages::WriteBlob;
use segments::journal::Error;
use segments::{BufferFactory, Manager, ManagerConfig, SectionBuffer, WriteFactory};
use std::alloc::Global;

/// A manager of sections without seals.
pub type Plain = Manager<WriteFactory>;

/// Opens the sections, up to one where the step names it.
pub fn open(alloc: Global, dev: &mut Memory, step: &Step) -> Result<(Store, Said), Error>
    ensures { IfOk result (λ r. IsOpen dev.new r.0) }
{
    let cfg = ManagerConfig {
        partition: String::from_str(alloc, step.argument(0))?,
        factory: WriteFactory {
            capacity: number(step, 1) as usize,
        },
    };
    match step.number(2) {
        Some(ceiling) => {
            let sections = Manager::init_bounded(alloc, dev, cfg, ceiling)?;
            Ok((Store::Sections(sections), Said::Done))
        }
        None => {
            let sections = Manager::init(alloc, dev, cfg)?;
            Ok((Store::Sections(sections), Said::Done))
        }
    }
}

/// Carries out a command over a manager.
pub fn obey(
    alloc: Global,
    sections: Plain,
    dev: &mut Memory,
    step: &Step,
    told: &Told,
) -> (Store, Result<Said, Error>)
    requires { IsOpen dev.old (Store.Sections sections) }
    ensures { IsOpen dev.new result.0 }
{
    match step.word() {
        "append" | "take" | "make" => write(sections, dev, step, told),
        "sync" | "start-sync" | "sync-all" | "prune" | "remove" | "clear" | "destroy" => {
            or_closed(change(sections, dev, step, told), dev)
        }
        "cut" | "cut-tail" | "cut-each" => or_closed(cut(sections, dev, step, told), dev),
        _ => {
            let answer = ask(alloc, &sections, step);
            (Store::Sections(sections), answer)
        }
    }
}

// Asks the manager.
fn ask(alloc: Global, sections: &Plain, step: &Step) -> Result<Said, Error> {
    let section = number(step, 0);
    match step.word() {
        "size" => Ok(Said::Number(sections.size(section)?)),
        "get" => match sections.get(section)? {
            Some(buffer) => Ok(Said::Number(buffer.size())),
            None => Ok(Said::Maybe(None)),
        },
        "pruned" => Ok(Said::Truth(sections.pruned(section))),
        "guard" => {
            sections.prune_guard(section)?;
            Ok(Said::Done)
        }
        "ceiling" => Ok(Said::Number(sections.ceiling())),
        "count" => Ok(Said::Number(sections.num_sections() as u64)),
        "empty" => Ok(Said::Truth(sections.is_empty())),
        "oldest" => Ok(Said::Maybe(sections.oldest_section())),
        "newest" => Ok(Said::Maybe(sections.newest_section())),
        "sections" => Ok(listed(alloc, sections.sections_from(section))),
        _ => Ok(Said::Text("no such command")),
    }
}

// Makes a section where it is not held, says its size and gives the manager up; or takes its
// buffer out; or adds bytes to it, which are then pending. Where a buffer is not taken, the manager
// is as it was.
fn write(
    sections: Plain,
    dev: &mut Memory,
    step: &Step,
    told: &Told,
) -> (Store, Result<Said, Error>)
    requires { IsOpen dev.old (Store.Sections sections) }
    ensures { IsOpen dev.new result.0 }
{
    let section = number(step, 0);
    let mut sections = sections;
    if section > sections.ceiling() {
        let why = "above the ceiling";
        return (Store::Sections(sections), Ok(Said::Text(why)));
    }
    match step.word() {
        "make" => match sections.get_or_create(dev, section) {
            Ok(buffer) => (Store::Closed, Ok(Said::Number(buffer.size()))),
            Err(error) => (Store::Closed, Err(error)),
        },
        "take" => match sections.take(dev, section) {
            Ok(_) => (Store::Sections(sections), Ok(Said::Done)),
            Err(error) => (Store::Sections(sections), Err(error)),
        },
        _ => match extended(sections, dev, section, told.bytes.as_slice()) {
            Ok(sections) => (Store::Sections(sections), Ok(Said::Done)),
            Err(error) => (Store::Closed, Err(error)),
        },
    }
}

// Adds bytes to a section, which are then pending.
fn extended<D: Device>(
    sections: Plain,
    dev: &mut D,
    section: u64,
    bytes: &[u8],
) -> Result<Plain, Error>
    requires over { IsOver ⟦<WriteBlob as SectionBuffer>⟧ ⟦<WriteFactory as BufferFactory>⟧.gives D.Tells (shown sections) (D.opened dev.old) (disk (D.time dev.old)) }
    requires ceiling { section ≤ (shown sections).ceiling }
    ensures over { IfOk result (λ r. IsOver ⟦<WriteBlob as SectionBuffer>⟧ ⟦<WriteFactory as BufferFactory>⟧.gives D.Tells (shown r) (D.opened dev.new) (disk (D.time dev.new))) }
    ensures ceiling { IfOk result (λ r. (shown r).ceiling ≡ (shown sections).ceiling) }
{
    let mut sections = sections;
    let buffer = sections.take(dev, section)?;
    let (buffer, _) = buffer.append(dev, bytes)?;
    sections.put(section, buffer)?;
    Ok(sections)
}

// Settles or removes sections.
fn change(
    sections: Plain,
    dev: &mut Memory,
    step: &Step,
    told: &Told,
) -> Result<(Store, Said), Error>
    requires { IsOpen dev.old (Store.Sections sections) }
    ensures { IfOk result (λ r. IsOpen dev.new r.0) }
{
    let named = told.numbers.as_slice();
    let section = number(step, 0);
    match step.word() {
        "sync" => Ok((Store::Sections(sections.sync(dev, named)?), Said::Done)),
        "start-sync" => {
            let (sections, handle) = sections.start_sync(dev, named)?;
            handle.wait();
            Ok((Store::Sections(sections), Said::Done))
        }
        "sync-all" => Ok((Store::Sections(sections.sync_all(dev)?), Said::Done)),
        "prune" => {
            let (sections, was) = sections.prune(dev, section)?;
            Ok((Store::Sections(sections), Said::Truth(was)))
        }
        "remove" => {
            let (sections, was) = sections.remove_section(dev, section)?;
            Ok((Store::Sections(sections), Said::Truth(was)))
        }
        "clear" => Ok((Store::Sections(sections.clear(dev)?), Said::Done)),
        _ => {
            sections.destroy(dev)?;
            Ok((Store::Closed, Said::Done))
        }
    }
}

// Shortens one section, with the later ones removed or not, or several.
fn cut(sections: Plain, dev: &mut Memory, step: &Step, told: &Told) -> Result<(Store, Said), Error>
    requires { IsOpen dev.old (Store.Sections sections) }
    ensures { IfOk result (λ r. IsOpen dev.new r.0) }
{
    let section = number(step, 0);
    let size = number(step, 1);
    match step.word() {
        "cut-tail" => {
            if section > sections.ceiling() {
                let why = "above the ceiling";
                return Ok((Store::Sections(sections), Said::Text(why)));
            }
            let sections = sections.truncate_pending(dev, section, size)?;
            Ok((Store::Sections(sections), Said::Done))
        }
        "cut" => {
            let sections = sections.truncate_pending_section(dev, section, size)?;
            Ok((Store::Sections(sections), Said::Done))
        }
        _ => {
            let sections = sections.truncate_pending_sections(dev, &told.pairs)?;
            Ok((Store::Sections(sections), Said::Done))
        }
    }
}
