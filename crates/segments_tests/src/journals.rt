// A fixed journal that is open, and the commands over it.
ghost use Rattle.std.specs.Prelude.{◌≤◌, IfOk};
ghost use Rattle.segments_tests.specs.Stores.{IsOpen};

use crate::cursors::scan;
use crate::floors::bounds_of;
use crate::items::Low;
use crate::reading::{ask, read};
use crate::replays::replay;
use crate::said::{Part, Said};
use crate::store::{Store, or_closed};
use crate::words::{Told, number};
use blob_device::Memory;
use scenario_text::Step;
use sealed_pages::Pages;
use segments::fixed::{Config, Journal};
use segments::journal::Error;
use std::alloc::Global;
use value_codec::{Codec, Sha256Seal};

/// A journal of numbers below 100.
pub type Lows = Journal<Low, Sha256Seal>;

/// How a journal is kept: its partition, the size of a page, that of the write buffer, and how
/// many pages are held.
pub fn config(
    alloc: Global,
    partition: &str,
    page: u64,
    buffer: u64,
    held: u64,
) -> Result<Config, Error>
    ensures { IfOk result (λ r. 1 ≤ r.pages.page_size) }
{
    let page_size = u16::try_from(page).unwrap_or(16);
    Ok(Config {
        partition: String::from_str(alloc, partition)?,
        pages: Pages {
            page_size: page_size.max(1),
            cache_pages: u32::try_from(held).unwrap_or(0),
        },
        write_buffer: buffer as usize,
    })
}

/// Opens a journal, up to a section where the step names one.
pub fn open(alloc: Global, dev: &mut Memory, step: &Step) -> Result<(Store, Said), Error>
    ensures { IfOk result (λ r. IsOpen dev.new r.0) }
{
    let (page, buffer, held) = (number(step, 1), number(step, 2), number(step, 3));
    let cfg = config(alloc, step.argument(0), page, buffer, held)?;
    match step.number(4) {
        Some(ceiling) => {
            let journal = Journal::init_bounded(alloc, dev, &cfg, ceiling)?;
            Ok((Store::Items(journal), Said::Done))
        }
        None => {
            let journal = Journal::init(alloc, dev, &cfg)?;
            Ok((Store::Items(journal), Said::Done))
        }
    }
}

/// Opens a journal up to a byte of a section, or at a checkpoint. Of a checkpoint it says the last
/// item below each boundary.
pub fn open_cut(alloc: Global, dev: &mut Memory, step: &Step) -> Result<(Store, Said), Error>
    ensures { IfOk result (λ r. IsOpen dev.new r.0) }
{
    let (page, buffer, held) = (number(step, 1), number(step, 2), number(step, 3));
    let cfg = config(alloc, step.argument(0), page, buffer, held)?;
    let (section, end) = (number(step, 4), number(step, 5));
    match step.word() {
        "open-at-most" => {
            let journal = Journal::init_at_most(alloc, dev, &cfg, section, end)?;
            Ok((Store::Items(journal), Said::Done))
        }
        "open-cut" => {
            let journal = Journal::open_at_most(alloc, dev, &cfg, section, end)?;
            Ok((Store::Items(journal), Said::Done))
        }
        _ => {
            let found = Journal::preflight_restore(alloc, dev, &cfg, section, end)?;
            let row = bounds_of(alloc, &found);
            let journal = found.finish(dev)?;
            Ok((Store::Items(journal), Said::Row(row)))
        }
    }
}

/// Carries out a command over a journal.
pub fn obey(
    alloc: Global,
    journal: Lows,
    dev: &mut Memory,
    step: &Step,
    told: &Told,
) -> (Store, Result<Said, Error>)
    requires { IsOpen dev.old (Store.Items journal) }
    ensures { IsOpen dev.new result.0 }
{
    match step.word() {
        "append" => or_closed(append(alloc, journal, dev, step, told), dev),
        "append-bytes" => or_closed(append_bytes(alloc, journal, dev, step, told), dev),
        "sync" | "start-sync" | "sync-all" | "prune" | "clear" | "destroy" => {
            or_closed(change(journal, dev, step, told), dev)
        }
        "cut" => or_closed(cut(journal, dev, number(step, 0), number(step, 1)), dev),
        "cut-tail" => or_closed(cut_tail(journal, dev, step), dev),
        "sealed" => {
            let answer = sealed(&journal, dev, step);
            (Store::Items(journal), answer)
        }
        "replay" => or_closed(replay(alloc, journal, dev, step), dev),
        "scan" => or_closed(scan(alloc, journal, dev, step), dev),
        "get" | "last" | "get-many" => {
            let answer = read(alloc, &journal, dev, step);
            (Store::Items(journal), answer)
        }
        _ => {
            let answer = ask(alloc, &journal, step);
            (Store::Items(journal), answer)
        }
    }
}

// Adds numbers to a section, and says their positions. A section that takes none is left as it is.
fn append(
    alloc: Global,
    journal: Lows,
    dev: &mut Memory,
    step: &Step,
    told: &Told,
) -> Result<(Store, Said), Error>
    requires { IsOpen dev.old (Store.Items journal) }
    ensures { IfOk result (λ r. IsOpen dev.new r.0) }
{
    let section = number(step, 0);
    let mut journal = journal;
    let mut row = Vec::new(alloc);
    'numbers: for number in told.numbers.as_slice().get(1..).unwrap_or(&[]) {
        let item = Low { number: *number };
        if !journal.is_recovered(section) {
            return Ok((Store::Items(journal), Said::Text("a replay is owed")));
        }
        if !item.accepts(()) {
            return Ok((Store::Items(journal), Said::Text("no item")));
        }
        let (next, position) = journal.append(dev, section, &item)?;
        journal = next;
        let _ = row.push(Part::Number(position));
    }
    Ok((Store::Items(journal), Said::Row(row)))
}

// Adds numbers to a section at once, and says the position of the first.
fn append_bytes(
    alloc: Global,
    journal: Lows,
    dev: &mut Memory,
    step: &Step,
    told: &Told,
) -> Result<(Store, Said), Error>
    requires { IsOpen dev.old (Store.Items journal) }
    ensures { IfOk result (λ r. IsOpen dev.new r.0) }
{
    let section = number(step, 0);
    if !journal.is_recovered(section) {
        return Ok((Store::Items(journal), Said::Text("a replay is owed")));
    }
    let mut bytes = Vec::new(alloc);
    for number in told.numbers.as_slice().get(1..).unwrap_or(&[]) {
        number.write(&mut bytes)?;
    }
    if bytes.len() % 8 != 0 {
        return Ok((Store::Items(journal), Said::Text("no items")));
    }
    let (journal, position) = journal.append_bytes(dev, section, bytes.as_slice())?;
    Ok((Store::Items(journal), Said::Number(position)))
}

// Settles or removes sections.
fn change(journal: Lows, dev: &mut Memory, step: &Step, told: &Told) -> Result<(Store, Said), Error>
    requires { IsOpen dev.old (Store.Items journal) }
    ensures { IfOk result (λ r. IsOpen dev.new r.0) }
{
    let sections = told.numbers.as_slice();
    match step.word() {
        "sync" => Ok((Store::Items(journal.sync(dev, sections)?), Said::Done)),
        "start-sync" => {
            let (journal, handle) = journal.start_sync(dev, sections)?;
            handle.wait();
            Ok((Store::Items(journal), Said::Done))
        }
        "sync-all" => Ok((Store::Items(journal.sync_all(dev)?), Said::Done)),
        "prune" => {
            let (journal, was) = journal.prune(dev, number(step, 0))?;
            Ok((Store::Items(journal), Said::Truth(was)))
        }
        "clear" => Ok((Store::Items(journal.clear(dev)?), Said::Done)),
        _ => {
            journal.destroy(dev)?;
            Ok((Store::Closed, Said::Done))
        }
    }
}

// Cuts any section to nothing, or one that owes no replay and has no floor to whole items.
fn cut(journal: Lows, dev: &mut Memory, section: u64, size: u64) -> Result<(Store, Said), Error>
    requires { IsOpen dev.old (Store.Items journal) }
    ensures { IfOk result (λ r. IsOpen dev.new r.0) }
{
    let floor = journal.floor_of(section);
    if size == 0 {
        let journal = journal.truncate_pending_section(dev, section, 0)?;
        return Ok((Store::Items(journal), Said::Done));
    }
    if !journal.is_recovered(section) || floor != 0 || size % 8 != 0 {
        let why = "no cut of whole items that are proven";
        return Ok((Store::Items(journal), Said::Text(why)));
    }
    let journal = journal.truncate_pending_section(dev, section, size)?;
    Ok((Store::Items(journal), Said::Done))
}

// Removes the later sections, and cuts this one to the whole items of its sealed prefix up to a
// byte. Of a section behind the newest one nothing is done.
fn cut_tail(journal: Lows, dev: &mut Memory, step: &Step) -> Result<(Store, Said), Error>
    requires { IsOpen dev.old (Store.Items journal) }
    ensures { IfOk result (λ r. IsOpen dev.new r.0) }
{
    let section = number(step, 0);
    if journal.newest_section().unwrap_or(0) < section {
        return Ok((Store::Items(journal), Said::Text("behind the newest")));
    }
    let end = journal.recoverable_prefix_len_at_most(dev, section, number(step, 1), 64)?;
    let journal = journal.truncate_pending_tail(dev, section, end)?;
    Ok((Store::Items(journal), Said::Done))
}

// How many bytes of whole items of a section are sealed, up to a byte.
fn sealed(journal: &Lows, dev: &mut Memory, step: &Step) -> Result<Said, Error>
    requires { IsOpen dev.old (Store.Items journal.now) }
    ensures { IsOpen dev.new (Store.Items journal.now) }
{
    let (section, end) = (number(step, 0), number(step, 1));
    let piece = step.number(2).unwrap_or(64) as usize;
    let kept = journal.recoverable_prefix_len_at_most(dev, section, end, piece)?;
    Ok(Said::Number(kept))
}
