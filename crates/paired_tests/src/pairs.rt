// Commands over a pair of records and values.
ghost use Rattle.std.specs.Prelude.{◌≡◌, ◌≤◌, IfOk, string_bytes, codes};
ghost use Rattle.paired_tests.specs.Stores.{IsOpen};
ghost use Rattle.paired_tests.specs.declared.store.Store.TheVariants.{Pair, Walk};

use crate::content::Content;
use crate::notes::numbered;
use crate::said::Said;
use crate::store::{Notes, Replayed, Store};
use crate::walks::{counted, go_over};
use crate::words::{Order, number, size};
use blob_device::Memory;
use paired::oversized::{Config, Oversized};
use scenario_text::Step;
use sealed_pages::Pages;
use segments::journal::Error;
use std::alloc::Global;
use value_codec::Codec;

// Where the pair is kept, but for its markers.
fn config(alloc: Global, page_size: u16, write_buffer: usize) -> Result<Config<()>, Error>
    ensures index { IfOk result (λ c. string_bytes c.index_partition ≡ codes "i") }
    ensures values { IfOk result (λ c. string_bytes c.value_partition ≡ codes "v") }
    ensures page_size { IfOk result (λ c. c.index_pages.page_size ≡ page_size) }
{
    Ok(Config {
        index_partition: String::from_str(alloc, "i")?,
        value_partition: String::from_str(alloc, "v")?,
        index_pages: Pages {
            page_size,
            cache_pages: 0,
        },
        index_write_buffer: write_buffer,
        value_write_buffer: write_buffer,
        replay_buffer: 64,
        codec_config: (),
    })
}

// Begins the opening of the pair by its markers.
fn begun(
    alloc: Global,
    dev: &mut Memory,
    page_size: u16,
    write_buffer: usize,
) -> Result<Replayed, Error>
    requires { 1 ≤ page_size }
    ensures { IfOk result (λ r. IsOpen dev.new (Walk r)) }
{
    let settings = config(alloc, page_size, write_buffer)?;
    Oversized::init_with_metadata(alloc, dev, &settings, "m")
}

/// Begins the opening of the pair; or opens it, where it has fewer than 64 records, and says how
/// many it gave.
pub fn open(alloc: Global, dev: &mut Memory, step: &Step) -> Result<(Store, Said), Error>
    ensures { IfOk result (λ r. IsOpen dev.new r.0) }
{
    let page_size = u16::try_from(number(step, 0)).unwrap_or(1).max(1);
    let mut walk = begun(alloc, dev, page_size, number(step, 1) as usize)?;
    if step.word() == "begin" {
        return Ok((Store::Walk(walk), Said::Done));
    }
    let given = go_over(alloc, &mut walk, dev, 64);
    match counted(given) {
        Ok(count) => {
            let pair = walk.finish_tracked(dev)?;
            Ok((Store::Pair(pair), Said::Number(count)))
        }
        Err(error) => Err(error),
    }
}

/// Makes the change that this word names.
pub fn change(
    pair: Notes,
    dev: &mut Memory,
    word: &str,
    order: &Order,
) -> Result<(Store, Said), Error>
    requires open { IsOpen dev.old (Pair pair) }
    requires value { ⟦<Content as Codec>⟧.accepted order.now.value tt }
    ensures { IfOk result (λ r. IsOpen dev.new r.0) }
{
    match word {
        "append" => {
            let entry = numbered(order.number);
            let (pair, at, offset, size) = pair.append(dev, order.section, entry, &order.value)?;
            Ok((Store::Pair(pair), Said::Position(at, offset, size)))
        }
        "prune" => {
            let (pair, was) = pair.prune(dev, order.section)?;
            Ok((Store::Pair(pair), Said::Truth(was)))
        }
        "replay" => {
            let walk = pair.replay(dev, order.section, order.number, 64)?;
            Ok((Store::Walk(walk), Said::Done))
        }
        "destroy" => {
            pair.destroy(dev)?;
            Ok((Store::Closed, Said::Done))
        }
        _ => settle(pair, dev, word, order),
    }
}

// Settles sections, or begins that.
fn settle(pair: Notes, dev: &mut Memory, word: &str, order: &Order) -> Result<(Store, Said), Error>
    requires { IsOpen dev.old (Pair pair) }
    ensures { IfOk result (λ r. IsOpen dev.new r.0) }
{
    let sections = order.named.sections.as_slice();
    let active = order.named.active.as_slice();
    match word {
        "sync" => Ok((Store::Pair(pair.sync(dev, sections)?), Said::Done)),
        "sync-all" => Ok((Store::Pair(pair.sync_all(dev)?), Said::Done)),
        "sync-tracked" => Ok((
            Store::Pair(pair.sync_tracked(dev, sections, active)?),
            Said::Done,
        )),
        "start-sync" => {
            let (pair, handle) = pair.start_sync(dev, sections)?;
            handle.wait();
            Ok((Store::Pair(pair), Said::Done))
        }
        "start-sync-tracked" => {
            let (pair, handle) = pair.start_sync_tracked(dev, sections, active)?;
            handle.wait();
            Ok((Store::Pair(pair), Said::Done))
        }
        _ => Ok((Store::Closed, Said::Refused("no such command"))),
    }
}

/// Asks the pair.
pub fn ask(pair: &Notes, dev: &mut Memory, step: &Step) -> Result<Said, Error>
    requires { IsOpen dev.old (Pair pair.now) }
    ensures { IsOpen dev.new (Pair pair.now) }
{
    let section = number(step, 0);
    let at = number(step, 1);
    match step.word() {
        "get" => Ok(Said::Record(Some(pair.get(dev, section, at)?))),
        "last" => Ok(Said::Record(pair.last(dev, section)?)),
        "frame" => {
            let value = pair.get_value(dev, section, at, size(step, 2))?;
            Ok(Said::Bytes(value.into_bytes()))
        }
        "value-size" => Ok(Said::Number(pair.value_size(dev, section)?)),
        "size" => Ok(Said::Number(pair.size(section)?)),
        "pruned" => Ok(Said::Truth(pair.pruned(section))),
        "oldest" => Ok(Said::Maybe(pair.oldest_section())),
        "newest" => Ok(Said::Maybe(pair.newest_section())),
        _ => Ok(Said::Refused("no such command")),
    }
}
