// What is open, and the commands over it.
ghost use Rattle.std.specs.Prelude.{IfOk};
ghost use Rattle.blob_device.specs.MemoryMeaning.{memory_opened};
ghost use Rattle.sealed_pages_tests.specs.Stores.{IsOpen};

use crate::said::{Said, Stop};
use crate::words::{Family, change_of, family_of};
use crate::{disk, pages, reader, unsealed};
use blob_device::Memory;
use scenario_text::Step;
use sealed_pages::{PageBlob, PageReplay, WriteBlob};
use std::alloc::Global;
use value_codec::Sha256Seal;

/// What is open.
#[derive(Drop)]
pub enum Store {
    Closed,
    Pages(PageBlob<Sha256Seal>),
    /// Pages, and a reader over them.
    Reading(PageBlob<Sha256Seal>, PageReplay<Sha256Seal>),
    Unsealed(WriteBlob),
}

/// Carries out a command. The answer is what is open then, and what the command says.
pub fn obey(
    alloc: Global,
    store: Store,
    dev: &mut Memory,
    step: &Step,
) -> (Store, Result<Said, Stop>)
    requires { IsOpen (memory_opened dev.old) store }
    ensures { IsOpen (memory_opened dev.new) result.0 }
{
    match family_of(step.word()) {
        Family::Reader => read_on(alloc, store, dev, step),
        Family::Ask => ask(alloc, without_reader(store, dev), dev, step),
        Family::Change => change(alloc, without_reader(store, dev), dev, step),
        Family::Open => open(alloc, dev, step),
        Family::Remake => (Store::Closed, disk::remake(alloc, dev, step)),
        _ => (store, disk::look(alloc, dev, step)),
    }
}

// The same with the reader given up.
fn without_reader(store: Store, dev: &Memory) -> Store
    requires { IsOpen (memory_opened dev.now) store }
    ensures { IsOpen (memory_opened dev.now) result }
{
    match store {
        Store::Reading(blob, _) => Store::Pages(blob),
        other => other,
    }
}

// Nothing is open behind a refusal.
fn or_closed(done: Result<(Store, Said), Stop>, dev: &Memory) -> (Store, Result<Said, Stop>)
    requires { IfOk done (λ r. IsOpen (memory_opened dev.now) r.0) }
    ensures { IsOpen (memory_opened dev.now) result.0 }
{
    match done {
        Ok((store, said)) => (store, Ok(said)),
        Err(stop) => (Store::Closed, Err(stop)),
    }
}

// Opens, or reads what is not open.
fn open(alloc: Global, dev: &mut Memory, step: &Step) -> (Store, Result<Said, Stop>)
    ensures { IsOpen (memory_opened dev.new) result.0 }
{
    match step.word() {
        "open" => or_closed(pages::open(alloc, dev, step), dev),
        "open-plain" => or_closed(unsealed::open(alloc, dev, step), dev),
        "read-tail" => (Store::Closed, pages::read_tail(alloc, dev, step)),
        _ => (Store::Closed, pages::read_range(alloc, dev, step)),
    }
}

// Asks the reader.
fn read_on(
    alloc: Global,
    store: Store,
    dev: &mut Memory,
    step: &Step,
) -> (Store, Result<Said, Stop>)
    requires { IsOpen (memory_opened dev.old) store }
    ensures { IsOpen (memory_opened dev.new) result.0 }
{
    match store {
        Store::Reading(blob, mut reader) => {
            let answer = reader::read_on(alloc, &mut reader, dev, step);
            (Store::Reading(blob, reader), answer)
        }
        other => (other, Err(Stop::Refused("no reader is open"))),
    }
}

// Asks what is open.
fn ask(alloc: Global, store: Store, dev: &mut Memory, step: &Step) -> (Store, Result<Said, Stop>)
    requires { IsOpen (memory_opened dev.old) store }
    ensures { IsOpen (memory_opened dev.new) result.0 }
{
    match store {
        Store::Pages(mut blob) => {
            let answer = pages::ask(alloc, &mut blob, dev, step);
            (Store::Pages(blob), answer)
        }
        Store::Unsealed(blob) => {
            let answer = unsealed::ask(alloc, &blob, dev, step);
            (Store::Unsealed(blob), answer)
        }
        other => (other, Err(Stop::Refused("nothing is open"))),
    }
}

// Changes what is open.
fn change(alloc: Global, store: Store, dev: &mut Memory, step: &Step) -> (Store, Result<Said, Stop>)
    requires { IsOpen (memory_opened dev.old) store }
    ensures { IsOpen (memory_opened dev.new) result.0 }
{
    match change_of(alloc, step) {
        Ok((n, more)) => changed(store, dev, step.word(), n, more.as_slice()),
        Err(stop) => (store, Err(stop)),
    }
}

// Makes the change that this word names.
fn changed(
    store: Store,
    dev: &mut Memory,
    word: &str,
    n: u64,
    more: &[u8],
) -> (Store, Result<Said, Stop>)
    requires { IsOpen (memory_opened dev.old) store }
    ensures { IsOpen (memory_opened dev.new) result.0 }
{
    match store {
        Store::Pages(blob) => or_closed(pages::change(blob, dev, word, n, more), dev),
        Store::Unsealed(blob) => or_closed(unsealed::change(blob, dev, word, n, more), dev),
        other => (other, Err(Stop::Refused("nothing is open"))),
    }
}
