// What is open, and the commands over it.
ghost use Rattle.std.specs.Prelude.{IfOk};
ghost use Rattle.segments_tests.specs.Stores.{IsOpen};

use crate::disk::{look, remake};
use crate::journals::Lows;
use crate::managers::Plain;
use crate::said::Said;
use crate::words::Told;
use crate::{buffers, floors, journals, managers};
use blob_device::Memory;
use scenario_text::Step;
use segments::journal::Error;
use std::alloc::Global;

/// What is open.
#[derive(Drop)]
pub enum Store {
    Closed,
    Items(Lows),
    Sections(Plain),
}

/// Carries out a command. The answer is what is open then, and what the command says.
pub fn obey(
    alloc: Global,
    store: Store,
    dev: &mut Memory,
    step: &Step,
    told: &Told,
) -> (Store, Result<Said, Error>)
    requires { IsOpen dev.old store }
    ensures { IsOpen dev.new result.0 }
{
    match step.word() {
        "calls" | "faults" | "length" | "bytes" => (store, look(alloc, dev, step, told)),
        "blob" | "drop" | "damage" | "crash" | "fail" | "fuse" => {
            (Store::Closed, remake(alloc, dev, step))
        }
        "open"
        | "open-at-most"
        | "open-cut"
        | "open-restore"
        | "open-floors"
        | "open-elsewhere"
        | "manage"
        | "buffer" => open(alloc, dev, step),
        _ => match store {
            Store::Items(journal) => journals::obey(alloc, journal, dev, step, told),
            Store::Sections(sections) => managers::obey(alloc, sections, dev, step, told),
            Store::Closed => (Store::Closed, Ok(Said::Text("closed"))),
        },
    }
}

// Opens what the step names, or makes use of what is not open.
fn open(alloc: Global, dev: &mut Memory, step: &Step) -> (Store, Result<Said, Error>)
    ensures { IsOpen dev.new result.0 }
{
    match step.word() {
        "open" => or_closed(journals::open(alloc, dev, step), dev),
        "open-at-most" | "open-cut" | "open-restore" => {
            or_closed(journals::open_cut(alloc, dev, step), dev)
        }
        "open-floors" => or_closed(floors::open(alloc, dev, step), dev),
        "manage" => or_closed(managers::open(alloc, dev, step), dev),
        "open-elsewhere" => (Store::Closed, floors::elsewhere(alloc, dev, step)),
        _ => (Store::Closed, buffers::buffered(alloc, dev, step)),
    }
}

/// Nothing is open behind a refusal.
pub fn or_closed(done: Result<(Store, Said), Error>, dev: &Memory) -> (Store, Result<Said, Error>)
    requires { IfOk done (λ r. IsOpen dev.now r.0) }
    ensures { IsOpen dev.now result.0 }
{
    match done {
        Ok((store, said)) => (store, Ok(said)),
        Err(error) => (Store::Closed, Err(error)),
    }
}
