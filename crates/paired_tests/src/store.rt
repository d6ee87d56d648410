// What is open, and the commands over it.
ghost use Rattle.std.specs.Prelude.{◌≡◌, IfOk};
ghost use Rattle.blob_device.specs.MemoryMeaning.{memory_opened, memory_time};
ghost use Rattle.paired_tests.specs.Stores.{IsOpen};

use crate::content::Content;
use crate::disk::{Bench, count, look, remake};
use crate::notes::Note;
use crate::said::Said;
use crate::words::{Family, Order, family_of, number, order_of};
use crate::{globs, pairs, walks};
use blob_device::{Device, Memory};
use paired::glob;
use paired::oversized::{Oversized, Replay};
use scenario_text::Step;
use segments::journal::Error;
use std::alloc::Global;
use value_codec::{Codec, Sha256Seal};

/// A pair of notes with their values.
pub type Notes = Oversized<Note, Content, Sha256Seal>;

/// A replay over such a pair.
pub type Replayed = Replay<Note, Content, Sha256Seal>;

/// A glob of such values.
pub type Values = glob::Glob<Content, Sha256Seal>;

/// Such a glob under recovery.
pub type Mended = glob::Recovery<Content, Sha256Seal>;

/// What is open.
#[derive(Drop)]
pub enum Store {
    Closed,
    Pair(Notes),
    Walk(Replayed),
    Glob(Values),
    Mend(Mended),
}

/// Carries out a command. The answer is what is open then, and what the command says.
pub fn obey(
    bench: &mut Bench,
    store: Store,
    dev: &mut Memory,
    step: &Step,
) -> (Store, Result<Said, Error>)
    requires { IsOpen dev.old store }
    ensures { IsOpen dev.new result.0 }
{
    match family_of(step.word()) {
        Family::Ask => ask(bench.alloc, store, dev, step),
        Family::Change => match order_of(bench.alloc, step) {
            Ok(order) => or_closed(changed(store, dev, step.word(), &order), dev),
            Err(error) => (store, Err(error)),
        },
        Family::OpenPair => or_closed(pairs::open(bench.alloc, dev, step), dev),
        Family::OpenGlob => or_closed(globs::open(bench.alloc, dev, step), dev),
        Family::Remake => (Store::Closed, remake(bench, dev, step)),
        Family::Arm => arm(store, dev, step),
        Family::Count => (store, Ok(count(bench, dev, step))),
        _ => (store, look(bench, dev, step)),
    }
}

// Nothing is open behind an error.
fn or_closed(done: Result<(Store, Said), Error>, dev: &Memory) -> (Store, Result<Said, Error>)
    requires { IfOk done (λ r. IsOpen dev.now r.0) }
    ensures { IsOpen dev.now result.0 }
{
    match done {
        Ok((store, said)) => (store, Ok(said)),
        Err(error) => (Store::Closed, Err(error)),
    }
}

// Tells the device which calls fail.
fn arm(store: Store, dev: &mut Memory, step: &Step) -> (Store, Result<Said, Error>)
    requires { IsOpen dev.old store }
    ensures { IsOpen dev.new result.0 }
{
    (store, told(dev, step))
}

// The calls are counted from now on.
fn told(dev: &mut Memory, step: &Step) -> Result<Said, Error>
    ensures opened { memory_opened dev.new ≡ memory_opened dev.old }
    ensures time { memory_time dev.new ≡ memory_time dev.old }
{
    let nth = dev.calls().saturating_add(number(step, 0));
    if step.word() == "fuse" {
        dev.fuse_at(nth);
        return Ok(Said::Done);
    }
    dev.fail_at(nth)?;
    Ok(Said::Done)
}

// Asks what is open.
fn ask(alloc: Global, store: Store, dev: &mut Memory, step: &Step) -> (Store, Result<Said, Error>)
    requires { IsOpen dev.old store }
    ensures { IsOpen dev.new result.0 }
{
    match store {
        Store::Closed => (Store::Closed, Ok(Said::Refused("nothing is open"))),
        Store::Pair(pair) => {
            let answer = pairs::ask(&pair, dev, step);
            (Store::Pair(pair), answer)
        }
        Store::Walk(mut walk) => {
            let answer = walks::go_over(alloc, &mut walk, dev, number(step, 0));
            (Store::Walk(walk), answer)
        }
        Store::Glob(values) => {
            let answer = globs::ask(alloc, &values, dev, step);
            (Store::Glob(values), answer)
        }
        Store::Mend(values) => {
            let answer = globs::check(alloc, &values, dev, step);
            (Store::Mend(values), answer)
        }
    }
}

// Makes the change that this word names.
fn changed(
    store: Store,
    dev: &mut Memory,
    word: &str,
    order: &Order,
) -> Result<(Store, Said), Error>
    requires open { IsOpen dev.old store }
    requires value { ⟦<Content as Codec>⟧.accepted order.now.value tt }
    ensures { IfOk result (λ r. IsOpen dev.new r.0) }
{
    match store {
        Store::Closed => Ok((Store::Closed, Said::Refused("nothing is open"))),
        Store::Pair(pair) => pairs::change(pair, dev, word, order),
        Store::Walk(walk) => match word {
            "finish" => walks::finished(walk, dev),
            "finish-tracked" => Ok((Store::Pair(walk.finish_tracked(dev)?), Said::Done)),
            _ => Ok((Store::Closed, Said::Refused("no such command"))),
        },
        Store::Glob(values) => {
            if word == "append" {
                return globs::append(values, dev, order);
            }
            globs::change(values, dev, word, order)
        }
        Store::Mend(values) => globs::cut(values, dev, word, order),
    }
}
