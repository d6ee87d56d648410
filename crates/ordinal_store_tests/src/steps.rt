// The steps over a store, each beside what the plain program says.
ghost use Rattle.std.specs.Prelude.{◌≡◌, ◌≤◌, ◌^◌, IfOk};
ghost use Rattle.ordinal_store_tests.specs.Over.{IsOver, MayBeOver};

use crate::disk::Bench;
use crate::images::image_of;
use crate::model::Call;
use crate::plainly::{Slots, slots_in, tell_refusal, value_in};
use crate::said::{add_number, tell_at};
use crate::stores::{self, FAULT, Store, called, holds_just, tell_error};
use crate::words::{call_in, number};
use blob_device::{Image, Memory};
use scenario_text::Step;
use std::alloc::{AllocError, Global};
use std::mem;

/// A call, and the image on which it begins.
#[derive(Drop)]
struct Begun {
    /// The call.
    call: Call,
    /// The image.
    image: Image,
}

/// Makes the call of a step, in the library and in the plain program. It says what the library answers, and where the
/// plain program answers something else, that too.
pub fn change(
    bench: &mut Bench,
    store: &mut Option<Store>,
    dev: &mut Memory,
    step: &Step,
    text: &mut String,
) -> Result<(), AllocError>
    requires { MayBeOver store.old dev.old }
    ensures { MayBeOver store.new dev.new }
{
    if !bench.config.is_valid() {
        return text.push_str("refused: not valid");
    }
    let begun = begun_by(bench, dev, step)?;
    make(bench, store, dev, &begun.call, text)?;
    judge_call(bench, store, &begun, text)
}

/// Gives the place this store.
pub fn put(place: &mut Option<Store>, store: Option<Store>)
    ensures { place.new ≡ store }
{
    *place = store;
}

// Reads the call and the image, and begins the call in the plain program.
fn begun_by(bench: &mut Bench, dev: &Memory, step: &Step) -> Result<Begun, AllocError>
    ensures { bench.new.config ≡ bench.old.config }
{
    let call = call_in(bench.alloc, step)?;
    bench
        .model
        .begin(bench.alloc, bench.config.items_per_blob, &call)?;
    let image = image_of(bench.alloc, dev)?;
    Ok(Begun { call, image })
}

// Makes the call, and tells why it is refused. A store whose call is refused is gone.
fn make(
    bench: &Bench,
    store: &mut Option<Store>,
    dev: &mut Memory,
    call: &Call,
    text: &mut String,
) -> Result<(), AllocError>
    requires valid { (1 ≤ bench.now.config.items_per_blob)
        × (bench.now.config.items_per_blob ≤ 2 ^ 40) }
    requires over { MayBeOver store.old dev.old }
    ensures { MayBeOver store.new dev.new }
{
    let before = mem::replace(store, None);
    match called(bench.alloc, dev, &bench.config, before, call) {
        Ok(after) => {
            put(store, after);
            Ok(())
        }
        Err(error) => tell_error(text, &error),
    }
}

// Ends the call in the plain program, and says what it answers, where that is something else.
fn judge_call(
    bench: &mut Bench,
    store: &Option<Store>,
    begun: &Begun,
    text: &mut String,
) -> Result<(), AllocError> {
    end(bench, store, begun, text)?;
    if text.as_str() == FAULT {
        return Ok(());
    }
    let mut plain = String::new(bench.alloc);
    tell_plainly(bench, begun, &mut plain)?;
    add_other(text, plain.as_str())
}

// Ends the call in the plain program, and says where the store then holds other indices.
fn end(
    bench: &mut Bench,
    store: &Option<Store>,
    begun: &Begun,
    text: &mut String,
) -> Result<(), AllocError> {
    if !text.is_empty() {
        bench.model.give_up(bench.alloc);
        return Ok(());
    }
    text.push_str("ok")?;
    end_well(bench, begun)?;
    judge_held(bench, store, text)
}

// The call ended well.
fn end_well(bench: &mut Bench, begun: &Begun) -> Result<(), AllocError> {
    let items = bench.config.items_per_blob;
    let slots = slots_in(bench.alloc, &begun.image, items)?;
    bench.model.end(bench.alloc, items, &begun.call, &slots)
}

// Says how the call has to end.
fn tell_plainly(bench: &Bench, begun: &Begun, plain: &mut String) -> Result<(), AllocError> {
    if let Call::Open(Some(marks)) = &begun.call {
        let items = bench.config.items_per_blob;
        tell_refusal(bench.alloc, &begun.image, items, marks, plain)?;
    }
    if plain.is_empty() {
        return plain.push_str("ok");
    }
    Ok(())
}

// Says where the store holds other indices than the plain program.
fn judge_held(bench: &Bench, store: &Option<Store>, text: &mut String) -> Result<(), AllocError> {
    match store {
        Some(store) if !holds_just(store, &bench.model.held) => {
            text.push_str(", but it holds other indices")
        }
        _ => Ok(()),
    }
}

// Adds what is said plainly, where that is something else.
fn add_other(text: &mut String, plain: &str) -> Result<(), AllocError> {
    if text.as_str() == plain {
        return Ok(());
    }
    write!(text, ", but plainly {plain}")
}

/// Reads a value, or asks for indices.
pub fn ask(
    bench: &Bench,
    store: &Store,
    dev: &mut Memory,
    step: &Step,
    text: &mut String,
) -> Result<(), AllocError>
    requires { IsOver store.now dev.old }
    ensures { IsOver store.now dev.new }
{
    if step.word() != "get" {
        return stores::ask(store, step, text);
    }
    let index = number(step, 0);
    read(store, dev, index, text)?;
    judge_value(bench, index, text)
}

// Says what the read has to answer, where that is something else.
fn judge_value(bench: &Bench, index: u64, text: &mut String) -> Result<(), AllocError> {
    if text.as_str() == FAULT {
        return Ok(());
    }
    let mut plain = String::new(bench.alloc);
    tell_value(&mut plain, &bench.model.held, index)?;
    add_other(text, plain.as_str())
}

// Reads a value, and tells it.
fn read(store: &Store, dev: &mut Memory, index: u64, text: &mut String) -> Result<(), AllocError>
    requires { IsOver store.now dev.old }
    ensures { IsOver store.now dev.new }
{
    match store.get(dev, index) {
        Ok(value) => add_number(text, value),
        Err(error) => tell_error(text, &error),
    }
}

// Tells what a read of these slots has to say.
fn tell_value(text: &mut String, slots: &Slots, index: u64) -> Result<(), AllocError> {
    let Some(slot) = slots.get(&index) else {
        return text.push_str("none");
    };
    match value_in(*slot) {
        None => tell_at(text, "invalid-record", index),
        value => add_number(text, value),
    }
}
