// The store, and what is asked of it.
ghost use Rattle.std.specs.Prelude.{◌≤◌, ◌^◌, IfOk};
ghost use Rattle.ordinal_store_tests.specs.Over.{IsOver, MayBeOver};

use crate::asked::Marks;
use crate::model::Call;
use crate::plainly::{Slot, Slots, value_in};
use crate::said::{add_gap, add_number, add_numbers, add_ranges, tell_at};
use crate::words::number;
use blob_device::Memory;
use ordinal_store::ordinal::{Config, Error, Ordinal};
use scenario_text::Step;
use std::alloc::{AllocError, Global};
use value_codec::Sha256Seal;

/// A store of numbers of eight bytes.
pub type Store = Ordinal<u64, Sha256Seal>;

/// Opens the store.
pub fn opened(
    alloc: Global,
    dev: &mut Memory,
    config: &Config,
    marks: &Option<Marks>,
) -> Result<Store, Error>
    requires { (1 ≤ config.now.items_per_blob) × (config.now.items_per_blob ≤ 2 ^ 40) }
    ensures { IfOk result (λ o. IsOver o dev.new) }
{
    Ordinal::init(alloc, dev, config, marks.as_ref())
}

// Puts the value at the index.
fn put_at(dev: &mut Memory, store: Store, index: u64, value: u64) -> Result<Store, Error>
    requires { IsOver store dev.old }
    ensures { IfOk result (λ o. IsOver o dev.new) }
{
    store.put(dev, index, &value)
}

/// Opens the store, or makes a call on an open one. The answer is the store, where it is open then.
pub fn called(
    alloc: Global,
    dev: &mut Memory,
    config: &Config,
    store: Option<Store>,
    call: &Call,
) -> Result<Option<Store>, Error>
    requires valid { (1 ≤ config.now.items_per_blob) × (config.now.items_per_blob ≤ 2 ^ 40) }
    requires over { MayBeOver store dev.old }
    ensures { IfOk result (λ r. MayBeOver r dev.new) }
{
    match call {
        Call::Open(marks) => reopened(alloc, dev, config, marks),
        _ => changed_open(dev, store, call),
    }
}

// Opens the store anew.
fn reopened(
    alloc: Global,
    dev: &mut Memory,
    config: &Config,
    marks: &Option<Marks>,
) -> Result<Option<Store>, Error>
    requires { (1 ≤ config.now.items_per_blob) × (config.now.items_per_blob ≤ 2 ^ 40) }
    ensures { IfOk result (λ r. MayBeOver r dev.new) }
{
    let store = opened(alloc, dev, config, marks)?;
    Ok(Some(store))
}

// Makes a call on the store, if it is open.
fn changed_open(dev: &mut Memory, store: Option<Store>, call: &Call) -> Result<Option<Store>, Error>
    requires { MayBeOver store dev.old }
    ensures { IfOk result (λ r. MayBeOver r dev.new) }
{
    match store {
        Some(store) => changed(dev, store, call),
        None => Ok(None),
    }
}

// Makes a call on an open store.
fn changed(dev: &mut Memory, store: Store, call: &Call) -> Result<Option<Store>, Error>
    requires { IsOver store dev.old }
    ensures { IfOk result (λ r. MayBeOver r dev.new) }
{
    match call {
        Call::Open(_) => Ok(Some(store)),
        Call::Put(index, value) => Ok(Some(put_at(dev, store, *index, *value)?)),
        Call::Sync => Ok(Some(store.sync(dev)?)),
        Call::Prune(min) => Ok(Some(store.prune(dev, *min)?)),
        Call::Destroy => {
            store.destroy(dev)?;
            Ok(None)
        }
    }
}

/// Whether the store holds just these indices.
pub fn holds_just(store: &Store, slots: &Slots) -> bool {
    let mut is_each = true;
    for (index, _) in slots.iter() {
        is_each &= store.has(*index);
    }
    is_each && count_of(store) == slots.len() as u64
}

// How many indices the store holds.
fn count_of(store: &Store) -> u64 {
    let mut count = 0_u64;
    for (start, end) in store.ranges() {
        count = count
            .saturating_add(end.saturating_sub(start))
            .saturating_add(1);
    }
    count
}

/// Whether the store holds just these slots, and answers the value of each.
pub fn has_slots(store: &Store, dev: &mut Memory, slots: &Slots) -> bool
    requires { IsOver store.now dev.old }
{
    let mut is_each = holds_just(store, slots);
    'slots: for (index, slot) in slots.iter() {
        is_each &= has_slot(store, dev, *index, *slot);
    }
    is_each
}

// Whether the store answers the value of the slot, or that it has none.
fn has_slot(store: &Store, dev: &mut Memory, index: u64, slot: Slot) -> bool
    requires { IsOver store.now dev.old }
    ensures { IsOver store.now dev.new }
{
    match store.get(dev, index) {
        Ok(value) => value.is_some() && value == value_in(slot),
        Err(Error::InvalidRecord(at)) => at == index && value_in(slot).is_none(),
        Err(_) => false,
    }
}

/// Asks for indices, with no call of the device.
pub fn ask(store: &Store, step: &Step, text: &mut String) -> Result<(), AllocError> {
    let at = number(step, 0);
    match step.word() {
        "has" => text.push_str(if store.has(at) { "yes" } else { "no" }),
        "ranges" => tell_ranges(store, step, text),
        "next-gap" => add_gap(text, store.next_gap(at)),
        "missing" => tell_missing(store, at, number(step, 1), text),
        word => tell_end(store, word, text),
    }
}

// Tells the runs of indices, or those that end at a number or later.
fn tell_ranges(store: &Store, step: &Step, text: &mut String) -> Result<(), AllocError> {
    if step.rest().is_empty() {
        return add_ranges(text, store.ranges());
    }
    add_ranges(text, store.ranges_from(number(step, 0)))
}

// Tells so many absent indices.
fn tell_missing(store: &Store, at: u64, count: u64, text: &mut String) -> Result<(), AllocError> {
    match store.missing_items(at, (count as usize).max(1)) {
        Ok(numbers) => add_numbers(text, numbers.as_slice()),
        Err(_) => Err(AllocError),
    }
}

// Tells the least index or the greatest one.
fn tell_end(store: &Store, word: &str, text: &mut String) -> Result<(), AllocError> {
    match word {
        "first" => add_number(text, store.first_index()),
        "last" => add_number(text, store.last_index()),
        _ => text.push_str("refused: no such command"),
    }
}

/// What is said where the device failed.
pub const FAULT: &str = "error runtime fault";

/// Tells an error.
pub fn tell_error(text: &mut String, error: &Error) -> Result<(), AllocError> {
    match error {
        Error::Runtime(_) => text.push_str(FAULT),
        Error::InvalidBlobName(name) => write!(text, "error invalid-blob-name {name}"),
        Error::InvalidRecord(index) => tell_at(text, "invalid-record", *index),
        Error::MissingRecord(index) => tell_at(text, "missing-record", *index),
        Error::Full => text.push_str("error full"),
        Error::Mem => text.push_str("error memory"),
    }
}
