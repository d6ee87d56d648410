//! The machine of records on one plain list, in the order in which the records were put. It is slow, since each command
//! scans the list, and made to be read beside the definitions: the archive on the device is compared with it.
ghost use Rattle.std.specs.Prelude.{◌≤◌};

mod asking;
mod changing;

use std::alloc::Global;

/// A record as it was put.
#[derive(Drop)]
pub struct Item<K, V> {
    // as the put gave it
    index: u64,
    // as the put gave it
    key: K,
    // as the put gave it
    value: V,
    // false from the put on, and true from the next sync on
    is_synced: bool,
}

/// A machine of records, in sections of so many indices.
#[derive(Drop)]
pub struct Machine<K, V> {
    // for the records, and for the sets of indices that are made of them
    alloc: Global,
    // how many indices a section has room for, as `new` was told: no call changes it
    items_per_section: u64,
    // so that each index has its section
    ghost has_items: { 1 ≤ items_per_section },
    // in the order of the puts: none has an index below the floor, and a closed machine has none
    items: Vec<Item<K, V>>,
    // no record below it is kept or put: the start of a section, 0 from a reopening up to a prune
    floor: u64,
    // false from a destroy up to a reopening
    is_open: bool,
}
