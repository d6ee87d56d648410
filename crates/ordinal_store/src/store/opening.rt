// Opening a store.
ghost use Rattle.std.specs.Prelude.{◌≡◌, ◌↔◌, ◌≤◌, ℕ, List, IsSomeAnd, IsTrue};
ghost use Rattle.std.specs.Prelude.{map as list_map};
ghost use Rattle.std.specs.Int.{w64, to_be_bytes};
ghost use Rattle.std.specs.BTreeMap.{get};
ghost use Rattle.std.specs.Ordering.{nat_cmp};
ghost use Rattle.blob_device.specs.Disk.{AreNamesIn};
ghost use Rattle.blob_device.specs.Timeline.{disk};
ghost use Rattle.ordinal_store.specs.Emptying.{Emptying, IsIn, IsUnkept};
ghost use Rattle.ordinal_store.specs.Reopening.{HasWanted, Listing};
ghost use Rattle.ordinal_store.specs.Slots.{Layout};
ghost use Rattle.ordinal_store.specs.Stores.{sight};

use crate::BitMap;
use crate::checking::is_kept;
use crate::names::section_numbers;
use crate::ordinal::Error;
use blob_device::{Device, Names};
use std::alloc::Global;
use std::collections::BTreeMap;

// Removes the blobs of these names, one after another.
fn remove_named<D: Device>(dev: &mut D, partition: &str, names: &Names) -> Result<(), Error>
    requires named { D.Tells → AreNamesIn (disk (D.time dev.old)) partition.now names.now }
    ensures { Emptying (IsIn partition.now) D.Tells result (sight D.Device dev.old)
        (sight D.Device dev.new) }
{
    for i in 0..names.len() {
        let Some(name) = names.get(i) else { break };
        // The first that fails ends the call, so an Ok says that all are gone for good.
        dev.remove(partition, name)?;
    }
    Ok(())
}

// Removes every blob of the partition, whatever its name.
pub(super) fn remove_all<D: Device>(
    alloc: Global,
    dev: &mut D,
    partition: &str,
) -> Result<(), Error>
    ensures { Emptying (IsIn partition.now) D.Tells result (sight D.Device dev.old)
        (sight D.Device dev.new) }
{
    // The names come first: a removal makes none, so these are all that there will be.
    let names = dev.scan(alloc, partition)?;
    remove_named(dev, partition, &names)
}

// The numbers of the sections that have a blob. It refuses the first name that is no section's.
pub(super) fn listed<D: Device>(
    alloc: Global,
    dev: &mut D,
    partition: &str,
) -> Result<Vec<u64>, Error>
    ensures { Listing (λ r. r.items) D.Tells partition.now result (sight D.Device dev.old)
        (sight D.Device dev.new) }
{
    let names = dev.scan(alloc, partition)?;
    section_numbers(alloc, &names)
}

// Whether the map has a wanted slot of the section.
fn is_named(map: &BTreeMap<u64, Option<BitMap>>, section: u64) -> bool
    ensures { (items : ℕ) → 1 ≤ items → IsTrue result
        ↔ IsSomeAnd (get nat_cmp map.now section) (HasWanted items) }
{
    match map.get(&section) {
        None => false,
        Some(marks) => is_kept(marks),
    }
}

// Removes the blobs of the sections that are not kept, one after another.
pub(super) fn remove_unkept<D: Device>(
    dev: &mut D,
    partition: &str,
    numbers: &[u64],
    map: &BTreeMap<u64, Option<BitMap>>,
) -> Result<(), Error>
    requires named { D.Tells → AreNamesIn (disk (D.time dev.old)) partition.now
        (list_map (to_be_bytes w64) numbers.now) }
    ensures { (l : Layout) → l.partition ≡ partition.now → 1 ≤ l.items
        → Emptying (IsUnkept l (get nat_cmp map.now)) D.Tells result (sight D.Device dev.old)
        (sight D.Device dev.new) }
{
    for number in numbers {
        if is_named(map, *number) {
            continue;
        }
        let name = number.to_be_bytes();
        // Before a section is opened, and for good: the first that fails ends the call.
        dev.remove(partition, name.as_slice())?;
    }
    Ok(())
}
