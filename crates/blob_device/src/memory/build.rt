// Tables that are made of other tables, value by value.
ghost use Rattle.std.specs.Prelude.{◌≡◌, List, ℕ, Option, Some, None, OnOk, IfOk};
ghost use Rattle.std.specs.Option.{option_map, option_and_then};
ghost use Rattle.std.specs.Map.{keys_of};
ghost use Rattle.std.specs.List.Sorted.{IsStrictlySortedBy};
ghost use Rattle.blob_device.specs.Disk.{Key};
ghost use Rattle.blob_device.specs.Tables.{at_name, at_key, by_bytes};
ghost use Rattle.blob_device.specs.Building.{placed, names_built, after_all, state_at, IsSortedTable};

use crate::table::Table;
use std::alloc::{AllocError, Global};
use std::collections::BTreeMap;

/// Makes a value of another, or none, and moves a state along.
pub trait Make<V, W: Drop> {
    /// What a contract sees of what is made.
    ghost Seen: { Type 0 };

    ghost sees: { W → Seen };

    ghost makes: { Self → V → Option Seen };

    ghost next: { Self → V → Self };

    fn make(&mut self, alloc: Global, value: &V) -> Result<Option<W>, AllocError>
        ensures made { IfOk result (λ o. option_map sees o ≡ makes self.old value.now) }
        ensures next { OnOk result (self.new ≡ next self.old value.now) };
}

fn place<W: Drop>(
    alloc: Global,
    names: &mut BTreeMap<Vec<u8>, W>,
    name: &[u8],
    made: Option<W>,
) -> Result<(), AllocError>
    ensures { OnOk result ((q : List ℕ) → at_name names.new q ≡ placed (at_name names.old) name.now made q) }
{
    if let Some(value) = made {
        let key = name.to_vec(alloc)?;
        names.insert(key, value)?;
    }
    Ok(())
}

fn build_names<V, W: Drop, M: Make<V, W>>(
    alloc: Global,
    names: &BTreeMap<Vec<u8>, V>,
    maker: &mut M,
) -> Result<BTreeMap<Vec<u8>, W>, AllocError>
    ensures made { IfOk result (λ m. (q : List ℕ) → option_map M.sees (at_name m q) ≡ names_built M.makes M.next maker.old names.now.entries (λ _. None) q) }
    ensures sorted { OnOk result (IsStrictlySortedBy by_bytes (keys_of names.now.entries)) }
    ensures next { OnOk result (maker.new ≡ after_all M.next maker.old names.now.entries) }
{
    let mut built = BTreeMap::new(alloc);
    for (name, value) in names.iter() {
        let made = maker.make(alloc, value)?;
        place(alloc, &mut built, name.as_slice(), made)?;
    }
    Ok(built)
}

/// The table of what is made of each value, in the order of the keys.
pub fn build_table<V, W: Drop, M: Make<V, W>>(
    alloc: Global,
    table: &Table<V>,
    maker: &mut M,
) -> Result<Table<W>, AllocError>
    ensures made { IfOk result (λ t. (k : Key) → option_map M.sees (at_key t.partitions k) ≡ option_and_then (M.makes (state_at M.next maker.old table.now.partitions.entries k)) (at_key table.now.partitions k)) }
    ensures sorted { OnOk result (IsSortedTable table.now.partitions.entries) }
{
    let mut built = BTreeMap::new(alloc);
    for (partition, names) in table.partitions.iter() {
        let made = build_names(alloc, names, maker)?;
        place(alloc, &mut built, partition.as_slice(), Some(made))?;
    }
    Ok(Table { partitions: built })
}
