// A table of values, each by a partition and a name, in the order of their bytes.
ghost use Rattle.std.specs.Prelude.{◌≡◌, ◌≢◌, List, ℕ, Option, Some, None, OnOk, OnErr, IsSome};
ghost use Rattle.std.specs.Option.{option_copied, option_map};
ghost use Rattle.blob_device.specs.Disk.{Key, put};
ghost use Rattle.blob_device.specs.Tables.{at_name, at_key};

use std::alloc::{AllocError, Global};
use std::collections::BTreeMap;

/// Values by the name that each has in one partition.
pub type ByName<V> = BTreeMap<Vec<u8>, V>;

/// Values by partition and name.
#[derive(Drop)]
pub struct Table<V> {
    /// By partition, and in it by name, both ascending by their bytes (`at_key`).
    pub partitions: BTreeMap<Vec<u8>, BTreeMap<Vec<u8>, V>>,
}

impl<V: Drop> Table<V> {
    /// A table of nothing. It takes no memory.
    pub fn new(alloc: Global) -> Table<V>
        ensures { (k : Key) → at_key result.partitions k ≡ None }
    {
        Table {
            partitions: BTreeMap::new(alloc),
        }
    }

    /// The value at this partition and name.
    pub fn get(&self, partition: &[u8], name: &[u8]) -> Option<&V>
        ensures { option_copied result ≡ at_key self.now.partitions (partition.now, name.now) }
    {
        self.partitions.get(partition)?.get(name)
    }

    /// Puts a value at this partition and name. Where it finds no memory, nothing changes.
    pub fn insert(
        &mut self,
        alloc: Global,
        partition: &[u8],
        name: &[u8],
        value: V,
    ) -> Result<(), AllocError>
        ensures ok { OnOk result (at_key self.new.partitions ≡ put (at_key self.old.partitions) (partition.now, name.now) (Some value)) }
        ensures err { OnErr result (at_key self.new.partitions ≡ at_key self.old.partitions) }
    {
        make_partition(alloc, &mut self.partitions, partition)?;
        match self.partitions.get_mut(partition) {
            Some(names) => insert_name(alloc, names, name, value),
            None => unreachable!(),
        }
    }

    /// Puts another value in the place of the one at this partition and name, if there is one. It takes no memory.
    pub fn replace(&mut self, partition: &[u8], name: &[u8], value: V)
        ensures { at_key self.new.partitions ≡ put (at_key self.old.partitions) (partition.now, name.now) (option_map (λ _. value) (at_key self.old.partitions (partition.now, name.now))) }
    {
        if let Some(names) = self.partitions.get_mut(partition) {
            replace_name(names, name, value);
        }
    }

    /// Takes the value away, if there is one.
    pub fn remove(&mut self, partition: &[u8], name: &[u8])
        ensures { at_key self.new.partitions ≡ put (at_key self.old.partitions) (partition.now, name.now) None }
    {
        if let Some(names) = self.partitions.get_mut(partition) {
            remove_name(names, name);
        }
    }
}

fn replace_name<V: Drop>(names: &mut BTreeMap<Vec<u8>, V>, name: &[u8], value: V)
    ensures here { at_name names.new name.now ≡ option_map (λ _. value) (at_name names.old name.now) }
    ensures others { (q : List ℕ) → q ≢ name.now → at_name names.new q ≡ at_name names.old q }
{
    if let Some(place) = names.get_mut(name) {
        *place = value;
    }
}

fn remove_name<V: Drop>(names: &mut BTreeMap<Vec<u8>, V>, name: &[u8])
    ensures here { at_name names.new name.now ≡ None }
    ensures others { (q : List ℕ) → q ≢ name.now → at_name names.new q ≡ at_name names.old q }
{
    names.remove(name);
}

/// Makes the partition where it is absent, with no name.
pub fn make_partition<V: Drop>(
    alloc: Global,
    partitions: &mut BTreeMap<Vec<u8>, BTreeMap<Vec<u8>, V>>,
    partition: &[u8],
) -> Result<(), AllocError>
    ensures same { at_key partitions.new ≡ at_key partitions.old }
    ensures present { OnOk result (IsSome (at_name partitions.new partition.now)) }
{
    if partitions.contains_key(partition) {
        return Ok(());
    }
    let key = partition.to_vec(alloc)?;
    partitions.insert(key, BTreeMap::new(alloc))?;
    Ok(())
}

fn insert_name<V: Drop>(
    alloc: Global,
    names: &mut BTreeMap<Vec<u8>, V>,
    name: &[u8],
    value: V,
) -> Result<(), AllocError>
    ensures here { OnOk result (at_name names.new name.now ≡ Some value) }
    ensures others { OnOk result ((q : List ℕ) → q ≢ name.now → at_name names.new q ≡ at_name names.old q) }
    ensures err { OnErr result ((q : List ℕ) → at_name names.new q ≡ at_name names.old q) }
{
    let key = name.to_vec(alloc)?;
    names.insert(key, value)?;
    Ok(())
}
