// Lookups over an archive that was filled, in an order that chance makes.
ghost use Rattle.archives.specs.Changes.{MayUse};

use crate::bench::key_of;
use crate::counts::Tally;
use crate::error::BenchError;
use archives::{Archive, Error, Identifier};
use blob_device::Device;
use rand::rngs::SmallRng;
use rand::seq::SliceRandom;
use rand_core::SeedableRng;
use std::alloc::{AllocError, Global};
use std::fmt;
use value_codec::{ByteValue, Key8};

// What the order is made from, so that each run has the same.
const SEED: u64 = 1;

/// Which lookups a phase makes.
#[derive(Clone, Copy, Debug, PartialEq, Eq)]
pub enum Look {
    /// By each index that was put.
    IndexHits,
    /// By indices that were not.
    IndexMisses,
    /// By each key that was put.
    KeyHits,
    /// By keys that were not.
    KeyMisses,
}

impl Look {
    /// All phases, in their order.
    pub const ALL: [Look; 4] = [
        Look::IndexHits,
        Look::IndexMisses,
        Look::KeyHits,
        Look::KeyMisses,
    ];

    /// What it is called where it is printed.
    pub fn name(self) -> &'static str {
        match self {
            Look::IndexHits => "index hits",
            Look::IndexMisses => "index misses",
            Look::KeyHits => "key hits",
            Look::KeyMisses => "key misses",
        }
    }
}

/// What a phase of lookups made.
#[derive(Clone, Copy, Debug, PartialEq, Eq)]
pub struct Looked {
    /// Which lookups.
    pub look: Look,
    /// How many of them gave a value.
    pub found: u64,
    /// The calls of all.
    pub tally: Tally,
}

impl fmt::Display for Looked {
    fn fmt<W: fmt::Write>(&self, f: &mut fmt::Formatter<W>) -> fmt::Result {
        write!(
            f,
            "{}: found {}, calls {}, index reads {}, value reads {}",
            self.look.name(),
            self.found,
            self.tally.calls(),
            self.tally.index.reads,
            self.tally.values.reads
        )
    }
}

/// The indices that were put, in the order in which they are looked up.
pub fn order_of(alloc: Global, puts: u64) -> Result<Vec<u64>, AllocError> {
    let mut order = Vec::new(alloc);
    for index in 0..puts {
        order.push(index)?;
    }
    order.shuffle(&mut SmallRng::seed_from_u64(SEED));
    Ok(order)
}

/// Makes a lookup for each index that was put, in this order. How many gave a value.
pub fn look_up<A, D: Device>(
    archive: &A,
    dev: &mut D,
    order: &[u64],
    look: Look,
) -> Result<u64, BenchError>
where
    A: Archive<Key = Key8, Value = ByteValue>,
    requires usable { MayUse A.meaning D.Device archive.now dev.old }
    ensures usable { MayUse A.meaning D.Device archive.now dev.new }
{
    let mut found: u64 = 0;
    for index in order {
        let behind = index.saturating_add(order.len() as u64);
        let has_value = match look {
            Look::IndexHits => has_at(archive, dev, *index)?,
            Look::IndexMisses => has_at(archive, dev, behind)?,
            Look::KeyHits => has_under(archive, dev, &key_of(*index))?,
            Look::KeyMisses => has_under(archive, dev, &key_of(behind))?,
        };
        found = found.saturating_add(u64::from(has_value));
    }
    Ok(found)
}

// Whether a lookup by an index gives a value.
fn has_at<'a, A, D: Device>(archive: &'a A, dev: &mut D, index: u64) -> Result<bool, Error>
where
    A: Archive<Value = ByteValue>,
    requires usable { MayUse A.meaning D.Device archive.now dev.old }
    ensures usable { MayUse A.meaning D.Device archive.now dev.new }
{
    let identifier: Identifier<'a, A::Key> = Identifier::Index(index);
    let value = archive.get(dev, identifier)?;
    Ok(value.is_some())
}

// Whether one by a key does.
fn has_under<A, D: Device>(archive: &A, dev: &mut D, key: &A::Key) -> Result<bool, Error>
where
    A: Archive<Value = ByteValue>,
    requires usable { MayUse A.meaning D.Device archive.now dev.old }
    ensures usable { MayUse A.meaning D.Device archive.now dev.new }
{
    let value = archive.get(dev, Identifier::Key(key))?;
    Ok(value.is_some())
}
