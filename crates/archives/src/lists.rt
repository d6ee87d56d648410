// The list types of replies. A range of indices is a run: the longest that there is, with both its ends.
ghost use Rattle.std.specs.Prelude.{◌≡◌, IfOk, map};

use ordinal_store::RangeIter;
use std::alloc::{AllocError, Global};
use std::marker::Model;

/// A list of runs of indices, each from its first to its last.
#[derive(Debug, Drop)]
pub struct Pairs {
    // the pairs, in the order of the answer
    items: Vec<(u64, u64)>,
}

impl Model for Pairs {
    ghost use Rattle.std.specs.Prelude.{List, ℕ};

    ghost Value = { List (ℕ × ℕ) };

    ghost view = { λ p. p.items.items };
}

impl Pairs {
    /// The list that a `Vec` holds.
    pub(crate) fn from_vec(items: Vec<(u64, u64)>) -> Pairs
        ensures { result ≡ items.items }
    {
        Pairs { items }
    }

    /// The runs that are left to give.
    pub fn from_ranges(alloc: Global, ranges: RangeIter<'_>) -> Result<Pairs, AllocError>
        ensures { IfOk result (λ pairs. pairs ≡ ranges.entry) }
    {
        Ok(Pairs::from_vec(ranges.collect(alloc)?))
    }

    /// The runs, in the list's order.
    pub fn as_slice(&self) -> &[(u64, u64)]
        ensures { result.now ≡ self.now }
    {
        self.items.as_slice()
    }
}

/// A list of values.
#[derive(Debug, Drop)]
pub struct Values<V> {
    // in the order in which they were put
    items: Vec<V>,
}

impl<V> Model for Values<V> {
    ghost use Rattle.std.specs.Prelude.{List};

    ghost Value = { List V };

    ghost view = { λ v. v.items.items };
}

impl<V> Values<V> {
    /// The list that a `Vec` holds.
    pub(crate) fn from_vec(items: Vec<V>) -> Values<V>
        ensures { result ≡ items.items }
    {
        Values { items }
    }

    /// The values, in the list's order.
    pub fn as_slice(&self) -> &[V]
        ensures { result.now ≡ self.now }
    {
        self.items.as_slice()
    }
}

/// A list of keys, each with a value.
#[derive(Debug, Drop)]
pub struct Entries<K, V> {
    // in the order in which they were put
    items: Vec<(K, V)>,
}

impl<K, V> Model for Entries<K, V> {
    ghost use Rattle.std.specs.Prelude.{List};

    ghost Value = { List (K × V) };

    ghost view = { λ e. e.items.items };
}

impl<K: Drop, V: Drop> Entries<K, V> {
    /// The list that a `Vec` holds.
    pub(crate) fn from_vec(items: Vec<(K, V)>) -> Entries<K, V>
        ensures { result ≡ items.items }
    {
        Entries { items }
    }

    /// The keys and their values, in the list's order.
    pub fn as_slice(&self) -> &[(K, V)]
        ensures { result.now ≡ self.now }
    {
        self.items.as_slice()
    }

    /// The values alone, in a list of their own, which takes memory.
    pub(crate) fn into_values(self, alloc: Global) -> Result<Values<V>, AllocError>
        ensures { IfOk result (λ values. values ≡ map (λ e. e.1) self) }
    {
        let values = self.items.into_iter().map(|(_, value)| value);
        Ok(Values::from_vec(values.collect(alloc)?))
    }
}
