// The keys of a map, in ascending order.
ghost use Rattle.std.specs.Prelude.{◌≡◌, length};
ghost use Rattle.std.specs.Map.Iter.{TakesFirst, deref};
ghost use Rattle.std.specs.Iterator.{at_most};

use std::collections::btree_map;
use value_codec::Key;

/// The keys of a map that are left, in ascending order.
#[derive(Drop)]
pub struct KeyIter<'a, K: Key, V> {
    /// The map's own iterator, over the keys that are left.
    inner: btree_map::Keys<'a, K, V>,
}

impl<'a, K: Key, V> KeyIter<'a, K, V> {
    pub(crate) fn over(inner: btree_map::Keys<'a, K, V>) -> KeyIter<'a, K, V>
        ensures { result.inner ≡ inner.entry }
    {
        KeyIter { inner }
    }
}

impl<'a, K: Key, V> Iterator for KeyIter<'a, K, V> {
    type Item = &'a K;

    ghost next_gives = { λ s r t. TakesFirst deref s.inner r t.inner };

    ghost remaining = { λ s. at_most (length s.inner) };

    fn next(&mut self) -> Option<&'a K> {
        self.inner.next()
    }
}
