// How the bytes of a blob read as a copy.
ghost use Rattle.std.specs.Prelude.{◌≡◌};

use std::marker::Model;

/// The entries of a copy, in ascending order of their keys.
#[derive(Drop)]
pub struct CopyEntries<K, V> {
    /// The entries. Of a copy that was read, the keys ascend strictly (`IsEntries.ascending`).
    items: Vec<(K, V)>,
}

impl<K, V> Model for CopyEntries<K, V> {
    ghost use Rattle.std.specs.Prelude.{List};

    ghost Value = { List (K × V) };

    ghost view = { λ e. e.items.items };
}

impl<K, V> CopyEntries<K, V> {
    pub(crate) fn from_vec(items: Vec<(K, V)>) -> CopyEntries<K, V>
        ensures { result ≡ items.items }
    {
        CopyEntries { items }
    }

    pub(crate) fn into_vec(self) -> Vec<(K, V)>
        ensures { result.items ≡ self }
    {
        let CopyEntries { items } = self;
        items
    }

    /// The entries. It takes no memory.
    pub fn as_slice(&self) -> &[(K, V)]
        ensures { result.now ≡ self.now }
    {
        self.items.as_slice()
    }
}

/// What a copy holds.
#[derive(Drop)]
pub struct Contents<K, V> {
    /// The floor; 0 where the copy names none.
    pub floor: u64,
    /// The map.
    pub entries: CopyEntries<K, V>,
}

/// How bytes read as a copy.
#[derive(Drop)]
pub enum CopyText<K, V> {
    /// There is no copy: the bytes are shorter than they say, or the seal fails.
    Absent,
    /// The seal holds, but what it seals is no text of a map.
    Refused {
        /// The version that it names.
        version: u64,
    },
    /// A copy of a map.
    Whole {
        /// The greater of two versions is the newer one.
        version: u64,
        /// The floor; 0 in a copy of form 1, which names none.
        floor: u64,
        /// The map.
        entries: CopyEntries<K, V>,
    },
}

/// What a copy has behind its version, up to the length of its body.
#[derive(Clone, Copy)]
pub enum Form {
    /// A number other than 2, and no floor. A text has the number 1.
    Plain(u8),
    /// The number 2, and a floor. A text has one above 0.
    Floored(u64),
}
