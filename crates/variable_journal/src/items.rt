// A list of items that a journal hands out.
ghost use Rattle.std.specs.Prelude.{◌≡◌, List};

use std::marker::Model;

/// Items, in the order in which they were asked for.
#[derive(Drop)]
pub struct Items<V> {
    /// The items.
    items: Vec<V>,
}

impl<V> Model for Items<V> {
    ghost use Rattle.std.specs.Prelude.{List};

    ghost Value = { List V };

    ghost view = { λ i. i.items.items };
}

impl<V> Items<V> {
    /// These items.
    pub(crate) fn from_vec(items: Vec<V>) -> Items<V>
        ensures { result ≡ items.items }
    {
        Items { items }
    }

    /// The items as a slice. It takes no memory.
    pub fn as_slice(&self) -> &[V]
        ensures { result.now ≡ self.now }
    {
        self.items.as_slice()
    }
}
