// A map in two copies, and its calls.
//
// All entries are in memory, and changes are staged there. A sync makes them durable together.
//
// # Format
//
// The map stands in two blobs of a partition, `left` and `right`. Each begins with a copy, or has none:
//
//     +---------+------+-----------------+------+---------------+
//     | version | form | length of body  | body | seal of all   |
//     | 8 bytes |      | 8               |      | before it, 4  |
//     +---------+------+-----------------+------+---------------+
//
//     form 1: | 1, one byte |              the floor is 0
//     form 2: | 2, one byte | floor, 8 |   the floor is above 0
//     body:   | number of entries, 8 | entry | entry | ..
//     entry:  | key | length of the spelling, 4 | spelling of the value |
//
// Numbers are big-endian, keys ascend strictly, and bytes after the seal are ignored. A copy whose form begins with
// any other number is as long as one of form 1, and no text. Of two copies the one with the greater version gives map
// and floor. With no copy the map is empty and the floor 0.
//
// # Sync
//
// A sync writes map and floor as the next version over the older or absent copy, and settles that blob. The
// newer copy is not touched. With nothing staged no call is made.
//
//                 left         right
//     sync 1      version 1    none
//     sync 2      version 1    version 2
//     sync 3      version 3    version 2
//
// # Crashes
//
// At every moment a crash leaves map and floor as they were synced last, or as the sync under way writes them, a
// chance seal aside. Where the copy that is written is torn, its seal fails, and the other one counts. `destroy`
// removes the older copy first, so an older map never comes back.
//
// # Cost
//
// An opening makes four calls: two openings and two reads. A sync with a change makes two, a write and a
// sync, and `destroy` two. All other calls make none.
ghost use Rattle.std.specs.Prelude.{◌≡◌, ◌≤◌, ◌↔◌, string_len, IsTrue};
ghost use Rattle.std.specs.Option.{option_copied, option_copied_mut};
ghost use Rattle.meta_store.specs.Format.{format_of};
ghost use Rattle.meta_store.specs.Entries.{AnswersAt, AreKeys, keys_left, value_at};

mod opening;
mod reading;
mod removing;
mod syncing;
mod writing;

use crate::{Error, KeyIter, Side};
use std::alloc::Global;
use std::collections::BTreeMap;
use std::marker::PhantomData;
use value_codec::{Codec, Key, Seal};

/// Where a map is kept, and how its values are read.
#[derive(Drop)]
pub struct Config<C> {
    /// The partition of the blobs `left` and `right`. Other blobs in it are left alone.
    pub partition: String,
    /// What the decoder of the values needs to know.
    pub codec_config: C,
}

impl<C> Config<C> {
    /// Whether the partition has a name.
    pub fn is_valid(&self) -> bool
        ensures { IsTrue result ↔ (1 ≤ string_len self.now.partition) }
    {
        !self.partition.is_empty()
    }
}

/// A map and a floor that are kept in two copies on a device.
///
/// Changes are staged in memory, and a sync writes them as the next version over the older copy. A call that
/// takes the map and is refused gives it up; it is then opened again.
#[derive(Drop)]
pub struct Metadata<K: Key, V: Codec, S: Seal> {
    /// Where memory for entries and copies comes from.
    alloc: Global,
    /// The partition of both copies.
    partition: String,
    /// What the codec of the values asks for. The copies were read under it.
    codec_config: V::Cfg,
    /// The map with its staged changes, ascending by key. With none staged it is as synced (`Stands.fresh`).
    entries: BTreeMap<K, V>,
    /// The floor with its staged changes, which never falls. With none staged it is as synced (`Stands.fresh`).
    floor: u64,
    /// The greater version of the two copies; 0 where there is none (`Stands.pair`).
    version: u64,
    /// The side of the older or absent copy, which the next sync writes over (`Stands.pair`).
    older: Side,
    /// Whether there was a change since the opening or the last sync (`Stands.fresh`).
    staged: bool,
    /// The kind of seal; no data.
    seal: PhantomData<S>,
}

impl<K: Key, V: Codec, S: Seal> Metadata<K, V, S> {
    ghost use Rattle.meta_store.specs.Lends.{lends_value};
    ghost use Rattle.meta_store.specs.Staging.{Puts, Retains, SetsFloor};
    ghost use Rattle.meta_store.specs.Store.{seen, shown};
    ghost use Rattle.std.specs.Borrow.{sem};

    /// The value of a key. It takes no memory.
    pub fn get(&self, key: &K) -> Option<&V>
        ensures { option_copied result ≡ value_at K.cmp (shown self.now).entries key.now }
    {
        self.entries.get(key)
    }

    /// The keys, in ascending order. It takes no memory.
    pub fn keys(&self) -> KeyIter<'_, K, V>
        ensures { AreKeys K.cmp (shown self.now).entries (keys_left result) }
    {
        KeyIter::over(self.entries.keys())
    }

    /// The floor, with what is staged. It takes no memory.
    pub fn floor(&self) -> u64
        ensures { result ≡ (shown self.now).floor }
    {
        self.floor
    }

    /// Gives a key this value, which is a change also where the key has it. After an Err the map is as before.
    pub fn put(&mut self, key: K, value: V) -> Result<(), Error>
        ensures { Puts (format_of K.cmp K.key_bytes V.Codec S.Seal) (seen self.old) (seen self.new)
            key value result }
    {
        self.entries.insert(key, value)?;
        self.staged = true;
        Ok(())
    }

    /// The value of a key, to be changed in place. Where the key is there, that is a change. It takes no memory.
    pub fn get_mut(&mut self, key: &K) -> Option<&mut V>
        ensures* writes_back { sem 𝓛 (lends_value K.row V.row S.row V.Cfg.row K.Key
            self.entry key.now result) }
        ensures value { option_copied_mut result ≡ value_at K.cmp (shown self.old).entries key.now }
    {
        if self.entries.contains_key(key) {
            self.staged = true;
        }
        self.entries.get_mut(key)
    }

    /// Keeps the entries for which the test answers true. Where it drops one, that is a change. It takes no memory.
    pub fn retain<F: Fn(&K, &V) -> bool + Drop>(&mut self, keep: F)
        requires { F.IsAlwaysCallable keep }
        ensures { Retains (format_of K.cmp K.key_bytes V.Codec S.Seal) (seen self.old) (seen self.new)
            (AnswersAt F.Fn keep) }
    {
        let before = self.entries.len();
        let test = |key: &K, value: &mut V| -> bool
            requires { F.IsAlwaysCallable keep }
            ensures answer { AnswersAt F.Fn keep key.now value.old result }
            ensures value { value.new ≡ value.old }
        { keep(key, value) };
        self.entries.retain(test);
        if self.entries.len() < before {
            self.staged = true;
        }
    }

    /// Sets the floor, which is a change also where it stays the same. It takes no memory.
    pub fn set_floor(&mut self, floor: u64)
        requires { (shown self.old).floor ≤ floor }
        ensures { SetsFloor (format_of K.cmp K.key_bytes V.Codec S.Seal) (seen self.old) (seen self.new)
            floor }
    {
        self.floor = floor;
        self.staged = true;
    }
}
