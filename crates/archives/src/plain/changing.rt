// Commands that change the list, and the step, which carries out any command.
ghost use Rattle.std.specs.Prelude.{◌≡◌, ◌≤◌, false};
ghost use Rattle.archives.specs.Machine.{after_destroy, after_multi, after_prune, after_put, after_sync};
ghost use Rattle.archives.specs.plain.Machine.{CarriesOut, HasCarriedOut, HasReopened, IsNew, Turned, Turns};

use super::{Item, Machine};
use crate::{Command, Error, Reply};
use std::alloc::Global;
use value_codec::Key;

impl<K: Key, V: Clone> Machine<K, V> {
    /// Nothing is kept. It takes no memory.
    pub fn new(alloc: Global, items_per_section: u64) -> Machine<K, V>
        requires { 1 ≤ items_per_section }
        ensures { IsNew K.key_bytes items_per_section result }
    {
        Machine {
            alloc,
            items_per_section,
            items: Vec::new(alloc),
            floor: 0,
            is_open: true,
        }
    }

    fn put(&mut self, index: u64, key: K, value: &V) -> Result<Reply<V>, Error>
        requires { (v w : V) → V.is_clone v w → w ≡ v }
        ensures { Turns K.key_bytes self.old self.new (after_put self.old.items_per_section index
            (K.key_bytes key) value.now) result }
    {
        if self.has(index) {
            return Ok(Reply::Done);
        }
        self.multi(index, key, value)
    }

    fn put_and_sync(&mut self, index: u64, key: K, value: &V) -> Result<Reply<V>, Error>
        requires { (v w : V) → V.is_clone v w → w ≡ v }
        ensures { Turns K.key_bytes self.old self.new (λ st. after_sync (after_put
            self.old.items_per_section index (K.key_bytes key) value.now st)) result }
    {
        self.put(index, key, value)?;
        Ok(self.sync())
    }

    fn multi(&mut self, index: u64, key: K, value: &V) -> Result<Reply<V>, Error>
        requires { (v w : V) → V.is_clone v w → w ≡ v }
        ensures { Turns K.key_bytes self.old self.new (after_multi self.old.items_per_section index
            (K.key_bytes key) value.now) result }
    {
        if index < self.floor {
            return Ok(Reply::Done);
        }
        let value = value.clone()?;
        self.items.push(Item {
            index,
            key,
            value,
            is_synced: false,
        })?;
        Ok(Reply::Done)
    }

    fn multi_and_sync(&mut self, index: u64, key: K, value: &V) -> Result<Reply<V>, Error>
        requires { (v w : V) → V.is_clone v w → w ≡ v }
        ensures { Turns K.key_bytes self.old self.new (λ st. after_sync (after_multi
            self.old.items_per_section index (K.key_bytes key) value.now st)) result }
    {
        self.multi(index, key, value)?;
        Ok(self.sync())
    }

    // All that was put counts as synced.
    fn sync(&mut self) -> Reply<V>
        ensures { Turned K.key_bytes self.old self.new after_sync result }
    {
        for item in self.items.iter_mut() {
            item.is_synced = true;
        }
        Reply::Done
    }

    // Takes away the sections below that of the bound, and raises the floor to it.
    fn prune(&mut self, bound: u64) -> Reply<V>
        ensures { Turned K.key_bytes self.old self.new
            (after_prune self.old.items_per_section bound) result }
    {
        let start = bound - bound % self.items_per_section;
        if start <= self.floor {
            return Reply::Done;
        }
        self.items.retain(|item| item.index >= start);
        self.floor = start;
        Reply::Done
    }

    // Takes all away.
    fn destroy(&mut self) -> Reply<V>
        ensures { Turned K.key_bytes self.old self.new after_destroy result }
    {
        self.items.clear();
        self.is_open = false;
        Reply::Done
    }

    // All records stay, and count as synced; the floor is not stored.
    fn reopen(&mut self) -> Reply<V>
        ensures { HasReopened K.key_bytes self.old self.new result }
    {
        self.sync();
        self.floor = 0;
        self.is_open = true;
        Reply::Done
    }

    // A closed machine is opened again, and does nothing else.
    fn step_closed(&mut self, command: &Command<K, V>) -> Reply<V>
        requires { self.now.is_open ≡ false }
        ensures { HasCarriedOut K.key_bytes command.now result self.old self.new }
    {
        match command {
            Command::Reopen => self.reopen(),
            _ => Reply::Closed,
        }
    }

    /// Carries out one command. A copy of a value has to equal it. After an Err nothing changed. A reopening
    /// loses nothing here: what is cut is free up to what was synced.
    pub fn step(&mut self, command: &Command<K, V>) -> Result<Reply<V>, Error>
        requires { (v w : V) → V.is_clone v w → w ≡ v }
        ensures { CarriesOut K.key_bytes command.now result self.old self.new }
    {
        if !self.is_open {
            return Ok(self.step_closed(command));
        }
        match command {
            Command::Put(index, key, value) => self.put(*index, *key, value),
            Command::PutSync(index, key, value) | Command::PutStart(index, key, value) => {
                self.put_and_sync(*index, *key, value)
            }
            Command::Multi(index, key, value) => self.multi(*index, *key, value),
            Command::MultiSync(index, key, value) | Command::MultiStart(index, key, value) => {
                self.multi_and_sync(*index, *key, value)
            }
            Command::Get(index) => Ok(Reply::Value(self.get(*index)?)),
            Command::GetKey(key) => Ok(Reply::Value(self.get_key(key)?)),
            Command::Has(index) => Ok(Reply::Flag(self.has(*index))),
            Command::HasKey(key) => Ok(Reply::Flag(self.has_key(key))),
            Command::HasAt(index, key) => Ok(Reply::Flag(self.has_at(*index, key))),
            Command::All(index) => self.all(*index),
            Command::Gap(index) => self.next_gap(*index),
            Command::Missing(index, count) => self.missing_items(*index, *count),
            // From 0 on these are all.
            Command::Ranges => self.ranges_from(0),
            Command::RangesFrom(index) => self.ranges_from(*index),
            Command::First => self.first_index(),
            Command::Last => self.last_index(),
            Command::Sync | Command::Start => Ok(self.sync()),
            Command::Prune(bound) => Ok(self.prune(*bound)),
            Command::Reopen => Ok(self.reopen()),
            Command::Destroy => Ok(self.destroy()),
        }
    }
}
