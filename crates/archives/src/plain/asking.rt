// Commands that ask: each scans the list.
ghost use Rattle.std.specs.Prelude.{◌≡◌, ◌==◌, ◌&&◌, ◌↔◌, IfOk, IsTrue};
ghost use Rattle.std.specs.Option.{is_some, option_copied};
ghost use Rattle.std.specs.Result.{IsOkUnless};
ghost use Rattle.std.specs.List.{list_any};
ghost use Rattle.archives.specs.Commands.{All, First, Gap, Last, Missing, RangesFrom};
ghost use Rattle.archives.specs.Machine.{ContainsAt, first_value, has_index};
ghost use Rattle.archives.specs.plain.Machine.{HasIndices, Tells, first_at, first_under, items_at, state_of};

use super::{Item, Machine};
use crate::{Error, Pairs, Reply, Values};
use ordinal_store::plain::PlainSet;
use value_codec::Key;

fn any_at<K, V>(items: &[Item<K, V>], index: u64) -> bool
    ensures { result ≡ list_any (λ r. r.index == index) items.now }
{
    items.iter().any(|r| r.index == index)
}

fn any_under<K: Key, V>(items: &[Item<K, V>], index: u64, key: &K) -> bool
    ensures { result ≡ list_any (λ r. (r.index == index) && K.eq r.key key.now) items.now }
{
    items.iter().any(|r| r.index == index && r.key == *key)
}

fn value_at<K, V>(items: &[Item<K, V>], index: u64) -> Option<&V>
    ensures { option_copied result ≡ first_at index items.now }
{
    let item = items.iter().find(|r| r.index == index)?;
    Some(&item.value)
}

fn value_under<'a, K: Key, V>(items: &'a [Item<K, V>], key: &K) -> Option<&'a V>
    ensures { option_copied result ≡ first_under (λ k. K.eq k key.now) items.now }
{
    let item = items.iter().find(|r| r.key == *key)?;
    Some(&item.value)
}

fn copied<V: Clone>(value: Option<&V>) -> Result<Option<V>, Error>
    requires { (v w : V) → V.is_clone v w → w ≡ v }
    ensures copy { IfOk result (λ copy. copy ≡ option_copied value.entry) }
    ensures memory { IsOkUnless result Error.Mem }
{
    match value {
        Some(value) => Ok(Some(value.clone()?)),
        None => Ok(None),
    }
}

impl<K: Key, V: Clone> Machine<K, V> {
    pub(super) fn has(&self, index: u64) -> bool
        ensures { result ≡ has_index self.now.items_per_section
            (state_of K.key_bytes self.now) index }
    {
        any_at(self.items.as_slice(), index)
    }

    pub(super) fn has_key(&self, key: &K) -> bool
        ensures { result ≡ is_some (first_under (λ k. K.eq k key.now) self.now.items.items) }
    {
        value_under(self.items.as_slice(), key).is_some()
    }

    pub(super) fn get(&self, index: u64) -> Result<Option<V>, Error>
        requires { (v w : V) → V.is_clone v w → w ≡ v }
        ensures value { IfOk result (λ value. value
            ≡ first_value (items_at K.key_bytes self.now index)) }
        ensures memory { IsOkUnless result Error.Mem }
    {
        copied(value_at(self.items.as_slice(), index))
    }

    pub(super) fn get_key(&self, key: &K) -> Result<Option<V>, Error>
        requires { (v w : V) → V.is_clone v w → w ≡ v }
        ensures value { IfOk result (λ value. value
            ≡ first_under (λ k. K.eq k key.now) self.now.items.items) }
        ensures memory { IsOkUnless result Error.Mem }
    {
        copied(value_under(self.items.as_slice(), key))
    }

    pub(super) fn has_at(&self, index: u64, key: &K) -> bool
        ensures { IsTrue result ↔ ContainsAt self.now.items_per_section
            (state_of K.key_bytes self.now) index (K.key_bytes key.now) }
    {
        any_under(self.items.as_slice(), index, key)
    }

    pub(super) fn all(&self, index: u64) -> Result<Reply<V>, Error>
        requires { (v w : V) → V.is_clone v w → w ≡ v }
        ensures { Tells K.key_bytes self.now (All index) result }
    {
        let mut values = Vec::new(self.alloc);
        for item in &self.items {
            if item.index == index {
                values.push(item.value.clone()?)?;
            }
        }
        if values.is_empty() {
            return Ok(Reply::Values(None));
        }
        Ok(Reply::Values(Some(Values::from_vec(values))))
    }

    // The indices of all records.
    fn indices(&self) -> Result<PlainSet, Error>
        ensures { HasIndices K.key_bytes self.now result }
    {
        let mut set = PlainSet::new(self.alloc);
        for item in &self.items {
            set.insert(item.index)?;
        }
        Ok(set)
    }

    // The end of the run of indices that holds this one, and the start of the next run.
    pub(super) fn next_gap(&self, index: u64) -> Result<Reply<V>, Error>
        ensures { Tells K.key_bytes self.now (Gap index) result }
    {
        let (end, next) = self.indices()?.next_gap(index);
        Ok(Reply::Gap(end, next))
    }

    // So many indices from this one on that are not taken, and have one above them that is.
    pub(super) fn missing_items(&self, index: u64, count: u32) -> Result<Reply<V>, Error>
        ensures { Tells K.key_bytes self.now (Missing index count) result }
    {
        let missing = self.indices()?.missing(index, count as usize)?;
        Ok(Reply::Items(missing))
    }

    // The runs of indices that end here or later.
    pub(super) fn ranges_from(&self, index: u64) -> Result<Reply<V>, Error>
        ensures { Tells K.key_bytes self.now (RangesFrom index) result }
    {
        let runs = self.indices()?.runs_from(index)?;
        Ok(Reply::Ranges(Pairs::from_vec(runs)))
    }

    // The least index.
    pub(super) fn first_index(&self) -> Result<Reply<V>, Error>
        ensures { Tells K.key_bytes self.now First result }
    {
        Ok(Reply::Index(self.indices()?.first()))
    }

    // The greatest index.
    pub(super) fn last_index(&self) -> Result<Reply<V>, Error>
        ensures { Tells K.key_bytes self.now Last result }
    {
        Ok(Reply::Index(self.indices()?.last()))
    }
}
