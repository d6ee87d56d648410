// What an archive is asked, and what it replies.

use crate::{Pairs, Values};
use ordinal_store::Numbers;

/// A command to an archive. An index is any `u64`.
#[derive(Debug, Drop)]
pub enum Command<K, V> {
    /// Keep this value under this index and key, unless the index is taken.
    Put(u64, K, V),
    /// The same, and then settle all that was put.
    PutSync(u64, K, V),
    /// The same, by a sync that is started.
    PutStart(u64, K, V),
    /// Keep this value under this index and key, also where the index is taken.
    Multi(u64, K, V),
    /// The same, and then settle all that was put.
    MultiSync(u64, K, V),
    /// The same, by a sync that is started.
    MultiStart(u64, K, V),
    /// The value at an index.
    Get(u64),
    /// A value under a key.
    GetKey(K),
    /// Whether an index is taken.
    Has(u64),
    /// Whether a record has this key.
    HasKey(K),
    /// Whether one record has both this index and this key.
    HasAt(u64, K),
    /// All values at an index.
    All(u64),
    /// Of the indices that are taken: the end of the run with this one, and the start of the next run.
    Gap(u64),
    /// So many indices from this one on that are not taken, and have one above them that is.
    Missing(u64, u32),
    /// The runs of indices that are taken.
    Ranges,
    /// Those that end at this index or later.
    RangesFrom(u64),
    /// The least index that is taken.
    First,
    /// The greatest.
    Last,
    /// Settle all that was put.
    Sync,
    /// The same, by a sync that is started.
    Start,
    /// Remove the sections below that of this index. Nothing is put there until the archive is opened again.
    Prune(u64),
    /// Give the archive up as it is, and open it again.
    Reopen,
    /// Remove all. The archive is then closed.
    Destroy,
}

/// What an archive replies to a command.
#[derive(Debug, Drop)]
pub enum Reply<V> {
    /// The command was carried out.
    Done,
    /// The value that was asked for, or none.
    Value(Option<V>),
    /// All values that were asked for, or none.
    Values(Option<Values<V>>),
    /// The answer to a test.
    Flag(bool),
    /// The end of a run of indices, and the start of the next one, each if there is one.
    Gap(Option<u64>, Option<u64>),
    /// Indices, ascending.
    Items(Numbers),
    /// Runs of indices, ascending.
    Ranges(Pairs),
    /// The index that was asked for, or none.
    Index(Option<u64>),
    /// The archive was destroyed, and not opened since.
    Closed,
}
