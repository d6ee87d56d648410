// What every archive is.
ghost use Rattle.std.specs.Prelude.{◌≡◌, ◌≤◌};
ghost use Rattle.archives.specs.Changes.{AsksAll, AsksAt, AsksValue, AsksWhether, Changes, ChangesDurably, Destroys, HasSeveral, MayUse, Meaning, Settles, outcome};
ghost use Rattle.archives.specs.Commands.{Multi, MultiStart, MultiSync, Put, PutStart, PutSync};
ghost use Rattle.archives.specs.Finding.{wanted_of};
ghost use Rattle.archives.specs.Indices.{GivesMissing, IsGap};
ghost use Rattle.ordinal_store.specs.Numbers.{AreRuns, AreRunsFrom, IsGreatest, IsLeast};

use crate::{Error, Values};
use blob_device::{Device, Handle};
use ordinal_store::{Numbers, RangeIter};
use value_codec::{Codec, Key};

/// What names a record of an archive: its index, or its key.
#[derive_where(Clone, Copy)]
pub enum Identifier<'a, K> {
    /// The first record with this index.
    Index(u64),
    /// Some record with this key.
    Key(&'a K),
}

/// A store of values, each put under an index and a key, which is used with the device on which it was opened.
///
/// Over a device that tells its disk each call is the step of its command of the archive's machine: what it
/// answers, and what is then held; and at each moment a crash leaves what stands for the state with that
/// command under way. Of moments, and of a put's step, that is said where what is held is sound.
///
/// Calls that take the archive by value give it up where they refuse; its blobs are then opened again.
pub trait Archive: Sized {
    /// What values are found by beside their indices.
    type Key: Key;

    /// What is stored.
    type Value: Codec;

    /// What contracts see of such an archive: when it may be used, what it holds as a state of its machine, and what crashes may leave of it.
    ghost meaning: { Meaning Self Self.Value };

    /// Keeps the value under this index and key. It lasts once a sync ended. Where the index is taken, or
    /// below what was pruned, nothing is stored.
    fn put<D: Device>(
        self,
        dev: &mut D,
        index: u64,
        key: Self::Key,
        value: &Self::Value,
    ) -> Result<Self, Error>
        requires over { MayUse meaning D.Device self dev.old }
        requires value { meaning.Accepts self value.now }
        ensures { Changes meaning D.Device self
            (Put index (Self.Key.key_bytes key) (Self.Value.spelling value.now))
            result dev.old dev.new };

    /// As [`put`](Archive::put) and then [`sync`](Archive::sync), also where nothing was stored.
    fn put_sync<D: Device>(
        self,
        dev: &mut D,
        index: u64,
        key: Self::Key,
        value: &Self::Value,
    ) -> Result<Self, Error>
        requires over { MayUse meaning D.Device self dev.old }
        requires value { meaning.Accepts self value.now }
        ensures { ChangesDurably meaning D.Device self
            (PutSync index (Self.Key.key_bytes key) (Self.Value.spelling value.now))
            (PutStart index (Self.Key.key_bytes key) (Self.Value.spelling value.now))
            result dev.old dev.new };

    /// As [`put`](Archive::put) and then [`start_sync`](Archive::start_sync), also where nothing was stored.
    fn put_start_sync<D: Device>(
        self,
        dev: &mut D,
        index: u64,
        key: Self::Key,
        value: &Self::Value,
    ) -> Result<(Self, Handle), Error>
        requires over { MayUse meaning D.Device self dev.old }
        requires value { meaning.Accepts self value.now }
        ensures { ChangesDurably meaning D.Device self
            (PutSync index (Self.Key.key_bytes key) (Self.Value.spelling value.now))
            (PutStart index (Self.Key.key_bytes key) (Self.Value.spelling value.now))
            (outcome (λ r. r.0) result) dev.old dev.new };

    /// The value, none where no value has this index or key.
    fn get<D: Device>(
        &self,
        dev: &mut D,
        identifier: Identifier<'_, Self::Key>,
    ) -> Result<Option<Self::Value>, Error>
        requires over { MayUse meaning D.Device self.now dev.old }
        ensures { AsksValue meaning D.Device Self.Value.spelling self.now
            (wanted_of Self.Key.key_bytes identifier.entry) result dev.old dev.new };

    /// Whether a value has this index or key.
    fn has<D: Device>(
        &self,
        dev: &mut D,
        identifier: Identifier<'_, Self::Key>,
    ) -> Result<bool, Error>
        requires over { MayUse meaning D.Device self.now dev.old }
        ensures { AsksWhether meaning D.Device self.now
            (wanted_of Self.Key.key_bytes identifier.entry) result dev.old dev.new };

    /// Whether a value has this index. It takes no memory.
    fn has_index(&self, index: u64) -> bool
        ensures { result ≡ meaning.has self.now index };

    /// The end of the run of indices that holds this one, and the start of the first run that begins above it,
    /// each if there is one. It takes no memory.
    fn next_gap(&self, index: u64) -> (Option<u64>, Option<u64>)
        ensures { IsGap (meaning.has self.now) index result };

    /// The first `max` indices from `start` on that no value has and that have an index above them, or all of
    /// these. It takes memory for its answer alone. At least one has to be asked for.
    fn missing_items(&self, start: u64, max: usize) -> Result<Numbers, Error>
        requires { 1 ≤ max }
        ensures { GivesMissing (meaning.has self.now) start max result };

    /// The runs of indices, ascending. They are walked one at a time, and take no memory.
    fn ranges(&self) -> RangeIter<'_>
        ensures { AreRuns (meaning.has self.now) result };

    /// The runs of indices that end at `from` or later, ascending. It takes no memory.
    fn ranges_from(&self, from: u64) -> RangeIter<'_>
        ensures { AreRunsFrom (meaning.has self.now) from result };

    /// The least index. It takes no memory.
    fn first_index(&self) -> Option<u64>
        ensures { IsLeast (meaning.has self.now) result };

    /// The greatest index. It takes no memory.
    fn last_index(&self) -> Option<u64>
        ensures { IsGreatest (meaning.has self.now) result };

    /// Makes all that was put durable.
    fn sync<D: Device>(self, dev: &mut D) -> Result<Self, Error>
        requires over { MayUse meaning D.Device self dev.old }
        ensures { Settles meaning D.Device self result dev.old dev.new };

    /// As [`sync`](Archive::sync), with the handle of a sync that has finished.
    fn start_sync<D: Device>(self, dev: &mut D) -> Result<(Self, Handle), Error>
        requires over { MayUse meaning D.Device self dev.old }
        ensures { Settles meaning D.Device self (outcome (λ r. r.0) result) dev.old dev.new };

    /// Removes all blobs of the archive. On Ok none is left.
    fn destroy<D: Device>(self, dev: &mut D) -> Result<(), Error>
        requires over { MayUse meaning D.Device self dev.old }
        ensures { Destroys meaning D.Device self result dev.old dev.new };
}

/// An archive in which an index may have several records.
pub trait MultiArchive: Archive {
    /// Keeps the value under this index and key, also where the index is taken. It lasts once a sync ended.
    /// Where the index is below what was pruned nothing is stored.
    fn put_multi<D: Device>(
        self,
        dev: &mut D,
        index: u64,
        key: Self::Key,
        value: &Self::Value,
    ) -> Result<Self, Error>
        requires over { MayUse Self.meaning D.Device self dev.old }
        requires value { Self.meaning.Accepts self value.now }
        ensures { Changes Self.meaning D.Device self
            (Multi index (Self.Key.key_bytes key) (Self.Value.spelling value.now))
            result dev.old dev.new };

    /// As [`put_multi`](MultiArchive::put_multi) and then [`sync`](Archive::sync), also where nothing was
    /// stored.
    fn put_multi_sync<D: Device>(
        self,
        dev: &mut D,
        index: u64,
        key: Self::Key,
        value: &Self::Value,
    ) -> Result<Self, Error>
        requires over { MayUse Self.meaning D.Device self dev.old }
        requires value { Self.meaning.Accepts self value.now }
        ensures { ChangesDurably Self.meaning D.Device self
            (MultiSync index (Self.Key.key_bytes key) (Self.Value.spelling value.now))
            (MultiStart index (Self.Key.key_bytes key) (Self.Value.spelling value.now))
            result dev.old dev.new };

    /// As [`put_multi`](MultiArchive::put_multi) and then [`start_sync`](Archive::start_sync), also where
    /// nothing was stored.
    fn put_multi_start_sync<D: Device>(
        self,
        dev: &mut D,
        index: u64,
        key: Self::Key,
        value: &Self::Value,
    ) -> Result<(Self, Handle), Error>
        requires over { MayUse Self.meaning D.Device self dev.old }
        requires value { Self.meaning.Accepts self value.now }
        ensures { ChangesDurably Self.meaning D.Device self
            (MultiSync index (Self.Key.key_bytes key) (Self.Value.spelling value.now))
            (MultiStart index (Self.Key.key_bytes key) (Self.Value.spelling value.now))
            (outcome (λ r. r.0) result) dev.old dev.new };

    /// All values at an index, in the order in which they were put; none where no value has it.
    fn get_all<D: Device>(
        &self,
        dev: &mut D,
        index: u64,
    ) -> Result<Option<Values<Self::Value>>, Error>
        requires over { MayUse Self.meaning D.Device self.now dev.old }
        ensures { AsksAll Self.meaning D.Device Self.Value.spelling self.now index
            result dev.old dev.new };

    /// Whether one value has both this index and this key.
    fn has_at<D: Device>(&self, dev: &mut D, index: u64, key: &Self::Key) -> Result<bool, Error>
        requires over { MayUse Self.meaning D.Device self.now dev.old }
        ensures { AsksAt Self.meaning D.Device self.now index (Self.Key.key_bytes key.now)
            result dev.old dev.new };

    /// Each of its calls is a step of the record machine too.
    ghost several: { HasSeveral Self.meaning };
}
