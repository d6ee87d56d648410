// How the staged changes of a map become durable.
ghost use Rattle.std.specs.BTreeMap.{insert_entry};
ghost use Rattle.meta_store.specs.Calls.{IsOpened, outcome};
ghost use Rattle.meta_store.specs.Format.{format_of};
ghost use Rattle.meta_store.specs.Syncs.{PutSyncs, Syncs};

use crate::Error;
use crate::metadata::Metadata;
use blob_device::{Device, Handle};
use value_codec::{Codec, Key, Seal};

impl<K: Key, V: Codec, S: Seal> Metadata<K, V, S> {
    ghost use Rattle.meta_store.specs.Store.{MayBeSynced, seen, shown};

    /// Makes the staged changes durable. Where nothing is staged it does nothing.
    ///
    /// It writes the next version in one write over the older or absent copy, and settles it. It answers `Full` exactly where a
    /// change is staged and the version would pass the greatest `u64`.
    pub fn sync<D: Device>(self, dev: &mut D) -> Result<Self, Error>
        requires storable { MayBeSynced (format_of K.cmp K.key_bytes V.Codec S.Seal (seen self).config)
            (shown self).entries }
        requires opened { IsOpened (shown self).partition (D.opened dev.old) }
        ensures { Syncs D.Device (format_of K.cmp K.key_bytes V.Codec S.Seal) (seen self) dev.old dev.new
            (outcome seen result) }
    {
        if !self.staged {
            return Ok(self);
        }
        if self.version == u64::MAX {
            return Err(Error::Full);
        }
        let version = self.version + 1;
        let copy = self.copy(version)?;
        // Over the older copy: whatever a crash tears here, the newer one stays whole.
        dev.write_at(self.partition.as_str(), self.older.name(), 0, &copy)?;
        // Settled now, since the next sync writes over the other copy.
        dev.sync(self.partition.as_str(), self.older.name())?;
        let mut this = self;
        this.version = version;
        this.older = this.older.other();
        this.staged = false;
        Ok(this)
    }

    /// Gives a key this value and makes it durable, with all that was staged.
    pub fn put_sync<D: Device>(self, dev: &mut D, key: K, value: V) -> Result<Self, Error>
        requires storable { MayBeSynced (format_of K.cmp K.key_bytes V.Codec S.Seal (seen self).config)
            (insert_entry K.cmp (shown self).entries key value) }
        requires opened { IsOpened (shown self).partition (D.opened dev.old) }
        ensures { PutSyncs D.Device (format_of K.cmp K.key_bytes V.Codec S.Seal) (seen self)
            key value dev.old dev.new (outcome seen result) }
    {
        let mut this = self;
        this.put(key, value)?;
        // After the put, so that the copy has it. A copy is always the whole map.
        this.sync(dev)
    }

    /// As [`sync`](Metadata::sync); the handle is of a sync that is finished.
    pub fn start_sync<D: Device>(self, dev: &mut D) -> Result<(Self, Handle), Error>
        requires storable { MayBeSynced (format_of K.cmp K.key_bytes V.Codec S.Seal (seen self).config)
            (shown self).entries }
        requires opened { IsOpened (shown self).partition (D.opened dev.old) }
        ensures { Syncs D.Device (format_of K.cmp K.key_bytes V.Codec S.Seal) (seen self) dev.old dev.new
            (outcome (λ p. seen p.0) result) }
    {
        // Settled before the handle is given out: it is of a sync that has finished.
        let this = self.sync(dev)?;
        Ok((this, Handle::finished()))
    }
}
