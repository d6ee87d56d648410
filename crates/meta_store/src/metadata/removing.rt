// How a map is removed.
ghost use Rattle.meta_store.specs.Format.{format_of};
ghost use Rattle.meta_store.specs.Removing.{Destroys};

use crate::Error;
use crate::metadata::Metadata;
use blob_device::Device;
use value_codec::{Codec, Key, Seal};

impl<K: Key, V: Codec, S: Seal> Metadata<K, V, S> {
    ghost use Rattle.meta_store.specs.Store.{seen};

    /// Removes both copies, the older or absent one first; the left one where both are absent.
    pub fn destroy<D: Device>(self, dev: &mut D) -> Result<(), Error>
        ensures { Destroys D.Device (format_of K.cmp K.key_bytes V.Codec S.Seal) (seen self)
            dev.old dev.new result }
    {
        let older = self.older;
        // The older copy first: were the newer one gone alone, the older map would come back.
        dev.remove(self.partition.as_str(), older.name())?;
        // Only now, with no older copy left: a crash leaves the last map or none.
        dev.remove(self.partition.as_str(), older.other().name())?;
        Ok(())
    }
}
