// Which sections a sync settles.
ghost use Rattle.std.specs.Prelude.{◌↔◌, ℕ, Contains, IfOk, OnErr, IsTrue};
ghost use Rattle.std.specs.Result.{IsErrOf};
ghost use Rattle.archives.specs.Shown.{shown};

use super::Archive;
use crate::{Error, Translator};
use value_codec::{Codec, Key, Seal};

impl<T: Translator, K: Key, V: Codec, S: Seal> Archive<T, K, V, S> {
    // The sections written since the last sync.
    pub(super) fn written_sections(&self) -> Result<Vec<u64>, Error>
        ensures each { IfOk result (λ r. (s : ℕ) → Contains r.items s
            ↔ IsTrue ((shown self.now).is_written s)) }
        ensures cause { OnErr result (IsErrOf result Error.Mem) }
    {
        Ok(self.written.iter().copied().collect(self.alloc)?)
    }
}
