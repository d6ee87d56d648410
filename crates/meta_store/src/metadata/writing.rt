// The text of a copy.
ghost use Rattle.std.specs.Prelude.{◌≡◌, ◌<◌, ◌^◌, ◌++◌, length, OnOk, IfOk, OnErr, Err};
ghost use Rattle.meta_store.specs.Format.{format_of};
ghost use Rattle.meta_store.specs.Copies.{IsMap, body_bytes, copy_of, entry_bytes, form_bytes, form_of};

use crate::Error;
use crate::metadata::Metadata;
use crate::metadata::reading::{FLOORED, PLAIN};
use value_codec::{Codec, Key, Seal};

/// Appends the form of a copy with this floor.
fn write_form(floor: u64, out: &mut Vec<u8>) -> Result<(), Error>
    ensures appended { OnOk result (out.new.items ≡ out.old.items ++ form_bytes (form_of floor)) }
    ensures memory { OnErr result (result ≡ Err Error.Mem) }
{
    if floor == 0 {
        out.push(PLAIN)?;
        return Ok(());
    }
    out.push(FLOORED)?;
    out.extend_from_slice(&floor.to_be_bytes())?;
    Ok(())
}

/// Appends an entry: the key, the length of the value's spelling, and the spelling.
fn write_entry<K: Key, V: Codec>(key: &K, value: &V, out: &mut Vec<u8>) -> Result<(), Error>
    requires { length (V.spelling value.now) < 2 ^ 32 }
    ensures appended { OnOk result (out.new.items
        ≡ out.old.items ++ entry_bytes K.key_bytes V.spelling (key.now, value.now)) }
    ensures memory { OnErr result (result ≡ Err Error.Mem) }
{
    out.extend_from_slice(key.as_bytes())?;
    let size = value.encode_size() as u32;
    out.extend_from_slice(&size.to_be_bytes())?;
    match value.write(out) {
        Ok(()) => Ok(()),
        Err(_) => Err(Error::Mem),
    }
}

impl<K: Key, V: Codec, S: Seal> Metadata<K, V, S> {
    ghost use Rattle.meta_store.specs.Store.{MayBeSynced, contents_of, seen, shown};

    /// The entries as the body of a copy.
    fn body(&self) -> Result<Vec<u8>, Error>
        requires { MayBeSynced (format_of K.cmp K.key_bytes V.Codec S.Seal (seen self.now).config)
            (shown self.now).entries }
        ensures body { IfOk result (λ b. b.items
            ≡ body_bytes K.key_bytes V.spelling (shown self.now).entries) }
        ensures map { OnOk result (IsMap (format_of K.cmp K.key_bytes V.Codec S.Seal (seen self.now).config)
            (shown self.now).entries) }
        ensures memory { OnErr result (result ≡ Err Error.Mem) }
    {
        let mut body = Vec::new(self.alloc);
        let count = self.entries.len() as u64;
        body.extend_from_slice(&count.to_be_bytes())?;
        'entries: for (key, value) in &self.entries {
            write_entry(key, value, &mut body)?;
        }
        Ok(body)
    }

    /// Map and floor as a copy of this version.
    pub(super) fn copy(&self, version: u64) -> Result<Vec<u8>, Error>
        requires { MayBeSynced (format_of K.cmp K.key_bytes V.Codec S.Seal (seen self.now).config)
            (shown self.now).entries }
        ensures copy { IfOk result (λ c. c.items
            ≡ copy_of (format_of K.cmp K.key_bytes V.Codec S.Seal (seen self.now).config)
            version (contents_of (shown self.now))) }
        ensures map { OnOk result (IsMap (format_of K.cmp K.key_bytes V.Codec S.Seal (seen self.now).config)
            (shown self.now).entries) }
        ensures memory { OnErr result (result ≡ Err Error.Mem) }
    {
        let body = self.body()?;
        let len = body.len() as u64;
        let mut copy = Vec::new(self.alloc);
        copy.extend_from_slice(&version.to_be_bytes())?;
        write_form(self.floor, &mut copy)?;
        copy.extend_from_slice(&len.to_be_bytes())?;
        copy.extend_from_slice(&body)?;
        let seal = S::seal(&copy);
        copy.extend_from_slice(&seal.to_be_bytes())?;
        Ok(copy)
    }
}
