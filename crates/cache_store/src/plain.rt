//! A plain, slow reading of what an image keeps of a cache.
//!
//! It looks at whole blobs, a section at a time. What crashes leave is compared with it.
ghost use Rattle.std.specs.Prelude.{◌≡◌, IfOk, OnErr, map};
ghost use Rattle.std.specs.Result.{IsErrOf};
ghost use Rattle.sealed_pages.specs.SealedPrefix.{sealed_prefix};
ghost use Rattle.cache_store.specs.Records.{entry_of};
ghost use Rattle.cache_store.specs.Kept.{entries_of};

use section_manager::journal::Error;
use std::alloc::Global;
use std::marker::Model;
use value_codec::{Seal, read_varint64};
use variable_journal::plain;

/// An index, and the spelling of the value under it.
#[derive(Drop)]
pub struct Found {
    // of the record
    index: u64,
    // what is behind its varint
    value: Vec<u8>,
}

impl Model for Found {
    ghost use Rattle.std.specs.Prelude.{List, ℕ};
    ghost use Rattle.cache_store.specs.Machine.{Entry};

    ghost Value = { Entry (List ℕ) };

    ghost view = { λ f. record { index = f.index; value = f.value.items } };
}

impl Found {
    /// The index.
    pub fn index(&self) -> u64
        ensures { result ≡ self.now.index }
    {
        self.index
    }

    /// What spells the value.
    pub fn value(&self) -> &[u8]
        ensures { result.now ≡ self.now.value }
    {
        self.value.as_slice()
    }
}

// What a record says; index 0 where it says none.
fn found_in(alloc: Global, bytes: &[u8]) -> Result<Found, Error>
    ensures entry { IfOk result (λ f. f ≡ entry_of bytes.now) }
    ensures cause { OnErr result (IsErrOf result Error.Mem) }
{
    let (index, header) = match read_varint64(bytes) {
        Ok(found) => found,
        Err(_) => (0, 0),
    };
    let value = bytes[header..].to_vec(alloc)?;
    Ok(Found { index, value })
}

/// The entries that are kept of a section with this blob.
pub fn kept<S: Seal>(alloc: Global, page_size: u16, blob: &[u8]) -> Result<Vec<Found>, Error>
    ensures entries { IfOk result (λ r. r.items
        ≡ entries_of (sealed_prefix S.seal_of page_size blob.now)) }
    ensures cause { OnErr result (IsErrOf result Error.Mem) }
{
    let items = plain::kept::<S>(alloc, page_size, blob)?;
    let mut kept = Vec::new(alloc);
    'records: for item in &items {
        let found = found_in(alloc, item.as_bytes())?;
        kept.push(found)?;
    }
    Ok(kept)
}
