//! A plain, slow reading of what an image keeps of a pair: which records of a section, with which values, and which markers are true.
//!
//! It looks at whole blobs, a section at a time. What crashes leave is compared with it.
ghost use Rattle.std.specs.Prelude.{◌≡◌, ◌↔◌, ◌≤◌, ◌<◌, ◌-◌, ◌||◌, nat_lt, length, map, take, IfOk, IsTrue};
ghost use Rattle.std.specs.List.{AllByRecursion};
ghost use Rattle.sealed_pages.specs.SealedPrefix.{sealed_prefix};
ghost use Rattle.segments.specs.FixedItems.{item_count, item_at};
ghost use Rattle.paired.specs.Frames.{bytes_at};
ghost use Rattle.paired.specs.Records.{records, is_sound, unbroken_prefix, entry_of};

use crate::Record;
use crate::glob::u32_in;
use sealed_pages::plain::sealed_prefix;
use segments::journal::Error;
use std::alloc::Global;
use std::marker::Model;
use value_codec::Seal;

/// A record's bytes, and the spelling of its value.
#[derive(Drop)]
pub struct Found {
    /// The record's bytes, as the index has them.
    stored: Vec<u8>,
    /// The spelling of its value, without the seal.
    value: Vec<u8>,
}

impl Model for Found {
    ghost use Rattle.paired.specs.Records.{Entry};

    ghost Value = { Entry };

    ghost view = { λ f. record { stored = f.stored.items; value = f.value.items } };
}

impl Found {
    /// What stands in the index.
    pub fn stored(&self) -> &[u8]
        ensures { result.now ≡ self.now.stored }
    {
        self.stored.as_slice()
    }

    /// What its frame spells.
    pub fn value(&self) -> &[u8]
        ensures { result.now ≡ self.now.value }
    {
        self.value.as_slice()
    }
}

/// Whether a frame stands at this place, of so many bytes.
pub fn is_sound<S: Seal>(values: &[u8], location: (u64, u32)) -> bool
    ensures { result ≡ is_sound S.seal_of values.now location }
{
    let (offset, size) = location;
    if size < 4 {
        return false;
    }
    let len = values.len() as u64;
    if offset > len {
        return false;
    }
    let rest = len - offset;
    if u64::from(size) > rest {
        return false;
    }
    let start = offset as usize;
    let end = start + (size as usize - 4);
    S::seal(&values[start..end]) == u32_in(&values[end..end + 4])
}

// Whether a record at this position, whose value is there, is kept where those before it are.
fn is_kept<S: Seal>(values: &[u8], location: (u64, u32), position: usize, marker: u64) -> bool
    ensures { result ≡ (nat_lt position marker || is_sound S.seal_of values.now location) }
{
    if (position as u64) < marker {
        return true;
    }
    is_sound::<S>(values, location)
}

// As many bytes from a place on as there are, up to those of a frame of this size without its seal.
fn spelled_at(alloc: Global, values: &[u8], location: (u64, u32)) -> Result<Vec<u8>, Error>
    ensures { IfOk result (λ v. v.items ≡ bytes_at values.now location.0 (location.1 - 4)) }
{
    let (offset, size) = location;
    let start = offset.min(values.len() as u64) as usize;
    let rest = &values[start..];
    let len = (size.saturating_sub(4) as usize).min(rest.len());
    Ok(rest[..len].to_vec(alloc)?)
}

// How many records are whole in these bytes.
fn count_of<I: Record>(sealed: &[u8]) -> usize
    ensures { result ≡ item_count I.SIZE sealed.now }
{
    sealed.len() / I::SIZE
}

// The bytes of a record among them.
fn stored_at<I: Record>(sealed: &[u8], position: usize) -> &[u8]
    requires { position < item_count I.SIZE sealed.now }
    ensures { result.now ≡ item_at I.SIZE sealed.now position }
{
    let size = I::SIZE;
    let start = position * size;
    &sealed[start..start + size]
}

// Where the value of a record with these bytes stands.
fn location_of<I: Record>(alloc: Global, stored: &[u8]) -> Result<(u64, u32), Error>
    ensures { IfOk result (λ l. l ≡ I.place stored.now) }
{
    let item = I::decode_cfg(alloc, stored, ())?;
    Ok(item.value_location())
}

// The record with its value.
fn found_at(
    alloc: Global,
    stored: &[u8],
    values: &[u8],
    location: (u64, u32),
) -> Result<Found, Error>
    ensures { IfOk result (λ f. f ≡ record { stored = stored.now; value = bytes_at values.now location.0 (location.1 - 4) }) }
{
    let stored = stored.to_vec(alloc)?;
    let value = spelled_at(alloc, values, location)?;
    Ok(Found { stored, value })
}

/// What is kept of a section with these two blobs and this marker: the records below the marker, and those behind them up to the first
/// whose value is not sound. A blob that is not there has no bytes.
pub fn kept<I: Record, S: Seal>(
    alloc: Global,
    page_size: u16,
    index: &[u8],
    values: &[u8],
    marker: u64,
) -> Result<Vec<Found>, Error>
    ensures { IfOk result (λ r. r.items ≡ map (entry_of I.place values.now) (unbroken_prefix (λ b. is_sound S.seal_of values.now (I.place b)) marker 0 (records I.SIZE (sealed_prefix S.seal_of page_size index.now)))) }
{
    let sealed = sealed_prefix::<S>(alloc, page_size, index)?;
    let sealed = sealed.as_slice();
    let mut kept = Vec::new(alloc);
    let count = count_of::<I>(sealed);
    'records: for position in 0..count {
        let stored = stored_at::<I>(sealed, position);
        let location = location_of::<I>(alloc, stored)?;
        let keeps = is_kept::<S>(values, location, position, marker);
        if !keeps {
            return Ok(kept);
        }
        let found = found_at(alloc, stored, values, location)?;
        kept.push(found)?;
    }
    Ok(kept)
}

/// Whether the section has so many records, all of them sound.
pub fn has_sound<I: Record, S: Seal>(
    alloc: Global,
    page_size: u16,
    index: &[u8],
    values: &[u8],
    marker: u64,
) -> Result<bool, Error>
    ensures { IfOk result (λ b. IsTrue b ↔ ((marker ≤ length (records I.SIZE (sealed_prefix S.seal_of page_size index.now)))
        × AllByRecursion (λ r. IsTrue (is_sound S.seal_of values.now (I.place r))) (take marker (records I.SIZE (sealed_prefix S.seal_of page_size index.now))))) }
{
    let found = kept::<I, S>(alloc, page_size, index, values, 0)?;
    Ok(found.len() as u64 >= marker)
}
