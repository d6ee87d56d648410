// Which slots an opening is asked to keep, and whether a section has them.
ghost use Rattle.std.specs.Prelude.{◌≡◌, ◌↔◌, ◌+◌, ◌*◌, ◌^◌, ◌≤◌, ◌<◌, ℕ, List, Some, None, true, min, length, drop, IfOk, OnErr, MatchResult, IsTrue};
ghost use Rattle.std.specs.BTreeMap.{get};
ghost use Rattle.std.specs.Ordering.{nat_cmp};
ghost use Rattle.sealed_pages.specs.unsealed.Writing.{blob_key, shown, size_of};
ghost use Rattle.ordinal_store.specs.Adopting.{IsReady};
ghost use Rattle.ordinal_store.specs.Marking.{IsPast, is_wanted};
ghost use Rattle.ordinal_store.specs.Reopening.{AreSound, HasPast, HasWanted, IsFirstMarked, Sounding};
ghost use Rattle.ordinal_store.specs.Slots.{Layout, stored_by};
ghost use Rattle.ordinal_store.specs.Stores.{sight};
ghost use Rattle.ordinal_store.specs.declared.ordinal.Error.TheVariants.{Full, MissingRecord};

use crate::BitMap;
use crate::ordinal::Error;
use crate::slot::{read_part, value_in};
use blob_device::Device;
use sealed_pages::WriteBlob;
use std::alloc::Global;
use std::collections::BTreeMap;
use value_codec::{CodecFixed, Seal};

// The least marked position from one on.
fn first_marked(bits: &BitMap, from: u64) -> Option<u64>
    ensures { IsFirstMarked bits.now from result }
{
    for position in from..bits.len() {
        if bits.get(position) {
            return Some(position);
        }
    }
    None
}

// Whether a slot of a section with these marks is wanted.
pub(crate) fn is_kept(marks: &Option<BitMap>) -> bool
    ensures { (items : ℕ) → 1 ≤ items → IsTrue result ↔ HasWanted items marks.now }
{
    match marks {
        None => true,
        Some(bits) => first_marked(bits, 0).is_some(),
    }
}

// Whether a mark stands at such a position that the index there, with this first index, passes the greatest `u64`.
fn is_marked_past(first: u64, bits: &BitMap) -> bool
    ensures { IsTrue result ↔ ((p : ℕ) × (is_wanted 0 (Some (Some bits.now)) p ≡ true)
        × (2 ^ 64 ≤ first + p)) }
{
    let room = u64::MAX - first;
    if bits.len() <= room {
        return false;
    }
    first_marked(bits, room + 1).is_some()
}

// Whether a wanted index of the section passes the greatest `u64`.
fn is_past(items: u64, section: u64, marks: &Option<BitMap>) -> bool
    requires { 1 ≤ items }
    ensures { IsTrue result ↔ HasPast items section marks.now }
{
    let Some(first) = section.checked_mul(items) else {
        return is_kept(marks);
    };
    match marks {
        None => u64::MAX - first < items - 1,
        Some(bits) => is_marked_past(first, bits),
    }
}

// Refuses a map of which a wanted index passes the greatest `u64`.
pub(crate) fn check_numbers(items: u64, map: &BTreeMap<u64, Option<BitMap>>) -> Result<(), Error>
    requires { 1 ≤ items }
    ensures { (l : Layout) → l.items ≡ items → MatchResult result
        (λ v. IsPast l (get nat_cmp map.now) → ⊥) (λ e. IsPast l (get nat_cmp map.now) × (e ≡ Full)) }
{
    for (section, marks) in map.iter() {
        let section = *section;
        if is_past(items, section, marks) {
            return Err(Error::Full);
        }
    }
    Ok(())
}

// How many slots from the first on hold a value.
fn sound_in<A: CodecFixed, S: Seal>(alloc: Global, piece: &[u8], count: u64) -> Result<u64, Error>
    requires { count * (A.SIZE + 4) ≤ length piece.now }
    ensures sound { (partition : List ℕ) (items : ℕ)
        → IfOk result (AreSound (stored_by partition items A.SIZE S.seal_of A.refusal) piece.now count) }
    ensures cause { OnErr result (result ≡ Err Error.Mem) }
{
    let size = A::SIZE + 4;
    for position in 0..count {
        let at = position as usize * size;
        let Some(_) = value_in::<A, S>(alloc, &piece[at..at + size])? else {
            return Ok(position);
        };
    }
    Ok(count)
}

// How many of so many slots from a position on hold a value. It reads them by one read of the device.
fn sound_from<A: CodecFixed, S: Seal, D: Device>(
    alloc: Global,
    dev: &mut D,
    buffer: &WriteBlob,
    from: u64,
    count: u64,
) -> Result<u64, Error>
    requires ready { IsReady D.Tells (blob_key (shown buffer.now)) buffer.now.capacity
        (sight D.Device dev.old) buffer.now }
    requires fits { size_of (shown buffer.now) < 2 ^ 64 }
    requires room { from * (A.SIZE + 4) + count * (A.SIZE + 4) ≤ size_of (shown buffer.now) }
    ensures { (partition : List ℕ) (items : ℕ) → Sounding D.Tells
        (stored_by partition items A.SIZE S.seal_of A.refusal) (blob_key (shown buffer.now))
        (drop (from * (A.SIZE + 4))) count result (sight D.Device dev.old) (sight D.Device dev.new) }
{
    let size = A::SIZE + 4;
    let piece = read_part(
        alloc,
        dev,
        buffer,
        from * size as u64,
        count as usize * size,
    )?;
    sound_in::<A, S>(alloc, piece.as_slice(), count)
}

// How many of a section's slots from the first on hold a value. It reads them in pieces, of one slot or more.
pub(crate) fn sound_slots<A: CodecFixed, S: Seal, D: Device>(
    alloc: Global,
    dev: &mut D,
    buffer: &WriteBlob,
    count: u64,
    piece_size: usize,
) -> Result<u64, Error>
    requires ready { IsReady D.Tells (blob_key (shown buffer.now)) buffer.now.capacity
        (sight D.Device dev.old) buffer.now }
    requires fits { size_of (shown buffer.now) < 2 ^ 64 }
    requires room { count * (A.SIZE + 4) ≤ size_of (shown buffer.now) }
    ensures { (partition : List ℕ) (items : ℕ) → Sounding D.Tells
        (stored_by partition items A.SIZE S.seal_of A.refusal) (blob_key (shown buffer.now))
        (λ bytes. bytes) count result (sight D.Device dev.old) (sight D.Device dev.new) }
{
    let slots = (piece_size / (A::SIZE + 4)).max(1) as u64;
    let mut sound = 0;
    while sound < count {
        let more = slots.min(count - sound);
        let held = sound_from::<A, S, D>(alloc, dev, buffer, sound, more)?;
        sound += held;
        if held < more {
            return Ok(sound);
        }
    }
    Ok(sound)
}

// Refuses the first marked slot that is past the section or its blob.
pub(crate) fn check_marked(first: u64, items: u64, count: u64, bits: &BitMap) -> Result<(), Error>
    requires { (p : ℕ) → is_wanted items (Some (Some bits.now)) p ≡ true → first + p < 2 ^ 64 }
    ensures { MatchResult result (λ v. IsFirstMarked bits.now (min items count) None)
        (λ e. (p : ℕ) × IsFirstMarked bits.now (min items count) (Some p)
        × (e ≡ MissingRecord (first + p))) }
{
    match first_marked(bits, items.min(count)) {
        None => Ok(()),
        Some(position) => Err(Error::MissingRecord(first + position)),
    }
}
