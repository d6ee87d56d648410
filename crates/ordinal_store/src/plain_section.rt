//! A plain, slow reading of what an opening keeps of one section, and why it refuses it. It looks at a whole blob, slot by slot.
ghost use Rattle.std.specs.Prelude.{◌≡◌, ◌↔◌, ◌≤◌, ◌<◌, ◌+◌, ◌*◌, ◌/◌, ◌^◌, ℕ, List, Option, Some, None, true, false, length, slice_get, IfOk, OnOk, IfErr, MatchOption, MatchResult, IsTrue};
ghost use Rattle.std.specs.Option.{option_copied};
ghost use Rattle.std.specs.Int.{w32, to_be_bytes, from_be_bytes};
ghost use Rattle.ordinal_store.specs.Marking.{IsFault, IsFaulty, IsFirstFault, IsTooLong, IsWhole, is_wanted};
ghost use Rattle.ordinal_store.specs.Slots.{HasValue, count_in, slot_at, stored_by};

use crate::BitMap;
use crate::ordinal::Error;
use std::alloc::Global;
use value_codec::{CodecFixed, Seal, codec};

// The number in four bytes, the highest first.
pub(crate) fn u32_in(bytes: &[u8]) -> u32
    requires { length bytes.now ≡ 4 }
    ensures spelled { to_be_bytes w32 result ≡ bytes.now }
    ensures value { result ≡ from_be_bytes w32 bytes.now }
{
    u32::from_be_bytes(<[u8; 4]>::try_from(bytes).unwrap())
}

// Whether the bytes are the spelling of a value.
fn is_spelling<A: CodecFixed>(alloc: Global, bytes: &[u8]) -> Result<bool, Error>
    ensures { IfOk result (λ b. IsTrue b ↔ (A.refusal bytes.now tt ≡ None)) }
{
    match A::decode_cfg(alloc, bytes, ()) {
        Ok(_) => Ok(true),
        Err(codec::Error::Mem) => Err(Error::Mem),
        Err(_) => Ok(false),
    }
}

/// Whether a slot holds a value: its seal holds, and the bytes before it spell one.
pub fn has_value<A: CodecFixed, S: Seal>(alloc: Global, slot: &[u8]) -> Result<bool, Error>
    ensures { (partition : List ℕ) (items : ℕ) → IfOk result
        (λ b. IsTrue b ↔ HasValue (stored_by partition items A.SIZE S.seal_of A.refusal) slot.now) }
{
    if slot.len() != A::SIZE + 4 {
        return Ok(false);
    }
    let (spelled, seal) = slot.split_at(A::SIZE);
    if S::seal(spelled) != u32_in(seal) {
        return Ok(false);
    }
    is_spelling::<A>(alloc, spelled)
}

/// Whether the slot at a position is wanted.
pub fn is_wanted(items: u64, marks: &Option<BitMap>, position: u64) -> bool
    ensures { result ≡ is_wanted items (Some marks.now) position }
{
    match marks {
        None => position < items,
        Some(bits) => position < bits.len() && bits.get(position),
    }
}

// Whether the slot at a position is not as it is wanted.
fn is_faulty<A: CodecFixed, S: Seal>(
    alloc: Global,
    items: u64,
    marks: &Option<BitMap>,
    blob: &[u8],
    position: u64,
) -> Result<bool, Error>
    ensures { (partition : List ℕ) → IfOk result (λ b. IsTrue b
        ↔ IsFaulty (stored_by partition items A.SIZE S.seal_of A.refusal) (Some marks.now) blob.now
        position) }
{
    let size = A::SIZE + 4;
    let count = (blob.len() / size) as u64;
    if position >= count {
        return Ok(true);
    }
    match marks {
        Some(_) => Ok(position >= items),
        None => {
            let at = position as usize * size;
            let holds = has_value::<A, S>(alloc, &blob[at..at + size])?;
            Ok(!holds)
        }
    }
}

/// The first wanted slot that is not as it is wanted, if there is one.
pub fn first_fault<A: CodecFixed, S: Seal>(
    alloc: Global,
    items: u64,
    marks: &Option<BitMap>,
    blob: &[u8],
) -> Result<Option<u64>, Error>
    ensures { (partition : List ℕ) → IfOk result (λ r. MatchOption r
        ((p : ℕ) → is_wanted items (Some marks.now) p ≡ true
        → IsFaulty (stored_by partition items A.SIZE S.seal_of A.refusal) (Some marks.now) blob.now p → ⊥)
        (IsFirstFault (stored_by partition items A.SIZE S.seal_of A.refusal) (Some marks.now) blob.now)) }
{
    let end = match marks {
        None => items,
        Some(bits) => bits.len(),
    };
    for position in 0..end {
        let wanted = is_wanted(items, marks, position);
        let faulty = is_faulty::<A, S>(alloc, items, marks, blob, position)?;
        if wanted && faulty {
            return Ok(Some(position));
        }
    }
    Ok(None)
}

// Whether a section that has to be full has more slots than a section has.
fn is_too_long<A: CodecFixed>(items: u64, marks: &Option<BitMap>, blob: &[u8]) -> bool
    ensures { IsTrue result ↔ IsTooLong items (Some marks.now) (length blob.now / (A.SIZE + 4)) }
{
    let count = (blob.len() / (A::SIZE + 4)) as u64;
    match marks {
        None => items < count,
        Some(_) => false,
    }
}

/// How an opening answers a section that is kept: not at all where its blob holds what is wanted, and else by this refusal.
pub fn refusal<A: CodecFixed, S: Seal>(
    alloc: Global,
    items: u64,
    section: u64,
    marks: &Option<BitMap>,
    blob: Option<&[u8]>,
) -> Result<Option<Error>, Error>
    requires first { section * items < 2 ^ 64 }
    requires fits { (p : ℕ) → is_wanted items (Some marks.now) p ≡ true → section * items + p < 2 ^ 64 }
    ensures { (partition : List ℕ) → IfOk result (λ r. MatchOption r
        (IsWhole (stored_by partition items A.SIZE S.seal_of A.refusal) (Some marks.now)
        (option_copied blob.entry))
        (IsFault (stored_by partition items A.SIZE S.seal_of A.refusal) section (Some marks.now)
        (option_copied blob.entry))) }
{
    let first = section * items;
    let Some(blob) = blob else {
        return Ok(Some(Error::MissingRecord(first)));
    };
    if is_too_long::<A>(items, marks, blob) {
        return Ok(Some(Error::InvalidRecord(first.saturating_add(items))));
    }
    match first_fault::<A, S>(alloc, items, marks, blob)? {
        Some(position) => Ok(Some(Error::MissingRecord(first + position))),
        None => Ok(None),
    }
}
