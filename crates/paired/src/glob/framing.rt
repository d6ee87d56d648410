// Frames: a value's spelling, with the seal of the spelling behind it.
ghost use Rattle.std.specs.Prelude.{◌≡◌, ◌≢◌, ◌↔◌, ◌+◌, ◌-◌, ◌≤◌, ◌<◌, ◌^◌, ℕ, List, length, IfOk, OnErr};
ghost use Rattle.std.specs.Int.{w32, to_be_bytes, from_be_bytes};
ghost use Rattle.std.specs.Result.{IsErrOf};
ghost use Rattle.paired.specs.Frames.{frame, with_number};
ghost use Rattle.paired.specs.glob.Reading.{IsMismatch};

use segments::journal::Error;
use std::alloc::Global;
use value_codec::{Codec, Seal};

/// How many bytes a seal takes.
pub(super) const SEAL_SIZE: u32 = 4;

/// The size of the value's frame. The spelling is not made.
pub(crate) fn frame_size<V: Codec>(value: &V) -> Result<u32, Error>
    ensures size { IfOk result (λ n. n ≡ length (V.spelling value.now) + 4) }
    ensures large { IsErrOf result Error.ValueTooLarge ↔ (2 ^ 32 - 1 < length (V.spelling value.now) + 4) }
    ensures cause { OnErr result (IsErrOf result Error.ValueTooLarge) }
{
    let size = value.encode_size().saturating_add(u64::from(SEAL_SIZE));
    match u32::try_from(size) {
        Ok(size) => Ok(size),
        Err(_) => Err(Error::ValueTooLarge),
    }
}

/// The frame of a value, which has this size.
pub(super) fn framed<V: Codec, S: Seal>(
    alloc: Global,
    value: &V,
    size: u32,
) -> Result<Vec<u8>, Error>
    ensures frame { IfOk result (λ r. r.items ≡ frame S.seal_of (V.spelling value.now)) }
    ensures cause { OnErr result (IsErrOf result Error.Mem) }
{
    let mut bytes = Vec::with_capacity(alloc, size as usize)?;
    value.write(&mut bytes)?;
    let seal = S::seal(bytes.as_slice());
    bytes.extend_from_slice(&seal.to_be_bytes())?;
    Ok(bytes)
}

/// The number in four bytes, the highest first.
pub(crate) fn u32_in(bytes: &[u8]) -> u32
    requires { length bytes.now ≡ 4 }
    ensures spelled { to_be_bytes w32 result ≡ bytes.now }
    ensures value { result ≡ from_be_bytes w32 bytes.now }
{
    u32::from_be_bytes(<[u8; 4]>::try_from(bytes).unwrap())
}

/// The spelling in a frame whose seal holds.
pub(super) fn spelled<S: Seal>(bytes: &[u8]) -> Result<&[u8], Error>
    requires { 4 ≤ length bytes.now }
    ensures sealed { IfOk result (λ r. bytes.now ≡ frame S.seal_of r.now) }
    ensures broken { (stored computed : ℕ) → IsErrOf result (Error.ChecksumMismatch stored computed)
        → (stored ≢ computed) × (stored < 2 ^ 32) × ((prefix : List ℕ) × (computed ≡ S.seal_of prefix) × (bytes.now ≡ with_number prefix stored)) }
    ensures cause { OnErr result (IsMismatch result) }
{
    let end = bytes.len() - SEAL_SIZE as usize;
    let prefix = &bytes[..end];
    let stored = u32_in(&bytes[end..]);
    let computed = S::seal(prefix);
    if stored != computed {
        return Err(Error::ChecksumMismatch(stored, computed));
    }
    Ok(prefix)
}
