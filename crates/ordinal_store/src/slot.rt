//! Slots: a value's spelling, with the seal of that behind it.
ghost use Rattle.std.specs.Prelude.{◌≡◌, ◌≤◌, ◌<◌, ◌+◌, ◌^◌, ℕ, List, Option, Some, None, Err, length, IfOk, OnOk, OnErr, MatchOption};
ghost use Rattle.sealed_pages.specs.Entries.{IsOpenAt};
ghost use Rattle.sealed_pages.specs.unsealed.Writing.{blob_key, shown, size_of};
ghost use Rattle.ordinal_store.specs.Slots.{HasValue, IsSealed, slot_of, stored_by};
ghost use Rattle.ordinal_store.specs.Steps.{PartRead};
ghost use Rattle.ordinal_store.specs.Stores.{sight};

use crate::ordinal::Error;
use crate::plain_section::u32_in;
use blob_device::Device;
use sealed_pages::WriteBlob;
use std::alloc::Global;
use value_codec::{CodecFixed, Seal, codec};

// The value that the bytes spell.
fn spelled<A: CodecFixed>(alloc: Global, bytes: &[u8]) -> Result<Option<A>, Error>
    ensures value { IfOk result (λ r. MatchOption r (A.refusal bytes.now tt ≡ None → ⊥)
        (λ v. (A.refusal bytes.now tt ≡ None) × (A.spelling v ≡ bytes.now))) }
    ensures cause { OnErr result (result ≡ Err Error.Mem) }
{
    match A::decode_cfg(alloc, bytes, ()) {
        Ok(value) => Ok(Some(value)),
        Err(codec::Error::Mem) => Err(Error::Mem),
        Err(_) => Ok(None),
    }
}

/// The slot of a value: its spelling, and the seal of that behind it.
pub(crate) fn slot_for<A: CodecFixed, S: Seal>(alloc: Global, value: &A) -> Result<Vec<u8>, Error>
    requires { A.accepted value.now tt }
    ensures slot { (partition : List ℕ) (items : ℕ)
        → IfOk result (λ r. r.items ≡ slot_of (stored_by partition items A.SIZE S.seal_of A.refusal)
        (A.spelling value.now)) }
    ensures size { IfOk result (λ r. length r.items ≡ A.SIZE + 4) }
    ensures cause { OnErr result (result ≡ Err Error.Mem) }
{
    let mut slot = Vec::with_capacity(alloc, A::SIZE + 4)?;
    // Writing a value answers want of memory alone.
    if value.write(&mut slot).is_err() {
        return Err(Error::Mem);
    }
    let seal = S::seal(slot.as_slice());
    slot.extend_from_slice(&seal.to_be_bytes())?;
    Ok(slot)
}

/// The value in a slot, if its seal holds and the bytes before it spell one.
pub(crate) fn value_in<A: CodecFixed, S: Seal>(
    alloc: Global,
    slot: &[u8],
) -> Result<Option<A>, Error>
    requires { length slot.now ≡ A.SIZE + 4 }
    ensures value { (partition : List ℕ) (items : ℕ)
        → IfOk result (λ r. MatchOption r (HasValue (stored_by partition items A.SIZE S.seal_of A.refusal)
        slot.now → ⊥)
        (λ v. IsSealed (stored_by partition items A.SIZE S.seal_of A.refusal) slot.now (A.spelling v))) }
    ensures cause { OnErr result (result ≡ Err Error.Mem) }
{
    let (prefix, seal) = slot.split_at(A::SIZE);
    if S::seal(prefix) != u32_in(seal) {
        return Ok(None);
    }
    spelled(alloc, prefix)
}

/// So many bytes from a place on, by one read of the device at most.
pub(crate) fn read_part<D: Device>(
    alloc: Global,
    dev: &mut D,
    buffer: &WriteBlob,
    at: u64,
    size: usize,
) -> Result<Vec<u8>, Error>
    requires open { IsOpenAt (D.opened dev.old) (blob_key (shown buffer.now)) buffer.now.end }
    requires room { at + size ≤ size_of (shown buffer.now) }
    requires fits { at + size < 2 ^ 64 }
    ensures { PartRead (λ r. r.items) D.Tells (shown buffer.now) at size result
        (sight D.Device dev.old) (sight D.Device dev.new) }
{
    let mut bytes = vec![in alloc; 0; size]?;
    buffer.read_at(dev, at, bytes.as_mut_slice())?;
    Ok(bytes)
}
