// The numbers that the names of sections' blobs spell.
ghost use Rattle.std.specs.Prelude.{◌≡◌, ◌≢◌, ◌<◌, ◌⊎◌, ◌^◌, ℕ, List, length, map, get_or, IfOk, OnOk, OnErr, Err};
ghost use Rattle.std.specs.Result.{IsErrOf};
ghost use Rattle.std.specs.List.{Contains};
ghost use Rattle.std.specs.Int.{w64, to_be_bytes};

use crate::ordinal::Error;
use blob_device::Names;
use std::alloc::Global;
use value_codec::HexName;

// Why a name that is not eight bytes long is refused. Keeping a copy of it may find no memory.
fn refused_name(alloc: Global, name: &[u8]) -> Error
    ensures { (result ≡ Error.Mem) ⊎ (result ≡ Error.InvalidBlobName name.now) }
{
    match HexName::new(alloc, name) {
        Ok(name) => Error::InvalidBlobName(name),
        Err(_) => Error::Mem,
    }
}

// The number that a blob's name spells.
fn section_number(alloc: Global, name: &[u8]) -> Result<u64, Error>
    ensures number { IfOk result (λ n. (name.now ≡ to_be_bytes w64 n) × (n < 2 ^ 64)) }
    ensures foreign { (n : List ℕ) → result ≡ Err (Error.InvalidBlobName n)
        → (n ≡ name.now) × (length name.now ≢ 8) }
    ensures cause { OnErr result (IsErrOf result Error.Mem
        ⊎ IsErrOf result (Error.InvalidBlobName name.now)) }
{
    let Some(bytes) = name.first_chunk::<8>() else {
        return Err(refused_name(alloc, name));
    };
    if name.len() > 8 {
        return Err(refused_name(alloc, name));
    }
    Ok(u64::from_be_bytes(*bytes))
}

// The numbers that the names spell, in their order. It refuses the first name that spells none.
pub(crate) fn section_numbers(alloc: Global, names: &Names) -> Result<Vec<u64>, Error>
    ensures numbers { IfOk result (λ r. map (to_be_bytes w64) r.items ≡ names.now) }
    ensures small { IfOk result (λ r. (i : ℕ) → get_or r.items i 0 < 2 ^ 64) }
    ensures foreign { (n : List ℕ) → result ≡ Err (Error.InvalidBlobName n)
        → Contains names.now n × (length n ≢ 8) }
    ensures cause { OnErr result (IsErrOf result Error.Mem
        ⊎ ((n : List ℕ) × IsErrOf result (Error.InvalidBlobName n))) }
{
    let mut numbers = Vec::new(alloc);
    for i in 0..names.len() {
        let Some(name) = names.get(i) else { break };
        numbers.push(section_number(alloc, name)?)?;
    }
    Ok(numbers)
}
