// Records of 28 bytes: two numbers, and the location of their value.
ghost use Rattle.std.specs.Prelude.{◌≡◌, ◌<◌, ◌≤◌, ◌+◌, ◌^◌, ◌++◌, ℕ, true, List, length, take, drop};
ghost use Rattle.std.specs.Int.{w32, w64, to_be_bytes, from_be_bytes};
ghost use Rattle.std.proofs.Common.{refl, sym, ap, ◌∙◌, lit≤};
ghost use Rattle.std.proofs.lemmas.Nat.{from_be_bytes-to_be_bytes_4, from_be_bytes-to_be_bytes_8};
ghost use Rattle.value_codec.specs.Spelling.{size_refusal};
ghost use Rattle.value_codec.specs.SpellingLaws.{size_too_few, size_too_many, size_few_only, size_many_only, size_not_memory};

use paired::Record;
use std::alloc::Global;
use value_codec::{Codec, CodecFixed, codec};

/// A record with a number of its own.
#[derive(Clone, Copy)]
pub struct Note {
    /// Which record it is.
    pub number: u64,
    /// The number with each of its bits turned.
    pub tag: u64,
    /// Where the frame of its value begins.
    pub offset: u64,
    /// How many bytes the frame has.
    pub size: u32,
}

/// The record of this number, which names no value yet.
pub fn numbered(number: u64) -> Note
    ensures accepted { ⟦<Note as Codec>⟧.accepted result tt }
{
    Note {
        number,
        tag: !number,
        offset: 0,
        size: 0,
    }
}

/// The number in the eight bytes at a place, the highest first.
fn u64_at(bytes: &[u8], at: usize) -> u64
    requires { at + 8 ≤ length bytes.now }
    ensures spelled { to_be_bytes w64 result ≡ take 8 (drop at bytes.now) }
    ensures value { result ≡ from_be_bytes w64 (take 8 (drop at bytes.now)) }
{
    u64::from_be_bytes(<[u8; 8]>::try_from(&bytes[at..at + 8]).unwrap())
}

/// The number in four bytes, the highest first.
fn u32_in(bytes: &[u8]) -> u32
    requires { length bytes.now ≡ 4 }
    ensures spelled { to_be_bytes w32 result ≡ bytes.now }
    ensures value { result ≡ from_be_bytes w32 bytes.now }
{
    u32::from_be_bytes(<[u8; 4]>::try_from(bytes).unwrap())
}

/// Each number is one of its type.
fn are_numbers(_number: u64, _tag: u64, _offset: u64, _size: u32) -> bool
    ensures always { result ≡ true }
    ensures fit { (_number < 2 ^ 64) × (_tag < 2 ^ 64) × (_offset < 2 ^ 64) × (_size < 2 ^ 32) }
{
    true
}

impl Codec for Note {
    type Cfg = ();

    ghost spelling = { λ r. to_be_bytes w64 r.number ++ to_be_bytes w64 r.tag ++ to_be_bytes w64 r.offset ++ to_be_bytes w32 r.size };

    ghost accepted = { λ r _. (r.number < 2 ^ 64) × (r.tag < 2 ^ 64) × (r.offset < 2 ^ 64) × (r.size < 2 ^ 32) };

    ghost refusal = { λ bytes _. size_refusal 28 bytes };

    ghost kept = { λ _ _ _. refl };

    ghost one_value = { λ m n _ fits fits_too same. λ i. record {
      number = (sym (from_be_bytes-to_be_bytes_8 m.number fits.0) ∙ ap (λ (bytes : List ℕ). from_be_bytes w64 (take 8 bytes)) same ∙ from_be_bytes-to_be_bytes_8 n.number fits_too.0) i;
      tag = (sym (from_be_bytes-to_be_bytes_8 m.tag fits.1) ∙ ap (λ (bytes : List ℕ). from_be_bytes w64 (take 8 (drop 8 bytes))) same ∙ from_be_bytes-to_be_bytes_8 n.tag fits_too.1) i;
      offset = (sym (from_be_bytes-to_be_bytes_8 m.offset fits.2) ∙ ap (λ (bytes : List ℕ). from_be_bytes w64 (take 8 (drop 16 bytes))) same ∙ from_be_bytes-to_be_bytes_8 n.offset fits_too.2) i;
      size = (sym (from_be_bytes-to_be_bytes_4 m.size fits.3) ∙ ap (λ (bytes : List ℕ). from_be_bytes w32 (drop 24 bytes)) same ∙ from_be_bytes-to_be_bytes_4 n.size fits_too.3) i;
    } };

    ghost not_memory = { λ bytes _. size_not_memory 28 bytes };

    fn encode_size(&self) -> u64 {
        28
    }

    fn write(&self, out: &mut Vec<u8>) -> Result<(), codec::Error> {
        let n = u64::to_be_bytes(self.number);
        let t = u64::to_be_bytes(self.tag);
        let o = u64::to_be_bytes(self.offset);
        let s = u32::to_be_bytes(self.size);
        let bytes = [
            n[0], n[1], n[2], n[3], n[4], n[5], n[6], n[7], t[0], t[1], t[2], t[3], t[4], t[5],
            t[6], t[7], o[0], o[1], o[2], o[3], o[4], o[5], o[6], o[7], s[0], s[1], s[2], s[3],
        ];
        out.extend_from_slice(&bytes)?;
        Ok(())
    }

    fn decode_cfg(_alloc: Global, bytes: &[u8], _cfg: ()) -> Result<Note, codec::Error> {
        if bytes.len() < 28 {
            return Err(codec::Error::EndOfBuffer);
        }
        if bytes.len() > 28 {
            return Err(codec::Error::ExtraBytes);
        }
        Ok(Note {
            number: u64_at(bytes, 0),
            tag: u64_at(bytes, 8),
            offset: u64_at(bytes, 16),
            size: u32_in(&bytes[24..28]),
        })
    }

    fn accepts(&self, _cfg: ()) -> bool {
        are_numbers(self.number, self.tag, self.offset, self.size)
    }
}

impl CodecFixed for Note {
    ghost SIZE = { 28 };

    const SIZE: usize = 28;

    ghost fixed = { record {
      at_least = lit≤ tt;
      at_most = lit≤ tt;
      sized = λ _ _. refl;
      too_few = size_too_few 28;
      too_many = size_too_many 28;
      few_only = size_few_only 28;
      many_only = size_many_only 28;
    } };
}

impl Record for Note {
    ghost location = { λ r. (r.offset, r.size) };

    ghost located = { λ r offset size. record r { offset = offset; size = size } };

    ghost place = { λ bytes. (from_be_bytes w64 (take 8 (drop 16 bytes)), from_be_bytes w32 (drop 24 bytes)) };

    ghost spelled = { λ r fits. λ i. (from_be_bytes-to_be_bytes_8 r.offset fits.2 i, from_be_bytes-to_be_bytes_4 r.size fits.3 i) };

    ghost given = { λ _ _ _ _ _. refl };

    ghost last_given = { λ _ _ _ _ _. refl };

    ghost same = { λ _. refl };

    ghost anywhere = { λ _ _ _ at small fits. (fits.0, fits.1, at, small) };

    fn value_location(&self) -> (u64, u32) {
        (self.offset, self.size)
    }

    fn with_location(self, offset: u64, size: u32) -> Note {
        Note {
            number: self.number,
            tag: self.tag,
            offset,
            size,
        }
    }
}
