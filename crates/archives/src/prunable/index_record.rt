// The records of an archive's index.
ghost use Rattle.std.specs.Prelude.{◌≡◌, ◌+◌, ◌<◌, ◌^◌, true, length};
ghost use Rattle.std.specs.Int.{w32, w64, to_be_bytes};
ghost use Rattle.std.proofs.Common.{refl};
ghost use Rattle.value_codec.specs.Spelling.{size_refusal};
ghost use Rattle.value_codec.specs.SpellingLaws.{size_too_few, size_too_many, size_few_only, size_many_only, size_not_memory};
ghost use Rattle.archives.specs.Decoding.{Decodes};
ghost use Rattle.archives.specs.IndexRecord.{IsInRange, place_of, spelling_of};
ghost use Rattle.archives.specs.IndexRecordLaws.{index_record_at_least, index_record_at_most, index_record_kept, length-index_record, one_index_record, place_of-index_record};

use paired::Record;
use std::alloc::Global;
use value_codec::{Codec, CodecFixed, Key, codec};

/// A record of the index: what was put under which index and key, and where the value's frame stands.
///
/// An archive makes and reads its records itself. Who looks at the blobs of one, as by `paired::plain`, reads them by this.
#[derive(Clone, Copy)]
pub struct IndexRecord<K> {
    // what the put named
    index: u64,
    // what the put named
    key: K,
    // where the value's frame begins in the section's values: set once the frame has its place
    offset: u64,
    // how many bytes the frame has: set with its place
    size: u32,
}

impl<K: Key> IndexRecord<K> {
    /// A record that names no value yet.
    pub fn new(index: u64, key: K) -> IndexRecord<K>
        ensures { result ≡ record { index = index; key = key; offset = 0; size = 0 } }
    {
        IndexRecord {
            index,
            key,
            offset: 0,
            size: 0,
        }
    }

    /// The index.
    pub fn index(&self) -> u64
        ensures { result ≡ self.now.index }
    {
        self.index
    }

    /// The key.
    pub fn key(&self) -> &K
        ensures { result.now ≡ self.now.key }
    {
        &self.key
    }

    // The record that these bytes spell: as many bytes as a record has always spell one.
    fn from_bytes(bytes: &[u8]) -> Option<IndexRecord<K>>
        ensures { Decodes K.key_bytes K.SIZE bytes.now result }
    {
        if bytes.len() != K::SIZE + 20 {
            return None;
        }
        let (index, rest) = bytes.split_at(8);
        let (key, rest) = rest.split_at(K::SIZE);
        let (offset, size) = rest.split_at(8);
        Some(IndexRecord {
            index: u64_in(index),
            key: K::from_bytes(key)?,
            offset: u64_in(offset),
            size: u32_in(size),
        })
    }
}

// The number that eight bytes are, the highest first.
fn u64_in(bytes: &[u8]) -> u64
    requires { length bytes.now ≡ 8 }
    ensures { to_be_bytes w64 result ≡ bytes.now }
{
    u64::from_be_bytes(<[u8; 8]>::try_from(bytes).unwrap())
}

// The number that four bytes are, the highest first.
fn u32_in(bytes: &[u8]) -> u32
    requires { length bytes.now ≡ 4 }
    ensures { to_be_bytes w32 result ≡ bytes.now }
{
    u32::from_be_bytes(<[u8; 4]>::try_from(bytes).unwrap())
}

// Each number is one of its type.
fn are_numbers(_index: u64, _offset: u64, _size: u32) -> bool
    ensures always { result ≡ true }
    ensures fit { (_index < 2 ^ 64) × (_offset < 2 ^ 64) × (_size < 2 ^ 32) }
{
    true
}

impl<K: Key> Codec for IndexRecord<K> {
    type Cfg = ();

    ghost spelling = { spelling_of K.key_bytes };

    ghost accepted = { λ r _. IsInRange r };

    ghost refusal = { λ bytes _. size_refusal (K.SIZE + 20) bytes };

    ghost kept = { λ r _ _. index_record_kept K.SIZE r.index (K.key_bytes r.key) r.offset r.size (K.sized r.key) };

    ghost one_value = { λ r q _. one_index_record K.key_bytes K.SIZE K.sized K.one_key r q };

    ghost not_memory = { λ bytes _. size_not_memory (K.SIZE + 20) bytes };

    fn encode_size(&self) -> u64 {
        Self::SIZE as u64
    }

    fn write(&self, out: &mut Vec<u8>) -> Result<(), codec::Error> {
        // With room for all of it nothing fails any more.
        out.reserve(Self::SIZE)?;
        out.extend_from_slice(&u64::to_be_bytes(self.index))
            .unwrap();
        out.extend_from_slice(self.key.as_bytes()).unwrap();
        out.extend_from_slice(&u64::to_be_bytes(self.offset))
            .unwrap();
        out.extend_from_slice(&u32::to_be_bytes(self.size)).unwrap();
        Ok(())
    }

    fn decode_cfg(_alloc: Global, bytes: &[u8], _cfg: ()) -> Result<Self, codec::Error> {
        if bytes.len() < Self::SIZE {
            return Err(codec::Error::EndOfBuffer);
        }
        match Self::from_bytes(bytes) {
            Some(record) => Ok(record),
            None => Err(codec::Error::ExtraBytes),
        }
    }

    fn accepts(&self, _cfg: ()) -> bool {
        are_numbers(self.index, self.offset, self.size)
    }
}

impl<K: Key> CodecFixed for IndexRecord<K> {
    ghost SIZE = { K.SIZE + 20 };

    const SIZE: usize = K::SIZE + 20;

    ghost fixed = { record {
      at_least = index_record_at_least K.SIZE;
      at_most = index_record_at_most K.SIZE K.small;
      sized = λ r _. length-index_record K.SIZE r.index (K.key_bytes r.key) r.offset r.size (K.sized r.key);
      too_few = size_too_few (K.SIZE + 20);
      too_many = size_too_many (K.SIZE + 20);
      few_only = size_few_only (K.SIZE + 20);
      many_only = size_many_only (K.SIZE + 20);
    } };
}

impl<K: Key> Record for IndexRecord<K> {
    ghost location = { λ r. (r.offset, r.size) };

    ghost located = { λ r offset size. record r { offset = offset; size = size } };

    ghost place = { place_of K.SIZE };

    ghost spelled = { λ r fits. place_of-index_record K.SIZE r.index (K.key_bytes r.key) r.offset r.size (K.sized r.key) fits.1 fits.2 };

    ghost given = { λ _ _ _ _ _. refl };

    ghost last_given = { λ _ _ _ _ _. refl };

    ghost same = { λ _. refl };

    ghost anywhere = { λ _ _ _ at small fits. (fits.0, at, small) };

    fn value_location(&self) -> (u64, u32) {
        (self.offset, self.size)
    }

    fn with_location(self, offset: u64, size: u32) -> IndexRecord<K> {
        IndexRecord {
            offset,
            size,
            ..self
        }
    }
}
