// A value that is spelled by its own bytes.
ghost use Rattle.std.specs.Prelude.{◌≡◌, ℕ, ◌≤◌, List, length, nat_eq, IfOk, IfErr};
ghost use Rattle.std.specs.Cmp.Lexicographic.{pointwise, nat_list_eq_equiv};
ghost use Rattle.std.specs.Cmp.{partial_equiv_from_equiv};
ghost use Rattle.value_codec.specs.Spelling.{length_refusal};
ghost use Rattle.value_codec.specs.SpellingLaws.{length_kept, length_not_memory};
ghost use Rattle.value_codec.specs.declared.codec.Error.TheVariants.{Mem};

use crate::Codec;
use crate::codec::Error;
use std::alloc::{AllocError, Global};
use std::marker::Model;

/// Any bytes; the configuration is the greatest length.
#[derive(Debug, Drop)]
pub struct ByteValue {
    // as they were given: never changed
    bytes: Vec<u8>,
}

impl Model for ByteValue {
    ghost Value = { List ℕ };

    ghost view = { λ v. v.bytes.items };
}

impl ByteValue {
    /// A copy of the bytes.
    pub fn new(alloc: Global, bytes: &[u8]) -> Result<ByteValue, Error>
        ensures value { IfOk result (λ v. v ≡ bytes.now) }
        ensures cause { IfErr result (λ e. e ≡ Mem) }
    {
        Ok(ByteValue {
            bytes: bytes.to_vec(alloc)?,
        })
    }

    /// The bytes.
    pub fn as_bytes(&self) -> &[u8]
        ensures { result.now ≡ self.now }
    {
        self.bytes.as_slice()
    }
}

impl Clone for ByteValue {
    ghost is_clone = { λ v w. w ≡ v };

    fn clone(&self) -> Result<ByteValue, AllocError> {
        Ok(ByteValue {
            bytes: self.bytes.clone()?,
        })
    }
}

impl PartialEq for ByteValue {
    ghost eq = { pointwise nat_eq };

    ghost laws = { partial_equiv_from_equiv nat_list_eq_equiv };

    fn eq(&self, other: &ByteValue) -> bool {
        self.bytes == other.bytes
    }
}

impl Eq for ByteValue {
    ghost laws = { nat_list_eq_equiv };
}

impl Codec for ByteValue {
    type Cfg = u32;

    ghost spelling = { λ v. v };

    ghost accepted = { λ v most. length v ≤ most };

    ghost refusal = { λ bytes most. length_refusal most bytes };

    ghost kept = { λ v most fits. length_kept most v fits };

    ghost one_value = { λ _ _ _ _ _ same. same };

    ghost not_memory = { λ bytes most. length_not_memory most bytes };

    fn encode_size(&self) -> u64 {
        self.bytes.len() as u64
    }

    fn write(&self, out: &mut Vec<u8>) -> Result<(), Error> {
        out.extend_from_slice(self.bytes.as_slice())?;
        Ok(())
    }

    fn decode_cfg(alloc: Global, bytes: &[u8], most: u32) -> Result<ByteValue, Error> {
        if bytes.len() > most as usize {
            return Err(Error::TooLong);
        }
        ByteValue::new(alloc, bytes)
    }

    fn accepts(&self, most: u32) -> bool {
        self.bytes.len() <= most as usize
    }
}
