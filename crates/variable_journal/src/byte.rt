// A byte as an item: the journal of bytes below the frames.
ghost use Rattle.std.specs.Prelude.{◌≡◌, ◌<◌, ◌∷◌, [], IfOk, IfErr};
ghost use Rattle.value_codec.specs.Spelling.{size_refusal};
ghost use Rattle.value_codec.specs.SpellingLaws.{size_not_memory};
ghost use Rattle.variable_journal.specs.Bytes.{byte_kept, byte_one_value, byte_fixed};

use std::alloc::Global;
use value_codec::codec::Error;
use value_codec::{Codec, CodecFixed};

/// One byte.
#[derive(Clone, Copy, Drop)]
pub(crate) struct Byte {
    /// The byte.
    pub(crate) value: u8,
}

impl Codec for Byte {
    type Cfg = ();

    ghost spelling = { λ b. b.value ∷ [] };

    ghost accepted = { λ b _. b.value < 256 };

    ghost refusal = { λ bytes _. size_refusal 1 bytes };

    ghost kept = { λ b _ _. byte_kept b.value };

    ghost one_value = { λ b c _ _ _ same i.
        record { value = byte_one_value b.value c.value same i } };

    ghost not_memory = { λ bytes _. size_not_memory 1 bytes };

    fn encode_size(&self) -> u64 {
        1
    }

    fn write(&self, out: &mut Vec<u8>) -> Result<(), Error> {
        out.push(self.value)?;
        Ok(())
    }

    fn decode_cfg(_alloc: Global, bytes: &[u8], _cfg: ()) -> Result<Byte, Error> {
        match bytes {
            [] => Err(Error::EndOfBuffer),
            [value] => Ok(Byte { value: *value }),
            _ => Err(Error::ExtraBytes),
        }
    }

    fn accepts(&self, _cfg: ()) -> bool {
        // Read, so that the proof has its range.
        let _value = self.value;
        true
    }
}

impl CodecFixed for Byte {
    ghost SIZE = { 1 };

    const SIZE: usize = 1;

    ghost fixed = { byte_fixed };
}
