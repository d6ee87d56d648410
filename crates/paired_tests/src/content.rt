// Values: bytes, or so many zeros that they are never spelled.
ghost use Rattle.std.specs.Prelude.{◌≡◌, ◌≢◌, ℕ, List, length, nat_lt, replicate, if◌then◌else◌, IfOk};
ghost use Rattle.paired_tests.specs.Contents.{five_refusal};
ghost use Rattle.paired_tests.specs.ContentLaws.{five_kept, five_not_memory};

use scenario_text::Step;
use segments::journal::Error;
use std::alloc::Global;
use std::marker::Model;
use value_codec::{Codec, codec};

/// Any bytes but five, which spell no value; or so many zeros, in place of the bytes.
#[derive(Drop)]
pub struct Content {
    // The bytes, which count where there are no zeros.
    bytes: Vec<u8>,
    // How many zeros; 0 where it is the bytes.
    zeros: u64,
}

impl Model for Content {
    ghost Value = { List ℕ };

    ghost view = { λ v. if nat_lt 0 v.zeros then replicate v.zeros 0 else v.bytes.items };
}

impl Content {
    /// The bytes, none where they are zeros that are not spelled.
    pub fn into_bytes(self) -> Vec<u8> {
        let Content { bytes, zeros: _ } = self;
        bytes
    }
}

/// The value that the last word of an `append` spells: bytes, or so many zeros behind `zeros-`. Any
/// other step has no byte of value.
pub fn value_in(alloc: Global, step: &Step) -> Result<Content, Error>
    ensures { IfOk result (λ v. ⟦<Content as Codec>⟧.accepted v tt) }
{
    let last = step.rest().len().saturating_sub(1);
    let mut zeros = 0_u64;
    if let Some(count) = step.argument(last).strip_prefix("zeros-") {
        zeros = count.parse::<u64>().unwrap_or(0);
    }
    let bytes = match step.bytes(alloc, last)? {
        Some(bytes) if step.word() == "append" => bytes,
        _ => Vec::new(alloc),
    };
    let value = Content { bytes, zeros };
    if value.accepts(()) {
        return Ok(value);
    }
    Err(Error::Codec(codec::Error::EndOfBuffer))
}

impl Codec for Content {
    type Cfg = ();

    ghost spelling = { λ v. v };

    ghost accepted = { λ v _. length v ≢ 5 };

    ghost refusal = { λ bytes _. five_refusal bytes };

    ghost kept = { λ v _ other. five_kept v other };

    ghost one_value = { λ _ _ _ _ _ same. same };

    ghost not_memory = { λ bytes _ is. five_not_memory bytes is };

    fn encode_size(&self) -> u64 {
        if self.zeros > 0 {
            return self.zeros;
        }
        self.bytes.len() as u64
    }

    fn write(&self, out: &mut Vec<u8>) -> Result<(), codec::Error> {
        if self.zeros > 0 {
            return Err(codec::Error::Mem);
        }
        out.extend_from_slice(self.bytes.as_slice())?;
        Ok(())
    }

    fn decode_cfg(alloc: Global, bytes: &[u8], _cfg: ()) -> Result<Content, codec::Error> {
        if bytes.len() == 5 {
            return Err(codec::Error::EndOfBuffer);
        }
        Ok(Content {
            bytes: bytes.to_vec(alloc)?,
            zeros: 0,
        })
    }

    fn accepts(&self, _cfg: ()) -> bool {
        self.encode_size() != 5
    }
}
