// Values of scenarios.
ghost use Rattle.std.specs.Prelude.{IsSomeAnd, None, Option};
ghost use Rattle.std.proofs.Common.{refl, subst, sym};
ghost use Rattle.value_codec.specs.declared.codec.Error as codec_error;

use std::alloc::Global;
use std::marker::Model;
use value_codec::{Codec, codec};

/// Zeros that are never written, and bytes behind them. So a value may be longer than memory.
#[derive(Drop)]
pub struct Sample {
    /// How many zeros stand in front.
    pub zeros: u64,
    /// What stands behind them.
    pub bytes: Vec<u8>,
}

impl Model for Sample {
    ghost use Rattle.std.specs.Prelude.{ℕ, List, ◌++◌, replicate};

    ghost Value = { List ℕ };

    ghost view = { λ s. replicate s.zeros 0 ++ s.bytes.items };
}

impl Codec for Sample {
    type Cfg = ();

    ghost spelling = { λ v. v };

    ghost accepted = { λ _ _. Unit {0} };

    ghost refusal = { λ _ _. None };

    ghost kept = { λ _ _ _. refl };

    ghost one_value = { λ _ _ _ _ _ same. same };

    ghost not_memory = { λ _ _ is. subst (λ (o : Option codec_error.Error). IsSomeAnd o (λ _. Unit {0})) (sym is) tt };

    fn encode_size(&self) -> u64 {
        self.zeros.saturating_add(self.bytes.len() as u64)
    }

    fn write(&self, out: &mut Vec<u8>) -> Result<(), codec::Error> {
        match self.zeros {
            0 => Ok(out.extend_from_slice(self.bytes.as_slice())?),
            _ => Err(codec::Error::Mem),
        }
    }

    fn decode_cfg(alloc: Global, bytes: &[u8], _cfg: ()) -> Result<Self, codec::Error> {
        Ok(Sample {
            zeros: 0,
            bytes: bytes.to_vec(alloc)?,
        })
    }

    fn accepts(&self, _cfg: ()) -> bool {
        true
    }
}
