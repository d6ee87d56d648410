// What a cache stores in a frame: an index, and the value under it.
ghost use Rattle.std.specs.Prelude.{◌≡◌, ◌<◌, ◌^◌, ◌++◌, List, ℕ, ◌≤◌, length, Some, None, Ok, Err, IfOk, IfErr};
ghost use Rattle.value_codec.specs.Varint.{varint};
ghost use Rattle.cache_store.specs.Records.{record_bytes, record_refusal};
ghost use Rattle.cache_store.specs.RecordLaws.{record_kept, record_not_memory, record_index, record_value};

use std::alloc::Global;
use value_codec::codec::Error;
use value_codec::{Codec, read_varint64, write_varint64};

/// An index, and the value under it.
#[derive(Drop)]
pub struct Record<V> {
    /// The index.
    pub index: u64,
    /// The value.
    pub value: V,
}

/// How many bytes the number's varint has.
fn varint_size(number: u64) -> u64
    ensures size { result ≡ length (varint number) }
    ensures few { result ≤ 10 }
{
    let mut left = number;
    let mut size = 1;
    'bytes: while left >= 128 {
        left /= 128;
        size += 1;
    }
    size
}

impl<V: Codec> Codec for Record<V> {
    type Cfg = V::Cfg;

    ghost spelling = { λ r. record_bytes r.index (V.spelling r.value) };

    ghost accepted = { λ r cfg. (r.index < 2 ^ 64) × V.accepted r.value cfg };

    ghost refusal = { λ bytes cfg. record_refusal (λ b. V.refusal b cfg) bytes };

    ghost kept = { λ r cfg fits. record_kept (λ b. V.refusal b cfg) r.index (V.spelling r.value)
        fits.0 (V.kept r.value cfg fits.1) };

    ghost one_value = { λ r t cfg fits also same i. record {
      index = record_index r.index t.index (V.spelling r.value) (V.spelling t.value) same i;
      value = V.one_value r.value t.value cfg fits.1 also.1
          (record_value r.index t.index (V.spelling r.value) (V.spelling t.value) same) i;
    } };

    ghost not_memory = { λ bytes cfg. record_not_memory (λ b. V.refusal b cfg)
        (λ b. V.not_memory b cfg) bytes };

    fn encode_size(&self) -> u64 {
        varint_size(self.index).saturating_add(self.value.encode_size())
    }

    fn write(&self, out: &mut Vec<u8>) -> Result<(), Error> {
        let start = out.len();
        write_varint64(self.index, out)?;
        if let Err(e) = self.value.write(out) {
            out.truncate(start);
            return Err(e);
        }
        Ok(())
    }

    fn decode_cfg(alloc: Global, bytes: &[u8], cfg: V::Cfg) -> Result<Record<V>, Error> {
        let (index, header) = read_varint64(bytes)?;
        let value = V::decode_cfg(alloc, &bytes[header..], cfg)?;
        Ok(Record { index, value })
    }

    fn accepts(&self, cfg: V::Cfg) -> bool {
        // Reading the index tells its range, which `accepted` asks for.
        let _index = self.index;
        self.value.accepts(cfg)
    }
}
