//! Bits, eight in a byte.
ghost use Rattle.std.specs.Prelude.{◌≡◌, ◌≢◌, ◌<◌, ◌==◌, ℕ, Some, true, false, length, replicate, slice_get, slice_set, IfOk};
ghost use Rattle.std.specs.Int.{bit_at};
ghost use Rattle.ordinal_store.specs.Bits.{count_of};

use crate::RMapError;
use std::alloc::Global;
use std::marker::Model;

/// A list of bits. Bit `i` stands in byte `i / 8`, at the weight `2^(i % 8)`.
#[derive(Drop)]
pub struct BitMap {
    /// The bits, eight in a byte. No bit behind the last is set (`IsPacked.rest`).
    bytes: Vec<u8>,
    /// How many bits there are. The bytes are as many as these take (`IsPacked.size`).
    len: u64,
}

impl Model for BitMap {
    ghost use Rattle.std.specs.Prelude.{List, Bool};
    ghost use Rattle.ordinal_store.specs.Bits.{IsPacked, bits_of};

    ghost Value = { List Bool };

    ghost view = { λ m. bits_of m.bytes.items m.len };

    ghost invariant = { λ m. IsPacked m.bytes.items m.len };
}

impl BitMap {
    /// So many bits, none of them set.
    pub fn zeroes(alloc: Global, len: u64) -> Result<BitMap, RMapError>
        ensures { IfOk result (λ r. r ≡ replicate len false) }
    {
        let spare = if len % 8 == 0 { 0 } else { 1 };
        let bytes = vec![in alloc; 0; (len / 8 + spare) as usize]?;
        Ok(BitMap { bytes, len })
    }

    /// How many bits there are. It takes no memory.
    pub fn len(&self) -> u64
        ensures { result ≡ length self.now }
    {
        self.len
    }

    /// The bit `i`. It takes no memory.
    pub fn get(&self, i: u64) -> bool
        requires { i < length self.now }
        ensures { slice_get self.now i ≡ Some result }
    {
        let byte = self.bytes[(i / 8) as usize];
        (byte >> (i % 8)) & 1 == 1
    }

    /// Sets the bit `i`, or clears it. It takes no memory.
    pub fn set(&mut self, i: u64, bit: bool)
        requires { i < length self.old }
        ensures { self.new ≡ slice_set self.old i bit }
    {
        let at = (i / 8) as usize;
        let byte = self.bytes[at];
        self.bytes[at] = with_bit(byte, i % 8, bit);
    }

    /// How many bits are set. It takes no memory.
    pub fn count_ones(&self) -> u64
        ensures { result ≡ count_of self.now }
    {
        let len = self.len();
        let mut count = 0;
        for i in 0..len {
            if self.get(i) {
                count += 1;
            }
        }
        count
    }
}

// The byte with its bit `k` set, or cleared.
fn with_bit(byte: u8, k: u64, bit: bool) -> u8
    requires { k < 8 }
    ensures here { (bit_at result k == 1) ≡ bit }
    ensures others { (j : ℕ) → j < 8 → j ≢ k → bit_at result j ≡ bit_at byte j }
{
    let weight = 1u8 << k;
    if bit { byte | weight } else { byte & !weight }
}
