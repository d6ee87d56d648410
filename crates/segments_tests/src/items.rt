// An item that its type refuses where its number is too high.
ghost use Rattle.std.specs.Prelude.{◌≡◌, ◌<◌, ℕ, List, Option, Some, None, cond, is_some, nat_lt, true, false};
ghost use Rattle.std.specs.Int.{w64, from_be_bytes};
ghost use Rattle.std.proofs.Common.{refl, sym, subst, lit≤, lt-ltb, lt_of_lt_of_le};
ghost use Rattle.std.proofs.lemmas.Nat.{from_be_bytes-to_be_bytes_8};
ghost use Rattle.value_codec.specs.Spelling.{u64_spelling, size_refusal};
ghost use Rattle.value_codec.specs.SpellingLaws.{u64_one_value, size_too_few, size_too_many, size_few_only, size_many_only, size_not_memory};
ghost use Rattle.value_codec.specs.declared.codec.Error as codec_error;
ghost use Rattle.value_codec.specs.declared.codec.Error.TheVariants.{EndOfBuffer, ExtraBytes, TooLong, InvalidVarint, InvalidEnum, Mem};

use std::alloc::Global;
use std::marker::Model;
use value_codec::{Codec, CodecFixed, codec};

/// A number below 100, in eight bytes.
#[derive(Drop)]
pub struct Low {
    /// Below 100: its codec refuses others.
    pub number: u64,
}

impl Model for Low {
    ghost use Rattle.std.specs.Prelude.{ℕ};

    ghost Value = { ℕ };

    ghost view = { λ l. l.number };
}

impl Codec for Low {
    type Cfg = ();

    ghost spelling = { u64_spelling };

    ghost accepted = { λ n _. n < 100 };

    ghost refusal = { λ bytes _. cond (is_some (size_refusal 8 bytes)) (size_refusal 8 bytes) (cond (nat_lt (from_be_bytes w64 bytes) 100) None (Some TooLong)) };

    ghost kept = { λ n _ low. subst (λ b. cond b None (Some TooLong) ≡ None) (sym (lt-ltb (from_be_bytes w64 (u64_spelling n)) 100
        (subst (λ m. m < 100) (sym (from_be_bytes-to_be_bytes_8 n (lt_of_lt_of_le low (lit≤ tt)))) low))) refl };

    ghost one_value = { λ m n _ low low_too. u64_one_value m n (lt_of_lt_of_le low (lit≤ tt)) (lt_of_lt_of_le low_too (lit≤ tt)) };

    ghost not_memory = { λ bytes _ is.
        let OfValue : Option codec_error.Error → Type 0 = λ (o : Option codec_error.Error). elim o as (λ _. Type 0) [ None ↦ Unit {0} | Some e ↦ elim e as (λ _. Type 0) [ TooLong ↦ Unit {0} | EndOfBuffer ↦ ⊥ | ExtraBytes ↦ ⊥ | InvalidVarint ↦ ⊥ | InvalidEnum _ ↦ ⊥ | Mem ↦ ⊥ ] ] in
        size_not_memory 8 bytes (elim (size_refusal 8 bytes) as (λ o. cond (is_some o) o (cond (nat_lt (from_be_bytes w64 bytes) 100) None (Some TooLong)) ≡ Some Mem → o ≡ Some Mem) [
          | None ↦ λ same. absurd (subst OfValue same (elim (nat_lt (from_be_bytes w64 bytes) 100) as (λ b. OfValue (cond b None (Some TooLong))) [ true ↦ tt | false ↦ tt ]))
          | Some e ↦ λ same. same
        ] is) };

    fn encode_size(&self) -> u64 {
        8
    }

    fn write(&self, out: &mut Vec<u8>) -> Result<(), codec::Error> {
        self.number.write(out)
    }

    fn decode_cfg(alloc: Global, bytes: &[u8], _cfg: ()) -> Result<Low, codec::Error> {
        let number = u64::decode_cfg(alloc, bytes, ())?;
        if number < 100 {
            Ok(Low { number })
        } else {
            Err(codec::Error::TooLong)
        }
    }

    fn accepts(&self, _cfg: ()) -> bool {
        self.number < 100
    }
}

impl CodecFixed for Low {
    ghost SIZE = { 8 };

    const SIZE: usize = 8;

    ghost fixed = { let OfValue : Option codec_error.Error → Type 0 = λ (o : Option codec_error.Error). elim o as (λ _. Type 0) [ None ↦ Unit {0} | Some e ↦ elim e as (λ _. Type 0) [ TooLong ↦ Unit {0} | EndOfBuffer ↦ ⊥ | ExtraBytes ↦ ⊥ | InvalidVarint ↦ ⊥ | InvalidEnum _ ↦ ⊥ | Mem ↦ ⊥ ] ] in
        let of_size : (e : codec_error.Error) → (OfValue (Some e) → ⊥) → (bytes : List ℕ) → cond (is_some (size_refusal 8 bytes)) (size_refusal 8 bytes) (cond (nat_lt (from_be_bytes w64 bytes) 100) None (Some TooLong)) ≡ Some e → size_refusal 8 bytes ≡ Some e
        = λ e other bytes is. elim (size_refusal 8 bytes) as (λ o. cond (is_some o) o (cond (nat_lt (from_be_bytes w64 bytes) 100) None (Some TooLong)) ≡ Some e → o ≡ Some e) [
          | None ↦ λ same. absurd (other (subst OfValue same (elim (nat_lt (from_be_bytes w64 bytes) 100) as (λ b. OfValue (cond b None (Some TooLong))) [ true ↦ tt | false ↦ tt ])))
          | Some _ ↦ λ same. same
        ] is in
        record {
          at_least = lit≤ tt;
          at_most = lit≤ tt;
          sized = λ _ _. refl;
          too_few = λ bytes few. subst (λ o. cond (is_some o) o (cond (nat_lt (from_be_bytes w64 bytes) 100) None (Some TooLong)) ≡ Some EndOfBuffer) (sym (size_too_few 8 bytes few)) refl;
          too_many = λ bytes many. subst (λ o. cond (is_some o) o (cond (nat_lt (from_be_bytes w64 bytes) 100) None (Some TooLong)) ≡ Some ExtraBytes) (sym (size_too_many 8 bytes many)) refl;
          few_only = λ bytes is. size_few_only 8 bytes (of_size EndOfBuffer (λ no. no) bytes is);
          many_only = λ bytes is. size_many_only 8 bytes (of_size ExtraBytes (λ no. no) bytes is);
        } };
}
