// Short words that stand for keys.
ghost use Rattle.std.specs.Prelude.{◌≡◌, ℕ, List};
ghost use Rattle.archives.specs.Words.{four_bytes};

use std::hash::Hash;

/// Makes words of keys. A word is short, and several keys may have one; it stands for a key where memory is to be spared.
pub trait Translator: Copy {
    /// The word of a key.
    type Word: Copy + Eq + Hash;

    /// The word of the key with these bytes. The bytes alone determine it, so equal keys have equal words.
    ghost word_of: { Self → List ℕ → Self.Word };

    /// The word of the key with these bytes. It takes no memory.
    fn transform(&self, key: &[u8]) -> Self::Word
        ensures { result ≡ word_of self.now key.now };
}

/// The first four bytes of a key are its word, with zeros behind a shorter key.
#[derive(Clone, Copy, Debug, PartialEq, Eq)]
pub struct FourCap;

impl Translator for FourCap {
    type Word = [u8; 4];

    ghost word_of = { λ _ key. four_bytes key };

    fn transform(&self, key: &[u8]) -> [u8; 4] {
        let mut word = [0; 4];
        let taken = key.len().min(word.len());
        word[..taken].copy_from_slice(&key[..taken]);
        word
    }
}
