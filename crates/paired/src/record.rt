// Records that say where their values stand.
ghost use Rattle.std.specs.Prelude.{◌≡◌, ℕ, List, ◌^◌, ◌<◌};

use value_codec::CodecFixed;

/// An item of an index that names the frame of its value.
pub trait Record: CodecFixed {
    /// Where the value's frame stands, and how many bytes it has.
    ghost location: { Self → ℕ × ℕ };

    /// The record with this location.
    ghost located: { Self → ℕ → ℕ → Self };

    /// The location that a record's bytes have.
    ghost place: { List ℕ → ℕ × ℕ };

    /// Where the value's frame stands, and how many bytes it has.
    fn value_location(&self) -> (u64, u32)
        ensures { result ≡ location self.now };

    /// The record with this location of its value.
    fn with_location(self, offset: u64, size: u32) -> Self
        ensures { result ≡ located self offset size };

    /// The bytes have the record's location.
    ghost spelled: { (r : Self) → Self.accepted r tt → place (Self.spelling r) ≡ location r };

    /// The location is the one that was given.
    ghost given: { (r : Self) (offset size : ℕ) → offset < 2 ^ 64 → size < 2 ^ 32 → location (located r offset size) ≡ (offset, size) };

    /// Of two locations given the last one stands.
    ghost last_given: { (r : Self) (offset size at n : ℕ) → located (located r offset size) at n ≡ located r at n };

    /// The location that it has changes nothing.
    ghost same: { (r : Self) → located r (location r).0 (location r).1 ≡ r };

    /// A record is accepted wherever its value stands.
    ghost anywhere: { (r : Self) (offset size : ℕ) → offset < 2 ^ 64 → size < 2 ^ 32 → Self.accepted r tt → Self.accepted (located r offset size) tt };
}
