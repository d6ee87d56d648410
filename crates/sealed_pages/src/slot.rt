// A slot: six bytes behind the data of a page, which say how far the data is sealed.
//
//     0            2                          6
//     +------------+--------------------------+
//     | length     | seal                     |
//     | 2 bytes    | 4 bytes                  |
//     +------------+--------------------------+
//
// Numbers are big-endian. The seal is over the two length bytes and as many first data bytes of the page as the
// length says. A page of P data bytes has two slots: A begins at byte P of the page, and B at byte P + 6.
//
// A slot matches where its length is 1 to P, its seal holds, it stands whole in the blob, and its page ends
// below 2^64 with both slots. Six zeros are a slot with nothing in it. One that neither matches nor is six
// zeros is torn.
ghost use Rattle.std.specs.Prelude.{◌≡◌, ◌+◌, ◌*◌, ◌≤◌, ◌<◌, ◌^◌, ◌↔◌, ◌⊎◌, not, nat_lt, length, true, false, ℕ};
ghost use Rattle.sealed_pages.specs.View.{page_at, slot_at};
ghost use Rattle.sealed_pages.specs.Slots.{slot_bytes, slot_length, page_length};
ghost use Rattle.sealed_pages.specs.SlotNames.{is_b};
ghost use Rattle.sealed_pages.specs.Leftover.{IsBlank};

use value_codec::Seal;

/// The bytes of a slot: two of its length, and four of its seal.
pub const SLOT_LEN: usize = 6;
/// The bytes of both slots of a page.
pub const SLOTS_LEN: usize = 2 * SLOT_LEN;
/// A slot with nothing in it, as it is written.
pub const BLANK_SLOT: [u8; SLOT_LEN] = [0; SLOT_LEN];

/// One of the two slots of a page.
#[derive(Clone, Copy)]
pub enum Slot {
    /// The one that stands first. Of two that match equally long it counts (`best_slot`).
    A,
    /// The one behind it, with which the page ends.
    B,
}

impl Slot {
    /// The other one.
    pub fn other(self) -> Slot
        ensures { is_b result ≡ not (is_b self) }
    {
        match self {
            Slot::A => Slot::B,
            Slot::B => Slot::A,
        }
    }

    /// The longer one, by the lengths of A and B; A at a tie.
    pub fn longer(first_len: usize, second_len: usize) -> Slot
        ensures { is_b result ≡ nat_lt first_len second_len }
    {
        if first_len < second_len {
            Slot::B
        } else {
            Slot::A
        }
    }
}

/// Where a page begins in the blob.
pub fn page_place(page_size: u16, page: u64) -> u64
    requires { page_at page_size page < 2 ^ 64 }
    ensures { result ≡ page_at page_size page }
{
    page * (u64::from(page_size) + SLOTS_LEN as u64)
}

/// Where a slot of a page begins in the blob.
pub fn slot_place(page_size: u16, page: u64, slot: Slot) -> u64
    requires { page_at page_size page + (page_size + 12) < 2 ^ 64 }
    ensures { result ≡ slot_at page_size page (is_b slot) }
{
    let end = page_place(page_size, page) + u64::from(page_size);
    match slot {
        Slot::A => end,
        Slot::B => end + SLOT_LEN as u64,
    }
}

/// Where a slot begins within its page.
pub fn slot_offset(page_size: u16, slot: Slot) -> usize
    ensures place { result ≡ slot_at page_size 0 (is_b slot) }
    ensures small { result ≤ page_size + 6 }
{
    let size = usize::from(page_size);
    match slot {
        Slot::A => size,
        Slot::B => size + SLOT_LEN,
    }
}

/// The slot over these data bytes.
pub fn slot_of<S: Seal>(page_size: u16, bytes: &[u8]) -> [u8; SLOT_LEN]
    requires { length bytes.now ≤ page_size }
    ensures { result ≡ slot_bytes S.seal_of page_size bytes.now }
{
    let len = (bytes.len() as u16).to_be_bytes();
    let seal = S::seal2(&len, bytes).to_be_bytes();
    [len[0], len[1], seal[0], seal[1], seal[2], seal[3]]
}

/// The length of a slot that matches, else 0. `page` has the bytes of the page that stand below the blob's end.
pub fn matching_len<S: Seal>(page_size: u16, page: &[u8], slot: Slot) -> usize
    ensures { result ≡ slot_length S.seal_of page_size page.now 0 (is_b slot) }
{
    let size = usize::from(page_size);
    let at = slot_offset(page_size, slot);
    if page.len() < at + SLOT_LEN {
        return 0;
    }
    let len = [page[at], page[at + 1]];
    let named = u32::from_be_bytes([page[at + 2], page[at + 3], page[at + 4], page[at + 5]]);
    let n = usize::from(u16::from_be_bytes(len));
    if n > size {
        return 0;
    }
    let seal = S::seal2(&len, &page[..n]);
    if seal != named {
        return 0;
    }
    n
}

/// How far a page is covered: the greater length of its matching slots, or 0. `page` has its bytes that stand below the
/// blob's end.
pub fn covered_len<S: Seal>(page_size: u16, page: &[u8]) -> usize
    ensures covers { result ≡ page_length S.seal_of page_size page.now 0 }
    ensures within { result ≤ page_size }
    ensures held { result ≤ length page.now }
{
    let first = matching_len::<S>(page_size, page, Slot::A);
    first.max(matching_len::<S>(page_size, page, Slot::B))
}

/// Whether the bytes of a slot are zeros, those past the end of the page's bytes included.
pub fn is_blank(page_size: u16, page: &[u8], slot: Slot) -> bool
    ensures { (result ≡ true) ↔ IsBlank page_size page.now 0 (is_b slot) }
{
    let at = slot_offset(page_size, slot);
    let byte = |i: usize| page.get(at + i).copied().unwrap_or(0);
    byte(0) == 0 && byte(1) == 0 && byte(2) == 0 && byte(3) == 0 && byte(4) == 0 && byte(5) == 0
}

/// Whether a slot is torn: it neither matches nor is six zeros. `len` is its length where it matches, else 0.
pub fn is_torn(page_size: u16, page: &[u8], len: usize, slot: Slot) -> bool
    ensures whole { result ≡ false → (1 ≤ len) ⊎ IsBlank page_size page.now 0 (is_b slot) }
    ensures torn { (result ≡ true) ↔ ((len ≡ 0) × ¬ (IsBlank page_size page.now 0 (is_b slot))) }
{
    if len > 0 {
        return false;
    }
    !is_blank(page_size, page, slot)
}
