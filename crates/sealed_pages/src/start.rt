// How a buffer starts over the last page with a matching slot.
ghost use Rattle.std.specs.Prelude.{◌≡◌, ◌+◌, ◌≤◌, ◌<◌, ◌^◌, cond, max, IfSome, length};
ghost use Rattle.sealed_pages.specs.Starts.{StartsAt, StartsOf};
ghost use Rattle.sealed_pages.specs.View.{page_at};
ghost use Rattle.sealed_pages.specs.Found.{IsLastBelow};
ghost use Rattle.sealed_pages.specs.SlotNames.{is_b};

use crate::reading::LastPage;
use crate::slot::{Slot, is_torn, page_place};
use value_codec::Seal;

/// Where the tip begins, how many of its bytes stand in the blob, and what a crash may have left.
#[derive(Clone, Copy)]
pub struct Start {
    /// The page in which the tip begins (`Starts.size`).
    pub first: u64,
    /// How many of the tip's bytes stand in the blob, less than a page (`Starts.begun`).
    pub from: usize,
    /// The longer slot of the last page with one that matches (`Starts.newest_is`).
    pub newest: Slot,
    /// Whether bytes stand behind that page (`Leftover.behind_is`).
    pub behind: bool,
    /// Whether its other slot is torn; never where the page is full (`Leftover.torn_is`).
    pub torn: bool,
}

/// The length of the slot that is not the newest.
pub fn other_len(last: &LastPage, newest: Slot) -> usize
    ensures { result ≡ cond (is_b newest) last.now.first_len last.now.second_len }
{
    match newest {
        Slot::A => last.second_len,
        Slot::B => last.first_len,
    }
}

/// The start over the last page with a matching slot. `page` has its bytes that stand below the blob's end.
pub fn start_at<S: Seal>(page_size: u16, end: u64, last: &LastPage, page: &[u8]) -> Start
    requires room { page_at page_size (last.now.page + 1) < 2 ^ 64 }
    requires next { last.now.page + 1 < 2 ^ 64 }
    requires some { 1 ≤ page_size }
    requires found { 1 ≤ max last.now.first_len last.now.second_len }
    requires lengths { (last.now.first_len ≤ page_size) × (last.now.second_len ≤ page_size) }
    ensures { StartsAt S.seal_of page_size end last.now page.now result }
{
    let newest = Slot::longer(last.first_len, last.second_len);
    let behind = page_place(page_size, last.page + 1) < end;
    let len = last.first_len.max(last.second_len);
    if len == usize::from(page_size) {
        return Start {
            first: last.page + 1,
            from: 0,
            newest,
            behind,
            torn: false,
        };
    }
    let torn = is_torn(page_size, page, other_len(last, newest), newest.other());
    Start {
        first: last.page,
        from: len,
        newest,
        behind,
        torn,
    }
}

/// The start over what [`find_last`](crate::reading::find_last) found. With no matching slot, all bytes have to be removed.
pub fn start_of<S: Seal>(page_size: u16, end: u64, found: &Option<LastPage>, buf: &[u8]) -> Start
    requires some { 1 ≤ page_size }
    requires buf { length buf.now ≡ page_size + 12 }
    requires below { IfSome found.now (IsLastBelow page_size end) }
    ensures { StartsOf S.seal_of page_size end found.now buf.now result }
{
    match found {
        Some(last) => start_at::<S>(page_size, end, last, &buf[..last.have]),
        None => Start {
            first: 0,
            from: 0,
            newest: Slot::A,
            behind: end > 0,
            torn: false,
        },
    }
}
