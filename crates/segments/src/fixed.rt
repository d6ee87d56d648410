// A list of items of one size per section, each at its position.
//
// # Format
//
// A section is a blob of sealed pages. Its data are the items, one behind the other:
//
//     0         SIZE      2 SIZE                 n SIZE
//     +---------+---------+------ .. --+---------+
//     | item 0  | item 1  |            | item n-1 |
//     +---------+---------+------ .. --+---------+
//
// Item p begins at byte p times the size. An item may lie across pages. There is no header, and no seal but
// those of the pages.
//
// # Sync
//
// An append goes into the section's buffer, which flushes at its capacity and settles nothing. `sync` settles
// the named sections.
//
// # Crashes
//
// Of a sealed section each crash leaves a prefix of its bytes that holds all that had settled. The whole
// items in it are the first ones of the section (`item_laws`). A part of one more may stand behind them.
//
// # Opening
//
//     0                    floor                              size
//     +--------------------+----------------------------------+
//     | a marker vouches   | a replay is owed: read, checked, |
//     | for these items    | and cut where no seal covers     |
//     +--------------------+----------------------------------+
//
// A section with more bytes than its floor owes a replay, and takes no append before. Without a marker the
// floor is 0. A replay reads such a section from its start. It cuts it, durably, to the whole items of its
// sealed prefix, and never below its floor. Once a replay from its start, or from an earlier section, was
// drained and finished, it owes none, and its floor is 0.
//
// # Pruning
//
// Sections below a bound are removed, the oldest first.
//
// # Cost
//
// An append below the buffer's capacity makes no call. An item is read by at most two reads more than the
// pages that it fills. A replay reads each page once, and one once more where it cuts.
ghost use Rattle.std.specs.Prelude.{◌≡◌, ◌≢◌, ◌↔◌, ◌≤◌, ◌<◌, ◌/◌, ◌^◌, ℕ, List, [], length, None, IfOk, IfSome, OnErr, IsTrue, string_len};
ghost use Rattle.std.specs.List.{Contains};
ghost use Rattle.std.specs.List.Sorted.{IsStrictlySortedBy};
ghost use Rattle.std.specs.Ordering.{nat_cmp};
ghost use Rattle.blob_device.specs.Disk.{Blob, Disk, Key};
ghost use Rattle.sealed_pages.specs.Buffer.{Buffer, bytes_of, IsSealed};
ghost use Rattle.sealed_pages.specs.ChanceSeal.{Leaves};
ghost use Rattle.sealed_pages.specs.SealedPrefix.{sealed_prefix, Prefix};
ghost use Rattle.sealed_pages.specs.Unrecovered.{IsUnrecovered};
ghost use Rattle.sealed_pages.specs.declared.page_blob.PageBlob.{PageBlob};
ghost use Rattle.section_manager.specs.Refusing.{IsPruned};
ghost use Rattle.section_manager.specs.Sections.{Sections, key_of, IsHeld, IsKnown, IsSame, SamePlace};
ghost use Rattle.section_manager.specs.declared.sealed.AppendFactory.{AppendFactory};
ghost use Rattle.segments.specs.FixedBounds.{CuttingTail};
ghost use Rattle.segments.specs.FixedItems.{HoldsFirstItems};
ghost use Rattle.segments.specs.FixedLists.{Lists, section_bytes};

mod capping;
mod cursor;
mod cutting;
mod draining;
mod floors;
mod laws;
mod opening;
mod preflighting;
mod reading;
mod removing;
mod replaying;
mod restoring;
mod writing;

use crate::journal::Error;
use crate::{AppendFactory, Manager, SectionIter};
use floors::floor_at;
pub use laws::rest_laws;
pub use preflighting::{BoundaryIter, Preflight};
pub use replaying::Replay;
use sealed_pages::Pages;
use std::alloc::Global;
use std::collections::{BTreeMap, BTreeSet};
use std::marker::PhantomData;
use value_codec::{CodecFixed, Seal};

/// Where a journal is kept, and how.
#[derive(Drop)]
pub struct Config {
    /// The partition that holds the sections' blobs, and no other blob.
    pub partition: String,
    /// How a section's blob is cut into pages.
    pub pages: Pages,
    /// From how many bytes on a section's buffer flushes them.
    pub write_buffer: usize,
}

impl Config {
    /// Whether the partition has a name, and page size and buffer are at least 1.
    pub fn is_valid(&self) -> bool
        ensures { IsTrue result ↔ ((1 ≤ string_len self.now.partition)
            × (1 ≤ self.now.pages.page_size) × (1 ≤ self.now.write_buffer)) }
    {
        !self.partition.is_empty() && self.pages.is_valid() && self.write_buffer >= 1
    }
}

/// A list of items per section. Item p of a section stands at byte p times the item's size.
///
/// A section that was opened with more bytes than a marker vouches for takes no append at first. It owes a
/// replay from its start, or from an earlier section, that is drained and finished. Calls that take the
/// journal by value give it up where they refuse; its blobs are then opened again by an `init`.
#[derive(Drop)]
pub struct Journal<A: CodecFixed, S: Seal> {
    /// Where memory for items comes from.
    alloc: Global,
    /// The sections, each in a buffer of sealed pages (`IsJournal.over`).
    manager: Manager<AppendFactory<S>>,
    /// The sections that owe a replay. Each is held, with all its bytes settled (`OwesHeld`, `OwesSettled`).
    unrecovered: BTreeSet<u64>,
    /// How many bytes of a section a marker vouches for; 0 where it is not in the map (`floor_of`).
    floors: BTreeMap<u64, u64>,
    /// The bytes of the item that was added last. Its memory is used again for the next one.
    spelling: Vec<u8>,
    /// The kind of item; no data.
    item: PhantomData<A>,
    // An item has a byte, so that positions can be found by division.
    ghost sized: { 1 ≤ A.SIZE },
}

/// What the promises on crashes, which are on bytes, say of items: where a crash leaves a prefix of a
/// section's bytes, the whole items in it are the first ones of the section, and no fewer than stand whole
/// in the bytes that it has to keep. No bytes have none.
///
/// Of a blob that no call touches a crash leaves what its buffer promises. Of a sealed one it is a prefix of
/// the bytes, no shorter than what has settled (`rests`). Of one that owes a replay it is the whole sealed
/// prefix (`waits`). That stands at every moment of a call that takes nothing off the section (`rest_laws`).
///
/// A section of which neither the buffer nor the blob changes has the bytes that it had (`stay`). So has each
/// section before a cut of all behind a byte (`before_tail`), and each other one where a replay's cursor cuts
/// one (`beside`).
pub fn item_laws<A: CodecFixed, S: Seal>()
    ensures first { (P : ℕ) (bytes : List ℕ) (least : ℕ) (c : List ℕ)
        → Prefix S.seal_of P bytes least c → HoldsFirstItems A.SIZE bytes least
        (sealed_prefix S.seal_of P c) }
    ensures none { (P : ℕ) → sealed_prefix S.seal_of P [] ≡ [] }
    ensures rests { (u : Buffer) (b : Blob) → u.from < u.page_size → IsSealed S.seal_of u b
        → Leaves S.seal_of u.page_size (bytes_of u b.content) u.settled b }
    ensures waits { (u : Buffer) (b : Blob) → u.from < u.page_size → IsUnrecovered S.seal_of u b
        → Leaves S.seal_of u.page_size (sealed_prefix S.seal_of u.page_size b.content)
        (length (sealed_prefix S.seal_of u.page_size b.content)) b }
    ensures stay { (m n : Sections (AppendFactory S) (PageBlob S S.Seal)) (s : ℕ)
        (from to : Disk) → SamePlace m n → IsSame m n s
        → (to (key_of m s)).content ≡ (from (key_of m s)).content
        → section_bytes n to s ≡ section_bytes m from s }
    ensures before_tail { (j : Lists (AppendFactory S) (PageBlob S S.Seal))
        (m : Sections (AppendFactory S) (PageBlob S S.Seal)) (section n s : ℕ) (from to : Disk)
        → CuttingTail S.seal_of j section n from to
        → ((t : ℕ) → IsKnown j.sections t → t < 2 ^ 64) → s < section
        → SamePlace j.sections m → IsSame j.sections m s
        → section_bytes m to s ≡ section_bytes j.sections from s }
    ensures beside { (m n : Sections (AppendFactory S) (PageBlob S S.Seal)) (section s : ℕ)
        (from to : Disk) → ((q : Key) → q ≢ key_of m section → to q ≡ from q)
        → section < 2 ^ 64 → s < 2 ^ 64 → s ≢ section → SamePlace m n → IsSame m n s
        → section_bytes n to s ≡ section_bytes m from s }
{}

impl<A: CodecFixed, S: Seal> Journal<A, S> {
    ghost use Rattle.segments.specs.FixedShown.{shown};
    ghost use Rattle.segments.specs.FixedLists.{IsRecovered, section_size};

    /// How many bytes an item takes.
    pub const CHUNK_SIZE: usize = A::SIZE;

    /// Whether the section takes an append: it is not above the bound of an opening, and no replay of it is
    /// owed.
    pub fn is_recovered(&self, section: u64) -> bool
        ensures { IsTrue result ↔ IsRecovered (shown self.now) section }
    {
        section <= self.manager.ceiling() && !self.unrecovered.contains(&section)
    }

    /// How many bytes of the section a marker vouches for; 0 where there is none. A finished replay from
    /// the section's start, or from an earlier section, sets it to 0.
    /// [`truncate_pending_section`](Journal::truncate_pending_section) lowers it to no more than is left;
    /// [`truncate_pending_tail`](Journal::truncate_pending_tail) keeps it.
    pub fn floor_of(&self, section: u64) -> u64
        ensures { result ≡ (shown self.now).floor_of section }
    {
        floor_at(&self.floors, section)
    }

    /// How many whole items the section has, those not flushed too; 0 where it is not held. It takes no
    /// memory.
    pub fn section_len(&self, section: u64) -> Result<u64, Error>
        ensures len { IfOk result (λ n. n ≡ section_size (shown self.now).sections section / A.SIZE) }
        ensures guard { IsPruned result (shown self.now).sections.floor
            ↔ (section < (shown self.now).sections.floor) }
        ensures cause { OnErr result (IsPruned result (shown self.now).sections.floor) }
    {
        Ok(self.manager.size(section)? / A::SIZE as u64)
    }

    /// How many bytes the section has, those not flushed too; 0 where it is not held. It takes no memory.
    pub fn size(&self, section: u64) -> Result<u64, Error>
        ensures size { IfOk result (λ n. n ≡ section_size (shown self.now).sections section) }
        ensures guard { IsPruned result (shown self.now).sections.floor
            ↔ (section < (shown self.now).sections.floor) }
        ensures cause { OnErr result (IsPruned result (shown self.now).sections.floor) }
    {
        self.manager.size(section)
    }

    /// Refuses a section below the floor. It takes no memory.
    pub fn prune_guard(&self, section: u64) -> Result<(), Error>
        ensures guard { IsPruned result (shown self.now).sections.floor
            ↔ (section < (shown self.now).sections.floor) }
        ensures cause { OnErr result (IsPruned result (shown self.now).sections.floor) }
    {
        self.manager.prune_guard(section)
    }

    /// Whether the section is below the floor, up to which sections were pruned.
    pub fn pruned(&self, section: u64) -> bool
        ensures { IsTrue result ↔ (section < (shown self.now).sections.floor) }
    {
        self.manager.pruned(section)
    }

    /// The least section that is held.
    pub fn oldest_section(&self) -> Option<u64>
        ensures none { result ≡ None ↔ ((s : ℕ) → (shown self.now).sections.held s ≡ None) }
        ensures held { IfSome result (IsHeld (shown self.now).sections) }
        ensures least { IfSome result (λ n. (s : ℕ) → IsHeld (shown self.now).sections s → n ≤ s) }
    {
        self.manager.oldest_section()
    }

    /// The greatest section that is held.
    pub fn newest_section(&self) -> Option<u64>
        ensures none { result ≡ None ↔ ((s : ℕ) → (shown self.now).sections.held s ≡ None) }
        ensures held { IfSome result (IsHeld (shown self.now).sections) }
        ensures greatest { IfSome result (λ n. (s : ℕ) → IsHeld (shown self.now).sections s → s ≤ n) }
    {
        self.manager.newest_section()
    }

    /// How many sections are held.
    pub fn num_sections(&self) -> usize
        ensures { (numbers : List ℕ) → IsStrictlySortedBy nat_cmp numbers
            → ((s : ℕ) → Contains numbers s ↔ IsHeld (shown self.now).sections s)
            → result ≡ length numbers }
    {
        self.manager.num_sections()
    }

    /// The held sections, ascending.
    pub fn sections(&self) -> SectionIter<'_>
        ensures ascending { IsStrictlySortedBy nat_cmp result }
        ensures each { (s : ℕ) → Contains result s ↔ IsHeld (shown self.now).sections s }
    {
        self.manager.sections()
    }
}
