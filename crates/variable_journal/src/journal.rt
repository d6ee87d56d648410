// A list of items of any length per section, each at its offset.
//
// # Format
//
// A section is a blob of sealed pages. Its data are frames, one behind the other:
//
//     offset of item k                offset of item k + 1
//     v                               v
//     +----------+--------------------+----------+---- ..
//     | length n | n bytes: the item  | length   |
//     +----------+--------------------+----------+---- ..
//     1 to 5 bytes
//
// The length is a varint below 2^32, in its shortest spelling. A frame may lie across pages. There is no
// header, and no seal but those of the pages.
//
// # Sync
//
// An append goes into the section's buffer, which flushes at its capacity and settles nothing. `sync` settles
// the named sections.
//
// # Crashes
//
// Of a section each crash leaves a prefix of its bytes that holds all that had settled. The whole frames in
// it are the first ones of the section. A part of one more may stand behind them.
//
// # Opening
//
// A section that has bytes owes a replay, and takes no append before.
//
// # Pruning
//
// Sections below a bound are removed, the oldest first.
ghost use Rattle.std.specs.Prelude.{◌≡◌, ◌↔◌, ◌≤◌, ◌<◌, ℕ, List, None, length, IfOk, IfSome, OnErr, IsTrue, string_len};
ghost use Rattle.std.specs.List.{Contains};
ghost use Rattle.std.specs.List.Sorted.{IsStrictlySortedBy};
ghost use Rattle.std.specs.Ordering.{nat_cmp};
ghost use Rattle.section_manager.specs.Refusing.{IsPruned};
ghost use Rattle.section_manager.specs.Sections.{IsHeld};

mod opening;
mod reading;
mod removing;
mod replaying;
mod writing;

use crate::byte::Byte;
pub use replaying::Replay;
use sealed_pages::Pages;
use segments::fixed;
use segments::journal::Error;
use std::alloc::Global;
use value_codec::{Codec, Seal};

/// Where a journal is kept, and how.
#[derive(Drop)]
pub struct Config<C> {
    /// The partition that holds the sections' blobs, and no other blob.
    pub partition: String,
    /// How a section's blob is cut into pages.
    pub pages: Pages,
    /// From how many bytes on a section's buffer flushes them.
    pub write_buffer: usize,
    /// What decoding an item needs to know.
    pub codec_config: C,
}

impl<C> Config<C> {
    /// Whether the partition has a name, and page size and buffer are at least 1.
    pub fn is_valid(&self) -> bool
        ensures { IsTrue result ↔ ((1 ≤ string_len self.now.partition)
            × (1 ≤ self.now.pages.page_size) × (1 ≤ self.now.write_buffer)) }
    {
        !self.partition.is_empty() && self.pages.is_valid() && self.write_buffer >= 1
    }
}

/// A list of items per section. The frame of an item stands at its offset.
///
/// A section that was opened with bytes takes no append at first. It owes a replay from its start, or from an
/// earlier section, that is drained and finished. Calls that take the journal by value give it up where they
/// refuse; its blobs are then opened again by an `init`.
#[derive(Drop)]
pub struct Journal<V: Codec, S: Seal> {
    /// Where memory for frames and items comes from.
    alloc: Global,
    /// The bytes of each section (`IsJournal.bytes`), which are frames where no replay is owed (`framed`).
    bytes: fixed::Journal<Byte, S>,
    /// What decoding an item needs to know.
    codec_config: V::Cfg,
}

impl<V: Codec, S: Seal> Journal<V, S> {
    ghost use Rattle.segments.specs.FixedLists.{IsRecovered, section_size};
    ghost use Rattle.variable_journal.specs.Shown.{shown};

    /// Whether the section takes an append: no replay of it is owed, and it is not above the bound of an
    /// opening.
    pub fn is_recovered(&self, section: u64) -> bool
        ensures { IsTrue result ↔ IsRecovered (shown self.now) section }
    {
        self.bytes.is_recovered(section)
    }

    /// How many bytes the section has, those not flushed too; 0 where it is not held. It takes no memory.
    pub fn size(&self, section: u64) -> Result<u64, Error>
        ensures size { IfOk result (λ n. n ≡ section_size (shown self.now).sections section) }
        ensures guard { IsPruned result (shown self.now).sections.floor
            ↔ (section < (shown self.now).sections.floor) }
        ensures cause { OnErr result (IsPruned result (shown self.now).sections.floor) }
    {
        self.bytes.size(section)
    }

    /// Refuses a section below the floor. It takes no memory.
    pub fn prune_guard(&self, section: u64) -> Result<(), Error>
        ensures guard { IsPruned result (shown self.now).sections.floor
            ↔ (section < (shown self.now).sections.floor) }
        ensures cause { OnErr result (IsPruned result (shown self.now).sections.floor) }
    {
        self.bytes.prune_guard(section)
    }

    /// Whether the section is below the floor, up to which sections were pruned.
    pub fn pruned(&self, section: u64) -> bool
        ensures { IsTrue result ↔ (section < (shown self.now).sections.floor) }
    {
        self.bytes.pruned(section)
    }

    /// The least section that is held.
    pub fn oldest_section(&self) -> Option<u64>
        ensures none { result ≡ None ↔ ((s : ℕ) → (shown self.now).sections.held s ≡ None) }
        ensures held { IfSome result (IsHeld (shown self.now).sections) }
        ensures least { IfSome result (λ n. (s : ℕ) → IsHeld (shown self.now).sections s → n ≤ s) }
    {
        self.bytes.oldest_section()
    }

    /// The greatest section that is held.
    pub fn newest_section(&self) -> Option<u64>
        ensures none { result ≡ None ↔ ((s : ℕ) → (shown self.now).sections.held s ≡ None) }
        ensures held { IfSome result (IsHeld (shown self.now).sections) }
        ensures greatest { IfSome result (λ n. (s : ℕ) → IsHeld (shown self.now).sections s
            → s ≤ n) }
    {
        self.bytes.newest_section()
    }

    /// Whether no section is held.
    pub fn is_empty(&self) -> bool
        ensures { IsTrue result ↔ ((s : ℕ) → (shown self.now).sections.held s ≡ None) }
    {
        self.bytes.oldest_section().is_none()
    }

    /// How many sections are held.
    pub fn num_sections(&self) -> usize
        ensures { (numbers : List ℕ) → IsStrictlySortedBy nat_cmp numbers
            → ((s : ℕ) → Contains numbers s ↔ IsHeld (shown self.now).sections s)
            → result ≡ length numbers }
    {
        self.bytes.num_sections()
    }
}
