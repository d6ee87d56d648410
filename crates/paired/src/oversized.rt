// Records with their values, by section and position.
//
// # Format
//
// A pair has three partitions: a fixed journal, a glob, and a map in two copies.
//
//     index: section 4               values: section 4             markers
//     +----------+                   +---------+                   +--------+
//     | record 0 | -- place, size -> | frame 0 |                   | 4 -> 2 |
//     | record 1 | ----------------> | frame 1 |                   +--------+
//     +----------+                   +---------+   <- the marker: the first two have sound values
//     | record 2 | ----------------> | frame 2 |
//     +----------+                   +---------+
//
// A record has one size, and names the frame of its value. A marker counts first records of a section that
// are known to be sound: they stand in the sealed prefix of the index, and the seals of their frames hold.
// Its key is the section's number.
//
// # Sync
//
// In this order:
//
// 1. the records of the named sections;
// 2. their values, and then what was synced is noted in memory;
// 3. the markers, where one moves: in one write over the older copy.
//
// A section that is being filled is named as active, and its marker stays. Any other marker moves to what was
// synced of its section. So a section that is written and synced again and again costs no writes of markers.
//
// # Crashes
//
// A crash treats each blob by itself, so records may outlast their values. An image keeps of a section the
// records that are whole in the sealed prefix of the index: those below the marker unseen, and behind them
// those up to the first whose value is not sound. Of a sound pair that is a prefix of the section's list, and
// holds what was synced. Every marker is true, since it moves behind the sync of what it counts, and is
// dropped before a record goes.
//
// # Opening
//
// The markers are read, and what they vouch for is checked: the last record below each is there and sealed,
// and its value ends within the values. Until all that holds no byte is changed. A replay then reads records,
// and above the markers values. `finish_tracked` ends the opening in this order:
//
// 1. records that are not kept are cut;
// 2. values behind the last record's are cut;
// 3. values of sections without records are removed;
// 4. markers are raised to what is kept.
//
// Each is durable before the next begins. So no record that is left names bytes that were cut.
//
// # Pruning
//
// The markers of the sections go first, durably. Then go their records, the oldest section first, and then
// their values.
//
// # Cost
//
// An append makes no call while both buffers have room. A record is read by at most two reads more than the
// pages that it fills, a value by one. An opening reads no value below a marker, and each one above it by one
// read at most.
ghost use Rattle.std.specs.Prelude.{◌≡◌, ◌↔◌, ◌≤◌, ◌<◌, ℕ, None, IfOk, IfSome, OnErr, IsTrue};
ghost use Rattle.section_manager.specs.Sections.{IsHeld};
ghost use Rattle.blob_device.specs.Timeline.{disk};
ghost use Rattle.section_manager.specs.Refusing.{IsPruned};
ghost use Rattle.paired.specs.Crashes.{Leaves};
ghost use Rattle.paired.specs.Pair.{IsPair, IsSafeOn, list_of, synced_length};

mod opening;
mod reading;
mod recovery;
mod removing;
mod replaying;
mod syncing;
mod tracking;
mod writing;

use crate::{Glob, Record};
use blob_device::Device;
pub use opening::Config;
pub use replaying::Replay;
use sealed_pages::{PageBlob, WriteBlob};
use segments::journal::Error;
use segments::{AppendFactory, BufferFactory, SectionBuffer, WriteFactory, fixed};
use std::alloc::Global;
use tracking::Tracking;
use value_codec::{Codec, Seal};

/// Records of one size, each with a value of any size. A section is an index, whose items are the records,
/// and a glob section, whose frames hold the values; each record names the frame of its value.
///
/// Markers say of each section how many of its records are known to have sound values. The next opening reads
/// these no more. A marker follows a completed sync, and is true at every crash.
///
/// Calls that take the pair by value give it up where they refuse; its blobs are then opened again.
#[derive(Drop)]
pub struct Oversized<I: Record, V: Codec, S: Seal> {
    /// Where memory for lists of sections comes from.
    alloc: Global,
    /// The records, by section and position (`IsPair.index`). No section owes a replay
    /// (`AreWhole.recovered`).
    index: fixed::Journal<I, S>,
    /// The frames of their values (`IsPair.values`). What is held here is held there
    /// (`AreWhole.values_held`).
    values: Glob<V, S>,
    /// The markers, and what trails them (`AreMarkers`). What was synced has settled (`HasSettled`).
    tracking: Tracking<S>,
}

impl<I: Record, V: Codec, S: Seal> Oversized<I, V, S> {
    ghost use Rattle.paired.specs.PairShown.{shown};
    ghost use Rattle.segments.specs.FixedLists.{section_size};

    /// What a crash now leaves: of each section a prefix of its list that holds what was synced, and markers that are true. It does nothing.
    pub fn crash_laws<D: Device>(&self, _dev: &D)
        requires { IsPair ⟦<PageBlob<S> as SectionBuffer>⟧ ⟦<AppendFactory<S> as BufferFactory>⟧.gives ⟦<WriteBlob as SectionBuffer>⟧ ⟦<WriteFactory as BufferFactory>⟧.gives D.Tells (shown I.place self.now) (D.opened _dev.now) (disk (D.time _dev.now)) }
        ensures { D.Tells → IsSafeOn (shown I.place self.now) (disk (D.time _dev.now)) → Leaves (shown I.place self.now).layout (list_of (shown I.place self.now) (disk (D.time _dev.now))) (synced_length (shown I.place self.now)) (λ _. ⊥) (disk (D.time _dev.now)) }
    {}

    /// How many bytes the records of the section have, those not flushed too; 0 where it is not held. It takes no memory.
    pub fn size(&self, section: u64) -> Result<u64, Error>
        ensures size { IfOk result (λ n. n ≡ section_size (shown I.place self.now).index.sections section) }
        ensures guard { IsPruned result (shown I.place self.now).index.sections.floor ↔ (section < (shown I.place self.now).index.sections.floor) }
        ensures cause { OnErr result (IsPruned result (shown I.place self.now).index.sections.floor) }
    {
        self.index.size(section)
    }

    /// Whether the section is below the floor, up to which sections were pruned.
    pub fn pruned(&self, section: u64) -> bool
        ensures { IsTrue result ↔ (section < (shown I.place self.now).index.sections.floor) }
    {
        self.index.pruned(section)
    }

    /// The least section that is held.
    pub fn oldest_section(&self) -> Option<u64>
        ensures none { result ≡ None ↔ ((s : ℕ) → (shown I.place self.now).index.sections.held s ≡ None) }
        ensures held { IfSome result (IsHeld (shown I.place self.now).index.sections) }
        ensures least { IfSome result (λ n. (s : ℕ) → IsHeld (shown I.place self.now).index.sections s → n ≤ s) }
    {
        self.index.oldest_section()
    }

    /// The greatest section that is held.
    pub fn newest_section(&self) -> Option<u64>
        ensures none { result ≡ None ↔ ((s : ℕ) → (shown I.place self.now).index.sections.held s ≡ None) }
        ensures held { IfSome result (IsHeld (shown I.place self.now).index.sections) }
        ensures greatest { IfSome result (λ n. (s : ℕ) → IsHeld (shown I.place self.now).index.sections s → s ≤ n) }
    {
        self.index.newest_section()
    }
}
