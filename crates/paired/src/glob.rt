// Values in sealed frames, by section and place.
//
// # Format
//
// A section is a blob without sealed pages. Its bytes are frames, one behind the other:
//
//     0                               place                 place + size
//     +---------------------+------+- .. +-----------+------+
//     | spelling            | seal |     | spelling  | seal |
//     | as the codec writes | 4    |     |           | 4    |
//     +---------------------+------+- .. +-----------+------+
//                                        |<-- a frame ----->|
//
// The seal is over the spelling, and big-endian. The size of a frame counts it. No length is stored: `append`
// answers place and size, and the caller keeps both, as a pair does in its records.
//
// A read takes the frame in one piece, and holds its last four bytes against the seal of those before. Only
// then the codec reads the value.
//
// # Sync
//
// An append goes into the section's buffer, which flushes at its capacity and settles nothing. `sync` settles
// the named sections.
//
// # Crashes
//
// Each crash leaves the bytes that had settled, up to a cut. Behind them it may leave any bytes. Each content
// that a section's blob had since it settled is a prefix of the section's bytes. So, a chance seal aside, a
// frame whose seal holds is the one that stands there.
//
// # Pruning
//
// Sections below a bound are removed, the oldest first.
//
// # Cost
//
// A value takes its spelling and four bytes. An append below the buffer's capacity makes no call where the
// section is held. A value is read by one call, and by none where its frame is not flushed.
ghost use Rattle.std.specs.Prelude.{◌≡◌, ◌↔◌, ◌≤◌, ◌<◌, ℕ, None, IfOk, IfSome, OnErr, IsTrue, string_len};
ghost use Rattle.std.specs.List.{Contains};
ghost use Rattle.std.specs.List.Sorted.{IsStrictlySortedBy};
ghost use Rattle.std.specs.Ordering.{nat_cmp};
ghost use Rattle.section_manager.specs.Sections.{IsHeld};
ghost use Rattle.section_manager.specs.Refusing.{IsPruned};

mod framing;
mod opening;
mod reading;
mod recovery;
mod removing;
mod syncing;
mod writing;

pub(crate) use framing::{frame_size, u32_in};
pub use recovery::Recovery;
use segments::journal::Error;
use segments::{Manager, SectionIter, WriteFactory};
use std::alloc::Global;
use std::marker::PhantomData;
use value_codec::{Codec, Seal};

/// Where a glob is kept, and how.
#[derive(Drop)]
pub struct Config<C> {
    /// The partition that holds the sections' blobs, and no other blob.
    pub partition: String,
    /// What the codec of the values asks for.
    pub codec_config: C,
    /// From how many bytes on a section's buffer flushes them.
    pub write_buffer: usize,
}

impl<C> Config<C> {
    /// Whether the partition has a name, and the buffer is at least 1.
    pub fn is_valid(&self) -> bool
        ensures { IsTrue result ↔ ((1 ≤ string_len self.now.partition) × (1 ≤ self.now.write_buffer)) }
    {
        !self.partition.is_empty() && self.write_buffer >= 1
    }
}

/// Values by section and place. A value stands in a frame: its spelling, and the seal of that in four bytes,
/// the highest first. Where a frame stands and how long it is, [`append`](Glob::append) answers, and the
/// caller keeps.
///
/// Calls that take the glob by value give it up where they refuse; its blobs are then opened again by an
/// [`init`](Glob::init).
///
/// ```rust
/// let glob = Glob::<ByteValue, Sha256Seal>::init(alloc, &mut dev, &cfg)?;
/// let (glob, place, size) = glob.append(&mut dev, 4, &value)?;    // in memory, below the buffer's capacity
/// let glob = glob.sync(&mut dev, &[4])?;
/// glob.get(&mut dev, 4, place, size)?
/// ```
#[derive(Drop)]
pub struct Glob<V: Codec, S: Seal> {
    /// Where memory for frames and values comes from.
    alloc: Global,
    /// The sections, each in a buffer without seals to which bytes are only added (`IsGlob`).
    manager: Manager<WriteFactory>,
    /// What the codec of the values asks for.
    codec_config: V::Cfg,
    /// The kind of seal; no data.
    seal: PhantomData<S>,
}

impl<V: Codec, S: Seal> Glob<V, S> {
    ghost use Rattle.section_manager.specs.managing.Managed.{shown};
    ghost use Rattle.paired.specs.glob.Sections.{section_size};

    /// The greatest section that takes an append: the bound of the opening, until it is lifted, and `u64::MAX` from there on.
    pub fn ceiling(&self) -> u64
        ensures { result ≡ (shown self.now.manager).ceiling }
    {
        self.manager.ceiling()
    }

    /// How many bytes the section has, those not flushed too; 0 where it is not held. It takes no memory.
    pub fn size(&self, section: u64) -> Result<u64, Error>
        ensures size { IfOk result (λ n. n ≡ section_size (shown self.now.manager) section) }
        ensures guard { IsPruned result (shown self.now.manager).floor ↔ (section < (shown self.now.manager).floor) }
        ensures cause { OnErr result (IsPruned result (shown self.now.manager).floor) }
    {
        self.manager.size(section)
    }

    /// Whether the section is below the floor, up to which sections were pruned.
    pub fn pruned(&self, section: u64) -> bool
        ensures { IsTrue result ↔ (section < (shown self.now.manager).floor) }
    {
        self.manager.pruned(section)
    }

    /// The least section that is held.
    pub fn oldest_section(&self) -> Option<u64>
        ensures none { result ≡ None ↔ ((s : ℕ) → (shown self.now.manager).held s ≡ None) }
        ensures held { IfSome result (IsHeld (shown self.now.manager)) }
        ensures least { IfSome result (λ n. (s : ℕ) → IsHeld (shown self.now.manager) s → n ≤ s) }
    {
        self.manager.oldest_section()
    }

    /// The greatest section that is held.
    pub fn newest_section(&self) -> Option<u64>
        ensures none { result ≡ None ↔ ((s : ℕ) → (shown self.now.manager).held s ≡ None) }
        ensures held { IfSome result (IsHeld (shown self.now.manager)) }
        ensures greatest { IfSome result (λ n. (s : ℕ) → IsHeld (shown self.now.manager) s → s ≤ n) }
    {
        self.manager.newest_section()
    }

    /// The held sections, ascending.
    pub fn sections(&self) -> SectionIter<'_>
        ensures ascending { IsStrictlySortedBy nat_cmp result }
        ensures each { (s : ℕ) → Contains result s ↔ IsHeld (shown self.now.manager) s }
    {
        self.manager.sections()
    }
}
