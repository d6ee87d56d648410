// Going over the records of a pair, and which of them an opening keeps.
ghost use Rattle.std.specs.Prelude.{◌≡◌, ◌≢◌, ◌↔◌, ◌⊎◌, ◌≤◌, ◌<◌, ◌+◌, ◌*◌, ◌/◌, ◌^◌, ⊤, ℕ, Some, None, Ok, Err, true, false, length, IfOk, IfSome, OnOk, OnErr, IsSome, IsSomeAnd, IsTrue};
ghost use Rattle.std.specs.Result.{IsErrOf};
ghost use Rattle.std.specs.BTreeMap.{get};
ghost use Rattle.std.specs.Ordering.{nat_cmp};
ghost use Rattle.blob_device.specs.Disk.{Disk, Key};
ghost use Rattle.blob_device.specs.Opened.{reads_of};
ghost use Rattle.blob_device.specs.Timeline.{disk, Always, Each};
ghost use Rattle.blob_device.specs.declared.runtime.RError.TheVariants.{InvalidChecksum};
ghost use Rattle.sealed_pages.specs.Buffer.{size_of};
ghost use Rattle.sealed_pages.specs.Reading.{Unchanged};
ghost use Rattle.sealed_pages.specs.Entries.{ReadsAtMost};
ghost use Rattle.sealed_pages.specs.Shown as page_blob;
ghost use Rattle.section_manager.specs.managing.Managed as managed;
ghost use Rattle.section_manager.specs.Refusing.{HasDamage, HasFailed};
ghost use Rattle.section_manager.specs.Sections.{section_key, key_of, IsHeld};
ghost use Rattle.segments.specs.FixedLists.{IsJournal};
ghost use Rattle.segments.specs.FixedReading.{IsPast, IsBelowFloor, HasNotRead};
ghost use Rattle.segments.specs.FixedReplay.{Begins, IsDrained, IsWalk, Replaying, EndsBelow, FindsDamage, kept_bytes};
ghost use Rattle.segments.specs.FixedShown as journal;
ghost use Rattle.segments.specs.FixedStepping.{way_of};
ghost use Rattle.segments.specs.FixedWalking.{walk_of};
ghost use Rattle.meta_store.specs.Store.{contents_of};
ghost use Rattle.paired.specs.Crashes.{IsIndexOf, IsValuesOf, IsOwn, Keeping};
ghost use Rattle.paired.specs.glob.Sections.{IsGlob};
ghost use Rattle.paired.specs.glob.Sections as glob;
ghost use Rattle.paired.specs.Kept.{IsSameLayout, kept};
ghost use Rattle.paired.specs.Opening.{as_read, IsLawful, MayBeOpened, RecallsAlone};
ghost use Rattle.paired.specs.OpeningRefusing.{AreSpellings};
ghost use Rattle.paired.specs.Pair.{IsPair, IsSafeOn, IsSoundOn, list_of, synced_length};
ghost use Rattle.paired.specs.PairShown.{shown};
ghost use Rattle.paired.specs.Records.{is_sound};
ghost use Rattle.paired.specs.ReplayShown.{limits_of, run_of};
ghost use Rattle.paired.specs.Replaying.{GivesBack, IsCutting, IsRun, IsDue, GivesRecord, LosesRecords, IsUnspelled, LeftAtMost, NotesRecord, SameRun, counted_end, pair_of, records_given};
ghost use Rattle.paired.specs.Replaying as run;
ghost use Rattle.paired.specs.sighted.Shown as tracked;

use super::Oversized;
use super::tracking::Tracking;
use crate::{Glob, Record, Recovery};
use blob_device::Device;
use sealed_pages::{PageBlob, WriteBlob};
use segments::journal::Error;
use segments::{AppendFactory, BufferFactory, SectionBuffer, WriteFactory, fixed};
use std::alloc::Global;
use std::collections::BTreeMap;
use value_codec::{Codec, Seal};

/// How far an opening keeps the sections that it has gone over.
#[derive(Drop)]
pub(super) struct Limits {
    /// Of each section in which a value failed, the position of its record (`IsChecked.ends`).
    pub(super) at: BTreeMap<u64, u64>,
    /// Of each section of which a record is kept, where the last one's value ends (`IsChecked.values`).
    pub(super) values: BTreeMap<u64, u64>,
}

impl Limits {
    // Of no section.
    fn none(alloc: Global) -> Self
        ensures { (s : ℕ)
            → ((limits_of result).at s ≡ None) × ((limits_of result).values s ≡ None) }
    {
        Limits {
            at: BTreeMap::new(alloc),
            values: BTreeMap::new(alloc),
        }
    }

    // Notes of a record, whose value ends there, that it is kept, or that its section ends at it.
    fn note(&mut self, section: u64, position: u64, end: u64, is_kept: bool) -> Result<(), Error>
        ensures notes { OnOk result (NotesRecord (limits_of self.old) (limits_of self.new)
            section position end is_kept) }
        ensures stays { OnErr result ((s : ℕ)
            → (limits_of self.new).at s ≡ (limits_of self.old).at s) }
        ensures cause { OnErr result (IsErrOf result Error.Mem) }
    {
        if is_kept {
            self.values.insert(section, end)?;
        } else {
            self.at.insert(section, position)?;
        }
        Ok(())
    }
}

/// A walk over the records of a pair, which gives the pair back.
///
/// The walk of an opening by markers keeps of each section the records below its marker. Behind them it keeps
/// those up to the first whose value fails. It reads no other value.
#[derive(Drop)]
pub struct Replay<I: Record, V: Codec, S: Seal> {
    /// Where memory for the pair comes from.
    pub(super) alloc: Global,
    /// The walk over the records (`IsRun.index`).
    pub(super) index: fixed::Replay<I, S>,
    /// The frames, which are only read and checked (`IsRun.values`).
    pub(super) values: Recovery<V, S>,
    /// The markers, which stay as they are until the walk is finished (`IsRun.markers`).
    pub(super) tracking: Tracking<S>,
    /// Whether the walk is that of an opening; else it is over an open pair (`IsRun.opening`, `IsRun.live`).
    pub(super) is_tracked: bool,
    /// How far an opening keeps each section; over an open pair nothing.
    pub(super) ends: Limits,
    /// The last section that ended since a value could not be checked (`IsChecked.broken`).
    pub(super) ended_section: Option<u64>,
    /// Whether an error was given. Then the pair is not given back.
    pub(super) has_failed: bool,
}

impl<I: Record, V: Codec, S: Seal> Oversized<I, V, S> {
    /// Goes over the records from this position of this section on, in ascending order. It reads pieces of about `buffer` bytes.
    ///
    /// It refuses a position past the end of the section, if that is held.
    pub fn replay<D: Device>(
        self,
        dev: &mut D,
        start_section: u64,
        start_position: u64,
        buffer: usize,
    ) -> Result<Replay<I, V, S>, Error>
        requires over { IsPair ⟦<PageBlob<S> as SectionBuffer>⟧ ⟦<AppendFactory<S> as BufferFactory>⟧.gives ⟦<WriteBlob as SectionBuffer>⟧ ⟦<WriteFactory as BufferFactory>⟧.gives D.Tells (shown I.place self) (D.opened dev.old) (disk (D.time dev.old)) }
        ensures over { IfOk result (λ r. IsRun (run_of I.place r) ⟦<PageBlob<S> as SectionBuffer>⟧ ⟦<AppendFactory<S> as BufferFactory>⟧.gives ⟦<WriteBlob as SectionBuffer>⟧ ⟦<WriteFactory as BufferFactory>⟧.gives D.Tells (D.opened dev.new) (disk (D.time dev.new))) }
        ensures tracked { IfOk result (λ r. (run_of I.place r).tracked ≡ false) }
        ensures going { IfOk result (λ r. (run_of I.place r).failed ≡ false) }
        ensures values { IfOk result (λ r. (run_of I.place r).values ≡ (shown I.place self).values) }
        ensures markers { IfOk result (λ r. (run_of I.place r).store ≡ (shown I.place self).store) }
        ensures trailing { IfOk result (λ r. (run_of I.place r).trailing ≡ (shown I.place self).trailing) }
        ensures layout { IfOk result (λ r. IsSameLayout (shown I.place self).layout (run_of I.place r).layout) }
        ensures begins { IfOk result (λ r. Begins (shown I.place self).index start_section start_position (run_of I.place r).walk) }
        // The lists are those of the pair, which is sound if it was.
        ensures lists { D.Tells → IfOk result (λ r. (s : ℕ) → list_of (pair_of (run_of I.place r)) (disk (D.time dev.new)) s ≡ list_of (shown I.place self) (disk (D.time dev.old)) s) }
        ensures sound { D.Tells → IsSoundOn (shown I.place self) (disk (D.time dev.old)) → IfOk result (λ r. IsSoundOn (pair_of (run_of I.place r)) (disk (D.time dev.new))) }
        ensures codec_config { IfOk result (λ r. r.values.codec_config ≡ self.values.codec_config) }
        ensures past { IsPast result start_position ↔ IsSomeAnd ((shown I.place self).index.sections.held start_section) (λ u. size_of (page_blob.shown u) / I.SIZE < start_position) }
        ensures unchanged { dev.new ≡ dev.old }
        ensures cause { OnErr result (IsPast result start_position) }
    {
        let Oversized {
            alloc,
            index,
            values,
            tracking,
        } = self;
        // This flushes nothing: the walk flushes a section when it comes to it.
        let index = index.replay(dev, start_section, start_position, buffer)?;
        Ok(Replay {
            alloc,
            index,
            values: Recovery::of(values),
            tracking,
            is_tracked: false,
            ends: Limits::none(alloc),
            ended_section: None,
            has_failed: false,
        })
    }
}

impl<I: Record, V: Codec, S: Seal> Replay<I, V, S> {
    // The walk of an opening, over all sections.
    pub(super) fn tracked<D: Device>(
        alloc: Global,
        dev: &mut D,
        index: fixed::Journal<I, S>,
        values: Recovery<V, S>,
        tracking: Tracking<S>,
        buffer: usize,
    ) -> Result<Self, Error>
        requires index { IsJournal ⟦<PageBlob<S> as SectionBuffer>⟧ ⟦<AppendFactory<S> as BufferFactory>⟧.gives S.seal_of I.SIZE D.Tells (journal.shown index) (D.opened dev.old) (disk (D.time dev.old)) }
        ensures walk { IfOk result (λ r. IsWalk ⟦<PageBlob<S> as SectionBuffer>⟧ ⟦<AppendFactory<S> as BufferFactory>⟧.gives S.seal_of I.SIZE D.Tells (walk_of r.index) (D.opened dev.new) (disk (D.time dev.new))) }
        ensures begins { IfOk result (λ r. Begins (journal.shown index) 0 0 (run_of I.place r).walk) }
        ensures values { IfOk result (λ r. r.values ≡ values) }
        ensures tracking { IfOk result (λ r. r.tracking ≡ tracking) }
        ensures tracked { IfOk result (λ r. (run_of I.place r).tracked ≡ true) }
        ensures ends { IfOk result (λ r. (s : ℕ) → ((run_of I.place r).ends.at s ≡ None)
            × ((run_of I.place r).ends.values s ≡ None)) }
        ensures goes_on { IfOk result (λ r. (run_of I.place r).ended_section ≡ None) }
        ensures going { IfOk result (λ r. (run_of I.place r).failed ≡ false) }
        ensures unchanged { dev.new ≡ dev.old }
        ensures cause { OnErr result ⊥ }
    {
        // All sections from their first record on: only so it is known what each keeps.
        let index = index.replay(dev, 0, 0, buffer)?;
        Ok(Replay {
            alloc,
            index,
            values,
            tracking,
            is_tracked: true,
            ends: Limits::none(alloc),
            ended_section: None,
            has_failed: false,
        })
    }

    /// The next record, with its section and its position; none where all were given, or where the replay has ended.
    ///
    /// The walk of an opening checks the value of each record at or above its section's marker, by one read at most, up to the first that
    /// fails; it gives neither that record nor a later one of the section. A device that fails while a value is checked is an error, and
    /// never a value that fails.
    ///
    /// An error ends its section, also one while a value is checked, and the replay goes on with the next. One while a section is cut ends the
    /// replay; then nothing more is done.
    pub fn next<D: Device>(&mut self, dev: &mut D) -> Option<Result<(u64, u64, I), Error>>
        requires { IsRun (run_of I.place self.old) ⟦<PageBlob<S> as SectionBuffer>⟧ ⟦<AppendFactory<S> as BufferFactory>⟧.gives ⟦<WriteBlob as SectionBuffer>⟧ ⟦<WriteFactory as BufferFactory>⟧.gives D.Tells (D.opened dev.old) (disk (D.time dev.old)) }
        ensures over { IsRun (run_of I.place self.new) ⟦<PageBlob<S> as SectionBuffer>⟧ ⟦<AppendFactory<S> as BufferFactory>⟧.gives ⟦<WriteBlob as SectionBuffer>⟧ ⟦<WriteFactory as BufferFactory>⟧.gives D.Tells (D.opened dev.new) (disk (D.time dev.new)) }
        ensures same { SameRun (run_of I.place self.old) (run_of I.place self.new) }
        ensures codec_config { self.new.values.codec_config ≡ self.old.values.codec_config }
        // What is given is the first record that was due, and it is due no more.
        ensures item { D.Tells → (s p : ℕ) (v : I) → result ≡ Some (Ok (s, p, v)) → GivesRecord I.spelling I.accepted (run_of I.place self.old) (run_of I.place self.new) (disk (D.time dev.old)) (disk (D.time dev.new)) s p v }
        ensures going { (s p : ℕ) (v : I) → result ≡ Some (Ok (s, p, v)) → (run.HasFailed (run_of I.place self.old) → ⊥) → run.HasFailed (run_of I.place self.new) → ⊥ }
        // Without an answer nothing is due.
        ensures none { D.Tells → result ≡ None → (s p : ℕ) → IsDue (run_of I.place self.old) (disk (D.time dev.old)) s p → ⊥ }
        ensures drained { result ≡ None → IsDrained (run_of I.place self.new).walk ⊎ ((run_of I.place self.new).walk.ended ≡ true) }
        ensures whole { result ≡ None → (run.HasFailed (run_of I.place self.old) → ⊥) → run.HasFailed (run_of I.place self.new) → ⊥ }
        // An error ends its section, or, where that is being cut, the replay. Once that has ended nothing is done.
        ensures failed { (e : _) → result ≡ Some (Err e) → run.HasFailed (run_of I.place self.new) }
        ensures stops { D.Tells → (e : _) → result ≡ Some (Err e) → LosesRecords (run_of I.place self.old) (run_of I.place self.new) (disk (D.time dev.old)) (disk (D.time dev.new)) }
        ensures nearer { (x : _) → result ≡ Some x → way_of (run_of I.place self.new).walk < way_of (run_of I.place self.old).walk }
        ensures ends { (run_of I.place self.new).walk.ended ≡ true → ((run_of I.place self.old).walk.ended ≡ true) ⊎ ((e : _) × (result ≡ Some (Err e)) × ((HasDamage {T = I} (Err e) × (D.Tells → ⊥)) ⊎ HasFailed {T = I} (Err e) (D.faults dev.old) (D.faults dev.new))) }
        ensures ends_cut { (run_of I.place self.new).walk.ended ≡ true → ((run_of I.place self.old).walk.ended ≡ true) ⊎ IsCutting D.Tells (run_of I.place self.old) (disk (D.time dev.old)) }
        ensures ended { (run_of I.place self.old).walk.ended ≡ true → (result ≡ None) × ((run_of I.place self.new).walk.ended ≡ true) × (dev.new ≡ dev.old) }
        // The walk of an opening changes nothing of what is kept, nor of what it gives, and a lawful image stays one, as long as the replay has not
        // ended.
        ensures kept { D.Tells → (run_of I.place self.old).tracked ≡ true → (run_of I.place self.new).walk.ended ≡ false → (s : ℕ) → s < 2 ^ 64
            → kept (run_of I.place self.old).layout (as_read (disk (D.time dev.new))) (run.marker (run_of I.place self.old) s) s ≡ kept (run_of I.place self.old).layout (as_read (disk (D.time dev.old))) (run.marker (run_of I.place self.old) s) s }
        ensures given { D.Tells → (run_of I.place self.old).tracked ≡ true → (run_of I.place self.new).walk.ended ≡ false → run.HasLostNone (run_of I.place self.new) → (s : ℕ) → records_given (run_of I.place self.new) (disk (D.time dev.new)) s ≡ records_given (run_of I.place self.old) (disk (D.time dev.old)) s }
        ensures lawful { D.Tells → (run_of I.place self.old).tracked ≡ true → (run_of I.place self.new).walk.ended ≡ false → IsLawful (run_of I.place self.old).layout (as_read (disk (D.time dev.old))) (contents_of (run_of I.place self.old).store) → IsLawful (run_of I.place self.old).layout (as_read (disk (D.time dev.new))) (contents_of (run_of I.place self.old).store) }
        ensures spelled { D.Tells → (run_of I.place self.old).tracked ≡ true → (run_of I.place self.new).walk.ended ≡ false → AreSpellings (run_of I.place self.old).layout I.refusal (as_read (disk (D.time dev.old))) → AreSpellings (run_of I.place self.old).layout I.refusal (as_read (disk (D.time dev.new))) }
        // At every moment, also where the call gives an error, each crash leaves what a crash before the call would have left.
        ensures moments { D.Tells → (run_of I.place self.old).tracked ≡ true → MayBeOpened (run_of I.place self.old).layout (disk (D.time dev.old)) → Always (D.time dev.old) (D.time dev.new) (RecallsAlone (run_of I.place self.old).layout (IsIndexOf (run_of I.place self.old).layout (λ _. ⊤)) (disk (D.time dev.old))) }
        ensures opened { D.Tells → (run_of I.place self.old).tracked ≡ true → MayBeOpened (run_of I.place self.old).layout (disk (D.time dev.old)) → (run_of I.place self.new).walk.ended ≡ false → MayBeOpened (run_of I.place self.old).layout (disk (D.time dev.new)) }
        // That over an open pair changes nothing of its lists. An error may take the buffer of a section; its blob is as it was left.
        ensures lists { D.Tells → (run_of I.place self.old).tracked ≡ false → (s : ℕ) → (run_of I.place self.new).walk.journal.sections.unopened s ≡ None → list_of (pair_of (run_of I.place self.new)) (disk (D.time dev.new)) s ≡ list_of (pair_of (run_of I.place self.old)) (disk (D.time dev.old)) s }
        ensures sound { D.Tells → (run_of I.place self.old).tracked ≡ false → run.HasLostNone (run_of I.place self.new) → IsSoundOn (pair_of (run_of I.place self.old)) (disk (D.time dev.old)) → IsSoundOn (pair_of (run_of I.place self.new)) (disk (D.time dev.new)) }
        ensures keeps { D.Tells → (run_of I.place self.old).tracked ≡ false → run.HasLostNone (run_of I.place self.old) → IsSafeOn (pair_of (run_of I.place self.old)) (disk (D.time dev.old))
            → Keeping (run_of I.place self.old).layout (list_of (pair_of (run_of I.place self.old)) (disk (D.time dev.old))) (synced_length (pair_of (run_of I.place self.old))) (λ _. ⊥) (IsIndexOf (run_of I.place self.old).layout (λ _. ⊤)) (D.time dev.old) (D.time dev.new) }
        // Whatever the disk, each crash leaves of a section what had settled of its bytes, or, where it owes a replay, its whole records. No blob changes
        // but those of records, and none of a section in which nothing is to be cut or flushed.
        ensures flushed { D.Tells → Always (D.time dev.old) (D.time dev.new) (Each (Replaying S.seal_of I.SIZE (run_of I.place self.old).walk (disk (D.time dev.old)))) }
        ensures untouched { D.Tells → Always (D.time dev.old) (D.time dev.new) (λ d. (q : Key) → (IsIndexOf (run_of I.place self.old).layout (IsHeld (run_of I.place self.old).walk.journal.sections) q → ⊥) → d q ≡ (disk (D.time dev.old)) q) }
        ensures still { D.Tells → (s : ℕ) → s < 2 ^ 64 → run.IsStill (run_of I.place self.old) (disk (D.time dev.old)) s → Always (D.time dev.old) (D.time dev.new) (λ d. d (section_key (run_of I.place self.old).layout.index s) ≡ (disk (D.time dev.old)) (section_key (run_of I.place self.old).layout.index s)) }
        ensures idle { D.Tells → ((s : ℕ) → run.IsStill (run_of I.place self.old) (disk (D.time dev.old)) s) → Always (D.time dev.old) (D.time dev.new) (Each (λ q b. b ≡ (disk (D.time dev.old)) q)) }
        // Values are read no more often than records at or above the marker come to pass, and over an open pair not at all.
        ensures reads { D.Tells → (s n : ℕ) → s < 2 ^ 64 → LeftAtMost (run_of I.place self.old) (disk (D.time dev.old)) s n
            → (m : ℕ) × LeftAtMost (run_of I.place self.new) (disk (D.time dev.new)) s m × (reads_of (D.opened dev.new (section_key (run_of I.place self.old).layout.values s)) + m ≤ reads_of (D.opened dev.old (section_key (run_of I.place self.old).layout.values s)) + n) }
        ensures unread { (run_of I.place self.old).tracked ≡ false → (s : ℕ) → reads_of (D.opened dev.new (section_key (run_of I.place self.old).layout.values s)) ≤ reads_of (D.opened dev.old (section_key (run_of I.place self.old).layout.values s)) }
        ensures entries { (q : Key) → (IsIndexOf (run_of I.place self.old).layout (λ _. ⊤) q ⊎ IsValuesOf (run_of I.place self.old).layout (λ _. ⊤) q → ⊥) → D.opened dev.new q ≡ D.opened dev.old q }
        // The start is refused only where its section keeps fewer records; what is kept of a section only where a cut would go below its floor; a
        // page only in a section with a floor; a record only where its bytes are refused.
        ensures start { D.Tells → (p : ℕ) → result ≡ Some (Err (Error.ItemOutOfRange p)) → (p ≡ (run_of I.place self.old).walk.start_position) × (length (kept_bytes S.seal_of I.SIZE (run_of I.place self.old).walk (disk (D.time dev.old)) (run_of I.place self.old).walk.start_section) < p * I.SIZE) }
        ensures damage { D.Tells → (x : _) → result ≡ Some (Err (Error.Corruption x)) → EndsBelow S.seal_of I.SIZE (run_of I.place self.old).walk (disk (D.time dev.old)) x }
        ensures damaged { D.Tells → (k : ℕ) → result ≡ Some (Err (Error.Runtime (InvalidChecksum k))) → FindsDamage S.seal_of I.SIZE (run_of I.place self.old).walk (run_of I.place self.new).walk (disk (D.time dev.new)) k }
        ensures refused { D.Tells → (e : _) → result ≡ Some (Err (Error.Codec e)) → IsUnspelled I.refusal (run_of I.place self.old) (disk (D.time dev.old)) e }
        ensures complete { D.Tells → (run_of I.place self.old).tracked ≡ true → IsLawful (run_of I.place self.old).layout (as_read (disk (D.time dev.old))) (contents_of (run_of I.place self.old).store) → AreSpellings (run_of I.place self.old).layout I.refusal (as_read (disk (D.time dev.old))) → (e : _) → result ≡ Some (Err e) → HasFailed {T = I} (Err e) (D.faults dev.old) (D.faults dev.new) }
        ensures faults { D.faults dev.old ≤ D.faults dev.new }
        ensures cause { (e : _) → result ≡ Some (Err e) → (e ≡ Error.ItemOutOfRange (run_of I.place self.old).walk.start_position) ⊎ (IsBelowFloor {T = I} (Err e) ⊎ HasNotRead {T = I} (Err e) (D.faults dev.old) (D.faults dev.new)) }
    {
        'records: while let Some(given) = self.index.next(dev) {
            match self.sorted(dev, given) {
                Ok(None) => {}
                Ok(Some(record)) => return Some(Ok(record)),
                Err(e) => {
                    self.has_failed = true;
                    return Some(Err(e));
                }
            }
        }
        None
    }

    // The record that was read, if it is kept. An error that was read is passed on.
    fn sorted<D: Device>(
        &mut self,
        dev: &mut D,
        given: Result<(u64, u64, I), Error>,
    ) -> Result<Option<(u64, u64, I)>, Error>
        requires values { IsGlob ⟦<WriteBlob as SectionBuffer>⟧ ⟦<WriteFactory as BufferFactory>⟧.gives D.Tells (managed.shown self.old.values.manager) (D.opened dev.old) (disk (D.time dev.old)) }
        requires floor { (run_of I.place self.old).tracked ≡ true → (managed.shown self.old.values.manager).floor ≡ 0 }
        ensures passed { (e : _) → given ≡ Err e → (result ≡ Err e) × (self.new ≡ self.old) × (dev.new ≡ dev.old) }
        ensures kept { (s p : ℕ) (v : I) → given ≡ Ok (s, p, v) → IfOk result (λ r. (r ≡ Some (s, p, v)) ⊎ ((r ≡ None) × ((run_of I.place self.old).tracked ≡ true))) }
        ensures sorts { D.Tells → (s p : ℕ) (v : I) → given ≡ Ok (s, p, v) → IfOk result (λ r. run.Sorts (run_of I.place self.old) (run_of I.place self.new) (disk (D.time dev.old)) s p (I.location v) (IsSome r)) }
        // Also where the disk is not told, no section comes to end below its marker.
        ensures ends_from { (s p : ℕ) → (run_of I.place self.new).ends.at s ≡ Some p
            → ((run_of I.place self.old).ends.at s ≡ Some p)
            ⊎ ((s < 2 ^ 64) × (run.marker (run_of I.place self.old) s ≤ p)) }
        ensures index { self.new.index ≡ self.old.index }
        ensures values { self.new.values ≡ self.old.values }
        ensures tracking { self.new.tracking ≡ self.old.tracking }
        ensures tracked { self.new.is_tracked ≡ self.old.is_tracked }
        ensures failed { self.new.has_failed ≡ self.old.has_failed }
        ensures live { (run_of I.place self.old).tracked ≡ false → self.new ≡ self.old }
        // Where the check fails by an error, its section ends.
        ensures goes_on { OnOk result ((run_of I.place self.new).ended_section ≡ (run_of I.place self.old).ended_section) }
        ensures ended { (s p : ℕ) (v : I) → given ≡ Ok (s, p, v) → OnErr result (((run_of I.place self.new).ended_section ≡ Some s) × ((run_of I.place self.old).ended_section ≢ Some s) × ((run_of I.place self.old).tracked ≡ true)) }
        ensures stays { OnErr result ((s : ℕ)
            → (run_of I.place self.new).ends.at s ≡ (run_of I.place self.old).ends.at s) }
        ensures glob { IsGlob ⟦<WriteBlob as SectionBuffer>⟧ ⟦<WriteFactory as BufferFactory>⟧.gives D.Tells (managed.shown self.new.values.manager) (D.opened dev.new) (disk (D.time dev.new)) }
        ensures unchanged { D.Tells → Unchanged (D.time dev.old) (D.time dev.new) }
        ensures read { (s p : ℕ) (v : I) → given ≡ Ok (s, p, v) → ReadsAtMost 1 (key_of (managed.shown self.old.values.manager) s) (D.opened dev.old) (D.opened dev.new) }
        ensures idle { (s p : ℕ) (v : I) → given ≡ Ok (s, p, v) → (((run_of I.place self.old).tracked ≡ false) ⊎ (p < run.marker (run_of I.place self.old) s)) → dev.new ≡ dev.old }
        // No value behind its section's end is read.
        ensures ended_idle { (s p : ℕ) (v : I) → given ≡ Ok (s, p, v)
            → (((run_of I.place self.old).ended_section ≡ Some s)
            ⊎ IsSome ((run_of I.place self.old).ends.at s)) → dev.new ≡ dev.old }
        ensures faults { D.faults dev.old ≤ D.faults dev.new }
        ensures cause { OnErr result (((e : _) × (given ≡ Err e)) ⊎ HasFailed result (D.faults dev.old) (D.faults dev.new)) }
    {
        let (section, position, record) = given?;
        if self.keeps(dev, section, position, record.value_location())? {
            return Ok(Some((section, position, record)));
        }
        Ok(None)
    }

    // Whether the record at this position, whose value is there, is kept.
    fn keeps<D: Device>(
        &mut self,
        dev: &mut D,
        section: u64,
        position: u64,
        location: (u64, u32),
    ) -> Result<bool, Error>
        requires values { IsGlob ⟦<WriteBlob as SectionBuffer>⟧ ⟦<WriteFactory as BufferFactory>⟧.gives D.Tells (managed.shown self.old.values.manager) (D.opened dev.old) (disk (D.time dev.old)) }
        requires floor { (run_of I.place self.old).tracked ≡ true → (managed.shown self.old.values.manager).floor ≡ 0 }
        ensures sorts { D.Tells → IfOk result (λ r. run.Sorts (run_of I.place self.old) (run_of I.place self.new) (disk (D.time dev.old)) section position location (IsTrue r)) }
        // Also where the disk is not told, no section comes to end below its marker.
        ensures ends_from { (s p : ℕ) → (run_of I.place self.new).ends.at s ≡ Some p
            → ((run_of I.place self.old).ends.at s ≡ Some p)
            ⊎ ((s < 2 ^ 64) × (run.marker (run_of I.place self.old) s ≤ p)) }
        ensures index { self.new.index ≡ self.old.index }
        ensures values { self.new.values ≡ self.old.values }
        ensures tracking { self.new.tracking ≡ self.old.tracking }
        ensures tracked { self.new.is_tracked ≡ self.old.is_tracked }
        ensures failed { self.new.has_failed ≡ self.old.has_failed }
        ensures goes_on { OnOk result ((run_of I.place self.new).ended_section ≡ (run_of I.place self.old).ended_section) }
        ensures ended { OnErr result (((run_of I.place self.new).ended_section ≡ Some section) × ((run_of I.place self.old).ended_section ≢ Some section)) }
        ensures stays { OnErr result ((s : ℕ)
            → (run_of I.place self.new).ends.at s ≡ (run_of I.place self.old).ends.at s) }
        ensures live { (run_of I.place self.old).tracked ≡ false → (result ≡ Ok true) × (self.new ≡ self.old) }
        ensures glob { IsGlob ⟦<WriteBlob as SectionBuffer>⟧ ⟦<WriteFactory as BufferFactory>⟧.gives D.Tells (managed.shown self.new.values.manager) (D.opened dev.new) (disk (D.time dev.new)) }
        ensures unchanged { D.Tells → Unchanged (D.time dev.old) (D.time dev.new) }
        ensures read { ReadsAtMost 1 (key_of (managed.shown self.old.values.manager) section) (D.opened dev.old) (D.opened dev.new) }
        ensures idle { (((run_of I.place self.old).tracked ≡ false) ⊎ (position < run.marker (run_of I.place self.old) section)) → dev.new ≡ dev.old }
        // No value behind its section's end is read.
        ensures ended_idle { (((run_of I.place self.old).ended_section ≡ Some section)
            ⊎ IsSome ((run_of I.place self.old).ends.at section)) → dev.new ≡ dev.old }
        ensures faults { D.faults dev.old ≤ D.faults dev.new }
        ensures cause { OnErr result (HasFailed result (D.faults dev.old) (D.faults dev.new)) }
    {
        if !self.is_tracked {
            return Ok(true);
        }
        if self.ended_section == Some(section) || self.ends.at.contains_key(&section) {
            return Ok(false);
        }
        let checked = self.checks(dev, section, position, location);
        if checked.is_err() {
            self.ended_section = Some(section);
        }
        checked
    }

    // Whether the record at this position stands below its section's marker, or its value is sound; and notes
    // where its value ends, or that its section ends at it.
    fn checks<D: Device>(
        &mut self,
        dev: &mut D,
        section: u64,
        position: u64,
        location: (u64, u32),
    ) -> Result<bool, Error>
        requires values { IsGlob ⟦<WriteBlob as SectionBuffer>⟧ ⟦<WriteFactory as BufferFactory>⟧.gives D.Tells (managed.shown self.old.values.manager) (D.opened dev.old) (disk (D.time dev.old)) }
        requires floor { (managed.shown self.old.values.manager).floor ≡ 0 }
        ensures good { D.Tells → IfOk result (λ r. IsTrue r
            ↔ ((position < run.marker (run_of I.place self.old) section)
            ⊎ IsTrue (is_sound S.seal_of (glob.section_bytes (run_of I.place self.old).values
            (disk (D.time dev.old)) section) location))) }
        ensures notes { IfOk result (λ r. NotesRecord (run_of I.place self.old).ends
            (run_of I.place self.new).ends section position (counted_end location) r) }
        ensures high { result ≡ Ok false
            → run.marker (run_of I.place self.old) section ≤ position }
        ensures stays { OnErr result ((s : ℕ)
            → (run_of I.place self.new).ends.at s ≡ (run_of I.place self.old).ends.at s) }
        ensures goes_on { (run_of I.place self.new).ended_section ≡ (run_of I.place self.old).ended_section }
        ensures index { self.new.index ≡ self.old.index }
        ensures values { self.new.values ≡ self.old.values }
        ensures tracking { self.new.tracking ≡ self.old.tracking }
        ensures tracked { self.new.is_tracked ≡ self.old.is_tracked }
        ensures failed { self.new.has_failed ≡ self.old.has_failed }
        ensures glob { IsGlob ⟦<WriteBlob as SectionBuffer>⟧ ⟦<WriteFactory as BufferFactory>⟧.gives D.Tells (managed.shown self.new.values.manager) (D.opened dev.new) (disk (D.time dev.new)) }
        ensures unchanged { D.Tells → Unchanged (D.time dev.old) (D.time dev.new) }
        ensures read { ReadsAtMost 1 (key_of (managed.shown self.old.values.manager) section) (D.opened dev.old) (D.opened dev.new) }
        ensures idle { position < run.marker (run_of I.place self.old) section
            → dev.new ≡ dev.old }
        ensures faults { D.faults dev.old ≤ D.faults dev.new }
        ensures cause { OnErr result (HasFailed result (D.faults dev.old) (D.faults dev.new)) }
    {
        let is_good = self.is_good(dev, section, position, location)?;
        let (offset, size) = location;
        // A place that passes the greatest u64 is one below the marker, and not the last one there.
        let end = offset.saturating_add(u64::from(size));
        self.ends.note(section, position, end, is_good)?;
        Ok(is_good)
    }

    // Whether the record at this position stands below its section's marker, where no value is read, or
    // its value is sound.
    fn is_good<D: Device>(
        &self,
        dev: &mut D,
        section: u64,
        position: u64,
        location: (u64, u32),
    ) -> Result<bool, Error>
        requires values { IsGlob
            ⟦<WriteBlob as SectionBuffer>⟧ ⟦<WriteFactory as BufferFactory>⟧.gives D.Tells
            (managed.shown self.now.values.manager) (D.opened dev.old) (disk (D.time dev.old)) }
        requires floor { (managed.shown self.now.values.manager).floor ≡ 0 }
        ensures good { D.Tells → IfOk result (λ r. IsTrue r
            ↔ ((position < run.marker (run_of I.place self.now) section)
            ⊎ IsTrue (is_sound S.seal_of (glob.section_bytes (run_of I.place self.now).values
            (disk (D.time dev.old)) section) location))) }
        ensures high { result ≡ Ok false
            → run.marker (run_of I.place self.now) section ≤ position }
        ensures glob { IsGlob
            ⟦<WriteBlob as SectionBuffer>⟧ ⟦<WriteFactory as BufferFactory>⟧.gives D.Tells
            (managed.shown self.now.values.manager) (D.opened dev.new) (disk (D.time dev.new)) }
        ensures unchanged { D.Tells → Unchanged (D.time dev.old) (D.time dev.new) }
        ensures read { ReadsAtMost 1 (key_of (managed.shown self.now.values.manager) section)
            (D.opened dev.old) (D.opened dev.new) }
        ensures idle { position < run.marker (run_of I.place self.now) section
            → dev.new ≡ dev.old }
        ensures faults { D.faults dev.old ≤ D.faults dev.new }
        ensures cause { OnErr result (HasFailed result (D.faults dev.old) (D.faults dev.new)) }
    {
        if position < self.tracking.marker(section) {
            return Ok(true);
        }
        let (offset, size) = location;
        self.values.verify(dev, section, offset, size)
    }

    /// Gives the pair back, over which the replay went.
    ///
    /// It answers `ReplayFailed` where a record is left, an error was given, or the replay is that of an opening by markers.
    pub fn finish(self) -> Result<Oversized<I, V, S>, Error>
        // The pair may be used again, over whatever device: its lists are those of the replay, and it is sound if that was.
        ensures back { IfOk result (λ r. GivesBack (run_of I.place self) (shown I.place r)) }
        ensures lists { (d : Disk) (s : ℕ) → IfOk result (λ r. list_of (shown I.place r) d s ≡ list_of (pair_of (run_of I.place self)) d s) }
        ensures sound { (d : Disk) → IsSoundOn (pair_of (run_of I.place self)) d → IfOk result (λ r. IsSoundOn (shown I.place r) d) }
        ensures codec_config { IfOk result (λ r. r.values.codec_config ≡ self.values.codec_config) }
        ensures replay_failed { (result ≡ Err Error.ReplayFailed) ↔ (((run_of I.place self).tracked ≡ true) ⊎ (run.HasFailed (run_of I.place self) ⊎ (IsDrained (run_of I.place self).walk → ⊥))) }
        ensures cause { OnErr result (result ≡ Err Error.ReplayFailed) }
    {
        if self.is_tracked || self.has_failed {
            return Err(Error::ReplayFailed);
        }
        let Replay {
            alloc,
            index,
            values,
            tracking,
            ..
        } = self;
        let index = index.finish()?;
        Ok(Oversized {
            alloc,
            index,
            values: Glob::from(values),
            tracking,
        })
    }
}
