// A glob before it is used: what a crash left of its sections is checked, and cut.
ghost use Rattle.std.specs.Prelude.{◌≡◌, ◌≢◌, ◌↔◌, ◌⊎◌, ◌≤◌, ◌<◌, ◌-◌, ◌^◌, ℕ, List, Some, Ok, Err, false, take, length, IfOk, OnOk, OnErr, IsSome, IsSomeAnd, IsTrue, string_bytes};
ghost use Rattle.std.specs.Result.{IsErrOf};
ghost use Rattle.std.specs.List.{Contains};
ghost use Rattle.std.specs.List.Sorted.{IsStrictlySortedBy};
ghost use Rattle.std.specs.Ordering.{nat_cmp};
ghost use Rattle.std.specs.BTreeMap.{get};
ghost use Rattle.blob_device.specs.Disk.{Key, nothing};
ghost use Rattle.blob_device.specs.Timeline.{disk, Always, Each};
ghost use Rattle.sealed_pages.specs.Entries.{ReadsAtMost};
ghost use Rattle.sealed_pages.specs.Reading.{Unchanged};
ghost use Rattle.section_manager.specs.Entries.{StartsNoRead};
ghost use Rattle.section_manager.specs.Sections.{section_key, key_of, IsHeld};
ghost use Rattle.section_manager.specs.Lasting.{IsSettling};
ghost use Rattle.section_manager.specs.Refusing.{HasFailed, IsPruned, IsForeign};
ghost use Rattle.paired.specs.Frames.{IsSealed};
ghost use Rattle.paired.specs.glob.Reading.{IsInside};
ghost use Rattle.paired.specs.Records.{is_sound};

use super::framing::spelled;
use super::reading::{check_range, read_frame};
use super::{Config, Glob};
use blob_device::Device;
use sealed_pages::WriteBlob;
use segments::journal::Error;
use segments::{BufferFactory, Manager, ManagerConfig, SectionBuffer, SectionIter, WriteFactory};
use std::alloc::Global;
use std::collections::BTreeMap;
use std::marker::PhantomData;
use value_codec::{Codec, Seal};

/// A glob under recovery. It takes no value; its frames are checked and its sections cut, until it becomes a
/// [`Glob`].
///
/// Calls that take it by value give it up where they refuse; its blobs are then opened again by an
/// [`init`](Recovery::init).
#[derive(Drop)]
pub struct Recovery<V: Codec, S: Seal> {
    /// Where memory for frames comes from.
    alloc: Global,
    /// The sections, each in a buffer without seals (`IsGlob`).
    manager: Manager<WriteFactory>,
    /// What the codec of the values asks for. Nothing is decoded before the glob is made.
    codec_config: V::Cfg,
    /// The kind of seal; no data.
    seal: PhantomData<S>,
}

impl<V: Codec, S: Seal> From<Recovery<V, S>> for Glob<V, S> {
    ghost from_gives = { λ r g. (g.manager ≡ r.manager) × (g.codec_config ≡ r.codec_config) };

    fn from(recovery: Recovery<V, S>) -> Self {
        let Recovery {
            alloc,
            manager,
            codec_config,
            seal,
        } = recovery;
        Glob {
            alloc,
            manager,
            codec_config,
            seal,
        }
    }
}

impl<V: Codec, S: Seal> Recovery<V, S> {
    /// The glob, whose frames are only read and checked from here on.
    pub(crate) fn of(glob: Glob<V, S>) -> Self
        ensures manager { result.manager ≡ glob.manager }
        ensures codec_config { result.codec_config ≡ glob.codec_config }
    {
        let Glob {
            alloc,
            manager,
            codec_config,
            seal,
        } = glob;
        Recovery {
            alloc,
            manager,
            codec_config,
            seal,
        }
    }

    ghost use Rattle.section_manager.specs.managing.Managed.{shown};
    ghost use Rattle.paired.specs.glob.Sections.{IsGlob, section_bytes, section_size, HasSettled, IsAllSettled};
    ghost use Rattle.paired.specs.glob.Shown.{shown_recovery, IsGlobOn};
    ghost use Rattle.paired.specs.glob.Cuts.{TruncatesGlob, CutsSection, CutsSections};

    /// Opens the sections of the partition up to this one. The later ones are not held, until a [`truncate`](Recovery::truncate), a
    /// [`prune`](Glob::prune) or a [`destroy`](Glob::destroy) removes them.
    ///
    /// It refuses a blob with a name that is no section's, before it changes anything.
    pub fn init<D: Device>(
        alloc: Global,
        dev: &mut D,
        cfg: &Config<V::Cfg>,
        ceiling: u64,
    ) -> Result<Self, Error>
        ensures over { IfOk result (λ r. IsGlob ⟦<WriteBlob as SectionBuffer>⟧ ⟦<WriteFactory as BufferFactory>⟧.gives D.Tells (shown r.manager) (D.opened dev.new) (disk (D.time dev.new))) }
        ensures held { D.Tells → IfOk result (λ r. (s : ℕ) → s < 2 ^ 64 → IsHeld (shown r.manager) s ↔ (IsTrue (disk (D.time dev.old) (section_key (string_bytes cfg.now.partition) s)).there × (s ≤ ceiling))) }
        ensures unopened { D.Tells → IfOk result (λ r. (s : ℕ) → s < 2 ^ 64 → IsSome ((shown r.manager).unopened s) ↔ (IsTrue (disk (D.time dev.old) (section_key (string_bytes cfg.now.partition) s)).there × (ceiling < s))) }
        // What is known and not held stands above the bound, also where the disk is not told.
        ensures later { IfOk result (λ r. (s : ℕ) → IsSome ((shown r.manager).unopened s) → ceiling < s) }
        // A section's bytes are those of its blob, and all of them have settled.
        ensures bytes { D.Tells → IfOk result (λ r. (s : ℕ) → IsHeld (shown r.manager) s
            → section_bytes (shown r.manager) (disk (D.time dev.new)) s ≡ (disk (D.time dev.old) (section_key (string_bytes cfg.now.partition) s)).content) }
        ensures settled { D.Tells → IfOk result (λ r. (s : ℕ) → IsHeld (shown r.manager) s → HasSettled (shown r.manager) (disk (D.time dev.new)) s) }
        ensures all_settled { IfOk result (λ r. (s : ℕ) → IsHeld (shown r.manager) s → IsAllSettled (shown r.manager) s) }
        ensures partition { IfOk result (λ r. (shown r.manager).partition ≡ string_bytes cfg.now.partition) }
        ensures capacity { IfOk result (λ r. (shown r.manager).factory.capacity ≡ cfg.now.write_buffer) }
        ensures codec_config { IfOk result (λ r. r.codec_config ≡ cfg.now.codec_config) }
        ensures floor { IfOk result (λ r. (shown r.manager).floor ≡ 0) }
        ensures ceiling { IfOk result (λ r. (shown r.manager).ceiling ≡ ceiling) }
        // At every moment, also where the call fails, each blob of a section up to the bound is as before, or settled as it read.
        ensures moments { D.Tells → Always (D.time dev.old) (D.time dev.new) (Each (IsSettling (string_bytes cfg.now.partition) ceiling (disk (D.time dev.old)))) }
        // A name that is no section's is refused, also above the bound, and then nothing was changed or opened.
        ensures foreign { D.Tells → (name : List ℕ) → IsForeign (disk (D.time dev.old)) (string_bytes cfg.now.partition) name → OnOk result ⊥ }
        ensures foreign_disk { D.Tells → (name : List ℕ) → IsForeign (disk (D.time dev.old)) (string_bytes cfg.now.partition) name → Unchanged (D.time dev.old) (D.time dev.new) }
        ensures foreign_entries { D.Tells → (name : List ℕ) → IsForeign (disk (D.time dev.old)) (string_bytes cfg.now.partition) name → D.opened dev.new ≡ D.opened dev.old }
        ensures name { (n : List ℕ) → result ≡ Err (Error.InvalidBlobName n) → length n ≢ 8 }
        ensures name_entries { (n : List ℕ) → result ≡ Err (Error.InvalidBlobName n) → D.opened dev.new ≡ D.opened dev.old }
        ensures named { D.Tells → (n : List ℕ) → result ≡ Err (Error.InvalidBlobName n) → IsForeign (disk (D.time dev.old)) (string_bytes cfg.now.partition) n }
        ensures entries { (q : Key) → ((s : ℕ) → s ≤ ceiling → q ≢ section_key (string_bytes cfg.now.partition) s) → D.opened dev.new q ≡ D.opened dev.old q }
        ensures reads { StartsNoRead (D.opened dev.old) (D.opened dev.new) }
        ensures faults { D.faults dev.old ≤ D.faults dev.new }
        ensures cause { OnErr result (((n : List ℕ) × IsErrOf result (Error.InvalidBlobName n)) ⊎ HasFailed result (D.faults dev.old) (D.faults dev.new)) }
    {
        let config = ManagerConfig {
            partition: cfg.partition.clone()?,
            factory: WriteFactory {
                capacity: cfg.write_buffer,
            },
        };
        Ok(Recovery {
            alloc,
            manager: Manager::init_bounded(alloc, dev, config, ceiling)?,
            codec_config: cfg.codec_config,
            seal: PhantomData,
        })
    }

    /// The bound of the opening, until it is lifted, and `u64::MAX` from there on.
    pub fn ceiling(&self) -> u64
        ensures { result ≡ (shown self.now.manager).ceiling }
    {
        self.manager.ceiling()
    }

    /// How many bytes the section has; 0 where it is not held. It takes no memory.
    pub fn size(&self, section: u64) -> Result<u64, Error>
        ensures size { IfOk result (λ n. n ≡ section_size (shown self.now.manager) section) }
        ensures guard { IsPruned result (shown self.now.manager).floor ↔ (section < (shown self.now.manager).floor) }
        ensures cause { OnErr result (IsPruned result (shown self.now.manager).floor) }
    {
        self.manager.size(section)
    }

    /// The held sections, ascending.
    pub fn sections(&self) -> SectionIter<'_>
        ensures ascending { IsStrictlySortedBy nat_cmp result }
        ensures each { (s : ℕ) → Contains result s ↔ IsHeld (shown self.now.manager) s }
    {
        self.manager.sections()
    }

    /// Whether a frame of this size stands at a place of the section: whether the range is inside it, and the seal holds. Nothing is
    /// decoded. It reads the device at most once; a device that fails is an error, and never `false`.
    pub fn verify<D: Device>(
        &self,
        dev: &mut D,
        section: u64,
        offset: u64,
        size: u32,
    ) -> Result<bool, Error>
        requires { IsGlob ⟦<WriteBlob as SectionBuffer>⟧ ⟦<WriteFactory as BufferFactory>⟧.gives D.Tells (shown self.now.manager) (D.opened dev.old) (disk (D.time dev.old)) }
        ensures sealed { D.Tells → IfOk result (λ r. IsTrue r ↔ IsSealed S.seal_of (section_bytes (shown self.now.manager) (disk (D.time dev.old)) section) offset size) }
        // It is as sound as the test of a record's value says.
        ensures sound { D.Tells → IfOk result (λ r. IsTrue r ↔ IsTrue (is_sound S.seal_of (section_bytes (shown self.now.manager) (disk (D.time dev.old)) section) (offset, size))) }
        // What is not inside is not sealed, and takes no call of the device.
        ensures outside { (shown self.now.manager).floor ≤ section → (IsSomeAnd ((shown self.now.manager).held section) (λ u. IsInside u offset size) → ⊥) → result ≡ Ok false }
        ensures idle { (IsSomeAnd ((shown self.now.manager).held section) (λ u. IsInside u offset size) → ⊥) → dev.new ≡ dev.old }
        ensures over { IsGlob ⟦<WriteBlob as SectionBuffer>⟧ ⟦<WriteFactory as BufferFactory>⟧.gives D.Tells (shown self.now.manager) (D.opened dev.new) (disk (D.time dev.new)) }
        ensures unchanged { D.Tells → Unchanged (D.time dev.old) (D.time dev.new) }
        ensures reads { ReadsAtMost 1 (key_of (shown self.now.manager) section) (D.opened dev.old) (D.opened dev.new) }
        ensures guard { IsPruned result (shown self.now.manager).floor ↔ (section < (shown self.now.manager).floor) }
        ensures faults { D.faults dev.old ≤ D.faults dev.new }
        ensures cause { OnErr result (IsPruned result (shown self.now.manager).floor ⊎ HasFailed result (D.faults dev.old) (D.faults dev.new)) }
    {
        let Some(buffer) = self.manager.get(section)? else {
            return Ok(false);
        };
        if check_range(buffer, offset, size).is_err() {
            return Ok(false);
        }
        let bytes = read_frame(self.alloc, dev, buffer, offset, size)?;
        Ok(spelled::<S>(bytes.as_slice()).is_ok())
    }

    /// Removes the later sections, the newest first, and then shortens this one to `size` bytes, if it is held and longer. A shorter
    /// length is durable when this returns. The ceiling is lifted.
    pub fn truncate<D: Device>(self, dev: &mut D, section: u64, size: u64) -> Result<Self, Error>
        requires over { IsGlobOn D.Device (shown self.manager) dev.old }
        requires ceiling { section ≤ (shown self.manager).ceiling }
        ensures { TruncatesGlob D.Device (shown_recovery self) dev.old dev.new shown_recovery section size
            result }
    {
        let mut this = self;
        // The manager removes the later sections first: none outlasts the cut of one before it.
        this.manager = this.manager.truncate_pending(dev, section, size)?;
        Ok(this)
    }

    /// Shortens this section to `size` bytes, if it is held and longer. A shorter length is durable when this returns.
    pub fn truncate_section<D: Device>(
        self,
        dev: &mut D,
        section: u64,
        size: u64,
    ) -> Result<Self, Error>
        requires over { IsGlobOn D.Device (shown self.manager) dev.old }
        ensures { CutsSection D.Device (shown_recovery self) dev.old dev.new shown_recovery section size
            result }
    {
        let mut this = self;
        // Durable when it returns, so that frames may be written there again.
        this.manager = this.manager.truncate_pending_section(dev, section, size)?;
        Ok(this)
    }

    /// Shortens each of these sections to its size, if it is held and longer. A shorter length is durable when this returns. All are
    /// checked before one is cut.
    pub fn truncate_sections<D: Device>(
        self,
        dev: &mut D,
        sizes: &BTreeMap<u64, u64>,
    ) -> Result<Self, Error>
        requires over { IsGlobOn D.Device (shown self.manager) dev.old }
        ensures { CutsSections D.Device (shown_recovery self) dev.old dev.new shown_recovery
            (get nat_cmp sizes.now) result }
    {
        let mut this = self;
        // In one call, which checks all sections before one is cut.
        this.manager = this.manager.truncate_pending_sections(dev, sizes)?;
        Ok(this)
    }
}
