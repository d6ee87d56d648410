// Opening a glob.
ghost use Rattle.std.specs.Prelude.{◌≡◌, ◌≢◌, ◌↔◌, ◌⊎◌, ◌≤◌, ◌<◌, ◌-◌, ◌^◌, ℕ, List, None, Err, length, IfOk, OnOk, OnErr, IsTrue, string_bytes};
ghost use Rattle.std.specs.Result.{IsErrOf};
ghost use Rattle.blob_device.specs.Disk.{Key};
ghost use Rattle.blob_device.specs.Timeline.{disk, Always, Each};
ghost use Rattle.sealed_pages.specs.Reading.{Unchanged};
ghost use Rattle.section_manager.specs.Entries.{StartsNoRead};
ghost use Rattle.section_manager.specs.Sections.{section_key, IsHeld};
ghost use Rattle.section_manager.specs.Lasting.{IsSettling};
ghost use Rattle.section_manager.specs.Refusing.{HasFailed, IsForeign};

use super::{Config, Glob, Recovery};
use blob_device::Device;
use sealed_pages::WriteBlob;
use segments::journal::Error;
use segments::{BufferFactory, SectionBuffer, WriteFactory};
use std::alloc::Global;
use value_codec::{Codec, Seal};

impl<V: Codec, S: Seal> Glob<V, S> {
    ghost use Rattle.section_manager.specs.managing.Managed.{shown};
    ghost use Rattle.paired.specs.glob.Sections.{IsGlob, section_bytes, HasSettled, IsAllSettled};

    /// Opens the sections of the partition.
    ///
    /// It refuses a blob with a name that is no section's, before it changes anything.
    pub fn init<D: Device>(alloc: Global, dev: &mut D, cfg: &Config<V::Cfg>) -> Result<Self, Error>
        ensures over { IfOk result (λ r. IsGlob ⟦<WriteBlob as SectionBuffer>⟧ ⟦<WriteFactory as BufferFactory>⟧.gives D.Tells (shown r.manager) (D.opened dev.new) (disk (D.time dev.new))) }
        ensures held { D.Tells → IfOk result (λ r. (s : ℕ) → s < 2 ^ 64 → IsHeld (shown r.manager) s ↔ IsTrue (disk (D.time dev.old) (section_key (string_bytes cfg.now.partition) s)).there) }
        ensures unopened { D.Tells → IfOk result (λ r. (s : ℕ) → (shown r.manager).unopened s ≡ None) }
        // A section's bytes are those of its blob, and all of them have settled.
        ensures bytes { D.Tells → IfOk result (λ r. (s : ℕ) → IsHeld (shown r.manager) s
            → section_bytes (shown r.manager) (disk (D.time dev.new)) s ≡ (disk (D.time dev.old) (section_key (string_bytes cfg.now.partition) s)).content) }
        ensures settled { D.Tells → IfOk result (λ r. (s : ℕ) → IsHeld (shown r.manager) s → HasSettled (shown r.manager) (disk (D.time dev.new)) s) }
        ensures all_settled { IfOk result (λ r. (s : ℕ) → IsHeld (shown r.manager) s → IsAllSettled (shown r.manager) s) }
        ensures partition { IfOk result (λ r. (shown r.manager).partition ≡ string_bytes cfg.now.partition) }
        ensures capacity { IfOk result (λ r. (shown r.manager).factory.capacity ≡ cfg.now.write_buffer) }
        ensures codec_config { IfOk result (λ r. r.codec_config ≡ cfg.now.codec_config) }
        ensures floor { IfOk result (λ r. (shown r.manager).floor ≡ 0) }
        ensures ceiling { IfOk result (λ r. (shown r.manager).ceiling ≡ 2 ^ 64 - 1) }
        // At every moment, also where the call fails, each blob of the partition is as before, or settled as it read.
        ensures moments { D.Tells → Always (D.time dev.old) (D.time dev.new) (Each (IsSettling (string_bytes cfg.now.partition) (2 ^ 64 - 1) (disk (D.time dev.old)))) }
        // A name that is no section's is refused, and then nothing was changed or opened.
        ensures foreign { D.Tells → (name : List ℕ) → IsForeign (disk (D.time dev.old)) (string_bytes cfg.now.partition) name → OnOk result ⊥ }
        ensures foreign_disk { D.Tells → (name : List ℕ) → IsForeign (disk (D.time dev.old)) (string_bytes cfg.now.partition) name → Unchanged (D.time dev.old) (D.time dev.new) }
        ensures foreign_entries { D.Tells → (name : List ℕ) → IsForeign (disk (D.time dev.old)) (string_bytes cfg.now.partition) name → D.opened dev.new ≡ D.opened dev.old }
        ensures name { (n : List ℕ) → result ≡ Err (Error.InvalidBlobName n) → length n ≢ 8 }
        ensures name_entries { (n : List ℕ) → result ≡ Err (Error.InvalidBlobName n) → D.opened dev.new ≡ D.opened dev.old }
        ensures named { D.Tells → (n : List ℕ) → result ≡ Err (Error.InvalidBlobName n) → IsForeign (disk (D.time dev.old)) (string_bytes cfg.now.partition) n }
        ensures entries { (q : Key) → ((s : ℕ) → s ≤ 2 ^ 64 - 1 → q ≢ section_key (string_bytes cfg.now.partition) s) → D.opened dev.new q ≡ D.opened dev.old q }
        ensures reads { StartsNoRead (D.opened dev.old) (D.opened dev.new) }
        ensures faults { D.faults dev.old ≤ D.faults dev.new }
        ensures cause { OnErr result (((n : List ℕ) × IsErrOf result (Error.InvalidBlobName n)) ⊎ HasFailed result (D.faults dev.old) (D.faults dev.new)) }
    {
        let recovery = Recovery::init(alloc, dev, cfg, u64::MAX)?;
        Ok(Glob::from(recovery))
    }
}
