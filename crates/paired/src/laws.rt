// What a crash leaves of a section's records, from what it leaves of its two blobs.
ghost use Rattle.std.specs.Prelude.{◌≡◌, ◌≤◌, ◌%◌, ◌*◌, ℕ, List, length, map, take, IsTrue};
ghost use Rattle.std.specs.List.{AllByRecursion};
ghost use Rattle.sealed_pages.specs.SealedPrefix.{sealed_prefix, Prefix};
ghost use Rattle.section_manager.specs.Prefixes.{IsPrefixOf};
ghost use Rattle.paired.specs.Records.{records, entries_of, is_sound, unbroken_prefix, entry_of};
ghost use Rattle.paired.specs.Places.{Follow, end_of};
ghost use Rattle.blob_device.specs.Disk.{AbsentIsNothing, Disk, Key, NothingPending};
ghost use Rattle.paired.specs.Crashes.{IsPrefix, Leaves, WasThere};
ghost use Rattle.paired.specs.Holding.{AreGood, Facts, Holding, list_in};
ghost use Rattle.paired.specs.Kept.{Layout, Markers};
ghost use Rattle.paired.specs.Opening.{as_read, APrefix, IsLawful, KeepsAll, KeepsAllBy, MayBeOpened, Recalls, RecallsBy, UpTo};

/// Where a crash leaves a prefix of the index bytes that holds `synced` records, and of the values those that had settled, what is
/// kept is a prefix of the list with the synced records. It does nothing.
pub fn kept_laws()
    ensures { (seal : List ℕ → ℕ) (P size : ℕ) (place : List ℕ → ℕ × ℕ) (index values : List ℕ) (synced least settled marker : ℕ) (ci cv : List ℕ) (contents : List (List ℕ))
        → 1 ≤ size → length index % size ≡ 0 → synced * size ≤ least → marker ≤ synced
        → Follow place 0 (records size index) (length values)
        → AllByRecursion (λ r. IsTrue (is_sound seal values (place r))) (records size index)
        → end_of place 0 (take synced (records size index)) ≤ settled
        → Prefix seal P index least ci
        → IsPrefixOf (take settled values) cv
        → AllByRecursion (λ c. IsPrefixOf c values) contents
        → AllByRecursion (λ r. IsTrue (is_sound seal cv (place r)) → WasThere contents cv (place r)) (records size (sealed_prefix seal P ci))
        → IsPrefix (entries_of place size index values) synced (map (entry_of place cv) (unbroken_prefix (λ r. is_sound seal cv (place r)) marker 0 (records size (sealed_prefix seal P ci))))
        × ((marker ≤ length (records size (sealed_prefix seal P ci)))
        × (AllByRecursion (λ r. IsTrue (is_sound seal cv (place r))) (take marker (records size (sealed_prefix seal P ci)))
        × (records size (sealed_prefix seal P ci) ≡ take (length (records size (sealed_prefix seal P ci))) (records size index)))) }
{}

/// How a pair is stored, and which of its sections may be gone.
pub trait Stored {
    /// How it is stored.
    ghost layout: { Layout };

    /// The section may be gone.
    ghost IsGoing: { ℕ → Type 0 };
}

/// Where what is known of the sections is good, and the blobs stand so, each crash leaves of every section a prefix of its list that holds
/// what was synced, or nothing of one that may be gone; and the markers are true. It does nothing.
pub fn holding_laws<P: Stored>()
    ensures { (facts : ℕ → Facts) (one other : Markers) (d : Disk)
        → 1 ≤ P.layout.record_size → ((s : ℕ) → AreGood P.layout (facts s)) → Holding P.layout facts P.IsGoing one other d
        → Leaves P.layout (λ s. list_in P.layout (facts s)) (λ s. (facts s).synced) P.IsGoing d }
{}

/// What the promises of an opening say of a disk with nothing pending. It may be opened, where a blob that is not there is nothing, as the
/// device's law has it. Each image that recalls it keeps just what it keeps, if it is lawful. And what two calls promise one after the
/// other, both together promise. It does nothing.
pub fn opening_laws<P: Stored>()
    ensures pending { (d : Disk) → NothingPending d → ((k : Key) → AbsentIsNothing (d k)) → MayBeOpened P.layout d }
    ensures keeps { (from d : Disk) (markers : Markers) → NothingPending from → IsLawful P.layout (as_read from) markers → Recalls P.layout from d → KeepsAll P.layout (as_read from) markers d }
    ensures one_after_another { (a b c : Disk) → Recalls P.layout a b → Recalls P.layout b c → Recalls P.layout a c }
    // So it is of calls that keep the first of what was kept, and of calls that keep it up to a checkpoint; each that keeps all keeps so much.
    ensures first_after_another { (a b c : Disk) → RecallsBy P.layout APrefix a b → RecallsBy P.layout APrefix b c → RecallsBy P.layout APrefix a c }
    ensures up_to_after_another { (section least : ℕ) (a b c : Disk) → RecallsBy P.layout (UpTo section least) a b → RecallsBy P.layout (UpTo section least) b c → RecallsBy P.layout (UpTo section least) a c }
    ensures first_of_all { (a b : Disk) → Recalls P.layout a b → RecallsBy P.layout APrefix a b }
    ensures up_to_of_all { (section least : ℕ) (a b : Disk) → Recalls P.layout a b → RecallsBy P.layout (UpTo section least) a b }
    ensures keeps_first { (from d : Disk) (markers : Markers) → NothingPending from → IsLawful P.layout (as_read from) markers → RecallsBy P.layout APrefix from d → KeepsAllBy P.layout APrefix (as_read from) markers d }
    ensures keeps_up_to { (section least : ℕ) (from d : Disk) (markers : Markers) → NothingPending from → IsLawful P.layout (as_read from) markers → RecallsBy P.layout (UpTo section least) from d → KeepsAllBy P.layout (UpTo section least) (as_read from) markers d }
{}
