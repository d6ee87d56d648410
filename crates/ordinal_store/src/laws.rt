// Laws of the store of slots and of sets of numbers, as the crates above cite them.
ghost use Rattle.std.specs.Prelude.{◌≡◌, ℕ, List, Option, Some, None, Result, IfOk, OnErr, if◌then◌else◌};
ghost use Rattle.blob_device.specs.Disk.{Disk, Image, IsCrashOf, Key};
ghost use Rattle.blob_device.specs.Opened.{OpenedList};
ghost use Rattle.ordinal_store.specs.Calls.{HasFailed, MayOpen, Opening, as_read, marking_of};
ghost use Rattle.ordinal_store.specs.Durable.{IsDurable};
ghost use Rattle.ordinal_store.specs.Marking.{AreWhole, Marking, is_wanted};
ghost use Rattle.ordinal_store.specs.Numbers.{IsSameSet, Set};
ghost use Rattle.ordinal_store.specs.SetLaws.{HaveOneAnswer};
ghost use Rattle.ordinal_store.specs.Shown.{shown};
ghost use Rattle.ordinal_store.specs.Slots.{HoldsSlot, Layout, position_of, section_of};
ghost use Rattle.ordinal_store.specs.Stores.{IsUsable, Sight, Store, now, slots_of};
ghost use Rattle.ordinal_store.specs.declared.ordinal.Error.{Error};
ghost use Rattle.ordinal_store.specs.declared.store.Ordinal.{Ordinal};

use crate::ordinal::Ordinal;
use blob_device::Device;
use value_codec::{CodecFixed, Seal};

/// Every crash leaves the slots that are durable, each with its bytes.
pub fn crash_law()
    ensures { (l : Layout) (d : Disk) (i : ℕ) (slot : List ℕ) → IsDurable l d i slot → (image : Image)
        → IsCrashOf d image → HoldsSlot l image i slot }
{}

/// An opening over an image that a crash left holds the durable slots that its map names, each with its bytes, and of all other indices none.
///
/// `d` is the disk at the moment of the crash, and `old` what the device shows on which the image is opened.
pub fn outlasting_law<A: CodecFixed, S: Seal, D: Device>()
    ensures { (l : Layout) (map : Option Marking) (capacity : ℕ) (result : Result (Ordinal A S) Error)
        (old new : Sight) (d : Disk) (image : Image)
        → D.Tells → Opening l map (shown A.SIZE S.seal_of A.refusal) D.Tells capacity result old new
        → IsCrashOf d image → ((q : Key) → as_read (now old) q ≡ image q)
        → IfOk result (λ r. (j : ℕ) (slot : List ℕ) → IsDurable l d j slot
        → slots_of (shown A.SIZE S.seal_of A.refusal r) (now new) j
        ≡ (if is_wanted l.items (marking_of map (section_of l j)) (position_of l j)
        then Some slot else None)) }
{}

/// An opening by a map whose sections are all whole in the image answers no refusal: it fails only with the device, or for want of memory.
pub fn answer_law<A: CodecFixed, S: Seal, D: Device>()
    ensures { (l : Layout) (map : Option Marking) (capacity : ℕ) (result : Result (Ordinal A S) Error)
        (old new : Sight)
        → D.Tells → Opening l map (shown A.SIZE S.seal_of A.refusal) D.Tells capacity result old new
        → MayOpen l map (as_read (now old)) → AreWhole l (marking_of map) (as_read (now old))
        → OnErr result (HasFailed result old new) }
{}

/// A store depends on its own partition alone: calls on other partitions leave it usable.
pub fn frame_law<D: Device>()
    ensures { (o : Store) (a b : OpenedList) (d e : Disk)
        → ((q : Key) → q.0 ≡ o.layout.partition → b q ≡ a q)
        → (D.Tells → (q : Key) → q.0 ≡ o.layout.partition → e q ≡ d q)
        → IsUsable o D.Tells a d → IsUsable o D.Tells b e }
{}

/// What a set is asked has one answer, and sets with the same members have the same. It does nothing.
pub fn one_answer()
    ensures { (s t : Set) → IsSameSet s t → HaveOneAnswer s t }
{}
