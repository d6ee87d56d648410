// What the calls leave of a section off which they take nothing.
ghost use Rattle.std.specs.Prelude.{◌≢◌, ◌<◌, ℕ, List, Option};
ghost use Rattle.blob_device.specs.Disk.{Key};
ghost use Rattle.blob_device.specs.Timeline.{Always, Each, Timeline, disk};
ghost use Rattle.sealed_pages.specs.Buffer.{Buffer};
ghost use Rattle.sealed_pages.specs.Shown as pages;
ghost use Rattle.sealed_pages.specs.declared.page_blob.PageBlob.{PageBlob};
ghost use Rattle.section_manager.specs.Lasting.{IsSettling, Removing};
ghost use Rattle.section_manager.specs.Sections.{IsKeyOf};
ghost use Rattle.section_manager.specs.declared.sealed.AppendFactory.{AppendFactory};
ghost use Rattle.segments.specs.FixedBounds.{Bounding, CuttingTail};
ghost use Rattle.segments.specs.FixedLasting.{Settling};
ghost use Rattle.segments.specs.FixedLists.{Lists};
ghost use Rattle.segments.specs.FixedRemoving.{IsOlder};
ghost use Rattle.segments.specs.FixedReplay.{Replaying, Walk};
ghost use Rattle.segments.specs.FixedResting.{BoundSpares, CutsNothing, IsDoomedBy, IsNamedBy, IsOnOne, IsOtherOrAt, KeepsPromise, TailSpares};

use value_codec::{CodecFixed, Seal};

/// At every moment of a call, also where it fails, a blob off which the call takes nothing keeps what its
/// buffer promised when the call began (`Promises`). Of a sealed one each crash leaves a prefix of its bytes,
/// no shorter than what had settled; of any other its whole sealed prefix.
///
/// So it is in a call on one blob, for each other one (`others`). In a sync it is so for each section, named
/// or not (`syncs`), and in an opening for each blob (`opens`). In an opening up to a byte it is so for each
/// section of which all that is sealed is kept (`bounds`). A removal spares each section that stays
/// (`removes`). A cut of all behind a byte spares each section before, and the section itself where nothing of
/// it stands behind (`tails`). A replay spares each section that is not cut, also where its bytes are gone
/// over, or where it is refused below its floor (`replays`).
pub fn rest_laws<A: CodecFixed, S: Seal>()
    ensures others { (u : Buffer) (key q : Key) (old new : Timeline)
        → IsOnOne S.seal_of key old new → q ≢ key → u.from < u.page_size
        → KeepsPromise S.seal_of u q old new }
    ensures syncs { (j : Lists (AppendFactory S) (PageBlob S S.Seal)) (names : Option (List ℕ))
        (u : PageBlob S S.Seal) (q : Key) (old new : Timeline)
        → Always old new (Each (Settling S.seal_of j (IsNamedBy names) (disk old)))
        → IsOtherOrAt j.sections (IsNamedBy names) q u → (pages.shown u).from < u.page_size
        → KeepsPromise S.seal_of (pages.shown u) q old new }
    ensures opens { (partition : List ℕ) (most : ℕ) (u : Buffer) (q : Key) (old new : Timeline)
        → Always old new (Each (IsSettling partition most (disk old))) → u.from < u.page_size
        → KeepsPromise S.seal_of u q old new }
    ensures bounds { (partition : List ℕ) (last end : ℕ) (u : Buffer) (q : Key)
        (old new : Timeline)
        → Always old new (Bounding S.seal_of u.page_size A.SIZE partition last end (disk old))
        → BoundSpares S.seal_of u.page_size A.SIZE partition last end (disk old) q
        → u.from < u.page_size → KeepsPromise S.seal_of u q old new }
    ensures removes { (j : Lists (AppendFactory S) (PageBlob S S.Seal)) (below : Option ℕ)
        (u : Buffer) (q : Key) (old new : Timeline)
        → Always old new (Removing j.sections (IsDoomedBy j below) IsOlder (disk old))
        → (IsKeyOf j.sections (IsDoomedBy j below) q → ⊥) → u.from < u.page_size
        → KeepsPromise S.seal_of u q old new }
    ensures tails { (j : Lists (AppendFactory S) (PageBlob S S.Seal)) (section n : ℕ)
        (u : Buffer) (q : Key) (old new : Timeline)
        → Always old new (CuttingTail S.seal_of j section n (disk old))
        → TailSpares j section n q → u.from < u.page_size
        → KeepsPromise S.seal_of u q old new }
    ensures replays { (w : Walk (AppendFactory S) (PageBlob S S.Seal)) (u : PageBlob S S.Seal)
        (q : Key) (old new : Timeline)
        → Always old new (Each (Replaying S.seal_of A.SIZE w (disk old)))
        → CutsNothing S.seal_of A.SIZE w (disk old) q u → (pages.shown u).from < u.page_size
        → KeepsPromise S.seal_of (pages.shown u) q old new }
{}
