// Which of two copies holds the map, and which one is written next.
ghost use Rattle.std.specs.Prelude.{◌≡◌};
ghost use Rattle.meta_store.specs.Pairs.{chosen_of, newer_of};

use crate::copy::Contents;
use crate::{CopyEntries, CopyText, Side};
use std::alloc::Global;

/// The map that two copies hold.
#[derive(Drop)]
pub struct Chosen<K, V> {
    /// The greater version, or 0 where there is no copy.
    pub version: u64,
    /// The side of the older or absent copy; the left one where both are absent.
    pub older: Side,
    /// What the newer copy holds; no entries and floor 0 where there is no copy.
    pub contents: Contents<K, V>,
}

/// The newer of two copies, or the side that is refused: one that is no text of a map, the left one first, or the right
/// one where both have one version.
pub fn choose<K: Drop, V: Drop>(
    alloc: Global,
    left: CopyText<K, V>,
    right: CopyText<K, V>,
) -> Result<Chosen<K, V>, Side>
    ensures { result ≡ chosen_of left right }
{
    match (left, right) {
        (CopyText::Refused { .. }, _) => Err(Side::Left),
        (_, CopyText::Refused { .. }) => Err(Side::Right),
        (CopyText::Absent, CopyText::Absent) => Ok(held_by(
            0,
            Side::Left,
            Contents {
                floor: 0,
                entries: CopyEntries::from_vec(Vec::new(alloc)),
            },
        )),
        (
            CopyText::Whole {
                version,
                floor,
                entries,
            },
            CopyText::Absent,
        ) => Ok(held_by(version, Side::Right, Contents { floor, entries })),
        (
            CopyText::Absent,
            CopyText::Whole {
                version,
                floor,
                entries,
            },
        ) => Ok(held_by(version, Side::Left, Contents { floor, entries })),
        (
            CopyText::Whole {
                version,
                floor,
                entries,
            },
            CopyText::Whole {
                version: other_version,
                floor: other_floor,
                entries: others,
            },
        ) => newer(
            version,
            Contents { floor, entries },
            other_version,
            Contents {
                floor: other_floor,
                entries: others,
            },
        ),
    }
}

/// What one copy holds, or none does.
fn held_by<K, V>(version: u64, older: Side, contents: Contents<K, V>) -> Chosen<K, V>
    ensures { result ≡ record { version = version; older = older; contents = contents } }
{
    Chosen {
        version,
        older,
        contents,
    }
}

/// The newer of two whole copies.
fn newer<K: Drop, V: Drop>(
    left: u64,
    left_contents: Contents<K, V>,
    right: u64,
    right_contents: Contents<K, V>,
) -> Result<Chosen<K, V>, Side>
    ensures { result ≡ newer_of left left_contents right right_contents }
{
    if left == right {
        return Err(Side::Right);
    }
    if left < right {
        return Ok(held_by(right, Side::Left, right_contents));
    }
    Ok(held_by(left, Side::Right, left_contents))
}
