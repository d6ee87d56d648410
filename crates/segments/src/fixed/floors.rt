// How many bytes of each section a marker vouches for.
ghost use Rattle.std.specs.Prelude.{◌≡◌, ◌≢◌, ◌<◌, ◌≤◌, min, ℕ};
ghost use Rattle.segments.specs.FixedLists.{floor_in};

use std::collections::BTreeMap;

/// The section's floor, 0 where it has none.
pub(super) fn floor_at(floors: &BTreeMap<u64, u64>, section: u64) -> u64
    ensures { result ≡ floor_in floors.now section }
{
    floors.get(&section).copied().unwrap_or(0)
}

/// Drops the floors of the sections below `min`.
pub(super) fn lift_below(floors: &mut BTreeMap<u64, u64>, min: u64)
    ensures below { (s : ℕ) → s < min → floor_in floors.new s ≡ 0 }
    ensures others { (s : ℕ) → min ≤ s → floor_in floors.new s ≡ floor_in floors.old s }
{
    floors.retain(|section, _| min <= *section);
}

/// Drops the floors of the sections behind this one.
pub(super) fn lift_after(floors: &mut BTreeMap<u64, u64>, section: u64)
    ensures later { (s : ℕ) → section < s → floor_in floors.new s ≡ 0 }
    ensures others { (s : ℕ) → s ≤ section → floor_in floors.new s ≡ floor_in floors.old s }
{
    floors.retain(|number, _| *number <= section);
}

/// Lowers the section's floor to `size`, if it is higher.
pub(super) fn lower_to(floors: &mut BTreeMap<u64, u64>, section: u64, size: u64)
    ensures here { floor_in floors.new section ≡ min (floor_in floors.old section) size }
    ensures others { (q : ℕ) → q ≢ section → floor_in floors.new q ≡ floor_in floors.old q }
{
    if size == 0 {
        floors.remove(&section);
        return;
    }
    if let Some(floor) = floors.get_mut(&section) {
        *floor = size.min(*floor);
    }
}
