// The words of a step.
ghost use Rattle.std.specs.Prelude.{◌≤◌, ℕ, IfOk, IsSome};
ghost use Rattle.std.specs.BTreeMap.{get};
ghost use Rattle.std.specs.Ordering.{nat_cmp};

use scenario_text::Step;
use segments::journal::Error;
use std::alloc::Global;
use std::collections::BTreeMap;

/// What the words of a step spell that takes memory. It is read before anything is done.
#[derive(Drop)]
pub struct Told {
    /// Its numbers, in their order.
    pub numbers: Vec<u64>,
    /// Its pairs of a section and a number.
    pub pairs: BTreeMap<u64, u64>,
    /// The bytes behind its first two words.
    pub bytes: Vec<u8>,
}

/// Reads the words.
pub fn read_words(alloc: Global, step: &Step) -> Result<Told, Error> {
    let mut numbers = Vec::new(alloc);
    for word in step.rest() {
        if let Ok(number) = word.as_str().parse::<u64>() {
            numbers.push(number)?;
        }
    }
    let pairs = pairs(alloc, step, u64::MAX)?;
    let bytes = step.bytes(alloc, 1)?.unwrap_or(Vec::new(alloc));
    Ok(Told {
        numbers,
        pairs,
        bytes,
    })
}

/// The number at this place behind the first word; 0 where none stands there.
pub fn number(step: &Step, at: usize) -> u64 {
    step.number(at).unwrap_or(0)
}

/// The pairs of a section and a number, but for those of a section above the ceiling.
pub fn pairs(alloc: Global, step: &Step, ceiling: u64) -> Result<BTreeMap<u64, u64>, Error>
    ensures { IfOk result (λ r. (s : ℕ) → IsSome (get nat_cmp r s) → s ≤ ceiling) }
{
    let mut pairs = BTreeMap::new(alloc);
    for word in step.rest() {
        let Some((first, second)) = word.as_str().split_once(':') else {
            continue;
        };
        match (first.parse::<u64>(), second.parse::<u64>()) {
            (Ok(section), Ok(count)) if section <= ceiling => {
                pairs.insert(section, count)?;
            }
            _ => {}
        }
    }
    Ok(pairs)
}
