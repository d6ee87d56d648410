// Puts and prunes by chance, and all answers after each.
ghost use Rattle.record_tables_tests.specs.Told.{AreTold};

use crate::both::Both;
use crate::words::Place;
use ordinal_store::RMapError;
use rand::RngExt;
use rand::rngs::SmallRng;
use rand_core::SeedableRng;
use std::alloc::Global;

/// How many indices a section has room for.
const ITEMS: u64 = 8;

/// How many indices are asked for from the bound of the last prune on.
const SPAN: u64 = 10 * ITEMS;

/// How many words there are.
const WORDS: u64 = 4;

/// What is done next.
#[derive(Clone, Copy)]
enum Change {
    /// The bound of prunes goes up by so much.
    Prune(u64),
    /// A record is put, so far behind that bound.
    Put(u64, u64),
}

/// Makes so many changes to tables that are empty at first, and asks all after each. The number of the first change
/// after which an answer was not the plain lists' one, if there is such a change.
pub fn mixed(alloc: Global, seed: u64, count: u64) -> Result<Option<u64>, RMapError> {
    let mut chance = SmallRng::seed_from_u64(seed);
    let mut both = Both::new(alloc);
    let mut floor: u64 = 0;
    for number in 0..count {
        match next_change(&mut chance) {
            Change::Prune(more) => {
                floor = floor.saturating_add(more);
                both.prune(floor);
            }
            Change::Put(behind, key) => {
                both = both.put(place_of(floor.saturating_add(behind)), key)?;
            }
        }
        if !are_alike(&both, floor)? {
            return Ok(Some(number));
        }
    }
    Ok(None)
}

// One change of sixteen is a prune, of no section, of one or of two.
fn next_change(chance: &mut SmallRng) -> Change {
    if chance.random_range(0..16) == 0 {
        return Change::Prune(ITEMS * chance.random_range(0..3));
    }
    Change::Put(chance.random_range(0..SPAN), chance.random_range(0..8))
}

// An index, in the section to which it belongs.
fn place_of(index: u64) -> Place {
    Place {
        section: index - index % ITEMS,
        index,
    }
}

// Whether the tables answer as the plain lists: of each index from the section before a bound on, and of each word.
fn are_alike(both: &Both, floor: u64) -> Result<bool, RMapError>
    requires { AreTold both.now }
{
    for index in floor.saturating_sub(ITEMS)..floor.saturating_add(SPAN) {
        if !are_alike_at(both, place_of(index))? {
            return Ok(false);
        }
    }
    for key in 0..WORDS {
        if !both.places(key)?.same {
            return Ok(false);
        }
    }
    Ok(both.indices()?.same)
}

// Whether they do of an index, and of the room in its section.
fn are_alike_at(both: &Both, at: Place) -> Result<bool, RMapError>
    requires { AreTold both.now }
{
    Ok(both.has_room(at.section).same && both.first(at)?.same && both.all(at)?.same)
}
