// What a journal says of itself and of its items.
ghost use Rattle.std.specs.Prelude.{◌≤◌, length};
ghost use Rattle.std.specs.List.Sorted.{IsStrictlySortedBy};
ghost use Rattle.std.specs.Ordering.{nat_cmp};
ghost use Rattle.segments_tests.specs.declared.store.Store.TheVariants.{Items};
ghost use Rattle.segments_tests.specs.Stores.{IsOpen};

use crate::journals::Lows;
use crate::said::{Part, Said};
use crate::words::number;
use blob_device::Memory;
use scenario_text::Step;
use segments::SectionIter;
use segments::journal::Error;
use std::alloc::Global;

/// Asks the journal without its device.
pub fn ask(alloc: Global, journal: &Lows, step: &Step) -> Result<Said, Error> {
    let section = number(step, 0);
    match step.word() {
        "len" => Ok(Said::Number(journal.section_len(section)?)),
        "size" => Ok(Said::Number(journal.size(section)?)),
        "full" => Ok(Said::Truth(journal.is_full(section)?)),
        "floor" => Ok(Said::Number(journal.floor_of(section))),
        "recovered" => Ok(Said::Truth(journal.is_recovered(section))),
        "pruned" => Ok(Said::Truth(journal.pruned(section))),
        "guard" => {
            journal.prune_guard(section)?;
            Ok(Said::Done)
        }
        "held" => match journal.try_get_sync(section, number(step, 1))? {
            Some(item) => Ok(Said::Number(item.number)),
            None => Ok(Said::Maybe(None)),
        },
        "oldest" => Ok(Said::Maybe(journal.oldest_section())),
        "newest" => Ok(Said::Maybe(journal.newest_section())),
        "sections" => Ok(listed(alloc, journal.sections())),
        _ => Ok(Said::Text("no such command")),
    }
}

/// These sections.
pub fn listed(alloc: Global, sections: SectionIter<'_>) -> Said {
    let mut row = Vec::new(alloc);
    for section in sections {
        let _ = row.push(Part::Number(section));
    }
    Said::Row(row)
}

/// Reads items.
pub fn read(alloc: Global, journal: &Lows, dev: &mut Memory, step: &Step) -> Result<Said, Error>
    requires { IsOpen dev.old (Items journal.now) }
    ensures { IsOpen dev.new (Items journal.now) }
{
    let section = number(step, 0);
    match step.word() {
        "get" => {
            let item = journal.get(dev, section, number(step, 1))?;
            Ok(Said::Number(item.number))
        }
        "last" => match journal.last(dev, section)? {
            Some(item) => Ok(Said::Number(item.number)),
            None => Ok(Said::Maybe(None)),
        },
        _ => match (step.number(1), step.number(2), step.number(3)) {
            (Some(a), Some(b), Some(c)) if a < b && b < c => {
                read_many(alloc, journal, dev, section, &[a, b, c])
            }
            (Some(a), Some(b), None) if a < b => read_many(alloc, journal, dev, section, &[a, b]),
            _ => read_many(alloc, journal, dev, section, &[]),
        },
    }
}

// Reads items at these positions, and says how many of them were held.
fn read_many(
    alloc: Global,
    journal: &Lows,
    dev: &mut Memory,
    section: u64,
    positions: &[u64],
) -> Result<Said, Error>
    requires over { IsOpen dev.old (Items journal.now) }
    requires ascending { IsStrictlySortedBy nat_cmp positions.now }
    requires few { length positions.now ≤ 3 }
    ensures { IsOpen dev.new (Items journal.now) }
{
    let mut buf = [0; 24];
    let mut row = Vec::new(alloc);
    let (items, held) = journal.get_many(dev, section, positions, &mut buf)?;
    for item in items.as_slice() {
        let _ = row.push(Part::Number(item.number));
    }
    let _ = row.push(Part::Text("held"));
    let _ = row.push(Part::Number(held as u64));
    Ok(Said::Row(row))
}
