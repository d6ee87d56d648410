// Replays of a journal.
ghost use Rattle.std.specs.Prelude.{IfOk};
ghost use Rattle.blob_device.specs.MemoryMeaning.{memory_opened, memory_time};
ghost use Rattle.blob_device.specs.Timeline.{disk};
ghost use Rattle.segments.specs.FixedLists.{IsJournal};
ghost use Rattle.segments.specs.FixedReplay.{IsWalk};
ghost use Rattle.segments.specs.FixedShown.{shown};
ghost use Rattle.segments.specs.FixedWalking.{walk_of};
ghost use Rattle.segments_tests.specs.Stores.{IsOpen};

use crate::items::Low;
use crate::journals::Lows;
use crate::said::{Part, Said};
use crate::store::Store;
use crate::words::number;
use blob_device::Memory;
use scenario_text::Step;
use sealed_pages::PageBlob;
use segments::fixed::Replay;
use segments::journal::Error;
use segments::{AppendFactory, BufferFactory, SectionBuffer};
use std::alloc::Global;
use value_codec::{Seal, Sha256Seal};

/// How many answers of a replay are taken at most.
const MOST: u64 = 64;

/// What an answer ends with that is wrong whatever the device does.
pub const WRONG: &str = "WRONG";

/// A replay of a journal of numbers.
pub type Walk = Replay<Low, Sha256Seal>;

/// What a replay gave, how many errors that were, and whether it came to its end.
#[derive(Drop)]
struct Given {
    // What it answered, in order.
    row: Vec<Part>,
    // How many of these were errors.
    errors: u64,
    // Whether it answered that there is no more.
    has_ended: bool,
}

/// Goes over the items from a position of a section on, in pieces of so many bytes, as far as so
/// many answers where the step says how many. Then it gives the journal back.
pub fn replay(
    alloc: Global,
    journal: Lows,
    dev: &mut Memory,
    step: &Step,
) -> Result<(Store, Said), Error>
    requires { IsOpen dev.old (Store.Items journal) }
    ensures { IfOk result (λ r. IsOpen dev.new r.0) }
{
    let piece = number(step, 2) as usize;
    let walk = journal.replay(dev, number(step, 0), number(step, 1), piece)?;
    let mut given = Given {
        row: Vec::new(alloc),
        errors: 0,
        has_ended: false,
    };
    let walk = drained(walk, dev, step.number(3).unwrap_or(MOST), &mut given);
    match finished(walk, dev) {
        Ok(journal) => Ok((Store::Items(journal), said_of(given, None))),
        Err(error) => Ok((Store::Closed, said_of(given, Some(error)))),
    }
}

// What a replay says in all. It is wrong that a journal is given where there was an error. It is
// wrong too that none is given where there was no error and the replay came to its end.
fn said_of(given: Given, refused: Option<Error>) -> Said {
    let is_wrong = match refused {
        Some(_) => given.errors == 0 && given.has_ended,
        None => given.errors > 0,
    };
    let end = match refused {
        _ if is_wrong => Part::Text(WRONG),
        Some(error) => Part::Refused(error),
        None => Part::Text("done"),
    };
    let mut row = given.row;
    let _ = row.push(end);
    Said::Row(row)
}

// Goes over what is left of a replay, as far as so many answers.
fn drained(walk: Walk, dev: &mut Memory, most: u64, given: &mut Given) -> Walk
    requires { IsWalk ⟦<PageBlob<Sha256Seal> as SectionBuffer>⟧ ⟦<AppendFactory<Sha256Seal> as BufferFactory>⟧.gives ⟦<Sha256Seal as Seal>⟧.seal_of 8 (Unit {0}) (walk_of walk) (memory_opened dev.old) (disk (memory_time dev.old)) }
    ensures { IsWalk ⟦<PageBlob<Sha256Seal> as SectionBuffer>⟧ ⟦<AppendFactory<Sha256Seal> as BufferFactory>⟧.gives ⟦<Sha256Seal as Seal>⟧.seal_of 8 (Unit {0}) (walk_of result) (memory_opened dev.new) (disk (memory_time dev.new)) }
{
    let mut walk = walk;
    'answers: for _ in 0..most {
        match walk.next(dev) {
            Some(Ok((section, position, item))) => {
                let _ = given.row.push(Part::Item(section, position, item.number));
            }
            Some(Err(error)) => {
                given.errors = given.errors.saturating_add(1);
                let _ = given.row.push(Part::Given(error));
            }
            None => {
                given.has_ended = true;
                return walk;
            }
        }
    }
    walk
}

/// Gives the journal back.
pub fn finished(walk: Walk, _dev: &Memory) -> Result<Lows, Error>
    requires { IsWalk ⟦<PageBlob<Sha256Seal> as SectionBuffer>⟧ ⟦<AppendFactory<Sha256Seal> as BufferFactory>⟧.gives ⟦<Sha256Seal as Seal>⟧.seal_of 8 (Unit {0}) (walk_of walk) (memory_opened _dev.now) (disk (memory_time _dev.now)) }
    ensures { IfOk result (λ r. IsJournal ⟦<PageBlob<Sha256Seal> as SectionBuffer>⟧ ⟦<AppendFactory<Sha256Seal> as BufferFactory>⟧.gives ⟦<Sha256Seal as Seal>⟧.seal_of 8 (Unit {0}) (shown r) (memory_opened _dev.now) (disk (memory_time _dev.now))) }
{
    let journal = walk.finish()?;
    Ok(journal)
}
