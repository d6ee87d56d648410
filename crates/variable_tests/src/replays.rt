// Replays of a journal of frames.
ghost use Rattle.std.specs.Prelude.{IfOk};
ghost use Rattle.variable_tests.specs.Stores.{IsGoing, IsOpen};

use crate::journals::{Frames, config};
use crate::starts::may_begin;
use crate::store::Store;
use blob_device::Memory;
use scenario_runs::{Part, Said, WRONG, number, spelled};
use scenario_text::Step;
use segments::journal::Error;
use std::alloc::{AllocError, Global};
use value_codec::{ByteValue, Sha256Seal};
use variable_journal::{Journal, Replay};

/// How many answers of a replay are taken at most.
const MOST: u64 = 64;

/// A replay of a journal of bytes.
type Walk = Replay<ByteValue, Sha256Seal>;

/// What a replay gave, how many errors that were, and whether it came to its end.
#[derive(Drop)]
struct Given {
    // What it answered, in order.
    row: Vec<Part>,
    // How many of these were errors.
    errors: u64,
    // Whether it answered that there is no more.
    has_ended: bool,
}

impl Given {
    // Takes an answer of the replay, or that there is no more.
    fn note(&mut self, answer: Option<Result<Part, Error>>) -> Result<(), AllocError> {
        match answer {
            Some(Ok(part)) => self.row.push(part)?,
            Some(Err(error)) => {
                self.errors = self.errors.saturating_add(1);
                self.row.push(Part::Given(error))?;
            }
            None => self.has_ended = true,
        }
        Ok(())
    }
}

/// Goes over the items from the start of a section on, in pieces of so many bytes, as far as so many
/// answers where the step says how many. Then it gives the journal back.
pub fn replay(
    alloc: Global,
    journal: Frames,
    dev: &mut Memory,
    step: &Step,
) -> Result<(Store, Said), Error>
    requires { IsOpen dev.old (Store.Frames journal) }
    ensures { IfOk result (λ r. IsOpen dev.new r.0) }
{
    let walk = journal.replay(dev, number(step, 0), 0, number(step, 1) as usize)?;
    gone_over(alloc, walk, dev, step.number(2).unwrap_or(MOST))
}

/// Opens a journal, and goes over the items from an offset of a section on. An offset where no item
/// begins or ends is not gone on from.
pub fn replay_at(alloc: Global, dev: &mut Memory, step: &Step) -> Result<(Store, Said), Error>
    ensures { IfOk result (λ r. IsOpen dev.new r.0) }
{
    let cfg = config(alloc, step)?;
    let journal = Journal::init(alloc, dev, &cfg)?;
    let (section, offset) = (number(step, 4), number(step, 5));
    if !may_begin(alloc, &journal, dev, &cfg, (section, offset))? {
        return Ok((Store::Frames(journal), Said::Text("no item begins there")));
    }
    let walk = journal.replay(dev, section, offset, number(step, 6) as usize)?;
    gone_over(alloc, walk, dev, MOST)
}

// Goes over what is left of a replay, as far as so many answers, and gives the journal back.
fn gone_over(alloc: Global, walk: Walk, dev: &mut Memory, most: u64) -> Result<(Store, Said), Error>
    requires { IsGoing dev.old walk }
    ensures { IfOk result (λ r. IsOpen dev.new r.0) }
{
    let mut given = Given {
        row: Vec::new(alloc),
        errors: 0,
        has_ended: false,
    };
    let walk = drained(alloc, walk, dev, most, &mut given);
    match finished(walk, dev) {
        Ok(journal) => Ok((Store::Frames(journal), said_of(given, None)?)),
        Err(error) => Ok((Store::Closed, said_of(given, Some(error))?)),
    }
}

// What a replay says in all. It is wrong that a journal is given where there was an error. It is
// wrong too that none is given where there was no error and the replay came to its end.
fn said_of(given: Given, refused: Option<Error>) -> Result<Said, Error> {
    let is_wrong = match refused {
        Some(_) => given.errors == 0 && given.has_ended,
        None => given.errors > 0,
    };
    let end = match refused {
        _ if is_wrong => Part::Text(WRONG),
        Some(error) => Part::Refused(error),
        None => Part::Text("done"),
    };
    let mut row = given.row;
    row.push(end)?;
    Ok(Said::Row(row))
}

// Goes over what is left of a replay, as far as so many answers.
fn drained(alloc: Global, walk: Walk, dev: &mut Memory, most: u64, given: &mut Given) -> Walk
    requires { IsGoing dev.old walk }
    ensures { IsGoing dev.new result }
{
    let mut walk = walk;
    'answers: for _ in 0..most {
        let answer = next_part(alloc, &mut walk, dev);
        if given.note(answer).is_err() || given.has_ended {
            return walk;
        }
    }
    walk
}

// The next answer of a replay: an item as a row has it, or an error.
fn next_part(alloc: Global, walk: &mut Walk, dev: &mut Memory) -> Option<Result<Part, Error>>
    requires { IsGoing dev.old walk.old }
    ensures { IsGoing dev.new walk.new }
{
    match walk.next(dev) {
        Some(Ok((section, offset, size, item))) => {
            let part = part_of(alloc, section, offset, size, item.as_bytes());
            Some(Ok(part))
        }
        Some(Err(error)) => Some(Err(error)),
        None => None,
    }
}

// An item as a row has it. It is wrong that its length is not the one that was said.
fn part_of(alloc: Global, section: u64, offset: u64, size: u32, bytes: &[u8]) -> Part {
    if bytes.len() != size as usize {
        return Part::Text(WRONG);
    }
    match spelled(alloc, bytes) {
        Ok(item) => Part::Item(section, offset, item),
        Err(error) => Part::Given(error),
    }
}

// Gives the journal back.
fn finished(walk: Walk, _dev: &Memory) -> Result<Frames, Error>
    requires { IsGoing _dev.now walk }
    ensures { IfOk result (λ r. IsOpen _dev.now (Store.Frames r)) }
{
    let journal = walk.finish()?;
    Ok(journal)
}
