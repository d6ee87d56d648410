// Commands over a replay of a pair.
ghost use Rattle.std.specs.Prelude.{IfOk};
ghost use Rattle.paired_tests.specs.Stores.{IsOpen};
ghost use Rattle.paired_tests.specs.declared.store.Store.TheVariants.{Walk};

use crate::said::{Item, Said};
use crate::store::{Replayed, Store};
use blob_device::Memory;
use segments::journal::Error;
use std::alloc::Global;

/// Goes over so many answers of a replay, as far as there are.
pub fn go_over(
    alloc: Global,
    walk: &mut Replayed,
    dev: &mut Memory,
    count: u64,
) -> Result<Said, Error>
    requires { IsOpen dev.old (Walk walk.old) }
    ensures { IsOpen dev.new (Walk walk.new) }
{
    let mut items = Vec::new(alloc);
    'answers: for _ in 0..count {
        match walk.next(dev) {
            Some(Ok((section, at, note))) => items.push(Item::Record(section, at, note.number))?,
            Some(Err(error)) => items.push(Item::Failure(error))?,
            None => return Ok(Said::Items(items)),
        }
    }
    Ok(Said::Items(items))
}

/// How many records those answers give, or the first error among them.
pub fn counted(given: Result<Said, Error>) -> Result<u64, Error> {
    let mut count = 0_u64;
    if let Said::Items(items) = given? {
        for item in items {
            if let Item::Failure(error) = item {
                return Err(error);
            }
            count = count.saturating_add(1);
        }
    }
    Ok(count)
}

/// The pair over which the replay went, as it was.
pub fn finished(walk: Replayed, dev: &Memory) -> Result<(Store, Said), Error>
    requires { IsOpen dev.now (Walk walk) }
    ensures { IfOk result (λ r. IsOpen dev.now r.0) }
{
    let pair = walk.finish()?;
    Ok((Store::Pair(pair), Said::Done))
}
