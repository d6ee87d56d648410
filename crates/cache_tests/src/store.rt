// What is open, and the steps over it.
ghost use Rattle.std.specs.Prelude.{IfOk};
ghost use Rattle.cache_tests.specs.Stores.{IsOpen};

use crate::caches::Bytes;
use crate::{caches, plainly};
use blob_device::Memory;
use scenario_runs::{Opened, Said, Told};
use scenario_text::Step;
use segments::journal::Error;
use std::alloc::Global;

/// What is open.
#[derive(Drop)]
pub enum Store {
    Closed,
    /// A cache of values that have at most so many bytes.
    Values(Bytes, u32),
}

impl Opened for Store {
    ghost is_open = { IsOpen };

    fn closed(_dev: &Memory) -> Store {
        Store::Closed
    }

    fn obey(
        self,
        alloc: Global,
        dev: &mut Memory,
        step: &Step,
        told: &Told,
    ) -> (Store, Result<Said, Error>) {
        match step.word() {
            "entries" => (self, plainly::entries(alloc, dev, step, told)),
            "valid" => (self, caches::is_valid(alloc, step)),
            "cache" => or_closed(caches::open(alloc, dev, step), dev),
            _ => match self {
                Store::Values(cache, most) => caches::obey(alloc, (cache, most), dev, step, told),
                Store::Closed => (Store::Closed, Ok(Said::Text("closed"))),
            },
        }
    }
}

/// Nothing is open after a refusal.
pub fn or_closed(done: Result<(Store, Said), Error>, dev: &Memory) -> (Store, Result<Said, Error>)
    requires { IfOk done (λ r. IsOpen dev.now r.0) }
    ensures { IsOpen dev.now result.0 }
{
    match done {
        Ok((store, said)) => (store, Ok(said)),
        Err(error) => (Store::Closed, Err(error)),
    }
}
