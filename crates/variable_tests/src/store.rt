// What is open, and the steps over it.
ghost use Rattle.std.specs.Prelude.{IfOk};
ghost use Rattle.variable_tests.specs.Stores.{IsOpen};

use crate::journals::Frames;
use crate::{journals, plainly, replays};
use blob_device::Memory;
use scenario_runs::{Opened, Said, Told};
use scenario_text::Step;
use segments::journal::Error;
use std::alloc::Global;

/// What is open.
#[derive(Drop)]
pub enum Store {
    Closed,
    Frames(Frames),
}

impl Opened for Store {
    ghost is_open = { IsOpen };

    fn closed(_dev: &Memory) -> Store {
        Store::Closed
    }

    fn obey(
        self,
        alloc: Global,
        dev: &mut Memory,
        step: &Step,
        told: &Told,
    ) -> (Store, Result<Said, Error>) {
        match step.word() {
            "kept" => (self, plainly::kept(alloc, dev, step, told)),
            "frames" => (self, plainly::frames(alloc, step)),
            "valid" => (self, journals::is_valid(alloc, step)),
            "open" => or_closed(journals::open(alloc, dev, step), dev),
            "open-at-most" => or_closed(journals::open_at_most(alloc, dev, step), dev),
            "replay-at" => or_closed(replays::replay_at(alloc, dev, step), dev),
            _ => match self {
                Store::Frames(journal) => journals::obey(alloc, journal, dev, step, told),
                Store::Closed => (Store::Closed, Ok(Said::Text("closed"))),
            },
        }
    }
}

/// Nothing is open after a refusal.
pub fn or_closed(done: Result<(Store, Said), Error>, dev: &Memory) -> (Store, Result<Said, Error>)
    requires { IfOk done (λ r. IsOpen dev.now r.0) }
    ensures { IsOpen dev.now result.0 }
{
    match done {
        Ok((store, said)) => (store, Ok(said)),
        Err(error) => (Store::Closed, Err(error)),
    }
}
