// The steps of a scenario.
ghost use Rattle.std.specs.Prelude.{IfOk};
ghost use Rattle.record_tables_tests.specs.Told.{AreTold};

use crate::both::{Answer, Both};
use crate::mixed::mixed;
use crate::said::{judged, listed, paired};
use crate::words::{Command, command_of};
use ordinal_store::RMapError;
use scenario_text::{Report, Step};
use std::alloc::{AllocError, Global};

/// Carries out the steps of a scenario.
pub fn run(alloc: Global, steps: &[Step], report: &mut Report) -> Result<(), AllocError> {
    let mut both = Both::new(alloc);
    for step in steps {
        let said = match command_of(step) {
            Ok(command) => {
                let said = told(alloc, &both, command)?;
                both = changed(both, command)?;
                said
            }
            Err(refusal) => String::from_str(alloc, refusal.text())?,
        };
        report.compare(step, said.as_str())?;
    }
    Ok(())
}

// Makes the change that is asked for, if it is one.
fn changed(both: Both, command: Command) -> Result<Both, AllocError>
    requires { AreTold both }
    ensures { IfOk result (λ next. AreTold next) }
{
    match command {
        Command::Put(place, key) => both.put(place, key),
        Command::Prune(bound) => {
            let mut both = both;
            both.prune(bound);
            Ok(both)
        }
        _ => Ok(both),
    }
}

// What is said of a command, before a change is made.
fn told(alloc: Global, both: &Both, command: Command) -> Result<String, AllocError>
    requires { AreTold both.now }
{
    match command {
        Command::Put(place, _) => {
            let Answer { said, same } = both.has_room(place.section);
            let word = if said { "ok" } else { "full" };
            judged(alloc, same, String::from_str(alloc, word)?)
        }
        Command::Prune(_) => String::from_str(alloc, "ok"),
        Command::First(at) => {
            let Answer { said, same } = both.first(at)?;
            judged(alloc, same, listed(alloc, said.as_slice())?)
        }
        Command::All(at) => {
            let Answer { said, same } = both.all(at)?;
            judged(alloc, same, listed(alloc, said.as_slice())?)
        }
        Command::Key(key) => {
            let Answer { said, same } = both.places(key)?;
            judged(alloc, same, paired(alloc, said.as_slice(), ":")?)
        }
        Command::Handles(key) => paired(alloc, both.handles(key)?.as_slice(), "/"),
        Command::Indices => told_indices(alloc, both),
        Command::Mixed { seed, count } => told_mixed(alloc, seed, count),
    }
}

// The runs of all indices. A set fails only for memory.
fn told_indices(alloc: Global, both: &Both) -> Result<String, AllocError>
    requires { AreTold both.now }
{
    match both.indices() {
        Ok(Answer { said, same }) => judged(alloc, same, paired(alloc, said.as_slice(), "..")?),
        Err(_) => Err(AllocError),
    }
}

// Whether all answers were alike, or after which change one was not.
fn told_mixed(alloc: Global, seed: u64, count: u64) -> Result<String, AllocError> {
    match mixed(alloc, seed, count) {
        Ok(None) => String::from_str(alloc, "ok"),
        Ok(Some(number)) => format!(in alloc; "not alike after change {number}"),
        Err(_) => Err(AllocError),
    }
}
