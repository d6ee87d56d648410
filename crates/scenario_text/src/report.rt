// What went wrong in a scenario.
ghost use Rattle.std.specs.Prelude.{◌≡◌, ◌↔◌, IsNone, IsSome, IsTrue, OnOk, string_bytes};

use crate::Step;
use std::alloc::{AllocError, Global};

/// What went wrong first in a scenario, if anything did.
#[derive(Debug, Drop)]
pub struct Report {
    // for the text of a failure
    alloc: Global,
    /// The line, and what is wrong there.
    pub failure: Option<String>,
}

impl Report {
    /// Nothing went wrong so far.
    pub fn new(alloc: Global) -> Report
        ensures { IsNone result.failure }
    {
        Report {
            alloc,
            failure: None,
        }
    }

    /// Whether nothing went wrong.
    pub fn is_well(&self) -> bool
        ensures { IsTrue result ↔ IsNone self.now.failure }
    {
        self.failure.is_none()
    }

    /// Notes that something is wrong at a line. What went wrong before is kept in its place.
    pub fn fail(&mut self, line: u64, why: &str) -> Result<(), AllocError>
        ensures { OnOk result (IsSome self.new.failure) }
    {
        if self.failure.is_none() {
            self.failure = Some(format!(in self.alloc; "line {line}: {why}")?);
        }
        Ok(())
    }

    /// Notes a failure where the step did not say what it must.
    pub fn compare(&mut self, step: &Step, said: &str) -> Result<(), AllocError>
        ensures well { OnOk result (string_bytes step.now.wanted ≡ said.now → self.new.failure ≡ self.old.failure) }
        ensures wrong { OnOk result (IsNone self.new.failure → string_bytes step.now.wanted ≡ said.now) }
    {
        if step.wanted.as_str() == said {
            return Ok(());
        }
        let word = step.word();
        let wanted = step.wanted.as_str();
        let why = format!(in self.alloc; "{word} said \"{said}\", and not \"{wanted}\"")?;
        self.fail(step.line, why.as_str())
    }
}
