// Trials: what is begun again and again, with another call that fails or after which the power goes.
use crate::plan::Plan;
use crate::stop::{Stop, ok};
use std::alloc::Global;

/// How many calls on the files a trial may make.
const MOST_CALLS: u64 = 4096;

/// What came of a trial.
#[derive(Drop)]
pub struct Tried {
    /// How many calls on the files it made.
    pub calls: u64,
    /// Whether the call that fails alone was one that changes names or a length.
    pub has_failed_to_change: bool,
    /// What is wrong with what it left; nothing where all is well.
    pub wrong: String,
}

/// What can be begun again and again, over copies of a disk.
pub trait Trial {
    /// Carries it out over a copy of the disk, and judges what power cuts leave then.
    fn tried(&self, plan: Plan) -> Result<Tried, Stop>;
}

/// Which call it is that the trial is begun again for.
#[derive(Clone, Copy)]
pub enum Each {
    /// Each call fails alone. One that changes names or a length does so both not done and done.
    Fails,
    /// The power goes after each call.
    Stops,
    /// No call fails, and the power goes at the end.
    Whole,
}

impl Each {
    // What is tried of the call of this number.
    fn plan(&self, nth: u64) -> Plan {
        match self {
            Each::Fails => Plan::Fails(nth),
            Each::Stops => Plan::Stops(nth),
            Each::Whole => Plan::Whole,
        }
    }
}

/// Tries it for each call, until the trial comes to its end before that call.
pub fn each_call(
    alloc: Global,
    trial: &impl Trial,
    each: Each,
    least: u64,
) -> Result<String, Stop> {
    for nth in 0..MOST_CALLS {
        let mut plan = each.plan(nth);
        let mut tried = trial.tried(plan)?;
        if tried.wrong.is_empty() && tried.has_failed_to_change {
            plan = Plan::DoneAndFails(nth);
            tried = trial.tried(plan)?;
        }
        if !tried.wrong.is_empty() {
            let (word, wrong) = (plan.word(), tried.wrong.as_str());
            return Ok(format!(in alloc; "file call {nth} {word}: {wrong}")?);
        }
        if plan.is_reached(tried.calls) {
            continue;
        }
        if tried.calls >= least {
            return ok(alloc);
        }
        let calls = tried.calls;
        return Ok(format!(in alloc; "there are only {calls} file calls")?);
    }
    Err(Stop::Said("there are too many file calls"))
}
