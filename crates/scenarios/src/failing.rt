// Runs in which one call of the device fails, and when their commands began.
use crate::judge::judge_over;
use crate::outcome::Outcome;
use crate::owed::course_of;
use crate::runs::verdict;
use crate::stop::{Stop, ok};
use crate::trial::{MOST_CALLS, Trial};
use archives::Error;
use blob_device::{Device, RError};
use segments::journal;

/// Each call fails alone, until a run has no failure. It stops the run, and what is left keeps what is owed.
pub fn each_call_fails(trial: &Trial<'_>, least: u64) -> Result<String, Stop> {
    let alloc = trial.alloc;
    let whole = trial.run(&mut trial.device()?, trial.script)?;
    let course = course_of(trial)?;
    for nth in 0..MOST_CALLS {
        let mut dev = trial.device()?;
        dev.fail_at(nth)?;
        let failed = trial.run(&mut dev, trial.script)?;
        if dev.faults() == 0 {
            if failed.is_same(&whole) && dev.calls() == nth && nth >= least {
                return ok(alloc);
            }
            return Ok(format!(in alloc;
                "without a failure there are {nth} calls, or it ends otherwise"
            )?);
        }
        if dev.faults() != 1 || !is_stopped(nth, &whole, &failed) {
            let said = verdict(alloc, &failed, &[])?;
            return Ok(format!(in alloc; "call {nth} fails: {said}")?);
        }
        let owed = course.owed(trial, &failed)?;
        let image = dev.image(alloc)?;
        let wrong = judge_over(trial, &course, image, &mut dev)?.against(&owed);
        if !wrong.is_empty() {
            return Ok(format!(in alloc; "call {nth} fails: {wrong}")?);
        }
    }
    Err(Stop::Said("the run has too many calls"))
}

// Whether the run was that of the whole one up to this call, which failed: all commands were begun whose marks were reached, all of
// these but the last have their replies, and the last line is that of a fault.
fn is_stopped(nth: u64, whole: &Outcome, failed: &Outcome) -> bool {
    let marks = whole.ended.marks.as_slice();
    let mut begun = 0_usize;
    for mark in marks {
        if *mark <= nth {
            begun = begun.saturating_add(1);
        }
    }
    let replied = begun.saturating_sub(1);
    for (line, reply) in failed
        .written
        .lines()
        .take(replied)
        .zip(whole.written.lines())
    {
        if line != reply {
            return false;
        }
    }
    let last = failed.written.lines().last().unwrap_or("");
    let is_fault = match &failed.ended.error {
        Some(Error::Journal(journal::Error::Runtime(RError::Fault))) => true,
        Some(Error::Metadata(meta_store::Error::Runtime(RError::Fault))) => true,
        _ => false,
    };
    is_fault
        && failed.ended.status == 5
        && Some(failed.ended.marks.as_slice()) == marks.get(..begun)
        && failed.written.lines().count() == replied.saturating_add(1)
        && last.starts_with("error ")
        && last.ends_with(" runtime fault")
}

/// A mark is the number of calls that the opening and the commands before it make.
pub fn marks_count(trial: &Trial<'_>) -> Result<String, Stop> {
    let whole = trial.run(&mut trial.device()?, trial.script)?;
    let mut len = 0_usize;
    for (line, mark) in trial.script.lines().zip(whole.ended.marks.as_slice()) {
        let before = trial.script.get(..len).unwrap_or("");
        if calls_of(trial, before)? != *mark {
            return Ok(format!(in trial.alloc; "{line} did not begin at call {mark}")?);
        }
        len = len.saturating_add(line.len()).saturating_add(1);
    }
    if len != trial.script.len() {
        return Err(Stop::Said("a command was not begun"));
    }
    ok(trial.alloc)
}

// How many calls a run of these lines makes.
fn calls_of(trial: &Trial<'_>, script: &str) -> Result<u64, Stop> {
    let mut dev = trial.device()?;
    trial.run(&mut dev, script)?;
    Ok(dev.calls())
}
