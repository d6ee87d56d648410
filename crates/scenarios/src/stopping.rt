// Runs that stop at each call of the device, and what crashes then leave.
use crate::judge::wrong_with;
use crate::owed::course_of;
use crate::stop::{Stop, ok};
use crate::trial::{MOST_CALLS, Trial};
use blob_device::{CrashChoice, Image};

/// All calls from each one on fail. Each crash then leaves what is owed.
pub fn each_call_stops(trial: &Trial<'_>, least: u64) -> Result<String, Stop> {
    let mut left = Vec::new(trial.alloc);
    stopped(trial, &CrashChoice::SAMPLES, least, &mut left)
}

/// The same; and of what is left each image of so many is opened by runs that stop at each call, and loses nothing.
pub fn stops_twice(trial: &Trial<'_>, step: u64) -> Result<String, Stop> {
    let mut left = Vec::new(trial.alloc);
    let said = stopped(trial, &CrashChoice::SAMPLES, 0, &mut left)?;
    if said.as_str() != "ok" {
        return Ok(said);
    }
    let choices = [CrashChoice::AsRead, CrashChoice::Mixed(10)];
    for image in left.iter().step_by((step as usize).max(1)) {
        let again = Trial {
            script: "",
            start: image,
            ..*trial
        };
        let said = stopped(&again, &choices, 0, &mut Vec::new(trial.alloc))?;
        if said.as_str() != "ok" {
            return Ok(said);
        }
    }
    ok(trial.alloc)
}

// What is wrong with what runs leave that stop at each call, if anything is. All that they leave is gathered.
fn stopped(
    trial: &Trial<'_>,
    choices: &[CrashChoice],
    least: u64,
    left: &mut Vec<Image>,
) -> Result<String, Stop> {
    let alloc = trial.alloc;
    let course = course_of(trial)?;
    let mut latest = Vec::new(alloc);
    for nth in 0..MOST_CALLS {
        let mut dev = trial.device()?;
        dev.fuse_at(nth);
        let run = trial.run(&mut dev, trial.script)?;
        let owed = course.owed(trial, &run)?;
        for choice in choices {
            let image = dev.pick_crash(alloc, *choice)?;
            let wrong = wrong_with(trial, &course, &mut latest, &image, &owed)?;
            if !wrong.is_empty() {
                return Ok(format!(in alloc; "stopped at call {nth}, {choice:?}: {wrong}")?);
            }
            left.push(image)?;
        }
        if dev.faults() > 0 {
            continue;
        }
        if nth >= least {
            return ok(alloc);
        }
        return Ok(format!(in alloc; "there are only {nth} calls")?);
    }
    Err(Stop::Said("the run has too many calls"))
}
